// The mailboxes of a store: it is opened, and a line of each is printed.
ghost use Rattle.std.specs.Prelude.{◌≡◌, ◌≢◌, ◌≤◌, ◌<◌, length, slice_get, IfOk, IfErr, Some};
ghost use Rattle.disk_model.specs.FaultCounts.{NoFault, AnyFaultCounted};
ghost use Rattle.mdbox_base.specs.Streams.{Rose};
ghost use Rattle.request_text.specs.declared.outcome.Outcome.TheVariants as outcome;
ghost use Rattle.script_run.specs.Opening.{IsUnopened};
ghost use Rattle.store_core.specs.Value.{indexes_of};
ghost use Rattle.mdbox_top.specs.BoxesRun.{BoxesMoments, BoxesOutcome, BoxesRests, AreBoxes, PrintsBoxes, box_rows};
ghost use Rattle.mdbox_top.specs.Numbers.{box_octets};

use crate::numbers::octets_in;
use crate::opening::outcome_of;
use box_index::BoxIndex;
use disk_model::Disk;
use mdbox_base::{BoxNo, Name, NoMemory, Octets, Seq, Sink};
use piece_writer::PrintError;
use request_text::{BoxRow, Outcome, print_boxes};
use script_run::safe_files_are_shown;
use std::alloc::Global;
use store_core::Store;
use store_open::{OpenRefused, open_store};

/// Opens the store, prints a line of each mailbox, and hands the disk back.
pub fn boxes<D: Disk, O: Sink>(alloc: Global, disk: D, output: &mut O) -> (Outcome, D)
    ensures ends { BoxesOutcome (O.held output.old) (O.held output.new) (D.history disk) (D.history result.1) (D.faults disk) (D.faults result.1) result.0 }
    ensures moments { BoxesMoments (D.history disk) (D.history result.1) }
    ensures rests { BoxesRests (result.0 ≡ outcome.DiskFault) (D.faults disk) (D.faults result.1) (D.history disk) (D.history result.1) }
    ensures disk_fault { AnyFaultCounted (result.0 ≡ outcome.DiskFault) (D.faults disk) (D.faults result.1) }
    ensures disk_quiet { result.0 ≢ outcome.DiskFault → NoFault (D.faults disk) (D.faults result.1) }
    ensures write_fault { result.0 ≡ outcome.WriteFault → Rose (O.faults output.old) (O.faults output.new) }
    ensures write_quiet { result.0 ≢ outcome.WriteFault → O.faults output.new ≡ O.faults output.old }
    ensures counted { O.faults output.old ≤ O.faults output.new }
{
    match open_alone(alloc, disk) {
        Ok(store) => {
            let ended = show_boxes(alloc, output, &store);
            (ended, store.into_disk())
        }
        Err(OpenRefused { error, disk }) => (outcome_of(error), disk),
    }
}

/// Opens the store for one lane.
fn open_alone<D: Disk>(alloc: Global, disk: D) -> Result<Store<D>, OpenRefused<D>>
    ensures are { IfOk result (λ store. AreBoxes (D.history disk) (D.history store.disk) (box_rows store.map.boxes (indexes_of store.boxes))) }
    ensures moments { IfOk result (λ store. BoxesMoments (D.history disk) (D.history store.disk)) }
    ensures unfailed { IfOk result (λ store. NoFault (D.faults disk) (D.faults store.disk)) }
    ensures refused { IfErr result (λ refused. IsUnopened refused.error (D.history disk) (D.history refused.disk) (D.faults disk) (D.faults refused.disk)) }
{
    safe_files_are_shown();
    match open_store(alloc, disk, 1) {
        Ok(store) => {
            store.facts();
            Ok(store)
        }
        Err(refused) => Err(refused),
    }
}

/// Prints a line of each mailbox.
fn show_boxes<D: Disk, O: Sink>(alloc: Global, output: &mut O, store: &Store<D>) -> Outcome
    ensures shown { PrintsBoxes (box_rows store.now.map.boxes (indexes_of store.now.boxes)) (O.held output.old) (O.held output.new) result }
    ensures write_fault { result ≡ outcome.WriteFault → Rose (O.faults output.old) (O.faults output.new) }
    ensures write_quiet { result ≢ outcome.WriteFault → O.faults output.new ≡ O.faults output.old }
    ensures counted { O.faults output.old ≤ O.faults output.new }
{
    let Ok(rows) = rows_of(alloc, store) else {
        return Outcome::NoMemory;
    };
    match print_boxes(alloc, output, rows.as_slice()) {
        Ok(()) => Outcome::Done,
        Err(PrintError::NoMemory) => Outcome::NoMemory,
        Err(PrintError::WriteFault) => Outcome::WriteFault,
    }
}

/// What is printed of each mailbox.
fn rows_of<D: Disk>(alloc: Global, store: &Store<D>) -> Result<Seq<BoxRow>, NoMemory>
    ensures { IfOk result (λ rows. rows ≡ box_rows store.now.map.boxes (indexes_of store.now.boxes)) }
{
    store.facts();
    store.map().known_facts();
    let mut rows = Seq::empty(alloc);
    for place in 0..store.map().boxes() {
        rows.push(row_at(alloc, store, place)?)?;
    }
    Ok(rows)
}

/// What is printed of the mailbox at a place.
fn row_at<D: Disk>(alloc: Global, store: &Store<D>, place: u32) -> Result<BoxRow, NoMemory>
    requires { place < length store.now.map.boxes }
    ensures { IfOk result (λ row. slice_get (box_rows store.now.map.boxes (indexes_of store.now.boxes)) place ≡ Some row) }
{
    store.facts();
    store.map().known_facts();
    let Some(at) = store.map().box_at(place) else {
        unreachable!()
    };
    let Some(index) = store.mailbox(at.number) else {
        unreachable!()
    };
    let Some(name) = store.map().box_name(at.number) else {
        unreachable!()
    };
    row_of(alloc, at.number, index, name)
}

/// What is printed of a mailbox with this number and this name, by what its log means.
fn row_of(alloc: Global, number: BoxNo, index: &BoxIndex, name: &Name) -> Result<BoxRow, NoMemory>
    ensures { IfOk result (λ row. row ≡ record { number = number.0; next_uid = index.now.meaning.next; messages = length index.now.meaning.rows; octets = box_octets index.now.meaning; name = name.now }) }
{
    let mut octets_of_name = Octets::empty(alloc);
    octets_of_name.push_all(name.as_octets())?;
    Ok(BoxRow {
        number: number.0,
        next_uid: next_of(index),
        messages: index.length(),
        octets: octets_in(index),
        name: octets_of_name,
    })
}

/// The UID that the next message of a mailbox gets, or the number after the greatest UID.
fn next_of(index: &BoxIndex) -> u32
    ensures { result ≡ index.now.meaning.next }
{
    match index.next_uid() {
        Some(uid) => uid.0,
        None => u32::MAX,
    }
}
