// What came back by a rebuild: the new logs are read, and what they list is told.
ghost use Rattle.std.specs.Prelude.{◌≡◌, ◌<◌, ◌++◌, flat_map, length, map, IfOk, IsErrOf, OnOk};
ghost use Rattle.disk_model.specs.Disk.{IsIdle};
ghost use Rattle.disk_model.specs.FaultCounts.{NoFault, ReadFaultCounted};
ghost use Rattle.mdbox_top.specs.BoxesRun.{box_rows};
ghost use Rattle.mdbox_top.specs.RebuildRun.{TellsRebuilt, TellsRow, row_told};

use disk_model::Disk;
use mdbox_base::{NoMemory, Octets, push_decimal};
use script_run::safe_files_are_shown;
use std::alloc::Global;
use store_checks::{CheckError, Checked, check_store};

/// Why it isn't told what came back.
#[derive(Clone, Copy, Debug, PartialEq, Eq)]
pub(crate) enum BackError {
    /// A read failed; the disk has counted it.
    DiskFault,
    NoMemory,
}

/// The text that tells what came back: a line for each mailbox. The logs are read, and nothing changes. A disk that is settled passes the
/// checks; of one that doesn't, nothing is told.
pub(crate) fn read_back<D: Disk>(alloc: Global, disk: &mut D) -> Result<Octets, BackError>
    ensures told { IfOk result (TellsRebuilt (D.history disk.new)) }
    ensures idle { IsIdle (D.history disk.old) (D.history disk.new) }
    ensures fault { ReadFaultCounted (IsErrOf result BackError.DiskFault) (D.faults disk.old) (D.faults disk.new) }
    ensures unfailed { (IsErrOf result BackError.DiskFault → ⊥) → NoFault (D.faults disk.old) (D.faults disk.new) }
{
    safe_files_are_shown();
    match check_store(alloc, disk) {
        Ok(checked) => match told_rows(alloc, &checked) {
            Ok(text) => Ok(text),
            Err(NoMemory) => Err(BackError::NoMemory),
        },
        Err(CheckError::DiskFault) => Err(BackError::DiskFault),
        Err(CheckError::NoMemory) => Err(BackError::NoMemory),
        Err(CheckError::NoStore) => Ok(Octets::empty(alloc)),
        Err(CheckError::Damaged(..)) => Ok(Octets::empty(alloc)),
    }
}

/// A line for each mailbox of a store that passed the checks.
fn told_rows(alloc: Global, checked: &Checked) -> Result<Octets, NoMemory>
    requires { length checked.now.boxes ≡ length checked.now.map.meaning.boxes }
    ensures { IfOk result (λ text. text ≡ flat_map row_told (box_rows checked.now.map.meaning.boxes (map (λ b. b.index.meaning) checked.now.boxes))) }
{
    let mut text = Octets::empty(alloc);
    for place in 0..checked.map.boxes() {
        push_told(&mut text, checked, place)?;
    }
    Ok(text)
}

/// Adds the line of the mailbox at a place.
fn push_told(text: &mut Octets, checked: &Checked, place: u32) -> Result<(), NoMemory>
    requires place { place < length checked.now.map.meaning.boxes }
    requires boxes { length checked.now.boxes ≡ length checked.now.map.meaning.boxes }
    ensures { OnOk result (TellsRow (box_rows checked.now.map.meaning.boxes (map (λ b. b.index.meaning) checked.now.boxes)) place text.old text.new) }
{
    checked.map.known_facts();
    let Some(at) = checked.map.box_at(place) else {
        unreachable!()
    };
    let Some(name) = checked.map.box_name(at.number) else {
        unreachable!()
    };
    let Some(mailbox) = checked.boxes.at(place as usize) else {
        unreachable!()
    };
    text.push_all(name.as_octets())?;
    text.push_all(b" ")?;
    push_decimal(text, mailbox.index.length() as u64)?;
    text.push_all(b"\n")
}
