// Appends to the log of a mailbox.
ghost use Rattle.std.specs.Prelude.{◌≡◌, ◌≢◌, ◌+◌, ◌<◌, ◌≤◌, ◌∷◌, ◌++◌, [], ℕ, List, length, slice_get, Some, All, IfOk, IfSome, IfNone, MatchOption, OnOk, OnErr, IsErr, IsErrOf};
ghost use Rattle.std.specs.Option.{option_map};
ghost use Rattle.disk_model.specs.Disk.{EachImage, OthersStay, SameButFor, Grows};
ghost use Rattle.disk_model.specs.FaultCounts.{NoFault, ChangeFaultCounted};
ghost use Rattle.gate_log.specs.Log.{Reads, Holds};
ghost use Rattle.gate_log.specs.State.{IsSameLog};
ghost use Rattle.mdbox_base.specs.Keywords.{WantsMemory};
ghost use Rattle.model_logs.specs.Entries.{box_text, BoxInRange};
ghost use Rattle.model_meaning.specs.BoxMeaning.{BoxFits, box_applied, row_made};
ghost use Rattle.store_core.specs.Append.{AddsText, IsSameBox};
ghost use Rattle.store_core.specs.Value.{entry_room};
ghost use Rattle.store_core.specs.declared.error.StepError.TheVariants as step_error;

use crate::error::StepError;
use crate::store::OpenBox;
use disk_model::Disk;
use gate_log::{DiskFault, GateLog, LogRoom};
use log_records::{box_entry_size, put_box_entry};
use mdbox_base::{BoxEntry, BoxNo, NoMemory};
use std::alloc::Global;

/// How many octets an entry of a mailbox's log has at the most: one of an added message with 32 keywords of 64 octets.
const LONGEST: usize = 2119;

/// Adds an entry to a log that has room for it.
fn append_text<D: Disk>(log: &mut GateLog, disk: &mut D, entry: &BoxEntry) -> Result<(), DiskFault>
    requires read { (entries : List (List ℕ)) × Reads log.old entries (D.history disk.old) }
    requires range { BoxInRange entry.now }
    requires short { length (box_text entry.now) ≤ 2119 }
    requires room { length (box_text entry.now) + 5 ≤ log.old.room }
    ensures any_moment { AddsText log.old (box_text entry.now) (D.history disk.old) (D.history disk.new) }
    ensures others_stay { EachImage (λ _ image. OthersStay log.old.name (D.history disk.old) image) (D.history disk.old) (D.history disk.new) }
    ensures grows { Grows (D.history disk.old) (D.history disk.new) }
    ensures added { OnOk result ((entries : List (List ℕ)) → Reads log.old entries (D.history disk.old) → Reads log.new (entries ++ box_text entry.now ∷ []) (D.history disk.new)) }
    ensures held { OnOk result ((entries : List (List ℕ)) → Holds log.old entries (D.history disk.old) → Holds log.new (entries ++ box_text entry.now ∷ []) (D.history disk.new)) }
    ensures others { OnOk result (SameButFor log.old.name (D.history disk.old) (D.history disk.new)) }
    ensures fault { ChangeFaultCounted (IsErr result) (D.faults disk.old) (D.faults disk.new) }
    ensures unfailed { OnOk result (NoFault (D.faults disk.old) (D.faults disk.new)) }
    ensures log { IsSameLog log.old log.new }
    ensures count { OnOk result (log.new.count ≡ log.old.count + 1) }
{
    let mut room = [0; LONGEST];
    let text = &mut room[..box_entry_size(entry)];
    put_box_entry(text, entry);
    log.append(disk, text)
}

/// Room in a log for an entry. None if it has enough.
fn room_for(alloc: Global, log: &GateLog, entry: &BoxEntry) -> Result<Option<LogRoom>, NoMemory>
    requires range { BoxInRange entry.now }
    requires short { length (box_text entry.now) ≤ 2119 }
    requires room { entry_room ≤ log.now.room }
    ensures enough { IfOk result (λ room. MatchOption room (length (box_text entry.now) + 5 ≤ log.now.room) (λ octets. length (box_text entry.now) + 5 ≤ octets)) }
    ensures memory { IsErr result → WantsMemory entry.now }
{
    let octets = box_entry_size(entry) + 5;
    if octets <= log.room() {
        return Ok(None);
    }
    Ok(Some(LogRoom::of(alloc, octets as u32)?))
}

/// Takes the memory for an entry: room in the log for its octets, and in the index for a message. The entry that is handed out
/// is the same.
fn take_memory(
    alloc: Global,
    open_box: &mut OpenBox,
    entry: &BoxEntry,
) -> Result<BoxEntry, NoMemory>
    requires range { BoxInRange entry.now }
    requires short { length (box_text entry.now) ≤ 2119 }
    requires room { entry_room ≤ open_box.old.log.room }
    ensures entry { IfOk result (λ own. own ≡ entry.now) }
    ensures log { OnOk result (length (box_text entry.now) + 5 ≤ open_box.new.log.room) }
    ensures index { OnOk result (row_made entry.now ≢ [] → 1 ≤ open_box.new.index.room) }
    ensures no_less { open_box.old.log.room ≤ open_box.new.log.room }
    ensures same { open_box.new ≡ record open_box.old { log = record open_box.old.log { room = open_box.new.log.room }; index = record open_box.old.index { room = open_box.new.index.room } } }
    ensures err { OnErr result (open_box.new ≡ open_box.old) }
    ensures memory { IsErr result → WantsMemory entry.now }
{
    let own = entry.copied(alloc)?;
    let room = room_for(alloc, &open_box.log, entry)?;
    if let BoxEntry::A { .. } = entry {
        open_box.index.reserve_row()?;
    }
    if let Some(room) = room {
        open_box.log.take_room(room);
    }
    Ok(own)
}

/// Adds an entry to a mailbox's log, and takes it in. All memory is taken before anything is written.
pub(crate) fn append_in<D: Disk>(
    alloc: Global,
    open_box: &mut OpenBox,
    disk: &mut D,
    entry: &BoxEntry,
) -> Result<(), StepError>
    requires read { (entries : List (List ℕ)) × Reads open_box.old.log entries (D.history disk.old) }
    requires range { BoxInRange entry.now }
    requires fits { BoxFits open_box.old.index.meaning entry.now }
    requires room { entry_room ≤ open_box.old.log.room }
    ensures any_moment { (IsErrOf result step_error.NoMemory → ⊥) → AddsText open_box.old.log (box_text entry.now) (D.history disk.old) (D.history disk.new) }
    ensures others_stay { (IsErrOf result step_error.NoMemory → ⊥) → EachImage (λ _ image. OthersStay open_box.old.log.name (D.history disk.old) image) (D.history disk.old) (D.history disk.new) }
    ensures grows { Grows (D.history disk.old) (D.history disk.new) }
    ensures added { OnOk result ((entries : List (List ℕ)) → Reads open_box.old.log entries (D.history disk.old) → Reads open_box.new.log (entries ++ box_text entry.now ∷ []) (D.history disk.new)) }
    ensures held { OnOk result ((entries : List (List ℕ)) → Holds open_box.old.log entries (D.history disk.old) → Holds open_box.new.log (entries ++ box_text entry.now ∷ []) (D.history disk.new)) }
    ensures others { OnOk result (SameButFor open_box.old.log.name (D.history disk.old) (D.history disk.new)) }
    ensures taken { OnOk result (open_box.new.index.meaning ≡ box_applied entry.now open_box.old.index.meaning) }
    ensures untaken { IsErr result → open_box.new.index.meaning ≡ open_box.old.index.meaning }
    ensures memory { IsErrOf result step_error.NoMemory → (open_box.new ≡ open_box.old) × (disk.new ≡ disk.old) × WantsMemory entry.now }
    ensures fault { ChangeFaultCounted (IsErrOf result step_error.Stopped) (D.faults disk.old) (D.faults disk.new) }
    ensures unfailed { OnOk result (NoFault (D.faults disk.old) (D.faults disk.new)) }
    ensures same { IsSameBox open_box.old open_box.new }
    ensures counted { OnOk result (open_box.new.log.count ≡ open_box.old.log.count + 1) }
{
    let own = take_memory(alloc, open_box, entry)?;
    append_text(&mut open_box.log, disk, entry)?;
    match open_box.index.apply(own) {
        Ok(()) => Ok(()),
        Err(NoMemory) => unreachable!(),
    }
}

/// Where the mailbox with this number stands.
pub(crate) fn place_of(boxes: &[OpenBox], number: BoxNo) -> Option<usize>
    ensures some { IfSome result (λ place. (place < length boxes.now) × (option_map (λ b. b.number.0) (slice_get boxes.now place) ≡ Some number.0)) }
    ensures none { IfNone result (All (λ b. b.number.0 ≢ number.0) boxes.now) }
{
    for place in 0..boxes.len() {
        if boxes[place].number.0 == number.0 {
            return Some(place);
        }
    }
    None
}
