// The logs of the mailboxes of a rebuilt store.
ghost use Rattle.std.specs.Prelude.{◌≡◌, ◌+◌, ◌<◌, ◌^◌, [], List, length, map, IfOk, IsErr};
ghost use Rattle.mdbox_base.specs.declared.entries.BoxEntry.TheVariants as entry;
ghost use Rattle.model_logs.specs.Entries.{BoxInRange, box_text};
ghost use Rattle.model_rebuild.specs.RebuiltLogs.{rebuilt_box};
ghost use Rattle.model_taken.specs.Taken.{TakenMessage};
ghost use Rattle.rebuild_judge.specs.Kept.{taken_row};
ghost use Rattle.store_rebuild.specs.NewLogs.{IsWithMessage, box_logs_for};

use crate::draft::{Draft, NewLog};
use mdbox_base::{BoxEntry, Guid, MapUid, Name, NoMemory, Seq, Uid};
use rebuild_judge::TakenRow;
use std::alloc::Global;

/// The log of each of these mailboxes.
pub fn new_boxes(alloc: Global, names: &[Name], taken: &[TakenRow]) -> Result<Vec<NewLog>, NoMemory>
    ensures logs { IfOk result (λ logs. (messages : List TakenMessage) → taken.now ≡ map taken_row messages → logs.items ≡ box_logs_for names.now messages) }
    ensures one_each { IfOk result (λ logs. length logs.items ≡ length names.now) }
{
    let mut logs = Vec::new(alloc);
    let mut rest = names;
    while let Some((name, others)) = rest.split_first() {
        let log = new_box(alloc, name, taken)?;
        logs.push(log)?;
        rest = others;
    }
    Ok(logs)
}

/// The log of the mailbox with this name: its messages, with UIDs from 1.
fn new_box(alloc: Global, name: &Name, taken: &[TakenRow]) -> Result<NewLog, NoMemory>
    ensures { IfOk result (λ log. (messages : List TakenMessage) → taken.now ≡ map taken_row messages → log ≡ map box_text (rebuilt_box name.now messages)) }
{
    let mut draft = Draft::empty(alloc);
    let mut uid = 1;
    let mut map_uid = 1;
    let mut rest = taken;
    while let Some((row, others)) = rest.split_first() {
        let (more, next) = with_message(alloc, draft, name, uid, map_uid, row)?;
        draft = more;
        uid = next;
        map_uid = next_number(map_uid)?;
        rest = others;
    }
    let log = draft.with_room(alloc)?;
    Ok(log)
}

/// The entries, with that of a message if it goes to the mailbox with this name; and the next UID.
fn with_message(
    alloc: Global,
    draft: Draft,
    name: &Name,
    uid: u32,
    map_uid: u32,
    row: &TakenRow,
) -> Result<(Draft, u32), NoMemory>
    ensures { IfOk result (λ more. IsWithMessage name.now uid map_uid row.now draft more.0 more.1) }
{
    if row.mailbox.as_octets() != name.as_octets() {
        return Ok((draft, uid));
    }
    let entry = added(alloc, uid, map_uid, row.time, row.whole, row.guid);
    let draft = draft.push_box(alloc, &entry)?;
    let next = next_number(uid)?;
    Ok((draft, next))
}

/// The entry of a message that is added, without flags and keywords.
fn added(alloc: Global, uid: u32, map_uid: u32, time: u64, size: u32, guid: Guid) -> BoxEntry
    ensures entry { result ≡ entry.A (record { 0 = uid }) 0 time size (record { 0 = map_uid }) guid [] }
    ensures range { BoxInRange result }
{
    BoxEntry::A {
        uid: Uid(uid),
        flags: 0,
        time,
        size,
        map_uid: MapUid(map_uid),
        guid,
        words: Seq::empty(alloc),
    }
}

/// The number behind this one. The greatest of its type has none.
pub fn next_number(number: u32) -> Result<u32, NoMemory>
    ensures next { IfOk result (λ next. next ≡ number + 1) }
    ensures fits { number < 4294967295 → IsErr result → ⊥ }
{
    match number.checked_add(1) {
        Some(next) => Ok(next),
        None => Err(NoMemory),
    }
}
