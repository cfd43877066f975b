// Listed messages without a record of their GUID.
ghost use Rattle.std.specs.Prelude.{◌≡◌, ◌↔◌, All, List, ℕ, IsTrue, IfOk, MatchOption, MatchBool};
ghost use Rattle.std.specs.Option.{option_map};
ghost use Rattle.gate_log.specs.Text.{IsLogText};
ghost use Rattle.model_store.specs.Opening.{HasItsRecord};
ghost use Rattle.box_index.specs.Row.{row_of};
ghost use Rattle.store_checks.specs.Replays.{IsBoxReplay};
ghost use Rattle.store_checks.specs.Dangling.{added_uid, LacksRecordAt, HasRecordAt, AddsDangling, AddsNoDangling, IsFirstDangling};

use crate::replay::BOX_VERSION;
use box_index::{BoxIndex, BoxRow};
use gate_log::LogText;
use log_records::read_box_entry;
use map_index::MapIndex;
use mdbox_base::{BoxEntry, NoMemory, Uid};
use std::alloc::Global;

/// Where the record stands that adds the first listed message without a record of its GUID. None where each has one.
pub fn first_dangling(
    alloc: Global,
    map: &MapIndex,
    index: &BoxIndex,
    text: &LogText,
) -> Result<Option<u64>, NoMemory>
    requires { (texts : List (List ℕ)) × IsLogText text.now texts × IsBoxReplay index.now.meaning texts }
    ensures { IfOk result (λ dangling. MatchOption dangling
        (All (HasItsRecord map.now.meaning) index.now.meaning.rows)
        (λ place. (texts : List (List ℕ)) → IsLogText text.now texts → IsFirstDangling map.now.meaning index.now.meaning texts place)) }
{
    if each_has_record(map, index) {
        return Ok(None);
    }
    let mut entries = text.entries();
    while let Some((place, entry)) = entries.next_entry() {
        if adds_dangling(alloc, map, index, entry)? {
            return Ok(Some(place));
        }
    }
    Ok(None)
}

/// Whether each listed message has a record of its GUID.
fn each_has_record(map: &MapIndex, index: &BoxIndex) -> bool
    ensures { IsTrue result ↔ All (HasItsRecord map.now.meaning) index.now.meaning.rows }
{
    for row in index.rows() {
        if !has_record(map, row) {
            return false;
        }
    }
    true
}

/// Whether a row has a record of its GUID.
fn has_record(map: &MapIndex, row: &BoxRow) -> bool
    ensures { IsTrue result ↔ HasItsRecord map.now.meaning (row_of row.now) }
{
    match map.row(row.map_uid) {
        Some(record) => record.guid == row.guid,
        None => false,
    }
}

/// Whether the text adds a listed message without a record of its GUID.
fn adds_dangling(
    alloc: Global,
    map: &MapIndex,
    index: &BoxIndex,
    text: &[u8],
) -> Result<bool, NoMemory>
    ensures { IfOk result (λ dangling. MatchBool dangling (AddsDangling map.now.meaning index.now.meaning text.now) (AddsNoDangling map.now.meaning index.now.meaning text.now)) }
{
    let Some(entry) = read_box_entry(alloc, text, BOX_VERSION)? else {
        return Ok(false);
    };
    let Some(uid) = added_uid(&entry) else {
        return Ok(false);
    };
    Ok(lacks_record(map, index, uid))
}

/// Whether a message with this UID is listed and has no record of its GUID.
fn lacks_record(map: &MapIndex, index: &BoxIndex, uid: Uid) -> bool
    ensures { MatchBool result (LacksRecordAt map.now.meaning index.now.meaning uid.0) (HasRecordAt map.now.meaning index.now.meaning uid.0) }
{
    match index.find(uid) {
        Some(row) => !has_record(map, row),
        None => false,
    }
}

/// The UID of the message that the entry adds.
fn added_uid(entry: &BoxEntry) -> Option<Uid>
    ensures { option_map (λ uid. uid.0) result ≡ added_uid entry.now }
{
    match entry {
        BoxEntry::A { uid, .. } => Some(*uid),
        _ => None,
    }
}
