// The entries of a mailbox log that is written anew, by their places.
ghost use Rattle.std.specs.Prelude.{◌≡◌, ◌<◌, ◌≤◌, ◌+◌, Some, IfOk, drop, length, slice_get, take};
ghost use Rattle.box_index.specs.Row.{row_of};
ghost use Rattle.model_rewritten.specs.Rewriting.{box_snapshot, next_from, row_entry};

use box_index::{BoxIndex, BoxRow};
use mdbox_base::{BoxEntry, NoMemory, Seq};
use std::alloc::Global;

/// How many entries are written at once.
const GROUP: u32 = 16;

/// How many entries the log of a mailbox has when it is written anew.
pub(crate) fn entries_in(index: &BoxIndex) -> u32
    ensures entries { result ≡ length (box_snapshot index.now.meaning) }
    ensures few { result ≤ 1000001 }
{
    index.known_facts();
    if next_behind(index) == next_of(index) {
        index.length()
    } else {
        index.length() + 1
    }
}

/// Up to 16 entries of the log when it is written anew, from a place on.
pub(crate) fn group_of(
    alloc: Global,
    index: &BoxIndex,
    from: u32,
) -> Result<Seq<BoxEntry>, NoMemory>
    requires { from ≤ length (box_snapshot index.now.meaning) }
    ensures { IfOk result (λ group. group ≡ take 16 (drop from (box_snapshot index.now.meaning))) }
{
    let size = (entries_in(index) - from).min(GROUP);
    let mut group = Vec::with_capacity(alloc, size as usize)?;
    for taken in 0..size {
        group.push(entry_at(alloc, index, from + taken)?)?;
    }
    Ok(Seq::of(group))
}

/// The entry at a place of the log when it is written anew, from 0: those of the messages in UID order, and then the next UID.
fn entry_at(alloc: Global, index: &BoxIndex, place: u32) -> Result<BoxEntry, NoMemory>
    requires { place < length (box_snapshot index.now.meaning) }
    ensures { IfOk result (λ entry. slice_get (box_snapshot index.now.meaning) place ≡ Some entry) }
{
    match index.row_at(place) {
        Some(row) => added(alloc, row),
        None => Ok(BoxEntry::N {
            next: next_of(index),
        }),
    }
}

/// The entry that adds a message as it is now.
fn added(alloc: Global, row: &BoxRow) -> Result<BoxEntry, NoMemory>
    ensures { IfOk result (λ entry. entry ≡ row_entry (row_of row.now)) }
{
    Ok(BoxEntry::A {
        uid: row.uid,
        flags: row.flags.bits(),
        time: row.time,
        size: row.size,
        map_uid: row.map_uid,
        guid: row.guid,
        words: row.words.texts(alloc)?,
    })
}

/// The next UID, which no message may have if it is 4,294,967,295.
fn next_of(index: &BoxIndex) -> u32
    ensures { result ≡ index.now.meaning.next }
{
    match index.next_uid() {
        Some(uid) => uid.0,
        None => u32::MAX,
    }
}

/// One more than the last message's UID, 1 where there is no message.
fn next_behind(index: &BoxIndex) -> u32
    ensures { result ≡ next_from 1 index.now.meaning.rows }
{
    index.known_facts();
    match index.length().checked_sub(1) {
        Some(last) => index.row_at(last).unwrap().uid.0 + 1,
        None => 1,
    }
}
