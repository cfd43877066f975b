// The entries of a map log that is written anew, by their places.
ghost use Rattle.std.specs.Prelude.{◌≡◌, ◌<◌, ◌≤◌, ◌+◌, ◌^◌, Some, IfOk, drop, length, map, slice_get, take};
ghost use Rattle.model_rewritten.specs.Rewriting.{made_entry, map_snapshot, seal_entry, stored_again};

use map_index::MapIndex;
use mdbox_base::{MapEntry, Name, NoMemory, Seq, name_of};
use std::alloc::Global;

/// How many entries are written at once.
const GROUP: u64 = 16;

/// How many entries the map log has when it is written anew.
pub(crate) fn entries_in(index: &MapIndex) -> u64
    ensures { result ≡ length (map_snapshot index.now.meaning) }
{
    u64::from(index.boxes()) + u64::from(index.rows()) + u64::from(index.sealed()) + 1
}

/// Up to 16 entries of the map log when it is written anew, from a place on.
pub(crate) fn group_of(
    alloc: Global,
    index: &MapIndex,
    from: u64,
) -> Result<Seq<MapEntry>, NoMemory>
    requires { from ≤ length (map_snapshot index.now.meaning) }
    ensures group { IfOk result (λ group. group ≡ take 16 (drop from (map_snapshot index.now.meaning))) }
    ensures end { IfOk result (λ group. from + length group < 2 ^ 64) }
{
    let size = (entries_in(index) - from).min(GROUP);
    let mut group = Vec::with_capacity(alloc, size as usize)?;
    for taken in 0..size {
        group.push(entry_at(alloc, index, from + taken)?)?;
    }
    Ok(Seq::of(group))
}

/// The entry at a place of the map log when it is written anew, from 0: those of the mailboxes, of the records and of the sealed
/// files, and then the highest numbers.
fn entry_at(alloc: Global, index: &MapIndex, place: u64) -> Result<MapEntry, NoMemory>
    requires { place < length (map_snapshot index.now.meaning) }
    ensures { IfOk result (λ entry. slice_get (map_snapshot index.now.meaning) place ≡ Some entry) }
{
    let boxes = u64::from(index.boxes());
    let stored = boxes + u64::from(index.rows());
    let sealed = stored + u64::from(index.sealed());
    if place < boxes {
        made_at(alloc, index, place as u32)
    } else if place < stored {
        stored_at(alloc, index, (place - boxes) as u32)
    } else if place < sealed {
        Ok(seal_at(index, (place - stored) as u32))
    } else {
        Ok(MapEntry::H(index.highest()))
    }
}

/// The entry that makes the mailbox at a place.
fn made_at(alloc: Global, index: &MapIndex, place: u32) -> Result<MapEntry, NoMemory>
    requires { place < length index.now.meaning.boxes }
    ensures { IfOk result (λ entry. slice_get (map made_entry index.now.meaning.boxes) place ≡ Some entry) }
{
    index.known_facts();
    let at = index.box_at(place).unwrap();
    let name = index.box_name(at.number).unwrap();
    Ok(MapEntry::B {
        mailbox: at.number,
        generation: at.generation,
        name: copied_name(alloc, name)?,
    })
}

/// The entry that stores the message of the record at a place, with its count.
fn stored_at(alloc: Global, index: &MapIndex, place: u32) -> Result<MapEntry, NoMemory>
    requires { place < length index.now.meaning.records }
    ensures { IfOk result (λ entry. slice_get (map stored_again index.now.meaning.records) place ≡ Some entry) }
{
    let row = index.row_at(place).unwrap();
    let instances = index.instances_at(place).unwrap();
    Ok(MapEntry::S {
        origin: row.origin,
        count: row.count,
        uid: row.uid,
        file: row.file,
        offset: row.offset,
        size: row.size,
        guid: row.guid,
        instances: Seq::of(Vec::from_slice(alloc, instances.as_slice())?),
    })
}

/// The entry that seals the file at a place.
fn seal_at(index: &MapIndex, place: u32) -> MapEntry
    requires { place < length index.now.meaning.sealed }
    ensures { slice_get (map seal_entry index.now.meaning.sealed) place ≡ Some result }
{
    let file = index.sealed_at(place).unwrap();
    MapEntry::E { file }
}

/// The same name once more.
fn copied_name(alloc: Global, name: &Name) -> Result<Name, NoMemory>
    ensures { IfOk result (λ copy. copy ≡ name.now) }
{
    Ok(name_of(alloc, name.as_octets())?.unwrap())
}
