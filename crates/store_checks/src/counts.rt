// Counts of records against listed messages.
ghost use Rattle.std.specs.Prelude.{◌≡◌, All, IfOk, MatchBool, length};
ghost use Rattle.store_checks.specs.Checked.{listed_by, counts_in, once, IsCountedIn, IsMiscountedIn, AreTakenOff, IsUsedUp};

use crate::mailbox::CheckedBox;
use box_index::BoxIndex;
use map_index::MapIndex;
use mdbox_base::{MapUid, NoMemory};
use std::alloc::Global;

/// Whether each record's count is at least the number of its listed messages.
pub fn are_counted(alloc: Global, map: &MapIndex, boxes: &[CheckedBox]) -> Result<bool, NoMemory>
    ensures { IfOk result (λ counted. MatchBool counted (All (IsCountedIn boxes.now) map.now.meaning.records) (IsMiscountedIn map.now.meaning boxes.now)) }
{
    let mut counts = counts_of(alloc, map)?;
    let left = counts.as_mut_slice();
    for mailbox in boxes {
        if !take_off(map, &mailbox.index, left) {
            return Ok(false);
        }
    }
    Ok(true)
}

/// The counts of the records, by their places.
fn counts_of(alloc: Global, map: &MapIndex) -> Result<Vec<u16>, NoMemory>
    ensures { IfOk result (λ counts. counts.items ≡ counts_in map.now.meaning) }
{
    let mut counts = Vec::with_capacity(alloc, map.rows() as usize)?;
    for place in 0..map.rows() {
        counts.push(map.row_at(place).unwrap().count)?;
    }
    Ok(counts)
}

/// Takes each listed message off what is left of its record's count. False if and only if too little is left of one.
fn take_off(map: &MapIndex, index: &BoxIndex, left: &mut [u16]) -> bool
    requires { length left.old ≡ length map.now.meaning.records }
    ensures { MatchBool result
        (AreTakenOff (λ uid. listed_by uid index.now.meaning) map.now.meaning.records left.old left.new)
        (IsUsedUp (λ uid. listed_by uid index.now.meaning) map.now.meaning.records left.old) }
{
    for row in index.rows() {
        if !take_one(map, row.map_uid, left) {
            return false;
        }
    }
    true
}

/// Takes one off what is left of the count of the record with this map uid, if there is one. False if and only if nothing
/// is left of it.
fn take_one(map: &MapIndex, uid: MapUid, left: &mut [u16]) -> bool
    requires { length left.old ≡ length map.now.meaning.records }
    ensures { MatchBool result
        (AreTakenOff (once uid.0) map.now.meaning.records left.old left.new)
        (IsUsedUp (once uid.0) map.now.meaning.records left.old) }
{
    map.known_facts();
    let Some(place) = map.place_of(uid) else {
        return true;
    };
    let rest = &mut left[place as usize];
    if *rest == 0 {
        return false;
    }
    *rest -= 1;
    true
}
