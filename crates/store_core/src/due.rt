// What is due of records: numbers in the order of the map's records.
ghost use Rattle.std.specs.Prelude.{◌≡◌, ◌<◌, ◌^◌, ◌-◌, ◌+◌, length, fold, vec_len, vec_capacity};
ghost use Rattle.map_index.specs.Needs.{TakesMemory};
ghost use Rattle.mdbox_base.specs.declared.entries.MapEntry.TheVariants as map_entry;
ghost use Rattle.store_core.specs.Append.{due_change_of, change_beside, dues_by};
ghost use Rattle.mdbox_base.specs.declared.ids.MapUid.{MapUid};
ghost use Rattle.store_core.specs.Dues.{number_beside};
ghost use Rattle.store_core.specs.MapAppend.{dues_with};
ghost use Rattle.store_core.specs.declared.due.DueChange.TheVariants as change;

use box_index::BoxIndex;
use map_index::MapIndex;
use mdbox_base::{BoxEntry, MapEntry, MapUid};

/// What an entry of a mailbox's log makes of what is due: one less of the record of a message that is added, one more of that
/// of a message that is removed.
#[derive(Clone, Copy, Debug, PartialEq, Eq)]
pub enum DueChange {
    Stays,
    Rises(MapUid),
    Falls(MapUid),
}

/// What an entry will make of what is due, by the index that hasn't taken it in yet.
pub(crate) fn due_change(index: &BoxIndex, entry: &BoxEntry) -> DueChange
    ensures { result ≡ due_change_of index.now.meaning entry.now }
{
    match entry {
        BoxEntry::A { map_uid, .. } => DueChange::Falls(*map_uid),
        BoxEntry::R { uid } => match index.find(*uid) {
            Some(row) => DueChange::Rises(row.map_uid),
            None => DueChange::Stays,
        },
        BoxEntry::N { .. } | BoxEntry::F { .. } | BoxEntry::K { .. } => DueChange::Stays,
    }
}

/// Changes what is due.
pub(crate) fn change_due(map: &MapIndex, dues: &mut Vec<u32>, how: DueChange)
    requires size { length dues.old.items ≡ length map.now.meaning.records }
    requires room { (uid : MapUid) → how ≡ change.Rises uid → number_beside uid.0 map.now.meaning.records dues.old.items + 1 < 2 ^ 32 }
    ensures { dues.new.items ≡ dues_by how map.now.meaning.records dues.old.items }
{
    match how {
        DueChange::Stays => {}
        DueChange::Rises(uid) => raise_due(map, dues, uid),
        DueChange::Falls(uid) => lower_due(map, dues, uid),
    }
}

/// One more is due of the record with this map uid, where there is one.
pub(crate) fn raise_due(map: &MapIndex, dues: &mut Vec<u32>, uid: MapUid)
    requires size { length dues.old.items ≡ length map.now.meaning.records }
    requires room { number_beside uid.0 map.now.meaning.records dues.old.items + 1 < 2 ^ 32 }
    ensures { dues.new.items ≡ change_beside uid.0 (λ n. n + 1) map.now.meaning.records dues.old.items }
{
    if let Some(place) = map.place_of(uid) {
        dues[place as usize] += 1;
    }
}

/// One less is due of the record with this map uid, where there is one; of nothing, nothing.
pub(crate) fn lower_due(map: &MapIndex, dues: &mut Vec<u32>, uid: MapUid)
    requires size { length dues.old.items ≡ length map.now.meaning.records }
    ensures { dues.new.items ≡ change_beside uid.0 (λ n. n - 1) map.now.meaning.records dues.old.items }
{
    if let Some(place) = map.place_of(uid) {
        let due = dues[place as usize];
        dues[place as usize] = due.saturating_sub(1);
    }
}

/// Changes what is due as an entry of the map log says, by the index that hasn't taken it in yet. There is room for the number
/// of a message that is stored.
pub(crate) fn change_dues(map: &MapIndex, dues: &mut Vec<u32>, entry: &MapEntry)
    requires size { length dues.old.items ≡ length map.now.meaning.records }
    requires room { (uid : MapUid) → entry.now ≡ map_entry.U uid → number_beside uid.0 map.now.meaning.records dues.old.items + 1 < 2 ^ 32 }
    requires space { TakesMemory entry.now → vec_len dues.old < vec_capacity dues.old }
    ensures { dues.new.items ≡ dues_with entry.now map.now.meaning.records dues.old.items }
{
    match entry {
        MapEntry::U { uid } => raise_due(map, dues, *uid),
        MapEntry::D { uids } => lower_dues(map, dues, uids.as_slice()),
        MapEntry::S { count, .. } => dues.push_reserved(u32::from(*count)),
        _ => {}
    }
}

/// One less is due of each record that the list names.
fn lower_dues(map: &MapIndex, dues: &mut Vec<u32>, uids: &[MapUid])
    requires size { length dues.old.items ≡ length map.now.meaning.records }
    ensures { dues.new.items ≡ fold (λ numbers uid. change_beside uid.0 (λ n. n - 1) map.now.meaning.records numbers) dues.old.items uids.now }
{
    for uid in uids {
        lower_due(map, dues, *uid);
    }
}
