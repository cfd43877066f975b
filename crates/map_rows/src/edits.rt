// Changes of records in a vector: of one, which is found by search, or of all that two lists name.
ghost use Rattle.std.specs.Prelude.{◌≡◌, ◌<◌, ◌≤◌, ◌==◌, ◌∷◌, [], map, filter, not, All, AllPairs, vec_len, vec_capacity};
ghost use Rattle.std.specs.List.Sorted.{IsStrictlyIncreasing};
ghost use Rattle.model_meaning.specs.MapMeaning.{record_changed, has_map_uid, place_given, moved_record};
ghost use Rattle.mdbox_base.specs.declared.entries.MapEntry.TheVariants as entry;
ghost use Rattle.map_rows.specs.Lookups.{lowered_by, meant_record};

use crate::listed::{is_listed, place_given};
use crate::rows::{MapRow, Record, place_with_uid};
use mdbox_base::{FileNo, MapCount, MapPlace, MapUid};

/// Raises the count of a record by one, if there is one of this map uid.
pub fn raise(records: &mut Vec<Record>, uid: MapUid)
    requires rising { AllPairs (λ a b. a.row.uid.0 < b.row.uid.0) records.old.items }
    requires rise { All (λ row. uid.0 ≡ row.uid → row.count ≤ 65534) (map meant_record records.old.items) }
    ensures records { map meant_record records.new.items ≡ map (record_changed (entry.U uid)) (map meant_record records.old.items) }
    ensures space { (vec_len records.new ≡ vec_len records.old) × (vec_capacity records.new ≡ vec_capacity records.old) }
{
    let place = place_with_uid(records, uid);
    if place < records.len() {
        let old = records[place].row;
        let row = MapRow {
            count: old.count.saturating_add(1),
            ..old
        };
        records[place].row = row;
    }
}

/// Lowers the count of a record by one, if there is one of this map uid.
pub fn lower(records: &mut Vec<Record>, uid: MapUid)
    requires { AllPairs (λ a b. a.row.uid.0 < b.row.uid.0) records.old.items }
    ensures records { map meant_record records.new.items ≡ map (record_changed (entry.D (uid ∷ []))) (map meant_record records.old.items) }
    ensures space { (vec_len records.new ≡ vec_len records.old) × (vec_capacity records.new ≡ vec_capacity records.old) }
{
    let place = place_with_uid(records, uid);
    if place < records.len() {
        let old = records[place].row;
        let row = MapRow {
            count: old.count.saturating_sub(1),
            ..old
        };
        records[place].row = row;
    }
}

/// Sets the count of a record, if there is one of this map uid.
pub fn set_count(records: &mut Vec<Record>, given: MapCount)
    requires { AllPairs (λ a b. a.row.uid.0 < b.row.uid.0) records.old.items }
    ensures records { map meant_record records.new.items ≡ map (record_changed (entry.T (given ∷ []))) (map meant_record records.old.items) }
    ensures space { (vec_len records.new ≡ vec_len records.old) × (vec_capacity records.new ≡ vec_capacity records.old) }
{
    let place = place_with_uid(records, given.uid);
    if place < records.len() {
        let old = records[place].row;
        let row = MapRow {
            count: given.count,
            ..old
        };
        records[place].row = row;
    }
}

/// Lowers the count of a record by an amount, if there is one of this map uid.
pub fn lower_by(records: &mut Vec<Record>, given: MapCount)
    requires { AllPairs (λ a b. a.row.uid.0 < b.row.uid.0) records.old.items }
    ensures records { map meant_record records.new.items ≡ map (lowered_by (given ∷ [])) (map meant_record records.old.items) }
    ensures space { (vec_len records.new ≡ vec_len records.old) × (vec_capacity records.new ≡ vec_capacity records.old) }
{
    let place = place_with_uid(records, given.uid);
    if place < records.len() {
        let old = records[place].row;
        let row = MapRow {
            count: old.count.saturating_sub(given.count),
            ..old
        };
        records[place].row = row;
    }
}

/// Moves each record that one list names to its new place in this file, and takes out those that the other names, in one
/// pass.
pub fn switch_each(records: &mut Vec<Record>, target: u32, moved: &[MapPlace], dropped: &[MapUid])
    requires moved { IsStrictlyIncreasing (map (λ p. p.uid.0) moved.now) }
    requires dropped { IsStrictlyIncreasing (map (λ u. u.0) dropped.now) }
    ensures records { map meant_record records.new.items ≡ map (λ row. moved_record row target (place_given row.uid moved.now)) (filter (λ row. not (has_map_uid row.uid dropped.now)) (map meant_record records.old.items)) }
    ensures space { (vec_len records.new ≤ vec_len records.old) × (vec_capacity records.new ≡ vec_capacity records.old) }
{
    records.retain_mut(|record| switch_record(record, target, moved, dropped));
}

/// Moves a record to its new place in this file, if one list names it. False if and only if the other does.
fn switch_record(record: &mut Record, target: u32, moved: &[MapPlace], dropped: &[MapUid]) -> bool
    requires moved { IsStrictlyIncreasing (map (λ p. p.uid.0) moved.now) }
    requires dropped { IsStrictlyIncreasing (map (λ u. u.0) dropped.now) }
    ensures stays { result ≡ not (has_map_uid record.old.row.uid.0 dropped.now) }
    ensures record { meant_record record.new ≡ moved_record (meant_record record.old) target (place_given record.old.row.uid.0 moved.now) }
{
    let old = record.row;
    if let Some(place) = place_given(moved, old.uid) {
        record.row = MapRow {
            file: FileNo(target),
            offset: place.offset,
            ..old
        };
    }
    !is_listed(dropped, old.uid)
}
