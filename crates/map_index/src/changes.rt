// What an entry of the map log does to the records, the mailboxes and the sealed files.
ghost use Rattle.std.specs.Prelude.{◌≡◌, ◌+◌, ◌-◌, ◌<◌, ◌≤◌, ◌==◌, filter, map, not, vec_len, vec_capacity, IsErr, IfOk, MatchOption, AllPairs};
ghost use Rattle.model_meaning.specs.Rows.{rows_by};
ghost use Rattle.model_meaning.specs.MapMeaning.{record_rules, box_changed, box_rules, sealed_by, with_number};
ghost use Rattle.mdbox_base.specs.declared.entries.MapEntry.TheVariants as entry;
ghost use Rattle.map_index.specs.Shown.{box_of};
ghost use Rattle.map_index.specs.Needs.{FitsTable, TakesMemory};
ghost use Rattle.map_index.specs.Value.{room_for};

use crate::listed::{lower_by_each, lower_each, set_counts};
use crate::rows::{BoxAt, Mailbox, place_with_number};
use map_rows::{MapRow, Record, Table};
use mdbox_base::{BoxNo, FileNo, InstRow, MapEntry, Name, NoMemory, Seq, name_of};
use std::alloc::Global;

/// Takes an entry into the records, the mailboxes and the sealed files, which have room for it.
pub fn take_parts(
    records: &mut Table,
    boxes: &mut Vec<Mailbox>,
    files: &mut Vec<FileNo>,
    entry: MapEntry,
)
    requires fits { FitsTable entry records.old.records }
    requires boxes_rising { AllPairs (λ a b. a.at.number.0 < b.at.number.0) boxes.old.items }
    requires files_rising { AllPairs (λ a b. a.0 < b.0) files.old.items }
    requires room_records { (room_for entry).records ≤ records.old.record_room }
    requires room_instances { (room_for entry).instances ≤ records.old.instance_room }
    requires room_boxes { vec_len boxes.old + (room_for entry).boxes ≤ vec_capacity boxes.old }
    requires room_files { vec_len files.old + (room_for entry).files ≤ vec_capacity files.old }
    ensures records { records.new ≡ record {
      records = rows_by record_rules entry records.old.records;
      record_room = records.old.record_room - (room_for entry).records;
      instance_room = records.old.instance_room - (room_for entry).instances;
    } }
    ensures boxes { map box_of boxes.new.items ≡ rows_by box_rules entry (map box_of boxes.old.items) }
    ensures files { map (λ f. f.0) files.new.items ≡ sealed_by entry (map (λ f. f.0) files.old.items) }
    ensures space_boxes { (vec_len boxes.new ≤ vec_len boxes.old + (room_for entry).boxes) × (vec_capacity boxes.old ≤ vec_capacity boxes.new) }
    ensures space_files { (vec_len files.new ≤ vec_len files.old + (room_for entry).files) × (vec_capacity files.old ≤ vec_capacity files.new) }
{
    match entry {
        MapEntry::S {
            origin,
            count,
            uid,
            file,
            offset,
            size,
            guid,
            instances,
        } => {
            let row = MapRow {
                uid,
                origin,
                count,
                file,
                offset,
                size,
                guid,
            };
            records.add(Record { row, instances });
        }
        MapEntry::B {
            mailbox,
            generation,
            name,
        } => boxes.push_reserved(Mailbox::of(mailbox, generation, name)),
        MapEntry::E { file } => seal(files, file),
        MapEntry::V { mailbox, name } => rename(boxes, mailbox, name),
        other => change_parts(records, boxes, &other),
    }
}

/// Changes the records and the mailboxes as an entry says that takes no memory.
pub fn change_parts(records: &mut Table, boxes: &mut Vec<Mailbox>, entry: &MapEntry)
    requires fits { FitsTable entry.now records.old.records }
    requires boxes_rising { AllPairs (λ a b. a.at.number.0 < b.at.number.0) boxes.old.items }
    requires changes { TakesMemory entry.now → ⊥ }
    ensures records { records.new ≡ record records.old { records = rows_by record_rules entry.now records.old.records } }
    ensures boxes { map box_of boxes.new.items ≡ rows_by box_rules entry.now (map box_of boxes.old.items) }
    ensures space_boxes { (vec_len boxes.new ≤ vec_len boxes.old) × (vec_capacity boxes.new ≡ vec_capacity boxes.old) }
{
    change_records(records, entry);
    change_boxes(boxes, entry);
}

/// An entry that takes memory, once more. None for any other.
pub fn copied(alloc: Global, entry: &MapEntry) -> Result<Option<MapEntry>, NoMemory>
    ensures copy { IfOk result (λ o. MatchOption o (TakesMemory entry.now → ⊥) (λ copy. (copy ≡ entry.now) × TakesMemory entry.now)) }
    ensures adding_only { IsErr result → TakesMemory entry.now }
{
    let copy = match entry {
        MapEntry::S {
            origin,
            count,
            uid,
            file,
            offset,
            size,
            guid,
            instances,
        } => MapEntry::S {
            origin: *origin,
            count: *count,
            uid: *uid,
            file: *file,
            offset: *offset,
            size: *size,
            guid: *guid,
            instances: copied_instances(alloc, instances)?,
        },
        MapEntry::B {
            mailbox,
            generation,
            name,
        } => MapEntry::B {
            mailbox: *mailbox,
            generation: *generation,
            name: copied_name(alloc, name)?,
        },
        MapEntry::E { file } => MapEntry::E { file: *file },
        MapEntry::V { mailbox, name } => MapEntry::V {
            mailbox: *mailbox,
            name: copied_name(alloc, name)?,
        },
        _ => return Ok(None),
    };
    Ok(Some(copy))
}

/// The same instances once more.
fn copied_instances(alloc: Global, instances: &Seq<InstRow>) -> Result<Seq<InstRow>, NoMemory>
    ensures { IfOk result (λ copy. copy ≡ instances.now) }
{
    Ok(Seq::of(Vec::from_slice(alloc, instances.as_slice())?))
}

/// Changes the records as the entry says.
fn change_records(records: &mut Table, entry: &MapEntry)
    requires fits { FitsTable entry.now records.old.records }
    requires changes { TakesMemory entry.now → ⊥ }
    ensures { records.new ≡ record records.old { records = rows_by record_rules entry.now records.old.records } }
{
    match entry {
        MapEntry::P {
            file,
            target,
            moved,
            dropped,
        } => records.switch(*file, *target, moved.as_slice(), dropped.as_slice()),
        MapEntry::U { uid } => records.raise(*uid),
        MapEntry::D { uids } => lower_each(records, uids.as_slice()),
        MapEntry::T { counts } => set_counts(records, counts.as_slice()),
        MapEntry::X { amounts, .. } => lower_by_each(records, amounts.as_slice()),
        _ => {}
    }
}

/// Changes the mailboxes as the entry says.
fn change_boxes(boxes: &mut Vec<Mailbox>, entry: &MapEntry)
    requires rising { AllPairs (λ a b. a.at.number.0 < b.at.number.0) boxes.old.items }
    requires changes { TakesMemory entry.now → ⊥ }
    ensures boxes { map box_of boxes.new.items ≡ rows_by box_rules entry.now (map box_of boxes.old.items) }
    ensures space { (vec_len boxes.new ≤ vec_len boxes.old) × (vec_capacity boxes.new ≡ vec_capacity boxes.old) }
{
    match entry {
        MapEntry::G {
            mailbox,
            generation,
        } => renew(boxes, *mailbox, *generation),
        MapEntry::X { mailbox, .. } => remove(boxes, *mailbox),
        _ => {}
    }
}

/// The same name once more.
fn copied_name(alloc: Global, name: &Name) -> Result<Name, NoMemory>
    ensures { IfOk result (λ copy. copy ≡ name.now) }
{
    Ok(name_of(alloc, name.as_octets())?.unwrap())
}

/// Sets the generation of the mailbox with this number, if there is one.
fn renew(boxes: &mut Vec<Mailbox>, number: BoxNo, generation: u32)
    requires { AllPairs (λ a b. a.at.number.0 < b.at.number.0) boxes.old.items }
    ensures boxes { map box_of boxes.new.items ≡ map (box_changed (entry.G number generation)) (map box_of boxes.old.items) }
    ensures space { (vec_len boxes.new ≡ vec_len boxes.old) × (vec_capacity boxes.new ≡ vec_capacity boxes.old) }
{
    let place = place_with_number(boxes, number);
    if place < boxes.len() {
        boxes[place].at = BoxAt { number, generation };
    }
}

/// Takes out the mailbox with this number, if there is one.
fn remove(boxes: &mut Vec<Mailbox>, number: BoxNo)
    ensures boxes { map box_of boxes.new.items ≡ filter (λ box. not (number.0 == box.number)) (map box_of boxes.old.items) }
    ensures space { (vec_len boxes.new ≤ vec_len boxes.old) × (vec_capacity boxes.new ≡ vec_capacity boxes.old) }
{
    boxes.retain(|mailbox| number.0 != mailbox.at.number.0);
}

/// Gives the mailbox with this number another name, if there is one.
fn rename(boxes: &mut Vec<Mailbox>, number: BoxNo, name: Name)
    requires { AllPairs (λ a b. a.at.number.0 < b.at.number.0) boxes.old.items }
    ensures boxes { map box_of boxes.new.items ≡ map (box_changed (entry.V number name)) (map box_of boxes.old.items) }
    ensures space { (vec_len boxes.new ≡ vec_len boxes.old) × (vec_capacity boxes.new ≡ vec_capacity boxes.old) }
{
    let place = place_with_number(boxes, number);
    if place < boxes.len() {
        boxes[place].name = name;
    }
}

/// Adds a file to the rising list, unless it is there. The list has room for one more.
fn seal(files: &mut Vec<FileNo>, file: FileNo)
    requires rising { AllPairs (λ a b. a.0 < b.0) files.old.items }
    requires room { vec_len files.old < vec_capacity files.old }
    ensures files { map (λ f. f.0) files.new.items ≡ with_number file.0 (map (λ f. f.0) files.old.items) }
    ensures space { (vec_len files.new ≤ vec_len files.old + 1) × (vec_capacity files.old ≤ vec_capacity files.new) }
{
    if let Err(place) = files.binary_search_by_key(&file.0, |other| other.0) {
        match files.insert(place, file) {
            Ok(()) => {}
            Err(_) => unreachable!(),
        }
    }
}
