// The map log of a rebuilt store.
ghost use Rattle.std.specs.Prelude.{◌≡◌, ◌<◌, ◌≤◌, ◌++◌, ◌∷◌, List, length, map, All, AllPairs, IfOk, IsErr};
ghost use Rattle.mdbox_base.specs.declared.entries.MapEntry.TheVariants as entry;
ghost use Rattle.model_logs.specs.Entries.{MapInRange, RowInRange, map_text};
ghost use Rattle.model_meaning.specs.MapMeaning.{with_number};
ghost use Rattle.model_rebuild.specs.RebuildPlan.{RebuildPlan};
ghost use Rattle.model_rebuild.specs.RebuiltLogs.{all_stored_from, made_from, numbers_skipped, rebuilt_map};
ghost use Rattle.model_taken.specs.Rebuild.{SkippedPlace};
ghost use Rattle.model_taken.specs.Taken.{TakenMessage, mailboxes_met};
ghost use Rattle.rebuild_judge.specs.Kept.{skipped_row, taken_row};
ghost use Rattle.store_rebuild.specs.Planned.{AreRowsOf};

use crate::boxes::next_number;
use crate::draft::{Draft, NewLog};
use crate::names::copy_of;
use crate::plan::RebuildRows;
use mdbox_base::{
    BoxNo, FileNo, Guid, Hash, Highest, InstId, InstRow, MapEntry, MapUid, Name, NoMemory, Seq,
};
use rebuild_judge::{SkippedAt, TakenRow};
use std::alloc::Global;

/// How many instances an entry can name.
const INSTANCES: usize = 65_535;

/// The map log: the highest numbers; then each mailbox, each message, each sealed file.
pub fn new_map(alloc: Global, rows: &RebuildRows, names: &[Name]) -> Result<NewLog, NoMemory>
    ensures { IfOk result (λ log. (plan : RebuildPlan) → AreRowsOf plan rows.now → names.now ≡ mailboxes_met plan.taken → log ≡ map map_text (rebuilt_map plan.highest plan.box_generation plan.taken plan.skipped)) }
{
    let draft = Draft::empty(alloc);
    let draft = draft.push_map(alloc, &highest(rows.highest))?;
    let draft = push_made(alloc, draft, rows.box_generation, names)?;
    let draft = push_stored(alloc, draft, rows.taken.as_slice())?;
    let draft = push_sealed(alloc, draft, rows.skipped.as_slice())?;
    let log = draft.with_room(alloc)?;
    Ok(log)
}

/// Adds the entries of mailboxes with these names, numbered from 1.
fn push_made(
    alloc: Global,
    draft: Draft,
    generation: u32,
    names: &[Name],
) -> Result<Draft, NoMemory>
    ensures { IfOk result (λ new. new ≡ draft ++ map map_text (made_from 1 generation names.now)) }
{
    let mut draft = draft;
    let mut number = 1;
    let mut rest = names;
    while let Some((name, others)) = rest.split_first() {
        let name = copy_of(alloc, name.as_octets())?;
        draft = draft.push_map(alloc, &made(number, generation, name))?;
        number = next_number(number)?;
        rest = others;
    }
    Ok(draft)
}

/// The entry of a mailbox.
fn made(number: u32, generation: u32, name: Name) -> MapEntry
    ensures entry { result ≡ entry.B (record { 0 = number }) generation name }
    ensures range { MapInRange result }
{
    MapEntry::B {
        mailbox: BoxNo(number),
        generation,
        name,
    }
}

/// Adds the entries of messages, with map uids from 1.
fn push_stored(alloc: Global, draft: Draft, taken: &[TakenRow]) -> Result<Draft, NoMemory>
    ensures { IfOk result (λ new. (messages : List TakenMessage) → taken.now ≡ map taken_row messages → new ≡ draft ++ map map_text (all_stored_from 1 messages)) }
{
    let mut draft = draft;
    let mut uid = 1;
    let mut rest = taken;
    while let Some((row, others)) = rest.split_first() {
        let instances = copy_rows(alloc, row.instances.as_slice())?;
        draft = draft.push_map(
            alloc,
            &stored(uid, row.file, row.offset, row.size, row.guid, instances)?,
        )?;
        uid = next_number(uid)?;
        rest = others;
    }
    Ok(draft)
}

/// The entry of a message that a rebuild found, with a count of 1. None names more than 65,535 instances.
fn stored(
    uid: u32,
    file: FileNo,
    offset: u32,
    size: u32,
    guid: Guid,
    instances: Seq<InstRow>,
) -> Result<MapEntry, NoMemory>
    ensures entry { IfOk result (λ given. given ≡ entry.S 1 1 (record { 0 = uid }) file offset size guid instances) }
    ensures range { IfOk result MapInRange }
    ensures few { length instances ≤ 65535 → IsErr result → ⊥ }
{
    if instances.length() > INSTANCES {
        return Err(NoMemory);
    }
    known_rows(instances.as_slice());
    let FileNo(number) = file;
    Ok(MapEntry::S {
        origin: 1,
        count: 1,
        uid: MapUid(uid),
        file: FileNo(number),
        offset,
        size,
        guid,
        instances,
    })
}

/// What the types say of an instance.
fn known_row(row: InstRow)
    ensures { RowInRange row }
{
    let InstRow {
        hash: Hash(_hash),
        id: InstId(_id),
        size: _size,
    } = row;
}

/// What they say of instances.
fn known_rows(rows: &[InstRow])
    ensures { All RowInRange rows.now }
{
    for row in rows {
        known_row(*row);
    }
}

/// The entry of a sealed file.
fn sealed(file: FileNo) -> MapEntry
    ensures entry { result ≡ entry.E file }
    ensures range { MapInRange result }
{
    let FileNo(number) = file;
    MapEntry::E {
        file: FileNo(number),
    }
}

/// The entry of the highest numbers.
fn highest(highest: Highest) -> MapEntry
    ensures entry { result ≡ entry.H highest }
    ensures range { MapInRange result }
{
    let Highest {
        file,
        map,
        instance,
        mailbox,
    } = highest;
    MapEntry::H(Highest {
        file,
        map,
        instance,
        mailbox,
    })
}

/// The same instances again.
fn copy_rows(alloc: Global, rows: &[InstRow]) -> Result<Seq<InstRow>, NoMemory>
    ensures { IfOk result (λ copy. copy ≡ rows.now) }
{
    let mut copy = Seq::empty(alloc);
    let mut rest = rows;
    while let Some((row, others)) = rest.split_first() {
        copy.push(*row)?;
        rest = others;
    }
    Ok(copy)
}

/// Adds the entries of the storage files that have a skipped place.
fn push_sealed(alloc: Global, draft: Draft, skipped: &[SkippedAt]) -> Result<Draft, NoMemory>
    ensures { IfOk result (λ new. (places : List SkippedPlace) → skipped.now ≡ map skipped_row places → new ≡ draft ++ map map_text (map (λ number. entry.E (record { 0 = number })) (numbers_skipped places))) }
{
    let files = files_skipped(alloc, skipped)?;
    let draft = push_files(alloc, draft, files.as_slice())?;
    Ok(draft)
}

/// Adds the entries of sealed files.
fn push_files(alloc: Global, draft: Draft, files: &[FileNo]) -> Result<Draft, NoMemory>
    ensures { IfOk result (λ new. new ≡ draft ++ map (λ file. map_text (entry.E file)) files.now) }
{
    let mut draft = draft;
    let mut rest = files;
    while let Some((file, others)) = rest.split_first() {
        draft = draft.push_map(alloc, &sealed(*file))?;
        rest = others;
    }
    Ok(draft)
}

/// The storage files that have a skipped place, in order of number.
fn files_skipped(alloc: Global, skipped: &[SkippedAt]) -> Result<Vec<FileNo>, NoMemory>
    ensures { IfOk result (λ files. (places : List SkippedPlace) → skipped.now ≡ map skipped_row places → map (λ f. f.0) files.items ≡ numbers_skipped places) }
{
    let mut files = Vec::new(alloc);
    let mut rest = skipped;
    while let Some((last, before)) = rest.split_last() {
        files = with_file(files, last.file)?;
        rest = before;
    }
    Ok(files)
}

/// The files of a rising list, with one more unless it is there.
fn with_file(files: Vec<FileNo>, file: FileNo) -> Result<Vec<FileNo>, NoMemory>
    requires { AllPairs (λ a b. a.0 < b.0) files.items }
    ensures files { IfOk result (λ new. map (λ f. f.0) new.items ≡ with_number file.0 (map (λ f. f.0) files.items)) }
    ensures rising { IfOk result (λ new. AllPairs (λ a b. a.0 < b.0) new.items) }
{
    match files.binary_search_by_key(&file.0, |other| other.0) {
        Ok(_) => Ok(files),
        Err(place) => {
            let mut new = files;
            new.insert(place, file)?;
            Ok(new)
        }
    }
}
