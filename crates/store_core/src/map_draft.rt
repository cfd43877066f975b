// Drafts of the map log, and how entries are added to one.
ghost use Rattle.std.specs.Prelude.{◌≡◌, ◌≢◌, ◌<◌, ◌≤◌, ◌+◌, ◌*◌, ◌++◌, ◌∷◌, [], ℕ, List, length, map, fold, IfOk, OnOk, OnErr, IsErrOf};
ghost use Rattle.std.specs.List.{AllByRecursion};
ghost use Rattle.disk_model.specs.Disk.{EachImage, OthersStay, SameButFor, Grows};
ghost use Rattle.disk_model.specs.FaultCounts.{NoFault, ChangeFaultCounted};
ghost use Rattle.gate_log.specs.Log.{Reads, Drafts};
ghost use Rattle.gate_log.specs.State.{IsSameLog};
ghost use Rattle.map_index.specs.Needs.{TakesMemory};
ghost use Rattle.model_logs.specs.Entries.{map_text, MapInRange};
ghost use Rattle.model_meaning.specs.MapMeaning.{map_applied};
ghost use Rattle.store_core.specs.Drafts.{AreEntryTexts};
ghost use Rattle.store_core.specs.MapDrafts.{AllMapFitBehind, HasRoomForAll, rooms_of};
ghost use Rattle.store_core.specs.declared.error.StepError.TheVariants as step_error;

use crate::box_draft::{EntryTexts, in_record, room_for_texts};
use crate::error::StepError;
use disk_model::Disk;
use gate_log::{GateLog, LogRoom};
use log_records::{map_entry_size, push_map_entry};
use map_index::{MapIndex, MapRoom, NO_ROOM, copied, room_for};
use mdbox_base::{MapEntry, NoMemory, Octets, Seq};
use std::alloc::Global;
use std::marker::Model;

/// A map log of the next generation, and what its entries mean. Nothing needs it until it is put in the place of the one in
/// force.
#[derive(Drop)]
pub struct MapDraft {
    pub(crate) log: GateLog,
    pub(crate) map: MapIndex,
    pub(crate) generation: u32,
    /// Room for the entry of the root log that names it.
    pub(crate) root_room: LogRoom,
}

impl Model for MapDraft {
    ghost use Rattle.std.specs.Prelude.{◌≤◌};
    ghost use Rattle.store_core.specs.MapDrafts.{MapDraftValue};
    ghost use Rattle.store_core.specs.Value.{entry_room};

    ghost Value = { MapDraftValue };

    ghost view = { λ draft. record { generation = draft.generation; log = draft.log; map = draft.map } };

    ghost invariant = { λ draft. (entry_room ≤ draft.log.room) × (10 ≤ draft.root_room) };
}

/// What is needed of memory to add entries: copies of them, for the index, and their texts.
#[derive(Drop)]
struct MapExtension {
    entries: Vec<MapEntry>,
    texts: EntryTexts,
}

/// Adds entries to a draft of the map log, and takes them in. All memory is taken before anything is written.
pub(crate) fn extend_map_in<D: Disk>(
    alloc: Global,
    log: &mut GateLog,
    index: &mut MapIndex,
    disk: &mut D,
    entries: &[MapEntry],
) -> Result<(), StepError>
    requires read { (texts : List (List ℕ)) × Reads log.old texts (D.history disk.old) }
    requires some { 1 ≤ length entries.now }
    requires range { AllByRecursion MapInRange entries.now }
    requires fit { AllMapFitBehind index.old.meaning entries.now }
    ensures others_stay { (IsErrOf result step_error.NoMemory → ⊥) → EachImage (λ _ image. OthersStay log.old.name (D.history disk.old) image) (D.history disk.old) (D.history disk.new) }
    ensures grows { Grows (D.history disk.old) (D.history disk.new) }
    ensures drafted { OnOk result ((texts : List (List ℕ)) → Drafts log.old texts (D.history disk.old) → Drafts log.new (texts ++ map map_text entries.now) (D.history disk.new)) }
    ensures counted { OnOk result (log.new.count ≡ log.old.count + length entries.now) }
    ensures others { OnOk result (SameButFor log.old.name (D.history disk.old) (D.history disk.new)) }
    ensures taken { OnOk result (index.new.meaning ≡ fold (λ m e. map_applied e m) index.old.meaning entries.now) }
    ensures memory { IsErrOf result step_error.NoMemory → (log.new ≡ log.old) × (index.new ≡ index.old) × (disk.new ≡ disk.old) }
    ensures fault { ChangeFaultCounted (IsErrOf result step_error.Stopped) (D.faults disk.old) (D.faults disk.new) }
    ensures unfailed { OnOk result (NoFault (D.faults disk.old) (D.faults disk.new)) }
    ensures name { log.new.name ≡ log.old.name }
    ensures head { log.new.head ≡ log.old.head }
    ensures no_less { log.old.room ≤ log.new.room }
{
    let MapExtension {
        entries: copies,
        texts,
    } = take_map_extension(alloc, log, index, entries)?;
    log.extend(disk, texts.octets.as_slice(), &texts.lengths)?;
    take_all(index, copies);
    Ok(())
}

/// Takes the memory for entries: their copies and texts, room in the log for these, and in the index for what they make.
fn take_map_extension(
    alloc: Global,
    log: &mut GateLog,
    index: &mut MapIndex,
    entries: &[MapEntry],
) -> Result<MapExtension, NoMemory>
    requires { AllByRecursion MapInRange entries.now }
    ensures entries { IfOk result (λ extension. extension.entries.items ≡ entries.now) }
    ensures texts { IfOk result (λ extension. AreEntryTexts (map map_text entries.now) extension.texts.octets extension.texts.lengths.items) }
    ensures log { IfOk result (λ extension. length extension.texts.octets + 5 * length extension.texts.lengths.items ≤ log.new.room) }
    ensures index { OnOk result (HasRoomForAll entries.now index.new.room) }
    ensures no_less { log.old.room ≤ log.new.room }
    ensures same { log.new ≡ record log.old { room = log.new.room } }
    ensures meaning { index.new.meaning ≡ index.old.meaning }
    ensures err { OnErr result ((log.new ≡ log.old) × (index.new ≡ index.old)) }
{
    let copies = map_copies_of(alloc, entries)?;
    let texts = map_texts_of(alloc, entries)?;
    let room = room_for_texts(alloc, &texts)?;
    index.reserve(room_of_all(entries)?)?;
    log.take_room(room);
    Ok(MapExtension {
        entries: copies,
        texts,
    })
}

/// What entries need of an index, all together.
fn room_of_all(entries: &[MapEntry]) -> Result<MapRoom, NoMemory>
    ensures { IfOk result (λ room. room ≡ rooms_of entries.now) }
{
    let mut total = NO_ROOM;
    for entry in entries {
        let more = room_for(entry);
        total = MapRoom {
            records: added(total.records, more.records)?,
            instances: added(total.instances, more.instances)?,
            boxes: added(total.boxes, more.boxes)?,
            files: added(total.files, more.files)?,
        };
    }
    Ok(total)
}

/// The sum of two numbers of places. So many that it overflows have no memory.
fn added(a: usize, b: usize) -> Result<usize, NoMemory>
    ensures { IfOk result (λ sum. sum ≡ a + b) }
{
    match a.checked_add(b) {
        Some(sum) => Ok(sum),
        None => Err(NoMemory),
    }
}

/// Copies of entries.
fn map_copies_of(alloc: Global, entries: &[MapEntry]) -> Result<Vec<MapEntry>, NoMemory>
    ensures { IfOk result (λ copies. copies.items ≡ entries.now) }
{
    let mut copies = Vec::with_capacity(alloc, entries.len())?;
    for entry in entries {
        copies.push(copy_of(alloc, entry)?)?;
    }
    Ok(copies)
}

/// A copy of an entry.
fn copy_of(alloc: Global, entry: &MapEntry) -> Result<MapEntry, NoMemory>
    ensures { IfOk result (λ copy. copy ≡ entry.now) }
{
    match copied(alloc, entry)? {
        Some(copy) => Ok(copy),
        None => copy_of_other(alloc, entry),
    }
}

/// A copy of an entry for which an index takes no memory.
fn copy_of_other(alloc: Global, entry: &MapEntry) -> Result<MapEntry, NoMemory>
    requires { TakesMemory entry.now → ⊥ }
    ensures { IfOk result (λ copy. copy ≡ entry.now) }
{
    Ok(match entry {
        MapEntry::S { .. } | MapEntry::B { .. } | MapEntry::E { .. } | MapEntry::V { .. } => {
            unreachable!()
        }
        MapEntry::H(highest) => MapEntry::H(*highest),
        MapEntry::G {
            mailbox,
            generation,
        } => MapEntry::G {
            mailbox: *mailbox,
            generation: *generation,
        },
        MapEntry::U { uid } => MapEntry::U { uid: *uid },
        MapEntry::D { uids } => MapEntry::D {
            uids: Seq::of(Vec::from_slice(alloc, uids.as_slice())?),
        },
        MapEntry::T { counts } => MapEntry::T {
            counts: Seq::of(Vec::from_slice(alloc, counts.as_slice())?),
        },
        MapEntry::P {
            file,
            target,
            moved,
            dropped,
        } => MapEntry::P {
            file: *file,
            target: *target,
            moved: Seq::of(Vec::from_slice(alloc, moved.as_slice())?),
            dropped: Seq::of(Vec::from_slice(alloc, dropped.as_slice())?),
        },
        MapEntry::X { mailbox, amounts } => MapEntry::X {
            mailbox: *mailbox,
            amounts: Seq::of(Vec::from_slice(alloc, amounts.as_slice())?),
        },
    })
}

/// The texts of entries.
fn map_texts_of(alloc: Global, entries: &[MapEntry]) -> Result<EntryTexts, NoMemory>
    requires { AllByRecursion MapInRange entries.now }
    ensures { IfOk result (λ texts. AreEntryTexts (map map_text entries.now) texts.octets texts.lengths.items) }
{
    let mut texts = EntryTexts {
        octets: Octets::empty(alloc),
        lengths: Vec::new(alloc),
    };
    for entry in entries {
        push_map_text(alloc, &mut texts, entry)?;
    }
    Ok(texts)
}

/// Adds the text of an entry.
fn push_map_text(alloc: Global, texts: &mut EntryTexts, entry: &MapEntry) -> Result<(), NoMemory>
    requires { MapInRange entry.now }
    ensures octets { OnOk result (texts.new.octets ≡ texts.old.octets ++ map_text entry.now) }
    ensures lengths { OnOk result (texts.new.lengths.items ≡ texts.old.lengths.items ++ length (map_text entry.now) ∷ []) }
{
    let size = in_record(map_entry_size(entry))?;
    texts.lengths.push(size)?;
    push_map_entry(alloc, &mut texts.octets, entry)
}

/// Takes entries into an index that has room for them.
fn take_all(index: &mut MapIndex, entries: Vec<MapEntry>)
    requires fit { AllMapFitBehind index.old.meaning entries.items }
    requires room { HasRoomForAll entries.items index.old.room }
    ensures { index.new.meaning ≡ fold (λ m e. map_applied e m) index.old.meaning entries.items }
{
    for entry in entries {
        index.take_in(entry);
    }
}
