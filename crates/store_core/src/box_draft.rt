// Drafts of mailbox logs, and how entries are added to one.
ghost use Rattle.std.specs.Prelude.{◌≡◌, ◌≢◌, ◌<◌, ◌≤◌, ◌+◌, ◌*◌, ◌++◌, ◌∷◌, [], ℕ, List, length, map, fold, IfOk, OnOk, OnErr, IsErrOf};
ghost use Rattle.std.specs.List.{AllByRecursion};
ghost use Rattle.disk_model.specs.Disk.{EachImage, OthersStay, SameButFor, Grows};
ghost use Rattle.disk_model.specs.FaultCounts.{NoFault, ChangeFaultCounted};
ghost use Rattle.gate_log.specs.Log.{Reads, Drafts};
ghost use Rattle.model_logs.specs.Entries.{box_text, BoxInRange};
ghost use Rattle.model_meaning.specs.BoxMeaning.{box_applied};
ghost use Rattle.store_core.specs.Append.{IsSameBox};
ghost use Rattle.store_core.specs.Drafts.{AllFitBehind, AreEntryTexts};
ghost use Rattle.store_core.specs.declared.error.StepError.TheVariants as step_error;

use crate::error::StepError;
use crate::store::OpenBox;
use box_index::BoxIndex;
use disk_model::Disk;
use gate_log::LogRoom;
use log_records::{box_entry_size, push_box_entry};
use mdbox_base::{BoxEntry, NoMemory, Octets};
use std::alloc::Global;
use std::marker::Model;

/// How many octets a record has beside its entry.
const BESIDE: usize = 5;

/// A log of a mailbox in a generation that isn't in force, and what its entries mean. Nothing needs it until it is put in the
/// place of the one in force.
#[derive(Drop)]
pub struct BoxDraft {
    pub(crate) open_box: OpenBox,
    pub(crate) generation: u32,
}

impl Model for BoxDraft {
    ghost use Rattle.std.specs.Prelude.{◌≤◌};
    ghost use Rattle.store_core.specs.Drafts.{BoxDraftValue};
    ghost use Rattle.store_core.specs.Value.{entry_room};

    ghost Value = { BoxDraftValue };

    ghost view = { λ draft. record { number = draft.open_box.number; generation = draft.generation; log = draft.open_box.log; index = draft.open_box.index } };

    ghost invariant = { λ draft. entry_room ≤ draft.open_box.log.room };
}

/// Entries as a log takes them: their texts one after another, and the length of each.
#[derive(Drop)]
pub(crate) struct EntryTexts {
    pub(crate) octets: Octets,
    pub(crate) lengths: Vec<u32>,
}

/// What is needed of memory to add entries: copies of them, for the index, and their texts.
#[derive(Drop)]
struct Extension {
    entries: Vec<BoxEntry>,
    texts: EntryTexts,
}

/// Adds entries to a draft, and takes them in. All memory is taken before anything is written.
pub(crate) fn extend_in<D: Disk>(
    alloc: Global,
    open_box: &mut OpenBox,
    disk: &mut D,
    entries: &[BoxEntry],
) -> Result<(), StepError>
    requires read { (texts : List (List ℕ)) × Reads open_box.old.log texts (D.history disk.old) }
    requires few { (1 ≤ length entries.now) × (length entries.now ≤ 16) }
    requires range { AllByRecursion BoxInRange entries.now }
    requires fit { AllFitBehind open_box.old.index.meaning entries.now }
    ensures others_stay { (IsErrOf result step_error.NoMemory → ⊥) → EachImage (λ _ image. OthersStay open_box.old.log.name (D.history disk.old) image) (D.history disk.old) (D.history disk.new) }
    ensures grows { Grows (D.history disk.old) (D.history disk.new) }
    ensures drafted { OnOk result ((texts : List (List ℕ)) → Drafts open_box.old.log texts (D.history disk.old) → Drafts open_box.new.log (texts ++ map box_text entries.now) (D.history disk.new)) }
    ensures counted { OnOk result (open_box.new.log.count ≡ open_box.old.log.count + length entries.now) }
    ensures others { OnOk result (SameButFor open_box.old.log.name (D.history disk.old) (D.history disk.new)) }
    ensures taken { OnOk result (open_box.new.index.meaning ≡ fold (λ m e. box_applied e m) open_box.old.index.meaning entries.now) }
    ensures memory { IsErrOf result step_error.NoMemory → (open_box.new ≡ open_box.old) × (disk.new ≡ disk.old) }
    ensures fault { ChangeFaultCounted (IsErrOf result step_error.Stopped) (D.faults disk.old) (D.faults disk.new) }
    ensures unfailed { OnOk result (NoFault (D.faults disk.old) (D.faults disk.new)) }
    ensures same { IsSameBox open_box.old open_box.new }
{
    let Extension {
        entries: copies,
        texts,
    } = take_extension(alloc, open_box, entries)?;
    open_box
        .log
        .extend(disk, texts.octets.as_slice(), &texts.lengths)?;
    apply_all(&mut open_box.index, copies);
    Ok(())
}

/// Takes the memory for entries: their copies and texts, room in the log for these, and in the index for as many messages.
fn take_extension(
    alloc: Global,
    open_box: &mut OpenBox,
    entries: &[BoxEntry],
) -> Result<Extension, NoMemory>
    requires few { length entries.now ≤ 16 }
    requires range { AllByRecursion BoxInRange entries.now }
    ensures entries { IfOk result (λ extension. extension.entries.items ≡ entries.now) }
    ensures texts { IfOk result (λ extension. AreEntryTexts (map box_text entries.now) extension.texts.octets extension.texts.lengths.items) }
    ensures log { IfOk result (λ extension. length extension.texts.octets + 5 * length extension.texts.lengths.items ≤ open_box.new.log.room) }
    ensures index { OnOk result (length entries.now ≤ open_box.new.index.room) }
    ensures no_less { open_box.old.log.room ≤ open_box.new.log.room }
    ensures same { open_box.new ≡ record open_box.old { log = record open_box.old.log { room = open_box.new.log.room }; index = record open_box.old.index { room = open_box.new.index.room } } }
    ensures err { OnErr result (open_box.new ≡ open_box.old) }
{
    let copies = copies_of(alloc, entries)?;
    let texts = texts_of(alloc, entries)?;
    let room = room_for_texts(alloc, &texts)?;
    open_box.index.reserve_rows(entries.len())?;
    open_box.log.take_room(room);
    Ok(Extension {
        entries: copies,
        texts,
    })
}

/// Copies of entries.
fn copies_of(alloc: Global, entries: &[BoxEntry]) -> Result<Vec<BoxEntry>, NoMemory>
    ensures { IfOk result (λ copies. copies.items ≡ entries.now) }
{
    let mut copies = Vec::with_capacity(alloc, entries.len())?;
    for entry in entries {
        copies.push(entry.copied(alloc)?)?;
    }
    Ok(copies)
}

/// The texts of entries.
fn texts_of(alloc: Global, entries: &[BoxEntry]) -> Result<EntryTexts, NoMemory>
    requires { AllByRecursion BoxInRange entries.now }
    ensures { IfOk result (λ texts. AreEntryTexts (map box_text entries.now) texts.octets texts.lengths.items) }
{
    let mut texts = EntryTexts {
        octets: Octets::empty(alloc),
        lengths: Vec::new(alloc),
    };
    for entry in entries {
        push_text(alloc, &mut texts, entry)?;
    }
    Ok(texts)
}

/// Adds the text of an entry.
fn push_text(alloc: Global, texts: &mut EntryTexts, entry: &BoxEntry) -> Result<(), NoMemory>
    requires { BoxInRange entry.now }
    ensures octets { OnOk result (texts.new.octets ≡ texts.old.octets ++ box_text entry.now) }
    ensures lengths { OnOk result (texts.new.lengths.items ≡ texts.old.lengths.items ++ length (box_text entry.now) ∷ []) }
{
    let size = in_record(box_entry_size(entry))?;
    texts.lengths.push(size)?;
    push_box_entry(alloc, &mut texts.octets, entry)
}

/// A length in octets as a record tells it. No record has 4,294,967,296 octets or more.
pub(crate) fn in_record(octets: usize) -> Result<u32, NoMemory>
    ensures { IfOk result (λ length. length ≡ octets) }
{
    match u32::try_from(octets) {
        Ok(length) => Ok(length),
        Err(_) => Err(NoMemory),
    }
}

/// Room in a log for these texts.
pub(crate) fn room_for_texts(alloc: Global, texts: &EntryTexts) -> Result<LogRoom, NoMemory>
    ensures { IfOk result (λ room. length texts.now.octets + 5 * length texts.now.lengths.items ≤ room) }
{
    let beside = texts.lengths.len().saturating_mul(BESIDE);
    let octets = in_record(texts.octets.length().saturating_add(beside))?;
    LogRoom::of(alloc, octets)
}

/// Takes entries into an index that has room for as many messages.
fn apply_all(index: &mut BoxIndex, entries: Vec<BoxEntry>)
    requires fit { AllFitBehind index.old.meaning entries.items }
    requires room { length entries.items ≤ index.old.room }
    ensures { index.new.meaning ≡ fold (λ m e. box_applied e m) index.old.meaning entries.items }
{
    for entry in entries {
        match index.apply(entry) {
            Ok(()) => {}
            Err(NoMemory) => unreachable!(),
        }
    }
}
