// Drafts of mailbox logs: made beside the log in force, extended, and put in its place.
ghost use Rattle.std.specs.Prelude.{◌≡◌, ◌↔◌, ◌≤◌, ◌+◌, ◌-◌, ◌++◌, ◌∷◌, [], ℕ, List, All, Some, map, fold, is_some, length, IfOk, IsErr, IsTrue, OnOk, IsErrOf, true, false};
ghost use Rattle.std.specs.List.{AllByRecursion};
ghost use Rattle.disk_model.specs.Disk.{Between, EachImage, Grows, IfTold, OthersStay, SameButFor, no_file};
ghost use Rattle.disk_model.specs.FaultCounts.{NoFault, ChangeFaultCounted};
ghost use Rattle.disk_model.specs.declared.name.FileName.{FileName};
ghost use Rattle.disk_model.specs.declared.name.FileName.TheVariants as file;
ghost use Rattle.gate_log.specs.Log.{Drafts, Holds, NamedButFor, Reads};
ghost use Rattle.gate_log.specs.State.{IsSameLog};
ghost use Rattle.mdbox_base.specs.declared.entries.MapEntry.TheVariants as map_entry;
ghost use Rattle.model_kept.specs.Kept.{MailIsKept};
ghost use Rattle.model_lists.specs.Lists.{ListedMessage, Lists};
ghost use Rattle.model_logs.specs.Entries.{BoxInRange, box_text, map_text};
ghost use Rattle.model_meaning.specs.BoxMeaning.{box_applied, box_meaning, row_made};
ghost use Rattle.model_meaning.specs.MapMeaning.{MapBox, MapMeaning, box_at, map_applied};
ghost use Rattle.model_meaning.specs.MapFits.{MapFits};
ghost use Rattle.model_meaning.specs.SameMeaning.{MeansSame};
ghost use Rattle.model_rewritten.specs.Switched.{list_switched};
ghost use Rattle.model_store.specs.Opening.{HasItsRecord};
ghost use Rattle.model_store.specs.Settled.{IsSettledFor, Leaves};
ghost use Rattle.store_core.specs.Append.{AddsText};
ghost use Rattle.store_core.specs.Drafts.{AllFitBehind, AreNamedButFor, GivesLists, IsBoxDraft, IsHeldDraft, IsNewer, IsOutOfForce, ListsMessages, boxes_with, listed_with, meanings_with};
ghost use Rattle.store_core.specs.Dues.{KeepsStored, due_at, leak_at, listed_at};
ghost use Rattle.store_core.specs.MadeLogs.{has_made_log};
ghost use Rattle.store_core.specs.Value.{log_count_of, entry_room, indexes_of, list_numbered};
ghost use Rattle.store_core.specs.declared.error.StepError.TheVariants as step_error;

use super::append_map::append_entry;
use super::boxes::{make_log, remove_log};
use super::{OpenBox, Store, with_number};
use crate::append::place_of;
use crate::box_draft::{BoxDraft, extend_in};
use crate::error::StepError;
use box_index::BoxIndex;
use disk_model::Disk;
use gate_log::{DiskFault, GateLog, LogRoom};
use map_index::MapIndex;
use mdbox_base::{BoxEntry, BoxNo, MapEntry, NoMemory, Seq};

/// How many octets of a log's room an entry of 64 octets takes: its length and a gate have 5 more.
const ENTRY_ROOM: u32 = 69;

impl<D: Disk> Store<D> {
    /// Makes an empty log of a mailbox in a generation that the store doesn't need, synced, with its name. What stood in a file of its name is
    /// gone. Memory is taken first; a change of the disk that fails stops the store.
    pub fn draft_box(&mut self, mailbox: BoxNo, generation: u32) -> Result<BoxDraft, StepError>
        requires running { self.old.stopped ≡ false }
        requires newer { IsNewer mailbox.0 generation self.old }

        // Of a settled disk each image at every moment is safe for its lists, whichever call fails; and after Ok the disk is
        // settled for them again. Each record stores what it stored.
        ensures any_moment { (lists : Lists) → IsSettledFor lists (D.history self.old.disk) → Leaves lists lists (D.history self.old.disk) (D.history self.new.disk) }
        ensures mail_stays { (m : MapMeaning) → MailIsKept m (D.history self.old.disk) (D.history self.new.disk) }
        ensures settled { OnOk result ((lists : Lists) → IsSettledFor lists (D.history self.old.disk) → IsSettledFor lists (D.history self.new.disk)) }
        ensures stored { OnOk result (KeepsStored (D.history self.old.disk) (D.history self.new.disk)) }

        // After Ok the draft is there, without entries. No other file has changed, and their names are synced.
        ensures number { IfOk result (λ draft. (draft.number ≡ mailbox) × (draft.generation ≡ generation)) }
        ensures empty { IfOk result (λ draft. draft.index.meaning ≡ box_meaning []) }
        ensures draft { IfOk result (λ draft. IsBoxDraft (D.history self.new.disk) draft self.new) }
        ensures nothing { IfOk result (λ draft. Drafts draft.log [] (D.history self.new.disk)) }
        ensures counted { IfOk result (λ draft. draft.log.count ≡ 0) }
        ensures others { OnOk result (NamedButFor (file.Box mailbox.0 generation) (D.history self.old.disk) (D.history self.new.disk)) }

        ensures stopped { IsErrOf result step_error.Stopped ↔ (self.new.stopped ≡ true) }
        ensures memory { IsErrOf result step_error.NoMemory → self.new ≡ self.old }
        ensures same { self.new ≡ record self.old { disk = self.new.disk; stopped = self.new.stopped } }
        ensures grows { Grows (D.history self.old.disk) (D.history self.new.disk) }
        ensures fault { ChangeFaultCounted (IsErrOf result step_error.Stopped) (D.faults self.old.disk) (D.faults self.new.disk) }
        ensures unfailed { OnOk result (NoFault (D.faults self.old.disk) (D.faults self.new.disk)) }
    {
        let room = LogRoom::of(self.alloc, ENTRY_ROOM)?;
        let index = BoxIndex::empty(self.alloc)?;
        match make_log(self.alloc, &mut self.disk, self.id, mailbox, generation) {
            Ok(mut log) => {
                log.take_room(room);
                let open_box = OpenBox {
                    number: mailbox,
                    log,
                    index,
                };
                Ok(BoxDraft {
                    open_box,
                    generation,
                })
            }
            Err(DiskFault) => {
                self.stopped = true;
                Err(StepError::Stopped)
            }
        }
    }

    /// Adds entries to a draft, all at once, and syncs nothing: until it is put in force, a crash may leave anything of its file.
    /// Memory is taken first; a change of the disk that fails stops the store.
    pub fn extend_box(
        &mut self,
        draft: &mut BoxDraft,
        entries: &Seq<BoxEntry>,
    ) -> Result<(), StepError>
        requires running { self.old.stopped ≡ false }
        requires draft { IsBoxDraft (D.history self.old.disk) draft.old self.old }
        requires few { (1 ≤ length entries.now) × (length entries.now ≤ 16) }
        requires range { AllByRecursion BoxInRange entries.now }
        requires fit { AllFitBehind draft.old.index.meaning entries.now }

        // Each message that is added has its record.
        requires records { All (λ e. All (HasItsRecord self.old.map) (row_made e)) entries.now }

        // Of a settled disk each image at every moment is safe for its lists, whichever call fails; and after Ok the disk is
        // settled for them again. Each record stores what it stored.
        ensures any_moment { (lists : Lists) → IsSettledFor lists (D.history self.old.disk) → Leaves lists lists (D.history self.old.disk) (D.history self.new.disk) }
        ensures mail_stays { (m : MapMeaning) → MailIsKept m (D.history self.old.disk) (D.history self.new.disk) }
        ensures settled { OnOk result ((lists : Lists) → IsSettledFor lists (D.history self.old.disk) → IsSettledFor lists (D.history self.new.disk)) }
        ensures stored { OnOk result (KeepsStored (D.history self.old.disk) (D.history self.new.disk)) }

        // After Ok the draft means what it did, with the entries. No other file has changed.
        ensures draft { OnOk result (IsBoxDraft (D.history self.new.disk) draft.new self.new) }
        ensures taken { OnOk result (draft.new.index.meaning ≡ fold (λ m e. box_applied e m) draft.old.index.meaning entries.now) }
        ensures added { OnOk result ((texts : List (List ℕ)) → Drafts draft.old.log texts (D.history self.old.disk) → Drafts draft.new.log (texts ++ map box_text entries.now) (D.history self.new.disk)) }
        ensures counted { OnOk result (draft.new.log.count ≡ draft.old.log.count + length entries.now) }
        ensures number { (draft.new.number ≡ draft.old.number) × (draft.new.generation ≡ draft.old.generation) }
        ensures others { OnOk result (SameButFor draft.old.log.name (D.history self.old.disk) (D.history self.new.disk)) }

        ensures stopped { IsErrOf result step_error.Stopped ↔ (self.new.stopped ≡ true) }
        ensures memory { IsErrOf result step_error.NoMemory → (self.new ≡ self.old) × (draft.new ≡ draft.old) }
        ensures same { self.new ≡ record self.old { disk = self.new.disk; stopped = self.new.stopped } }
        ensures grows { Grows (D.history self.old.disk) (D.history self.new.disk) }
        ensures fault { ChangeFaultCounted (IsErrOf result step_error.Stopped) (D.faults self.old.disk) (D.faults self.new.disk) }
        ensures unfailed { OnOk result (NoFault (D.faults self.old.disk) (D.faults self.new.disk)) }
    {
        match extend_in(
            self.alloc,
            &mut draft.open_box,
            &mut self.disk,
            entries.as_slice(),
        ) {
            Ok(()) => Ok(()),
            Err(StepError::Stopped) => {
                self.stopped = true;
                Err(StepError::Stopped)
            }
            Err(StepError::NoMemory) => Err(StepError::NoMemory),
        }
    }
    /// Puts a draft in the place of the mailbox's log: syncs it, adds the entry of the map log that names it, removes the old log
    /// and syncs names. It takes no memory; a change of the disk that fails stops the store.
    pub fn switch_box(&mut self, draft: BoxDraft) -> Result<(), StepError>
        requires running { self.old.stopped ≡ false }
        requires draft { IsBoxDraft (D.history self.old.disk) draft self.old }
        requires named { IsTrue (is_some (box_at self.old.map draft.number.0)) }

        // Each count is at least what is listed with the draft's list, what is due and what leaks.
        requires counts { All (λ row. listed_with draft row.uid self.old + due_at row.uid self.old + leak_at row.uid self.old ≤ row.count) self.old.map.records }

        // Of a settled disk each image at every moment is safe for its lists, or for those in which the mailbox has the draft's
        // messages, whichever call fails; and after Ok the disk is settled for the latter. Where the draft means what the log in
        // force means, the lists stay.
        ensures any_moment { (lists : Lists) (messages : List ListedMessage) → ListsMessages draft self.old.map messages (D.history self.old.disk) → IsSettledFor lists (D.history self.old.disk)
            → Leaves lists (list_switched draft.number.0 draft.index.meaning.next messages lists) (D.history self.old.disk) (D.history self.new.disk) }
        ensures mail_stays { (m : MapMeaning) → MailIsKept m (D.history self.old.disk) (D.history self.new.disk) }
        ensures settled { OnOk result ((lists : Lists) (messages : List ListedMessage) → ListsMessages draft self.old.map messages (D.history self.old.disk) → IsSettledFor lists (D.history self.old.disk)
            → IsSettledFor (list_switched draft.number.0 draft.index.meaning.next messages lists) (D.history self.new.disk)) }
        ensures same_lists { list_numbered self.old draft.number.0 ≡ Some draft.index.meaning → (lists : Lists) → IsSettledFor lists (D.history self.old.disk)
            → Leaves lists lists (D.history self.old.disk) (D.history self.new.disk) × OnOk result (IsSettledFor lists (D.history self.new.disk)) }
        ensures stored { OnOk result (KeepsStored (D.history self.old.disk) (D.history self.new.disk)) }

        // After Ok the map means what it did, with the entry, and the mailbox's log is the draft. But for generations the map
        // means the same, whatever is answered, and where the draft means what the log in force means, so do all mailboxes.
        ensures taken { OnOk result (self.new.map ≡ map_applied (map_entry.G draft.number draft.generation) self.old.map) }
        ensures indexes { OnOk result (indexes_of self.new.boxes ≡ meanings_with draft.number.0 draft.index.meaning self.old.map.boxes (indexes_of self.old.boxes)) }
        ensures boxes { OnOk result (self.new.boxes ≡ boxes_with draft self.old.boxes) }
        ensures reads { OnOk result ((texts : List (List ℕ)) → Drafts draft.log texts (D.history self.old.disk) → Reads draft.log texts (D.history self.new.disk)) }
        ensures means { MeansSame self.old.map self.new.map }
        ensures same_indexes { list_numbered self.old draft.number.0 ≡ Some draft.index.meaning → indexes_of self.new.boxes ≡ indexes_of self.old.boxes }
        ensures same_log { IsSameLog self.old.map_log self.new.map_log }
        ensures due { (uid : ℕ) → due_at uid self.new ≡ due_at uid self.old }
        ensures leak { OnOk result ((uid : ℕ) → leak_at uid self.new ≡ leak_at uid self.old + listed_at uid self.old - listed_with draft uid self.old) }

        // The old log is removed, and no crash leaves it. Each file but this, the draft and the map log is as it was. All names are
        // synced.
        ensures gone { OnOk result ((box : MapBox) → box_at self.old.map draft.number.0 ≡ Some box → IfTold (D.history self.new.disk) (λ now. now (file.Box box.number box.generation) ≡ no_file)) }
        ensures others { OnOk result ((box : MapBox) → box_at self.old.map draft.number.0 ≡ Some box → Between (AreNamedButFor self.old.map_log.name (file.Box box.number box.generation) draft.log.name) (D.history self.old.disk) (D.history self.new.disk)) }
        ensures names { OnOk result (IfTold (D.history self.new.disk) (λ now. (name : FileName) → (now name).is_name_loose ≡ false)) }

        ensures stopped { IsErrOf result step_error.Stopped ↔ (self.new.stopped ≡ true) }
        ensures memory { IsErrOf result step_error.NoMemory → ⊥ }
        ensures same { self.new ≡ record self.old { disk = self.new.disk; map_log = self.new.map_log; map = self.new.map; boxes = self.new.boxes; stopped = self.new.stopped } }
        ensures grows { Grows (D.history self.old.disk) (D.history self.new.disk) }
        ensures fault { ChangeFaultCounted (IsErrOf result step_error.Stopped) (D.faults self.old.disk) (D.faults self.new.disk) }
        ensures unfailed { OnOk result (NoFault (D.faults self.old.disk) (D.faults self.new.disk)) }
    {
        let mailbox = draft.open_box.number;
        let Some(generation) = self.generation_of(mailbox) else {
            unreachable!()
        };
        self.settle_draft(&draft)?;
        self.put_in_force(draft)?;
        self.drop_log(mailbox, generation)?;
        Ok(())
    }

    /// How many entries the log of this mailbox of the map has.
    pub fn box_entries(&self, mailbox: BoxNo) -> u64
        requires { IsTrue (is_some (box_at self.now.map mailbox.0)) }
        ensures { result ≡ log_count_of mailbox.0 self.now.boxes }
    {
        match with_number(&self.boxes, mailbox) {
            Some(open_box) => open_box.log.count(),
            None => unreachable!(),
        }
    }

    /// How many entries the map log has.
    pub fn map_entries(&self) -> u64
        ensures { result ≡ self.now.map_log.count }
    {
        self.map_log.count()
    }

    /// Syncs a draft: a crash leaves it as it reads.
    fn settle_draft(&mut self, draft: &BoxDraft) -> Result<(), DiskFault>
        requires running { self.old.stopped ≡ false }
        requires draft { IsBoxDraft (D.history self.old.disk) draft.now self.old }
        ensures any_moment { (lists : Lists) → IsSettledFor lists (D.history self.old.disk) → Leaves lists lists (D.history self.old.disk) (D.history self.new.disk) }
        ensures mail_stays { (m : MapMeaning) → MailIsKept m (D.history self.old.disk) (D.history self.new.disk) }
        ensures settled { OnOk result ((lists : Lists) → IsSettledFor lists (D.history self.old.disk) → IsSettledFor lists (D.history self.new.disk)) }
        ensures stored { OnOk result (KeepsStored (D.history self.old.disk) (D.history self.new.disk)) }
        ensures held { OnOk result (IsHeldDraft (D.history self.new.disk) draft.now self.new) }
        ensures reads { OnOk result ((texts : List (List ℕ)) → Drafts draft.now.log texts (D.history self.old.disk) → Reads draft.now.log texts (D.history self.new.disk)) }
        ensures others { OnOk result (SameButFor draft.now.log.name (D.history self.old.disk) (D.history self.new.disk)) }
        ensures stopped { IsErr result ↔ (self.new.stopped ≡ true) }
        ensures same { self.new ≡ record self.old { disk = self.new.disk; stopped = self.new.stopped } }
        ensures grows { Grows (D.history self.old.disk) (D.history self.new.disk) }
        ensures fault { ChangeFaultCounted (IsErr result) (D.faults self.old.disk) (D.faults self.new.disk) }
        ensures unfailed { OnOk result (NoFault (D.faults self.old.disk) (D.faults self.new.disk)) }
    {
        match draft.open_box.log.settle(&mut self.disk) {
            Ok(()) => Ok(()),
            Err(DiskFault) => {
                self.stopped = true;
                Err(DiskFault)
            }
        }
    }

    /// Adds the entry to the map log that names a draft which was synced: it is the mailbox's log then.
    fn put_in_force(&mut self, draft: BoxDraft) -> Result<(), DiskFault>
        requires running { self.old.stopped ≡ false }
        requires held { IsHeldDraft (D.history self.old.disk) draft self.old }
        requires named { IsTrue (is_some (box_at self.old.map draft.number.0)) }
        requires counts { All (λ row. listed_with draft row.uid self.old + due_at row.uid self.old + leak_at row.uid self.old ≤ row.count) self.old.map.records }
        ensures any_moment { (lists later : Lists) → GivesLists draft self.old (D.history self.old.disk) lists later → IsSettledFor lists (D.history self.old.disk) → Leaves lists later (D.history self.old.disk) (D.history self.new.disk) }
        ensures mail_stays { (m : MapMeaning) → MailIsKept m (D.history self.old.disk) (D.history self.new.disk) }
        ensures settled { OnOk result ((lists later : Lists) → GivesLists draft self.old (D.history self.old.disk) lists later → IsSettledFor lists (D.history self.old.disk) → IsSettledFor later (D.history self.new.disk)) }
        ensures stored { OnOk result (KeepsStored (D.history self.old.disk) (D.history self.new.disk)) }
        ensures taken { OnOk result (self.new.map ≡ map_applied (map_entry.G draft.number draft.generation) self.old.map) }
        ensures indexes { OnOk result (indexes_of self.new.boxes ≡ meanings_with draft.number.0 draft.index.meaning self.old.map.boxes (indexes_of self.old.boxes)) }
        ensures boxes { OnOk result (self.new.boxes ≡ boxes_with draft self.old.boxes) }
        ensures reads { OnOk result ((texts : List (List ℕ)) → Reads draft.log texts (D.history self.old.disk) → Reads draft.log texts (D.history self.new.disk)) }
        ensures leak { OnOk result ((uid : ℕ) → leak_at uid self.new ≡ leak_at uid self.old + listed_at uid self.old - listed_with draft uid self.old) }
        ensures means { MeansSame self.old.map self.new.map }
        ensures same_indexes { list_numbered self.old draft.number.0 ≡ Some draft.index.meaning → indexes_of self.new.boxes ≡ indexes_of self.old.boxes }
        ensures same_log { IsSameLog self.old.map_log self.new.map_log }
        ensures others { OnOk result (SameButFor self.old.map_log.name (D.history self.old.disk) (D.history self.new.disk)) }
        ensures untaken { IsErr result → (self.new.map ≡ self.old.map) × (self.new.boxes ≡ self.old.boxes) }
        ensures stopped { IsErr result ↔ (self.new.stopped ≡ true) }
        ensures same { self.new ≡ record self.old { disk = self.new.disk; map_log = self.new.map_log; map = self.new.map; boxes = self.new.boxes; stopped = self.new.stopped } }
        ensures grows { Grows (D.history self.old.disk) (D.history self.new.disk) }
        ensures fault { ChangeFaultCounted (IsErr result) (D.faults self.old.disk) (D.faults self.new.disk) }
        ensures unfailed { OnOk result (NoFault (D.faults self.old.disk) (D.faults self.new.disk)) }
    {
        let BoxDraft {
            open_box,
            generation,
        } = draft;
        let mailbox = open_box.number;
        let Some(place) = place_of(&self.boxes, mailbox) else {
            unreachable!()
        };
        match append_generation(&mut self.map_log, &mut self.disk, mailbox, generation) {
            Ok(()) => {
                self.boxes[place] = open_box;
                apply_generation(&mut self.map, mailbox, generation);
                Ok(())
            }
            Err(DiskFault) => {
                self.stopped = true;
                Err(DiskFault)
            }
        }
    }

    /// Removes a log that isn't in force, and syncs all names.
    fn drop_log(&mut self, number: BoxNo, generation: u32) -> Result<(), DiskFault>
        requires running { self.old.stopped ≡ false }
        requires free { IsOutOfForce number.0 generation self.old.map }
        requires unmade { has_made_log number.0 self.old ≡ false }
        ensures any_moment { (lists : Lists) → IsSettledFor lists (D.history self.old.disk) → Leaves lists lists (D.history self.old.disk) (D.history self.new.disk) }
        ensures mail_stays { (m : MapMeaning) → MailIsKept m (D.history self.old.disk) (D.history self.new.disk) }
        ensures settled { OnOk result ((lists : Lists) → IsSettledFor lists (D.history self.old.disk) → IsSettledFor lists (D.history self.new.disk)) }
        ensures stored { OnOk result (KeepsStored (D.history self.old.disk) (D.history self.new.disk)) }
        ensures gone { OnOk result (IfTold (D.history self.new.disk) (λ now. now (file.Box number.0 generation) ≡ no_file)) }
        ensures others { OnOk result (NamedButFor (file.Box number.0 generation) (D.history self.old.disk) (D.history self.new.disk)) }
        ensures stopped { IsErr result ↔ (self.new.stopped ≡ true) }
        ensures same { self.new ≡ record self.old { disk = self.new.disk; stopped = self.new.stopped } }
        ensures grows { Grows (D.history self.old.disk) (D.history self.new.disk) }
        ensures fault { ChangeFaultCounted (IsErr result) (D.faults self.old.disk) (D.faults self.new.disk) }
        ensures unfailed { OnOk result (NoFault (D.faults self.old.disk) (D.faults self.new.disk)) }
    {
        match remove_log(&mut self.disk, number, generation) {
            Ok(()) => Ok(()),
            Err(DiskFault) => {
                self.stopped = true;
                Err(DiskFault)
            }
        }
    }
}

/// Adds an entry to the map log that names a new generation of a mailbox's log.
fn append_generation<D: Disk>(
    log: &mut GateLog,
    disk: &mut D,
    mailbox: BoxNo,
    generation: u32,
) -> Result<(), DiskFault>
    requires read { (entries : List (List ℕ)) × Reads log.old entries (D.history disk.old) }
    requires room { entry_room ≤ log.old.room }
    ensures any_moment { AddsText log.old (map_text (map_entry.G mailbox generation)) (D.history disk.old) (D.history disk.new) }
    ensures others_stay { EachImage (λ _ image. OthersStay log.old.name (D.history disk.old) image) (D.history disk.old) (D.history disk.new) }
    ensures grows { Grows (D.history disk.old) (D.history disk.new) }
    ensures added { OnOk result ((entries : List (List ℕ)) → Reads log.old entries (D.history disk.old) → Reads log.new (entries ++ map_text (map_entry.G mailbox generation) ∷ []) (D.history disk.new)) }
    ensures held { OnOk result ((entries : List (List ℕ)) → Holds log.old entries (D.history disk.old) → Holds log.new (entries ++ map_text (map_entry.G mailbox generation) ∷ []) (D.history disk.new)) }
    ensures others { OnOk result (SameButFor log.old.name (D.history disk.old) (D.history disk.new)) }
    ensures fault { ChangeFaultCounted (IsErr result) (D.faults disk.old) (D.faults disk.new) }
    ensures unfailed { OnOk result (NoFault (D.faults disk.old) (D.faults disk.new)) }
    ensures log { IsSameLog log.old log.new }
{
    let entry = MapEntry::G {
        mailbox,
        generation,
    };
    append_entry(log, disk, &entry, None)
}

/// Takes in the entry of a new generation that fits.
fn apply_generation(map: &mut MapIndex, mailbox: BoxNo, generation: u32)
    requires { MapFits map.old.meaning (map_entry.G mailbox generation) }
    ensures { map.new.meaning ≡ map_applied (map_entry.G mailbox generation) map.old.meaning }
{
    let entry = MapEntry::G {
        mailbox,
        generation,
    };
    match map.apply(&entry) {
        Ok(()) => {}
        Err(NoMemory) => unreachable!(),
    }
}
