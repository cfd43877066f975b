// Drafts of the map log: made beside the one in force, extended, and put in its place.
ghost use Rattle.std.specs.Prelude.{◌≡◌, ◌≢◌, ◌↔◌, ◌<◌, ◌≤◌, ◌+◌, ◌++◌, ◌∷◌, [], ℕ, List, map, fold, length, IfOk, IsErr, OnOk, IsErrOf, true, false};
ghost use Rattle.std.specs.List.{AllByRecursion};
ghost use Rattle.disk_model.specs.Disk.{Between, EachImage, Grows, IfTold, OthersStay, SameButFor, no_file};
ghost use Rattle.disk_model.specs.FaultCounts.{NoFault, ChangeFaultCounted};
ghost use Rattle.disk_model.specs.declared.name.FileName.{FileName};
ghost use Rattle.disk_model.specs.declared.name.FileName.TheVariants as file;
ghost use Rattle.gate_log.specs.Log.{Drafts, Holds, NamedButFor, Reads};
ghost use Rattle.gate_log.specs.State.{IsSameLog};
ghost use Rattle.mdbox_base.specs.declared.entries.RootEntry.TheVariants as root_entry;
ghost use Rattle.model_kept.specs.Kept.{MailIsKept};
ghost use Rattle.model_lists.specs.Lists.{Lists};
ghost use Rattle.model_logs.specs.Entries.{MapInRange, map_text, root_text};
ghost use Rattle.model_logs.specs.declared.log_head.LogKind.TheVariants as kind;
ghost use Rattle.model_meaning.specs.MapMeaning.{MapMeaning, map_applied, map_meaning};
ghost use Rattle.model_store.specs.Settled.{IsSettledFor, Leaves};
ghost use Rattle.model_store.specs.Stands.{head_of};
ghost use Rattle.store_core.specs.Append.{AddsText};
ghost use Rattle.store_core.specs.Drafts.{AreNamedButFor};
ghost use Rattle.store_core.specs.Dues.{KeepsStored};
ghost use Rattle.store_core.specs.MapDrafts.{AllMapFitBehind, IsHeldMapDraft, IsMapDraft};
ghost use Rattle.store_core.specs.declared.error.StepError.TheVariants as step_error;

use super::Store;
use crate::error::StepError;
use crate::map_draft::{MapDraft, extend_map_in};
use disk_model::{Disk, FileName};
use gate_log::{DiskFault, GateLog, LogRoom, create_log};
use map_index::MapIndex;
use mdbox_base::{MapEntry, Seq, StoreId};
use model_logs::{LogHead, LogKind};
use std::alloc::Global;

/// How many octets of a log's room an entry of 64 octets takes: its length and a gate have 5 more.
const ENTRY_ROOM: u32 = 69;

/// How many octets of a log's room an entry of the root log takes.
const ROOT_ROOM: u32 = 10;

impl<D: Disk> Store<D> {
    /// The generation of the map log.
    pub fn map_generation(&self) -> u32
        ensures { self.now.map_log.name ≡ file.Map result }
    {
        self.map_log.generation()
    }

    /// Makes an empty map log of the next generation, synced, with its name. What stood in a file of its name is gone. Memory is taken
    /// first; a change of the disk that fails stops the store.
    pub fn draft_map(&mut self) -> Result<MapDraft, StepError>
        requires running { self.old.stopped ≡ false }
        requires more { (generation : ℕ) → self.old.map_log.name ≡ file.Map generation → generation < 4294967294 }

        // Of a settled disk each image at every moment is safe for its lists, whichever call fails; and after Ok the disk is
        // settled for them again. Each record stores what it stored.
        ensures any_moment { (lists : Lists) → IsSettledFor lists (D.history self.old.disk) → Leaves lists lists (D.history self.old.disk) (D.history self.new.disk) }
        ensures mail_stays { (m : MapMeaning) → MailIsKept m (D.history self.old.disk) (D.history self.new.disk) }
        ensures settled { OnOk result ((lists : Lists) → IsSettledFor lists (D.history self.old.disk) → IsSettledFor lists (D.history self.new.disk)) }
        ensures stored { OnOk result (KeepsStored (D.history self.old.disk) (D.history self.new.disk)) }

        // After Ok the draft is there, without entries. No other file has changed, and their names are synced.
        ensures number { IfOk result (λ draft. (generation : ℕ) → self.old.map_log.name ≡ file.Map generation → draft.generation ≡ generation + 1) }
        ensures empty { IfOk result (λ draft. draft.map.meaning ≡ map_meaning self.old.map.store []) }
        ensures draft { IfOk result (λ draft. IsMapDraft (D.history self.new.disk) draft self.new) }
        ensures nothing { IfOk result (λ draft. Drafts draft.log [] (D.history self.new.disk)) }
        ensures counted { IfOk result (λ draft. draft.log.count ≡ 0) }
        ensures others { IfOk result (λ draft. NamedButFor draft.log.name (D.history self.old.disk) (D.history self.new.disk)) }

        ensures stopped { IsErrOf result step_error.Stopped ↔ (self.new.stopped ≡ true) }
        ensures memory { IsErrOf result step_error.NoMemory → self.new ≡ self.old }
        ensures same { self.new ≡ record self.old { disk = self.new.disk; stopped = self.new.stopped } }
        ensures grows { Grows (D.history self.old.disk) (D.history self.new.disk) }
        ensures fault { ChangeFaultCounted (IsErrOf result step_error.Stopped) (D.faults self.old.disk) (D.faults self.new.disk) }
        ensures unfailed { OnOk result (NoFault (D.faults self.old.disk) (D.faults self.new.disk)) }
    {
        let generation = self.map_generation() + 1;
        let room = LogRoom::of(self.alloc, ENTRY_ROOM)?;
        let root_room = LogRoom::of(self.alloc, ROOT_ROOM)?;
        let map = MapIndex::empty(self.alloc, self.id)?;
        match make_map_log(self.alloc, &mut self.disk, self.id, generation) {
            Ok(mut log) => {
                log.take_room(room);
                Ok(MapDraft {
                    log,
                    map,
                    generation,
                    root_room,
                })
            }
            Err(DiskFault) => {
                self.stopped = true;
                Err(StepError::Stopped)
            }
        }
    }

    /// Adds entries to a draft of the map log, all at once, and syncs nothing: until it is put in force, a crash may leave anything of its file.
    /// Memory is taken first; a change of the disk that fails stops the store.
    pub fn extend_map(
        &mut self,
        draft: &mut MapDraft,
        entries: &Seq<MapEntry>,
    ) -> Result<(), StepError>
        requires running { self.old.stopped ≡ false }
        requires draft { IsMapDraft (D.history self.old.disk) draft.old self.old }
        requires few { (1 ≤ length entries.now) × (length entries.now ≤ 16) }
        requires range { AllByRecursion MapInRange entries.now }
        requires fit { AllMapFitBehind draft.old.map.meaning entries.now }

        // Of a settled disk each image at every moment is safe for its lists, whichever call fails; and after Ok the disk is
        // settled for them again. Each record stores what it stored.
        ensures any_moment { (lists : Lists) → IsSettledFor lists (D.history self.old.disk) → Leaves lists lists (D.history self.old.disk) (D.history self.new.disk) }
        ensures mail_stays { (m : MapMeaning) → MailIsKept m (D.history self.old.disk) (D.history self.new.disk) }
        ensures settled { OnOk result ((lists : Lists) → IsSettledFor lists (D.history self.old.disk) → IsSettledFor lists (D.history self.new.disk)) }
        ensures stored { OnOk result (KeepsStored (D.history self.old.disk) (D.history self.new.disk)) }

        // After Ok the draft means what it did, with the entries. No other file has changed.
        ensures draft { OnOk result (IsMapDraft (D.history self.new.disk) draft.new self.new) }
        ensures taken { OnOk result (draft.new.map.meaning ≡ fold (λ m e. map_applied e m) draft.old.map.meaning entries.now) }
        ensures added { OnOk result ((texts : List (List ℕ)) → Drafts draft.old.log texts (D.history self.old.disk) → Drafts draft.new.log (texts ++ map map_text entries.now) (D.history self.new.disk)) }
        ensures counted { OnOk result (draft.new.log.count ≡ draft.old.log.count + length entries.now) }
        ensures number { draft.new.generation ≡ draft.old.generation }
        ensures others { OnOk result (SameButFor draft.old.log.name (D.history self.old.disk) (D.history self.new.disk)) }

        ensures stopped { IsErrOf result step_error.Stopped ↔ (self.new.stopped ≡ true) }
        ensures memory { IsErrOf result step_error.NoMemory → (self.new ≡ self.old) × (draft.new ≡ draft.old) }
        ensures same { self.new ≡ record self.old { disk = self.new.disk; stopped = self.new.stopped } }
        ensures grows { Grows (D.history self.old.disk) (D.history self.new.disk) }
        ensures fault { ChangeFaultCounted (IsErrOf result step_error.Stopped) (D.faults self.old.disk) (D.faults self.new.disk) }
        ensures unfailed { OnOk result (NoFault (D.faults self.old.disk) (D.faults self.new.disk)) }
    {
        match extend_map_in(
            self.alloc,
            &mut draft.log,
            &mut draft.map,
            &mut self.disk,
            entries.as_slice(),
        ) {
            Ok(()) => Ok(()),
            Err(StepError::Stopped) => {
                self.stopped = true;
                Err(StepError::Stopped)
            }
            Err(StepError::NoMemory) => Err(StepError::NoMemory),
        }
    }

    /// Puts a draft that means what the map log in force means in its place: syncs it, adds the entry of the root log that names it,
    /// removes the old map log and syncs names. It takes no memory; a change of the disk that fails stops the store.
    pub fn switch_map(&mut self, draft: MapDraft) -> Result<(), StepError>
        requires running { self.old.stopped ≡ false }
        requires draft { IsMapDraft (D.history self.old.disk) draft self.old }
        requires means { draft.map.meaning ≡ self.old.map }

        // Of a settled disk each image at every moment is safe for its lists, whichever call fails; and after Ok the disk is
        // settled for them again. Each record stores what it stored.
        ensures any_moment { (lists : Lists) → IsSettledFor lists (D.history self.old.disk) → Leaves lists lists (D.history self.old.disk) (D.history self.new.disk) }
        ensures mail_stays { (m : MapMeaning) → MailIsKept m (D.history self.old.disk) (D.history self.new.disk) }
        ensures settled { OnOk result ((lists : Lists) → IsSettledFor lists (D.history self.old.disk) → IsSettledFor lists (D.history self.new.disk)) }
        ensures stored { OnOk result (KeepsStored (D.history self.old.disk) (D.history self.new.disk)) }

        // After Ok the map log is the draft's, and the old one is removed, and no crash leaves it. Each file but this, the
        // draft and the root log is as it was. All names are synced.
        ensures log { OnOk result (self.new.map_log ≡ draft.log) }
        ensures reads { OnOk result ((texts : List (List ℕ)) → Drafts draft.log texts (D.history self.old.disk) → Reads draft.log texts (D.history self.new.disk)) }
        ensures gone { OnOk result (IfTold (D.history self.new.disk) (λ now. now self.old.map_log.name ≡ no_file)) }
        ensures others { OnOk result (Between (AreNamedButFor self.old.root_log.name self.old.map_log.name draft.log.name) (D.history self.old.disk) (D.history self.new.disk)) }
        ensures names { OnOk result (IfTold (D.history self.new.disk) (λ now. (name : FileName) → (now name).is_name_loose ≡ false)) }

        ensures stopped { IsErrOf result step_error.Stopped ↔ (self.new.stopped ≡ true) }
        ensures memory { IsErrOf result step_error.NoMemory → ⊥ }
        ensures same { self.new ≡ record self.old { disk = self.new.disk; root_log = self.new.root_log; map_log = self.new.map_log; stopped = self.new.stopped } }
        ensures grows { Grows (D.history self.old.disk) (D.history self.new.disk) }
        ensures fault { ChangeFaultCounted (IsErrOf result step_error.Stopped) (D.faults self.old.disk) (D.faults self.new.disk) }
        ensures unfailed { OnOk result (NoFault (D.faults self.old.disk) (D.faults self.new.disk)) }
    {
        let generation = self.map_generation();
        self.settle_map(&draft)?;
        self.name_map(draft)?;
        self.drop_map(generation)?;
        Ok(())
    }

    /// Syncs a draft of the map log: a crash leaves it as it reads.
    fn settle_map(&mut self, draft: &MapDraft) -> Result<(), DiskFault>
        requires running { self.old.stopped ≡ false }
        requires draft { IsMapDraft (D.history self.old.disk) draft.now self.old }
        ensures any_moment { (lists : Lists) → IsSettledFor lists (D.history self.old.disk) → Leaves lists lists (D.history self.old.disk) (D.history self.new.disk) }
        ensures mail_stays { (m : MapMeaning) → MailIsKept m (D.history self.old.disk) (D.history self.new.disk) }
        ensures settled { OnOk result ((lists : Lists) → IsSettledFor lists (D.history self.old.disk) → IsSettledFor lists (D.history self.new.disk)) }
        ensures stored { OnOk result (KeepsStored (D.history self.old.disk) (D.history self.new.disk)) }
        ensures held { OnOk result (IsHeldMapDraft (D.history self.new.disk) draft.now self.new) }
        ensures reads { OnOk result ((texts : List (List ℕ)) → Drafts draft.now.log texts (D.history self.old.disk) → Reads draft.now.log texts (D.history self.new.disk)) }
        ensures others { OnOk result (SameButFor draft.now.log.name (D.history self.old.disk) (D.history self.new.disk)) }
        ensures stopped { IsErr result ↔ (self.new.stopped ≡ true) }
        ensures same { self.new ≡ record self.old { disk = self.new.disk; stopped = self.new.stopped } }
        ensures grows { Grows (D.history self.old.disk) (D.history self.new.disk) }
        ensures fault { ChangeFaultCounted (IsErr result) (D.faults self.old.disk) (D.faults self.new.disk) }
        ensures unfailed { OnOk result (NoFault (D.faults self.old.disk) (D.faults self.new.disk)) }
    {
        match draft.log.settle(&mut self.disk) {
            Ok(()) => Ok(()),
            Err(DiskFault) => {
                self.stopped = true;
                Err(DiskFault)
            }
        }
    }

    /// Adds the entry to the root log that names a draft which was synced: it is the map log then.
    fn name_map(&mut self, draft: MapDraft) -> Result<(), DiskFault>
        requires running { self.old.stopped ≡ false }
        requires held { IsHeldMapDraft (D.history self.old.disk) draft self.old }
        requires means { draft.map.meaning ≡ self.old.map }
        ensures any_moment { (lists : Lists) → IsSettledFor lists (D.history self.old.disk) → Leaves lists lists (D.history self.old.disk) (D.history self.new.disk) }
        ensures mail_stays { (m : MapMeaning) → MailIsKept m (D.history self.old.disk) (D.history self.new.disk) }
        ensures settled { OnOk result ((lists : Lists) → IsSettledFor lists (D.history self.old.disk) → IsSettledFor lists (D.history self.new.disk)) }
        ensures stored { OnOk result (KeepsStored (D.history self.old.disk) (D.history self.new.disk)) }
        ensures log { OnOk result (self.new.map_log ≡ draft.log) }
        ensures reads { OnOk result ((texts : List (List ℕ)) → Reads draft.log texts (D.history self.old.disk) → Reads draft.log texts (D.history self.new.disk)) }
        ensures others { OnOk result (SameButFor self.old.root_log.name (D.history self.old.disk) (D.history self.new.disk)) }
        ensures stopped { IsErr result ↔ (self.new.stopped ≡ true) }
        ensures same { self.new ≡ record self.old { disk = self.new.disk; root_log = self.new.root_log; map_log = self.new.map_log; stopped = self.new.stopped } }
        ensures grows { Grows (D.history self.old.disk) (D.history self.new.disk) }
        ensures fault { ChangeFaultCounted (IsErr result) (D.faults self.old.disk) (D.faults self.new.disk) }
        ensures unfailed { OnOk result (NoFault (D.faults self.old.disk) (D.faults self.new.disk)) }
    {
        let MapDraft {
            log,
            map: _map,
            generation,
            root_room,
        } = draft;
        self.root_log.take_room(root_room);
        match append_root(&mut self.root_log, &mut self.disk, generation) {
            Ok(()) => {
                self.map_log = log;
                Ok(())
            }
            Err(DiskFault) => {
                self.stopped = true;
                Err(DiskFault)
            }
        }
    }

    /// Removes a map log that isn't in force, and syncs all names.
    fn drop_map(&mut self, generation: u32) -> Result<(), DiskFault>
        requires running { self.old.stopped ≡ false }
        requires free { self.old.map_log.name ≢ file.Map generation }
        ensures any_moment { (lists : Lists) → IsSettledFor lists (D.history self.old.disk) → Leaves lists lists (D.history self.old.disk) (D.history self.new.disk) }
        ensures mail_stays { (m : MapMeaning) → MailIsKept m (D.history self.old.disk) (D.history self.new.disk) }
        ensures settled { OnOk result ((lists : Lists) → IsSettledFor lists (D.history self.old.disk) → IsSettledFor lists (D.history self.new.disk)) }
        ensures stored { OnOk result (KeepsStored (D.history self.old.disk) (D.history self.new.disk)) }
        ensures gone { OnOk result (IfTold (D.history self.new.disk) (λ now. now (file.Map generation) ≡ no_file)) }
        ensures others { OnOk result (NamedButFor (file.Map generation) (D.history self.old.disk) (D.history self.new.disk)) }
        ensures stopped { IsErr result ↔ (self.new.stopped ≡ true) }
        ensures same { self.new ≡ record self.old { disk = self.new.disk; stopped = self.new.stopped } }
        ensures grows { Grows (D.history self.old.disk) (D.history self.new.disk) }
        ensures fault { ChangeFaultCounted (IsErr result) (D.faults self.old.disk) (D.faults self.new.disk) }
        ensures unfailed { OnOk result (NoFault (D.faults self.old.disk) (D.faults self.new.disk)) }
    {
        match remove_map_log(&mut self.disk, generation) {
            Ok(()) => Ok(()),
            Err(DiskFault) => {
                self.stopped = true;
                Err(DiskFault)
            }
        }
    }
}

/// Makes a map log of this generation, without entries.
fn make_map_log<D: Disk>(
    alloc: Global,
    disk: &mut D,
    store: StoreId,
    generation: u32,
) -> Result<GateLog, DiskFault>
    ensures any_moment { EachImage (λ _ image. OthersStay (file.Map generation) (D.history disk.old) image) (D.history disk.old) (D.history disk.new) }
    ensures made { IfOk result (λ log. Holds log [] (D.history disk.new)) }
    ensures log { IfOk result (λ log. log ≡ record { name = file.Map generation; head = head_of store.0 kind.Map 0 generation; end = 25; count = 0; room = 0 }) }
    ensures others { OnOk result (NamedButFor (file.Map generation) (D.history disk.old) (D.history disk.new)) }
    ensures fault { ChangeFaultCounted (IsErr result) (D.faults disk.old) (D.faults disk.new) }
    ensures unfailed { OnOk result (NoFault (D.faults disk.old) (D.faults disk.new)) }
{
    let head = LogHead {
        version: 1,
        store,
        kind: LogKind::Map,
        number: 0,
        generation,
    };
    create_log(alloc, disk, FileName::Map(generation), head).map_err(|_| DiskFault)
}

/// Adds an entry to the root log that names a map log of this generation.
fn append_root<D: Disk>(log: &mut GateLog, disk: &mut D, generation: u32) -> Result<(), DiskFault>
    requires read { (entries : List (List ℕ)) × Reads log.old entries (D.history disk.old) }
    requires room { 10 ≤ log.old.room }
    ensures any_moment { AddsText log.old (root_text (root_entry.M generation)) (D.history disk.old) (D.history disk.new) }
    ensures others_stay { EachImage (λ _ image. OthersStay log.old.name (D.history disk.old) image) (D.history disk.old) (D.history disk.new) }
    ensures grows { Grows (D.history disk.old) (D.history disk.new) }
    ensures added { OnOk result ((entries : List (List ℕ)) → Reads log.old entries (D.history disk.old) → Reads log.new (entries ++ root_text (root_entry.M generation) ∷ []) (D.history disk.new)) }
    ensures held { OnOk result ((entries : List (List ℕ)) → Holds log.old entries (D.history disk.old) → Holds log.new (entries ++ root_text (root_entry.M generation) ∷ []) (D.history disk.new)) }
    ensures others { OnOk result (SameButFor log.old.name (D.history disk.old) (D.history disk.new)) }
    ensures fault { ChangeFaultCounted (IsErr result) (D.faults disk.old) (D.faults disk.new) }
    ensures unfailed { OnOk result (NoFault (D.faults disk.old) (D.faults disk.new)) }
    ensures log { IsSameLog log.old log.new }
{
    let text = naming_text(generation);
    log.append(disk, &text)
}

/// The octets of the entry of the root log that names a map log of this generation.
fn naming_text(generation: u32) -> [u8; 5]
    ensures { result ≡ root_text (root_entry.M generation) }
{
    let [a, b, c, d] = generation.to_be_bytes();
    [b'M', a, b, c, d]
}

/// Removes the map log of this generation, and syncs all names.
fn remove_map_log<D: Disk>(disk: &mut D, generation: u32) -> Result<(), DiskFault>
    ensures any_moment { EachImage (λ _ image. OthersStay (file.Map generation) (D.history disk.old) image) (D.history disk.old) (D.history disk.new) }
    ensures gone { OnOk result (IfTold (D.history disk.new) (λ now. now (file.Map generation) ≡ no_file)) }
    ensures others { OnOk result (NamedButFor (file.Map generation) (D.history disk.old) (D.history disk.new)) }
    ensures fault { ChangeFaultCounted (IsErr result) (D.faults disk.old) (D.faults disk.new) }
    ensures unfailed { OnOk result (NoFault (D.faults disk.old) (D.faults disk.new)) }
{
    disk.remove(FileName::Map(generation))?;
    disk.sync_names()?;
    Ok(())
}
