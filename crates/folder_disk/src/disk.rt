// A disk over a folder.
ghost use Rattle.std.specs.Prelude.{◌≡◌, ◌+◌, ◌-◌, ◌^◌, ◌<◌, ◌≤◌, min, length, take, drop, true, false};
ghost use Rattle.std.specs.BTreeSet.{btree_set_len};
ghost use Rattle.folder_model.specs.Calls.{IfModelled, IsLocked};
ghost use Rattle.folder_model.specs.Limits.{most_open};
ghost use Rattle.folder_disk.specs.Over.{IsDiskOver, LeavesFolder, told_history};
ghost use Rattle.folder_disk.specs.Known.{AreKnownNames};
ghost use Rattle.folder_disk.specs.Changed.{AreSyncedBut};

use crate::changed::Changed;
use crate::files::{
    cut_at, length_at, make_file, read_at, remove_file, settle_at, sync_at, write_at,
};
use crate::folder_name::FolderName;
use crate::folders::sync_names;
use crate::lock::{TRIES, has_lock};
use crate::names::{names_there, next_in, with_name, without_name};
use crate::paths::path_of;
use disk_model::{DiskError, FileName, is_log};
use disk_record::{Change, Record};
use folder_model::{CallError, Folder, MOST_OPEN};
use std::alloc::Global;
use std::collections::BTreeSet;

/// How many files may have octets that aren't synced, so that one more can be open in a folder that keeps files open.
const MOST_UNSYNCED: usize = MOST_OPEN - 1;

/// A store's files in a folder.
///
/// The first call asks for the store's lock, so that one process at a time has the store. Names that no file of a store has
/// name no file. Once a change has failed each later call fails.
#[derive(Drop)]
pub struct FolderDisk<F: Folder> {
    pub(crate) folder: F,
    alloc: Global,
    /// What its calls have changed. Only clauses read it.
    pub(crate) record: Record,
    /// How often the lock is asked for at the first call. None once it was.
    tries: u32,
    /// Whether this process has the lock.
    is_held: bool,
    /// The logs that this process has made, or synced at their first use.
    firm: BTreeSet<FileName>,
    /// The names of the files that are there, from the first look at the folders on.
    names: Option<BTreeSet<FileName>>,
    /// The files with octets that may not be synced: those that were written, cut or made since their last sync.
    unsynced: BTreeSet<FileName>,
    /// The folders whose names are to be synced.
    changed: Changed,
    /// Whether a change has failed, or a sync before a first use.
    pub(crate) is_spoiled: bool,
    /// How many calls have returned.
    pub(crate) calls: u64,
    pub(crate) failed_reads: u64,
    pub(crate) failed_changes: u64,
    ghost few: { btree_set_len unsynced < most_open },
    ghost counted: { calls ≡ min (length record.changes) (2 ^ 64 - 1) },
    ghost over: { ∥ IsDiskOver (F.Folder.modelled folder) (F.Folder.past folder) record.changes is_spoiled ∥₁ },
    ghost listed: { ∥ AreKnownNames ⟦<FileName as Ord>⟧.cmp (told_history (F.Folder.modelled folder) record.changes) names ∥₁ },
    ghost noted: { ∥ (is_spoiled ≡ false → IfModelled (F.Folder.modelled folder) (AreSyncedBut changed)) ∥₁ },
    ghost locked: { ∥ (is_held ≡ true → is_spoiled ≡ false → IsLocked (F.Folder.modelled folder)) ∥₁ },
}

impl<F: Folder + Drop> FolderDisk<F> {
    ghost use Rattle.std.specs.Prelude.{None, Some, Ok, ◌↔◌, [], IfOk, IfErr, IfSome, IfNone, IsOk, IsErr, IsErrOf, OnOk, OnErr, string_bytes};
    ghost use Rattle.std.specs.Prelude.{IsTrue, ◌⊎◌};
    ghost use Rattle.std.specs.BTreeSet.{contains, btree_set_len};
    ghost use Rattle.std.specs.Option.{option_map};
    ghost use Rattle.disk_model.specs.Disk.{IfTold, IsPast, IsNext, ReadCause, ChangeCause, Reaches, IsThere, IsMoment, IsImage, AfterFailed, Unchanged, after, change, change_all, written, half_written, cut_to, half_cut, synced, made, half_made, removed, half_removed, named, reading};
    ghost use Rattle.disk_record.specs.Record.{state_after};
    ghost use Rattle.file_paths.specs.Paths.{path_text, IsStoreFile};
    ghost use Rattle.folder_model.specs.Paths.{IsPath};
    ghost use Rattle.disk_model.specs.declared.error.DiskError.TheVariants.{Absent};
    ghost use Rattle.folder_disk.specs.Files.{IsSoundSystem, HasDurableFile, IsSettledLog};
    ghost use Rattle.folder_disk.specs.Over.{IsStoreSystem, IsFailedChange, HasBegun};
    ghost use Rattle.folder_disk.specs.Known.{AreToldNames};

    /// The store's files in this folder, whose process has made no call yet. Nothing is looked at until the first call. It waits
    /// for 30 seconds for another process that has the store.
    pub fn of(folder: F, alloc: Global) -> FolderDisk<F>
        requires begun { HasBegun (F.Folder.modelled folder) (F.Folder.past folder) }
        requires store { IfModelled (F.Folder.modelled folder) IsStoreSystem }
        ensures told { told_history (F.Folder.modelled result.folder) result.record.changes ≡ told_history (F.Folder.modelled folder) [] }
        ensures faults { (result.failed_reads ≡ 0) × (result.failed_changes ≡ 0) }
        ensures tries { result.tries ≡ 3000 }
    {
        FolderDisk::asking(folder, alloc, TRIES)
    }

    /// The same, which asks so many times for the store's lock before it is refused.
    pub fn asking(folder: F, alloc: Global, tries: u32) -> FolderDisk<F>
        requires begun { HasBegun (F.Folder.modelled folder) (F.Folder.past folder) }
        requires store { IfModelled (F.Folder.modelled folder) IsStoreSystem }
        ensures told { told_history (F.Folder.modelled result.folder) result.record.changes ≡ told_history (F.Folder.modelled folder) [] }
        ensures faults { (result.failed_reads ≡ 0) × (result.failed_changes ≡ 0) }
        ensures tries { result.tries ≡ tries }
    {
        FolderDisk {
            folder,
            alloc,
            record: Record::new(),
            tries,
            is_held: false,
            firm: BTreeSet::new(alloc),
            names: None,
            unsynced: BTreeSet::new(alloc),
            changed: Changed::all(alloc),
            is_spoiled: false,
            calls: 0,
            failed_reads: 0,
            failed_changes: 0,
        }
    }

    /// The folder, as the calls have left it. The process has the lock still, if it had it.
    pub fn into_folder(self) -> F
        ensures { F.Folder.modelled result ≡ F.Folder.modelled self.folder }
    {
        self.folder
    }

    /// Asks for the lock. It isn't asked for again.
    fn ask(&mut self)
        requires { self.old.is_spoiled ≡ false }
        ensures told { told_history (F.Folder.modelled self.new.folder) self.new.record.changes ≡ told_history (F.Folder.modelled self.old.folder) self.old.record.changes }
        ensures same { (self.new.failed_reads ≡ self.old.failed_reads) × (self.new.failed_changes ≡ self.old.failed_changes) × (self.new.is_spoiled ≡ self.old.is_spoiled) }
        ensures firm { self.new.firm ≡ self.old.firm }
    {
        self.is_held = has_lock(&mut self.folder, self.tries);
        self.changed.note_all();
        self.tries = 0;
    }

    /// Asks for the lock at the first call. An error where another process has it, or where a change has failed before.
    #[tactic(auto, using(crate::proofs::OverLemmas::locked_of, crate::proofs::OverLemmas::over_sound))]
    pub(crate) fn ready(&mut self) -> Result<(), CallError>
        ensures locked { OnOk result (IsLocked (F.Folder.modelled self.new.folder)) }
        ensures sound { OnOk result (IsSoundSystem (F.Folder.modelled self.new.folder)) }
        ensures spoiled { OnOk result (self.new.is_spoiled ≡ false) }
        ensures told { told_history (F.Folder.modelled self.new.folder) self.new.record.changes ≡ told_history (F.Folder.modelled self.old.folder) self.old.record.changes }
        ensures same { (self.new.failed_reads ≡ self.old.failed_reads) × (self.new.failed_changes ≡ self.old.failed_changes) × (self.new.is_spoiled ≡ self.old.is_spoiled) }
        ensures firm { self.new.firm ≡ self.old.firm }
        ensures spent { self.old.is_spoiled ≡ true → IsErr result × (self.new.is_spoiled ≡ true) × LeavesFolder (F.Folder.modelled self.old.folder) (F.Folder.past self.old.folder) (F.Folder.modelled self.new.folder) (F.Folder.past self.new.folder) }
    {
        if self.is_spoiled {
            return Err(CallError::Failed);
        }
        if self.is_held {
            return Ok(());
        }
        self.ask();
        if self.is_held {
            Ok(())
        } else {
            Err(CallError::Failed)
        }
    }

    /// Syncs a file at its path, which no change of the disk tells. If that fails, nothing of the store can be relied on.
    fn sync_quietly(&mut self, path: &str) -> Result<(), CallError>
        requires locked { IsLocked (F.Folder.modelled self.old.folder) }
        requires sound { IsSoundSystem (F.Folder.modelled self.old.folder) }
        requires spoiled { self.old.is_spoiled ≡ false }
        requires spelled { IsPath path.now }
        ensures locked { OnOk result (IsLocked (F.Folder.modelled self.new.folder)) }
        ensures sound { OnOk result (IsSoundSystem (F.Folder.modelled self.new.folder)) }
        ensures spoiled { OnOk result (self.new.is_spoiled ≡ false) }
        ensures durable { OnOk result (IfModelled (F.Folder.modelled self.new.folder) (HasDurableFile path.now)) }
        ensures told { told_history (F.Folder.modelled self.new.folder) self.new.record.changes ≡ told_history (F.Folder.modelled self.old.folder) self.old.record.changes }
        ensures same { (self.new.failed_reads ≡ self.old.failed_reads) × (self.new.failed_changes ≡ self.old.failed_changes) }
        ensures firm { (self.new.firm ≡ self.old.firm) × (self.new.unsynced ≡ self.old.unsynced) }
    {
        match settle_at(&mut self.folder, path) {
            Ok(()) => Ok(()),
            Err(error) => {
                self.is_spoiled = true;
                Err(error)
            }
        }
    }

    /// Syncs a log at its first use: a process that was killed may have left octets of it that aren't durable, and a crash would
    /// take away what was read of them. If that fails, nothing of the store can be relied on.
    fn settle(&mut self, path: &str, name: FileName) -> Result<(), CallError>
        requires locked { IsLocked (F.Folder.modelled self.old.folder) }
        requires sound { IsSoundSystem (F.Folder.modelled self.old.folder) }
        requires spoiled { self.old.is_spoiled ≡ false }
        requires spelled { IsPath path.now }
        ensures locked { OnOk result (IsLocked (F.Folder.modelled self.new.folder)) }
        ensures sound { OnOk result (IsSoundSystem (F.Folder.modelled self.new.folder)) }
        ensures spoiled { OnOk result (self.new.is_spoiled ≡ false) }
        ensures settled { OnOk result (IsSettledLog ⟦<FileName as Ord>⟧.cmp self.old.firm name path.now (F.Folder.modelled self.new.folder)) }
        ensures told { told_history (F.Folder.modelled self.new.folder) self.new.record.changes ≡ told_history (F.Folder.modelled self.old.folder) self.old.record.changes }
        ensures same { (self.new.failed_reads ≡ self.old.failed_reads) × (self.new.failed_changes ≡ self.old.failed_changes) }
    {
        if !is_log(name) || self.firm.contains(&name) {
            return Ok(());
        }
        self.sync_quietly(path)?;
        let _ = self.firm.insert(name);
        Ok(())
    }

    /// The path of a file that is to be used, once this process has the store. A log is synced at its first use.
    pub(crate) fn path_to_use(&mut self, name: FileName) -> Result<Option<String>, CallError>
        ensures locked { OnOk result (IsLocked (F.Folder.modelled self.new.folder)) }
        ensures sound { OnOk result (IsSoundSystem (F.Folder.modelled self.new.folder)) }
        ensures spoiled { OnOk result (self.new.is_spoiled ≡ false) }
        ensures file { IfOk result (λ found. IfSome found (λ path. IsStoreFile name × (string_bytes path ≡ path_text name))) }
        ensures settled { IfOk result (λ found. IfSome found (λ path. IsSettledLog ⟦<FileName as Ord>⟧.cmp self.old.firm name (string_bytes path) (F.Folder.modelled self.new.folder))) }
        ensures none { IfOk result (λ found. IfNone found (IsStoreFile name → ⊥)) }
        ensures spelled { IfOk result (λ found. IfSome found (λ path. IsPath (string_bytes path))) }
        ensures told { told_history (F.Folder.modelled self.new.folder) self.new.record.changes ≡ told_history (F.Folder.modelled self.old.folder) self.old.record.changes }
        ensures same { (self.new.failed_reads ≡ self.old.failed_reads) × (self.new.failed_changes ≡ self.old.failed_changes) }
        ensures spent { self.old.is_spoiled ≡ true → IsErr result × (self.new.is_spoiled ≡ true) × LeavesFolder (F.Folder.modelled self.old.folder) (F.Folder.past self.old.folder) (F.Folder.modelled self.new.folder) (F.Folder.past self.new.folder) }
    {
        self.ready()?;
        let Some(path) = path_of(self.alloc, name)? else {
            return Ok(None);
        };
        self.settle(path.as_str(), name)?;
        Ok(Some(path))
    }

    /// Makes room for another file with octets that aren't synced: where there are as many as may be, the first is synced. If that
    /// fails, nothing of the store can be relied on.
    fn make_room(&mut self, name: FileName) -> Result<(), CallError>
        requires locked { IsLocked (F.Folder.modelled self.old.folder) }
        requires sound { IsSoundSystem (F.Folder.modelled self.old.folder) }
        requires spoiled { self.old.is_spoiled ≡ false }
        ensures locked { OnOk result (IsLocked (F.Folder.modelled self.new.folder)) }
        ensures sound { OnOk result (IsSoundSystem (F.Folder.modelled self.new.folder)) }
        ensures spoiled { OnOk result (self.new.is_spoiled ≡ false) }
        ensures room { OnOk result (IsTrue (contains ⟦<FileName as Ord>⟧.cmp self.new.unsynced name) ⊎ (btree_set_len self.new.unsynced + 1 < most_open)) }
        ensures told { told_history (F.Folder.modelled self.new.folder) self.new.record.changes ≡ told_history (F.Folder.modelled self.old.folder) self.old.record.changes }
        ensures same { (self.new.failed_reads ≡ self.old.failed_reads) × (self.new.failed_changes ≡ self.old.failed_changes) }
    {
        if self.unsynced.contains(&name) || self.unsynced.len() < MOST_UNSYNCED {
            return Ok(());
        }
        let Some(first) = self.unsynced.pop_first() else {
            return Ok(());
        };
        match path_of(self.alloc, first)? {
            Some(path) => self.sync_quietly(path.as_str()),
            None => Ok(()),
        }
    }

    /// The path of a file that is to be changed, once this process has the store. It counts as one with octets that aren't synced.
    pub(crate) fn path_to_change(&mut self, name: FileName) -> Result<Option<String>, CallError>
        ensures locked { OnOk result (IsLocked (F.Folder.modelled self.new.folder)) }
        ensures sound { OnOk result (IsSoundSystem (F.Folder.modelled self.new.folder)) }
        ensures spoiled { OnOk result (self.new.is_spoiled ≡ false) }
        ensures file { IfOk result (λ found. IfSome found (λ path. IsStoreFile name × (string_bytes path ≡ path_text name))) }
        ensures noted { IfOk result (λ found. IfSome found (λ _. IsTrue (contains ⟦<FileName as Ord>⟧.cmp self.new.unsynced name))) }
        ensures none { IfOk result (λ found. IfNone found (IsStoreFile name → ⊥)) }
        ensures spelled { IfOk result (λ found. IfSome found (λ path. IsPath (string_bytes path))) }
        ensures told { told_history (F.Folder.modelled self.new.folder) self.new.record.changes ≡ told_history (F.Folder.modelled self.old.folder) self.old.record.changes }
        ensures same { (self.new.failed_reads ≡ self.old.failed_reads) × (self.new.failed_changes ≡ self.old.failed_changes) }
        ensures spent { self.old.is_spoiled ≡ true → IsErr result × (self.new.is_spoiled ≡ true) × LeavesFolder (F.Folder.modelled self.old.folder) (F.Folder.past self.old.folder) (F.Folder.modelled self.new.folder) (F.Folder.past self.new.folder) }
    {
        let Some(path) = self.path_to_use(name)? else {
            return Ok(None);
        };
        self.make_room(name)?;
        match self.unsynced.insert(name) {
            Ok(_) => Ok(Some(path)),
            Err(_) => Err(CallError::Failed),
        }
    }

    /// The length of a file, None where there is none.
    #[tactic(auto, using(crate::proofs::OverLemmas::over_same, crate::proofs::OverLemmas::locked_same, crate::proofs::ChangedLemmas::noted_same))]
    pub(crate) fn length_of(&mut self, name: FileName) -> Result<Option<u64>, CallError>
        ensures some { IfOk result (λ found. IfSome found (λ n. IfTold (told_history (F.Folder.modelled self.old.folder) self.old.record.changes) (λ disk. option_map length (reading (disk name)) ≡ Some n))) }
        ensures none { IfOk result (λ found. IfNone found (IfTold (told_history (F.Folder.modelled self.old.folder) self.old.record.changes) (λ disk. reading (disk name) ≡ None))) }
        ensures settled { IfOk result (λ found. IfSome found (λ n. IsSettledLog ⟦<FileName as Ord>⟧.cmp self.old.firm name (path_text name) (F.Folder.modelled self.new.folder))) }
        ensures told { told_history (F.Folder.modelled self.new.folder) self.new.record.changes ≡ told_history (F.Folder.modelled self.old.folder) self.old.record.changes }
        ensures same { (self.new.failed_reads ≡ self.old.failed_reads) × (self.new.failed_changes ≡ self.old.failed_changes) }
        ensures spent { self.old.is_spoiled ≡ true → IsErr result × (self.new.is_spoiled ≡ true) × LeavesFolder (F.Folder.modelled self.old.folder) (F.Folder.past self.old.folder) (F.Folder.modelled self.new.folder) (F.Folder.past self.new.folder) }
    {
        match self.path_to_use(name)? {
            Some(path) => length_at(&mut self.folder, path.as_str()),
            None => Ok(None),
        }
    }

    /// Octets of a file, None where there is none.
    #[tactic(auto, using(crate::proofs::OverLemmas::over_same, crate::proofs::OverLemmas::locked_same, crate::proofs::ChangedLemmas::noted_same))]
    pub(crate) fn octets_of(
        &mut self,
        name: FileName,
        offset: u64,
        into: &mut [u8],
    ) -> Result<Option<usize>, CallError>
        ensures count { IfOk result (λ found. IfSome found (λ n. n ≤ length into.new)) }
        ensures octets { IfOk result (λ found. IfSome found (λ n. IfTold (told_history (F.Folder.modelled self.old.folder) self.old.record.changes) (λ disk. (reading (disk name) ≡ Some (disk name).octets) × (take n into.new ≡ take (length into.old) (drop offset (disk name).octets))))) }
        ensures none { IfOk result (λ found. IfNone found (IfTold (told_history (F.Folder.modelled self.old.folder) self.old.record.changes) (λ disk. reading (disk name) ≡ None))) }
        ensures settled { IfOk result (λ found. IfSome found (λ n. IsSettledLog ⟦<FileName as Ord>⟧.cmp self.old.firm name (path_text name) (F.Folder.modelled self.new.folder))) }
        ensures rest { IfOk result (λ found. IfSome found (λ n. drop n into.new ≡ drop n into.old)) }
        ensures untouched { IfOk result (λ found. IfNone found (into.new ≡ into.old)) }
        ensures told { told_history (F.Folder.modelled self.new.folder) self.new.record.changes ≡ told_history (F.Folder.modelled self.old.folder) self.old.record.changes }
        ensures same { (self.new.failed_reads ≡ self.old.failed_reads) × (self.new.failed_changes ≡ self.old.failed_changes) }
        ensures spent { self.old.is_spoiled ≡ true → IsErr result × (self.new.is_spoiled ≡ true) × LeavesFolder (F.Folder.modelled self.old.folder) (F.Folder.past self.old.folder) (F.Folder.modelled self.new.folder) (F.Folder.past self.new.folder) }
    {
        match self.path_to_use(name)? {
            Some(path) => read_at(&mut self.folder, path.as_str(), offset, into),
            None => Ok(None),
        }
    }

    /// The names of the files that are there: those that are known, or else looked up. They aren't kept.
    #[tactic(auto, using(crate::proofs::OverLemmas::over_same, crate::proofs::OverLemmas::locked_same, crate::proofs::ChangedLemmas::noted_same))]
    fn known_names(&mut self) -> Result<BTreeSet<FileName>, CallError>
        requires locked { IsLocked (F.Folder.modelled self.old.folder) }
        requires sound { IsSoundSystem (F.Folder.modelled self.old.folder) }
        requires spoiled { self.old.is_spoiled ≡ false }
        ensures are { IfOk result (λ names. ∥ AreToldNames ⟦<FileName as Ord>⟧.cmp (told_history (F.Folder.modelled self.new.folder) self.new.record.changes) names ∥₁) }
        ensures told { told_history (F.Folder.modelled self.new.folder) self.new.record.changes ≡ told_history (F.Folder.modelled self.old.folder) self.old.record.changes }
        ensures same { (self.new.failed_reads ≡ self.old.failed_reads) × (self.new.failed_changes ≡ self.old.failed_changes) × (self.new.is_spoiled ≡ self.old.is_spoiled) }
    {
        match self.names.take() {
            Some(names) => Ok(names),
            None => names_there(&mut self.folder, self.alloc),
        }
    }

    /// The first name past one.
    #[tactic(auto, using(crate::proofs::OverLemmas::over_same, crate::proofs::OverLemmas::locked_same, crate::proofs::ChangedLemmas::noted_same))]
    pub(crate) fn next_of(&mut self, after: Option<FileName>) -> Result<Option<FileName>, CallError>
        ensures past { IfOk result (λ next. IfSome next (IsPast ⟦<FileName as Ord>⟧.cmp after)) }
        ensures next { IfOk result (λ next. IfTold (told_history (F.Folder.modelled self.old.folder) self.old.record.changes) (IsNext ⟦<FileName as Ord>⟧.cmp after next)) }
        ensures told { told_history (F.Folder.modelled self.new.folder) self.new.record.changes ≡ told_history (F.Folder.modelled self.old.folder) self.old.record.changes }
        ensures same { (self.new.failed_reads ≡ self.old.failed_reads) × (self.new.failed_changes ≡ self.old.failed_changes) }
        ensures spent { self.old.is_spoiled ≡ true → IsErr result × (self.new.is_spoiled ≡ true) × LeavesFolder (F.Folder.modelled self.old.folder) (F.Folder.past self.old.folder) (F.Folder.modelled self.new.folder) (F.Folder.past self.new.folder) }
    {
        self.ready()?;
        let names = self.known_names()?;
        let next = next_in(&names, after);
        self.names = Some(names);
        Ok(next)
    }

    /// What an answer of the system to a read means, None being that there is no such file. Errors are counted, and so is the
    /// call.
    pub(crate) fn read<T: Drop>(
        &mut self,
        answer: Result<Option<T>, CallError>,
    ) -> Result<T, DiskError>
        ensures value { IfOk result (λ value. answer ≡ Ok (Some value)) }
        ensures absent { IsErrOf result Absent ↔ (answer ≡ Ok None) }
        ensures told { told_history (F.Folder.modelled self.new.folder) self.new.record.changes ≡ after (λ disk. disk) (told_history (F.Folder.modelled self.old.folder) self.old.record.changes) }
        ensures cause { ReadCause result (record { reads = self.old.failed_reads; changes = self.old.failed_changes }) (record { reads = self.new.failed_reads; changes = self.new.failed_changes }) }
        ensures left { (self.new.is_spoiled ≡ self.old.is_spoiled) × LeavesFolder (F.Folder.modelled self.old.folder) (F.Folder.past self.old.folder) (F.Folder.modelled self.new.folder) (F.Folder.past self.new.folder) }
    {
        self.pass();
        match answer {
            Ok(Some(value)) => Ok(value),
            Ok(None) => Err(DiskError::Absent),
            Err(_) => {
                self.failed_reads = self.failed_reads.saturating_add(1);
                Err(DiskError::Failed)
            }
        }
    }

    /// Notes a call that changed nothing.
    #[tactic(auto, using(crate::proofs::OverLemmas::over_stays, crate::proofs::OverLemmas::history_stays, crate::proofs::KnownLemmas::known_stays))]
    fn pass(&mut self)
        ensures told { told_history (F.Folder.modelled self.new.folder) self.new.record.changes ≡ after (λ disk. disk) (told_history (F.Folder.modelled self.old.folder) self.old.record.changes) }
        ensures same { (self.new.failed_reads ≡ self.old.failed_reads) × (self.new.failed_changes ≡ self.old.failed_changes) × (self.new.is_spoiled ≡ self.old.is_spoiled) }
        ensures left { LeavesFolder (F.Folder.modelled self.old.folder) (F.Folder.past self.old.folder) (F.Folder.modelled self.new.folder) (F.Folder.past self.new.folder) }
    {
        self.record.note(&Change::Nothing, &[]);
        self.calls = self.calls.saturating_add(1);
    }

    /// Notes a change that failed before anything was done.
    #[tactic(auto, using(crate::proofs::ChangeLemmas::nothing_done))]
    pub(crate) fn fail(&mut self, change: &Change) -> Result<(), DiskError>
        requires { IsFailedChange change.now }
        ensures told { told_history (F.Folder.modelled self.new.folder) self.new.record.changes ≡ after (state_after change.now []) (told_history (F.Folder.modelled self.old.folder) self.old.record.changes) }
        ensures last { self.new.is_spoiled ≡ true }
        ensures failed { IsErr result }
        ensures cause { ChangeCause result (record { reads = self.old.failed_reads; changes = self.old.failed_changes }) (record { reads = self.new.failed_reads; changes = self.new.failed_changes }) }
        ensures left { LeavesFolder (F.Folder.modelled self.old.folder) (F.Folder.past self.old.folder) (F.Folder.modelled self.new.folder) (F.Folder.past self.new.folder) }
    {
        self.record.note(change, &[]);
        self.calls = self.calls.saturating_add(1);
        self.is_spoiled = true;
        self.failed_changes = self.failed_changes.saturating_add(1);
        Err(DiskError::Failed)
    }

    /// Writes to a file at its path, once this process has the store.
    pub(crate) fn write_to(
        &mut self,
        path: &str,
        name: FileName,
        offset: u64,
        from: &[u8],
    ) -> Result<(), DiskError>
        requires locked { IsLocked (F.Folder.modelled self.old.folder) }
        requires sound { IsSoundSystem (F.Folder.modelled self.old.folder) }
        requires spoiled { self.old.is_spoiled ≡ false }
        requires spelled { IsPath path.now }
        requires file { IsStoreFile name }
        requires named { path.now ≡ path_text name }
        requires reaches { IfTold (told_history (F.Folder.modelled self.old.folder) self.old.record.changes) (λ disk. Reaches (disk name) offset) }
        ensures state { OnOk result (told_history (F.Folder.modelled self.new.folder) self.new.record.changes ≡ after (change name (written offset from.now)) (told_history (F.Folder.modelled self.old.folder) self.old.record.changes)) }
        ensures failed { OnErr result (told_history (F.Folder.modelled self.new.folder) self.new.record.changes ≡ after (change name (half_written offset (length from.now))) (told_history (F.Folder.modelled self.old.folder) self.old.record.changes)) }
        ensures fits { OnOk result (offset + length from.now < 2 ^ 64) }
        ensures cause { ChangeCause result (record { reads = self.old.failed_reads; changes = self.old.failed_changes }) (record { reads = self.new.failed_reads; changes = self.new.failed_changes }) }
        ensures last { OnErr result (self.new.is_spoiled ≡ true) }
    {
        match write_at(&mut self.folder, path, offset, from) {
            Ok(()) => {
                self.record.note(&Change::Written(name, offset), from);
                self.calls = self.calls.saturating_add(1);
                Ok(())
            }
            Err(_) => {
                self.record
                    .note(&Change::HalfWritten(name, offset, from.len() as u64), &[]);
                self.calls = self.calls.saturating_add(1);
                self.is_spoiled = true;
                self.failed_changes = self.failed_changes.saturating_add(1);
                Err(DiskError::Failed)
            }
        }
    }

    /// Shortens a file at its path, once this process has the store.
    pub(crate) fn cut_to_end(
        &mut self,
        path: &str,
        name: FileName,
        end: u64,
    ) -> Result<(), DiskError>
        requires locked { IsLocked (F.Folder.modelled self.old.folder) }
        requires sound { IsSoundSystem (F.Folder.modelled self.old.folder) }
        requires spoiled { self.old.is_spoiled ≡ false }
        requires spelled { IsPath path.now }
        requires file { IsStoreFile name }
        requires named { path.now ≡ path_text name }
        requires reaches { IfTold (told_history (F.Folder.modelled self.old.folder) self.old.record.changes) (λ disk. Reaches (disk name) end) }
        ensures state { OnOk result (told_history (F.Folder.modelled self.new.folder) self.new.record.changes ≡ after (change name (cut_to end)) (told_history (F.Folder.modelled self.old.folder) self.old.record.changes)) }
        ensures failed { OnErr result (told_history (F.Folder.modelled self.new.folder) self.new.record.changes ≡ after (change name (half_cut end)) (told_history (F.Folder.modelled self.old.folder) self.old.record.changes)) }
        ensures cause { ChangeCause result (record { reads = self.old.failed_reads; changes = self.old.failed_changes }) (record { reads = self.new.failed_reads; changes = self.new.failed_changes }) }
        ensures last { OnErr result (self.new.is_spoiled ≡ true) }
    {
        match cut_at(&mut self.folder, path, end) {
            Ok(()) => {
                self.record.note(&Change::Cut(name, end), &[]);
                self.calls = self.calls.saturating_add(1);
                Ok(())
            }
            Err(_) => {
                self.record.note(&Change::HalfCut(name, end), &[]);
                self.calls = self.calls.saturating_add(1);
                self.is_spoiled = true;
                self.failed_changes = self.failed_changes.saturating_add(1);
                Err(DiskError::Failed)
            }
        }
    }

    /// Syncs a file at its path, once this process has the store.
    #[tactic(auto, using(crate::proofs::SyncLemmas::unsynced_told))]
    pub(crate) fn sync_to(&mut self, path: &str, name: FileName) -> Result<(), DiskError>
        requires locked { IsLocked (F.Folder.modelled self.old.folder) }
        requires sound { IsSoundSystem (F.Folder.modelled self.old.folder) }
        requires spoiled { self.old.is_spoiled ≡ false }
        requires spelled { IsPath path.now }
        requires file { IsStoreFile name }
        requires named { path.now ≡ path_text name }
        ensures state { OnOk result (told_history (F.Folder.modelled self.new.folder) self.new.record.changes ≡ after (change name synced) (told_history (F.Folder.modelled self.old.folder) self.old.record.changes)) }
        ensures failed { OnErr result (told_history (F.Folder.modelled self.new.folder) self.new.record.changes ≡ after (λ disk. disk) (told_history (F.Folder.modelled self.old.folder) self.old.record.changes)) }
        ensures cause { ChangeCause result (record { reads = self.old.failed_reads; changes = self.old.failed_changes }) (record { reads = self.new.failed_reads; changes = self.new.failed_changes }) }
        ensures last { OnErr result (self.new.is_spoiled ≡ true) }
    {
        match sync_at(&mut self.folder, path) {
            Ok(()) => {
                self.unsynced.remove(&name);
                self.record.note(&Change::Synced(name), &[]);
                self.calls = self.calls.saturating_add(1);
                Ok(())
            }
            Err(_) => {
                self.record.note(&Change::Nothing, &[]);
                self.calls = self.calls.saturating_add(1);
                self.is_spoiled = true;
                self.failed_changes = self.failed_changes.saturating_add(1);
                Err(DiskError::Failed)
            }
        }
    }

    /// Makes a file at its path, once this process has the store.
    pub(crate) fn make_to(&mut self, path: &str, name: FileName) -> Result<(), DiskError>
        requires locked { IsLocked (F.Folder.modelled self.old.folder) }
        requires sound { IsSoundSystem (F.Folder.modelled self.old.folder) }
        requires spoiled { self.old.is_spoiled ≡ false }
        requires spelled { IsPath path.now }
        requires file { IsStoreFile name }
        requires named { path.now ≡ path_text name }
        ensures state { OnOk result (told_history (F.Folder.modelled self.new.folder) self.new.record.changes ≡ after (change name made) (told_history (F.Folder.modelled self.old.folder) self.old.record.changes)) }
        ensures failed { OnErr result (told_history (F.Folder.modelled self.new.folder) self.new.record.changes ≡ after (change name half_made) (told_history (F.Folder.modelled self.old.folder) self.old.record.changes)) }
        ensures cause { ChangeCause result (record { reads = self.old.failed_reads; changes = self.old.failed_changes }) (record { reads = self.new.failed_reads; changes = self.new.failed_changes }) }
        ensures last { OnErr result (self.new.is_spoiled ≡ true) }
    {
        match make_file(&mut self.folder, self.alloc, &mut self.changed, path, name) {
            Ok(()) => {
                let _ = self.firm.insert(name);
                self.names = with_name(self.names.take(), name);
                self.record.note(&Change::Made(name), &[]);
                self.calls = self.calls.saturating_add(1);
                Ok(())
            }
            Err(_) => {
                self.record.note(&Change::HalfMade(name), &[]);
                self.calls = self.calls.saturating_add(1);
                self.is_spoiled = true;
                self.failed_changes = self.failed_changes.saturating_add(1);
                Err(DiskError::Failed)
            }
        }
    }

    /// Removes a file at its path, once this process has the store.
    pub(crate) fn remove_from(&mut self, path: &str, name: FileName) -> Result<(), DiskError>
        requires locked { IsLocked (F.Folder.modelled self.old.folder) }
        requires sound { IsSoundSystem (F.Folder.modelled self.old.folder) }
        requires spoiled { self.old.is_spoiled ≡ false }
        requires spelled { IsPath path.now }
        requires file { IsStoreFile name }
        requires named { path.now ≡ path_text name }
        ensures state { OnOk result (told_history (F.Folder.modelled self.new.folder) self.new.record.changes ≡ after (change name removed) (told_history (F.Folder.modelled self.old.folder) self.old.record.changes)) }
        ensures failed { OnErr result (told_history (F.Folder.modelled self.new.folder) self.new.record.changes ≡ after (change name half_removed) (told_history (F.Folder.modelled self.old.folder) self.old.record.changes)) }
        ensures cause { ChangeCause result (record { reads = self.old.failed_reads; changes = self.old.failed_changes }) (record { reads = self.new.failed_reads; changes = self.new.failed_changes }) }
        ensures last { OnErr result (self.new.is_spoiled ≡ true) }
    {
        match remove_file(&mut self.folder, path, name) {
            Ok(removed) => {
                self.unsynced.remove(&name);
                self.changed.note_if(removed, FolderName::of(name));
                self.names = without_name(self.names.take(), name);
                self.record.note(&Change::Removed(name), &[]);
                self.calls = self.calls.saturating_add(1);
                Ok(())
            }
            Err(_) => {
                self.record.note(&Change::HalfRemoved(name), &[]);
                self.calls = self.calls.saturating_add(1);
                self.is_spoiled = true;
                self.failed_changes = self.failed_changes.saturating_add(1);
                Err(DiskError::Failed)
            }
        }
    }

    /// Notes that a file which no store has was removed.
    pub(crate) fn skip(&mut self, name: FileName) -> Result<(), DiskError>
        requires spoiled { self.old.is_spoiled ≡ false }
        requires none { IsStoreFile name → ⊥ }
        ensures done { IsOk result }
        ensures told { told_history (F.Folder.modelled self.new.folder) self.new.record.changes ≡ after (change name removed) (told_history (F.Folder.modelled self.old.folder) self.old.record.changes) }
        ensures cause { ChangeCause result (record { reads = self.old.failed_reads; changes = self.old.failed_changes }) (record { reads = self.new.failed_reads; changes = self.new.failed_changes }) }
    {
        self.names = without_name(self.names.take(), name);
        self.record.note(&Change::Removed(name), &[]);
        self.calls = self.calls.saturating_add(1);
        Ok(())
    }

    /// Syncs the names in the store's folders, once this process has the store.
    pub(crate) fn sync_all_names(&mut self) -> Result<(), DiskError>
        requires locked { IsLocked (F.Folder.modelled self.old.folder) }
        requires sound { IsSoundSystem (F.Folder.modelled self.old.folder) }
        requires spoiled { self.old.is_spoiled ≡ false }
        ensures state { OnOk result (told_history (F.Folder.modelled self.new.folder) self.new.record.changes ≡ after (change_all named) (told_history (F.Folder.modelled self.old.folder) self.old.record.changes)) }
        ensures failed { OnErr result (told_history (F.Folder.modelled self.new.folder) self.new.record.changes ≡ after (λ disk. disk) (told_history (F.Folder.modelled self.old.folder) self.old.record.changes)) }
        ensures cause { ChangeCause result (record { reads = self.old.failed_reads; changes = self.old.failed_changes }) (record { reads = self.new.failed_reads; changes = self.new.failed_changes }) }
        ensures last { OnErr result (self.new.is_spoiled ≡ true) }
    {
        match sync_names(&mut self.folder, self.alloc, &self.changed) {
            Ok(()) => {
                self.changed.clear();
                self.record.note(&Change::NamesSynced, &[]);
                self.calls = self.calls.saturating_add(1);
                Ok(())
            }
            Err(_) => {
                self.record.note(&Change::Nothing, &[]);
                self.calls = self.calls.saturating_add(1);
                self.is_spoiled = true;
                self.failed_changes = self.failed_changes.saturating_add(1);
                Err(DiskError::Failed)
            }
        }
    }

    /// What it reads is one of its images; and what a crash may leave of the system now, or of a system between two calls of the
    /// past, is what it may leave of the disk at one of its moments.
    #[tactic(auto, using(crate::specs::ReadsImage::over_reads))]
    pub fn known_images(&self)
        ensures reads { IfTold (told_history (F.Folder.modelled self.now.folder) self.now.record.changes) (λ state. IsImage state (λ name. reading (state name))) }
        ensures over { ∥ IsDiskOver (F.Folder.modelled self.now.folder) (F.Folder.past self.now.folder) self.now.record.changes self.now.is_spoiled ∥₁ }
    {}
}
