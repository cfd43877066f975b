// The calls of a disk over a folder.
ghost use Rattle.std.specs.Prelude.{◌≡◌, ◌+◌, ◌^◌, ◌<◌, ◌≤◌, Some, None, true, length, take, drop, IsErrOf, IsErr, IfOk, IfSome, OnOk, OnErr};
ghost use Rattle.std.specs.Option.{option_map};
ghost use Rattle.disk_model.specs.Disk.{IfTold, IsThere, Reaches, after, Unchanged, IsPast, IsNext, AfterFailed, reading, change, change_all, written, cut_to, synced, made, removed, named, half_written, half_cut, half_made, half_removed, ReadCause, ChangeCause};
ghost use Rattle.disk_model.specs.declared.error.DiskError.TheVariants.{Failed, Absent};
ghost use Rattle.folder_disk.specs.Over.{LeavesFolder, told_history};
ghost use Rattle.folder_disk.specs.ReadsImage.{over_reads};

use crate::disk::FolderDisk;
use disk_model::{Disk, DiskError, FileName};
use disk_record::Change;
use folder_model::Folder;

impl<F: Folder + Drop> Disk for FolderDisk<F> {
    ghost history = { λ disk. told_history (F.Folder.modelled disk.folder) disk.record.changes };

    ghost faults = { λ disk. record { reads = disk.failed_reads; changes = disk.failed_changes } };

    #[tactic(auto, using(crate::proofs::SyncLemmas::moment_is))]
    fn moment(&self) -> u64 {
        self.calls
    }

    #[tactic(auto, using(crate::proofs::ReadLemmas::unchanged))]
    fn length(&mut self, name: FileName) -> Result<u64, DiskError>
        ensures length { IfOk result (λ n. IfTold (told_history (F.Folder.modelled self.old.folder) self.old.record.changes) (λ disk. option_map length (reading (disk name)) ≡ Some n)) }
        ensures absent { IsErrOf result Absent → IfTold (told_history (F.Folder.modelled self.old.folder) self.old.record.changes) (λ disk. reading (disk name) ≡ None) }
        ensures state { Unchanged (told_history (F.Folder.modelled self.old.folder) self.old.record.changes) (told_history (F.Folder.modelled self.new.folder) self.new.record.changes) }
        ensures cause { ReadCause result (record { reads = self.old.failed_reads; changes = self.old.failed_changes }) (record { reads = self.new.failed_reads; changes = self.new.failed_changes }) }
        ensures spent { self.old.is_spoiled ≡ true → IsErrOf result Failed × (self.new.is_spoiled ≡ true) × LeavesFolder (F.Folder.modelled self.old.folder) (F.Folder.past self.old.folder) (F.Folder.modelled self.new.folder) (F.Folder.past self.new.folder) }
    {
        let answer = self.length_of(name);
        self.read(answer)
    }

    #[tactic(auto, using(crate::proofs::ReadLemmas::unchanged))]
    fn read_at(&mut self, name: FileName, offset: u64, into: &mut [u8]) -> Result<usize, DiskError>
        ensures count { IfOk result (λ n. n ≤ length into.new) }
        ensures octets { IfOk result (λ n. IfTold (told_history (F.Folder.modelled self.old.folder) self.old.record.changes) (λ disk. (reading (disk name) ≡ Some (disk name).octets) × (take n into.new ≡ take (length into.old) (drop offset (disk name).octets)))) }
        ensures rest { IfOk result (λ n. drop n into.new ≡ drop n into.old) }
        ensures absent { IsErrOf result Absent → IfTold (told_history (F.Folder.modelled self.old.folder) self.old.record.changes) (λ disk. reading (disk name) ≡ None) }
        ensures untouched { IsErrOf result Absent → into.new ≡ into.old }
        ensures state { Unchanged (told_history (F.Folder.modelled self.old.folder) self.old.record.changes) (told_history (F.Folder.modelled self.new.folder) self.new.record.changes) }
        ensures cause { ReadCause result (record { reads = self.old.failed_reads; changes = self.old.failed_changes }) (record { reads = self.new.failed_reads; changes = self.new.failed_changes }) }
        ensures spent { self.old.is_spoiled ≡ true → IsErrOf result Failed × (self.new.is_spoiled ≡ true) × LeavesFolder (F.Folder.modelled self.old.folder) (F.Folder.past self.old.folder) (F.Folder.modelled self.new.folder) (F.Folder.past self.new.folder) }
    {
        let answer = self.octets_of(name, offset, into);
        self.read(answer)
    }

    #[tactic(auto, using(crate::proofs::ReadLemmas::unchanged))]
    fn next_name(&mut self, after: Option<FileName>) -> Result<Option<FileName>, DiskError>
        ensures past { IfOk result (λ next. IfSome next (IsPast ⟦<FileName as Ord>⟧.cmp after)) }
        ensures next { IfOk result (λ next. IfTold (told_history (F.Folder.modelled self.old.folder) self.old.record.changes) (IsNext ⟦<FileName as Ord>⟧.cmp after next)) }
        ensures not_absent { IsErrOf result Absent → ⊥ }
        ensures state { Unchanged (told_history (F.Folder.modelled self.old.folder) self.old.record.changes) (told_history (F.Folder.modelled self.new.folder) self.new.record.changes) }
        ensures cause { ReadCause result (record { reads = self.old.failed_reads; changes = self.old.failed_changes }) (record { reads = self.new.failed_reads; changes = self.new.failed_changes }) }
        ensures spent { self.old.is_spoiled ≡ true → IsErrOf result Failed × (self.new.is_spoiled ≡ true) × LeavesFolder (F.Folder.modelled self.old.folder) (F.Folder.past self.old.folder) (F.Folder.modelled self.new.folder) (F.Folder.past self.new.folder) }
    {
        match self.next_of(after) {
            Ok(next) => self.read(Ok(Some(next))),
            Err(error) => self.read(Err(error)),
        }
    }

    #[tactic(auto, using(crate::proofs::ChangeLemmas::reaches_then, crate::proofs::ChangeLemmas::after_then, crate::proofs::ChangeLemmas::half_written_then))]
    fn write_at(&mut self, name: FileName, offset: u64, from: &[u8]) -> Result<(), DiskError>
        requires { IfTold (told_history (F.Folder.modelled self.old.folder) self.old.record.changes) (λ disk. Reaches (disk name) offset) }
        ensures state { OnOk result (told_history (F.Folder.modelled self.new.folder) self.new.record.changes ≡ after (change name (written offset from.now)) (told_history (F.Folder.modelled self.old.folder) self.old.record.changes)) }
        ensures failed { OnErr result (AfterFailed (change name (half_written offset (length from.now))) (told_history (F.Folder.modelled self.old.folder) self.old.record.changes) (told_history (F.Folder.modelled self.new.folder) self.new.record.changes)) }
        ensures fits { OnOk result (offset + length from.now < 2 ^ 64) }
        ensures cause { ChangeCause result (record { reads = self.old.failed_reads; changes = self.old.failed_changes }) (record { reads = self.new.failed_reads; changes = self.new.failed_changes }) }
        ensures last { IsErr result → self.new.is_spoiled ≡ true }
        ensures spent { self.old.is_spoiled ≡ true → IsErrOf result Failed × (self.new.is_spoiled ≡ true) × LeavesFolder (F.Folder.modelled self.old.folder) (F.Folder.past self.old.folder) (F.Folder.modelled self.new.folder) (F.Folder.past self.new.folder) }
    {
        match self.path_to_change(name) {
            Ok(Some(path)) => self.write_to(path.as_str(), name, offset, from),
            Ok(None) | Err(_) => self.fail(&Change::HalfWritten(name, offset, from.len() as u64)),
        }
    }

    #[tactic(auto, using(crate::proofs::ChangeLemmas::reaches_then, crate::proofs::ChangeLemmas::after_then, crate::proofs::CutLemmas::half_cut_then))]
    fn cut(&mut self, name: FileName, length: u64) -> Result<(), DiskError>
        requires { IfTold (told_history (F.Folder.modelled self.old.folder) self.old.record.changes) (λ disk. Reaches (disk name) length) }
        ensures state { OnOk result (told_history (F.Folder.modelled self.new.folder) self.new.record.changes ≡ after (change name (cut_to length)) (told_history (F.Folder.modelled self.old.folder) self.old.record.changes)) }
        ensures failed { OnErr result (AfterFailed (change name (half_cut length)) (told_history (F.Folder.modelled self.old.folder) self.old.record.changes) (told_history (F.Folder.modelled self.new.folder) self.new.record.changes)) }
        ensures cause { ChangeCause result (record { reads = self.old.failed_reads; changes = self.old.failed_changes }) (record { reads = self.new.failed_reads; changes = self.new.failed_changes }) }
        ensures last { IsErr result → self.new.is_spoiled ≡ true }
        ensures spent { self.old.is_spoiled ≡ true → IsErrOf result Failed × (self.new.is_spoiled ≡ true) × LeavesFolder (F.Folder.modelled self.old.folder) (F.Folder.past self.old.folder) (F.Folder.modelled self.new.folder) (F.Folder.past self.new.folder) }
    {
        match self.path_to_change(name) {
            Ok(Some(path)) => self.cut_to_end(path.as_str(), name, length),
            Ok(None) | Err(_) => self.fail(&Change::HalfCut(name, length)),
        }
    }

    #[tactic(auto, using(crate::proofs::ChangeLemmas::after_then, crate::proofs::SyncLemmas::unsynced_then))]
    fn sync(&mut self, name: FileName) -> Result<(), DiskError>
        requires { IfTold (told_history (F.Folder.modelled self.old.folder) self.old.record.changes) (λ disk. IsThere (disk name)) }
        ensures state { OnOk result (told_history (F.Folder.modelled self.new.folder) self.new.record.changes ≡ after (change name synced) (told_history (F.Folder.modelled self.old.folder) self.old.record.changes)) }
        ensures failed { OnErr result (AfterFailed (λ disk. disk) (told_history (F.Folder.modelled self.old.folder) self.old.record.changes) (told_history (F.Folder.modelled self.new.folder) self.new.record.changes)) }
        ensures cause { ChangeCause result (record { reads = self.old.failed_reads; changes = self.old.failed_changes }) (record { reads = self.new.failed_reads; changes = self.new.failed_changes }) }
        ensures last { IsErr result → self.new.is_spoiled ≡ true }
        ensures spent { self.old.is_spoiled ≡ true → IsErrOf result Failed × (self.new.is_spoiled ≡ true) × LeavesFolder (F.Folder.modelled self.old.folder) (F.Folder.past self.old.folder) (F.Folder.modelled self.new.folder) (F.Folder.past self.new.folder) }
    {
        match self.path_to_use(name) {
            Ok(Some(path)) => self.sync_to(path.as_str(), name),
            Ok(None) | Err(_) => self.fail(&Change::Nothing),
        }
    }

    #[tactic(auto, using(crate::proofs::ChangeLemmas::after_then, crate::proofs::SeenLemmas::half_made_then))]
    fn make(&mut self, name: FileName) -> Result<(), DiskError>
        ensures state { OnOk result (told_history (F.Folder.modelled self.new.folder) self.new.record.changes ≡ after (change name made) (told_history (F.Folder.modelled self.old.folder) self.old.record.changes)) }
        ensures failed { OnErr result (AfterFailed (change name half_made) (told_history (F.Folder.modelled self.old.folder) self.old.record.changes) (told_history (F.Folder.modelled self.new.folder) self.new.record.changes)) }
        ensures cause { ChangeCause result (record { reads = self.old.failed_reads; changes = self.old.failed_changes }) (record { reads = self.new.failed_reads; changes = self.new.failed_changes }) }
        ensures last { IsErr result → self.new.is_spoiled ≡ true }
        ensures spent { self.old.is_spoiled ≡ true → IsErrOf result Failed × (self.new.is_spoiled ≡ true) × LeavesFolder (F.Folder.modelled self.old.folder) (F.Folder.past self.old.folder) (F.Folder.modelled self.new.folder) (F.Folder.past self.new.folder) }
    {
        match self.path_to_change(name) {
            Ok(Some(path)) => self.make_to(path.as_str(), name),
            Ok(None) | Err(_) => self.fail(&Change::HalfMade(name)),
        }
    }

    #[tactic(auto, using(crate::proofs::ChangeLemmas::after_then, crate::proofs::SeenLemmas::half_removed_then))]
    fn remove(&mut self, name: FileName) -> Result<(), DiskError>
        ensures state { OnOk result (told_history (F.Folder.modelled self.new.folder) self.new.record.changes ≡ after (change name removed) (told_history (F.Folder.modelled self.old.folder) self.old.record.changes)) }
        ensures failed { OnErr result (AfterFailed (change name half_removed) (told_history (F.Folder.modelled self.old.folder) self.old.record.changes) (told_history (F.Folder.modelled self.new.folder) self.new.record.changes)) }
        ensures cause { ChangeCause result (record { reads = self.old.failed_reads; changes = self.old.failed_changes }) (record { reads = self.new.failed_reads; changes = self.new.failed_changes }) }
        ensures last { IsErr result → self.new.is_spoiled ≡ true }
        ensures spent { self.old.is_spoiled ≡ true → IsErrOf result Failed × (self.new.is_spoiled ≡ true) × LeavesFolder (F.Folder.modelled self.old.folder) (F.Folder.past self.old.folder) (F.Folder.modelled self.new.folder) (F.Folder.past self.new.folder) }
    {
        match self.path_to_use(name) {
            Ok(Some(path)) => self.remove_from(path.as_str(), name),
            Ok(None) => self.skip(name),
            Err(_) => self.fail(&Change::HalfRemoved(name)),
        }
    }

    #[tactic(auto, using(crate::proofs::ChangeLemmas::after_then, crate::proofs::SyncLemmas::unsynced_then))]
    fn sync_names(&mut self) -> Result<(), DiskError>
        ensures state { OnOk result (told_history (F.Folder.modelled self.new.folder) self.new.record.changes ≡ after (change_all named) (told_history (F.Folder.modelled self.old.folder) self.old.record.changes)) }
        ensures failed { OnErr result (AfterFailed (λ disk. disk) (told_history (F.Folder.modelled self.old.folder) self.old.record.changes) (told_history (F.Folder.modelled self.new.folder) self.new.record.changes)) }
        ensures cause { ChangeCause result (record { reads = self.old.failed_reads; changes = self.old.failed_changes }) (record { reads = self.new.failed_reads; changes = self.new.failed_changes }) }
        ensures last { IsErr result → self.new.is_spoiled ≡ true }
        ensures spent { self.old.is_spoiled ≡ true → IsErrOf result Failed × (self.new.is_spoiled ≡ true) × LeavesFolder (F.Folder.modelled self.old.folder) (F.Folder.past self.old.folder) (F.Folder.modelled self.new.folder) (F.Folder.past self.new.folder) }
    {
        match self.ready() {
            Ok(()) => self.sync_all_names(),
            Err(_) => self.fail(&Change::Nothing),
        }
    }

    ghost reads_image = { λ disk. over_reads (F.Folder.modelled disk.folder) (F.Folder.past disk.folder) disk.record.changes disk.is_spoiled disk.over };
}
