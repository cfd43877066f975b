// The calls of a disk.
ghost use Rattle.std.specs.Prelude.{◌≡◌, Some, None, ◌+◌, ◌-◌, ◌^◌, ◌<◌, ◌≤◌, min, true, length, take, drop, IsErrOf, IsErr, IfOk, IfSome, OnOk, OnErr};
ghost use Rattle.std.specs.Option.{option_map};
ghost use Rattle.disk_model.specs.Disk.{IfTold, IsThere, Reaches, after, Unchanged, IsPast, IsNext, AfterFailed, reading, change, change_all, written, cut_to, synced, made, removed, named, half_written, half_cut, half_made, half_removed, ReadCause, ChangeCause};
ghost use Rattle.disk_model.specs.declared.error.DiskError.TheVariants.{Failed, Absent};
ghost use Rattle.disk_mem.specs.Numbers.{fails_call, fails_write, counted, counted_write};
ghost use Rattle.disk_mem.specs.Mem.{told, calls_of, faults_of, ReadFails, ChangeFails};
ghost use Rattle.disk_mem.specs.Sound.{told_reads_image};

use crate::disk::MemDisk;
use crate::file::{least_past, text_of};
use crate::note::Change;
use disk_model::{Disk, DiskError, FileName};

impl Disk for MemDisk {
    ghost history = { λ disk. Some (told disk) };

    ghost faults = { faults_of };

    fn moment(&self) -> u64
        ensures { result ≡ min (calls_of self.now) (2 ^ 64 - 1) }
    {
        self.calls()
    }

    fn length(&mut self, name: FileName) -> Result<u64, DiskError>
        ensures length { IfOk result (λ n. option_map length (reading ((told self.old).now name)) ≡ Some n) }
        ensures absent { IsErrOf result Absent → reading ((told self.old).now name) ≡ None }
        ensures state { Unchanged (Some (told self.old)) (Some (told self.new)) }
        ensures cause { ReadCause result (faults_of self.old) (faults_of self.new) }
        ensures fails { ReadFails result self.old self.new }
    {
        if self.read_fails() {
            return Err(DiskError::Failed);
        }
        match text_of(&self.files, name) {
            Some(text) => Ok(text.octets.len() as u64),
            None => Err(DiskError::Absent),
        }
    }

    fn read_at(&mut self, name: FileName, offset: u64, into: &mut [u8]) -> Result<usize, DiskError>
        ensures count { IfOk result (λ n. n ≤ length into.new) }
        ensures octets { IfOk result (λ n. (reading ((told self.old).now name) ≡ Some ((told self.old).now name).octets)
            × (take n into.new ≡ take (length into.old) (drop offset ((told self.old).now name).octets))) }
        ensures rest { IfOk result (λ n. drop n into.new ≡ drop n into.old) }
        ensures absent { IsErrOf result Absent → reading ((told self.old).now name) ≡ None }
        ensures untouched { IsErr result → into.new ≡ into.old }
        ensures state { Unchanged (Some (told self.old)) (Some (told self.new)) }
        ensures cause { ReadCause result (faults_of self.old) (faults_of self.new) }
        ensures fails { ReadFails result self.old self.new }
    {
        if self.read_fails() {
            return Err(DiskError::Failed);
        }
        match text_of(&self.files, name) {
            Some(text) => Ok(text.read(offset, into)),
            None => Err(DiskError::Absent),
        }
    }

    fn next_name(&mut self, after: Option<FileName>) -> Result<Option<FileName>, DiskError>
        ensures past { IfOk result (λ next. IfSome next (IsPast ⟦<FileName as Ord>⟧.cmp after)) }
        ensures next { IfOk result (λ next. IsNext ⟦<FileName as Ord>⟧.cmp after next (told self.old).now) }
        ensures not_absent { IsErrOf result Absent → ⊥ }
        ensures state { Unchanged (Some (told self.old)) (Some (told self.new)) }
        ensures cause { ReadCause result (faults_of self.old) (faults_of self.new) }
        ensures fails { ReadFails result self.old self.new }
    {
        if self.read_fails() {
            return Err(DiskError::Failed);
        }
        Ok(least_past(&self.files, after))
    }

    fn write_at(&mut self, name: FileName, offset: u64, from: &[u8]) -> Result<(), DiskError>
        requires { Reaches ((told self.old).now name) offset }
        ensures state { OnOk result (Some (told self.new) ≡ after (change name (written offset from.now)) (Some (told self.old))) }
        ensures failed { OnErr result (AfterFailed (change name (half_written offset (length from.now))) (Some (told self.old)) (Some (told self.new))) }
        ensures fits { OnOk result (offset + length from.now < 2 ^ 64) }
        ensures cause { ChangeCause result (faults_of self.old) (faults_of self.new) }
        ensures fails { ChangeFails (fails_write self.old.plan) result self.old self.new (counted_write self.old.plan) }
    {
        self.attempt_write(name, offset, from)
    }

    fn cut(&mut self, name: FileName, length: u64) -> Result<(), DiskError>
        requires { Reaches ((told self.old).now name) length }
        ensures state { OnOk result (Some (told self.new) ≡ after (change name (cut_to length)) (Some (told self.old))) }
        ensures failed { OnErr result (AfterFailed (change name (half_cut length)) (Some (told self.old)) (Some (told self.new))) }
        ensures cause { ChangeCause result (faults_of self.old) (faults_of self.new) }
        ensures fails { ChangeFails (fails_call self.old.plan) result self.old self.new (counted self.old.plan) }
    {
        self.attempt(name, Change::Cut(length), Change::HalfCut(length))
    }

    fn sync(&mut self, name: FileName) -> Result<(), DiskError>
        requires { IsThere ((told self.old).now name) }
        ensures state { OnOk result (Some (told self.new) ≡ after (change name synced) (Some (told self.old))) }
        ensures failed { OnErr result (AfterFailed (λ disk. disk) (Some (told self.old)) (Some (told self.new))) }
        ensures cause { ChangeCause result (faults_of self.old) (faults_of self.new) }
        ensures fails { ChangeFails (fails_call self.old.plan) result self.old self.new (counted self.old.plan) }
    {
        self.attempt_sync(name, Change::Synced)
    }

    fn make(&mut self, name: FileName) -> Result<(), DiskError>
        ensures state { OnOk result (Some (told self.new) ≡ after (change name made) (Some (told self.old))) }
        ensures failed { OnErr result (AfterFailed (change name half_made) (Some (told self.old)) (Some (told self.new))) }
        ensures cause { ChangeCause result (faults_of self.old) (faults_of self.new) }
        ensures fails { ChangeFails (fails_call self.old.plan) result self.old self.new (counted self.old.plan) }
    {
        self.attempt(name, Change::Made, Change::HalfMade)
    }

    fn remove(&mut self, name: FileName) -> Result<(), DiskError>
        ensures state { OnOk result (Some (told self.new) ≡ after (change name removed) (Some (told self.old))) }
        ensures failed { OnErr result (AfterFailed (change name half_removed) (Some (told self.old)) (Some (told self.new))) }
        ensures cause { ChangeCause result (faults_of self.old) (faults_of self.new) }
        ensures fails { ChangeFails (fails_call self.old.plan) result self.old self.new (counted self.old.plan) }
    {
        self.attempt(name, Change::Removed, Change::HalfRemoved)
    }

    fn sync_names(&mut self) -> Result<(), DiskError>
        ensures state { OnOk result (Some (told self.new) ≡ after (change_all named) (Some (told self.old))) }
        ensures failed { OnErr result (AfterFailed (λ disk. disk) (Some (told self.old)) (Some (told self.new))) }
        ensures cause { ChangeCause result (faults_of self.old) (faults_of self.new) }
        ensures fails { ChangeFails (fails_call self.old.plan) result self.old self.new (counted self.old.plan) }
    {
        self.attempt_sync(FileName::Root, Change::NamesSynced)
    }

    ghost reads_image = { λ disk. told_reads_image disk.base.items disk.notes.items disk.idle };
}
