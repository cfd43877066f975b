// A disk in memory.
ghost use Rattle.std.specs.Prelude.{◌≡◌, [], false};
ghost use Rattle.disk_mem.specs.Record.{ReadsAll, told_of};

use crate::file::{File, apply_to};
use crate::image::copy_of;
use crate::note::{Change, Note};
use crate::plan::Plan;
use crate::text::Text;
use disk_model::{DiskError, FileName};
use mdbox_base::{NoMemory, Seq};
use std::alloc::Global;

/// A disk in memory. It tells its content, keeps a record of its calls, and makes the disks that a crash would leave.
///
/// Its calls fail where they were listed to fail, and a change also where there is no memory for it.
#[derive(Drop)]
pub struct MemDisk {
    pub(crate) alloc: Global,
    /// The files as it began, each at rest.
    pub(crate) base: Vec<File>,
    /// The calls that changed something, and how many that changed nothing came before each.
    pub(crate) notes: Vec<Note>,
    /// How many calls that changed nothing came after the last of these.
    pub(crate) idle: u64,
    /// The files as they read.
    pub(crate) files: Vec<File>,
    pub(crate) plan: Plan,
    /// Whether calls were ever listed to fail.
    pub(crate) was_listed: bool,
    pub(crate) failed_reads: u64,
    pub(crate) failed_changes: u64,
    pub(crate) starved: u64,
    ghost agrees: { ReadsAll files.items (told_of base.items notes.items idle).now },
    ghost counts: { was_listed ≡ false → (failed_reads ≡ 0) × (failed_changes ≡ starved) × (plan.calls ≡ []) × (plan.writes ≡ []) },
}

impl MemDisk {
    ghost use Rattle.std.specs.Prelude.{true, ◌≤◌, IfOk, OnOk, OnErr, IsErr, is_ok, length};
    ghost use Rattle.disk_model.specs.Disk.{Unchanged, AfterFailed, ChangeCause, joined_by, after, change, written, half_written};
    ghost use Rattle.disk_mem.specs.Record.{from_rest, done, is_half};
    ghost use Rattle.disk_mem.specs.Numbers.{fails_call, fails_write, counted, counted_write};
    ghost use Rattle.disk_mem.specs.Mem.{told, faults_of, IsUnlisted, SameCounts, ReadCounts, ChangeCounts, ChangeFails, ReadsAsBefore};

    /// An empty disk, on which no call has run.
    pub fn fresh(alloc: Global) -> Result<MemDisk, NoMemory>
        ensures empty { IfOk result (λ disk. told disk ≡ from_rest []) }
        ensures unlisted { IfOk result IsUnlisted }
        ensures starved { IfOk result (λ disk. disk.starved ≡ 0) }
        ensures faults { IfOk result (λ disk. faults_of disk ≡ record { reads = 0; changes = 0 }) }
    {
        MemDisk::resting(alloc, Vec::new(alloc))
    }

    /// A disk with these files, at rest, on which no call has run.
    pub(crate) fn resting(alloc: Global, base: Vec<File>) -> Result<MemDisk, NoMemory>
        ensures told { IfOk result (λ disk. told disk ≡ from_rest base.items) }
        ensures unlisted { IfOk result IsUnlisted }
        ensures starved { IfOk result (λ disk. disk.starved ≡ 0) }
        ensures faults { IfOk result (λ disk. faults_of disk ≡ record { reads = 0; changes = 0 }) }
    {
        let files = copy_of(alloc, &base)?;
        Ok(MemDisk {
            alloc,
            base,
            notes: Vec::new(alloc),
            idle: 0,
            files,
            plan: Plan {
                calls: Seq::empty(alloc),
                call: 0,
                writes: Seq::empty(alloc),
                write: 0,
            },
            was_listed: false,
            failed_reads: 0,
            failed_changes: 0,
            starved: 0,
        })
    }

    /// The same disk, of whose calls those with these numbers fail, counted from 1 after this call.
    pub fn failing(self, calls: Seq<u64>) -> MemDisk
        ensures told { told result ≡ told self }
        ensures plan { result.plan ≡ record self.plan { calls = calls; call = 0 } }
        ensures faults { faults_of result ≡ faults_of self }
        ensures starved { result.starved ≡ self.starved }
    {
        let mut disk = self;
        disk.was_listed = true;
        disk.plan.calls = calls;
        disk.plan.call = 0;
        disk
    }

    /// The same disk, of whose writes those with these numbers fail, counted from 1 after this call.
    pub fn failing_writes(self, writes: Seq<u64>) -> MemDisk
        ensures told { told result ≡ told self }
        ensures plan { result.plan ≡ record self.plan { writes = writes; write = 0 } }
        ensures faults { faults_of result ≡ faults_of self }
        ensures starved { result.starved ≡ self.starved }
    {
        let mut disk = self;
        disk.was_listed = true;
        disk.plan.writes = writes;
        disk.plan.write = 0;
        disk
    }

    /// How many calls found no memory to grow. Where no calls were ever listed to fail, no other has failed.
    pub fn starved(&self) -> u64
        ensures starved { result ≡ self.now.starved }
        ensures faults { IsUnlisted self.now → faults_of self.now ≡ record { reads = 0; changes = result } }
    {
        self.starved
    }

    /// Makes a change of a file, or of each, and notes it.
    pub(crate) fn note(&mut self, name: FileName, change: Change) -> Result<(), NoMemory>
        ensures ok { OnOk result (told self.new ≡ joined_by (done name change (told self.old).now) (told self.old)) }
        ensures err { OnErr result (told self.new ≡ told self.old) }
        ensures counts { SameCounts self.old self.new }
    {
        self.notes.reserve(1)?;
        let note = Note {
            idle: self.idle,
            name,
            change,
        };
        apply_to(&mut self.files, self.alloc, &note)?;
        match self.notes.push(note) {
            Ok(()) => {
                self.idle = 0;
                Ok(())
            }
            Err(_) => unreachable!(),
        }
    }

    /// Counts a call that changes nothing.
    pub(crate) fn wait(&mut self)
        ensures state { Unchanged (Some (told self.old)) (Some (told self.new)) }
        ensures counts { SameCounts self.old self.new }
        ensures reads { ReadsAsBefore self.old self.new }
    {
        self.idle = self.idle.saturating_add(1);
    }

    /// Counts a call against those that were listed. True where it is to fail.
    pub(crate) fn is_due(&mut self) -> bool
        ensures listed { result ≡ fails_call self.old.plan }
        ensures was_listed { result ≡ true → self.old.was_listed ≡ true }
        ensures plan { self.new ≡ record self.old { plan = counted self.old.plan } }
    {
        self.plan.count()
    }

    /// Counts a write against those that were listed. True where it is to fail.
    pub(crate) fn is_write_due(&mut self) -> bool
        ensures listed { result ≡ fails_write self.old.plan }
        ensures was_listed { result ≡ true → self.old.was_listed ≡ true }
        ensures plan { self.new ≡ record self.old { plan = counted_write self.old.plan } }
    {
        self.plan.count_write()
    }

    /// Counts a call that reads. True where it is to fail, and then its failure is counted too.
    pub(crate) fn read_fails(&mut self) -> bool
        ensures listed { result ≡ fails_call self.old.plan }
        ensures state { Unchanged (Some (told self.old)) (Some (told self.new)) }
        ensures now { (told self.new).now ≡ (told self.old).now }
        ensures counts { ReadCounts result self.old self.new }
        ensures no_less { self.old.failed_reads ≤ self.new.failed_reads }
    {
        self.wait();
        let due = self.is_due();
        let failed = self.failed_reads;
        if due {
            self.failed_reads = failed.saturating_add(1);
        }
        due
    }

    /// Makes a change, or fails for lack of memory.
    pub(crate) fn change(&mut self, name: FileName, change: Change) -> Result<(), DiskError>
        ensures ok { OnOk result (told self.new ≡ joined_by (done name change (told self.old).now) (told self.old)) }
        ensures err { OnErr result (Unchanged (Some (told self.old)) (Some (told self.new))) }
        ensures cause { ChangeCause result (faults_of self.old) (faults_of self.new) }
        ensures counts { ChangeCounts false (is_ok result) self.old self.new self.old.plan }
        ensures reads { OnErr result (ReadsAsBefore self.old self.new) }
    {
        match self.note(name, change) {
            Ok(()) => Ok(()),
            Err(_) => self.starve(),
        }
    }

    /// Fails for lack of memory.
    fn starve(&mut self) -> Result<(), DiskError>
        ensures is_err { IsErr result }
        ensures state { Unchanged (Some (told self.old)) (Some (told self.new)) }
        ensures cause { ChangeCause result (faults_of self.old) (faults_of self.new) }
        ensures counts { ChangeCounts false false self.old self.new self.old.plan }
        ensures reads { ReadsAsBefore self.old self.new }
    {
        self.wait();
        self.starved = self.starved.saturating_add(1);
        self.failed_changes = self.failed_changes.saturating_add(1);
        Err(DiskError::Failed)
    }

    /// Fails a change that was listed to fail, and of which nothing is left.
    fn fail(&mut self) -> Result<(), DiskError>
        requires { self.old.was_listed ≡ true }
        ensures is_err { IsErr result }
        ensures state { Unchanged (Some (told self.old)) (Some (told self.new)) }
        ensures cause { ChangeCause result (faults_of self.old) (faults_of self.new) }
        ensures counts { ChangeCounts true false self.old self.new self.old.plan }
        ensures reads { ReadsAsBefore self.old self.new }
    {
        self.wait();
        self.failed_changes = self.failed_changes.saturating_add(1);
        Err(DiskError::Failed)
    }

    /// Fails a change that was listed to fail, and of which a part may be left.
    fn fail_half(&mut self, name: FileName, half: Change) -> Result<(), DiskError>
        requires was_listed { self.old.was_listed ≡ true }
        requires half { is_half half ≡ true }
        ensures is_err { IsErr result }
        ensures state { AfterFailed (done name half) (Some (told self.old)) (Some (told self.new)) }
        ensures cause { ChangeCause result (faults_of self.old) (faults_of self.new) }
        ensures counts { ChangeCounts true false self.old self.new self.old.plan }
        ensures reads { ReadsAsBefore self.old self.new }
    {
        match self.note(name, half) {
            Ok(()) => {}
            Err(_) => self.wait(),
        }
        let failed = self.failed_changes.saturating_add(1);
        self.failed_changes = failed;
        Err(DiskError::Failed)
    }

    /// A call that makes a change. Where it is to fail, a part of it may be left.
    pub(crate) fn attempt(
        &mut self,
        name: FileName,
        change: Change,
        half: Change,
    ) -> Result<(), DiskError>
        requires { is_half half ≡ true }
        ensures state { OnOk result (Some (told self.new) ≡ after (done name change) (Some (told self.old))) }
        ensures failed { OnErr result (AfterFailed (done name half) (Some (told self.old)) (Some (told self.new))) }
        ensures cause { ChangeCause result (faults_of self.old) (faults_of self.new) }
        ensures fails { ChangeFails (fails_call self.old.plan) result self.old self.new (counted self.old.plan) }
    {
        if self.is_due() {
            return self.fail_half(name, half);
        }
        self.change(name, change)
    }

    /// A sync, of a file or of the names.
    pub(crate) fn attempt_sync(&mut self, name: FileName, sync: Change) -> Result<(), DiskError>
        ensures state { OnOk result (Some (told self.new) ≡ after (done name sync) (Some (told self.old))) }
        ensures failed { OnErr result (AfterFailed (λ disk. disk) (Some (told self.old)) (Some (told self.new))) }
        ensures cause { ChangeCause result (faults_of self.old) (faults_of self.new) }
        ensures fails { ChangeFails (fails_call self.old.plan) result self.old self.new (counted self.old.plan) }
    {
        if self.is_due() {
            return self.fail();
        }
        self.change(name, sync)
    }

    /// A write. Where it is to fail, a part of it may be left.
    pub(crate) fn attempt_write(
        &mut self,
        name: FileName,
        offset: u64,
        from: &[u8],
    ) -> Result<(), DiskError>
        ensures state { OnOk result (Some (told self.new) ≡ after (change name (written offset from.now)) (Some (told self.old))) }
        ensures failed { OnErr result (AfterFailed (change name (half_written offset (length from.now))) (Some (told self.old)) (Some (told self.new))) }
        ensures cause { ChangeCause result (faults_of self.old) (faults_of self.new) }
        ensures fails { ChangeFails (fails_write self.old.plan) result self.old self.new (counted_write self.old.plan) }
    {
        if self.is_write_due() {
            return self.fail_half(name, Change::HalfWritten(offset, from.len() as u64));
        }
        match Text::of(self.alloc, from) {
            Ok(text) => self.change(name, Change::Written(offset, text)),
            Err(_) => self.starve(),
        }
    }
}
