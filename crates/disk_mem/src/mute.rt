// A disk that gives one octet wrong.
ghost use Rattle.std.specs.Prelude.{◌≡◌, ◌^◌, ◌-◌, ◌<◌, ◌≤◌, ◌+◌, ℕ, List, Some, None, true, false, ⊤, min, length, take, drop, IsErrOf, IsErr, IfOk, IfSome, OnOk, OnErr};
ghost use Rattle.std.specs.Option.{option_map};
ghost use Rattle.mdbox_base.specs.Streams.{Rose};
ghost use Rattle.disk_model.specs.Disk.{IsThere, Reaches, Unchanged, IsPast, IsNext, AfterFailed, reading, change, change_all, written, cut_to, synced, made, removed, named, half_written, half_cut, half_made, half_removed, ReadCause, ChangeCause};
ghost use Rattle.disk_model.specs.declared.error.DiskError.TheVariants.{Failed, Absent};
ghost use Rattle.disk_mem.specs.Numbers.{fails_call, fails_write, counted, counted_write};
ghost use Rattle.disk_mem.specs.Mem.{told, calls_of, ReadFails};
ghost use Rattle.disk_mem.specs.Mute.{AltersTheSame, PassesChange, as_altered, mute_faults};

use crate::disk::MemDisk;
use crate::file::text_of;
use disk_model::{Disk, DiskError, FileName, is_named};

/// A disk in memory that tells no content, and gives one octet of one file wrong in each read: a device that lies. A call whose
/// condition the disk inside doesn't meet isn't passed on, and is counted as a fault.
#[derive(Drop)]
pub struct MuteDisk {
    pub(crate) inner: MemDisk,
    pub(crate) name: FileName,
    pub(crate) offset: u64,
    pub(crate) octet: u8,
    /// How many changes have failed since it was made, passed on or not.
    pub(crate) failed_changes: u64,
}

impl MemDisk {
    /// The same disk, which tells nothing from now on, and gives this octet at this place of this file in each read. It takes no memory.
    pub fn altered(self, name: FileName, offset: u64, octet: u8) -> MuteDisk
        ensures { result ≡ record { inner = self; name = name; offset = offset; octet = octet; failed_changes = 0 } }
    {
        MuteDisk {
            inner: self,
            name,
            offset,
            octet,
            failed_changes: 0,
        }
    }
}

impl MuteDisk {
    /// The disk inside, as it is without the octet.
    pub fn into_inner(self) -> MemDisk
        ensures { result ≡ self.inner }
    {
        self.inner
    }

    /// Whether a file is there, and as long as this at least. This is no call of the disk.
    fn reaches(&self, name: FileName, length: u64) -> bool
        ensures yes { result ≡ true → Reaches ((told self.now.inner).now name) length }
        ensures no { result ≡ false → Reaches ((told self.now.inner).now name) length → ⊥ }
    {
        match text_of(&self.inner.files, name) {
            Some(text) => length <= text.octets.len() as u64,
            None => false,
        }
    }

    /// Counts a change, if it failed.
    fn count(&mut self, answer: Result<(), DiskError>) -> Result<(), DiskError>
        ensures same { result ≡ answer }
        ensures inner { (self.new.inner ≡ self.old.inner) × AltersTheSame self.old self.new }
        ensures ok { OnOk result (self.new.failed_changes ≡ self.old.failed_changes) }
        ensures err { OnErr result (Rose self.old.failed_changes self.new.failed_changes) }
        ensures no_less { self.old.failed_changes ≤ self.new.failed_changes }
    {
        if answer.is_err() {
            self.failed_changes = self.failed_changes.saturating_add(1);
        }
        answer
    }
}

impl Disk for MuteDisk {
    ghost history = { λ _. None };

    ghost faults = { mute_faults };

    fn moment(&self) -> u64
        ensures { result ≡ min (calls_of self.now.inner) (2 ^ 64 - 1) }
    {
        self.inner.moment()
    }

    fn length(&mut self, name: FileName) -> Result<u64, DiskError>
        ensures length { IfOk result (λ n. option_map length (reading ((told self.old.inner).now name)) ≡ Some n) }
        ensures absent { IsErrOf result Absent → reading ((told self.old.inner).now name) ≡ None }
        ensures state { Unchanged None None }
        ensures cause { ReadCause result (mute_faults self.old) (mute_faults self.new) }
        ensures fails { ReadFails result self.old.inner self.new.inner }
        ensures same { AltersTheSame self.old self.new }
    {
        self.inner.length(name)
    }

    fn read_at(&mut self, name: FileName, offset: u64, into: &mut [u8]) -> Result<usize, DiskError>
        ensures count { IfOk result (λ n. n ≤ length into.new) }
        // What the disk inside reads, but for the octet.
        ensures octets { IfOk result (λ n. (octets : List ℕ) × (reading ((told self.old.inner).now name) ≡ Some octets) × (take n into.new ≡ take (length into.old) (drop offset (as_altered self.old name octets)))) }
        ensures rest { IfOk result (λ n. drop n into.new ≡ drop n into.old) }
        ensures absent { IsErrOf result Absent → reading ((told self.old.inner).now name) ≡ None }
        ensures untouched { IsErr result → into.new ≡ into.old }
        ensures state { Unchanged None None }
        ensures cause { ReadCause result (mute_faults self.old) (mute_faults self.new) }
        ensures fails { ReadFails result self.old.inner self.new.inner }
        ensures same { AltersTheSame self.old self.new }
    {
        let count = self.inner.read_at(name, offset, into)?;
        if is_named(name, self.name) && offset <= self.offset {
            let place = self.offset - offset;
            if place < count as u64 {
                into[place as usize] = self.octet;
            }
        }
        Ok(count)
    }

    fn next_name(&mut self, after: Option<FileName>) -> Result<Option<FileName>, DiskError>
        ensures past { IfOk result (λ next. IfSome next (IsPast ⟦<FileName as Ord>⟧.cmp after)) }
        ensures next { IfOk result (λ next. IsNext ⟦<FileName as Ord>⟧.cmp after next (told self.old.inner).now) }
        ensures not_absent { IsErrOf result Absent → ⊥ }
        ensures state { Unchanged None None }
        ensures cause { ReadCause result (mute_faults self.old) (mute_faults self.new) }
        ensures fails { ReadFails result self.old.inner self.new.inner }
        ensures same { AltersTheSame self.old self.new }
    {
        self.inner.next_name(after)
    }

    fn write_at(&mut self, name: FileName, offset: u64, from: &[u8]) -> Result<(), DiskError>
        ensures failed { OnErr result (AfterFailed (change name (half_written offset (length from.now))) None None) }
        ensures fits { OnOk result (offset + length from.now < 2 ^ 64) }
        ensures cause { ChangeCause result (mute_faults self.old) (mute_faults self.new) }
        ensures passes { PassesChange (Reaches ((told self.old.inner).now name) offset) (change name (written offset from.now)) (fails_write self.old.inner.plan) (counted_write self.old.inner.plan) result self.old self.new }
    {
        if !self.reaches(name, offset) {
            return self.count(Err(DiskError::Failed));
        }
        let answer = self.inner.write_at(name, offset, from);
        self.count(answer)
    }

    fn cut(&mut self, name: FileName, length: u64) -> Result<(), DiskError>
        ensures failed { OnErr result (AfterFailed (change name (half_cut length)) None None) }
        ensures cause { ChangeCause result (mute_faults self.old) (mute_faults self.new) }
        ensures passes { PassesChange (Reaches ((told self.old.inner).now name) length) (change name (cut_to length)) (fails_call self.old.inner.plan) (counted self.old.inner.plan) result self.old self.new }
    {
        if !self.reaches(name, length) {
            return self.count(Err(DiskError::Failed));
        }
        let answer = self.inner.cut(name, length);
        self.count(answer)
    }

    fn sync(&mut self, name: FileName) -> Result<(), DiskError>
        ensures failed { OnErr result (AfterFailed (λ disk. disk) None None) }
        ensures cause { ChangeCause result (mute_faults self.old) (mute_faults self.new) }
        ensures passes { PassesChange (IsThere ((told self.old.inner).now name)) (change name synced) (fails_call self.old.inner.plan) (counted self.old.inner.plan) result self.old self.new }
    {
        if !self.reaches(name, 0) {
            return self.count(Err(DiskError::Failed));
        }
        let answer = self.inner.sync(name);
        self.count(answer)
    }

    fn make(&mut self, name: FileName) -> Result<(), DiskError>
        ensures failed { OnErr result (AfterFailed (change name half_made) None None) }
        ensures cause { ChangeCause result (mute_faults self.old) (mute_faults self.new) }
        ensures passes { PassesChange ⊤ (change name made) (fails_call self.old.inner.plan) (counted self.old.inner.plan) result self.old self.new }
    {
        let answer = self.inner.make(name);
        self.count(answer)
    }

    fn remove(&mut self, name: FileName) -> Result<(), DiskError>
        ensures failed { OnErr result (AfterFailed (change name half_removed) None None) }
        ensures cause { ChangeCause result (mute_faults self.old) (mute_faults self.new) }
        ensures passes { PassesChange ⊤ (change name removed) (fails_call self.old.inner.plan) (counted self.old.inner.plan) result self.old self.new }
    {
        let answer = self.inner.remove(name);
        self.count(answer)
    }

    fn sync_names(&mut self) -> Result<(), DiskError>
        ensures failed { OnErr result (AfterFailed (λ disk. disk) None None) }
        ensures cause { ChangeCause result (mute_faults self.old) (mute_faults self.new) }
        ensures passes { PassesChange ⊤ (change_all named) (fails_call self.old.inner.plan) (counted self.old.inner.plan) result self.old self.new }
    {
        let answer = self.inner.sync_names();
        self.count(answer)
    }

    ghost reads_image = { λ _. tt };
}
