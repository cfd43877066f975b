// A disk under a program that may crash at any moment.
ghost use Rattle.std.specs.Prelude.{◌≡◌, ◌+◌, ◌^◌, ◌<◌, ◌≤◌, ℕ, List, length, take, drop, Option, min, IsErrOf, IfOk, IfSome, OnOk, OnErr};
ghost use Rattle.std.specs.Option.{option_map};
ghost use Rattle.disk_model.specs.Disk.{History, Faults, IfTold, IsThere, Reaches, after, Unchanged, IsPast, IsNext, AfterFailed, reading, IsImage, IsMoment, change, change_all, written, cut_to, synced, made, removed, named, half_written, half_cut, half_made, half_removed, ReadCause, ChangeCause};
ghost use Rattle.disk_model.specs.declared.error.DiskError.TheVariants.{Failed, Absent};

use crate::{DiskError, FileName};

/// The files of a store, where a crash may come at any moment, and calls may fail.
///
/// A disk may tell what it holds and what a crash would leave, as one in memory does, or be bound by its answers and counts
/// alone, as a real one is. Where it tells, a write, a cut and a sync have the condition that the file is there, and a
/// write or a cut one on its length. A disk that doesn't tell counts such a call as a fault.
///
/// What a crash may leave is in `specs/Disk.antt` and, in plain words, in `docs/model.md`.
pub trait Disk {
    /// The disk's states at each moment so far, a moment being a number of calls that have returned. None where it tells
    /// no content.
    ghost history: { Self → Option History };

    /// How often a call that reads has failed, and how often one that changes. Neither count falls.
    ghost faults: { Self → Faults };

    /// The present moment: how many calls have returned, as far as the type goes. This one isn't counted.
    fn moment(&self) -> u64
        ensures { IsMoment (history self.now) result };

    /// The file's length in octets. `Absent` if and only if there is no such file.
    fn length(&mut self, name: FileName) -> Result<u64, DiskError>
        ensures length { IfOk result (λ n. IfTold (history self.old) (λ disk. option_map length (reading (disk name)) ≡ Some n)) }
        ensures absent { IsErrOf result Absent → IfTold (history self.old) (λ disk. reading (disk name) ≡ None) }
        ensures state { Unchanged (history self.old) (history self.new) }
        ensures cause { ReadCause result (faults self.old) (faults self.new) };

    /// Fills the front of `into` with the file's octets from `offset` to the end of the file or of `into`, and answers how
    /// many. `Absent` if and only if there is no such file: `into` is then as before. After `Failed` it may hold any octets.
    fn read_at(&mut self, name: FileName, offset: u64, into: &mut [u8]) -> Result<usize, DiskError>
        ensures count { IfOk result (λ n. n ≤ length into.new) }
        ensures octets { IfOk result (λ n. IfTold (history self.old) (λ disk. (reading (disk name) ≡ Some (disk name).octets)
            × (take n into.new ≡ take (length into.old) (drop offset (disk name).octets)))) }
        ensures rest { IfOk result (λ n. drop n into.new ≡ drop n into.old) }
        ensures absent { IsErrOf result Absent → IfTold (history self.old) (λ disk. reading (disk name) ≡ None) }
        ensures untouched { IsErrOf result Absent → into.new ≡ into.old }
        ensures state { Unchanged (history self.old) (history self.new) }
        ensures cause { ReadCause result (faults self.old) (faults self.new) };

    /// The least name of a file that is there and greater than `after`, or the least of all without `after`. None exactly
    /// where there is none.
    fn next_name(&mut self, after: Option<FileName>) -> Result<Option<FileName>, DiskError>
        ensures past { IfOk result (λ next. IfSome next (IsPast ⟦<FileName as Ord>⟧.cmp after)) }
        ensures next { IfOk result (λ next. IfTold (history self.old) (IsNext ⟦<FileName as Ord>⟧.cmp after next)) }
        ensures not_absent { IsErrOf result Absent → ⊥ }
        ensures state { Unchanged (history self.old) (history self.new) }
        ensures cause { ReadCause result (faults self.old) (faults self.new) };

    /// Writes all of `from` at `offset`, which is at most the file's length, and so may lengthen the file. A crash before its
    /// sync may leave any octets in that range.
    fn write_at(&mut self, name: FileName, offset: u64, from: &[u8]) -> Result<(), DiskError>
        requires { IfTold (history self.old) (λ disk. Reaches (disk name) offset) }
        ensures state { OnOk result (history self.new ≡ after (change name (written offset from.now)) (history self.old)) }
        ensures failed { OnErr result (AfterFailed (change name (half_written offset (length from.now))) (history self.old) (history self.new)) }
        ensures fits { OnOk result (offset + length from.now < 2 ^ 64) }
        ensures cause { ChangeCause result (faults self.old) (faults self.new) };

    /// Shortens the file to this length, which is at most its own.
    fn cut(&mut self, name: FileName, length: u64) -> Result<(), DiskError>
        requires { IfTold (history self.old) (λ disk. Reaches (disk name) length) }
        ensures state { OnOk result (history self.new ≡ after (change name (cut_to length)) (history self.old)) }
        ensures failed { OnErr result (AfterFailed (change name (half_cut length)) (history self.old) (history self.new)) }
        ensures cause { ChangeCause result (faults self.old) (faults self.new) };

    /// After this a crash leaves the file's octets as they read.
    fn sync(&mut self, name: FileName) -> Result<(), DiskError>
        requires { IfTold (history self.old) (λ disk. IsThere (disk name)) }
        ensures state { OnOk result (history self.new ≡ after (change name synced) (history self.old)) }
        ensures failed { OnErr result (AfterFailed (λ disk. disk) (history self.old) (history self.new)) }
        ensures cause { ChangeCause result (faults self.old) (faults self.new) };

    /// The file is there and empty. One that was there is emptied, as by a cut to 0.
    fn make(&mut self, name: FileName) -> Result<(), DiskError>
        ensures state { OnOk result (history self.new ≡ after (change name made) (history self.old)) }
        ensures failed { OnErr result (AfterFailed (change name half_made) (history self.old) (history self.new)) }
        ensures cause { ChangeCause result (faults self.old) (faults self.new) };

    /// The file is gone, also where there was none.
    fn remove(&mut self, name: FileName) -> Result<(), DiskError>
        ensures state { OnOk result (history self.new ≡ after (change name removed) (history self.old)) }
        ensures failed { OnErr result (AfterFailed (change name half_removed) (history self.old) (history self.new)) }
        ensures cause { ChangeCause result (faults self.old) (faults self.new) };

    /// After this a crash leaves just the files that are there.
    fn sync_names(&mut self) -> Result<(), DiskError>
        ensures state { OnOk result (history self.new ≡ after (change_all named) (history self.old)) }
        ensures failed { OnErr result (AfterFailed (λ disk. disk) (history self.old) (history self.new)) }
        ensures cause { ChangeCause result (faults self.old) (faults self.new) };

    /// The disk as it reads is one of its images.
    ghost reads_image: { (disk : Self) → IfTold (history disk) (λ state. IsImage state (λ name. reading (state name))) };
}
