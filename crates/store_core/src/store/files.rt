// The storage files of a store: who takes which, and what is written to them and read.
ghost use Rattle.std.specs.Prelude.{◌≡◌, ◌↔◌, ◌≤◌, ◌+◌, ◌++◌, ◌||◌, ℕ, List, length, take, drop, max, true, false, Some, None, IfOk, OnOk, OnErr, IsOk, IsErr};
ghost use Rattle.disk_model.specs.Disk.{Between, Grows, IfTold, IsIdle, Keeps, SameButFor, reading};
ghost use Rattle.disk_model.specs.FaultCounts.{NoFault, ChangeFaultCounted, ReadFaultCounted};
ghost use Rattle.disk_model.specs.declared.name.FileName.TheVariants.{Mail};
ghost use Rattle.model_appends.specs.Appending.{LeavesAsRead};
ghost use Rattle.model_kept.specs.Kept.{MailIsKept};
ghost use Rattle.model_lists.specs.Lists.{Lists};
ghost use Rattle.model_meaning.specs.MapFits.{IsFree};
ghost use Rattle.model_store.specs.Settled.{IsSettledFor, Leaves};
ghost use Rattle.storage_files.specs.Files.{IsTakeFor, IsGiven, after_take, changed_in, end_in, ending_at, file_past, is_emptied_in, is_taken_in, released_in};
ghost use Rattle.storage_files.specs.OnDisk.{IsAddedTo, OthersAreNamed, piece_read};
ghost use Rattle.store_core.specs.Dues.{KeepsStored};
ghost use Rattle.store_core.specs.Files.{IsNewPlace, EndsWith};

use super::Store;
use crate::error::Stopped;
use disk_model::Disk;
use mdbox_base::{FileNo, NoMemory};
use storage_files::{DiskFault, Take};

impl<D: Disk> Store<D> {
    /// Makes room for taking so many storage files at least.
    pub fn reserve(&mut self, files: u32) -> Result<(), NoMemory>
        ensures ok { OnOk result (self.new ≡ record self.old { files = record self.old.files { spare = max self.old.files.spare files } }) }
        ensures err { OnErr result (self.new ≡ self.old) }
        ensures enough { files ≤ self.old.files.spare → IsOk result }
    {
        self.files.reserve(files)
    }

    /// How many storage files can be taken without memory.
    pub fn spare(&self) -> u32
        ensures { result ≡ self.now.files.spare }
    {
        self.files.spare()
    }

    /// Where the storage file ends, in octets. None if and only if it isn't there.
    pub fn end_of(&self, file: FileNo) -> Option<u64>
        ensures { result ≡ end_in file.0 self.now.files.files }
    {
        self.files.end_of(file)
    }

    /// The storage file that is there with the least number greater than `after`, or with the least of all. None if and only
    /// if there is none.
    pub fn next_file(&self, after: Option<FileNo>) -> Option<FileNo>
        ensures { result ≡ file_past after self.now.files.files }
    {
        self.files.next_file(after)
    }

    /// Whether somebody has taken the storage file.
    pub fn is_taken(&self, file: FileNo) -> bool
        ensures { result ≡ (is_taken_in file.0 self.now.files.files || is_emptied_in file.0 self.now.files.files) }
    {
        self.files.is_taken(file)
    }

    /// Takes a storage file for so many octets: a message with its header and its metadata. The number of a new one is drawn.
    pub fn take_for(&mut self, size: u32) -> Take
        requires spare { 1 ≤ self.old.files.spare }
        ensures take { IsTakeFor size self.old.files result }
        ensures given { IsGiven size self.new.files.files result }
        ensures same { self.new ≡ record self.old { files = after_take result self.old.files; drawn = record self.old.drawn { file = (after_take result self.old.files).highest } } }
        ensures ends { (number : ℕ) → end_in number self.new.files.files ≡ end_in number self.old.files.files }
    {
        self.files.known_facts();
        let take = self.files.take_for(size);
        if let Take::New(file) = take {
            self.drawn.file = file.0;
        }
        take
    }

    /// Gives a storage file back. One that was not made is no file any more; its number stays drawn.
    pub fn release(&mut self, file: FileNo)
        requires taken { (is_taken_in file.0 self.old.files.files || is_emptied_in file.0 self.old.files.files) ≡ true }
        ensures same { self.new ≡ record self.old { files = record self.old.files { files = released_in file.0 self.old.files.files } } }
        ensures ends { (number : ℕ) → end_in number self.new.files.files ≡ end_in number self.old.files.files }
    {
        self.files.release(file);
    }

    /// Makes a storage file that was taken, with this header alone, synced, and syncs all names. A change of the disk that
    /// fails stops the store.
    pub fn make_file(&mut self, file: FileNo, header: &[u8]) -> Result<(), Stopped>
        requires running { self.old.stopped ≡ false }
        requires taken { is_taken_in file.0 self.old.files.files ≡ true }
        requires absent { end_in file.0 self.old.files.files ≡ None }

        // Of a settled disk each image at every moment is safe for its lists, whichever call fails; and after Ok the disk is
        // settled for them again.
        ensures any_moment { (lists : Lists) → IsSettledFor lists (D.history self.old.disk) → Leaves lists lists (D.history self.old.disk) (D.history self.new.disk) }
        ensures mail_stays { MailIsKept self.old.map (D.history self.old.disk) (D.history self.new.disk) }
        ensures settled { OnOk result ((lists : Lists) → IsSettledFor lists (D.history self.old.disk) → IsSettledFor lists (D.history self.new.disk)) }

        // After Ok the file is there, and a crash leaves it so. No other file has changed, and their names are synced.
        ensures made { OnOk result (IfTold (D.history self.new.disk) (λ now. Keeps (now (Mail file.0)) header.now)) }
        ensures others { OnOk result (OthersAreNamed (Mail file.0) (D.history self.old.disk) (D.history self.new.disk)) }
        ensures stored { OnOk result (KeepsStored (D.history self.old.disk) (D.history self.new.disk)) }

        ensures ok { OnOk result (self.new ≡ record self.old { disk = self.new.disk; files = record self.old.files { files = changed_in file.0 (ending_at (length header.now)) self.old.files.files } }) }
        ensures ends { OnOk result (end_in file.0 self.new.files.files ≡ Some (length header.now)) }
        ensures taken { (number : ℕ) → is_taken_in number self.new.files.files ≡ is_taken_in number self.old.files.files }
        ensures err { OnErr result (self.new ≡ record self.old { disk = self.new.disk; stopped = true }) }
        ensures grows { Grows (D.history self.old.disk) (D.history self.new.disk) }
        ensures fault { ChangeFaultCounted (IsErr result) (D.faults self.old.disk) (D.faults self.new.disk) }
        ensures unfailed { OnOk result (NoFault (D.faults self.old.disk) (D.faults self.new.disk)) }
    {
        if let Err(_fault) = self.files.make_file(&mut self.disk, file, header) {
            self.stopped = true;
            return Err(Stopped);
        }
        Ok(())
    }

    /// Adds three texts at the end of a storage file that was taken, one behind another and each in pieces from where it lies,
    /// syncs it, and answers the offset where they begin. A change of the disk that fails stops the store.
    pub fn place_texts(
        &mut self,
        file: FileNo,
        front: &[u8],
        body: &[u8],
        back: &[u8],
    ) -> Result<u32, Stopped>
        requires running { self.old.stopped ≡ false }
        requires taken { is_taken_in file.0 self.old.files.files ≡ true }
        requires fits { (end : ℕ) × (end_in file.0 self.old.files.files ≡ Some end) × (end + length ((front.now ++ body.now) ++ back.now) ≤ 4294967295) }

        // Of a settled disk each image at every moment is safe for its lists, whichever call fails; and after Ok the disk is
        // settled for them again, and of a disk that is settled then a crash leaves the file as it reads.
        ensures any_moment { (lists : Lists) → IsSettledFor lists (D.history self.old.disk) → Leaves lists lists (D.history self.old.disk) (D.history self.new.disk) }
        ensures mail_stays { MailIsKept self.old.map (D.history self.old.disk) (D.history self.new.disk) }
        ensures settled { OnOk result ((lists : Lists) → IsSettledFor lists (D.history self.old.disk) → IsSettledFor lists (D.history self.new.disk)) }
        ensures held { OnOk result ((lists : Lists) → IsSettledFor lists (D.history self.new.disk) → IfTold (D.history self.new.disk) (LeavesAsRead (Mail file.0))) }

        // After Ok the octets stand at the old end, which is the answer, behind what the file had. They overlap no region, and
        // no GUID names their place.
        ensures offset { IfOk result (λ offset. end_in file.0 self.old.files.files ≡ Some offset) }
        ensures placed { IfOk result (λ offset. IfTold (D.history self.new.disk) (λ now. EndsWith offset ((front.now ++ body.now) ++ back.now) (now (Mail file.0)))) }
        ensures added { OnOk result (Between (λ old new. IsAddedTo ((front.now ++ body.now) ++ back.now) (old (Mail file.0)) (new (Mail file.0))) (D.history self.old.disk) (D.history self.new.disk)) }
        ensures others { OnOk result (SameButFor (Mail file.0) (D.history self.old.disk) (D.history self.new.disk)) }
        ensures free { IfOk result (λ offset. IsFree self.old.map file.0 offset (length ((front.now ++ body.now) ++ back.now))) }
        ensures new_place { IfOk result (λ offset. IsNewPlace self.old.map file.0 offset) }
        ensures stored { OnOk result (KeepsStored (D.history self.old.disk) (D.history self.new.disk)) }

        ensures ok { IfOk result (λ offset. self.new ≡ record self.old { disk = self.new.disk; files = record self.old.files { files = changed_in file.0 (ending_at (offset + length ((front.now ++ body.now) ++ back.now))) self.old.files.files } }) }
        ensures ends { IfOk result (λ offset. end_in file.0 self.new.files.files ≡ Some (offset + length ((front.now ++ body.now) ++ back.now))) }
        ensures taken { (number : ℕ) → is_taken_in number self.new.files.files ≡ is_taken_in number self.old.files.files }
        ensures err { OnErr result (self.new ≡ record self.old { disk = self.new.disk; stopped = true }) }
        ensures grows { Grows (D.history self.old.disk) (D.history self.new.disk) }
        ensures fault { ChangeFaultCounted (IsErr result) (D.faults self.old.disk) (D.faults self.new.disk) }
        ensures unfailed { OnOk result (NoFault (D.faults self.old.disk) (D.faults self.new.disk)) }
    {
        match self
            .files
            .place_texts(&mut self.disk, file, front, body, back)
        {
            Ok(offset) => Ok(offset),
            Err(_fault) => {
                self.stopped = true;
                Err(Stopped)
            }
        }
    }

    /// Reads a storage file from an offset on into the front of `into`, to the end of either, and answers how many octets: 0
    /// if it isn't there. After a fault `into` may hold any octets, and the store goes on.
    pub fn read_piece(
        &mut self,
        file: FileNo,
        offset: u64,
        into: &mut [u8],
    ) -> Result<usize, DiskFault>
        ensures count { IfOk result (λ n. n ≤ length into.new) }
        ensures piece { IfOk result (λ n. IfTold (D.history self.old.disk) (λ now. take n into.new ≡ piece_read offset (length into.old) (reading (now (Mail file.0))))) }
        ensures rest { IfOk result (λ n. drop n into.new ≡ drop n into.old) }
        ensures same { self.new ≡ record self.old { disk = self.new.disk } }
        ensures idle { IsIdle (D.history self.old.disk) (D.history self.new.disk) }
        ensures fault { ReadFaultCounted (IsErr result) (D.faults self.old.disk) (D.faults self.new.disk) }
        ensures unfailed { OnOk result (NoFault (D.faults self.old.disk) (D.faults self.new.disk)) }
    {
        self.files.read_piece(&mut self.disk, file, offset, into)
    }
}
