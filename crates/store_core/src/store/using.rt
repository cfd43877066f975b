// Storage files of a store that are pinned, taken to be emptied, placed in pieces, and removed.
ghost use Rattle.std.specs.Prelude.{◌≡◌, ◌≤◌, ◌<◌, ◌+◌, ◌-◌, ◌==◌, ◌&&◌, ◌||◌, ℕ, List, length, true, false, Some, None, IfOk, OnOk, OnErr, IsErr};
ghost use Rattle.std.specs.List.{list_any};
ghost use Rattle.disk_model.specs.Disk.{Between, Grows, IfTold, Keeps, MayLeave, SameButFor, reading};
ghost use Rattle.disk_model.specs.FaultCounts.{NoFault, ChangeFaultCounted};
ghost use Rattle.disk_model.specs.declared.name.FileName.TheVariants.{Mail};
ghost use Rattle.model_kept.specs.Kept.{MailIsKept};
ghost use Rattle.model_lists.specs.Lists.{Lists};
ghost use Rattle.model_meaning.specs.MapMeaning.{MapMeaning};
ghost use Rattle.model_store.specs.Settled.{IsSettledFor, Leaves};
ghost use Rattle.storage_files.specs.declared.file.MailFile.{MailFile};
ghost use Rattle.storage_files.specs.Files.{IsUntakenFile, IsGiven, IsTakeNew, after_take, place_begun_in, changed_in, end_in, ending_at, file_in, is_doomed_in, is_emptied_in, is_sealed_in, is_taken_in, pins_in, placing_begun, placing_ended, to_empty, with_pins, without_file};
ghost use Rattle.storage_files.specs.OnDisk.{IsPieceAdded, IsSyncedFile};
ghost use Rattle.store_core.specs.Dues.{KeepsStored};
ghost use Rattle.store_core.specs.Removing.{AreElsewhere, KeepsStoredBut};

use super::Store;
use crate::error::Stopped;
use disk_model::Disk;
use mdbox_base::{FileNo, NoMemory};
use storage_files::Take;

impl<D: Disk> Store<D> {
    /// The greatest number of a storage file that was drawn.
    pub fn drawn_file(&self) -> u32
        ensures { result ≡ self.now.files.highest }
    {
        self.files.drawn()
    }

    /// Whether the storage file is doomed: it is removed as soon as it has no pin.
    pub fn is_doomed(&self, file: FileNo) -> bool
        ensures { result ≡ is_doomed_in file.0 self.now.files.files }
    {
        self.files.is_doomed(file)
    }

    /// How many pins the storage file has.
    pub fn pins_of(&self, file: FileNo) -> u32
        ensures { result ≡ pins_in file.0 self.now.files.files }
    {
        self.files.pins_of(file)
    }

    /// Takes a new storage file, with the next number.
    pub fn take_new(&mut self) -> Take
        requires spare { 1 ≤ self.old.files.spare }
        ensures take { IsTakeNew self.old.files result }
        ensures given { IsGiven 0 self.new.files.files result }
        ensures same { self.new ≡ record self.old { files = after_take result self.old.files; drawn = record self.old.drawn { file = (after_take result self.old.files).highest } } }
        ensures ends { (number : ℕ) → end_in number self.new.files.files ≡ end_in number self.old.files.files }
    {
        self.files.known_facts();
        let take = self.files.take_new();
        if let Take::New(file) = take {
            self.drawn.file = file.0;
        }
        take
    }

    /// Whether a storage file is sealed: nothing is added to it, and it isn't emptied.
    pub fn is_sealed(&self, file: FileNo) -> bool
        ensures { result ≡ is_sealed_in file.0 self.now.files.files }
    {
        self.files.is_sealed(file)
    }

    /// Takes a storage file to empty it: what is still needed of it is copied elsewhere, and then it is removed. Nothing is
    /// added to it meanwhile.
    pub fn take_file(&mut self, file: FileNo)
        requires free { (f : MailFile) × (file_in file.0 self.old.files.files ≡ Some f) × IsUntakenFile f }
        requires unsealed { is_sealed_in file.0 self.old.files.files ≡ false }
        ensures same { self.new ≡ record self.old { files = record self.old.files { files = changed_in file.0 to_empty self.old.files.files } } }
        ensures ends { (number : ℕ) → end_in number self.new.files.files ≡ end_in number self.old.files.files }
    {
        self.files.take_file(file);
    }

    /// Pins a storage file in which a record has its region once more, for a reader. It isn't removed while it has a pin.
    pub fn pin(&mut self, file: FileNo)
        requires region { list_any (λ row. row.file == file.0) self.old.map.records ≡ true }
        requires there { (end : ℕ) × (end_in file.0 self.old.files.files ≡ Some end) }
        requires fewer { pins_in file.0 self.old.files.files < 4294967295 }
        ensures same { self.new ≡ record self.old { files = record self.old.files { files = changed_in file.0 (with_pins (pins_in file.0 self.old.files.files + 1)) self.old.files.files } } }
        ensures ends { (number : ℕ) → end_in number self.new.files.files ≡ end_in number self.old.files.files }
    {
        self.files.pin(file);
    }

    /// Gives a pin back, and answers whether the file may be removed now: it is doomed, and this was its last pin.
    pub fn unpin(&mut self, file: FileNo) -> bool
        requires pinned { 1 ≤ pins_in file.0 self.old.files.files }
        ensures last { result ≡ (is_doomed_in file.0 self.old.files.files && pins_in file.0 self.old.files.files == 1) }
        ensures same { self.new ≡ record self.old { files = record self.old.files { files = changed_in file.0 (with_pins (pins_in file.0 self.old.files.files - 1)) self.old.files.files } } }
        ensures ends { (number : ℕ) → end_in number self.new.files.files ≡ end_in number self.old.files.files }
    {
        self.files.unpin(file)
    }

    /// Begins to place octets in pieces at the end of a storage file that was taken, and answers where that is.
    pub fn begin_place(&mut self, file: FileNo) -> u32
        requires taken { is_taken_in file.0 self.old.files.files ≡ true }
        requires there { (end : ℕ) × (end_in file.0 self.old.files.files ≡ Some end) × (end ≤ 4294967295) }
        ensures offset { end_in file.0 self.old.files.files ≡ Some result }
        ensures begun { place_begun_in file.0 self.new.files.files ≡ Some result }
        ensures same { self.new ≡ record self.old { files = record self.old.files { files = changed_in file.0 placing_begun self.old.files.files } } }
        ensures ends { (number : ℕ) → end_in number self.new.files.files ≡ end_in number self.old.files.files }
    {
        self.files.begin_place(file)
    }

    /// Adds a piece after those that were added. It isn't synced yet. A change of the disk that fails stops the store.
    pub fn add_piece(&mut self, file: FileNo, octets: &[u8]) -> Result<(), Stopped>
        requires running { self.old.stopped ≡ false }
        requires begun { (start : ℕ) × (place_begun_in file.0 self.old.files.files ≡ Some start) }
        requires fits { (end : ℕ) × (end_in file.0 self.old.files.files ≡ Some end) × (end + length octets.now ≤ 4294967295) }

        ensures any_moment { (lists : Lists) → IsSettledFor lists (D.history self.old.disk) → Leaves lists lists (D.history self.old.disk) (D.history self.new.disk) }
        ensures mail_stays { MailIsKept self.old.map (D.history self.old.disk) (D.history self.new.disk) }
        ensures settled { OnOk result ((lists : Lists) → IsSettledFor lists (D.history self.old.disk) → IsSettledFor lists (D.history self.new.disk)) }

        ensures added { OnOk result (Between (λ old new. IsPieceAdded octets.now (old (Mail file.0)) (new (Mail file.0))) (D.history self.old.disk) (D.history self.new.disk)) }
        ensures others { OnOk result (SameButFor (Mail file.0) (D.history self.old.disk) (D.history self.new.disk)) }
        ensures stored { OnOk result (KeepsStored (D.history self.old.disk) (D.history self.new.disk)) }

        ensures ok { OnOk result ((end : ℕ) → end_in file.0 self.old.files.files ≡ Some end → self.new ≡ record self.old { disk = self.new.disk; files = record self.old.files { files = changed_in file.0 (ending_at (end + length octets.now)) self.old.files.files } }) }
        ensures err { OnErr result (self.new ≡ record self.old { disk = self.new.disk; stopped = true }) }
        ensures grows { Grows (D.history self.old.disk) (D.history self.new.disk) }
        ensures fault { ChangeFaultCounted (IsErr result) (D.faults self.old.disk) (D.faults self.new.disk) }
        ensures unfailed { OnOk result (NoFault (D.faults self.old.disk) (D.faults self.new.disk)) }
    {
        self.files.known_facts();
        match self.files.add_piece(&mut self.disk, file, octets) {
            Ok(()) => Ok(()),
            Err(_fault) => {
                self.stopped = true;
                Err(Stopped)
            }
        }
    }

    /// Ends placing in pieces: syncs the file, and answers how many octets the pieces have. A change of the disk that fails
    /// stops the store.
    pub fn end_place(&mut self, file: FileNo) -> Result<u32, Stopped>
        requires running { self.old.stopped ≡ false }
        requires begun { (start : ℕ) × (place_begun_in file.0 self.old.files.files ≡ Some start) }
        requires fits { (end : ℕ) × (end_in file.0 self.old.files.files ≡ Some end) × (end ≤ 4294967295) }

        ensures any_moment { (lists : Lists) → IsSettledFor lists (D.history self.old.disk) → Leaves lists lists (D.history self.old.disk) (D.history self.new.disk) }
        ensures mail_stays { (m : MapMeaning) → MailIsKept m (D.history self.old.disk) (D.history self.new.disk) }
        ensures settled { OnOk result ((lists : Lists) → IsSettledFor lists (D.history self.old.disk) → IsSettledFor lists (D.history self.new.disk)) }

        ensures count { IfOk result (λ count. (start : ℕ) → place_begun_in file.0 self.old.files.files ≡ Some start → end_in file.0 self.old.files.files ≡ Some (start + count)) }
        ensures synced { OnOk result (Between (λ old new. IsSyncedFile (old (Mail file.0)) (new (Mail file.0))) (D.history self.old.disk) (D.history self.new.disk)) }
        ensures held { OnOk result ((text : List ℕ) → IfTold (D.history self.old.disk) (λ now. (reading (now (Mail file.0)) ≡ Some text) × (MayLeave (now (Mail file.0)) None → ⊥)) → IfTold (D.history self.new.disk) (λ now. Keeps (now (Mail file.0)) text)) }
        ensures others { OnOk result (SameButFor (Mail file.0) (D.history self.old.disk) (D.history self.new.disk)) }
        ensures stored { OnOk result (KeepsStored (D.history self.old.disk) (D.history self.new.disk)) }

        ensures ok { OnOk result (self.new ≡ record self.old { disk = self.new.disk; files = record self.old.files { files = changed_in file.0 placing_ended self.old.files.files } }) }
        ensures err { OnErr result (self.new ≡ record self.old { disk = self.new.disk; stopped = true }) }
        ensures grows { Grows (D.history self.old.disk) (D.history self.new.disk) }
        ensures fault { ChangeFaultCounted (IsErr result) (D.faults self.old.disk) (D.faults self.new.disk) }
        ensures unfailed { OnOk result (NoFault (D.faults self.old.disk) (D.faults self.new.disk)) }
    {
        match self.files.end_place(&mut self.disk, file) {
            Ok(count) => Ok(count),
            Err(_fault) => {
                self.stopped = true;
                Err(Stopped)
            }
        }
    }

    /// Removes a storage file that is doomed, or was taken to be emptied, in which no record has its region, and which has no
    /// pin. A change of the disk that fails stops the store.
    pub fn remove_file(&mut self, file: FileNo) -> Result<(), Stopped>
        requires running { self.old.stopped ≡ false }
        requires there { (end : ℕ) × (end_in file.0 self.old.files.files ≡ Some end) }
        requires unpinned { pins_in file.0 self.old.files.files ≡ 0 }
        requires unused { AreElsewhere file.0 self.old.map.records }
        requires own { (is_doomed_in file.0 self.old.files.files || is_emptied_in file.0 self.old.files.files) ≡ true }

        // Of a settled disk each image at every moment is safe for its lists, whichever call fails; and after Ok the disk is
        // settled for them again.
        ensures any_moment { (lists : Lists) → IsSettledFor lists (D.history self.old.disk) → Leaves lists lists (D.history self.old.disk) (D.history self.new.disk) }
        ensures mail_stays { MailIsKept self.old.map (D.history self.old.disk) (D.history self.new.disk) }
        ensures settled { OnOk result ((lists : Lists) → IsSettledFor lists (D.history self.old.disk) → IsSettledFor lists (D.history self.new.disk)) }

        ensures gone { OnOk result (IfTold (D.history self.new.disk) (λ now. reading (now (Mail file.0)) ≡ None)) }
        ensures others { OnOk result (SameButFor (Mail file.0) (D.history self.old.disk) (D.history self.new.disk)) }
        ensures stored { OnOk result (KeepsStoredBut file.0 (D.history self.old.disk) (D.history self.new.disk)) }

        ensures ok { OnOk result (self.new ≡ record self.old { disk = self.new.disk; files = record self.old.files { files = without_file file.0 self.old.files.files } }) }
        ensures err { OnErr result (self.new ≡ record self.old { disk = self.new.disk; stopped = true }) }
        ensures grows { Grows (D.history self.old.disk) (D.history self.new.disk) }
        ensures fault { ChangeFaultCounted (IsErr result) (D.faults self.old.disk) (D.faults self.new.disk) }
        ensures unfailed { OnOk result (NoFault (D.faults self.old.disk) (D.faults self.new.disk)) }
    {
        self.files.known_facts();
        if let Err(_fault) = self.files.remove_file(&mut self.disk, file) {
            self.stopped = true;
            return Err(Stopped);
        }
        Ok(())
    }

    /// Makes room in the map log for an entry of so many octets.
    pub fn reserve_entry(&mut self, octets: usize) -> Result<(), NoMemory>
        ensures room { OnOk result (octets + 5 ≤ self.new.map_log.room) }
        ensures no_less { self.old.map_log.room ≤ self.new.map_log.room }
        ensures same { self.new ≡ record self.old { map_log = record self.old.map_log { room = self.new.map_log.room } } }
        ensures err { OnErr result (self.new ≡ self.old) }
    {
        if octets > 4_294_967_290 {
            return Err(NoMemory);
        }
        self.map_log.reserve(octets + 5)
    }
}
