// Storage files that are made, added to, removed and read.
ghost use Rattle.std.specs.Prelude.{◌≡◌, ◌≤◌, ◌+◌, ◌++◌, ℕ, List, length, take, drop, true, Some, None, OnOk, OnErr, IfOk, IsErr};
ghost use Rattle.disk_model.specs.FaultCounts.{NoFault, ChangeFaultCounted, ReadFaultCounted};
ghost use Rattle.disk_model.specs.Disk.{EachImage, OthersStay, SameButFor, Between, IfTold, IsThere, MayLeave, Keeps, reading, IsIdle};
ghost use Rattle.disk_model.specs.declared.name.FileName.TheVariants.{Mail};
ghost use Rattle.storage_files.specs.Files.{FilesValue, place_begun_in, end_in, is_taken_in, pins_in, changed_in, ending_at, placing_begun, placing_ended, without_file};
ghost use Rattle.storage_files.specs.OnDisk.{IsAsKnown, FrontStays, IsAddedTo, IsPieceAdded, IsSyncedFile, IsLeftAsBefore, IsNewOrNone, OthersAreNamed, IsLeftOrNone, piece_read};

use crate::adding::add_texts;
use crate::device::{make_with, read_from, remove, sync, write_on};
use crate::error::DiskFault;
use crate::file::FileChange;
use crate::files::MailFiles;
use disk_model::{Disk, FileName};
use mdbox_base::FileNo;

impl MailFiles {
    /// Makes a file that was taken, with this header alone, synced, and syncs all names. After a fault the file isn't used
    /// again.
    pub fn make_file<D: Disk>(
        &mut self,
        disk: &mut D,
        file: FileNo,
        header: &[u8],
    ) -> Result<(), DiskFault>
        requires taken { is_taken_in file.0 self.old.files ≡ true }
        requires absent { end_in file.0 self.old.files ≡ None }
        requires known { IsAsKnown self.old.files file.0 (D.history disk.old) }

        // At every moment each image has nothing of this file, or no more octets than it could have before or than the header has.
        ensures any_moment { EachImage (λ _ image. IsNewOrNone (Mail file.0) (length header.now) (D.history disk.old) image × OthersStay (Mail file.0) (D.history disk.old) image) (D.history disk.old) (D.history disk.new) }

        // After Ok the file is there, and a crash leaves it so. No other file has changed, and their names are synced.
        ensures made { OnOk result (IfTold (D.history disk.new) (λ now. Keeps (now (Mail file.0)) header.now)) }
        ensures others { OnOk result (OthersAreNamed (Mail file.0) (D.history disk.old) (D.history disk.new)) }
        ensures ok { OnOk result (self.new ≡ record self.old { files = changed_in file.0 (ending_at (length header.now)) self.old.files }) }
        ensures taken { (number : ℕ) → is_taken_in number self.new.files ≡ is_taken_in number self.old.files }
        ensures still_known { OnOk result ((number : ℕ) → IsAsKnown self.old.files number (D.history disk.old) → IsAsKnown self.new.files number (D.history disk.new)) }

        ensures err { OnErr result (self.new ≡ self.old) }
        ensures fault { ChangeFaultCounted (IsErr result) (D.faults disk.old) (D.faults disk.new) }
        ensures unread { (D.faults disk.new).reads ≡ (D.faults disk.old).reads }
        ensures unfailed { OnOk result (NoFault (D.faults disk.old) (D.faults disk.new)) }
    {
        self.known_facts();
        make_with(disk, FileName::Mail(file.0), header)?;
        self.change(file, FileChange::Ends(header.len() as u64));
        Ok(())
    }

    /// Adds three texts at the end of a file that was taken, one behind another and each in pieces from where it lies, syncs
    /// it, and answers the offset where they begin. After a fault the file isn't used again.
    pub fn place_texts<D: Disk>(
        &mut self,
        disk: &mut D,
        file: FileNo,
        front: &[u8],
        body: &[u8],
        back: &[u8],
    ) -> Result<u32, DiskFault>
        requires taken { is_taken_in file.0 self.old.files ≡ true }
        requires known { IsAsKnown self.old.files file.0 (D.history disk.old) }
        requires fits { (end : ℕ) × (end_in file.0 self.old.files ≡ Some end) × (end + length ((front.now ++ body.now) ++ back.now) ≤ 4294967295) }

        // At every moment each image has of this file, below its old end, what a crash could leave before, whichever device
        // call fails; and so it has of the other files.
        ensures any_moment { (end : ℕ) → end_in file.0 self.old.files ≡ Some end → EachImage (λ _ image. FrontStays (Mail file.0) end (D.history disk.old) image × OthersStay (Mail file.0) (D.history disk.old) image) (D.history disk.old) (D.history disk.new) }

        // After Ok the octets stand at the old end, which is the answer, and a crash leaves them there. No other file has changed.
        ensures offset { IfOk result (λ offset. end_in file.0 self.old.files ≡ Some offset) }
        ensures added { OnOk result (Between (λ old new. IsAddedTo ((front.now ++ body.now) ++ back.now) (old (Mail file.0)) (new (Mail file.0))) (D.history disk.old) (D.history disk.new)) }
        ensures held { OnOk result ((text : List ℕ) → IfTold (D.history disk.old) (λ now. Keeps (now (Mail file.0)) text) → IfTold (D.history disk.new) (λ now. Keeps (now (Mail file.0)) (text ++ ((front.now ++ body.now) ++ back.now)))) }
        ensures others { OnOk result (SameButFor (Mail file.0) (D.history disk.old) (D.history disk.new)) }
        ensures ok { IfOk result (λ offset. self.new ≡ record self.old { files = changed_in file.0 (ending_at (offset + length ((front.now ++ body.now) ++ back.now))) self.old.files }) }
        ensures taken { (number : ℕ) → is_taken_in number self.new.files ≡ is_taken_in number self.old.files }
        ensures still_known { OnOk result ((number : ℕ) → IsAsKnown self.old.files number (D.history disk.old) → IsAsKnown self.new.files number (D.history disk.new)) }

        ensures err { OnErr result (self.new ≡ self.old) }
        ensures fault { ChangeFaultCounted (IsErr result) (D.faults disk.old) (D.faults disk.new) }
        ensures unread { (D.faults disk.new).reads ≡ (D.faults disk.old).reads }
        ensures unfailed { OnOk result (NoFault (D.faults disk.old) (D.faults disk.new)) }
    {
        self.known_facts();
        let end = self.end_of(file).unwrap();
        let behind = add_texts(disk, FileName::Mail(file.0), end, front, body, back)?;
        self.change(file, FileChange::Ends(behind));
        Ok(end as u32)
    }

    /// Begins to place octets in pieces at the end of a file that was taken, and answers where that is.
    pub fn begin_place(&mut self, file: FileNo) -> u32
        requires taken { is_taken_in file.0 self.old.files ≡ true }
        requires there { (end : ℕ) × (end_in file.0 self.old.files ≡ Some end) × (end ≤ 4294967295) }
        ensures offset { end_in file.0 self.old.files ≡ Some result }
        ensures ok { self.new ≡ record self.old { files = changed_in file.0 placing_begun self.old.files } }
        ensures begun { place_begun_in file.0 self.new.files ≡ Some result }
        ensures taken { (number : ℕ) → is_taken_in number self.new.files ≡ is_taken_in number self.old.files }
        ensures ends { (number : ℕ) → end_in number self.new.files ≡ end_in number self.old.files }
    {
        self.known_facts();
        let end = self.end_of(file).unwrap();
        self.change(file, FileChange::PlacingBegun);
        end as u32
    }

    /// Adds a piece after those that were added. It isn't synced yet. After a fault the file isn't used again.
    pub fn add_piece<D: Disk>(
        &mut self,
        disk: &mut D,
        file: FileNo,
        octets: &[u8],
    ) -> Result<(), DiskFault>
        requires begun { (start : ℕ) × (place_begun_in file.0 self.old.files ≡ Some start) }
        requires known { IsAsKnown self.old.files file.0 (D.history disk.old) }
        requires fits { (end : ℕ) × (end_in file.0 self.old.files ≡ Some end) × (end + length octets.now ≤ 4294967295) }

        // At every moment each image has of this file, below its old end, what a crash could leave before, whichever device
        // call fails; and so it has of the other files.
        ensures any_moment { (end : ℕ) → end_in file.0 self.old.files ≡ Some end → EachImage (λ _ image. FrontStays (Mail file.0) end (D.history disk.old) image × OthersStay (Mail file.0) (D.history disk.old) image) (D.history disk.old) (D.history disk.new) }

        // After Ok the piece stands at the old end. No other file has changed.
        ensures added { OnOk result (Between (λ old new. IsPieceAdded octets.now (old (Mail file.0)) (new (Mail file.0))) (D.history disk.old) (D.history disk.new)) }
        ensures others { OnOk result (SameButFor (Mail file.0) (D.history disk.old) (D.history disk.new)) }
        ensures ok { OnOk result ((end : ℕ) → end_in file.0 self.old.files ≡ Some end → self.new ≡ record self.old { files = changed_in file.0 (ending_at (end + length octets.now)) self.old.files }) }
        ensures taken { (number : ℕ) → is_taken_in number self.new.files ≡ is_taken_in number self.old.files }
        ensures still_known { OnOk result ((number : ℕ) → IsAsKnown self.old.files number (D.history disk.old) → IsAsKnown self.new.files number (D.history disk.new)) }

        ensures err { OnErr result (self.new ≡ self.old) }
        ensures fault { ChangeFaultCounted (IsErr result) (D.faults disk.old) (D.faults disk.new) }
        ensures unread { (D.faults disk.new).reads ≡ (D.faults disk.old).reads }
        ensures unfailed { OnOk result (NoFault (D.faults disk.old) (D.faults disk.new)) }
    {
        self.known_facts();
        let end = self.end_of(file).unwrap();
        write_on(disk, FileName::Mail(file.0), end, octets)?;
        self.change(file, FileChange::Ends(end + octets.len() as u64));
        Ok(())
    }

    /// Ends placing in pieces: syncs the file, and answers how many octets the pieces have. After a fault the file isn't used
    /// again.
    pub fn end_place<D: Disk>(&mut self, disk: &mut D, file: FileNo) -> Result<u32, DiskFault>
        requires begun { (start : ℕ) × (place_begun_in file.0 self.old.files ≡ Some start) }
        requires known { IsAsKnown self.old.files file.0 (D.history disk.old) }
        requires fits { (end : ℕ) × (end_in file.0 self.old.files ≡ Some end) × (end ≤ 4294967295) }

        // At every moment each image is one that a crash could leave before.
        ensures any_moment { EachImage (λ _ image. IsLeftAsBefore (Mail file.0) (D.history disk.old) image × OthersStay (Mail file.0) (D.history disk.old) image) (D.history disk.old) (D.history disk.new) }

        // After Ok a crash leaves what was added, and a file that no crash could remove reads after it as it does now. No other
        // file has changed.
        ensures count { IfOk result (λ count. (start : ℕ) → place_begun_in file.0 self.old.files ≡ Some start → end_in file.0 self.old.files ≡ Some (start + count)) }
        ensures synced { OnOk result (Between (λ old new. IsSyncedFile (old (Mail file.0)) (new (Mail file.0))) (D.history disk.old) (D.history disk.new)) }
        ensures held { OnOk result ((text : List ℕ) → IfTold (D.history disk.old) (λ now. (reading (now (Mail file.0)) ≡ Some text) × (MayLeave (now (Mail file.0)) None → ⊥)) → IfTold (D.history disk.new) (λ now. Keeps (now (Mail file.0)) text)) }
        ensures others { OnOk result (SameButFor (Mail file.0) (D.history disk.old) (D.history disk.new)) }
        ensures ok { OnOk result (self.new ≡ record self.old { files = changed_in file.0 placing_ended self.old.files }) }
        ensures taken { (number : ℕ) → is_taken_in number self.new.files ≡ is_taken_in number self.old.files }
        ensures still_known { OnOk result ((number : ℕ) → IsAsKnown self.old.files number (D.history disk.old) → IsAsKnown self.new.files number (D.history disk.new)) }

        ensures err { OnErr result (self.new ≡ self.old) }
        ensures fault { ChangeFaultCounted (IsErr result) (D.faults disk.old) (D.faults disk.new) }
        ensures unread { (D.faults disk.new).reads ≡ (D.faults disk.old).reads }
        ensures unfailed { OnOk result (NoFault (D.faults disk.old) (D.faults disk.new)) }
    {
        self.known_facts();
        let end = self.end_of(file).unwrap();
        let start = self.begun_of(file).unwrap();
        sync(disk, FileName::Mail(file.0))?;
        self.change(file, FileChange::PlacingEnded);
        Ok((end - start) as u32)
    }

    /// Removes a file that has no pin. Names aren't synced, so a crash may leave it.
    pub fn remove_file<D: Disk>(&mut self, disk: &mut D, file: FileNo) -> Result<(), DiskFault>
        requires unpinned { pins_in file.0 self.old.files ≡ 0 }
        // At every moment each image has this file as a crash could leave it before, or not at all.
        ensures any_moment { IfTold (D.history disk.old) (λ now. IsThere (now (Mail file.0))) → EachImage (λ _ image. IsLeftOrNone (Mail file.0) (D.history disk.old) image × OthersStay (Mail file.0) (D.history disk.old) image) (D.history disk.old) (D.history disk.new) }
        ensures others_stay { EachImage (λ _ image. OthersStay (Mail file.0) (D.history disk.old) image) (D.history disk.old) (D.history disk.new) }

        ensures gone { OnOk result (IfTold (D.history disk.new) (λ now. reading (now (Mail file.0)) ≡ None)) }
        ensures others { OnOk result (SameButFor (Mail file.0) (D.history disk.old) (D.history disk.new)) }
        ensures ok { OnOk result (self.new ≡ record self.old { files = without_file file.0 self.old.files }) }
        ensures still_known { OnOk result ((number : ℕ) → IsAsKnown self.old.files number (D.history disk.old) → IsAsKnown self.new.files number (D.history disk.new)) }

        ensures err { OnErr result (self.new ≡ self.old) }
        ensures fault { ChangeFaultCounted (IsErr result) (D.faults disk.old) (D.faults disk.new) }
        ensures unread { (D.faults disk.new).reads ≡ (D.faults disk.old).reads }
        ensures unfailed { OnOk result (NoFault (D.faults disk.old) (D.faults disk.new)) }
    {
        remove(disk, FileName::Mail(file.0))?;
        self.forget(file);
        Ok(())
    }

    /// Reads a file from an offset on into the front of `into`, to the end of either, and answers how many octets: 0 if it
    /// isn't there. After a fault `into` may hold any octets.
    pub fn read_piece<D: Disk>(
        &self,
        disk: &mut D,
        file: FileNo,
        offset: u64,
        into: &mut [u8],
    ) -> Result<usize, DiskFault>
        ensures count { IfOk result (λ n. n ≤ length into.new) }
        ensures piece { IfOk result (λ n. IfTold (D.history disk.old) (λ now. take n into.new ≡ piece_read offset (length into.old) (reading (now (Mail file.0))))) }
        ensures rest { IfOk result (λ n. drop n into.new ≡ drop n into.old) }
        ensures idle { IsIdle (D.history disk.old) (D.history disk.new) }
        ensures fault { ReadFaultCounted (IsErr result) (D.faults disk.old) (D.faults disk.new) }
        ensures unfailed { OnOk result (NoFault (D.faults disk.old) (D.faults disk.new)) }
    {
        read_from(disk, FileName::Mail(file.0), offset, into)
    }
}
