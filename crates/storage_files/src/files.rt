// The storage files of a store, and who has taken which.
ghost use Rattle.std.specs.Prelude.{◌≡◌, ◌==◌, ◌+◌, ◌-◌, ◌<◌, ◌≤◌, ◌&&◌, ◌||◌, ℕ, map, max, find, true, false, is_some, Some, All, AllPairs, IfOk, OnOk, OnErr, IsOk};
ghost use Rattle.std.specs.Option.{option_map};
ghost use Rattle.storage_files.specs.declared.file.MailFile.{MailFile};
ghost use Rattle.storage_files.specs.declared.file.Take.TheVariants as Take;
ghost use Rattle.storage_files.specs.Files.{IsTakeFor, IsTakeNew, IsGiven, IsUsedFile, IsUntakenFile, after_take, change_of, file_found, file_in, file_past, end_in, is_taken_in, is_emptied_in, is_doomed_in, is_sealed_in, pins_in, place_begun_in, released_in, without_file, changed_in, to_empty, made_doomed, with_pins};

use crate::file::{FileChange, FileState, MailFile, Take};
use crate::list::{change, find, greatest_with_room, leave_out, place_past};
use mdbox_base::{FileNo, NoMemory, Seq};
use std::alloc::Global;
use std::marker::Model;

/// The greatest number of a storage file.
const LAST_FILE: u32 = 4_294_967_294;

/// The storage files of a store: which are there, where each ends, and who has taken which.
///
/// It holds no octets. A disk is handed to each call that needs it.
#[derive(Drop)]
pub struct MailFiles {
    /// In order of number.
    files: Vec<MailFile>,
    highest: u32,
    spare: u32,
}

impl Model for MailFiles {
    ghost use Rattle.std.specs.Prelude.{◌+◌, ◌≤◌, vec_len, vec_capacity};
    ghost use Rattle.storage_files.specs.Files.{FilesValue, AreFilesInOrder};

    ghost Value = { FilesValue };

    ghost view = { λ m. record { files = m.files.items; highest = m.highest; spare = m.spare } };

    ghost invariant = { λ m. AreFilesInOrder (record { files = m.files.items; highest = m.highest; spare = m.spare }) × (vec_len m.files + m.spare ≤ vec_capacity m.files) };
}

impl MailFiles {
    ghost use Rattle.storage_files.specs.Files.{FilesValue, AreFilesInOrder};

    /// The files that an opening found, in order of number. `highest` is the greatest number that was drawn so far.
    pub fn of(alloc: Global, files: Seq<FileState>, highest: u32) -> Result<MailFiles, NoMemory>
        requires rising { AllPairs (λ a b. a.file.0 < b.file.0) files }
        requires below { All (λ f. f.file.0 ≤ highest) files }
        requires last { highest ≤ 4294967294 }
        ensures { IfOk result (λ made. made ≡ record { files = map file_found files; highest = highest; spare = 0 }) }
    {
        Ok(MailFiles {
            files: known(alloc, files.as_slice())?,
            highest,
            spare: 0,
        })
    }

    /// Numbers rise up to the drawn one, and each file is there or taken, and used as it may be.
    pub fn known_facts(&self)
        ensures { AreFilesInOrder self.now }
    {
        let _ = &self.files;
    }

    /// Makes room for taking so many files at least.
    pub fn reserve(&mut self, files: u32) -> Result<(), NoMemory>
        ensures ok { OnOk result (self.new ≡ record self.old { spare = max self.old.spare files }) }
        ensures err { OnErr result (self.new ≡ self.old) }
        ensures enough { files ≤ self.old.spare → IsOk result }
    {
        if files > self.spare {
            self.files.reserve(files as usize)?;
            self.spare = files;
        }
        Ok(())
    }

    /// How many files can be taken without memory.
    pub fn spare(&self) -> u32
        ensures { result ≡ self.now.spare }
    {
        self.spare
    }

    /// Takes a file for so many octets: a message with its header and its metadata. It looks at files from the greatest
    /// number down to the one that it takes, so at all of them if none has room, and at none for octets that no file has
    /// room for.
    pub fn take_for(&mut self, size: u32) -> Take
        requires spare { 1 ≤ self.old.spare }
        ensures take { IsTakeFor size self.old result }
        ensures given { IsGiven size self.new.files result }
        ensures files { self.new ≡ after_take result self.old }
        ensures ends { (number : ℕ) → end_in number self.new.files ≡ end_in number self.old.files }
    {
        self.known_facts();
        if let Some(file) = greatest_with_room(&self.files, size) {
            self.change(file, FileChange::Taken);
            return Take::Known(file);
        }
        if self.highest == LAST_FILE {
            return Take::Full;
        }
        let file = FileNo(self.highest + 1);
        self.begin(file);
        Take::New(file)
    }

    /// Takes a new file, with the next number.
    pub fn take_new(&mut self) -> Take
        requires spare { 1 ≤ self.old.spare }
        ensures take { IsTakeNew self.old result }
        ensures given { IsGiven 0 self.new.files result }
        ensures files { self.new ≡ after_take result self.old }
        ensures ends { (number : ℕ) → end_in number self.new.files ≡ end_in number self.old.files }
    {
        self.known_facts();
        if self.highest == LAST_FILE {
            return Take::Full;
        }
        let file = FileNo(self.highest + 1);
        self.begin(file);
        Take::New(file)
    }

    /// The greatest number that was drawn.
    pub fn drawn(&self) -> u32
        ensures { result ≡ self.now.highest }
    {
        self.highest
    }

    /// Takes a file to empty it: what is still needed of it is copied elsewhere, and then it is removed. Nothing is added to
    /// it meanwhile.
    pub fn take_file(&mut self, file: FileNo)
        requires free { (f : MailFile) × (file_in file.0 self.old.files ≡ Some f) × IsUntakenFile f }
        requires unsealed { is_sealed_in file.0 self.old.files ≡ false }
        ensures files { self.new ≡ record self.old { files = changed_in file.0 to_empty self.old.files } }
        ensures ends { (number : ℕ) → end_in number self.new.files ≡ end_in number self.old.files }
    {
        self.known_facts();
        self.change(file, FileChange::Emptied);
    }

    /// Pins a file once more, for a reader.
    pub fn pin(&mut self, file: FileNo)
        requires there { (end : ℕ) × (end_in file.0 self.old.files ≡ Some end) }
        requires fewer { pins_in file.0 self.old.files < 4294967295 }
        ensures files { self.new ≡ record self.old { files = changed_in file.0 (with_pins (pins_in file.0 self.old.files + 1)) self.old.files } }
        ensures ends { (number : ℕ) → end_in number self.new.files ≡ end_in number self.old.files }
    {
        self.known_facts();
        let pins = self.pins_of(file);
        self.change(file, FileChange::Pins(pins + 1));
    }

    /// Gives a pin back, and answers whether the file may be removed now: it is doomed, and this was its last pin.
    pub fn unpin(&mut self, file: FileNo) -> bool
        requires pinned { 1 ≤ pins_in file.0 self.old.files }
        ensures last { result ≡ (is_doomed_in file.0 self.old.files && pins_in file.0 self.old.files == 1) }
        ensures files { self.new ≡ record self.old { files = changed_in file.0 (with_pins (pins_in file.0 self.old.files - 1)) self.old.files } }
        ensures ends { (number : ℕ) → end_in number self.new.files ≡ end_in number self.old.files }
    {
        self.known_facts();
        let pins = self.pins_of(file);
        let is_last = self.is_doomed(file) && pins == 1;
        self.change(file, FileChange::Pins(pins - 1));
        is_last
    }

    /// Dooms a file that was taken to be emptied, and answers whether it may be removed now, since it has no pin. Nobody has
    /// taken it any more.
    pub fn doom(&mut self, file: FileNo) -> bool
        requires emptied { is_emptied_in file.0 self.old.files ≡ true }
        ensures unpinned { result ≡ (pins_in file.0 self.old.files == 0) }
        ensures files { self.new ≡ record self.old { files = changed_in file.0 made_doomed self.old.files } }
        ensures ends { (number : ℕ) → end_in number self.new.files ≡ end_in number self.old.files }
    {
        self.known_facts();
        let is_unpinned = self.pins_of(file) == 0;
        self.change(file, FileChange::Doomed);
        is_unpinned
    }

    /// Whether the file is sealed: nothing is added to it, and it isn't emptied.
    pub fn is_sealed(&self, file: FileNo) -> bool
        ensures { result ≡ is_sealed_in file.0 self.now.files }
    {
        match find(&self.files, file) {
            Some(f) => f.sealed,
            None => false,
        }
    }

    /// Whether the file is doomed: it is removed as soon as it has no pin.
    pub fn is_doomed(&self, file: FileNo) -> bool
        ensures { result ≡ is_doomed_in file.0 self.now.files }
    {
        match find(&self.files, file) {
            Some(f) => f.doomed,
            None => false,
        }
    }

    /// How many pins the file has.
    pub fn pins_of(&self, file: FileNo) -> u32
        ensures { result ≡ pins_in file.0 self.now.files }
    {
        match find(&self.files, file) {
            Some(f) => f.pins,
            None => 0,
        }
    }

    /// Where the octets begin that are being placed in the file in pieces, if some are.
    pub(crate) fn begun_of(&self, file: FileNo) -> Option<u64>
        ensures { result ≡ place_begun_in file.0 self.now.files }
    {
        match find(&self.files, file) {
            Some(f) => f.begun,
            None => None,
        }
    }

    /// Adds a file that somebody is about to make.
    fn begin(&mut self, file: FileNo)
        requires next { file.0 ≡ self.old.highest + 1 }
        requires last { file.0 ≤ 4294967294 }
        requires spare { 1 ≤ self.old.spare }
        ensures { self.new ≡ after_take (Take.New file) self.old }
    {
        let _ = self.files.push(MailFile {
            file,
            end: None,
            sealed: false,
            barred: false,
            taken: true,
            begun: None,
            emptied: false,
            pins: 0,
            doomed: false,
        });
        self.highest = file.0;
        self.spare -= 1;
    }

    /// Gives a file back; placing in pieces ends, and what was placed stays. One that was not made is no file any more; its
    /// number stays drawn.
    pub fn release(&mut self, file: FileNo)
        requires taken { (is_taken_in file.0 self.old.files || is_emptied_in file.0 self.old.files) ≡ true }
        ensures files { self.new ≡ record self.old { files = released_in file.0 self.old.files } }
        ensures ends { (number : ℕ) → end_in number self.new.files ≡ end_in number self.old.files }
    {
        self.known_facts();
        if self.end_of(file).is_some() {
            self.change(file, FileChange::GivenBack);
        } else {
            leave_out(&mut self.files, file);
        }
    }

    /// Where the file ends, in octets. None if and only if it isn't there.
    pub fn end_of(&self, file: FileNo) -> Option<u64>
        ensures { result ≡ end_in file.0 self.now.files }
    {
        match find(&self.files, file) {
            Some(f) => f.end,
            None => None,
        }
    }

    /// The file that is there with the least number greater than `after`, or with the least of all. None if and only if
    /// there is none.
    pub fn next_file(&self, after: Option<FileNo>) -> Option<FileNo>
        ensures { result ≡ file_past after self.now.files }
    {
        first_made(&self.files[place_past(&self.files, after)..])
    }

    /// Whether somebody has taken the file, to add to it or to empty it.
    pub fn is_taken(&self, file: FileNo) -> bool
        ensures { result ≡ (is_taken_in file.0 self.now.files || is_emptied_in file.0 self.now.files) }
    {
        match find(&self.files, file) {
            Some(f) => f.taken || f.emptied,
            None => false,
        }
    }

    /// Changes what is known of a file.
    pub(crate) fn change(&mut self, file: FileNo, how: FileChange)
        requires { All (λ f. f.file.0 ≡ file.0 → IsUsedFile f → IsUsedFile (change_of how f)) self.old.files }
        ensures { self.new ≡ record self.old { files = changed_in file.0 (change_of how) self.old.files } }
    {
        change(&mut self.files, file, how);
    }

    /// Forgets a file.
    pub(crate) fn forget(&mut self, file: FileNo)
        ensures { self.new ≡ record self.old { files = without_file file.0 self.old.files } }
    {
        leave_out(&mut self.files, file);
    }
}

/// The files as they are known at first.
fn known(alloc: Global, files: &[FileState]) -> Result<Vec<MailFile>, NoMemory>
    ensures { IfOk result (λ made. made.items ≡ map file_found files.now) }
{
    let mut made = Vec::new(alloc);
    for f in files {
        made.push(MailFile {
            file: f.file,
            end: Some(f.end),
            sealed: f.sealed,
            barred: f.barred,
            taken: false,
            begun: None,
            emptied: false,
            pins: 0,
            doomed: false,
        })?;
    }
    Ok(made)
}

/// The first file that is there.
fn first_made(files: &[MailFile]) -> Option<FileNo>
    ensures { result ≡ option_map (λ f. f.file) (find (λ f. is_some f.end) files.now) }
{
    let file = files.iter().find(|f| f.is_made())?;
    Some(file.file)
}
