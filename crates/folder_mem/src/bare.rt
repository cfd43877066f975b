// A folder in memory of which nothing is modelled.
ghost use Rattle.std.specs.Prelude.{None, [], ◌≡◌, ◌≤◌, length, IfOk};

use crate::crash::Crash;
use crate::folder::{MemFile, MemFolder};
use crate::note::Change;
use crate::plan::Turn;
use folder_model::{CallError, Folder, Kind};
use mdbox_base::{NoMemory, Octets, Seq};
use std::alloc::Global;

/// A folder in memory of which nothing is modelled, as of the system's own, so that who uses it has no premise to show. For tests.
#[derive(Drop)]
pub struct BareFolder {
    folder: MemFolder,
    /// The numbers of the calls that read or write, and so may do less.
    partial: Vec<u64>,
    /// The numbers of the calls that may change something.
    changing: Vec<u64>,
}

impl BareFolder {
    pub fn empty(alloc: Global) -> BareFolder {
        BareFolder::of(MemFolder::empty(alloc))
    }

    /// The same folder, whose calls go so, by their numbers, counted from 1 after this call. All from `end` on are refused, as if the
    /// process had ended; 0 for none.
    pub fn going(self, turns: Seq<(u64, Turn)>, end: u64) -> BareFolder {
        BareFolder::of(self.folder.going(turns).ending(end))
    }

    /// How many calls were made since they were counted from 1.
    pub fn calls(&self) -> u64 {
        self.folder.calls()
    }

    /// The same folder, of which another process has the lock, or none.
    pub fn held(self, is_held: bool) -> BareFolder {
        BareFolder::of(self.folder.held(is_held))
    }

    /// What a new process finds after this one has ended.
    pub fn kill(self) -> Result<BareFolder, NoMemory> {
        Ok(BareFolder::of(self.folder.kill()?))
    }

    /// What a new process finds after a crash, by what the crash leaves of each change that isn't durable.
    pub fn crash(&self) -> Result<Crash, NoMemory> {
        Crash::of(self.folder.alloc, &self.folder.changes)
    }

    /// All that was done to it, as octets: folders to which the same was done are the same.
    pub fn record(&self) -> Result<Octets, NoMemory> {
        let mut record = Octets::empty(self.folder.alloc);
        for change in &self.folder.changes {
            change.push_record(&mut record)?;
        }
        Ok(record)
    }

    /// Whether no sync has failed since it was empty, or since a crash.
    pub fn is_sound(&self) -> bool {
        !self
            .folder
            .changes
            .iter()
            .any(|change| matches!(change, Change::SyncFailed))
    }

    /// The numbers of the calls since then that read or wrote, and so may do less.
    pub fn partial(&self) -> &[u64] {
        &self.partial
    }

    /// The numbers of the calls since then that may have changed something.
    pub fn changing(&self) -> &[u64] {
        &self.changing
    }

    pub(crate) fn of(folder: MemFolder) -> BareFolder {
        let alloc = folder.alloc;
        BareFolder {
            folder,
            partial: Vec::new(alloc),
            changing: Vec::new(alloc),
        }
    }

    /// Notes that the next call may change something.
    fn changes(&mut self) -> Result<(), CallError> {
        noted(&mut self.changing, self.folder.calls())
    }

    /// Notes that the next call may do less.
    fn parts(&mut self) -> Result<(), CallError> {
        noted(&mut self.partial, self.folder.calls())
    }
}

impl Folder for BareFolder {
    type File = MemFile;

    ghost modelled = { λ _. None };

    ghost past = { λ _. [] };

    ghost number = { λ _. 0 };

    fn try_lock(&mut self) -> Result<bool, CallError> {
        self.changes()?;
        self.folder.try_lock()
    }

    fn pause(&mut self) {
        self.folder.pause();
    }

    fn look(&mut self, path: &str) -> Result<Kind, CallError> {
        self.folder.look(path)
    }

    fn paths_in(&mut self, path: &str) -> Result<Vec<String>, CallError> {
        self.folder.paths_in(path)
    }

    fn open(&mut self, path: &str, to_write: bool) -> Result<MemFile, CallError> {
        self.folder.open(path, to_write)
    }

    fn make_new(&mut self, path: &str) -> Result<MemFile, CallError> {
        self.changes()?;
        self.folder.make_new(path)
    }

    fn length(&mut self, file: &MemFile) -> Result<u64, CallError> {
        self.folder.length(file)
    }

    fn read_some(
        &mut self,
        file: &MemFile,
        offset: u64,
        into: &mut [u8],
    ) -> Result<usize, CallError> {
        self.parts()?;
        self.folder.read_some(file, offset, into)
    }

    /// A write past the file's end fails.
    fn write_some(&mut self, file: &MemFile, offset: u64, from: &[u8]) -> Result<usize, CallError> {
        self.parts()?;
        self.changes()?;
        if self.folder.reaches(file, offset)? {
            self.folder.write_some(file, offset, from)
        } else {
            Err(CallError::Failed)
        }
    }

    fn set_length(&mut self, file: &MemFile, end: u64) -> Result<(), CallError> {
        self.changes()?;
        self.folder.set_length(file, end)
    }

    fn sync(&mut self, file: &MemFile) -> Result<(), CallError> {
        self.changes()?;
        self.folder.sync(file)
    }

    fn remove(&mut self, path: &str) -> Result<(), CallError> {
        self.changes()?;
        self.folder.remove(path)
    }

    fn make_folder(&mut self, path: &str) -> Result<bool, CallError> {
        self.changes()?;
        self.folder.make_folder(path)
    }

    fn sync_folder(&mut self, path: &str) -> Result<(), CallError> {
        self.changes()?;
        self.folder.sync_folder(path)
    }

    ghost is_system = { λ _. tt };
}

/// Notes the call after so many.
fn noted(list: &mut Vec<u64>, calls: u64) -> Result<(), CallError> {
    match list.push(calls.saturating_add(1)) {
        Ok(()) => Ok(()),
        Err(_) => Err(CallError::Failed),
    }
}
