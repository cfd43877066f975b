// The folder in memory of a case, and that of the system.
use crate::files::{octets_of, push_paths, put};
use crate::runs::{Run, perform_in};
use crate::streams::Streams;
use crate::trial::Trial;
use crate::trouble::Trouble;
use crate::turns::explore_turns;
use case_text::Report;
use disk_model::{Disk, FileName};
use folder_disk::FolderDisk;
use folder_kept::KeptFolder;
use folder_mem::BareFolder;
use mdbox_base::{NoMemory, Seq};
use os_folder::OsFolder;
use std::alloc::Global;
use std::mem;

/// The program's disk over the files of the current folder of the system.
pub fn system_disk(rt: HostRuntime) -> FolderDisk<KeptFolder<OsFolder>> {
    FolderDisk::of(KeptFolder::of(OsFolder::of(rt), rt.alloc()), rt.alloc())
}

/// The files of a case as the system has them. Each use of them is a process of its own, with the program's disk over them.
#[derive(Drop)]
pub struct CaseFolder {
    alloc: Global,
    folder: BareFolder,
    /// Whether another process has the lock during the next run.
    is_held: bool,
}

impl CaseFolder {
    pub fn empty(alloc: Global) -> CaseFolder {
        CaseFolder {
            alloc,
            folder: BareFolder::empty(alloc),
            is_held: false,
        }
    }

    /// Lets another process have the lock during the next run.
    pub fn hold(&mut self) {
        self.is_held = true;
    }

    /// The folder, which is taken out.
    fn taken(&mut self) -> BareFolder {
        mem::replace(&mut self.folder, BareFolder::empty(self.alloc))
    }

    fn disk(&mut self) -> FolderDisk<KeptFolder<BareFolder>> {
        FolderDisk::of(KeptFolder::of(self.taken(), self.alloc), self.alloc)
    }

    /// Ends the process, and puts the folder back as it leaves it.
    fn end(&mut self, disk: FolderDisk<KeptFolder<BareFolder>>) -> Result<(), NoMemory> {
        self.folder = disk.into_folder().into_folder().kill()?;
        Ok(())
    }

    /// The octets of a file. None if it isn't there.
    pub fn octets(&mut self, name: FileName) -> Result<Option<Vec<u8>>, Trouble> {
        let mut disk = self.disk();
        let octets = octets_of(self.alloc, &mut disk, name);
        self.end(disk)?;
        octets
    }

    /// Makes a file with these octets, and syncs it if that is asked.
    pub fn put(&mut self, name: FileName, octets: &[u8], synced: bool) -> Result<(), Trouble> {
        let mut disk = self.disk();
        let done = put(&mut disk, name, octets, synced);
        self.end(disk)?;
        Ok(done?)
    }

    pub fn remove(&mut self, name: FileName) -> Result<(), Trouble> {
        let mut disk = self.disk();
        let done = disk.remove(name);
        self.end(disk)?;
        Ok(done?)
    }

    pub fn sync(&mut self) -> Result<(), Trouble> {
        let mut disk = self.disk();
        let done = disk.sync_names();
        self.end(disk)?;
        Ok(done?)
    }

    /// Adds a line with the path of each file.
    pub fn push_paths(&mut self, out: &mut String) -> Result<(), Trouble> {
        let mut disk = self.disk();
        let done = push_paths(self.alloc, &mut disk, out);
        self.end(disk)?;
        done
    }

    /// Tells how a run ends if calls of the system go otherwise, or the process ends at one, and what is seen afterwards.
    pub fn explore(&self, trial: Trial<'_>, report: &mut Report) -> Result<(), NoMemory> {
        explore_turns(trial, &self.folder, report)
    }

    /// Does a run, and answers how many calls of the system it made, and its status.
    pub fn perform(&mut self, run: Run<'_>, streams: &mut Streams) -> Result<(u64, u8), NoMemory> {
        let folder = self
            .taken()
            .going(Seq::empty(self.alloc), 0)
            .held(self.is_held);
        let (left, status) = perform_in(self.alloc, folder, run, streams);
        let calls = left.calls();
        self.folder = left.held(false).kill()?;
        self.is_held = false;
        Ok((calls, status))
    }
}
