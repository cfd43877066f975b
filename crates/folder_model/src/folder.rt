// The calls of the system on files.
ghost use Rattle.std.specs.Prelude.{◌≡◌, ◌↔◌, ◌<◌, ◌≤◌, ℕ, List, Option, true, false, length, take, drop, map, string_bytes, IfOk, IsErrOf, OnOk, OnErr};
ghost use Rattle.disk_model.specs.Disk.{written, cut_to};
ghost use Rattle.folder_model.specs.System.{System, ArePathsIn, IsSystem, IsHalfWritten, IsHalfCut, Nothing, PlainFile, AFolder, with_node, with_content, with_new_file, with_synced_file, with_synced_names, with_failed_sync, with_lock};
ghost use Rattle.folder_model.specs.Paths.{IsPath, IsFolderPath};
ghost use Rattle.folder_model.specs.Calls.{Modelled, IfModelled, IfSound, IsLocked, IsDoneOrNot, IsPartlyDone, HasPassed, kind_of_node, done_by};
ghost use Rattle.folder_model.specs.declared.folder.CallError.TheVariants.{Interrupted, Failed};

use mdbox_base::NoMemory;

/// How many files a folder that keeps files open has open, at the most (`folder_kept`). A disk over it lets one fewer have octets that
/// aren't synced (`folder_disk`), so that there is one that may be closed.
pub const MOST_OPEN: usize = 16;

/// What stands at a path.
#[derive(Clone, Copy, Debug, PartialEq, Eq)]
pub enum Kind {
    Nothing,
    /// A plain file, and no link to one.
    File,
    /// A folder, and no link to one.
    Folder,
    /// A link, a device, a socket.
    Other,
}

/// Why a call did nothing, or not all.
#[derive(Clone, Copy, Debug, PartialEq, Eq)]
pub enum CallError {
    /// A signal came before anything was done. The call may be made again.
    Interrupted,
    /// The system refused it, or the device failed, or there was no memory for it.
    Failed,
}

impl From<NoMemory> for CallError {
    ghost from_gives = { λ _ error. error ≡ Failed };

    fn from(_error: NoMemory) -> CallError {
        CallError::Failed
    }
}

/// The calls of the system that a store's disk makes, each as POSIX and the manual pages say
/// (`docs/files-of-the-system.md`). Paths are of the current folder,
/// and of one spelling.
///
/// A folder in memory models what the system holds. The system's own doesn't: there each clause on content is trusted.
pub trait Folder {
    /// An open file. It is closed as it is dropped.
    type File: Drop;

    /// The system's files, as this process got its lock and now. None where they aren't modelled.
    ghost modelled: { Self → Option Modelled };

    /// The systems that its calls have left before, the latest first. A crash or the end of the process may come between two
    /// calls that serve one purpose, so each of them counts.
    ghost past: { Self → List System };

    /// The number of an open file.
    ghost number: { Self.File → ℕ };

    /// Asks for the lock of the current folder's store. False where another process has it. Nobody else changes the files of
    /// the store from then on.
    fn try_lock(&mut self) -> Result<bool, CallError>
        ensures locked { IfOk result (λ locked. locked ≡ true → modelled self.new ≡ done_by with_lock (modelled self.old)) }
        ensures refused { IfOk result (λ locked. locked ≡ false → modelled self.new ≡ modelled self.old) }
        ensures failed { OnErr result (modelled self.new ≡ modelled self.old) }
        ensures passed { HasPassed (modelled self.old) (past self.old) (modelled self.new) (past self.new) };

    /// Passes a short time, until the lock is asked for again.
    fn pause(&mut self)
        ensures same { modelled self.new ≡ modelled self.old }
        ensures still { past self.new ≡ past self.old };

    /// What stands at a path.
    fn look(&mut self, path: &str) -> Result<Kind, CallError>
        requires locked { IsLocked (modelled self.old) }
        requires spelled { IsFolderPath path.now }
        ensures kind { IfOk result (λ kind. IfSound (modelled self.old) (λ s. kind ≡ kind_of_node (s.node path.now))) }
        ensures same { modelled self.new ≡ modelled self.old }
        ensures still { past self.new ≡ past self.old };

    /// The paths of what stands in a folder. Names that aren't text may be left out, and the lock's file may be among them.
    fn paths_in(&mut self, path: &str) -> Result<Vec<String>, CallError>
        requires locked { IsLocked (modelled self.old) }
        requires spelled { IsFolderPath path.now }
        ensures paths { IfOk result (λ paths. IfSound (modelled self.old) (λ s. ArePathsIn s path.now (map string_bytes paths.items))) }
        ensures same { modelled self.new ≡ modelled self.old }
        ensures still { past self.new ≡ past self.old };

    /// Opens the file at a path to read it, and to write it where that is asked for.
    fn open(&mut self, path: &str, to_write: bool) -> Result<Self::File, CallError>
        requires locked { IsLocked (modelled self.old) }
        requires spelled { IsPath path.now }
        ensures file { IfOk result (λ file. IfSound (modelled self.old) (λ s. (n : ℕ) → s.node path.now ≡ PlainFile n → number file ≡ n)) }
        ensures same { modelled self.new ≡ modelled self.old }
        ensures still { past self.new ≡ past self.old };

    /// Makes a file where nothing stands, and opens it to read and write it. Its owner alone may read and write it.
    fn make_new(&mut self, path: &str) -> Result<Self::File, CallError>
        requires locked { IsLocked (modelled self.old) }
        requires spelled { IsPath path.now }
        ensures there { OnOk result (IfSound (modelled self.old) (λ s. s.node path.now ≡ Nothing)) }
        ensures number { IfOk result (λ file. IfModelled (modelled self.old) (λ s. number file ≡ s.count)) }
        ensures made { OnOk result (modelled self.new ≡ done_by (with_new_file path.now) (modelled self.old)) }
        ensures failed { OnErr result (IsDoneOrNot (with_new_file path.now) (modelled self.old) (modelled self.new)) }
        ensures passed { HasPassed (modelled self.old) (past self.old) (modelled self.new) (past self.new) };

    /// An open file's length.
    fn length(&mut self, file: &Self::File) -> Result<u64, CallError>
        requires locked { IsLocked (modelled self.old) }
        ensures length { IfOk result (λ n. IfSound (modelled self.old) (λ s. n ≡ length (s.content (number file.now)).octets)) }
        ensures same { modelled self.new ≡ modelled self.old }
        ensures still { past self.new ≡ past self.old };

    /// Reads octets from an offset on, as many as it wants, and answers how many: none only at the end of the file.
    fn read_some(
        &mut self,
        file: &Self::File,
        offset: u64,
        into: &mut [u8],
    ) -> Result<usize, CallError>
        requires locked { IsLocked (modelled self.old) }
        ensures count { IfOk result (λ n. n ≤ length into.new) }
        ensures octets { IfOk result (λ n. IfSound (modelled self.old) (λ s. take n into.new ≡ take n (drop offset (s.content (number file.now)).octets))) }
        ensures some { IfOk result (λ n. IfSound (modelled self.old) (λ s. 0 < length into.old → offset < length (s.content (number file.now)).octets → 0 < n)) }
        ensures same { modelled self.new ≡ modelled self.old }
        ensures still { past self.new ≡ past self.old };

    /// Writes octets at an offset within the file or at its end, as many as it wants, and answers how many.
    fn write_some(
        &mut self,
        file: &Self::File,
        offset: u64,
        from: &[u8],
    ) -> Result<usize, CallError>
        requires locked { IsLocked (modelled self.old) }
        requires reaches { IfModelled (modelled self.old) (λ s. offset ≤ length (s.content (number file.now)).octets) }
        ensures count { IfOk result (λ n. n ≤ length from.now) }
        ensures wrote { IfOk result (λ n. modelled self.new ≡ done_by (with_content (number file.now) (written offset (take n from.now))) (modelled self.old)) }
        ensures interrupted { IsErrOf result Interrupted → modelled self.new ≡ modelled self.old }
        ensures failed { OnErr result (IsPartlyDone (number file.now) (IsHalfWritten offset (length from.now)) (modelled self.old) (modelled self.new)) }
        ensures passed { HasPassed (modelled self.old) (past self.old) (modelled self.new) (past self.new) };

    /// Shortens the file to this length.
    fn set_length(&mut self, file: &Self::File, end: u64) -> Result<(), CallError>
        requires locked { IsLocked (modelled self.old) }
        requires reaches { IfModelled (modelled self.old) (λ s. end ≤ length (s.content (number file.now)).octets) }
        ensures cut { OnOk result (modelled self.new ≡ done_by (with_content (number file.now) (cut_to end)) (modelled self.old)) }
        ensures failed { OnErr result (IsPartlyDone (number file.now) (IsHalfCut end) (modelled self.old) (modelled self.new)) }
        ensures passed { HasPassed (modelled self.old) (past self.old) (modelled self.new) (past self.new) };

    /// After this a crash leaves the file's octets and its length as they read, unless a sync has failed before: the system
    /// forgets a sync that failed, and the next one answers that all is well. The file has to be open since the first change of
    /// it that isn't synced, for the system tells of octets that it couldn't write only those who have the file open then.
    fn sync(&mut self, file: &Self::File) -> Result<(), CallError>
        requires locked { IsLocked (modelled self.old) }
        ensures synced { OnOk result (modelled self.new ≡ done_by (with_synced_file (number file.now)) (modelled self.old)) }
        ensures failed { OnErr result (IsDoneOrNot with_failed_sync (modelled self.old) (modelled self.new)) }
        ensures passed { HasPassed (modelled self.old) (past self.old) (modelled self.new) (past self.new) };

    /// Takes the name of a file away.
    fn remove(&mut self, path: &str) -> Result<(), CallError>
        requires locked { IsLocked (modelled self.old) }
        requires spelled { IsPath path.now }
        ensures removed { OnOk result (modelled self.new ≡ done_by (with_node path.now Nothing) (modelled self.old)) }
        ensures failed { OnErr result (IsDoneOrNot (with_node path.now Nothing) (modelled self.old) (modelled self.new)) }
        ensures passed { HasPassed (modelled self.old) (past self.old) (modelled self.new) (past self.new) };

    /// Makes a folder. False where something stands there already. Its owner alone may use it.
    fn make_folder(&mut self, path: &str) -> Result<bool, CallError>
        requires locked { IsLocked (modelled self.old) }
        requires spelled { IsPath path.now }
        ensures made { IfOk result (λ made. made ≡ true → modelled self.new ≡ done_by (with_node path.now AFolder) (modelled self.old)) }
        ensures there { IfOk result (λ made. IfSound (modelled self.old) (λ s. made ≡ true ↔ (s.node path.now ≡ Nothing))) }
        ensures kept { IfOk result (λ made. made ≡ false → modelled self.new ≡ modelled self.old) }
        ensures failed { OnErr result (IsDoneOrNot (with_node path.now AFolder) (modelled self.old) (modelled self.new)) }
        ensures passed { HasPassed (modelled self.old) (past self.old) (modelled self.new) (past self.new) };

    /// After this a crash leaves in this folder just the names that stand there, unless a sync has failed before. A link to a
    /// folder is an error.
    fn sync_folder(&mut self, path: &str) -> Result<(), CallError>
        requires locked { IsLocked (modelled self.old) }
        requires spelled { IsFolderPath path.now }
        ensures there { OnOk result (IfSound (modelled self.old) (λ s. s.node path.now ≡ AFolder)) }
        ensures synced { OnOk result (modelled self.new ≡ done_by (with_synced_names path.now) (modelled self.old)) }
        ensures failed { OnErr result (IsDoneOrNot with_failed_sync (modelled self.old) (modelled self.new)) }
        ensures passed { HasPassed (modelled self.old) (past self.old) (modelled self.new) (past self.new) };

    /// Files have numbers below the next one's, and each file reads what a crash may leave of it.
    ghost is_system: { (folder : Self) → IfModelled (modelled folder) IsSystem };
}
