// A folder whose files stay open.
ghost use Rattle.std.specs.Prelude.{◌≡◌, ◌↔◌, ◌<◌, ◌≤◌, ℕ, true, false, length, take, drop, map, string_bytes, IfOk, IsErrOf, OnOk, OnErr};
ghost use Rattle.std.specs.Arc.{arc_value};
ghost use Rattle.disk_model.specs.Disk.{written, cut_to};
ghost use Rattle.folder_model.specs.System.{ArePathsIn, IsHalfWritten, IsHalfCut, Nothing, PlainFile, AFolder, with_node, with_content, with_new_file, with_synced_file, with_synced_names, with_failed_sync, with_lock};
ghost use Rattle.folder_model.specs.Paths.{IsPath, IsFolderPath};
ghost use Rattle.folder_model.specs.Calls.{IfModelled, IfSound, IsLocked, IsDoneOrNot, IsPartlyDone, HasPassed, kind_of_node, done_by};
ghost use Rattle.folder_model.specs.declared.folder.CallError.TheVariants.{Interrupted};
ghost use Rattle.folder_kept.specs.Open.{StandAtPaths, IsNotOpen, IsOpenAs, IsOpenFor, AreMarked, KeepsUnsynced};

use crate::files::{KeptFile, OpenFiles};
use folder_model::{CallError, Folder, Kind};
use std::alloc::Global;

/// A folder that keeps the files open that were opened last, 16 at most, so that the next use of one takes one call.
///
/// A file whose octets aren't synced is never closed before its sync or its removal: the system tells of octets that it couldn't
/// write only those who have the file open then. Where 16 files are open and none is synced, another can't be opened.
#[derive(Drop)]
pub struct KeptFolder<F: Folder> {
    folder: F,
    files: OpenFiles<F::File>,
    ghost kept: { ∥ IfSound (F.Folder.modelled folder) (λ s. StandAtPaths F.Folder.number s files.files.items) ∥₁ },
}

impl<F: Folder + Drop> KeptFolder<F> {
    /// The same folder, none of whose files is open yet.
    pub fn of(folder: F, alloc: Global) -> KeptFolder<F>
        ensures modelled { F.Folder.modelled result.folder ≡ F.Folder.modelled folder }
        ensures past { F.Folder.past result.folder ≡ F.Folder.past folder }
    {
        KeptFolder {
            folder,
            files: OpenFiles::none(alloc),
        }
    }

    /// The folder under it. Each file is closed.
    pub fn into_folder(self) -> F
        ensures { result ≡ self.folder }
    {
        self.folder
    }
}

impl<F: Folder + Drop> Folder for KeptFolder<F> {
    type File = KeptFile<F::File>;

    ghost modelled = { λ kept. F.Folder.modelled kept.folder };

    ghost past = { λ kept. F.Folder.past kept.folder };

    ghost number = { λ file. F.Folder.number (arc_value file.file) };

    fn try_lock(&mut self) -> Result<bool, CallError>
        ensures locked { IfOk result (λ locked. locked ≡ true → F.Folder.modelled self.new.folder ≡ done_by with_lock (F.Folder.modelled self.old.folder)) }
        ensures refused { IfOk result (λ locked. locked ≡ false → F.Folder.modelled self.new.folder ≡ F.Folder.modelled self.old.folder) }
        ensures failed { OnErr result (F.Folder.modelled self.new.folder ≡ F.Folder.modelled self.old.folder) }
        ensures passed { HasPassed (F.Folder.modelled self.old.folder) (F.Folder.past self.old.folder) (F.Folder.modelled self.new.folder) (F.Folder.past self.new.folder) }
        ensures open { self.new.files.files.items ≡ self.old.files.files.items }
    {
        self.folder.try_lock()
    }

    fn pause(&mut self)
        ensures same { F.Folder.modelled self.new.folder ≡ F.Folder.modelled self.old.folder }
        ensures still { F.Folder.past self.new.folder ≡ F.Folder.past self.old.folder }
        ensures open { self.new.files.files.items ≡ self.old.files.files.items }
    {
        self.folder.pause();
    }

    fn look(&mut self, path: &str) -> Result<Kind, CallError>
        requires locked { IsLocked (F.Folder.modelled self.old.folder) }
        requires spelled { IsFolderPath path.now }
        ensures kind { IfOk result (λ kind. IfSound (F.Folder.modelled self.old.folder) (λ s. kind ≡ kind_of_node (s.node path.now))) }
        ensures same { F.Folder.modelled self.new.folder ≡ F.Folder.modelled self.old.folder }
        ensures still { F.Folder.past self.new.folder ≡ F.Folder.past self.old.folder }
        ensures open { self.new.files.files.items ≡ self.old.files.files.items }
    {
        if self.files.has(path) {
            return Ok(Kind::File);
        }
        self.folder.look(path)
    }

    fn paths_in(&mut self, path: &str) -> Result<Vec<String>, CallError>
        requires locked { IsLocked (F.Folder.modelled self.old.folder) }
        requires spelled { IsFolderPath path.now }
        ensures paths { IfOk result (λ paths. IfSound (F.Folder.modelled self.old.folder) (λ s. ArePathsIn s path.now (map string_bytes paths.items))) }
        ensures same { F.Folder.modelled self.new.folder ≡ F.Folder.modelled self.old.folder }
        ensures still { F.Folder.past self.new.folder ≡ F.Folder.past self.old.folder }
        ensures open { self.new.files.files.items ≡ self.old.files.files.items }
    {
        self.folder.paths_in(path)
    }

    fn open(&mut self, path: &str, to_write: bool) -> Result<KeptFile<F::File>, CallError>
        requires locked { IsLocked (F.Folder.modelled self.old.folder) }
        requires spelled { IsPath path.now }
        ensures file { IfOk result (λ file. IfSound (F.Folder.modelled self.old.folder) (λ s. (n : ℕ) → s.node path.now ≡ PlainFile n → F.Folder.number (arc_value file.file) ≡ n)) }
        ensures same { F.Folder.modelled self.new.folder ≡ F.Folder.modelled self.old.folder }
        ensures still { F.Folder.past self.new.folder ≡ F.Folder.past self.old.folder }
        ensures writable { IfOk result (λ file. IsOpenFor path.now to_write file self.new.files.files.items) }
        ensures keeps { KeepsUnsynced (λ _. ⊥) self.old.files.files.items self.new.files.files.items }
    {
        if let Some(file) = self.files.open_at(path, to_write)? {
            return Ok(file);
        }
        self.files.close_synced(path);
        match self.folder.look(path)? {
            Kind::File => {
                let file = self.folder.open(path, to_write)?;
                self.files.keep(path, file, to_write, true)
            }
            _ => Err(CallError::Failed),
        }
    }

    fn make_new(&mut self, path: &str) -> Result<KeptFile<F::File>, CallError>
        requires locked { IsLocked (F.Folder.modelled self.old.folder) }
        requires spelled { IsPath path.now }
        ensures there { OnOk result (IfSound (F.Folder.modelled self.old.folder) (λ s. s.node path.now ≡ Nothing)) }
        ensures number { IfOk result (λ file. IfModelled (F.Folder.modelled self.old.folder) (λ s. F.Folder.number (arc_value file.file) ≡ s.count)) }
        ensures made { OnOk result (F.Folder.modelled self.new.folder ≡ done_by (with_new_file path.now) (F.Folder.modelled self.old.folder)) }
        ensures failed { OnErr result (IsDoneOrNot (with_new_file path.now) (F.Folder.modelled self.old.folder) (F.Folder.modelled self.new.folder)) }
        ensures passed { HasPassed (F.Folder.modelled self.old.folder) (F.Folder.past self.old.folder) (F.Folder.modelled self.new.folder) (F.Folder.past self.new.folder) }
        ensures writable { IfOk result (λ file. IsOpenFor path.now true file self.new.files.files.items) }
        ensures unsynced { IfOk result (λ file. IsOpenAs file.id false self.new.files.files.items) }
        ensures keeps { KeepsUnsynced (λ _. ⊥) self.old.files.files.items self.new.files.files.items }
    {
        if self.files.has(path) {
            return Err(CallError::Failed);
        }
        let file = self.folder.make_new(path)?;
        self.files.keep(path, file, true, false)
    }

    fn length(&mut self, file: &KeptFile<F::File>) -> Result<u64, CallError>
        requires locked { IsLocked (F.Folder.modelled self.old.folder) }
        ensures length { IfOk result (λ n. IfSound (F.Folder.modelled self.old.folder) (λ s. n ≡ length (s.content (F.Folder.number (arc_value file.now.file))).octets)) }
        ensures same { F.Folder.modelled self.new.folder ≡ F.Folder.modelled self.old.folder }
        ensures still { F.Folder.past self.new.folder ≡ F.Folder.past self.old.folder }
        ensures open { self.new.files.files.items ≡ self.old.files.files.items }
    {
        self.folder.length(&file.file)
    }

    fn read_some(
        &mut self,
        file: &KeptFile<F::File>,
        offset: u64,
        into: &mut [u8],
    ) -> Result<usize, CallError>
        requires locked { IsLocked (F.Folder.modelled self.old.folder) }
        ensures count { IfOk result (λ n. n ≤ length into.new) }
        ensures octets { IfOk result (λ n. IfSound (F.Folder.modelled self.old.folder) (λ s. take n into.new ≡ take n (drop offset (s.content (F.Folder.number (arc_value file.now.file))).octets))) }
        ensures some { IfOk result (λ n. IfSound (F.Folder.modelled self.old.folder) (λ s. 0 < length into.old → offset < length (s.content (F.Folder.number (arc_value file.now.file))).octets → 0 < n)) }
        ensures same { F.Folder.modelled self.new.folder ≡ F.Folder.modelled self.old.folder }
        ensures still { F.Folder.past self.new.folder ≡ F.Folder.past self.old.folder }
        ensures open { self.new.files.files.items ≡ self.old.files.files.items }
    {
        self.folder.read_some(&file.file, offset, into)
    }

    fn write_some(
        &mut self,
        file: &KeptFile<F::File>,
        offset: u64,
        from: &[u8],
    ) -> Result<usize, CallError>
        requires locked { IsLocked (F.Folder.modelled self.old.folder) }
        requires reaches { IfModelled (F.Folder.modelled self.old.folder) (λ s. offset ≤ length (s.content (F.Folder.number (arc_value file.now.file))).octets) }
        ensures count { IfOk result (λ n. n ≤ length from.now) }
        ensures wrote { IfOk result (λ n. F.Folder.modelled self.new.folder ≡ done_by (with_content (F.Folder.number (arc_value file.now.file)) (written offset (take n from.now))) (F.Folder.modelled self.old.folder)) }
        ensures interrupted { IsErrOf result Interrupted → F.Folder.modelled self.new.folder ≡ F.Folder.modelled self.old.folder }
        ensures failed { OnErr result (IsPartlyDone (F.Folder.number (arc_value file.now.file)) (IsHalfWritten offset (length from.now)) (F.Folder.modelled self.old.folder) (F.Folder.modelled self.new.folder)) }
        ensures passed { HasPassed (F.Folder.modelled self.old.folder) (F.Folder.past self.old.folder) (F.Folder.modelled self.new.folder) (F.Folder.past self.new.folder) }
        ensures unsynced { OnOk result (IsOpenAs file.now.id false self.new.files.files.items) }
        ensures marked { AreMarked file.now.id false self.new.files.files.items }
        ensures keeps { KeepsUnsynced (λ _. ⊥) self.old.files.files.items self.new.files.files.items }
    {
        if !self.files.note(file.id, false) {
            return Err(CallError::Failed);
        }
        self.folder.write_some(&file.file, offset, from)
    }

    fn set_length(&mut self, file: &KeptFile<F::File>, end: u64) -> Result<(), CallError>
        requires locked { IsLocked (F.Folder.modelled self.old.folder) }
        requires reaches { IfModelled (F.Folder.modelled self.old.folder) (λ s. end ≤ length (s.content (F.Folder.number (arc_value file.now.file))).octets) }
        ensures cut { OnOk result (F.Folder.modelled self.new.folder ≡ done_by (with_content (F.Folder.number (arc_value file.now.file)) (cut_to end)) (F.Folder.modelled self.old.folder)) }
        ensures failed { OnErr result (IsPartlyDone (F.Folder.number (arc_value file.now.file)) (IsHalfCut end) (F.Folder.modelled self.old.folder) (F.Folder.modelled self.new.folder)) }
        ensures passed { HasPassed (F.Folder.modelled self.old.folder) (F.Folder.past self.old.folder) (F.Folder.modelled self.new.folder) (F.Folder.past self.new.folder) }
        ensures unsynced { OnOk result (IsOpenAs file.now.id false self.new.files.files.items) }
        ensures marked { AreMarked file.now.id false self.new.files.files.items }
        ensures keeps { KeepsUnsynced (λ _. ⊥) self.old.files.files.items self.new.files.files.items }
    {
        if !self.files.note(file.id, false) {
            return Err(CallError::Failed);
        }
        self.folder.set_length(&file.file, end)
    }

    fn sync(&mut self, file: &KeptFile<F::File>) -> Result<(), CallError>
        requires locked { IsLocked (F.Folder.modelled self.old.folder) }
        ensures synced { OnOk result (F.Folder.modelled self.new.folder ≡ done_by (with_synced_file (F.Folder.number (arc_value file.now.file))) (F.Folder.modelled self.old.folder)) }
        ensures failed { OnErr result (IsDoneOrNot with_failed_sync (F.Folder.modelled self.old.folder) (F.Folder.modelled self.new.folder)) }
        ensures passed { HasPassed (F.Folder.modelled self.old.folder) (F.Folder.past self.old.folder) (F.Folder.modelled self.new.folder) (F.Folder.past self.new.folder) }
        ensures marked { OnOk result (AreMarked file.now.id true self.new.files.files.items) }
        ensures keeps { KeepsUnsynced (λ one. one.id ≡ file.now.id) self.old.files.files.items self.new.files.files.items }
        ensures open { OnErr result (self.new.files.files.items ≡ self.old.files.files.items) }
    {
        self.folder.sync(&file.file)?;
        let _ = self.files.note(file.id, true);
        Ok(())
    }

    fn remove(&mut self, path: &str) -> Result<(), CallError>
        requires locked { IsLocked (F.Folder.modelled self.old.folder) }
        requires spelled { IsPath path.now }
        ensures removed { OnOk result (F.Folder.modelled self.new.folder ≡ done_by (with_node path.now Nothing) (F.Folder.modelled self.old.folder)) }
        ensures failed { OnErr result (IsDoneOrNot (with_node path.now Nothing) (F.Folder.modelled self.old.folder) (F.Folder.modelled self.new.folder)) }
        ensures passed { HasPassed (F.Folder.modelled self.old.folder) (F.Folder.past self.old.folder) (F.Folder.modelled self.new.folder) (F.Folder.past self.new.folder) }
        ensures closed { IsNotOpen path.now self.new.files.files.items }
        ensures keeps { KeepsUnsynced (λ one. string_bytes one.path ≡ path.now) self.old.files.files.items self.new.files.files.items }
    {
        self.files.close(path);
        self.folder.remove(path)
    }

    fn make_folder(&mut self, path: &str) -> Result<bool, CallError>
        requires locked { IsLocked (F.Folder.modelled self.old.folder) }
        requires spelled { IsPath path.now }
        ensures made { IfOk result (λ made. made ≡ true → F.Folder.modelled self.new.folder ≡ done_by (with_node path.now AFolder) (F.Folder.modelled self.old.folder)) }
        ensures there { IfOk result (λ made. IfSound (F.Folder.modelled self.old.folder) (λ s. made ≡ true ↔ (s.node path.now ≡ Nothing))) }
        ensures kept { IfOk result (λ made. made ≡ false → F.Folder.modelled self.new.folder ≡ F.Folder.modelled self.old.folder) }
        ensures failed { OnErr result (IsDoneOrNot (with_node path.now AFolder) (F.Folder.modelled self.old.folder) (F.Folder.modelled self.new.folder)) }
        ensures passed { HasPassed (F.Folder.modelled self.old.folder) (F.Folder.past self.old.folder) (F.Folder.modelled self.new.folder) (F.Folder.past self.new.folder) }
        ensures open { self.new.files.files.items ≡ self.old.files.files.items }
    {
        if self.files.has(path) {
            return Ok(false);
        }
        self.folder.make_folder(path)
    }

    fn sync_folder(&mut self, path: &str) -> Result<(), CallError>
        requires locked { IsLocked (F.Folder.modelled self.old.folder) }
        requires spelled { IsFolderPath path.now }
        ensures there { OnOk result (IfSound (F.Folder.modelled self.old.folder) (λ s. s.node path.now ≡ AFolder)) }
        ensures synced { OnOk result (F.Folder.modelled self.new.folder ≡ done_by (with_synced_names path.now) (F.Folder.modelled self.old.folder)) }
        ensures failed { OnErr result (IsDoneOrNot with_failed_sync (F.Folder.modelled self.old.folder) (F.Folder.modelled self.new.folder)) }
        ensures passed { HasPassed (F.Folder.modelled self.old.folder) (F.Folder.past self.old.folder) (F.Folder.modelled self.new.folder) (F.Folder.past self.new.folder) }
        ensures open { self.new.files.files.items ≡ self.old.files.files.items }
    {
        self.folder.sync_folder(path)
    }

    ghost is_system = { λ kept. F.Folder.is_system kept.folder };
}
