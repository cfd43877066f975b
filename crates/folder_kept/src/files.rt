// Files that stay open.
ghost use Rattle.std.specs.Prelude.{◌≡◌, ◌≢◌, ◌<◌, ◌≤◌, ◌⊎◌, ◌++◌, ◌∷◌, [], true, false, length, vec_len, All, Contains, IfOk, IfSome, IfNone, OnOk, OnErr, string_bytes};
ghost use Rattle.std.specs.List.{HoldsAt};
ghost use Rattle.std.specs.Arc.{arc_value};
ghost use Rattle.folder_model.specs.Limits.{most_open};
ghost use Rattle.folder_kept.specs.Open.{IsOpenAt, IsNotOpen, IsKeptAt, IsOpenAs, IsOpenFor, AreAmong, AreMore, AreMarked, HaveOwnIds, KeepsUnsynced};

use folder_model::{CallError, MOST_OPEN};
use std::alloc::Global;
use std::sync::Arc;

/// An open file that a folder may keep open beside its user.
#[derive(Drop)]
pub struct KeptFile<T: Drop> {
    pub(crate) file: Arc<T>,
    /// Tells it from each other file that the folder has opened.
    pub(crate) id: u64,
}

impl<T: Drop> KeptFile<T> {
    fn of(alloc: Global, file: T, id: u64) -> Result<KeptFile<T>, CallError>
        ensures { IfOk result (λ kept. (arc_value kept.file ≡ file) × (kept.id ≡ id)) }
    {
        match Arc::new(alloc, file) {
            Ok(file) => Ok(KeptFile { file, id }),
            Err(_) => Err(CallError::Failed),
        }
    }

    /// The same file once more.
    fn again(file: &Arc<T>, id: u64) -> Result<KeptFile<T>, CallError>
        ensures { IfOk result (λ kept. (arc_value kept.file ≡ arc_value file.now) × (kept.id ≡ id)) }
    {
        match file.clone() {
            Ok(file) => Ok(KeptFile { file, id }),
            Err(_) => Err(CallError::Failed),
        }
    }
}

/// An open file, by the path at which it stands.
#[derive(Drop)]
pub(crate) struct OpenFile<T: Drop> {
    path: String,
    file: Arc<T>,
    id: u64,
    is_to_write: bool,
    /// Whether no octets were written since its last sync, or since it was opened.
    is_synced: bool,
}

impl<T: Drop> OpenFile<T> {
    fn of(
        alloc: Global,
        path: &str,
        kept: &KeptFile<T>,
        is_to_write: bool,
        is_synced: bool,
    ) -> Result<OpenFile<T>, CallError>
        ensures path { IfOk result (λ opened. string_bytes opened.path ≡ path.now) }
        ensures file { IfOk result (λ opened. arc_value opened.file ≡ arc_value kept.now.file) }
        ensures marks { IfOk result (λ opened. (opened.id ≡ kept.now.id) × (opened.is_synced ≡ is_synced)) }
        ensures writable { IfOk result (λ opened. opened.is_to_write ≡ is_to_write) }
    {
        let KeptFile { file, id } = KeptFile::again(&kept.file, kept.id)?;
        match String::from_str(alloc, path) {
            Ok(path) => Ok(OpenFile {
                path,
                file,
                id,
                is_to_write,
                is_synced,
            }),
            Err(_) => Err(CallError::Failed),
        }
    }
}

/// The files that were opened last, the latest at the end.
#[derive(Drop)]
pub(crate) struct OpenFiles<T: Drop> {
    alloc: Global,
    files: Vec<OpenFile<T>>,
    /// Above the number of each file that was opened.
    next_id: u64,
    ghost few: { vec_len files ≤ most_open },
    ghost apart: { HaveOwnIds next_id files.items },
}

impl<T: Drop> OpenFiles<T> {
    pub(crate) fn none(alloc: Global) -> OpenFiles<T>
        ensures { result.files.items ≡ [] }
    {
        OpenFiles {
            alloc,
            files: Vec::new(alloc),
            next_id: 0,
        }
    }

    /// Where the file at a path is.
    fn place(&self, path: &str) -> Option<usize>
        ensures some { IfSome result (λ at. (at < length self.now.files.items) × HoldsAt (λ file. string_bytes file.path ≡ path.now) self.now.files.items at) }
        ensures none { IfNone result (IsNotOpen path.now self.now.files.items) }
    {
        self.files
            .iter()
            .position(|file| file.path.as_str() == path)
    }

    /// Where the file with a number is.
    fn place_of(&self, id: u64) -> Option<usize>
        ensures some { IfSome result (λ at. (at < length self.now.files.items) × HoldsAt (λ file. file.id ≡ id) self.now.files.items at) }
        ensures none { IfNone result (All (λ file. file.id ≢ id) self.now.files.items) }
    {
        self.files.iter().position(|file| file.id == id)
    }

    /// Where the first of those is that are synced.
    fn first_synced(&self) -> Option<usize>
        ensures some { IfSome result (λ at. (at < length self.now.files.items) × HoldsAt (λ file. file.is_synced ≡ true) self.now.files.items at) }
        ensures none { IfNone result (All (λ file. file.is_synced ≡ false) self.now.files.items) }
    {
        self.files.iter().position(|file| file.is_synced)
    }

    /// Whether the file at a path is open.
    pub(crate) fn has(&self, path: &str) -> bool
        ensures open { result ≡ true → IsOpenAt path.now self.now.files.items }
        ensures not_open { result ≡ false → IsNotOpen path.now self.now.files.items }
    {
        match self.place(path) {
            Some(_) => true,
            None => false,
        }
    }

    /// The file at a path, if it is open for this use.
    pub(crate) fn open_at(
        &self,
        path: &str,
        to_write: bool,
    ) -> Result<Option<KeptFile<T>>, CallError>
        ensures found { IfOk result (λ found. IfSome found (λ kept. IsKeptAt path.now (arc_value kept.file) self.now.files.items)) }
        ensures writable { IfOk result (λ found. IfSome found (λ kept. IsOpenFor path.now to_write kept self.now.files.items)) }
    {
        let Some(at) = self.place(path) else {
            return Ok(None);
        };
        let found = &self.files[at];
        if to_write && !found.is_to_write {
            return Ok(None);
        }
        Ok(Some(KeptFile::again(&found.file, found.id)?))
    }

    /// Keeps a file open. Where there are too many, the one that was opened first is closed, of those that are synced. An error where
    /// there is none.
    pub(crate) fn keep(
        &mut self,
        path: &str,
        file: T,
        is_to_write: bool,
        is_synced: bool,
    ) -> Result<KeptFile<T>, CallError>
        ensures file { IfOk result (λ kept. arc_value kept.file ≡ file) }
        ensures open { IfOk result (λ kept. IsOpenAs kept.id is_synced self.new.files.items) }
        ensures writable { IfOk result (λ kept. IsOpenFor path.now is_to_write kept self.new.files.items) }
        ensures more { AreMore path.now file self.old.files.items self.new.files.items }
        ensures keeps { KeepsUnsynced (λ _. ⊥) self.old.files.items self.new.files.items }
    {
        self.make_place()?;
        let Some(next_id) = self.next_id.checked_add(1) else {
            return Err(CallError::Failed);
        };
        let kept = KeptFile::of(self.alloc, file, self.next_id)?;
        let opened = OpenFile::of(self.alloc, path, &kept, is_to_write, is_synced)?;
        self.next_id = next_id;
        self.add(opened)?;
        Ok(kept)
    }

    /// Adds a file at the end, whose number is above that of each other.
    fn add(&mut self, opened: OpenFile<T>) -> Result<(), CallError>
        requires place { vec_len self.old.files < most_open }
        requires id { opened.id < self.old.next_id }
        requires above { All (λ file. file.id < opened.id) self.old.files.items }
        ensures ok { OnOk result (self.new.files.items ≡ self.old.files.items ++ opened ∷ []) }
        ensures err { OnErr result (self.new.files.items ≡ self.old.files.items) }
    {
        match self.files.push(opened) {
            Ok(()) => Ok(()),
            Err(_) => Err(CallError::Failed),
        }
    }

    /// Closes a file that is synced, the one that was opened first, if there are too many for one more.
    #[tactic(auto, using(crate::proofs::OpenLemmas::among_same))]
    fn make_place(&mut self) -> Result<(), CallError>
        ensures place { OnOk result (vec_len self.new.files < most_open) }
        ensures full { OnErr result ((vec_len self.old.files ≡ most_open) × All (λ file. file.is_synced ≡ false) self.old.files.items) }
        ensures same { AreAmong self.old.files.items self.new.files.items }
        ensures keeps { KeepsUnsynced (λ _. ⊥) self.old.files.items self.new.files.items }
    {
        if self.files.len() < MOST_OPEN {
            return Ok(());
        }
        match self.first_synced() {
            Some(at) => {
                let _ = self.files.remove(at);
                Ok(())
            }
            None => Err(CallError::Failed),
        }
    }

    /// Closes the file at a path, if it is open.
    pub(crate) fn close(&mut self, path: &str)
        ensures closed { IsNotOpen path.now self.new.files.items }
        ensures same { AreAmong self.old.files.items self.new.files.items }
        ensures keeps { KeepsUnsynced (λ file. string_bytes file.path ≡ path.now) self.old.files.items self.new.files.items }
    {
        self.files.retain(|file| file.path.as_str() != path);
    }

    /// Closes the file at a path, if it is open and synced.
    pub(crate) fn close_synced(&mut self, path: &str)
        ensures same { AreAmong self.old.files.items self.new.files.items }
        ensures keeps { KeepsUnsynced (λ _. ⊥) self.old.files.items self.new.files.items }
    {
        self.files
            .retain(|file| !file.is_synced || file.path.as_str() != path);
    }

    /// Notes whether a file that is open is synced. False where it isn't open any more.
    #[tactic(auto, using(crate::proofs::OpenLemmas::among_same))]
    pub(crate) fn note(&mut self, id: u64, is_synced: bool) -> bool
        ensures noted { result ≡ true → IsOpenAs id is_synced self.new.files.items }
        ensures marked { AreMarked id is_synced self.new.files.items }
        ensures others { All (λ file. file.id ≢ id → Contains self.old.files.items file) self.new.files.items }
        ensures same { AreAmong self.old.files.items self.new.files.items }
        ensures keeps { KeepsUnsynced (λ file. file.id ≡ id) self.old.files.items self.new.files.items }
        ensures keeps_all { is_synced ≡ false → KeepsUnsynced (λ _. ⊥) self.old.files.items self.new.files.items }
    {
        match self.place_of(id) {
            Some(at) => {
                self.files[at].is_synced = is_synced;
                true
            }
            None => false,
        }
    }
}
