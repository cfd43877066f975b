// The folders in which names have changed since the last sync of names.
ghost use Rattle.std.specs.Prelude.{◌≡◌, ◌≢◌, [], true, false};
ghost use Rattle.folder_disk.specs.Changed.{IsToSync, KeepsToSync};
ghost use Rattle.folder_disk.specs.Folders.{folder_text};

use crate::folder_name::FolderName;
use std::alloc::Global;

/// How many folders are noted one by one.
const MOST: usize = 64;

/// The folders in which a name may have changed since the last sync of names.
#[derive(Drop)]
pub(crate) struct Changed {
    pub(crate) folders: Vec<FolderName>,
    /// Whether it may be any folder: an earlier process may have left names that aren't durable, and more than 64 folders count as
    /// all.
    pub(crate) is_all: bool,
}

impl Changed {
    /// All folders.
    pub(crate) fn all(alloc: Global) -> Changed
        ensures { result.is_all ≡ true }
    {
        Changed {
            folders: Vec::new(alloc),
            is_all: true,
        }
    }

    /// Notes all folders.
    pub(crate) fn note_all(&mut self)
        ensures { self.new.is_all ≡ true }
    {
        self.is_all = true;
    }

    /// Notes a folder. Without memory all are noted.
    pub(crate) fn note(&mut self, name: FolderName)
        ensures noted { IsToSync self.new (folder_text name) }
        ensures keeps { KeepsToSync self.old self.new }
    {
        if self.has(name) {
            return;
        }
        if self.folders.len() >= MOST || self.folders.push(name).is_err() {
            self.is_all = true;
        }
    }

    /// Notes a folder, if names in it were changed.
    pub(crate) fn note_if(&mut self, is_changed: bool, name: FolderName)
        ensures noted { is_changed ≡ true → IsToSync self.new (folder_text name) }
        ensures keeps { KeepsToSync self.old self.new }
    {
        if is_changed {
            self.note(name);
        }
    }

    /// Whether a folder is noted.
    pub(crate) fn has(&self, name: FolderName) -> bool
        ensures noted { result ≡ true → IsToSync self.now (folder_text name) }
    {
        self.is_all || self.folders.iter().any(|folder| *folder == name)
    }

    /// No folder is noted any more.
    pub(crate) fn clear(&mut self)
        ensures { (self.new.is_all ≡ false) × (self.new.folders.items ≡ []) }
    {
        self.folders.clear();
        self.is_all = false;
    }
}
