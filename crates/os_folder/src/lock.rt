// The file whose lock is that of the store.
use std::fs::{self, File, OpenOptions};
use std::io::{self, ErrorKind};
use std::os::unix::fs::{MetadataExt, OpenOptionsExt};

/// The file whose lock is that of the store.
pub(crate) const LOCK: &str = "mdbox.lock";

/// The current folder.
const HERE: &str = ".";

/// Files that are made can be read and written by their owner alone.
pub(crate) const FILE_MODE: u32 = 0o600;

/// What is locked: the lock's file; or the folder itself, where the file isn't there and none can be made, since the file system is
/// mounted read-only.
#[derive(Drop)]
pub(crate) struct LockFile {
    pub(crate) file: File,
    /// Whether nothing stood there before.
    pub(crate) is_new: bool,
    /// Whether it is the folder.
    is_folder: bool,
}

impl LockFile {
    /// What stood there before.
    fn found(file: File) -> LockFile {
        LockFile {
            file,
            is_new: false,
            is_folder: false,
        }
    }

    /// Where it was opened.
    pub(crate) fn path(&self) -> &'static str {
        if self.is_folder { HERE } else { LOCK }
    }
}

/// Opens what is to be locked: for writing, or else, where this user may not write it, for reading.
pub(crate) fn lock_file(rt: &HostRuntime) -> io::Result<LockFile> {
    match OpenOptions::new().write(true).open(rt, LOCK) {
        Ok(file) => Ok(LockFile::found(file)),
        Err(error) if error.kind() == ErrorKind::NotFound => new_lock_file(rt),
        Err(error) => match File::open(rt, LOCK) {
            Ok(file) if is_not_to_be_written(error.kind()) => Ok(LockFile::found(file)),
            _ => Err(error),
        },
    }
}

/// Makes the lock's file.
fn new_lock_file(rt: &HostRuntime) -> io::Result<LockFile> {
    match OpenOptions::new()
        .write(true)
        .create(true)
        .mode(FILE_MODE)
        .open(rt, LOCK)
    {
        Ok(file) => Ok(LockFile {
            file,
            is_new: true,
            is_folder: false,
        }),
        Err(error) if error.kind() == ErrorKind::ReadOnlyFilesystem => Ok(LockFile {
            file: File::open(rt, HERE)?,
            is_new: false,
            is_folder: true,
        }),
        Err(error) => Err(error),
    }
}

/// Whether an error says that a file may not be written.
fn is_not_to_be_written(kind: ErrorKind) -> bool {
    matches!(
        kind,
        ErrorKind::PermissionDenied | ErrorKind::ReadOnlyFilesystem
    )
}

/// Whether what was opened still stands at its path. Who has the lock may have removed the lock's file since it was opened.
pub(crate) fn is_there(rt: &HostRuntime, opened: &LockFile) -> io::Result<bool> {
    let own = opened.file.metadata()?;
    match fs::metadata(rt, opened.path()) {
        Ok(there) => Ok(there.dev() == own.dev() && there.ino() == own.ino()),
        Err(error) if error.kind() == ErrorKind::NotFound => Ok(false),
        Err(error) => Err(error),
    }
}

/// The user to whom the lock's file belongs.
pub(crate) fn owner_of_lock(rt: &HostRuntime) -> io::Result<u32> {
    Ok(fs::metadata(rt, LOCK)?.uid())
}
