// The system's files of the current folder.
ghost use Rattle.std.specs.Prelude.{◌≡◌, ◌≤◌, None, Ok, Err, [], true, false, length, IsSome, IfOk, IfErr, OnErr};
ghost use Rattle.std.specs.IoError.{error_kind};
ghost use Rattle.os_folder.specs.Answers.{call_error};

use crate::answers::{error_of, kind_told, made_told, paths_told};
use crate::failure::{Cause, Failure};
use crate::lock::{FILE_MODE, LOCK, LockFile, is_there, lock_file, owner_of_lock};
use folder_model::{CallError, Folder, Kind};
use std::alloc::Global;
use std::fs::{DirBuilder, File, Metadata, OpenOptions, TryLockError};
use std::io::{self, ErrorKind};
use std::os::unix::fs::{DirBuilderExt, FileExt, OpenOptionsExt};
use std::time::Duration;
use std::{fs, thread};

/// Folders that are made can be used by their owner alone.
const FOLDER_MODE: u32 = 0o700;

/// How many milliseconds pass until the lock is asked for again.
const PAUSE: u64 = 10;

/// The system's files of the current folder. They aren't modelled: that each call does what `Folder` says is trusted.
///
/// Each method is a call of the system and what its answer means. Nothing is kept but the lock, which is free once this is
/// dropped, and what failed last.
#[derive(Drop)]
pub struct OsFolder {
    rt: HostRuntime,
    /// The open file by which this process has the lock.
    lock: Option<File>,
    /// Whether this process has made the lock's file.
    has_made_lock: bool,
    /// The last call that failed; or the last look, if it found neither a file nor a folder.
    failure: Option<Failure>,
}

/// An open file.
#[derive(Drop)]
pub struct OsFile {
    file: File,
    /// Where it was opened.
    path: String,
}

impl OsFolder {
    /// The current folder. Nothing is asked of the system.
    pub fn of(rt: HostRuntime) -> OsFolder
        ensures { result.lock ≡ None }
    {
        OsFolder {
            rt,
            lock: None,
            has_made_lock: false,
            failure: None,
        }
    }

    /// The call that failed last.
    pub fn failure(&self) -> Option<&Failure> {
        self.failure.as_ref()
    }

    /// Lets the lock go. Where this process has made the lock's file it is removed before: for a folder that has no store.
    pub fn leave(self) {
        if self.has_made_lock && self.lock.is_some() {
            let _ = fs::remove_file(&self.rt, LOCK);
        }
    }

    /// Notes why a call at this path failed.
    fn note(&mut self, path: &str, cause: Cause)
        ensures held { self.new.lock ≡ self.old.lock }
    {
        let path = match String::from_str(self.rt.alloc(), path) {
            Ok(path) => Some(path),
            Err(_) => None,
        };
        self.failure = Some(Failure { path, cause });
    }

    /// An answer as it is. An error is noted, unless it says that the call may be made again.
    fn told<T: Drop>(&mut self, path: &str, answer: io::Result<T>) -> Result<T, CallError>
        ensures ok { IfOk answer (λ value. result ≡ Ok value) }
        ensures err { IfErr answer (λ error. result ≡ Err (call_error (error_kind error))) }
        ensures held { self.new.lock ≡ self.old.lock }
    {
        match answer {
            Ok(value) => Ok(value),
            Err(error) => {
                if error.kind() != ErrorKind::Interrupted {
                    self.note(path, Cause::System(error));
                }
                Err(error_of(error))
            }
        }
    }

    /// Notes what a look found, if it is neither a file nor a folder.
    fn note_look(&mut self, path: &str, answer: &io::Result<Metadata>)
        ensures held { self.new.lock ≡ self.old.lock }
    {
        match answer {
            Ok(found) if found.is_symlink() => self.note(path, Cause::Link),
            Ok(found) if !found.is_file() && !found.is_dir() => self.note(path, Cause::Other),
            _ => self.forget_look(),
        }
    }

    /// Forgets what a look found.
    fn forget_look(&mut self)
        ensures held { self.new.lock ≡ self.old.lock }
    {
        if let Some(
            Failure {
                cause: Cause::Link | Cause::Other,
                ..
            },
        ) = &self.failure
        {
            self.failure = None;
        }
    }

    /// Notes why the lock's file couldn't be opened.
    fn note_lock(&mut self, error: io::Error)
        ensures held { self.new.lock ≡ self.old.lock }
    {
        let cause = match owner_of_lock(&self.rt) {
            Ok(user) if error.kind() == ErrorKind::PermissionDenied => Cause::Owned(error, user),
            _ => Cause::System(error),
        };
        self.note(LOCK, cause);
    }

    /// Asks for the lock of what was opened.
    fn lock_by(&mut self, opened: LockFile) -> Result<bool, CallError>
        ensures held { IfOk result (λ locked. locked ≡ true → IsSome self.new.lock) }
        ensures refused { IfOk result (λ locked. locked ≡ false → self.new.lock ≡ self.old.lock) }
        ensures failed { OnErr result (self.new.lock ≡ self.old.lock) }
    {
        match opened.file.try_lock() {
            Ok(()) => {}
            Err(TryLockError::WouldBlock) => {
                self.note(opened.path(), Cause::Held);
                return Ok(false);
            }
            Err(TryLockError::Error(error)) => return self.told(opened.path(), Err(error)),
        }
        let there = is_there(&self.rt, &opened);
        if !self.told(opened.path(), there)? {
            return Ok(false);
        }
        self.has_made_lock = opened.is_new;
        self.lock = Some(opened.file);
        Ok(true)
    }
}

impl Folder for OsFolder {
    type File = OsFile;

    ghost modelled = { λ _. None };

    ghost past = { λ _. [] };

    ghost number = { λ _. 0 };

    fn try_lock(&mut self) -> Result<bool, CallError>
        ensures held { IfOk result (λ locked. locked ≡ true → IsSome self.new.lock) }
        ensures refused { IfOk result (λ locked. locked ≡ false → self.new.lock ≡ self.old.lock) }
        ensures failed { OnErr result (self.new.lock ≡ self.old.lock) }
    {
        match lock_file(&self.rt) {
            Ok(opened) => self.lock_by(opened),
            Err(error) => {
                self.note_lock(error);
                Err(error_of(error))
            }
        }
    }

    fn pause(&mut self)
        ensures held { self.new.lock ≡ self.old.lock }
    {
        thread::sleep(&self.rt, Duration::from_millis(PAUSE));
    }

    fn look(&mut self, path: &str) -> Result<Kind, CallError>
        ensures held { self.new.lock ≡ self.old.lock }
    {
        let answer = fs::symlink_metadata(&self.rt, path);
        self.note_look(path, &answer);
        self.told(path, kind_told(answer))
    }

    fn paths_in(&mut self, path: &str) -> Result<Vec<String>, CallError>
        ensures held { self.new.lock ≡ self.old.lock }
    {
        let answer = paths_there(&self.rt, path);
        let told = paths_told(self.rt.alloc(), answer);
        self.told(path, told)
    }

    fn open(&mut self, path: &str, to_write: bool) -> Result<OsFile, CallError>
        ensures held { self.new.lock ≡ self.old.lock }
    {
        let name = name_of(self.rt.alloc(), path)?;
        let answer = OpenOptions::new()
            .read(true)
            .write(to_write)
            .open(&self.rt, path);
        Ok(OsFile {
            file: self.told(path, answer)?,
            path: name,
        })
    }

    fn make_new(&mut self, path: &str) -> Result<OsFile, CallError>
        ensures held { self.new.lock ≡ self.old.lock }
    {
        let name = name_of(self.rt.alloc(), path)?;
        let answer = OpenOptions::new()
            .read(true)
            .write(true)
            .create_new(true)
            .mode(FILE_MODE)
            .open(&self.rt, path);
        Ok(OsFile {
            file: self.told(path, answer)?,
            path: name,
        })
    }

    fn length(&mut self, file: &OsFile) -> Result<u64, CallError>
        ensures held { self.new.lock ≡ self.old.lock }
    {
        let answer = file.file.metadata();
        Ok(self.told(file.path.as_str(), answer)?.len())
    }

    fn read_some(&mut self, file: &OsFile, offset: u64, into: &mut [u8]) -> Result<usize, CallError>
        ensures count { IfOk result (λ n. n ≤ length into.new) }
        ensures held { self.new.lock ≡ self.old.lock }
    {
        let answer = file.file.read_at(into, offset);
        self.told(file.path.as_str(), answer)
    }

    fn write_some(&mut self, file: &OsFile, offset: u64, from: &[u8]) -> Result<usize, CallError>
        ensures count { IfOk result (λ n. n ≤ length from.now) }
        ensures held { self.new.lock ≡ self.old.lock }
    {
        let answer = file.file.write_at(from, offset);
        self.told(file.path.as_str(), answer)
    }

    fn set_length(&mut self, file: &OsFile, end: u64) -> Result<(), CallError>
        ensures held { self.new.lock ≡ self.old.lock }
    {
        let answer = file.file.set_len(end);
        self.told(file.path.as_str(), answer)
    }

    fn sync(&mut self, file: &OsFile) -> Result<(), CallError>
        ensures held { self.new.lock ≡ self.old.lock }
    {
        let answer = file.file.sync_all();
        self.told(file.path.as_str(), answer)
    }

    fn remove(&mut self, path: &str) -> Result<(), CallError>
        ensures held { self.new.lock ≡ self.old.lock }
    {
        let answer = fs::remove_file(&self.rt, path);
        self.told(path, answer)
    }

    fn make_folder(&mut self, path: &str) -> Result<bool, CallError>
        ensures held { self.new.lock ≡ self.old.lock }
    {
        let answer = DirBuilder::new().mode(FOLDER_MODE).create(&self.rt, path);
        self.told(path, made_told(answer))
    }

    /// What stands there is looked at first, since the system would follow a link.
    fn sync_folder(&mut self, path: &str) -> Result<(), CallError>
        ensures held { self.new.lock ≡ self.old.lock }
    {
        match self.look(path)? {
            Kind::Folder => {
                let opened = File::open(&self.rt, path);
                let synced = self.told(path, opened)?.sync_all();
                self.told(path, synced)
            }
            Kind::Nothing | Kind::File | Kind::Other => Err(CallError::Failed),
        }
    }

    ghost is_system = { λ _. tt };
}

/// A path, to be kept.
fn name_of(alloc: Global, path: &str) -> Result<String, CallError> {
    match String::from_str(alloc, path) {
        Ok(name) => Ok(name),
        Err(_) => Err(CallError::Failed),
    }
}

/// The paths in a folder that are text. Those in the current folder are names alone.
fn paths_there(rt: &HostRuntime, path: &str) -> io::Result<Vec<String>> {
    let mut paths = Vec::new(rt.alloc());
    for entry in fs::read_dir(rt, path)? {
        match entry {
            Ok(entry) => {
                let path = entry.path().as_str();
                let path = path.strip_prefix("./").unwrap_or(path);
                paths.push(String::from_str(rt.alloc(), path)?)?;
            }
            Err(error) if error.kind() == ErrorKind::InvalidFilename => {}
            Err(error) => return Err(error),
        }
    }
    Ok(paths)
}
