// Why the storage files of a store were not found.
ghost use Rattle.std.specs.Prelude.{◌≡◌, Some};
ghost use Rattle.store_files.specs.Found.{files_error_text};
ghost use Rattle.store_files.specs.declared.error.FilesError.TheVariants as files_error;

use mdbox_base::NoMemory;
use std::alloc::AllocFailed;
use std::error::Error;
use std::fmt;
use storage_files::DiskFault;

/// Why the storage files of a store were not found.
#[derive(Clone, Copy, Debug, PartialEq, Eq)]
pub enum FilesError {
    /// The device failed; the disk has counted it.
    DiskFault,
    /// There was no memory.
    NoMemory,
}

impl fmt::Display for FilesError {
    ghost output = { λ error. Some (files_error_text error) };

    fn fmt<W: fmt::Write>(&self, f: &mut fmt::Formatter<W>) -> fmt::Result {
        f.write_str(match self {
            FilesError::DiskFault => "disk fault",
            FilesError::NoMemory => "out of memory",
        })
    }
}

impl Error for FilesError {}

impl From<DiskFault> for FilesError {
    ghost from_gives = { λ _ error. error ≡ files_error.DiskFault };

    fn from(_error: DiskFault) -> FilesError {
        FilesError::DiskFault
    }
}

impl From<NoMemory> for FilesError {
    ghost from_gives = { λ _ error. error ≡ files_error.NoMemory };

    fn from(_error: NoMemory) -> FilesError {
        FilesError::NoMemory
    }
}

impl<T: Drop> From<AllocFailed<T>> for FilesError {
    ghost from_gives = { λ _ error. error ≡ files_error.NoMemory };

    fn from(_error: AllocFailed<T>) -> FilesError {
        FilesError::NoMemory
    }
}
