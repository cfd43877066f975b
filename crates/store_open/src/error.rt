// Errors of making and opening a store.
ghost use Rattle.std.specs.Prelude.{◌≡◌, Some};
ghost use Rattle.store_open.specs.Refused.{open_error_text};
ghost use Rattle.store_open.specs.Causes.{of_check, of_files, of_step};
ghost use Rattle.store_open.specs.declared.error.OpenError.TheVariants.{DiskFault as Fault, NoMemory as Memory};

use disk_model::FileName;
use gate_log::DiskFault;
use mdbox_base::NoMemory;
use std::alloc::AllocError;
use std::error::Error;
use std::fmt;
use store_checks::CheckError;
use store_core::StepError;
use store_files::FilesError;

/// Why a store was not made or opened.
#[derive(Clone, Copy, Debug, PartialEq, Eq)]
pub enum OpenError {
    /// There is no store: the root log has no entry.
    NoStore,
    /// There is a store already: the root log has an entry.
    StoreWhole,
    /// There are storage files or attachment instances, and no store.
    MailFiles,
    /// The store is damaged in this file, at this offset in octets.
    Damaged(FileName, u64),
    /// The device failed; the disk has counted it.
    DiskFault,
    /// There was no memory.
    NoMemory,
}

impl fmt::Display for OpenError {
    ghost output = { λ error. Some (open_error_text error) };

    fn fmt<W: fmt::Write>(&self, f: &mut fmt::Formatter<W>) -> fmt::Result {
        f.write_str(match self {
            OpenError::NoStore => "no store",
            OpenError::StoreWhole => "there is a store already",
            OpenError::MailFiles => "mail files without a store",
            OpenError::Damaged(..) => "store damaged",
            OpenError::DiskFault => "disk fault",
            OpenError::NoMemory => "out of memory",
        })
    }
}

impl Error for OpenError {}

/// Why a store was not made or opened, and its disk.
pub struct OpenRefused<D> {
    pub error: OpenError,
    pub disk: D,
}

impl From<DiskFault> for OpenError {
    ghost from_gives = { λ _ error. error ≡ Fault };

    fn from(_error: DiskFault) -> OpenError {
        OpenError::DiskFault
    }
}

impl From<NoMemory> for OpenError {
    ghost from_gives = { λ _ error. error ≡ Memory };

    fn from(_error: NoMemory) -> OpenError {
        OpenError::NoMemory
    }
}

impl From<AllocError> for OpenError {
    ghost from_gives = { λ _ error. error ≡ Memory };

    fn from(_error: AllocError) -> OpenError {
        OpenError::NoMemory
    }
}

impl From<CheckError> for OpenError {
    ghost from_gives = { λ given error. error ≡ of_check given };

    fn from(error: CheckError) -> OpenError {
        match error {
            CheckError::NoStore => OpenError::NoStore,
            CheckError::Damaged(name, place) => OpenError::Damaged(name, place),
            CheckError::DiskFault => OpenError::DiskFault,
            CheckError::NoMemory => OpenError::NoMemory,
        }
    }
}

impl From<FilesError> for OpenError {
    ghost from_gives = { λ given error. error ≡ of_files given };

    fn from(error: FilesError) -> OpenError {
        match error {
            FilesError::DiskFault => OpenError::DiskFault,
            FilesError::NoMemory => OpenError::NoMemory,
        }
    }
}

impl From<StepError> for OpenError {
    ghost from_gives = { λ given error. error ≡ of_step given };

    fn from(error: StepError) -> OpenError {
        match error {
            StepError::Stopped => OpenError::DiskFault,
            StepError::NoMemory => OpenError::NoMemory,
        }
    }
}
