// Errors of the checks.
ghost use Rattle.std.specs.Prelude.{◌≡◌, Some};
ghost use Rattle.store_checks.specs.Store.{check_error_text};
ghost use Rattle.store_checks.specs.declared.error.CheckError.TheVariants.{DiskFault, NoMemory};

use disk_model::FileName;
use gate_log::DiskFault;
use mdbox_base::NoMemory;
use std::alloc::AllocError;
use std::error::Error;
use std::fmt;

/// Why the checks did not pass.
#[derive(Clone, Copy, Debug, PartialEq, Eq)]
pub enum CheckError {
    /// There is no store: the root log has no entry.
    NoStore,
    /// The first check that fails does so at this file and offset in octets.
    Damaged(FileName, u64),
    /// The device failed; the disk has counted it.
    DiskFault,
    /// There was no memory.
    NoMemory,
}

impl fmt::Display for CheckError {
    ghost output = { λ error. Some (check_error_text error) };

    fn fmt<W: fmt::Write>(&self, f: &mut fmt::Formatter<W>) -> fmt::Result {
        f.write_str(match self {
            CheckError::NoStore => "no store",
            CheckError::Damaged(..) => "store damaged",
            CheckError::DiskFault => "disk fault",
            CheckError::NoMemory => "out of memory",
        })
    }
}

impl Error for CheckError {}

impl From<DiskFault> for CheckError {
    ghost from_gives = { λ _ error. error ≡ DiskFault };

    fn from(_error: DiskFault) -> CheckError {
        CheckError::DiskFault
    }
}

impl From<NoMemory> for CheckError {
    ghost from_gives = { λ _ error. error ≡ NoMemory };

    fn from(_error: NoMemory) -> CheckError {
        CheckError::NoMemory
    }
}

impl From<AllocError> for CheckError {
    ghost from_gives = { λ _ error. error ≡ NoMemory };

    fn from(_error: AllocError) -> CheckError {
        CheckError::NoMemory
    }
}
