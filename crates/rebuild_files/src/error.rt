// Why a store was not rebuilt.
ghost use Rattle.std.specs.Prelude.{◌≡◌, Some};
ghost use Rattle.rebuild_files.specs.Refused.{rebuild_error_text};
ghost use Rattle.rebuild_files.specs.declared.error.RebuildError.TheVariants as rebuild;

use gate_log::DiskFault;
use mdbox_base::NoMemory;
use std::error::Error;
use std::fmt;
use storage_files::DiskFault as FileFault;

/// Why a store was not rebuilt.
#[derive(Clone, Copy, Debug, PartialEq, Eq)]
pub enum RebuildError {
    /// The store opens as it is.
    StoreWhole,
    /// The device failed; the disk has counted it.
    DiskFault,
    /// There was no memory.
    NoMemory,
}

impl fmt::Display for RebuildError {
    ghost output = { λ error. Some (rebuild_error_text error) };

    fn fmt<W: fmt::Write>(&self, f: &mut fmt::Formatter<W>) -> fmt::Result {
        f.write_str(match self {
            RebuildError::StoreWhole => "the store opens as it is",
            RebuildError::DiskFault => "disk fault",
            RebuildError::NoMemory => "out of memory",
        })
    }
}

impl Error for RebuildError {}

impl From<DiskFault> for RebuildError {
    ghost from_gives = { λ _ error. error ≡ rebuild.DiskFault };

    fn from(_error: DiskFault) -> RebuildError {
        RebuildError::DiskFault
    }
}

impl From<NoMemory> for RebuildError {
    ghost from_gives = { λ _ error. error ≡ rebuild.NoMemory };

    fn from(_error: NoMemory) -> RebuildError {
        RebuildError::NoMemory
    }
}

impl From<FileFault> for RebuildError {
    ghost from_gives = { λ _ error. error ≡ rebuild.DiskFault };

    fn from(_error: FileFault) -> RebuildError {
        RebuildError::DiskFault
    }
}
