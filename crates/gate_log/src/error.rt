// Errors of logs.
ghost use Rattle.std.specs.Prelude.{◌≡◌, Some, codes};
ghost use Rattle.gate_log.specs.Causes.{of_disk, log_error_text};
ghost use Rattle.gate_log.specs.declared.error.LogError.TheVariants.{NoMemory, DiskFault};

use disk_model::DiskError;
use mdbox_base::NoMemory;
use std::alloc::AllocError;
use std::error::Error;
use std::fmt;

/// The device failed; the disk has counted it. The log isn't used again.
#[derive(Clone, Copy, Debug, PartialEq, Eq)]
pub struct DiskFault;

/// Why a log was not read, made or opened.
#[derive(Clone, Copy, Debug, PartialEq, Eq)]
pub enum LogError {
    /// There is no such file.
    NoLog,
    /// The octets are no log. The number is the place of the first octet that can't be, or of the record that isn't whole.
    LogDamaged(u64),
    /// The device failed; the disk has counted it.
    DiskFault,
    /// There was no memory.
    NoMemory,
}

impl fmt::Display for DiskFault {
    ghost output = { λ _. Some (codes "disk fault") };

    fn fmt<W: fmt::Write>(&self, f: &mut fmt::Formatter<W>) -> fmt::Result {
        f.write_str("disk fault")
    }
}

impl Error for DiskFault {}

impl fmt::Display for LogError {
    ghost output = { λ error. Some (log_error_text error) };

    fn fmt<W: fmt::Write>(&self, f: &mut fmt::Formatter<W>) -> fmt::Result {
        match self {
            LogError::NoLog => f.write_str("no log"),
            LogError::LogDamaged(place) => write!(f, "log damaged at {place}"),
            LogError::DiskFault => f.write_str("disk fault"),
            LogError::NoMemory => f.write_str("out of memory"),
        }
    }
}

impl Error for LogError {}

impl From<NoMemory> for LogError {
    ghost from_gives = { λ _ error. error ≡ NoMemory };

    fn from(_error: NoMemory) -> LogError {
        LogError::NoMemory
    }
}

impl From<DiskFault> for LogError {
    ghost from_gives = { λ _ error. error ≡ DiskFault };

    fn from(_error: DiskFault) -> LogError {
        LogError::DiskFault
    }
}

/// A file that isn't there is no log.
impl From<DiskError> for LogError {
    ghost from_gives = { λ error gives. gives ≡ of_disk error };

    fn from(error: DiskError) -> LogError {
        match error {
            DiskError::Failed => LogError::DiskFault,
            DiskError::Absent => LogError::NoLog,
        }
    }
}

impl From<AllocError> for LogError {
    ghost from_gives = { λ _ error. error ≡ NoMemory };

    fn from(_error: AllocError) -> LogError {
        LogError::NoMemory
    }
}

impl From<DiskError> for DiskFault {
    fn from(_error: DiskError) -> DiskFault {
        DiskFault
    }
}
