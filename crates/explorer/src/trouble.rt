// Why the cases can't go on.
use case_text::CaseError;
use disk_model::DiskError;
use mdbox_base::NoMemory;
use std::alloc::{AllocError, AllocFailed};
use std::error::Error;
use std::{fmt, io};

/// Why the cases can't go on.
#[derive(Clone, Copy, Debug, PartialEq, Eq)]
pub enum Trouble {
    NoMemory,
    /// The line with this number isn't written as a line is.
    BadLine(u64),
    /// A file couldn't be laid out or looked at.
    Disk,
    /// A file of samples couldn't be read.
    Sample,
}

impl fmt::Display for Trouble {
    fn fmt<W: fmt::Write>(&self, f: &mut fmt::Formatter<W>) -> fmt::Result {
        match self {
            Trouble::NoMemory => f.write_str("out of memory"),
            Trouble::BadLine(number) => write!(f, "line {number} can't be read"),
            Trouble::Disk => f.write_str("a file can't be laid out or looked at"),
            Trouble::Sample => f.write_str("a sample can't be read"),
        }
    }
}

impl Error for Trouble {}

impl From<CaseError> for Trouble {
    fn from(error: CaseError) -> Trouble {
        match error {
            CaseError::NoMemory => Trouble::NoMemory,
            CaseError::BadLine(number) => Trouble::BadLine(number),
        }
    }
}

impl From<NoMemory> for Trouble {
    fn from(_error: NoMemory) -> Trouble {
        Trouble::NoMemory
    }
}

impl From<AllocError> for Trouble {
    fn from(_error: AllocError) -> Trouble {
        Trouble::NoMemory
    }
}

impl<T: Drop> From<AllocFailed<T>> for Trouble {
    fn from(_error: AllocFailed<T>) -> Trouble {
        Trouble::NoMemory
    }
}

impl From<DiskError> for Trouble {
    fn from(_error: DiskError) -> Trouble {
        Trouble::Disk
    }
}

impl From<io::Error> for Trouble {
    fn from(_error: io::Error) -> Trouble {
        Trouble::Sample
    }
}
