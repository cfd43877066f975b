// Why the cases can't go on.
use mdbox_base::NoMemory;
use std::alloc::{AllocError, AllocFailed};
use std::error::Error;
use std::fmt;

/// Why the cases can't go on.
#[derive(Clone, Copy, Debug, PartialEq, Eq)]
pub enum CaseError {
    NoMemory,
    /// The line with this number isn't written as a line is.
    BadLine(u64),
}

impl fmt::Display for CaseError {
    fn fmt<W: fmt::Write>(&self, f: &mut fmt::Formatter<W>) -> fmt::Result {
        match self {
            CaseError::NoMemory => f.write_str("out of memory"),
            CaseError::BadLine(number) => write!(f, "line {number} can't be read"),
        }
    }
}

impl Error for CaseError {}

impl From<NoMemory> for CaseError {
    fn from(_error: NoMemory) -> CaseError {
        CaseError::NoMemory
    }
}

impl From<AllocError> for CaseError {
    fn from(_error: AllocError) -> CaseError {
        CaseError::NoMemory
    }
}

impl<T: Drop> From<AllocFailed<T>> for CaseError {
    fn from(_error: AllocFailed<T>) -> CaseError {
        CaseError::NoMemory
    }
}
