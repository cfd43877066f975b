// Why a test went otherwise than it should.
use mdbox_base::NoMemory;
use std::alloc::{AllocError, AllocFailed};
use std::fmt;

/// Why a test went otherwise than it should.
#[derive(Clone, Copy, Debug, PartialEq, Eq)]
pub enum Wrong {
    NoMemory,
    /// A worker was let go before its turn had come.
    Late,
    /// In words.
    Differs(&'static str),
}

impl fmt::Display for Wrong {
    fn fmt<W: fmt::Write>(&self, f: &mut fmt::Formatter<W>) -> fmt::Result {
        match self {
            Wrong::NoMemory => f.write_str("out of memory"),
            Wrong::Late => f.write_str("a worker was let go before its turn"),
            Wrong::Differs(why) => f.write_str(why),
        }
    }
}

impl From<NoMemory> for Wrong {
    fn from(_error: NoMemory) -> Wrong {
        Wrong::NoMemory
    }
}

impl From<AllocError> for Wrong {
    fn from(_error: AllocError) -> Wrong {
        Wrong::NoMemory
    }
}

impl<T: Drop> From<AllocFailed<T>> for Wrong {
    fn from(_error: AllocFailed<T>) -> Wrong {
        Wrong::NoMemory
    }
}

/// That something is so, or else what is wrong.
pub fn must(holds: bool, why: &'static str) -> Result<(), Wrong> {
    if holds {
        Ok(())
    } else {
        Err(Wrong::Differs(why))
    }
}
