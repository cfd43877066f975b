// Errors of rejoining.
ghost use Rattle.std.specs.Prelude.{◌≡◌};
ghost use Rattle.model_attach.specs.declared.join_error.JoinError.TheVariants.{NoMemory};

use mdbox_base::NoMemory;
use std::error::Error;
use std::fmt;

/// Why instances can't be put back into a stored body.
#[derive(Clone, Copy, Debug, PartialEq, Eq)]
pub enum JoinError {
    /// The range of this reference, counted from 0, doesn't fit behind those before it.
    RangeBad(u64),
    /// The sizes differ, and the stored body is a gzip stream: it was compressed when it was stored.
    Compressed,
    /// The whole size that was kept isn't the one that the stored body and the counts give.
    SizeDiffers { kept: u64, found: u64 },
    /// The text of this reference's instance hasn't the length that was kept.
    InstanceDiffers { index: u32, kept: u64, found: u64 },
    NoMemory,
}

impl fmt::Display for JoinError {
    fn fmt<W: fmt::Write>(&self, f: &mut fmt::Formatter<W>) -> fmt::Result {
        match self {
            JoinError::RangeBad(index) => write!(f, "range of reference {index} doesn't fit"),
            JoinError::Compressed => f.write_str("body is compressed"),
            JoinError::SizeDiffers { kept, found } => {
                write!(f, "whole size {kept} kept, {found} found")
            }
            JoinError::InstanceDiffers { index, kept, found } => {
                write!(
                    f,
                    "text size {kept} of reference {index} kept, {found} found"
                )
            }
            JoinError::NoMemory => f.write_str("out of memory"),
        }
    }
}

impl Error for JoinError {}

impl From<NoMemory> for JoinError {
    ghost from_gives = { λ _ e. e ≡ NoMemory };

    fn from(_error: NoMemory) -> JoinError {
        JoinError::NoMemory
    }
}
