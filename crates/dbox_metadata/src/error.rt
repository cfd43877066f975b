// Why lines aren't metadata.
use mdbox_base::NoMemory;
use std::error::Error;
use std::fmt;

/// Why no metadata was read.
#[derive(Clone, Copy, Debug, PartialEq, Eq)]
pub enum MetaError {
    /// The line that begins at this offset is no line, repeats a known key, or has a value that isn't its key's.
    BadLine(u64),
    /// There was no memory for the metadata.
    NoMemory,
}

impl fmt::Display for MetaError {
    fn fmt<W: fmt::Write>(&self, f: &mut fmt::Formatter<W>) -> fmt::Result {
        match self {
            MetaError::BadLine(offset) => write!(f, "bad metadata line at {offset}"),
            MetaError::NoMemory => f.write_str("out of memory"),
        }
    }
}

impl Error for MetaError {}

impl From<NoMemory> for MetaError {
    ghost use Rattle.std.specs.Prelude.{◌≡◌};
    ghost use Rattle.dbox_metadata.specs.declared.error.MetaError.TheVariants as meta;

    ghost from_gives = { λ _ error. error ≡ meta.NoMemory };

    fn from(_error: NoMemory) -> MetaError {
        MetaError::NoMemory
    }
}
