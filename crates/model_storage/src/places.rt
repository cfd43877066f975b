// Places in a storage file, and why one is refused.
use mdbox_base::NoMemory;
use std::error::Error;
use std::fmt;

/// Where a message stands in a storage file. All are octets, counted from the file's start but for `size`.
#[derive(Clone, Copy, Debug, PartialEq, Eq)]
pub struct MessageAt {
    /// Where the message's header begins.
    pub offset: u64,
    /// Where the body begins.
    pub body: u64,
    /// The body's size.
    pub size: u64,
    /// Where the metadata lines begin.
    pub lines: u64,
    /// Behind the empty line that ends the message.
    pub end: u64,
}

/// Why octets aren't a storage file. Offsets are those of the first place where no whole message stands.
#[derive(Clone, Copy, Debug, PartialEq, Eq)]
pub enum ScanError {
    /// No header line begins the file.
    BadHeader,
    /// The header line is good, but its `M` is this number and not 30.
    HeaderSize(u64),
    /// What stands from here to the end may be the front of a message: the file was cut off.
    Truncated(u64),
    /// What stands here is no message, and no front of one.
    BadMessage(u64),
    /// There was no memory for the list of messages.
    NoMemory,
}

/// Why no message stands at an offset, which the error carries.
#[derive(Clone, Copy, Debug, PartialEq, Eq)]
pub enum PlaceError {
    /// What stands from here to the end may be the front of a message.
    Truncated(u64),
    /// What stands here is no message, and no front of one.
    BadMessage(u64),
}

impl fmt::Display for ScanError {
    fn fmt<W: fmt::Write>(&self, f: &mut fmt::Formatter<W>) -> fmt::Result {
        match self {
            ScanError::BadHeader => f.write_str("no header line begins the storage file"),
            ScanError::HeaderSize(size) => write!(f, "message headers of {size} octets"),
            ScanError::Truncated(offset) => write!(f, "the message at {offset} is cut off"),
            ScanError::BadMessage(offset) => write!(f, "no message at {offset}"),
            ScanError::NoMemory => f.write_str("out of memory"),
        }
    }
}

impl Error for ScanError {}

impl From<NoMemory> for ScanError {
    ghost use Rattle.std.specs.Prelude.{◌≡◌};
    ghost use Rattle.model_storage.specs.declared.places.ScanError.TheVariants as scan;

    ghost from_gives = { λ _ error. error ≡ scan.NoMemory };

    fn from(_error: NoMemory) -> ScanError {
        ScanError::NoMemory
    }
}

impl fmt::Display for PlaceError {
    fn fmt<W: fmt::Write>(&self, f: &mut fmt::Formatter<W>) -> fmt::Result {
        match self {
            PlaceError::Truncated(offset) => write!(f, "the message at {offset} is cut off"),
            PlaceError::BadMessage(offset) => write!(f, "no message at {offset}"),
        }
    }
}

impl Error for PlaceError {}

impl From<PlaceError> for ScanError {
    ghost use Rattle.model_storage.specs.Places.{HasCause};

    ghost from_gives = { HasCause };

    fn from(error: PlaceError) -> ScanError {
        match error {
            PlaceError::Truncated(offset) => ScanError::Truncated(offset),
            PlaceError::BadMessage(offset) => ScanError::BadMessage(offset),
        }
    }
}
