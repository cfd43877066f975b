// Why a message, or the rest of a storage file, was skipped.
ghost use Rattle.std.specs.Prelude.{Some};
ghost use Rattle.model_found.specs.Reasons.{reason_word};

use std::fmt;

/// Why a rebuild skipped a message, or what follows a place of a storage file.
#[derive(Clone, Copy, Debug, PartialEq, Eq)]
pub enum Reason {
    /// No header line begins the file.
    BadHeader,
    /// The header line tells another size of message headers than 30.
    HeaderSize,
    /// The file ends within a message.
    Truncated,
    /// No message stands there.
    BadMessage,
    /// A metadata line is bad.
    BadLine,
    /// The lines have no GUID of 32 hexadecimal digits.
    NoGuid,
    /// An instance is missing, or its id is named with another hash before.
    NoInstance,
    /// The range of a reference doesn't fit.
    RangeBad,
    /// The body was compressed as it was stored.
    Compressed,
    /// The whole size isn't that of the body and the references.
    SizeDiffers,
    /// The text of an instance isn't as long as its reference says.
    InstanceDiffers,
    /// A message with this GUID and other octets was taken.
    GuidTwice,
    /// A limit of the store is reached.
    TooMany,
}

impl fmt::Display for Reason {
    ghost output = { λ reason. Some (reason_word reason) };

    fn fmt<W: fmt::Write>(&self, f: &mut fmt::Formatter<W>) -> fmt::Result {
        f.write_str(match self {
            Reason::BadHeader => "BadHeader",
            Reason::HeaderSize => "HeaderSize",
            Reason::Truncated => "Truncated",
            Reason::BadMessage => "BadMessage",
            Reason::BadLine => "BadLine",
            Reason::NoGuid => "NoGuid",
            Reason::NoInstance => "NoInstance",
            Reason::RangeBad => "RangeBad",
            Reason::Compressed => "Compressed",
            Reason::SizeDiffers => "SizeDiffers",
            Reason::InstanceDiffers => "InstanceDiffers",
            Reason::GuidTwice => "GuidTwice",
            Reason::TooMany => "TooMany",
        })
    }
}
