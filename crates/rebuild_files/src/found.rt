// What is found in storage files, by its places.
ghost use Rattle.std.specs.Prelude.{◌≡◌, IfOk, IfErr};
ghost use Rattle.rebuild_files.specs.Places.{IsScanStop};
ghost use Rattle.rebuild_files.specs.declared.error.RebuildError.TheVariants as rebuild;

use crate::error::RebuildError;
use dbox_file::{MessageAt, ScanError};
use mdbox_base::FileNo;
use model_found::Reason;

/// What is found at a place of a storage file.
#[derive(Clone, Copy, Debug, PartialEq, Eq)]
pub enum FoundPlace {
    /// A message stands here.
    Message(MessageAt),
    /// From this offset on, in octets, nothing can be read, for this reason.
    Unread(u64, Reason),
}

/// What is found at a place, and the storage file in which it is.
#[derive(Clone, Copy, Debug, PartialEq, Eq)]
pub struct FoundAt {
    pub file: FileNo,
    pub place: FoundPlace,
}

/// The place from which on nothing can be read of a storage file that a scan refuses. Of a file whose header line is bad that is
/// its beginning.
pub(crate) fn unread(error: ScanError) -> Result<FoundPlace, RebuildError>
    ensures place { IfOk result (IsScanStop error) }
    ensures memory { IfErr result (λ refused. refused ≡ rebuild.NoMemory) }
{
    match error {
        ScanError::BadHeader => Ok(FoundPlace::Unread(0, Reason::BadHeader)),
        ScanError::HeaderSize(_) => Ok(FoundPlace::Unread(0, Reason::HeaderSize)),
        ScanError::Truncated(offset) => Ok(FoundPlace::Unread(offset, Reason::Truncated)),
        ScanError::BadMessage(offset) => Ok(FoundPlace::Unread(offset, Reason::BadMessage)),
        ScanError::NoMemory => Err(RebuildError::NoMemory),
    }
}
