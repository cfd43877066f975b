// What a call of a disk has changed.
use disk_model::FileName;

/// What a call of a disk has changed, but for the octets of a write, which are told beside it.
#[derive(Clone, Copy)]
pub enum Change {
    Nothing,
    /// A write from this octet on.
    Written(FileName, u64),
    /// A write of so many octets from this one on that failed.
    HalfWritten(FileName, u64, u64),
    /// A cut to this length.
    Cut(FileName, u64),
    HalfCut(FileName, u64),
    Synced(FileName),
    Made(FileName),
    HalfMade(FileName),
    Removed(FileName),
    HalfRemoved(FileName),
    NamesSynced,
}
