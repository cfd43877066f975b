// Notes of the calls that changed a disk.
use crate::text::Text;
use disk_model::FileName;

/// What a call did to a file. The halves are of calls that failed and may have done a part of it.
#[derive(Drop)]
pub enum Change {
    Written(u64, Text),
    HalfWritten(u64, u64),
    Cut(u64),
    HalfCut(u64),
    Synced,
    Made,
    HalfMade,
    Removed,
    HalfRemoved,
    /// To each file, whatever the name.
    NamesSynced,
}

/// A call that changed something, behind some that changed nothing.
#[derive(Drop)]
pub struct Note {
    pub idle: u64,
    pub name: FileName,
    pub change: Change,
}
