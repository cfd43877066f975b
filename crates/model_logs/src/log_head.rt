// The head of a log.
ghost use Rattle.std.specs.Prelude.{◌≡◌};
ghost use Rattle.model_logs.specs.LogFile.{kind_letter, version_of};

use mdbox_base::StoreId;

/// Which of the store's logs it is.
#[derive(Clone, Copy, Debug, PartialEq, Eq)]
pub enum LogKind {
    Root,
    Map,
    Box,
}

impl LogKind {
    /// The letter that stands for the kind in a log's head, and in what is printed of a log: R, M or B.
    pub fn letter(self) -> u8
        ensures { result ≡ kind_letter self }
    {
        match self {
            LogKind::Root => b'R',
            LogKind::Map => b'M',
            LogKind::Box => b'B',
        }
    }

    /// The version in which logs of the kind are written.
    pub fn version(self) -> u8
        ensures { result ≡ version_of self }
    {
        match self {
            LogKind::Root | LogKind::Map => 1,
            LogKind::Box => 2,
        }
    }
}

/// What a log's head says: its version (a mailbox log's is 1 or 2, any other's 1), its store, its kind, its mailbox number (else 0)
/// and its generation (0 for the root log).
#[derive(Clone, Copy, Debug, PartialEq, Eq)]
pub struct LogHead {
    pub version: u8,
    pub store: StoreId,
    pub kind: LogKind,
    pub number: u32,
    pub generation: u32,
}
