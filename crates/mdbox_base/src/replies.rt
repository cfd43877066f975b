// Replies of the store.
use crate::flags::Flags;
use crate::ids::{FileNo, Guid, Uid};
use crate::octets::Octets;
use crate::seq::Seq;
use crate::words::Words;

/// A row of a listing. Size in octets, time in Unix seconds.
#[derive(Drop)]
pub struct ListRow {
    pub uid: Uid,
    pub flags: Flags,
    pub size: u32,
    pub time: u64,
    pub guid: Guid,
    pub words: Words,
}

/// Why a request is refused.
#[derive(Clone, Copy, Debug, PartialEq, Eq)]
pub enum Refusal {
    NoMailbox,
    Inbox,
    Exists,
    NoMessage,
    Sealed,
    TooManyCopies(u64),
    MailboxFull(u64),
    TooManyMailboxes(u64),
    StoreFull(u64),
    NoMemory,
    ReadFault,
    Stopped,
    Damaged { file: FileNo, offset: u64 },
}

/// What the store answers.
#[derive(Drop)]
pub enum Reply {
    Saved {
        uid: Uid,
        guid: Guid,
    },
    Listed(Seq<ListRow>),
    Fetched(Octets),
    Done,
    Copied {
        uid: Uid,
    },
    /// `gone` where the source had left before the second step.
    Moved {
        uid: Uid,
        gone: bool,
    },
    Counted {
        records: u64,
        references: u64,
        counts: u64,
        instances: u64,
    },
    Purged {
        dropped: u64,
        files: u64,
        instances: u64,
    },
    Resynced {
        corrected: u64,
        damaged: u64,
    },
    /// A storage file is on the second device now: so many messages moved with it, so many records were dropped.
    AltMoved {
        moved: u64,
        dropped: u64,
    },
    Refused(Refusal),
}
