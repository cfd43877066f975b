// Requests to the store.
use crate::flags::Flags;
use crate::ids::Uid;
use crate::name::Name;
use crate::octets::Octets;
use crate::words::Words;

/// What a user asks of the store.
#[derive(Drop)]
pub enum Request {
    /// Saves a message, received at this time (Unix seconds).
    Deliver {
        name: Name,
        time: u64,
        message: Octets,
    },
    List {
        name: Name,
    },
    Fetch {
        name: Name,
        uid: Uid,
    },
    Flag {
        name: Name,
        uid: Uid,
        flags: Flags,
    },
    /// Gives a message these keywords, and no others.
    Keywords {
        name: Name,
        uid: Uid,
        words: Words,
    },
    Copy {
        name: Name,
        uid: Uid,
        target: Name,
    },
    /// A copy, and then an expunge.
    Move {
        name: Name,
        uid: Uid,
        target: Name,
    },
    Expunge {
        name: Name,
        uid: Uid,
    },
    Make {
        name: Name,
    },
    /// Removes the mailbox with all that it lists.
    Delete {
        name: Name,
    },
    /// Gives the mailbox another name.
    Rename {
        name: Name,
        target: Name,
    },
    Counts,
    Purge,
    Resync,
}
