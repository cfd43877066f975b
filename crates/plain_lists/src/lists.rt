// The lists.
ghost use Rattle.std.specs.Prelude.{◌≡◌, ◌≤◌, [], length};

use mdbox_base::{BoxNo, Flags, Guid, Name, Octets, Uid, Words};
use std::alloc::Global;
use std::marker::Model;

/// A message of a mailbox, with the time it was received in Unix seconds.
#[derive(Drop)]
pub struct PlainMessage {
    pub uid: Uid,
    pub flags: Flags,
    pub time: u64,
    pub guid: Guid,
    pub octets: Octets,
    pub words: Words,
    ghost short: { length octets ≤ 67108864 },
}

/// A mailbox: its messages in the order of their UIDs, and the UID that the next gets.
#[derive(Drop)]
pub struct PlainMailbox {
    pub number: BoxNo,
    pub name: Name,
    pub next_uid: u32,
    pub messages: Vec<PlainMessage>,
}

/// Mailbox lists, in the order in which the mailboxes were made, and the highest number that a mailbox was ever given, or 0.
#[derive(Drop)]
pub struct PlainLists {
    pub(crate) mailboxes: Vec<PlainMailbox>,
    pub(crate) highest: u32,
}

impl Model for PlainLists {
    ghost use Rattle.std.specs.Prelude.{map};
    ghost use Rattle.plain_lists.specs.View.{ListsMade, mailbox_of};

    ghost Value = { ListsMade };

    ghost view = { λ plain. record { lists = map mailbox_of plain.mailboxes.items; highest = plain.highest } };
}

impl PlainLists {
    ghost use Rattle.std.specs.Prelude.{map};
    ghost use Rattle.plain_lists.specs.View.{mailbox_of};

    /// No mailbox.
    pub fn empty(alloc: Global) -> PlainLists
        ensures { result ≡ record { lists = []; highest = 0 } }
    {
        PlainLists {
            mailboxes: Vec::new(alloc),
            highest: 0,
        }
    }

    /// These mailboxes, in the order in which they were made, of which none was ever given a higher number than this.
    pub fn of(mailboxes: Vec<PlainMailbox>, highest: u32) -> PlainLists
        ensures { result ≡ record { lists = map mailbox_of mailboxes.items; highest = highest } }
    {
        PlainLists { mailboxes, highest }
    }

    /// The mailboxes, in the order in which they were made, and the highest number that one was ever given.
    pub fn into_parts(self) -> (Vec<PlainMailbox>, u32)
        ensures { self ≡ record { lists = map mailbox_of result.0.items; highest = result.1 } }
    {
        (self.mailboxes, self.highest)
    }
}
