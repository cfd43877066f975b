// Entries of the store's logs.
ghost use Rattle.std.specs.Prelude.{◌≡◌, IsErr, IfOk};
ghost use Rattle.mdbox_base.specs.Keywords.{WantsMemory};

use crate::ids::{BoxNo, FileNo, Guid, Hash, InstId, MapUid, Uid};
use crate::memory::NoMemory;
use crate::name::Name;
use crate::octets::Octets;
use crate::seq::Seq;
use crate::words::copied_texts;
use std::alloc::Global;

/// An entry of the root log.
#[derive(Clone, Copy, Debug, PartialEq, Eq)]
pub enum RootEntry {
    /// The map log of this generation is in force.
    M { generation: u32 },
}

/// The highest numbers given so far: of storage files, map records, instances and mailboxes.
#[derive(Clone, Copy, Debug, PartialEq, Eq)]
pub struct Highest {
    pub file: u32,
    pub map: u32,
    pub instance: u32,
    pub mailbox: u32,
}

/// An instance that a record of the map names, with its size in octets.
#[derive(Clone, Copy, Debug, PartialEq, Eq)]
pub struct InstRow {
    pub hash: Hash,
    pub id: InstId,
    pub size: u32,
}

/// The count that a record gets, or by how much its count falls.
#[derive(Clone, Copy, Debug, PartialEq, Eq)]
pub struct MapCount {
    pub uid: MapUid,
    pub count: u16,
}

/// The offset to which a record is moved.
#[derive(Clone, Copy, Debug, PartialEq, Eq)]
pub struct MapPlace {
    pub uid: MapUid,
    pub offset: u32,
}

/// An entry of the map log.
#[derive(Drop)]
pub enum MapEntry {
    /// The highest numbers become these.
    H(Highest),
    /// A mailbox is made.
    B {
        mailbox: BoxNo,
        generation: u32,
        name: Name,
    },
    /// The mailbox's log is the one of this generation.
    G {
        mailbox: BoxNo,
        generation: u32,
    },
    /// A message is stored (origin 0) or was found by a rebuild (origin 1).
    S {
        origin: u8,
        count: u16,
        uid: MapUid,
        file: FileNo,
        offset: u32,
        size: u32,
        guid: Guid,
        instances: Seq<InstRow>,
    },
    /// The record's count rises by one.
    U {
        uid: MapUid,
    },
    /// Each record's count falls by one.
    D {
        uids: Seq<MapUid>,
    },
    /// The records' counts are these.
    T {
        counts: Seq<MapCount>,
    },
    /// The records of a file are moved to the target, or dropped. Target 0 where none is moved.
    P {
        file: FileNo,
        target: u32,
        moved: Seq<MapPlace>,
        dropped: Seq<MapUid>,
    },
    /// The file is sealed: it is never taken, cut, purged or removed.
    E {
        file: FileNo,
    },
    /// The mailbox leaves with all that it lists: the count of each record falls by its amount.
    X {
        mailbox: BoxNo,
        amounts: Seq<MapCount>,
    },
    /// The mailbox has this name.
    V {
        mailbox: BoxNo,
        name: Name,
    },
}

/// An entry of a mailbox's log.
#[derive(Drop)]
pub enum BoxEntry {
    /// The next UID is at least this.
    N {
        next: u32,
    },
    /// A message is added. Time in Unix seconds, size in octets.
    A {
        uid: Uid,
        flags: u8,
        time: u64,
        size: u32,
        map_uid: MapUid,
        guid: Guid,
        words: Seq<Octets>,
    },
    /// The message's flags are these.
    F {
        uid: Uid,
        flags: u8,
    },
    /// The message's keywords are these.
    K {
        uid: Uid,
        words: Seq<Octets>,
    },
    /// The message leaves.
    R {
        uid: Uid,
    },
}

impl BoxEntry {
    /// A copy of the entry.
    pub fn copied(&self, alloc: Global) -> Result<BoxEntry, NoMemory>
        ensures ok { IfOk result (λ entry. entry ≡ self.now) }
        ensures memory { IsErr result → WantsMemory self.now }
    {
        match self {
            BoxEntry::N { next } => Ok(BoxEntry::N { next: *next }),
            BoxEntry::A {
                uid,
                flags,
                time,
                size,
                map_uid,
                guid,
                words,
            } => Ok(BoxEntry::A {
                uid: *uid,
                flags: *flags,
                time: *time,
                size: *size,
                map_uid: *map_uid,
                guid: *guid,
                words: copied_texts(alloc, words.as_slice())?,
            }),
            BoxEntry::F { uid, flags } => Ok(BoxEntry::F {
                uid: *uid,
                flags: *flags,
            }),
            BoxEntry::K { uid, words } => Ok(BoxEntry::K {
                uid: *uid,
                words: copied_texts(alloc, words.as_slice())?,
            }),
            BoxEntry::R { uid } => Ok(BoxEntry::R { uid: *uid }),
        }
    }
}
