// Stores to work on, and what they tell.
use crate::stores::entries::{
    ADDS_COPY, ADDS_FIRST, ADDS_SECOND, FLAGS_FIRST, MAKES_INBOX, RAISES_FIRST, STORES_FIRST,
    STORES_SECOND,
};
use crate::stores::{BOX_HEAD, StoreFiles, log_octets, put_unsynced};
use disk_mem::MemDisk;
use disk_model::FileName;
use mdbox_base::{Guid, Name, name_of};
use std::alloc::Global;
use std::test::Fail;
use store_core::Store;
use store_open::{OpenRefused, open_store};

/// The GUID of record 1.
const FIRST: Guid = Guid(*b"\0\x11\x22\x33\x44\x55\x66\x77\0\0\0\x01\0\0\0\x10");

/// Of the map log: mailbox 2 is A, with a log of generation 1.
const MAKES_A: &[u8] = b"B\0\0\0\x02\0\0\0\x01\x01A";

/// Of the map log: mailbox 3 is B, with a log of generation 1.
const MAKES_B: &[u8] = b"B\0\0\0\x03\0\0\0\x01\x01B";

/// Of the log of a mailbox: its next UID is the last one.
const LEAVES_ONE_UID: &[u8] = b"N\xff\xff\xff\xfe";

/// The files of a store: the entries of its map log and of INBOX, how long its storage file is, and the other mailboxes, by
/// their numbers, with the entries of their logs.
pub struct Laid {
    map: &'static [&'static [u8]],
    inbox: &'static [&'static [u8]],
    size: usize,
    others: &'static [(u32, &'static [&'static [u8]])],
}

/// Three messages, of which the third is a copy of the first.
pub const THREE_MESSAGES: Laid = Laid {
    map: &[MAKES_INBOX, STORES_FIRST, STORES_SECOND, RAISES_FIRST],
    inbox: &[ADDS_FIRST, ADDS_SECOND, FLAGS_FIRST, ADDS_COPY],
    size: 199,
    others: &[],
};

/// Two messages in INBOX, and another mailbox, A, that is empty.
pub const TWO_MAILBOXES: Laid = Laid {
    map: &[MAKES_INBOX, MAKES_A, STORES_FIRST, STORES_SECOND],
    inbox: &[ADDS_FIRST, ADDS_SECOND],
    size: 199,
    others: &[(2, &[])],
};

/// One message in INBOX, and two other mailboxes, A and B, that are empty.
pub const THREE_MAILBOXES: Laid = Laid {
    map: &[MAKES_INBOX, MAKES_A, MAKES_B, STORES_FIRST],
    inbox: &[ADDS_FIRST],
    size: 105,
    others: &[(2, &[]), (3, &[])],
};

/// One message in INBOX, and another mailbox, A, that is empty and has one UID left.
pub const LAST_UID_FREE: Laid = Laid {
    map: &[MAKES_INBOX, MAKES_A, STORES_FIRST],
    inbox: &[ADDS_FIRST],
    size: 105,
    others: &[(2, &[LEAVES_ONE_UID])],
};

/// Puts the log of the mailbox with this number, with these entries.
fn put_log(alloc: Global, disk: &mut MemDisk, number: u32, entries: &[&[u8]]) -> Result<(), Fail> {
    let mut head = BOX_HEAD;
    head.number = number;
    let log = log_octets(alloc, head, entries)?;
    put_unsynced(disk, FileName::Box(number, 1), &log)?;
    Ok(())
}

/// Puts all files.
fn put(alloc: Global, disk: &mut MemDisk, laid: &Laid) -> Result<(), Fail> {
    let files = StoreFiles::with(alloc, laid.map, laid.inbox, laid.size)?;
    files.put(disk)?;
    for (number, entries) in laid.others {
        put_log(alloc, disk, *number, entries)?;
    }
    Ok(())
}

/// A disk that has these files.
fn disk_of(alloc: Global, laid: &Laid) -> Result<MemDisk, Fail> {
    let mut disk = MemDisk::fresh(alloc)?;
    put(alloc, &mut disk, laid)?;
    Ok(disk)
}

/// The store on this disk.
fn open_disk(alloc: Global, disk: MemDisk) -> Result<Store<MemDisk>, Fail> {
    match open_store(alloc, disk, 1) {
        Ok(store) => Ok(store),
        Err(refused) => {
            let OpenRefused {
                error: _,
                disk: _disk,
            } = refused;
            Err(Fail::from("not opened"))
        }
    }
}

/// A store on a disk that has these files.
pub fn opened(alloc: Global, laid: &Laid) -> Result<Store<MemDisk>, Fail> {
    let disk = disk_of(alloc, laid)?;
    open_disk(alloc, disk)
}

/// A store with three messages, of which the third is a copy of the first.
pub fn three_messages(alloc: Global) -> Result<Store<MemDisk>, Fail> {
    opened(alloc, &THREE_MESSAGES)
}

pub fn inbox(alloc: Global) -> Result<Name, Fail> {
    named(alloc, b"INBOX")
}

pub fn named(alloc: Global, octets: &[u8]) -> Result<Name, Fail> {
    Ok(name_of(alloc, octets)?.ok_or("no name")?)
}

/// The names of INBOX, A and B.
#[derive(Drop)]
pub struct Names {
    inbox: Name,
    a: Name,
    b: Name,
}

pub fn all_names(alloc: Global) -> Result<Names, Fail> {
    let inbox = inbox(alloc)?;
    let a = named(alloc, b"A")?;
    let b = named(alloc, b"B")?;
    Ok(Names { inbox, a, b })
}

/// The UIDs that the mailbox with this name lists, as digits: 12 for the UIDs 1 and 2. No digits if there is no such mailbox.
pub fn uids(store: &Store<MemDisk>, name: &Name) -> u64 {
    let mut digits = 0u64;
    if let Some(index) = store.list_of(name) {
        for row in index.rows() {
            digits = digits.wrapping_mul(10).wrapping_add(u64::from(row.uid.0));
        }
    }
    digits
}

/// The UIDs that INBOX, A and B list.
pub fn lists(store: &Store<MemDisk>, names: &Names) -> [u64; 3] {
    [
        uids(store, &names.inbox),
        uids(store, &names.a),
        uids(store, &names.b),
    ]
}

/// How many messages are listed of record 1, and its count.
pub fn first(store: &Store<MemDisk>) -> (u64, u16) {
    (store.refs_of(FIRST), store.count_of(FIRST))
}
