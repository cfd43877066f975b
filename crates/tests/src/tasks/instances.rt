// The instances of a store that deliveries place and name.
use crate::messages::{letters, with_parts};
use disk_mem::MemDisk;
use mdbox_base::{Hash, InstId, InstRow, MapUid, Octets};
use std::alloc::Global;
use std::test::Fail;
use store_core::Store;

/// The ids of the running numbers 1 and 2.
pub const ONE: InstId = InstId(*b"\0\x11\x22\x33\x44\x55\x66\x77\xff\xff\xff\xff\0\0\0\x01");

pub const TWO: InstId = InstId(*b"\0\x11\x22\x33\x44\x55\x66\x77\xff\xff\xff\xff\0\0\0\x02");

/// The hash of 131,072 letters `a`.
pub const AS: Hash = Hash(
    *b"\xce\x56\x53\x59\x08\x04\xba\xa9\x36\x9f\x72\xd4\x83\xed\x9e\xba\x72\xf0\x4d\x29",
);

/// How many octets an attachment has that is taken out, at the least.
pub const LEAST: usize = 131_072;

/// A message whose attachment is so many letters `a`.
pub fn one_part(alloc: Global) -> Result<Octets, Fail> {
    let text = letters(alloc, b'a', LEAST)?;
    Ok(with_parts(alloc, &[&text])?)
}

/// The row of an instance.
pub fn row(hash: Hash, id: InstId, size: u32) -> InstRow {
    InstRow { hash, id, size }
}

/// What is told of a store's instances.
#[derive(Clone, Copy, Debug, PartialEq, Eq)]
pub struct Known {
    /// The ids of the first three.
    pub ids: [Option<InstId>; 3],
    /// The greatest running number that was drawn.
    pub drawn: u32,
    /// Whether somebody holds the instance of number 1 or 2.
    pub held: bool,
}

pub fn instances_of(store: &Store<MemDisk>) -> Known {
    Known {
        ids: [
            store.next_instance(None),
            store.next_instance(Some(ONE)),
            store.next_instance(Some(TWO)),
        ],
        drawn: store.last_instance(),
        held: store.is_held(ONE) || store.is_held(TWO),
    }
}

/// A store that knows the first instance, and one that knows both. Nobody holds one.
pub const KNOWS_FIRST: Known = Known {
    ids: [Some(ONE), None, None],
    drawn: 1,
    held: false,
};

pub const KNOWS_BOTH: Known = Known {
    ids: [Some(ONE), Some(TWO), None],
    drawn: 2,
    held: false,
};

/// Whether the record with this number names these instances, one for each attachment.
pub fn names(store: &Store<MemDisk>, uid: u32, rows: &[InstRow]) -> bool {
    match store.map().instances(MapUid(uid)) {
        Some(named) => named.as_slice() == rows,
        None => false,
    }
}
