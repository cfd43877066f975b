// Instances that an open store places, finds, compares, reads and holds.
ghost use Rattle.std.specs.Prelude.{◌≤◌, length, IfOk, IsNone};
ghost use Rattle.sis_store.specs.OnDisk.{IsUnlikeKnown};

use crate::stores::{ID, file_octets};
use disk_mem::MemDisk;
use disk_model::{Disk, FileName};
use mdbox_base::{Hash, InstId};
use sis_store::{DiskFault, candidates_are_compared, next_ones_are_known};
use std::alloc::Global;
use std::test::Fail;
use store_core::{PlaceStop, Store};
use store_open::{OpenRefused, init_store};

/// The SHA-1 hash of `abc` (FIPS 180-4).
const ABC: Hash = Hash([
    0xa9, 0x99, 0x3e, 0x36, 0x47, 0x06, 0x81, 0x6a, 0xba, 0x3e, 0x25, 0x71, 0x78, 0x50, 0xc2, 0x6c,
    0x9c, 0xd0, 0xd8, 0x9d,
]);

/// The ids of the running numbers 1 and 2.
const ONE: InstId = InstId(*b"\0\x11\x22\x33\x44\x55\x66\x77\xff\xff\xff\xff\0\0\0\x01");

const TWO: InstId = InstId(*b"\0\x11\x22\x33\x44\x55\x66\x77\xff\xff\xff\xff\0\0\0\x02");

/// How a saving ended.
#[derive(Clone, Copy, Debug, PartialEq, Eq)]
enum Saved {
    /// This known instance has the octets.
    Known(InstId),
    Placed(InstId),
    /// An instance couldn't be read.
    Unread,
    Refused(PlaceStop),
}

/// The known instance that has these octets.
fn equal_one<D: Disk>(
    store: &mut Store<D>,
    hash: Hash,
    octets: &[u8],
) -> Result<Option<InstId>, DiskFault>
    requires { length octets.now ≤ 4294967295 }
    ensures { IfOk result (λ found. IsNone found → IsUnlikeKnown hash (length octets.now) octets.now store.new.instances.known (D.history store.new.disk)) }
{
    candidates_are_compared();
    let size = octets.len() as u32;
    let mut after = None;
    while let Some(id) = store.candidate(hash, size, after) {
        store.facts();
        if store.same_octets(id, octets)? {
            return Ok(Some(id));
        }
        after = Some(id);
    }
    Ok(None)
}

/// Saves octets, unless an instance has them.
fn save(store: &mut Store<MemDisk>, hash: Hash, octets: &[u8]) -> Saved
    requires { length octets.now ≤ 4294967295 }
{
    match equal_one(store, hash, octets) {
        Err(DiskFault) => Saved::Unread,
        Ok(Some(id)) => Saved::Known(id),
        Ok(None) => place(store, hash, octets),
    }
}

/// Places octets, unless the store is stopped.
fn place<D: Disk>(store: &mut Store<D>, hash: Hash, octets: &[u8]) -> Saved
    requires size { length octets.now ≤ 4294967295 }
    requires new { IsUnlikeKnown hash (length octets.now) octets.now store.old.instances.known (D.history store.old.disk) }
{
    if store.stopped() {
        return Saved::Refused(PlaceStop::Stopped);
    }
    match store.place_instance(hash, octets) {
        Ok(id) => Saved::Placed(id),
        Err(why) => Saved::Refused(why),
    }
}

/// The store, or none.
fn opened(tried: Result<Store<MemDisk>, OpenRefused<MemDisk>>) -> Result<Store<MemDisk>, Fail> {
    match tried {
        Ok(store) => Ok(store),
        Err(
            OpenRefused {
                error: _,
                disk: _disk,
            },
        ) => Err(Fail::from("not opened")),
    }
}

/// A new store.
fn new_store(alloc: Global) -> Result<Store<MemDisk>, Fail> {
    opened(init_store(alloc, MemDisk::fresh(alloc)?, ID))
}

/// The candidates for `abc`, one after another, and one for a text of another size.
fn candidates(store: &Store<MemDisk>) -> [Option<InstId>; 4] {
    [
        store.candidate(ABC, 3, None),
        store.candidate(ABC, 3, Some(ONE)),
        store.candidate(ABC, 3, Some(TWO)),
        store.candidate(ABC, 4, None),
    ]
}

/// The instances, one after another.
fn instances(store: &Store<MemDisk>) -> [Option<InstId>; 3] {
    [
        store.next_instance(None),
        store.next_instance(Some(ONE)),
        store.next_instance(Some(TWO)),
    ]
}

/// What is saved under one hash, one text after another, and how each saving ends.
const SAVINGS: [(&[u8], Saved); 4] = [
    (b"abc", Saved::Placed(ONE)),
    (b"xyz", Saved::Placed(TWO)),
    (b"abc", Saved::Known(ONE)),
    (b"xyz", Saved::Known(TWO)),
];

/// The place of the first saving that ends otherwise.
fn wrong_saving(store: &mut Store<MemDisk>) -> Option<usize> {
    for (place, (octets, wanted)) in SAVINGS.iter().enumerate() {
        if save(store, ABC, octets) != *wanted {
            return Some(place);
        }
    }
    None
}

/// What the files of both instances hold.
fn held_files(alloc: Global, disk: &mut MemDisk) -> Result<(bool, bool), Fail> {
    let one = file_octets(alloc, disk, FileName::Inst(ABC.0, ONE.0))?;
    let two = file_octets(alloc, disk, FileName::Inst(ABC.0, TWO.0))?;
    Ok((
        one.as_slice() == b"abc".as_slice(),
        two.as_slice() == b"xyz".as_slice(),
    ))
}

#[test]
fn two_texts_with_one_hash_are_kept(rt: HostRuntime) -> Result<(), Fail> {
    let mut store = new_store(rt.alloc())?;
    let none = (candidates(&store), instances(&store));
    let wrong = wrong_saving(&mut store);
    let both = (candidates(&store), instances(&store));
    let mut disk = store.into_disk();
    let held = held_files(rt.alloc(), &mut disk)?;
    assert_eq!(rt; none, ([None; 4], [None; 3]));
    assert_eq!(rt; wrong, None);
    assert_eq!(rt;
        both,
        (
            [Some(ONE), Some(TWO), None, None],
            [Some(ONE), Some(TWO), None]
        )
    );
    assert_eq!(rt; held, (true, true));
    Ok(())
}

/// Whether the first instance was held, is held when it was let go, and is held by whom holds it then.
fn let_first_go(store: &mut Store<MemDisk>) -> Option<(bool, bool)> {
    let id = store.next_instance(None)?;
    let before = store.is_held(id);
    if before {
        store.let_go(id);
    }
    Some((before, store.is_held(id)))
}

fn hold_first(store: &mut Store<MemDisk>) -> Option<bool> {
    next_ones_are_known();
    store.facts();
    let id = store.next_instance(None)?;
    if !store.is_held(id) {
        store.hold(id);
    }
    Some(store.is_held(id))
}

/// One that is placed is held once.
#[test]
fn an_instance_is_held_and_let_go(rt: HostRuntime) -> Result<(), Fail> {
    let mut store = new_store(rt.alloc())?;
    let placed = save(&mut store, ABC, b"abc");
    let gone = let_first_go(&mut store);
    let held = hold_first(&mut store);
    let again = let_first_go(&mut store);
    let _disk = store.into_disk();
    assert_eq!(rt; placed, Saved::Placed(ONE));
    assert_eq!(rt; gone, Some((true, false)));
    assert_eq!(rt; held, Some(true));
    assert_eq!(rt; again, Some((true, false)));
    Ok(())
}

/// What is read of the first instance from this offset on, into four octets, and how many octets.
fn read_first(store: &mut Store<MemDisk>, offset: u64) -> Option<(usize, [u8; 4])> {
    next_ones_are_known();
    store.facts();
    let id = store.next_instance(None)?;
    let mut into = [b'.'; 4];
    match store.read_instance(id, offset, &mut into) {
        Ok(count) => Some((count, into)),
        Err(DiskFault) => None,
    }
}

/// From the start, from within, to the end of what is read into, and from the end on.
#[test]
fn an_instance_is_read_from_any_offset(rt: HostRuntime) -> Result<(), Fail> {
    let mut store = new_store(rt.alloc())?;
    let placed = save(&mut store, ABC, b"abcde");
    let start = read_first(&mut store, 0);
    let within = read_first(&mut store, 2);
    let end = read_first(&mut store, 5);
    let _disk = store.into_disk();
    assert_eq!(rt; placed, Saved::Placed(ONE));
    assert_eq!(rt; start, Some((4, *b"abcd")));
    assert_eq!(rt; within, Some((3, *b"cde.")));
    assert_eq!(rt; end, Some((0, *b"....")));
    Ok(())
}
