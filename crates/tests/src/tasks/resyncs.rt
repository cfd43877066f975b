// Resyncs: counts that are wrong, and messages that are damaged.
use crate::stores::StoreFiles;
use crate::stores::entries::{ADDS_FIRST, MAKES_INBOX, RAISES_FIRST, STORES_FIRST};
use disk_mem::MemDisk;
use mdbox_base::{Progress, Reply};
use resync_task::ResyncTask;
use std::alloc::Global;
use std::test::Fail;
use store_core::Store;
use store_open::{OpenRefused, open_store};

/// A storage file with record 1: a header line of 16 octets, and a message of 89.
const WHOLE: &[u8] =
    b"2 M1e C65000000\n\x01\x02N          0000000000000014\nHello, world. Hello.\n\x01\x03\nG00112233445566770000000100000010\n\n";

/// The same, whose message begins with another octet, has another GUID, or has a longer body.
const OTHER_MAGIC: &[u8] =
    b"2 M1e C65000000\n\0\x02N          0000000000000014\nHello, world. Hello.\n\x01\x03\nG00112233445566770000000100000010\n\n";

const OTHER_GUID: &[u8] =
    b"2 M1e C65000000\n\x01\x02N          0000000000000014\nHello, world. Hello.\n\x01\x03\nG00112233445566770000000100000011\n\n";

const OTHER_SIZE: &[u8] =
    b"2 M1e C65000000\n\x01\x02N          0000000000000015\nHello, world. Hello.\n\x01\x03\nG00112233445566770000000100000010\n\n";

/// What resyncs reply, one after another: how many counts each put right, and how many regions are damaged.
type Replies = [Option<(u64, u64)>; 3];

/// What a resync replies; none if it is refused.
fn resync(store: &mut Store<MemDisk>) -> Option<(u64, u64)> {
    let mut task = ResyncTask::of();
    for _ in 0..100 {
        match task.step(store) {
            Progress::More => {}
            Progress::Done(Reply::Resynced { corrected, damaged }) => {
                return Some((corrected, damaged));
            }
            Progress::Done(_) => return None,
        }
    }
    None
}

/// A disk with a store whose record 1 has count 2, and is listed once: a copy of it was begun, and a crash came before it was listed.
fn counted_twice(alloc: Global, mail: &[u8]) -> Result<MemDisk, Fail> {
    let mail = mail.to_vec(alloc)?;
    let map: &[&[u8]] = &[MAKES_INBOX, STORES_FIRST, RAISES_FIRST];
    let mut files = StoreFiles::with(alloc, map, &[ADDS_FIRST], 0)?;
    files.mail = mail;
    let mut disk = MemDisk::fresh(alloc)?;
    files.put(&mut disk)?;
    Ok(disk)
}

/// The store on a disk.
fn on_disk(alloc: Global, disk: MemDisk) -> Result<Store<MemDisk>, Fail> {
    match open_store(alloc, disk, 1) {
        Ok(store) => Ok(store),
        Err(refused) => {
            let OpenRefused {
                error: _,
                disk: _disk,
            } = refused;
            Err(Fail::from("not opened"))
        }
    }
}

/// Two resyncs, and a third one after the store is opened again.
fn three_resyncs(alloc: Global, disk: MemDisk) -> Result<Replies, Fail> {
    let mut store = on_disk(alloc, disk)?;
    let first = resync(&mut store);
    let second = resync(&mut store);
    let mut store = on_disk(alloc, store.into_disk())?;
    let third = resync(&mut store);
    let _disk = store.into_disk();
    Ok([first, second, third])
}

/// A count that a crash left too high is put right once, by one entry, which is there after the store is opened again. A message that is
/// whole is none of the damaged; one with another octet at its beginning, another GUID or another size is.
#[test]
fn a_wrong_count_and_a_damaged_message(rt: HostRuntime) -> Result<(), Fail> {
    let cases: [(&[u8], u64); 4] = [
        (WHOLE, 0),
        (OTHER_MAGIC, 1),
        (OTHER_GUID, 1),
        (OTHER_SIZE, 1),
    ];
    for (mail, damaged) in cases {
        let disk = counted_twice(rt.alloc(), mail)?;
        let replies = three_resyncs(rt.alloc(), disk)?;
        let wanted = [Some((1, damaged)), Some((0, damaged)), Some((0, damaged))];
        assert_eq!(rt; replies, wanted);
    }
    Ok(())
}
