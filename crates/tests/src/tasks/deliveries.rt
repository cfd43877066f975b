// Deliveries that have not begun, and stores for them.
ghost use Rattle.std.specs.Prelude.{IfOk, IfSome};
ghost use Rattle.tests.specs.Deliveries.{IsFresh, IsHeldByNone};

use crate::messages::letters;
use crate::stores::entries::MAKES_INBOX;
use crate::stores::{ID, StoreFiles, put_file};
use crate::tasks::instances::{AS, LEAST, ONE};
use attach_detach::prepare;
use disk_mem::MemDisk;
use disk_model::{Disk, FileName};
use mail_save::SaveTask;
use mdbox_base::{Name, name_of};
use std::alloc::Global;
use std::test::Fail;
use store_core::Store;
use store_open::{OpenRefused, init_store, open_store};

/// 65000000 hex.
const TIME: u64 = 1_694_498_816;

fn inbox(alloc: Global) -> Result<Name, Fail> {
    Ok(name_of(alloc, b"INBOX")?.ok_or("no name")?)
}

/// A new store.
pub fn new_store(alloc: Global) -> Result<Store<MemDisk>, Fail>
    ensures { IfOk result IsHeldByNone }
{
    match init_store(alloc, MemDisk::fresh(alloc)?, ID) {
        Ok(store) => Ok(store),
        Err(refused) => {
            let OpenRefused {
                error: _,
                disk: _disk,
            } = refused;
            Err(Fail::from("not made"))
        }
    }
}

/// The store on a disk, or none.
fn opened(alloc: Global, disk: MemDisk) -> Option<Store<MemDisk>>
    ensures { IfSome result IsHeldByNone }
{
    match open_store(alloc, disk, 1) {
        Ok(store) => Some(store),
        Err(refused) => {
            let OpenRefused {
                error: _,
                disk: _disk,
            } = refused;
            None
        }
    }
}

/// The task that delivers a message to INBOX.
pub fn delivery(alloc: Global, message: &[u8]) -> Result<SaveTask, Fail>
    ensures { IfOk result IsFresh }
{
    if message.len() > 67_108_864 {
        return Err(Fail::from("too long"));
    }
    let name = inbox(alloc)?;
    let prepared = prepare(alloc, message)?;
    Ok(SaveTask::of(name, TIME, prepared))
}

/// Of the map log: record 1, which a rebuild found, is 89 octets of storage file 1 from 16 on, with count 1. It has an instance of
/// 131,072 octets: that of number 1, under the hash of so many letters `a`.
const FOUND: &[u8] =
    b"S\x01\0\x01\0\0\0\x01\0\0\0\x01\0\0\0\x10\0\0\0\x59\0\x11\x22\x33\x44\x55\x66\x77\0\0\0\x01\0\0\0\x10\0\x01\xce\x56\x53\x59\x08\x04\xba\xa9\x36\x9f\x72\xd4\x83\xed\x9e\xba\x72\xf0\x4d\x29\0\x11\x22\x33\x44\x55\x66\x77\xff\xff\xff\xff\0\0\0\x01\0\x02\0\0";

/// A disk with a store that has that record. The instance has other octets: as many letters `b`.
fn unlike_disk(alloc: Global) -> Result<MemDisk, Fail> {
    let instance = letters(alloc, b'b', LEAST)?;
    let files = StoreFiles::with(alloc, &[MAKES_INBOX, FOUND], &[], 105)?;
    let mut disk = MemDisk::fresh(alloc)?;
    files.put(&mut disk)?;
    put_file(&mut disk, FileName::Inst(AS.0, ONE.0), &instance)?;
    disk.sync_names()?;
    Ok(disk)
}

/// The store on that disk.
pub fn unlike_store(alloc: Global) -> Result<Store<MemDisk>, Fail>
    ensures { IfOk result IsHeldByNone }
{
    match opened(alloc, unlike_disk(alloc)?) {
        Some(store) => Ok(store),
        None => Err(Fail::from("not opened")),
    }
}
