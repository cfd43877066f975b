// Whole stores as octets.
use crate::stores::entries::NAMES_MAP_LOG;
use crate::stores::files::put_unsynced;
use crate::stores::logs::{BOX_HEAD, MAP_HEAD, ROOT_HEAD, log_octets};
use disk_mem::MemDisk;
use disk_model::{DiskError, FileName};
use mdbox_base::NoMemory;
use std::alloc::Global;

/// The files of a store with one mailbox, INBOX.
#[derive(Drop)]
pub struct StoreFiles {
    pub root: Vec<u8>,
    /// The map log, of generation 1.
    pub map: Vec<u8>,
    /// The log of mailbox 1, of generation 1.
    pub inbox: Vec<u8>,
    /// Storage file 1. What it holds isn't read before its messages are.
    pub mail: Vec<u8>,
}

impl StoreFiles {
    /// A store whose map log and INBOX have these entries, and a storage file of this size.
    pub fn with(
        alloc: Global,
        map: &[&[u8]],
        inbox: &[&[u8]],
        size: usize,
    ) -> Result<StoreFiles, NoMemory> {
        let mut mail = Vec::new(alloc);
        mail.resize(size, b'.')?;
        Ok(StoreFiles {
            root: log_octets(alloc, ROOT_HEAD, &[NAMES_MAP_LOG])?,
            map: log_octets(alloc, MAP_HEAD, map)?,
            inbox: log_octets(alloc, BOX_HEAD, inbox)?,
            mail,
        })
    }

    /// Puts the files, by two calls each and not synced.
    pub fn put(&self, disk: &mut MemDisk) -> Result<(), DiskError> {
        put_unsynced(disk, FileName::Root, &self.root)?;
        put_unsynced(disk, FileName::Map(1), &self.map)?;
        put_unsynced(disk, FileName::Box(1, 1), &self.inbox)?;
        put_unsynced(disk, FileName::Mail(1), &self.mail)
    }
}
