// Logs as octets.
use mdbox_base::{NoMemory, StoreId};
use model_logs::{LogHead, LogKind};
use std::alloc::Global;

/// The store of the logs.
pub const ID: StoreId = StoreId([0x00, 0x11, 0x22, 0x33, 0x44, 0x55, 0x66, 0x77]);

pub const ROOT_HEAD: LogHead = LogHead {
    version: 1,
    store: ID,
    kind: LogKind::Root,
    number: 0,
    generation: 0,
};

/// The head of the map log of generation 1.
pub const MAP_HEAD: LogHead = LogHead {
    version: 1,
    store: ID,
    kind: LogKind::Map,
    number: 0,
    generation: 1,
};

/// The head of the log of mailbox 1, of generation 1.
pub const BOX_HEAD: LogHead = LogHead {
    version: 2,
    store: ID,
    kind: LogKind::Box,
    number: 1,
    generation: 1,
};

/// A log with these entries: its head, and before each record an open gate, with a closed one at the end.
pub fn log_octets(alloc: Global, head: LogHead, entries: &[&[u8]]) -> Result<Vec<u8>, NoMemory> {
    let mut octets = b"MDBXLOG".to_vec(alloc)?;
    octets.push(head.version.wrapping_add(b'0'))?;
    octets.extend_from_slice(&head.store.0)?;
    octets.push(match head.kind {
        LogKind::Root => b'R',
        LogKind::Map => b'M',
        LogKind::Box => b'B',
    })?;
    octets.extend_from_slice(&head.number.to_be_bytes())?;
    octets.extend_from_slice(&head.generation.to_be_bytes())?;
    for entry in entries {
        octets.push(1)?;
        octets.extend_from_slice(&(entry.len() as u64).to_be_bytes()[4..])?;
        octets.extend_from_slice(entry)?;
    }
    octets.push(0)?;
    Ok(octets)
}
