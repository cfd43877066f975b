// The fields of a stored message's entry before its instances.
ghost use Rattle.std.specs.Prelude.{◌≡◌, ◌+◌, ◌<◌, ◌≤◌, ◌++◌, length, take, MatchOption};
ghost use Rattle.log_records.specs.Stored.{stored_text, StoredInRange};

use crate::fields::{array_at, number_at, octet_at, put, short_at};
use mdbox_base::{FileNo, Guid, MapUid};

/// A message of the map as its entry stores it: where its region lies, and its count.
#[derive(Clone, Copy)]
pub struct Stored {
    pub origin: u8,
    pub count: u16,
    pub uid: MapUid,
    pub file: FileNo,
    pub offset: u32,
    pub size: u32,
    pub guid: Guid,
}

/// How many octets the fields have.
pub const STORED_SIZE: usize = 35;

/// The fields in front, and what follows them.
pub fn stored_at(text: &[u8]) -> Option<(Stored, &[u8])>
    ensures { MatchOption result (length text.now < 35) (λ found. (text.now ≡ stored_text found.0 ++ found.1.now) × StoredInRange found.0) }
{
    let (origin, rest) = octet_at(text)?;
    let (count, rest) = short_at(rest)?;
    let (uid, rest) = number_at(rest)?;
    let (file, rest) = number_at(rest)?;
    let (offset, rest) = number_at(rest)?;
    let (size, rest) = number_at(rest)?;
    let (guid, rest) = array_at(rest)?;
    let stored = Stored {
        origin,
        count,
        uid: MapUid(uid),
        file: FileNo(file),
        offset,
        size,
        guid: Guid(guid),
    };
    Some((stored, rest))
}

/// Writes the fields, and answers the place behind them.
pub fn put_stored(into: &mut [u8], place: usize, stored: Stored) -> usize
    requires { place + 35 ≤ length into.old }
    ensures behind { result ≡ place + 35 }
    ensures front { take result into.new ≡ take place into.old ++ stored_text stored }
    ensures length { length into.new ≡ length into.old }
{
    let place = put(into, place, &[stored.origin]);
    let place = put(into, place, &stored.count.to_be_bytes());
    let place = put(into, place, &stored.uid.0.to_be_bytes());
    let place = put(into, place, &stored.file.0.to_be_bytes());
    let place = put(into, place, &stored.offset.to_be_bytes());
    let place = put(into, place, &stored.size.to_be_bytes());
    put(into, place, &stored.guid.0)
}
