// The fields of an added message's entry before its keywords.
ghost use Rattle.std.specs.Prelude.{◌≡◌, ◌+◌, ◌<◌, ◌≤◌, ◌++◌, length, take, MatchOption};
ghost use Rattle.log_records.specs.Added.{added_text, AddedInRange};

use crate::fields::{array_at, long_at, number_at, octet_at, put};
use mdbox_base::{Guid, MapUid, Uid};

/// A message as the entry that adds it has it, but for its keywords.
#[derive(Clone, Copy)]
pub struct Added {
    pub uid: Uid,
    pub flags: u8,
    pub time: u64,
    pub size: u32,
    pub map_uid: MapUid,
    pub guid: Guid,
}

/// How many octets the fields have.
pub const ADDED_SIZE: usize = 37;

/// The fields in front, and what follows them.
pub fn added_at(text: &[u8]) -> Option<(Added, &[u8])>
    ensures { MatchOption result (length text.now < 37) (λ found. (text.now ≡ added_text found.0 ++ found.1.now) × AddedInRange found.0) }
{
    let (uid, rest) = number_at(text)?;
    let (flags, rest) = octet_at(rest)?;
    let (time, rest) = long_at(rest)?;
    let (size, rest) = number_at(rest)?;
    let (map_uid, rest) = number_at(rest)?;
    let (guid, rest) = array_at(rest)?;
    let added = Added {
        uid: Uid(uid),
        flags,
        time,
        size,
        map_uid: MapUid(map_uid),
        guid: Guid(guid),
    };
    Some((added, rest))
}

/// Writes the fields, and answers the place behind them.
pub fn put_added(into: &mut [u8], place: usize, added: Added) -> usize
    requires { place + 37 ≤ length into.old }
    ensures behind { result ≡ place + 37 }
    ensures front { take result into.new ≡ take place into.old ++ added_text added }
    ensures length { length into.new ≡ length into.old }
{
    let place = put(into, place, &added.uid.0.to_be_bytes());
    let place = put(into, place, &[added.flags]);
    let place = put(into, place, &added.time.to_be_bytes());
    let place = put(into, place, &added.size.to_be_bytes());
    let place = put(into, place, &added.map_uid.0.to_be_bytes());
    put(into, place, &added.guid.0)
}
