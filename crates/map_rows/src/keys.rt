// The numbers by which records are ordered.
ghost use Rattle.std.specs.Prelude.{◌≡◌, ◌+◌, ◌*◌, length};
ghost use Rattle.mdbox_base.specs.Words.{IsOctets};
ghost use Rattle.map_rows.specs.Lookups.{meant_record};
ghost use Rattle.map_rows.specs.Keys.{guid_number, guid_key, place_number, place_key};

use crate::order::OrderKey;
use crate::rows::Record;
use mdbox_base::Guid;

/// How many offsets a file has.
pub const OFFSETS: u64 = 4_294_967_296;

/// A GUID as a number.
pub fn guid_number(guid: Guid) -> u128
    ensures number { result ≡ guid_number guid.0 }
    ensures long { length guid.0 ≡ 16 }
    ensures octets { IsOctets guid.0 }
{
    known_octets(&guid.0);
    u128::from_be_bytes(guid.0)
}

/// Octets are below 256.
fn known_octets(octets: &[u8])
    ensures { IsOctets octets.now }
{
    let _length = octets.len();
}

/// A place in a file as a number.
pub fn place_number(file: u32, offset: u64) -> u128
    ensures { result ≡ place_number file offset }
{
    u128::from(file) * u128::from(OFFSETS) + u128::from(offset)
}

/// The key of a record in the order by GUID.
pub fn guid_key(of: &Record) -> OrderKey
    ensures key { result ≡ guid_key (meant_record of.now) }
    ensures long { length of.now.row.guid.0 ≡ 16 }
    ensures octets { IsOctets of.now.row.guid.0 }
{
    OrderKey {
        number: guid_number(of.row.guid),
        uid: of.row.uid,
    }
}

/// The key of a record in the order by place.
pub fn place_key(of: &Record) -> OrderKey
    ensures { result ≡ place_key (meant_record of.now) }
{
    OrderKey {
        number: place_number(of.row.file.0, u64::from(of.row.offset)),
        uid: of.row.uid,
    }
}
