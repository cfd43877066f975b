// Records of the map, in order of map uid.
ghost use Rattle.std.specs.Prelude.{◌≡◌, ◌+◌, ◌<◌, ◌==◌, AllPairs, find};
ghost use Rattle.std.specs.Option.{option_copied};
ghost use Rattle.std.specs.List.{position_or_len};

use mdbox_base::{FileNo, Guid, InstRow, MapUid, Seq};

/// A record of the map: a message in a region of `size` octets of a storage file, from `offset` on. Origin 0 is stored,
/// 1 is found by a rebuild. The count says how often it is referred to.
#[derive(Clone, Copy, Debug, PartialEq, Eq)]
pub struct MapRow {
    pub uid: MapUid,
    pub origin: u8,
    pub count: u16,
    pub file: FileNo,
    pub offset: u32,
    pub size: u32,
    pub guid: Guid,
}

impl MapRow {
    /// Where the region ends.
    pub fn end(&self) -> u64
        ensures { result ≡ self.now.offset + self.now.size }
    {
        self.offset as u64 + self.size as u64
    }
}

/// A record with the instances that it names.
#[derive(Drop)]
pub struct Record {
    pub row: MapRow,
    pub instances: Seq<InstRow>,
}

/// The record with this map uid, by search.
pub fn with_uid(records: &[Record], uid: MapUid) -> Option<&Record>
    requires { AllPairs (λ a b. a.row.uid.0 < b.row.uid.0) records.now }
    ensures { option_copied result ≡ find (λ r. r.row.uid.0 == uid.0) records.now }
{
    let place = place_with_uid(records, uid);
    if place < records.len() {
        Some(&records[place])
    } else {
        None
    }
}

/// The place of the record with this map uid, by search; else how many records there are.
pub fn place_with_uid(records: &[Record], uid: MapUid) -> usize
    requires { AllPairs (λ a b. a.row.uid.0 < b.row.uid.0) records.now }
    ensures { result ≡ position_or_len (λ r. r.row.uid.0 == uid.0) records.now }
{
    // Where it is if none was dropped of those before it.
    let first = records.first().map_or(0, |record| record.row.uid.0);
    let guess = uid.0.saturating_sub(first) as usize;
    match records.get(guess) {
        Some(record) if record.row.uid.0 == uid.0 => return guess,
        _ => {}
    }
    match records.binary_search_by_key(&uid.0, |record| record.row.uid.0) {
        Ok(place) => place,
        Err(_) => records.len(),
    }
}
