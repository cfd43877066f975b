// Storage files to which nothing is added until the next opening.
ghost use Rattle.std.specs.Prelude.{◌≡◌, ◌<◌, AllPairs, map};
ghost use Rattle.model_meaning.specs.MapMeaning.{is_own, number_at};
ghost use Rattle.store_files.specs.Barred.{barred_by, all_barred};

use map_index::MapIndex;
use mdbox_base::{Guid, StoreId};
use storage_files::FileState;

/// Bars the files that a record's GUID names at their end or past it. Each GUID is looked at once, and its file is found by
/// search.
pub(crate) fn bar_files(states: &mut [FileState], id: StoreId, map: &MapIndex)
    requires rising { AllPairs (λ a b. a.file.0 < b.file.0) states.old }
    requires id { map.now.meaning.store ≡ id.0 }
    ensures { states.new ≡ all_barred map.now.meaning states.old }
{
    for place in 0..map.rows() {
        let row = map.row_at(place).unwrap();
        bar_file(states, id, row.guid);
    }
}

/// Bars the file that a GUID of this store names at its end or past it, if there is one.
fn bar_file(states: &mut [FileState], id: StoreId, guid: Guid)
    requires rising { AllPairs (λ a b. a.file.0 < b.file.0) states.old }
    ensures { states.new ≡ map (barred_by id.0 guid.0) states.old }
{
    if !is_own(id, guid) {
        return;
    }
    if let Ok(at) = states.binary_search_by_key(&file_of(guid), |s| s.file.0) {
        if states[at].end <= u64::from(offset_of(guid)) {
            states[at].barred = true;
        }
    }
}

/// Whether the store with this id gave the GUID.
fn is_own(id: StoreId, guid: Guid) -> bool
    ensures { result ≡ is_own id.0 guid.0 }
{
    guid.0[..8] == id.0[..]
}

/// The storage file that a GUID names.
fn file_of(guid: Guid) -> u32
    ensures { result ≡ number_at 8 guid.0 }
{
    let octets = guid.0;
    u32::from_be_bytes([octets[8], octets[9], octets[10], octets[11]])
}

/// The offset that a GUID names.
fn offset_of(guid: Guid) -> u32
    ensures { result ≡ number_at 12 guid.0 }
{
    let octets = guid.0;
    u32::from_be_bytes([octets[12], octets[13], octets[14], octets[15]])
}
