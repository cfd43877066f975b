// Which files a store needs.
ghost use Rattle.std.specs.Prelude.{◌≡◌, ◌==◌, ◌&&◌, false, nat_le};
ghost use Rattle.std.specs.List.{position_or_len};
ghost use Rattle.std.specs.Option.{option_map_or};
ghost use Rattle.store_files.specs.Regions.{has_region, end_of};
ghost use Rattle.store_sweep.specs.Wanted.{has_box, has_instance, is_wanted};

use disk_model::FileName;
use map_index::{BoxAt, MapIndex};
use mdbox_base::{FileNo, Hash, InstId};

/// Whether the store needs the file, or it is sealed. The generation is that of the map log in force.
pub fn is_wanted(name: FileName, generation: u32, map: &MapIndex) -> bool
    ensures { result ≡ is_wanted generation map.now.meaning name }
{
    match name {
        FileName::Root => true,
        FileName::Map(other) => other == generation,
        FileName::Box(number, other) => has_box(map, number, other),
        FileName::Mail(number) => map.is_sealed(FileNo(number)) || has_region(map, number),
        FileName::Inst(hash, id) => has_instance(map, Hash(hash), InstId(id)),
    }
}

/// Whether a mailbox of the map has this log.
fn has_box(map: &MapIndex, number: u32, generation: u32) -> bool
    ensures { result ≡ has_box map.now.meaning number generation }
{
    map.known_facts();
    has_log(map.box_at(first_box(map, number)), number, generation)
}

fn has_log(mailbox: Option<BoxAt>, number: u32, generation: u32) -> bool
    ensures { result ≡ option_map_or (λ box. (box.number.0 == number) && (box.generation == generation)) mailbox false }
{
    match mailbox {
        Some(at) => at.number.0 == number && at.generation == generation,
        None => false,
    }
}

/// The place of the first mailbox whose number is this one or greater, else their number.
fn first_box(map: &MapIndex, number: u32) -> u32
    ensures { result ≡ position_or_len (λ box. nat_le number box.number) map.now.meaning.boxes }
{
    map.known_facts();
    let mut low = 0;
    let mut high = map.boxes();
    while low < high {
        let middle = low + (high - low) / 2;
        if map.box_at(middle).unwrap().number.0 < number {
            low = middle + 1;
        } else {
            high = middle;
        }
    }
    low
}

/// Whether a record's region lies in this storage file.
fn has_region(map: &MapIndex, number: u32) -> bool
    ensures { result ≡ has_region map.now.meaning number }
{
    map.last_in_file(FileNo(number)).is_some()
}

/// Whether a record names the instance of this hash and id.
fn has_instance(map: &MapIndex, hash: Hash, id: InstId) -> bool
    ensures { result ≡ has_instance map.now.meaning hash.0 id.0 }
{
    map.names_file(hash, id)
}

/// Where the last region of a storage file ends, or 0.
pub fn end_of(map: &MapIndex, number: u32) -> u64
    ensures { result ≡ end_of map.now.meaning number }
{
    match map.last_in_file(FileNo(number)) {
        Some(row) => row.offset as u64 + row.size as u64,
        None => 0,
    }
}
