// The instances of a store that passed the checks.
ghost use Rattle.std.specs.Prelude.{◌≡◌, ◌<◌, ◌^◌, length, IfOk};
ghost use Rattle.store_instances.specs.FoundInstances.{AreInstancesSound, IsFoundInstances};

use crate::named::{all_named, rows_of};
use map_index::MapIndex;
use mdbox_base::{NoMemory, Seq, StoreId};
use sis_store::Instances;
use std::alloc::Global;

/// The instances that records of the map name, each once, which nobody holds. The greatest running number that was drawn is
/// that of the map.
pub fn find_instances(alloc: Global, id: StoreId, map: &MapIndex) -> Result<Instances, NoMemory>
    requires id { map.now.meaning.store ≡ id.0 }
    requires sound { AreInstancesSound map.now.meaning }
    ensures { IfOk result (IsFoundInstances map.now.meaning) }
{
    let mut named = all_named(alloc, map)?;
    named.sort_unstable();
    named.dedup();
    let rows = rows_of(alloc, &named)?;
    let highest = highest_of(map);
    Instances::of(alloc, Seq::of(rows), sized(id.0), highest)
}

/// The greatest running number that the map names.
fn highest_of(map: &MapIndex) -> u32
    ensures same { result ≡ map.now.meaning.highest.instance }
    ensures small { result < 2 ^ 32 }
{
    map.highest().instance
}

/// The store id of these octets.
fn sized(octets: [u8; 8]) -> StoreId
    ensures same { result ≡ record { 0 = octets } }
    ensures size { length octets ≡ 8 }
{
    StoreId(octets)
}
