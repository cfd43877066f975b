// Octets that are saved as an instance, once.
ghost use Rattle.std.specs.Prelude.{◌≡◌, ◌≤◌, ◌∷◌, [], length, IfOk, IfSome, IsNone, Some, OnOk, is_none};
ghost use Rattle.sis_store.specs.Instances.{IsInstanceKnown};
ghost use Rattle.sis_store.specs.OnDisk.{IsUnlikeKnown};

use crate::stores::{ID, file_octets};
use disk_mem::MemDisk;
use disk_model::{Disk, FileName};
use mdbox_base::{Hash, InstId, InstRow, NoMemory, Seq};
use sis_store::{DiskFault, Instances, PlaceFault, candidates_are_compared, next_ones_are_known};
use std::alloc::Global;
use std::test::Fail;

/// The SHA-1 hash of `abc` (FIPS 180-4).
pub const ABC: Hash = Hash([
    0xa9, 0x99, 0x3e, 0x36, 0x47, 0x06, 0x81, 0x6a, 0xba, 0x3e, 0x25, 0x71, 0x78, 0x50, 0xc2, 0x6c,
    0x9c, 0xd0, 0xd8, 0x9d,
]);

/// The id of a running number below 256.
pub fn instance_id(number: u8) -> InstId {
    InstId([
        0x00, 0x11, 0x22, 0x33, 0x44, 0x55, 0x66, 0x77, 0xff, 0xff, 0xff, 0xff, 0, 0, 0, number,
    ])
}

/// A store without instances, in which numbers up to this one were drawn.
pub fn none_known(alloc: Global, highest: u32) -> Result<Instances, NoMemory>
    requires { highest ≤ 4294967294 }
{
    Instances::of(alloc, Seq::empty(alloc), ID, highest)
}

/// A store with one instance, whose id is of another form.
pub fn foreign(alloc: Global, hash: Hash, size: u32) -> Result<Instances, NoMemory> {
    let row = InstRow {
        hash,
        id: InstId(*b"id of sixteen oc"),
        size,
    };
    Instances::of(alloc, Seq::of(vec![in alloc; row]?), ID, 0)
}

/// The known instance that has these octets.
fn equal_one<D: Disk>(
    disk: &mut D,
    instances: &Instances,
    hash: Hash,
    octets: &[u8],
) -> Result<Option<InstId>, DiskFault>
    requires { length octets.now ≤ 4294967295 }
    ensures { IfOk result (λ found. IsNone found → IsUnlikeKnown hash (length octets.now) octets.now instances.now.known (D.history disk.new)) }
{
    candidates_are_compared();
    instances.known_facts();
    let size = octets.len() as u32;
    let mut after = None;
    while let Some(id) = instances.candidate(hash, size, after) {
        if instances.same_octets(disk, id, octets)? {
            return Ok(Some(id));
        }
        after = Some(id);
    }
    Ok(None)
}

/// Saves octets, unless an instance has them, and answers the instance.
pub fn save(
    disk: &mut MemDisk,
    instances: &mut Instances,
    hash: Hash,
    octets: &[u8],
) -> Result<InstId, PlaceFault>
    requires { length octets.now ≤ 4294967295 }
{
    match equal_one(disk, instances, hash, octets)? {
        Some(id) => Ok(id),
        None => instances.place_instance(disk, hash, octets),
    }
}

/// Removes the instance that nobody holds with the least id.
pub fn remove_first(disk: &mut MemDisk, instances: &mut Instances) -> Result<bool, DiskFault> {
    next_ones_are_known();
    instances.known_facts();
    match instances.next_unheld(None) {
        Some(id) => {
            instances.remove_instance(disk, id)?;
            Ok(true)
        }
        None => Ok(false),
    }
}

/// Lets an instance go, if somebody holds it.
pub fn let_go(instances: &mut Instances, id: InstId) {
    if instances.is_held(id) {
        instances.let_go(id);
    }
}

/// Whether a file has just these octets.
pub fn has_octets(
    alloc: Global,
    disk: &mut MemDisk,
    name: FileName,
    octets: &[u8],
) -> Result<bool, Fail> {
    let found = file_octets(alloc, disk, name)?;
    Ok(found.as_slice() == octets)
}
