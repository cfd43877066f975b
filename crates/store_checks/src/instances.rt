// Instances that records name.
ghost use Rattle.std.specs.Prelude.{◌≡◌, ◌↔◌, IsTrue, Some, length, All, AllPairs, IsPermutation, IfOk, IfErr, OnOk, IsErrOf};
ghost use Rattle.disk_model.specs.Disk.{IfTold, IsIdle};
ghost use Rattle.model_store.specs.Settled.{files_of};
ghost use Rattle.model_store.specs.Safe.{IsThereWhole};
ghost use Rattle.model_meaning.specs.MapMeaning.{named_instances};
ghost use Rattle.disk_model.specs.FaultCounts.{NoFault, ReadFaultCounted};
ghost use Rattle.store_checks.specs.Lengths.{instance_of, instances_in, IsNamedNoLater, IsInstanceCause};

use crate::error::CheckError;
use crate::lengths::length_of;
use disk_model::{Disk, FileName};
use map_index::MapIndex;
use mdbox_base::{Hash, InstId, InstRow, NoMemory};
use std::alloc::Global;

/// An instance with its size in octets. Instances are ordered by their names.
#[derive(Clone, Copy, PartialEq, Eq, PartialOrd, Ord)]
pub struct Instance {
    pub hash: Hash,
    pub id: InstId,
    pub size: u32,
}

impl Instance {
    /// Whether a file of this length has its size.
    fn has_length(&self, length: Option<u64>) -> bool
        ensures { IsTrue result ↔ (length ≡ Some self.now.size) }
    {
        match length {
            Some(length) => length == self.size as u64,
            None => false,
        }
    }
}

/// Looks whether each instance that a record names is there with its size. The first that isn't, in the order of names, is
/// damaged.
pub fn check_instances<D: Disk>(
    alloc: Global,
    disk: &mut D,
    map: &MapIndex,
) -> Result<(), CheckError>
    ensures passed { OnOk result (IfTold (D.history disk.old) (λ now. All (IsThereWhole (files_of now)) (named_instances map.now.meaning))) }
    ensures refused { IfErr result (IsInstanceCause map.now.meaning (D.history disk.old)) }
    ensures idle { IsIdle (D.history disk.old) (D.history disk.new) }
    ensures fault { ReadFaultCounted (IsErrOf result CheckError.DiskFault) (D.faults disk.old) (D.faults disk.new) }
    ensures unfailed { (IsErrOf result CheckError.DiskFault → ⊥) → NoFault (D.faults disk.old) (D.faults disk.new) }
{
    let instances = instances_of(alloc, map)?;
    let mut asked = None;
    for inst in &instances {
        let name = FileName::Inst(inst.hash.0, inst.id.0);
        let length = length_of(disk, &mut asked, name)?;
        if !inst.has_length(length) {
            return Err(CheckError::Damaged(name, 0));
        }
    }
    Ok(())
}

/// The instances that records name, in order.
fn instances_of(alloc: Global, map: &MapIndex) -> Result<Vec<Instance>, NoMemory>
    ensures same { IfOk result (λ instances. IsPermutation (instances_in map.now.meaning) instances.items) }
    ensures order { IfOk result (λ instances. AllPairs IsNamedNoLater instances.items) }
{
    let mut instances = Vec::new(alloc);
    for place in 0..map.rows() {
        for inst in map.instances_at(place).unwrap().as_slice() {
            instances.push(instance_of(inst))?;
        }
    }
    instances.sort_unstable();
    Ok(instances)
}

fn instance_of(inst: &InstRow) -> Instance
    ensures same { result ≡ instance_of inst.now }
    ensures hash { length result.hash.0 ≡ 20 }
{
    Instance {
        hash: sized(inst.hash.0),
        id: inst.id,
        size: inst.size,
    }
}

/// The hash of these octets.
fn sized(octets: [u8; 20]) -> Hash
    ensures same { result ≡ record { 0 = octets } }
    ensures size { length octets ≡ 20 }
{
    Hash(octets)
}
