// The instances that references name.
ghost use Rattle.std.specs.Prelude.{◌≡◌, IfOk, IfSome, IsErrOf, length};
ghost use Rattle.disk_model.specs.Disk.{IfTold, IsIdle};
ghost use Rattle.disk_model.specs.FaultCounts.{NoFault, ReadFaultCounted};
ghost use Rattle.rebuild_judge.specs.Reading.{AreSizesOn, AreOctetsOn};

use crate::device::{length_of, read_part};
use disk_model::{Disk, FileName};
use mdbox_base::{ExtRef, Octets, Seq};
use rebuild_files::RebuildError;
use std::alloc::Global;

/// The sizes of the instances that references name, in order. None if one isn't there.
pub fn instance_sizes<D: Disk>(
    alloc: Global,
    disk: &mut D,
    refs: &[ExtRef],
) -> Result<Option<Seq<u64>>, RebuildError>
    ensures sizes { IfOk result (λ sizes. IfTold (D.history disk.old) (AreSizesOn refs.now sizes)) }
    ensures one_each { IfOk result (λ sizes. IfSome sizes (λ s. length s ≡ length refs.now)) }
    ensures whole { IsErrOf result RebuildError.StoreWhole → ⊥ }
    ensures idle { IsIdle (D.history disk.old) (D.history disk.new) }
    ensures fault { ReadFaultCounted (IsErrOf result RebuildError.DiskFault) (D.faults disk.old) (D.faults disk.new) }
    ensures unfailed { (IsErrOf result RebuildError.DiskFault → ⊥) → NoFault (D.faults disk.old) (D.faults disk.new) }
{
    let mut sizes = Seq::empty(alloc);
    let mut rest = refs;
    while let Some((reference, others)) = rest.split_first() {
        let name = FileName::Inst(reference.hash.0, reference.id.0);
        let Some(size) = length_of(disk, name)? else {
            return Ok(None);
        };
        sizes.push(size)?;
        rest = others;
    }
    Ok(Some(sizes))
}

/// The octets of the instances that references name, in order. None if one isn't there.
pub fn instance_octets<D: Disk>(
    alloc: Global,
    disk: &mut D,
    refs: &[ExtRef],
) -> Result<Option<Seq<Octets>>, RebuildError>
    ensures octets { IfOk result (λ found. IfTold (D.history disk.old) (AreOctetsOn refs.now found)) }
    ensures one_each { IfOk result (λ found. IfSome found (λ octets. length octets ≡ length refs.now)) }
    ensures whole { IsErrOf result RebuildError.StoreWhole → ⊥ }
    ensures idle { IsIdle (D.history disk.old) (D.history disk.new) }
    ensures fault { ReadFaultCounted (IsErrOf result RebuildError.DiskFault) (D.faults disk.old) (D.faults disk.new) }
    ensures unfailed { (IsErrOf result RebuildError.DiskFault → ⊥) → NoFault (D.faults disk.old) (D.faults disk.new) }
{
    let mut found = Seq::empty(alloc);
    let mut rest = refs;
    while let Some((reference, others)) = rest.split_first() {
        let name = FileName::Inst(reference.hash.0, reference.id.0);
        let Some(size) = length_of(disk, name)? else {
            return Ok(None);
        };
        let octets = read_part(alloc, disk, name, 0, size)?;
        found.push(Octets::of(octets))?;
        rest = others;
    }
    Ok(Some(found))
}
