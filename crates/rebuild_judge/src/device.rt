// What is read of a disk.
ghost use Rattle.std.specs.Prelude.{◌≡◌, ◌≤◌, length, take, vec_len, IfOk, IfErr, IsErrOf};
ghost use Rattle.std.specs.Option.{option_map};
ghost use Rattle.disk_model.specs.Disk.{IfTold, IsIdle, reading};
ghost use Rattle.disk_model.specs.FaultCounts.{NoFault, ReadFaultCounted};
ghost use Rattle.storage_files.specs.OnDisk.{piece_read};
ghost use Rattle.rebuild_files.specs.declared.error.RebuildError.TheVariants as rebuild;

use disk_model::{Disk, DiskError, FileName};
use mdbox_base::NoMemory;
use rebuild_files::RebuildError;
use std::alloc::Global;

/// Reads so many octets of a file from an offset on: fewer if the file ends before, and none of one that isn't there.
pub fn read_part<D: Disk>(
    alloc: Global,
    disk: &mut D,
    name: FileName,
    offset: u64,
    size: u64,
) -> Result<Vec<u8>, RebuildError>
    ensures part { IfOk result (λ part. IfTold (D.history disk.old) (λ now. part.items ≡ piece_read offset size (reading (now name)))) }
    ensures whole { IsErrOf result RebuildError.StoreWhole → ⊥ }
    ensures idle { IsIdle (D.history disk.old) (D.history disk.new) }
    ensures fault { ReadFaultCounted (IsErrOf result RebuildError.DiskFault) (D.faults disk.old) (D.faults disk.new) }
    ensures unfailed { (IsErrOf result RebuildError.DiskFault → ⊥) → NoFault (D.faults disk.old) (D.faults disk.new) }
{
    let mut part = zeros(alloc, size)?;
    let count = read_into(disk, name, offset, &mut part)?;
    part.truncate(count);
    Ok(part)
}

/// So many octets, each 0.
fn zeros(alloc: Global, size: u64) -> Result<Vec<u8>, NoMemory>
    ensures { IfOk result (λ octets. vec_len octets ≡ size) }
{
    let mut octets = Vec::new(alloc);
    octets.resize(size as usize, 0)?;
    Ok(octets)
}

/// Reads octets of a file from an offset on into the front of `into`, and answers how many.
fn read_into<D: Disk>(
    disk: &mut D,
    name: FileName,
    offset: u64,
    into: &mut [u8],
) -> Result<usize, RebuildError>
    ensures count { IfOk result (λ n. n ≤ length into.new) }
    ensures piece { IfOk result (λ n. IfTold (D.history disk.old) (λ now. take n into.new ≡ piece_read offset (length into.old) (reading (now name)))) }
    ensures failed { IfErr result (λ error. error ≡ rebuild.DiskFault) }
    ensures idle { IsIdle (D.history disk.old) (D.history disk.new) }
    ensures fault { ReadFaultCounted (IsErrOf result RebuildError.DiskFault) (D.faults disk.old) (D.faults disk.new) }
    ensures unfailed { (IsErrOf result RebuildError.DiskFault → ⊥) → NoFault (D.faults disk.old) (D.faults disk.new) }
{
    match disk.read_at(name, offset, into) {
        Ok(count) => Ok(count),
        Err(DiskError::Absent) => Ok(0),
        Err(DiskError::Failed) => Err(RebuildError::DiskFault),
    }
}

/// How many octets a file has. None if and only if it isn't there.
pub fn length_of<D: Disk>(disk: &mut D, name: FileName) -> Result<Option<u64>, RebuildError>
    ensures size { IfOk result (λ size. IfTold (D.history disk.old) (λ now. option_map length (reading (now name)) ≡ size)) }
    ensures failed { IfErr result (λ error. error ≡ rebuild.DiskFault) }
    ensures idle { IsIdle (D.history disk.old) (D.history disk.new) }
    ensures fault { ReadFaultCounted (IsErrOf result RebuildError.DiskFault) (D.faults disk.old) (D.faults disk.new) }
    ensures unfailed { (IsErrOf result RebuildError.DiskFault → ⊥) → NoFault (D.faults disk.old) (D.faults disk.new) }
{
    match disk.length(name) {
        Ok(size) => Ok(Some(size)),
        Err(DiskError::Absent) => Ok(None),
        Err(DiskError::Failed) => Err(RebuildError::DiskFault),
    }
}
