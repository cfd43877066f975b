// What is asked of a disk.
ghost use Rattle.std.specs.Prelude.{◌≡◌, ◌≤◌, ◌+◌, length, take, drop, IsErr, IfOk, OnOk};
ghost use Rattle.disk_model.specs.Disk.{IfTold, IsIdle, reading};
ghost use Rattle.disk_model.specs.FaultCounts.{NoFault, ReadFaultCounted};
ghost use Rattle.disk_model.specs.declared.name.FileName.TheVariants as file;
ghost use Rattle.scan_pieces.specs.WindowValue.{IsSizeOf};
ghost use Rattle.storage_files.specs.OnDisk.{piece_read};

use crate::part::HEADER;
use disk_model::{Disk, DiskError, FileName};
use mdbox_base::FileNo;
use storage_files::DiskFault;

/// The size of a storage file; 0 of one that isn't there.
pub fn size_of<D: Disk>(disk: &mut D, number: FileNo) -> Result<u64, DiskFault>
    ensures size { IfOk result (λ size. IfTold (D.history disk.old) (λ now. IsSizeOf (reading (now (file.Mail number.0))) size)) }
    ensures idle { IsIdle (D.history disk.old) (D.history disk.new) }
    ensures fault { ReadFaultCounted (IsErr result) (D.faults disk.old) (D.faults disk.new) }
    ensures unfailed { OnOk result (NoFault (D.faults disk.old) (D.faults disk.new)) }
{
    match disk.length(FileName::Mail(number.0)) {
        Ok(size) => Ok(size),
        Err(DiskError::Absent) => Ok(0),
        Err(DiskError::Failed) => Err(DiskFault),
    }
}

/// Reads a storage file from an offset on into the front of `into`, and answers how many octets; none of one that isn't there.
pub fn read_piece<D: Disk>(
    disk: &mut D,
    number: FileNo,
    offset: u64,
    into: &mut [u8],
) -> Result<usize, DiskFault>
    ensures count { IfOk result (λ n. n ≤ length into.new) }
    ensures piece { IfOk result (λ n. IfTold (D.history disk.old) (λ now. take n into.new ≡ piece_read offset (length into.old) (reading (now (file.Mail number.0))))) }
    ensures idle { IsIdle (D.history disk.old) (D.history disk.new) }
    ensures fault { ReadFaultCounted (IsErr result) (D.faults disk.old) (D.faults disk.new) }
    ensures unfailed { OnOk result (NoFault (D.faults disk.old) (D.faults disk.new)) }
{
    match disk.read_at(FileName::Mail(number.0), offset, into) {
        Ok(count) => Ok(count),
        Err(DiskError::Absent) => Ok(0),
        Err(DiskError::Failed) => Err(DiskFault),
    }
}

/// Reads as much as is wanted behind the first 30 octets of `octets`, which stay.
pub fn fill<D: Disk>(
    disk: &mut D,
    number: FileNo,
    offset: u64,
    octets: &mut [u8],
    wanted: usize,
) -> Result<usize, DiskFault>
    requires { 30 + wanted ≤ length octets.old }
    ensures head { take 30 octets.new ≡ take 30 octets.old }
    ensures count { IfOk result (λ n. n ≤ wanted) }
    ensures piece { IfOk result (λ n. IfTold (D.history disk.old) (λ now. take n (drop 30 octets.new) ≡ piece_read offset wanted (reading (now (file.Mail number.0))))) }
    ensures idle { IsIdle (D.history disk.old) (D.history disk.new) }
    ensures fault { ReadFaultCounted (IsErr result) (D.faults disk.old) (D.faults disk.new) }
    ensures unfailed { OnOk result (NoFault (D.faults disk.old) (D.faults disk.new)) }
{
    read_piece(disk, number, offset, &mut octets[HEADER..HEADER + wanted])
}
