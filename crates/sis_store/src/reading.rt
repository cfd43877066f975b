// Instances that are read and compared.
ghost use Rattle.std.specs.Prelude.{◌≡◌, ◌↔◌, ◌<◌, ◌≤◌, IsTrue, length, take, drop, Some, OnOk, IfOk, IsErr};
ghost use Rattle.disk_model.specs.FaultCounts.{NoFault, ReadFaultCounted};
ghost use Rattle.disk_model.specs.Disk.{IfTold, reading, IsIdle};
ghost use Rattle.sis_store.specs.Instances.{IsInstanceKnown};
ghost use Rattle.sis_store.specs.OnDisk.{file_of, octets_read};

use crate::device::read_from;
use crate::error::DiskFault;
use crate::instances::Instances;
use disk_model::{Disk, DiskError, FileName};
use mdbox_base::InstId;

/// How many octets are compared at a time.
const PIECE: usize = 4096;

impl Instances {
    /// Whether an instance is just these octets, all of them.
    pub fn same_octets<D: Disk>(
        &self,
        disk: &mut D,
        id: InstId,
        octets: &[u8],
    ) -> Result<bool, DiskFault>
        requires { IsInstanceKnown id self.now.known }
        ensures same { IfOk result (λ same. IfTold (D.history disk.old) (λ now. IsTrue same ↔ (reading (now (file_of id self.now.known)) ≡ Some octets.now))) }
        ensures idle { IsIdle (D.history disk.old) (D.history disk.new) }
        ensures fault { ReadFaultCounted (IsErr result) (D.faults disk.old) (D.faults disk.new) }
        ensures unfailed { OnOk result (NoFault (D.faults disk.old) (D.faults disk.new)) }
    {
        reads_as(disk, self.file_of(id), octets)
    }

    /// Reads an instance from an offset on into the front of `into`, to the end of either, and answers how many octets: 0 if
    /// its file isn't there. After a fault `into` may hold any octets.
    pub fn read_instance<D: Disk>(
        &self,
        disk: &mut D,
        id: InstId,
        offset: u64,
        into: &mut [u8],
    ) -> Result<usize, DiskFault>
        requires { IsInstanceKnown id self.now.known }
        ensures count { IfOk result (λ n. n ≤ length into.new) }
        ensures piece { IfOk result (λ n. IfTold (D.history disk.old) (λ now. take n into.new ≡ octets_read offset (length into.old) (reading (now (file_of id self.now.known))))) }
        ensures rest { IfOk result (λ n. drop n into.new ≡ drop n into.old) }
        ensures idle { IsIdle (D.history disk.old) (D.history disk.new) }
        ensures fault { ReadFaultCounted (IsErr result) (D.faults disk.old) (D.faults disk.new) }
        ensures unfailed { OnOk result (NoFault (D.faults disk.old) (D.faults disk.new)) }
    {
        read_from(disk, self.file_of(id), offset, into)
    }
}

/// Whether a file is just these octets. It is read in pieces.
fn reads_as<D: Disk>(disk: &mut D, name: FileName, octets: &[u8]) -> Result<bool, DiskFault>
    ensures same { IfOk result (λ same. IfTold (D.history disk.old) (λ now. IsTrue same ↔ (reading (now name) ≡ Some octets.now))) }
    ensures idle { IsIdle (D.history disk.old) (D.history disk.new) }
    ensures fault { ReadFaultCounted (IsErr result) (D.faults disk.old) (D.faults disk.new) }
    ensures unfailed { OnOk result (NoFault (D.faults disk.old) (D.faults disk.new)) }
{
    match disk.length(name) {
        Ok(length) => {
            if length != octets.len() as u64 {
                return Ok(false);
            }
        }
        Err(DiskError::Absent) => return Ok(false),
        Err(DiskError::Failed) => return Err(DiskFault),
    }
    let mut at = 0;
    while at < octets.len() {
        let end = octets.len().min(at + PIECE);
        if !reads_piece(disk, name, at as u64, &octets[at..end])? {
            return Ok(false);
        }
        at = end;
    }
    Ok(true)
}

/// Whether a file has these octets at an offset.
fn reads_piece<D: Disk>(
    disk: &mut D,
    name: FileName,
    offset: u64,
    octets: &[u8],
) -> Result<bool, DiskFault>
    requires { length octets.now ≤ 4096 }
    ensures same { IfOk result (λ same. IfTold (D.history disk.old) (λ now. IsTrue same ↔ (octets_read offset (length octets.now) (reading (now name)) ≡ octets.now))) }
    ensures idle { IsIdle (D.history disk.old) (D.history disk.new) }
    ensures fault { ReadFaultCounted (IsErr result) (D.faults disk.old) (D.faults disk.new) }
    ensures unfailed { OnOk result (NoFault (D.faults disk.old) (D.faults disk.new)) }
{
    let mut buffer = [0; PIECE];
    let piece = &mut buffer[..octets.len()];
    let count = read_from(disk, name, offset, piece)?;
    Ok(&piece[..count] == octets)
}
