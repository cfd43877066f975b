// The first octets of a log.
ghost use Rattle.std.specs.Prelude.{◌≡◌, take, drop, IfOk, OnOk, IsErr};
ghost use Rattle.disk_model.specs.FaultCounts.{NoFault, ReadFaultCounted};
ghost use Rattle.disk_model.specs.Disk.{IfTold, reading, IsIdle};
ghost use Rattle.gate_log.specs.Reading.{IsPeekedFront};

use crate::error::DiskFault;
use disk_model::{Disk, DiskError, FileName};
use mdbox_base::StoreId;

/// How many octets tell whether a log has an entry: its head, its first gate, and one octet behind that.
pub const FRONT_SIZE: usize = 27;

/// The first octets of a log. None where its file has fewer, or where there is none.
pub fn peek_head<D: Disk>(disk: &mut D, name: FileName) -> Result<Option<[u8; 27]>, DiskFault>
    ensures front { IfOk result (λ front. IfTold (D.history disk.old) (λ now. IsPeekedFront (reading (now name)) front)) }
    ensures idle { IsIdle (D.history disk.old) (D.history disk.new) }
    ensures fault { ReadFaultCounted (IsErr result) (D.faults disk.old) (D.faults disk.new) }
    ensures unfailed { OnOk result (NoFault (D.faults disk.old) (D.faults disk.new)) }
{
    let mut front = [0; FRONT_SIZE];
    let count = match disk.read_at(name, 0, &mut front) {
        Ok(count) => count,
        Err(DiskError::Absent) => return Ok(None),
        Err(DiskError::Failed) => return Err(DiskFault),
    };
    if count < FRONT_SIZE {
        return Ok(None);
    }
    Ok(Some(front))
}

/// The store's id, as the first octets of a log spell it.
pub fn id_in(front: &[u8; 27]) -> StoreId
    ensures { result.0 ≡ take 8 (drop 8 front.now) }
{
    let mut id = [0; 8];
    id.copy_from_slice(&front[8..16]);
    StoreId(id)
}
