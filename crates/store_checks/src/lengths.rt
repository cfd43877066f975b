// Lengths of files.
ghost use Rattle.std.specs.Prelude.{◌≡◌, length, Some, IfOk, IfErr, OnOk, IsErr};
ghost use Rattle.std.specs.Option.{option_map};
ghost use Rattle.disk_model.specs.Disk.{IfTold, reading, IsIdle};
ghost use Rattle.disk_model.specs.FaultCounts.{NoFault, ReadFaultCounted};
ghost use Rattle.store_checks.specs.Lengths.{IsAsked};

use crate::error::CheckError;
use disk_model::{Disk, DiskError, FileName, same_file};

/// The length of a file, None where there is none.
#[derive(Clone, Copy)]
pub struct Asked {
    pub name: FileName,
    pub length: Option<u64>,
}

/// The length of a file, None where there is none. The disk is asked only if the file asked last was another.
pub fn length_of<D: Disk>(
    disk: &mut D,
    last: &mut Option<Asked>,
    name: FileName,
) -> Result<Option<u64>, CheckError>
    requires { IsAsked last.old (D.history disk.old) }
    ensures length { IfOk result (λ found. IfTold (D.history disk.old) (λ now. option_map length (reading (now name)) ≡ found)) }
    ensures asked { IsAsked last.new (D.history disk.new) }
    ensures refused { IfErr result (λ error. error ≡ CheckError.DiskFault) }
    ensures idle { IsIdle (D.history disk.old) (D.history disk.new) }
    ensures fault { ReadFaultCounted (IsErr result) (D.faults disk.old) (D.faults disk.new) }
    ensures unfailed { OnOk result (NoFault (D.faults disk.old) (D.faults disk.new)) }
{
    if let Some(asked) = last {
        if same_file(asked.name, name) {
            return Ok(asked.length);
        }
    }
    let length = match disk.length(name) {
        Ok(length) => Some(length),
        Err(DiskError::Absent) => None,
        Err(DiskError::Failed) => return Err(CheckError::DiskFault),
    };
    *last = Some(Asked { name, length });
    Ok(length)
}
