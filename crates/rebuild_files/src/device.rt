// What is asked of a disk.
ghost use Rattle.std.specs.Prelude.{◌≡◌, ◌↔◌, IsTrue, IsErr, IfOk, IfSome, OnOk, Some};
ghost use Rattle.disk_model.specs.Disk.{IfTold, IsThere, IsIdle, IsPast, IsNext};
ghost use Rattle.disk_model.specs.FaultCounts.{NoFault, ReadFaultCounted};
ghost use Rattle.disk_model.specs.Name.{IsNameInRange};
ghost use Rattle.rebuild_files.specs.Listing.{IsNextLog};

use disk_model::{Disk, DiskError, FileName, is_log, known_range};
use gate_log::DiskFault;

/// Whether a file of this name is there.
pub fn is_there<D: Disk>(disk: &mut D, name: FileName) -> Result<bool, DiskFault>
    ensures told { IfOk result (λ there. IfTold (D.history disk.old) (λ now. IsTrue there ↔ IsThere (now name))) }
    ensures idle { IsIdle (D.history disk.old) (D.history disk.new) }
    ensures fault { ReadFaultCounted (IsErr result) (D.faults disk.old) (D.faults disk.new) }
    ensures unfailed { OnOk result (NoFault (D.faults disk.old) (D.faults disk.new)) }
{
    match disk.length(name) {
        Ok(_) => Ok(true),
        Err(DiskError::Absent) => Ok(false),
        Err(DiskError::Failed) => Err(DiskFault),
    }
}

/// The least name of a file that is there and greater than this one.
pub fn next_name<D: Disk>(disk: &mut D, last: FileName) -> Result<Option<FileName>, DiskFault>
    ensures past { IfOk result (λ next. IfSome next (IsPast ⟦<FileName as Ord>⟧.cmp (Some last))) }
    ensures range { IfOk result (λ next. IfSome next IsNameInRange) }
    ensures next { IfOk result (λ next. IfTold (D.history disk.old) (IsNext ⟦<FileName as Ord>⟧.cmp (Some last) next)) }
    ensures idle { IsIdle (D.history disk.old) (D.history disk.new) }
    ensures fault { ReadFaultCounted (IsErr result) (D.faults disk.old) (D.faults disk.new) }
    ensures unfailed { OnOk result (NoFault (D.faults disk.old) (D.faults disk.new)) }
{
    let next = disk.next_name(Some(last))?;
    if let Some(name) = next {
        known_range(name);
    }
    Ok(next)
}

/// The least log that is there and greater than this name.
pub fn next_log<D: Disk>(disk: &mut D, last: FileName) -> Result<Option<FileName>, DiskFault>
    ensures past { IfOk result (λ next. IfSome next (IsPast ⟦<FileName as Ord>⟧.cmp (Some last))) }
    ensures range { IfOk result (λ next. IfSome next IsNameInRange) }
    ensures next { IfOk result (λ next. IfTold (D.history disk.old) (IsNextLog ⟦<FileName as Ord>⟧.cmp last next)) }
    ensures idle { IsIdle (D.history disk.old) (D.history disk.new) }
    ensures fault { ReadFaultCounted (IsErr result) (D.faults disk.old) (D.faults disk.new) }
    ensures unfailed { OnOk result (NoFault (D.faults disk.old) (D.faults disk.new)) }
{
    match next_name(disk, last)? {
        Some(name) if is_log(name) => Ok(Some(name)),
        _ => Ok(None),
    }
}
