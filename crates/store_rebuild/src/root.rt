// The root log that a rebuild removes.
ghost use Rattle.std.specs.Prelude.{◌≡◌, ◌≢◌, ◌↔◌, IfOk, IsTrue, IsErr, OnOk};
ghost use Rattle.disk_model.specs.Disk.{DiskState, IfTold, EachImage, Between, IsIdle, IsThere, named};
ghost use Rattle.disk_model.specs.FaultCounts.{NoFault, AnyFaultCounted, ReadFaultCounted};
ghost use Rattle.disk_model.specs.declared.name.FileName.{FileName};
ghost use Rattle.disk_model.specs.declared.name.FileName.TheVariants as file;
ghost use Rattle.model_rebuild.specs.RebuildMoments.{IsBeforeLogs, IsOldButForRoot};
ghost use Rattle.store_rebuild.specs.Rootless.{IsRootTaken};
ghost use Rattle.store_rebuild.specs.Writing.{IsRootless};

use disk_model::{Disk, DiskError, FileName};
use gate_log::DiskFault;
use model_rebuild::a_rebuild_can_crash;

/// Removes the root log, and syncs the names of all files: from then on no crash leaves a store, until a root log has an entry.
/// `first` is the disk as a rebuild begins.
pub fn remove_root<D: Disk>(disk: &mut D) -> Result<(), DiskFault>
    // At every moment of the call, whatever fails, a crash leaves files as they were at the beginning, with or without the root log.
    ensures any_moment { (first : DiskState) → IfTold (D.history disk.old) (IsBeforeLogs first) → EachImage (λ _ image. IsOldButForRoot first image) (D.history disk.old) (D.history disk.new) }
    ensures rootless { OnOk result ((first : DiskState) → IfTold (D.history disk.old) (IsBeforeLogs first) → IfTold (D.history disk.new) (IsRootless first)) }
    ensures others { OnOk result (Between (λ old new. (name : FileName) → name ≢ file.Root → new name ≡ named (old name)) (D.history disk.old) (D.history disk.new)) }
    ensures fault { AnyFaultCounted (IsErr result) (D.faults disk.old) (D.faults disk.new) }
    ensures unfailed { OnOk result (NoFault (D.faults disk.old) (D.faults disk.new)) }
{
    a_rebuild_can_crash();
    take_root(disk)?;
    disk.sync_names()?;
    Ok(())
}

/// Removes the root log, if it is there.
fn take_root<D: Disk>(disk: &mut D) -> Result<(), DiskFault>
    ensures any_moment { (first : DiskState) → IfTold (D.history disk.old) (IsBeforeLogs first) → EachImage (λ _ image. IsOldButForRoot first image) (D.history disk.old) (D.history disk.new) }
    ensures taken { OnOk result (Between IsRootTaken (D.history disk.old) (D.history disk.new)) }
    ensures fault { AnyFaultCounted (IsErr result) (D.faults disk.old) (D.faults disk.new) }
    ensures unfailed { OnOk result (NoFault (D.faults disk.old) (D.faults disk.new)) }
{
    a_rebuild_can_crash();
    if !has_root(disk)? {
        return Ok(());
    }
    disk.remove(FileName::Root)?;
    Ok(())
}

/// Whether the root log is there.
fn has_root<D: Disk>(disk: &mut D) -> Result<bool, DiskFault>
    ensures told { IfOk result (λ there. IfTold (D.history disk.old) (λ now. IsTrue there ↔ IsThere (now file.Root))) }
    ensures idle { IsIdle (D.history disk.old) (D.history disk.new) }
    ensures fault { ReadFaultCounted (IsErr result) (D.faults disk.old) (D.faults disk.new) }
    ensures unfailed { OnOk result (NoFault (D.faults disk.old) (D.faults disk.new)) }
{
    match disk.length(FileName::Root) {
        Ok(_) => Ok(true),
        Err(DiskError::Absent) => Ok(false),
        Err(DiskError::Failed) => Err(DiskFault),
    }
}
