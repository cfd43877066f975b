// The logs that an earlier making left.
ghost use Rattle.std.specs.Prelude.{◌≡◌, false, IfOk, IfSome, IsErr, OnOk};
ghost use Rattle.disk_model.specs.Disk.{IfTold, IsThere, IsPast, EachImage, IsIdle, Between};
ghost use Rattle.disk_model.specs.declared.name.FileName.{FileName};
ghost use Rattle.disk_model.specs.declared.name.FileName.TheVariants as file;
ghost use Rattle.model_store.specs.Opening.{HasNoEntry};
ghost use Rattle.disk_model.specs.FaultCounts.{NoFault, AnyFaultCounted};
ghost use Rattle.disk_model.specs.Name.{IsLogInRange};
ghost use Rattle.store_open.specs.Making.{IsFirstLog, NeverHasStore, AreRemoved, AreCleared, HasAnyLog};

use disk_model::{Disk, FileName, is_log, known_range};
use gate_log::DiskFault;

/// Removes the root, map and mailbox logs, and syncs names where there were any.
pub fn remove_old_logs<D: Disk>(disk: &mut D) -> Result<(), DiskFault>
    ensures any_moment { NeverHasStore (D.history disk.old) → EachImage (λ _ image. HasNoEntry (image file.Root)) (D.history disk.old) (D.history disk.new) }
    ensures cleared { OnOk result (Between AreCleared (D.history disk.old) (D.history disk.new)) }
    ensures fault { AnyFaultCounted (IsErr result) (D.faults disk.old) (D.faults disk.new) }
    ensures unfailed { OnOk result (NoFault (D.faults disk.old) (D.faults disk.new)) }
{
    if remove_logs(disk)? {
        disk.sync_names()?;
    }
    Ok(())
}

/// Removes the root, map and mailbox logs. Whether there were any.
fn remove_logs<D: Disk>(disk: &mut D) -> Result<bool, DiskFault>
    ensures any_moment { NeverHasStore (D.history disk.old) → EachImage (λ _ image. HasNoEntry (image file.Root)) (D.history disk.old) (D.history disk.new) }
    ensures taken { OnOk result (Between AreRemoved (D.history disk.old) (D.history disk.new)) }
    ensures any { IfOk result (λ any. any ≡ false → IfTold (D.history disk.old) (λ now. HasAnyLog now → ⊥)) }
    ensures fault { AnyFaultCounted (IsErr result) (D.faults disk.old) (D.faults disk.new) }
    ensures unfailed { OnOk result (NoFault (D.faults disk.old) (D.faults disk.new)) }
{
    let mut after = None;
    while let Some(name) = next_log(disk, after)? {
        disk.remove(name)?;
        after = Some(name);
    }
    Ok(after.is_some())
}

/// The least log that is there and greater than this name.
fn next_log<D: Disk>(disk: &mut D, after: Option<FileName>) -> Result<Option<FileName>, DiskFault>
    ensures past { IfOk result (λ next. IfSome next (IsPast ⟦<FileName as Ord>⟧.cmp after)) }
    ensures named { IfOk result (λ next. IfSome next IsLogInRange) }
    ensures first { IfOk result (λ next. IfTold (D.history disk.old) (IsFirstLog ⟦<FileName as Ord>⟧.cmp after next)) }
    ensures idle { IsIdle (D.history disk.old) (D.history disk.new) }
    ensures fault { AnyFaultCounted (IsErr result) (D.faults disk.old) (D.faults disk.new) }
    ensures unfailed { OnOk result (NoFault (D.faults disk.old) (D.faults disk.new)) }
{
    match disk.next_name(after)? {
        Some(name) if is_log(name) => {
            known_range(name);
            Ok(Some(name))
        }
        _ => Ok(None),
    }
}
