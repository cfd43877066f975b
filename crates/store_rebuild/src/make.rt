// Making a store again from its storage files.
ghost use Rattle.std.specs.Prelude.{◌≡◌, ◌≤◌, length, vec_len, IfOk, IfErr, IsErr, IsErrOf, OnOk};
ghost use Rattle.disk_model.specs.Disk.{Between, IfTold, IsIdle};
ghost use Rattle.disk_model.specs.FaultCounts.{AnyFaultCounted, NoFault};
ghost use Rattle.model_store.specs.Settled.{files_of};
ghost use Rattle.rebuild_files.specs.Refused.{IsNotLost, IsStoreWhole};
ghost use Rattle.model_rebuild.specs.RebuildPlan.{RebuildPlan};
ghost use Rattle.store_rebuild.specs.NewLogs.{AreNewLogs};
ghost use Rattle.store_rebuild.specs.Planned.{AreRowsOf, IsPlanned};
ghost use Rattle.store_rebuild.specs.Rebuilding.{IsDiskFault, IsRebuilt, LeavesRebuild, LeavesWhole, ReadsAsRebuildLeaves, disk_behind};
ghost use Rattle.store_rebuild.specs.Writing.{HasStoreOf, MailReadsSame, OthersReadSame};

use crate::logs::write_logs;
use crate::new_logs::{NewLogs, new_logs};
use crate::plan::{RebuildRows, plan_of};
use crate::report::{RebuildRefused, RebuildReport, RebuiltStore};
use crate::root::remove_root;
use crate::sync::sync_taken;
use disk_model::Disk;
use gate_log::DiskFault;
use mdbox_base::StoreId;
use rebuild_files::{RebuildError, check_lost};
use std::alloc::Global;

/// Makes new logs, with this store id, for the storage files that are there, and reports what it took and what it skipped.
///
/// `StoreWhole` if and only if the store opens as it is. Storage files and instances stay as they are, also those that are skipped.
/// After a `DiskFault` the disk may have no store, and the call can be made again.
pub fn rebuild<D: Disk>(
    alloc: Global,
    disk: D,
    id: StoreId,
) -> Result<RebuiltStore<D>, RebuildRefused<D>>
    // The report and the new logs are those of the one plan that the old files have, and the store is there whatever a crash leaves.
    ensures rebuilt { IfOk result (λ done. Between (IsRebuilt id.0 done.report) (D.history disk) (D.history done.disk)) }
    ensures mail { IfOk result (λ done. Between MailReadsSame (D.history disk) (D.history done.disk)) }

    // At every moment of the call, whatever fails, a crash leaves files as they were at the beginning, with or without the root log; or
    // no store; or files that are safe for the rebuilt lists. Storage files and instances are always as a crash at the beginning may leave them.
    ensures any_moment { LeavesRebuild (D.history disk) (D.history (disk_behind result)) }

    // So the files read then, whatever is answered.
    ensures reads { ReadsAsRebuildLeaves (D.history disk) (D.history (disk_behind result)) }

    // A store that opens is refused, and no other.
    ensures refused { IfErr result (λ refused. IsNotLost (D.history disk) refused.error) }
    ensures lost { OnOk result (IfTold (D.history disk) (λ first. IsStoreWhole (files_of first) → ⊥)) }

    // Nothing changes where a store opens, or where memory is lacking.
    ensures untouched { LeavesWhole (D.history disk) (D.history (disk_behind result)) }
    ensures idle { IfErr result (λ refused. (refused.error ≡ RebuildError.DiskFault → ⊥) → IsIdle (D.history disk) (D.history refused.disk)) }
    ensures fault { AnyFaultCounted (IsDiskFault result) (D.faults disk) (D.faults (disk_behind result)) }
    ensures unfailed { (IsDiskFault result → ⊥) → NoFault (D.faults disk) (D.faults (disk_behind result)) }
{
    let mut disk = disk;
    match make_again(alloc, &mut disk, id) {
        Ok(report) => Ok(RebuiltStore { disk, report }),
        Err(error) => Err(RebuildRefused { error, disk }),
    }
}

/// Makes the logs anew. All that it wants of memory it takes before it changes anything.
fn make_again<D: Disk>(
    alloc: Global,
    disk: &mut D,
    id: StoreId,
) -> Result<RebuildReport, RebuildError>
    ensures rebuilt { IfOk result (λ report. Between (IsRebuilt id.0 report) (D.history disk.old) (D.history disk.new)) }
    ensures mail { OnOk result (Between MailReadsSame (D.history disk.old) (D.history disk.new)) }
    ensures any_moment { LeavesRebuild (D.history disk.old) (D.history disk.new) }
    ensures refused { IfErr result (IsNotLost (D.history disk.old)) }
    ensures lost { OnOk result (IfTold (D.history disk.old) (λ first. IsStoreWhole (files_of first) → ⊥)) }
    ensures untouched { LeavesWhole (D.history disk.old) (D.history disk.new) }
    ensures idle { IfErr result (λ error. (error ≡ RebuildError.DiskFault → ⊥) → IsIdle (D.history disk.old) (D.history disk.new)) }
    ensures fault { AnyFaultCounted (IsErrOf result RebuildError.DiskFault) (D.faults disk.old) (D.faults disk.new) }
    ensures unfailed { (IsErrOf result RebuildError.DiskFault → ⊥) → NoFault (D.faults disk.old) (D.faults disk.new) }
{
    check_lost(alloc, disk)?;
    let rows = plan_of(alloc, disk, id)?;
    let logs = new_logs(alloc, &rows)?;
    let mailboxes = logs.boxes.as_slice().len() as u64;
    write_all(alloc, disk, id, &rows, logs)?;
    Ok(RebuildReport {
        mailboxes,
        messages: rows.taken.length() as u64,
        skipped: rows.skipped,
    })
}

/// Writes the store: syncs what messages are in, removes the root log, and writes the new logs.
fn write_all<D: Disk>(
    alloc: Global,
    disk: &mut D,
    id: StoreId,
    rows: &RebuildRows,
    logs: NewLogs,
) -> Result<(), DiskFault>
    requires planned { IfTold (D.history disk.old) (IsPlanned id.0 rows.now) }
    requires logs { (plan : RebuildPlan) → AreRowsOf plan rows.now → AreNewLogs plan logs }
    requires few { (vec_len logs.boxes ≡ length logs.boxes.items) × (length logs.boxes.items ≤ 4294967294) }
    ensures any_moment { LeavesRebuild (D.history disk.old) (D.history disk.new) }
    ensures made { OnOk result (Between (HasStoreOf id.0 rows.now) (D.history disk.old) (D.history disk.new)) }
    ensures others { OnOk result (Between (OthersReadSame rows.now.map_generation rows.now.box_generation) (D.history disk.old) (D.history disk.new)) }
    ensures fault { AnyFaultCounted (IsErr result) (D.faults disk.old) (D.faults disk.new) }
    ensures unfailed { OnOk result (NoFault (D.faults disk.old) (D.faults disk.new)) }
{
    sync_taken(disk, rows.taken.as_slice())?;
    remove_root(disk)?;
    write_logs(
        alloc,
        disk,
        id,
        rows.map_generation,
        rows.box_generation,
        logs,
    )?;
    Ok(())
}
