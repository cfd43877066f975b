// Writing the logs of a rebuilt store.
ghost use Rattle.std.specs.Prelude.{◌≡◌, ◌≤◌, ◌∷◌, [], length, vec_len, OnOk, IsErr};
ghost use Rattle.disk_model.specs.Disk.{DiskState, Between, EachImage, IfTold};
ghost use Rattle.disk_model.specs.FaultCounts.{ChangeFaultCounted, NoFault};
ghost use Rattle.model_logs.specs.LogFile.{IsVersionOf};
ghost use Rattle.model_rebuild.specs.RebuildMoments.{IsLeftByRebuild};
ghost use Rattle.model_rebuild.specs.RebuildPlan.{RebuildPlan, IsPlanFor};
ghost use Rattle.model_rebuild.specs.RebuiltLists.{lists_of};
ghost use Rattle.model_store.specs.Settled.{files_of};
ghost use Rattle.model_store.specs.Stands.{head_of};
ghost use Rattle.store_rebuild.specs.NewLogs.{AreNewLogs};
ghost use Rattle.store_rebuild.specs.Writing.{HasNewStore, IsReady, IsRootless, IsWithoutStore, IsBoxLogOf, KeepBoxLogs, KeepsAllBut, OthersReadSame};

use crate::draft::NewLog;
use crate::log::write_log;
use crate::new_logs::NewLogs;
use disk_model::{Disk, FileName};
use gate_log::DiskFault;
use mdbox_base::StoreId;
use model_logs::{LogHead, LogKind};
use std::alloc::Global;

/// Writes the logs of the store with this id: of each mailbox by number, of the map, and last the root log. `first` is the disk as
/// a rebuild begins.
pub fn write_logs<D: Disk>(
    alloc: Global,
    disk: &mut D,
    id: StoreId,
    map_generation: u32,
    box_generation: u32,
    logs: NewLogs,
) -> Result<(), DiskFault>
    requires { (vec_len logs.boxes ≡ length logs.boxes.items) × (length logs.boxes.items ≤ 4294967294) }
    // At every moment of the call, whatever fails, a crash leaves no store, or the rebuilt one.
    ensures any_moment { (first : DiskState) (plan : RebuildPlan) → AreNewLogs plan logs → map_generation ≡ plan.map_generation → box_generation ≡ plan.box_generation → IfTold (D.history disk.old) (IsReady id.0 plan first) → EachImage (λ _ image. IsLeftByRebuild first (lists_of plan.taken) image) (D.history disk.old) (D.history disk.new) }
    ensures made { OnOk result ((first : DiskState) (plan : RebuildPlan) → AreNewLogs plan logs → map_generation ≡ plan.map_generation → box_generation ≡ plan.box_generation → IfTold (D.history disk.old) (IsReady id.0 plan first) → IfTold (D.history disk.new) (HasNewStore id.0 plan first)) }
    ensures others { OnOk result (Between (OthersReadSame map_generation box_generation) (D.history disk.old) (D.history disk.new)) }
    ensures fault { ChangeFaultCounted (IsErr result) (D.faults disk.old) (D.faults disk.new) }
    ensures unfailed { OnOk result (NoFault (D.faults disk.old) (D.faults disk.new)) }
{
    let NewLogs {
        boxes,
        map_log,
        root_log,
    } = logs;
    write_boxes(alloc, disk, id, box_generation, boxes)?;
    let head = head_of(id, LogKind::Map, 0, map_generation);
    write_log(alloc, disk, FileName::Map(map_generation), head, map_log)?;
    let head = head_of(id, LogKind::Root, 0, 0);
    write_log(alloc, disk, FileName::Root, head, root_log)?;
    Ok(())
}

/// Writes the logs of mailboxes, numbered from 1.
fn write_boxes<D: Disk>(
    alloc: Global,
    disk: &mut D,
    id: StoreId,
    generation: u32,
    logs: Vec<NewLog>,
) -> Result<(), DiskFault>
    requires { (vec_len logs ≡ length logs.items) × (length logs.items ≤ 4294967294) }
    ensures any_moment { (first : DiskState) → IfTold (D.history disk.old) (IsRootless first) → EachImage (λ _ image. IsWithoutStore first image) (D.history disk.old) (D.history disk.new) }
    ensures rootless { OnOk result ((first : DiskState) → IfTold (D.history disk.old) (IsRootless first) → IfTold (D.history disk.new) (IsRootless first)) }
    ensures made { OnOk result (IfTold (D.history disk.new) (λ now. KeepBoxLogs now id.0 1 generation logs.items)) }
    ensures others { OnOk result (Between (KeepsAllBut (IsBoxLogOf generation)) (D.history disk.old) (D.history disk.new)) }
    ensures fault { ChangeFaultCounted (IsErr result) (D.faults disk.old) (D.faults disk.new) }
    ensures unfailed { OnOk result (NoFault (D.faults disk.old) (D.faults disk.new)) }
{
    let mut number: u32 = 1;
    for log in logs {
        let head = head_of(id, LogKind::Box, number, generation);
        write_log(alloc, disk, FileName::Box(number, generation), head, log)?;
        number += 1;
    }
    Ok(())
}

fn head_of(store: StoreId, kind: LogKind, number: u32, generation: u32) -> LogHead
    ensures is { result ≡ head_of store.0 kind number generation }
    ensures version { IsVersionOf result.kind result.version }
{
    LogHead {
        version: kind.version(),
        store,
        kind,
        number,
        generation,
    }
}
