// The checks of a store.
ghost use Rattle.std.specs.Prelude.{◌≡◌, List, IfOk, IfErr, IsErrOf};
ghost use Rattle.mdbox_base.specs.declared.entries.BoxEntry.{BoxEntry};
ghost use Rattle.mdbox_base.specs.declared.entries.MapEntry.{MapEntry};
ghost use Rattle.mdbox_base.specs.declared.entries.RootEntry.{RootEntry};
ghost use Rattle.disk_model.specs.Disk.{IsIdle};
ghost use Rattle.disk_model.specs.FaultCounts.{NoFault, ReadFaultCounted};
ghost use Rattle.store_checks.specs.Store.{IsChecked, IsCheckCause};

use crate::counts::are_counted;
use crate::error::CheckError;
use crate::instances::check_instances;
use crate::mailbox::{CheckedBox, read_boxes};
use crate::map_log::read_map;
use crate::regions::check_regions;
use crate::root::read_root;
use disk_model::{Disk, FileName};
use gate_log::FoundLog;
use map_index::MapIndex;
use mdbox_base::{Seq, StoreId};
use std::alloc::Global;

/// A store that passed the checks: its logs as they were found, and what they mean.
#[derive(Drop)]
pub struct Checked {
    pub id: StoreId,
    pub root_log: FoundLog,
    pub map_log: FoundLog,
    /// The generation of the map log in force.
    pub generation: u32,
    pub map: MapIndex,
    /// The mailboxes, in order of number.
    pub boxes: Seq<CheckedBox>,
}

/// Makes the checks in their order, and changes nothing: the root log, the map log, the logs of the mailboxes with the
/// records of their messages, counts, regions and instances.
pub fn check_store<D: Disk>(alloc: Global, disk: &mut D) -> Result<Checked, CheckError>
    ensures checked { IfOk result (λ checked. (before : List RootEntry) × (entries : List MapEntry) × (logs : List (List BoxEntry)) × IsChecked checked before entries logs (D.history disk.old) (D.history disk.new)) }
    ensures refused { IfErr result (IsCheckCause (D.history disk.old)) }
    ensures idle { IsIdle (D.history disk.old) (D.history disk.new) }
    ensures fault { ReadFaultCounted (IsErrOf result CheckError.DiskFault) (D.faults disk.old) (D.faults disk.new) }
    // A failed read ends the checks.
    ensures unfailed { (IsErrOf result CheckError.DiskFault → ⊥) → NoFault (D.faults disk.old) (D.faults disk.new) }
{
    let root = read_root(alloc, disk)?;
    let (map_log, map) = read_map(alloc, disk, root.id, root.generation)?;
    let boxes = read_boxes(alloc, disk, root.id, &map)?;
    let counted = are_counted(alloc, &map, boxes.as_slice())?;
    if !counted {
        return Err(CheckError::Damaged(FileName::Map(root.generation), 0));
    }
    check_regions(alloc, disk, &map)?;
    check_instances(alloc, disk, &map)?;
    Ok(Checked {
        id: root.id,
        root_log: root.log,
        map_log,
        generation: root.generation,
        map,
        boxes,
    })
}
