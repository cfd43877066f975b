// The log of one mailbox.
ghost use Rattle.std.specs.Prelude.{◌≡◌, List, IfOk, IfErr, IsErrOf};
ghost use Rattle.mdbox_base.specs.declared.entries.BoxEntry.{BoxEntry};
ghost use Rattle.disk_model.specs.Disk.{IsIdle};
ghost use Rattle.disk_model.specs.FaultCounts.{NoFault, ReadFaultCounted};
ghost use Rattle.store_checks.specs.Boxes.{IsBoxRead, IsBoxCause, AreRead, IsBoxesCause};

use crate::dangling::first_dangling;
use crate::error::CheckError;
use crate::log::read_log;
use box_index::BoxIndex;
use disk_model::{Disk, FileName};
use gate_log::FoundLog;
use map_index::{BoxAt, MapIndex};
use mdbox_base::{Seq, StoreId};
use model_logs::{LogHead, LogKind};
use std::alloc::Global;

/// A mailbox that was read: its log as it was found, and what that means.
#[derive(Drop)]
pub struct CheckedBox {
    pub log: FoundLog,
    pub index: BoxIndex,
}

/// Reads the logs of the mailboxes, in order of number.
pub fn read_boxes<D: Disk>(
    alloc: Global,
    disk: &mut D,
    id: StoreId,
    map: &MapIndex,
) -> Result<Seq<CheckedBox>, CheckError>
    requires { map.now.meaning.store ≡ id.0 }
    ensures read { IfOk result (λ boxes. (logs : List (List BoxEntry)) × AreRead id.0 map.now.meaning map.now.meaning.boxes boxes logs (D.history disk.old) (D.history disk.new)) }
    ensures refused { IfErr result (IsBoxesCause map.now.meaning (D.history disk.old)) }
    ensures idle { IsIdle (D.history disk.old) (D.history disk.new) }
    ensures fault { ReadFaultCounted (IsErrOf result CheckError.DiskFault) (D.faults disk.old) (D.faults disk.new) }
    ensures unfailed { (IsErrOf result CheckError.DiskFault → ⊥) → NoFault (D.faults disk.old) (D.faults disk.new) }
{
    let mut boxes = Seq::empty(alloc);
    for place in 0..map.boxes() {
        let at = map.box_at(place).unwrap();
        boxes.push(read_box(alloc, disk, id, map, at)?)?;
    }
    Ok(boxes)
}

/// Reads the log of a mailbox, and looks whether each listed message has a record of its GUID.
fn read_box<D: Disk>(
    alloc: Global,
    disk: &mut D,
    id: StoreId,
    map: &MapIndex,
    at: BoxAt,
) -> Result<CheckedBox, CheckError>
    requires { map.now.meaning.store ≡ id.0 }
    ensures read { IfOk result (λ checked. (entries : List BoxEntry) × IsBoxRead id.0 map.now.meaning at checked entries (D.history disk.old) (D.history disk.new)) }
    ensures refused { IfErr result (IsBoxCause map.now.meaning at (D.history disk.old)) }
    ensures idle { IsIdle (D.history disk.old) (D.history disk.new) }
    ensures fault { ReadFaultCounted (IsErrOf result CheckError.DiskFault) (D.faults disk.old) (D.faults disk.new) }
    ensures unfailed { (IsErrOf result CheckError.DiskFault → ⊥) → NoFault (D.faults disk.old) (D.faults disk.new) }
{
    let name = FileName::Box(at.number.0, at.generation);
    let head = LogHead {
        version: 2,
        store: id,
        kind: LogKind::Box,
        number: at.number.0,
        generation: at.generation,
    };
    let mut index = BoxIndex::empty(alloc)?;
    let (log, text) = read_log(alloc, disk, name, head, &mut index)?;
    if let Some(place) = first_dangling(alloc, map, &index, &text)? {
        return Err(CheckError::Damaged(name, place));
    }
    Ok(CheckedBox { log, index })
}
