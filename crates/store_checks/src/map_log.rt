// The map log.
ghost use Rattle.std.specs.Prelude.{◌↔◌, List, IsTrue, IfOk, IfErr, IsErrOf};
ghost use Rattle.mdbox_base.specs.declared.entries.MapEntry.{MapEntry};
ghost use Rattle.mdbox_base.specs.Words.{IsNumber};
ghost use Rattle.disk_model.specs.Disk.{IsIdle};
ghost use Rattle.disk_model.specs.FaultCounts.{NoFault, ReadFaultCounted};
ghost use Rattle.store_checks.specs.Roots.{IsMapRead, IsMapCause};

use crate::error::CheckError;
use crate::log::read_log;
use disk_model::{Disk, FileName};
use gate_log::FoundLog;
use map_index::MapIndex;
use mdbox_base::StoreId;
use model_logs::{LogHead, LogKind};
use std::alloc::Global;

/// Reads the map log of this generation.
pub fn read_map<D: Disk>(
    alloc: Global,
    disk: &mut D,
    id: StoreId,
    generation: u32,
) -> Result<(FoundLog, MapIndex), CheckError>
    ensures read { IfOk result (λ found. (entries : List MapEntry) × IsMapRead id.0 generation found.0 found.1.meaning entries (D.history disk.old) (D.history disk.new)) }
    ensures refused { IfErr result (IsMapCause id.0 generation (D.history disk.old)) }
    ensures idle { IsIdle (D.history disk.old) (D.history disk.new) }
    ensures fault { ReadFaultCounted (IsErrOf result CheckError.DiskFault) (D.faults disk.old) (D.faults disk.new) }
    ensures unfailed { (IsErrOf result CheckError.DiskFault → ⊥) → NoFault (D.faults disk.old) (D.faults disk.new) }
{
    let name = FileName::Map(generation);
    if !is_number(generation) {
        return Err(CheckError::Damaged(name, 0));
    }
    let head = LogHead {
        version: 1,
        store: id,
        kind: LogKind::Map,
        number: 0,
        generation,
    };
    let mut map = MapIndex::empty(alloc, id)?;
    let (log, _) = read_log(alloc, disk, name, head, &mut map)?;
    Ok((log, map))
}

/// Whether a file can have this number.
fn is_number(generation: u32) -> bool
    ensures { IsTrue result ↔ IsNumber generation }
{
    generation >= 1 && generation < u32::MAX
}
