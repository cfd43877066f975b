// The root log.
ghost use Rattle.std.specs.Prelude.{◌≡◌, List, IfOk, IfErr, IsErrOf};
ghost use Rattle.disk_model.specs.Disk.{IfTold, IsIdle};
ghost use Rattle.mdbox_base.specs.declared.entries.RootEntry.{RootEntry};
ghost use Rattle.model_store.specs.Settled.{files_of};
ghost use Rattle.disk_model.specs.FaultCounts.{NoFault, ReadFaultCounted};
ghost use Rattle.store_checks.specs.Roots.{HasId, IsRootRead, IsRootCause};
ghost use Rattle.store_checks.specs.RootId.{IsIdCause};

use crate::error::CheckError;
use crate::log::read_log;
use crate::no_entry::has_no_entry;
use crate::replay::RootReplay;
use disk_model::{Disk, FileName};
use gate_log::{FoundLog, id_in, peek_head};
use mdbox_base::StoreId;
use model_logs::{LogHead, LogKind};
use std::alloc::Global;

/// What a root log says: the store's id, and the generation of the map log in force.
#[derive(Drop)]
pub struct Root {
    pub id: StoreId,
    pub log: FoundLog,
    pub generation: u32,
}

/// Reads the root log.
pub fn read_root<D: Disk>(alloc: Global, disk: &mut D) -> Result<Root, CheckError>
    ensures read { IfOk result (λ root. (before : List RootEntry) × IsRootRead root.id.0 root.generation root.log before (D.history disk.old) (D.history disk.new)) }
    ensures refused { IfErr result (IsRootCause (D.history disk.old)) }
    ensures idle { IsIdle (D.history disk.old) (D.history disk.new) }
    ensures fault { ReadFaultCounted (IsErrOf result CheckError.DiskFault) (D.faults disk.old) (D.faults disk.new) }
    ensures unfailed { (IsErrOf result CheckError.DiskFault → ⊥) → NoFault (D.faults disk.old) (D.faults disk.new) }
{
    let id = root_id(alloc, disk)?;
    let head = LogHead {
        version: 1,
        store: id,
        kind: LogKind::Root,
        number: 0,
        generation: 0,
    };
    let mut root = RootReplay { last: None };
    let (log, _) = read_log(alloc, disk, FileName::Root, head, &mut root)?;
    match root.last {
        Some(generation) => Ok(Root {
            id,
            log,
            generation,
        }),
        None => Err(CheckError::NoStore),
    }
}

/// The store's id, from the head of a root log that has an entry.
fn root_id<D: Disk>(alloc: Global, disk: &mut D) -> Result<StoreId, CheckError>
    ensures found { IfOk result (λ id. IfTold (D.history disk.old) (λ now. HasId id.0 (files_of now))) }
    ensures refused { IfErr result (IsIdCause (D.history disk.old)) }
    ensures idle { IsIdle (D.history disk.old) (D.history disk.new) }
    ensures fault { ReadFaultCounted (IsErrOf result CheckError.DiskFault) (D.faults disk.old) (D.faults disk.new) }
    ensures unfailed { (IsErrOf result CheckError.DiskFault → ⊥) → NoFault (D.faults disk.old) (D.faults disk.new) }
{
    let Some(front) = peek_head(disk, FileName::Root)? else {
        return Err(CheckError::NoStore);
    };
    if has_no_entry(alloc, &front)? {
        return Err(CheckError::NoStore);
    }
    Ok(id_in(&front))
}
