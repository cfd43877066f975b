// Whether a store may be made.
ghost use Rattle.std.specs.Prelude.{◌≡◌, ◌↔◌, IsTrue, IfOk, IfErr, IsErr, IsErrOf, OnOk};
ghost use Rattle.disk_model.specs.Disk.{IfTold, reading, IsIdle};
ghost use Rattle.disk_model.specs.FaultCounts.{NoFault, ReadFaultCounted};
ghost use Rattle.disk_model.specs.declared.name.FileName.TheVariants as file;
ghost use Rattle.model_store.specs.Opening.{HasNoEntry};
ghost use Rattle.store_open.specs.Making.{HasMailFile, IsFreeForStore};
ghost use Rattle.store_open.specs.Refused.{IsMakingError, IsFaultOrMemory};

use crate::error::OpenError;
use disk_model::{Disk, FileName};
use gate_log::{DiskFault, peek_head};
use std::alloc::Global;
use store_checks::has_no_entry;

/// The greatest name of a log.
const LAST_LOG: FileName = FileName::Box(u32::MAX, u32::MAX);

/// Refuses a disk with a store, and one with storage files or instances.
pub fn check_free<D: Disk>(alloc: Global, disk: &mut D) -> Result<(), OpenError>
    ensures free { OnOk result (IfTold (D.history disk.old) IsFreeForStore) }
    ensures refused { IfErr result (IsMakingError (D.history disk.old)) }
    ensures idle { IsIdle (D.history disk.old) (D.history disk.new) }
    ensures fault { ReadFaultCounted (IsErrOf result OpenError.DiskFault) (D.faults disk.old) (D.faults disk.new) }
    ensures unfailed { (IsErrOf result OpenError.DiskFault → ⊥) → NoFault (D.faults disk.old) (D.faults disk.new) }
{
    if !lacks_entry(alloc, disk)? {
        return Err(OpenError::StoreWhole);
    }
    if has_mail_file(disk)? {
        return Err(OpenError::MailFiles);
    }
    Ok(())
}

/// Whether the root log has no entry.
fn lacks_entry<D: Disk>(alloc: Global, disk: &mut D) -> Result<bool, OpenError>
    ensures told { IfOk result (λ lacks. IfTold (D.history disk.old) (λ now. IsTrue lacks ↔ HasNoEntry (reading (now file.Root)))) }
    ensures refused { IfErr result IsFaultOrMemory }
    ensures idle { IsIdle (D.history disk.old) (D.history disk.new) }
    ensures fault { ReadFaultCounted (IsErrOf result OpenError.DiskFault) (D.faults disk.old) (D.faults disk.new) }
    ensures unfailed { (IsErrOf result OpenError.DiskFault → ⊥) → NoFault (D.faults disk.old) (D.faults disk.new) }
{
    let Some(front) = peek_head(disk, FileName::Root)? else {
        return Ok(true);
    };
    Ok(has_no_entry(alloc, &front)?)
}

/// Whether a storage file or an instance is there.
fn has_mail_file<D: Disk>(disk: &mut D) -> Result<bool, DiskFault>
    ensures told { IfOk result (λ some. IfTold (D.history disk.old) (λ now. IsTrue some ↔ HasMailFile now)) }
    ensures idle { IsIdle (D.history disk.old) (D.history disk.new) }
    ensures fault { ReadFaultCounted (IsErr result) (D.faults disk.old) (D.faults disk.new) }
    ensures unfailed { OnOk result (NoFault (D.faults disk.old) (D.faults disk.new)) }
{
    let next = disk.next_name(Some(LAST_LOG))?;
    Ok(next.is_some())
}
