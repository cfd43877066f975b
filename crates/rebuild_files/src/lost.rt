// Whether the logs of a store are lost.
ghost use Rattle.std.specs.Prelude.{IfErr, IsErrOf, OnOk};
ghost use Rattle.disk_model.specs.Disk.{IfTold, IsIdle};
ghost use Rattle.disk_model.specs.FaultCounts.{NoFault, ReadFaultCounted};
ghost use Rattle.model_store.specs.Settled.{files_of};
ghost use Rattle.rebuild_files.specs.Refused.{IsStoreWhole, IsNotLost};

use crate::error::RebuildError;
use disk_model::Disk;
use model_store::opening_is_one;
use std::alloc::Global;
use store_checks::{CheckError, check_store};

/// Refuses a disk with a store that opens as it is: `StoreWhole` if and only if its files pass all checks of an opening.
pub fn check_lost<D: Disk>(alloc: Global, disk: &mut D) -> Result<(), RebuildError>
    ensures lost { OnOk result (IfTold (D.history disk.old) (λ now. IsStoreWhole (files_of now) → ⊥)) }
    ensures refused { IfErr result (IsNotLost (D.history disk.old)) }
    ensures idle { IsIdle (D.history disk.old) (D.history disk.new) }
    ensures fault { ReadFaultCounted (IsErrOf result RebuildError.DiskFault) (D.faults disk.old) (D.faults disk.new) }
    ensures unfailed { (IsErrOf result RebuildError.DiskFault → ⊥) → NoFault (D.faults disk.old) (D.faults disk.new) }
{
    opening_is_one();
    match check_store(alloc, disk) {
        Ok(checked) => {
            let_go(checked);
            Err(RebuildError::StoreWhole)
        }
        Err(CheckError::NoStore) => Ok(()),
        Err(CheckError::Damaged(_, _)) => Ok(()),
        Err(CheckError::DiskFault) => Err(RebuildError::DiskFault),
        Err(CheckError::NoMemory) => Err(RebuildError::NoMemory),
    }
}

/// Drops a value.
fn let_go<T: Drop>(_value: T) {}
