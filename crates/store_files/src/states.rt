// Where storage files end.
ghost use Rattle.std.specs.Prelude.{◌≡◌, ◌<◌, AllPairs, All, Contains, IfOk, IfSome, OnOk, IsErr, IsErrOf};
ghost use Rattle.std.specs.Option.{option_map};
ghost use Rattle.disk_model.specs.Disk.{IfTold, IsIdle};
ghost use Rattle.disk_model.specs.FaultCounts.{NoFault, ReadFaultCounted};
ghost use Rattle.store_files.specs.Found.{end_found, length_on, IsFoundEnd, IsUnbarred};
ghost use Rattle.store_files.specs.Regions.{last_end};

use crate::error::FilesError;
use disk_model::{Disk, DiskError, FileName};
use map_index::MapIndex;
use mdbox_base::FileNo;
use std::alloc::Global;
use storage_files::{DiskFault, FileState};

/// The files with these numbers that are there once the disk is swept, not yet barred.
pub(crate) fn file_states<D: Disk>(
    alloc: Global,
    disk: &mut D,
    map: &MapIndex,
    numbers: &[u32],
) -> Result<Vec<FileState>, FilesError>
    requires rising { AllPairs (λ a b. a < b) numbers.now }
    ensures rising { IfOk result (λ states. AllPairs (λ a b. a.file.0 < b.file.0) states.items) }
    ensures only { IfOk result (λ states. All (λ s. Contains numbers.now s.file.0) states.items) }
    ensures ends { IfOk result (λ states. All (λ number. IsFoundEnd map.now.meaning (D.history disk.old) number (end_found number states.items)) numbers.now) }
    ensures marks { IfOk result (λ states. All (IsUnbarred map.now.meaning) states.items) }
    ensures idle { IsIdle (D.history disk.old) (D.history disk.new) }
    ensures fault { ReadFaultCounted (IsErrOf result FilesError.DiskFault) (D.faults disk.old) (D.faults disk.new) }
    ensures unfailed { (IsErrOf result FilesError.DiskFault → ⊥) → NoFault (D.faults disk.old) (D.faults disk.new) }
{
    let mut states = Vec::new(alloc);
    for number in numbers {
        if let Some(state) = state_of(disk, map, FileNo(*number))? {
            states.push(state)?;
        }
    }
    Ok(states)
}

/// A storage file as it is once the disk is swept, not yet barred. None if it is not there then.
fn state_of<D: Disk>(
    disk: &mut D,
    map: &MapIndex,
    file: FileNo,
) -> Result<Option<FileState>, DiskFault>
    ensures state { IfOk result (λ found. IfSome found (λ state. (state.file ≡ file) × IsUnbarred map.now.meaning state)) }
    ensures end { IfOk result (λ found. IsFoundEnd map.now.meaning (D.history disk.old) file.0 (option_map (λ s. s.end) found)) }
    ensures idle { IsIdle (D.history disk.old) (D.history disk.new) }
    ensures fault { ReadFaultCounted (IsErr result) (D.faults disk.old) (D.faults disk.new) }
    ensures unfailed { OnOk result (NoFault (D.faults disk.old) (D.faults disk.new)) }
{
    let sealed = map.is_sealed(file);
    let end = if sealed {
        length_of(disk, file)?
    } else {
        last_end(map, file)
    };
    Ok(end.map(|end| FileState {
        file,
        end,
        sealed,
        barred: false,
    }))
}

/// The length of a storage file, None if it isn't there.
fn length_of<D: Disk>(disk: &mut D, file: FileNo) -> Result<Option<u64>, DiskFault>
    ensures length { IfOk result (λ long. IfTold (D.history disk.old) (λ now. long ≡ length_on now file.0)) }
    ensures idle { IsIdle (D.history disk.old) (D.history disk.new) }
    ensures fault { ReadFaultCounted (IsErr result) (D.faults disk.old) (D.faults disk.new) }
    ensures unfailed { OnOk result (NoFault (D.faults disk.old) (D.faults disk.new)) }
{
    match disk.length(FileName::Mail(file.0)) {
        Ok(length) => Ok(Some(length)),
        Err(DiskError::Absent) => Ok(None),
        Err(DiskError::Failed) => Err(DiskFault),
    }
}

/// Where the last region of a storage file ends, None if no record has its region there.
fn last_end(map: &MapIndex, file: FileNo) -> Option<u64>
    ensures { result ≡ last_end map.now.meaning file.0 }
{
    let row = map.last_in_file(file)?;
    Some(u64::from(row.offset) + u64::from(row.size))
}
