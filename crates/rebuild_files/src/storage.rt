// The storage files that are there.
ghost use Rattle.std.specs.Prelude.{◌≡◌, ◌<◌, nat_lt, if◌then◌else◌, Some, None, IfOk, IfSome, IsErr, IsErrOf, OnOk};
ghost use Rattle.disk_model.specs.Disk.{IfTold, IsIdle};
ghost use Rattle.disk_model.specs.FaultCounts.{NoFault, ReadFaultCounted};
ghost use Rattle.rebuild_files.specs.Listing.{AreStorageNumbers, IsNextStorage, storage_number};

use crate::device::next_name;
use crate::error::RebuildError;
use disk_model::{Disk, FileName};
use gate_log::DiskFault;
use mdbox_base::{FileNo, Seq};
use std::alloc::Global;

/// The numbers of the storage files that are there, in order. A file with the number 0 or 4,294,967,295 is none of the store.
pub fn storage_numbers<D: Disk>(alloc: Global, disk: &mut D) -> Result<Seq<FileNo>, RebuildError>
    ensures numbers { IfOk result (λ numbers. IfTold (D.history disk.old) (AreStorageNumbers numbers)) }
    ensures whole { IsErrOf result RebuildError.StoreWhole → ⊥ }
    ensures idle { IsIdle (D.history disk.old) (D.history disk.new) }
    ensures fault { ReadFaultCounted (IsErrOf result RebuildError.DiskFault) (D.faults disk.old) (D.faults disk.new) }
    ensures unfailed { (IsErrOf result RebuildError.DiskFault → ⊥) → NoFault (D.faults disk.old) (D.faults disk.new) }
{
    let mut numbers = Seq::empty(alloc);
    let mut last = 0;
    while let Some(number) = next_storage(disk, last)? {
        numbers.push(FileNo(number))?;
        last = number;
    }
    Ok(numbers)
}

/// The least number of a storage file that is there and greater than this one.
fn next_storage<D: Disk>(disk: &mut D, last: u32) -> Result<Option<u32>, DiskFault>
    ensures past { IfOk result (λ next. IfSome next (λ number. (last < number) × (number < 4294967295))) }
    ensures next { IfOk result (λ next. IfTold (D.history disk.old) (IsNextStorage last next)) }
    ensures idle { IsIdle (D.history disk.old) (D.history disk.new) }
    ensures fault { ReadFaultCounted (IsErr result) (D.faults disk.old) (D.faults disk.new) }
    ensures unfailed { OnOk result (NoFault (D.faults disk.old) (D.faults disk.new)) }
{
    match next_name(disk, FileName::Mail(last))? {
        Some(name) => Ok(storage_number(name)),
        None => Ok(None),
    }
}

/// The number of a storage file with this name. None of any other file, and of a number that no storage file has.
fn storage_number(name: FileName) -> Option<u32>
    ensures { result ≡ storage_number name }
{
    match name {
        FileName::Mail(number) => below_last(number),
        _ => None,
    }
}

/// The number, unless it is the greatest of its type.
fn below_last(number: u32) -> Option<u32>
    ensures { result ≡ (if nat_lt number 4294967295 then Some number else None) }
{
    if number < u32::MAX {
        Some(number)
    } else {
        None
    }
}
