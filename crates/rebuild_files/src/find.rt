// What is found in the storage files of a disk.
ghost use Rattle.std.specs.Prelude.{◌≡◌, ◌++◌, ◌∷◌, [], IfOk, IfErr, IsErrOf, OnOk};
ghost use Rattle.disk_model.specs.Disk.{IfTold, IsIdle};
ghost use Rattle.disk_model.specs.FaultCounts.{NoFault, ReadFaultCounted};
ghost use Rattle.model_storage.specs.Places.{refusal_of};
ghost use Rattle.rebuild_files.specs.Places.{AddsFindingsOn, AreAllFindings, AddsUnread};
ghost use Rattle.rebuild_files.specs.declared.error.RebuildError.TheVariants as rebuild;

use crate::error::RebuildError;
use crate::found::{FoundAt, FoundPlace, unread};
use crate::storage::storage_numbers;
use dbox_file::{PlaceError, ScanError};
use disk_model::Disk;
use mdbox_base::{FileNo, Seq};
use scan_pieces::Window;
use std::alloc::Global;

/// What is found in the storage files that are there: the messages of each file, one after another, up to the first place at which
/// none stands, and that place with its reason. In memory there are one window over a file and the places.
pub fn find_all<D: Disk>(alloc: Global, disk: &mut D) -> Result<Seq<FoundAt>, RebuildError>
    ensures found { IfOk result (λ places. IfTold (D.history disk.old) (AreAllFindings places)) }
    ensures whole { IsErrOf result RebuildError.StoreWhole → ⊥ }
    ensures idle { IsIdle (D.history disk.old) (D.history disk.new) }
    ensures fault { ReadFaultCounted (IsErrOf result RebuildError.DiskFault) (D.faults disk.old) (D.faults disk.new) }
    ensures unfailed { (IsErrOf result RebuildError.DiskFault → ⊥) → NoFault (D.faults disk.old) (D.faults disk.new) }
{
    let numbers = storage_numbers(alloc, disk)?;
    let mut window = Window::of(alloc)?;
    let mut found = Seq::empty(alloc);
    for number in numbers.as_slice() {
        find_in_file(alloc, &mut window, disk, *number, &mut found)?;
    }
    Ok(found)
}

/// Adds what is found in a storage file.
fn find_in_file<D: Disk>(
    alloc: Global,
    window: &mut Window,
    disk: &mut D,
    number: FileNo,
    found: &mut Seq<FoundAt>,
) -> Result<(), RebuildError>
    ensures added { OnOk result (IfTold (D.history disk.old) (AddsFindingsOn number.0 found.old found.new)) }
    ensures whole { IsErrOf result RebuildError.StoreWhole → ⊥ }
    ensures idle { IsIdle (D.history disk.old) (D.history disk.new) }
    ensures fault { ReadFaultCounted (IsErrOf result RebuildError.DiskFault) (D.faults disk.old) (D.faults disk.new) }
    ensures unfailed { (IsErrOf result RebuildError.DiskFault → ⊥) → NoFault (D.faults disk.old) (D.faults disk.new) }
{
    let mut offset = match window.begin(alloc, disk, number)? {
        Ok(offset) => offset,
        Err(error) => return add_unread(found, number, error),
    };
    while offset < window.size() {
        let place = match window.message(disk, offset)? {
            Ok(place) => place,
            Err(error) => return add_stop(found, number, error),
        };
        found.push(FoundAt {
            file: number,
            place: FoundPlace::Message(place),
        })?;
        offset = place.end;
    }
    Ok(())
}

/// Adds the place at which no message stands.
fn add_stop(found: &mut Seq<FoundAt>, number: FileNo, error: PlaceError) -> Result<(), RebuildError>
    ensures added { OnOk result (AddsUnread number.0 (refusal_of error) found.old found.new) }
    ensures memory { IfErr result (λ refused. refused ≡ rebuild.NoMemory) }
{
    add_unread(found, number, ScanError::from(error))
}

/// Adds the place from which on nothing can be read.
fn add_unread(
    found: &mut Seq<FoundAt>,
    number: FileNo,
    error: ScanError,
) -> Result<(), RebuildError>
    ensures added { OnOk result (AddsUnread number.0 error found.old found.new) }
    ensures memory { IfErr result (λ refused. refused ≡ rebuild.NoMemory) }
{
    let place = unread(error)?;
    found.push(FoundAt {
        file: number,
        place,
    })?;
    Ok(())
}
