// The storage files of a store that passed the checks.
ghost use Rattle.std.specs.Prelude.{◌≡◌, IfOk, IsErrOf};
ghost use Rattle.disk_model.specs.Disk.{IsIdle};
ghost use Rattle.disk_model.specs.FaultCounts.{NoFault, ReadFaultCounted};
ghost use Rattle.store_files.specs.Found.{HasHighestFile, IsFoundFiles};

use crate::barred::bar_files;
use crate::error::FilesError;
use crate::numbers::file_numbers;
use crate::states::file_states;
use disk_model::Disk;
use map_index::MapIndex;
use mdbox_base::{Seq, StoreId};
use std::alloc::Global;
use storage_files::MailFiles;

/// The storage files of a store with this id, as they stand once its disk is swept. It asks the disk for the lengths of sealed
/// files, and changes nothing.
pub fn find_files<D: Disk>(
    alloc: Global,
    disk: &mut D,
    id: StoreId,
    map: &MapIndex,
) -> Result<MailFiles, FilesError>
    requires id { map.now.meaning.store ≡ id.0 }
    requires highest { HasHighestFile map.now.meaning }
    ensures found { IfOk result (IsFoundFiles map.now.meaning (D.history disk.old)) }
    ensures idle { IsIdle (D.history disk.old) (D.history disk.new) }
    ensures fault { ReadFaultCounted (IsErrOf result FilesError.DiskFault) (D.faults disk.old) (D.faults disk.new) }
    ensures unfailed { (IsErrOf result FilesError.DiskFault → ⊥) → NoFault (D.faults disk.old) (D.faults disk.new) }
{
    let numbers = file_numbers(alloc, map)?;
    let mut states = file_states(alloc, disk, map, &numbers)?;
    bar_files(&mut states, id, map);
    let files = MailFiles::of(alloc, Seq::of(states), map.highest().file)?;
    Ok(files)
}
