// A folder over which the program may run.
ghost use Rattle.folder_model.specs.Calls.{IfModelled};
ghost use Rattle.folder_mem.specs.Mem.{mem_model, mem_past};
ghost use Rattle.folder_disk.specs.Over.{HasBegun, IsStoreSystem};

use folder_mem::MemFolder;
use std::alloc::Global;

/// A folder in memory, empty, that has what `run_in` asks of a folder. It is modelled, so all clauses of a run over it speak of what
/// the disk holds.
pub fn empty_folder(alloc: Global) -> MemFolder
    ensures begun { HasBegun (mem_model result) (mem_past result) }
    ensures store { IfModelled (mem_model result) IsStoreSystem }
{
    MemFolder::empty(alloc)
}
