// Generations of which no log is there.
ghost use Rattle.std.specs.Prelude.{◌≡◌, ◌↔◌, IsTrue, IfOk, IfSome, IsErr, OnOk};
ghost use Rattle.disk_model.specs.Disk.{IfTold, IsIdle};
ghost use Rattle.disk_model.specs.FaultCounts.{NoFault, ReadFaultCounted};
ghost use Rattle.mdbox_base.specs.Words.{IsNumber};
ghost use Rattle.model_rebuild.specs.RebuildPlan.{IsBoxUsed, IsFreeGeneration, IsMapUsed};
ghost use Rattle.model_store.specs.Settled.{files_of};
ghost use Rattle.rebuild_files.specs.Listing.{is_box_of};

use crate::device::{is_there, next_log};
use disk_model::{Disk, FileName};
use gate_log::DiskFault;

/// The least generation of which no map log is there; 1 if there is one of each.
pub fn free_map_generation<D: Disk>(disk: &mut D) -> Result<u32, DiskFault>
    ensures free { IfOk result (λ generation. IfTold (D.history disk.old) (λ now. IsFreeGeneration (IsMapUsed (files_of now)) generation)) }
    ensures number { IfOk result IsNumber }
    ensures idle { IsIdle (D.history disk.old) (D.history disk.new) }
    ensures fault { ReadFaultCounted (IsErr result) (D.faults disk.old) (D.faults disk.new) }
    ensures unfailed { OnOk result (NoFault (D.faults disk.old) (D.faults disk.new)) }
{
    for generation in 1..u32::MAX {
        if !is_there(disk, FileName::Map(generation))? {
            return Ok(generation);
        }
    }
    Ok(1)
}

/// The least generation of which no mailbox, of whatever number, has a log; 1 if there is one of each.
pub fn free_box_generation<D: Disk>(disk: &mut D) -> Result<u32, DiskFault>
    ensures free { IfOk result (λ generation. IfTold (D.history disk.old) (λ now. IsFreeGeneration (IsBoxUsed (files_of now)) generation)) }
    ensures number { IfOk result IsNumber }
    ensures idle { IsIdle (D.history disk.old) (D.history disk.new) }
    ensures fault { ReadFaultCounted (IsErr result) (D.faults disk.old) (D.faults disk.new) }
    ensures unfailed { OnOk result (NoFault (D.faults disk.old) (D.faults disk.new)) }
{
    for generation in 1..u32::MAX {
        if !has_box_log(disk, generation)? {
            return Ok(generation);
        }
    }
    Ok(1)
}

/// Whether a mailbox has a log of this generation.
fn has_box_log<D: Disk>(disk: &mut D, generation: u32) -> Result<bool, DiskFault>
    ensures told { IfOk result (λ has. IfTold (D.history disk.old) (λ now. IsTrue has ↔ IsBoxUsed (files_of now) generation)) }
    ensures idle { IsIdle (D.history disk.old) (D.history disk.new) }
    ensures fault { ReadFaultCounted (IsErr result) (D.faults disk.old) (D.faults disk.new) }
    ensures unfailed { OnOk result (NoFault (D.faults disk.old) (D.faults disk.new)) }
{
    let mut last = FileName::Map(u32::MAX);
    while let Some(name) = next_log(disk, last)? {
        if is_box_of(generation, name) {
            return Ok(true);
        }
        last = name;
    }
    Ok(false)
}

/// Whether it is the name of a mailbox log of this generation.
fn is_box_of(generation: u32, name: FileName) -> bool
    ensures { result ≡ is_box_of generation name }
{
    match name {
        FileName::Box(_, other) => other == generation,
        _ => false,
    }
}
