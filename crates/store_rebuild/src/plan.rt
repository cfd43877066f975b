// What a rebuild writes, as it is read of the disk.
ghost use Rattle.std.specs.Prelude.{◌≡◌, ◌≤◌, ◌<◌, IfOk, IsErrOf, Contains, All};
ghost use Rattle.disk_model.specs.Disk.{IfTold, IsIdle};
ghost use Rattle.disk_model.specs.FaultCounts.{NoFault, ReadFaultCounted};
ghost use Rattle.store_rebuild.specs.Planned.{IsPlanned, last_number};

use disk_model::Disk;
use mdbox_base::{FileNo, Highest, Seq, StoreId};
use rebuild_files::{
    RebuildError, find_all, free_box_generation, free_map_generation, highest_instance,
    storage_numbers,
};
use rebuild_judge::{SkippedAt, TakenRow, judge_all};
use std::alloc::Global;

/// What a rebuild writes: the messages that it takes, the places that it skips, the numbers with which the map log begins, and the
/// generations of the new logs.
#[derive(Drop)]
pub struct RebuildRows {
    pub taken: Seq<TakenRow>,
    pub skipped: Seq<SkippedAt>,
    pub highest: Highest,
    pub map_generation: u32,
    pub box_generation: u32,
}

/// Reads what a rebuild of the disk as the store with this id writes.
pub fn plan_of<D: Disk>(
    alloc: Global,
    disk: &mut D,
    id: StoreId,
) -> Result<RebuildRows, RebuildError>
    ensures planned { IfOk result (λ rows. IfTold (D.history disk.old) (IsPlanned id.0 rows)) }
    ensures whole { IsErrOf result RebuildError.StoreWhole → ⊥ }
    ensures idle { IsIdle (D.history disk.old) (D.history disk.new) }
    ensures fault { ReadFaultCounted (IsErrOf result RebuildError.DiskFault) (D.faults disk.old) (D.faults disk.new) }
    ensures unfailed { (IsErrOf result RebuildError.DiskFault → ⊥) → NoFault (D.faults disk.old) (D.faults disk.new) }
{
    let places = find_all(alloc, disk)?;
    let judged = judge_all(alloc, disk, id, places.as_slice())?;
    let numbers = storage_numbers(alloc, disk)?;
    let instance = highest_instance(disk, id)?;
    let map_generation = free_map_generation(disk)?;
    let box_generation = free_box_generation(disk)?;
    let highest = Highest {
        file: last_of(numbers.as_slice()).max(judged.file),
        map: 0,
        instance,
        mailbox: 0,
    };
    Ok(RebuildRows {
        taken: judged.taken,
        skipped: judged.skipped,
        highest,
        map_generation,
        box_generation,
    })
}

/// The last of these numbers, or 0 if there is none.
fn last_of(numbers: &[FileNo]) -> u32
    ensures { result ≡ last_number numbers.now }
{
    match numbers.split_last() {
        Some((last, _before)) => last.0,
        None => 0,
    }
}
