// The storage files that a resync reads.
ghost use Rattle.std.specs.Prelude.{◌≡◌, IfOk, map};
ghost use Rattle.resync_task.specs.Files.{AreRecordFiles, region_file};

use map_index::MapIndex;
use mdbox_base::NoMemory;
use std::alloc::Global;

/// The numbers of the files in which records have their regions, each once, in order.
pub(crate) fn record_files(alloc: Global, index: &MapIndex) -> Result<Vec<u32>, NoMemory>
    ensures { IfOk result (λ numbers. AreRecordFiles index.now.meaning numbers.items) }
{
    let mut numbers = region_files(alloc, index)?;
    numbers.sort_unstable();
    numbers.dedup();
    Ok(numbers)
}

/// The file of each record's region.
fn region_files(alloc: Global, index: &MapIndex) -> Result<Vec<u32>, NoMemory>
    ensures { IfOk result (λ numbers. numbers.items ≡ map region_file index.now.meaning.records) }
{
    let mut numbers = Vec::with_capacity(alloc, index.rows() as usize)?;
    for place in 0..index.rows() {
        let row = index.row_at(place).unwrap();
        numbers.push(row.file.0)?;
    }
    Ok(numbers)
}
