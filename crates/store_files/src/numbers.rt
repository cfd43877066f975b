// Which storage files the map names.
ghost use Rattle.std.specs.Prelude.{◌≡◌, ◌<◌, ◌++◌, true, ℕ, AllPairs, Contains, IfOk, OnOk};
ghost use Rattle.model_meaning.specs.MapMeaning.{is_sealed};
ghost use Rattle.store_files.specs.Regions.{has_region, region_numbers};

use map_index::MapIndex;
use mdbox_base::NoMemory;
use std::alloc::Global;

/// The numbers of the files in which a record has its region or that are sealed, each once, in order.
pub(crate) fn file_numbers(alloc: Global, map: &MapIndex) -> Result<Vec<u32>, NoMemory>
    ensures rising { IfOk result (λ numbers. AllPairs (λ a b. a < b) numbers.items) }
    ensures regions { IfOk result (λ numbers. (number : ℕ) → has_region map.now.meaning number ≡ true → Contains numbers.items number) }
    ensures sealed { IfOk result (λ numbers. (number : ℕ) → is_sealed map.now.meaning number ≡ true → Contains numbers.items number) }
{
    let mut numbers = region_files(alloc, map)?;
    add_sealed(&mut numbers, map)?;
    numbers.sort_unstable();
    numbers.dedup();
    Ok(numbers)
}

/// The file of each record's region.
fn region_files(alloc: Global, map: &MapIndex) -> Result<Vec<u32>, NoMemory>
    ensures { IfOk result (λ numbers. numbers.items ≡ region_numbers map.now.meaning) }
{
    let mut numbers = Vec::with_capacity(alloc, map.rows() as usize)?;
    for place in 0..map.rows() {
        let row = map.row_at(place).unwrap();
        numbers.push(row.file.0)?;
    }
    Ok(numbers)
}

/// Adds the sealed files.
fn add_sealed(numbers: &mut Vec<u32>, map: &MapIndex) -> Result<(), NoMemory>
    ensures { OnOk result (numbers.new.items ≡ numbers.old.items ++ map.now.meaning.sealed) }
{
    for place in 0..map.sealed() {
        let file = map.sealed_at(place).unwrap();
        numbers.push(file.0)?;
    }
    Ok(())
}
