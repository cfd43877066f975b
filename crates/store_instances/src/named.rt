// The instances that records of the map name.
ghost use Rattle.std.specs.Prelude.{◌≡◌, ◌++◌, map, IfOk, OnOk};
ghost use Rattle.store_instances.specs.NamedRows.{named_row, named_rows, inst_row};

use map_index::MapIndex;
use mdbox_base::{Hash, InstId, InstRow, NoMemory};
use std::alloc::Global;

/// An instance that a record names. They are ordered by id.
#[derive(Clone, Copy, PartialEq, Eq, PartialOrd, Ord)]
pub(crate) struct NamedRow {
    pub id: InstId,
    pub hash: Hash,
    pub size: u32,
}

/// The instances that records name, once for each naming.
pub(crate) fn all_named(alloc: Global, map: &MapIndex) -> Result<Vec<NamedRow>, NoMemory>
    ensures { IfOk result (λ rows. rows.items ≡ named_rows map.now.meaning) }
{
    let mut rows = Vec::new(alloc);
    for place in 0..map.rows() {
        add_rows(&mut rows, map.instances_at(place).unwrap().as_slice())?;
    }
    Ok(rows)
}

/// Adds the instances that one record names.
fn add_rows(rows: &mut Vec<NamedRow>, named: &[InstRow]) -> Result<(), NoMemory>
    ensures { OnOk result (rows.new.items ≡ rows.old.items ++ map named_row named.now) }
{
    for row in named {
        rows.push(NamedRow {
            id: row.id,
            hash: row.hash,
            size: row.size,
        })?;
    }
    Ok(())
}

/// The same instances as rows of the map.
pub(crate) fn rows_of(alloc: Global, named: &[NamedRow]) -> Result<Vec<InstRow>, NoMemory>
    ensures { IfOk result (λ rows. rows.items ≡ map inst_row named.now) }
{
    let mut rows = Vec::with_capacity(alloc, named.len())?;
    for row in named {
        rows.push(InstRow {
            hash: row.hash,
            id: row.id,
            size: row.size,
        })?;
    }
    Ok(rows)
}
