// Numbers beside the records of the map: what is listed of each, and what is due.
ghost use Rattle.std.specs.Prelude.{◌≡◌, ◌≤◌, ◌+◌, ℕ, length, IfOk};
ghost use Rattle.store_core.specs.Beside.{StandBeside, in_boxes, in_rows};
ghost use Rattle.store_core.specs.Dues.{listed_at, number_beside};

use super::{OpenBox, Store};
use crate::due::raise_due;
use box_index::BoxIndex;
use disk_model::Disk;
use map_index::MapIndex;
use mdbox_base::NoMemory;
use std::alloc::Global;

impl<D: Disk> Store<D> {
    /// How many listed messages have each record's map uid, in the order of the map's records.
    pub fn listed_beside(&self) -> Result<Vec<u32>, NoMemory>
        ensures { IfOk result (λ sums. StandBeside (λ uid. listed_at uid self.now) self.now.map.records sums.items) }
    {
        self.facts();
        self.map.known_facts();
        rows_beside(self.alloc, &self.map, &self.boxes)
    }

    /// What is due of each record, in the order of the map's records.
    pub fn dues(&self) -> &[u32]
        ensures { result.now ≡ self.now.dues }
    {
        &self.dues
    }
}

/// How many rows of mailboxes have each record's map uid, in the order of the records.
fn rows_beside(alloc: Global, map: &MapIndex, boxes: &[OpenBox]) -> Result<Vec<u32>, NoMemory>
    requires { length boxes.now ≤ 1024 }
    ensures { IfOk result (λ sums. StandBeside (λ uid. in_boxes uid boxes.now) map.now.meaning.records sums.items) }
{
    map.known_facts();
    let mut sums = vec![in alloc; 0; map.rows() as usize]?;
    for open_box in boxes {
        add_rows(map, &mut sums, &open_box.index);
    }
    Ok(sums)
}

/// Adds how many rows of a mailbox have each record's map uid.
fn add_rows(map: &MapIndex, sums: &mut Vec<u32>, index: &BoxIndex)
    requires size { length sums.old.items ≡ length map.now.meaning.records }
    requires room { (uid : ℕ) → number_beside uid map.now.meaning.records sums.old.items ≤ 1024000000 }
    ensures added { StandBeside (λ uid. number_beside uid map.now.meaning.records sums.old.items + in_rows uid index.now.meaning.rows) map.now.meaning.records sums.new.items }
    ensures few { (uid : ℕ) → in_rows uid index.now.meaning.rows ≤ 1000000 }
{
    map.known_facts();
    index.known_facts();
    for row in index.rows() {
        raise_due(map, sums, row.map_uid);
    }
}
