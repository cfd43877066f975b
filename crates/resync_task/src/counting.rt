// The counts of records that are wrong.
ghost use Rattle.std.specs.Prelude.{◌≡◌, ◌≤◌, ◌+◌, ◌==◌, ◌++◌, ◌∷◌, [], if◌then◌else◌, length, All, IfOk, OnOk};
ghost use Rattle.model_meaning.specs.MapMeaning.{MapRecord};
ghost use Rattle.store_core.specs.Dues.{number_beside};
ghost use Rattle.resync_task.specs.WrongCounts.{wrong_beside, wrong_of};

use disk_model::Disk;
use map_index::{MapIndex, MapRow};
use mdbox_base::{MapCount, NoMemory, Seq};
use std::alloc::Global;
use store_core::Store;

/// The counts that aren't what mailboxes list of a record and what is due of it, in order of map uid, each as it would be right.
pub(crate) fn wrong_counts<D: Disk>(store: &Store<D>) -> Result<Seq<MapCount>, NoMemory>
    ensures { IfOk result (λ counts. counts ≡ wrong_of store.now) }
{
    store.facts();
    store.map().known_facts();
    let listed = store.listed_beside()?;
    counts_unlike(store.alloc(), store.map(), &listed, store.dues())
}

/// The counts that differ from what is listed and due beside each record, each as it is right.
fn counts_unlike(
    alloc: Global,
    map: &MapIndex,
    listed: &[u32],
    dues: &[u32],
) -> Result<Seq<MapCount>, NoMemory>
    requires listed { length listed.now ≡ length map.now.meaning.records }
    requires due { length dues.now ≡ length map.now.meaning.records }
    requires covered { All (λ row. number_beside row.uid map.now.meaning.records listed.now + number_beside row.uid map.now.meaning.records dues.now ≤ row.count) map.now.meaning.records }
    ensures { IfOk result (λ counts. counts ≡ wrong_beside (λ uid. number_beside uid map.now.meaning.records listed.now + number_beside uid map.now.meaning.records dues.now) map.now.meaning.records) }
{
    map.known_facts();
    let mut counts = Seq::empty(alloc);
    for place in 0..map.rows() {
        let Some(row) = map.row_at(place) else {
            unreachable!()
        };
        let right = u64::from(listed[place as usize]) + u64::from(dues[place as usize]);
        note_unlike(&mut counts, row, right)?;
    }
    Ok(counts)
}

/// Notes the right count of a record whose count is greater.
fn note_unlike(counts: &mut Seq<MapCount>, row: MapRow, right: u64) -> Result<(), NoMemory>
    requires { right ≤ row.count }
    ensures { OnOk result (counts.new ≡ counts.old ++ (if row.count == right then [] else record { uid = row.uid; count = right } ∷ [])) }
{
    if right == u64::from(row.count) {
        return Ok(());
    }
    counts.push(MapCount {
        uid: row.uid,
        count: right as u16,
    })
}
