// The logs of a rebuilt store, before they are written.
ghost use Rattle.std.specs.Prelude.{◌≡◌, ◌≤◌, ◌<◌, ◌^◌, ◌∷◌, [], length, IfOk};
ghost use Rattle.mdbox_base.specs.declared.entries.RootEntry.TheVariants as root;
ghost use Rattle.model_logs.specs.Entries.{root_text};
ghost use Rattle.model_rebuild.specs.RebuildPlan.{RebuildPlan};
ghost use Rattle.store_rebuild.specs.NewLogs.{AreNewLogs};
ghost use Rattle.store_rebuild.specs.Planned.{AreRowsOf};

use crate::boxes::new_boxes;
use crate::draft::{Draft, NewLog};
use crate::map::new_map;
use crate::names::names_met;
use crate::plan::RebuildRows;
use mdbox_base::{NoMemory, RootEntry};
use std::alloc::Global;

/// The logs that are to be made: of each mailbox by number, of the map, and the root log.
#[derive(Drop)]
pub struct NewLogs {
    pub boxes: Vec<NewLog>,
    pub map_log: NewLog,
    pub root_log: NewLog,
}

/// The logs of a plan. All memory that writing them wants is taken here.
pub fn new_logs(alloc: Global, rows: &RebuildRows) -> Result<NewLogs, NoMemory>
    ensures logs { IfOk result (λ logs. (plan : RebuildPlan) → AreRowsOf plan rows.now → AreNewLogs plan logs) }
    ensures few { IfOk result (λ logs. length logs.boxes.items ≤ 4294967294) }
{
    let names = names_met(alloc, rows.taken.as_slice())?;
    let boxes = new_boxes(alloc, &names, rows.taken.as_slice())?;
    let map_log = new_map(alloc, rows, &names)?;
    let root_log = new_root(alloc, rows.map_generation)?;
    Ok(NewLogs {
        boxes,
        map_log,
        root_log,
    })
}

/// The root log, whose one entry names the map log of this generation.
fn new_root(alloc: Global, generation: u32) -> Result<NewLog, NoMemory>
    ensures { IfOk result (λ log. log ≡ root_text (root.M generation) ∷ []) }
{
    let draft = Draft::empty(alloc).push_root(&RootEntry::M { generation })?;
    let log = draft.with_room(alloc)?;
    Ok(log)
}
