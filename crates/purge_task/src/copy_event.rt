// The event of a purge that copies a message.
ghost use Rattle.std.specs.Prelude.{◌≡◌, ◌≢◌, false, IfOk};
ghost use Rattle.purge_task.specs.Claims.{sources_left};
ghost use Rattle.purge_task.specs.Clause.{IsPurgeStep, answer_of, came_to};
ghost use Rattle.purge_task.specs.Copied.{IsNextWantedFirst};
ghost use Rattle.purge_task.specs.Keeping.{HasPurged, IsTargetFirst, PurgeValue};
ghost use Rattle.purge_task.specs.Left.{IsFurther};
ghost use Rattle.purge_task.specs.Quiet.{KeepsQuiet};
ghost use Rattle.purge_task.specs.declared.task.PurgeStage.TheVariants as stage;

use crate::copying::copy_message;
use crate::taking::give_back;
use crate::task::PurgeStage;
use crate::work::Work;
use disk_model::Disk;
use map_rows::MapRow;
use mdbox_base::{FileNo, Refusal};
use store_core::Store;

/// Copies the next wanted message of the present file to its target. One that can't be read ends the purge, and all that it has
/// taken is given back.
pub fn copy_next<D: Disk>(
    store: &mut Store<D>,
    work: Work,
    target: FileNo,
    row: MapRow,
) -> Result<PurgeStage, Refusal>
    requires running { store.old.stopped ≡ false }
    requires ready { HasPurged (stage.Copying work) store.old (D.history store.old.disk) }
    requires target { IsTargetFirst (sources_left work) target }
    requires wanted { IsNextWantedFirst (sources_left work) work.from store.old.map row }
    ensures step { (t : PurgeValue) → t.stage ≡ stage.Copying work → IsPurgeStep t (came_to result t) (answer_of result) store.old store.new (D.history store.old.disk) (D.history store.new.disk) (D.faults store.old.disk) (D.faults store.new.disk) }
    ensures quiet { (t : PurgeValue) → t.stage ≡ stage.Copying work → KeepsQuiet t (came_to result t) (answer_of result) store.old store.new (D.history store.old.disk) (D.history store.new.disk) }
    ensures further { IfOk result (IsFurther 0 (stage.Copying work)) }
    ensures begun { IfOk result (λ next. next ≢ stage.First) }
    ensures map { store.new.map ≡ store.old.map }
{
    store.facts();
    let mut work = work;
    match copy_message(store, &mut work, target, row) {
        Ok(()) => Ok(PurgeStage::Copying(work)),
        Err(why) => {
            store.facts();
            give_back(store, work.left());
            Err(why)
        }
    }
}
