// The event of a purge that switches its present storage file.
ghost use Rattle.std.specs.Prelude.{◌≡◌, ◌≢◌, ◌≤◌, ◌<◌, length, IfOk, OnErr, false, true};
ghost use Rattle.purge_task.specs.Clause.{IsPurgeStep};
ghost use Rattle.purge_task.specs.Dropped.{DropsUnwanted};
ghost use Rattle.purge_task.specs.Keeping.{HasPurged, PurgeValue};
ghost use Rattle.purge_task.specs.Left.{IsFurther};
ghost use Rattle.purge_task.specs.Quiet.{KeepsQuiet};
ghost use Rattle.purge_task.specs.SwitchEvent.{IsBehindSwitch, IsToSwitch, answer_of_switch, came_by_switch};
ghost use Rattle.purge_task.specs.declared.task.PurgeStage.TheVariants as stage;
ghost use Rattle.purge_task.specs.declared.task.PurgeStage.{PurgeStage as StageValue};

use crate::switching::switch;
use crate::task::{PurgeStage, goes_on};
use crate::work::Work;
use disk_model::Disk;
use mdbox_base::Refusal;
use store_core::Store;

/// The stage behind the switch of a file, and how many records it dropped.
#[derive(Drop)]
pub struct SwitchedFile {
    pub next: PurgeStage,
    pub dropped: u64,
}

/// Switches the present file, of which nothing is left to copy. Where it has no pin, it is to be removed then.
pub fn switch_file<D: Disk>(store: &mut Store<D>, work: Work) -> Result<SwitchedFile, Refusal>
    requires running { store.old.stopped ≡ false }
    requires ready { (at : StageValue) × HasPurged at store.old (D.history store.old.disk) × IsToSwitch at work store.old.map }
    ensures steps { (t : PurgeValue) → HasPurged t.stage store.old (D.history store.old.disk) → IsToSwitch t.stage work store.old.map → IsPurgeStep t (came_by_switch result t) (answer_of_switch result) store.old store.new (D.history store.old.disk) (D.history store.new.disk) (D.faults store.old.disk) (D.faults store.new.disk) }
    ensures quiet { (t : PurgeValue) → HasPurged t.stage store.old (D.history store.old.disk) → IsToSwitch t.stage work store.old.map → KeepsQuiet t (came_by_switch result t) (answer_of_switch result) store.old store.new (D.history store.old.disk) (D.history store.new.disk) }

    // Fewer events are left, and one file less is to be counted.
    ensures further { IfOk result (λ switched. (at : StageValue) → HasPurged at store.old (D.history store.old.disk) → IsToSwitch at work store.old.map → IsFurther 1 at switched.next) }

    // The purge goes on.
    ensures begun { IfOk result (λ switched. switched.next ≢ stage.First) }

    // It drops so many records, and only such as nobody wants.
    ensures dropped { IfOk result (λ switched. DropsUnwanted store.old.map store.new.map switched.dropped) }
    ensures stopped { OnErr result (store.new.stopped ≡ true) }

    // A map has no more records than there are map uids.
    ensures few { IfOk result (λ switched. switched.dropped ≤ 4294967295) }
{
    store.facts();
    store.map().known_facts();
    let mut work = work;
    match switch(store, &mut work) {
        Ok(switched) => Ok(SwitchedFile {
            next: next_stage(work, switched.is_unpinned),
            dropped: switched.dropped,
        }),
        Err(_) => Err(Refusal::Stopped),
    }
}

/// The stage behind the switch of the present file: its removal, where it has no pin.
fn next_stage(work: Work, is_unpinned: bool) -> PurgeStage
    requires { work.next < length work.sources.items }
    ensures { IsBehindSwitch is_unpinned work result }
{
    let mut work = work;
    if is_unpinned {
        return PurgeStage::Removing(work);
    }
    work.go_on();
    goes_on(work)
}
