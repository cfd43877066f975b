// The first event of a purge.
ghost use Rattle.std.specs.Prelude.{◌≡◌, ◌≢◌, ◌≤◌, length, false, nat_le, IfOk, OnOk};
ghost use Rattle.purge_task.specs.Clause.{IsPurgeStep, answer_of, came_to, uncounted};
ghost use Rattle.purge_task.specs.Keeping.{PurgeValue};
ghost use Rattle.purge_task.specs.Left.{IsFurther};
ghost use Rattle.purge_task.specs.Quiet.{KeepsQuiet};
ghost use Rattle.purge_task.specs.declared.task.PurgeStage.TheVariants as stage;

use crate::finding::Found;
use crate::taking::{reserve, take_files};
use crate::task::{PurgeStage, goes_on};
use disk_model::Disk;
use mdbox_base::{InstId, Refusal};
use store_core::Store;

/// How many instances are known at the most as a purge begins, so that the number of those that it removes fits.
const MOST_KNOWN: u64 = 9_223_372_036_854_775_808;

/// Finds the files that are to be emptied, takes the memory, and then takes the files. Nothing is taken where it is refused.
pub fn begin<D: Disk>(store: &mut Store<D>) -> Result<PurgeStage, Refusal>
    requires { store.old.stopped ≡ false }
    ensures step { (t : PurgeValue) → t.stage ≡ stage.First → IsPurgeStep t (came_to result (uncounted t)) (answer_of result) store.old store.new (D.history store.old.disk) (D.history store.new.disk) (D.faults store.old.disk) (D.faults store.new.disk) }
    ensures quiet { (t : PurgeValue) → t.stage ≡ stage.First → KeepsQuiet t (came_to result (uncounted t)) (answer_of result) store.old store.new (D.history store.old.disk) (D.history store.new.disk) }
    ensures further { IfOk result (IsFurther 0 stage.First) }
    ensures few { OnOk result (length store.new.instances.known ≤ 9223372036854775808) }
    ensures begun { IfOk result (λ next. next ≢ stage.First) }
    ensures map { store.new.map ≡ store.old.map }
{
    store.facts();
    // No memory holds so many.
    if !has_few_instances(store) {
        return Err(Refusal::NoMemory);
    }
    let found = Found::of(store)?;
    let mut work = match reserve(store, &found) {
        Ok(work) => work,
        Err(_) => return Err(Refusal::NoMemory),
    };
    take_files(store, &mut work.sources);
    Ok(goes_on(work))
}

/// Whether so few instances are known that the number of those that are removed fits.
fn has_few_instances<D: Disk>(store: &Store<D>) -> bool
    ensures { result ≡ nat_le (length store.now.instances.known) 9223372036854775808 }
{
    store.facts();
    let mut count: u64 = 0;
    let mut last: Option<InstId> = None;
    while let Some(id) = store.next_instance(last) {
        if count == MOST_KNOWN {
            return false;
        }
        count += 1;
        last = Some(id);
    }
    true
}
