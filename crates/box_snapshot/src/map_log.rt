// The map log is written anew.
ghost use Rattle.std.specs.Prelude.{◌≡◌, ◌⊎◌, ◌↔◌, ◌<◌, ◌≤◌, ◌+◌, [], length, take, IfOk, OnOk, IsErrOf, false, true};
ghost use Rattle.disk_model.specs.Disk.{SameButFor};
ghost use Rattle.disk_model.specs.declared.name.FileName.TheVariants as file;
ghost use Rattle.disk_model.specs.FaultCounts.{NoFault, ChangeFaultCounted};
ghost use Rattle.gate_log.specs.Log.{NamedButFor};
ghost use Rattle.model_rewritten.specs.Rewriting.{IsRewrittenMap, map_snapshot};
ghost use Rattle.store_core.specs.declared.error.StepError.TheVariants as step_error;
ghost use Rattle.box_snapshot.specs.Due.{is_map_due};
ghost use Rattle.box_snapshot.specs.MapFilled.{IsMapFilled};
ghost use Rattle.box_snapshot.specs.Rewrites.{IsMapWritten, LeavesNoOldLogs, Rewrites};

use crate::map_entries::{entries_in, group_of};
use disk_model::Disk;
use model_meaning::meanings_are_sound;
use model_rewritten::{highest_numbers_are_named, rewritten_logs_mean_the_same};
use store_core::{MapDraft, StepError, Store};

/// Writes the map log anew, which is due: a log of the next generation with an entry for each mailbox, record and sealed file as they
/// are now, and one for the highest numbers. It takes the place of the one in force, which is removed. Out of memory the logs in
/// force are as before, and a log that nothing names may be left; a change of the disk that fails stops the store.
pub fn snapshot_map<D: Disk>(store: &mut Store<D>) -> Result<(), StepError>
    requires running { store.old.stopped ≡ false }
    requires due { is_map_due store.old ≡ true }
    requires unmade { store.old.made ≡ [] }

    ensures rewrites { Rewrites D.history store.old store.new }
    ensures written { OnOk result (IsMapWritten (D.history store.new.disk) store.old store.new) }
    ensures only { OnOk result (LeavesNoOldLogs D.history store.old store.new) }

    // The mailboxes and what the map means are as they were.
    ensures same { store.new ≡ record store.old { disk = store.new.disk; root_log = store.new.root_log; map_log = store.new.map_log; stopped = store.new.stopped } }

    ensures stopped { IsErrOf result step_error.Stopped ↔ (store.new.stopped ≡ true) }
    ensures memory { IsErrOf result step_error.NoMemory → store.new ≡ record store.old { disk = store.new.disk } }
    // The disk then is as it was, but that the draft may be left and names may be synced.
    ensures spared { IsErrOf result step_error.NoMemory → (store.new ≡ store.old) ⊎ NamedButFor (file.Map (store.old.map_log.head.generation + 1)) (D.history store.old.disk) (D.history store.new.disk) }
    ensures fault { ChangeFaultCounted (IsErrOf result step_error.Stopped) (D.faults store.old.disk) (D.faults store.new.disk) }
    ensures unfailed { (IsErrOf result step_error.Stopped → ⊥) → NoFault (D.faults store.old.disk) (D.faults store.new.disk) }
{
    let draft = drafted(store)?;
    store.facts();
    store.switch_map(draft)
}

/// Makes a draft of the map log of the next generation, with all entries.
fn drafted<D: Disk>(store: &mut Store<D>) -> Result<MapDraft, StepError>
    requires running { store.old.stopped ≡ false }
    requires due { is_map_due store.old ≡ true }
    ensures rewrites { Rewrites D.history store.old store.new }
    ensures filled { IfOk result (λ draft. IsMapFilled (D.history store.new.disk) (map_snapshot store.old.map) draft store.new) }
    ensures means { IfOk result (λ draft. draft.map.meaning ≡ store.old.map) }
    ensures generation { IfOk result (λ draft. draft.generation ≡ store.old.map_log.head.generation + 1) }
    ensures others { IfOk result (λ draft. NamedButFor draft.log.name (D.history store.old.disk) (D.history store.new.disk)) }
    ensures spared { IsErrOf result step_error.NoMemory → (store.new ≡ store.old) ⊎ NamedButFor (file.Map (store.old.map_log.head.generation + 1)) (D.history store.old.disk) (D.history store.new.disk) }
    ensures stopped { IsErrOf result step_error.Stopped ↔ (store.new.stopped ≡ true) }
    ensures same { store.new ≡ record store.old { disk = store.new.disk; stopped = store.new.stopped } }
    ensures fault { ChangeFaultCounted (IsErrOf result step_error.Stopped) (D.faults store.old.disk) (D.faults store.new.disk) }
    ensures unfailed { (IsErrOf result step_error.Stopped → ⊥) → NoFault (D.faults store.old.disk) (D.faults store.new.disk) }
{
    store.facts();
    known_snapshot(store);
    let mut draft = store.draft_map()?;
    fill(store, &mut draft)?;
    Ok(draft)
}

/// Adds all entries to a draft of the map log that has none.
fn fill<D: Disk>(store: &mut Store<D>, draft: &mut MapDraft) -> Result<(), StepError>
    requires running { store.old.stopped ≡ false }
    requires filled { IsMapFilled (D.history store.old.disk) [] draft.old store.old }
    ensures rewrites { Rewrites D.history store.old store.new }
    ensures filled { OnOk result (IsMapFilled (D.history store.new.disk) (map_snapshot store.old.map) draft.new store.new) }
    ensures others { OnOk result (SameButFor draft.old.log.name (D.history store.old.disk) (D.history store.new.disk)) }
    ensures number { draft.new.generation ≡ draft.old.generation }
    ensures spared { IsErrOf result step_error.NoMemory → SameButFor draft.old.log.name (D.history store.old.disk) (D.history store.new.disk) }
    ensures stopped { IsErrOf result step_error.Stopped ↔ (store.new.stopped ≡ true) }
    ensures same { store.new ≡ record store.old { disk = store.new.disk; stopped = store.new.stopped } }
    ensures fault { ChangeFaultCounted (IsErrOf result step_error.Stopped) (D.faults store.old.disk) (D.faults store.new.disk) }
    ensures unfailed { (IsErrOf result step_error.Stopped → ⊥) → NoFault (D.faults store.old.disk) (D.faults store.new.disk) }
{
    let end = entries_in(store.map());
    let mut from = 0;
    while from < end {
        from = add_group(store, draft, from)?;
    }
    Ok(())
}

/// Adds the next entries to a draft of the map log that has those before this place. Answers the place behind them.
fn add_group<D: Disk>(
    store: &mut Store<D>,
    draft: &mut MapDraft,
    from: u64,
) -> Result<u64, StepError>
    requires running { store.old.stopped ≡ false }
    requires within { from < length (map_snapshot store.old.map) }
    requires filled { IsMapFilled (D.history store.old.disk) (take from (map_snapshot store.old.map)) draft.old store.old }
    ensures rewrites { Rewrites D.history store.old store.new }
    ensures further { IfOk result (λ to. (from < to) × (to ≤ length (map_snapshot store.old.map))) }
    ensures filled { IfOk result (λ to. IsMapFilled (D.history store.new.disk) (take to (map_snapshot store.old.map)) draft.new store.new) }
    ensures others { OnOk result (SameButFor draft.old.log.name (D.history store.old.disk) (D.history store.new.disk)) }
    ensures number { draft.new.generation ≡ draft.old.generation }
    ensures memory { IsErrOf result step_error.NoMemory → store.new ≡ store.old }
    ensures stopped { IsErrOf result step_error.Stopped ↔ (store.new.stopped ≡ true) }
    ensures same { store.new ≡ record store.old { disk = store.new.disk; stopped = store.new.stopped } }
    ensures fault { ChangeFaultCounted (IsErrOf result step_error.Stopped) (D.faults store.old.disk) (D.faults store.new.disk) }
    ensures unfailed { (IsErrOf result step_error.Stopped → ⊥) → NoFault (D.faults store.old.disk) (D.faults store.new.disk) }
{
    known_snapshot(store);
    let group = group_of(store.alloc(), store.map(), from)?;
    store.extend_map(draft, &group)?;
    Ok(from + group.length() as u64)
}

/// The entries of the map log written anew fit one behind another, and mean what the map means.
fn known_snapshot<D: Disk>(store: &Store<D>)
    ensures { IsRewrittenMap store.now.map (map_snapshot store.now.map) }
{
    store.facts();
    meanings_are_sound();
    highest_numbers_are_named();
    rewritten_logs_mean_the_same();
}
