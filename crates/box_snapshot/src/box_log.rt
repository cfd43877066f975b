// The log of a mailbox is written anew.
ghost use Rattle.std.specs.Prelude.{◌≡◌, ◌⊎◌, ◌↔◌, ◌<◌, ◌≤◌, ◌+◌, Some, All, IfOk, OnOk, IsErrOf, IsTrue, is_some, drop, length, take, [], false, true};
ghost use Rattle.std.specs.Option.{option_map};
ghost use Rattle.disk_model.specs.Disk.{Between, SameButFor};
ghost use Rattle.disk_model.specs.declared.name.FileName.TheVariants as file;
ghost use Rattle.disk_model.specs.FaultCounts.{NoFault, ChangeFaultCounted};
ghost use Rattle.gate_log.specs.Log.{NamedButFor};
ghost use Rattle.model_meaning.specs.BoxMeaning.{BoxMeaning};
ghost use Rattle.model_meaning.specs.MapMeaning.{MapBox, box_at};
ghost use Rattle.store_core.specs.Drafts.{listed_with};
ghost use Rattle.store_core.specs.Dues.{due_at, leak_at};
ghost use Rattle.store_core.specs.Running.{IsStore};
ghost use Rattle.store_core.specs.Value.{list_numbered};
ghost use Rattle.store_core.specs.declared.error.StepError.TheVariants as step_error;
ghost use Rattle.box_snapshot.specs.BoxFilled.{CanBeRewritten, IsBoxFilled, OnlyLogsBut, entries_anew};
ghost use Rattle.box_snapshot.specs.Due.{is_due_at};
ghost use Rattle.box_snapshot.specs.Rewrites.{IsBoxWritten, LeavesNoOldLogs, OnlyLogsInForce, Rewrites};

use crate::box_entries::{entries_in, group_of};
use disk_model::Disk;
use mdbox_base::{BoxEntry, BoxNo, NoMemory, Seq};
use model_meaning::meanings_are_sound;
use model_rewritten::rewritten_logs_mean_the_same;
use store_core::{BoxDraft, StepError, Store};

/// Writes the log of a mailbox anew, which is due: a log of the next generation with an entry for each message as it is now, and one
/// for the next UID where that isn't one more than the last message's. It takes the place of the one in force, which is removed. Out
/// of memory the logs in force are as before, and a log that nothing names may be left; a change of the disk that fails stops the
/// store.
pub fn snapshot_box<D: Disk>(store: &mut Store<D>, mailbox: BoxNo) -> Result<(), StepError>
    requires running { store.old.stopped ≡ false }
    requires due { is_due_at mailbox.0 store.old ≡ true }
    requires unmade { store.old.made ≡ [] }

    ensures rewrites { Rewrites D.history store.old store.new }
    ensures written { OnOk result (IsBoxWritten mailbox.0 (D.history store.new.disk) store.old store.new) }
    ensures only { OnOk result (LeavesNoOldLogs D.history store.old store.new) }

    // The root log is as it was.
    ensures same { store.new ≡ record store.old { disk = store.new.disk; map_log = store.new.map_log; map = store.new.map; boxes = store.new.boxes; stopped = store.new.stopped } }

    ensures stopped { IsErrOf result step_error.Stopped ↔ (store.new.stopped ≡ true) }
    ensures memory { IsErrOf result step_error.NoMemory → store.new ≡ record store.old { disk = store.new.disk } }
    // The disk then is as it was, but that the draft may be left and names may be synced.
    ensures spared { IsErrOf result step_error.NoMemory → (box : MapBox) → box_at store.old.map mailbox.0 ≡ Some box → (store.new ≡ store.old) ⊎ NamedButFor (file.Box mailbox.0 (box.generation + 1)) (D.history store.old.disk) (D.history store.new.disk) }
    ensures fault { ChangeFaultCounted (IsErrOf result step_error.Stopped) (D.faults store.old.disk) (D.faults store.new.disk) }
    ensures unfailed { (IsErrOf result step_error.Stopped → ⊥) → NoFault (D.faults store.old.disk) (D.faults store.new.disk) }
{
    let draft = drafted(store, mailbox)?;
    switched(store, mailbox, draft)
}

/// Puts a draft with all entries of a mailbox's log in its place.
fn switched<D: Disk>(store: &mut Store<D>, mailbox: BoxNo, draft: BoxDraft) -> Result<(), StepError>
    requires running { store.old.stopped ≡ false }
    requires filled { IsBoxFilled (D.history store.old.disk) (entries_anew mailbox.0 store.old) draft store.old }
    requires number { draft.number ≡ mailbox }
    requires generation { option_map (λ box. box.generation + 1) (box_at store.old.map mailbox.0) ≡ Some draft.generation }
    requires means { list_numbered store.old mailbox.0 ≡ Some draft.index.meaning }
    ensures rewrites { Rewrites D.history store.old store.new }
    ensures written { OnOk result (IsBoxWritten mailbox.0 (D.history store.new.disk) store.old store.new) }
    ensures only { OnOk result (Between (λ a b. OnlyLogsBut draft.log.name store.old a → OnlyLogsInForce store.new b) (D.history store.old.disk) (D.history store.new.disk)) }
    ensures same { store.new ≡ record store.old { disk = store.new.disk; map_log = store.new.map_log; map = store.new.map; boxes = store.new.boxes; stopped = store.new.stopped } }
    ensures stopped { IsErrOf result step_error.Stopped ↔ (store.new.stopped ≡ true) }
    ensures memory { IsErrOf result step_error.NoMemory → ⊥ }
    ensures fault { ChangeFaultCounted (IsErrOf result step_error.Stopped) (D.faults store.old.disk) (D.faults store.new.disk) }
    ensures unfailed { (IsErrOf result step_error.Stopped → ⊥) → NoFault (D.faults store.old.disk) (D.faults store.new.disk) }
{
    known_counts(store, mailbox, &draft);
    store.switch_box(draft)
}

/// Makes a draft of the mailbox's log of the next generation, with all entries.
fn drafted<D: Disk>(store: &mut Store<D>, mailbox: BoxNo) -> Result<BoxDraft, StepError>
    requires running { store.old.stopped ≡ false }
    requires due { is_due_at mailbox.0 store.old ≡ true }
    requires unmade { store.old.made ≡ [] }
    ensures rewrites { Rewrites D.history store.old store.new }
    ensures filled { IfOk result (λ draft. IsBoxFilled (D.history store.new.disk) (entries_anew mailbox.0 store.old) draft store.new) }
    ensures number { IfOk result (λ draft. draft.number ≡ mailbox) }
    ensures generation { IfOk result (λ draft. option_map (λ box. box.generation + 1) (box_at store.old.map mailbox.0) ≡ Some draft.generation) }
    ensures means { IfOk result (λ draft. list_numbered store.old mailbox.0 ≡ Some draft.index.meaning) }
    ensures others { IfOk result (λ draft. NamedButFor draft.log.name (D.history store.old.disk) (D.history store.new.disk)) }
    ensures spared { IsErrOf result step_error.NoMemory → (box : MapBox) → box_at store.old.map mailbox.0 ≡ Some box → (store.new ≡ store.old) ⊎ NamedButFor (file.Box mailbox.0 (box.generation + 1)) (D.history store.old.disk) (D.history store.new.disk) }
    ensures stopped { IsErrOf result step_error.Stopped ↔ (store.new.stopped ≡ true) }
    ensures same { store.new ≡ record store.old { disk = store.new.disk; stopped = store.new.stopped } }
    ensures fault { ChangeFaultCounted (IsErrOf result step_error.Stopped) (D.faults store.old.disk) (D.faults store.new.disk) }
    ensures unfailed { (IsErrOf result step_error.Stopped → ⊥) → NoFault (D.faults store.old.disk) (D.faults store.new.disk) }
{
    store.facts();
    known_snapshot(store, mailbox);
    let generation = store.generation_of(mailbox).unwrap();
    let mut draft = store.draft_box(mailbox, generation + 1)?;
    fill(store, &mut draft, mailbox)?;
    Ok(draft)
}

/// Adds all entries of a mailbox's log to a draft that has none.
fn fill<D: Disk>(
    store: &mut Store<D>,
    draft: &mut BoxDraft,
    mailbox: BoxNo,
) -> Result<(), StepError>
    requires running { store.old.stopped ≡ false }
    requires there { IsTrue (is_some (list_numbered store.old mailbox.0)) }
    requires filled { IsBoxFilled (D.history store.old.disk) [] draft.old store.old }
    ensures rewrites { Rewrites D.history store.old store.new }
    ensures filled { OnOk result (IsBoxFilled (D.history store.new.disk) (entries_anew mailbox.0 store.old) draft.new store.new) }
    ensures others { OnOk result (SameButFor draft.old.log.name (D.history store.old.disk) (D.history store.new.disk)) }
    ensures number { (draft.new.number ≡ draft.old.number) × (draft.new.generation ≡ draft.old.generation) }
    ensures spared { IsErrOf result step_error.NoMemory → SameButFor draft.old.log.name (D.history store.old.disk) (D.history store.new.disk) }
    ensures stopped { IsErrOf result step_error.Stopped ↔ (store.new.stopped ≡ true) }
    ensures same { store.new ≡ record store.old { disk = store.new.disk; stopped = store.new.stopped } }
    ensures fault { ChangeFaultCounted (IsErrOf result step_error.Stopped) (D.faults store.old.disk) (D.faults store.new.disk) }
    ensures unfailed { (IsErrOf result step_error.Stopped → ⊥) → NoFault (D.faults store.old.disk) (D.faults store.new.disk) }
{
    let end = entries_in(store.mailbox(mailbox).unwrap());
    let mut from = 0;
    while from < end {
        from = add_group(store, draft, mailbox, from)?;
    }
    Ok(())
}

/// Adds the next entries to a draft of a mailbox's log that has those before this place. Answers the place behind them.
fn add_group<D: Disk>(
    store: &mut Store<D>,
    draft: &mut BoxDraft,
    mailbox: BoxNo,
    from: u32,
) -> Result<u32, StepError>
    requires running { store.old.stopped ≡ false }
    requires within { from < length (entries_anew mailbox.0 store.old) }
    requires filled { IsBoxFilled (D.history store.old.disk) (take from (entries_anew mailbox.0 store.old)) draft.old store.old }
    ensures rewrites { Rewrites D.history store.old store.new }
    ensures further { IfOk result (λ to. (from < to) × (to ≤ length (entries_anew mailbox.0 store.old))) }
    ensures filled { IfOk result (λ to. IsBoxFilled (D.history store.new.disk) (take to (entries_anew mailbox.0 store.old)) draft.new store.new) }
    ensures others { OnOk result (SameButFor draft.old.log.name (D.history store.old.disk) (D.history store.new.disk)) }
    ensures number { (draft.new.number ≡ draft.old.number) × (draft.new.generation ≡ draft.old.generation) }
    ensures memory { IsErrOf result step_error.NoMemory → store.new ≡ store.old }
    ensures stopped { IsErrOf result step_error.Stopped ↔ (store.new.stopped ≡ true) }
    ensures same { store.new ≡ record store.old { disk = store.new.disk; stopped = store.new.stopped } }
    ensures fault { ChangeFaultCounted (IsErrOf result step_error.Stopped) (D.faults store.old.disk) (D.faults store.new.disk) }
    ensures unfailed { (IsErrOf result step_error.Stopped → ⊥) → NoFault (D.faults store.old.disk) (D.faults store.new.disk) }
{
    known_snapshot(store, mailbox);
    let group = next_group(store, mailbox, from)?;
    store.extend_box(draft, &group)?;
    Ok(from + group.length() as u32)
}

/// Up to 16 entries of the mailbox's log when it is written anew, from a place on.
fn next_group<D: Disk>(
    store: &Store<D>,
    mailbox: BoxNo,
    from: u32,
) -> Result<Seq<BoxEntry>, NoMemory>
    requires { from < length (entries_anew mailbox.0 store.now) }
    ensures { IfOk result (λ group. group ≡ take 16 (drop from (entries_anew mailbox.0 store.now))) }
{
    match store.mailbox(mailbox) {
        Some(index) => group_of(store.alloc(), index, from),
        None => unreachable!(),
    }
}

/// The entries of a mailbox's log written anew fit one behind another, and mean what it means.
fn known_snapshot<D: Disk>(store: &Store<D>, mailbox: BoxNo)
    ensures { (m : BoxMeaning) → list_numbered store.now mailbox.0 ≡ Some m → CanBeRewritten store.now.map m }
{
    store.facts();
    meanings_are_sound();
    rewritten_logs_mean_the_same();
}

/// A draft that means what the mailbox's log means leaves each count as large as it must be.
fn known_counts<D: Disk>(store: &Store<D>, mailbox: BoxNo, draft: &BoxDraft)
    requires number { draft.now.number ≡ mailbox }
    requires means { list_numbered store.now mailbox.0 ≡ Some draft.now.index.meaning }
    ensures store { IsStore (D.history store.now.disk) store.now }
    ensures counts { All (λ row. listed_with draft.now row.uid store.now + due_at row.uid store.now + leak_at row.uid store.now ≤ row.count) store.now.map.records }
{
    store.facts();
    store.counts();
}
