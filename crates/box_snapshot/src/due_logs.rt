// All logs that are due are written anew.
ghost use Rattle.std.specs.Prelude.{ℕ, ◌≡◌, ◌⊎◌, ◌↔◌, ◌<◌, ◌+◌, All, Ok, OnOk, IsErrOf, length, [], false, true};
ghost use Rattle.disk_model.specs.FaultCounts.{NoFault, ChangeFaultCounted};
ghost use Rattle.gate_log.specs.State.{IsSameLog};
ghost use Rattle.store_core.specs.declared.error.StepError.TheVariants as step_error;
ghost use Rattle.box_snapshot.specs.Due.{AreUndueTo, KeepsUndue, NoLogDue, is_box_due, is_due_at, is_map_due};
ghost use Rattle.box_snapshot.specs.Rewrites.{IsLogAnew, IsMapAnew, LeavesNoOldLogs, Rewrites, WritesOnce};
ghost use Rattle.store_core.specs.Value.{StoreValue};

use crate::box_log::snapshot_box;
use crate::due::{box_due, map_due};
use crate::map_log::snapshot_map;
use disk_model::Disk;
use store_core::{StepError, Store};

/// Writes each log anew that is due: those of the mailboxes in order of number, and then the map log, which has an entry more for each
/// of them. A change of the disk that fails stops the store; out of memory some may have been written anew.
pub fn snapshot_due<D: Disk>(store: &mut Store<D>) -> Result<(), StepError>
    requires running { store.old.stopped ≡ false }
    requires unmade { store.old.made ≡ [] }

    ensures rewrites { Rewrites D.history store.old store.new }
    ensures undue { OnOk result (NoLogDue store.new) }
    ensures only { OnOk result (LeavesNoOldLogs D.history store.old store.new) }

    // Each log of a mailbox that is due is written anew.
    ensures written { OnOk result ((number : ℕ) → is_due_at number store.old ≡ true → IsLogAnew number store.old store.new) }

    // A log of a mailbox that isn't due stays.
    ensures kept { OnOk result (KeepsUndue store.old store.new) }

    // The map log is written anew at most once; it is if it is due and no mailbox's log is.
    ensures map_log { OnOk result (IsMapAnew store.old store.new ⊎ IsSameLog store.old.map_log store.new.map_log) }
    ensures map_written { OnOk result (All (λ b. is_box_due b ≡ false) store.old.boxes → is_map_due store.old ≡ true → IsMapAnew store.old store.new) }

    // Where no log is due nothing changes, and nothing is refused.
    ensures idle { NoLogDue store.old → (result ≡ Ok tt) × (store.new ≡ store.old) }

    ensures stopped { IsErrOf result step_error.Stopped ↔ (store.new.stopped ≡ true) }
    ensures fault { ChangeFaultCounted (IsErrOf result step_error.Stopped) (D.faults store.old.disk) (D.faults store.new.disk) }
    ensures unfailed { (IsErrOf result step_error.Stopped → ⊥) → NoFault (D.faults store.old.disk) (D.faults store.new.disk) }
{
    snapshot_due_boxes(store)?;
    snapshot_due_map(store)
}

/// Writes the log of each mailbox anew that is due.
fn snapshot_due_boxes<D: Disk>(store: &mut Store<D>) -> Result<(), StepError>
    requires running { store.old.stopped ≡ false }
    requires unmade { store.old.made ≡ [] }
    ensures rewrites { Rewrites D.history store.old store.new }
    ensures undue { OnOk result (All (λ b. is_box_due b ≡ false) store.new.boxes) }
    ensures only { OnOk result (LeavesNoOldLogs D.history store.old store.new) }
    ensures kept { OnOk result (KeepsUndue store.old store.new) }
    ensures once { OnOk result (WritesOnce store.old store.new) }
    ensures map_log { OnOk result (IsSameLog store.old.map_log store.new.map_log) }
    ensures idle { All (λ b. is_box_due b ≡ false) store.old.boxes → (result ≡ Ok tt) × (store.new ≡ store.old) }
    ensures stopped { IsErrOf result step_error.Stopped ↔ (store.new.stopped ≡ true) }
    ensures fault { ChangeFaultCounted (IsErrOf result step_error.Stopped) (D.faults store.old.disk) (D.faults store.new.disk) }
    ensures unfailed { (IsErrOf result step_error.Stopped → ⊥) → NoFault (D.faults store.old.disk) (D.faults store.new.disk) }
{
    for place in 0..store.map().boxes() {
        snapshot_due_at(store, place)?;
    }
    store.facts();
    Ok(())
}

/// Writes the log of the mailbox at this place of the map anew, if it is due.
fn snapshot_due_at<D: Disk>(store: &mut Store<D>, place: u32) -> Result<(), StepError>
    requires running { store.old.stopped ≡ false }
    requires unmade { store.old.made ≡ [] }
    requires there { place < length store.old.map.boxes }
    ensures rewrites { Rewrites D.history store.old store.new }
    ensures undue { OnOk result (AreUndueTo place store.old.boxes → AreUndueTo (place + 1) store.new.boxes) }
    ensures only { OnOk result (LeavesNoOldLogs D.history store.old store.new) }
    ensures kept { OnOk result (KeepsUndue store.old store.new) }
    ensures once { OnOk result ((first : StoreValue D) → WritesOnce first store.old → WritesOnce first store.new) }
    ensures map_log { OnOk result (IsSameLog store.old.map_log store.new.map_log) }
    ensures idle { All (λ b. is_box_due b ≡ false) store.old.boxes → (result ≡ Ok tt) × (store.new ≡ store.old) }
    ensures stopped { IsErrOf result step_error.Stopped ↔ (store.new.stopped ≡ true) }
    ensures fault { ChangeFaultCounted (IsErrOf result step_error.Stopped) (D.faults store.old.disk) (D.faults store.new.disk) }
    ensures unfailed { (IsErrOf result step_error.Stopped → ⊥) → NoFault (D.faults store.old.disk) (D.faults store.new.disk) }
{
    store.facts();
    let map = store.map();
    map.known_facts();
    let Some(mailbox) = map.box_at(place) else {
        unreachable!()
    };
    if box_due(store, mailbox.number) {
        snapshot_box(store, mailbox.number)?;
    }
    Ok(())
}

/// Writes the map log anew, if it is due.
fn snapshot_due_map<D: Disk>(store: &mut Store<D>) -> Result<(), StepError>
    requires running { store.old.stopped ≡ false }
    requires unmade { store.old.made ≡ [] }
    ensures rewrites { Rewrites D.history store.old store.new }
    ensures undue { OnOk result (is_map_due store.new ≡ false) }
    ensures written { OnOk result (is_map_due store.old ≡ true → IsMapAnew store.old store.new) }
    ensures map_log { OnOk result (IsMapAnew store.old store.new ⊎ IsSameLog store.old.map_log store.new.map_log) }
    ensures same { store.new.boxes ≡ store.old.boxes }
    ensures only { OnOk result (LeavesNoOldLogs D.history store.old store.new) }
    ensures idle { is_map_due store.old ≡ false → (result ≡ Ok tt) × (store.new ≡ store.old) }
    ensures stopped { IsErrOf result step_error.Stopped ↔ (store.new.stopped ≡ true) }
    ensures fault { ChangeFaultCounted (IsErrOf result step_error.Stopped) (D.faults store.old.disk) (D.faults store.new.disk) }
    ensures unfailed { (IsErrOf result step_error.Stopped → ⊥) → NoFault (D.faults store.old.disk) (D.faults store.new.disk) }
{
    if map_due(store) {
        snapshot_map(store)?;
    }
    Ok(())
}
