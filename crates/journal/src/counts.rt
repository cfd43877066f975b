// A law of counts and references.
ghost use Rattle.std.specs.Prelude.{◌==◌, ◌≡◌, ◌≤◌, ◌+◌, ◌∷◌, cond, false, true, ℕ, List, []};
ghost use Rattle.mdbox_base.specs.declared.ids.BoxNo.{BoxNo};
ghost use Rattle.mdbox_base.specs.declared.ids.MapUid.{MapUid};
ghost use Rattle.mdbox_base.specs.declared.entries.MapCount.{MapCount};
ghost use Rattle.mdbox_base.specs.declared.entries.MapEntry.TheVariants as entry;
ghost use Rattle.model_lists.specs.Lists.{Lists, refs_of};
ghost use Rattle.model_meaning.specs.MapMeaning.{MapRecord, count_given, record_changed};
ghost use Rattle.list_machine.specs.Run.{BoxAppend, Run, RunEvent, and_then};
ghost use Rattle.journal.specs.Events.{added_in};
ghost use Rattle.journal.specs.ExactCounts.{IsBalanced, CountsAddUp};
ghost use Rattle.journal.specs.Stages.{removal};

/// A raise, a lowering, an addition, a removal and a deletion leave count and ends on one side, holds, debts and references on the other,
/// apart by what they were.
pub fn counts_add_up()
    ensures raise { (row : MapRecord) (uid : MapUid) (event : RunEvent) → event.map_entries ≡ entry.U uid ∷ [] → event.box_entries ≡ [] → event.owes ≡ [] → IsBalanced row (record_changed (entry.U uid) row) event 0 0 }
    ensures lower { (row : MapRecord) (uid : MapUid) (event : RunEvent) → event.map_entries ≡ entry.D (uid ∷ []) ∷ [] → event.box_entries ≡ [] → event.owes ≡ [] → ((uid.0 == row.uid) ≡ true → 1 ≤ row.count) → IsBalanced row (record_changed (entry.D (uid ∷ [])) row) event 0 0 }
    ensures addition { (row : MapRecord) (event : RunEvent) (x : BoxAppend) (added : ℕ) → event.map_entries ≡ [] → event.box_entries ≡ x ∷ [] → event.owes ≡ [] → added ≡ cond (added_in row.uid x) 1 0 → IsBalanced row row event 0 added }
    ensures removal { (row : MapRecord) (event : RunEvent) (x : BoxAppend) (owed taken : ℕ) → event.map_entries ≡ [] → event.box_entries ≡ x ∷ [] → event.owes ≡ owed ∷ [] → added_in row.uid x ≡ false → taken ≡ cond (owed == row.uid) 1 0 → IsBalanced row row event taken 0 }
    ensures deletion { (row : MapRecord) (mailbox : BoxNo) (amounts : List MapCount) (event : RunEvent) → event.map_entries ≡ entry.X mailbox amounts ∷ [] → event.box_entries ≡ [] → event.owes ≡ [] → count_given row.uid amounts 0 ≤ row.count → IsBalanced row (record_changed (entry.X mailbox amounts) row) event (count_given row.uid amounts 0) 0 }
    ensures still { (run : Run) (event : RunEvent) (old new : Lists) (before after : MapRecord) (taken added leak : ℕ) → CountsAddUp run old before leak → IsBalanced before after event taken added → after.uid ≡ before.uid → after.guid ≡ before.guid → refs_of new before.guid + taken ≡ refs_of old before.guid + added → CountsAddUp (and_then run event) new after leak }
{}
