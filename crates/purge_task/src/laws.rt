// Laws of purges.
ghost use Rattle.std.specs.Prelude.{◌≡◌, ◌≢◌, ◌≤◌, ℕ, All, Bool, Contains, List, Option, false, filter, length, map, not, true};
ghost use Rattle.disk_model.specs.Disk.{History};
ghost use Rattle.journal.specs.QuietPurge.{apart_from_place, goes};
ghost use Rattle.list_machine.specs.Run.{Run, RunEvent, and_then};
ghost use Rattle.mdbox_base.specs.declared.entries.MapEntry.TheVariants as map_entry;
ghost use Rattle.mdbox_base.specs.declared.entries.MapPlace.{MapPlace};
ghost use Rattle.mdbox_base.specs.declared.ids.FileNo.{FileNo};
ghost use Rattle.mdbox_base.specs.declared.ids.MapUid.{MapUid};
ghost use Rattle.mdbox_base.specs.declared.replies.Reply.{Reply};
ghost use Rattle.model_meaning.specs.MapFits.{MapFits};
ghost use Rattle.model_meaning.specs.MapMeaning.{MapMeaning, MapRecord, has_map_uid, is_sealed, map_applied};
ghost use Rattle.model_meaning.specs.Sound.{IsSoundMap};
ghost use Rattle.storage_files.specs.Files.{AreFilesInOrder};
ghost use Rattle.store_core.specs.Running.{IsStore};
ghost use Rattle.store_core.specs.Value.{StoreValue};
ghost use Rattle.task_claims.specs.Claims.{Claims};
ghost use Rattle.task_claims.specs.Leaving.{LeavesOthers};
ghost use Rattle.task_claims.specs.Stable.{Beside};
ghost use Rattle.task_steps.specs.Step.{GivesNew, IsKept};
ghost use Rattle.purge_task.specs.Claims.{purge_claims};
ghost use Rattle.purge_task.specs.Dropped.{DropsUnwanted};
ghost use Rattle.purge_task.specs.Keeping.{IsReadyToPurge, PurgeValue};
ghost use Rattle.purge_task.specs.Left.{purge_left};
ghost use Rattle.purge_task.specs.Quiet.{HasEmptied, but_file, with_file};
ghost use Rattle.purge_task.specs.Stages.{IsAtPurge};

/// The stages of a purge are kept by every event of another request.
pub fn purge_stages_are_kept<D>()
    ensures { (t : PurgeValue) (store : StoreValue D) → IsKept (IsAtPurge t store) }
{}

/// A purge stands where it stood beside every event of another task, also one that stops the store.
pub fn purges_stand<D>()
    ensures { (t : PurgeValue) (old new : StoreValue D) (before after : Option History) (run : Run) (place : ℕ) (said : List Reply) (event : RunEvent) → (new.stopped ≡ false → (old.stopped ≡ false) × Beside (purge_claims t.stage) old new before after) → event.request ≢ place → GivesNew run event
        → IsAtPurge t old run place said → IsAtPurge t new (and_then run event) place said }
{}

/// A purge that is ready for its next event stays so beside every event of every other task.
pub fn purges_are_stable<D>()
    ensures { (t : PurgeValue) (old new : StoreValue D) (before after : Option History) → IsStore before old → IsStore after new → AreFilesInOrder new.files → Beside (purge_claims t.stage) old new before after → IsReadyToPurge t old before → IsReadyToPurge t new after }
{}

/// No event of another task raises the number of events that are still to come of a purge.
pub fn purges_leave_work<D>()
    ensures { (t : PurgeValue) (mine : Claims) (old new : StoreValue D) (before after : Option History) → LeavesOthers mine old new before after → purge_left t.stage new ≤ purge_left t.stage old }
{}

/// A purge beside no other task empties one file after another: none as it begins, and one more by each switch. Where each record with
/// count 0 lies in a file that it has emptied or in a sealed one, just those records went that lie in no sealed file.
pub fn purges_empty()
    ensures begun { (m : MapMeaning) (is_left : ℕ → Bool) → HasEmptied m m (λ number. false) is_left }
    ensures switched { (old m : MapMeaning) (done is_left : ℕ → Bool) (file : FileNo) (target : ℕ) (moved : List MapPlace) (dropped : List MapUid) → IsSoundMap m → MapFits m (map_entry.P file target moved dropped) → All (λ row. row.file ≡ file.0 → row.count ≡ 0 → has_map_uid row.uid dropped ≡ true) m.records
        → done file.0 ≡ false → is_left file.0 ≡ true → is_left target ≡ false → HasEmptied old m done is_left → HasEmptied old (map_applied (map_entry.P file target moved dropped) m) (with_file file.0 done) (but_file file.0 is_left) }
    ensures ended { (old new : MapMeaning) (done is_left : ℕ → Bool) → HasEmptied old new done is_left → ((row : MapRecord) → Contains old.records row → row.count ≡ 0 → done row.file ≡ not (is_sealed old row.file)) → map apart_from_place new.records ≡ map apart_from_place (filter (λ row. not (goes old row)) old.records) }
    ensures dropped { (old new : MapMeaning) (dropped : ℕ) → DropsUnwanted old new dropped → map apart_from_place new.records ≡ map apart_from_place (filter (λ row. not (goes old row)) old.records) → dropped ≡ length (filter (goes old) old.records) }
{}
