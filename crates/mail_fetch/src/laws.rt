// Laws of fetches.
ghost use Rattle.std.specs.Prelude.{◌≡◌, ◌≢◌, ◌≤◌, ℕ, Bool, true, false, List, All, Option, length};
ghost use Rattle.disk_model.specs.Disk.{Faults, Files, History};
ghost use Rattle.model_meaning.specs.BoxMeaning.{LogRow};
ghost use Rattle.model_meaning.specs.MapMeaning.{MapRecord};
ghost use Rattle.model_store.specs.Safe.{IsThereWhole};
ghost use Rattle.model_store.specs.Stands.{StoresMessage};
ghost use Rattle.list_machine.specs.Run.{Run, RunEvent, and_then};
ghost use Rattle.mdbox_base.specs.declared.replies.Reply.{Reply};
ghost use Rattle.mdbox_base.specs.declared.ids.Uid.{Uid};
ghost use Rattle.model_lists.specs.Lists.{Lists};
ghost use Rattle.store_core.specs.Running.{IsStore};
ghost use Rattle.store_core.specs.Value.{StoreValue};
ghost use Rattle.mdbox_base.specs.declared.ids.InstId.{InstId};
ghost use Rattle.task_claims.specs.Claims.{Held, Pinned};
ghost use Rattle.task_claims.specs.Stable.{Beside, IsStable};
ghost use Rattle.task_steps.specs.Step.{HasComeTo};
ghost use Rattle.mail_fetch.specs.Claims.{IsReadyToFetch, ReadsStored, fetch_claims};
ghost use Rattle.mail_fetch.specs.Clause.{CanFetch, ReadsSafe};
ghost use Rattle.mail_fetch.specs.Parts.{parts_to_read, parts_read};
ghost use Rattle.mail_fetch.specs.Region.{stored_at, HoldsWhole};
ghost use Rattle.mail_fetch.specs.Stages.{IsAtFetch, SparesFile};
ghost use Rattle.mail_fetch.specs.Task.{seen_in};
ghost use Rattle.mail_fetch.specs.declared.task.FetchStage.{FetchStage};

use disk_model::Disk;

/// The stages of a fetch are kept by every event of another request; that of a fetch which removes its file next, by one that neither
/// pins nor removes the file.
pub fn fetch_stages_are_kept()
    ensures { (stage : FetchStage) (stopped : Bool) (history : Option History) (run : Run) (place : ℕ) (said : List Reply) (event : RunEvent) → event.request ≢ place → SparesFile stage event
        → IsAtFetch stage stopped history run place said → IsAtFetch stage stopped history (and_then run event) place said }
{}

/// Where files store a message of the size that its mailbox tells, and have its instances with their sizes, what they have at the
/// record's region and as its instances holds it whole. So it is fetched, and no damage is replied.
pub fn stored_messages_are_fetched()
    ensures { (files : Files) (row : LogRow) (entry : MapRecord) (octets : List ℕ) → StoresMessage files entry octets → All (IsThereWhole files) entry.instances → length octets ≡ row.size → HoldsWhole (stored_at row entry) (parts_read files (parts_to_read (stored_at row entry))) octets }
{}

/// Where the files are safe for the lists, they store each message that these have.
pub fn safe_files_are_fetched<D: Disk>()
    ensures { (now : FetchStage) (name : List ℕ) (uid : Uid) (store : StoreValue D) (history : Option History) (lists : Lists) → IsStore history store → store.stopped ≡ false → ReadsSafe lists history → CanFetch now name uid lists store.map history }
{}

/// A fetch stays ready for its next event beside each event of any other task that moves only its own claims and leaves to others what
/// is theirs. What was read stays the front of what the disk stores there.
pub fn fetches_are_stable<D>()
    ensures ready { (now : FetchStage) → IsStable (fetch_claims now) (λ (store : StoreValue D) (history : Option History). IsReadyToFetch now store) }
    ensures stored { (now : FetchStage) (octets : List ℕ) → IsStable (fetch_claims now) (λ (store : StoreValue D) (history : Option History). IsReadyToFetch now store × ReadsStored now octets history) }
{}

/// A fetch that is ready claims one pin at the most, and 65,535 holds of an instance.
pub fn fetches_claim_few<D>()
    ensures held { (now : FetchStage) (store : StoreValue D) (id : InstId) → IsReadyToFetch now store → fetch_claims now (Held id) ≤ 65535 }
    ensures pinned { (now : FetchStage) (file : ℕ) → fetch_claims now (Pinned file) ≤ 1 }
{}

/// Beside an event of another request, that is of any other task, a fetch that is ready stands where it stood, in each run that has come
/// to the store. Of the task that stopped the store, or found it stopped, no more is asked than that its event neither pinned nor removed
/// the file which the fetch removes next.
pub fn fetches_stay_beside<D>()
    ensures { (now : FetchStage) (old new : StoreValue D) (before later : Option History) (faults : Faults) (run : Run) (event : RunEvent) (place : ℕ) (said : List Reply) → event.request ≢ place → (new.stopped ≡ false → old.stopped ≡ false)
        → (new.stopped ≡ false → Beside (fetch_claims now) old new before later × IsReadyToFetch now old × HasComeTo (and_then run event) (seen_in new later faults)) → (new.stopped ≡ true → SparesFile now event)
        → IsAtFetch now old.stopped before run place said → IsAtFetch now new.stopped later (and_then run event) place said }
{}
