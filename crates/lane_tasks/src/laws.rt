// Tasks beside each other.
ghost use Rattle.std.specs.Prelude.{◌≡◌, ◌≢◌, ◌≤◌, ◌⊎◌, ℕ, List, All, length, Option, Some, None, true, false};
ghost use Rattle.std.specs.List.{list_any};
ghost use Rattle.disk_model.specs.Disk.{Faults, History};
ghost use Rattle.mdbox_base.specs.declared.replies.Reply.{Reply};
ghost use Rattle.mdbox_base.specs.declared.requests.Request.{Request};
ghost use Rattle.list_machine.specs.Run.{Run, RunEvent, and_then, own_events};
ghost use Rattle.model_lists.specs.Lists.{Lists};
ghost use Rattle.mail_fetch.specs.Claims.{HasUseRoom};
ghost use Rattle.mail_fetch.specs.Clause.{ReadsSafe};
ghost use Rattle.journal.specs.Events.{Around};
ghost use Rattle.journal.specs.Found.{gave_back, took_file};
ghost use Rattle.storage_files.specs.Files.{AreFilesInOrder};
ghost use Rattle.store_core.specs.Running.{IsStore};
ghost use Rattle.store_core.specs.Value.{StoreValue};
ghost use Rattle.task_claims.specs.Claims.{AddsUp, Claims, ClaimsNothing, Emptied, Taken};
ghost use Rattle.task_claims.specs.Leaving.{LeavesOthers};
ghost use Rattle.task_claims.specs.Stable.{Beside};
ghost use Rattle.task_steps.specs.Step.{GivesNew, HasNotBegun};
ghost use Rattle.lane_tasks.specs.Clause.{CanAnswer, ClaimsFew, IsFreeToTake, PassesBy, PassesInRun, StaysOfRequest, around_at};
ghost use Rattle.lane_tasks.specs.Tasks.{BeginsTask, IsReadyTask, IsTaskOf, StandsTask, claims_at, work_left};
ghost use Rattle.lane_tasks.specs.declared.task.Task.{Task};

use disk_model::Disk;

/// A task that is ready for its next event stays so beside every event of every other task, from one open store to the next.
pub fn tasks_are_stable<D: Disk>()
    ensures { (task : Task) (old new : StoreValue D) (before after : Option History) → IsStore before old → IsStore after new → AreFilesInOrder new.files → Beside (claims_at task) old new before after → IsReadyTask task old before → IsReadyTask task new after }
{}

/// Where a task stands is kept beside every event of another request, also by one that stops the store.
pub fn tasks_stand<D: Disk>()
    ensures { (task : Task) (old new : StoreValue D) (before after : Option History) (faults : Faults) (asked : Request) (run : Run) (place : ℕ) (said : List Reply) (event : RunEvent) → PassesBy task old new before after → PassesInRun task new after faults run event → event.request ≢ place → GivesNew run event
        → StandsTask task old before asked run place said → StandsTask task new after asked (and_then run event) place said }
{}

/// A request that hasn't begun stands where its task begins, which claims nothing and is ready.
pub fn tasks_begin<D: Disk>()
    ensures claims { (asked : Request) (task : Task) → BeginsTask asked task → ClaimsNothing (claims_at task) }
    ensures ready { (asked : Request) (task : Task) (store : StoreValue D) (history : Option History) → BeginsTask asked task → IsReadyTask task store history }
    ensures stands { (asked : Request) (task : Task) (store : StoreValue D) (history : Option History) (run : Run) (place : ℕ) (said : List Reply) → BeginsTask asked task → HasNotBegun run place said → StandsTask task store history asked run place said }
{}

/// A storage file that events of a request took and haven't given back is claimed by its task. Files are numbered from 1; where
/// an event took no target, 0 stands for it.
pub fn tasks_have_taken<D: Disk>()
    ensures { (task : Task) (store : StoreValue D) (history : Option History) (asked : Request) (run : Run) (place : ℕ) (said : List Reply) (file : ℕ) → StandsTask task store history asked run place said → 1 ≤ file
        → list_any (took_file file) (own_events place run) ≡ true → gave_back file (own_events place run) ≡ false → (1 ≤ claims_at task (Taken file)) ⊎ (1 ≤ claims_at task (Emptied file)) }
{}

/// A task that is ready for its next event claims few of each thing.
pub fn tasks_claim_few<D: Disk>()
    ensures { (task : Task) (store : StoreValue D) (history : Option History) → IsReadyTask task store history → ClaimsFew (claims_at task) }
{}

/// What the tasks of 64 lanes claim, few of each thing, leaves room for the next event of any of them.
pub fn tasks_have_room<D: Disk>()
    ensures { (store : StoreValue D) (each : List Claims) → AddsUp store each → length each ≤ 64 → All ClaimsFew each → HasUseRoom store }
{}

/// The storage file that an event of a task finds to add to it is one that no task has taken.
pub fn found_files_are_free<D: Disk>()
    ensures { (task : Task) (asked : Request) (store : StoreValue D) (history : Option History) (around : Around) (file : ℕ) → IsStore history store → AreFilesInOrder store.files → around.room ≡ None → (around_at task asked store around).room ≡ Some file → IsFreeToTake file store }
{}

/// Where the files are safe for the lists, a task can answer by what they read.
pub fn safe_files_answer<D: Disk>()
    ensures { (task : Task) (lists : Lists) (store : StoreValue D) (history : Option History) → IsStore history store → store.stopped ≡ false → ReadsSafe lists history → CanAnswer task lists store history }
{}

/// No event of another task raises the number of events that are still to come of a task.
pub fn tasks_leave_work<D: Disk>()
    ensures { (task : Task) (mine : Claims) (old new : StoreValue D) (before after : Option History) → IsReadyTask task old before → LeavesOthers mine old new before after → work_left task new ≤ work_left task old }
{}

/// A task that stays of its request is of whatever request it was.
pub fn tasks_stay_of_requests()
    ensures { (task next : Task) (asked : Request) → StaysOfRequest task next → IsTaskOf task asked → IsTaskOf next asked }
{}
