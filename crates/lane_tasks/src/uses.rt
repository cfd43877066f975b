// What the tasks claim of files and instances is what the events of their requests tell, and the other way round.
ghost use Rattle.std.specs.Prelude.{◌≡◌, ◌≤◌, ◌⊎◌, ℕ, List, Option, true, false};
ghost use Rattle.std.specs.List.{list_any};
ghost use Rattle.disk_model.specs.Disk.{History};
ghost use Rattle.mdbox_base.specs.declared.entries.InstRow.{InstRow};
ghost use Rattle.mdbox_base.specs.declared.ids.Uid.{Uid};
ghost use Rattle.mdbox_base.specs.declared.replies.Reply.{Reply};
ghost use Rattle.mdbox_base.specs.declared.requests.Request.{Request};
ghost use Rattle.mdbox_base.specs.declared.requests.Request.TheVariants as request;
ghost use Rattle.list_machine.specs.Run.{Run, is_unpinning, own_events};
ghost use Rattle.journal.specs.Found.{gave_back, took_file};
ghost use Rattle.map_index.specs.Shown.{is_instance_named};
ghost use Rattle.store_core.specs.Knows.{knows_instance};
ghost use Rattle.store_core.specs.Value.{StoreValue};
ghost use Rattle.task_claims.specs.Claims.{Emptied, Held, Taken};
ghost use Rattle.lane_tasks.specs.Tasks.{IsReadyTask, StandsTask, claims_at};
ghost use Rattle.lane_tasks.specs.Uses.{UsesInstance, finds_instance, pins_instance};
ghost use Rattle.lane_tasks.specs.declared.task.Task.{Task};

use disk_model::Disk;

/// A storage file that a task claims to have taken is one that events of its request took, and haven't given back. Files are numbered from 1.
pub fn tasks_claim_taken<D: Disk>()
    ensures { (task : Task) (store : StoreValue D) (history : Option History) (asked : Request) (run : Run) (place : ℕ) (said : List Reply) (file : ℕ) → StandsTask task store history asked run place said → 1 ≤ file → (1 ≤ claims_at task (Taken file)) ⊎ (1 ≤ claims_at task (Emptied file))
        → (list_any (took_file file) (own_events place run) ≡ true) × (gave_back file (own_events place run) ≡ false) }
{}

/// An instance that the store knows and that a task claims to hold is one that events of its request found, placed or pinned.
pub fn tasks_tell_holds<D: Disk>()
    ensures { (task : Task) (store : StoreValue D) (history : Option History) (asked : Request) (run : Run) (place : ℕ) (said : List Reply) (instance : InstRow) → StandsTask task store history asked run place said → IsReadyTask task store history
        → knows_instance store instance ≡ true → 1 ≤ claims_at task (Held instance.id) → UsesInstance instance (own_events place run) }
{}

/// Unless the store is stopped, an instance that events of a delivery found or placed is claimed by its task, or a record names it.
pub fn deliveries_hold<D: Disk>()
    ensures { (task : Task) (store : StoreValue D) (history : Option History) (name : List ℕ) (time : ℕ) (octets : List ℕ) (run : Run) (place : ℕ) (said : List Reply) (instance : InstRow) → StandsTask task store history (request.Deliver name time octets) run place said → store.stopped ≡ false
        → list_any (finds_instance instance) (own_events place run) ≡ true → (1 ≤ claims_at task (Held instance.id)) ⊎ (is_instance_named store.map instance.id.0 ≡ true) }
{}

/// An instance that an event of a fetch pinned, of which none has unpinned, is claimed by its task.
pub fn fetches_hold<D: Disk>()
    ensures { (task : Task) (store : StoreValue D) (history : Option History) (name : List ℕ) (uid : Uid) (run : Run) (place : ℕ) (said : List Reply) (instance : InstRow) → StandsTask task store history (request.Fetch name uid) run place said
        → list_any (pins_instance instance) (own_events place run) ≡ true → list_any is_unpinning (own_events place run) ≡ false → 1 ≤ claims_at task (Held instance.id) }
{}
