// Laws of a delivery's stages.
ghost use Rattle.std.specs.Prelude.{◌≡◌, ◌≤◌, ◌+◌, ℕ, true, false, List, length, Option};
ghost use Rattle.std.specs.List.{list_any};
ghost use Rattle.attach_detach.specs.Prepared.{IsPrepared};
ghost use Rattle.attach_detach.specs.declared.message.Prepared.{Prepared};
ghost use Rattle.disk_model.specs.Disk.{History};
ghost use Rattle.journal.specs.Found.{gave_back, took_file};
ghost use Rattle.list_machine.specs.Run.{Run, own_events};
ghost use Rattle.mdbox_base.specs.declared.ids.InstId.{InstId};
ghost use Rattle.mdbox_base.specs.declared.replies.Reply.{Reply};
ghost use Rattle.store_core.specs.Value.{StoreValue};
ghost use Rattle.task_claims.specs.Claims.{Claims, Held, Taken};
ghost use Rattle.task_claims.specs.Leaving.{LeavesOthers};
ghost use Rattle.task_claims.specs.Stable.{IsStable};
ghost use Rattle.task_steps.specs.Step.{IsKept};
ghost use Rattle.mail_save.specs.Claims.{save_claims};
ghost use Rattle.mail_save.specs.Held.{HasHoldRoom};
ghost use Rattle.mail_save.specs.Ready.{IsReadyToSave};
ghost use Rattle.mail_save.specs.SaveSeen.{HasItsParts, IsAtSave};
ghost use Rattle.mail_save.specs.Task.{HasLeft, IsReadyToDeliver, holds_to_come, save_events_left};
ghost use Rattle.mail_save.specs.declared.task.SaveStage.{SaveStage};
ghost use Rattle.mail_save.specs.declared.task.SaveStage.TheVariants as stage;

use disk_model::Disk;

/// A task that is ready to save a message knows how many of its parts can be detached.
pub fn ready_saves_have_parts<D: Disk>()
    ensures { (stage : SaveStage) (name : List ℕ) (time size : ℕ) (octets : List ℕ) (store : StoreValue D) (history : Option History) → IsReadyToSave stage name time size octets store history → HasItsParts stage octets }
{}

/// The stages of a delivery are kept by every event of another request.
pub fn save_stages_are_kept()
    ensures { (stage : SaveStage) → IsKept (IsAtSave stage) }
{}

/// A delivery stays ready for its next event beside each event of any other task that moves only its own claims and leaves to others
/// what is theirs.
pub fn deliveries_are_stable<D: Disk>()
    ensures { (now : SaveStage) (name : List ℕ) (time size : ℕ) (octets : List ℕ) → IsStable (save_claims now) (λ (store : StoreValue D) (history : Option History). IsReadyToDeliver now name time size octets store history) }
{}

/// A delivery that has not begun is ready. One that is ready has what its step asks for, where each instance can be held 65,535 times
/// more; and of no instance it will have more holds than that in all.
pub fn ready_deliveries_have_left<D: Disk>()
    ensures begun { (prepared : Prepared) (name : List ℕ) (time : ℕ) (octets : List ℕ) (store : StoreValue D) (history : Option History) → length octets ≤ 67108864 → IsPrepared octets prepared → IsReadyToDeliver (stage.First prepared) name time prepared.whole octets store history }
    ensures left { (now : SaveStage) (name : List ℕ) (time size : ℕ) (octets : List ℕ) (store : StoreValue D) (history : Option History) → IsReadyToDeliver now name time size octets store history → HasHoldRoom 65535 store → HasLeft now name time store history }
    ensures few { (now : SaveStage) (name : List ℕ) (time size : ℕ) (octets : List ℕ) (store : StoreValue D) (history : Option History) → IsReadyToDeliver now name time size octets store history → (id : InstId) → save_claims now (Held id) + holds_to_come now ≤ 65535 }
{}

/// A storage file that an event of a delivery has taken, and that its events haven't given back, is claimed by the delivery.
pub fn deliveries_have_taken()
    ensures { (now : SaveStage) (run : Run) (place : ℕ) (said : List Reply) (file : ℕ) → IsAtSave now run place said → 1 ≤ file → list_any (took_file file) (own_events place run) ≡ true → gave_back file (own_events place run) ≡ false → 1 ≤ save_claims now (Taken file) }
{}

/// No event of another task leaves a delivery more events to come.
pub fn deliveries_leave_work<D: Disk>()
    ensures { (now : SaveStage) (mine : Claims) (old new : StoreValue D) (before after : Option History) → LeavesOthers mine old new before after → save_events_left now new.instances ≤ save_events_left now old.instances }
{}
