// Laws of instances that were found.
ghost use Rattle.std.specs.Prelude.{◌≡◌, ◌≢◌, ◌≤◌, ◌+◌, ℕ, List, All, length, map, take, Option};
ghost use Rattle.attach_detach.specs.declared.message.Detached.{Detached};
ghost use Rattle.disk_model.specs.Disk.{History, IfTold};
ghost use Rattle.mdbox_base.specs.declared.entries.InstRow.{InstRow};
ghost use Rattle.mdbox_base.specs.declared.ids.Hash.{Hash};
ghost use Rattle.mdbox_base.specs.declared.ids.InstId.{InstId};
ghost use Rattle.model_store.specs.Settled.{files_of};
ghost use Rattle.model_store.specs.Stands.{HasInstances};
ghost use Rattle.sis_store.specs.Comparing.{candidates_left};
ghost use Rattle.sis_store.specs.Instances.{InstancesValue, holders_in};
ghost use Rattle.sis_store.specs.declared.instance.KnownInstance.{KnownInstance};
ghost use Rattle.store_core.specs.Keeping.{KeepsInstances, MovesHolds, holds_of};
ghost use Rattle.store_core.specs.StoreInstances.{IsFirstKnown, IsKnownRow};
ghost use Rattle.store_core.specs.Value.{StoreValue};
ghost use Rattle.save_instances.specs.Attaching.{AreHeld, AreOfParts, AttachingValue, IsAttaching, attach_events_left, nothing_found};

use disk_model::Disk;

/// What was found stays so beside the events of other tasks, which leave the instances and hold what they did.
pub fn attaching_goes_on<D: Disk>()
    ensures begun { (parts : List Detached) (store : StoreValue D) (history : Option History) → IsAttaching (nothing_found parts) store history }
    ensures on { (value : AttachingValue) (old new : StoreValue D) (before after : Option History) → KeepsInstances old new before after → AreHeld value.found new.instances.known → IsAttaching value old before → IsAttaching value new after }
    ensures held { (mine mine_now other : InstId → ℕ) (old new : StoreValue D) → MovesHolds mine mine_now old new → ((id : InstId) → mine id + other id ≤ holders_in id old.instances.known) → (id : InstId) → mine_now id + other id ≤ holders_in id new.instances.known }
{}

/// Where one task alone holds instances, all holders are its own; and it holds none more often than it has found instances. So it
/// may compare one more.
pub fn own_holds_are_few<D: Disk>()
    ensures alone { (mine mine_now : InstId → ℕ) (old new : StoreValue D) → MovesHolds mine mine_now old new → ((id : InstId) → holders_in id old.instances.known ≡ mine id) → (id : InstId) → holders_in id new.instances.known ≡ mine_now id }
    ensures few { (rows : List InstRow) (id : InstId) → holds_of rows id ≤ length rows }
{}

/// However many instances other tasks place, no more events are left than were: each one that they place draws a number, of which there
/// are so many, and where none was drawn no candidate is new.
pub fn attaching_ends()
    ensures { (value : AttachingValue) (old new : InstancesValue) → old.highest ≤ new.highest → (new.highest ≢ old.highest → new.highest ≤ 4294967294) → length new.known + old.highest ≤ length old.known + new.highest
        → (new.highest ≡ old.highest → (hash : Hash) (size : ℕ) (after : Option InstId) → candidates_left hash size after new.known ≤ candidates_left hash size after old.known) → attach_events_left value new ≤ attach_events_left value old }
{}

/// The instances of all attachments stay found too.
pub fn found_instances_are_kept<D: Disk>()
    ensures { (rows : List InstRow) (parts : List Detached) (old new : StoreValue D) (before after : Option History) → KeepsInstances old new before after → AreOfParts rows parts old.instances.known before → AreOfParts rows parts new.instances.known after }
{}

/// An entry that stores a message may name them: they are known, the first of their octets, and the disk reads the attachments'
/// octets as their files.
pub fn found_instances_are_named()
    ensures known { (rows : List InstRow) (parts : List Detached) (known : List KnownInstance) (history : Option History) → AreOfParts rows parts known history → All (IsKnownRow known) rows }
    ensures first { (rows : List InstRow) (parts : List Detached) (known : List KnownInstance) (history : Option History) → AreOfParts rows parts known history → IfTold history (λ now. All (IsFirstKnown known now) rows) }
    ensures there { (rows : List InstRow) (parts : List Detached) (known : List KnownInstance) (history : Option History) → AreOfParts rows parts known history → IfTold history (λ now. HasInstances (files_of now) rows (map (λ part. part.octets) (take (length rows) parts))) }
{}
