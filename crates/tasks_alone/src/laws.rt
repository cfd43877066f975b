// Laws of a task that has the store to itself.
ghost use Rattle.std.specs.Prelude.{◌≡◌, ℕ, List, false, length};
ghost use Rattle.attach_detach.specs.declared.message.Prepared.{Prepared};
ghost use Rattle.mail_fetch.specs.Events.{fetch_refusal};
ghost use Rattle.mdbox_base.specs.declared.ids.InstId.{InstId};
ghost use Rattle.saved_message.specs.Laid.{IsLaid, LaidValue};
ghost use Rattle.saved_message.specs.Region.{unknown_guid};
ghost use Rattle.script_run.specs.One.{missing_cause};
ghost use Rattle.sis_store.specs.Instances.{holders_in};
ghost use Rattle.store_core.specs.Value.{StoreValue, list_named};
ghost use Rattle.store_instances.specs.FoundInstances.{IsFoundInstances};
ghost use Rattle.tasks_alone.specs.DeliveryAlone.{region_length};

use disk_model::Disk;

/// Nobody holds an instance of a store that was just opened.
pub fn opened_instances_are_free<D: Disk>()
    ensures { (s : StoreValue D) → IsFoundInstances s.map s.instances → (id : InstId) → holders_in id s.instances.known ≡ 0 }
{}

/// A region is as long as it was laid out, before the message's GUID and the ids of its instances were known.
pub fn regions_are_as_long_as_laid_out()
    ensures { (name : List ℕ) (time : ℕ) (prepared : Prepared) (ids : List InstId) (laid : LaidValue) → IsLaid name time prepared ids unknown_guid laid → length laid.region ≡ region_length name time prepared }
{}

/// Why a fetch finds no message is what the mailbox's log says: there is no such mailbox, or it doesn't list the UID.
pub fn fetches_are_refused_by_the_logs<D: Disk>()
    ensures { (name : List ℕ) (uid : ℕ) (s : StoreValue D) → s.stopped ≡ false → fetch_refusal name uid s ≡ missing_cause (list_named s name) uid }
{}
