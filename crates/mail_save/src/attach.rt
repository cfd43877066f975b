// The events that find the instances of a message's attachments.
ghost use Rattle.std.specs.Prelude.{◌≡◌, ◌↔◌, ◌<◌, ℕ, List, true, false, None, IfErr, OnOk, OnErr, IsErr, IsErrOf, IsSome};
ghost use Rattle.attach_detach.specs.declared.message.Prepared.{Prepared};
ghost use Rattle.disk_model.specs.Disk.{Grows};
ghost use Rattle.disk_model.specs.FaultCounts.{NoFault, ChangeFaultCounted, ReadFaultCounted};
ghost use Rattle.mdbox_base.specs.declared.ids.InstId.{InstId};
ghost use Rattle.mdbox_base.specs.declared.replies.Refusal.TheVariants as refusal;
ghost use Rattle.model_kept.specs.Kept.{MailIsKept};
ghost use Rattle.model_lists.specs.Lists.{Lists};
ghost use Rattle.model_store.specs.Settled.{IsSettledFor, Leaves};
ghost use Rattle.save_instances.specs.Attaching.{AreHeld, IsAttaching, attach_events_left, next_attachment, next_candidate, parts_left};
ghost use Rattle.store_core.specs.Dues.{KeepsStored};
ghost use Rattle.store_core.specs.Keeping.{KeepsInstances, MovesHolds, holds_of};
ghost use Rattle.saved_message.specs.Laid.{IsLaid};
ghost use Rattle.mail_save.specs.Held.{HasHoldRoom};
ghost use Rattle.mail_save.specs.MailFiles.{ReadsSameMail, WritesAttachment};
ghost use Rattle.mail_save.specs.SaveEffects.{AttachesNext, AttachesNone, NamesFound};
ghost use Rattle.mail_save.specs.Task.{IsAttachRefusal};

use crate::first::SavedParts;
use disk_model::Disk;
use mdbox_base::Refusal;
use save_instances::Attaching;
use store_core::{PlaceStop, Store};

/// Goes on with the next attachment: compares it with the next candidate, which is held if it is its instance, or places it where
/// none is left.
pub fn attach_next<D: Disk>(store: &mut Store<D>, attaching: &mut Attaching) -> Result<(), Refusal>
    requires running { store.old.stopped ≡ false }
    requires next { IsSome (next_attachment attaching.old) }
    requires attaching { IsAttaching attaching.old store.old (D.history store.old.disk) }
    requires room { HasHoldRoom (parts_left attaching.old) store.old }
    ensures next { OnOk result (AttachesNext attaching.old attaching.new store.old store.new) }
    ensures none { IfErr result (λ why. AttachesNone attaching.old why store.old store.new) }
    ensures refused { IfErr result (IsAttachRefusal (next_candidate attaching.old store.old.instances) store.old.drawn.instance) }
    ensures err { OnErr result (attaching.new ≡ attaching.old) }
    ensures fewer { OnOk result (attach_events_left attaching.new store.new.instances < attach_events_left attaching.old store.old.instances) }
    ensures room { OnOk result (HasHoldRoom (parts_left attaching.new) store.new) }
    ensures attaching { OnOk result (IsAttaching attaching.new store.new (D.history store.new.disk)) }
    ensures keeps { store.new.stopped ≡ false → KeepsInstances store.old store.new (D.history store.old.disk) (D.history store.new.disk) }
    ensures moves { MovesHolds (holds_of attaching.old.found) (holds_of attaching.new.found) store.old store.new }
    ensures held { AreHeld attaching.new.found store.new.instances.known }
    ensures any_moment { (lists : Lists) → IsSettledFor lists (D.history store.old.disk) → Leaves lists lists (D.history store.old.disk) (D.history store.new.disk) }
    ensures mail_stays { MailIsKept store.old.map (D.history store.old.disk) (D.history store.new.disk) }
    ensures settled { store.new.stopped ≡ false → (lists : Lists) → IsSettledFor lists (D.history store.old.disk) → IsSettledFor lists (D.history store.new.disk) }
    ensures stored { store.new.stopped ≡ false → KeepsStored (D.history store.old.disk) (D.history store.new.disk) }
    ensures written { OnOk result (WritesAttachment (next_candidate attaching.old store.old.instances) (next_attachment attaching.old) store.old (D.history store.old.disk) (D.history store.new.disk)) }
    ensures unwritten { IsErr result → store.new.stopped ≡ false → ReadsSameMail (D.history store.old.disk) (D.history store.new.disk) }
    ensures stopped { IsErrOf result refusal.Stopped ↔ (store.new.stopped ≡ true) }
    ensures grows { Grows (D.history store.old.disk) (D.history store.new.disk) }
    ensures read_fault { IsErrOf result refusal.ReadFault → ReadFaultCounted (Unit {0}) (D.faults store.old.disk) (D.faults store.new.disk) }
    ensures fault { IsErrOf result refusal.Stopped → ChangeFaultCounted (Unit {0}) (D.faults store.old.disk) (D.faults store.new.disk) }
    ensures unfailed { (IsErrOf result refusal.ReadFault → ⊥) → (IsErrOf result refusal.Stopped → ⊥) → NoFault (D.faults store.old.disk) (D.faults store.new.disk) }
{
    store.facts();
    match attaching.candidate(store) {
        Some(candidate) => match attaching.compare(store, candidate) {
            Ok(_alike) => Ok(()),
            Err(_fault) => Err(Refusal::ReadFault),
        },
        None => match attaching.place(store) {
            Ok(_row) => Ok(()),
            Err(PlaceStop::Full(last)) => Err(Refusal::StoreFull(last)),
            Err(PlaceStop::NoMemory) => Err(Refusal::NoMemory),
            Err(PlaceStop::Stopped) => Err(Refusal::Stopped),
        },
    }
}

/// The instance of each attachment was found: sets their ids in what was laid out, which takes no memory.
pub fn name_found(parts: SavedParts, attaching: Attaching) -> SavedParts
    requires whole { next_attachment attaching ≡ None }
    requires laid { (name : List ℕ) × (time : ℕ) × (prepared : Prepared) × (ids : List InstId) × (guid : List ℕ) × IsLaid name time prepared ids guid parts.laid × (attaching.parts ≡ prepared.parts) }
    ensures { NamesFound attaching.found parts result }
{
    let SavedParts {
        header,
        laid,
        rows: _rows,
        room,
    } = parts;
    let mut laid = laid;
    let rows = attaching.into_found();
    laid.set_ids(rows.as_slice());
    SavedParts {
        header,
        laid,
        rows,
        room,
    }
}
