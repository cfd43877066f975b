// A message is added to its mailbox.
ghost use Rattle.std.specs.Prelude.{◌≡◌, ◌↔◌, ◌⊎◌, ◌≤◌, ℕ, List, true, false, Some, None, IfOk, IfErr, OnOk, IsErr, IsErrOf};
ghost use Rattle.disk_model.specs.Disk.{Grows};
ghost use Rattle.disk_model.specs.FaultCounts.{NoFault, ChangeFaultCounted};
ghost use Rattle.mdbox_base.specs.declared.ids.BoxNo.{BoxNo};
ghost use Rattle.mdbox_base.specs.declared.ids.Uid.{Uid};
ghost use Rattle.mdbox_base.specs.declared.replies.Refusal.TheVariants as refusal;
ghost use Rattle.model_appends.specs.Amounts.{due_by_box};
ghost use Rattle.model_appends.specs.Appending.{lists_by, meanings_by};
ghost use Rattle.model_kept.specs.Kept.{MailIsKept};
ghost use Rattle.model_lists.specs.Lists.{Lists};
ghost use Rattle.model_meaning.specs.BoxMeaning.{BoxMeaning};
ghost use Rattle.model_meaning.specs.MapFits.{HasRecord};
ghost use Rattle.model_store.specs.Settled.{IsSettledFor, Leaves};
ghost use Rattle.store_core.specs.Append.{Brings};
ghost use Rattle.store_core.specs.Dues.{due_at, KeepsStored};
ghost use Rattle.store_core.specs.Value.{indexes_of, list_named, list_numbered};
ghost use Rattle.mail_save.specs.Added.{HasRoomUnder, entry_added};
ghost use Rattle.mail_save.specs.Events.{box_refusal};
ghost use Rattle.mail_save.specs.MailFiles.{ReadsSameMail};

use disk_model::Disk;
use mdbox_base::{BoxEntry, BoxNo, Guid, MapUid, Name, Refusal, Seq, Uid};
use store_core::{StepError, Store};

/// How many messages a mailbox lists at the most.
const MOST_MESSAGES: u32 = 1_000_000;

/// The greatest UID.
const LAST_UID: u64 = 4_294_967_294;

/// The number of the mailbox with this name, and its next UID, where it has room for a message.
pub fn room_in<D: Disk>(store: &Store<D>, name: &Name) -> Result<(BoxNo, Uid), Refusal>
    ensures ok { IfOk result (λ found. HasRoomUnder name.now found.0 found.1 store.now) }
    ensures err { IfErr result (λ why. box_refusal (list_named store.now name.now) ≡ Some why) }
{
    let Some(index) = store.list_of(name) else {
        return Err(Refusal::NoMailbox);
    };
    index.known_facts();
    if index.length() >= MOST_MESSAGES {
        return Err(Refusal::MailboxFull(u64::from(MOST_MESSAGES)));
    }
    let Some(uid) = index.next_uid() else {
        return Err(Refusal::StoreFull(LAST_UID));
    };
    let Some(number) = store.number_of(name) else {
        unreachable!()
    };
    Ok((number, uid))
}

/// What is added to a mailbox: a stored message, with its size and the time when it was received.
#[derive(Clone, Copy, Debug, PartialEq, Eq)]
pub struct Added {
    pub map_uid: MapUid,
    pub guid: Guid,
    pub time: u64,
    /// How many octets the message has.
    pub size: u32,
}

/// Adds a stored message to its mailbox, with the next UID, without flags and without keywords.
pub fn add_message<D: Disk>(store: &mut Store<D>, name: &Name, added: Added) -> Result<Uid, Refusal>
    requires running { store.old.stopped ≡ false }
    requires size { added.size ≤ 67108864 }
    requires record { HasRecord store.old.map added.map_uid.0 (λ row. row.guid ≡ added.guid.0) }
    requires held { 1 ≤ due_at added.map_uid.0 store.old }

    // Of a settled disk each image at every moment is safe for its lists, or for those with the message; and after Ok the disk
    // is settled for the latter.
    ensures any_moment { (number : BoxNo) (uid : Uid) → HasRoomUnder name.now number uid store.old → (lists : Lists) (octets : List ℕ)
        → Brings store.old.map (entry_added uid added) octets (D.history store.old.disk) → IsSettledFor lists (D.history store.old.disk) → Leaves lists (lists_by number.0 octets (entry_added uid added) lists) (D.history store.old.disk) (D.history store.new.disk) }
    ensures mail_stays { MailIsKept store.old.map (D.history store.old.disk) (D.history store.new.disk) }
    ensures settled { IfOk result (λ uid. (number : BoxNo) → HasRoomUnder name.now number uid store.old → (lists : Lists) (octets : List ℕ) → Brings store.old.map (entry_added uid added) octets (D.history store.old.disk) → IsSettledFor lists (D.history store.old.disk) → IsSettledFor (lists_by number.0 octets (entry_added uid added) lists) (D.history store.new.disk)) }
    ensures unadded { IsErr result → store.new.stopped ≡ false → store.new ≡ store.old }
    ensures uid { IfOk result (λ uid. (number : BoxNo) × HasRoomUnder name.now number uid store.old × (indexes_of store.new.boxes ≡ meanings_by number.0 (entry_added uid added) store.old.map.boxes (indexes_of store.old.boxes))) }
    ensures due { IfOk result (λ uid. (m : BoxMeaning) (other : ℕ) → list_named store.old name.now ≡ Some m → due_at other store.new ≡ due_by_box m (entry_added uid added) (λ k. due_at k store.old) other) }
    ensures stored { store.new.stopped ≡ false → KeepsStored (D.history store.old.disk) (D.history store.new.disk) }
    ensures mail { OnOk result (ReadsSameMail (D.history store.old.disk) (D.history store.new.disk)) }
    ensures refused { IfErr result (λ why. (box_refusal (list_named store.old name.now) ≡ Some why) ⊎ ((box_refusal (list_named store.old name.now) ≡ None) × ((why ≡ refusal.Stopped) ⊎ (why ≡ refusal.NoMemory)))) }
    ensures fell { IsErrOf result refusal.Stopped → (number : BoxNo) × (uid : Uid) × HasRoomUnder name.now number uid store.old }
    ensures stopped { IsErrOf result refusal.Stopped ↔ (store.new.stopped ≡ true) }
    ensures untaken { IsErr result → (indexes_of store.new.boxes ≡ indexes_of store.old.boxes) × (store.new.dues ≡ store.old.dues) }
    ensures same { store.new ≡ record store.old { disk = store.new.disk; boxes = store.new.boxes; dues = store.new.dues; stopped = store.new.stopped } }
    ensures grows { Grows (D.history store.old.disk) (D.history store.new.disk) }
    ensures fault { ChangeFaultCounted (IsErrOf result refusal.Stopped) (D.faults store.old.disk) (D.faults store.new.disk) }
    ensures unfailed { store.new.stopped ≡ false → NoFault (D.faults store.old.disk) (D.faults store.new.disk) }
{
    let (number, uid) = room_in(store, name)?;
    let entry = BoxEntry::A {
        uid,
        flags: 0,
        time: added.time,
        size: added.size,
        map_uid: added.map_uid,
        guid: added.guid,
        words: Seq::empty(store.alloc()),
    };
    match store.append_box(number, &entry) {
        Ok(()) => Ok(uid),
        Err(StepError::Stopped) => Err(Refusal::Stopped),
        Err(StepError::NoMemory) => Err(Refusal::NoMemory),
    }
}
