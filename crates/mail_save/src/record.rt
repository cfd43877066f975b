// The record of a message in the map.
ghost use Rattle.std.specs.Prelude.{◌≡◌, ◌≢◌, ◌↔◌, ◌⊎◌, ◌≤◌, ◌<◌, ◌+◌, ◌∷◌, [], ℕ, List, All, true, false, Some, None, IfOk, IfErr, OnOk, IsErr, IsErrOf};
ghost use Rattle.disk_model.specs.Disk.{Grows};
ghost use Rattle.disk_model.specs.FaultCounts.{NoFault, ChangeFaultCounted};
ghost use Rattle.mdbox_base.specs.declared.entries.InstRow.{InstRow as InstRowValue};
ghost use Rattle.mdbox_base.specs.declared.ids.MapUid.{MapUid as MapUidValue};
ghost use Rattle.mdbox_base.specs.declared.replies.Refusal.TheVariants as refusal;
ghost use Rattle.model_kept.specs.Kept.{MailIsKept};
ghost use Rattle.model_lists.specs.Lists.{Lists};
ghost use Rattle.model_logs.specs.Entries.{RowInRange};
ghost use Rattle.model_store.specs.Settled.{IsSettledFor, Leaves};
ghost use Rattle.store_core.specs.Dues.{due_at, KeepsStored};
ghost use Rattle.store_core.specs.Keeping.{KeepsFirm};
ghost use Rattle.store_core.specs.MapAppend.{IsReadyToStore};
ghost use Rattle.mail_save.specs.Events.{uid_refusal};
ghost use Rattle.mail_save.specs.Left.{HoldsInstances, HoldsRegion};
ghost use Rattle.mail_save.specs.MailFiles.{ReadsSameMail};
ghost use Rattle.mail_save.specs.Record.{MayBeNamed, entry_stored, entry_lowered};
ghost use Rattle.mail_save.specs.declared.place.SavedAt.{SavedAt as SavedAtValue};
ghost use Rattle.mail_save.specs.SaveEffects.{AreSpared, IsLeftAlone, LowersRecord, StoresPlaced, StoresNone};

use crate::place::SavedAt;
use disk_model::Disk;
use mdbox_base::{Hash, InstId, InstRow, MapEntry, MapUid, NoMemory, Refusal, Seq};
use std::alloc::Global;
use std::marker::Model;
use store_core::{StepError, Stopped, Store, known_rows_agree};

/// The greatest number of a record.
const LAST_UID: u64 = 4_294_967_294;

/// The memory for an entry that lowers the count of one record.
#[derive(Drop)]
pub struct LowerRoom {
    uids: Vec<MapUid>,
}

impl Model for LowerRoom {
    ghost use Rattle.std.specs.Prelude.{◌≡◌, ◌≤◌, [], vec_capacity};

    ghost Value = { Unit {0} };

    ghost view = { λ room. tt };

    ghost invariant = { λ room. (1 ≤ vec_capacity room.uids) × (room.uids.items ≡ []) };
}

impl LowerRoom {
    /// Takes the memory.
    pub(crate) fn of(alloc: Global) -> Result<LowerRoom, NoMemory> {
        Ok(LowerRoom {
            uids: Vec::with_capacity(alloc, 1)?,
        })
    }

    /// The entry that lowers the count of this record. It takes no memory.
    fn entry_of(self, uid: MapUid) -> MapEntry
        ensures { result ≡ entry_lowered uid }
    {
        let mut uids = self.uids;
        uids.push_reserved(uid);
        MapEntry::D {
            uids: Seq::of(uids),
        }
    }
}

/// What the types say of an instance.
fn known_row(row: InstRow)
    ensures { RowInRange row }
{
    let InstRow {
        hash: Hash(_hash),
        id: InstId(_id),
        size: _size,
    } = row;
}

/// What they say of instances.
fn known_rows(rows: &[InstRow])
    ensures { All RowInRange rows.now }
{
    for row in rows {
        known_row(*row);
    }
}

/// Stores a message that was placed in the map, with the instances that its record names, and gives its storage file back. The
/// instances are handed back too.
pub fn store_record<D: Disk>(
    store: &mut Store<D>,
    at: SavedAt,
    rows: Seq<InstRow>,
) -> (Result<MapUid, Refusal>, Seq<InstRow>)
    requires running { store.old.stopped ≡ false }
    requires placed { HoldsRegion at store.old }
    requires size { 1 ≤ at.size }
    requires instances { HoldsInstances rows store.old (D.history store.old.disk) }
    ensures rows { result.1 ≡ rows }
    ensures stores { IfOk result.0 (λ uid. (time size : ℕ) → StoresPlaced at rows time size (record { map_uid = uid; guid = at.guid; time = time; size = size }) store.old store.new) }
    ensures none { IfErr result.0 (λ why. StoresNone at why store.old store.new) }
    ensures spared { OnOk result.0 (AreSpared store.old store.new (D.history store.old.disk) (D.history store.new.disk)) }
    ensures any_moment { (lists : Lists) → IsReadyToStore (entry_stored rows (record { 0 = store.old.drawn.map + 1 }) at) (D.history store.old.disk) → MayBeNamed rows store.old (D.history store.old.disk) → IsSettledFor lists (D.history store.old.disk) → Leaves lists lists (D.history store.old.disk) (D.history store.new.disk) }
    ensures mail_stays { MailIsKept store.old.map (D.history store.old.disk) (D.history store.new.disk) }
    ensures settled { store.new.stopped ≡ false → (lists : Lists) → IsReadyToStore (entry_stored rows (record { 0 = store.old.drawn.map + 1 }) at) (D.history store.old.disk) → MayBeNamed rows store.old (D.history store.old.disk) → IsSettledFor lists (D.history store.old.disk) → IsSettledFor lists (D.history store.new.disk) }
    ensures stored { store.new.stopped ≡ false → KeepsStored (D.history store.old.disk) (D.history store.new.disk) }
    ensures mail { OnOk result.0 (ReadsSameMail (D.history store.old.disk) (D.history store.new.disk)) }
    ensures firm { OnOk result.0 (KeepsFirm store.old store.new (D.history store.old.disk) (D.history store.new.disk)) }
    ensures refused { IfErr result.0 (λ why. (uid_refusal store.old.drawn.map ≡ Some why) ⊎ ((uid_refusal store.old.drawn.map ≡ None) × ((why ≡ refusal.Stopped) ⊎ (why ≡ refusal.NoMemory)))) }
    ensures stopped { IsErrOf result.0 refusal.Stopped ↔ (store.new.stopped ≡ true) }
    ensures grows { Grows (D.history store.old.disk) (D.history store.new.disk) }
    ensures fault { ChangeFaultCounted (IsErrOf result.0 refusal.Stopped) (D.faults store.old.disk) (D.faults store.new.disk) }
    ensures unfailed { store.new.stopped ≡ false → NoFault (D.faults store.old.disk) (D.faults store.new.disk) }
{
    store.facts();
    known_rows(rows.as_slice());
    known_rows_agree::<D>();
    let Some(uid) = store.next_map_uid() else {
        store.release(at.file);
        return (Err(Refusal::StoreFull(LAST_UID)), rows);
    };
    let entry = MapEntry::S {
        origin: 0,
        count: 1,
        uid,
        file: at.file,
        offset: at.offset,
        size: at.size,
        guid: at.guid,
        instances: rows,
    };
    let stored = match store.append_map(&entry) {
        Ok(()) => {
            store.release(at.file);
            Ok(uid)
        }
        Err(StepError::Stopped) => Err(Refusal::Stopped),
        Err(StepError::NoMemory) => {
            store.release(at.file);
            Err(Refusal::NoMemory)
        }
    };
    (stored, named_in(entry))
}

/// The instances that an entry names.
fn named_in(entry: MapEntry) -> Seq<InstRow>
    requires { (rows : List InstRowValue) × (uid : MapUidValue) × (at : SavedAtValue) × (entry ≡ entry_stored rows uid at) }
    ensures { (rows : List InstRowValue) (uid : MapUidValue) (at : SavedAtValue) → entry ≡ entry_stored rows uid at → result ≡ rows }
{
    let MapEntry::S { instances, .. } = entry else {
        unreachable!()
    };
    instances
}

/// Lowers the count of a record of which something is due. It takes no memory.
pub fn give_back<D: Disk>(store: &mut Store<D>, uid: MapUid, room: LowerRoom) -> Result<(), Stopped>
    requires running { store.old.stopped ≡ false }
    requires due { 1 ≤ due_at uid.0 store.old }
    ensures lowers { OnOk result (LowersRecord uid store.old store.new) }
    ensures alone { IsErr result → IsLeftAlone store.old store.new }
    ensures spared { OnOk result (AreSpared store.old store.new (D.history store.old.disk) (D.history store.new.disk)) }
    ensures any_moment { (lists : Lists) → IsSettledFor lists (D.history store.old.disk) → Leaves lists lists (D.history store.old.disk) (D.history store.new.disk) }
    ensures mail_stays { MailIsKept store.old.map (D.history store.old.disk) (D.history store.new.disk) }
    ensures settled { OnOk result ((lists : Lists) → IsSettledFor lists (D.history store.old.disk) → IsSettledFor lists (D.history store.new.disk)) }
    ensures stored { OnOk result (KeepsStored (D.history store.old.disk) (D.history store.new.disk)) }
    ensures mail { OnOk result (ReadsSameMail (D.history store.old.disk) (D.history store.new.disk)) }
    ensures firm { OnOk result (KeepsFirm store.old store.new (D.history store.old.disk) (D.history store.new.disk)) }
    ensures stopped { IsErr result ↔ (store.new.stopped ≡ true) }
    ensures grows { Grows (D.history store.old.disk) (D.history store.new.disk) }
    ensures fault { ChangeFaultCounted (IsErr result) (D.faults store.old.disk) (D.faults store.new.disk) }
    ensures unfailed { OnOk result (NoFault (D.faults store.old.disk) (D.faults store.new.disk)) }
{
    store.known_dues();
    match store.append_map(&room.entry_of(uid)) {
        Ok(()) => Ok(()),
        Err(StepError::Stopped) => Err(Stopped),
        Err(StepError::NoMemory) => unreachable!(),
    }
}
