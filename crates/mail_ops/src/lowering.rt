// Lowering the count of a record.
ghost use Rattle.std.specs.Prelude.{◌≡◌, ◌≤◌, ◌∷◌, [], false, IfOk};
ghost use Rattle.mdbox_base.specs.declared.entries.MapEntry.TheVariants as map_entry;
ghost use Rattle.store_core.specs.Dues.{due_at};
ghost use Rattle.mail_ops.specs.Appends.{MapAnswers, lowering_of};

use disk_model::Disk;
use mdbox_base::{MapEntry, MapUid, NoMemory, Seq};
use std::alloc::Global;
use std::marker::Model;
use store_core::{StepError, Stopped, Store};

/// The entry that lowers the count of a record by one. It is laid out before anything of its request is written, since an event
/// behind the first takes no memory.
#[derive(Drop)]
pub struct Lowering {
    uid: MapUid,
    entry: MapEntry,
}

impl Model for Lowering {
    ghost use Rattle.std.specs.Prelude.{◌≡◌, ◌<◌, ◌^◌};
    ghost use Rattle.mdbox_base.specs.declared.ids.MapUid.{MapUid};
    ghost use Rattle.mail_ops.specs.Appends.{lowering_of};

    ghost Value = { MapUid };

    ghost view = { λ l. l.uid };

    ghost invariant = { λ l. (l.entry ≡ lowering_of l.uid) × (l.uid.0 < 2 ^ 32) };
}

impl Lowering {
    /// The entry for this record.
    pub(crate) fn of(alloc: Global, uid: MapUid) -> Result<Lowering, NoMemory>
        ensures { IfOk result (λ lowering. lowering ≡ uid) }
    {
        let uids = vec![in alloc; uid]?;
        Ok(Lowering {
            uid,
            entry: MapEntry::D {
                uids: Seq::of(uids),
            },
        })
    }

    /// The record.
    pub(crate) fn uid(&self) -> MapUid
        ensures { result ≡ self.now }
    {
        self.uid
    }

    /// Appends the entry: one less is due of the record then.
    pub(crate) fn append<D: Disk>(&self, store: &mut Store<D>) -> Result<(), Stopped>
        requires running { store.old.stopped ≡ false }
        requires due { 1 ≤ due_at self.now.0 store.old }
        ensures { MapAnswers (lowering_of self.now) result store.old store.new (D.history store.old.disk) (D.history store.new.disk) (D.faults store.old.disk) (D.faults store.new.disk) }
    {
        store.known_dues();
        match store.append_map(&self.entry) {
            Ok(()) => Ok(()),
            Err(StepError::Stopped) => Err(Stopped),
            Err(StepError::NoMemory) => unreachable!(),
        }
    }
}
