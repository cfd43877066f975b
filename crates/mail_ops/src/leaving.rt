// Removing a message from the source of a move.
ghost use Rattle.std.specs.Prelude.{◌≡◌, IfOk, IfErr, false};
ghost use Rattle.store_core.specs.Keeping.{KeepsUid};
ghost use Rattle.mail_ops.specs.Moving.{FellFrom, RemovesIfListed};

use crate::message::find_in;
use disk_model::Disk;
use mdbox_base::{BoxEntry, BoxNo, MapUid, Uid};
use store_core::{StepError, Stopped, Store};

/// Removes a message from the mailbox with this number if it is still listed there, and says whether it was. It is of this record,
/// and no memory is taken.
pub(crate) fn remove_listed<D: Disk>(
    store: &mut Store<D>,
    source: BoxNo,
    uid: Uid,
    held: MapUid,
) -> Result<bool, Stopped>
    requires running { store.old.stopped ≡ false }
    requires keeps { KeepsUid source.0 uid.0 held.0 store.old }
    ensures removed { IfOk result (λ listed. RemovesIfListed source uid held listed store.old store.new (D.history store.old.disk) (D.history store.new.disk) (D.faults store.old.disk) (D.faults store.new.disk)) }
    ensures stopped { IfErr result (λ _. FellFrom source uid store.old store.new (D.history store.old.disk) (D.history store.new.disk) (D.faults store.old.disk) (D.faults store.new.disk)) }
{
    let Some(_row) = find_in(store, source, uid) else {
        return Ok(false);
    };
    match store.append_box(source, &BoxEntry::R { uid }) {
        Ok(()) => Ok(true),
        Err(StepError::Stopped) => Err(Stopped),
        Err(StepError::NoMemory) => unreachable!(),
    }
}
