// The last event of a resync: wrong counts are put right by one entry.
ghost use Rattle.std.specs.Prelude.{◌≡◌, false};
ghost use Rattle.resync_task.specs.Correcting.{Corrects};

use crate::counting::wrong_counts;
use disk_model::Disk;
use mdbox_base::MapEntry;
use store_core::{StepError, Store};

/// Puts the wrong counts right, and answers how many there were. Where none is wrong nothing is written.
pub(crate) fn put_right<D: Disk>(store: &mut Store<D>) -> Result<u64, StepError>
    requires { store.old.stopped ≡ false }
    ensures { Corrects result store.old store.new (D.history store.old.disk) (D.history store.new.disk) (D.faults store.old.disk) (D.faults store.new.disk) }
{
    store.facts();
    store.map().known_facts();
    let counts = wrong_counts(store)?;
    let many = counts.length() as u64;
    if many == 0 {
        return Ok(0);
    }
    store.append_map(&MapEntry::T { counts })?;
    Ok(many)
}
