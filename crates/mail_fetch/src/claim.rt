// What a fetch claims of the store: a pin of the message's storage file, and a hold of each of its instances.
ghost use Rattle.std.specs.Prelude.{◌≡◌, ◌≤◌, ◌<◌, ◌+◌, ◌==◌, true, ℕ, List, All, Some, length};
ghost use Rattle.std.specs.List.{list_any};
ghost use Rattle.mdbox_base.specs.declared.ids.InstId.{InstId as InstIdValue};
ghost use Rattle.sis_store.specs.Instances.{holders_in};
ghost use Rattle.storage_files.specs.Files.{end_in};
ghost use Rattle.store_core.specs.Keeping.{KeepsInstances, MovesHolds, holds_of};
ghost use Rattle.store_core.specs.StoreInstances.{IsKnownRow};
ghost use Rattle.task_claims.specs.Claims.{AreIn, Claims, MovesClaims, no_claims};
ghost use Rattle.task_claims.specs.Leaving.{LeavesOthers};
ghost use Rattle.mail_fetch.specs.Claims.{HasUseRoom, held_for, claims_of_pinned, claims_unpinned, with_claims, without_claims};
ghost use Rattle.mail_fetch.specs.Removal.{CanRemove, is_last_pin};

use crate::parts::StoredAt;
use disk_model::Disk;
use mdbox_base::InstRow;
use save_instances::let_go_all;
use store_core::{Store, instances_are_kept};

/// Pins the storage file of a message once more, and holds each of its instances, once for each row. It takes no memory.
pub fn claim<D: Disk>(store: &mut Store<D>, from: &StoredAt)
    requires region { list_any (λ row. row.file == from.now.file.0) store.old.map.records ≡ true }
    requires there { (end : ℕ) × (end_in from.now.file.0 store.old.files.files ≡ Some end) }
    requires known { All (IsKnownRow store.old.instances.known) from.now.instances }
    requires few { length from.now.instances ≤ 65535 }
    requires room { HasUseRoom store.old }
    ensures same { store.new ≡ with_claims from.now store.old }
    ensures claims { MovesClaims no_claims (claims_of_pinned from.now) store.old store.new }
    ensures leaves { (mine : Claims) → LeavesOthers mine store.old store.new (D.history store.old.disk) (D.history store.new.disk) }
{
    store.facts();
    hold_all(store, from.instances.as_slice());
    store.pin(from.file);
}

/// Gives back the pin and the holds that a message had, and answers whether its file is to be removed now: it is doomed, and this
/// was its last pin.
pub fn give_back<D: Disk>(store: &mut Store<D>, from: &StoredAt) -> bool
    requires { AreIn store.old (claims_of_pinned from.now) }
    ensures last { result ≡ is_last_pin from.now.file.0 store.old }
    ensures same { store.new ≡ without_claims from.now store.old }
    ensures claims { MovesClaims (claims_of_pinned from.now) (claims_unpinned from.now.file.0 result) store.old store.new }
    ensures leaves { (mine : Claims) → LeavesOthers mine store.old store.new (D.history store.old.disk) (D.history store.new.disk) }
    ensures removable { result ≡ true → CanRemove from.now.file.0 store.new }
{
    store.facts();
    let_go_all(store, from.instances.as_slice());
    store.unpin(from.file)
}

/// Holds each of these instances once more, once for each row.
fn hold_all<D: Disk>(store: &mut Store<D>, rows: &[InstRow])
    requires known { All (IsKnownRow store.old.instances.known) rows.now }
    requires few { length rows.now ≤ 65535 }
    requires room { (id : InstIdValue) → holders_in id store.old.instances.known + 65535 ≤ 4294967295 }
    ensures moves { MovesHolds (λ id. 0) (holds_of rows.now) store.old store.new }
    ensures keeps { KeepsInstances store.old store.new (D.history store.old.disk) (D.history store.new.disk) }
    ensures same { store.new ≡ record store.old { instances = record store.old.instances { known = held_for rows.now store.old.instances.known } } }
{
    instances_are_kept::<D>();
    for row in rows {
        store.hold(row.id);
    }
}
