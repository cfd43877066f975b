// Instances that are held no more.
ghost use Rattle.std.specs.Prelude.{◌≡◌};
ghost use Rattle.save_instances.specs.Attaching.{AreHeld, found_let_go};
ghost use Rattle.store_core.specs.Keeping.{KeepsInstances, MovesHolds, holds_of};

use disk_model::Disk;
use mdbox_base::InstRow;
use store_core::{Store, instances_are_kept};

/// Lets go each instance that was found, once for each of these rows. Takes no memory.
pub fn let_go_all<D: Disk>(store: &mut Store<D>, found: &[InstRow])
    requires held { AreHeld found.now store.old.instances.known }
    ensures moves { MovesHolds (holds_of found.now) (λ id. 0) store.old store.new }
    ensures keeps { KeepsInstances store.old store.new (D.history store.old.disk) (D.history store.new.disk) }
    ensures same { store.new ≡ record store.old { instances = record store.old.instances { known = found_let_go found.now store.old.instances.known } } }
{
    instances_are_kept::<D>();
    for row in found {
        store.let_go(row.id);
    }
}
