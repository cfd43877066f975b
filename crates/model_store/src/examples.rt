// Examples of the definitions, with what the formats say of them.
ghost use Rattle.model_store.specs.Safe.{Safe};
ghost use Rattle.model_store.specs.Settled.{IsSettled};
ghost use Rattle.model_store.specs.StoreExample.{example_image, example_lists, disk_at_rest};
ghost use Rattle.model_store.specs.InstanceExample.{instance_image, instance_lists};

/// The root log, the map log, the mailbox log and the storage file of that store are safe for lists of INBOX with this
/// one message.
pub fn example_store_is_safe()
    ensures { Safe example_image example_lists }
{}

/// The disk at rest with these files is settled for these lists.
pub fn example_store_is_settled()
    ensures { IsSettled (disk_at_rest example_image) example_lists }
{}

/// The logs, the storage file and the instance file of the store whose message stands in part in an instance are safe
/// for lists of INBOX with the whole message.
pub fn example_instance_store_is_safe()
    ensures { Safe instance_image instance_lists }
{}

/// The disk at rest with these files is settled for these lists.
pub fn example_instance_store_is_settled()
    ensures { IsSettled (disk_at_rest instance_image) instance_lists }
{}
