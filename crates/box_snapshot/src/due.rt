// Which logs are due to be written anew.
ghost use Rattle.std.specs.Prelude.{◌≡◌, ◌<◌, ◌^◌};
ghost use Rattle.box_snapshot.specs.Due.{is_due_at, is_log_due, is_map_due};

use disk_model::Disk;
use mdbox_base::BoxNo;
use store_core::Store;

/// A log of fewer entries isn't written anew.
const LEAST: u64 = 1_024;

/// The greatest generation that a log may have.
const LAST_GENERATION: u32 = 4_294_967_294;

/// Whether the log of a mailbox is due to be written anew: it has 1,024 entries or more, more than twice as many as it has messages
/// and one, and a generation below 4,294,967,294. Of a mailbox that isn't there it says no.
pub fn box_due<D: Disk>(store: &Store<D>, mailbox: BoxNo) -> bool
    ensures { result ≡ is_due_at mailbox.0 store.now }
{
    store.facts();
    match (store.mailbox(mailbox), store.generation_of(mailbox)) {
        (Some(index), Some(generation)) => is_log_due(
            store.box_entries(mailbox),
            u64::from(index.length()) + 1,
            generation,
        ),
        _ => false,
    }
}

/// Whether the map log is due to be written anew: it has 1,024 entries or more, more than twice as many as there are mailboxes,
/// records and sealed files and one, and a generation below 4,294,967,294.
pub fn map_due<D: Disk>(store: &Store<D>) -> bool
    ensures { result ≡ is_map_due store.now }
{
    store.facts();
    let map = store.map();
    let needs = u64::from(map.boxes()) + u64::from(map.rows()) + u64::from(map.sealed()) + 1;
    is_log_due(store.map_entries(), needs, store.map_generation())
}

/// Whether a log of so many entries, which needs so many, is due.
fn is_log_due(entries: u64, needs: u64, generation: u32) -> bool
    requires { needs < 2 ^ 63 }
    ensures { result ≡ is_log_due entries needs generation }
{
    entries >= LEAST && entries > 2 * needs && generation < LAST_GENERATION
}
