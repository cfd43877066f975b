// The first event of a fetch.
ghost use Rattle.std.specs.Prelude.{◌≡◌, ◌≤◌, ◌⊎◌, ℕ, Some, None, IfOk, IfErr, length};
ghost use Rattle.mdbox_base.specs.declared.replies.Refusal.TheVariants as refusal;
ghost use Rattle.storage_files.specs.Files.{end_in};
ghost use Rattle.mail_fetch.specs.Events.{fetch_refusal, IsAbsent, IsPinned};
ghost use Rattle.mail_fetch.specs.Parts.{pieces_left};
ghost use Rattle.mail_fetch.specs.Task.{most_pieces};

use crate::parts::StoredAt;
use crate::region::Region;
use disk_model::Disk;
use mdbox_base::{InstRow, Name, NoMemory, Refusal, Seq, Uid};
use std::alloc::Global;
use store_core::Store;

/// The most instances that a record names: a log counts them in two octets.
const MOST_INSTANCES: usize = 65_535;

/// Finds where the message is stored, and takes the memory for its octets. Nothing is read yet. A message whose storage file isn't
/// there is damaged.
pub fn find_message<D: Disk>(store: &Store<D>, name: &Name, uid: Uid) -> Result<Region, Refusal>
    ensures pinned { IfOk result (λ region. (fetch_refusal name.now uid.0 store.now ≡ None) × IsPinned name.now uid.0 store.now region) }
    ensures there { IfOk result (λ region. (end : ℕ) × (end_in region.from.file.0 store.now.files.files ≡ Some end)) }
    ensures few { IfOk result (λ region. length region.from.instances ≤ 65535) }
    ensures pieces { IfOk result (λ region. pieces_left region.left ≤ most_pieces) }
    ensures refused { IfErr result (λ why. (fetch_refusal name.now uid.0 store.now ≡ Some why) ⊎ ((fetch_refusal name.now uid.0 store.now ≡ None) × ((why ≡ refusal.NoMemory) ⊎ IsAbsent name.now uid.0 store.now why))) }
{
    store.facts();
    if store.stopped() {
        return Err(Refusal::Stopped);
    }
    let index = store.list_of(name).ok_or(Refusal::NoMailbox)?;
    let row = index.find(uid).ok_or(Refusal::NoMessage)?;
    let map = store.map();
    let (Some(entry), Some(instances)) = (map.row(row.map_uid), map.instances(row.map_uid)) else {
        unreachable!()
    };
    if store.end_of(entry.file).is_none() {
        return Err(Refusal::Damaged {
            file: entry.file,
            offset: u64::from(entry.offset),
        });
    }
    if instances.length() > MOST_INSTANCES {
        return Err(Refusal::NoMemory);
    }
    let Ok(instances) = copied(store.alloc(), instances) else {
        return Err(Refusal::NoMemory);
    };
    let from = StoredAt {
        file: entry.file,
        offset: entry.offset,
        size: entry.size,
        guid: entry.guid,
        listed: row.size,
        instances,
    };
    Region::of(store.alloc(), from).map_err(|_| Refusal::NoMemory)
}

/// The same instances once more.
fn copied(alloc: Global, instances: &Seq<InstRow>) -> Result<Seq<InstRow>, NoMemory>
    ensures { IfOk result (λ copy. copy ≡ instances.now) }
{
    Ok(Seq::of(Vec::from_slice(alloc, instances.as_slice())?))
}
