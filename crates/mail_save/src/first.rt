// The first event of a delivery.
ghost use Rattle.std.specs.Prelude.{◌≡◌, ◌⊎◌, ◌≤◌, ℕ, List, [], length, Some, None, IfOk, IfErr};
ghost use Rattle.attach_detach.specs.Prepared.{IsPrepared};
ghost use Rattle.mdbox_base.specs.declared.replies.Refusal.TheVariants as refusal;
ghost use Rattle.save_instances.specs.Attaching.{nothing_found};
ghost use Rattle.mail_save.specs.Events.{save_refusal};
ghost use Rattle.mail_save.specs.SaveEffects.{LaysOut};
ghost use Rattle.mail_save.specs.Parts.{AreLaidOut};
ghost use Rattle.saved_message.specs.Region.{unknown_ids};

use crate::add::room_in;
use crate::record::LowerRoom;
use attach_detach::Prepared;
use dbox_file::push_file_header;
use disk_model::Disk;
use mdbox_base::{InstRow, Name, NoMemory, Octets, Refusal, Seq};
use save_instances::Attaching;
use saved_message::{Laid, lay_out};
use std::alloc::Global;
use store_core::Store;

/// The greatest number of a record.
const LAST_UID: u64 = 4_294_967_294;

/// What is written of a message, laid out before anything is written, and the memory for giving back its record.
#[derive(Drop)]
pub struct SavedParts {
    /// The header of a storage file that the message would open.
    pub header: Octets,
    /// The region, in which the GUID isn't set yet.
    pub laid: Laid,
    /// The instances that its record names: none until each attachment has its own.
    pub rows: Seq<InstRow>,
    pub room: LowerRoom,
}

/// Makes the checks of the first event, and lays out what will be written. All the memory for finding the instances is taken.
pub fn begin<D: Disk>(
    store: &Store<D>,
    name: &Name,
    time: u64,
    prepared: Prepared,
) -> Result<(SavedParts, Attaching), Refusal>
    requires { (octets : List ℕ) × (length octets ≤ 67108864) × IsPrepared octets prepared }
    ensures begun { IfOk result (λ begun. (begun.1 ≡ nothing_found prepared.parts) × LaysOut name.now time prepared begun.0 store.now) }
    ensures refused { IfErr result (λ why. (save_refusal name.now store.now ≡ Some why) ⊎ ((save_refusal name.now store.now ≡ None) × (why ≡ refusal.NoMemory))) }
{
    if let Err(why) = room_in(store, name) {
        return Err(why);
    }
    if store.next_map_uid().is_none() {
        return Err(Refusal::StoreFull(LAST_UID));
    }
    match parts_of(store.alloc(), name, time, prepared) {
        Ok(begun) => Ok(begun),
        Err(NoMemory) => Err(Refusal::NoMemory),
    }
}

/// Lays out what will be written of a message, of whose attachments no instance was found yet.
fn parts_of(
    alloc: Global,
    name: &Name,
    time: u64,
    prepared: Prepared,
) -> Result<(SavedParts, Attaching), NoMemory>
    requires { (octets : List ℕ) × (length octets ≤ 67108864) × IsPrepared octets prepared }
    ensures attaching { IfOk result (λ begun. begun.1 ≡ nothing_found prepared.parts) }
    ensures laid { IfOk result (λ begun. AreLaidOut name.now time prepared (unknown_ids prepared.parts) begun.0) }
    ensures rows { IfOk result (λ begun. begun.0.rows ≡ []) }
{
    let (laid, detached) = lay_out(alloc, name, time, prepared)?;
    let mut header = Octets::empty(alloc);
    push_file_header(alloc, &mut header, time)?;
    let parts = SavedParts {
        header,
        laid,
        rows: Seq::empty(alloc),
        room: LowerRoom::of(alloc)?,
    };
    Ok((parts, Attaching::of(alloc, detached)?))
}
