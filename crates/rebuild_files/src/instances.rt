// The running numbers of instances.
ghost use Rattle.std.specs.Prelude.{◌≡◌, ◌==◌, ◌&&◌, ◌<◌, IfOk, IsErr, OnOk};
ghost use Rattle.disk_model.specs.Disk.{IfTold, IsIdle};
ghost use Rattle.disk_model.specs.FaultCounts.{NoFault, ReadFaultCounted};
ghost use Rattle.model_meaning.specs.MapMeaning.{instance_number, is_own, number_at};
ghost use Rattle.model_rebuild.specs.RebuildPlan.{IsGreatest, IsInstanceNumber};
ghost use Rattle.model_store.specs.Settled.{files_of};
ghost use Rattle.rebuild_files.specs.Listing.{instance_in_name};

use crate::device::next_name;
use disk_model::{Disk, FileName};
use gate_log::DiskFault;
use mdbox_base::StoreId;

/// The greatest running number of an instance that is there and whose id has this store's form; 0 if there is none.
pub fn highest_instance<D: Disk>(disk: &mut D, store: StoreId) -> Result<u32, DiskFault>
    ensures greatest { IfOk result (λ n. IfTold (D.history disk.old) (λ now. IsGreatest (IsInstanceNumber (files_of now) store.0) n)) }
    ensures range { IfOk result (λ n. n < 4294967295) }
    ensures idle { IsIdle (D.history disk.old) (D.history disk.new) }
    ensures fault { ReadFaultCounted (IsErr result) (D.faults disk.old) (D.faults disk.new) }
    ensures unfailed { OnOk result (NoFault (D.faults disk.old) (D.faults disk.new)) }
{
    let mut most: u32 = 0;
    let mut last = FileName::Mail(u32::MAX);
    while let Some(name) = next_name(disk, last)? {
        most = most.max(instance_in_name(store, name));
        last = name;
    }
    Ok(most)
}

/// The running number of an instance with this name, if its id has this store's form, else 0.
fn instance_in_name(store: StoreId, name: FileName) -> u32
    ensures number { result ≡ instance_in_name store.0 name }
    ensures small { result < 4294967295 }
{
    match name {
        FileName::Inst(_, id) => running_number(store, &id),
        _ => 0,
    }
}

/// The running number of an instance id of this store's form, else 0.
fn running_number(store: StoreId, id: &[u8; 16]) -> u32
    ensures number { result ≡ instance_number store.0 id.now }
    ensures small { result < 4294967295 }
{
    let number = fourth(id);
    if has_form(store, id) && number != u32::MAX {
        number
    } else {
        0
    }
}

/// Whether an instance id has this store's form.
fn has_form(store: StoreId, id: &[u8; 16]) -> bool
    ensures { result ≡ (is_own store.0 id.now && (number_at 8 id.now == 4294967295)) }
{
    begins_with(store, id) && third(id) == u32::MAX
}

/// Whether an id begins with the store's.
fn begins_with(store: StoreId, id: &[u8; 16]) -> bool
    ensures { result ≡ is_own store.0 id.now }
{
    id[..8] == store.0[..]
}

/// The number that the four octets from place 8 on spell.
fn third(id: &[u8; 16]) -> u32
    ensures { result ≡ number_at 8 id.now }
{
    u32::from_be_bytes([id[8], id[9], id[10], id[11]])
}

/// The number that the last four octets spell.
fn fourth(id: &[u8; 16]) -> u32
    ensures { result ≡ number_at 12 id.now }
{
    u32::from_be_bytes([id[12], id[13], id[14], id[15]])
}
