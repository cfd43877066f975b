// Instances that are placed and removed.
ghost use Rattle.std.specs.Prelude.{◌≡◌, ◌≢◌, ◌+◌, ◌<◌, ◌≤◌, length, Some, OnOk, OnErr, IfOk, IfErr, IsErr, IsErrOf, vec_len, vec_capacity};
ghost use Rattle.disk_model.specs.FaultCounts.{NoFault, ChangeFaultCounted};
ghost use Rattle.disk_model.specs.Disk.{EachImage, OthersStay, IfTold, IsThere, Keeps, after, change, removed};
ghost use Rattle.sis_store.specs.Instances.{InstancesValue, IsInstanceKnown, holders_in, without_instance, numbered_id, next_id, after_placing};
ghost use Rattle.sis_store.specs.OnDisk.{file_of, next_instance_file, IsUnlikeKnown, OnlyNamesSynced, IsGoneOrLeft};
ghost use Rattle.sis_store.specs.Refusals.{IsPlaceError};

use crate::device::{make_with, remove};
use crate::error::{DiskFault, PlaceFault};
use crate::hashes::add_key;
use crate::instance::{HashKey, KnownInstance, hash_key};
use crate::instances::Instances;
use crate::known::add;
use disk_model::{Disk, FileName};
use mdbox_base::{Hash, InstId, InstRow, LAST_NUMBER, NoMemory, StoreId};

impl Instances {
    /// Places new octets as an instance, with the next running number, and answers its id. The file is synced, and all names
    /// are. It is known then, and held once. After a fault of the disk the number stays drawn, and the instance isn't known.
    pub fn place_instance<D: Disk>(
        &mut self,
        disk: &mut D,
        hash: Hash,
        octets: &[u8],
    ) -> Result<InstId, PlaceFault>
        requires size { length octets.now ≤ 4294967295 }
        requires new { IsUnlikeKnown hash (length octets.now) octets.now self.old.known (D.history disk.old) }

        // At every moment each image has the other files as a crash could leave them before, whichever device call fails.
        ensures any_moment { EachImage (λ _ image. OthersStay (next_instance_file hash self.old) (D.history disk.old) image) (D.history disk.old) (D.history disk.new) }

        // After Ok the octets are a file, and a crash leaves it so. No other file has changed, and their names are synced.
        ensures id { IfOk result (λ id. id ≡ next_id self.old) }
        ensures made { OnOk result (IfTold (D.history disk.new) (λ now. Keeps (now (next_instance_file hash self.old)) octets.now)) }
        ensures others { OnOk result (OnlyNamesSynced (next_instance_file hash self.old) (D.history disk.old) (D.history disk.new)) }
        ensures ok { OnOk result (self.new ≡ after_placing hash (length octets.now) self.old) }

        ensures refused { IfErr result (IsPlaceError self.old self.new) }
        ensures full { self.old.highest ≡ 4294967294 → IsErrOf result (PlaceFault.Full 4294967294) }
        ensures untouched { IfErr result (λ cause. cause ≢ PlaceFault.DiskFault → D.history disk.new ≡ D.history disk.old) }
        ensures fault { ChangeFaultCounted (IsErrOf result PlaceFault.DiskFault) (D.faults disk.old) (D.faults disk.new) }
        ensures unfailed { (IsErrOf result PlaceFault.DiskFault → ⊥) → NoFault (D.faults disk.old) (D.faults disk.new) }
    {
        if self.highest == LAST_NUMBER {
            return Err(PlaceFault::Full(u64::from(LAST_NUMBER)));
        }
        make_room(&mut self.known, &mut self.keys)?;
        self.highest += 1;
        let id = numbered_id(self.store, self.highest);
        make_with(disk, FileName::Inst(hash.0, id.0), octets)?;
        let row = InstRow {
            hash,
            id,
            size: octets.len() as u32,
        };
        add_key(&mut self.keys, hash_key(&row));
        add(&mut self.known, KnownInstance { row, holders: 1 });
        Ok(id)
    }

    /// Removes an instance that nobody holds. It is known no more. Its name isn't synced: until it is, a crash may bring the file
    /// back, which the next opening removes as one that nothing names.
    pub fn remove_instance<D: Disk>(&mut self, disk: &mut D, id: InstId) -> Result<(), DiskFault>
        requires known { IsInstanceKnown id self.old.known }
        requires unheld { holders_in id self.old.known ≡ 0 }

        // At every moment each image has this file as a crash could leave it before, or not at all.
        ensures any_moment { IfTold (D.history disk.old) (λ now. IsThere (now (file_of id self.old.known))) → EachImage (λ _ image. IsGoneOrLeft (file_of id self.old.known) (D.history disk.old) image × OthersStay (file_of id self.old.known) (D.history disk.old) image) (D.history disk.old) (D.history disk.new) }
        ensures others_stay { EachImage (λ _ image. OthersStay (file_of id self.old.known) (D.history disk.old) image) (D.history disk.old) (D.history disk.new) }

        // After Ok the file isn't there, and nothing else has changed.
        ensures gone { OnOk result (D.history disk.new ≡ after (change (file_of id self.old.known) removed) (D.history disk.old)) }
        ensures ok { OnOk result (self.new ≡ record self.old { known = without_instance id self.old.known }) }

        ensures err { OnErr result (self.new ≡ self.old) }
        ensures fault { ChangeFaultCounted (IsErr result) (D.faults disk.old) (D.faults disk.new) }
        ensures unfailed { OnOk result (NoFault (D.faults disk.old) (D.faults disk.new)) }
    {
        remove(disk, self.file_of(id))?;
        self.forget(id);
        Ok(())
    }
}

/// Makes room for one instance more.
fn make_room(known: &mut Vec<KnownInstance>, keys: &mut Vec<HashKey>) -> Result<(), NoMemory>
    ensures known { known.new.items ≡ known.old.items }
    ensures keys { keys.new.items ≡ keys.old.items }
    ensures room { OnOk result (vec_len known.new < vec_capacity known.new) }
    ensures key_room { OnOk result (vec_len keys.new < vec_capacity keys.new) }
{
    known.reserve(1)?;
    keys.reserve(1)?;
    Ok(())
}

/// The id of a running number in a store.
fn numbered_id(store: StoreId, number: u32) -> InstId
    ensures { result ≡ numbered_id store number }
{
    let [a, b, c, d, e, f, g, h] = store.0;
    let [p, q, r, s] = number.to_be_bytes();
    InstId([a, b, c, d, e, f, g, h, 255, 255, 255, 255, p, q, r, s])
}
