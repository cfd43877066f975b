// The instances of a store: which are known and who holds them, what is read of them, and how one is placed or removed.
ghost use Rattle.std.specs.Prelude.{◌≡◌, ◌≢◌, ◌↔◌, ◌<◌, ◌≤◌, ◌+◌, ◌-◌, nat_lt, true, false, ℕ, List, ◌∷◌, length, take, drop, Some, None, IfOk, IfErr, OnOk, OnErr, IsErr, IsErrOf, IsTrue};
ghost use Rattle.disk_model.specs.Disk.{Grows, IfTold, IsIdle, Keeps, SameButFor, reading};
ghost use Rattle.disk_model.specs.FaultCounts.{NoFault, ChangeFaultCounted, ReadFaultCounted};
ghost use Rattle.map_index.specs.Shown.{is_instance_named};
ghost use Rattle.mdbox_base.specs.declared.entries.InstRow.{InstRow};
ghost use Rattle.model_kept.specs.Kept.{MailIsKept};
ghost use Rattle.model_lists.specs.Lists.{Lists};
ghost use Rattle.model_store.specs.Settled.{IsSettledFor, Leaves};
ghost use Rattle.sis_store.specs.Instances.{IsInstanceKnown, after_placing, candidate_in, holders_in, instance_past, next_id, with_holders, without_instance};
ghost use Rattle.sis_store.specs.OnDisk.{IsUnlikeKnown, OnlyNamesSynced, file_of, next_instance_file, octets_read};
ghost use Rattle.store_core.specs.Dues.{KeepsStored};
ghost use Rattle.store_core.specs.Keeping.{KeepsFirm, KeepsInstances, MovesHolds, holds_of};
ghost use Rattle.store_core.specs.PlaceStops.{IsPlaceStop};
ghost use Rattle.store_core.specs.Removing.{KeepsStoredBeside, useless_past};
ghost use Rattle.store_core.specs.StoreInstances.{IsFirstWith, with_placed};
ghost use Rattle.store_core.specs.declared.error.PlaceStop.TheVariants as place_stop;

use super::Store;
use crate::error::{PlaceStop, Stopped};
use disk_model::Disk;
use mdbox_base::{Hash, InstId};
use sis_store::{DiskFault, PlaceFault};

impl<D: Disk> Store<D> {
    /// The greatest running number of an instance that was drawn, 0 where none was.
    pub fn last_instance(&self) -> u32
        ensures { result ≡ self.now.instances.highest }
    {
        self.instances.last_drawn()
    }

    /// The known instance of this hash and size with the least id greater than `after`, or with the least of all. None if and
    /// only if there is none.
    pub fn candidate(&self, hash: Hash, size: u32, after: Option<InstId>) -> Option<InstId>
        ensures { result ≡ candidate_in hash size after self.now.instances.known }
    {
        self.instances.candidate(hash, size, after)
    }

    /// The known instance with the least id greater than `after`, or with the least of all. None if and only if there is none.
    pub fn next_instance(&self, after: Option<InstId>) -> Option<InstId>
        ensures { result ≡ instance_past after self.now.instances.known }
    {
        self.instances.next_instance(after)
    }

    /// Whether somebody holds an instance.
    pub fn is_held(&self, id: InstId) -> bool
        ensures { result ≡ nat_lt 0 (holders_in id self.now.instances.known) }
    {
        self.instances.is_held(id)
    }

    /// One more holds an instance.
    pub fn hold(&mut self, id: InstId)
        requires known { IsInstanceKnown id self.old.instances.known }
        requires fewer { holders_in id self.old.instances.known < 4294967295 }
        ensures same { self.new ≡ record self.old { instances = record self.old.instances { known = with_holders id (holders_in id self.old.instances.known + 1) self.old.instances.known } } }
        ensures keeps { KeepsInstances self.old self.new (D.history self.old.disk) (D.history self.new.disk) }
        ensures moves { (found : List InstRow) (row : InstRow) → row.id ≡ id → MovesHolds (holds_of found) (holds_of (row ∷ found)) self.old self.new }
    {
        self.instances.hold(id);
    }

    /// One fewer holds an instance.
    pub fn let_go(&mut self, id: InstId)
        requires { 1 ≤ holders_in id self.old.instances.known }
        ensures same { self.new ≡ record self.old { instances = record self.old.instances { known = with_holders id (holders_in id self.old.instances.known - 1) self.old.instances.known } } }
        ensures keeps { KeepsInstances self.old self.new (D.history self.old.disk) (D.history self.new.disk) }
        ensures moves { (found : List InstRow) (row : InstRow) → row.id ≡ id → MovesHolds (holds_of (row ∷ found)) (holds_of found) self.old self.new }
    {
        self.instances.let_go(id);
    }

    /// Whether an instance is just these octets, all of them. After a fault the store goes on.
    pub fn same_octets(&mut self, id: InstId, octets: &[u8]) -> Result<bool, DiskFault>
        requires { IsInstanceKnown id self.old.instances.known }
        ensures alike { IfOk result (λ alike. IfTold (D.history self.old.disk) (λ now. IsTrue alike ↔ (reading (now (file_of id self.old.instances.known)) ≡ Some octets.now))) }
        ensures same { self.new ≡ record self.old { disk = self.new.disk } }
        ensures keeps { KeepsInstances self.old self.new (D.history self.old.disk) (D.history self.new.disk) }
        ensures idle { IsIdle (D.history self.old.disk) (D.history self.new.disk) }
        ensures fault { ReadFaultCounted (IsErr result) (D.faults self.old.disk) (D.faults self.new.disk) }
        ensures unfailed { OnOk result (NoFault (D.faults self.old.disk) (D.faults self.new.disk)) }
    {
        self.instances.same_octets(&mut self.disk, id, octets)
    }

    /// Reads an instance from an offset on into the front of `into`, to the end of either, and answers how many octets: 0 if
    /// its file isn't there. After a fault `into` may hold any octets, and the store goes on.
    pub fn read_instance(
        &mut self,
        id: InstId,
        offset: u64,
        into: &mut [u8],
    ) -> Result<usize, DiskFault>
        requires { IsInstanceKnown id self.old.instances.known }
        ensures count { IfOk result (λ n. n ≤ length into.new) }
        ensures piece { IfOk result (λ n. IfTold (D.history self.old.disk) (λ now. take n into.new ≡ octets_read offset (length into.old) (reading (now (file_of id self.old.instances.known))))) }
        ensures rest { IfOk result (λ n. drop n into.new ≡ drop n into.old) }
        ensures same { self.new ≡ record self.old { disk = self.new.disk } }
        ensures keeps { KeepsInstances self.old self.new (D.history self.old.disk) (D.history self.new.disk) }
        ensures idle { IsIdle (D.history self.old.disk) (D.history self.new.disk) }
        ensures fault { ReadFaultCounted (IsErr result) (D.faults self.old.disk) (D.faults self.new.disk) }
        ensures unfailed { OnOk result (NoFault (D.faults self.old.disk) (D.faults self.new.disk)) }
    {
        self.instances
            .read_instance(&mut self.disk, id, offset, into)
    }

    /// Places new octets as an instance, with the next running number, and answers its id. The file is synced, and all names
    /// are. It is known then, and held once. A change of the disk that fails stops the store; the number stays drawn.
    pub fn place_instance(&mut self, hash: Hash, octets: &[u8]) -> Result<InstId, PlaceStop>
        requires running { self.old.stopped ≡ false }
        requires size { length octets.now ≤ 4294967295 }
        requires new { IsUnlikeKnown hash (length octets.now) octets.now self.old.instances.known (D.history self.old.disk) }

        // Of a settled disk each image at every moment is safe for its lists, whichever call fails; and after Ok the disk is
        // settled for them again.
        ensures any_moment { (lists : Lists) → IsSettledFor lists (D.history self.old.disk) → Leaves lists lists (D.history self.old.disk) (D.history self.new.disk) }
        ensures mail_stays { MailIsKept self.old.map (D.history self.old.disk) (D.history self.new.disk) }
        ensures settled { OnOk result ((lists : Lists) → IsSettledFor lists (D.history self.old.disk) → IsSettledFor lists (D.history self.new.disk)) }

        // After Ok the octets are a file, and a crash leaves it so. No other file has changed, and their names are synced.
        ensures id { IfOk result (λ id. id ≡ next_id self.old.instances) }
        ensures made { OnOk result (IfTold (D.history self.new.disk) (λ now. Keeps (now (next_instance_file hash self.old.instances)) octets.now)) }
        ensures others { OnOk result (OnlyNamesSynced (next_instance_file hash self.old.instances) (D.history self.old.disk) (D.history self.new.disk)) }
        ensures stored { OnOk result (KeepsStored (D.history self.old.disk) (D.history self.new.disk)) }

        ensures found { IfOk result (λ id. IsFirstWith octets.now (record { hash = hash; id = id; size = length octets.now }) self.new.instances.known (D.history self.new.disk)) }

        // Unless the store is stopped, what other tasks compare and have found stays. After Ok one more holds the instance.
        ensures keeps { (IsErrOf result place_stop.Stopped → ⊥) → KeepsInstances self.old self.new (D.history self.old.disk) (D.history self.new.disk) }
        ensures moves { IfOk result (λ id. (found : List InstRow) (row : InstRow) → row.id ≡ id → MovesHolds (holds_of found) (holds_of (row ∷ found)) self.old self.new) }

        ensures ok { OnOk result (self.new ≡ with_placed self.new.disk (after_placing hash (length octets.now) self.old.instances) self.old) }
        ensures refused { IfErr result (IsPlaceStop self.old self.new) }
        ensures full { self.old.drawn.instance ≡ 4294967294 → IsErrOf result (place_stop.Full 4294967294) }
        ensures untouched { IfErr result (λ why. why ≢ place_stop.Stopped → D.history self.new.disk ≡ D.history self.old.disk) }
        ensures grows { Grows (D.history self.old.disk) (D.history self.new.disk) }
        ensures fault { ChangeFaultCounted (IsErrOf result place_stop.Stopped) (D.faults self.old.disk) (D.faults self.new.disk) }
        ensures unfailed { (IsErrOf result place_stop.Stopped → ⊥) → NoFault (D.faults self.old.disk) (D.faults self.new.disk) }
    {
        self.instances.known_facts();
        match self.instances.place_instance(&mut self.disk, hash, octets) {
            Ok(id) => {
                self.instances.known_facts();
                self.drawn.instance += 1;
                Ok(id)
            }
            Err(PlaceFault::Full(last)) => Err(PlaceStop::Full(last)),
            Err(PlaceFault::NoMemory) => Err(PlaceStop::NoMemory),
            Err(PlaceFault::DiskFault) => {
                self.drawn.instance += 1;
                self.stopped = true;
                Err(PlaceStop::Stopped)
            }
        }
    }

    /// The known instance with the least id greater than `after`, or with the least of all, that nobody holds and no record
    /// names. None if and only if there is none. It passes over the others, one by one.
    pub fn next_useless(&self, after: Option<InstId>) -> Option<InstId>
        ensures { result ≡ useless_past after self.now.map self.now.instances.known }
    {
        self.instances.known_facts();
        let mut last = after;
        while let Some(id) = self.instances.next_unheld(last) {
            if !self.map.is_instance_named(id) {
                return Some(id);
            }
            last = Some(id);
        }
        None
    }

    /// Removes an instance that nobody holds and no record names. It is known no more. A change of the disk that fails stops the
    /// store. Its name isn't synced: a crash may bring the file back, which the next opening removes.
    pub fn remove_instance(&mut self, id: InstId) -> Result<(), Stopped>
        requires running { self.old.stopped ≡ false }
        requires known { IsInstanceKnown id self.old.instances.known }
        requires unheld { holders_in id self.old.instances.known ≡ 0 }
        requires unnamed { is_instance_named self.old.map id.0 ≡ false }

        // Of a settled disk each image at every moment is safe for its lists, whichever call fails; and after Ok the disk is
        // settled for them again.
        ensures any_moment { (lists : Lists) → IsSettledFor lists (D.history self.old.disk) → Leaves lists lists (D.history self.old.disk) (D.history self.new.disk) }
        ensures mail_stays { MailIsKept self.old.map (D.history self.old.disk) (D.history self.new.disk) }
        ensures settled { OnOk result ((lists : Lists) → IsSettledFor lists (D.history self.old.disk) → IsSettledFor lists (D.history self.new.disk)) }

        ensures gone { OnOk result (IfTold (D.history self.new.disk) (λ now. reading (now (file_of id self.old.instances.known)) ≡ None)) }
        ensures others { OnOk result (SameButFor (file_of id self.old.instances.known) (D.history self.old.disk) (D.history self.new.disk)) }
        ensures stored { OnOk result (KeepsStoredBeside id.0 (D.history self.old.disk) (D.history self.new.disk)) }
        ensures firm { OnOk result (KeepsFirm self.old self.new (D.history self.old.disk) (D.history self.new.disk)) }

        ensures ok { OnOk result (self.new ≡ record self.old { disk = self.new.disk; instances = record self.old.instances { known = without_instance id self.old.instances.known } }) }
        ensures err { OnErr result (self.new ≡ record self.old { disk = self.new.disk; stopped = true }) }
        ensures grows { Grows (D.history self.old.disk) (D.history self.new.disk) }
        ensures fault { ChangeFaultCounted (IsErr result) (D.faults self.old.disk) (D.faults self.new.disk) }
        ensures unfailed { OnOk result (NoFault (D.faults self.old.disk) (D.faults self.new.disk)) }
    {
        self.instances.known_facts();
        if let Err(_fault) = self.instances.remove_instance(&mut self.disk, id) {
            self.stopped = true;
            return Err(Stopped);
        }
        Ok(())
    }
}
