// The instances of a message's attachments, found one after another.
ghost use Rattle.std.specs.Prelude.{◌≡◌, ◌≢◌, ◌↔◌, ◌==◌, ◌<◌, ◌≤◌, if◌then◌else◌, is_none, false, ℕ, length, All, Some, None, IfOk, IfErr, OnOk, OnErr, IsSome, IsErr, IsErrOf, IsTrue};
ghost use Rattle.attach_detach.specs.declared.message.Detached.{Detached};
ghost use Rattle.disk_model.specs.Disk.{Grows, IfTold, IsIdle, Keeps, reading};
ghost use Rattle.disk_model.specs.FaultCounts.{NoFault, ChangeFaultCounted, ReadFaultCounted};
ghost use Rattle.mdbox_base.specs.declared.ids.InstId.{InstId};
ghost use Rattle.model_kept.specs.Kept.{MailIsKept};
ghost use Rattle.model_lists.specs.Lists.{Lists};
ghost use Rattle.model_store.specs.Settled.{IsSettledFor, Leaves};
ghost use Rattle.sis_store.specs.Instances.{after_placing, holders_in, next_id};
ghost use Rattle.sis_store.specs.OnDisk.{OnlyNamesSynced, instance_file, next_instance_file};
ghost use Rattle.store_core.specs.Dues.{KeepsStored};
ghost use Rattle.store_core.specs.Keeping.{KeepsInstances, MovesHolds, holds_of};
ghost use Rattle.store_core.specs.PlaceStops.{IsPlaceStop};
ghost use Rattle.store_core.specs.StoreInstances.{with_placed};
ghost use Rattle.store_core.specs.declared.error.PlaceStop.TheVariants as place_stop;
ghost use Rattle.save_instances.specs.Attaching.{IsAttaching, candidate_held, compared_to, nothing_found, next_attachment, next_candidate, part_row, with_compared, with_found, attach_events_left};

use attach_detach::Detached;
use disk_model::Disk;
use mdbox_base::{InstId, InstRow, NoMemory, Seq};
use sis_store::{DiskFault, candidates_are_compared, compared_ones_stay};
use std::alloc::Global;
use std::marker::Model;
use store_core::{PlaceStop, Store, candidates_are_found, instances_are_kept};

/// The attachments of a message, and the instances of the first of them that were found so far. Each of these is held.
#[derive(Drop)]
pub struct Attaching {
    parts: Seq<Detached>,
    /// There is room for one of each attachment.
    found: Vec<InstRow>,
    /// The last candidate that was compared with the next attachment.
    after: Option<InstId>,
    /// The greatest running number that was drawn then.
    drawn: u32,
}

impl Model for Attaching {
    ghost use Rattle.std.specs.Prelude.{◌≤◌, length, All, vec_capacity};
    ghost use Rattle.save_instances.specs.Attaching.{AttachingValue};

    ghost Value = { AttachingValue };

    ghost view = { λ a. record { parts = a.parts; found = a.found.items; after = a.after; drawn = a.drawn } };

    ghost invariant = { λ a. (length a.parts ≤ vec_capacity a.found) × (length a.found.items ≤ length a.parts) × All (λ part. length part.octets ≤ 4294967295) a.parts };
}

impl Attaching {
    /// These attachments, of which no instance was found yet. The memory for all is taken now.
    pub fn of(alloc: Global, parts: Seq<Detached>) -> Result<Attaching, NoMemory>
        requires { All (λ part. length part.octets ≤ 4294967295) parts }
        ensures { IfOk result (λ made. made ≡ nothing_found parts) }
    {
        let found = Vec::with_capacity(alloc, parts.length())?;
        Ok(Attaching {
            parts,
            found,
            after: None,
            drawn: 0,
        })
    }

    /// The attachments, in order.
    pub fn parts(&self) -> &[Detached]
        ensures { result.now ≡ self.now.parts }
    {
        self.parts.as_slice()
    }

    /// The instances that were found of the first of them, in order.
    pub fn found(&self) -> &[InstRow]
        ensures { result.now ≡ self.now.found }
    {
        &self.found
    }

    /// Whether the instance of each attachment was found.
    pub fn is_whole(&self) -> bool
        ensures whole { result ≡ (length self.now.found == length self.now.parts) }
        ensures next { result ≡ is_none (next_attachment self.now) }
    {
        self.found.len() == self.parts.length()
    }

    /// The known instance that the next attachment is compared with. None if and only if all were compared, or each attachment
    /// has its instance.
    pub fn candidate<D: Disk>(&self, store: &Store<D>) -> Option<InstRow>
        ensures { result ≡ next_candidate self.now store.now.instances }
    {
        let part = self.parts.at(self.found.len())?;
        let size = part.octets.as_slice().len() as u32;
        let id = store.candidate(part.hash, size, self.compared_to(store))?;
        Some(InstRow {
            hash: part.hash,
            id,
            size,
        })
    }

    /// The last candidate that need not be compared again. Where an instance was placed since, all are compared anew.
    fn compared_to<D: Disk>(&self, store: &Store<D>) -> Option<InstId>
        ensures { result ≡ compared_to self.now store.now.instances }
    {
        if self.drawn == store.last_instance() {
            self.after
        } else {
            None
        }
    }

    /// Compares the next attachment with this candidate, and answers whether the instance has its octets: then it is held, and
    /// found. After a fault everything is as it was.
    pub fn compare<D: Disk>(
        &mut self,
        store: &mut Store<D>,
        candidate: InstRow,
    ) -> Result<bool, DiskFault>
        requires candidate { next_candidate self.old store.old.instances ≡ Some candidate }
        requires attaching { IsAttaching self.old store.old (D.history store.old.disk) }
        requires room { holders_in candidate.id store.old.instances.known < 4294967295 }

        ensures alike { IfOk result (λ alike. (part : Detached) → next_attachment self.old ≡ Some part → IfTold (D.history store.old.disk) (λ now. IsTrue alike ↔ (reading (now (instance_file candidate)) ≡ Some part.octets))) }
        ensures ok { IfOk result (λ alike. self.new ≡ (if alike then with_found candidate self.old else with_compared candidate store.old.instances.highest self.old)) }
        ensures err { OnErr result (self.new ≡ self.old) }
        ensures held { IfOk result (λ alike. store.new.instances.known ≡ (if alike then candidate_held candidate store.old.instances.known else store.old.instances.known)) }
        ensures unheld { IsErr result → store.new ≡ record store.old { disk = store.new.disk } }
        ensures fewer { OnOk result (attach_events_left self.new store.new.instances < attach_events_left self.old store.old.instances) }

        // What was found stays found, also for other tasks, and is held; whatever is answered.
        ensures attaching { IsAttaching self.new store.new (D.history store.new.disk) }
        ensures keeps { KeepsInstances store.old store.new (D.history store.old.disk) (D.history store.new.disk) }
        ensures moves { MovesHolds (holds_of self.old.found) (holds_of self.new.found) store.old store.new }

        ensures same { store.new ≡ record store.old { disk = store.new.disk; instances = record store.old.instances { known = store.new.instances.known } } }
        ensures idle { IsIdle (D.history store.old.disk) (D.history store.new.disk) }
        ensures fault { ReadFaultCounted (IsErr result) (D.faults store.old.disk) (D.faults store.new.disk) }
        ensures unfailed { OnOk result (NoFault (D.faults store.old.disk) (D.faults store.new.disk)) }
    {
        candidates_are_compared();
        compared_ones_stay();
        candidates_are_found();
        instances_are_kept::<D>();
        store.facts();
        let Some(part) = self.parts.at(self.found.len()) else {
            unreachable!()
        };
        let alike = store.same_octets(candidate.id, part.octets.as_slice())?;
        if alike {
            store.hold(candidate.id);
            self.keep(candidate);
        } else {
            self.after = Some(candidate.id);
            self.drawn = store.last_instance();
        }
        Ok(alike)
    }

    /// Places the octets of the next attachment as an instance, which is held then, and found. No known instance has them. A
    /// change of the disk that fails stops the store; after an error no instance more was found.
    pub fn place<D: Disk>(&mut self, store: &mut Store<D>) -> Result<InstRow, PlaceStop>
        requires running { store.old.stopped ≡ false }
        requires part { IsSome (next_attachment self.old) }
        requires compared { next_candidate self.old store.old.instances ≡ None }
        requires attaching { IsAttaching self.old store.old (D.history store.old.disk) }

        // Of a settled disk each image at every moment is safe for its lists, whichever call fails; and after Ok the disk is
        // settled for them again.
        ensures any_moment { (lists : Lists) → IsSettledFor lists (D.history store.old.disk) → Leaves lists lists (D.history store.old.disk) (D.history store.new.disk) }
        ensures mail_stays { MailIsKept store.old.map (D.history store.old.disk) (D.history store.new.disk) }
        ensures settled { OnOk result ((lists : Lists) → IsSettledFor lists (D.history store.old.disk) → IsSettledFor lists (D.history store.new.disk)) }

        // After Ok the octets are a file, and a crash leaves it so. No other file has changed, and their names are synced.
        ensures ok { IfOk result (λ row. (part : Detached) → next_attachment self.old ≡ Some part → (row ≡ part_row part (next_id store.old.instances)) × (store.new ≡ with_placed store.new.disk (after_placing part.hash (length part.octets) store.old.instances) store.old)) }
        ensures found { IfOk result (λ row. self.new ≡ with_found row self.old) }
        ensures made { OnOk result ((part : Detached) → next_attachment self.old ≡ Some part → IfTold (D.history store.new.disk) (λ now. Keeps (now (next_instance_file part.hash store.old.instances)) part.octets)) }
        ensures others { OnOk result ((part : Detached) → next_attachment self.old ≡ Some part → OnlyNamesSynced (next_instance_file part.hash store.old.instances) (D.history store.old.disk) (D.history store.new.disk)) }
        ensures stored { OnOk result (KeepsStored (D.history store.old.disk) (D.history store.new.disk)) }
        ensures fewer { OnOk result (attach_events_left self.new store.new.instances < attach_events_left self.old store.old.instances) }

        // Unless the store is stopped, what was found stays found, also for other tasks, and is held.
        ensures attaching { (IsErrOf result place_stop.Stopped → ⊥) → IsAttaching self.new store.new (D.history store.new.disk) }
        ensures keeps { (IsErrOf result place_stop.Stopped → ⊥) → KeepsInstances store.old store.new (D.history store.old.disk) (D.history store.new.disk) }
        ensures moves { MovesHolds (holds_of self.old.found) (holds_of self.new.found) store.old store.new }

        ensures err { OnErr result (self.new ≡ self.old) }
        ensures refused { IfErr result (IsPlaceStop store.old store.new) }
        ensures full { store.old.drawn.instance ≡ 4294967294 → IsErrOf result (place_stop.Full 4294967294) }
        ensures untouched { IfErr result (λ why. why ≢ place_stop.Stopped → D.history store.new.disk ≡ D.history store.old.disk) }
        ensures grows { Grows (D.history store.old.disk) (D.history store.new.disk) }
        ensures fault { ChangeFaultCounted (IsErrOf result place_stop.Stopped) (D.faults store.old.disk) (D.faults store.new.disk) }
        ensures unfailed { (IsErrOf result place_stop.Stopped → ⊥) → NoFault (D.faults store.old.disk) (D.faults store.new.disk) }
    {
        candidates_are_compared();
        compared_ones_stay();
        instances_are_kept::<D>();
        store.facts();
        let Some(part) = self.parts.at(self.found.len()) else {
            unreachable!()
        };
        let hash = part.hash;
        let octets = part.octets.as_slice();
        let size = octets.len() as u32;
        let id = store.place_instance(hash, octets)?;
        store.facts();
        let row = InstRow { hash, id, size };
        self.keep(row);
        Ok(row)
    }

    /// The instance of the next attachment is found. There is room for it.
    fn keep(&mut self, row: InstRow)
        requires { length self.old.found < length self.old.parts }
        ensures { self.new ≡ with_found row self.old }
    {
        self.found.push_reserved(row);
        self.after = None;
        self.drawn = 0;
    }

    /// The instances that were found, in order. Takes no memory.
    pub fn into_found(self) -> Seq<InstRow>
        ensures { result ≡ self.found }
    {
        let Attaching {
            parts: _parts,
            found,
            after: _,
            drawn: _,
        } = self;
        Seq::of(found)
    }
}
