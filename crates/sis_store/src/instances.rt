// The instances of a store, and who holds which.
ghost use Rattle.std.specs.Prelude.{◌≡◌, ◌==◌, ◌+◌, ◌-◌, ◌<◌, ◌≤◌, true, nat_lt, map, find, All, AllPairs, IfOk};
ghost use Rattle.std.specs.Option.{option_map};
ghost use Rattle.sis_store.specs.Instances.{IsIdBefore, HasDrawnNumber, IsInstanceKnown, instance_found, instance_in, holders_in, with_holders, candidate_in, instance_past, unheld_past, without_instance};
ghost use Rattle.sis_store.specs.OnDisk.{file_of};

use crate::hashes::{first_past, keys_of, remove_key};
use crate::instance::{HashKey, KnownInstance, hash_key};
use crate::known::{find, leave_out, place_past, set_holders};
use disk_model::FileName;
use mdbox_base::{Hash, InstId, InstRow, NoMemory, Seq, StoreId};
use std::alloc::Global;
use std::marker::Model;

/// The instances of a store: which are known, and how many hold each.
///
/// It holds no octets. A disk is handed to each call that needs it.
#[derive(Drop)]
pub struct Instances {
    /// In order of id.
    pub(crate) known: Vec<KnownInstance>,
    /// The same instances in order of hash, size and id.
    pub(crate) keys: Vec<HashKey>,
    pub(crate) store: StoreId,
    pub(crate) highest: u32,
}

impl Model for Instances {
    ghost use Rattle.sis_store.specs.Instances.{InstancesValue, AreInstances};
    ghost use Rattle.sis_store.specs.Hashes.{AreHashKeys};

    ghost Value = { InstancesValue };

    ghost view = { λ i. record { known = i.known.items; store = i.store; highest = i.highest } };

    ghost invariant = { λ i. AreInstances (record { known = i.known.items; store = i.store; highest = i.highest }) × AreHashKeys i.keys.items i.known.items };
}

impl Instances {
    ghost use Rattle.sis_store.specs.Instances.{InstancesValue, AreInstances};

    /// The instances that an opening found, in order of id, which nobody holds. `highest` is the greatest running number that
    /// was drawn so far. Without memory they are gone.
    pub fn of(
        alloc: Global,
        known: Seq<InstRow>,
        id: StoreId,
        highest: u32,
    ) -> Result<Instances, NoMemory>
        requires rising { AllPairs (λ a b. IsIdBefore a.id b.id) known }
        requires drawn { All (λ row. HasDrawnNumber id highest row.id) known }
        requires last { highest ≤ 4294967294 }
        ensures { IfOk result (λ made. made ≡ record { known = map instance_found known; store = id; highest = highest }) }
    {
        let keys = keys_of(alloc, known.as_slice())?;
        Ok(Instances {
            known: found(alloc, known.as_slice())?,
            keys,
            store: id,
            highest,
        })
    }

    /// Ids rise, and running numbers are drawn ones.
    pub fn known_facts(&self)
        ensures { AreInstances self.now }
    {
        let _ = &self.known;
    }

    /// The greatest running number that was drawn, 0 where none was.
    pub fn last_drawn(&self) -> u32
        ensures { result ≡ self.now.highest }
    {
        self.highest
    }

    /// The known instance of this hash and size with the least id greater than `after`, or with the least of all. None if and
    /// only if there is none.
    pub fn candidate(&self, hash: Hash, size: u32, after: Option<InstId>) -> Option<InstId>
        ensures { result ≡ candidate_in hash size after self.now.known }
    {
        first_past(&self.keys, hash, size, after)
    }

    /// One more holds an instance.
    pub fn hold(&mut self, id: InstId)
        requires known { IsInstanceKnown id self.old.known }
        requires fewer { holders_in id self.old.known < 4294967295 }
        ensures { self.new ≡ record self.old { known = with_holders id (holders_in id self.old.known + 1) self.old.known } }
    {
        let holders = holders_in(&self.known, id);
        set_holders(&mut self.known, id, holders + 1);
    }

    /// One fewer holds an instance.
    pub fn let_go(&mut self, id: InstId)
        requires { 1 ≤ holders_in id self.old.known }
        ensures { self.new ≡ record self.old { known = with_holders id (holders_in id self.old.known - 1) self.old.known } }
    {
        let holders = holders_in(&self.known, id);
        set_holders(&mut self.known, id, holders - 1);
    }

    /// Whether somebody holds an instance.
    pub fn is_held(&self, id: InstId) -> bool
        ensures { result ≡ nat_lt 0 (holders_in id self.now.known) }
    {
        holders_in(&self.known, id) > 0
    }

    /// The known instance with the least id greater than `after`, or with the least of all. None if and only if there is none.
    pub fn next_instance(&self, after: Option<InstId>) -> Option<InstId>
        ensures { result ≡ instance_past after self.now.known }
    {
        first_id(&self.known[place_past(&self.known, after)..])
    }

    /// The known instance that nobody holds with the least id greater than `after`, or with the least of all. None if and only
    /// if there is none. It passes over those that are held, one by one.
    pub fn next_unheld(&self, after: Option<InstId>) -> Option<InstId>
        ensures { result ≡ unheld_past after self.now.known }
    {
        first_unheld(&self.known[place_past(&self.known, after)..])
    }

    /// The file of an instance.
    pub(crate) fn file_of(&self, id: InstId) -> FileName
        requires { IsInstanceKnown id self.now.known }
        ensures { result ≡ file_of id self.now.known }
    {
        match find(&self.known, id) {
            Some(k) => FileName::Inst(k.row.hash.0, id.0),
            None => unreachable!(),
        }
    }

    /// Forgets an instance.
    pub(crate) fn forget(&mut self, id: InstId)
        requires { IsInstanceKnown id self.old.known }
        ensures { self.new ≡ record self.old { known = without_instance id self.old.known } }
    {
        if let Some(k) = find(&self.known, id) {
            remove_key(&mut self.keys, hash_key(&k.row));
            leave_out(&mut self.known, id);
        }
    }
}

/// The instances as they are known at first.
fn found(alloc: Global, rows: &[InstRow]) -> Result<Vec<KnownInstance>, NoMemory>
    ensures { IfOk result (λ made. made.items ≡ map instance_found rows.now) }
{
    let mut made = Vec::new(alloc);
    for row in rows {
        made.push(KnownInstance {
            row: *row,
            holders: 0,
        })?;
    }
    Ok(made)
}

/// How many hold the instance of an id.
fn holders_in(known: &[KnownInstance], id: InstId) -> u32
    requires { AllPairs (λ a b. IsIdBefore a.row.id b.row.id) known.now }
    ensures { result ≡ holders_in id known.now }
{
    match find(known, id) {
        Some(k) => k.holders,
        None => 0,
    }
}

/// The first instance.
fn first_id(known: &[KnownInstance]) -> Option<InstId>
    ensures { result ≡ option_map (λ k. k.row.id) (find (λ k. true) known.now) }
{
    let first = known.first()?;
    Some(first.row.id)
}

/// The first instance that nobody holds.
fn first_unheld(known: &[KnownInstance]) -> Option<InstId>
    ensures { result ≡ option_map (λ k. k.row.id) (find (λ k. k.holders == 0) known.now) }
{
    let first = known.iter().find(|k| k.holders == 0)?;
    Some(first.row.id)
}
