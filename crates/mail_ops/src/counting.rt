// Counting what a store has.
ghost use Rattle.std.specs.Prelude.{◌≡◌, ◌⊎◌, ◌↔◌, ◌≤◌, ◌<◌, ◌++◌, IfOk, OnOk, length, map, sum_by, slice_get, true, Some, ℕ};
ghost use Rattle.std.specs.BTreeSet.{IsFromIterResult};
ghost use Rattle.std.specs.Cmp.Lexicographic.{slice_cmp};
ghost use Rattle.std.specs.Option.{option_map, option_map_or};
ghost use Rattle.std.specs.Ordering.{nat_cmp};
ghost use Rattle.journal.specs.Events.{Around};
ghost use Rattle.mdbox_base.specs.Words.{count_different};
ghost use Rattle.mdbox_base.specs.declared.progress.Did.TheVariants as did;
ghost use Rattle.mdbox_base.specs.declared.progress.Progress.TheVariants as progress;
ghost use Rattle.mdbox_base.specs.declared.replies.Refusal.TheVariants as refusal;
ghost use Rattle.mdbox_base.specs.declared.replies.Reply.TheVariants as reply;
ghost use Rattle.mdbox_base.specs.declared.requests.Request.TheVariants as request;
ghost use Rattle.store_core.specs.Value.{indexes_of};
ghost use Rattle.task_steps.specs.Step.{HasNotBegun, Steps, ended_by};
ghost use Rattle.mail_ops.specs.Counting.{counts_reply, listed_messages, named_ids};
ghost use Rattle.store_seen.specs.Seeing.{seen_of};

use disk_model::Disk;
use map_index::MapIndex;
use mdbox_base::{Did, Half, InstRow, NoMemory, Progress, Refusal, Reply};
use std::alloc::{AllocError, Global};
use std::collections::BTreeSet;
use std::marker::Model;
use store_core::Store;

/// The task of a count, which has one event.
#[derive(Drop)]
pub struct CountsTask {
    did: Did,
}

impl Model for CountsTask {
    ghost use Rattle.mdbox_base.specs.declared.progress.Did.{Did};

    ghost Value = { Did };

    ghost view = { λ task. task.did };
}

impl CountsTask {
    /// A count. What its last event did is nothing before the first.
    pub fn of() -> CountsTask
        ensures { result ≡ did.Quiet }
    {
        CountsTask { did: Did::Quiet }
    }

    /// What the last event did.
    pub fn did(&self) -> Did
        ensures { result ≡ self.now }
    {
        self.did
    }

    /// Counts what the store has, which changes nothing: the only event of its request.
    pub fn step<D: Disk>(&mut self, store: &Store<D>) -> Progress
        ensures does { (around after : Around) (pins : ℕ → ℕ) → Steps HasNotBegun HasNotBegun around after request.Counts (seen_of pins store.now (D.history store.now.disk) (D.faults store.now.disk)) (seen_of pins store.now (D.history store.now.disk) (D.faults store.now.disk)) self.new (ended_by result) }
        ensures replies { (result ≡ progress.Done (counts_reply store.now)) ⊎ (result ≡ progress.Done (reply.Refused refusal.NoMemory)) }
        ensures stopped { (result ≡ progress.Done (reply.Refused refusal.Stopped)) ↔ (store.now.stopped ≡ true) }
    {
        store.facts();
        if store.stopped() {
            self.did = Did::Quiet;
            return Progress::Done(Reply::Refused(Refusal::Stopped));
        }
        match named(store.alloc(), store.map()) {
            Ok(instances) => {
                self.did = Did::Step(Half::Whole);
                Progress::Done(Reply::Counted {
                    records: u64::from(store.map().rows()),
                    references: listed(store),
                    counts: counted(store.map()),
                    instances,
                })
            }
            Err(NoMemory) => {
                self.did = Did::Quiet;
                Progress::Done(Reply::Refused(Refusal::NoMemory))
            }
        }
    }
}

/// How many messages the mailboxes list.
fn listed<D: Disk>(store: &Store<D>) -> u64
    ensures { result ≡ listed_messages store.now }
{
    store.facts();
    store.map().known_facts();
    let mut count = 0;
    for place in 0..store.map().boxes() {
        count += u64::from(length_at(store, place));
    }
    count
}

/// How many messages the mailbox at a place lists.
fn length_at<D: Disk>(store: &Store<D>, place: u32) -> u32
    requires { place < length store.now.map.boxes }
    ensures length { option_map (λ m. length m.rows) (slice_get (indexes_of store.now.boxes) place) ≡ Some result }
    ensures few { result ≤ 1000000 }
{
    store.facts();
    store.map().known_facts();
    let Some(at) = store.map().box_at(place) else {
        unreachable!()
    };
    let Some(index) = store.mailbox(at.number) else {
        unreachable!()
    };
    index.known_facts();
    index.length()
}

/// The sum of the counts that are kept.
fn counted(map: &MapIndex) -> u64
    ensures { result ≡ sum_by (λ row. row.count) map.now.meaning.records }
{
    let mut count = 0;
    for place in 0..map.rows() {
        count += u64::from(count_at(map, place));
    }
    count
}

/// The count of the record at a place, 0 where there is none.
fn count_at(map: &MapIndex, place: u32) -> u16
    ensures count { result ≡ option_map_or (λ row. row.count) (slice_get map.now.meaning.records place) 0 }
    ensures few { result ≤ 65535 }
{
    match map.row_at(place) {
        Some(row) => row.count,
        None => 0,
    }
}

/// How many different instances records name.
fn named(alloc: Global, map: &MapIndex) -> Result<u64, NoMemory>
    ensures { IfOk result (λ many. many ≡ count_different (named_ids map.now.meaning)) }
{
    let ids = ids_of(alloc, map)?;
    let different = different_of(alloc, ids)?;
    Ok(different.len() as u64)
}

/// The different ones of these ids.
fn different_of(alloc: Global, ids: Vec<[u8; 16]>) -> Result<BTreeSet<[u8; 16]>, AllocError>
    ensures { IfOk result (λ set. IsFromIterResult (slice_cmp nat_cmp) ids.items set) }
{
    ids.into_iter().collect(alloc)
}

/// The ids of the instances that records name, once for each naming.
fn ids_of(alloc: Global, map: &MapIndex) -> Result<Vec<[u8; 16]>, NoMemory>
    ensures { IfOk result (λ ids. ids.items ≡ named_ids map.now.meaning) }
{
    let mut ids = Vec::new(alloc);
    for place in 0..map.rows() {
        let Some(instances) = map.instances_at(place) else {
            unreachable!()
        };
        push_ids(&mut ids, instances.as_slice())?;
    }
    Ok(ids)
}

/// Appends the ids of these instances.
fn push_ids(ids: &mut Vec<[u8; 16]>, instances: &[InstRow]) -> Result<(), NoMemory>
    ensures { OnOk result (ids.new.items ≡ ids.old.items ++ map (λ instance. instance.id.0) instances.now) }
{
    for instance in instances {
        ids.push(instance.id.0)?;
    }
    Ok(())
}
