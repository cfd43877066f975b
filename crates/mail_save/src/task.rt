// The task of a delivery.
ghost use Rattle.std.specs.Prelude.{◌≡◌, ◌≢◌, ◌≤◌, ◌<◌, ℕ, List, length, false, None, IsSome};
ghost use Rattle.attach_detach.specs.Prepared.{IsPrepared};
ghost use Rattle.attach_detach.specs.declared.message.Prepared.{Prepared as PreparedValue};
ghost use Rattle.journal.specs.Events.{Around};
ghost use Rattle.mdbox_base.specs.declared.ids.InstId.{InstId as InstIdValue};
ghost use Rattle.mdbox_base.specs.Words.{IsOctets};
ghost use Rattle.mdbox_base.specs.declared.progress.Did.TheVariants as did;
ghost use Rattle.mdbox_base.specs.declared.progress.Progress.TheVariants as progress;
ghost use Rattle.mdbox_base.specs.declared.replies.Refusal.TheVariants as refusal;
ghost use Rattle.mdbox_base.specs.declared.replies.Reply.TheVariants as reply;
ghost use Rattle.save_instances.specs.Attaching.{next_attachment};
ghost use Rattle.saved_message.specs.Laid.{IsLaid};
ghost use Rattle.store_core.specs.Dues.{due_at};
ghost use Rattle.task_claims.specs.Stable.{MovesOwnClaims};
ghost use Rattle.task_steps.specs.Step.{ended_by};
ghost use Rattle.mail_save.specs.Claims.{save_claims};
ghost use Rattle.mail_save.specs.SaveEffects.{NamesFound};
ghost use Rattle.mail_save.specs.declared.first.SavedParts.{SavedParts as SavedPartsValue};
ghost use Rattle.mail_save.specs.Task.{EndsSave, HasLeft, IsAttached, IsReadyToDeliver, Saves, StepsDelivery, save_events_left, refused_did, failing_did};
ghost use Rattle.mail_save.specs.declared.task.SaveStage.TheVariants as stage;

use crate::add::{Added, add_message};
use crate::attach::{attach_next, name_found};
use crate::first::{SavedParts, begin};
use crate::place::{SavedAt, place_region, take_file};
use crate::record::{LowerRoom, give_back, store_record};
use attach_detach::Prepared;
use disk_model::Disk;
use mdbox_base::{Did, FileNo, Half, InstRow, MapUid, Name, Progress, Refusal, Reply, Seq};
use save_instances::{Attaching, let_go_all};
use std::marker::Model;
use std::mem;
use store_core::{Stopped, Store};

/// Which event of a delivery is the next.
#[derive(Drop)]
pub enum SaveStage {
    /// The first, which makes the checks and takes the memory.
    First(Prepared),
    /// One that compares the next attachment with a known instance, or places it as one.
    Attaching {
        parts: SavedParts,
        attaching: Attaching,
    },
    /// One that takes a storage file.
    Taking(SavedParts),
    /// One that places the message in the storage file that was taken.
    Placing {
        parts: SavedParts,
        file: FileNo,
    },
    /// One that stores the message in the map.
    Storing {
        at: SavedAt,
        rows: Seq<InstRow>,
        room: LowerRoom,
    },
    /// One that adds it to its mailbox.
    Adding {
        added: Added,
        room: LowerRoom,
    },
    /// One that gives back the record, since the message was not added.
    GivingBack {
        uid: MapUid,
        why: Refusal,
        room: LowerRoom,
    },
    /// None: the request is answered.
    Ended,
}

/// The task of a delivery: its events, one at a step.
#[derive(Drop)]
pub struct SaveTask {
    name: Name,
    time: u64,
    /// How many octets the message has.
    size: u32,
    stage: SaveStage,
    did: Did,
}

/// What an event of a delivery led to: which event is next, the answer, and what it did.
#[derive(Drop)]
struct Led {
    next: SaveStage,
    answer: Progress,
    did: Did,
}

impl Model for SaveTask {
    ghost use Rattle.std.specs.Prelude.{◌≤◌};
    ghost use Rattle.mail_save.specs.Task.{SaveValue};

    ghost Value = { SaveValue };

    ghost view = { λ task. record { name = task.name; time = task.time; size = task.size; stage = task.stage; did = task.did } };

    ghost invariant = { λ task. task.size ≤ 67108864 };
}

impl SaveTask {
    /// The delivery of a message to a mailbox, received at this time (Unix seconds).
    pub fn of(name: Name, time: u64, prepared: Prepared) -> SaveTask
        requires { (octets : List ℕ) × (length octets ≤ 67108864) × IsPrepared octets prepared }
        ensures { result ≡ record { name = name; time = time; size = prepared.whole; stage = stage.First prepared; did = did.Quiet } }
    {
        SaveTask {
            name,
            time,
            size: prepared.whole,
            stage: SaveStage::First(prepared),
            did: Did::Quiet,
        }
    }

    /// What the last event did.
    pub fn did(&self) -> Did
        ensures { result ≡ self.now.did }
    {
        self.did
    }

    /// Does the next event: the first one makes the checks and takes the memory; then each attachment is compared with the known
    /// instances of its hash and size, one at an event, and placed where none has its octets; a storage file is taken, the message
    /// placed in it, stored in the map, and added to its mailbox. Where it can't be added, one more event gives its record back.
    /// The instances are held until the record names them, or the request ends. The store has to have what the event before left,
    /// unless it is stopped.
    pub fn step<D: Disk>(&mut self, store: &mut Store<D>) -> Progress
        requires left { store.old.stopped ≡ false → HasLeft self.old.stage self.old.name self.old.time store.old (D.history store.old.disk) }

        // Where it goes on, it is ready for its next event if it was for this one.
        ensures ready { result ≡ progress.More → (octets : List ℕ) → IsReadyToDeliver self.old.stage self.old.name self.old.time self.old.size octets store.old (D.history store.old.disk) → IsReadyToDeliver self.new.stage self.old.name self.old.time self.old.size octets store.new (D.history store.new.disk) }
        ensures saves { store.old.stopped ≡ false → Saves self.old.stage self.new.stage self.old.name self.old.time self.old.size result self.new.did store.old store.new (D.history store.old.disk) (D.history store.new.disk) (D.faults store.old.disk) (D.faults store.new.disk) }

        // Of the message with these octets, where the task is ready for it: which event of a run it was, of every run that has come
        // to the store, with so many pins of each file, and in which no request has taken the file that it finds.
        ensures does { (octets : List ℕ) (pins : ℕ → ℕ) (after : Around) → StepsDelivery self.old self.new octets pins after store.old store.new (D.history store.old.disk) (D.history store.new.disk) (D.faults store.old.disk) (D.faults store.new.disk) (ended_by result) }

        // Unless it stops the store, it moves only its own claims, and leaves to other tasks what is theirs. One that was replied claims
        // nothing.
        ensures claims { store.new.stopped ≡ false → MovesOwnClaims (save_claims self.old.stage) (save_claims self.new.stage) result store.old store.new (D.history store.old.disk) (D.history store.new.disk) }

        // It replies so if and only if the store is stopped then, and one that was stopped stays as it was. Else no storage file is
        // doomed more.
        ensures ended { EndsSave result store.old store.new }

        // So it ends.
        ensures left { result ≡ progress.More → save_events_left self.new.stage store.new.instances < save_events_left self.old.stage store.old.instances }
        ensures request { (self.new.name ≡ self.old.name) × (self.new.time ≡ self.old.time) × (self.new.size ≡ self.old.size) }
    {
        store.facts();
        known_id(store);
        if store.stopped() {
            self.did = Did::Quiet;
            return Progress::Done(Reply::Refused(Refusal::Stopped));
        }
        let now = mem::replace(&mut self.stage, SaveStage::Ended);
        let Led { next, answer, did } = next_event(store, &self.name, self.time, self.size, now);
        self.stage = next;
        self.did = did;
        answer
    }
}

/// Does the event of this stage, of a store that isn't stopped.
fn next_event<D: Disk>(
    store: &mut Store<D>,
    name: &Name,
    time: u64,
    size: u32,
    now: SaveStage,
) -> Led
    requires running { store.old.stopped ≡ false }
    requires left { HasLeft now name.now time store.old (D.history store.old.disk) }
    requires size { size ≤ 67108864 }
    ensures { Saves now result.next name.now time size result.answer result.did store.old store.new (D.history store.old.disk) (D.history store.new.disk) (D.faults store.old.disk) (D.faults store.new.disk) }
{
    match now {
        SaveStage::First(prepared) => first_event(store, name, time, prepared),
        SaveStage::Attaching { parts, attaching } => attaching_event(
            store, name, time, parts, attaching,
        ),
        SaveStage::Taking(parts) => taking(store, name, time, parts),
        SaveStage::Placing { parts, file } => placing(store, name, time, parts, file),
        SaveStage::Storing { at, rows, room } => storing(store, name, time, size, at, rows, room),
        SaveStage::Adding { added, room } => adding(store, name, time, added, room),
        SaveStage::GivingBack { uid, why, room } => giving_back(store, uid, why, room),
        SaveStage::Ended => unreachable!(),
    }
}

/// The request goes on with this event.
fn goes_on(next: SaveStage) -> Led
    ensures { result ≡ record { next = next; answer = progress.More; did = did.Quiet } }
{
    Led {
        next,
        answer: Progress::More,
        did: Did::Quiet,
    }
}

/// The request ends with this refusal.
fn ends(why: Refusal, did: Did) -> Led
    ensures { result ≡ record { next = stage.Ended; answer = progress.Done (reply.Refused why); did = did } }
{
    Led {
        next: SaveStage::Ended,
        answer: Progress::Done(Reply::Refused(why)),
        did,
    }
}

/// What an event did that was refused: a step, unless out of memory or by a fault.
fn did_refuse(why: Refusal) -> Did
    ensures { result ≡ refused_did why }
{
    match why {
        Refusal::NoMemory | Refusal::ReadFault | Refusal::Stopped | Refusal::Damaged { .. } =>
            Did::Quiet,
        _ => Did::Step(Half::Whole),
    }
}

/// The same, of an event that changes the disk.
fn did_fail(why: Refusal) -> Did
    ensures { result ≡ failing_did why }
{
    match why {
        Refusal::Stopped => Did::Failed,
        _ => did_refuse(why),
    }
}

/// The first event, of a store that isn't stopped.
fn first_event<D: Disk>(store: &Store<D>, name: &Name, time: u64, prepared: Prepared) -> Led
    requires running { store.now.stopped ≡ false }
    requires left { HasLeft (stage.First prepared) name.now time store.now (D.history store.now.disk) }
    ensures { (size : ℕ) → Saves (stage.First prepared) result.next name.now time size result.answer result.did store.now store.now (D.history store.now.disk) (D.history store.now.disk) (D.faults store.now.disk) (D.faults store.now.disk) }
{
    match begin(store, name, time, prepared) {
        Ok((parts, attaching)) => goes_on(behind_attachment(parts, attaching)),
        Err(why) => ends(why, did_fail(why)),
    }
}

/// The event that comes next: one that goes on with an attachment, until each has its instance.
fn behind_attachment(parts: SavedParts, attaching: Attaching) -> SaveStage
    requires laid { (name : List ℕ) × (time : ℕ) × (prepared : PreparedValue) × (ids : List InstIdValue) × (guid : List ℕ) × IsLaid name time prepared ids guid parts.laid × (attaching.parts ≡ prepared.parts) }
    ensures more { IsSome (next_attachment attaching) → result ≡ stage.Attaching parts attaching }
    ensures whole { next_attachment attaching ≡ None → (named : SavedPartsValue) × (result ≡ stage.Taking named) × NamesFound attaching.found parts named }
{
    if attaching.is_whole() {
        SaveStage::Taking(name_found(parts, attaching))
    } else {
        SaveStage::Attaching { parts, attaching }
    }
}

/// The event that goes on with an attachment.
fn attaching_event<D: Disk>(
    store: &mut Store<D>,
    name: &Name,
    time: u64,
    parts: SavedParts,
    attaching: Attaching,
) -> Led
    requires running { store.old.stopped ≡ false }
    requires left { HasLeft (stage.Attaching parts attaching) name.now time store.old (D.history store.old.disk) }
    ensures { (size : ℕ) → Saves (stage.Attaching parts attaching) result.next name.now time size result.answer result.did store.old store.new (D.history store.old.disk) (D.history store.new.disk) (D.faults store.old.disk) (D.faults store.new.disk) }
{
    let mut attaching = attaching;
    match attach_next(store, &mut attaching) {
        Ok(()) => goes_on(behind_attachment(parts, attaching)),
        Err(why) => {
            let_go_all(store, attaching.found());
            ends(why, did_fail(why))
        }
    }
}

/// What is true of every store's id.
fn known_id<D: Disk>(store: &Store<D>)
    ensures long { length store.now.map.store ≡ 8 }
    ensures each { IsOctets store.now.map.store }
{
    let _ = store.id();
}

/// The event that takes a storage file.
fn taking<D: Disk>(store: &mut Store<D>, name: &Name, time: u64, parts: SavedParts) -> Led
    requires running { store.old.stopped ≡ false }
    requires left { IsAttached name.now time parts store.old (D.history store.old.disk) }
    ensures { (size : ℕ) → Saves (stage.Taking parts) result.next name.now time size result.answer result.did store.old store.new (D.history store.old.disk) (D.history store.new.disk) (D.faults store.old.disk) (D.faults store.new.disk) }
{
    let _name = name.as_octets();
    let size = parts.laid.length();
    match take_file(store, parts.header.as_slice(), size) {
        Ok(file) => goes_on(SaveStage::Placing { parts, file }),
        Err(why) => {
            let_go_all(store, parts.rows.as_slice());
            ends(why, did_fail(why))
        }
    }
}

/// The event that places the message.
fn placing<D: Disk>(
    store: &mut Store<D>,
    name: &Name,
    time: u64,
    parts: SavedParts,
    file: FileNo,
) -> Led
    requires running { store.old.stopped ≡ false }
    requires left { HasLeft (stage.Placing parts file) name.now time store.old (D.history store.old.disk) }
    ensures { (size : ℕ) → Saves (stage.Placing parts file) result.next name.now time size result.answer result.did store.old store.new (D.history store.old.disk) (D.history store.new.disk) (D.faults store.old.disk) (D.faults store.new.disk) }
{
    let SavedParts {
        header: _header,
        laid,
        rows,
        room,
    } = parts;
    let mut laid = laid;
    let _name = name.as_octets();
    match place_region(store, &mut laid, file) {
        Ok(at) => goes_on(SaveStage::Storing { at, rows, room }),
        Err(Stopped) => {
            let_go_all(store, rows.as_slice());
            ends(Refusal::Stopped, Did::Failed)
        }
    }
}

/// The event that stores the message in the map. Its record names the instances from then on: they are let go, whatever happens.
fn storing<D: Disk>(
    store: &mut Store<D>,
    name: &Name,
    time: u64,
    size: u32,
    at: SavedAt,
    rows: Seq<InstRow>,
    room: LowerRoom,
) -> Led
    requires running { store.old.stopped ≡ false }
    requires left { HasLeft (stage.Storing at rows room) name.now time store.old (D.history store.old.disk) }
    requires size { size ≤ 67108864 }
    ensures { Saves (stage.Storing at rows room) result.next name.now time size result.answer result.did store.old store.new (D.history store.old.disk) (D.history store.new.disk) (D.faults store.old.disk) (D.faults store.new.disk) }
{
    store.facts();
    let (stored, rows) = store_record(store, at, rows);
    let_go_all(store, rows.as_slice());
    match stored {
        Ok(map_uid) => goes_on(SaveStage::Adding {
            added: Added {
                map_uid,
                guid: at.guid,
                time,
                size,
            },
            room,
        }),
        Err(why) => ends(why, did_fail(why)),
    }
}

/// The event that adds the message to its mailbox.
fn adding<D: Disk>(
    store: &mut Store<D>,
    name: &Name,
    time: u64,
    added: Added,
    room: LowerRoom,
) -> Led
    requires running { store.old.stopped ≡ false }
    requires left { HasLeft (stage.Adding added room) name.now time store.old (D.history store.old.disk) }
    ensures { (size : ℕ) → Saves (stage.Adding added room) result.next name.now time size result.answer result.did store.old store.new (D.history store.old.disk) (D.history store.new.disk) (D.faults store.old.disk) (D.faults store.new.disk) }
{
    match add_message(store, name, added) {
        Ok(uid) => Led {
            next: SaveStage::Ended,
            answer: Progress::Done(Reply::Saved {
                uid,
                guid: added.guid,
            }),
            did: Did::Step(Half::Whole),
        },
        Err(why) => {
            if store.stopped() {
                return ends(Refusal::Stopped, Did::Broken(Half::Whole));
            }
            Led {
                next: SaveStage::GivingBack {
                    uid: added.map_uid,
                    why,
                    room,
                },
                answer: Progress::More,
                did: did_refuse(why),
            }
        }
    }
}

/// The event that gives back the record of a message that was not added.
fn giving_back<D: Disk>(store: &mut Store<D>, uid: MapUid, why: Refusal, room: LowerRoom) -> Led
    requires running { store.old.stopped ≡ false }
    requires due { 1 ≤ due_at uid.0 store.old }
    requires why { why ≢ refusal.Stopped }
    requires unread { why ≢ refusal.ReadFault }
    ensures { (name : List ℕ) (time size : ℕ) → Saves (stage.GivingBack uid why room) result.next name time size result.answer result.did store.old store.new (D.history store.old.disk) (D.history store.new.disk) (D.faults store.old.disk) (D.faults store.new.disk) }
{
    match give_back(store, uid, room) {
        Ok(()) => ends(why, Did::Quiet),
        Err(Stopped) => ends(Refusal::Stopped, Did::Failed),
    }
}
