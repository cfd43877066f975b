// A world: lanes over one store, which do the requests of a script.
ghost use Rattle.std.specs.Prelude.{◌≡◌, ◌≤◌, ◌<◌, ◌+◌, ◌-◌, ◌++◌, ◌∷◌, [], ℕ, false, true, List, length, slice_get, Some, IfErr, IfOk, IfSome, IsNone, vec_len, vec_capacity, OnErr, OnOk};
ghost use Rattle.serving.specs.Lanes.{replies_behind};
ghost use Rattle.serving.specs.Serving.{AreIdle};
ghost use Rattle.task_claims.specs.Claims.{HasNoTask};
ghost use Rattle.task_steps.specs.Step.{ended_by};
ghost use Rattle.lanes.specs.Asked.{GoesWith, IsRequestAsked, events_of};
ghost use Rattle.lanes.specs.Kept.{AreKeptOf};
ghost use Rattle.lanes.specs.Rows.{lanes_of};
ghost use Rattle.lanes.specs.Worlds.{AreAdded, AreGiven, AreIdleBetween, AreOfLanes, ArePartsOf, GoesOnBy, HasItsMessage, IsFreshWorld, IsIdleLane, IsLaneEvent, IsNextBusy, IsSoundWorld, PartsValue, Works, entries_broken, entries_made, replied_behind, turn_of, world_left};
ghost use Rattle.lanes.specs.declared.turn.Turned.TheVariants as turned;

use crate::lane::{Lane, LaneEvent, Queued};
use crate::parts::{WorldParts, task_for};
use crate::replies::Replies;
use crate::turn::{Turn, Turned};
use attach_detach::Prepared;
use disk_model::Disk;
use mdbox_base::{Did, Half, JournalEntry, NoMemory, Progress, Reply, Request, Script, Seq};
use std::marker::Model;
use store_core::Store;

/// For how many turns of each request a world has room.
const TURNS_EACH: usize = 16;

/// Lanes that do the requests of a script over one store, an event at a time, with what came of them.
pub struct World<D: Disk> {
    store: Store<D>,
    lanes: Vec<Lane>,
    /// The reply of each request, in script order.
    replies: Replies,
    /// How many replies each lane has.
    replied: Vec<u64>,
    journal: Vec<JournalEntry>,
    /// The steps that a failed append would have made.
    broken: Vec<JournalEntry>,
    /// The disk's moment as the world began.
    began: u64,
    turns: Vec<Turn>,
    /// For how many turns there was room from the beginning.
    turn_room: u64,
    finished: bool,
}

impl<D: Disk> Model for World<D> {
    ghost use Rattle.lanes.specs.Worlds.{HasRoomOf, IsSoundWorld, WorldValue, world_value};

    ghost Value = { WorldValue D };

    ghost view = { λ w. world_value w.store w.lanes.items w.replies.given w.replies.first w.replied.items w.journal.items w.broken.items w.began w.turns.items w.turn_room w.finished };

    ghost invariant = { λ w. IsSoundWorld (D.history w.store.disk) (world_value w.store w.lanes.items w.replies.given w.replies.first w.replied.items w.journal.items w.broken.items w.began w.turns.items w.turn_room w.finished) × HasRoomOf w.lanes w.replies.given w.replied w.journal w.broken w.turns w.turn_room };
}

/// There is no memory for a world. The store is as it was.
pub struct WorldRefused<D: Disk> {
    pub store: Store<D>,
}

/// A world of a script over a store that was just opened. Each request that wants it has its prepared message, at its place.
pub fn world_of<D: Disk>(
    store: Store<D>,
    script: Script,
    prepared: Seq<Option<Prepared>>,
) -> Result<World<D>, WorldRefused<D>>
    requires lanes { (1 ≤ script.lanes) × (script.lanes ≤ 64) × AreOfLanes script.lanes script.requests }
    requires few { length script.requests ≤ 100000 }
    requires given { AreGiven script.requests prepared }
    requires unused { HasNoTask store × (store.stopped ≡ false) }
    ensures ok { IfOk result (λ world. (parts : PartsValue) × ArePartsOf script.requests script.lanes parts × IsFreshWorld store parts (D.history store.disk) world) }
    ensures err { IfErr result (λ refused. refused.store ≡ store) }
{
    match WorldParts::of(store.alloc(), script, prepared) {
        Ok(parts) => Ok(World::of(store, parts)),
        Err(_) => Err(WorldRefused { store }),
    }
}

impl<D: Disk> World<D> {
    /// A world with these parts over a store that was just opened. It takes no memory.
    pub fn of(store: Store<D>, parts: WorldParts) -> World<D>
        requires lanes { length parts.rows ≤ 64 }
        requires unused { HasNoTask store × (store.stopped ≡ false) }
        ensures { IsFreshWorld store parts (D.history store.disk) result }
    {
        World {
            began: store.moment(),
            lanes: parts.lanes,
            replies: parts.replies,
            replied: parts.replied,
            journal: parts.journal,
            broken: parts.broken,
            turns: parts.turns,
            turn_room: parts.turn_room,
            finished: false,
            store,
        }
    }

    /// What every world keeps.
    pub fn known_facts(&self)
        ensures { IsSoundWorld (D.history self.now.store.disk) self.now }
    {
        let _store = &self.store;
    }

    /// Gives a lane its turn: it does the next event of its request in turn, unless it has no request left. The turn is added to the
    /// trace, which takes memory only after `turn_room` turns.
    pub fn advance(&mut self, lane: u32) -> Turned
        requires lane { (1 ≤ lane) × (lane ≤ length self.old.rows) }
        // There is one event more of this lane, whatever script and run it was a world of;
        ensures worked { result ≡ turned.Worked → IsLaneEvent lane self.old self.new (D.history self.old.store.disk) (D.history self.new.store.disk) (D.faults self.old.store.disk) (D.faults self.new.store.disk) × (self.new.turns ≡ self.old.turns ++ turn_of lane false ∷ []) }
        // or the lane has no request left, and the turn is all that changes;
        ensures idle { result ≡ turned.Idle → IsIdleLane lane self.old.rows × (self.new ≡ record self.old { turns = self.old.turns ++ turn_of lane true ∷ [] }) }
        // or the trace has no room for the turn, and nothing changes.
        ensures none { result ≡ turned.NoMemory → (self.old.turn_room ≤ length self.old.turns) × (self.new ≡ self.old) }
        // Whoever gives a lane turn after turn comes to an end.
        ensures left { result ≡ turned.Worked → world_left self.new < world_left self.old }
    {
        let idle = self.lanes[(lane - 1) as usize].is_idle();
        if self.turns.push(Turn { lane, idle }).is_err() {
            return Turned::NoMemory;
        }
        if idle {
            return Turned::Idle;
        }
        self.work(lane);
        Turned::Worked
    }

    /// Does events of the lanes in rounds, one of each lane that has a request left, from the first lane to the last, until none has one
    /// left. It adds no turn to the trace.
    pub fn finish(&mut self)
        ensures goes { (lanes : List ℕ) × GoesOnBy lanes self.old self.new (D.history self.old.store.disk) (D.history self.new.store.disk) (D.faults self.old.store.disk) (D.faults self.new.store.disk) }
        ensures idle { AreIdle (lanes_of self.new.rows) }
        ensures same { (self.new.finished ≡ true) × (self.new.turns ≡ self.old.turns) }
    {
        let mut last = 0;
        while let Some(lane) = self.next_busy(last) {
            self.known_facts();
            self.work(lane);
            last = lane;
        }
        self.finished = true;
    }

    /// Adds a request behind the others of its lane, and answers its place. Of the last reply, unless it is one of the script with which the
    /// world began, octets and rows are let go. Without memory the request is let go, and the world stays.
    pub fn ask(
        &mut self,
        lane: u32,
        request: Request,
        prepared: Option<Prepared>,
    ) -> Result<u32, NoMemory>
        requires lane { (1 ≤ lane) × (lane ≤ length self.old.rows) }
        requires given { HasItsMessage request prepared }
        requires few { length self.old.replies < 100000 }
        requires running { self.old.finished ≡ false }
        ensures ok { IfOk result (λ place. (place ≡ length self.old.replies) × IsRequestAsked lane request self.old self.new) }
        ensures err { OnErr result (self.new ≡ self.old) }
    {
        let place = self.replies.len();
        self.replies.reserve()?;
        reserve_to(&mut self.journal, 2 * (place + 1))?;
        reserve_to(&mut self.turns, self.turn_room as usize + TURNS_EACH)?;
        let queued = Queued {
            place: place as u32,
            task: task_for(request, prepared),
        };
        self.lanes[(lane - 1) as usize].push_back(queued)?;
        self.replies.ask(self.store.alloc());
        self.turn_room += TURNS_EACH as u64;
        Ok(place as u32)
    }

    /// Does events of the lanes in rounds, each with its turn, until none has a request left; or until there is no memory for a turn.
    pub fn answer_all(&mut self) -> Result<(), NoMemory>
        ensures goes { (lanes : List ℕ) × GoesWith D.history D.faults (events_of lanes) self.old self.new }
        ensures idle { OnOk result (AreIdle (lanes_of self.new.rows)) }
    {
        let mut last = 0;
        while let Some(lane) = self.next_busy(last) {
            self.known_facts();
            match self.advance(lane) {
                Turned::Worked => last = lane,
                Turned::Idle => unreachable!(),
                Turned::NoMemory => return Err(NoMemory),
            }
        }
        Ok(())
    }

    /// The lane that is in turn behind this one, of those that have a request left.
    fn next_busy(&self, last: u32) -> Option<u32>
        ensures some { IfSome result (λ lane. IsNextBusy last lane self.now.rows) }
        ensures none { IsNone result → AreIdle (lanes_of self.now.rows) }
    {
        let next = first_busy(self.lanes.as_slice(), last);
        if next.is_some() {
            return next;
        }
        first_busy(self.lanes.as_slice(), 0)
    }

    /// Does the next event of a lane that has a request left, and keeps what came of it.
    fn work(&mut self, lane: u32)
        requires lane { (1 ≤ lane) × (lane ≤ length self.old.rows) }
        requires busy { IsIdleLane lane self.old.rows → ⊥ }
        ensures works { Works (lane - 1) self.old self.new (D.history self.old.store.disk) (D.history self.new.store.disk) (D.faults self.old.store.disk) (D.faults self.new.store.disk) }
        ensures left { world_left self.new < world_left self.old }
    {
        let place = (lane - 1) as usize;
        let earlier = self.store.moment();
        let Some(event) = self.lanes[place].advance(&mut self.store) else {
            return;
        };
        let later = self.store.moment();
        let made = later.saturating_sub(self.began);
        let broken = earlier.saturating_sub(self.began);
        keep_step(&mut self.journal, lane, &event, made);
        keep_broken(&mut self.broken, lane, &event, broken);
        keep_count(&mut self.replied, place, &event.ended);
        keep_reply(&mut self.replies, event.place as usize, event.ended);
    }

    /// How many lanes it has.
    pub fn lanes(&self) -> u32
        ensures { (result ≡ length self.now.rows) × (result ≤ 64) }
    {
        self.lanes.len() as u32
    }

    /// For how many turns the trace has room without taking memory: 16 for each request, and one for each lane.
    pub fn turn_room(&self) -> u64
        ensures { result ≡ self.now.turn_room }
    {
        self.turn_room
    }

    /// The steps that were made, in order.
    pub fn journal(&self) -> &[JournalEntry]
        ensures { result.now ≡ self.now.journal }
    {
        self.journal.as_slice()
    }

    /// What is kept of the reply of each request, in script order. None for one that isn't answered.
    pub fn replies(&self) -> &[Option<Reply>]
        ensures { AreKeptOf self.now.scripted self.now.replies result.now }
    {
        self.replies.as_slice()
    }

    /// How many replies a lane has.
    pub fn replied(&self, lane: u32) -> u64
        requires lane { (1 ≤ lane) × (lane ≤ length self.now.rows) }
        ensures { slice_get self.now.replied (lane - 1) ≡ Some result }
    {
        self.replied[(lane - 1) as usize]
    }

    /// The steps that a failed append would have made, of the moment at which that began. None if no append failed.
    pub fn broken(&self) -> &[JournalEntry]
        ensures { result.now ≡ self.now.broken }
    {
        self.broken.as_slice()
    }

    /// The turns that were taken, in order. Those of a lane that had no request left are idle.
    pub fn turns(&self) -> &[Turn]
        ensures { result.now ≡ self.now.turns }
    {
        self.turns.as_slice()
    }

    /// The store, what is kept of the replies, the journal and the broken steps.
    pub fn into_parts(
        self,
    ) -> (
        Store<D>,
        Seq<Option<Reply>>,
        Seq<JournalEntry>,
        Seq<JournalEntry>,
    )
        ensures kept { (result ≡ (self.store, result.1, self.journal, self.broken)) × AreKeptOf self.scripted self.replies result.1 }
        ensures whole { self.scripted ≡ length self.replies → result ≡ (self.store, self.replies, self.journal, self.broken) }
    {
        let World {
            store,
            lanes: _lanes,
            replies,
            replied: _replied,
            journal,
            broken,
            began: _began,
            turns: _turns,
            turn_room: _turn_room,
            finished: _finished,
        } = self;
        (
            store,
            replies.into_kept(),
            Seq::of(journal),
            Seq::of(broken),
        )
    }
}

/// Makes room for so many items in all.
fn reserve_to<T: Drop>(items: &mut Vec<T>, count: usize) -> Result<(), NoMemory>
    ensures same { (items.new.items ≡ items.old.items) × (vec_len items.new ≡ vec_len items.old) }
    ensures ok { OnOk result (count ≤ vec_capacity items.new) }
    ensures capacity { vec_capacity items.old ≤ vec_capacity items.new }
{
    let more = count.saturating_sub(items.len());
    items.reserve(more)?;
    Ok(())
}

/// The first lane after this one that has a request left.
fn first_busy(lanes: &[Lane], after: u32) -> Option<u32>
    requires { length lanes.now ≤ 64 }
    ensures some { IfSome result (λ lane. (after < lane) × (lane ≤ length lanes.now) × (IsIdleLane lane lanes.now → ⊥) × AreIdleBetween after lane lanes.now) }
    ensures none { IsNone result → AreIdleBetween after (length lanes.now + 1) lanes.now }
{
    for place in after as usize..lanes.len() {
        if !lanes[place].is_idle() {
            return Some(place as u32 + 1);
        }
    }
    None
}

/// Adds the entry of an event to the journal, if it made a step and there is room.
fn keep_step(journal: &mut Vec<JournalEntry>, lane: u32, event: &LaneEvent, calls: u64)
    ensures added { AreAdded (vec_len journal.old < vec_capacity journal.old) (entries_made event.now.did lane event.now.place calls) journal.old.items journal.new.items }
    ensures room { (vec_capacity journal.old ≤ vec_capacity journal.new) × (vec_len journal.old ≡ length journal.old.items → vec_len journal.new ≡ length journal.new.items) }
{
    if let Did::Step(half) = event.did {
        put_entry(journal, entry_of(lane, event.place, half, calls));
    }
}

/// Adds the entry of an event to the broken steps, if a failed append would have made it and there is room.
fn keep_broken(broken: &mut Vec<JournalEntry>, lane: u32, event: &LaneEvent, calls: u64)
    ensures added { AreAdded (vec_len broken.old < vec_capacity broken.old) (entries_broken event.now.did lane event.now.place calls) broken.old.items broken.new.items }
    ensures room { (vec_capacity broken.old ≤ vec_capacity broken.new) × (vec_len broken.old ≡ length broken.old.items → vec_len broken.new ≡ length broken.new.items) }
{
    if let Did::Broken(half) = event.did {
        put_entry(broken, entry_of(lane, event.place, half, calls));
    }
}

/// An entry of a step.
fn entry_of(lane: u32, request: u32, half: Half, calls: u64) -> JournalEntry
    ensures { result ≡ record { lane = lane; request = request; half = half; calls = calls } }
{
    JournalEntry {
        lane,
        request,
        half,
        calls,
    }
}

/// Adds an entry, if there is room.
fn put_entry(entries: &mut Vec<JournalEntry>, entry: JournalEntry)
    ensures added { AreAdded (vec_len entries.old < vec_capacity entries.old) (entry ∷ []) entries.old.items entries.new.items }
    ensures room { (vec_capacity entries.old ≤ vec_capacity entries.new) × (vec_len entries.old ≡ length entries.old.items → vec_len entries.new ≡ length entries.new.items) }
{
    if entries.push(entry).is_err() {}
}

/// Counts the reply of a lane, if its request is answered.
fn keep_count(counts: &mut Vec<u64>, place: usize, ended: &Progress)
    requires { place < vec_len counts.old }
    ensures counts { counts.new.items ≡ replied_behind (ended_by ended.now) place counts.old.items }
    ensures same { vec_len counts.new ≡ vec_len counts.old }
{
    if let Progress::Done(_) = ended {
        let count = counts[place];
        counts[place] = count.saturating_add(1);
    }
}

/// Puts the reply of a request in its place, if it is answered.
fn keep_reply(replies: &mut Replies, place: usize, ended: Progress)
    requires { place < length replies.old.given }
    ensures replies { replies.new.given ≡ replies_behind (ended_by ended) place replies.old.given }
    ensures same { replies.new.first ≡ replies.old.first }
{
    if let Progress::Done(reply) = ended {
        replies.put(place, reply);
    }
}
