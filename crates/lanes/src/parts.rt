// What a world takes of memory.
ghost use Rattle.std.specs.Prelude.{◌≡◌, ◌≤◌, ◌++◌, ◌∷◌, [], ℕ, None, length, replicate, vec_len, IfOk};
ghost use Rattle.mdbox_base.specs.declared.requests.Request.{Request as RequestValue};
ghost use Rattle.journal.specs.Journal.{Requests};
ghost use Rattle.lane_tasks.specs.Tasks.{BeginsTask};
ghost use Rattle.lanes.specs.Worlds.{AreGiven, AreOfLanes, ArePartsOf, AreRowsFrom, HasItsMessage, empty_row};

use crate::lane::{Lane, Queued};
use crate::replies::Replies;
use crate::turn::Turn;
use attach_detach::{Prepared, plain, plain_messages_are_prepared};
use lane_tasks::Task;
use mdbox_base::{JournalEntry, NoMemory, Request, Script, Seq};
use std::alloc::Global;
use std::marker::Model;

/// How many broken steps a world keeps.
const BROKEN_ROOM: usize = 16;

/// The lanes of a script, and room for all that comes of its requests: a reply and two entries of the journal for each, 16 broken
/// steps, and 16 turns for each request and one for each lane.
///
/// Opening a store changes its disk, so this can be taken before.
#[derive(Drop)]
pub struct WorldParts {
    pub(crate) lanes: Vec<Lane>,
    /// None for each request.
    pub(crate) replies: Replies,
    /// 0 for each lane.
    pub(crate) replied: Vec<u64>,
    pub(crate) journal: Vec<JournalEntry>,
    pub(crate) broken: Vec<JournalEntry>,
    pub(crate) turns: Vec<Turn>,
    pub(crate) turn_room: u64,
}

impl Model for WorldParts {
    ghost use Rattle.std.specs.Prelude.{length};
    ghost use Rattle.lanes.specs.Worlds.{AreFreshParts, HasRoomOf, HaveNoneYet, PartsValue};

    ghost Value = { PartsValue };

    ghost view = { λ parts. record { rows = parts.lanes.items; requests = length parts.replies.given } };

    ghost invariant = { λ parts. AreFreshParts (record { rows = parts.lanes.items; requests = length parts.replies.given }) × HasRoomOf parts.lanes parts.replies.given parts.replied parts.journal parts.broken parts.turns parts.turn_room × HaveNoneYet (length parts.replies.given) (length parts.lanes.items) parts.replies.given parts.replies.first parts.replied parts.journal parts.broken parts.turns parts.turn_room };
}

impl WorldParts {
    /// The parts of a script's world, with the prepared message of each request that has one.
    pub fn of(
        alloc: Global,
        script: Script,
        prepared: Seq<Option<Prepared>>,
    ) -> Result<WorldParts, NoMemory>
        requires lanes { (1 ≤ script.lanes) × (script.lanes ≤ 64) × AreOfLanes script.lanes script.requests }
        requires few { length script.requests ≤ 100000 }
        requires given { AreGiven script.requests prepared }
        ensures { IfOk result (λ parts. ArePartsOf script.requests script.lanes parts) }
    {
        let requests = script.requests.length();
        let turns = 16 * requests + script.lanes as usize;
        Ok(WorldParts {
            replies: Replies::none(alloc, requests)?,
            replied: vec![in alloc; 0; script.lanes as usize]?,
            journal: Vec::with_capacity(alloc, 2 * requests)?,
            broken: Vec::with_capacity(alloc, BROKEN_ROOM)?,
            turns: Vec::with_capacity(alloc, turns)?,
            turn_room: turns as u64,
            lanes: lanes_for(alloc, script, prepared)?,
        })
    }
}

/// So many lanes without requests.
fn empty_lanes(alloc: Global, count: u32) -> Result<Vec<Lane>, NoMemory>
    ensures { IfOk result (λ lanes. (lanes.items ≡ replicate count empty_row) × (vec_len lanes ≡ count)) }
{
    let mut lanes = Vec::with_capacity(alloc, count as usize)?;
    for _ in 0..count {
        lanes.push(Lane::empty(alloc))?;
    }
    Ok(lanes)
}

/// The task of a request that begins.
pub(crate) fn task_for(request: Request, given: Option<Prepared>) -> Task
    requires { HasItsMessage request given }
    ensures { BeginsTask request result }
{
    match request {
        Request::Deliver {
            name,
            time,
            message,
        } => match given {
            Some(prepared) => Task::delivery(name, time, prepared),
            None => {
                plain_messages_are_prepared();
                Task::delivery(name, time, plain(message))
            }
        },
        other => Task::of(other),
    }
}

/// Takes the last of what requests are given.
fn last_given(prepared: &mut Vec<Option<Prepared>>) -> Option<Prepared>
    requires { vec_len prepared.old ≡ length prepared.old.items }
    ensures len { vec_len prepared.new ≡ length prepared.new.items }
    ensures given { (requests : Requests) (lane : ℕ) (request : RequestValue) → AreGiven (requests ++ (lane, request) ∷ []) prepared.old.items → AreGiven requests prepared.new.items × HasItsMessage request result }
{
    match prepared.pop() {
        Some(given) => given,
        None => None,
    }
}

/// Lanes with the requests of a script, each with the task with which it begins.
fn lanes_for(
    alloc: Global,
    script: Script,
    prepared: Seq<Option<Prepared>>,
) -> Result<Vec<Lane>, NoMemory>
    requires lanes { AreOfLanes script.lanes script.requests }
    requires few { length script.requests ≤ 100000 }
    requires given { AreGiven script.requests prepared }
    ensures { IfOk result (λ lanes. (vec_len lanes ≡ length lanes.items) × AreRowsFrom script.requests script.lanes 0 script.requests lanes.items) }
{
    let mut lanes = empty_lanes(alloc, script.lanes)?;
    let mut requests = script.requests.into_vec();
    let mut prepared = prepared.into_vec();
    while let Some((lane, request)) = requests.pop() {
        let given = last_given(&mut prepared);
        let queued = Queued {
            place: requests.len() as u32,
            task: task_for(request, given),
        };
        lanes[(lane - 1) as usize].push_front(queued)?;
    }
    Ok(lanes)
}
