// A lane: the request in turn with its task, and those behind it.
ghost use Rattle.std.specs.Prelude.{◌≡◌, ◌≢◌, true, false, [], Some, None, IfSome, IsNone, OnErr, OnOk};
ghost use Rattle.lane_tasks.specs.Tasks.{IsReadyTask};
ghost use Rattle.mail_fetch.specs.Claims.{HasUseRoom};
ghost use Rattle.lane_tasks.specs.declared.task.Task.{Task as TaskValue};
ghost use Rattle.task_steps.specs.Step.{ended_by};
ghost use Rattle.lanes.specs.Asked.{row_asked};
ghost use Rattle.lanes.specs.Worlds.{queued_in};
ghost use Rattle.lanes.specs.Rows.{IsReadyRow, RowGoesOn, TaskGoesOn, goes_on_by};

use disk_model::Disk;
use lane_tasks::Task;
use mdbox_base::{Did, NoMemory, Progress};
use std::alloc::Global;
use std::collections::VecDeque;
use std::marker::Model;
use store_core::Store;

/// A request of a lane: its place in the script, counted from 0, and its task.
#[derive(Drop)]
pub struct Queued {
    pub place: u32,
    pub task: Task,
}

/// A lane.
#[derive(Drop)]
pub struct Lane {
    /// The request in turn.
    current: Option<Queued>,
    /// Those behind it, in script order. None of them has begun. There are none unless one is in turn.
    waiting: VecDeque<Queued>,
}

/// An event of a lane: of the request at this place, what it did, and whether the request was answered by it.
#[derive(Drop)]
pub struct LaneEvent {
    pub place: u32,
    pub did: Did,
    pub ended: Progress,
}

impl Model for Lane {
    ghost use Rattle.std.specs.Prelude.{◌≡◌, [], None};
    ghost use Rattle.lanes.specs.Rows.{LaneRow};

    ghost Value = { LaneRow };

    ghost view = { λ lane. record { current = lane.current; waiting = lane.waiting.items } };

    // No request waits unless one is in turn.
    ghost invariant = { λ lane. lane.current ≡ None → lane.waiting.items ≡ [] };
}

impl Lane {
    /// A lane without requests.
    pub(crate) fn empty(alloc: Global) -> Lane
        ensures { result ≡ record { current = None; waiting = [] } }
    {
        Lane {
            current: None,
            waiting: VecDeque::new(alloc),
        }
    }

    /// Puts a request before the others. Without memory it is let go, and the lane stays.
    pub(crate) fn push_front(&mut self, queued: Queued) -> Result<(), NoMemory>
        ensures ok { OnOk result (self.new ≡ record { current = Some queued; waiting = queued_in self.old }) }
    {
        let Some(first) = self.current.take() else {
            put(&mut self.current, Some(queued));
            return Ok(());
        };
        match self.waiting.push_front(first) {
            Ok(()) => {
                put(&mut self.current, Some(queued));
                Ok(())
            }
            Err(failed) => {
                put(&mut self.current, Some(failed.value));
                let_go(queued);
                Err(NoMemory)
            }
        }
    }

    /// Puts a request behind the others. Without memory it is let go, and the lane stays.
    pub(crate) fn push_back(&mut self, queued: Queued) -> Result<(), NoMemory>
        ensures ok { OnOk result (self.new ≡ row_asked queued self.old) }
        ensures err { OnErr result (self.new ≡ self.old) }
    {
        if self.current.is_none() {
            put(&mut self.current, Some(queued));
            return Ok(());
        }
        match self.waiting.push_back(queued) {
            Ok(()) => Ok(()),
            Err(failed) => {
                let_go(failed.value);
                Err(NoMemory)
            }
        }
    }

    /// Whether it has no request left.
    pub fn is_idle(&self) -> bool
        ensures idle { result ≡ true → (self.now.current ≡ None) × (self.now.waiting ≡ []) }
        ensures busy { result ≡ false → self.now.current ≢ None }
    {
        self.current.is_none()
    }

    /// Does the next event of the request in turn; if that answers it, the next one is in turn. None if the lane has no request left.
    pub fn advance<D: Disk>(&mut self, store: &mut Store<D>) -> Option<LaneEvent>
        requires ready { store.old.stopped ≡ false → IsReadyRow self.old store.old (D.history store.old.disk) }
        requires room { store.old.stopped ≡ false → HasUseRoom store.old }
        ensures some { IfSome result (λ event. RowGoesOn self.old self.new event store.old store.new (D.history store.old.disk) (D.history store.new.disk) (D.faults store.old.disk) (D.faults store.new.disk)) }
        ensures none { IsNone result → (self.old.current ≡ None) × (self.old.waiting ≡ []) × (self.new ≡ self.old) × (store.new ≡ store.old) }
    {
        let Some(first) = self.current.take() else {
            return None;
        };
        let (event, goes_on) = event_of(first, store);
        let next = match goes_on {
            Some(first) => Some(first),
            None => self.waiting.pop_front(),
        };
        put(&mut self.current, next);
        Some(event)
    }
}

/// Puts the request in turn in its place.
fn put<T: Drop>(place: &mut Option<T>, next: Option<T>)
    ensures { place.new ≡ next }
{
    *place = next;
}

/// Lets go of what is no longer needed.
fn let_go<T: Drop>(_answered: T) {}

/// Does the next event of a request's task. The request is given back if it goes on.
fn event_of<D: Disk>(first: Queued, store: &mut Store<D>) -> (LaneEvent, Option<Queued>)
    requires ready { store.old.stopped ≡ false → IsReadyTask first.task store.old (D.history store.old.disk) }
    requires room { store.old.stopped ≡ false → HasUseRoom store.old }
    ensures { (next : TaskValue) × TaskGoesOn first next result.0 store.old store.new (D.history store.old.disk) (D.history store.new.disk) (D.faults store.old.disk) (D.faults store.new.disk) × (result.1 ≡ goes_on_by (ended_by result.0.ended) (record first { task = next })) }
{
    store.facts();
    let mut first = first;
    let ended = first.task.step(store);
    store.facts();
    let event = LaneEvent {
        place: first.place,
        did: first.task.did(),
        ended,
    };
    let goes_on = if_more(first, &event.ended);
    (event, goes_on)
}

/// The request, if it goes on.
fn if_more(first: Queued, ended: &Progress) -> Option<Queued>
    ensures { result ≡ goes_on_by (ended_by ended.now) first }
{
    match ended {
        Progress::More => Some(first),
        Progress::Done(_) => {
            let_go(first);
            None
        }
    }
}
