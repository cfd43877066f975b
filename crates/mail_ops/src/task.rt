// The task of a request.
ghost use Rattle.std.specs.Prelude.{◌≡◌, ℕ, Some, false};
ghost use Rattle.journal.specs.Events.{Around};
ghost use Rattle.mdbox_base.specs.declared.progress.Did.TheVariants as did;
ghost use Rattle.mdbox_base.specs.declared.progress.Progress.TheVariants as progress;
ghost use Rattle.mdbox_base.specs.declared.replies.Reply.{Reply};
ghost use Rattle.mdbox_base.specs.declared.replies.Reply.TheVariants as reply;
ghost use Rattle.task_steps.specs.Step.{HasNotBegun, Steps, ended_by};
ghost use Rattle.mail_ops.specs.Requests.{IsOpsRequest, Replies, AppendsNothing, AppendsOne};
ghost use Rattle.store_core.specs.Dues.{due_at};
ghost use Rattle.store_core.specs.Keeping.{KeepsRest};
ghost use Rattle.mail_ops.specs.Task.{IsAt};
ghost use Rattle.mail_ops.specs.OnlyLogs.{ChangesOnlyLogs};
ghost use Rattle.task_claims.specs.Claims.{no_claims};
ghost use Rattle.task_claims.specs.Leaving.{LeavesOthers};
ghost use Rattle.task_claims.specs.Stable.{MovesOwnClaims};
ghost use Rattle.store_seen.specs.Seeing.{seen_of};
ghost use Rattle.mail_ops.specs.declared.task.TaskStage.TheVariants as stage;

use crate::flagging::flag;
use crate::listing::list;
use crate::wording::give_words;
use disk_model::Disk;
use mdbox_base::{Did, Progress, Reply, Request};
use std::marker::Model;
use store_core::Store;

/// Which event of a task is the next.
#[derive(Clone, Copy, Debug, PartialEq, Eq)]
pub enum TaskStage {
    /// The first. A task that has ended stays where its last event began.
    First,
}

/// The task of a request: its events, one at a step.
#[derive(Drop)]
pub struct OpsTask {
    request: Request,
    stage: TaskStage,
    did: Did,
}

impl Model for OpsTask {
    ghost use Rattle.mail_ops.specs.Requests.{IsOpsRequest};
    ghost use Rattle.mail_ops.specs.Task.{TaskValue};

    ghost Value = { TaskValue };

    ghost view = { λ task. record { request = task.request; stage = task.stage; did = task.did } };

    ghost invariant = { λ task. IsOpsRequest task.request };
}

impl OpsTask {
    /// The task of a request: a listing, or one that sets flags or keywords.
    pub fn of(request: Request) -> OpsTask
        requires { IsOpsRequest request }
        ensures { result ≡ record { request = request; stage = stage.First; did = did.Quiet } }
    {
        OpsTask {
            request,
            stage: TaskStage::First,
            did: Did::Quiet,
        }
    }

    /// What the last event did.
    pub fn did(&self) -> Did
        ensures { result ≡ self.now.did }
    {
        self.did
    }

    /// Does the next event. Each of these requests has one, and is answered by it.
    pub fn step<D: Disk>(&mut self, store: &mut Store<D>) -> Progress
        // Of every run that has come to the store, whatever other tasks have pinned: which event it was, what it answered, and which
        // crash images it leaves.
        ensures does { (around after : Around) (pins : ℕ → ℕ) → Steps (IsAt self.old.stage) (IsAt self.new.stage) around after self.old.request (seen_of pins store.old (D.history store.old.disk) (D.faults store.old.disk)) (seen_of pins store.new (D.history store.new.disk) (D.faults store.new.disk)) self.new.did (ended_by result) }

        // Whatever the disk is: what it leaves of the store and the disk. A store that is stopped replies so, and no other does; it is
        // stopped only by a change of the disk that failed.
        ensures keeps { ChangesOnlyLogs (KeepsRest store.old store.new) self.old.stage self.new.stage result store.old store.new (D.history store.old.disk) (D.history store.new.disk) (D.faults store.old.disk) (D.faults store.new.disk) }

        // It claims nothing. Unless it stops the store, it moves no claims, and leaves to other tasks what is theirs.
        ensures claims { store.new.stopped ≡ false → MovesOwnClaims no_claims no_claims result store.old store.new (D.history store.old.disk) (D.history store.new.disk) }
        ensures replies { (reply : Reply) × (result ≡ progress.Done reply) × Replies self.old.request store.old store.new reply }
        ensures same { AppendsNothing self.old.request store.old → store.new ≡ store.old }
        ensures appended { result ≡ progress.Done reply.Done → AppendsOne self.old.request store.old store.new }
        ensures request { self.new.request ≡ self.old.request }
    {
        let TaskStage::First = self.stage;
        let (reply, did) = only_event(store, &self.request);
        self.did = did;
        Progress::Done(reply)
    }
}

/// The only event of a request.
fn only_event<D: Disk>(store: &mut Store<D>, request: &Request) -> (Reply, Did)
    requires { IsOpsRequest request.now }
    ensures does { (around after : Around) (pins : ℕ → ℕ) → Steps HasNotBegun HasNotBegun around after request.now (seen_of pins store.old (D.history store.old.disk) (D.faults store.old.disk)) (seen_of pins store.new (D.history store.new.disk) (D.faults store.new.disk)) result.1 (Some result.0) }
    ensures replies { Replies request.now store.old store.new result.0 }
    ensures same { AppendsNothing request.now store.old → store.new ≡ store.old }
    ensures appended { result.0 ≡ reply.Done → AppendsOne request.now store.old store.new }
    ensures due { (uid : ℕ) → due_at uid store.new ≡ due_at uid store.old }
    ensures leaves { store.new.stopped ≡ false → LeavesOthers no_claims store.old store.new (D.history store.old.disk) (D.history store.new.disk) }
    ensures keeps { ChangesOnlyLogs (KeepsRest store.old store.new) stage.First stage.First (progress.Done result.0) store.old store.new (D.history store.old.disk) (D.history store.new.disk) (D.faults store.old.disk) (D.faults store.new.disk) }
{
    match request {
        Request::List { name } => list(store, name),
        Request::Flag { name, uid, flags } => flag(store, name, *uid, *flags),
        Request::Keywords { name, uid, words } => give_words(store, name, *uid, words),
        _ => unreachable!(),
    }
}
