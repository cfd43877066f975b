// A task of any kind.
ghost use Rattle.std.specs.Prelude.{◌≡◌, ◌≤◌, ◌<◌, ℕ, true, false, List, length};
ghost use Rattle.attach_detach.specs.Prepared.{IsPrepared};
ghost use Rattle.mdbox_base.specs.declared.progress.Progress.TheVariants as progress;
ghost use Rattle.mdbox_base.specs.declared.replies.Refusal.TheVariants as refusal;
ghost use Rattle.mdbox_base.specs.declared.replies.Reply.TheVariants as reply;
ghost use Rattle.mdbox_base.specs.declared.requests.Request.TheVariants as request;
ghost use Rattle.task_claims.specs.Stable.{MovesOwnClaims};
ghost use Rattle.task_steps.specs.Step.{ended_by};
ghost use Rattle.mail_fetch.specs.Claims.{HasUseRoom};
ghost use Rattle.lane_tasks.specs.Clause.{TaskKeeps, StepsTask};
ghost use Rattle.lane_tasks.specs.Tasks.{BeginsTask, HasTask, IsReadyTask, claims_at, did_of, work_left};

use attach_detach::Prepared;
use disk_model::Disk;
use mail_fetch::FetchTask;
use mail_ops::{
    CopyTask, CountsTask, DeleteTask, ExpungeTask, MakeTask, MoveTask, OpsTask, RenameTask,
};
use mail_save::SaveTask;
use mdbox_base::{Did, Name, Progress, Request};
use purge_task::PurgeTask;
use resync_task::ResyncTask;
use store_core::Store;

/// The task of a request of any kind.
#[derive(Drop)]
pub enum Task {
    /// Of a listing, or of a setting of flags or keywords.
    Ops(OpsTask),
    /// Of a count.
    Counts(CountsTask),
    /// Of a make.
    Make(MakeTask),
    /// Of a copy.
    Copy(CopyTask),
    /// Of a move.
    Move(MoveTask),
    /// Of an expunge.
    Expunge(ExpungeTask),
    /// Of a fetch.
    Fetch(FetchTask),
    /// Of a delivery.
    Deliver(SaveTask),
    /// Of a resync.
    Resync(ResyncTask),
    /// Of a purge.
    Purge(PurgeTask),
    /// Of a deletion of a mailbox.
    Delete(DeleteTask),
    /// Of a renaming of a mailbox.
    Rename(RenameTask),
}

impl Task {
    /// The task of a request that begins, but for a delivery.
    pub fn of(request: Request) -> Task
        requires { HasTask request }
        ensures { BeginsTask request result }
    {
        match request {
            Request::Counts => Task::Counts(CountsTask::of()),
            Request::Resync => Task::Resync(ResyncTask::of()),
            Request::Purge => Task::Purge(PurgeTask::of()),
            Request::Make { name } => Task::Make(MakeTask::of(name)),
            Request::Copy { name, uid, target } => Task::Copy(CopyTask::of(name, uid, target)),
            Request::Move { name, uid, target } => Task::Move(MoveTask::of(name, uid, target)),
            Request::Expunge { name, uid } => Task::Expunge(ExpungeTask::of(name, uid)),
            Request::Fetch { name, uid } => Task::Fetch(FetchTask::of(name, uid)),
            Request::Delete { name } => Task::Delete(DeleteTask::of(name)),
            Request::Rename { name, target } => Task::Rename(RenameTask::of(name, target)),
            Request::List { name } => Task::Ops(OpsTask::of(Request::List { name })),
            Request::Flag { name, uid, flags } => {
                Task::Ops(OpsTask::of(Request::Flag { name, uid, flags }))
            }
            Request::Keywords { name, uid, words } => {
                Task::Ops(OpsTask::of(Request::Keywords { name, uid, words }))
            }
            _ => unreachable!(),
        }
    }

    /// The task of a delivery that begins, of a message that was prepared, received at this time (Unix seconds).
    pub fn delivery(name: Name, time: u64, prepared: Prepared) -> Task
        requires { (octets : List ℕ) × (length octets ≤ 67108864) × IsPrepared octets prepared }
        ensures { (octets : List ℕ) → length octets ≤ 67108864 → IsPrepared octets prepared → BeginsTask (request.Deliver name time octets) result }
    {
        Task::Deliver(SaveTask::of(name, time, prepared))
    }

    /// What the last event did.
    pub fn did(&self) -> Did
        ensures { result ≡ did_of self.now }
    {
        match self {
            Task::Ops(task) => task.did(),
            Task::Counts(task) => task.did(),
            Task::Make(task) => task.did(),
            Task::Copy(task) => task.did(),
            Task::Move(task) => task.did(),
            Task::Expunge(task) => task.did(),
            Task::Fetch(task) => task.did(),
            Task::Deliver(task) => task.did(),
            Task::Resync(task) => task.did(),
            Task::Purge(task) => task.did(),
            Task::Delete(task) => task.did(),
            Task::Rename(task) => task.did(),
        }
    }

    /// Does the next event. A task that has given its reply begins anew; one that was stopped stays where it was.
    pub fn step<D: Disk>(&mut self, store: &mut Store<D>) -> Progress
        // Unless the store is stopped, it is ready for its event, and has room for it; and if it goes on, it is ready for the next.
        requires ready { store.old.stopped ≡ false → IsReadyTask self.old store.old (D.history store.old.disk) }
        requires room { store.old.stopped ≡ false → HasUseRoom store.old }
        ensures ready { result ≡ progress.More → store.new.stopped ≡ false → IsReadyTask self.new store.new (D.history store.new.disk) }

        // Of every run that has come to the store: which event it was, what it answered, and which crash images it leaves.
        ensures does { StepsTask self.old self.new store.old store.new (D.history store.old.disk) (D.history store.new.disk) (D.faults store.old.disk) (D.faults store.new.disk) (ended_by result) }

        // Unless it stops the store, it moves only its own claims, and leaves to other tasks what is theirs. One that was replied claims
        // nothing.
        ensures claims { store.new.stopped ≡ false → MovesOwnClaims (claims_at self.old) (claims_at self.new) result store.old store.new (D.history store.old.disk) (D.history store.new.disk) }

        // It replies so if the store is stopped then, and a store that is stopped stays so.
        ensures stopped { (store.new.stopped ≡ true → result ≡ progress.Done (reply.Refused refusal.Stopped)) × (store.old.stopped ≡ true → store.new.stopped ≡ true) }

        // What it keeps of the store and its disk, whatever run it is of.
        ensures keeps { TaskKeeps self.old self.new store.old store.new (D.history store.old.disk) (D.history store.new.disk) (D.faults store.old.disk) (D.faults store.new.disk) (ended_by result) }

        // So it ends.
        ensures left { result ≡ progress.More → work_left self.new store.new < work_left self.old store.old }
    {
        store.facts();
        match self {
            Task::Ops(task) => task.step(store),
            Task::Counts(task) => task.step(store),
            Task::Make(task) => task.step(store),
            Task::Copy(task) => task.step(store),
            Task::Move(task) => task.step(store),
            Task::Expunge(task) => task.step(store),
            Task::Fetch(task) => task.step(store),
            Task::Deliver(task) => task.step(store),
            Task::Resync(task) => task.step(store),
            Task::Purge(task) => task.step(store),
            Task::Delete(task) => task.step(store),
            Task::Rename(task) => task.step(store),
        }
    }
}
