// Removing a message.
ghost use Rattle.std.specs.Prelude.{◌≡◌, ◌<◌, IfOk, IfErr, false, ℕ};
ghost use Rattle.journal.specs.Events.{Around};
ghost use Rattle.mdbox_base.specs.declared.progress.Did.TheVariants as did;
ghost use Rattle.mdbox_base.specs.declared.progress.Progress.TheVariants as progress;
ghost use Rattle.mdbox_base.specs.declared.replies.Reply.{Reply};
ghost use Rattle.mdbox_base.specs.declared.requests.Request.TheVariants as request;
ghost use Rattle.store_core.specs.Keeping.{KeepsRest};
ghost use Rattle.task_steps.specs.Step.{Steps, ended_by};
ghost use Rattle.mail_ops.specs.Expunging.{IsAtExpunge, expunge_amounts, expunge_left, ExpungeAnswers, ExpungesOn, RemovesRow, IsNotRemoved};
ghost use Rattle.mail_ops.specs.Owing.{AreDueIn};
ghost use Rattle.task_claims.specs.Stable.{MovesOwnClaims};
ghost use Rattle.mail_ops.specs.Claims.{expunge_claims};
ghost use Rattle.mail_ops.specs.OnlyLogs.{ChangesOnlyLogs};
ghost use Rattle.store_seen.specs.Seeing.{seen_of};
ghost use Rattle.mail_ops.specs.declared.expunging.ExpungeStage.TheVariants as stage;

use crate::event::NotDone;
use crate::lowering::Lowering;
use crate::message::find_message;
use disk_model::Disk;
use mdbox_base::{BoxEntry, Did, Half, Name, Progress, Refusal, Reply, Uid};
use std::marker::Model;
use std::mem;
use store_core::{StepError, Stopped, Store};

/// Which event of an expunge is the next.
#[derive(Drop)]
pub enum ExpungeStage {
    /// The first, which removes the message. So it is too behind the last.
    First,
    /// The last, which lowers the count of its record.
    Owing(Lowering),
}

/// The task of an expunge: its events, one at a step.
#[derive(Drop)]
pub struct ExpungeTask {
    name: Name,
    uid: Uid,
    stage: ExpungeStage,
    did: Did,
}

impl Model for ExpungeTask {
    ghost use Rattle.mail_ops.specs.Expunging.{ExpungeValue};

    ghost Value = { ExpungeValue };

    ghost view = { λ task. record { name = task.name; uid = task.uid; stage = task.stage; did = task.did } };
}

impl ExpungeTask {
    /// The expunge of the message with this UID.
    pub fn of(name: Name, uid: Uid) -> ExpungeTask
        ensures { result ≡ record { name = name; uid = uid; stage = stage.First; did = did.Quiet } }
    {
        ExpungeTask {
            name,
            uid,
            stage: ExpungeStage::First,
            did: Did::Quiet,
        }
    }

    /// What the last event did.
    pub fn did(&self) -> Did
        ensures { result ≡ self.now.did }
    {
        self.did
    }

    /// Does the next event: the first removes the message, and takes the memory for the last, which lowers the count of its
    /// record. A task that has given its reply begins anew; one that was stopped stays where it was.
    pub fn step<D: Disk>(&mut self, store: &mut Store<D>) -> Progress
        // What it owes is due in the store, also afterwards.
        requires due { store.old.stopped ≡ false → AreDueIn store.old (expunge_amounts self.old.stage) }
        ensures due { store.new.stopped ≡ false → AreDueIn store.new (expunge_amounts self.new.stage) }

        // Of every run that has come to the store, whatever other tasks have pinned: which event it was, what it answered, and which
        // crash images it leaves.
        ensures does { (around after : Around) (pins : ℕ → ℕ) → Steps (IsAtExpunge self.old.stage) (IsAtExpunge self.new.stage) around after (request.Expunge self.old.name self.old.uid) (seen_of pins store.old (D.history store.old.disk) (D.faults store.old.disk)) (seen_of pins store.new (D.history store.new.disk) (D.faults store.new.disk)) self.new.did (ended_by result) }

        // Whatever the disk is: what it leaves of the store and the disk, and what it answers. A store that is stopped replies so, and no
        // other does; it is stopped only by a change of the disk that failed.
        ensures keeps { ChangesOnlyLogs (KeepsRest store.old store.new) self.old.stage self.new.stage result store.old store.new (D.history store.old.disk) (D.history store.new.disk) (D.faults store.old.disk) (D.faults store.new.disk) }
        ensures replies { store.old.stopped ≡ false → ExpungeAnswers self.old.name self.old.uid self.old.stage store.old store.new self.new.stage result }

        // Unless it stops the store, it moves only its own claims, and leaves to other tasks what is theirs. One that was replied claims
        // nothing.
        ensures claims { store.new.stopped ≡ false → MovesOwnClaims (expunge_claims self.old.stage) (expunge_claims self.new.stage) result store.old store.new (D.history store.old.disk) (D.history store.new.disk) }

        // So it ends.
        ensures left { result ≡ progress.More → expunge_left self.new.stage < expunge_left self.old.stage }
        ensures request { (self.new.name ≡ self.old.name) × (self.new.uid ≡ self.old.uid) }
    {
        store.facts();
        if store.stopped() {
            self.did = Did::Quiet;
            return Progress::Done(Reply::Refused(Refusal::Stopped));
        }
        let now = mem::replace(&mut self.stage, ExpungeStage::First);
        let (next, answer, did) = next_event(store, &self.name, self.uid, now);
        self.stage = next;
        self.did = did;
        answer
    }
}

/// Does the next event, of a store that isn't stopped: which event is the next then, how the request goes on, and what was done.
fn next_event<D: Disk>(
    store: &mut Store<D>,
    name: &Name,
    uid: Uid,
    now: ExpungeStage,
) -> (ExpungeStage, Progress, Did)
    requires running { store.old.stopped ≡ false }
    requires due { AreDueIn store.old (expunge_amounts now) }
    ensures { ExpungesOn name.now uid now result.0 result.1 result.2 store.old store.new (D.history store.old.disk) (D.history store.new.disk) (D.faults store.old.disk) (D.faults store.new.disk) }
{
    match now {
        ExpungeStage::First => match remove(store, name, uid) {
            Ok(owed) => (
                ExpungeStage::Owing(owed),
                Progress::More,
                Did::Step(Half::Whole),
            ),
            Err(error) => (
                ExpungeStage::First,
                Progress::Done(Reply::Refused(error.refusal())),
                error.did(Half::Whole, Did::Broken(Half::Whole)),
            ),
        },
        ExpungeStage::Owing(owed) => match owed.append(store) {
            Ok(()) => (ExpungeStage::First, Progress::Done(Reply::Done), Did::Quiet),
            Err(Stopped) => (
                ExpungeStage::Owing(owed),
                Progress::Done(Reply::Refused(Refusal::Stopped)),
                Did::Failed,
            ),
        },
    }
}

/// Removes a message from its mailbox, and hands out the entry that lowers the count of its record.
fn remove<D: Disk>(store: &mut Store<D>, name: &Name, uid: Uid) -> Result<Lowering, NotDone>
    requires { store.old.stopped ≡ false }
    ensures removed { IfOk result (λ owed. RemovesRow name.now uid owed store.old store.new (D.history store.old.disk) (D.history store.new.disk) (D.faults store.old.disk) (D.faults store.new.disk)) }
    ensures refused { IfErr result (λ error. IsNotRemoved name.now uid error store.old store.new (D.history store.old.disk) (D.history store.new.disk) (D.faults store.old.disk) (D.faults store.new.disk)) }
{
    let (number, row) = find_message(store, name, uid)?;
    let owed = Lowering::of(store.alloc(), row.map_uid)?;
    match store.append_box(number, &BoxEntry::R { uid }) {
        Ok(()) => Ok(owed),
        Err(StepError::Stopped) => Err(NotDone::Stopped),
        Err(StepError::NoMemory) => unreachable!(),
    }
}
