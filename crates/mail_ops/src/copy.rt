// Copying a message to a mailbox.
ghost use Rattle.std.specs.Prelude.{◌≡◌, ◌<◌, ◌+◌, ◌*◌, false, ℕ};
ghost use Rattle.journal.specs.Events.{Around};
ghost use Rattle.mdbox_base.specs.declared.progress.Did.TheVariants as did;
ghost use Rattle.mdbox_base.specs.declared.progress.Progress.TheVariants as progress;
ghost use Rattle.mdbox_base.specs.declared.replies.Reply.{Reply};
ghost use Rattle.mdbox_base.specs.declared.requests.Request.TheVariants as request;
ghost use Rattle.store_core.specs.Keeping.{KeepsRest};
ghost use Rattle.task_steps.specs.Step.{Steps, ended_by};
ghost use Rattle.mail_ops.specs.Copy.{IsAtCopy, copy_left, IsReadyToCopy, CopyAnswers, CopiesOn};
ghost use Rattle.task_claims.specs.Stable.{MovesOwnClaims};
ghost use Rattle.mail_ops.specs.Claims.{copy_claims};
ghost use Rattle.mail_ops.specs.OnlyLogs.{ChangesOnlyLogs};
ghost use Rattle.mail_ops.specs.Owing.{map_room_left};
ghost use Rattle.store_seen.specs.Seeing.{seen_of};
ghost use Rattle.mail_ops.specs.declared.copy.CopyStage.TheVariants as stage;

use crate::copying::{add, raise};
use crate::event::NotDone;
use crate::lowering::Lowering;
use disk_model::Disk;
use mdbox_base::{BoxNo, Did, Half, Name, Progress, Refusal, Reply, Uid};
use std::marker::Model;
use std::mem;
use store_core::{Stopped, Store};

/// Which event of a copy is the next.
#[derive(Drop)]
pub enum CopyStage {
    /// The first, which raises the count of the message's record. So it is too behind the last.
    First,
    /// The second, which adds the message to the target. The copy began from the mailbox with this number.
    Adding { held: Lowering, source: BoxNo },
    /// Behind a second that found another mailbox under the source's name: it gives the count back, and the copy begins again.
    BeginningAgain(Lowering),
    /// The third, which gives the count back, and this reply.
    GivingBack { held: Lowering, why: Refusal },
}

/// The task of a copy: its events, one at a step.
#[derive(Drop)]
pub struct CopyTask {
    name: Name,
    uid: Uid,
    target: Name,
    stage: CopyStage,
    did: Did,
}

impl Model for CopyTask {
    ghost use Rattle.mail_ops.specs.Copy.{CopyValue};

    ghost Value = { CopyValue };

    ghost view = { λ task. record { name = task.name; uid = task.uid; target = task.target; stage = task.stage; did = task.did } };
}

impl CopyTask {
    /// The copy of the message with this UID to the target.
    pub fn of(name: Name, uid: Uid, target: Name) -> CopyTask
        ensures { result ≡ record { name = name; uid = uid; target = target; stage = stage.First; did = did.Quiet } }
    {
        CopyTask {
            name,
            uid,
            target,
            stage: CopyStage::First,
            did: Did::Quiet,
        }
    }

    /// What the last event did.
    pub fn did(&self) -> Did
        ensures { result ≡ self.now.did }
    {
        self.did
    }

    /// Does the next event: the first raises the count of the message's record, and takes the memory to give it back; the second
    /// adds the message to the target; if that is refused, the third gives the count back. If the source's name names another mailbox at
    /// the second, nothing is added, the third gives the count back, and the copy begins again. A task that has given its reply
    /// begins anew; one that was stopped stays where it was.
    pub fn step<D: Disk>(&mut self, store: &mut Store<D>) -> Progress
        // What it holds is due in the store, and the mailbox from which it began lists no other message with the UID, also afterwards.
        requires ready { store.old.stopped ≡ false → IsReadyToCopy self.old.name self.old.uid self.old.stage store.old }
        ensures ready { store.new.stopped ≡ false → IsReadyToCopy self.old.name self.old.uid self.new.stage store.new }

        // Of every run that has come to the store, whatever other tasks have pinned: which event it was, what it answered, and which
        // crash images it leaves.
        ensures does { (around after : Around) (pins : ℕ → ℕ) → Steps (IsAtCopy self.old.stage) (IsAtCopy self.new.stage) around after (request.Copy self.old.name self.old.uid self.old.target) (seen_of pins store.old (D.history store.old.disk) (D.faults store.old.disk)) (seen_of pins store.new (D.history store.new.disk) (D.faults store.new.disk)) self.new.did (ended_by result) }

        // Whatever the disk is: what it leaves of the store and the disk, and what it answers. A store that is stopped replies so, and no
        // other does; it is stopped only by a change of the disk that failed.
        ensures keeps { ChangesOnlyLogs (KeepsRest store.old store.new) self.old.stage self.new.stage result store.old store.new (D.history store.old.disk) (D.history store.new.disk) (D.faults store.old.disk) (D.faults store.new.disk) }
        ensures replies { store.old.stopped ≡ false → CopyAnswers self.old.name self.old.uid self.old.target self.old.stage store.old store.new self.new.stage result }

        // Unless it stops the store, it moves only its own claims, and leaves to other tasks what is theirs. One that was replied claims
        // nothing.
        ensures claims { store.new.stopped ≡ false → MovesOwnClaims (copy_claims self.old.stage) (copy_claims self.new.stage) result store.old store.new (D.history store.old.disk) (D.history store.new.disk) }

        // So it ends: what grows as it begins again has been paid by the map log.
        ensures left { result ≡ progress.More → copy_left self.new.stage + 3 * map_room_left store.new < copy_left self.old.stage + 3 * map_room_left store.old }
        ensures request { (self.new.name ≡ self.old.name) × (self.new.uid ≡ self.old.uid) × (self.new.target ≡ self.old.target) }
    {
        store.facts();
        if store.stopped() {
            self.did = Did::Quiet;
            return Progress::Done(Reply::Refused(Refusal::Stopped));
        }
        let now = mem::replace(&mut self.stage, CopyStage::First);
        let (next, answer, did) = next_event(store, &self.name, self.uid, &self.target, now);
        self.stage = next;
        self.did = did;
        answer
    }
}

/// Does the next event, of a store that isn't stopped: which event is the next then, how the request goes on, and what was done.
fn next_event<D: Disk>(
    store: &mut Store<D>,
    name: &Name,
    uid: Uid,
    target: &Name,
    now: CopyStage,
) -> (CopyStage, Progress, Did)
    requires running { store.old.stopped ≡ false }
    requires ready { IsReadyToCopy name.now uid now store.old }
    ensures { CopiesOn name.now uid target.now now result.0 result.1 result.2 store.old store.new (D.history store.old.disk) (D.history store.new.disk) (D.faults store.old.disk) (D.faults store.new.disk) }
{
    match now {
        CopyStage::First => match raise(store, name, uid, target) {
            Ok((held, source)) => (
                CopyStage::Adding { held, source },
                Progress::More,
                Did::Quiet,
            ),
            Err(error) => (
                CopyStage::First,
                Progress::Done(Reply::Refused(error.refusal())),
                error.did(Half::Whole, Did::Failed),
            ),
        },
        CopyStage::Adding { held, source } => add_event(store, name, uid, target, held, source),
        CopyStage::BeginningAgain(held) => match held.append(store) {
            Ok(()) => (CopyStage::First, Progress::More, Did::Quiet),
            Err(Stopped) => (
                CopyStage::BeginningAgain(held),
                Progress::Done(Reply::Refused(Refusal::Stopped)),
                Did::Failed,
            ),
        },
        CopyStage::GivingBack { held, why } => match held.append(store) {
            Ok(()) => (
                CopyStage::First,
                Progress::Done(Reply::Refused(why)),
                Did::Quiet,
            ),
            Err(Stopped) => (
                CopyStage::GivingBack { held, why },
                Progress::Done(Reply::Refused(Refusal::Stopped)),
                Did::Failed,
            ),
        },
    }
}

/// The second event: adds the message to the target.
fn add_event<D: Disk>(
    store: &mut Store<D>,
    name: &Name,
    uid: Uid,
    target: &Name,
    held: Lowering,
    source: BoxNo,
) -> (CopyStage, Progress, Did)
    requires running { store.old.stopped ≡ false }
    requires ready { IsReadyToCopy name.now uid (stage.Adding held source) store.old }
    ensures { CopiesOn name.now uid target.now (stage.Adding held source) result.0 result.1 result.2 store.old store.new (D.history store.old.disk) (D.history store.new.disk) (D.faults store.old.disk) (D.faults store.new.disk) }
{
    match add(store, name, uid, target, held.uid(), source) {
        Ok(Some(uid)) => (
            CopyStage::First,
            Progress::Done(Reply::Copied { uid }),
            Did::Step(Half::Whole),
        ),
        Ok(None) => (CopyStage::BeginningAgain(held), Progress::More, Did::Quiet),
        Err(NotDone::Stopped) => (
            CopyStage::Adding { held, source },
            Progress::Done(Reply::Refused(Refusal::Stopped)),
            Did::Broken(Half::Whole),
        ),
        Err(NotDone::NoMemory) => give_back(held, Refusal::NoMemory, Did::Quiet),
        Err(NotDone::Refused(why)) => give_back(held, why, Did::Step(Half::Whole)),
    }
}

/// The request goes on by giving the count back.
fn give_back(held: Lowering, why: Refusal, did: Did) -> (CopyStage, Progress, Did)
    ensures { result ≡ (stage.GivingBack held why, progress.More, did) }
{
    (CopyStage::GivingBack { held, why }, Progress::More, did)
}
