// Moving a message to a mailbox.
ghost use Rattle.std.specs.Prelude.{◌≡◌, ◌<◌, ◌+◌, ◌*◌, true, false, ℕ};
ghost use Rattle.journal.specs.Events.{Around};
ghost use Rattle.mdbox_base.specs.declared.progress.Did.TheVariants as did;
ghost use Rattle.mdbox_base.specs.declared.progress.Progress.TheVariants as progress;
ghost use Rattle.mdbox_base.specs.declared.replies.Reply.{Reply};
ghost use Rattle.mdbox_base.specs.declared.requests.Request.TheVariants as request;
ghost use Rattle.store_core.specs.Keeping.{KeepsRest};
ghost use Rattle.task_steps.specs.Step.{Steps, ended_by};
ghost use Rattle.mail_ops.specs.Moving.{IsAtMove, move_left, IsReadyToMove, MoveAnswers, MovesOn};
ghost use Rattle.task_claims.specs.Stable.{MovesOwnClaims};
ghost use Rattle.mail_ops.specs.Claims.{move_claims};
ghost use Rattle.mail_ops.specs.OnlyLogs.{ChangesOnlyLogs};
ghost use Rattle.mail_ops.specs.Owing.{map_room_left};
ghost use Rattle.store_seen.specs.Seeing.{seen_of};
ghost use Rattle.mail_ops.specs.declared.moving.MoveStage.TheVariants as stage;

use crate::copying::{add, raise};
use crate::event::NotDone;
use crate::leaving::remove_listed;
use crate::lowering::Lowering;
use disk_model::Disk;
use mdbox_base::{BoxNo, Did, Half, Name, Progress, Refusal, Reply, Uid};
use std::marker::Model;
use std::mem;
use store_core::{Stopped, Store};

/// Which event of a move is the next.
#[derive(Drop)]
pub enum MoveStage {
    /// The first, which raises the count of the message's record. So it is too behind the last.
    First,
    /// The second, which adds the message to the target. The move began from the mailbox with this number.
    Adding {
        held: Lowering,
        source: BoxNo,
    },
    /// Behind a second that found another mailbox under the source's name: it gives the count back, and the move begins again.
    BeginningAgain(Lowering),
    /// Behind a second that was refused: it gives the count back, and this reply.
    GivingBack {
        held: Lowering,
        why: Refusal,
    },
    /// The third, which removes the message from the mailbox with this number, whatever its name is by then. The copy has this UID.
    Removing {
        held: Lowering,
        copied: Uid,
        source: BoxNo,
    },
    /// The last, behind a third that removed it, which lowers the count of its record.
    Owing {
        owed: Lowering,
        copied: Uid,
    },
}

/// The task of a move: its events, one at a step.
#[derive(Drop)]
pub struct MoveTask {
    name: Name,
    uid: Uid,
    target: Name,
    stage: MoveStage,
    did: Did,
}

impl Model for MoveTask {
    ghost use Rattle.mail_ops.specs.Moving.{MoveValue};

    ghost Value = { MoveValue };

    ghost view = { λ task. record { name = task.name; uid = task.uid; target = task.target; stage = task.stage; did = task.did } };
}

impl MoveTask {
    /// The move of the message with this UID to the target.
    pub fn of(name: Name, uid: Uid, target: Name) -> MoveTask
        ensures { result ≡ record { name = name; uid = uid; target = target; stage = stage.First; did = did.Quiet } }
    {
        MoveTask {
            name,
            uid,
            target,
            stage: MoveStage::First,
            did: Did::Quiet,
        }
    }

    /// What the last event did.
    pub fn did(&self) -> Did
        ensures { result ≡ self.now.did }
    {
        self.did
    }

    /// Does the next event: the first raises the count of the message's record, and takes the memory to lower it; the second adds
    /// the message to the target, and if that is refused, a third gives the count back; else the third removes the message
    /// from the mailbox from which the move began, and the last lowers the count, or the third answers that it has gone. If the source's
    /// name names another mailbox at the second, nothing is added, a third gives the count back, and the move begins again. A task that
    /// has given its reply begins anew; one that was stopped stays where it was.
    pub fn step<D: Disk>(&mut self, store: &mut Store<D>) -> Progress
        // What it holds or owes is due in the store, and the mailbox from which it began lists no other message with the UID, also afterwards.
        requires ready { store.old.stopped ≡ false → IsReadyToMove self.old.name self.old.uid self.old.stage store.old }
        ensures ready { store.new.stopped ≡ false → IsReadyToMove self.old.name self.old.uid self.new.stage store.new }

        // Of every run that has come to the store, whatever other tasks have pinned: which event it was, what it answered, and which
        // crash images it leaves.
        ensures does { (around after : Around) (pins : ℕ → ℕ) → Steps (IsAtMove self.old.uid self.old.stage) (IsAtMove self.old.uid self.new.stage) around after (request.Move self.old.name self.old.uid self.old.target)
            (seen_of pins store.old (D.history store.old.disk) (D.faults store.old.disk)) (seen_of pins store.new (D.history store.new.disk) (D.faults store.new.disk)) self.new.did (ended_by result) }

        // Whatever the disk is: what it leaves of the store and the disk, and what it answers. A store that is stopped replies so, and no
        // other does; it is stopped only by a change of the disk that failed.
        ensures keeps { ChangesOnlyLogs (KeepsRest store.old store.new) self.old.stage self.new.stage result store.old store.new (D.history store.old.disk) (D.history store.new.disk) (D.faults store.old.disk) (D.faults store.new.disk) }
        ensures replies { store.old.stopped ≡ false → MoveAnswers self.old.name self.old.uid self.old.target self.old.stage store.old store.new self.new.stage result }

        // Unless it stops the store, it moves only its own claims, and leaves to other tasks what is theirs. One that was replied claims
        // nothing.
        ensures claims { store.new.stopped ≡ false → MovesOwnClaims (move_claims self.old.stage) (move_claims self.new.stage) result store.old store.new (D.history store.old.disk) (D.history store.new.disk) }

        // So it ends: what grows as it begins again has been paid by the map log.
        ensures left { result ≡ progress.More → move_left self.new.stage + 3 * map_room_left store.new < move_left self.old.stage + 3 * map_room_left store.old }
        ensures request { (self.new.name ≡ self.old.name) × (self.new.uid ≡ self.old.uid) × (self.new.target ≡ self.old.target) }
    {
        store.facts();
        if store.stopped() {
            self.did = Did::Quiet;
            return Progress::Done(Reply::Refused(Refusal::Stopped));
        }
        let now = mem::replace(&mut self.stage, MoveStage::First);
        let (next, answer, did) = next_event(store, &self.name, self.uid, &self.target, now);
        self.stage = next;
        self.did = did;
        answer
    }
}

/// Does the next event, of a store that isn't stopped: which event is the next then, how the request goes on, and what was done.
fn next_event<D: Disk>(
    store: &mut Store<D>,
    name: &Name,
    uid: Uid,
    target: &Name,
    now: MoveStage,
) -> (MoveStage, Progress, Did)
    requires running { store.old.stopped ≡ false }
    requires ready { IsReadyToMove name.now uid now store.old }
    ensures { MovesOn name.now uid target.now now result.0 result.1 result.2 store.old store.new (D.history store.old.disk) (D.history store.new.disk) (D.faults store.old.disk) (D.faults store.new.disk) }
{
    match now {
        MoveStage::First => match raise(store, name, uid, target) {
            Ok((held, source)) => (
                MoveStage::Adding { held, source },
                Progress::More,
                Did::Quiet,
            ),
            Err(error) => (
                MoveStage::First,
                Progress::Done(Reply::Refused(error.refusal())),
                error.did(Half::CopyHalf, Did::Failed),
            ),
        },
        MoveStage::Adding { held, source } => add_event(store, name, uid, target, held, source),
        MoveStage::BeginningAgain(held) => match held.append(store) {
            Ok(()) => (MoveStage::First, Progress::More, Did::Quiet),
            Err(Stopped) => (
                MoveStage::BeginningAgain(held),
                Progress::Done(Reply::Refused(Refusal::Stopped)),
                Did::Failed,
            ),
        },
        MoveStage::GivingBack { held, why } => match held.append(store) {
            Ok(()) => (
                MoveStage::First,
                Progress::Done(Reply::Refused(why)),
                Did::Quiet,
            ),
            Err(Stopped) => (
                MoveStage::GivingBack { held, why },
                Progress::Done(Reply::Refused(Refusal::Stopped)),
                Did::Failed,
            ),
        },
        MoveStage::Removing {
            held,
            copied,
            source,
        } => remove_event(store, name, uid, target, held, copied, source),
        MoveStage::Owing { owed, copied } => match owed.append(store) {
            Ok(()) => (
                MoveStage::First,
                Progress::Done(Reply::Moved {
                    uid: copied,
                    gone: false,
                }),
                Did::Quiet,
            ),
            Err(Stopped) => (
                MoveStage::Owing { owed, copied },
                Progress::Done(Reply::Refused(Refusal::Stopped)),
                Did::Failed,
            ),
        },
    }
}

/// The second event: adds the message to the target.
fn add_event<D: Disk>(
    store: &mut Store<D>,
    name: &Name,
    uid: Uid,
    target: &Name,
    held: Lowering,
    source: BoxNo,
) -> (MoveStage, Progress, Did)
    requires running { store.old.stopped ≡ false }
    requires ready { IsReadyToMove name.now uid (stage.Adding held source) store.old }
    ensures { MovesOn name.now uid target.now (stage.Adding held source) result.0 result.1 result.2 store.old store.new (D.history store.old.disk) (D.history store.new.disk) (D.faults store.old.disk) (D.faults store.new.disk) }
{
    match add(store, name, uid, target, held.uid(), source) {
        Ok(Some(copied)) => (
            MoveStage::Removing {
                held,
                copied,
                source,
            },
            Progress::More,
            Did::Step(Half::CopyHalf),
        ),
        Ok(None) => (MoveStage::BeginningAgain(held), Progress::More, Did::Quiet),
        Err(NotDone::Stopped) => (
            MoveStage::Adding { held, source },
            Progress::Done(Reply::Refused(Refusal::Stopped)),
            Did::Broken(Half::CopyHalf),
        ),
        Err(NotDone::NoMemory) => give_back(held, Refusal::NoMemory, Did::Quiet),
        Err(NotDone::Refused(why)) => give_back(held, why, Did::Step(Half::CopyHalf)),
    }
}

/// The request goes on by giving the count back.
fn give_back(held: Lowering, why: Refusal, did: Did) -> (MoveStage, Progress, Did)
    ensures { result ≡ (stage.GivingBack held why, progress.More, did) }
{
    (MoveStage::GivingBack { held, why }, Progress::More, did)
}

/// The third event: removes the message from the mailbox with this number, if it is still there.
fn remove_event<D: Disk>(
    store: &mut Store<D>,
    name: &Name,
    uid: Uid,
    target: &Name,
    held: Lowering,
    copied: Uid,
    source: BoxNo,
) -> (MoveStage, Progress, Did)
    requires running { store.old.stopped ≡ false }
    requires ready { IsReadyToMove name.now uid (stage.Removing held copied source) store.old }
    ensures { MovesOn name.now uid target.now (stage.Removing held copied source) result.0 result.1 result.2 store.old store.new (D.history store.old.disk) (D.history store.new.disk) (D.faults store.old.disk) (D.faults store.new.disk) }
{
    match remove_listed(store, source, uid, held.uid()) {
        Ok(true) => (
            MoveStage::Owing { owed: held, copied },
            Progress::More,
            Did::Step(Half::ExpungeHalf),
        ),
        Ok(false) => (
            MoveStage::First,
            Progress::Done(Reply::Moved {
                uid: copied,
                gone: true,
            }),
            Did::Step(Half::ExpungeHalf),
        ),
        Err(Stopped) => (
            MoveStage::Removing {
                held,
                copied,
                source,
            },
            Progress::Done(Reply::Refused(Refusal::Stopped)),
            Did::Broken(Half::ExpungeHalf),
        ),
    }
}
