// Deleting a mailbox.
ghost use Rattle.std.specs.Prelude.{◌≡◌, ◌<◌, IfOk, IfErr, OnOk, OnErr, false, ℕ};
ghost use Rattle.journal.specs.Events.{Around};
ghost use Rattle.mdbox_base.specs.declared.progress.Did.TheVariants as did;
ghost use Rattle.mdbox_base.specs.declared.progress.Progress.TheVariants as progress;
ghost use Rattle.mdbox_base.specs.declared.requests.Request.TheVariants as request;
ghost use Rattle.store_core.specs.Keeping.{KeepsRest};
ghost use Rattle.store_core.specs.MadeLogs.{IsGone};
ghost use Rattle.task_steps.specs.Step.{Steps, ended_by};
ghost use Rattle.task_claims.specs.Claims.{no_claims};
ghost use Rattle.task_claims.specs.Stable.{MovesOwnClaims};
ghost use Rattle.mail_ops.specs.Deleting.{DeleteAnswers, DeletedSo, DeletesOn, IsAtDelete, IsBoxNotDeleted, IsReadyToDelete, RemovesBoxLog, delete_left};
ghost use Rattle.mail_ops.specs.Making.{FellChanging, HasChangedDisk, IsStoppedSo, same_lists};
ghost use Rattle.mail_ops.specs.OnlyLogs.{ChangesOnlyLogs};
ghost use Rattle.store_seen.specs.Seeing.{seen_of};
ghost use Rattle.mail_ops.specs.declared.deleting.DeleteStage.TheVariants as stage;

use crate::changing::may_change;
use crate::event::NotDone;
use disk_model::Disk;
use mdbox_base::{BoxNo, Did, Half, Name, Progress, Refusal, Reply};
use std::marker::Model;
use store_core::{StepError, Stopped, Store};

/// Which event of a deletion is the next.
#[derive(Clone, Copy, Debug, PartialEq, Eq)]
pub enum DeleteStage {
    /// The first, which removes the mailbox. So it is too behind the last.
    First,
    /// The last, which removes its log: that of this number and this generation.
    RemovingLog(BoxNo, u32),
}

/// The task of a deletion: its events, one at a step.
#[derive(Drop)]
pub struct DeleteTask {
    name: Name,
    stage: DeleteStage,
    did: Did,
}

impl Model for DeleteTask {
    ghost use Rattle.mail_ops.specs.Deleting.{DeleteValue};

    ghost Value = { DeleteValue };

    ghost view = { λ task. record { name = task.name; stage = task.stage; did = task.did } };
}

impl DeleteTask {
    /// The deletion of the mailbox with this name.
    pub fn of(name: Name) -> DeleteTask
        ensures { result ≡ record { name = name; stage = stage.First; did = did.Quiet } }
    {
        DeleteTask {
            name,
            stage: DeleteStage::First,
            did: Did::Quiet,
        }
    }

    /// What the last event did.
    pub fn did(&self) -> Did
        ensures { result ≡ self.now.did }
    {
        self.did
    }

    /// Does the next event: the first removes the mailbox with all its messages, the last the file of its log. A task that has given
    /// its reply begins anew; one that was stopped stays where it was.
    pub fn step<D: Disk>(&mut self, store: &mut Store<D>) -> Progress
        // The number of the mailbox that it has removed is no other's, also afterwards.
        requires ready { store.old.stopped ≡ false → IsReadyToDelete self.old.stage store.old }
        ensures ready { store.new.stopped ≡ false → IsReadyToDelete self.new.stage store.new }

        // Of every run that has come to the store, whatever other tasks have pinned: which event it was, what it answered, and which
        // crash images it leaves.
        ensures does { (around after : Around) (pins : ℕ → ℕ) → Steps (IsAtDelete self.old.stage) (IsAtDelete self.new.stage) around after (request.Delete self.old.name) (seen_of pins store.old (D.history store.old.disk) (D.faults store.old.disk)) (seen_of pins store.new (D.history store.new.disk) (D.faults store.new.disk)) self.new.did (ended_by result) }

        // Whatever the disk is: what it leaves of the store and the disk, and what it answers. A store that is stopped replies so, and no
        // other does; it is stopped only by a change of the disk that failed.
        ensures keeps { ChangesOnlyLogs (KeepsRest store.old store.new) self.old.stage self.new.stage result store.old store.new (D.history store.old.disk) (D.history store.new.disk) (D.faults store.old.disk) (D.faults store.new.disk) }
        ensures replies { store.old.stopped ≡ false → DeleteAnswers self.old.name self.old.stage store.old store.new (D.history store.old.disk) (D.history store.new.disk) self.new.stage result }

        // It claims nothing. Unless it stops the store, it moves no claims, and leaves to other tasks what is theirs.
        ensures claims { store.new.stopped ≡ false → MovesOwnClaims no_claims no_claims result store.old store.new (D.history store.old.disk) (D.history store.new.disk) }

        // So it ends.
        ensures left { result ≡ progress.More → delete_left self.new.stage < delete_left self.old.stage }
        ensures request { self.new.name ≡ self.old.name }
    {
        store.facts();
        store.known_logs();
        if store.stopped() {
            self.did = Did::Quiet;
            return Progress::Done(Reply::Refused(Refusal::Stopped));
        }
        let (next, answer, did) = next_event(store, &self.name, self.stage);
        self.stage = next;
        self.did = did;
        answer
    }
}

/// Does the next event, of a store that isn't stopped: which event is the next then, how the request goes on, and what was done.
fn next_event<D: Disk>(
    store: &mut Store<D>,
    name: &Name,
    now: DeleteStage,
) -> (DeleteStage, Progress, Did)
    requires running { store.old.stopped ≡ false }
    requires ready { IsReadyToDelete now store.old }
    ensures { DeletesOn name.now now result.0 result.1 result.2 store.old store.new (D.history store.old.disk) (D.history store.new.disk) (D.faults store.old.disk) (D.faults store.new.disk) }
{
    match now {
        DeleteStage::First => match delete(store, name) {
            Ok((number, generation)) => (
                DeleteStage::RemovingLog(number, generation),
                Progress::More,
                Did::Step(Half::Whole),
            ),
            Err(error) => (
                DeleteStage::First,
                Progress::Done(Reply::Refused(error.refusal())),
                error.did(Half::Whole, Did::Broken(Half::Whole)),
            ),
        },
        DeleteStage::RemovingLog(number, generation) => {
            match remove_log(store, number, generation) {
                Ok(()) => (DeleteStage::First, Progress::Done(Reply::Done), Did::Quiet),
                Err(Stopped) => (
                    DeleteStage::RemovingLog(number, generation),
                    Progress::Done(Reply::Refused(Refusal::Stopped)),
                    Did::Failed,
                ),
            }
        }
    }
}

/// Removes the mailbox with this name from the map. Its number and the generation of its log, which is still there.
fn delete<D: Disk>(store: &mut Store<D>, name: &Name) -> Result<(BoxNo, u32), NotDone>
    requires { store.old.stopped ≡ false }
    ensures deleted { IfOk result (λ log. DeletedSo name.now log.0 log.1 store.old store.new (D.history store.old.disk) (D.history store.new.disk) (D.faults store.old.disk) (D.faults store.new.disk)) }
    ensures refused { IfErr result (λ error. IsBoxNotDeleted name.now error store.old store.new (D.history store.old.disk) (D.history store.new.disk) (D.faults store.old.disk) (D.faults store.new.disk)) }
{
    store.facts();
    let number = may_change(store, name)?;
    let Some(generation) = store.generation_of(number) else {
        unreachable!()
    };
    match store.append_deletion(number) {
        Ok(()) => Ok((number, generation)),
        Err(StepError::Stopped) => Err(NotDone::Stopped),
        Err(StepError::NoMemory) => Err(NotDone::NoMemory),
    }
}

/// Removes the log of a mailbox that has left the map.
fn remove_log<D: Disk>(store: &mut Store<D>, number: BoxNo, generation: u32) -> Result<(), Stopped>
    requires running { store.old.stopped ≡ false }
    requires gone { IsGone number.0 store.old }
    ensures removed { OnOk result (RemovesBoxLog number.0 generation store.old store.new (D.history store.old.disk) (D.history store.new.disk) × HasChangedDisk same_lists (D.history store.old.disk) (D.history store.new.disk) (D.faults store.old.disk) (D.faults store.new.disk)) }
    ensures stopped { OnErr result (IsStoppedSo store.old store.new × FellChanging same_lists (D.history store.old.disk) (D.history store.new.disk) (D.faults store.old.disk) (D.faults store.new.disk)) }
{
    match store.remove_box(number, generation) {
        Ok(()) => Ok(()),
        Err(Stopped) => Err(Stopped),
    }
}
