// Giving a mailbox another name.
ghost use Rattle.std.specs.Prelude.{◌≡◌, IfErr, IfOk, OnOk, Some, None, false, ℕ};
ghost use Rattle.journal.specs.Events.{Around};
ghost use Rattle.mdbox_base.specs.declared.progress.Did.TheVariants as did;
ghost use Rattle.mdbox_base.specs.declared.progress.Progress.TheVariants as progress;
ghost use Rattle.mdbox_base.specs.declared.replies.Reply.{Reply};
ghost use Rattle.mdbox_base.specs.declared.requests.Request.TheVariants as request;
ghost use Rattle.store_core.specs.Keeping.{KeepsRest};
ghost use Rattle.task_steps.specs.Step.{HasNotBegun, Steps, ended_by};
ghost use Rattle.task_claims.specs.Claims.{no_claims};
ghost use Rattle.task_claims.specs.Stable.{MovesOwnClaims};
ghost use Rattle.mail_ops.specs.Changing.{MayChangeBox, renaming_refusal};
ghost use Rattle.mail_ops.specs.OnlyLogs.{ChangesOnlyLogs};
ghost use Rattle.mail_ops.specs.Renaming.{IsBoxNotRenamed, RenameAnswers, RenamedSo, RenamesOn};
ghost use Rattle.mail_ops.specs.declared.task.TaskStage.TheVariants as stage;
ghost use Rattle.store_seen.specs.Seeing.{seen_of};

use crate::changing::may_change;
use crate::event::NotDone;
use crate::making::known_name;
use disk_model::Disk;
use mdbox_base::{BoxNo, Did, Half, Name, Progress, Refusal, Reply};
use std::marker::Model;
use store_core::{StepError, Store};

/// The task of a renaming, which has one event.
#[derive(Drop)]
pub struct RenameTask {
    name: Name,
    target: Name,
    did: Did,
}

impl Model for RenameTask {
    ghost use Rattle.mail_ops.specs.Renaming.{RenameValue};

    ghost Value = { RenameValue };

    ghost view = { λ task. record { name = task.name; target = task.target; did = task.did } };
}

impl RenameTask {
    /// The renaming of the mailbox with this name to another.
    pub fn of(name: Name, target: Name) -> RenameTask
        ensures { result ≡ record { name = name; target = target; did = did.Quiet } }
    {
        RenameTask {
            name,
            target,
            did: Did::Quiet,
        }
    }

    /// What the last event did.
    pub fn did(&self) -> Did
        ensures { result ≡ self.now.did }
    {
        self.did
    }

    /// Renames the mailbox: the only event of its request.
    pub fn step<D: Disk>(&mut self, store: &mut Store<D>) -> Progress
        // Of every run that has come to the store, whatever other tasks have pinned: which event it was, what it answered, and which
        // crash images it leaves.
        ensures does { (around after : Around) (pins : ℕ → ℕ) → Steps HasNotBegun HasNotBegun around after (request.Rename self.old.name self.old.target) (seen_of pins store.old (D.history store.old.disk) (D.faults store.old.disk)) (seen_of pins store.new (D.history store.new.disk) (D.faults store.new.disk)) self.new.did (ended_by result) }

        // Whatever the disk is: what it leaves of the store and the disk, and what it answers. A store that is stopped replies so, and no
        // other does; it is stopped only by a change of the disk that failed.
        ensures keeps { ChangesOnlyLogs (KeepsRest store.old store.new) stage.First stage.First result store.old store.new (D.history store.old.disk) (D.history store.new.disk) (D.faults store.old.disk) (D.faults store.new.disk) }
        ensures replies { store.old.stopped ≡ false → (reply : Reply) × (result ≡ progress.Done reply) × RenameAnswers self.old.name self.old.target store.old store.new (D.history store.old.disk) (D.history store.new.disk) reply }

        // It claims nothing. Unless it stops the store, it moves no claims, and leaves to other tasks what is theirs.
        ensures claims { store.new.stopped ≡ false → MovesOwnClaims no_claims no_claims result store.old store.new (D.history store.old.disk) (D.history store.new.disk) }
        ensures request { (self.new.name ≡ self.old.name) × (self.new.target ≡ self.old.target) }
    {
        known_name(&self.target);
        store.facts();
        if store.stopped() {
            self.did = Did::Quiet;
            return Progress::Done(Reply::Refused(Refusal::Stopped));
        }
        let (reply, did) = only_event(store, &self.name, &self.target);
        self.did = did;
        Progress::Done(reply)
    }
}

/// Does the event, of a store that isn't stopped: what is replied, and what was done.
fn only_event<D: Disk>(store: &mut Store<D>, name: &Name, target: &Name) -> (Reply, Did)
    requires { store.old.stopped ≡ false }
    ensures { RenamesOn name.now target.now result.0 result.1 store.old store.new (D.history store.old.disk) (D.history store.new.disk) (D.faults store.old.disk) (D.faults store.new.disk) }
{
    match rename(store, name, target) {
        Ok(()) => (Reply::Done, Did::Step(Half::Whole)),
        Err(error) => (
            Reply::Refused(error.refusal()),
            error.did(Half::Whole, Did::Broken(Half::Whole)),
        ),
    }
}

/// The number of the mailbox with this name, if that may get the other name: it isn't INBOX, and no mailbox has the other.
fn may_rename<D: Disk>(store: &Store<D>, name: &Name, target: &Name) -> Result<BoxNo, Refusal>
    ensures found { IfOk result (λ number. MayChangeBox name.now number.0 store.now) }
    ensures free { OnOk result (renaming_refusal name.now target.now store.now ≡ None) }
    ensures refused { IfErr result (λ why. renaming_refusal name.now target.now store.now ≡ Some why) }
{
    let number = may_change(store, name)?;
    if store.list_of(target).is_some() {
        return Err(Refusal::Exists);
    }
    Ok(number)
}

/// Gives the mailbox with this name another, if no mailbox has that.
fn rename<D: Disk>(store: &mut Store<D>, name: &Name, target: &Name) -> Result<(), NotDone>
    requires { store.old.stopped ≡ false }
    ensures renamed { OnOk result (RenamedSo name.now target.now store.old store.new (D.history store.old.disk) (D.history store.new.disk) (D.faults store.old.disk) (D.faults store.new.disk)) }
    ensures refused { IfErr result (λ error. IsBoxNotRenamed name.now target.now error store.old store.new (D.history store.old.disk) (D.history store.new.disk) (D.faults store.old.disk) (D.faults store.new.disk)) }
{
    store.facts();
    let number = may_rename(store, name, target)?;
    match store.append_name(number, target) {
        Ok(()) => Ok(()),
        Err(StepError::Stopped) => Err(NotDone::Stopped),
        Err(StepError::NoMemory) => Err(NotDone::NoMemory),
    }
}
