// Making a mailbox.
ghost use Rattle.std.specs.Prelude.{◌≡◌, ◌<◌, Some, None, IfOk, IfErr, OnOk, true, false, ℕ};
ghost use Rattle.journal.specs.Events.{Around};
ghost use Rattle.mdbox_base.specs.Words.{IsName};
ghost use Rattle.mdbox_base.specs.declared.progress.Did.TheVariants as did;
ghost use Rattle.mdbox_base.specs.declared.progress.Progress.TheVariants as progress;
ghost use Rattle.mdbox_base.specs.declared.replies.Reply.{Reply};
ghost use Rattle.mdbox_base.specs.declared.requests.Request.TheVariants as request;
ghost use Rattle.store_core.specs.MadeLogs.{has_made_log};
ghost use Rattle.task_steps.specs.Step.{Steps, ended_by};
ghost use Rattle.mail_ops.specs.Making.{IsAtMake, naming_refusal, IsReadyToMake, KeepsAllButLogs, MakeAnswers, make_left, IsLogNotMade, MadeLogSo, FellIfStopped, MakesOn, RemovesOr};
ghost use Rattle.task_claims.specs.Stable.{MovesOwnClaims};
ghost use Rattle.mail_ops.specs.Claims.{make_claims};
ghost use Rattle.mail_ops.specs.OnlyLogs.{ChangesOnlyLogs};
ghost use Rattle.store_seen.specs.Seeing.{seen_of};
ghost use Rattle.mail_ops.specs.declared.making.MakeStage.TheVariants as stage;

use crate::event::NotDone;
use disk_model::Disk;
use mdbox_base::{BoxNo, Did, Half, Name, Progress, Refusal, Reply};
use std::marker::Model;
use store_core::{StepError, Stopped, Store};

/// How many mailboxes a store has at the most.
const MOST_MAILBOXES: u32 = 1_024;

/// The greatest number of a mailbox.
const LAST_BOX: u64 = 4_294_967_294;

/// Which event of a make is the next.
#[derive(Clone, Copy, Debug, PartialEq, Eq)]
pub enum MakeStage {
    /// The first, which makes the log. So it is too behind the last.
    First,
    /// The second, which names the log of this number, or removes it.
    Naming(BoxNo),
}

/// The task of a make: its events, one at a step.
#[derive(Drop)]
pub struct MakeTask {
    name: Name,
    stage: MakeStage,
    did: Did,
}

impl Model for MakeTask {
    ghost use Rattle.mail_ops.specs.Making.{MakeValue};

    ghost Value = { MakeValue };

    ghost view = { λ task. record { name = task.name; stage = task.stage; did = task.did } };
}

impl MakeTask {
    /// The make of a mailbox with this name.
    pub fn of(name: Name) -> MakeTask
        ensures { result ≡ record { name = name; stage = stage.First; did = did.Quiet } }
    {
        MakeTask {
            name,
            stage: MakeStage::First,
            did: Did::Quiet,
        }
    }

    /// What the last event did.
    pub fn did(&self) -> Did
        ensures { result ≡ self.now.did }
    {
        self.did
    }

    /// Does the next event: the first draws a number and makes the log of a mailbox; the second checks again, and names it, or
    /// removes it, if it is refused or out of memory. If another mailbox has overtaken the number, the second removes the log and
    /// the request begins anew. A task that has given its reply begins anew; one that was stopped stays where it was.
    pub fn step<D: Disk>(&mut self, store: &mut Store<D>) -> Progress
        // The log that it has made is there and isn't named, also afterwards.
        requires ready { store.old.stopped ≡ false → IsReadyToMake self.old.stage store.old }
        ensures ready { store.new.stopped ≡ false → IsReadyToMake self.new.stage store.new }

        // Of every run that has come to the store, whatever other tasks have pinned: which event it was, what it answered, and which
        // crash images it leaves.
        ensures does { (around after : Around) (pins : ℕ → ℕ) → Steps (IsAtMake self.old.stage) (IsAtMake self.new.stage) around after (request.Make self.old.name) (seen_of pins store.old (D.history store.old.disk) (D.faults store.old.disk)) (seen_of pins store.new (D.history store.new.disk) (D.faults store.new.disk)) self.new.did (ended_by result) }

        // Whatever the disk is: what it leaves of the store and the disk, and what it answers. A store that is stopped replies so, and no
        // other does; it is stopped only by a change of the disk that failed.
        ensures keeps { ChangesOnlyLogs (KeepsAllButLogs store.old store.new) self.old.stage self.new.stage result store.old store.new (D.history store.old.disk) (D.history store.new.disk) (D.faults store.old.disk) (D.faults store.new.disk) }
        ensures replies { store.old.stopped ≡ false → MakeAnswers self.old.name self.old.stage store.old store.new (D.history store.old.disk) (D.history store.new.disk) self.new.stage result }

        // Unless it stops the store, it moves only its own claims, and leaves to other tasks what is theirs. One that was replied claims
        // nothing.
        ensures claims { store.new.stopped ≡ false → MovesOwnClaims (make_claims self.old.stage) (make_claims self.new.stage) result store.old store.new (D.history store.old.disk) (D.history store.new.disk) }

        // So it ends.
        ensures left { result ≡ progress.More → make_left self.new.stage store.new < make_left self.old.stage store.old }
        ensures request { self.new.name ≡ self.old.name }
    {
        known_name(&self.name);
        store.facts();
        store.known_logs();
        if store.stopped() {
            self.did = Did::Quiet;
            return Progress::Done(Reply::Refused(Refusal::Stopped));
        }
        let (next, answer, did) = next_event(store, &self.name, self.stage);
        self.stage = next;
        self.did = did;
        answer
    }
}

/// What is true of every mailbox name.
pub(crate) fn known_name(name: &Name)
    ensures { IsName name.now }
{
    let _ = name.as_octets();
}

/// Does the next event, of a store that isn't stopped: which event is the next then, how the request goes on, and what was done.
fn next_event<D: Disk>(
    store: &mut Store<D>,
    name: &Name,
    now: MakeStage,
) -> (MakeStage, Progress, Did)
    requires running { store.old.stopped ≡ false }
    requires ready { IsReadyToMake now store.old }
    ensures { MakesOn name.now now result.0 result.1 result.2 store.old store.new (D.history store.old.disk) (D.history store.new.disk) (D.faults store.old.disk) (D.faults store.new.disk) }
{
    match now {
        MakeStage::First => match make(store, name) {
            Ok(number) => (MakeStage::Naming(number), Progress::More, Did::Quiet),
            Err(error) => (
                MakeStage::First,
                Progress::Done(Reply::Refused(error.refusal())),
                error.did(Half::Whole, Did::Failed),
            ),
        },
        MakeStage::Naming(number) => match checked(store, name) {
            Ok(()) => name_event(store, name, number),
            Err(why) => remove_event(
                store,
                number,
                Progress::Done(Reply::Refused(why)),
                Did::Step(Half::Whole),
            ),
        },
    }
}

/// Whether a mailbox with this name may be made: none has the name, and there are fewer than 1,024.
fn checked<D: Disk>(store: &Store<D>, name: &Name) -> Result<(), Refusal>
    ensures free { OnOk result (naming_refusal name.now store.now ≡ None) }
    ensures refused { IfErr result (λ why. naming_refusal name.now store.now ≡ Some why) }
{
    if store.list_of(name).is_some() {
        return Err(Refusal::Exists);
    }
    if store.map().boxes() >= MOST_MAILBOXES {
        return Err(Refusal::TooManyMailboxes(u64::from(MOST_MAILBOXES)));
    }
    Ok(())
}

/// Draws a number, and makes the log of its mailbox.
fn make<D: Disk>(store: &mut Store<D>, name: &Name) -> Result<BoxNo, NotDone>
    requires running { store.old.stopped ≡ false }
    ensures made { IfOk result (λ number. MadeLogSo name.now number.0 store.old store.new (D.history store.old.disk) (D.history store.new.disk) (D.faults store.old.disk) (D.faults store.new.disk)) }
    ensures refused { IfErr result (λ error. IsLogNotMade name.now error store.old store.new × FellIfStopped error (D.history store.old.disk) (D.history store.new.disk) (D.faults store.old.disk) (D.faults store.new.disk)) }
{
    store.known_logs();
    checked(store, name)?;
    let Some(number) = store.draw_box() else {
        return Err(NotDone::Refused(Refusal::StoreFull(LAST_BOX)));
    };
    match store.create_box(number) {
        Ok(()) => Ok(number),
        Err(StepError::Stopped) => Err(NotDone::Stopped),
        Err(StepError::NoMemory) => Err(NotDone::NoMemory),
    }
}

/// Behind its checks the second event: names the log, or removes it, if it is out of memory or the number was overtaken.
fn name_event<D: Disk>(
    store: &mut Store<D>,
    name: &Name,
    number: BoxNo,
) -> (MakeStage, Progress, Did)
    requires running { store.old.stopped ≡ false }
    requires ready { has_made_log number.0 store.old ≡ true }
    requires free { naming_refusal name.now store.old ≡ None }
    ensures { MakesOn name.now (stage.Naming number) result.0 result.1 result.2 store.old store.new (D.history store.old.disk) (D.history store.new.disk) (D.faults store.old.disk) (D.faults store.new.disk) }
{
    store.facts();
    store.known_logs();
    if number.0 <= store.map().highest().mailbox {
        return remove_event(store, number, Progress::More, Did::Quiet);
    }
    match store.append_made(number, name) {
        Ok(()) => (
            MakeStage::First,
            Progress::Done(Reply::Done),
            Did::Step(Half::Whole),
        ),
        Err(StepError::Stopped) => (
            MakeStage::Naming(number),
            Progress::Done(Reply::Refused(Refusal::Stopped)),
            Did::Broken(Half::Whole),
        ),
        Err(StepError::NoMemory) => remove_event(
            store,
            number,
            Progress::Done(Reply::Refused(Refusal::NoMemory)),
            Did::Quiet,
        ),
    }
}

/// Removes the log, and then answers this.
fn remove_event<D: Disk>(
    store: &mut Store<D>,
    number: BoxNo,
    answer: Progress,
    did: Did,
) -> (MakeStage, Progress, Did)
    requires running { store.old.stopped ≡ false }
    requires ready { has_made_log number.0 store.old ≡ true }
    ensures { RemovesOr number answer did result.0 result.1 result.2 store.old store.new (D.history store.old.disk) (D.history store.new.disk) (D.faults store.old.disk) (D.faults store.new.disk) }
{
    store.known_logs();
    match store.remove_box(number, 1) {
        Ok(()) => (MakeStage::First, answer, did),
        Err(Stopped) => (
            MakeStage::Naming(number),
            Progress::Done(Reply::Refused(Refusal::Stopped)),
            Did::Failed,
        ),
    }
}
