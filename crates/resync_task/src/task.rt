// The task of a resync.
ghost use Rattle.std.specs.Prelude.{◌≡◌, ◌<◌, ℕ, List, length, false};
ghost use Rattle.mdbox_base.specs.declared.progress.Did.TheVariants as how;
ghost use Rattle.mdbox_base.specs.declared.progress.Progress.TheVariants as progress;
ghost use Rattle.mdbox_base.specs.declared.replies.Reply.TheVariants as reply;
ghost use Rattle.task_claims.specs.Claims.{no_claims};
ghost use Rattle.task_claims.specs.Stable.{MovesOwnClaims};
ghost use Rattle.task_steps.specs.Step.{ended_by};
ghost use Rattle.resync_task.specs.Clause.{ResyncClause, ResyncKeeps};
ghost use Rattle.resync_task.specs.Correcting.{AreExact};
ghost use Rattle.resync_task.specs.Stages.{ToList, ToRead, HasFilesLeft};
ghost use Rattle.resync_task.specs.Task.{ResyncsOn, at_reading, resync_left, stage_of};
ghost use Rattle.resync_task.specs.declared.task.ResyncStage.TheVariants as stage;

use crate::correcting::put_right;
use crate::reading::{Reading, Unread};
use disk_model::Disk;
use mdbox_base::{Did, Half, Progress, Refusal, Reply};
use std::marker::Model;
use std::mem;
use store_core::{StepError, Store};

/// Which event of a resync is the next.
#[derive(Drop)]
pub enum ResyncStage {
    /// The first, which lists the storage files. It is so after the last, too.
    First,
    /// One that reads the next of the listed files, or after them the last, which puts the counts right.
    Reading(Reading),
}

/// The task of a resync: its events, one at a step.
#[derive(Drop)]
pub struct ResyncTask {
    stage: ResyncStage,
    did: Did,
}

impl Model for ResyncTask {
    ghost use Rattle.resync_task.specs.Stages.{HasFilesLeft};
    ghost use Rattle.resync_task.specs.Task.{ResyncValue, stage_of};

    ghost Value = { ResyncValue };

    ghost view = { λ task. record { stage = stage_of task.stage; did = task.did } };

    ghost invariant = { λ task. HasFilesLeft (stage_of task.stage) };
}

impl ResyncTask {
    /// A resync.
    pub fn of() -> ResyncTask
        ensures { result ≡ record { stage = ToList; did = how.Quiet } }
    {
        ResyncTask {
            stage: ResyncStage::First,
            did: Did::Quiet,
        }
    }

    /// What the last event did.
    pub fn did(&self) -> Did
        ensures { result ≡ self.now.did }
    {
        self.did
    }

    /// Does the next event: the first lists the storage files in which records have their regions, and takes the memory for reading;
    /// each one after it reads a file, and counts the regions that aren't a message of their size with their record's GUID; the last
    /// one makes the counts of the map exact, by one entry that names those that are wrong, and replies. A task that has given its
    /// reply begins anew; one that was stopped stays where it was.
    pub fn step<D: Disk>(&mut self, store: &mut Store<D>) -> Progress
        // Of every run that has come to the store, whatever other tasks have pinned: which event it was, what it found and answered,
        // and which crash images it leaves.
        ensures does { ResyncClause self.old.stage self.new.stage store.old store.new (D.history store.old.disk) (D.history store.new.disk) (D.faults store.old.disk) (D.faults store.new.disk) self.new.did (ended_by result) }

        // Whatever the disk is: what the event did and answers. Once it is replied how many counts were put right, each count is what
        // the mailboxes list of the record, and what other tasks hold and owe of it.
        ensures on { store.old.stopped ≡ false → ResyncsOn self.old.stage self.new.stage result self.new.did store.old store.new (D.history store.old.disk) (D.history store.new.disk) (D.faults store.old.disk) (D.faults store.new.disk) }
        ensures exact { (corrected damaged : ℕ) → result ≡ progress.Done (reply.Resynced corrected damaged) → AreExact store.new }

        // What it leaves of the store and the disk. A store that is stopped replies so, and no other does.
        ensures keeps { ResyncKeeps self.old.stage self.new.stage result store.old store.new (D.history store.old.disk) (D.history store.new.disk) (D.faults store.old.disk) (D.faults store.new.disk) }

        // It claims nothing: unless it stops the store, what all tasks claim stays, and it leaves to them what is theirs.
        ensures claims { store.new.stopped ≡ false → MovesOwnClaims no_claims no_claims result store.old store.new (D.history store.old.disk) (D.history store.new.disk) }

        // So it ends.
        ensures left { result ≡ progress.More → resync_left self.new.stage < resync_left self.old.stage }
    {
        store.facts();
        if store.stopped() {
            self.did = Did::Quiet;
            return Progress::Done(Reply::Refused(Refusal::Stopped));
        }
        let now = mem::replace(&mut self.stage, ResyncStage::First);
        let (next, answer, did) = next_event(store, now);
        self.stage = next;
        self.did = did;
        answer
    }
}

/// The next event, of a store that isn't stopped: which one is next then, how the request goes on, and what it did.
fn next_event<D: Disk>(store: &mut Store<D>, now: ResyncStage) -> (ResyncStage, Progress, Did)
    requires { store.old.stopped ≡ false }
    ensures left { HasFilesLeft (stage_of result.0) }
    ensures on { ResyncsOn (stage_of now) (stage_of result.0) result.1 result.2 store.old store.new (D.history store.old.disk) (D.history store.new.disk) (D.faults store.old.disk) (D.faults store.new.disk) }
{
    match now {
        ResyncStage::First => match Reading::of(store) {
            Ok(reading) => (ResyncStage::Reading(reading), Progress::More, Did::Quiet),
            Err(_) => refused(Refusal::NoMemory, Did::Quiet),
        },
        ResyncStage::Reading(reading) => go_on(store, reading),
    }
}

/// An event after the first.
fn go_on<D: Disk>(store: &mut Store<D>, reading: Reading) -> (ResyncStage, Progress, Did)
    requires { store.old.stopped ≡ false }
    ensures left { HasFilesLeft (stage_of result.0) }
    ensures on { ResyncsOn (at_reading reading) (stage_of result.0) result.1 result.2 store.old store.new (D.history store.old.disk) (D.history store.new.disk) (D.faults store.old.disk) (D.faults store.new.disk) }
{
    let mut reading = reading;
    if !reading.has_more() {
        return end(store, reading.damaged());
    }
    match reading.read_next(store) {
        Ok(()) => (ResyncStage::Reading(reading), Progress::More, Did::Quiet),
        Err(Unread::Fault) => refused(Refusal::ReadFault, Did::Quiet),
        Err(Unread::NoMemory) => refused(Refusal::NoMemory, Did::Quiet),
    }
}

/// The last event, of a resync that found so many damaged regions.
fn end<D: Disk>(store: &mut Store<D>, damaged: u64) -> (ResyncStage, Progress, Did)
    requires { store.old.stopped ≡ false }
    ensures left { HasFilesLeft (stage_of result.0) }
    ensures on { (files : List ℕ) → ResyncsOn (ToRead files (length files) damaged) (stage_of result.0) result.1 result.2 store.old store.new (D.history store.old.disk) (D.history store.new.disk) (D.faults store.old.disk) (D.faults store.new.disk) }
{
    match put_right(store) {
        Ok(corrected) => (
            ResyncStage::First,
            Progress::Done(Reply::Resynced { corrected, damaged }),
            Did::Step(Half::Whole),
        ),
        Err(StepError::NoMemory) => refused(Refusal::NoMemory, Did::Quiet),
        Err(StepError::Stopped) => refused(Refusal::Stopped, Did::Broken(Half::Whole)),
    }
}

/// An event that is refused, by which the request ends.
fn refused(why: Refusal, did: Did) -> (ResyncStage, Progress, Did)
    ensures { (result.0 ≡ stage.First) × (result.1 ≡ progress.Done (reply.Refused why)) × (result.2 ≡ did) }
{
    (ResyncStage::First, Progress::Done(Reply::Refused(why)), did)
}
