// The task of a fetch.
ghost use Rattle.std.specs.Prelude.{◌≡◌, ◌<◌, false, ℕ, All, Some};
ghost use Rattle.disk_model.specs.Disk.{IsIdle};
ghost use Rattle.disk_model.specs.FaultCounts.{NoFault};
ghost use Rattle.journal.specs.Events.{Around};
ghost use Rattle.mdbox_base.specs.declared.progress.Did.TheVariants as did;
ghost use Rattle.mdbox_base.specs.declared.progress.Progress.TheVariants as progress;
ghost use Rattle.storage_files.specs.Files.{end_in};
ghost use Rattle.task_claims.specs.Claims.{MovesClaims, no_claims};
ghost use Rattle.task_claims.specs.Leaving.{LeavesOthers};
ghost use Rattle.task_claims.specs.Stable.{MovesOwnClaims};
ghost use Rattle.task_steps.specs.Step.{ended_by};
ghost use Rattle.mail_fetch.specs.Claims.{HasClaimed, HasFetchRoom, HasUseRoom, IsReadyToFetch, claims_of_pinned, fetch_claims, used_by, without_claims};
ghost use Rattle.mail_fetch.specs.Clause.{FetchSteps, FetchesAlone};
ghost use Rattle.mail_fetch.specs.Failed.{HasFailedRead};
ghost use Rattle.mail_fetch.specs.Events.{IsBegun, IsPieceRead, IsUnpinned, NoChangeFault};
ghost use Rattle.mail_fetch.specs.Parts.{KnowsSource};
ghost use Rattle.mail_fetch.specs.Region.{RegionValue};
ghost use Rattle.mail_fetch.specs.Task.{HasPieceLeft, events_left, fetch_did};
ghost use Rattle.mail_fetch.specs.declared.task.FetchStage.TheVariants as stage;

use crate::claim::{claim, give_back};
use crate::first::find_message;
use crate::parts::StoredAt;
use crate::region::Region;
use disk_model::Disk;
use mdbox_base::{Did, FileNo, Half, Name, Progress, Refusal, Reply, Uid};
use std::marker::Model;
use std::mem;
use store_core::Store;

/// Which event of a fetch is the next.
#[derive(Drop)]
pub enum FetchStage {
    /// The first, which pins. So it is too behind the last.
    First,
    /// One that reads a piece of the region, or of an instance.
    Reading(Region),
    /// One that unpins. It gives this reply, unless the file is doomed and this was its last pin.
    Unpinning { from: StoredAt, reply: Reply },
    /// The one after it then, which removes the file and gives this reply.
    Removing { file: FileNo, reply: Reply },
}

/// The task of a fetch: its events, one at a step.
#[derive(Drop)]
pub struct FetchTask {
    name: Name,
    uid: Uid,
    stage: FetchStage,
    did: Did,
}

impl Model for FetchTask {
    ghost use Rattle.mail_fetch.specs.Task.{FetchValue, HasPieceLeft};

    ghost Value = { FetchValue };

    ghost view = { λ task. record { name = task.name; uid = task.uid; stage = task.stage; did = task.did } };

    ghost invariant = { λ task. HasPieceLeft task.stage };
}

impl FetchTask {
    /// The fetch of the message with this UID.
    pub fn of(name: Name, uid: Uid) -> FetchTask
        ensures { result ≡ record { name = name; uid = uid; stage = stage.First; did = did.Quiet } }
    {
        FetchTask {
            name,
            uid,
            stage: FetchStage::First,
            did: Did::Quiet,
        }
    }

    /// What the last event did.
    pub fn did(&self) -> Did
        ensures { result ≡ self.now.did }
    {
        self.did
    }

    /// Does the next event: the first one finds the message, takes the memory for it, pins its storage file and holds its instances;
    /// each one after it reads a piece, and another one gives back the pin and the holds. That is the last, and gives the reply, unless
    /// a purge has doomed the file and no pin of it is left: then one more removes the file, and gives the reply. A task that has given
    /// its reply begins anew; one that was stopped stays where it was.
    pub fn step<D: Disk>(&mut self, store: &mut Store<D>) -> Progress
        requires ready { store.old.stopped ≡ false → IsReadyToFetch self.old.stage store.old }
        requires room { store.old.stopped ≡ false → HasFetchRoom self.old.stage store.old }
        // Of every run that has come to the store, and of lists for which its files are safe: which event it was, what it
        // answered, and what a crash may leave.
        ensures does { (around after : Around) → FetchSteps around after self.old.name self.old.uid self.old.stage self.new.stage store.old store.new (D.history store.old.disk) (D.history store.new.disk) (D.faults store.old.disk) (D.faults store.new.disk) self.new.did (ended_by result) }

        // Unless it stops the store, it moves only its own claims, and leaves to other tasks what is theirs. One that was replied claims
        // nothing.
        ensures claims { store.new.stopped ≡ false → MovesOwnClaims (fetch_claims self.old.stage) (fetch_claims self.new.stage) result store.old store.new (D.history store.old.disk) (D.history store.new.disk) }

        // So it ends.
        ensures left { result ≡ progress.More → events_left self.new.stage < events_left self.old.stage }
        ensures request { (self.new.name ≡ self.old.name) × (self.new.uid ≡ self.old.uid) }

        // Over every disk: what was read and is replied, and what became of the store.
        ensures alone { FetchesAlone self.old.name self.old.uid.0 self.old.stage self.new.stage self.new.did result store.old store.new (D.history store.old.disk) (D.history store.new.disk) (D.faults store.old.disk) (D.faults store.new.disk) }
    {
        store.facts();
        if store.stopped() {
            self.did = Did::Quiet;
            return Progress::Done(Reply::Refused(Refusal::Stopped));
        }
        match mem::replace(&mut self.stage, FetchStage::First) {
            FetchStage::First => {
                let (next, answer) = begin(store, &self.name, self.uid);
                self.stage = next;
                self.did = did_begin(&answer);
                answer
            }
            FetchStage::Reading(region) => {
                self.stage = read_piece(store, region);
                self.did = Did::Quiet;
                Progress::More
            }
            FetchStage::Unpinning { from, reply } => {
                let (next, answer) = unpin(store, from, reply);
                self.stage = next;
                self.did = Did::Quiet;
                answer
            }
            FetchStage::Removing { file, reply } => match store.remove_file(file) {
                Ok(()) => {
                    self.did = Did::Quiet;
                    Progress::Done(reply)
                }
                Err(_stopped) => {
                    self.stage = FetchStage::Removing { file, reply };
                    self.did = Did::Failed;
                    Progress::Done(Reply::Refused(Refusal::Stopped))
                }
            },
        }
    }
}

/// The first event, of a store that isn't stopped: which event is next, and how the request goes on.
fn begin<D: Disk>(store: &mut Store<D>, name: &Name, uid: Uid) -> (FetchStage, Progress)
    requires running { store.old.stopped ≡ false }
    requires room { HasUseRoom store.old }
    ensures begun { IsBegun name.now uid.0 store.old result.0 result.1 }
    ensures there { (region : RegionValue) → result.0 ≡ stage.Reading region → (end : ℕ) × (end_in region.from.file.0 store.old.files.files ≡ Some end) }
    ensures same { store.new ≡ used_by stage.First result.0 store.old }
    ensures claims { MovesClaims no_claims (fetch_claims result.0) store.old store.new }
    ensures leaves { LeavesOthers no_claims store.old store.new (D.history store.old.disk) (D.history store.new.disk) }
    ensures ready { IsReadyToFetch result.0 store.new }
    ensures left { HasPieceLeft result.0 }
    ensures fewer { result.1 ≡ progress.More → events_left result.0 < events_left stage.First }
{
    store.facts();
    match find_message(store, name, uid) {
        Ok(region) => {
            claim(store, region.from());
            (FetchStage::Reading(region), Progress::More)
        }
        Err(why) => (FetchStage::First, Progress::Done(Reply::Refused(why))),
    }
}

/// What the first event did. A refusal is a step, unless the store is stopped or there is no memory.
fn did_begin(answer: &Progress) -> Did
    ensures { result ≡ fetch_did stage.First answer.now }
{
    match answer {
        Progress::Done(
            Reply::Refused(
                Refusal::NoMemory | Refusal::ReadFault | Refusal::Stopped | Refusal::Damaged { .. },
            ),
        ) => Did::Quiet,
        Progress::Done(Reply::Refused(_)) | Progress::More => Did::Step(Half::Whole),
        Progress::Done(_) => Did::Quiet,
    }
}

/// Reads the next piece of a message, and answers which event is next.
fn read_piece<D: Disk>(store: &mut Store<D>, region: Region) -> FetchStage
    requires left { HasPieceLeft (stage.Reading region) }
    requires known { All (λ part. KnowsSource store.old.instances.known part.source) region.left }
    ensures read { IsPieceRead region result (D.history store.old.disk) (D.faults store.old.disk) (D.faults store.new.disk) }
    ensures left { HasPieceLeft result }
    ensures ready { IsReadyToFetch (stage.Reading region) store.old → IsReadyToFetch result store.new }
    ensures fewer { events_left result < events_left (stage.Reading region) }
    ensures same { store.new ≡ record store.old { disk = store.new.disk } }
    ensures idle { IsIdle (D.history store.old.disk) (D.history store.new.disk) }
    ensures fault { NoChangeFault (D.faults store.old.disk) (D.faults store.new.disk) }
    ensures unfailed { (HasFailedRead result → ⊥) → NoFault (D.faults store.old.disk) (D.faults store.new.disk) }
{
    let mut region = region;
    match region.read_next(store) {
        Ok(()) if region.is_read() => {
            let (from, reply) = region.into_reply();
            FetchStage::Unpinning { from, reply }
        }
        Ok(()) => FetchStage::Reading(region),
        Err(_fault) => FetchStage::Unpinning {
            from: region.into_from(),
            reply: Reply::Refused(Refusal::ReadFault),
        },
    }
}

/// Gives back the pin and the holds. The request goes on if the file is to be removed now; else the reply is given.
fn unpin<D: Disk>(store: &mut Store<D>, from: StoredAt, reply: Reply) -> (FetchStage, Progress)
    requires claimed { HasClaimed from store.old }
    ensures unpinned { IsUnpinned from reply result.0 result.1 store.old }
    ensures same { store.new ≡ without_claims from store.old }
    ensures claims { MovesClaims (claims_of_pinned from) (fetch_claims result.0) store.old store.new }
    ensures leaves { LeavesOthers (claims_of_pinned from) store.old store.new (D.history store.old.disk) (D.history store.new.disk) }
    ensures ready { IsReadyToFetch result.0 store.new }
{
    if give_back(store, &from) {
        let file = from.file;
        (FetchStage::Removing { file, reply }, Progress::More)
    } else {
        (FetchStage::First, Progress::Done(reply))
    }
}
