// The task of a purge.
ghost use Rattle.std.specs.Prelude.{◌≡◌, ◌≢◌, ◌<◌, ◌+◌, length, true, false, Some, None, IfOk};
ghost use Rattle.mdbox_base.specs.Words.{IsOctets};
ghost use Rattle.mdbox_base.specs.declared.progress.Did.TheVariants as did;
ghost use Rattle.mdbox_base.specs.declared.progress.Progress.TheVariants as progress;
ghost use Rattle.store_core.specs.Removing.{useless_past};
ghost use Rattle.purge_task.specs.Claims.{sources_left};
ghost use Rattle.purge_task.specs.Clause.{IsPurgeStep, answer_of, at_stage, came_to, did_of_refusal};
ghost use Rattle.purge_task.specs.Dropped.{DropsCounted, TellsCounts};
ghost use Rattle.purge_task.specs.Keeping.{HasLowCounts, HasPurged, IsBareFirst, IsReadyToPurge, IsTargetFirst, LeavesLess, PurgeValue};
ghost use Rattle.purge_task.specs.Left.{IsFurther, purge_left};
ghost use Rattle.purge_task.specs.Quiet.{KeepsQuiet};
ghost use Rattle.purge_task.specs.SwitchEvent.{answer_of_switch, came_by_switch};
ghost use Rattle.purge_task.specs.Stages.{IsNextStage};
ghost use Rattle.purge_task.specs.declared.task.PurgeStage.TheVariants as stage;

use crate::copy_event::copy_next;
use crate::copying::{has_message, next_wanted};
use crate::first_event::begin;
use crate::switch_event::{SwitchedFile, switch_file};
use crate::taking::make_target;
use crate::work::Work;
use disk_model::Disk;
use mdbox_base::{Did, FileNo, Half, InstId, Progress, Refusal, Reply};
use std::marker::Model;
use std::mem;
use store_core::Store;

/// Which event of a purge is the next.
#[derive(Drop)]
pub enum PurgeStage {
    /// The first, which takes the files that are to be emptied. So it is too behind the last.
    First,
    /// The first of a file: its target is made; or it is switched, where nothing of it is wanted; or it is removed, where no
    /// message lies in it.
    Begin(Work),
    /// The next message of a file is copied; behind the last one the file is switched.
    Copying(Work),
    /// A file that was switched, and has no pin, is removed.
    Removing(Work),
    /// An instance that nobody needs is removed; behind the last one the reply is given.
    Instances,
}

/// What a purge has done so far: how many records it dropped, storage files it doomed or removed, and instances it removed.
#[derive(Clone, Copy, Debug, PartialEq, Eq)]
struct Done {
    dropped: u64,
    files: u64,
    instances: u64,
}

/// The task of a purge: its events, one at a step.
#[derive(Drop)]
pub struct PurgeTask {
    stage: PurgeStage,
    did: Did,
    done: Done,
}

impl Model for PurgeTask {
    ghost use Rattle.purge_task.specs.Keeping.{PurgeValue};

    ghost Value = { PurgeValue };

    ghost view = { λ task. record { stage = task.stage; did = task.did; dropped = task.done.dropped; files = task.done.files; instances = task.done.instances } };
}

impl PurgeTask {
    const NOTHING: Done = Done {
        dropped: 0,
        files: 0,
        instances: 0,
    };

    /// A purge that has done nothing.
    pub fn of() -> PurgeTask
        ensures { result ≡ record { stage = stage.First; did = did.Quiet; dropped = 0; files = 0; instances = 0 } }
    {
        PurgeTask {
            stage: PurgeStage::First,
            did: Did::Quiet,
            done: PurgeTask::NOTHING,
        }
    }

    /// What the last event did.
    pub fn did(&self) -> Did
        ensures { result ≡ self.now.did }
    {
        self.did
    }

    /// Does the next event. A task that has given its reply begins anew; one that was stopped stays where it was.
    pub fn step<D: Disk>(&mut self, store: &mut Store<D>) -> Progress
        // Unless the store is stopped, what it has taken, made and copied so far is so in the store, and on a disk that is modelled,
        // and what it counts fits; and so it is afterwards, if it goes on. Then fewer events are left.
        requires { store.old.stopped ≡ false → IsReadyToPurge self.old store.old (D.history store.old.disk) }
        ensures ready { result ≡ progress.More → store.new.stopped ≡ false → IsReadyToPurge self.new store.new (D.history store.new.disk) }
        ensures left { result ≡ progress.More → purge_left self.new.stage store.new < purge_left self.old.stage store.old }

        // Which event it was, of every run that has come to the store, what it answered, and which crash images it leaves; what it does
        // with claims; and which faults it had. A store that is stopped stays as it is, and so does the task.
        ensures step { IsPurgeStep self.old self.new result store.old store.new (D.history store.old.disk) (D.history store.new.disk) (D.faults store.old.disk) (D.faults store.new.disk) }
        ensures still { store.old.stopped ≡ true → (store.new ≡ store.old) × (self.new ≡ at_stage self.old.stage self.old) }

        // Unless it stops the store, it drops as many records as it counts, and only such as nobody wants; and its reply tells what it
        // has counted.
        ensures drops { DropsCounted self.old self.new store.old store.new }
        ensures counts { TellsCounts self.old self.new result }

        // Beside no other task it does with the files just what a purge is to do.
        ensures quiet { KeepsQuiet self.old self.new result store.old store.new (D.history store.old.disk) (D.history store.new.disk) }
    {
        self.did = Did::Quiet;
        if store.stopped() {
            return Progress::Done(Reply::Refused(Refusal::Stopped));
        }
        self.run(store)
    }

    /// Does the next event of a store that runs.
    fn run<D: Disk>(&mut self, store: &mut Store<D>) -> Progress
        requires running { store.old.stopped ≡ false }
        requires ready { IsReadyToPurge self.old store.old (D.history store.old.disk) }
        requires quiet { self.old.did ≡ did.Quiet }
        ensures step { IsPurgeStep self.old self.new result store.old store.new (D.history store.old.disk) (D.history store.new.disk) (D.faults store.old.disk) (D.faults store.new.disk) }
        ensures quiet { KeepsQuiet self.old self.new result store.old store.new (D.history store.old.disk) (D.history store.new.disk) }
        ensures left { result ≡ progress.More → LeavesLess self.old self.new store.old store.new }
        ensures drops { DropsCounted self.old self.new store.old store.new }
        ensures counts { TellsCounts self.old self.new result }
    {
        match mem::replace(&mut self.stage, PurgeStage::First) {
            PurgeStage::First => self.begin(store),
            PurgeStage::Begin(work) => self.begin_file(store, work),
            PurgeStage::Copying(work) => self.copy_or_switch(store, work),
            PurgeStage::Removing(work) => self.remove_switched(store, work),
            PurgeStage::Instances => self.remove_instance(store),
        }
    }

    /// Goes on to this stage, or replies why the purge is refused.
    fn come_to(&mut self, next: Result<PurgeStage, Refusal>) -> Progress
        requires first { self.old.stage ≡ stage.First }
        requires quiet { self.old.did ≡ did.Quiet }
        ensures task { self.new ≡ came_to next self.old }
        ensures answer { result ≡ answer_of next }
    {
        match next {
            Ok(stage) => {
                self.stage = stage;
                Progress::More
            }
            Err(why) => {
                self.did = did_refused(&why);
                Progress::Done(Reply::Refused(why))
            }
        }
    }

    /// The first event: finds the files, takes the memory, and then takes the files.
    fn begin<D: Disk>(&mut self, store: &mut Store<D>) -> Progress
        requires running { store.old.stopped ≡ false }
        requires first { self.old.stage ≡ stage.First }
        requires quiet { self.old.did ≡ did.Quiet }
        ensures step { IsPurgeStep (at_stage stage.First self.old) self.new result store.old store.new (D.history store.old.disk) (D.history store.new.disk) (D.faults store.old.disk) (D.faults store.new.disk) }
        ensures quiet { KeepsQuiet (at_stage stage.First self.old) self.new result store.old store.new (D.history store.old.disk) (D.history store.new.disk) }
        ensures left { result ≡ progress.More → LeavesLess (at_stage stage.First self.old) self.new store.old store.new }
        ensures drops { DropsCounted (at_stage stage.First self.old) self.new store.old store.new }
        ensures counts { TellsCounts self.old self.new result }
    {
        self.done = PurgeTask::NOTHING;
        let next = begin(store);
        self.come_to(next)
    }

    /// The first event of a file: makes its target; or switches it, where nothing of it is wanted; or removes it, where no message
    /// lies in it.
    fn begin_file<D: Disk>(&mut self, store: &mut Store<D>, work: Work) -> Progress
        requires running { store.old.stopped ≡ false }
        requires ready { HasPurged (stage.Begin work) store.old (D.history store.old.disk) }
        requires low { HasLowCounts (at_stage (stage.Begin work) self.old) store.old }
        requires first { self.old.stage ≡ stage.First }
        requires quiet { self.old.did ≡ did.Quiet }
        ensures step { IsPurgeStep (at_stage (stage.Begin work) self.old) self.new result store.old store.new (D.history store.old.disk) (D.history store.new.disk) (D.faults store.old.disk) (D.faults store.new.disk) }
        ensures quiet { KeepsQuiet (at_stage (stage.Begin work) self.old) self.new result store.old store.new (D.history store.old.disk) (D.history store.new.disk) }
        ensures left { result ≡ progress.More → LeavesLess (at_stage (stage.Begin work) self.old) self.new store.old store.new }
        ensures drops { DropsCounted (at_stage (stage.Begin work) self.old) self.new store.old store.new }
        ensures counts { TellsCounts self.old self.new result }
    {
        let Some(source) = work.present() else {
            unreachable!()
        };
        if let Some(target) = source.target {
            let next = begin_target(store, work, target);
            return self.come_to(next);
        }
        if has_message(store.map(), source.file) {
            let switched = switch_file(store, work);
            self.come_by_switch(switched)
        } else {
            self.done.files += 1;
            let next = remove_bare(store, work);
            self.come_to(next)
        }
    }

    /// Copies the next message, or switches the file.
    fn copy_or_switch<D: Disk>(&mut self, store: &mut Store<D>, work: Work) -> Progress
        requires running { store.old.stopped ≡ false }
        requires ready { HasPurged (stage.Copying work) store.old (D.history store.old.disk) }
        requires low { HasLowCounts (at_stage (stage.Copying work) self.old) store.old }
        requires first { self.old.stage ≡ stage.First }
        requires quiet { self.old.did ≡ did.Quiet }
        ensures step { IsPurgeStep (at_stage (stage.Copying work) self.old) self.new result store.old store.new (D.history store.old.disk) (D.history store.new.disk) (D.faults store.old.disk) (D.faults store.new.disk) }
        ensures quiet { KeepsQuiet (at_stage (stage.Copying work) self.old) self.new result store.old store.new (D.history store.old.disk) (D.history store.new.disk) }
        ensures left { result ≡ progress.More → LeavesLess (at_stage (stage.Copying work) self.old) self.new store.old store.new }
        ensures drops { DropsCounted (at_stage (stage.Copying work) self.old) self.new store.old store.new }
        ensures counts { TellsCounts self.old self.new result }
    {
        let Some(source) = work.present() else {
            unreachable!()
        };
        let Some(target) = source.target else {
            unreachable!()
        };
        store.facts();
        match next_wanted(store.map(), source.file, work.from) {
            Some(row) => {
                let next = copy_next(store, work, target, row);
                self.come_to(next)
            }
            None => {
                let switched = switch_file(store, work);
                self.come_by_switch(switched)
            }
        }
    }

    /// Counts a file that was switched and what was dropped of it, and goes on.
    fn come_by_switch(&mut self, switched: Result<SwitchedFile, Refusal>) -> Progress
        requires first { self.old.stage ≡ stage.First }
        requires quiet { self.old.did ≡ did.Quiet }
        requires dropped { IfOk switched (λ s. self.old.dropped + s.dropped < 18446744073709551616) }
        requires files { self.old.files < 18446744073709551615 }
        ensures task { self.new ≡ came_by_switch switched self.old }
        ensures answer { result ≡ answer_of_switch switched }
    {
        match switched {
            Ok(switched) => {
                self.done.dropped += switched.dropped;
                self.done.files += 1;
                self.stage = switched.next;
                Progress::More
            }
            Err(why) => {
                self.did = did_refused(&why);
                Progress::Done(Reply::Refused(why))
            }
        }
    }

    /// Removes the present file, which was switched.
    fn remove_switched<D: Disk>(&mut self, store: &mut Store<D>, work: Work) -> Progress
        requires running { store.old.stopped ≡ false }
        requires ready { HasPurged (stage.Removing work) store.old (D.history store.old.disk) }
        requires low { HasLowCounts (at_stage (stage.Removing work) self.old) store.old }
        requires first { self.old.stage ≡ stage.First }
        requires quiet { self.old.did ≡ did.Quiet }
        ensures step { IsPurgeStep (at_stage (stage.Removing work) self.old) self.new result store.old store.new (D.history store.old.disk) (D.history store.new.disk) (D.faults store.old.disk) (D.faults store.new.disk) }
        ensures quiet { KeepsQuiet (at_stage (stage.Removing work) self.old) self.new result store.old store.new (D.history store.old.disk) (D.history store.new.disk) }
        ensures left { result ≡ progress.More → LeavesLess (at_stage (stage.Removing work) self.old) self.new store.old store.new }
        ensures drops { DropsCounted (at_stage (stage.Removing work) self.old) self.new store.old store.new }
        ensures counts { TellsCounts self.old self.new result }
    {
        let next = remove_source(store, work);
        self.come_to(next)
    }

    /// Removes the next instance that nobody needs, or gives the reply.
    pub fn remove_instance<D: Disk>(&mut self, store: &mut Store<D>) -> Progress
        requires running { store.old.stopped ≡ false }
        requires low { HasLowCounts (at_stage stage.Instances self.old) store.old }
        requires first { self.old.stage ≡ stage.First }
        requires quiet { self.old.did ≡ did.Quiet }
        ensures step { IsPurgeStep (at_stage stage.Instances self.old) self.new result store.old store.new (D.history store.old.disk) (D.history store.new.disk) (D.faults store.old.disk) (D.faults store.new.disk) }
        ensures quiet { KeepsQuiet (at_stage stage.Instances self.old) self.new result store.old store.new (D.history store.old.disk) (D.history store.new.disk) }
        ensures left { result ≡ progress.More → LeavesLess (at_stage stage.Instances self.old) self.new store.old store.new }
        ensures drops { DropsCounted (at_stage stage.Instances self.old) self.new store.old store.new }
        ensures counts { TellsCounts self.old self.new result }
    {
        store.facts();
        match store.next_useless(None) {
            Some(id) => self.remove_useless(store, id),
            None => {
                self.did = Did::Step(Half::Whole);
                Progress::Done(Reply::Purged {
                    dropped: self.done.dropped,
                    files: self.done.files,
                    instances: self.done.instances,
                })
            }
        }
    }

    /// Removes this instance, which is the next one that nobody needs.
    fn remove_useless<D: Disk>(&mut self, store: &mut Store<D>, id: InstId) -> Progress
        requires running { store.old.stopped ≡ false }
        requires low { HasLowCounts (at_stage stage.Instances self.old) store.old }
        requires first { self.old.stage ≡ stage.First }
        requires quiet { self.old.did ≡ did.Quiet }
        requires useless { useless_past None store.old.map store.old.instances.known ≡ Some id }
        ensures step { IsPurgeStep (at_stage stage.Instances self.old) self.new result store.old store.new (D.history store.old.disk) (D.history store.new.disk) (D.faults store.old.disk) (D.faults store.new.disk) }
        ensures quiet { KeepsQuiet (at_stage stage.Instances self.old) self.new result store.old store.new (D.history store.old.disk) (D.history store.new.disk) }
        ensures left { result ≡ progress.More → LeavesLess (at_stage stage.Instances self.old) self.new store.old store.new }
        ensures drops { DropsCounted (at_stage stage.Instances self.old) self.new store.old store.new }
        ensures counts { TellsCounts self.old self.new result }
    {
        store.facts();
        known_id(id);
        match store.remove_instance(id) {
            Ok(()) => {
                self.done.instances += 1;
                self.stage = PurgeStage::Instances;
                Progress::More
            }
            Err(_) => {
                self.did = Did::Failed;
                Progress::Done(Reply::Refused(Refusal::Stopped))
            }
        }
    }
}

/// An id has 16 octets.
fn known_id(id: InstId)
    ensures long { length id.0 ≡ 16 }
    ensures octets { IsOctets id.0 }
{
    known_octets(&id.0);
}

/// Octets are below 256.
fn known_octets(octets: &[u8])
    ensures { IsOctets octets.now }
{
    let _length = octets.len();
}

/// Removes the present file, which was switched.
pub fn remove_source<D: Disk>(store: &mut Store<D>, work: Work) -> Result<PurgeStage, Refusal>
    requires running { store.old.stopped ≡ false }
    requires ready { HasPurged (stage.Removing work) store.old (D.history store.old.disk) }
    ensures step { (t : PurgeValue) → t.stage ≡ stage.Removing work → IsPurgeStep t (came_to result t) (answer_of result) store.old store.new (D.history store.old.disk) (D.history store.new.disk) (D.faults store.old.disk) (D.faults store.new.disk) }
    ensures quiet { (t : PurgeValue) → t.stage ≡ stage.Removing work → KeepsQuiet t (came_to result t) (answer_of result) store.old store.new (D.history store.old.disk) (D.history store.new.disk) }
    ensures further { IfOk result (IsFurther 0 (stage.Removing work)) }
    ensures begun { IfOk result (λ next. next ≢ stage.First) }
    ensures map { store.new.map ≡ store.old.map }
{
    store.facts();
    let mut work = work;
    let Some(source) = work.present() else {
        unreachable!()
    };
    match store.remove_file(source.file) {
        Ok(()) => {
            work.go_on();
            Ok(goes_on(work))
        }
        Err(_) => Err(Refusal::Stopped),
    }
}

/// Makes the target of the present file.
fn begin_target<D: Disk>(
    store: &mut Store<D>,
    work: Work,
    target: FileNo,
) -> Result<PurgeStage, Refusal>
    requires running { store.old.stopped ≡ false }
    requires ready { HasPurged (stage.Begin work) store.old (D.history store.old.disk) }
    requires target { IsTargetFirst (sources_left work) target }
    ensures step { (t : PurgeValue) → t.stage ≡ stage.Begin work → IsPurgeStep t (came_to result t) (answer_of result) store.old store.new (D.history store.old.disk) (D.history store.new.disk) (D.faults store.old.disk) (D.faults store.new.disk) }
    ensures quiet { (t : PurgeValue) → t.stage ≡ stage.Begin work → KeepsQuiet t (came_to result t) (answer_of result) store.old store.new (D.history store.old.disk) (D.history store.new.disk) }
    ensures further { IfOk result (IsFurther 0 (stage.Begin work)) }
    ensures begun { IfOk result (λ next. next ≢ stage.First) }
    ensures map { store.new.map ≡ store.old.map }
{
    store.facts();
    match make_target(store, target) {
        Ok(()) => Ok(PurgeStage::Copying(work)),
        Err(_) => Err(Refusal::Stopped),
    }
}

/// Removes the present file, which was taken and in which no message lies.
fn remove_bare<D: Disk>(store: &mut Store<D>, work: Work) -> Result<PurgeStage, Refusal>
    requires running { store.old.stopped ≡ false }
    requires ready { HasPurged (stage.Begin work) store.old (D.history store.old.disk) }
    requires bare { IsBareFirst (sources_left work) store.old.map }
    ensures step { (t : PurgeValue) → t.stage ≡ stage.Begin work → IsPurgeStep t (came_to result (record t { files = t.files + 1 })) (answer_of result) store.old store.new (D.history store.old.disk) (D.history store.new.disk) (D.faults store.old.disk) (D.faults store.new.disk) }
    ensures quiet { (t : PurgeValue) → t.stage ≡ stage.Begin work → KeepsQuiet t (came_to result (record t { files = t.files + 1 })) (answer_of result) store.old store.new (D.history store.old.disk) (D.history store.new.disk) }
    ensures further { IfOk result (IsFurther 1 (stage.Begin work)) }
    ensures begun { IfOk result (λ next. next ≢ stage.First) }
    ensures map { store.new.map ≡ store.old.map }
{
    store.facts();
    let mut work = work;
    let Some(source) = work.present() else {
        unreachable!()
    };
    match store.remove_file(source.file) {
        Ok(()) => {
            work.go_on();
            Ok(goes_on(work))
        }
        Err(_) => Err(Refusal::Stopped),
    }
}

/// The stage behind a file: the next one's, or that of instances.
pub fn goes_on(work: Work) -> PurgeStage
    ensures { IsNextStage work result }
{
    if work.present().is_some() {
        PurgeStage::Begin(work)
    } else {
        PurgeStage::Instances
    }
}

/// What an event did by which the purge was refused. A refusal for want of numbers is a step.
pub fn did_refused(why: &Refusal) -> Did
    ensures { result ≡ did_of_refusal why.now }
{
    match why {
        Refusal::NoMemory | Refusal::ReadFault => Did::Quiet,
        Refusal::Stopped => Did::Failed,
        _ => Did::Step(Half::Whole),
    }
}
