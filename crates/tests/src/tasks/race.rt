// Two tasks over one store, whose events take turns.
ghost use Rattle.std.specs.Prelude.{◌≡◌, false, true};
ghost use Rattle.task_claims.specs.Stable.{MovesOwnClaims};
ghost use Rattle.tests.specs.Tasks.{racer_claims, IsReadyRacer, HasNotStarted};

use disk_model::Disk;
use mail_ops::{CopyTask, ExpungeTask, MoveTask};
use mdbox_base::{Name, Progress, Uid};
use std::marker::Model;
use store_core::Store;

/// A task of a request that has several events.
#[derive(Drop)]
pub enum AnyTask {
    Copy(CopyTask),
    Move(MoveTask),
    Expunge(ExpungeTask),
}

impl AnyTask {
    pub fn copy(name: Name, uid: u32, target: Name) -> AnyTask
        ensures { HasNotStarted result }
    {
        AnyTask::Copy(CopyTask::of(name, Uid(uid), target))
    }

    pub fn moving(name: Name, uid: u32, target: Name) -> AnyTask
        ensures { HasNotStarted result }
    {
        AnyTask::Move(MoveTask::of(name, Uid(uid), target))
    }

    pub fn expunge(name: Name, uid: u32) -> AnyTask
        ensures { HasNotStarted result }
    {
        AnyTask::Expunge(ExpungeTask::of(name, Uid(uid)))
    }

    /// Does the next event.
    fn step<D: Disk>(&mut self, store: &mut Store<D>) -> Progress
        requires ready { store.old.stopped ≡ false → IsReadyRacer self.old store.old }
        ensures ready { store.new.stopped ≡ false → IsReadyRacer self.new store.new }
        ensures still { store.old.stopped ≡ true → store.new.stopped ≡ true }
        ensures claims { store.new.stopped ≡ false → MovesOwnClaims (racer_claims self.old) (racer_claims self.new) result store.old store.new (D.history store.old.disk) (D.history store.new.disk) }
    {
        match self {
            AnyTask::Copy(task) => task.step(store),
            AnyTask::Move(task) => task.step(store),
            AnyTask::Expunge(task) => task.step(store),
        }
    }

    /// Lets go of it.
    fn end(self) {}
}

/// Two tasks and the store that they work on.
pub struct Race<D: Disk> {
    one: AnyTask,
    two: AnyTask,
    store: Store<D>,
}

impl<D: Disk> Model for Race<D> {
    ghost use Rattle.store_core.specs.Value.{StoreValue};
    ghost use Rattle.std.specs.Prelude.{◌≡◌, false};
    ghost use Rattle.tests.specs.Tasks.{AreReadyTasks};

    ghost Value = { StoreValue D };

    ghost view = { λ race. race.store };

    ghost invariant = { λ race. race.store.stopped ≡ false → AreReadyTasks race.one race.two race.store };
}

/// Whose event is the next.
#[derive(Clone, Copy, Debug, PartialEq, Eq)]
pub enum Turn {
    One,
    Two,
}

impl<D: Disk> Race<D> {
    pub fn of(one: AnyTask, two: AnyTask, store: Store<D>) -> Race<D>
        requires one { HasNotStarted one }
        requires two { HasNotStarted two }
    {
        Race { one, two, store }
    }

    /// Does the next event of one of them.
    pub fn turn(&mut self, turn: Turn) -> Progress {
        match turn {
            Turn::One => self.one.step(&mut self.store),
            Turn::Two => self.two.step(&mut self.store),
        }
    }

    pub fn store(&self) -> &Store<D> {
        &self.store
    }

    /// Ends the race.
    pub fn into_disk(self) -> D {
        let Race { one, two, store } = self;
        one.end();
        two.end();
        store.into_disk()
    }
}
