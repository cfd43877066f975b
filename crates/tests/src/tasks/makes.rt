// Two makes over one store, whose events take turns.
use crate::tasks::race::Turn;
use disk_model::Disk;
use mail_ops::MakeTask;
use mdbox_base::{Name, Progress};
use std::marker::Model;
use store_core::Store;

/// Two makes and the store that they work on.
pub struct Makes<D: Disk> {
    one: MakeTask,
    two: MakeTask,
    store: Store<D>,
}

impl<D: Disk> Model for Makes<D> {
    ghost use Rattle.store_core.specs.Value.{StoreValue};
    ghost use Rattle.std.specs.Prelude.{◌≡◌, false};
    ghost use Rattle.tests.specs.Makes.{AreReadyMakes};

    ghost Value = { StoreValue D };

    ghost view = { λ makes. makes.store };

    ghost invariant = { λ makes. makes.store.stopped ≡ false → AreReadyMakes makes.one.stage makes.two.stage makes.store };
}

impl<D: Disk> Makes<D> {
    /// Makes of mailboxes with these names.
    pub fn of(one: Name, two: Name, store: Store<D>) -> Makes<D> {
        Makes {
            one: MakeTask::of(one),
            two: MakeTask::of(two),
            store,
        }
    }

    /// Does the next event of one of them.
    pub fn turn(&mut self, turn: Turn) -> Progress {
        match turn {
            Turn::One => self.one.step(&mut self.store),
            Turn::Two => self.two.step(&mut self.store),
        }
    }

    pub fn store(&self) -> &Store<D> {
        &self.store
    }

    /// Ends the makes.
    pub fn into_disk(self) -> D {
        let Makes {
            one: _one,
            two: _two,
            store,
        } = self;
        store.into_disk()
    }
}
