// A list of changes that only clauses read.
ghost use Rattle.std.specs.Prelude.{◌≡◌, ℕ, List, [], ◌∷◌};
ghost use Rattle.std.specs.Borrow.{ftrue};
ghost use Rattle.disk_record.specs.declared.change.Change.{Change};

use crate::Change;
use std::marker::{Model, PhantomData};

/// What each call of a disk has changed, the latest first, and the octets that it wrote. No memory holds it, so it takes none
/// and its methods do nothing when they run.
#[derive(Drop)]
pub struct Record {
    marker: PhantomData<u8>,
    pub ghost changes: { List (Change × List ℕ) },
}

impl Model for Record {
    ghost also_owns = { λ _. ftrue };
}

impl Record {
    pub fn new() -> Record
        ensures { result.changes ≡ [] }
    {
        Record {
            marker: PhantomData,
        }
    }

    /// Puts a change before those that came earlier.
    pub fn note(&mut self, _change: &Change, _octets: &[u8])
        ensures { self.new.changes ≡ (_change.now, _octets.now) ∷ self.old.changes }
    {}
}
