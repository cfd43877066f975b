// A lock and its seats.
ghost use Rattle.std.specs.Prelude.{◌≡◌};

use crate::charter::Charter;
use crate::patience::Patience;
use crate::place::Place;
use crate::steps::InTurns;
use atomic_table::{Seat, Table};
use std::alloc::Global;
use std::snapshot::Snapshot;

/// A lock round a world.
pub struct TurnLock<W: Charter> {
    pub(crate) table: Table<Option<W>, Place<W::Terms>, Snapshot<W>, InTurns<W>, Global>,
    ghost sized: { (table.shared.table_id.words ≡ 66) × (table.shared.table_id.slots ≡ 1) },
}

/// A right to take turns.
#[derive(Drop)]
pub struct TurnSeat<W: Charter> {
    pub(crate) seat: Seat<Option<W>, Place<W::Terms>>,
    pub(crate) patience: Patience,
    /// How many turns more it may have with its ticket.
    pub(crate) more: u32,
}

/// There was no memory for a lock.
pub struct LockRefused<W> {
    pub world: W,
}
