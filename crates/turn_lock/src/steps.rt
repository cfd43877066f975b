// The rule of a lock's table, and what each step on it tells: types for proofs alone.
use crate::charter::Charter;
use crate::place::Place;
use atomic_table::{Join, Play, Split, TableRule};
use std::marker::PhantomData;
use std::snapshot::Snapshot;

/// The rule of a lock that was made with this world.
pub struct InTurns<W> {
    marker: PhantomData<W>,
}

impl<W: Charter> TableRule<Option<W>, Place<W::Terms>, Snapshot<W>> for InTurns<W> {
    ghost use Rattle.turn_lock.specs.LockRule.{IsInTurns, first_seat};

    ghost holds = { λ first. IsInTurns (record { charter = W.charter; trace = W.trace; finished = W.finished }) first.value };

    ghost first = { λ first. first_seat (record { charter = W.charter; trace = W.trace; finished = W.finished }) first.value };
}

/// A seat draws a ticket.
pub struct Draw;

impl<S, C> Play<S, Place<C>> for Draw {
    ghost use Rattle.turn_lock.specs.LockSteps.{draws_ticket};

    ghost then = { draws_ticket };
}

/// A seat with a ticket looks whether its turn has come.
pub struct Look<W> {
    marker: PhantomData<W>,
}

impl<W: Charter> Play<Option<W>, Place<W::Terms>> for Look<W> {
    ghost use Rattle.turn_lock.specs.LockSteps.{looks_for_turn};

    ghost then = { looks_for_turn (record { charter = W.charter; trace = W.trace; finished = W.finished }) };
}

/// A seat that has the turn goes on with another: the slot goes home, and is taken again.
pub struct GoOn<W> {
    marker: PhantomData<W>,
}

impl<W: Charter> Play<Option<W>, Place<W::Terms>> for GoOn<W> {
    ghost use Rattle.turn_lock.specs.LockSteps.{goes_on};

    ghost then = { goes_on (record { charter = W.charter; trace = W.trace; finished = W.finished }) };
}

/// A seat ends its turn.
pub struct End<W> {
    marker: PhantomData<W>,
}

impl<W: Charter> Play<Option<W>, Place<W::Terms>> for End<W> {
    ghost use Rattle.turn_lock.specs.LockSteps.{ends_turn};

    ghost then = { ends_turn (record { charter = W.charter; trace = W.trace; finished = W.finished }) };
}

/// A seat changes the word that the next one sleeps on.
pub struct Call;

impl<S, C> Play<S, Place<C>> for Call {
    ghost use Rattle.turn_lock.specs.LockSteps.{calls_next};

    ghost then = { calls_next };
}

/// A seat is split: the new one has one of its parts.
pub struct OnePart;

impl<C> Split<Place<C>> for OnePart {
    ghost use Rattle.turn_lock.specs.LockSteps.{one_part_less, one_part};

    ghost left = { one_part_less };

    ghost right = { one_part };
}

/// A seat is joined to another, which has its parts and is told what it had seen.
pub struct Joined;

impl<C> Join<Place<C>> for Joined {
    ghost use Rattle.turn_lock.specs.LockSteps.{joined};
    ghost use Rattle.turn_lock.specs.declared.place.Place.TheVariants.{Spent};

    ghost both = { joined };

    ghost spent = { Spent };
}
