// One turn under a lock with two seats.
ghost use Rattle.std.specs.Prelude.{◌≡◌, false, ℕ, List};
ghost use Rattle.turn_lock.specs.Seats.{IsFreeSeat, StaysUnder};

use crate::wrong::{Wrong, must};
use mdbox_base::Seq;
use std::alloc::Global;
use std::sync::Wait;
use turn_lock::{Charter, LockRefused, TurnLock, TurnSeat, close_lock, make_lock};

/// A world that is nothing but its trace.
#[derive(Drop)]
struct Turns {
    taken: Vec<u64>,
}

impl Charter for Turns {
    type Terms = ();

    ghost charter = { λ _. tt };

    ghost trace = { λ turns. turns.taken.items };

    ghost finished = { λ _. false };
}

/// The first of two seats takes a turn; the world that comes out of the lock has it in its trace.
pub fn one_turn<R: Wait>(rt: &R, alloc: Global) -> Result<(), Wrong> {
    let world = Turns {
        taken: Vec::new(alloc),
    };
    match make_lock(alloc, world, 2) {
        Ok((lock, seats)) => {
            let mut seats = seats.into_vec();
            take_turn(rt, &lock, &mut seats[0]);
            let world = close_lock(lock, Seq::of(seats));
            must(
                world.taken.as_slice() == [7].as_slice(),
                "the trace of a turn",
            )
        }
        Err(LockRefused { world: _world }) => Err(Wrong::NoMemory),
    }
}

/// Takes a turn, whose number is 7.
fn take_turn<R: Wait>(rt: &R, lock: &TurnLock<Turns>, seat: &mut TurnSeat<Turns>)
    requires free { IsFreeSeat lock.now seat.old }
    ensures free { IsFreeSeat lock.now seat.new }
    ensures same { StaysUnder seat.old seat.new }
{
    let mut world = lock.take(rt, seat);
    let _full = world.taken.push(7);
    lock.give(seat, world);
}
