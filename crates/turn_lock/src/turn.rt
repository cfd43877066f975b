// How a seat takes its turn, and gives it back.
ghost use Rattle.std.specs.Prelude.{◌≡◌, ◌<◌, ◌≤◌, ◌+◌};
ghost use Rattle.turn_lock.specs.LockRule.{StartsWith};
ghost use Rattle.turn_lock.specs.Seats.{IsAtWork, IsFreeSeat, IsOneTurnAtMost, IsUnder, StaysUnder, found_by, more_turns, seen_by};

use crate::charter::Charter;
use crate::lock::{TurnLock, TurnSeat};
use crate::steps::{Call, Draw, End, GoOn, Look};
use std::hint::spin_loop;
use std::sync::Wait;

/// The word that counts tickets.
const DRAWN: usize = 0;

/// The word that counts the tickets that are done, and so is the ticket whose turn it is.
const ENDED: usize = 1;

/// The first of the words that seats sleep on. There are as many as there may be seats, so no two that wait have the same.
const SLEEPS: usize = 2;

/// How many tickets before its own a seat's turn is near.
const NEAR: u64 = 1;

/// How many tickets before its own a seat is woken.
const AHEAD: u64 = 2;

/// How many turns a seat may have with a ticket after the first, before the seat with the next ticket has one.
const MORE: u32 = 7;

/// The slot of the world.
const WORLD: usize = 0;

impl<W: Charter> TurnLock<W> {
    /// Waits for the seat's turn, and takes the world.
    pub fn take<R: Wait>(&self, rt: &R, seat: &mut TurnSeat<W>) -> W
        requires free { IsFreeSeat self.now seat.old }
        ensures turn { IsAtWork self.now seat.new × (found_by seat.new ≡ W.trace result) }
        ensures charter { IsUnder (W.charter result) (W.finished result) seat.old }
        ensures trace { StartsWith (W.trace result) (seen_by seat.old) }
        ensures more { more_turns seat.new ≡ 7 }
        ensures same { StaysUnder seat.old seat.new }
    {
        let table = &self.table.shared;
        let ticket = table.fetch_add::<Draw>(&mut seat.seat, DRAWN, 1);
        let sleeps = sleeping_word(ticket);
        let mut looks = seat.patience.looks();
        let mut seen = ticket;
        for _ in rt.forever() {
            let calls = table.peek(sleeps);
            let ended = table.load::<Look<W>>(&mut seat.seat, ENDED);
            if ended == ticket {
                seat.patience.learn(looks);
                seat.more = MORE;
                let Some(world) = table.exchange(&mut seat.seat, WORLD, None) else {
                    unreachable!()
                };
                return world;
            }
            if ended != seen {
                seen = ended;
                looks = seat.patience.looks();
            }
            if looks > 0 && ticket.wrapping_sub(ended) <= NEAR {
                looks -= 1;
                spin_loop();
            } else {
                table.park(rt, sleeps, (calls & 0xffff_ffff) as u32);
            }
        }
        unreachable!()
    }

    /// Ends a turn, and takes the world for another with the same ticket.
    pub fn go_on(&self, seat: &mut TurnSeat<W>, world: W) -> W
        requires turn { IsAtWork self.now seat.old }
        requires more { 0 < more_turns seat.old }
        requires charter { IsUnder (W.charter world) (W.finished world) seat.old }
        requires trace { IsOneTurnAtMost (found_by seat.old) (W.trace world) }
        ensures turn { IsAtWork self.now seat.new × (found_by seat.new ≡ W.trace result) }
        ensures world { result ≡ world }
        ensures seen { seen_by seat.new ≡ W.trace world }
        ensures more { more_turns seat.new + 1 ≡ more_turns seat.old }
        ensures same { StaysUnder seat.old seat.new }
    {
        let table = &self.table.shared;
        match table.exchange(&mut seat.seat, WORLD, Some(world)) {
            None => {}
            Some(_) => unreachable!(),
        }
        table.load::<GoOn<W>>(&mut seat.seat, ENDED);
        seat.more -= 1;
        let Some(world) = table.exchange(&mut seat.seat, WORLD, None) else {
            unreachable!()
        };
        world
    }

    /// Gives the world back, and ends the turn and the ticket.
    pub fn give(&self, seat: &mut TurnSeat<W>, world: W)
        requires turn { IsAtWork self.now seat.old }
        requires charter { IsUnder (W.charter world) (W.finished world) seat.old }
        requires trace { IsOneTurnAtMost (found_by seat.old) (W.trace world) }
        ensures free { IsFreeSeat self.now seat.new }
        ensures seen { seen_by seat.new ≡ W.trace world }
        ensures same { StaysUnder seat.old seat.new }
    {
        let table = &self.table.shared;
        match table.exchange(&mut seat.seat, WORLD, Some(world)) {
            None => {}
            Some(_) => unreachable!(),
        }
        let ticket = table.fetch_add::<End<W>>(&mut seat.seat, ENDED, 1);
        self.call_on(seat, ticket);
    }

    /// Wakes the seat that has the turn after this one. Unless the caller rests it wakes one more, so that it is awake by its turn.
    fn call_on(&self, seat: &mut TurnSeat<W>, ended: u64)
        requires { seat.old.seat.table_id ≡ self.now.table.shared.table_id }
        ensures { (seat.new.seat.table_id ≡ seat.old.seat.table_id) × (seat.new.seat.me ≡ seat.old.seat.me) }
    {
        self.call(seat, ended.wrapping_add(1));
        if seat.patience.looks() > 0 {
            self.call(seat, ended.wrapping_add(AHEAD));
        }
    }

    /// Wakes the seat with this ticket if it sleeps.
    fn call(&self, seat: &mut TurnSeat<W>, ticket: u64)
        requires { seat.old.seat.table_id ≡ self.now.table.shared.table_id }
        ensures { (seat.new.seat.table_id ≡ seat.old.seat.table_id) × (seat.new.seat.me ≡ seat.old.seat.me) }
    {
        let table = &self.table.shared;
        let sleeps = sleeping_word(ticket);
        table.fetch_add::<Call>(&mut seat.seat, sleeps, 1);
        table.wake_one(sleeps);
    }
}

/// The word that a seat with this ticket sleeps on.
fn sleeping_word(ticket: u64) -> usize
    ensures { (2 ≤ result) × (result < 66) }
{
    SLEEPS + (ticket % 64) as usize
}

impl<W: Charter> TurnSeat<W> {
    /// How many turns more a seat that has one may have, before the seat with the next ticket has one.
    pub fn more(&self) -> u32
        ensures { result ≡ more_turns self.now }
    {
        self.more
    }
}
