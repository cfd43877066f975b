// Where a seat stands. No value of these types is made, so no number in them wraps.
use std::collections::LinkedList;

/// What a seat knows of the lock's world.
pub struct Known<C> {
    pub charter: C,
    pub finished: bool,
    /// How many of the lock's 64 parts the seat has: a seat with one may draw a ticket, one with all may close the lock.
    pub parts: u64,
    /// The world's trace as the seat last gave it back.
    pub seen: LinkedList<u64>,
    /// What each seat that was joined to this one had seen.
    pub told: LinkedList<LinkedList<u64>>,
}

/// Where a seat stands.
pub enum Place<C> {
    /// It was joined to another.
    Spent,
    Free(Known<C>),
    /// It has this ticket.
    Waits(Known<C>, u64),
    /// It has this ticket and the turn, and found a world with this trace.
    HasTurn(Known<C>, u64, LinkedList<u64>),
}
