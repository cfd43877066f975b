// Turns of lanes.
use std::marker::Model;

/// What a turn of a lane came to.
#[derive(Clone, Copy, Debug, PartialEq, Eq)]
pub enum Turned {
    /// The lane has no request left.
    Idle,
    /// One event was made.
    Worked,
    /// The trace has no room for the turn: nothing was done.
    NoMemory,
}

/// A turn in a world's trace: of a lane, by its number from 1, and whether that was idle.
#[derive(Drop)]
pub struct Turn {
    pub lane: u32,
    pub idle: bool,
}

impl Model for Turn {
    ghost use Rattle.serving.specs.Turns.{LaneTurn};

    ghost Value = { LaneTurn };

    ghost view = { λ turn. record { lane = turn.lane; idle = turn.idle } };
}
