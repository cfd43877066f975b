// How calls go.
ghost use Rattle.std.specs.Prelude.{◌≤◌};

use mdbox_base::Seq;
use std::alloc::Global;

/// How a call goes.
#[derive(Clone, Copy, Debug, PartialEq, Eq)]
pub enum Turn {
    /// It does what it is asked to.
    Whole,
    /// A read or a write does half of it, of one octet all. Another call is as `Whole`.
    Half,
    /// It is interrupted before anything is done.
    Interrupted,
    /// It fails, and nothing is done.
    Refused,
    /// It fails, and yet it is done, or half of a write.
    Broken,
}

/// How calls go, by their numbers, and how many there were.
#[derive(Drop)]
pub struct Plan {
    pub turns: Seq<(u64, Turn)>,
    pub call: u64,
    /// From this call on all are refused, as if the process had ended. 0 for none.
    pub end: u64,
}

impl Plan {
    /// Each call is whole.
    pub fn none(alloc: Global) -> Plan {
        Plan {
            turns: Seq::empty(alloc),
            call: 0,
            end: 0,
        }
    }

    /// How the next call goes: as it was listed first, or whole.
    pub fn next(&mut self) -> Turn {
        self.call = self.call.saturating_add(1);
        if self.end > 0 && self.call >= self.end {
            return Turn::Refused;
        }
        for listed in self.turns.as_slice() {
            if listed.0 == self.call {
                return listed.1;
            }
        }
        Turn::Whole
    }
}
