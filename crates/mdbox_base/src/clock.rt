// Clocks.
ghost use Rattle.std.specs.Prelude.{◌≡◌, ◌≤◌, ◌↔◌, ℕ, Option, Some, Contains, IsErr, IfOk, IfSome, OnOk, OnErr, codes};
ghost use Rattle.mdbox_base.specs.Clocks.{MemoryClock};
ghost use Rattle.mdbox_base.specs.Streams.{Rose, next_count};

use crate::seq::Seq;
use std::error::Error;
use std::fmt;
use std::marker::Model;

/// A clock failed.
#[derive(Clone, Copy, Debug, PartialEq, Eq)]
pub struct ClockFault;

/// What tells the time.
pub trait Clock {
    /// The time that the next call tells, where the clock is modelled.
    ghost time: { Self → Option ℕ };

    /// How often a call failed.
    ghost faults: { Self → ℕ };

    /// The time in Unix seconds.
    fn now(&mut self) -> Result<u64, ClockFault>
        ensures time { IfOk result (λ seconds. IfSome (time self.old) (λ told. seconds ≡ told)) }
        ensures quiet { OnOk result (faults self.new ≡ faults self.old) }
        ensures failed { OnErr result (time self.new ≡ time self.old) }
        ensures cause { OnErr result (Rose (faults self.old) (faults self.new)) }
        ensures counted { faults self.old ≤ faults self.new };
}

/// A clock that stands still. The calls whose numbers, counted from 1, are listed fail.
#[derive(Drop)]
pub struct MemClock {
    seconds: u64,
    fails: Seq<u64>,
    calls: u64,
    faults: u64,
}

impl Model for MemClock {
    ghost use Rattle.mdbox_base.specs.Clocks.{MemoryClock};

    ghost Value = { MemoryClock };

    ghost view = { λ c. record { seconds = c.seconds; fails = c.fails; calls = c.calls; faults = c.faults } };
}

impl MemClock {
    /// A clock that tells this time, in Unix seconds.
    pub fn of(now: u64, fails: Seq<u64>) -> MemClock
        ensures { result ≡ record { seconds = now; fails = fails; calls = 0; faults = 0 } }
    {
        MemClock {
            seconds: now,
            fails,
            calls: 0,
            faults: 0,
        }
    }
}

impl Clock for MemClock {
    ghost time = { λ c. Some c.seconds };

    ghost faults = { λ c. c.faults };

    fn now(&mut self) -> Result<u64, ClockFault>
        ensures time { IfOk result (λ seconds. seconds ≡ self.old.seconds) }
        ensures listed { IsErr result ↔ Contains self.old.fails (next_count self.old.calls) }
        ensures ok { OnOk result (self.new ≡ record self.old { calls = next_count self.old.calls }) }
        ensures err { OnErr result (self.new ≡ record self.old { calls = next_count self.old.calls; faults = next_count self.old.faults }) }
        ensures counted { self.old.faults ≤ self.new.faults }
    {
        self.calls = self.calls.saturating_add(1);
        if self.fails.as_slice().contains(&self.calls) {
            self.faults = self.faults.saturating_add(1);
            return Err(ClockFault);
        }
        Ok(self.seconds)
    }
}

impl fmt::Display for ClockFault {
    ghost output = { λ _. Some (codes "a clock failed") };

    fn fmt<W: fmt::Write>(&self, f: &mut fmt::Formatter<W>) -> fmt::Result {
        f.write_str("a clock failed")
    }
}

impl Error for ClockFault {}
