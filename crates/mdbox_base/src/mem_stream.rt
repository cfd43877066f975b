// Sources and sinks over memory, whose calls fail where a list says so.
ghost use Rattle.std.specs.Prelude.{◌≡◌, ◌≤◌, ◌<◌, ◌++◌, ◌↔◌, ℕ, Some, drop, length, min, take, Contains, IsErr, IsOk, IfOk, OnOk, OnErr};
ghost use Rattle.mdbox_base.specs.Streams.{Rose, Taken, Appended, IsAtEnd, next_count, MemorySource, MemorySink};

use crate::octets::Octets;
use crate::seq::Seq;
use crate::stream::{Sink, SinkFault, Source, SourceFault};
use std::marker::Model;

/// A source over memory. The calls whose numbers, counted from 1, are listed fail.
#[derive(Drop)]
pub struct MemSource {
    octets: Octets,
    start: usize,
    fails: Seq<u64>,
    calls: u64,
    faults: u64,
}

impl Model for MemSource {
    ghost use Rattle.std.specs.Prelude.{◌≤◌, length, drop};
    ghost use Rattle.mdbox_base.specs.Streams.{MemorySource};

    ghost Value = { MemorySource };

    ghost view = { λ s. record { left = drop s.start s.octets; fails = s.fails; calls = s.calls; faults = s.faults } };

    ghost invariant = { λ s. s.start ≤ length s.octets };
}

impl MemSource {
    /// A source of these octets.
    pub fn of(octets: Octets, fails: Seq<u64>) -> MemSource
        ensures { result ≡ record { left = octets; fails = fails; calls = 0; faults = 0 } }
    {
        MemSource {
            octets,
            start: 0,
            fails,
            calls: 0,
            faults: 0,
        }
    }
}

impl Source for MemSource {
    ghost left = { λ s. Some s.left };

    ghost faults = { λ s. s.faults };

    fn take(&mut self, into: &mut [u8]) -> Result<usize, SourceFault>
        ensures within { IfOk result (λ count. count ≤ length into.new) }
        ensures octets { IfOk result (λ count. self.old.left ≡ take count into.new ++ self.new.left) }
        ensures rest { IfOk result (λ count. drop count into.new ≡ drop count into.old) }
        ensures full { IfOk result (λ count. count ≡ min (length into.old) (length self.old.left)) }
        ensures listed { IsErr result ↔ Contains self.old.fails (next_count self.old.calls) }
        ensures ok { OnOk result (self.new ≡ record self.old { left = self.new.left; calls = next_count self.old.calls }) }
        ensures err { OnErr result (self.new ≡ record self.old { calls = next_count self.old.calls; faults = next_count self.old.faults }) }
        ensures buffer { OnErr result (into.new ≡ into.old) }
        ensures counted { self.old.faults ≤ self.new.faults }
    {
        self.calls = self.calls.saturating_add(1);
        if self.fails.as_slice().contains(&self.calls) {
            self.faults = self.faults.saturating_add(1);
            return Err(SourceFault);
        }
        let left = &self.octets.as_slice()[self.start..];
        let count = left.len().min(into.len());
        into[..count].copy_from_slice(&left[..count]);
        self.start += count;
        Ok(count)
    }
}

/// A sink over memory. The calls whose numbers, counted from 1, are listed fail, and so does one that finds no memory.
#[derive(Drop)]
pub struct MemSink {
    octets: Octets,
    fails: Seq<u64>,
    calls: u64,
    faults: u64,
}

impl Model for MemSink {
    ghost use Rattle.mdbox_base.specs.Streams.{MemorySink};

    ghost Value = { MemorySink };

    ghost view = { λ s. record { held = s.octets; fails = s.fails; calls = s.calls; faults = s.faults } };
}

impl MemSink {
    /// A sink that holds these octets.
    pub fn of(octets: Octets, fails: Seq<u64>) -> MemSink
        ensures { result ≡ record { held = octets; fails = fails; calls = 0; faults = 0 } }
    {
        MemSink {
            octets,
            fails,
            calls: 0,
            faults: 0,
        }
    }

    /// The octets that it holds.
    pub fn held(&self) -> &Octets
        ensures { result.now ≡ self.now.held }
    {
        &self.octets
    }
}

impl Sink for MemSink {
    ghost held = { λ s. Some s.held };

    ghost faults = { λ s. s.faults };

    fn give(&mut self, from: &[u8]) -> Result<usize, SinkFault>
        ensures all { IfOk result (λ count. count ≡ length from.now) }
        ensures listed { Contains self.old.fails (next_count self.old.calls) → IsErr result }
        ensures ok { OnOk result (self.new ≡ record self.old { held = self.old.held ++ from.now; calls = next_count self.old.calls }) }
        ensures err { OnErr result (self.new ≡ record self.old { calls = next_count self.old.calls; faults = next_count self.old.faults }) }
        ensures counted { self.old.faults ≤ self.new.faults }
    {
        self.calls = self.calls.saturating_add(1);
        if self.fails.as_slice().contains(&self.calls) || self.octets.push_all(from).is_err() {
            self.faults = self.faults.saturating_add(1);
            return Err(SinkFault);
        }
        Ok(from.len())
    }
}
