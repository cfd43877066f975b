// What a run reads, prints, says and asks.
ghost use Rattle.std.specs.Prelude.{Some};

use mdbox_base::{MemClock, MemSink, MemSource, NoMemory, Octets, Seq, Sink, SinkFault};
use std::alloc::Global;

/// The time that the clock tells.
const NOW: u64 = 1_694_498_816;

/// The numbers of the calls that fail of the input, the output, the errors and the clock. 0 for none.
#[derive(Clone, Copy)]
pub struct Fails {
    pub input: u64,
    pub output: u64,
    pub errors: u64,
    pub clock: u64,
}

impl Fails {
    pub const NONE: Fails = Fails {
        input: 0,
        output: 0,
        errors: 0,
        clock: 0,
    };
}

/// An output over memory, which takes one octet a call if it is narrow.
#[derive(Drop)]
pub struct CaseSink {
    sink: MemSink,
    narrow: bool,
}

impl Sink for CaseSink {
    ghost held = { λ s. Some s.sink.held };

    ghost faults = { λ s. s.sink.faults };

    fn give(&mut self, from: &[u8]) -> Result<usize, SinkFault> {
        if self.narrow {
            self.sink.give(&from[..from.len().min(1)])
        } else {
            self.sink.give(from)
        }
    }
}

/// What a run reads, prints, says and asks.
#[derive(Drop)]
pub struct Streams {
    pub input: MemSource,
    pub output: CaseSink,
    pub errors: MemSink,
    pub clock: MemClock,
}

fn sink(alloc: Global, fails: u64) -> Result<MemSink, NoMemory> {
    let fails = Seq::of(vec![in alloc; fails]?);
    Ok(MemSink::of(Octets::empty(alloc), fails))
}

impl Streams {
    /// Streams of which these calls fail, with these octets as the input.
    pub fn of(
        alloc: Global,
        input: &[u8],
        fails: Fails,
        narrow: bool,
    ) -> Result<Streams, NoMemory> {
        let octets = Octets::of(Vec::from_slice(alloc, input)?);
        let input = Seq::of(vec![in alloc; fails.input]?);
        let output = sink(alloc, fails.output)?;
        let errors = sink(alloc, fails.errors)?;
        let clock = Seq::of(vec![in alloc; fails.clock]?);
        Ok(Streams {
            input: MemSource::of(octets, input),
            output: CaseSink {
                sink: output,
                narrow,
            },
            errors,
            clock: MemClock::of(NOW, clock),
        })
    }

    /// Streams of which no call fails.
    pub fn sound(alloc: Global, input: &[u8]) -> Result<Streams, NoMemory> {
        Streams::of(alloc, input, Fails::NONE, false)
    }

    /// What was printed.
    pub fn printed(&self) -> &[u8] {
        self.output.sink.held().as_slice()
    }

    /// What was said on standard error.
    pub fn said(&self) -> &[u8] {
        self.errors.held().as_slice()
    }
}
