// Standard input, output and error. A call that a signal has interrupted did nothing, and is made again; any other that the system fails
// is counted.
ghost use Rattle.std.specs.Prelude.{None, Ok, ◌≡◌, ◌↔◌, ◌<◌, ◌≤◌, ◌⊎◌, IsOk, IsErr, IfOk, length};
ghost use Rattle.mdbox_base.specs.Streams.{next_count};

use mdbox_base::{Sink, SinkFault, Source, SourceFault};
use std::io::{self, ErrorKind, Read, Write};
use std::rt::Stdin;

/// Standard input.
#[derive(Drop)]
pub struct StdSource {
    stdin: Stdin,
    faults: u64,
    /// The system's last error.
    failure: Option<io::Error>,
}

impl StdSource {
    /// A source whose count of faults is 0.
    pub fn of(stdin: Stdin) -> StdSource
        ensures { ⟦<StdSource as Source>⟧.faults result ≡ 0 }
    {
        StdSource {
            stdin,
            faults: 0,
            failure: None,
        }
    }

    /// The system's last error.
    pub fn failure(&self) -> Option<io::Error> {
        self.failure
    }

    /// What an answer of the system to a read means. Errors are counted.
    fn took(&mut self, answer: io::Result<usize>) -> Result<usize, SourceFault>
        ensures value { IfOk answer (λ count. result ≡ Ok count) }
        ensures failed { IsErr result ↔ IsErr answer }
        ensures risen { IsErr result → self.new.faults ≡ next_count self.old.faults }
        ensures same { IsOk result → self.new.faults ≡ self.old.faults }
        ensures counted { self.old.faults ≤ self.new.faults }
    {
        match answer {
            Ok(count) => Ok(count),
            Err(error) => {
                self.faults = self.faults.saturating_add(1);
                self.failure = Some(error);
                Err(SourceFault)
            }
        }
    }
}

impl Source for StdSource {
    ghost left = { λ _. None };

    ghost faults = { λ source. source.faults };

    fn take(&mut self, into: &mut [u8]) -> Result<usize, SourceFault> {
        let answer = read_on(&mut self.stdin, into);
        self.took(answer)
    }
}

/// Reads, however often a signal interrupts it.
fn read_on<R: Read>(stream: &mut R, into: &mut [u8]) -> io::Result<usize>
    ensures { IfOk result (λ count. count ≤ length into.new) }
{
    for _ in 0..u64::MAX {
        match stream.read(into) {
            Err(error) if error.kind() == ErrorKind::Interrupted => {}
            answer => return answer,
        }
    }
    stream.read(into)
}

/// Writes, however often a signal interrupts it.
fn write_on<W: Write>(stream: &mut W, from: &[u8]) -> io::Result<usize>
    ensures { IfOk result (λ count. count ≤ length from.now) }
{
    for _ in 0..u64::MAX {
        match stream.write(from) {
            Err(error) if error.kind() == ErrorKind::Interrupted => {}
            answer => return answer,
        }
    }
    stream.write(from)
}

/// Standard output or standard error.
#[derive(Drop)]
pub struct StdSink<W: Write> {
    stream: W,
    faults: u64,
    /// The system's last error.
    failure: Option<io::Error>,
}

impl<W: Write> StdSink<W> {
    /// A sink whose count of faults is 0.
    pub fn of(stream: W) -> StdSink<W>
        ensures { ⟦<StdSink<W> as Sink>⟧.faults result ≡ 0 }
    {
        StdSink {
            stream,
            faults: 0,
            failure: None,
        }
    }

    /// The system's last error.
    pub fn failure(&self) -> Option<io::Error> {
        self.failure
    }

    /// What an answer of the system to a write of so many octets means. Errors are counted, and so is an answer that nothing
    /// of a text was taken: such a stream would be asked forever.
    fn gave(&mut self, answer: io::Result<usize>, octets: usize) -> Result<usize, SinkFault>
        ensures value { IfOk result (λ count. answer ≡ Ok count) }
        ensures failed { IsErr result ↔ IsErr answer ⊎ (answer ≡ Ok 0) × (0 < octets) }
        ensures risen { IsErr result → self.new.faults ≡ next_count self.old.faults }
        ensures same { IsOk result → self.new.faults ≡ self.old.faults }
        ensures counted { self.old.faults ≤ self.new.faults }
    {
        match answer {
            Ok(count) if count > 0 || octets == 0 => Ok(count),
            other => {
                self.faults = self.faults.saturating_add(1);
                self.failure = other.err();
                Err(SinkFault)
            }
        }
    }
}

impl<W: Write> Sink for StdSink<W> {
    ghost held = { λ _. None };

    ghost faults = { λ sink. sink.faults };

    fn give(&mut self, from: &[u8]) -> Result<usize, SinkFault> {
        let answer = write_on(&mut self.stream, from);
        self.gave(answer, from.len())
    }
}
