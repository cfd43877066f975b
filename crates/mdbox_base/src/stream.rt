// Sources and sinks of octets.
ghost use Rattle.std.specs.Prelude.{◌≡◌, ◌≢◌, ◌≤◌, ◌<◌, ◌+◌, ℕ, min, List, [], length, take, Option, Some, codes, IfOk, IfErr, IfSome, OnOk, OnErr};
ghost use Rattle.mdbox_base.specs.Streams.{Rose, Taken, Appended, IsAtEnd, Refused, input_error_text};
ghost use Rattle.mdbox_base.specs.declared.stream.InputError.TheVariants.{Fault};

use crate::octets::Octets;
use std::alloc::Global;
use std::error::Error;
use std::fmt;

/// How many octets are asked of a source at once.
const PIECE: usize = 65_536;

/// A source failed.
#[derive(Clone, Copy, Debug, PartialEq, Eq)]
pub struct SourceFault;

/// A sink failed.
#[derive(Clone, Copy, Debug, PartialEq, Eq)]
pub struct SinkFault;

/// Why an input was not read whole.
#[derive(Clone, Copy, Debug, PartialEq, Eq)]
pub enum InputError {
    /// It has more octets than this limit.
    TooLong(u64),
    /// The source failed.
    Fault,
    NoMemory,
}

/// Where octets come from. A call that fails takes nothing; the slice may then hold anything.
pub trait Source {
    /// The octets that are left, where the source tells them.
    ghost left: { Self → Option (List ℕ) };

    /// How often a call failed.
    ghost faults: { Self → ℕ };

    /// Puts octets in front of the slice, and answers how many. 0 for a slice that isn't empty is the end of input.
    fn take(&mut self, into: &mut [u8]) -> Result<usize, SourceFault>
        ensures within { IfOk result (λ count. count ≤ length into.new) }
        ensures octets { IfOk result (λ count. Taken (left self.old) (take count into.new) (left self.new)) }
        ensures end { IfOk result (λ count. count ≡ 0 → 0 < length into.new → IsAtEnd (left self.old)) }
        ensures quiet { OnOk result (faults self.new ≡ faults self.old) }
        ensures failed { OnErr result (left self.new ≡ left self.old) }
        ensures cause { OnErr result (Rose (faults self.old) (faults self.new)) }
        ensures counted { faults self.old ≤ faults self.new };
}

/// Where octets go. A call that fails gives nothing.
pub trait Sink {
    /// The octets that it was given, where the sink tells them.
    ghost held: { Self → Option (List ℕ) };

    /// How often a call failed.
    ghost faults: { Self → ℕ };

    /// Takes a prefix of the slice, and answers its length: at least 1 for a slice that isn't empty.
    fn give(&mut self, from: &[u8]) -> Result<usize, SinkFault>
        ensures within { IfOk result (λ count. count ≤ length from.now) }
        ensures some { IfOk result (λ count. 0 < length from.now → 0 < count) }
        ensures octets { IfOk result (λ count. Appended (held self.old) (take count from.now) (held self.new)) }
        ensures quiet { OnOk result (faults self.new ≡ faults self.old) }
        ensures failed { OnErr result (held self.new ≡ held self.old) }
        ensures cause { OnErr result (Rose (faults self.old) (faults self.new)) }
        ensures counted { faults self.old ≤ faults self.new };
}

/// Reads a source to its end. An input of more octets than the limit is refused, and one octet more than the limit is then taken.
pub fn read_all<I: Source>(alloc: Global, source: &mut I, limit: u64) -> Result<Octets, InputError>
    ensures octets { IfOk result (λ text. Taken (I.left source.old) text (I.left source.new)) }
    ensures end { OnOk result (IsAtEnd (I.left source.new)) }
    ensures short { IfOk result (λ text. length text ≤ limit) }
    ensures quiet { OnOk result (I.faults source.new ≡ I.faults source.old) }
    ensures unfailed { IfErr result (λ error. error ≢ Fault → I.faults source.new ≡ I.faults source.old) }
    ensures refused { IfErr result (Refused limit (I.left source.old) (I.left source.new) (I.faults source.old) (I.faults source.new)) }
    ensures counted { I.faults source.old ≤ I.faults source.new }
{
    let mut piece = [0; PIECE];
    let mut text = Octets::empty(alloc);
    loop {
        let room = limit - text.length() as u64;
        let count = match source.take(&mut piece[..piece_size(room)]) {
            Ok(count) => count,
            Err(SourceFault) => return Err(InputError::Fault),
        };
        if count == 0 {
            return Ok(text);
        }
        if count as u64 > room {
            return Err(InputError::TooLong(limit));
        }
        if text.push_all(&piece[..count]).is_err() {
            return Err(InputError::NoMemory);
        }
    }
}

/// How many octets to ask for, where an input may have so many more: one more shows that it is too long.
fn piece_size(room: u64) -> usize
    ensures { result ≡ min (room + 1) PIECE }
{
    if room < PIECE as u64 {
        room as usize + 1
    } else {
        PIECE
    }
}

/// Gives a whole text to a sink. After a fault the sink was given a prefix.
pub fn give_all<O: Sink>(sink: &mut O, text: &[u8]) -> Result<(), SinkFault>
    ensures ok { OnOk result (Appended (O.held sink.old) text.now (O.held sink.new)) }
    ensures quiet { OnOk result (O.faults sink.new ≡ O.faults sink.old) }
    ensures err { OnErr result ((given : ℕ) × (given < length text.now) × Appended (O.held sink.old) (take given text.now) (O.held sink.new)) }
    ensures cause { OnErr result (Rose (O.faults sink.old) (O.faults sink.new)) }
    ensures counted { O.faults sink.old ≤ O.faults sink.new }
{
    let mut given = 0;
    while given < text.len() {
        given += sink.give(&text[given..])?;
    }
    Ok(())
}

impl fmt::Display for SourceFault {
    ghost output = { λ _. Some (codes "a source failed") };

    fn fmt<W: fmt::Write>(&self, f: &mut fmt::Formatter<W>) -> fmt::Result {
        f.write_str("a source failed")
    }
}

impl Error for SourceFault {}

impl fmt::Display for SinkFault {
    ghost output = { λ _. Some (codes "a sink failed") };

    fn fmt<W: fmt::Write>(&self, f: &mut fmt::Formatter<W>) -> fmt::Result {
        f.write_str("a sink failed")
    }
}

impl Error for SinkFault {}

impl fmt::Display for InputError {
    ghost output = { λ error. Some (input_error_text error) };

    fn fmt<W: fmt::Write>(&self, f: &mut fmt::Formatter<W>) -> fmt::Result {
        match self {
            InputError::TooLong(limit) => write!(f, "more than {limit} octets"),
            InputError::Fault => f.write_str("the source failed"),
            InputError::NoMemory => f.write_str("out of memory"),
        }
    }
}

impl Error for InputError {}
