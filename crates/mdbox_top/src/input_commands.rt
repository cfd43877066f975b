// Commands that read standard input alone, and no disk.
ghost use Rattle.std.specs.Prelude.{◌≡◌, ◌≢◌, ◌≤◌, length, Some};
ghost use Rattle.mdbox_base.specs.Streams.{Rose};
ghost use Rattle.mdbox_top.specs.InputRun.{scan_outcome, printed_outcome, DumpPrints, DumpRefuses, LogDumpPrints, LogDumpRefuses, InputOutcome};
ghost use Rattle.request_text.specs.declared.outcome.InputRefusal.TheVariants as refusal;
ghost use Rattle.request_text.specs.declared.outcome.Outcome.TheVariants as outcome;

use dbox_file::{ScanError, scan};
use dump_text::{print_log, print_messages};
use gate_log::{LogError, check_log};
use mdbox_base::{InputError, Octets, Sink, Source, read_all};
use piece_writer::PrintError;
use request_text::{FileRefusal, InputRefusal, Outcome};
use std::alloc::Global;

/// How many octets an input may have.
const INPUT_LIMIT: u64 = 268_435_456;

/// Prints the messages of the storage file that the input is.
pub fn dump<I: Source, O: Sink>(alloc: Global, input: &mut I, output: &mut O) -> Outcome
    ensures ends { InputOutcome DumpPrints DumpRefuses (I.left input.old) (O.held output.old) (O.held output.new) result }
    ensures read_fault { result ≡ outcome.ReadFault → Rose (I.faults input.old) (I.faults input.new) }
    ensures read_quiet { result ≢ outcome.ReadFault → I.faults input.new ≡ I.faults input.old }
    ensures write_fault { result ≡ outcome.WriteFault → Rose (O.faults output.old) (O.faults output.new) }
    ensures write_quiet { result ≢ outcome.WriteFault → O.faults output.new ≡ O.faults output.old }
    ensures counted { (I.faults input.old ≤ I.faults input.new) × (O.faults output.old ≤ O.faults output.new) }
{
    match read_all(alloc, input, INPUT_LIMIT) {
        Ok(file) => dump_file(alloc, file.as_slice(), output),
        Err(InputError::TooLong(limit)) => Outcome::InputRefused(InputRefusal::TooLong(limit)),
        Err(InputError::Fault) => Outcome::ReadFault,
        Err(InputError::NoMemory) => Outcome::NoMemory,
    }
}

/// Prints the messages of a storage file.
fn dump_file<O: Sink>(alloc: Global, file: &[u8], output: &mut O) -> Outcome
    requires { length file.now ≤ 268435456 }
    ensures ends { InputOutcome DumpPrints DumpRefuses (Some file.now) (O.held output.old) (O.held output.new) result }
    ensures read { result ≢ outcome.ReadFault }
    ensures write_fault { result ≡ outcome.WriteFault → Rose (O.faults output.old) (O.faults output.new) }
    ensures write_quiet { result ≢ outcome.WriteFault → O.faults output.new ≡ O.faults output.old }
    ensures counted { O.faults output.old ≤ O.faults output.new }
{
    match scan(alloc, file) {
        Ok(messages) => printed(print_messages(alloc, output, file, messages.as_slice())),
        Err(error) => no_file(error),
    }
}

/// The end of a run whose input is no storage file.
fn no_file(error: ScanError) -> Outcome
    ensures { result ≡ scan_outcome error }
{
    match error {
        ScanError::BadHeader => refused(FileRefusal::BadHeader),
        ScanError::HeaderSize(size) => refused(FileRefusal::HeaderSize(size)),
        ScanError::Truncated(offset) => refused(FileRefusal::Truncated(offset)),
        ScanError::BadMessage(offset) => refused(FileRefusal::BadMessage(offset)),
        ScanError::NoMemory => Outcome::NoMemory,
    }
}

fn refused(why: FileRefusal) -> Outcome
    ensures { result ≡ outcome.InputRefused (refusal.File why) }
{
    Outcome::InputRefused(InputRefusal::File(why))
}

/// Prints the log that the input is.
pub fn logdump<I: Source, O: Sink>(alloc: Global, input: &mut I, output: &mut O) -> Outcome
    ensures ends { InputOutcome LogDumpPrints LogDumpRefuses (I.left input.old) (O.held output.old) (O.held output.new) result }
    ensures read_fault { result ≡ outcome.ReadFault → Rose (I.faults input.old) (I.faults input.new) }
    ensures read_quiet { result ≢ outcome.ReadFault → I.faults input.new ≡ I.faults input.old }
    ensures write_fault { result ≡ outcome.WriteFault → Rose (O.faults output.old) (O.faults output.new) }
    ensures write_quiet { result ≢ outcome.WriteFault → O.faults output.new ≡ O.faults output.old }
    ensures counted { (I.faults input.old ≤ I.faults input.new) × (O.faults output.old ≤ O.faults output.new) }
{
    match read_all(alloc, input, INPUT_LIMIT) {
        Ok(log) => dump_log(alloc, log, output),
        Err(InputError::TooLong(limit)) => Outcome::InputRefused(InputRefusal::TooLong(limit)),
        Err(InputError::Fault) => Outcome::ReadFault,
        Err(InputError::NoMemory) => Outcome::NoMemory,
    }
}

/// Prints a log.
fn dump_log<O: Sink>(alloc: Global, log: Octets, output: &mut O) -> Outcome
    requires { length log ≤ 268435456 }
    ensures ends { InputOutcome LogDumpPrints LogDumpRefuses (Some log) (O.held output.old) (O.held output.new) result }
    ensures read { result ≢ outcome.ReadFault }
    ensures write_fault { result ≡ outcome.WriteFault → Rose (O.faults output.old) (O.faults output.new) }
    ensures write_quiet { result ≢ outcome.WriteFault → O.faults output.new ≡ O.faults output.old }
    ensures counted { O.faults output.old ≤ O.faults output.new }
{
    match check_log(log) {
        Ok(text) => printed(print_log(alloc, output, &text)),
        Err(LogError::LogDamaged(place)) => Outcome::InputRefused(InputRefusal::Log(place)),
        Err(_) => Outcome::NoMemory,
    }
}

/// The end of a run whose text was printed, or not all of it.
fn printed(answer: Result<(), PrintError>) -> Outcome
    ensures { result ≡ printed_outcome answer }
{
    match answer {
        Ok(()) => Outcome::Done,
        Err(PrintError::NoMemory) => Outcome::NoMemory,
        Err(PrintError::WriteFault) => Outcome::WriteFault,
    }
}
