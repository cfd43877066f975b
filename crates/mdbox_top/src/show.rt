// Printing a text that is known.
ghost use Rattle.std.specs.Prelude.{◌≡◌, ◌≢◌, ◌≤◌};
ghost use Rattle.mdbox_base.specs.Streams.{Rose};
ghost use Rattle.mdbox_top.specs.InputRun.{ShowsText};
ghost use Rattle.request_text.specs.declared.outcome.Outcome.TheVariants as outcome;

use mdbox_base::{Sink, SinkFault};
use piece_writer::write_text;
use request_text::Outcome;

/// Prints a text.
pub fn show<O: Sink>(output: &mut O, text: &str) -> Outcome
    ensures ends { ShowsText text.now (O.held output.old) (O.held output.new) result }
    ensures write_fault { result ≡ outcome.WriteFault → Rose (O.faults output.old) (O.faults output.new) }
    ensures write_quiet { result ≢ outcome.WriteFault → O.faults output.new ≡ O.faults output.old }
    ensures counted { O.faults output.old ≤ O.faults output.new }
{
    match write_text(output, text.as_bytes()) {
        Ok(()) => Outcome::Done,
        Err(SinkFault) => Outcome::WriteFault,
    }
}
