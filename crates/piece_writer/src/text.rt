// A text at once.
ghost use Rattle.std.specs.Prelude.{◌≡◌, ◌≤◌, [], OnOk, OnErr};
ghost use Rattle.mdbox_base.specs.Streams.{Appended, Rose};
ghost use Rattle.piece_writer.specs.Pieces.{WritesPrefix};

use mdbox_base::{Sink, SinkFault, give_all};

/// Gives a text to the output.
pub fn write_text<O: Sink>(output: &mut O, text: &[u8]) -> Result<(), SinkFault>
    ensures ok { OnOk result (Appended (O.held output.old) text.now (O.held output.new)) }
    ensures quiet { OnOk result (O.faults output.new ≡ O.faults output.old) }
    ensures err { OnErr result (WritesPrefix (O.held output.old) [] text.now (O.held output.new)) }
    ensures cause { OnErr result (Rose (O.faults output.old) (O.faults output.new)) }
    ensures counted { O.faults output.old ≤ O.faults output.new }
{
    give_all(output, text)
}
