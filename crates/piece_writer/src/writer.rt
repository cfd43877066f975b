// The piece that is gathered.
ghost use Rattle.std.specs.Prelude.{◌≡◌, ◌≤◌, [], IfErr, OnOk, OnErr};
ghost use Rattle.mdbox_base.specs.Streams.{Appended};
ghost use Rattle.piece_writer.specs.Pieces.{Gathers, WritesPrefix, IsPrintError};

use crate::error::PrintError;
use crate::text::write_text;
use mdbox_base::{Octets, Sink};
use std::alloc::Global;

/// How many octets are gathered before they are given to the output.
const PIECE: usize = 65_536;

/// Gathers small texts, and gives them to the output in pieces of about 64 KiB.
#[derive(Drop)]
pub struct PieceWriter {
    /// What waits to be given.
    pub piece: Octets,
}

impl PieceWriter {
    /// A writer with which nothing waits.
    pub fn empty(alloc: Global) -> PieceWriter
        ensures { result.piece ≡ [] }
    {
        PieceWriter {
            piece: Octets::empty(alloc),
        }
    }

    /// Adds a text to the piece. A piece that is full is given to the output, a long text directly.
    pub fn put<O: Sink>(&mut self, output: &mut O, text: &[u8]) -> Result<(), PrintError>
        ensures ok { OnOk result (Gathers (O.held output.old) self.old.piece text.now (O.held output.new) self.new.piece) }
        ensures err { OnErr result (WritesPrefix (O.held output.old) self.old.piece text.now (O.held output.new)) }
        ensures quiet { OnOk result (O.faults output.new ≡ O.faults output.old) }
        ensures cause { IfErr result (IsPrintError (O.faults output.old) (O.faults output.new)) }
        ensures counted { O.faults output.old ≤ O.faults output.new }
    {
        if text.len() < PIECE && self.piece.length() < PIECE {
            self.piece.push_all(text)?;
            return Ok(());
        }
        write_text(output, self.piece.as_slice())?;
        self.piece.clear();
        write_text(output, text)?;
        Ok(())
    }

    /// Gives what waits.
    pub fn finish<O: Sink>(self, output: &mut O) -> Result<(), PrintError>
        ensures ok { OnOk result (Appended (O.held output.old) self.piece (O.held output.new)) }
        ensures err { OnErr result (WritesPrefix (O.held output.old) [] self.piece (O.held output.new)) }
        ensures quiet { OnOk result (O.faults output.new ≡ O.faults output.old) }
        ensures cause { IfErr result (IsPrintError (O.faults output.old) (O.faults output.new)) }
        ensures counted { O.faults output.old ≤ O.faults output.new }
    {
        write_text(output, self.piece.as_slice())?;
        Ok(())
    }
}
