// What is printed of mailboxes.
ghost use Rattle.std.specs.Prelude.{◌≡◌, ◌≤◌, ◌++◌, [], OnOk, OnErr, IfErr};
ghost use Rattle.mdbox_base.specs.Streams.{Appended};
ghost use Rattle.piece_writer.specs.Pieces.{Gathers, WritesPrefix, IsPrintError};
ghost use Rattle.request_text.specs.BoxesText.{box_line, boxes_text};

use crate::reply_line::numbers_line;
use crate::reply_print::{push_numbers, put_line};
use mdbox_base::{NoMemory, Octets, Sink, push_decimal};
use piece_writer::{PieceWriter, PrintError};
use std::alloc::Global;

/// What is printed of a mailbox.
#[derive(Drop)]
pub struct BoxRow {
    pub number: u32,
    /// The UID that the next message gets; 4,294,967,295 if none is left.
    pub next_uid: u32,
    /// How many messages it lists, and the sum of their sizes in octets.
    pub messages: u32,
    pub octets: u64,
    pub name: Octets,
}

/// Adds the line of a mailbox.
fn push_box(text: &mut Octets, row: &BoxRow) -> Result<(), NoMemory>
    ensures { OnOk result (text.new ≡ text.old ++ box_line row.now) }
{
    push_decimal(text, row.number as u64)?;
    push_numbers(
        text,
        &[row.next_uid as u64, row.messages as u64, row.octets],
    )?;
    text.push_all(b" ")?;
    text.push_all(row.name.as_slice())?;
    text.push_all(b"\n")
}

/// Adds the line of a mailbox to the piece. A piece that is full is given to the output.
fn put_box<O: Sink>(
    output: &mut O,
    writer: &mut PieceWriter,
    row: &BoxRow,
) -> Result<(), PrintError>
    ensures ok { OnOk result (Gathers (O.held output.old) writer.old.piece (box_line row.now) (O.held output.new) writer.new.piece) }
    ensures err { OnErr result (WritesPrefix (O.held output.old) writer.old.piece (box_line row.now) (O.held output.new)) }
    ensures quiet { OnOk result (O.faults output.new ≡ O.faults output.old) }
    ensures cause { IfErr result (IsPrintError (O.faults output.old) (O.faults output.new)) }
    ensures counted { O.faults output.old ≤ O.faults output.new }
{
    push_box(&mut writer.piece, row)?;
    writer.put(output, b"")
}

/// Adds how many mailboxes there are, and the line of each, to the piece.
fn put_boxes<O: Sink>(
    output: &mut O,
    writer: &mut PieceWriter,
    rows: &[BoxRow],
) -> Result<(), PrintError>
    ensures ok { OnOk result (Gathers (O.held output.old) writer.old.piece (boxes_text rows.now) (O.held output.new) writer.new.piece) }
    ensures err { OnErr result (WritesPrefix (O.held output.old) writer.old.piece (boxes_text rows.now) (O.held output.new)) }
    ensures quiet { OnOk result (O.faults output.new ≡ O.faults output.old) }
    ensures cause { IfErr result (IsPrintError (O.faults output.old) (O.faults output.new)) }
    ensures counted { O.faults output.old ≤ O.faults output.new }
{
    let line = numbers_line(&[rows.len() as u64]);
    put_line(output, writer, &line)?;
    for row in rows {
        put_box(output, writer, row)?;
    }
    Ok(())
}

/// Prints how many mailboxes there are, and a line for each.
pub fn print_boxes<O: Sink>(
    alloc: Global,
    output: &mut O,
    rows: &[BoxRow],
) -> Result<(), PrintError>
    ensures ok { OnOk result (Appended (O.held output.old) (boxes_text rows.now) (O.held output.new)) }
    ensures err { OnErr result (WritesPrefix (O.held output.old) [] (boxes_text rows.now) (O.held output.new)) }
    ensures quiet { OnOk result (O.faults output.new ≡ O.faults output.old) }
    ensures cause { IfErr result (IsPrintError (O.faults output.old) (O.faults output.new)) }
    ensures counted { O.faults output.old ≤ O.faults output.new }
{
    let mut writer = PieceWriter::empty(alloc);
    put_boxes(output, &mut writer, rows)?;
    writer.finish(output)
}
