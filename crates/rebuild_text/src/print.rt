// Printing what a rebuild reports.
ghost use Rattle.std.specs.Prelude.{◌≡◌, ◌≤◌, ◌++◌, [], flat_map, OnOk, OnErr, IfErr};
ghost use Rattle.mdbox_base.specs.Streams.{Appended};
ghost use Rattle.model_found.specs.Reasons.{reason_word};
ghost use Rattle.piece_writer.specs.Pieces.{Gathers, WritesPrefix, IsPrintError};
ghost use Rattle.rebuild_text.specs.ReportText.{skipped_line, report_text};

use mdbox_base::{NoMemory, Octets, Sink};
use model_found::Reason;
use piece_writer::{PieceWriter, PrintError};
use rebuild_judge::SkippedAt;
use request_text::{numbers_line, push_numbers, put_line};
use std::alloc::Global;

/// Adds why something was skipped.
fn push_reason(text: &mut Octets, reason: Reason) -> Result<(), NoMemory>
    ensures { OnOk result (text.new ≡ text.old ++ reason_word reason) }
{
    match reason {
        Reason::BadHeader => text.push_all(b"BadHeader"),
        Reason::HeaderSize => text.push_all(b"HeaderSize"),
        Reason::Truncated => text.push_all(b"Truncated"),
        Reason::BadMessage => text.push_all(b"BadMessage"),
        Reason::BadLine => text.push_all(b"BadLine"),
        Reason::NoGuid => text.push_all(b"NoGuid"),
        Reason::NoInstance => text.push_all(b"NoInstance"),
        Reason::RangeBad => text.push_all(b"RangeBad"),
        Reason::Compressed => text.push_all(b"Compressed"),
        Reason::SizeDiffers => text.push_all(b"SizeDiffers"),
        Reason::InstanceDiffers => text.push_all(b"InstanceDiffers"),
        Reason::GuidTwice => text.push_all(b"GuidTwice"),
        Reason::TooMany => text.push_all(b"TooMany"),
    }
}

/// Adds the line of a place that was skipped.
fn push_skipped(text: &mut Octets, skipped: SkippedAt) -> Result<(), NoMemory>
    ensures { OnOk result (text.new ≡ text.old ++ skipped_line skipped) }
{
    text.push_all(b"SKIPPED")?;
    push_numbers(text, &[skipped.file.0 as u64, skipped.offset])?;
    text.push_all(b" ")?;
    push_reason(text, skipped.why)?;
    text.push_all(b"\n")
}

/// Adds the line of a place that was skipped to the piece. A piece that is full is given to the output.
fn put_skipped<O: Sink>(
    output: &mut O,
    writer: &mut PieceWriter,
    skipped: SkippedAt,
) -> Result<(), PrintError>
    ensures ok { OnOk result (Gathers (O.held output.old) writer.old.piece (skipped_line skipped) (O.held output.new) writer.new.piece) }
    ensures err { OnErr result (WritesPrefix (O.held output.old) writer.old.piece (skipped_line skipped) (O.held output.new)) }
    ensures quiet { OnOk result (O.faults output.new ≡ O.faults output.old) }
    ensures cause { IfErr result (IsPrintError (O.faults output.old) (O.faults output.new)) }
    ensures counted { O.faults output.old ≤ O.faults output.new }
{
    push_skipped(&mut writer.piece, skipped)?;
    writer.put(output, b"")
}

/// Adds the lines of all that was skipped to the piece.
fn put_lines<O: Sink>(
    output: &mut O,
    writer: &mut PieceWriter,
    places: &[SkippedAt],
) -> Result<(), PrintError>
    ensures ok { OnOk result (Gathers (O.held output.old) writer.old.piece (flat_map skipped_line places.now) (O.held output.new) writer.new.piece) }
    ensures err { OnErr result (WritesPrefix (O.held output.old) writer.old.piece (flat_map skipped_line places.now) (O.held output.new)) }
    ensures quiet { OnOk result (O.faults output.new ≡ O.faults output.old) }
    ensures cause { IfErr result (IsPrintError (O.faults output.old) (O.faults output.new)) }
    ensures counted { O.faults output.old ≤ O.faults output.new }
{
    for place in places {
        put_skipped(output, writer, *place)?;
    }
    Ok(())
}

/// Adds the report of a rebuild to the piece.
fn put_report<O: Sink>(
    output: &mut O,
    writer: &mut PieceWriter,
    skipped: &[SkippedAt],
    mailboxes: u64,
    messages: u64,
) -> Result<(), PrintError>
    ensures ok { OnOk result (Gathers (O.held output.old) writer.old.piece (report_text skipped.now mailboxes messages) (O.held output.new) writer.new.piece) }
    ensures err { OnErr result (WritesPrefix (O.held output.old) writer.old.piece (report_text skipped.now mailboxes messages) (O.held output.new)) }
    ensures quiet { OnOk result (O.faults output.new ≡ O.faults output.old) }
    ensures cause { IfErr result (IsPrintError (O.faults output.old) (O.faults output.new)) }
    ensures counted { O.faults output.old ≤ O.faults output.new }
{
    put_lines(output, writer, skipped)?;
    let line = numbers_line(&[mailboxes, messages]);
    put_line(output, writer, &line)
}

/// Prints the report of a rebuild: a line for each place that was skipped, and then how many mailboxes and how many messages the
/// new store has.
pub fn print_report<O: Sink>(
    alloc: Global,
    output: &mut O,
    skipped: &[SkippedAt],
    mailboxes: u64,
    messages: u64,
) -> Result<(), PrintError>
    ensures ok { OnOk result (Appended (O.held output.old) (report_text skipped.now mailboxes messages) (O.held output.new)) }
    ensures err { OnErr result (WritesPrefix (O.held output.old) [] (report_text skipped.now mailboxes messages) (O.held output.new)) }
    ensures quiet { OnOk result (O.faults output.new ≡ O.faults output.old) }
    ensures cause { IfErr result (IsPrintError (O.faults output.old) (O.faults output.new)) }
    ensures counted { O.faults output.old ≤ O.faults output.new }
{
    let mut writer = PieceWriter::empty(alloc);
    put_report(output, &mut writer, skipped, mailboxes, messages)?;
    writer.finish(output)
}
