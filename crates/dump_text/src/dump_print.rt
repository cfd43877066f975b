// Printing the messages of a storage file, gathered in pieces.
ghost use Rattle.std.specs.Prelude.{◌≡◌, ◌≤◌, ◌<◌, ◌+◌, ◌++◌, ◌∷◌, [], take, drop, ℕ, List, length, flat_map, IfOk, IfErr, OnOk, OnErr};
ghost use Rattle.mdbox_base.specs.Streams.{Appended};
ghost use Rattle.model_storage.specs.StorageFile.{Line, line_text, AreLines, HasPlaces};
ghost use Rattle.piece_writer.specs.Pieces.{Gathers, WritesPrefix, IsPrintError};
ghost use Rattle.dump_text.specs.DumpText.{message_heading, shown_line, IsDumpOf, ShowsMessage, ShowsMessages};

use mdbox_base::{NoMemory, Octets, Sink, push_decimal};
use memchr::memchr;
use model_storage::MessageAt;
use piece_writer::{PieceWriter, PrintError};
use std::alloc::Global;

/// Adds the heading of a message to the piece.
fn put_heading(piece: &mut Octets, offset: u64, size: u64) -> Result<(), NoMemory>
    ensures { OnOk result (piece.new ≡ piece.old ++ message_heading offset size) }
{
    piece.push_all(b"MESSAGE ")?;
    push_decimal(piece, offset)?;
    piece.push_all(b" ")?;
    push_decimal(piece, size)?;
    piece.push_all(b"\n")
}

/// Adds a line behind two spaces.
fn put_line<O: Sink>(
    output: &mut O,
    writer: &mut PieceWriter,
    line: &[u8],
) -> Result<(), PrintError>
    ensures ok { OnOk result (Gathers (O.held output.old) writer.old.piece (32 ∷ 32 ∷ line.now) (O.held output.new) writer.new.piece) }
    ensures err { OnErr result (WritesPrefix (O.held output.old) writer.old.piece (32 ∷ 32 ∷ line.now) (O.held output.new)) }
    ensures quiet { OnOk result (O.faults output.new ≡ O.faults output.old) }
    ensures cause { IfErr result (IsPrintError (O.faults output.old) (O.faults output.new)) }
    ensures counted { O.faults output.old ≤ O.faults output.new }
{
    writer.put(output, b"  ")?;
    writer.put(output, line)
}

/// How many octets the line at the front has, its LF included.
fn line_size(text: &[u8]) -> usize
    requires { 0 < length text.now }
    ensures within { (0 < result) × (result ≤ length text.now) }
    ensures line { (line : Line) (lines : List Line) → AreLines text.now (line ∷ lines) → (take result text.now ≡ line_text line) × AreLines (drop result text.now) lines }
{
    match memchr(b'\n', text) {
        Some(end) => end + 1,
        None => text.len(),
    }
}

/// Prints metadata lines, each behind two spaces.
fn print_lines<O: Sink>(
    output: &mut O,
    writer: &mut PieceWriter,
    text: &[u8],
) -> Result<(), PrintError>
    ensures ok { OnOk result ((lines : List Line) → AreLines text.now lines → Gathers (O.held output.old) writer.old.piece (flat_map shown_line lines) (O.held output.new) writer.new.piece) }
    ensures err { OnErr result ((lines : List Line) → AreLines text.now lines → WritesPrefix (O.held output.old) writer.old.piece (flat_map shown_line lines) (O.held output.new)) }
    ensures quiet { OnOk result (O.faults output.new ≡ O.faults output.old) }
    ensures cause { IfErr result (IsPrintError (O.faults output.old) (O.faults output.new)) }
    ensures counted { O.faults output.old ≤ O.faults output.new }
{
    let mut rest = text;
    while !rest.is_empty() {
        let (line, behind) = rest.split_at(line_size(rest));
        put_line(output, writer, line)?;
        rest = behind;
    }
    Ok(())
}

/// Prints one message of the file.
fn print_message<O: Sink>(
    output: &mut O,
    writer: &mut PieceWriter,
    file: &[u8],
    place: MessageAt,
) -> Result<(), PrintError>
    requires { (text : List ℕ) × ShowsMessage file.now place text }
    ensures ok { OnOk result ((text : List ℕ) → ShowsMessage file.now place text → Gathers (O.held output.old) writer.old.piece text (O.held output.new) writer.new.piece) }
    ensures err { OnErr result ((text : List ℕ) → ShowsMessage file.now place text → WritesPrefix (O.held output.old) writer.old.piece text (O.held output.new)) }
    ensures quiet { OnOk result (O.faults output.new ≡ O.faults output.old) }
    ensures cause { IfErr result (IsPrintError (O.faults output.old) (O.faults output.new)) }
    ensures counted { O.faults output.old ≤ O.faults output.new }
{
    let (_, behind) = file.split_at(place.lines as usize);
    let (lines, _) = behind.split_at((place.end - 1 - place.lines) as usize);
    put_heading(&mut writer.piece, place.offset, place.size)?;
    print_lines(output, writer, lines)
}

/// Prints the messages that stand at these places.
fn print_places<O: Sink>(
    alloc: Global,
    output: &mut O,
    file: &[u8],
    messages: &[MessageAt],
) -> Result<(), PrintError>
    requires { (text : List ℕ) × ShowsMessages file.now messages.now text }
    ensures ok { OnOk result ((text : List ℕ) → ShowsMessages file.now messages.now text → Appended (O.held output.old) text (O.held output.new)) }
    ensures err { OnErr result ((text : List ℕ) → ShowsMessages file.now messages.now text → WritesPrefix (O.held output.old) [] text (O.held output.new)) }
    ensures quiet { OnOk result (O.faults output.new ≡ O.faults output.old) }
    ensures cause { IfErr result (IsPrintError (O.faults output.old) (O.faults output.new)) }
    ensures counted { O.faults output.old ≤ O.faults output.new }
{
    let mut writer = PieceWriter::empty(alloc);
    for place in messages {
        print_message(output, &mut writer, file, *place)?;
    }
    writer.finish(output)
}

/// Prints the messages of a storage file, whose places these are: for each its heading, and its metadata lines after two spaces.
pub fn print_messages<O: Sink>(
    alloc: Global,
    output: &mut O,
    file: &[u8],
    messages: &[MessageAt],
) -> Result<(), PrintError>
    requires { HasPlaces file.now messages.now }
    ensures ok { OnOk result ((text : List ℕ) × IsDumpOf file.now text × Appended (O.held output.old) text (O.held output.new)) }
    ensures err { OnErr result ((text : List ℕ) × IsDumpOf file.now text × WritesPrefix (O.held output.old) [] text (O.held output.new)) }
    ensures quiet { OnOk result (O.faults output.new ≡ O.faults output.old) }
    ensures cause { IfErr result (IsPrintError (O.faults output.old) (O.faults output.new)) }
    ensures counted { O.faults output.old ≤ O.faults output.new }
{
    print_places(alloc, output, file, messages)
}
