// Printing the entries of a log, gathered in pieces.
ghost use Rattle.std.specs.Prelude.{◌≡◌, ◌==◌, ◌≤◌, ◌*◌, ◌++◌, ◌∷◌, [], ℕ, List, length, IfOk, IfErr, OnOk, OnErr};
ghost use Rattle.hex.specs.Hex.{encode_lower};
ghost use Rattle.mdbox_base.specs.Numbers.{decimal_text};
ghost use Rattle.mdbox_base.specs.Streams.{Appended};
ghost use Rattle.model_logs.specs.LogFile.{kind_letter};
ghost use Rattle.gate_log.specs.Text.{IsLogText};
ghost use Rattle.dump_text.specs.LogDumpText.{version_mark, head_line, entry_line, end_line, log_dump_text};
ghost use Rattle.piece_writer.specs.Pieces.{Gathers, WritesPrefix, IsPrintError};

use gate_log::LogText;
use hex::encode_to_slice;
use mdbox_base::{NoMemory, Octets, Sink, push_decimal};
use model_logs::{LogHead, LogKind};
use piece_writer::{PieceWriter, PrintError};
use std::alloc::Global;

/// How many octets of an entry become digits at once.
const PART: usize = 64;

/// The letter of a log's kind.
fn letter_of(kind: LogKind) -> &'static [u8]
    ensures { result.now ≡ kind_letter kind ∷ [] }
{
    match kind {
        LogKind::Root => b"R",
        LogKind::Map => b"M",
        LogKind::Box => b"B",
    }
}

/// What a log of version 2 has at the end of its first line.
fn mark_of(version: u8) -> &'static [u8]
    ensures { result.now ≡ version_mark (version == 2) }
{
    if version == 2 { b" V2" } else { b"" }
}

/// The line of a log's head.
fn head_text(alloc: Global, head: LogHead) -> Result<Octets, NoMemory>
    ensures { IfOk result (λ text. text ≡ head_line head) }
{
    let mut text = Octets::empty(alloc);
    text.push_all(b"LOG ")?;
    text.push_all(letter_of(head.kind))?;
    text.push_all(b" ")?;
    push_decimal(&mut text, head.number as u64)?;
    text.push_all(b" ")?;
    push_decimal(&mut text, head.generation as u64)?;
    text.push_all(mark_of(head.version))?;
    text.push_all(b"\n")?;
    Ok(text)
}

/// The last line.
fn end_text(alloc: Global, end: u64) -> Result<Octets, NoMemory>
    ensures { IfOk result (λ text. text ≡ end_line end) }
{
    let mut text = Octets::empty(alloc);
    text.push_all(b"END ")?;
    push_decimal(&mut text, end)?;
    text.push_all(b"\n")?;
    Ok(text)
}

/// Adds the place of a record and a space.
fn put_place(piece: &mut Octets, place: u64) -> Result<(), NoMemory>
    ensures { OnOk result (piece.new ≡ piece.old ++ (decimal_text place ++ 32 ∷ [])) }
{
    push_decimal(piece, place)?;
    piece.push_all(b" ")
}

/// Adds up to 64 octets as digits.
fn put_part<O: Sink>(
    output: &mut O,
    writer: &mut PieceWriter,
    part: &[u8],
) -> Result<(), PrintError>
    requires { length part.now ≤ 64 }
    ensures ok { OnOk result (Gathers (O.held output.old) writer.old.piece (encode_lower part.now) (O.held output.new) writer.new.piece) }
    ensures err { OnErr result (WritesPrefix (O.held output.old) writer.old.piece (encode_lower part.now) (O.held output.new)) }
    ensures quiet { OnOk result (O.faults output.new ≡ O.faults output.old) }
    ensures cause { IfErr result (IsPrintError (O.faults output.old) (O.faults output.new)) }
    ensures counted { O.faults output.old ≤ O.faults output.new }
{
    let mut digits = [0; 2 * PART];
    let size = 2 * part.len();
    encode_part(part, &mut digits[..size]);
    writer.put(output, &digits[..size])
}

/// Writes octets as digits, where there is room for exactly these.
fn encode_part(part: &[u8], digits: &mut [u8])
    requires { length digits.old ≡ 2 * length part.now }
    ensures { digits.new ≡ encode_lower part.now }
{
    let _ = encode_to_slice(part, digits);
}

/// Adds octets as digits.
fn put_digits<O: Sink>(
    output: &mut O,
    writer: &mut PieceWriter,
    octets: &[u8],
) -> Result<(), PrintError>
    ensures ok { OnOk result (Gathers (O.held output.old) writer.old.piece (encode_lower octets.now) (O.held output.new) writer.new.piece) }
    ensures err { OnErr result (WritesPrefix (O.held output.old) writer.old.piece (encode_lower octets.now) (O.held output.new)) }
    ensures quiet { OnOk result (O.faults output.new ≡ O.faults output.old) }
    ensures cause { IfErr result (IsPrintError (O.faults output.old) (O.faults output.new)) }
    ensures counted { O.faults output.old ≤ O.faults output.new }
{
    let mut rest = octets;
    while !rest.is_empty() {
        let (part, behind) = rest.split_at(rest.len().min(PART));
        put_part(output, writer, part)?;
        rest = behind;
    }
    Ok(())
}

/// Adds the line of an entry: the place of its record, and its digits.
fn put_entry<O: Sink>(
    output: &mut O,
    writer: &mut PieceWriter,
    place: u64,
    entry: &[u8],
) -> Result<(), PrintError>
    ensures ok { OnOk result (Gathers (O.held output.old) writer.old.piece (entry_line place entry.now) (O.held output.new) writer.new.piece) }
    ensures err { OnErr result (WritesPrefix (O.held output.old) writer.old.piece (entry_line place entry.now) (O.held output.new)) }
    ensures quiet { OnOk result (O.faults output.new ≡ O.faults output.old) }
    ensures cause { IfErr result (IsPrintError (O.faults output.old) (O.faults output.new)) }
    ensures counted { O.faults output.old ≤ O.faults output.new }
{
    put_place(&mut writer.piece, place)?;
    put_digits(output, writer, entry)?;
    writer.put(output, b"\n")
}

/// Prints a log: its head, each entry with the place of its record, and where it ends.
pub fn print_log<O: Sink>(alloc: Global, output: &mut O, text: &LogText) -> Result<(), PrintError>
    requires { (entries : List (List ℕ)) × IsLogText text.now entries }
    ensures ok { OnOk result ((entries : List (List ℕ)) → IsLogText text.now entries → Appended (O.held output.old) (log_dump_text text.now.head entries) (O.held output.new)) }
    ensures err { OnErr result ((entries : List (List ℕ)) → IsLogText text.now entries → WritesPrefix (O.held output.old) [] (log_dump_text text.now.head entries) (O.held output.new)) }
    ensures quiet { OnOk result (O.faults output.new ≡ O.faults output.old) }
    ensures cause { IfErr result (IsPrintError (O.faults output.old) (O.faults output.new)) }
    ensures counted { O.faults output.old ≤ O.faults output.new }
{
    let mut writer = PieceWriter {
        piece: head_text(alloc, text.head)?,
    };
    let mut entries = text.entries();
    while let Some((place, entry)) = entries.next_entry() {
        put_entry(output, &mut writer, place, entry)?;
    }
    let end = end_text(alloc, text.end)?;
    writer.put(output, end.as_slice())?;
    writer.finish(output)
}
