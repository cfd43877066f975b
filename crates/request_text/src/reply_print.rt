// Printing replies of the store, gathered in pieces.
ghost use Rattle.std.specs.Prelude.{◌≡◌, ◌≤◌, ◌++◌, [], IfErr, OnOk, OnErr};
ghost use Rattle.mdbox_base.specs.Streams.{Appended};
ghost use Rattle.mdbox_base.specs.declared.replies.Reply.TheVariants as reply;
ghost use Rattle.request_text.specs.ReplyText.{numbers_text, guid_text, keywords_text, row_text, listing_text, reply_text, fetched_text, IsLong};
ghost use Rattle.piece_writer.specs.Pieces.{Gathers, WritesPrefix, IsPrintError};
ghost use Rattle.piece_writer.specs.declared.error.PrintError.TheVariants as print;

use crate::reply_line::{Line, numbers_line, reply_line};
use mdbox_base::{Guid, ListRow, MemSink, NoMemory, Octets, Reply, Seq, Sink, push_decimal};
use piece_writer::{PieceWriter, PrintError, write_text};
use std::alloc::Global;

/// Adds numbers in decimal, each behind a space.
pub fn push_numbers(text: &mut Octets, numbers: &[u64]) -> Result<(), NoMemory>
    ensures { OnOk result (text.new ≡ text.old ++ numbers_text numbers.now) }
{
    for number in numbers {
        text.push_all(b" ")?;
        push_decimal(text, *number)?;
    }
    Ok(())
}

/// Adds the digits of a GUID behind a space.
fn push_guid(text: &mut Octets, guid: Guid) -> Result<(), NoMemory>
    ensures { OnOk result (text.new ≡ text.old ++ guid_text guid) }
{
    let mut digits = [0u8; 32];
    match hex::encode_to_slice(guid.0.as_slice(), &mut digits) {
        Ok(()) => {
            text.push_all(b" ")?;
            text.push_all(&digits)
        }
        Err(_) => unreachable!(),
    }
}

/// Adds keywords, each behind a space.
fn push_keywords(text: &mut Octets, words: &[Octets]) -> Result<(), NoMemory>
    ensures { OnOk result (text.new ≡ text.old ++ keywords_text words.now) }
{
    for word in words {
        text.push_all(b" ")?;
        text.push_all(word.as_slice())?;
    }
    Ok(())
}

/// Adds a row of a listing.
fn push_row(text: &mut Octets, row: &ListRow) -> Result<(), NoMemory>
    ensures { OnOk result (text.new ≡ text.old ++ row_text row.now) }
{
    push_decimal(text, row.uid.0 as u64)?;
    push_numbers(text, &[row.flags.bits() as u64, row.size as u64, row.time])?;
    push_guid(text, row.guid)?;
    push_keywords(text, row.words.as_slice())?;
    text.push_all(b"\n")
}

/// Adds a line to the piece. A piece that is full is given to the output.
pub fn put_line<O: Sink>(
    output: &mut O,
    writer: &mut PieceWriter,
    line: &Line,
) -> Result<(), PrintError>
    ensures ok { OnOk result (Gathers (O.held output.old) writer.old.piece line.now (O.held output.new) writer.new.piece) }
    ensures err { OnErr result (WritesPrefix (O.held output.old) writer.old.piece line.now (O.held output.new)) }
    ensures quiet { OnOk result (O.faults output.new ≡ O.faults output.old) }
    ensures cause { IfErr result (IsPrintError (O.faults output.old) (O.faults output.new)) }
    ensures counted { O.faults output.old ≤ O.faults output.new }
{
    writer.put(output, line.as_slice())
}

/// Adds a row to the piece. A piece that is full is given to the output.
fn put_row<O: Sink>(
    output: &mut O,
    writer: &mut PieceWriter,
    row: &ListRow,
) -> Result<(), PrintError>
    ensures ok { OnOk result (Gathers (O.held output.old) writer.old.piece (row_text row.now) (O.held output.new) writer.new.piece) }
    ensures err { OnErr result (WritesPrefix (O.held output.old) writer.old.piece (row_text row.now) (O.held output.new)) }
    ensures quiet { OnOk result (O.faults output.new ≡ O.faults output.old) }
    ensures cause { IfErr result (IsPrintError (O.faults output.old) (O.faults output.new)) }
    ensures counted { O.faults output.old ≤ O.faults output.new }
{
    push_row(&mut writer.piece, row)?;
    writer.put(output, b"")
}

/// Adds the rows of a listing to the piece.
fn put_listing<O: Sink>(
    output: &mut O,
    writer: &mut PieceWriter,
    rows: &[ListRow],
) -> Result<(), PrintError>
    ensures ok { OnOk result (Gathers (O.held output.old) writer.old.piece (listing_text rows.now) (O.held output.new) writer.new.piece) }
    ensures err { OnErr result (WritesPrefix (O.held output.old) writer.old.piece (listing_text rows.now) (O.held output.new)) }
    ensures quiet { OnOk result (O.faults output.new ≡ O.faults output.old) }
    ensures cause { IfErr result (IsPrintError (O.faults output.old) (O.faults output.new)) }
    ensures counted { O.faults output.old ≤ O.faults output.new }
{
    let line = numbers_line(&[rows.len() as u64]);
    put_line(output, writer, &line)?;
    for row in rows {
        put_row(output, writer, row)?;
    }
    Ok(())
}

/// Adds a message that was fetched to the piece: a long one goes to the output from where it lies.
fn put_fetched<O: Sink>(
    output: &mut O,
    writer: &mut PieceWriter,
    message: &Octets,
) -> Result<(), PrintError>
    ensures ok { OnOk result (Gathers (O.held output.old) writer.old.piece (reply_text (reply.Fetched message.now)) (O.held output.new) writer.new.piece) }
    ensures err { OnErr result (WritesPrefix (O.held output.old) writer.old.piece (reply_text (reply.Fetched message.now)) (O.held output.new)) }
    ensures quiet { OnOk result (O.faults output.new ≡ O.faults output.old) }
    ensures cause { IfErr result (IsPrintError (O.faults output.old) (O.faults output.new)) }
    ensures counted { O.faults output.old ≤ O.faults output.new }
{
    let line = numbers_line(&[message.length() as u64]);
    put_line(output, writer, &line)?;
    writer.put(output, message.as_slice())?;
    writer.put(output, b"\n")
}

/// Adds a reply to the piece. A piece that is full is given to the output.
pub fn put_reply<O: Sink>(
    output: &mut O,
    writer: &mut PieceWriter,
    reply: &Reply,
) -> Result<(), PrintError>
    ensures ok { OnOk result (Gathers (O.held output.old) writer.old.piece (reply_text reply.now) (O.held output.new) writer.new.piece) }
    ensures err { OnErr result (WritesPrefix (O.held output.old) writer.old.piece (reply_text reply.now) (O.held output.new)) }
    ensures quiet { OnOk result (O.faults output.new ≡ O.faults output.old) }
    ensures cause { IfErr result (IsPrintError (O.faults output.old) (O.faults output.new)) }
    ensures counted { O.faults output.old ≤ O.faults output.new }
{
    match reply {
        Reply::Listed(rows) => put_listing(output, writer, rows.as_slice()),
        Reply::Fetched(message) => put_fetched(output, writer, message),
        _ => {
            let line = reply_line(reply);
            put_line(output, writer, &line)
        }
    }
}

/// Prints a reply. Only a listing or a message takes memory.
pub fn print_reply<O: Sink>(alloc: Global, output: &mut O, reply: &Reply) -> Result<(), PrintError>
    ensures ok { OnOk result (Appended (O.held output.old) (reply_text reply.now) (O.held output.new)) }
    ensures err { OnErr result (WritesPrefix (O.held output.old) [] (reply_text reply.now) (O.held output.new)) }
    ensures quiet { OnOk result (O.faults output.new ≡ O.faults output.old) }
    ensures cause { IfErr result (IsPrintError (O.faults output.old) (O.faults output.new)) }
    ensures memory { IfErr result (λ error. error ≡ print.NoMemory → IsLong reply.now) }
    ensures counted { O.faults output.old ≤ O.faults output.new }
{
    match reply {
        Reply::Listed(_) | Reply::Fetched(_) => print_long(alloc, output, reply),
        _ => {
            write_text(output, reply_line(reply).as_slice())?;
            Ok(())
        }
    }
}

/// Prints a reply, gathered in pieces.
fn print_long<O: Sink>(alloc: Global, output: &mut O, reply: &Reply) -> Result<(), PrintError>
    ensures ok { OnOk result (Appended (O.held output.old) (reply_text reply.now) (O.held output.new)) }
    ensures err { OnErr result (WritesPrefix (O.held output.old) [] (reply_text reply.now) (O.held output.new)) }
    ensures quiet { OnOk result (O.faults output.new ≡ O.faults output.old) }
    ensures cause { IfErr result (IsPrintError (O.faults output.old) (O.faults output.new)) }
    ensures counted { O.faults output.old ≤ O.faults output.new }
{
    let mut writer = PieceWriter::empty(alloc);
    put_reply(output, &mut writer, reply)?;
    writer.finish(output)
}

/// Prints the reply to a fetch that is a request of its own: of a message that was fetched the octets alone, from where they lie. It can
/// be out of memory only at a listing or a message.
pub fn print_fetch_alone<O: Sink>(
    alloc: Global,
    output: &mut O,
    reply: &Reply,
) -> Result<(), PrintError>
    ensures ok { OnOk result (Appended (O.held output.old) (fetched_text reply.now) (O.held output.new)) }
    ensures err { OnErr result (WritesPrefix (O.held output.old) [] (fetched_text reply.now) (O.held output.new)) }
    ensures quiet { OnOk result (O.faults output.new ≡ O.faults output.old) }
    ensures cause { IfErr result (IsPrintError (O.faults output.old) (O.faults output.new)) }
    ensures memory { IfErr result (λ error. error ≡ print.NoMemory → IsLong reply.now) }
    ensures counted { O.faults output.old ≤ O.faults output.new }
{
    match reply {
        Reply::Fetched(message) => {
            write_text(output, message.as_slice())?;
            Ok(())
        }
        _ => print_reply(alloc, output, reply),
    }
}

/// Appends a reply as it is printed. Without memory nothing is appended.
pub fn push_answer(alloc: Global, out: &mut Octets, reply: &Reply) -> Result<(), NoMemory>
    ensures ok { OnOk result (out.new ≡ out.old ++ reply_text reply.now) }
    ensures err { OnErr result (out.new ≡ out.old) }
{
    let mut text = MemSink::of(Octets::empty(alloc), Seq::empty(alloc));
    match print_reply(alloc, &mut text, reply) {
        Ok(()) => out.push_all(text.held().as_slice()),
        Err(_) => Err(NoMemory),
    }
}
