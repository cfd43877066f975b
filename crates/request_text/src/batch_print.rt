// Printing the replies of a script.
ghost use Rattle.std.specs.Prelude.{◌≡◌, ◌≢◌, ◌≤◌, ◌+◌, ◌++◌, ◌∷◌, [], All, Some, length, take, OnOk, OnErr, IfErr};
ghost use Rattle.mdbox_base.specs.Streams.{Appended};
ghost use Rattle.piece_writer.specs.Pieces.{Gathers, WritesPrefix, IsPrintError};
ghost use Rattle.request_text.specs.BatchText.{place_text, places_text, front_text, numbered_text, answer_text, batch_text, request_steps};

use crate::places::{Places, Steps, steps_behind, steps_of};
use crate::reply_print::{push_answer, put_reply};
use mdbox_base::{JournalEntry, NoMemory, Octets, Reply, Sink, push_decimal};
use piece_writer::{PieceWriter, PrintError};
use std::alloc::Global;

/// Prints the replies of a script in its order, each with its number and the places of its steps in the journal. They are
/// gathered in pieces, and a long message goes to the output from where it lies.
pub fn print_batch<O: Sink>(
    alloc: Global,
    output: &mut O,
    journal: &[JournalEntry],
    replies: &[Option<Reply>],
) -> Result<(), PrintError>
    ensures ok { OnOk result (Appended (O.held output.old) (batch_text journal.now replies.now) (O.held output.new)) }
    ensures err { OnErr result (WritesPrefix (O.held output.old) [] (batch_text journal.now replies.now) (O.held output.new)) }
    ensures quiet { OnOk result (O.faults output.new ≡ O.faults output.old) }
    ensures cause { IfErr result (IsPrintError (O.faults output.old) (O.faults output.new)) }
    ensures counted { O.faults output.old ≤ O.faults output.new }
{
    let steps = steps_of(alloc, journal, replies.len())?;
    let rows = steps.as_slice();
    let mut writer = PieceWriter::empty(alloc);
    let mut request = 0;
    while request < replies.len() {
        let number = request as u64 + 1;
        put_answer(
            output,
            &mut writer,
            number,
            rows[request],
            &replies[request],
        )?;
        request += 1;
    }
    writer.finish(output)
}

/// Prints the reply to a request, counted from 0, as `print_batch` prints it among the others. None of its steps stands among the first
/// entries of the journal, of which there are so many.
pub fn print_answer<O: Sink>(
    alloc: Global,
    output: &mut O,
    journal: &[JournalEntry],
    before: usize,
    request: u32,
    given: &Reply,
) -> Result<(), PrintError>
    requires within { before ≤ length journal.now }
    requires own { All (λ entry. entry.request ≢ request) (take before journal.now) }
    ensures ok { OnOk result (Appended (O.held output.old) (answer_text (request + 1) (request_steps journal.now request) (Some given.now)) (O.held output.new)) }
    ensures err { OnErr result (WritesPrefix (O.held output.old) [] (answer_text (request + 1) (request_steps journal.now request) (Some given.now)) (O.held output.new)) }
    ensures quiet { OnOk result (O.faults output.new ≡ O.faults output.old) }
    ensures cause { IfErr result (IsPrintError (O.faults output.old) (O.faults output.new)) }
    ensures counted { O.faults output.old ≤ O.faults output.new }
{
    let steps = steps_behind(journal, before, request);
    let mut writer = PieceWriter::empty(alloc);
    let number = request as u64 + 1;
    put_numbered(output, &mut writer, number, steps.places(given), given)?;
    writer.finish(output)
}

/// Adds the reply to a request of a script, if it has one, to the piece. A piece that is full is given to the output.
fn put_answer<O: Sink>(
    output: &mut O,
    writer: &mut PieceWriter,
    number: u64,
    steps: Steps,
    answer: &Option<Reply>,
) -> Result<(), PrintError>
    ensures ok { OnOk result (Gathers (O.held output.old) writer.old.piece (answer_text number steps answer.now) (O.held output.new) writer.new.piece) }
    ensures err { OnErr result (WritesPrefix (O.held output.old) writer.old.piece (answer_text number steps answer.now) (O.held output.new)) }
    ensures quiet { OnOk result (O.faults output.new ≡ O.faults output.old) }
    ensures cause { IfErr result (IsPrintError (O.faults output.old) (O.faults output.new)) }
    ensures counted { O.faults output.old ≤ O.faults output.new }
{
    match answer {
        Some(given) => put_numbered(output, writer, number, steps.places(given), given),
        None => Ok(()),
    }
}

/// Adds a reply with its request's number and places to the piece. A piece that is full is given to the output.
fn put_numbered<O: Sink>(
    output: &mut O,
    writer: &mut PieceWriter,
    number: u64,
    places: Places,
    given: &Reply,
) -> Result<(), PrintError>
    ensures ok { OnOk result (Gathers (O.held output.old) writer.old.piece (numbered_text number places given.now) (O.held output.new) writer.new.piece) }
    ensures err { OnErr result (WritesPrefix (O.held output.old) writer.old.piece (numbered_text number places given.now) (O.held output.new)) }
    ensures quiet { OnOk result (O.faults output.new ≡ O.faults output.old) }
    ensures cause { IfErr result (IsPrintError (O.faults output.old) (O.faults output.new)) }
    ensures counted { O.faults output.old ≤ O.faults output.new }
{
    push_front(&mut writer.piece, number, places)?;
    put_reply(output, writer, given)
}

/// Adds a request's number and places, each before a space.
fn push_front(text: &mut Octets, number: u64, places: Places) -> Result<(), NoMemory>
    ensures { OnOk result (text.new ≡ text.old ++ front_text number places) }
{
    push_decimal(text, number)?;
    text.push_all(b" ")?;
    push_places(text, places)?;
    text.push_all(b" ")
}

/// Adds the places of a request's steps.
fn push_places(text: &mut Octets, places: Places) -> Result<(), NoMemory>
    ensures { OnOk result (text.new ≡ text.old ++ places_text places) }
{
    match places {
        Places::One(step) => push_place(text, step),
        Places::Two(copied, removed) => {
            push_place(text, copied)?;
            text.push_all(b",")?;
            push_place(text, removed)
        }
    }
}

/// Adds a place in the journal, or `-`.
fn push_place(text: &mut Octets, place: Option<u64>) -> Result<(), NoMemory>
    ensures { OnOk result (text.new ≡ text.old ++ place_text place) }
{
    match place {
        Some(place) => push_decimal(text, place),
        None => text.push_all(b"-"),
    }
}

/// Appends a reply of a script with its request's number and places, as it is printed. Without memory nothing is appended.
pub fn push_reply(
    alloc: Global,
    out: &mut Octets,
    number: u32,
    places: Places,
    reply: &Reply,
) -> Result<(), NoMemory>
    ensures ok { OnOk result (out.new ≡ out.old ++ numbered_text number places reply.now) }
    ensures err { OnErr result (out.new ≡ out.old) }
{
    let mut text = Octets::empty(alloc);
    push_front(&mut text, number as u64, places)?;
    push_answer(alloc, &mut text, reply)?;
    out.push_all(text.as_slice())
}
