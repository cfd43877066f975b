// Telling how a run ended.
ghost use Rattle.std.specs.Prelude.{◌≡◌, ◌≤◌, ◌++◌, codes, IfOk, OnOk};
ghost use Rattle.mdbox_base.specs.Numbers.{decimal_text};
ghost use Rattle.piece_writer.specs.Pieces.{WritesOrFaults};
ghost use Rattle.request_text.specs.Outcomes.{status_of, reason_text, further_text, need_text, store_text, said, error_text, EndsAs};
ghost use Rattle.request_text.specs.declared.outcome.Outcome.{Outcome};
ghost use Rattle.request_text.specs.declared.outcome.StoreRefusal.TheVariants as store;

use crate::outcome::{FileRefusal, InputRefusal, Outcome, StoreRefusal};
use crate::status::Status;
use disk_model::FileName;
use file_paths::path_of;
use mdbox_base::{NoMemory, Octets, Sink, push_decimal};
use piece_writer::write_text;
use script_text::Need;
use std::alloc::Global;

/// Tells the errors' sink how the run ended, and answers the exit status.
/// A refusal whose text finds no memory ends as out of memory does.
pub fn report<E: Sink>(alloc: Global, errors: &mut E, outcome: Outcome) -> Status
    ensures told { (last : Outcome) × EndsAs outcome last × (result.0 ≡ status_of last)
        × WritesOrFaults (E.held errors.old) (E.faults errors.old) (error_text last) (E.held errors.new) (E.faults errors.new) }
    ensures counted { E.faults errors.old ≤ E.faults errors.new }
{
    match outcome {
        Outcome::Done => Status(0),
        Outcome::No => Status(1),
        Outcome::Usage => tell(errors, b"mdbox: usage\n", 2),
        Outcome::StoreRefused(why) => report_store(alloc, errors, why),
        Outcome::InputRefused(why) => match input_text(alloc, why) {
            Ok(text) => tell(errors, text.as_slice(), 4),
            Err(NoMemory) => tell(errors, b"mdbox: memory\n", 5),
        },
        Outcome::NoMemory => tell(errors, b"mdbox: memory\n", 5),
        Outcome::DiskFault => tell(errors, b"mdbox: disk fault\n", 6),
        Outcome::ReadFault => tell(errors, b"mdbox: read fault\n", 7),
        Outcome::WriteFault => tell(errors, b"mdbox: write fault\n", 8),
        Outcome::SessionFull => tell(errors, b"mdbox: session full\n", 0),
    }
}

/// Tells why a store was not made or opened, and answers the exit status.
fn report_store<E: Sink>(alloc: Global, errors: &mut E, why: StoreRefusal) -> Status
    ensures told { (last : Outcome) × EndsAs (Outcome.StoreRefused why) last × (result.0 ≡ status_of last)
        × WritesOrFaults (E.held errors.old) (E.faults errors.old) (error_text last) (E.held errors.new) (E.faults errors.new) }
    ensures counted { E.faults errors.old ≤ E.faults errors.new }
{
    match why {
        StoreRefusal::NoStore => tell(errors, b"mdbox: no store\n", 3),
        StoreRefusal::StoreWhole => tell(errors, b"mdbox: store whole\n", 3),
        StoreRefusal::MailFiles => tell(errors, b"mdbox: mail files without a store\n", 3),
        StoreRefusal::Damaged(name, place) => match damage_text(alloc, name, place) {
            Ok(text) => tell(errors, text.as_slice(), 3),
            Err(NoMemory) => tell(errors, b"mdbox: memory\n", 5),
        },
    }
}

/// Gives a text to the errors' sink, as far as that takes it, and answers the status.
fn tell<E: Sink>(errors: &mut E, text: &[u8], status: u8) -> Status
    ensures status { result.0 ≡ status }
    ensures gave { WritesOrFaults (E.held errors.old) (E.faults errors.old) text.now (E.held errors.new) (E.faults errors.new) }
    ensures counted { E.faults errors.old ≤ E.faults errors.new }
{
    // A fault of the errors' sink changes no status.
    let _ = write_text(errors, text);
    Status(status)
}

/// The line that tells why the input is refused, and of a script another, that tells where.
fn input_text(alloc: Global, why: InputRefusal) -> Result<Octets, NoMemory>
    ensures { IfOk result (λ text. text ≡ said (codes "input refused " ++ reason_text why) ++ further_text why) }
{
    let (reason, number) = reason_of(why);
    let mut text = Octets::empty(alloc);
    text.push_all(b"mdbox: input refused ")?;
    text.push_all(reason)?;
    push_decimal(&mut text, number)?;
    text.push_all(b"\n")?;
    push_further(&mut text, why)?;
    Ok(text)
}

/// Appends the line that tells where a script goes wrong.
fn push_further(text: &mut Octets, why: InputRefusal) -> Result<(), NoMemory>
    ensures { OnOk result (text.new ≡ text.old ++ further_text why) }
{
    if let InputRefusal::Script(flaw) = why {
        text.push_all(b"line ")?;
        push_decimal(text, flaw.line)?;
        text.push_all(b": ")?;
        text.push_all(need_of(flaw.need))?;
        text.push_all(b"\n")?;
    }
    Ok(())
}

/// What is missing of a request of a script.
fn need_of(need: Need) -> &'static [u8]
    ensures { result.now ≡ need_text need }
{
    match need {
        Need::Lane => b"it doesn't begin with a lane from 1 to LANES and a space",
        Need::Verb => {
            b"no verb after the lane: deliver, list, fetch, flag, keywords, copy, move, expunge, make, delete, rename, counts, purge or resync"
        }
        Need::Words => {
            b"not the words that the verb wants: a space before each, a name as LENGTH:NAME, no leading zero, a line feed at the end"
        }
        Need::Message => b"after this line not as many octets as it says, and a line feed",
        Need::Fewer => b"this is request 100001, and a script has at most 100000",
    }
}

/// The word of a refusal, and its number.
fn reason_of(why: InputRefusal) -> (&'static [u8], u64)
    ensures { reason_text why ≡ result.0.now ++ decimal_text result.1 }
{
    match why {
        InputRefusal::TooLong(limit) => (b"TooLong ", limit),
        InputRefusal::File(FileRefusal::BadHeader) => (b"BadHeader ", 0),
        InputRefusal::File(FileRefusal::HeaderSize(size)) => (b"HeaderSize ", size),
        InputRefusal::File(FileRefusal::Truncated(offset)) => (b"Truncated ", offset),
        InputRefusal::File(FileRefusal::BadMessage(offset)) => (b"BadMessage ", offset),
        InputRefusal::Log(place) => (b"LogDamaged ", place),
        InputRefusal::Script(flaw) => (b"Script ", flaw.offset),
    }
}

/// The line that tells where a store is damaged.
fn damage_text(alloc: Global, name: FileName, place: u64) -> Result<Octets, NoMemory>
    ensures { IfOk result (λ text. text ≡ said (store_text (store.Damaged name place))) }
{
    let mut text = Octets::empty(alloc);
    text.push_all(b"mdbox: damaged ")?;
    text.push_all(path_of(alloc, name)?.as_slice())?;
    text.push_all(b" ")?;
    push_decimal(&mut text, place)?;
    text.push_all(b"\n")?;
    Ok(text)
}
