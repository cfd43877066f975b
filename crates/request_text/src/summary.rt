// What is printed of an exercise.
ghost use Rattle.std.specs.Prelude.{◌≡◌, ◌≤◌, ◌++◌, ◌∷◌, [], OnOk, OnErr, IfOk, IfErr};
ghost use Rattle.mdbox_base.specs.Numbers.{decimal_text};
ghost use Rattle.mdbox_base.specs.Streams.{Appended};
ghost use Rattle.piece_writer.specs.Pieces.{WritesPrefix, IsPrintError};
ghost use Rattle.request_text.specs.SummaryText.{summary_text};

use mdbox_base::{NoMemory, Octets, Sink, push_decimal};
use piece_writer::{PrintError, write_text};
use std::alloc::Global;

/// What an exercise did, and what the store has after it.
#[derive(Clone, Copy, Debug, PartialEq, Eq)]
pub struct Summary {
    pub requests: u64,
    /// How many replies aren't NO, and how many are.
    pub ok: u64,
    pub no: u64,
    /// How many messages the mailboxes list, and the sum of their sizes in octets.
    pub messages: u64,
    pub octets: u64,
    /// The four numbers of the request `counts`.
    pub records: u64,
    pub references: u64,
    pub counts: u64,
    pub instances: u64,
}

/// Prints the nine lines of a summary.
pub fn print_summary<O: Sink>(
    alloc: Global,
    output: &mut O,
    summary: Summary,
) -> Result<(), PrintError>
    ensures ok { OnOk result (Appended (O.held output.old) (summary_text summary) (O.held output.new)) }
    ensures err { OnErr result (WritesPrefix (O.held output.old) [] (summary_text summary) (O.held output.new)) }
    ensures quiet { OnOk result (O.faults output.new ≡ O.faults output.old) }
    ensures cause { IfErr result (IsPrintError (O.faults output.old) (O.faults output.new)) }
    ensures counted { O.faults output.old ≤ O.faults output.new }
{
    let text = summary_lines(alloc, summary)?;
    write_text(output, text.as_slice())?;
    Ok(())
}

/// The lines of a summary.
fn summary_lines(alloc: Global, summary: Summary) -> Result<Octets, NoMemory>
    ensures { IfOk result (λ text. text ≡ summary_text summary) }
{
    let mut text = Octets::empty(alloc);
    push_count(&mut text, b"requests ", summary.requests)?;
    push_count(&mut text, b"ok ", summary.ok)?;
    push_count(&mut text, b"no ", summary.no)?;
    push_count(&mut text, b"messages ", summary.messages)?;
    push_count(&mut text, b"octets ", summary.octets)?;
    push_count(&mut text, b"records ", summary.records)?;
    push_count(&mut text, b"references ", summary.references)?;
    push_count(&mut text, b"counts ", summary.counts)?;
    push_count(&mut text, b"instances ", summary.instances)?;
    Ok(text)
}

/// Adds a line: a word, and a number.
fn push_count(text: &mut Octets, word: &[u8], number: u64) -> Result<(), NoMemory>
    ensures { OnOk result (text.new ≡ text.old ++ (word.now ++ (decimal_text number ++ 10 ∷ []))) }
{
    text.push_all(word)?;
    push_decimal(text, number)?;
    text.push_all(b"\n")
}
