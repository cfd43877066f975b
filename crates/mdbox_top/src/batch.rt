// A script: it is read, its messages are prepared, the store is opened, its requests are done on their lanes, and the replies printed.
ghost use Rattle.std.specs.Prelude.{◌≡◌, ◌≢◌, ◌≤◌, ◌⊎◌, ◌∷◌, [], List, length, map, Some, IfOk, IfErr, OnOk};
ghost use Rattle.disk_model.specs.FaultCounts.{NoFault, AnyFaultCounted};
ghost use Rattle.lanes.specs.Worlds.{AreGiven};
ghost use Rattle.mdbox_base.specs.Streams.{Rose};
ghost use Rattle.mdbox_base.specs.declared.replies.Reply.{Reply as ReplyValue};
ghost use Rattle.request_text.specs.BatchText.{batch_text};
ghost use Rattle.request_text.specs.Outcomes.{status_of};
ghost use Rattle.request_text.specs.declared.outcome.InputRefusal.{InputRefusal};
ghost use Rattle.request_text.specs.declared.outcome.Outcome.TheVariants as outcome;
ghost use Rattle.script_run.specs.Done.{MayBeServed};
ghost use Rattle.script_run.specs.LeftOpen.{IsServedOpen};
ghost use Rattle.script_run.specs.Opening.{IsUnopened};
ghost use Rattle.script_run.specs.Worked.{IsWorkedOut};
ghost use Rattle.script_text.specs.Script.{IsBadAt};
ghost use Rattle.mdbox_top.specs.BatchRun.{BatchOutcome, BatchMoments, BatchRests, HasNoScript, ReadsScript, ScriptOutcome, ScriptMoments, ScriptRests, ShowsReplies, TellsScriptFaults};
ghost use Rattle.mdbox_top.specs.InputRun.{OfInput, IsOneOf};

use crate::deliver::unread;
use crate::opening::outcome_of;
use crate::together::serve_script_in_threads;
use attach_detach::Prepared;
use disk_model::Disk;
use mdbox_base::{JournalEntry, NoMemory, Octets, Reply, Script, Seq, Sink, Source, read_all};
use mdbox_threads::{InThreads, Pause, Preparer};
use piece_writer::PrintError;
use request_text::{InputRefusal, Outcome, outcome_of_replies, print_batch};
use script_run::{ServedScript, serve_script};
use script_text::{ScriptError, flaw_at, read_script};
use std::alloc::Global;
use std::snapshot::Snapshot;
use std::sync::Wait;
use std::thread::Threads;
use store_open::OpenRefused;

/// How many octets a script may have.
const SCRIPT_LIMIT: u64 = 268_435_456;

/// Reads a script for so many lanes from the input to its end, takes the attachments out of its messages, opens the store, does the
/// requests on their lanes, prints the replies in the script's order, and hands the disk back. Unless there is a script no call of the
/// disk is made.
pub fn batch<P: Preparer, D: Disk, I: Source, O: Sink>(
    preparer: &P,
    alloc: Global,
    lanes: u32,
    disk: D,
    input: &mut I,
    output: &mut O,
) -> (Outcome, D)
    requires shared { P.shared preparer.now }
    requires lanes { (1 ≤ lanes) × (lanes ≤ 64) }
    ensures ends { BatchOutcome D lanes (I.left input.old) (O.held output.old) (O.held output.new) (D.history disk) (D.history result.1) (D.faults disk) (D.faults result.1) result.0 }
    ensures moments { BatchMoments lanes (I.left input.old) (D.history disk) (D.history result.1) }
    ensures rests { BatchRests lanes (I.left input.old) (IsOneOf (5 ∷ 6 ∷ 8 ∷ []) (status_of result.0)) (D.faults disk) (D.faults result.1) (D.history disk) (D.history result.1) }
    ensures disk_fault { TellsScriptFaults lanes (I.left input.old) (D.history disk) → AnyFaultCounted (result.0 ≡ outcome.DiskFault) (D.faults disk) (D.faults result.1) }
    ensures read_fault { result.0 ≡ outcome.ReadFault → Rose (I.faults input.old) (I.faults input.new) }
    ensures write_fault { result.0 ≡ outcome.WriteFault → Rose (O.faults output.old) (O.faults output.new) }
    ensures disk_quiet { TellsScriptFaults lanes (I.left input.old) (D.history disk) → (IsOneOf (5 ∷ 6 ∷ 8 ∷ []) (status_of result.0) → ⊥) → NoFault (D.faults disk) (D.faults result.1) }
    ensures uncalled { (result.0 ≡ outcome.ReadFault) ⊎ ((why : InputRefusal) × (result.0 ≡ outcome.InputRefused why)) → result.1 ≡ disk }
    ensures read_quiet { result.0 ≢ outcome.ReadFault → I.faults input.new ≡ I.faults input.old }
    ensures write_quiet { result.0 ≢ outcome.WriteFault → O.faults output.new ≡ O.faults output.old }
    ensures counted { (I.faults input.old ≤ I.faults input.new) × (O.faults output.old ≤ O.faults output.new) }
{
    match read_requests(preparer, alloc, lanes, input) {
        Ok((script, prepared)) => {
            let task = Snapshot::of(&script);
            let entry = Snapshot::of(&disk);
            let served = serve_script(alloc, disk, script, prepared);
            end_batch(alloc, &task, &entry, served, output)
        }
        Err(ended) => (ended, disk),
    }
}

/// As `batch` does, but that threads prepare the messages, and serve the lanes if there are more than one.
pub fn batch_in_threads<
    R: Threads + Wait + Sync,
    D: Disk + Send,
    I: Source,
    O: Sink,
    P: Pause + Sync,
>(
    rt: &R,
    alloc: Global,
    lanes: u32,
    disk: D,
    input: &mut I,
    output: &mut O,
    pause: &P,
) -> (Outcome, D)
    requires lanes { (1 ≤ lanes) × (lanes ≤ 64) }
    ensures ends { BatchOutcome D lanes (I.left input.old) (O.held output.old) (O.held output.new) (D.history disk) (D.history result.1) (D.faults disk) (D.faults result.1) result.0 }
    ensures moments { BatchMoments lanes (I.left input.old) (D.history disk) (D.history result.1) }
    ensures rests { BatchRests lanes (I.left input.old) (IsOneOf (5 ∷ 6 ∷ 8 ∷ []) (status_of result.0)) (D.faults disk) (D.faults result.1) (D.history disk) (D.history result.1) }
    ensures disk_fault { TellsScriptFaults lanes (I.left input.old) (D.history disk) → AnyFaultCounted (result.0 ≡ outcome.DiskFault) (D.faults disk) (D.faults result.1) }
    ensures read_fault { result.0 ≡ outcome.ReadFault → Rose (I.faults input.old) (I.faults input.new) }
    ensures write_fault { result.0 ≡ outcome.WriteFault → Rose (O.faults output.old) (O.faults output.new) }
    ensures disk_quiet { TellsScriptFaults lanes (I.left input.old) (D.history disk) → (IsOneOf (5 ∷ 6 ∷ 8 ∷ []) (status_of result.0) → ⊥) → NoFault (D.faults disk) (D.faults result.1) }
    ensures uncalled { (result.0 ≡ outcome.ReadFault) ⊎ ((why : InputRefusal) × (result.0 ≡ outcome.InputRefused why)) → result.1 ≡ disk }
    ensures read_quiet { result.0 ≢ outcome.ReadFault → I.faults input.new ≡ I.faults input.old }
    ensures write_quiet { result.0 ≢ outcome.WriteFault → O.faults output.new ≡ O.faults output.old }
    ensures counted { (I.faults input.old ≤ I.faults input.new) × (O.faults output.old ≤ O.faults output.new) }
{
    match read_requests(&InThreads { rt }, alloc, lanes, input) {
        Ok((script, prepared)) => {
            let task = Snapshot::of(&script);
            let entry = Snapshot::of(&disk);
            let served = serve_script_in_threads(rt, alloc, disk, script, prepared, pause);
            end_batch(alloc, &task, &entry, served, output)
        }
        Err(ended) => (ended, disk),
    }
}

/// The script that the input is, and the message of each delivery with its attachments taken out, at its request's place.
fn read_requests<P: Preparer, I: Source>(
    preparer: &P,
    alloc: Global,
    lanes: u32,
    input: &mut I,
) -> Result<(Script, Seq<Option<Prepared>>), Outcome>
    requires shared { P.shared preparer.now }
    ensures script { IfOk result (λ read. OfInput (I.left input.old) (λ octets. ReadsScript lanes octets read.0)) }
    ensures given { IfOk result (λ read. AreGiven read.0.requests read.1) }
    ensures none { IfErr result (HasNoScript lanes (I.left input.old)) }
    ensures cause { IfErr result (λ ended. ended ≡ outcome.ReadFault → Rose (I.faults input.old) (I.faults input.new)) }
    ensures quiet { OnOk result (I.faults input.new ≡ I.faults input.old) }
    ensures unfailed { IfErr result (λ ended. ended ≢ outcome.ReadFault → I.faults input.new ≡ I.faults input.old) }
    ensures counted { I.faults input.old ≤ I.faults input.new }
{
    let text = match read_all(alloc, input, SCRIPT_LIMIT) {
        Ok(text) => text,
        Err(error) => return Err(unread(error)),
    };
    let script = script_of(alloc, text, lanes)?;
    match preparer.prepare_messages(alloc, script.requests.as_slice()) {
        Ok(prepared) => Ok((script, prepared)),
        Err(NoMemory) => Err(Outcome::NoMemory),
    }
}

/// The script for so many lanes that a text is. The text is dropped, so that each message is there once.
fn script_of(alloc: Global, text: Octets, lanes: u32) -> Result<Script, Outcome>
    requires short { length text ≤ 268435456 }
    ensures script { IfOk result (ReadsScript lanes text) }
    ensures none { IfErr result (HasNoScript lanes (Some text)) }
    ensures read { IfErr result (λ ended. ended ≢ outcome.ReadFault) }
{
    match read_script(alloc, text.as_slice(), lanes) {
        Ok(script) => Ok(script),
        Err(ScriptError::Bad(offset)) => Err(refused_at(alloc, &text, lanes, offset)),
        Err(ScriptError::NoMemory) => Err(Outcome::NoMemory),
    }
}

/// The end of a run whose input goes wrong as a script at this offset.
fn refused_at(alloc: Global, text: &Octets, lanes: u32, offset: u64) -> Outcome
    requires short { length text.now ≤ 268435456 }
    requires bad { IsBadAt lanes text.now offset }
    ensures none { HasNoScript lanes (Some text.now) result }
    ensures read { result ≢ outcome.ReadFault }
{
    match flaw_at(alloc, text.as_slice(), lanes, offset) {
        Ok(flaw) => Outcome::InputRefused(InputRefusal::Script(flaw)),
        Err(NoMemory) => Outcome::NoMemory,
    }
}

/// Prints the replies of a script that was served from this disk, or says why its store wasn't opened, and hands the disk back.
fn end_batch<D: Disk, O: Sink>(
    alloc: Global,
    script: &Snapshot<Script>,
    disk: &Snapshot<D>,
    served: Result<ServedScript<D>, OpenRefused<D>>,
    output: &mut O,
) -> (Outcome, D)
    requires served { IfOk served (λ served. (given : List ReplyValue) × (served.replies ≡ map Some given) × IsServedOpen script.now.value.requests given served.journal (D.history disk.now.value) (D.history served.store.disk) (D.faults disk.now.value) (D.faults served.store.disk) served.store) }
    requires worked { IfOk served (λ served. IsWorkedOut D script.now.value.requests script.now.value.lanes served.replies served.journal (D.history disk.now.value) (D.history served.store.disk) (D.faults disk.now.value) (D.faults served.store.disk)) }
    requires refused { IfErr served (λ refused. IsUnopened refused.error (D.history disk.now.value) (D.history refused.disk) (D.faults disk.now.value) (D.faults refused.disk)) }
    ensures ends { ScriptOutcome D script.now.value (O.held output.old) (O.held output.new) (D.history disk.now.value) (D.history result.1) (D.faults disk.now.value) (D.faults result.1) result.0 }
    ensures moments { ScriptMoments script.now.value.requests (D.history disk.now.value) (D.history result.1) }
    ensures rests { ScriptRests script.now.value.requests (IsOneOf (5 ∷ 6 ∷ 8 ∷ []) (status_of result.0)) (D.faults disk.now.value) (D.faults result.1) (D.history disk.now.value) (D.history result.1) }
    ensures disk_fault { MayBeServed script.now.value.requests (D.history disk.now.value) → AnyFaultCounted (result.0 ≡ outcome.DiskFault) (D.faults disk.now.value) (D.faults result.1) }
    ensures disk_quiet { MayBeServed script.now.value.requests (D.history disk.now.value) → (IsOneOf (5 ∷ 6 ∷ 8 ∷ []) (status_of result.0) → ⊥) → NoFault (D.faults disk.now.value) (D.faults result.1) }
    ensures write_fault { result.0 ≡ outcome.WriteFault → Rose (O.faults output.old) (O.faults output.new) }
    ensures write_quiet { result.0 ≢ outcome.WriteFault → O.faults output.new ≡ O.faults output.old }
    ensures counted { O.faults output.old ≤ O.faults output.new }
{
    match served {
        Ok(
            ServedScript {
                replies,
                journal,
                store,
            },
        ) => {
            let ended = print_replies(alloc, output, journal.as_slice(), replies.as_slice());
            (ended, store.into_disk())
        }
        Err(OpenRefused { error, disk }) => (outcome_of(error), disk),
    }
}

/// Prints the replies of a script.
fn print_replies<O: Sink>(
    alloc: Global,
    output: &mut O,
    journal: &[JournalEntry],
    replies: &[Option<Reply>],
) -> Outcome
    ensures shown { ShowsReplies (batch_text journal.now replies.now) replies.now (O.held output.old) (O.held output.new) result }
    ensures write_fault { result ≡ outcome.WriteFault → Rose (O.faults output.old) (O.faults output.new) }
    ensures write_quiet { result ≢ outcome.WriteFault → O.faults output.new ≡ O.faults output.old }
    ensures counted { O.faults output.old ≤ O.faults output.new }
{
    match print_batch(alloc, output, journal, replies) {
        Ok(()) => outcome_of_replies(replies),
        Err(PrintError::NoMemory) => Outcome::NoMemory,
        Err(PrintError::WriteFault) => Outcome::WriteFault,
    }
}
