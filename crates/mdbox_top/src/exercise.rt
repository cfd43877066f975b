// An exercise: the script that a number makes is done as `batch` does one, and what the replies and the store tell is printed in nine lines.
ghost use Rattle.std.specs.Prelude.{◌≡◌, ◌≢◌, ◌≤◌, List, Some, true, false, map, IfErr, IfOk};
ghost use Rattle.std.specs.List.{list_any};
ghost use Rattle.disk_model.specs.FaultCounts.{NoFault, AnyFaultCounted};
ghost use Rattle.lanes.specs.Worlds.{AreGiven};
ghost use Rattle.mdbox_base.specs.Streams.{Rose};
ghost use Rattle.mdbox_base.specs.declared.replies.Reply.{Reply as ReplyValue};
ghost use Rattle.request_text.specs.Outcomes.{is_disk_no};
ghost use Rattle.request_text.specs.declared.outcome.Outcome.TheVariants as outcome;
ghost use Rattle.script_run.specs.LeftOpen.{IsServedOpen};
ghost use Rattle.script_run.specs.Opening.{IsUnopened};
ghost use Rattle.script_run.specs.Script.{has_fetch};
ghost use Rattle.script_run.specs.Worked.{IsWorkedOut};
ghost use Rattle.script_text.specs.MadeScript.{made_script};
ghost use Rattle.store_core.specs.Value.{indexes_of};
ghost use Rattle.mdbox_top.specs.BatchRun.{ScriptMoments, ScriptRests, ShowsReplies};
ghost use Rattle.mdbox_top.specs.ExerciseRun.{CountedOutcome, ExerciseOutcome, ExerciseMoments, ExerciseRests};
ghost use Rattle.mdbox_top.specs.Numbers.{exercise_text};

use crate::numbers::count_up;
use crate::opening::outcome_of;
use crate::together::serve_script_in_threads;
use attach_detach::Prepared;
use disk_model::Disk;
use mdbox_base::{NoMemory, Reply, Script, Seq, Sink};
use mdbox_threads::{InThreads, Pause, Preparer};
use piece_writer::PrintError;
use request_text::{Outcome, outcome_of_replies, print_summary};
use script_run::{ServedScript, serve_script};
use script_text::{exercise_script, made_scripts_fit};
use std::alloc::Global;
use std::snapshot::Snapshot;
use std::sync::Wait;
use std::thread::Threads;
use store_core::Store;
use store_open::OpenRefused;

/// Makes the script of so many requests for so many lanes that a number makes, takes the attachments out of its messages, opens the
/// store, does the requests on their lanes, prints the nine lines of what they came to, and hands the disk back.
pub fn exercise<P: Preparer, D: Disk, O: Sink>(
    preparer: &P,
    alloc: Global,
    lanes: u32,
    count: u32,
    number: u64,
    disk: D,
    output: &mut O,
) -> (Outcome, D)
    requires shared { P.shared preparer.now }
    requires lanes { (1 ≤ lanes) × (lanes ≤ 64) }
    requires count { (1 ≤ count) × (count ≤ 100000) }
    ensures ends { ExerciseOutcome D lanes count number (O.held output.old) (O.held output.new) (D.history disk) (D.history result.1) (D.faults disk) (D.faults result.1) result.0 }
    ensures moments { ExerciseMoments lanes count number (D.history disk) (D.history result.1) }
    ensures rests { ExerciseRests lanes count number (result.0 ≡ outcome.DiskFault) (D.faults disk) (D.faults result.1) (D.history disk) (D.history result.1) }
    ensures disk_fault { AnyFaultCounted (result.0 ≡ outcome.DiskFault) (D.faults disk) (D.faults result.1) }
    ensures disk_quiet { result.0 ≢ outcome.DiskFault → NoFault (D.faults disk) (D.faults result.1) }
    ensures write_fault { result.0 ≡ outcome.WriteFault → Rose (O.faults output.old) (O.faults output.new) }
    ensures write_quiet { result.0 ≢ outcome.WriteFault → O.faults output.new ≡ O.faults output.old }
    ensures counted { O.faults output.old ≤ O.faults output.new }
{
    made_scripts_fit();
    match make_script(preparer, alloc, lanes, count, number) {
        Ok((script, prepared)) => {
            let task = Snapshot::of(&script);
            let entry = Snapshot::of(&disk);
            let served = serve_script(alloc, disk, script, prepared);
            end_exercise(alloc, &task, &entry, served, output)
        }
        Err(NoMemory) => (Outcome::NoMemory, disk),
    }
}

/// As `exercise` does, but that threads prepare the messages, and serve the lanes if there are more than one.
pub fn exercise_in_threads<R: Threads + Wait + Sync, D: Disk + Send, O: Sink, P: Pause + Sync>(
    rt: &R,
    alloc: Global,
    lanes: u32,
    count: u32,
    number: u64,
    disk: D,
    output: &mut O,
    pause: &P,
) -> (Outcome, D)
    requires lanes { (1 ≤ lanes) × (lanes ≤ 64) }
    requires count { (1 ≤ count) × (count ≤ 100000) }
    ensures ends { ExerciseOutcome D lanes count number (O.held output.old) (O.held output.new) (D.history disk) (D.history result.1) (D.faults disk) (D.faults result.1) result.0 }
    ensures moments { ExerciseMoments lanes count number (D.history disk) (D.history result.1) }
    ensures rests { ExerciseRests lanes count number (result.0 ≡ outcome.DiskFault) (D.faults disk) (D.faults result.1) (D.history disk) (D.history result.1) }
    ensures disk_fault { AnyFaultCounted (result.0 ≡ outcome.DiskFault) (D.faults disk) (D.faults result.1) }
    ensures disk_quiet { result.0 ≢ outcome.DiskFault → NoFault (D.faults disk) (D.faults result.1) }
    ensures write_fault { result.0 ≡ outcome.WriteFault → Rose (O.faults output.old) (O.faults output.new) }
    ensures write_quiet { result.0 ≢ outcome.WriteFault → O.faults output.new ≡ O.faults output.old }
    ensures counted { O.faults output.old ≤ O.faults output.new }
{
    made_scripts_fit();
    match make_script(&InThreads { rt }, alloc, lanes, count, number) {
        Ok((script, prepared)) => {
            let task = Snapshot::of(&script);
            let entry = Snapshot::of(&disk);
            let served = serve_script_in_threads(rt, alloc, disk, script, prepared, pause);
            end_exercise(alloc, &task, &entry, served, output)
        }
        Err(NoMemory) => (Outcome::NoMemory, disk),
    }
}

/// The script that a number makes, and the message of each delivery with its attachments taken out, at its request's place.
fn make_script<P: Preparer>(
    preparer: &P,
    alloc: Global,
    lanes: u32,
    count: u32,
    number: u64,
) -> Result<(Script, Seq<Option<Prepared>>), NoMemory>
    requires shared { P.shared preparer.now }
    requires lanes { (1 ≤ lanes) × (lanes ≤ 64) }
    requires count { (1 ≤ count) × (count ≤ 100000) }
    ensures script { IfOk result (λ made. made.0 ≡ made_script lanes count number) }
    ensures given { IfOk result (λ made. AreGiven made.0.requests made.1) }
{
    made_scripts_fit();
    let script = exercise_script(alloc, lanes, count, number)?;
    let prepared = preparer.prepare_messages(alloc, script.requests.as_slice())?;
    Ok((script, prepared))
}

/// Prints what a script without a fetch came to that was served from this disk, or says why its store wasn't opened, and hands the disk back.
fn end_exercise<D: Disk, O: Sink>(
    alloc: Global,
    script: &Snapshot<Script>,
    disk: &Snapshot<D>,
    served: Result<ServedScript<D>, OpenRefused<D>>,
    output: &mut O,
) -> (Outcome, D)
    requires unread { has_fetch script.now.value.requests ≡ false }
    requires served { IfOk served (λ served. (given : List ReplyValue) × (served.replies ≡ map Some given) × IsServedOpen script.now.value.requests given served.journal (D.history disk.now.value) (D.history served.store.disk) (D.faults disk.now.value) (D.faults served.store.disk) served.store) }
    requires worked { IfOk served (λ served. IsWorkedOut D script.now.value.requests script.now.value.lanes served.replies served.journal (D.history disk.now.value) (D.history served.store.disk) (D.faults disk.now.value) (D.faults served.store.disk)) }
    requires refused { IfErr served (λ refused. IsUnopened refused.error (D.history disk.now.value) (D.history refused.disk) (D.faults disk.now.value) (D.faults refused.disk)) }
    ensures ends { CountedOutcome D script.now.value (O.held output.old) (O.held output.new) (D.history disk.now.value) (D.history result.1) (D.faults disk.now.value) (D.faults result.1) result.0 }
    ensures moments { ScriptMoments script.now.value.requests (D.history disk.now.value) (D.history result.1) }
    ensures rests { ScriptRests script.now.value.requests (result.0 ≡ outcome.DiskFault) (D.faults disk.now.value) (D.faults result.1) (D.history disk.now.value) (D.history result.1) }
    ensures disk_fault { AnyFaultCounted (result.0 ≡ outcome.DiskFault) (D.faults disk.now.value) (D.faults result.1) }
    ensures disk_quiet { result.0 ≢ outcome.DiskFault → NoFault (D.faults disk.now.value) (D.faults result.1) }
    ensures write_fault { result.0 ≡ outcome.WriteFault → Rose (O.faults output.old) (O.faults output.new) }
    ensures write_quiet { result.0 ≢ outcome.WriteFault → O.faults output.new ≡ O.faults output.old }
    ensures counted { O.faults output.old ≤ O.faults output.new }
{
    match served {
        Ok(
            ServedScript {
                replies,
                journal: _journal,
                store,
            },
        ) => {
            let ended = print_numbers(alloc, output, replies.as_slice(), &store);
            (ended, store.into_disk())
        }
        Err(OpenRefused { error, disk }) => (outcome_of(error), disk),
    }
}

/// Prints the nine lines of what replies and the store tell. If a reply says that the disk failed, nothing is printed.
fn print_numbers<D: Disk, O: Sink>(
    alloc: Global,
    output: &mut O,
    replies: &[Option<Reply>],
    store: &Store<D>,
) -> Outcome
    requires stopped { store.now.stopped ≡ true → list_any is_disk_no replies.now ≡ true }
    ensures shown { ShowsReplies (exercise_text replies.now store.now.map (indexes_of store.now.boxes)) replies.now (O.held output.old) (O.held output.new) result }
    ensures told { list_any is_disk_no replies.now ≡ true → result ≡ outcome.DiskFault }
    ensures write_fault { result ≡ outcome.WriteFault → Rose (O.faults output.old) (O.faults output.new) }
    ensures write_quiet { result ≢ outcome.WriteFault → O.faults output.new ≡ O.faults output.old }
    ensures counted { O.faults output.old ≤ O.faults output.new }
{
    let ended = outcome_of_replies(replies);
    if matches!(ended, Outcome::DiskFault) {
        return ended;
    }
    let Ok(summary) = count_up(replies, store) else {
        return Outcome::NoMemory;
    };
    match print_summary(alloc, output, summary) {
        Ok(()) => ended,
        Err(PrintError::NoMemory) => Outcome::NoMemory,
        Err(PrintError::WriteFault) => Outcome::WriteFault,
    }
}
