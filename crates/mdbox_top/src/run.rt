// One run of the program.
ghost use Rattle.std.specs.Prelude.{◌≡◌, ◌≢◌, ◌≤◌, ◌↔◌, ◌⊎◌, false, true, map, string_bytes};
ghost use Rattle.disk_model.specs.FaultCounts.{NoFault, AnyFaultCounted};
ghost use Rattle.mdbox_base.specs.Streams.{Rose};
ghost use Rattle.piece_writer.specs.Pieces.{WritesOrFaults};
ghost use Rattle.request_text.specs.Commands.{IsInRange, Says, SayNothing};
ghost use Rattle.request_text.specs.Outcomes.{status_of, error_text};
ghost use Rattle.request_text.specs.declared.command.Command.{Command};
ghost use Rattle.request_text.specs.declared.outcome.Outcome.TheVariants as outcome;
ghost use Rattle.request_text.specs.declared.outcome.InputRefusal.{InputRefusal};
ghost use Rattle.mdbox_top.specs.DeliverRun.{IsReadWhole};
ghost use Rattle.mdbox_top.specs.Run.{Ends, Notes, RunOutcome, Moments, Rests, HasStatus, MayHaveFailed, TellsFaults, reads_before, reads_input, uses_disk, asks_clock};

use crate::alone::serve;
use crate::batch::{batch, batch_in_threads};
use crate::boxes::boxes;
use crate::deliver::deliver;
use crate::exercise::{exercise, exercise_in_threads};
use crate::init::init;
use crate::input_commands::{dump, logdump};
use crate::rebuild::rebuild;
use crate::sessions::serve_input;
use crate::show::show;
use disk_model::Disk;
use mdbox_base::{Clock, Request, Sink, Source};
use mdbox_threads::{InTurn, Pause, Preparer};
use request_text::{Command, HELP, Outcome, Status, VERSION, WordsError, read_words, report};
use std::alloc::Global;
use std::sync::Wait;
use std::thread::Threads;

/// Does what the words ask, and hands the disk back. `dump` and `logdump` read standard input to its end. The messages of a script are
/// prepared in threads of this runtime, if they are many, and its lanes are served by threads, if there are more than one. Such a thread
/// calls `pause` between its turns.
pub fn mdbox_run<
    R: Threads + Wait + Sync,
    D: Disk + Send,
    I: Source,
    O: Sink,
    E: Sink,
    C: Clock,
    P: Pause + Sync,
>(
    rt: &R,
    alloc: Global,
    words: &[String],
    disk: D,
    input: &mut I,
    output: &mut O,
    errors: &mut E,
    clock: &mut C,
    pause: &P,
) -> (Status, D)
    // What was read and printed, what the disk holds, what lanes did, what was told, and the status.
    ensures run { (command : Command) → Says (map string_bytes words.now) command
        → RunOutcome (Ends D command (I.left input.old) (C.time clock.old) (O.held output.old) (O.held output.new) (D.history disk) (D.history result.1) (D.faults disk) (D.faults result.1)) (Notes command (D.history result.1)) result.0.0 (E.held errors.old) (E.faults errors.old) (E.held errors.new) (E.faults errors.new) }

    // What a crash at any moment of the run leaves, whatever the result.
    ensures moments { (command : Command) → Says (map string_bytes words.now) command → Moments command (I.left input.old) (C.time clock.old) (D.history disk) (D.history result.1) }

    // What the disk is at the end, if no change of it failed.
    ensures rests { (command : Command) → Says (map string_bytes words.now) command → Rests command (I.left input.old) (C.time clock.old) (MayHaveFailed command result.0.0) (D.faults disk) (D.faults result.1) (D.history disk) (D.history result.1) }

    // No other status than what the input and the disk allow.
    ensures status { (command : Command) → Says (map string_bytes words.now) command → HasStatus command (I.left input.old) (D.history disk) result.0.0 }
    ensures known { result.0.0 ≤ 8 }

    // Words that say no command, whatever else: then that is told, and nothing else happens.
    ensures usage { (result.0.0 ≡ 2) ↔ SayNothing (map string_bytes words.now) }
    ensures unknown { SayNothing (map string_bytes words.now) → (input.new ≡ input.old) × (output.new ≡ output.old) × (clock.new ≡ clock.old) × (result.1 ≡ disk)
        × WritesOrFaults (E.held errors.old) (E.faults errors.old) (error_text outcome.Usage) (E.held errors.new) (E.faults errors.new) }

    // No call is made of an input, a disk or a clock that the command doesn't use.
    ensures unread { (command : Command) → Says (map string_bytes words.now) command → reads_input command ≡ false → input.new ≡ input.old }
    ensures untouched { (command : Command) → Says (map string_bytes words.now) command → uses_disk command ≡ false → result.1 ≡ disk }
    ensures unasked { (command : Command) → Says (map string_bytes words.now) command → asks_clock command ≡ false → clock.new ≡ clock.old }

    // With an input that is refused, and where the input or the clock fails, no call is made of the disk, whatever disk it is; but by a
    // session, which reads its input as it goes on.
    ensures uncalled { (command : Command) → Says (map string_bytes words.now) command → reads_before command ≡ true → (result.0.0 ≡ 4) ⊎ (result.0.0 ≡ 7) → result.1 ≡ disk }

    // The clock is asked once the input was read to its end, which came within its limit: of one that is refused it isn't.
    ensures asked { (clock.new ≡ clock.old) ⊎ (IsReadWhole (I.left input.old) (I.left input.new) × (I.faults input.new ≡ I.faults input.old)) }
    ensures refused { result.0.0 ≡ 4 → clock.new ≡ clock.old }

    // A fault only if that object's count of faults rose, and else it stayed: none is made up, and none hidden but by a
    // command that can't print that a read failed, or that the store is stopped. The counts never fall.
    ensures disk_fault { ((command : Command) → Says (map string_bytes words.now) command → TellsFaults command (I.left input.old) (D.history disk)) → AnyFaultCounted (result.0.0 ≡ 6) (D.faults disk) (D.faults result.1) }
    ensures read_fault { result.0.0 ≡ 7 → Rose (I.faults input.old) (I.faults input.new) ⊎ (Rose (C.faults clock.old) (C.faults clock.new) × IsReadWhole (I.left input.old) (I.left input.new)) }
    ensures write_fault { result.0.0 ≡ 8 → Rose (O.faults output.old) (O.faults output.new) }
    ensures disk_quiet { (command : Command) → Says (map string_bytes words.now) command → TellsFaults command (I.left input.old) (D.history disk) → (MayHaveFailed command result.0.0 → ⊥) → NoFault (D.faults disk) (D.faults result.1) }
    ensures read_quiet { result.0.0 ≢ 7 → I.faults input.new ≡ I.faults input.old }
    ensures clock_quiet { result.0.0 ≢ 7 → C.faults clock.new ≡ C.faults clock.old }
    ensures write_quiet { result.0.0 ≢ 8 → O.faults output.new ≡ O.faults output.old }
    ensures counted { (I.faults input.old ≤ I.faults input.new) × (O.faults output.old ≤ O.faults output.new) × (E.faults errors.old ≤ E.faults errors.new) × (C.faults clock.old ≤ C.faults clock.new) }
{
    match read_words(alloc, words) {
        Ok(command) => run_in_threads(
            rt, alloc, command, disk, input, output, errors, clock, pause,
        ),
        Err(WordsError::Usage) => (report(alloc, errors, Outcome::Usage), disk),
        Err(WordsError::NoMemory) => (report(alloc, errors, Outcome::NoMemory), disk),
    }
}

/// Does one command, and hands the disk back. The messages of a script are prepared as `preparer` does: `InTurn` starts no thread.
/// Its lanes are served in rounds by the caller's thread.
pub fn mdbox_alone<P: Preparer, D: Disk, I: Source, O: Sink, E: Sink, C: Clock>(
    preparer: &P,
    alloc: Global,
    command: Command,
    disk: D,
    input: &mut I,
    output: &mut O,
    errors: &mut E,
    clock: &mut C,
) -> (Status, D)
    requires shared { P.shared preparer.now }
    requires range { IsInRange command }
    ensures run { RunOutcome (Ends D command (I.left input.old) (C.time clock.old) (O.held output.old) (O.held output.new) (D.history disk) (D.history result.1) (D.faults disk) (D.faults result.1)) (Notes command (D.history result.1)) result.0.0 (E.held errors.old) (E.faults errors.old) (E.held errors.new) (E.faults errors.new) }
    ensures moments { Moments command (I.left input.old) (C.time clock.old) (D.history disk) (D.history result.1) }
    ensures rests { Rests command (I.left input.old) (C.time clock.old) (MayHaveFailed command result.0.0) (D.faults disk) (D.faults result.1) (D.history disk) (D.history result.1) }
    ensures status { HasStatus command (I.left input.old) (D.history disk) result.0.0 }
    ensures unread { reads_input command ≡ false → input.new ≡ input.old }
    ensures untouched { uses_disk command ≡ false → result.1 ≡ disk }
    ensures unasked { asks_clock command ≡ false → clock.new ≡ clock.old }
    ensures uncalled { reads_before command ≡ true → (result.0.0 ≡ 4) ⊎ (result.0.0 ≡ 7) → result.1 ≡ disk }
    ensures disk_fault { TellsFaults command (I.left input.old) (D.history disk) → AnyFaultCounted (result.0.0 ≡ 6) (D.faults disk) (D.faults result.1) }
    ensures read_fault { result.0.0 ≡ 7 → Rose (I.faults input.old) (I.faults input.new) ⊎ (Rose (C.faults clock.old) (C.faults clock.new) × IsReadWhole (I.left input.old) (I.left input.new)) }
    ensures write_fault { result.0.0 ≡ 8 → Rose (O.faults output.old) (O.faults output.new) }
    ensures disk_quiet { TellsFaults command (I.left input.old) (D.history disk) → (MayHaveFailed command result.0.0 → ⊥) → NoFault (D.faults disk) (D.faults result.1) }
    ensures read_quiet { result.0.0 ≢ 7 → I.faults input.new ≡ I.faults input.old }
    ensures clock_quiet { result.0.0 ≢ 7 → C.faults clock.new ≡ C.faults clock.old }
    ensures asked { (clock.new ≡ clock.old) ⊎ (IsReadWhole (I.left input.old) (I.left input.new) × (I.faults input.new ≡ I.faults input.old)) }
    ensures refused { result.0.0 ≡ 4 → clock.new ≡ clock.old }
    ensures write_quiet { result.0.0 ≢ 8 → O.faults output.new ≡ O.faults output.old }
    ensures counted { (I.faults input.old ≤ I.faults input.new) × (O.faults output.old ≤ O.faults output.new) × (E.faults errors.old ≤ E.faults errors.new) × (C.faults clock.old ≤ C.faults clock.new) }
{
    let (outcome, disk) = perform(preparer, alloc, command, disk, input, output, errors, clock);
    (report(alloc, errors, outcome), disk)
}

/// Does one command, and hands the disk back: as `mdbox_alone` does, but that threads serve the lanes of a script.
fn run_in_threads<
    R: Threads + Wait + Sync,
    D: Disk + Send,
    I: Source,
    O: Sink,
    E: Sink,
    C: Clock,
    P: Pause + Sync,
>(
    rt: &R,
    alloc: Global,
    command: Command,
    disk: D,
    input: &mut I,
    output: &mut O,
    errors: &mut E,
    clock: &mut C,
    pause: &P,
) -> (Status, D)
    requires range { IsInRange command }
    ensures run { RunOutcome (Ends D command (I.left input.old) (C.time clock.old) (O.held output.old) (O.held output.new) (D.history disk) (D.history result.1) (D.faults disk) (D.faults result.1)) (Notes command (D.history result.1)) result.0.0 (E.held errors.old) (E.faults errors.old) (E.held errors.new) (E.faults errors.new) }
    ensures moments { Moments command (I.left input.old) (C.time clock.old) (D.history disk) (D.history result.1) }
    ensures rests { Rests command (I.left input.old) (C.time clock.old) (MayHaveFailed command result.0.0) (D.faults disk) (D.faults result.1) (D.history disk) (D.history result.1) }
    ensures status { HasStatus command (I.left input.old) (D.history disk) result.0.0 }
    ensures unread { reads_input command ≡ false → input.new ≡ input.old }
    ensures untouched { uses_disk command ≡ false → result.1 ≡ disk }
    ensures unasked { asks_clock command ≡ false → clock.new ≡ clock.old }
    ensures uncalled { reads_before command ≡ true → (result.0.0 ≡ 4) ⊎ (result.0.0 ≡ 7) → result.1 ≡ disk }
    ensures disk_fault { TellsFaults command (I.left input.old) (D.history disk) → AnyFaultCounted (result.0.0 ≡ 6) (D.faults disk) (D.faults result.1) }
    ensures read_fault { result.0.0 ≡ 7 → Rose (I.faults input.old) (I.faults input.new) ⊎ (Rose (C.faults clock.old) (C.faults clock.new) × IsReadWhole (I.left input.old) (I.left input.new)) }
    ensures write_fault { result.0.0 ≡ 8 → Rose (O.faults output.old) (O.faults output.new) }
    ensures disk_quiet { TellsFaults command (I.left input.old) (D.history disk) → (MayHaveFailed command result.0.0 → ⊥) → NoFault (D.faults disk) (D.faults result.1) }
    ensures read_quiet { result.0.0 ≢ 7 → I.faults input.new ≡ I.faults input.old }
    ensures clock_quiet { result.0.0 ≢ 7 → C.faults clock.new ≡ C.faults clock.old }
    ensures asked { (clock.new ≡ clock.old) ⊎ (IsReadWhole (I.left input.old) (I.left input.new) × (I.faults input.new ≡ I.faults input.old)) }
    ensures refused { result.0.0 ≡ 4 → clock.new ≡ clock.old }
    ensures write_quiet { result.0.0 ≢ 8 → O.faults output.new ≡ O.faults output.old }
    ensures counted { (I.faults input.old ≤ I.faults input.new) × (O.faults output.old ≤ O.faults output.new) × (E.faults errors.old ≤ E.faults errors.new) × (C.faults clock.old ≤ C.faults clock.new) }
{
    let (ended, disk) = perform_in_threads(
        rt, alloc, command, disk, input, output, errors, clock, pause,
    );
    (report(alloc, errors, ended), disk)
}

/// Does one command, and says how it ended.
fn perform<P: Preparer, D: Disk, I: Source, O: Sink, E: Sink, C: Clock>(
    preparer: &P,
    alloc: Global,
    command: Command,
    disk: D,
    input: &mut I,
    output: &mut O,
    errors: &mut E,
    clock: &mut C,
) -> (Outcome, D)
    requires shared { P.shared preparer.now }
    requires range { IsInRange command }
    ensures ends { Ends D command (I.left input.old) (C.time clock.old) (O.held output.old) (O.held output.new) (D.history disk) (D.history result.1) (D.faults disk) (D.faults result.1) result.0 }
    ensures noted { Notes command (D.history result.1) result.0 (E.held errors.old) (E.faults errors.old) (E.held errors.new) (E.faults errors.new) }
    ensures moments { Moments command (I.left input.old) (C.time clock.old) (D.history disk) (D.history result.1) }
    ensures unread { reads_input command ≡ false → input.new ≡ input.old }
    ensures untouched { uses_disk command ≡ false → result.1 ≡ disk }
    ensures unasked { asks_clock command ≡ false → clock.new ≡ clock.old }
    ensures uncalled { reads_before command ≡ true → (result.0 ≡ outcome.ReadFault) ⊎ ((why : InputRefusal) × (result.0 ≡ outcome.InputRefused why)) → result.1 ≡ disk }
    ensures rests { Rests command (I.left input.old) (C.time clock.old) (MayHaveFailed command (status_of result.0)) (D.faults disk) (D.faults result.1) (D.history disk) (D.history result.1) }
    ensures disk_fault { TellsFaults command (I.left input.old) (D.history disk) → AnyFaultCounted (result.0 ≡ outcome.DiskFault) (D.faults disk) (D.faults result.1) }
    ensures read_fault { result.0 ≡ outcome.ReadFault → Rose (I.faults input.old) (I.faults input.new) ⊎ (Rose (C.faults clock.old) (C.faults clock.new) × IsReadWhole (I.left input.old) (I.left input.new)) }
    ensures write_fault { result.0 ≡ outcome.WriteFault → Rose (O.faults output.old) (O.faults output.new) }
    ensures disk_quiet { TellsFaults command (I.left input.old) (D.history disk) → (MayHaveFailed command (status_of result.0) → ⊥) → NoFault (D.faults disk) (D.faults result.1) }
    ensures read_quiet { result.0 ≢ outcome.ReadFault → I.faults input.new ≡ I.faults input.old }
    ensures clock_quiet { result.0 ≢ outcome.ReadFault → C.faults clock.new ≡ C.faults clock.old }
    ensures asked { (clock.new ≡ clock.old) ⊎ (IsReadWhole (I.left input.old) (I.left input.new) × (I.faults input.new ≡ I.faults input.old)) }
    ensures refused { (why : InputRefusal) → result.0 ≡ outcome.InputRefused why → clock.new ≡ clock.old }
    ensures write_quiet { result.0 ≢ outcome.WriteFault → O.faults output.new ≡ O.faults output.old }
    ensures counted { (I.faults input.old ≤ I.faults input.new) × (O.faults output.old ≤ O.faults output.new) × (E.faults errors.old ≤ E.faults errors.new) × (C.faults clock.old ≤ C.faults clock.new) }
{
    match command {
        Command::Init { id } => init(alloc, id, disk, output),
        Command::Deliver { name } => deliver(alloc, name, disk, input, output, clock),
        Command::List { name } => serve(alloc, Request::List { name }, None, disk, output),
        Command::Fetch { name, uid } => {
            serve(alloc, Request::Fetch { name, uid }, None, disk, output)
        }
        Command::Flag { name, uid, flags } => {
            let request = Request::Flag { name, uid, flags };
            serve(alloc, request, None, disk, output)
        }
        Command::Keywords { name, uid, words } => {
            let request = Request::Keywords { name, uid, words };
            serve(alloc, request, None, disk, output)
        }
        Command::Boxes => boxes(alloc, disk, output),
        Command::Counts => serve(alloc, Request::Counts, None, disk, output),
        Command::Resync => serve(alloc, Request::Resync, None, disk, output),
        Command::Purge => serve(alloc, Request::Purge, None, disk, output),
        Command::Expunge { name, uid } => {
            serve(alloc, Request::Expunge { name, uid }, None, disk, output)
        }
        Command::Copy { name, uid, target } => {
            let request = Request::Copy { name, uid, target };
            serve(alloc, request, None, disk, output)
        }
        Command::Move { name, uid, target } => {
            let request = Request::Move { name, uid, target };
            serve(alloc, request, None, disk, output)
        }
        Command::Make { name } => serve(alloc, Request::Make { name }, None, disk, output),
        Command::Delete { name } => serve(alloc, Request::Delete { name }, None, disk, output),
        Command::Rename { name, target } => {
            serve(alloc, Request::Rename { name, target }, None, disk, output)
        }
        Command::Batch { lanes } => batch(preparer, alloc, lanes, disk, input, output),
        Command::Serve => serve_input(alloc, disk, input, output),
        Command::Exercise {
            lanes,
            count,
            number,
        } => exercise(preparer, alloc, lanes, count, number, disk, output),
        Command::Rebuild { id } => rebuild(alloc, id, disk, output, errors),
        Command::Dump => (dump(alloc, input, output), disk),
        Command::LogDump => (logdump(alloc, input, output), disk),
        Command::Help => (show(output, HELP), disk),
        Command::Version => (show(output, VERSION), disk),
    }
}

/// Does one command, and says how it ended: as `perform` does, but that threads serve the lanes of a script.
fn perform_in_threads<
    R: Threads + Wait + Sync,
    D: Disk + Send,
    I: Source,
    O: Sink,
    E: Sink,
    C: Clock,
    P: Pause + Sync,
>(
    rt: &R,
    alloc: Global,
    command: Command,
    disk: D,
    input: &mut I,
    output: &mut O,
    errors: &mut E,
    clock: &mut C,
    pause: &P,
) -> (Outcome, D)
    requires range { IsInRange command }
    ensures ends { Ends D command (I.left input.old) (C.time clock.old) (O.held output.old) (O.held output.new) (D.history disk) (D.history result.1) (D.faults disk) (D.faults result.1) result.0 }
    ensures noted { Notes command (D.history result.1) result.0 (E.held errors.old) (E.faults errors.old) (E.held errors.new) (E.faults errors.new) }
    ensures moments { Moments command (I.left input.old) (C.time clock.old) (D.history disk) (D.history result.1) }
    ensures unread { reads_input command ≡ false → input.new ≡ input.old }
    ensures untouched { uses_disk command ≡ false → result.1 ≡ disk }
    ensures unasked { asks_clock command ≡ false → clock.new ≡ clock.old }
    ensures uncalled { reads_before command ≡ true → (result.0 ≡ outcome.ReadFault) ⊎ ((why : InputRefusal) × (result.0 ≡ outcome.InputRefused why)) → result.1 ≡ disk }
    ensures rests { Rests command (I.left input.old) (C.time clock.old) (MayHaveFailed command (status_of result.0)) (D.faults disk) (D.faults result.1) (D.history disk) (D.history result.1) }
    ensures disk_fault { TellsFaults command (I.left input.old) (D.history disk) → AnyFaultCounted (result.0 ≡ outcome.DiskFault) (D.faults disk) (D.faults result.1) }
    ensures read_fault { result.0 ≡ outcome.ReadFault → Rose (I.faults input.old) (I.faults input.new) ⊎ (Rose (C.faults clock.old) (C.faults clock.new) × IsReadWhole (I.left input.old) (I.left input.new)) }
    ensures write_fault { result.0 ≡ outcome.WriteFault → Rose (O.faults output.old) (O.faults output.new) }
    ensures disk_quiet { TellsFaults command (I.left input.old) (D.history disk) → (MayHaveFailed command (status_of result.0) → ⊥) → NoFault (D.faults disk) (D.faults result.1) }
    ensures read_quiet { result.0 ≢ outcome.ReadFault → I.faults input.new ≡ I.faults input.old }
    ensures clock_quiet { result.0 ≢ outcome.ReadFault → C.faults clock.new ≡ C.faults clock.old }
    ensures asked { (clock.new ≡ clock.old) ⊎ (IsReadWhole (I.left input.old) (I.left input.new) × (I.faults input.new ≡ I.faults input.old)) }
    ensures refused { (why : InputRefusal) → result.0 ≡ outcome.InputRefused why → clock.new ≡ clock.old }
    ensures write_quiet { result.0 ≢ outcome.WriteFault → O.faults output.new ≡ O.faults output.old }
    ensures counted { (I.faults input.old ≤ I.faults input.new) × (O.faults output.old ≤ O.faults output.new) × (E.faults errors.old ≤ E.faults errors.new) × (C.faults clock.old ≤ C.faults clock.new) }
{
    match command {
        Command::Batch { lanes } => {
            batch_in_threads(rt, alloc, lanes, disk, input, output, pause)
        }
        Command::Exercise {
            lanes,
            count,
            number,
        } => exercise_in_threads(rt, alloc, lanes, count, number, disk, output, pause),
        command => perform(&InTurn, alloc, command, disk, input, output, errors, clock),
    }
}
