// A run of the program, and its exit.
ghost use Rattle.std.specs.Prelude.{◌≡◌, ◌≤◌, ◌↔◌, map, string_bytes, IfOk, IsErr};
ghost use Rattle.std.specs.Process.{exit_status};
ghost use Rattle.mdbox_top.specs.Run.{Ends, Notes, RunOutcome, Moments, Rests, HasStatus, MayHaveFailed};
ghost use Rattle.piece_writer.specs.Pieces.{WritesOrFaults};
ghost use Rattle.request_text.specs.Commands.{Says, SayNothing};
ghost use Rattle.request_text.specs.Outcomes.{status_of, error_text};
ghost use Rattle.request_text.specs.declared.command.Command.{Command};
ghost use Rattle.request_text.specs.declared.outcome.Outcome.TheVariants as outcome;

use disk_model::Disk;
use mdbox_base::{Clock, NoMemory, Sink, Source};
use mdbox_threads::NoPause;
use mdbox_top::{Status, mdbox_run};
use request_text::{Outcome, report};
use std::alloc::Global;
use std::process::ExitCode;
use std::sync::Wait;
use std::thread::Threads;

/// Runs the words, or tells that there was no memory for them, and answers that status.
pub fn run<R: Threads + Wait + Sync, D: Disk + Send, I: Source, O: Sink, E: Sink, C: Clock>(
    rt: &R,
    alloc: Global,
    words: Result<Vec<String>, NoMemory>,
    disk: D,
    input: &mut I,
    output: &mut O,
    errors: &mut E,
    clock: &mut C,
) -> (Status, D)
    // The status is that of the run.
    ensures run { IfOk words (λ given. (command : Command) → Says (map string_bytes given.items) command
        → RunOutcome (Ends D command (I.left input.old) (C.time clock.old) (O.held output.old) (O.held output.new) (D.history disk) (D.history result.1) (D.faults disk) (D.faults result.1)) (Notes command (D.history result.1)) (result.0.0) (E.held errors.old) (E.faults errors.old) (E.held errors.new) (E.faults errors.new)) }

    // What a crash at any moment leaves, and what the disk is at the end.
    ensures moments { IfOk words (λ given. (command : Command) → Says (map string_bytes given.items) command
        → Moments command (I.left input.old) (C.time clock.old) (D.history disk) (D.history result.1)) }
    ensures rests { IfOk words (λ given. (command : Command) → Says (map string_bytes given.items) command
        → Rests command (I.left input.old) (C.time clock.old) (MayHaveFailed command (result.0.0)) (D.faults disk) (D.faults result.1) (D.history disk) (D.history result.1)) }
    ensures status { IfOk words (λ given. (command : Command) → Says (map string_bytes given.items) command → HasStatus command (I.left input.old) (D.history disk) (result.0.0)) }
    ensures usage { IfOk words (λ given. (result.0.0 ≡ 2) ↔ SayNothing (map string_bytes given.items)) }
    ensures known { result.0.0 ≤ 8 }

    // Without memory for the words that is told, and nothing else happens.
    ensures memory { IsErr words → (result.0.0 ≡ 5) × WritesOrFaults (E.held errors.old) (E.faults errors.old) (error_text outcome.NoMemory) (E.held errors.new) (E.faults errors.new) }
    ensures untouched { IsErr words → (input.new ≡ input.old) × (output.new ≡ output.old) × (clock.new ≡ clock.old) × (result.1 ≡ disk) }
{
    match words {
        Ok(words) => {
            let (status, disk) = mdbox_run(
                rt,
                alloc,
                words.as_slice(),
                disk,
                input,
                output,
                errors,
                clock,
                &NoPause,
            );
            (status, disk)
        }
        Err(NoMemory) => (report(alloc, errors, Outcome::NoMemory), disk),
    }
}

/// The exit of this status.
pub fn exit_of(status: Status) -> ExitCode
    ensures { exit_status result ≡ status.0 }
{
    ExitCode::from(status.0)
}
