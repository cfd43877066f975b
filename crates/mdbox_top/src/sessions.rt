// A session: requests are done as they come.
ghost use Rattle.std.specs.Prelude.{◌≡◌, ◌≢◌, ◌≤◌};
ghost use Rattle.disk_model.specs.FaultCounts.{AnyFaultCounted, NoFault};
ghost use Rattle.mdbox_base.specs.Streams.{Rose};
ghost use Rattle.request_text.specs.Outcomes.{status_of};
ghost use Rattle.request_text.specs.declared.outcome.Outcome.TheVariants as outcome;
ghost use Rattle.mdbox_top.specs.SessionRun.{MayEndFailed, ServeMoments, ServeOutcome, ServeRests, TellsServeFaults};

use crate::opening::outcome_of;
use disk_model::Disk;
use mdbox_base::{Sink, Source};
use request_text::Outcome;
use session::serve_session;
use std::alloc::Global;
use store_open::OpenRefused;

/// Opens the store, does the requests that come on the input, and prints each reply before the next is read; hands the disk back.
pub fn serve_input<D: Disk, I: Source, O: Sink>(
    alloc: Global,
    disk: D,
    input: &mut I,
    output: &mut O,
) -> (Outcome, D)
    ensures ends { ServeOutcome (I.left input.old) (O.held output.old) (O.held output.new) (D.history disk) (D.history result.1) (D.faults disk) (D.faults result.1) result.0 }
    ensures moments { ServeMoments (I.left input.old) (D.history disk) (D.history result.1) }
    ensures rests { ServeRests (I.left input.old) (MayEndFailed (status_of result.0)) (D.faults disk) (D.faults result.1) (D.history disk) (D.history result.1) }
    ensures disk_fault { TellsServeFaults (I.left input.old) (D.history disk) → AnyFaultCounted (result.0 ≡ outcome.DiskFault) (D.faults disk) (D.faults result.1) }
    ensures disk_quiet { TellsServeFaults (I.left input.old) (D.history disk) → (MayEndFailed (status_of result.0) → ⊥) → NoFault (D.faults disk) (D.faults result.1) }
    ensures read_fault { result.0 ≡ outcome.ReadFault → Rose (I.faults input.old) (I.faults input.new) }
    ensures write_fault { result.0 ≡ outcome.WriteFault → Rose (O.faults output.old) (O.faults output.new) }
    ensures read_quiet { result.0 ≢ outcome.ReadFault → I.faults input.new ≡ I.faults input.old }
    ensures write_quiet { result.0 ≢ outcome.WriteFault → O.faults output.new ≡ O.faults output.old }
    ensures counted { (I.faults input.old ≤ I.faults input.new) × (O.faults output.old ≤ O.faults output.new) }
{
    match serve_session(alloc, disk, input, output) {
        Ok((ended, disk)) => (ended, disk),
        Err(OpenRefused { error, disk }) => (outcome_of(error), disk),
    }
}
