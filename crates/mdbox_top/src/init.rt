// Making a store.
ghost use Rattle.std.specs.Prelude.{◌≡◌, ◌≢◌, ◌≤◌, length};
ghost use Rattle.disk_model.specs.FaultCounts.{NoFault, AnyFaultCounted};
ghost use Rattle.mdbox_base.specs.Streams.{Rose};
ghost use Rattle.mdbox_base.specs.Words.{IsOctets};
ghost use Rattle.mdbox_top.specs.InitRun.{InitOutcome, InitMoments};
ghost use Rattle.request_text.specs.declared.outcome.Outcome.TheVariants as outcome;

use crate::opening::outcome_of;
use crate::show::show;
use disk_model::Disk;
use mdbox_base::{Sink, StoreId};
use request_text::Outcome;
use std::alloc::Global;
use store_open::{OpenRefused, init_store};

/// Makes an empty store, prints `OK`, and hands the disk back.
pub fn init<D: Disk, O: Sink>(alloc: Global, id: StoreId, disk: D, output: &mut O) -> (Outcome, D)
    requires id { (length id.0 ≡ 8) × IsOctets id.0 }
    ensures ends { InitOutcome id.0 (O.held output.old) (O.held output.new) (D.history disk) (D.history result.1) result.0 }
    ensures moments { InitMoments id.0 (D.history disk) (D.history result.1) }
    ensures disk_fault { AnyFaultCounted (result.0 ≡ outcome.DiskFault) (D.faults disk) (D.faults result.1) }
    ensures disk_quiet { result.0 ≢ outcome.DiskFault → NoFault (D.faults disk) (D.faults result.1) }
    ensures write_fault { result.0 ≡ outcome.WriteFault → Rose (O.faults output.old) (O.faults output.new) }
    ensures write_quiet { result.0 ≢ outcome.WriteFault → O.faults output.new ≡ O.faults output.old }
    ensures counted { O.faults output.old ≤ O.faults output.new }
{
    match init_store(alloc, disk, id) {
        Ok(store) => (show(output, "OK\n"), store.into_disk()),
        Err(OpenRefused { error, disk }) => (outcome_of(error), disk),
    }
}
