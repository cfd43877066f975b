// Making a store again from its storage files.
ghost use Rattle.std.specs.Prelude.{◌≡◌, ◌≢◌, ◌≤◌, length};
ghost use Rattle.disk_model.specs.Disk.{IsIdle};
ghost use Rattle.disk_model.specs.FaultCounts.{NoFault, AnyFaultCounted};
ghost use Rattle.mdbox_base.specs.Streams.{Rose};
ghost use Rattle.mdbox_base.specs.Words.{IsOctets};
ghost use Rattle.mdbox_top.specs.RebuildRun.{PrintsIfRead, PrintsReport, RebuildOutcome, RebuildMoments, RebuildNotes};
ghost use Rattle.mdbox_top.specs.OpeningOutcome.{rebuild_outcome};
ghost use Rattle.request_text.specs.declared.outcome.Outcome.TheVariants as outcome;

use crate::back::{BackError, read_back};
use disk_model::Disk;
use mdbox_base::{Sink, StoreId};
use piece_writer::{PrintError, write_text};
use rebuild_files::RebuildError;
use rebuild_text::print_report;
use request_text::{Outcome, StoreRefusal};
use std::alloc::Global;
use store_rebuild::{RebuildRefused, RebuildReport, RebuiltStore};

/// Makes new logs for the storage files that are there, tells what came back, prints the report, and hands the disk back.
pub fn rebuild<D: Disk, O: Sink, E: Sink>(
    alloc: Global,
    id: StoreId,
    disk: D,
    output: &mut O,
    errors: &mut E,
) -> (Outcome, D)
    requires id { (length id.0 ≡ 8) × IsOctets id.0 }
    ensures ends { RebuildOutcome id.0 (O.held output.old) (O.held output.new) (D.history disk) (D.history result.1) result.0 }
    ensures noted { RebuildNotes (D.history result.1) result.0 (E.held errors.old) (E.faults errors.old) (E.held errors.new) (E.faults errors.new) }
    ensures moments { RebuildMoments (D.history disk) (D.history result.1) }
    ensures disk_fault { AnyFaultCounted (result.0 ≡ outcome.DiskFault) (D.faults disk) (D.faults result.1) }
    ensures disk_quiet { result.0 ≢ outcome.DiskFault → NoFault (D.faults disk) (D.faults result.1) }
    ensures write_fault { result.0 ≡ outcome.WriteFault → Rose (O.faults output.old) (O.faults output.new) }
    ensures write_quiet { result.0 ≢ outcome.WriteFault → O.faults output.new ≡ O.faults output.old }
    ensures counted { (O.faults output.old ≤ O.faults output.new) × (E.faults errors.old ≤ E.faults errors.new) }
{
    match store_rebuild::rebuild(alloc, disk, id) {
        Ok(RebuiltStore { disk, report }) => {
            let mut disk = disk;
            let ended = tell_rebuilt(alloc, &mut disk, output, errors, &report);
            (ended, disk)
        }
        Err(RebuildRefused { error, disk }) => (end_of_rebuild(error), disk),
    }
}

/// Tells what came back, and prints the report. The disk is read, and nothing changes.
fn tell_rebuilt<D: Disk, O: Sink, E: Sink>(
    alloc: Global,
    disk: &mut D,
    output: &mut O,
    errors: &mut E,
    report: &RebuildReport,
) -> Outcome
    ensures ends { PrintsIfRead report.now (O.held output.old) (O.held output.new) result }
    ensures noted { RebuildNotes (D.history disk.new) result (E.held errors.old) (E.faults errors.old) (E.held errors.new) (E.faults errors.new) }
    ensures idle { IsIdle (D.history disk.old) (D.history disk.new) }
    ensures disk_fault { AnyFaultCounted (result ≡ outcome.DiskFault) (D.faults disk.old) (D.faults disk.new) }
    ensures disk_quiet { result ≢ outcome.DiskFault → NoFault (D.faults disk.old) (D.faults disk.new) }
    ensures write_fault { result ≡ outcome.WriteFault → Rose (O.faults output.old) (O.faults output.new) }
    ensures write_quiet { result ≢ outcome.WriteFault → O.faults output.new ≡ O.faults output.old }
    ensures counted { (O.faults output.old ≤ O.faults output.new) × (E.faults errors.old ≤ E.faults errors.new) }
{
    match read_back(alloc, disk) {
        Ok(text) => {
            let _ = write_text(errors, text.as_slice());
            tell(alloc, output, report)
        }
        Err(BackError::DiskFault) => Outcome::DiskFault,
        Err(BackError::NoMemory) => Outcome::NoMemory,
    }
}

/// Prints a report.
fn tell<O: Sink>(alloc: Global, output: &mut O, report: &RebuildReport) -> Outcome
    ensures ends { PrintsReport report.now (O.held output.old) (O.held output.new) result }
    ensures write_fault { result ≡ outcome.WriteFault → Rose (O.faults output.old) (O.faults output.new) }
    ensures write_quiet { result ≢ outcome.WriteFault → O.faults output.new ≡ O.faults output.old }
    ensures counted { O.faults output.old ≤ O.faults output.new }
{
    let skipped = report.skipped.as_slice();
    match print_report(alloc, output, skipped, report.mailboxes, report.messages) {
        Ok(()) => Outcome::Done,
        Err(PrintError::NoMemory) => Outcome::NoMemory,
        Err(PrintError::WriteFault) => Outcome::WriteFault,
    }
}

/// The end of a run whose store was not rebuilt.
fn end_of_rebuild(error: RebuildError) -> Outcome
    ensures { result ≡ rebuild_outcome error }
{
    match error {
        RebuildError::StoreWhole => Outcome::StoreRefused(StoreRefusal::StoreWhole),
        RebuildError::DiskFault => Outcome::DiskFault,
        RebuildError::NoMemory => Outcome::NoMemory,
    }
}
