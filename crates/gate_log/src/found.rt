// Logs that were looked at, and how they are repaired.
ghost use Rattle.std.specs.Prelude.{◌≡◌, ◌↔◌, ℕ, List, length, Some, IsTrue, IfOk, IfErr, OnOk, IsErr, IsErrOf, IsOk};
ghost use Rattle.disk_model.specs.FaultCounts.{NoFault, ChangeFaultCounted, ReadFaultCounted};
ghost use Rattle.disk_model.specs.Disk.{EachImage, OthersStay, SameButFor, IfTold, Keeps, reading, IsIdle};
ghost use Rattle.model_logs.specs.LogFile.{IsVersionOf, IsLogFile, IsLog, log_end};
ghost use Rattle.gate_log.specs.State.{IsWholeLog};
ghost use Rattle.gate_log.specs.Log.{Reads, Holds, IsFound, IsFoundKept};
ghost use Rattle.gate_log.specs.Reading.{IsReading, IsOpenError};
ghost use Rattle.gate_log.specs.Text.{IsLogText};

use crate::device::read_file;
use crate::error::{DiskFault, LogError};
use crate::gate::CLOSED;
use crate::log::GateLog;
use crate::read::{LogRead, read_log_of};
use crate::repair::repair;
use crate::text::{LogText, check_log_of};
use disk_model::{Disk, FileName};
use mdbox_base::Octets;
use model_logs::LogHead;
use std::alloc::Global;
use std::marker::Model;

/// A log that was looked at: where it ends, and what stands behind its end.
#[derive(Drop)]
pub struct FoundLog {
    name: FileName,
    head: LogHead,
    /// Where the last gate stands.
    end: u64,
    /// How many entries it has.
    count: u64,
    /// The value of that gate.
    gate: u8,
    /// How many octets stand behind it.
    behind: u64,
}

impl Model for FoundLog {
    ghost use Rattle.std.specs.Prelude.{◌<◌, ◌≤◌, ◌^◌, ◌-◌};
    ghost use Rattle.gate_log.specs.State.{InspectedLog};

    ghost Value = { InspectedLog };

    ghost view = { λ log. record { name = log.name; head = log.head; end = log.end; count = log.count; gate = log.gate; behind = log.behind } };

    ghost invariant = { λ log. (log.end < 2 ^ 64 - 1) × (log.count ≤ log.end) };
}

/// Reads the log that has this head, and changes nothing. Its entries stay where they were read.
pub fn inspect_text<D: Disk>(
    alloc: Global,
    disk: &mut D,
    name: FileName,
    head: LogHead,
) -> Result<(FoundLog, LogText), LogError>
    requires version { IsVersionOf head.kind head.version }
    // After Ok what was read is what the file has.
    ensures octets { IfOk result (λ found. IfTold (D.history disk.old) (λ now. reading (now name) ≡ Some found.1.octets)) }
    ensures text { IfOk result (λ found. (entries : List (List ℕ)) × IsLogText found.1 entries) }
    ensures log { IfOk result (λ found. (found.0.name ≡ name) × (found.0.head ≡ head) × (found.0.end ≡ found.1.end) × (found.1.head ≡ head) × (found.0.count ≡ found.1.count)) }
    ensures found { IfOk result (λ found. (entries : List (List ℕ)) → IsLogText found.1 entries → IfTold (D.history disk.old) (IsFound found.0 entries)) }

    // The file still stands so, and where a crash left it as it read, it does.
    ensures stands { IfOk result (λ found. (entries : List (List ℕ)) → IsLogText found.1 entries → IfTold (D.history disk.new) (IsFound found.0 entries)) }
    ensures kept { IfOk result (λ found. (entries : List (List ℕ)) (octets : List ℕ) → IsLogText found.1 entries → IfTold (D.history disk.old) (λ now. Keeps (now name) octets) → IfTold (D.history disk.new) (IsFoundKept found.0 entries)) }

    ensures idle { IsIdle (D.history disk.old) (D.history disk.new) }
    ensures refused { IfErr result (IsOpenError name head (D.history disk.old)) }
    ensures fault { ReadFaultCounted (IsErrOf result LogError.DiskFault) (D.faults disk.old) (D.faults disk.new) }
    ensures unfailed { (IsErrOf result LogError.DiskFault → ⊥) → NoFault (D.faults disk.old) (D.faults disk.new) }
{
    let octets = read_file(alloc, disk, name)?;
    let text = check_log_of(Octets::of(octets), head)?;
    let found = found_in(name, &text);
    Ok((found, text))
}

/// What stands at the end of a log that was read.
fn found_in(name: FileName, text: &LogText) -> FoundLog
    requires { (entries : List (List ℕ)) × IsLogText text.now entries }
    ensures log { (result.name ≡ name) × (result.head ≡ text.now.head) × (result.end ≡ text.now.end) × (result.count ≡ text.now.count) }
    ensures end { (entries : List (List ℕ)) (log : IsLog text.now.octets result.head entries) → text.now.end ≡ log_end entries → (result.gate ≡ log.gate) × (result.behind ≡ length log.behind) }
{
    let octets = text.octets.as_slice();
    let end = text.end as usize;
    FoundLog {
        name,
        head: text.head,
        end: text.end,
        count: text.count,
        gate: octets[end],
        behind: (octets.len() - end - 1) as u64,
    }
}

/// The same, with each entry a text of its own.
pub fn inspect_log<D: Disk>(
    alloc: Global,
    disk: &mut D,
    name: FileName,
    head: LogHead,
) -> Result<(FoundLog, LogRead), LogError>
    requires version { IsVersionOf head.kind head.version }
    // After Ok what was read is what the file has.
    ensures octets { IfOk result (λ found. (octets : List ℕ) × IsReading octets found.1 × IfTold (D.history disk.old) (λ now. reading (now name) ≡ Some octets)) }
    ensures log { IfOk result (λ found. (found.0.name ≡ name) × (found.0.head ≡ head) × (found.0.end ≡ found.1.end) × (found.1.head ≡ head) × (found.0.count ≡ length found.1.entries)) }
    ensures found { IfOk result (λ found. IfTold (D.history disk.old) (IsFound found.0 found.1.entries)) }

    // The file still stands so, and where a crash left it as it read, it does.
    ensures stands { IfOk result (λ found. IfTold (D.history disk.new) (IsFound found.0 found.1.entries)) }
    ensures kept { IfOk result (λ found. (octets : List ℕ) → IfTold (D.history disk.old) (λ now. Keeps (now name) octets) → IfTold (D.history disk.new) (IsFoundKept found.0 found.1.entries)) }

    ensures idle { IsIdle (D.history disk.old) (D.history disk.new) }
    ensures refused { IfErr result (IsOpenError name head (D.history disk.old)) }
    ensures fault { ReadFaultCounted (IsErrOf result LogError.DiskFault) (D.faults disk.old) (D.faults disk.new) }
    ensures unfailed { (IsErrOf result LogError.DiskFault → ⊥) → NoFault (D.faults disk.old) (D.faults disk.new) }
{
    let (found, text) = inspect_text(alloc, disk, name, head)?;
    let read = read_log_of(alloc, text.octets.as_slice(), head)?;
    Ok((found, read))
}

impl FoundLog {
    /// Whether the last gate is closed and nothing stands behind it, so that repairing changes nothing.
    pub fn is_whole(&self) -> bool
        ensures { IsTrue result ↔ IsWholeLog self.now }
    {
        self.gate == CLOSED && self.behind == 0
    }

    /// Cuts off what stands behind the last gate, and closes that gate where it isn't closed.
    pub fn repair<D: Disk>(self, alloc: Global, disk: &mut D) -> Result<GateLog, DiskFault>
        requires stands { (entries : List (List ℕ)) × IfTold (D.history disk.old) (IsFound self entries) }

        // At every moment of the call each image has the same entries.
        ensures any_moment { (entries : List (List ℕ)) → IfTold (D.history disk.old) (IsFoundKept self entries)
            → EachImage (λ _ image. IsLogFile (image self.name) self.head entries × OthersStay self.name (D.history disk.old) image) (D.history disk.old) (D.history disk.new) }

        // Of the other files each image has what an image had before, whatever this file has.
        ensures others_stay { EachImage (λ _ image. OthersStay self.name (D.history disk.old) image) (D.history disk.old) (D.history disk.new) }

        // After Ok the file has these entries and a closed gate, and no other file has changed.
        ensures log { IfOk result (λ log. log ≡ record { name = self.name; head = self.head; end = self.end; count = self.count; room = 0 }) }
        ensures reads { IfOk result (λ log. (entries : List (List ℕ)) → IfTold (D.history disk.old) (IsFound self entries) → Reads log entries (D.history disk.new)) }
        ensures holds { IfOk result (λ log. (entries : List (List ℕ)) → IfTold (D.history disk.old) (IsFoundKept self entries) → Holds log entries (D.history disk.new)) }
        ensures others { OnOk result (SameButFor self.name (D.history disk.old) (D.history disk.new)) }

        // A whole log is left alone.
        ensures untouched { IsWholeLog self → IsOk result × (disk.new ≡ disk.old) }
        ensures fault { ChangeFaultCounted (IsErr result) (D.faults disk.old) (D.faults disk.new) }
        ensures unread { (D.faults disk.new).reads ≡ (D.faults disk.old).reads }
        ensures unfailed { OnOk result (NoFault (D.faults disk.old) (D.faults disk.new)) }
    {
        repair(disk, self.name, self.end, self.gate, self.behind)?;
        Ok(GateLog::at_rest(alloc, self.name, self.head, self.end, self.count))
    }
}
