// One log of the disk.
ghost use Rattle.std.specs.Prelude.{◌≡◌, [], IfOk, IfErr, IsErrOf};
ghost use Rattle.disk_model.specs.Disk.{IsIdle};
ghost use Rattle.disk_model.specs.FaultCounts.{NoFault, ReadFaultCounted};
ghost use Rattle.model_logs.specs.LogFile.{IsVersionOf};
ghost use Rattle.store_checks.specs.Logs.{of_log, IsLogCause, IsLogReplayed};

use crate::error::CheckError;
use crate::replay::{Replay, replay_entries};
use disk_model::{Disk, FileName};
use gate_log::{FoundLog, LogError, LogText, inspect_text};
use model_logs::LogHead;
use std::alloc::Global;

/// Reads the log that has this head, and replays its entries.
pub fn read_log<D: Disk, F: Replay>(
    alloc: Global,
    disk: &mut D,
    name: FileName,
    head: LogHead,
    replay: &mut F,
) -> Result<(FoundLog, LogText), CheckError>
    requires replay { F.is_replay replay.old [] }
    requires version { IsVersionOf head.kind head.version }
    ensures read { IfOk result (λ found. IsLogReplayed F.is_replay replay.new name head found.0 found.1 (D.history disk.old) (D.history disk.new)) }
    ensures store { F.store replay.new ≡ F.store replay.old }
    ensures log { IfOk result (λ found. (found.0.name ≡ name) × (found.0.head ≡ head)) }
    ensures refused { IfErr result (IsLogCause F.is_replay F.refuses replay.new name head (D.history disk.old)) }
    ensures idle { IsIdle (D.history disk.old) (D.history disk.new) }
    ensures fault { ReadFaultCounted (IsErrOf result CheckError.DiskFault) (D.faults disk.old) (D.faults disk.new) }
    ensures unfailed { (IsErrOf result CheckError.DiskFault → ⊥) → NoFault (D.faults disk.old) (D.faults disk.new) }
{
    let (log, text) = match inspect_text(alloc, disk, name, head) {
        Ok(found) => found,
        Err(error) => return Err(of_log(name, error)),
    };
    if let Some(place) = replay_entries(alloc, replay, &text)? {
        return Err(CheckError::Damaged(name, place));
    }
    Ok((log, text))
}

/// What an error of a log means for the store.
fn of_log(name: FileName, error: LogError) -> CheckError
    ensures { result ≡ of_log name error }
{
    match error {
        LogError::NoLog => CheckError::Damaged(name, 0),
        LogError::LogDamaged(place) => CheckError::Damaged(name, place),
        LogError::DiskFault => CheckError::DiskFault,
        LogError::NoMemory => CheckError::NoMemory,
    }
}
