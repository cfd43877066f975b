// A log that is made with its entries.
ghost use Rattle.std.specs.Prelude.{◌≡◌, [], OnOk, IfOk, IsErr};
ghost use Rattle.disk_model.specs.Disk.{EachImage, IfTold, OthersStay};
ghost use Rattle.disk_model.specs.FaultCounts.{ChangeFaultCounted, NoFault};
ghost use Rattle.gate_log.specs.Log.{Holds, IsAtMostAsLong, NamedButFor};
ghost use Rattle.model_logs.specs.LogFile.{IsVersionOf};
ghost use Rattle.model_rebuild.specs.RebuildMoments.{KeepsLog};
ghost use Rattle.store_rebuild.specs.Writing.{IsLogBeingMade};

use crate::draft::NewLog;
use disk_model::{Disk, FileName};
use gate_log::{DiskFault, GateLog, create_log};
use model_logs::LogHead;
use std::alloc::Global;

/// Makes a log with its entries, all at once. It takes no memory. What stood in a file of that name is gone.
pub fn write_log<D: Disk>(
    alloc: Global,
    disk: &mut D,
    name: FileName,
    head: LogHead,
    new: NewLog,
) -> Result<(), DiskFault>
    requires version { IsVersionOf head.kind head.version }
    ensures any_moment { EachImage (λ _ image. IfTold (D.history disk.old) (λ before. IsLogBeingMade head new (before name) (image name)) × OthersStay name (D.history disk.old) image) (D.history disk.old) (D.history disk.new) }
    ensures made { OnOk result (IfTold (D.history disk.new) (λ now. KeepsLog now name head new)) }
    ensures others { OnOk result (NamedButFor name (D.history disk.old) (D.history disk.new)) }
    ensures fault { ChangeFaultCounted (IsErr result) (D.faults disk.old) (D.faults disk.new) }
    ensures unfailed { OnOk result (NoFault (D.faults disk.old) (D.faults disk.new)) }
{
    let NewLog {
        octets,
        lengths,
        room,
    } = new;
    let mut log = make_empty_log(alloc, disk, name, head)?;
    log.take_room(room);
    let sizes = lengths.as_slice();
    if sizes.is_empty() {
        return Ok(());
    }
    log.append_many(disk, octets.as_slice(), sizes)?;
    Ok(())
}

/// Makes an empty log.
fn make_empty_log<D: Disk>(
    alloc: Global,
    disk: &mut D,
    name: FileName,
    head: LogHead,
) -> Result<GateLog, DiskFault>
    requires version { IsVersionOf head.kind head.version }
    ensures any_moment { EachImage (λ _ image. IfTold (D.history disk.old) (λ before. IsAtMostAsLong 26 (before name) (image name)) × OthersStay name (D.history disk.old) image) (D.history disk.old) (D.history disk.new) }
    ensures made { IfOk result (λ log. Holds log [] (D.history disk.new)) }
    ensures log { IfOk result (λ log. log ≡ record { name = name; head = head; end = 25; count = 0; room = 0 }) }
    ensures others { OnOk result (NamedButFor name (D.history disk.old) (D.history disk.new)) }
    ensures fault { ChangeFaultCounted (IsErr result) (D.faults disk.old) (D.faults disk.new) }
    ensures unfailed { OnOk result (NoFault (D.faults disk.old) (D.faults disk.new)) }
{
    create_log(alloc, disk, name, head).map_err(|_| DiskFault)
}
