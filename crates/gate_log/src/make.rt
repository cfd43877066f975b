// A file that is made anew.
ghost use Rattle.std.specs.Prelude.{◌≡◌, length, OnOk, IsErr};
ghost use Rattle.disk_model.specs.FaultCounts.{NoFault, ChangeFaultCounted};
ghost use Rattle.disk_model.specs.Disk.{EachImage, OthersStay, IfTold, Keeps};
ghost use Rattle.gate_log.specs.Log.{IsAtMostAsLong, NamedButFor};

use crate::error::DiskFault;
use disk_model::{Disk, FileName};

/// Makes a file with this text alone, synced, and syncs all names.
pub fn make_file<D: Disk>(disk: &mut D, name: FileName, text: &[u8]) -> Result<(), DiskFault>
    ensures any_moment { EachImage (λ _ image. IfTold (D.history disk.old) (λ before. IsAtMostAsLong (length text.now) (before name) (image name)) × OthersStay name (D.history disk.old) image) (D.history disk.old) (D.history disk.new) }
    ensures made { OnOk result (IfTold (D.history disk.new) (λ now. Keeps (now name) text.now)) }
    ensures others { OnOk result (NamedButFor name (D.history disk.old) (D.history disk.new)) }
    ensures fault { ChangeFaultCounted (IsErr result) (D.faults disk.old) (D.faults disk.new) }
    ensures unread { (D.faults disk.new).reads ≡ (D.faults disk.old).reads }
    ensures unfailed { OnOk result (NoFault (D.faults disk.old) (D.faults disk.new)) }
{
    disk.make(name)?;
    disk.write_at(name, 0, text)?;
    disk.sync(name)?; // a crash that leaves the name leaves the text
    disk.sync_names()?;
    Ok(())
}
