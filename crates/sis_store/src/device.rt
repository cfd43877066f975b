// Files that are made, removed, read and compared.
ghost use Rattle.std.specs.Prelude.{◌≡◌, ◌↔◌, ◌+◌, ◌<◌, ◌^◌, ◌≤◌, IsTrue, length, take, drop, Some, OnOk, IfOk, IsErr};
ghost use Rattle.disk_model.specs.FaultCounts.{NoFault, ChangeFaultCounted, ReadFaultCounted};
ghost use Rattle.disk_model.specs.Disk.{EachImage, OthersStay, IfTold, IsThere, Keeps, reading, after, change, removed, IsIdle};
ghost use Rattle.sis_store.specs.OnDisk.{OnlyNamesSynced, IsGoneOrLeft, octets_read};

use crate::error::DiskFault;
use disk_model::{Disk, DiskError, FileName};

/// Makes a file with these octets alone, synced, and syncs all names.
pub(crate) fn make_with<D: Disk>(
    disk: &mut D,
    name: FileName,
    octets: &[u8],
) -> Result<(), DiskFault>
    ensures any_moment { EachImage (λ _ image. OthersStay name (D.history disk.old) image) (D.history disk.old) (D.history disk.new) }
    ensures made { OnOk result (IfTold (D.history disk.new) (λ now. Keeps (now name) octets.now)) }
    ensures others { OnOk result (OnlyNamesSynced name (D.history disk.old) (D.history disk.new)) }
    ensures fault { ChangeFaultCounted (IsErr result) (D.faults disk.old) (D.faults disk.new) }
    ensures unfailed { OnOk result (NoFault (D.faults disk.old) (D.faults disk.new)) }
{
    disk.make(name)?;
    disk.write_at(name, 0, octets)?;
    disk.sync(name)?;
    disk.sync_names()?; // from here on a crash leaves the file
    Ok(())
}

/// Removes a file. Its name isn't synced: until it is, a crash may bring the file back.
pub(crate) fn remove<D: Disk>(disk: &mut D, name: FileName) -> Result<(), DiskFault>
    ensures any_moment { IfTold (D.history disk.old) (λ now. IsThere (now name)) → EachImage (λ _ image. IsGoneOrLeft name (D.history disk.old) image × OthersStay name (D.history disk.old) image) (D.history disk.old) (D.history disk.new) }
    ensures others_stay { EachImage (λ _ image. OthersStay name (D.history disk.old) image) (D.history disk.old) (D.history disk.new) }
    ensures gone { OnOk result (D.history disk.new ≡ after (change name removed) (D.history disk.old)) }
    ensures fault { ChangeFaultCounted (IsErr result) (D.faults disk.old) (D.faults disk.new) }
    ensures unfailed { OnOk result (NoFault (D.faults disk.old) (D.faults disk.new)) }
{
    disk.remove(name)?;
    Ok(())
}

/// Reads a file from an offset on into the front of `into`, and answers how many octets; none of a file that isn't there.
pub(crate) fn read_from<D: Disk>(
    disk: &mut D,
    name: FileName,
    offset: u64,
    into: &mut [u8],
) -> Result<usize, DiskFault>
    ensures count { IfOk result (λ n. n ≤ length into.new) }
    ensures piece { IfOk result (λ n. IfTold (D.history disk.old) (λ now. take n into.new ≡ octets_read offset (length into.old) (reading (now name)))) }
    ensures rest { IfOk result (λ n. drop n into.new ≡ drop n into.old) }
    ensures idle { IsIdle (D.history disk.old) (D.history disk.new) }
    ensures fault { ReadFaultCounted (IsErr result) (D.faults disk.old) (D.faults disk.new) }
    ensures unfailed { OnOk result (NoFault (D.faults disk.old) (D.faults disk.new)) }
{
    match disk.read_at(name, offset, into) {
        Ok(count) => Ok(count),
        Err(DiskError::Absent) => Ok(0),
        Err(DiskError::Failed) => Err(DiskFault),
    }
}
