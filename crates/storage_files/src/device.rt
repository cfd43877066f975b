// Files that are made, added to, removed and read.
ghost use Rattle.std.specs.Prelude.{◌≡◌, ◌≤◌, length, take, drop, Some, None, OnOk, IfOk, IsErr};
ghost use Rattle.std.specs.Option.{option_map};
ghost use Rattle.disk_model.specs.FaultCounts.{NoFault, ChangeFaultCounted, ReadFaultCounted};
ghost use Rattle.disk_model.specs.Disk.{EachImage, OthersStay, SameButFor, Between, IfTold, IsThere, Keeps, reading, IsIdle};
ghost use Rattle.storage_files.specs.OnDisk.{FrontStays, IsPieceAdded, IsSyncedFile, IsLeftAsBefore, IsNewOrNone, OthersAreNamed, IsLeftOrNone, piece_read};

use crate::error::DiskFault;
use disk_model::{Disk, DiskError, FileName};

/// Makes a file with this text alone, synced, and syncs all names.
pub(crate) fn make_with<D: Disk>(disk: &mut D, name: FileName, text: &[u8]) -> Result<(), DiskFault>
    ensures any_moment { EachImage (λ _ image. IsNewOrNone name (length text.now) (D.history disk.old) image × OthersStay name (D.history disk.old) image) (D.history disk.old) (D.history disk.new) }
    ensures made { OnOk result (IfTold (D.history disk.new) (λ now. Keeps (now name) text.now)) }
    ensures others { OnOk result (OthersAreNamed name (D.history disk.old) (D.history disk.new)) }
    ensures fault { ChangeFaultCounted (IsErr result) (D.faults disk.old) (D.faults disk.new) }
    ensures unread { (D.faults disk.new).reads ≡ (D.faults disk.old).reads }
    ensures unfailed { OnOk result (NoFault (D.faults disk.old) (D.faults disk.new)) }
{
    disk.make(name)?;
    disk.write_at(name, 0, text)?;
    disk.sync(name)?;
    disk.sync_names()?;
    Ok(())
}

/// Adds octets at the end of a file, which is there, without a sync.
pub(crate) fn write_on<D: Disk>(
    disk: &mut D,
    name: FileName,
    end: u64,
    octets: &[u8],
) -> Result<(), DiskFault>
    requires { IfTold (D.history disk.old) (λ now. option_map length (reading (now name)) ≡ Some end) }
    ensures any_moment { EachImage (λ _ image. FrontStays name end (D.history disk.old) image × OthersStay name (D.history disk.old) image) (D.history disk.old) (D.history disk.new) }
    ensures added { OnOk result (Between (λ old new. IsPieceAdded octets.now (old name) (new name)) (D.history disk.old) (D.history disk.new)) }
    ensures others { OnOk result (SameButFor name (D.history disk.old) (D.history disk.new)) }
    ensures fault { ChangeFaultCounted (IsErr result) (D.faults disk.old) (D.faults disk.new) }
    ensures unread { (D.faults disk.new).reads ≡ (D.faults disk.old).reads }
    ensures unfailed { OnOk result (NoFault (D.faults disk.old) (D.faults disk.new)) }
{
    disk.write_at(name, end, octets)?;
    Ok(())
}

/// Syncs a file, which is there.
pub(crate) fn sync<D: Disk>(disk: &mut D, name: FileName) -> Result<(), DiskFault>
    requires { IfTold (D.history disk.old) (λ now. IsThere (now name)) }
    ensures any_moment { EachImage (λ _ image. IsLeftAsBefore name (D.history disk.old) image × OthersStay name (D.history disk.old) image) (D.history disk.old) (D.history disk.new) }
    ensures synced { OnOk result (Between (λ old new. IsSyncedFile (old name) (new name)) (D.history disk.old) (D.history disk.new)) }
    ensures others { OnOk result (SameButFor name (D.history disk.old) (D.history disk.new)) }
    ensures fault { ChangeFaultCounted (IsErr result) (D.faults disk.old) (D.faults disk.new) }
    ensures unread { (D.faults disk.new).reads ≡ (D.faults disk.old).reads }
    ensures unfailed { OnOk result (NoFault (D.faults disk.old) (D.faults disk.new)) }
{
    disk.sync(name)?;
    Ok(())
}

/// Removes a file.
pub(crate) fn remove<D: Disk>(disk: &mut D, name: FileName) -> Result<(), DiskFault>
    ensures any_moment { IfTold (D.history disk.old) (λ now. IsThere (now name)) → EachImage (λ _ image. IsLeftOrNone name (D.history disk.old) image × OthersStay name (D.history disk.old) image) (D.history disk.old) (D.history disk.new) }
    ensures others_stay { EachImage (λ _ image. OthersStay name (D.history disk.old) image) (D.history disk.old) (D.history disk.new) }
    ensures gone { OnOk result (IfTold (D.history disk.new) (λ now. reading (now name) ≡ None)) }
    ensures others { OnOk result (SameButFor name (D.history disk.old) (D.history disk.new)) }
    ensures fault { ChangeFaultCounted (IsErr result) (D.faults disk.old) (D.faults disk.new) }
    ensures unread { (D.faults disk.new).reads ≡ (D.faults disk.old).reads }
    ensures unfailed { OnOk result (NoFault (D.faults disk.old) (D.faults disk.new)) }
{
    disk.remove(name)?;
    Ok(())
}

/// Reads a file from an offset on into the front of `into`, and answers how many octets; none of a file that isn't there.
pub(crate) fn read_from<D: Disk>(
    disk: &mut D,
    name: FileName,
    offset: u64,
    into: &mut [u8],
) -> Result<usize, DiskFault>
    ensures count { IfOk result (λ n. n ≤ length into.new) }
    ensures piece { IfOk result (λ n. IfTold (D.history disk.old) (λ now. take n into.new ≡ piece_read offset (length into.old) (reading (now name)))) }
    ensures rest { IfOk result (λ n. drop n into.new ≡ drop n into.old) }
    ensures idle { IsIdle (D.history disk.old) (D.history disk.new) }
    ensures fault { ReadFaultCounted (IsErr result) (D.faults disk.old) (D.faults disk.new) }
    ensures unfailed { OnOk result (NoFault (D.faults disk.old) (D.faults disk.new)) }
{
    match disk.read_at(name, offset, into) {
        Ok(count) => Ok(count),
        Err(DiskError::Absent) => Ok(0),
        Err(DiskError::Failed) => Err(DiskFault),
    }
}
