// A file read whole, and one octet of it written.
ghost use Rattle.std.specs.Prelude.{◌≡◌, take, ◌++◌, ◌∷◌, ℕ, List, Some, OnOk, IfOk, IfErr, IsErr, IsErrOf};
ghost use Rattle.disk_model.specs.FaultCounts.{NoFault, ChangeFaultCounted, ReadFaultCounted};
ghost use Rattle.disk_model.specs.Disk.{EachImage, OthersStay, SameButFor, IfTold, Keeps, reading, IsIdle};
ghost use Rattle.gate_log.specs.Log.{ReadsParts, KeepsParts, IsOneBetween};
ghost use Rattle.gate_log.specs.Reading.{IsFileError};

use crate::error::{DiskFault, LogError};
use disk_model::{Disk, FileName};
use std::alloc::Global;

/// The octets of a file. `NoLog` if and only if there is no such file.
pub fn read_file<D: Disk>(alloc: Global, disk: &mut D, name: FileName) -> Result<Vec<u8>, LogError>
    ensures octets { IfOk result (λ octets. IfTold (D.history disk.old) (λ now. reading (now name) ≡ Some octets.items)) }
    ensures idle { IsIdle (D.history disk.old) (D.history disk.new) }
    ensures refused { IfErr result (λ error. IsFileError name (D.history disk.old) error) }
    ensures fault { ReadFaultCounted (IsErrOf result LogError.DiskFault) (D.faults disk.old) (D.faults disk.new) }
    ensures unfailed { (IsErrOf result LogError.DiskFault → ⊥) → NoFault (D.faults disk.old) (D.faults disk.new) }
{
    let length = disk.length(name)? as usize;
    let mut octets = vec![in alloc; 0; length]?;
    let count = disk.read_at(name, 0, &mut octets)?;
    Ok(front_of(octets, count))
}

/// The first `count` octets, or all where there are fewer.
fn front_of(octets: Vec<u8>, count: usize) -> Vec<u8>
    ensures { result.items ≡ take count octets.items }
{
    let mut front = octets;
    front.truncate(count);
    front
}

/// Writes one octet over another, and syncs the file.
pub fn put_octet<D: Disk>(
    disk: &mut D,
    name: FileName,
    size: u64,
    octet: u8,
) -> Result<(), DiskFault>
    requires { (front : List ℕ) × (before : ℕ) × (rest : List ℕ) × IfTold (D.history disk.old) (λ now. ReadsParts size front (before ∷ rest) (now name)) }
    ensures any_moment { (front : List ℕ) (before : ℕ) (rest : List ℕ) → IfTold (D.history disk.old) (λ now. KeepsParts size front (before ∷ rest) (now name)) → EachImage (λ _ image. IsOneBetween front rest (image name) × OthersStay name (D.history disk.old) image) (D.history disk.old) (D.history disk.new) }
    ensures others_stay { EachImage (λ _ image. OthersStay name (D.history disk.old) image) (D.history disk.old) (D.history disk.new) }
    ensures reads { OnOk result ((front : List ℕ) (before : ℕ) (rest : List ℕ) → IfTold (D.history disk.old) (λ now. ReadsParts size front (before ∷ rest) (now name)) → IfTold (D.history disk.new) (λ now. reading (now name) ≡ Some (front ++ octet ∷ rest))) }
    ensures keeps { OnOk result ((front : List ℕ) (before : ℕ) (rest : List ℕ) → IfTold (D.history disk.old) (λ now. KeepsParts size front (before ∷ rest) (now name)) → IfTold (D.history disk.new) (λ now. Keeps (now name) (front ++ octet ∷ rest))) }
    ensures others { OnOk result (SameButFor name (D.history disk.old) (D.history disk.new)) }
    ensures fault { ChangeFaultCounted (IsErr result) (D.faults disk.old) (D.faults disk.new) }
    ensures unread { (D.faults disk.new).reads ≡ (D.faults disk.old).reads }
    ensures unfailed { OnOk result (NoFault (D.faults disk.old) (D.faults disk.new)) }
{
    disk.write_at(name, size, &[octet])?;
    disk.sync(name)?;
    Ok(())
}
