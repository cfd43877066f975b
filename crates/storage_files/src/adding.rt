// Octets that are added to a file in pieces.
ghost use Rattle.std.specs.Prelude.{◌≡◌, ◌<◌, ◌+◌, ◌^◌, ◌++◌, ℕ, List, length, Option, Some, OnOk, IfOk, IsErr};
ghost use Rattle.std.specs.Option.{option_map};
ghost use Rattle.disk_model.specs.Disk.{History, EachImage, OthersStay, SameButFor, Between, IfTold, reading};
ghost use Rattle.disk_model.specs.FaultCounts.{NoFault, ChangeFaultCounted};
ghost use Rattle.storage_files.specs.Adding.{AreAddedOn, KeepsFront};
ghost use Rattle.storage_files.specs.OnDisk.{FrontStays, IsAddedTo};

use crate::error::DiskFault;
use disk_model::{Disk, FileName};

/// How many octets are written at once.
const PIECE: usize = 65_536;

/// Adds three texts at the end of a file, which is there, one behind another, syncs it, and answers where it ends.
pub(crate) fn add_texts<D: Disk>(
    disk: &mut D,
    name: FileName,
    end: u64,
    front: &[u8],
    body: &[u8],
    back: &[u8],
) -> Result<u64, DiskFault>
    requires there { IfTold (D.history disk.old) (λ now. option_map length (reading (now name)) ≡ Some end) }
    requires fits { end + length ((front.now ++ body.now) ++ back.now) < 2 ^ 64 }
    ensures any_moment { EachImage (λ _ image. FrontStays name end (D.history disk.old) image × OthersStay name (D.history disk.old) image) (D.history disk.old) (D.history disk.new) }
    ensures added { OnOk result (Between (λ old new. IsAddedTo ((front.now ++ body.now) ++ back.now) (old name) (new name)) (D.history disk.old) (D.history disk.new)) }
    ensures end { IfOk result (λ behind. behind ≡ end + length ((front.now ++ body.now) ++ back.now)) }
    ensures others { OnOk result (SameButFor name (D.history disk.old) (D.history disk.new)) }
    ensures fault { ChangeFaultCounted (IsErr result) (D.faults disk.old) (D.faults disk.new) }
    ensures unread { (D.faults disk.new).reads ≡ (D.faults disk.old).reads }
    ensures unfailed { OnOk result (NoFault (D.faults disk.old) (D.faults disk.new)) }
{
    let second = write_pieces(disk, name, end, front)?;
    let third = write_pieces(disk, name, second, body)?;
    let behind = write_pieces(disk, name, third, back)?;
    disk.sync(name)?; // from here on a crash leaves the octets
    Ok(behind)
}

/// Adds octets in pieces behind those that were added, without a sync, and answers where the file ends.
fn write_pieces<D: Disk>(
    disk: &mut D,
    name: FileName,
    at: u64,
    octets: &[u8],
) -> Result<u64, DiskFault>
    requires begun { (end : ℕ) × (added : List ℕ) × (first : Option History) × AreAddedOn name end added first (D.history disk.old) × (at ≡ end + length added) }
    requires fits { at + length octets.now < 2 ^ 64 }
    ensures any_moment { (end : ℕ) (added : List ℕ) (first : Option History) → AreAddedOn name end added first (D.history disk.old) → at ≡ end + length added → KeepsFront name end first (D.history disk.new) }
    ensures added { OnOk result ((end : ℕ) (added : List ℕ) (first : Option History) → AreAddedOn name end added first (D.history disk.old) → at ≡ end + length added → AreAddedOn name end (added ++ octets.now) first (D.history disk.new)) }
    ensures end { IfOk result (λ behind. behind ≡ at + length octets.now) }
    ensures fault { ChangeFaultCounted (IsErr result) (D.faults disk.old) (D.faults disk.new) }
    ensures unread { (D.faults disk.new).reads ≡ (D.faults disk.old).reads }
    ensures unfailed { OnOk result (NoFault (D.faults disk.old) (D.faults disk.new)) }
{
    let mut end = at;
    let mut rest = octets;
    while !rest.is_empty() {
        let (piece, behind) = rest.split_at(rest.len().min(PIECE));
        write_next(disk, name, end, piece)?;
        end += piece.len() as u64;
        rest = behind;
    }
    Ok(end)
}

/// Adds one piece behind those that were added, without a sync.
fn write_next<D: Disk>(
    disk: &mut D,
    name: FileName,
    at: u64,
    octets: &[u8],
) -> Result<(), DiskFault>
    requires begun { (end : ℕ) × (added : List ℕ) × (first : Option History) × AreAddedOn name end added first (D.history disk.old) × (at ≡ end + length added) }
    ensures any_moment { (end : ℕ) (added : List ℕ) (first : Option History) → AreAddedOn name end added first (D.history disk.old) → at ≡ end + length added → KeepsFront name end first (D.history disk.new) }
    ensures added { OnOk result ((end : ℕ) (added : List ℕ) (first : Option History) → AreAddedOn name end added first (D.history disk.old) → at ≡ end + length added → AreAddedOn name end (added ++ octets.now) first (D.history disk.new)) }
    ensures fault { ChangeFaultCounted (IsErr result) (D.faults disk.old) (D.faults disk.new) }
    ensures unread { (D.faults disk.new).reads ≡ (D.faults disk.old).reads }
    ensures unfailed { OnOk result (NoFault (D.faults disk.old) (D.faults disk.new)) }
{
    disk.write_at(name, at, octets)?;
    Ok(())
}
