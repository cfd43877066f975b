// The end of a log that was found.
ghost use Rattle.std.specs.Prelude.{◌≡◌, ◌-◌, ◌<◌, ◌^◌, ℕ, List, [], length, Some, OnOk, IsOk, IsErr};
ghost use Rattle.disk_model.specs.FaultCounts.{NoFault, ChangeFaultCounted};
ghost use Rattle.disk_model.specs.Disk.{EachImage, OthersStay, SameButFor, IfTold, Keeps, reading};
ghost use Rattle.model_logs.specs.declared.log_head.LogHead.{LogHead};
ghost use Rattle.model_logs.specs.LogFile.{IsLogFile};
ghost use Rattle.gate_log.specs.Log.{IsStanding, IsDurable, log_text, ReadsParts, KeepsParts, BeginsWith};

use crate::device::put_octet;
use crate::error::DiskFault;
use crate::gate::CLOSED;
use disk_model::{Disk, FileName};

/// Cuts off what stands behind the last gate, and closes that gate where it isn't closed. Each is synced before the next, so
/// no gate is written while octets behind it are not synced.
pub fn repair<D: Disk>(
    disk: &mut D,
    name: FileName,
    end: u64,
    gate: u8,
    behind: u64,
) -> Result<(), DiskFault>
    requires stands { (head : LogHead) × (entries : List (List ℕ)) × (rest : List ℕ) × (behind ≡ length rest) × IfTold (D.history disk.old) (IsStanding name head entries end gate rest) }
    requires room { end < 2 ^ 64 - 1 }

    // At every moment each image has the same entries.
    ensures any_moment { (head : LogHead) (entries : List (List ℕ)) (rest : List ℕ) → behind ≡ length rest → IfTold (D.history disk.old) (IsDurable name head entries end gate rest)
        → EachImage (λ _ image. IsLogFile (image name) head entries × OthersStay name (D.history disk.old) image) (D.history disk.old) (D.history disk.new) }
    ensures others_stay { EachImage (λ _ image. OthersStay name (D.history disk.old) image) (D.history disk.old) (D.history disk.new) }
    ensures reads { OnOk result ((head : LogHead) (entries : List (List ℕ)) (rest : List ℕ) → behind ≡ length rest → IfTold (D.history disk.old) (IsStanding name head entries end gate rest)
        → IfTold (D.history disk.new) (λ now. reading (now name) ≡ Some (log_text head entries))) }
    ensures keeps { OnOk result ((head : LogHead) (entries : List (List ℕ)) (rest : List ℕ) → behind ≡ length rest → IfTold (D.history disk.old) (IsDurable name head entries end gate rest)
        → IfTold (D.history disk.new) (λ now. Keeps (now name) (log_text head entries))) }
    ensures others { OnOk result (SameButFor name (D.history disk.old) (D.history disk.new)) }
    ensures untouched { gate ≡ 0 → behind ≡ 0 → IsOk result × (disk.new ≡ disk.old) }
    ensures fault { ChangeFaultCounted (IsErr result) (D.faults disk.old) (D.faults disk.new) }
    ensures unread { (D.faults disk.new).reads ≡ (D.faults disk.old).reads }
    ensures unfailed { OnOk result (NoFault (D.faults disk.old) (D.faults disk.new)) }
{
    if behind == 0 {
        return close_gate(disk, name, end, gate);
    }
    cut_file(disk, name, end + 1)?;
    close_gate(disk, name, end, gate)
}

/// Closes the last gate of a log behind which nothing stands.
fn close_gate<D: Disk>(disk: &mut D, name: FileName, end: u64, gate: u8) -> Result<(), DiskFault>
    requires stands { (head : LogHead) × (entries : List (List ℕ)) × IfTold (D.history disk.old) (IsStanding name head entries end gate []) }
    ensures any_moment { (head : LogHead) (entries : List (List ℕ)) → IfTold (D.history disk.old) (IsDurable name head entries end gate [])
        → EachImage (λ _ image. IsLogFile (image name) head entries × OthersStay name (D.history disk.old) image) (D.history disk.old) (D.history disk.new) }
    ensures others_stay { EachImage (λ _ image. OthersStay name (D.history disk.old) image) (D.history disk.old) (D.history disk.new) }
    ensures reads { OnOk result ((head : LogHead) (entries : List (List ℕ)) → IfTold (D.history disk.old) (IsStanding name head entries end gate [])
        → IfTold (D.history disk.new) (λ now. reading (now name) ≡ Some (log_text head entries))) }
    ensures keeps { OnOk result ((head : LogHead) (entries : List (List ℕ)) → IfTold (D.history disk.old) (IsDurable name head entries end gate [])
        → IfTold (D.history disk.new) (λ now. Keeps (now name) (log_text head entries))) }
    ensures others { OnOk result (SameButFor name (D.history disk.old) (D.history disk.new)) }
    ensures untouched { gate ≡ 0 → IsOk result × (disk.new ≡ disk.old) }
    ensures fault { ChangeFaultCounted (IsErr result) (D.faults disk.old) (D.faults disk.new) }
    ensures unread { (D.faults disk.new).reads ≡ (D.faults disk.old).reads }
    ensures unfailed { OnOk result (NoFault (D.faults disk.old) (D.faults disk.new)) }
{
    if gate == CLOSED {
        return Ok(());
    }
    put_octet(disk, name, end, CLOSED)
}

/// Cuts a file to this size, and syncs it.
fn cut_file<D: Disk>(disk: &mut D, name: FileName, size: u64) -> Result<(), DiskFault>
    requires { (front : List ℕ) × (rest : List ℕ) × IfTold (D.history disk.old) (λ now. ReadsParts size front rest (now name)) }
    ensures any_moment { (front rest : List ℕ) → IfTold (D.history disk.old) (λ now. KeepsParts size front rest (now name)) → EachImage (λ _ image. BeginsWith front (image name) × OthersStay name (D.history disk.old) image) (D.history disk.old) (D.history disk.new) }
    ensures others_stay { EachImage (λ _ image. OthersStay name (D.history disk.old) image) (D.history disk.old) (D.history disk.new) }
    ensures reads { OnOk result ((front rest : List ℕ) → IfTold (D.history disk.old) (λ now. ReadsParts size front rest (now name)) → IfTold (D.history disk.new) (λ now. reading (now name) ≡ Some front)) }
    ensures keeps { OnOk result ((front rest : List ℕ) → IfTold (D.history disk.old) (λ now. KeepsParts size front rest (now name)) → IfTold (D.history disk.new) (λ now. Keeps (now name) front)) }
    ensures others { OnOk result (SameButFor name (D.history disk.old) (D.history disk.new)) }
    ensures fault { ChangeFaultCounted (IsErr result) (D.faults disk.old) (D.faults disk.new) }
    ensures unread { (D.faults disk.new).reads ≡ (D.faults disk.old).reads }
    ensures unfailed { OnOk result (NoFault (D.faults disk.old) (D.faults disk.new)) }
{
    disk.cut(name, size)?;
    disk.sync(name)?; // before a gate is written
    Ok(())
}
