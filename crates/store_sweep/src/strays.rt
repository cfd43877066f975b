// Files that the store doesn't need.
ghost use Rattle.std.specs.Prelude.{◌≡◌, true, false, IfOk, OnOk, IsErr};
ghost use Rattle.disk_model.specs.FaultCounts.{NoFault, ChangeFaultCounted, AnyFaultCounted};
ghost use Rattle.disk_model.specs.Disk.{IfTold, IsThere, SameButFor, SameState};
ghost use Rattle.disk_model.specs.declared.name.FileName.{FileName};
ghost use Rattle.model_kept.specs.Kept.{MailIsKept};
ghost use Rattle.store_sweep.specs.Wanted.{is_wanted, HasStray};
ghost use Rattle.store_sweep.specs.Moments.{NoFailedChange, ImagesCarry, KeepsStore, SameWhere, IdleIf};

use crate::wanted::is_wanted;
use disk_model::{Disk, FileName, known_range};
use gate_log::DiskFault;
use map_index::MapIndex;

/// Removes every file that the store doesn't need and that isn't sealed, in the order of names. Answers whether there was
/// one.
pub fn remove_strays<D: Disk>(
    disk: &mut D,
    generation: u32,
    map: &MapIndex,
) -> Result<bool, DiskFault>
    ensures images { ImagesCarry generation map.now.meaning (D.history disk.old) (D.history disk.new) }
    ensures keeps { NoFailedChange (IsErr result) (D.faults disk.old) (D.faults disk.new) → KeepsStore generation map.now.meaning (D.history disk.old) (D.history disk.new) }
    ensures same { OnOk result (SameWhere (is_wanted generation map.now.meaning) (D.history disk.old) (D.history disk.new)) }
    ensures none { IfOk result (λ removed. removed ≡ false → SameState (D.history disk.old) (D.history disk.new)) }
    ensures gone { OnOk result (IfTold (D.history disk.new) (λ now. (name : FileName) → IsThere (now name) → is_wanted generation map.now.meaning name ≡ true)) }
    ensures mail_stays { MailIsKept map.now.meaning (D.history disk.old) (D.history disk.new) }
    ensures some { IfOk result (λ removed. removed ≡ true → IfTold (D.history disk.old) (HasStray generation map.now.meaning)) }
    ensures idle { IdleIf (λ now. HasStray generation map.now.meaning now → ⊥) (D.history disk.old) (D.history disk.new) }
    ensures fault { AnyFaultCounted (IsErr result) (D.faults disk.old) (D.faults disk.new) }
    ensures unfailed { OnOk result (NoFault (D.faults disk.old) (D.faults disk.new)) }
{
    let mut last = None;
    let mut removed = false;
    while let Some(name) = disk.next_name(last)? {
        known_range(name);
        removed |= remove_stray(disk, name, generation, map)?;
        last = Some(name);
    }
    Ok(removed)
}

/// Removes the file of this name, unless the store needs it or it is sealed.
fn remove_stray<D: Disk>(
    disk: &mut D,
    name: FileName,
    generation: u32,
    map: &MapIndex,
) -> Result<bool, DiskFault>
    ensures images { ImagesCarry generation map.now.meaning (D.history disk.old) (D.history disk.new) }
    ensures same { OnOk result (SameWhere (is_wanted generation map.now.meaning) (D.history disk.old) (D.history disk.new)) }
    ensures others { OnOk result (SameButFor name (D.history disk.old) (D.history disk.new)) }
    ensures none { IfOk result (λ removed. removed ≡ false → SameState (D.history disk.old) (D.history disk.new)) }
    ensures gone { OnOk result (IfTold (D.history disk.new) (λ now. IsThere (now name) → is_wanted generation map.now.meaning name ≡ true)) }
    ensures mail_stays { MailIsKept map.now.meaning (D.history disk.old) (D.history disk.new) }
    ensures some { IfOk result (λ removed. removed ≡ true → is_wanted generation map.now.meaning name ≡ false) }
    ensures untouched { is_wanted generation map.now.meaning name ≡ true → disk.new ≡ disk.old }
    ensures fault { ChangeFaultCounted (IsErr result) (D.faults disk.old) (D.faults disk.new) }
    ensures unfailed { OnOk result (NoFault (D.faults disk.old) (D.faults disk.new)) }
{
    if is_wanted(name, generation, map) {
        return Ok(false);
    }
    disk.remove(name)?;
    Ok(true)
}
