// Storage files that are longer than their last region.
ghost use Rattle.std.specs.Prelude.{◌≡◌, ◌≤◌, ℕ, false, length, OnOk, IsErr};
ghost use Rattle.disk_model.specs.FaultCounts.{NoFault, ChangeFaultCounted, AnyFaultCounted};
ghost use Rattle.disk_model.specs.Disk.{IfTold, IsThere, Reaches, SameButFor};
ghost use Rattle.disk_model.specs.declared.name.FileName.{FileName};
ghost use Rattle.disk_model.specs.declared.name.FileName.TheVariants as file;
ghost use Rattle.model_kept.specs.Kept.{MailIsKept};
ghost use Rattle.model_meaning.specs.MapMeaning.{MapMeaning, is_sealed};
ghost use Rattle.disk_model.specs.Name.{is_log};
ghost use Rattle.store_files.specs.Regions.{end_of};
ghost use Rattle.store_sweep.specs.Wanted.{EndBy, EndsByLastRegion};
ghost use Rattle.store_sweep.specs.Moments.{NoFailedChange, ImagesCarry, KeepsStore, SameWhere, SameThere, AreFitted, IdleIf};

use crate::wanted::end_of;
use disk_model::{Disk, DiskError, FileName, known_range};
use gate_log::DiskFault;
use map_index::MapIndex;
use mdbox_base::FileNo;

/// The greatest of the names that stand before those of storage files.
const LAST_LOG: FileName = FileName::Box(u32::MAX, u32::MAX);

/// Cuts each storage file that isn't sealed and is longer than the end of its last region to that end, in order of number,
/// and syncs it. Of the names only those of storage files are listed, and the first instance's.
pub fn cut_files<D: Disk>(disk: &mut D, map: &MapIndex) -> Result<(), DiskFault>
    ensures images { (generation : ℕ) → ImagesCarry generation map.now.meaning (D.history disk.old) (D.history disk.new) }
    ensures keeps { NoFailedChange (IsErr result) (D.faults disk.old) (D.faults disk.new) → (generation : ℕ) → KeepsStore generation map.now.meaning (D.history disk.old) (D.history disk.new) }
    ensures logs { OnOk result (SameWhere is_log (D.history disk.old) (D.history disk.new)) }
    ensures mail { OnOk result (AreFitted map.now.meaning (D.history disk.old) (D.history disk.new)) }
    ensures there { OnOk result (SameThere (D.history disk.old) (D.history disk.new)) }
    ensures cut { OnOk result (IfTold (D.history disk.new) (λ now. (name : FileName) → IsThere (now name) → EndsByLastRegion map.now.meaning name (now name))) }
    ensures mail_stays { MailIsKept map.now.meaning (D.history disk.old) (D.history disk.new) }
    ensures idle { IdleIf (λ now. (name : FileName) → IsThere (now name) → EndsByLastRegion map.now.meaning name (now name)) (D.history disk.old) (D.history disk.new) }
    ensures fault { AnyFaultCounted (IsErr result) (D.faults disk.old) (D.faults disk.new) }
    ensures unfailed { OnOk result (NoFault (D.faults disk.old) (D.faults disk.new)) }
{
    let mut last = Some(LAST_LOG);
    while let Some(name) = disk.next_name(last)? {
        known_range(name);
        if let FileName::Inst(_, _) = name {
            return Ok(());
        }
        fit_file(disk, name, map)?;
        last = Some(name);
    }
    Ok(())
}

/// Cuts the file of this name, if it is a storage file that isn't sealed and is longer than the end of its last region.
fn fit_file<D: Disk>(disk: &mut D, name: FileName, map: &MapIndex) -> Result<(), DiskFault>
    ensures images { (generation : ℕ) → ImagesCarry generation map.now.meaning (D.history disk.old) (D.history disk.new) }
    ensures keeps { NoFailedChange (IsErr result) (D.faults disk.old) (D.faults disk.new) → (generation : ℕ) → KeepsStore generation map.now.meaning (D.history disk.old) (D.history disk.new) }
    ensures logs { OnOk result (SameWhere is_log (D.history disk.old) (D.history disk.new)) }
    ensures mail { OnOk result (AreFitted map.now.meaning (D.history disk.old) (D.history disk.new)) }
    ensures there { OnOk result (SameThere (D.history disk.old) (D.history disk.new)) }
    ensures others { OnOk result (SameButFor name (D.history disk.old) (D.history disk.new)) }
    ensures cut { OnOk result (IfTold (D.history disk.new) (λ now. IsThere (now name) → EndsByLastRegion map.now.meaning name (now name))) }
    ensures mail_stays { MailIsKept map.now.meaning (D.history disk.old) (D.history disk.new) }
    ensures idle { IdleIf (λ now. IsThere (now name) → EndsByLastRegion map.now.meaning name (now name)) (D.history disk.old) (D.history disk.new) }
    ensures fault { AnyFaultCounted (IsErr result) (D.faults disk.old) (D.faults disk.new) }
    ensures unfailed { OnOk result (NoFault (D.faults disk.old) (D.faults disk.new)) }
{
    let FileName::Mail(number) = name else {
        return Ok(());
    };
    if map.is_sealed(FileNo(number)) {
        return Ok(());
    }
    cut_behind(disk, number, end_of(map, number))?;
    Ok(())
}

/// Cuts the storage file of this number to this size, if it is longer.
fn cut_behind<D: Disk>(disk: &mut D, number: u32, end: u64) -> Result<(), DiskFault>
    ensures images { (generation : ℕ) (m : MapMeaning) → EndBy m number end → ImagesCarry generation m (D.history disk.old) (D.history disk.new) }
    ensures keeps { NoFailedChange (IsErr result) (D.faults disk.old) (D.faults disk.new) → (generation : ℕ) (m : MapMeaning) → EndBy m number end → KeepsStore generation m (D.history disk.old) (D.history disk.new) }
    ensures mail { OnOk result ((m : MapMeaning) → is_sealed m number ≡ false → end ≡ end_of m number → AreFitted m (D.history disk.old) (D.history disk.new)) }
    ensures there { OnOk result (SameThere (D.history disk.old) (D.history disk.new)) }
    ensures others { OnOk result (SameButFor (file.Mail number) (D.history disk.old) (D.history disk.new)) }
    ensures cut { OnOk result (IfTold (D.history disk.new) (λ now. IsThere (now (file.Mail number)) → length (now (file.Mail number)).octets ≤ end)) }
    ensures mail_stays { (m : MapMeaning) → is_sealed m number ≡ false → EndBy m number end → MailIsKept m (D.history disk.old) (D.history disk.new) }
    ensures idle { IdleIf (λ now. IsThere (now (file.Mail number)) → length (now (file.Mail number)).octets ≤ end) (D.history disk.old) (D.history disk.new) }
    ensures fault { AnyFaultCounted (IsErr result) (D.faults disk.old) (D.faults disk.new) }
    ensures unfailed { OnOk result (NoFault (D.faults disk.old) (D.faults disk.new)) }
{
    match disk.length(FileName::Mail(number)) {
        Ok(length) => {
            if length <= end {
                return Ok(());
            }
            shorten(disk, number, end)?;
            Ok(())
        }
        Err(DiskError::Absent) => Ok(()),
        Err(DiskError::Failed) => Err(DiskFault),
    }
}

/// Cuts the storage file of this number to this size, and syncs it.
fn shorten<D: Disk>(disk: &mut D, number: u32, end: u64) -> Result<(), DiskFault>
    requires { IfTold (D.history disk.old) (λ now. Reaches (now (file.Mail number)) end) }
    ensures images { (generation : ℕ) (m : MapMeaning) → EndBy m number end → ImagesCarry generation m (D.history disk.old) (D.history disk.new) }
    ensures keeps { OnOk result ((generation : ℕ) (m : MapMeaning) → EndBy m number end → KeepsStore generation m (D.history disk.old) (D.history disk.new)) }
    ensures mail { OnOk result ((m : MapMeaning) → is_sealed m number ≡ false → end ≡ end_of m number → AreFitted m (D.history disk.old) (D.history disk.new)) }
    ensures there { OnOk result (SameThere (D.history disk.old) (D.history disk.new)) }
    ensures others { OnOk result (SameButFor (file.Mail number) (D.history disk.old) (D.history disk.new)) }
    ensures cut { OnOk result (IfTold (D.history disk.new) (λ now. length (now (file.Mail number)).octets ≤ end)) }
    ensures mail_stays { (m : MapMeaning) → is_sealed m number ≡ false → EndBy m number end → MailIsKept m (D.history disk.old) (D.history disk.new) }
    ensures fault { ChangeFaultCounted (IsErr result) (D.faults disk.old) (D.faults disk.new) }
    ensures unfailed { OnOk result (NoFault (D.faults disk.old) (D.faults disk.new)) }
{
    disk.cut(FileName::Mail(number), end)?;
    disk.sync(FileName::Mail(number))?;
    Ok(())
}
