// Syncing the files that taken messages are in.
ghost use Rattle.std.specs.Prelude.{◌≡◌, All, OnOk, IsErr};
ghost use Rattle.disk_model.specs.Disk.{DiskState, Between, EachImage, IfTold, IsThere};
ghost use Rattle.disk_model.specs.FaultCounts.{ChangeFaultCounted, NoFault};
ghost use Rattle.disk_model.specs.declared.name.FileName.TheVariants as file;
ghost use Rattle.model_rebuild.specs.RebuildMoments.{IsBeforeLogs, IsOldButForRoot};
ghost use Rattle.store_rebuild.specs.Writing.{AreFilesSynced, AreFilesThere, IsInstanceSynced, IsInstanceThere, IsOnlySynced, IsFileSynced};

use disk_model::{Disk, FileName};
use gate_log::DiskFault;
use mdbox_base::{FileNo, InstRow};
use model_rebuild::a_rebuild_can_crash;
use rebuild_judge::TakenRow;

/// Syncs the storage file of each message, and each instance that it names. `first` is the disk as a rebuild begins.
pub fn sync_taken<D: Disk>(disk: &mut D, taken: &[TakenRow]) -> Result<(), DiskFault>
    requires { IfTold (D.history disk.old) (λ now. All (AreFilesThere now) taken.now) }
    ensures any_moment { (first : DiskState) → IfTold (D.history disk.old) (IsBeforeLogs first) → EachImage (λ _ image. IsOldButForRoot first image) (D.history disk.old) (D.history disk.new) }
    ensures before { OnOk result ((first : DiskState) → IfTold (D.history disk.old) (IsBeforeLogs first) → IfTold (D.history disk.new) (IsBeforeLogs first)) }
    ensures synced { OnOk result (IfTold (D.history disk.new) (λ now. All (AreFilesSynced now) taken.now)) }
    ensures same { OnOk result (Between IsOnlySynced (D.history disk.old) (D.history disk.new)) }
    ensures fault { ChangeFaultCounted (IsErr result) (D.faults disk.old) (D.faults disk.new) }
    ensures unfailed { OnOk result (NoFault (D.faults disk.old) (D.faults disk.new)) }
{
    let mut last = 0;
    let mut rest = taken;
    while let Some((row, others)) = rest.split_first() {
        sync_storage(disk, row.file, last)?;
        sync_instances(disk, row.instances.as_slice())?;
        last = row.file.0;
        rest = others;
    }
    Ok(())
}

/// Syncs a storage file, unless it is the last that was synced.
fn sync_storage<D: Disk>(disk: &mut D, number: FileNo, last: u32) -> Result<(), DiskFault>
    requires { IfTold (D.history disk.old) (λ now. IsThere (now (file.Mail number.0))) }
    ensures any_moment { (first : DiskState) → IfTold (D.history disk.old) (IsBeforeLogs first) → EachImage (λ _ image. IsOldButForRoot first image) (D.history disk.old) (D.history disk.new) }
    ensures before { OnOk result ((first : DiskState) → IfTold (D.history disk.old) (IsBeforeLogs first) → IfTold (D.history disk.new) (IsBeforeLogs first)) }
    ensures synced { OnOk result (IfTold (D.history disk.old) (λ now. number.0 ≡ last → IsFileSynced (now (file.Mail number.0))) → IfTold (D.history disk.new) (λ now. IsFileSynced (now (file.Mail number.0)))) }
    ensures same { OnOk result (Between IsOnlySynced (D.history disk.old) (D.history disk.new)) }
    ensures fault { ChangeFaultCounted (IsErr result) (D.faults disk.old) (D.faults disk.new) }
    ensures unfailed { OnOk result (NoFault (D.faults disk.old) (D.faults disk.new)) }
{
    if number.0 == last {
        return Ok(());
    }
    sync_file(disk, FileName::Mail(number.0))?;
    Ok(())
}

/// Syncs instances.
fn sync_instances<D: Disk>(disk: &mut D, rows: &[InstRow]) -> Result<(), DiskFault>
    requires { IfTold (D.history disk.old) (λ now. All (IsInstanceThere now) rows.now) }
    ensures any_moment { (first : DiskState) → IfTold (D.history disk.old) (IsBeforeLogs first) → EachImage (λ _ image. IsOldButForRoot first image) (D.history disk.old) (D.history disk.new) }
    ensures before { OnOk result ((first : DiskState) → IfTold (D.history disk.old) (IsBeforeLogs first) → IfTold (D.history disk.new) (IsBeforeLogs first)) }
    ensures synced { OnOk result (IfTold (D.history disk.new) (λ now. All (IsInstanceSynced now) rows.now)) }
    ensures same { OnOk result (Between IsOnlySynced (D.history disk.old) (D.history disk.new)) }
    ensures fault { ChangeFaultCounted (IsErr result) (D.faults disk.old) (D.faults disk.new) }
    ensures unfailed { OnOk result (NoFault (D.faults disk.old) (D.faults disk.new)) }
{
    let mut rest = rows;
    while let Some((row, others)) = rest.split_first() {
        sync_file(disk, FileName::Inst(row.hash.0, row.id.0))?;
        rest = others;
    }
    Ok(())
}

/// Syncs a file.
fn sync_file<D: Disk>(disk: &mut D, name: FileName) -> Result<(), DiskFault>
    requires { IfTold (D.history disk.old) (λ now. IsThere (now name)) }
    ensures any_moment { (first : DiskState) → IfTold (D.history disk.old) (IsBeforeLogs first) → EachImage (λ _ image. IsOldButForRoot first image) (D.history disk.old) (D.history disk.new) }
    ensures before { OnOk result ((first : DiskState) → IfTold (D.history disk.old) (IsBeforeLogs first) → IfTold (D.history disk.new) (IsBeforeLogs first)) }
    ensures synced { OnOk result (IfTold (D.history disk.new) (λ now. IsFileSynced (now name))) }
    ensures same { OnOk result (Between IsOnlySynced (D.history disk.old) (D.history disk.new)) }
    ensures fault { ChangeFaultCounted (IsErr result) (D.faults disk.old) (D.faults disk.new) }
    ensures unfailed { OnOk result (NoFault (D.faults disk.old) (D.faults disk.new)) }
{
    a_rebuild_can_crash();
    disk.sync(name)?;
    Ok(())
}
