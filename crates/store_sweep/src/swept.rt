// The sweep of a store.
ghost use Rattle.std.specs.Prelude.{◌≡◌, ◌∷◌, true, ℕ, [], length, vec_len, vec_capacity, ◌≤◌, OnOk, IfOk, IsErr, All};
ghost use Rattle.std.specs.List.{AllZip};
ghost use Rattle.disk_model.specs.FaultCounts.{NoFault, ChangeFaultCounted, AnyFaultCounted};
ghost use Rattle.disk_model.specs.Disk.{EachImage, IfTold, IsThere};
ghost use Rattle.disk_model.specs.declared.name.FileName.{FileName};
ghost use Rattle.disk_model.specs.declared.name.FileName.TheVariants as file;
ghost use Rattle.model_lists.specs.Lists.{Lists};
ghost use Rattle.model_store.specs.Safe.{Safe};
ghost use Rattle.model_store.specs.Settled.{IsSettledFor};
ghost use Rattle.gate_log.specs.State.{IsWholeLog};
ghost use Rattle.model_kept.specs.Kept.{MailIsKept};
ghost use Rattle.store_sweep.specs.Moments.{NoFailedChange, ImagesCarry, KeepsStore, SameWhere, SameThere, KeepsWanted, LogStays, AreFitted, NamesSynced, IdleIf};
ghost use Rattle.store_sweep.specs.Boxes.{found_logs, opened_logs, HaveIndexes};
ghost use Rattle.store_sweep.specs.Repaired.{StandsFound, IsRepaired, AreLogsOfBoxes, is_outside};
ghost use Rattle.store_sweep.specs.Swept.{OpensWith, FilesCarry, IsOpened, IsSwept};
ghost use Rattle.disk_model.specs.Name.{is_log};
ghost use Rattle.store_sweep.specs.Wanted.{is_wanted, EndsByLastRegion, HasNothingToSweep};

use crate::cuts::cut_files;
use crate::repairs::repair_boxes;
use crate::strays::remove_strays;
use disk_model::Disk;
use gate_log::{DiskFault, FoundLog, GateLog};
use map_index::MapIndex;
use std::alloc::Global;
use store_checks::{Checked, CheckedBox};
use store_core::{OpenBox, OpenLogs};

/// Removes the files that the store doesn't need, cuts storage files behind their last regions, and syncs names where a
/// file was removed.
fn clear<D: Disk>(disk: &mut D, generation: u32, map: &MapIndex) -> Result<(), DiskFault>
    ensures images { ImagesCarry generation map.now.meaning (D.history disk.old) (D.history disk.new) }
    ensures keeps { NoFailedChange (IsErr result) (D.faults disk.old) (D.faults disk.new) → KeepsStore generation map.now.meaning (D.history disk.old) (D.history disk.new) }
    ensures logs { OnOk result ((name : FileName) → is_log name ≡ true → is_wanted generation map.now.meaning name ≡ true → LogStays name (D.history disk.old) (D.history disk.new)) }
    ensures mail { OnOk result (AreFitted map.now.meaning (D.history disk.old) (D.history disk.new)) }
    ensures kept { OnOk result (KeepsWanted generation map.now.meaning (D.history disk.old) (D.history disk.new)) }
    ensures names { OnOk result (NamesSynced generation map.now.meaning (D.history disk.old) (D.history disk.new)) }
    ensures gone { OnOk result (IfTold (D.history disk.new) (λ now. (name : FileName) → IsThere (now name) → is_wanted generation map.now.meaning name ≡ true)) }
    ensures cut { OnOk result (IfTold (D.history disk.new) (λ now. (name : FileName) → IsThere (now name) → EndsByLastRegion map.now.meaning name (now name))) }
    ensures mail_stays { MailIsKept map.now.meaning (D.history disk.old) (D.history disk.new) }
    ensures idle { IdleIf (HasNothingToSweep generation map.now.meaning) (D.history disk.old) (D.history disk.new) }
    ensures fault { AnyFaultCounted (IsErr result) (D.faults disk.old) (D.faults disk.new) }
    ensures unfailed { OnOk result (NoFault (D.faults disk.old) (D.faults disk.new)) }
{
    let removed = remove_strays(disk, generation, map)?;
    cut_files(disk, map)?;
    if !removed {
        return Ok(());
    }
    disk.sync_names()?;
    Ok(())
}

/// Repairs the root log, the map log, and those of the mailboxes of the map, in order, and opens these with their indexes.
/// There is room for them.
fn repair_logs<D: Disk>(
    alloc: Global,
    disk: &mut D,
    root_log: FoundLog,
    map_log: FoundLog,
    boxes: Vec<CheckedBox>,
    map: &MapIndex,
    opened: &mut Vec<OpenBox>,
) -> Result<(GateLog, GateLog), DiskFault>
    requires root { (root_log.name ≡ file.Root) × IfTold (D.history disk.old) (λ now. StandsFound now root_log) }
    requires map_log { ((generation : ℕ) × (map_log.name ≡ file.Map generation)) × IfTold (D.history disk.old) (λ now. StandsFound now map_log) }
    requires box_logs { AreLogsOfBoxes map.now.meaning (found_logs boxes.items) }
    requires box_logs_stand { IfTold (D.history disk.old) (λ now. All (StandsFound now) (found_logs boxes.items)) }
    requires empty { (opened.old.items ≡ []) × (vec_len opened.old ≡ 0) }
    requires room { (vec_len boxes ≡ length boxes.items) × (vec_len boxes ≤ vec_capacity opened.old) }
    ensures indexes { OnOk result (HaveIndexes map.now.meaning boxes.items opened.new.items) }
    ensures images { (generation : ℕ) → map_log.name ≡ file.Map generation → ImagesCarry generation map.now.meaning (D.history disk.old) (D.history disk.new) }
    ensures keeps { OnOk result ((generation : ℕ) → map_log.name ≡ file.Map generation → KeepsStore generation map.now.meaning (D.history disk.old) (D.history disk.new)) }
    ensures there { OnOk result (SameThere (D.history disk.old) (D.history disk.new)) }
    ensures others { OnOk result (SameWhere (is_outside (root_log ∷ map_log ∷ found_logs boxes.items)) (D.history disk.old) (D.history disk.new)) }
    ensures root_log { IfOk result (λ logs. IsRepaired (D.history disk.old) (D.history disk.new) root_log logs.0) }
    ensures map_log { IfOk result (λ logs. IsRepaired (D.history disk.old) (D.history disk.new) map_log logs.1) }
    ensures box_logs { OnOk result (AllZip (IsRepaired (D.history disk.old) (D.history disk.new)) (found_logs boxes.items) (opened_logs opened.new.items)) }
    ensures mail_stays { MailIsKept map.now.meaning (D.history disk.old) (D.history disk.new) }
    ensures untouched { All IsWholeLog (root_log ∷ map_log ∷ found_logs boxes.items) → disk.new ≡ disk.old }
    ensures fault { ChangeFaultCounted (IsErr result) (D.faults disk.old) (D.faults disk.new) }
    ensures unfailed { OnOk result (NoFault (D.faults disk.old) (D.faults disk.new)) }
{
    let root_log = root_log.repair(alloc, disk)?;
    let map_log = map_log.repair(alloc, disk)?;
    repair_boxes(alloc, disk, boxes, map, opened)?;
    Ok((root_log, map_log))
}

/// Sweeps a disk whose store has passed the checks of an opening, and opens its logs. The ends of the logs are repaired, files
/// that the store doesn't need are removed, storage files that aren't sealed are cut behind their last regions, and names are
/// synced where a file was removed. Nothing is written where nothing is to do, and with room for the mailboxes nothing wants
/// memory.
pub fn sweep<D: Disk>(
    alloc: Global,
    disk: &mut D,
    checked: Checked,
    room: Vec<OpenBox>,
) -> Result<OpenLogs, DiskFault>
    requires opened { IfTold (D.history disk.old) (OpensWith checked.generation checked.map.meaning) }
    requires root { (checked.root_log.name ≡ file.Root) × IfTold (D.history disk.old) (λ now. StandsFound now checked.root_log) }
    requires map_log { (checked.map_log.name ≡ file.Map checked.generation) × IfTold (D.history disk.old) (λ now. StandsFound now checked.map_log) }
    requires box_logs { AreLogsOfBoxes checked.map.meaning (found_logs checked.boxes) }
    requires box_logs_stand { IfTold (D.history disk.old) (λ now. All (StandsFound now) (found_logs checked.boxes)) }
    requires room { (room.items ≡ []) × (vec_len room ≡ 0) × (length checked.boxes ≤ vec_capacity room) }

    // At every moment of the call, whatever fails, each image of a settled disk is safe for the same lists.
    ensures any_moment { (lists : Lists) → IsSettledFor lists (D.history disk.old) → EachImage (λ _ image. Safe image lists) (D.history disk.old) (D.history disk.new) }

    // At every moment, whatever fails, each image has of the storage files and instances what a crash could leave of them at
    // the beginning: of a sealed file all of it, of another as far as the end of each region.
    ensures mail_stays { MailIsKept checked.map.meaning (D.history disk.old) (D.history disk.new) }

    // A disk on which nothing is to be swept is left as it is, whatever fails.
    ensures idle { All IsWholeLog (checked.root_log ∷ checked.map_log ∷ found_logs checked.boxes) → IdleIf (HasNothingToSweep checked.generation checked.map.meaning) (D.history disk.old) (D.history disk.new) }

    // Whatever is answered, where no change failed a settled disk is settled for the same lists again, and of any disk what the
    // store reads is carried over.
    ensures settled_again { NoFailedChange (IsErr result) (D.faults disk.old) (D.faults disk.new) → (lists : Lists) → IsSettledFor lists (D.history disk.old) → IsSettledFor lists (D.history disk.new) }
    ensures carried { NoFailedChange (IsErr result) (D.faults disk.old) (D.faults disk.new) → FilesCarry checked.generation checked.map.meaning (D.history disk.old) (D.history disk.new) }

    // After Ok the disk is swept, and each log is the one that was found, with its end repaired.
    ensures swept { OnOk result (IsSwept checked.generation checked.map.meaning (D.history disk.old) (D.history disk.new)) }
    ensures root_log { IfOk result (λ logs. IsOpened (D.history disk.old) (D.history disk.new) checked.root_log logs.root_log) }
    ensures map_log { IfOk result (λ logs. IsOpened (D.history disk.old) (D.history disk.new) checked.map_log logs.map_log) }
    ensures box_logs { IfOk result (λ logs. AllZip (IsOpened (D.history disk.old) (D.history disk.new)) (found_logs checked.boxes) (opened_logs logs.boxes.items)) }
    ensures same { IfOk result (λ logs. (logs.id ≡ checked.id) × (logs.map ≡ checked.map) × HaveIndexes checked.map.meaning checked.boxes logs.boxes.items) }

    ensures fault { AnyFaultCounted (IsErr result) (D.faults disk.old) (D.faults disk.new) }
    ensures unfailed { OnOk result (NoFault (D.faults disk.old) (D.faults disk.new)) }
{
    let Checked {
        id,
        root_log,
        map_log,
        generation,
        map,
        boxes,
    } = checked;
    let mut opened = room;
    let boxes = boxes.into_vec();
    let (root_log, map_log) = repair_logs(
        alloc,
        disk,
        root_log,
        map_log,
        boxes,
        &map,
        &mut opened,
    )?;
    clear(disk, generation, &map)?;
    Ok(OpenLogs {
        id,
        root_log,
        map_log,
        map,
        boxes: opened,
    })
}
