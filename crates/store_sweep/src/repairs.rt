// The ends of logs.
ghost use Rattle.std.specs.Prelude.{◌≡◌, ◌<◌, ◌≤◌, ◌+◌, ◌++◌, ◌∷◌, [], ℕ, length, vec_len, vec_capacity, OnOk, IsErr};
ghost use Rattle.std.specs.List.{All, AllZip};
ghost use Rattle.disk_model.specs.FaultCounts.{NoFault, ChangeFaultCounted};
ghost use Rattle.disk_model.specs.Disk.{IfTold};
ghost use Rattle.gate_log.specs.State.{IsWholeLog};
ghost use Rattle.model_kept.specs.Kept.{MailIsKept};
ghost use Rattle.store_sweep.specs.Moments.{ImagesCarry, KeepsStore, SameWhere, SameThere};
ghost use Rattle.store_sweep.specs.Boxes.{found_logs, opened_logs, HaveIndexes};
ghost use Rattle.store_sweep.specs.Repaired.{StandsFound, IsRepaired, AreLogsOfBoxes, is_outside};

use disk_model::Disk;
use gate_log::DiskFault;
use map_index::MapIndex;
use std::alloc::Global;
use store_checks::CheckedBox;
use store_core::OpenBox;

/// Repairs the logs of the mailboxes of the map, in order, and opens them with their indexes. There is room for them.
pub fn repair_boxes<D: Disk>(
    alloc: Global,
    disk: &mut D,
    found: Vec<CheckedBox>,
    map: &MapIndex,
    opened: &mut Vec<OpenBox>,
) -> Result<(), DiskFault>
    requires logs { AreLogsOfBoxes map.now.meaning (found_logs found.items) }
    requires stand { IfTold (D.history disk.old) (λ now. All (StandsFound now) (found_logs found.items)) }
    requires empty { (opened.old.items ≡ []) × (vec_len opened.old ≡ 0) }
    requires room { (vec_len found ≡ length found.items) × (vec_len found ≤ vec_capacity opened.old) }
    ensures images { (generation : ℕ) → ImagesCarry generation map.now.meaning (D.history disk.old) (D.history disk.new) }
    ensures keeps { OnOk result ((generation : ℕ) → KeepsStore generation map.now.meaning (D.history disk.old) (D.history disk.new)) }
    ensures indexes { OnOk result (HaveIndexes map.now.meaning found.items opened.new.items) }
    ensures opened { OnOk result (AllZip (IsRepaired (D.history disk.old) (D.history disk.new)) (found_logs found.items) (opened_logs opened.new.items)) }
    ensures there { OnOk result (SameThere (D.history disk.old) (D.history disk.new)) }
    ensures others { OnOk result (SameWhere (is_outside (found_logs found.items)) (D.history disk.old) (D.history disk.new)) }
    ensures mail_stays { MailIsKept map.now.meaning (D.history disk.old) (D.history disk.new) }
    ensures untouched { All IsWholeLog (found_logs found.items) → disk.new ≡ disk.old }
    ensures fault { ChangeFaultCounted (IsErr result) (D.faults disk.old) (D.faults disk.new) }
    ensures unfailed { OnOk result (NoFault (D.faults disk.old) (D.faults disk.new)) }
{
    map.known_facts();
    for checked in found {
        let at = map.box_at(opened.as_slice().len() as u32).unwrap();
        let log = checked.log.repair(alloc, disk)?;
        push_box(
            opened,
            OpenBox {
                number: at.number,
                log,
                index: checked.index,
            },
        );
    }
    Ok(())
}

/// Adds a mailbox where there is room.
fn push_box(boxes: &mut Vec<OpenBox>, open_box: OpenBox)
    requires { vec_len boxes.old < vec_capacity boxes.old }
    ensures items { boxes.new.items ≡ boxes.old.items ++ open_box ∷ [] }
    ensures len { vec_len boxes.new ≡ vec_len boxes.old + 1 }
    ensures capacity { vec_capacity boxes.old ≤ vec_capacity boxes.new }
{
    boxes.push(open_box).unwrap();
}
