// A message that is copied to a target.
ghost use Rattle.std.specs.Prelude.{◌≡◌, ◌≢◌, ◌≤◌, ◌+◌, ◌==◌, ◌⊎◌, ℕ, List, true, false, length, Some, IfSome, IfNone, IfErr, IsErr, OnOk};
ghost use Rattle.std.specs.List.{list_any};
ghost use Rattle.disk_model.specs.Disk.{Between, Grows, IfTold, IsIdle, SameButFor, reading};
ghost use Rattle.disk_model.specs.FaultCounts.{NoFault, ReadFaultCounted};
ghost use Rattle.disk_model.specs.declared.name.FileName.TheVariants.{Mail};
ghost use Rattle.mdbox_base.specs.declared.replies.Refusal.TheVariants as refusal;
ghost use Rattle.model_kept.specs.Kept.{MailIsKept};
ghost use Rattle.model_lists.specs.Lists.{Lists};
ghost use Rattle.model_meaning.specs.Sound.{IsSoundMap};
ghost use Rattle.model_store.specs.Settled.{IsSettledFor, Leaves};
ghost use Rattle.storage_files.specs.Files.{end_in, place_begun_in};
ghost use Rattle.storage_files.specs.OnDisk.{IsPieceAdded};
ghost use Rattle.store_core.specs.Dues.{KeepsStored};
ghost use Rattle.purge_task.specs.Claims.{sources_left};
ghost use Rattle.purge_task.specs.Copied.{AreUnwantedFrom, CopyFaultCounted, IsCopyRefusal, IsNextWanted, IsRegionAdded, IsShownRow, IsTargetAt, NotesCopy, whole_piece};
ghost use Rattle.purge_task.specs.Reserved.{HasRoomForCopy};

use crate::work::{PIECE, Work};
use disk_model::Disk;
use map_index::MapIndex;
use map_rows::MapRow;
use mdbox_base::{FileNo, Refusal};
use store_core::Store;

/// Whether a message lies in a file.
pub fn has_message(map: &MapIndex, file: FileNo) -> bool
    ensures { result ≡ list_any (λ row. row.file == file.0) map.now.meaning.records }
{
    map.in_file(file, 0).is_some()
}

/// The wanted message of a file with the least offset from this one on. None if and only if there is none.
pub fn next_wanted(map: &MapIndex, file: FileNo, from: u32) -> Option<MapRow>
    requires { IsSoundMap map.now.meaning }
    ensures some { IfSome result (IsNextWanted map.now.meaning file.0 from) }
    ensures none { IfNone result (AreUnwantedFrom map.now.meaning file.0 from) }
{
    let mut from = from;
    while let Some(row) = map.in_file(file, from) {
        if row.count > 0 {
            return Some(row);
        }
        from = row.offset + row.size;
    }
    None
}

/// Copies the region of a message to the target's end, and lists where it is now. A read that fails leaves the target with some of it.
pub fn copy_message<D: Disk>(
    store: &mut Store<D>,
    work: &mut Work,
    target: FileNo,
    row: MapRow,
) -> Result<(), Refusal>
    requires running { store.old.stopped ≡ false }
    requires row { IsShownRow store.old.map row }
    requires begun { (start : ℕ) × (place_begun_in target.0 store.old.files.files ≡ Some start) }
    requires fits { (end : ℕ) × (end_in target.0 store.old.files.files ≡ Some end) × (end + row.size ≤ 4294967295) }
    requires other { row.file.0 ≢ target.0 }
    requires block { length work.old.block.items ≡ 65536 }
    requires room { HasRoomForCopy (sources_left work.old) }

    // Of a settled disk each image at every moment is safe for its lists, whichever call fails.
    ensures any_moment { (lists : Lists) → IsSettledFor lists (D.history store.old.disk) → Leaves lists lists (D.history store.old.disk) (D.history store.new.disk) }
    ensures mail_stays { MailIsKept store.old.map (D.history store.old.disk) (D.history store.new.disk) }
    ensures settled { store.new.stopped ≡ false → (lists : Lists) → IsSettledFor lists (D.history store.old.disk) → IsSettledFor lists (D.history store.new.disk) }

    // After Ok the region stands at the target's old end, octet for octet, and the list has that place.
    ensures copied { OnOk result (Between (IsRegionAdded row target.0) (D.history store.old.disk) (D.history store.new.disk)) }
    ensures ok { OnOk result ((end : ℕ) → end_in target.0 store.old.files.files ≡ Some end → IsTargetAt target.0 (end + row.size) store.old store.new × (store.new.stopped ≡ false) × NotesCopy row end work.old work.new) }

    // Unless the store is stopped, no other file has changed, and the target has some octets more.
    ensures others { store.new.stopped ≡ false → SameButFor (Mail target.0) (D.history store.old.disk) (D.history store.new.disk) }
    ensures front { store.new.stopped ≡ false → Between (λ old new. (more : List ℕ) × IsPieceAdded more (old (Mail target.0)) (new (Mail target.0))) (D.history store.old.disk) (D.history store.new.disk) }
    ensures stored { store.new.stopped ≡ false → KeepsStored (D.history store.old.disk) (D.history store.new.disk) }
    ensures refused { IfErr result (λ why. IsCopyRefusal target.0 why store.old store.new × (work.new ≡ record work.old { block = work.new.block }) × (length work.new.block.items ≡ 65536)) }
    ensures grows { Grows (D.history store.old.disk) (D.history store.new.disk) }
    ensures fault { CopyFaultCounted result (D.faults store.old.disk) (D.faults store.new.disk) }
{
    store.facts();
    let Some(offset) = store.end_of(target) else {
        unreachable!()
    };
    copy_region(store, &mut work.block, target, row)?;
    work.note_copy(row, offset as u32);
    Ok(())
}

/// Copies the octets of a region through a block, piece by piece.
fn copy_region<D: Disk>(
    store: &mut Store<D>,
    block: &mut [u8],
    target: FileNo,
    row: MapRow,
) -> Result<(), Refusal>
    requires running { store.old.stopped ≡ false }
    requires row { IsShownRow store.old.map row }
    requires begun { (start : ℕ) × (place_begun_in target.0 store.old.files.files ≡ Some start) }
    requires fits { (end : ℕ) × (end_in target.0 store.old.files.files ≡ Some end) × (end + row.size ≤ 4294967295) }
    requires other { row.file.0 ≢ target.0 }
    requires block { length block.old ≡ 65536 }
    ensures any_moment { (lists : Lists) → IsSettledFor lists (D.history store.old.disk) → Leaves lists lists (D.history store.old.disk) (D.history store.new.disk) }
    ensures mail_stays { MailIsKept store.old.map (D.history store.old.disk) (D.history store.new.disk) }
    ensures settled { store.new.stopped ≡ false → (lists : Lists) → IsSettledFor lists (D.history store.old.disk) → IsSettledFor lists (D.history store.new.disk) }
    ensures copied { OnOk result (Between (IsRegionAdded row target.0) (D.history store.old.disk) (D.history store.new.disk)) }
    ensures ok { OnOk result ((end : ℕ) → end_in target.0 store.old.files.files ≡ Some end → IsTargetAt target.0 (end + row.size) store.old store.new × (store.new.stopped ≡ false)) }
    ensures others { store.new.stopped ≡ false → SameButFor (Mail target.0) (D.history store.old.disk) (D.history store.new.disk) }
    ensures front { store.new.stopped ≡ false → Between (λ old new. (more : List ℕ) × IsPieceAdded more (old (Mail target.0)) (new (Mail target.0))) (D.history store.old.disk) (D.history store.new.disk) }
    ensures stored { store.new.stopped ≡ false → KeepsStored (D.history store.old.disk) (D.history store.new.disk) }
    ensures refused { IfErr result (λ why. IsCopyRefusal target.0 why store.old store.new) }
    ensures grows { Grows (D.history store.old.disk) (D.history store.new.disk) }
    ensures fault { CopyFaultCounted result (D.faults store.old.disk) (D.faults store.new.disk) }
{
    store.facts();
    let mut done: u32 = 0;
    while done < row.size {
        let count = (row.size - done).min(PIECE as u32);
        let piece = &mut block[..count as usize];
        copy_piece(store, piece, target, row.file, row.offset + done)?;
        done += count;
    }
    Ok(())
}

/// Copies as many octets of a file as the piece has room for.
fn copy_piece<D: Disk>(
    store: &mut Store<D>,
    piece: &mut [u8],
    target: FileNo,
    file: FileNo,
    offset: u32,
) -> Result<(), Refusal>
    requires running { store.old.stopped ≡ false }
    requires begun { (start : ℕ) × (place_begun_in target.0 store.old.files.files ≡ Some start) }
    requires fits { (end : ℕ) × (end_in target.0 store.old.files.files ≡ Some end) × (end + length piece.old ≤ 4294967295) }
    ensures any_moment { (lists : Lists) → IsSettledFor lists (D.history store.old.disk) → Leaves lists lists (D.history store.old.disk) (D.history store.new.disk) }
    ensures mail_stays { MailIsKept store.old.map (D.history store.old.disk) (D.history store.new.disk) }
    ensures settled { store.new.stopped ≡ false → (lists : Lists) → IsSettledFor lists (D.history store.old.disk) → IsSettledFor lists (D.history store.new.disk) }
    ensures copied { OnOk result (Between (λ old new. IsPieceAdded (whole_piece offset (length piece.old) (reading (old (Mail file.0)))) (old (Mail target.0)) (new (Mail target.0))) (D.history store.old.disk) (D.history store.new.disk)) }
    ensures ok { OnOk result ((end : ℕ) → end_in target.0 store.old.files.files ≡ Some end → IsTargetAt target.0 (end + length piece.old) store.old store.new × (store.new.stopped ≡ false)) }
    ensures others { store.new.stopped ≡ false → SameButFor (Mail target.0) (D.history store.old.disk) (D.history store.new.disk) }
    ensures stored { store.new.stopped ≡ false → KeepsStored (D.history store.old.disk) (D.history store.new.disk) }
    ensures refused { IfErr result (λ why. ((why ≡ refusal.ReadFault) × (store.new ≡ record store.old { disk = store.new.disk }) × IsIdle (D.history store.old.disk) (D.history store.new.disk)) ⊎ ((why ≡ refusal.Stopped) × (store.new ≡ record store.old { disk = store.new.disk; stopped = true }))) }
    ensures grows { Grows (D.history store.old.disk) (D.history store.new.disk) }
    ensures fault { CopyFaultCounted result (D.faults store.old.disk) (D.faults store.new.disk) }
{
    read_whole(store, file, u64::from(offset), piece)?;
    match store.add_piece(target, piece) {
        Ok(()) => Ok(()),
        Err(_) => Err(Refusal::Stopped),
    }
}

/// Reads as many octets as the piece has room for. Octets that aren't there, of a message that was damaged, are read as zeros:
/// it stays damaged.
fn read_whole<D: Disk>(
    store: &mut Store<D>,
    file: FileNo,
    offset: u64,
    piece: &mut [u8],
) -> Result<(), Refusal>
    ensures piece { OnOk result (IfTold (D.history store.old.disk) (λ now. piece.new ≡ whole_piece offset (length piece.old) (reading (now (Mail file.0))))) }
    ensures refused { IfErr result (λ why. why ≡ refusal.ReadFault) }
    ensures same { store.new ≡ record store.old { disk = store.new.disk } }
    ensures idle { IsIdle (D.history store.old.disk) (D.history store.new.disk) }
    ensures fault { ReadFaultCounted (IsErr result) (D.faults store.old.disk) (D.faults store.new.disk) }
    ensures unfailed { OnOk result (NoFault (D.faults store.old.disk) (D.faults store.new.disk)) }
{
    match store.read_piece(file, offset, piece) {
        Ok(read) => {
            piece[read..].fill(0);
            Ok(())
        }
        Err(_) => Err(Refusal::ReadFault),
    }
}
