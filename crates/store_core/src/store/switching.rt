// A storage file that a purge has copied gives way to its target.
ghost use Rattle.std.specs.Prelude.{◌≡◌, ◌++◌, ◌∷◌, [], ◌<◌, ◌≤◌, ◌+◌, ◌==◌, ℕ, List, All, Some, OnOk, OnErr, IsErr, IfOk, true, false, length, map};
ghost use Rattle.std.specs.Option.{option_map_or};
ghost use Rattle.std.specs.List.Sorted.{IsStrictlyIncreasing};
ghost use Rattle.disk_model.specs.Disk.{EachImage, Grows, IfTold, OthersStay, SameButFor};
ghost use Rattle.disk_model.specs.FaultCounts.{NoFault, ChangeFaultCounted};
ghost use Rattle.gate_log.specs.Log.{Reads, Holds};
ghost use Rattle.gate_log.specs.State.{IsSameLog};
ghost use Rattle.model_kept.specs.Kept.{MailIsKept};
ghost use Rattle.model_lists.specs.Lists.{Lists};
ghost use Rattle.model_logs.specs.Entries.{map_text, MapInRange};
ghost use Rattle.model_meaning.specs.MapFits.{MapFits};
ghost use Rattle.model_meaning.specs.MapMeaning.{MapMeaning, MapRecord, has_map_uid, map_applied, record_at};
ghost use Rattle.model_store.specs.Settled.{IsSettledFor, Leaves};
ghost use Rattle.std.specs.Prelude.{slice_get};
ghost use Rattle.storage_files.specs.Files.{changed_in, is_emptied_in, made_doomed, pins_in};
ghost use Rattle.store_core.specs.Append.{AddsText};
ghost use Rattle.store_core.specs.Dues.{due_at, leak_at, IsSpared, KeepsStored};
ghost use Rattle.store_core.specs.Keeping.{KeepsFirm, KeepsMail};
ghost use Rattle.store_core.specs.Switching.{Switches, PlacesLieBelow, HasCopies, HasCopiesSynced, dues_switched, dues_without};

use super::Store;
use crate::error::Stopped;
use disk_model::Disk;
use gate_log::{DiskFault, GateLog};
use log_records::put_map_entry;
use map_index::MapIndex;
use mdbox_base::{FileNo, MapEntry, MapUid, NoMemory};

impl<D: Disk> Store<D> {
    /// Switches a storage file that was taken to be emptied: an entry of the map log moves its records to where they were
    /// copied, and drops those with count 0; then the file is doomed. Answers whether it has no pin. The room for the entry was
    /// made before, and `text` is where it is laid out. A change of the disk that fails stops the store.
    pub fn switch_file(
        &mut self,
        file: FileNo,
        entry: &MapEntry,
        text: &mut [u8],
    ) -> Result<bool, Stopped>
        requires running { self.old.stopped ≡ false }
        requires switches { Switches entry.now file.0 }
        requires range { MapInRange entry.now }
        requires fits { MapFits self.old.map entry.now }
        requires emptied { is_emptied_in file.0 self.old.files.files ≡ true }
        requires room { length (map_text entry.now) + 5 ≤ self.old.map_log.room }
        requires text { length text.old ≡ length (map_text entry.now) }
        requires places { PlacesLieBelow entry.now self.old.map self.old.files.files self.old.drawn.file }
        requires copies { HasCopies entry.now self.old.map (D.history self.old.disk) }

        // Of a settled disk each image at every moment is safe for its lists, whichever call fails; and after Ok it is settled
        // for them still. What is moved has to be synced where it was copied to.
        ensures any_moment { (lists : Lists) → HasCopiesSynced entry.now self.old.map (D.history self.old.disk) → IsSettledFor lists (D.history self.old.disk) → Leaves lists lists (D.history self.old.disk) (D.history self.new.disk) }
        ensures mail_stays { (m : MapMeaning) → MailIsKept m (D.history self.old.disk) (D.history self.new.disk) }
        ensures settled { OnOk result ((lists : Lists) → HasCopiesSynced entry.now self.old.map (D.history self.old.disk) → IsSettledFor lists (D.history self.old.disk) → IsSettledFor lists (D.history self.new.disk)) }

        // After Ok the map means what it did, with the entry. What is due and what leaks stays, and so do the mailboxes.
        ensures taken { OnOk result (self.new.map ≡ map_applied entry.now self.old.map) }
        ensures due { (uid : ℕ) → due_at uid self.new ≡ due_at uid self.old }
        ensures leak { (uid : ℕ) → leak_at uid self.new ≡ leak_at uid self.old }
        ensures mailboxes { self.new.map.boxes ≡ self.old.map.boxes }

        // Each record stores what it stored; one that is referred to is there still, maybe elsewhere. Storage files and instances
        // are as they were, on the disk.
        ensures stored { OnOk result (KeepsStored (D.history self.old.disk) (D.history self.new.disk)) }
        ensures spared { OnOk result ((uid : ℕ) (row : MapRecord) → record_at self.old.map uid ≡ Some row → 1 ≤ row.count → IsSpared uid row self.new (D.history self.old.disk) (D.history self.new.disk)) }
        ensures others { OnOk result (KeepsMail (D.history self.old.disk) (D.history self.new.disk)) }
        ensures firm { OnOk result (KeepsFirm self.old self.new (D.history self.old.disk) (D.history self.new.disk)) }

        ensures unpinned { IfOk result (λ unpinned. unpinned ≡ (pins_in file.0 self.old.files.files == 0)) }
        ensures laid { text.new ≡ map_text entry.now }
        ensures further { OnOk result (self.old.map_log.end < self.new.map_log.end) }
        ensures room { self.old.map_log.room ≤ self.new.map_log.room }
        ensures ok { OnOk result (self.new ≡ record self.old { disk = self.new.disk; map_log = self.new.map_log; map = self.new.map; files = record self.old.files { files = changed_in file.0 made_doomed self.old.files.files }; dues = self.new.dues }) }
        ensures err { OnErr result (self.new ≡ record self.old { disk = self.new.disk; map_log = self.new.map_log; stopped = true }) }
        ensures grows { Grows (D.history self.old.disk) (D.history self.new.disk) }
        ensures fault { ChangeFaultCounted (IsErr result) (D.faults self.old.disk) (D.faults self.new.disk) }
        ensures unfailed { OnOk result (NoFault (D.faults self.old.disk) (D.faults self.new.disk)) }
    {
        self.files.known_facts();
        match append_laid(&mut self.map_log, &mut self.disk, entry, text) {
            Ok(()) => {
                drop_dues(&self.map, &mut self.dues, entry);
                apply_switch(&mut self.map, entry);
                Ok(self.files.doom(file))
            }
            Err(DiskFault) => {
                self.stopped = true;
                Err(Stopped)
            }
        }
    }
}

/// Lays out an entry and adds it to the map log, which has room for it.
fn append_laid<D: Disk>(
    log: &mut GateLog,
    disk: &mut D,
    entry: &MapEntry,
    text: &mut [u8],
) -> Result<(), DiskFault>
    requires read { (entries : List (List ℕ)) × Reads log.old entries (D.history disk.old) }
    requires range { MapInRange entry.now }
    requires text { length text.old ≡ length (map_text entry.now) }
    requires room { length (map_text entry.now) + 5 ≤ log.old.room }
    ensures any_moment { AddsText log.old (map_text entry.now) (D.history disk.old) (D.history disk.new) }
    ensures others_stay { EachImage (λ _ image. OthersStay log.old.name (D.history disk.old) image) (D.history disk.old) (D.history disk.new) }
    ensures grows { Grows (D.history disk.old) (D.history disk.new) }
    ensures added { OnOk result ((entries : List (List ℕ)) → Reads log.old entries (D.history disk.old) → Reads log.new (entries ++ map_text entry.now ∷ []) (D.history disk.new)) }
    ensures held { OnOk result ((entries : List (List ℕ)) → Holds log.old entries (D.history disk.old) → Holds log.new (entries ++ map_text entry.now ∷ []) (D.history disk.new)) }
    ensures others { OnOk result (SameButFor log.old.name (D.history disk.old) (D.history disk.new)) }
    ensures fault { ChangeFaultCounted (IsErr result) (D.faults disk.old) (D.faults disk.new) }
    ensures unfailed { OnOk result (NoFault (D.faults disk.old) (D.faults disk.new)) }
    ensures log { IsSameLog log.old log.new }
    ensures further { OnOk result (log.old.end < log.new.end) }
    ensures laid { text.new ≡ map_text entry.now }
{
    put_map_entry(text, entry);
    log.append(disk, text)
}

/// Takes in an entry that moves and drops records.
fn apply_switch(map: &mut MapIndex, entry: &MapEntry)
    requires kind { (number : ℕ) × Switches entry.now number }
    requires fits { MapFits map.old.meaning entry.now }
    ensures { map.new.meaning ≡ map_applied entry.now map.old.meaning }
{
    match map.apply(entry) {
        Ok(()) => {}
        Err(NoMemory) => unreachable!(),
    }
}

/// Drops the numbers of the records that an entry drops, by the index that hasn't taken it in yet.
fn drop_dues(map: &MapIndex, dues: &mut Vec<u32>, entry: &MapEntry)
    requires size { length dues.old.items ≡ length map.now.meaning.records }
    requires fits { MapFits map.now.meaning entry.now }
    ensures { dues.new.items ≡ dues_switched entry.now map.now.meaning.records dues.old.items }
{
    if let MapEntry::P { dropped, .. } = entry {
        leave_out(map, dues, dropped.as_slice());
    }
}

/// Leaves out the numbers of these records, whose map uids rise: those that stay move forward.
fn leave_out(index: &MapIndex, dues: &mut Vec<u32>, dropped: &[MapUid])
    requires size { length dues.old.items ≡ length index.now.meaning.records }
    requires rising { IsStrictlyIncreasing (map (λ u. u.0) dropped.now) }
    ensures { dues.new.items ≡ dues_without dropped.now index.now.meaning.records dues.old.items }
{
    let mut kept = 0;
    for place in 0..index.rows() {
        if !is_dropped(index, place, dropped) {
            dues[kept] = dues[place as usize];
            kept += 1;
        }
    }
    dues.truncate(kept);
}

/// Whether the record at a place is one of these, whose map uids rise.
fn is_dropped(index: &MapIndex, place: u32, dropped: &[MapUid]) -> bool
    requires there { place < length index.now.meaning.records }
    requires rising { IsStrictlyIncreasing (map (λ u. u.0) dropped.now) }
    ensures { result ≡ option_map_or (λ row. has_map_uid row.uid dropped.now) (slice_get index.now.meaning.records place) false }
{
    match index.row_at(place) {
        Some(row) => dropped
            .binary_search_by_key(&row.uid.0, |uid| uid.0)
            .is_ok(),
        None => false,
    }
}
