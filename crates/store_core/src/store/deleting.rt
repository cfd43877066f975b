// Mailboxes that are deleted: the entry of the map log that removes one, with how often it lists each record.
ghost use Rattle.std.specs.Prelude.{◌≡◌, ◌↔◌, ◌≢◌, ◌<◌, ◌≤◌, ◌+◌, ◌==◌, ◌++◌, ◌∷◌, [], ℕ, List, All, AllPairs, Some, IfOk, IfSome, OnOk, OnErr, IsErr, IsErrOf, count_by, length, map, true, false};
ghost use Rattle.std.specs.List.Sorted.{IsNonDecreasing, IsPermutation};
ghost use Rattle.std.specs.Option.{option_map};
ghost use Rattle.disk_model.specs.Disk.{Grows};
ghost use Rattle.disk_model.specs.FaultCounts.{NoFault, ChangeFaultCounted};
ghost use Rattle.mdbox_base.specs.declared.entries.MapCount.{MapCount};
ghost use Rattle.mdbox_base.specs.declared.entries.MapEntry.TheVariants as map_entry;
ghost use Rattle.model_appends.specs.MapAppending.{beside_without};
ghost use Rattle.model_kept.specs.Kept.{MailIsKept};
ghost use Rattle.model_lists.specs.Lists.{Lists};
ghost use Rattle.model_logs.specs.Entries.{map_text, MapInRange};
ghost use Rattle.model_meaning.specs.BoxMeaning.{BoxMeaning};
ghost use Rattle.model_meaning.specs.MapFits.{MapFits};
ghost use Rattle.model_meaning.specs.MapMeaning.{MapMeaning, box_at, map_applied};
ghost use Rattle.model_store.specs.Settled.{IsSettledFor, Leaves};
ghost use Rattle.store_core.specs.Beside.{in_rows};
ghost use Rattle.store_core.specs.Deleting.{AreAmounts, AreAmountsOf, IsBelowLimit, IsDeletionOf, lists_without, with_uid_counted};
ghost use Rattle.store_core.specs.Dues.{due_at, leak_at, KeepsStored};
ghost use Rattle.store_core.specs.Keeping.{KeepsMail, KeepsUids};
ghost use Rattle.store_core.specs.MadeLogs.{HaveOtherNumbers, KeepsGone, without_box};
ghost use Rattle.store_core.specs.MapAppend.{IsLaidOut};
ghost use Rattle.store_core.specs.Value.{indexes_of, list_numbered};
ghost use Rattle.store_core.specs.declared.error.StepError.TheVariants as step_error;

use super::append_map::{append_entry, long_text, reserve_log};
use super::boxes::forget_log;
use super::{Store, index_of};
use crate::append::place_of;
use crate::error::StepError;
use box_index::BoxIndex;
use disk_model::Disk;
use gate_log::{DiskFault, GateLog};
use map_index::MapIndex;
use mdbox_base::{BoxNo, MapCount, MapEntry, MapUid, NoMemory, Octets, Seq};
use std::alloc::Global;

/// The entry of a deletion, and its octets where it is long.
#[derive(Drop)]
struct Deletion {
    entry: MapEntry,
    text: Option<Octets>,
}

impl<D: Disk> Store<D> {
    /// The generation of the log of the mailbox with this number. None if and only if the map has no such mailbox.
    pub fn generation_of(&self, number: BoxNo) -> Option<u32>
        ensures { result ≡ option_map (λ box. box.generation) (box_at self.now.map number.0) }
    {
        let place = place_of(&self.boxes, number)?;
        let at = self.map.box_at(place as u32)?;
        Some(at.generation)
    }

    /// Adds an entry to the map log that removes a mailbox, with all that it lists: the count of each record falls by as much as
    /// the mailbox lists of it. Its log stays on the disk, and the store forgets it. Memory is taken before anything is written;
    /// a change of the disk that fails stops the store.
    pub fn append_deletion(&mut self, mailbox: BoxNo) -> Result<(), StepError>
        requires running { self.old.stopped ≡ false }
        requires there { (m : BoxMeaning) × (list_numbered self.old mailbox.0 ≡ Some m) }

        // Of a settled disk each image at every moment is safe for its lists, or for those without the mailbox, whichever call
        // fails; and after Ok the disk is settled for the latter. Each record stores what it stored.
        ensures any_moment { (lists : Lists) → IsSettledFor lists (D.history self.old.disk) → Leaves lists (lists_without mailbox.0 lists) (D.history self.old.disk) (D.history self.new.disk) }
        ensures mail_stays { (m : MapMeaning) → MailIsKept m (D.history self.old.disk) (D.history self.new.disk) }
        ensures settled { OnOk result ((lists : Lists) → IsSettledFor lists (D.history self.old.disk) → IsSettledFor (lists_without mailbox.0 lists) (D.history self.new.disk)) }
        ensures stored { OnOk result (KeepsStored (D.history self.old.disk) (D.history self.new.disk)) }

        // After Ok the map means what it did, with the entry, whose amounts are those of the mailbox. The other mailboxes are as
        // they were. What is due and what leaks stay, whatever is answered.
        ensures amounts { (IsErrOf result step_error.NoMemory → ⊥) → (amounts : List MapCount) × AreAmounts mailbox amounts self.old × OnOk result (self.new.map ≡ map_applied (map_entry.X mailbox amounts) self.old.map) }
        ensures boxes { OnOk result (self.new.boxes ≡ without_box mailbox.0 self.old.boxes) }
        ensures indexes { OnOk result (indexes_of self.new.boxes ≡ beside_without mailbox.0 self.old.map.boxes (indexes_of self.old.boxes)) }
        ensures due { (uid : ℕ) → due_at uid self.new ≡ due_at uid self.old }
        ensures leak { (uid : ℕ) → leak_at uid self.new ≡ leak_at uid self.old }

        // Storage files and instances are as they were. UIDs that others have taken from, and numbers that are gone, stay such.
        ensures others { OnOk result (KeepsMail (D.history self.old.disk) (D.history self.new.disk)) }
        ensures uids { KeepsUids self.old self.new }
        ensures gone { KeepsGone self.old self.new }

        // The map log grows, and its room never falls.
        ensures further { OnOk result (self.old.map_log.end < self.new.map_log.end) }
        ensures room { self.old.map_log.room ≤ self.new.map_log.room }

        ensures stopped { IsErrOf result step_error.Stopped ↔ (self.new.stopped ≡ true) }
        ensures untaken { IsErr result → (self.new.map ≡ self.old.map) × (self.new.boxes ≡ self.old.boxes) }
        ensures memory { IsErrOf result step_error.NoMemory → self.new ≡ self.old }
        ensures same { self.new ≡ record self.old { disk = self.new.disk; map_log = self.new.map_log; map = self.new.map; boxes = self.new.boxes; stopped = self.new.stopped } }
        ensures grows { Grows (D.history self.old.disk) (D.history self.new.disk) }
        ensures fault { ChangeFaultCounted (IsErrOf result step_error.Stopped) (D.faults self.old.disk) (D.faults self.new.disk) }
        ensures unfailed { OnOk result (NoFault (D.faults self.old.disk) (D.faults self.new.disk)) }
    {
        let Some(index) = index_of(&self.boxes, mailbox) else {
            unreachable!()
        };
        index.known_facts();
        let Deletion { entry, text } = take_deletion(
            self.alloc,
            &mut self.map_log,
            index,
            mailbox,
        )?;
        match append_entry(&mut self.map_log, &mut self.disk, &entry, text) {
            Ok(()) => {
                forget_log(&mut self.boxes, mailbox);
                apply_deletion(&mut self.map, &entry);
                Ok(())
            }
            Err(DiskFault) => {
                self.stopped = true;
                Err(StepError::Stopped)
            }
        }
    }
}

/// Takes the memory for a deletion, and hands out its entry: there is room for it in the map log.
fn take_deletion(
    alloc: Global,
    log: &mut GateLog,
    index: &BoxIndex,
    mailbox: BoxNo,
) -> Result<Deletion, NoMemory>
    requires few { (uid : ℕ) → in_rows uid index.now.meaning.rows ≤ 65535 }
    requires range { (amounts : List MapCount) → AreAmountsOf (map (λ row. row.map_uid) index.now.meaning.rows) amounts → MapInRange (map_entry.X mailbox amounts) }
    ensures entry { IfOk result (λ deletion. IsDeletionOf mailbox index.now.meaning.rows deletion.entry) }
    ensures text { IfOk result (λ deletion. IsLaidOut deletion.text deletion.entry) }
    ensures space { IfOk result (λ deletion. length (map_text deletion.entry) + 5 ≤ log.new.room) }
    ensures no_less { log.old.room ≤ log.new.room }
    ensures log { log.new ≡ record log.old { room = log.new.room } }
    ensures err { OnErr result (log.new ≡ log.old) }
{
    let entry = deletion_of(alloc, index, mailbox)?;
    let text = long_text(alloc, &entry)?;
    reserve_log(log, &entry)?;
    Ok(Deletion { entry, text })
}

/// The entry that removes a mailbox with these messages.
fn deletion_of(alloc: Global, index: &BoxIndex, mailbox: BoxNo) -> Result<MapEntry, NoMemory>
    requires few { (uid : ℕ) → in_rows uid index.now.meaning.rows ≤ 65535 }
    ensures { IfOk result (λ entry. IsDeletionOf mailbox index.now.meaning.rows entry) }
{
    let uids = sorted_uids(alloc, index)?;
    let amounts = amounts_of(alloc, &uids)?;
    Ok(MapEntry::X {
        mailbox,
        amounts: Seq::of(amounts),
    })
}

/// The map uids of the messages of a mailbox, each as often as it is listed, in rising order.
fn sorted_uids(alloc: Global, index: &BoxIndex) -> Result<Vec<u32>, NoMemory>
    ensures sorted { IfOk result (λ uids. IsNonDecreasing uids.items) }
    ensures same { IfOk result (λ uids. IsPermutation (map (λ row. row.map_uid) index.now.meaning.rows) uids.items) }
{
    let mut uids = listed_uids(alloc, index)?;
    uids.sort_unstable();
    Ok(uids)
}

/// The map uid of each message of a mailbox.
fn listed_uids(alloc: Global, index: &BoxIndex) -> Result<Vec<u32>, NoMemory>
    ensures { IfOk result (λ uids. uids.items ≡ map (λ row. row.map_uid) index.now.meaning.rows) }
{
    let mut uids = Vec::with_capacity(alloc, index.length() as usize)?;
    for row in index.rows() {
        uids.push(row.map_uid.0)?;
    }
    Ok(uids)
}

/// Each of these map uids once, in rising order, with how often it is there.
fn amounts_of(alloc: Global, uids: &[u32]) -> Result<Vec<MapCount>, NoMemory>
    requires sorted { IsNonDecreasing uids.now }
    requires few { (uid : ℕ) → count_by (λ u. u == uid) uids.now ≤ 65535 }
    ensures { IfOk result (λ amounts. AreAmountsOf uids.now amounts.items) }
{
    let mut amounts = Vec::new(alloc);
    for uid in uids {
        note_uid(&mut amounts, *uid)?;
    }
    Ok(amounts)
}

/// One more of a map uid that is the last one, or is greater than all.
fn note_uid(amounts: &mut Vec<MapCount>, uid: u32) -> Result<(), NoMemory>
    requires { IsBelowLimit uid amounts.old.items }
    ensures { OnOk result (amounts.new.items ≡ with_uid_counted uid amounts.old.items) }
{
    let first = MapCount {
        uid: MapUid(uid),
        count: 1,
    };
    match amounts.last_mut() {
        Some(last) if last.uid.0 == uid => last.count += 1,
        Some(_) => amounts.push(first)?,
        None => amounts.push(first)?,
    }
    Ok(())
}

/// Takes in the entry of a deletion that fits.
fn apply_deletion(map: &mut MapIndex, entry: &MapEntry)
    requires kind { (mailbox : BoxNo) × (amounts : List MapCount) × (entry.now ≡ map_entry.X mailbox amounts) }
    requires fits { MapFits map.old.meaning entry.now }
    ensures { map.new.meaning ≡ map_applied entry.now map.old.meaning }
{
    match map.apply(entry) {
        Ok(()) => {}
        Err(NoMemory) => unreachable!(),
    }
}
