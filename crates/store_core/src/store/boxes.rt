// New mailboxes: their numbers, their logs, and the entries of the map log that name them.
ghost use Rattle.std.specs.Prelude.{◌≡◌, ◌↔◌, ◌<◌, ◌≤◌, ◌+◌, ◌==◌, ◌||◌, ◌++◌, ◌∷◌, [], ℕ, List, All, AllPairs, Some, IfOk, IfSome, IfNone, OnOk, OnErr, IsErr, IsErrOf, find, length, max, vec_len, vec_capacity, true, false};
ghost use Rattle.std.specs.List.{list_any};
ghost use Rattle.disk_model.specs.Disk.{EachImage, Grows, IfTold, OthersStay, SameButFor, no_file};
ghost use Rattle.disk_model.specs.FaultCounts.{NoFault, ChangeFaultCounted};
ghost use Rattle.disk_model.specs.declared.name.FileName.TheVariants as file;
ghost use Rattle.gate_log.specs.Log.{Reads, Holds, NamedButFor};
ghost use Rattle.gate_log.specs.State.{IsSameLog};
ghost use Rattle.map_index.specs.Value.{HasRoomFor};
ghost use Rattle.mdbox_base.specs.Words.{IsName, IsNumber};
ghost use Rattle.mdbox_base.specs.declared.entries.MapEntry.TheVariants as map_entry;
ghost use Rattle.model_kept.specs.Kept.{MailIsKept};
ghost use Rattle.model_lists.specs.Lists.{Lists, empty_mailbox};
ghost use Rattle.model_logs.specs.Entries.{map_text, MapInRange};
ghost use Rattle.model_logs.specs.declared.log_head.LogKind.TheVariants as kind;
ghost use Rattle.model_meaning.specs.BoxMeaning.{box_meaning};
ghost use Rattle.model_meaning.specs.MapFits.{MapFits};
ghost use Rattle.model_meaning.specs.MapMeaning.{MapMeaning, map_applied};
ghost use Rattle.model_store.specs.Settled.{IsSettledFor, Leaves};
ghost use Rattle.model_store.specs.Stands.{head_of};
ghost use Rattle.store_core.specs.Append.{AddsText};
ghost use Rattle.store_core.specs.Dues.{due_at, leak_at, KeepsStored};
ghost use Rattle.store_core.specs.Keeping.{KeepsMail};
ghost use Rattle.store_core.specs.MadeLogs.{HaveOtherNumbers, IsUnnamed, SparesLogs, has_made_log, without_box};
ghost use Rattle.store_core.specs.Value.{entry_room, indexes_of};
ghost use Rattle.store_core.specs.declared.error.StepError.TheVariants as step_error;
ghost use Rattle.store_core.specs.declared.store.OpenBox.{OpenBox};

use super::append_map::append_entry;
use super::{OpenBox, Store};
use crate::append::place_of;
use crate::error::{StepError, Stopped};
use box_index::BoxIndex;
use disk_model::{Disk, FileName};
use gate_log::{DiskFault, GateLog, LogRoom, create_log};
use log_records::map_entry_size;
use map_index::MapIndex;
use mdbox_base::{BoxNo, MapEntry, Name, NoMemory, StoreId, name_of};
use model_logs::{LogHead, LogKind};
use std::alloc::Global;

/// The greatest number of a mailbox.
const LAST_BOX: u32 = 4_294_967_294;

/// How many octets of a log's room an entry of 64 octets takes: its length and a gate have 5 more.
const ENTRY_ROOM: u32 = 69;

impl<D: Disk> Store<D> {
    /// A log that was made and isn't named yet has a number that was drawn, and the map has no such mailbox. A number that isn't
    /// drawn yet is of no mailbox and of no such log.
    pub fn known_logs(&self)
        ensures made { (number : ℕ) → has_made_log number self.now ≡ true → IsNumber number × (number ≤ self.now.drawn.mailbox) × IsUnnamed number self.now.map }
        ensures fresh { (number : ℕ) → self.now.drawn.mailbox < number → IsUnnamed number self.now.map × (has_made_log number self.now ≡ false) }
    {
        let _ = &self.made;
    }

    /// Draws the number of a new mailbox. None if and only if there is none left.
    pub fn draw_box(&mut self) -> Option<BoxNo>
        ensures some { IfSome result (λ number. (number.0 ≡ self.old.drawn.mailbox + 1) × IsNumber number.0 × (self.new ≡ record self.old { drawn = record self.old.drawn { mailbox = number.0 } })) }
        ensures none { IfNone result ((4294967294 ≤ self.old.drawn.mailbox) × (self.new ≡ self.old)) }
    {
        if self.drawn.mailbox >= LAST_BOX {
            return None;
        }
        self.drawn.mailbox += 1;
        Some(BoxNo(self.drawn.mailbox))
    }

    /// Makes the log of a mailbox whose number was drawn, without entries, synced, with its name. The map doesn't name it yet.
    /// What stood in a file of its name is gone. A change of the disk that fails stops the store.
    pub fn create_box(&mut self, number: BoxNo) -> Result<(), StepError>
        requires running { self.old.stopped ≡ false }
        requires number { IsNumber number.0 }
        requires drawn { number.0 ≤ self.old.drawn.mailbox }
        requires unnamed { IsUnnamed number.0 self.old.map }
        requires unmade { has_made_log number.0 self.old ≡ false }

        // Of a settled disk each image at every moment is safe for its lists, whichever call fails; and after Ok the disk is
        // settled for them again. Each record stores what it stored.
        ensures any_moment { (lists : Lists) → IsSettledFor lists (D.history self.old.disk) → Leaves lists lists (D.history self.old.disk) (D.history self.new.disk) }
        ensures mail_stays { (m : MapMeaning) → MailIsKept m (D.history self.old.disk) (D.history self.new.disk) }
        ensures settled { OnOk result ((lists : Lists) → IsSettledFor lists (D.history self.old.disk) → IsSettledFor lists (D.history self.new.disk)) }
        ensures stored { OnOk result (KeepsStored (D.history self.old.disk) (D.history self.new.disk)) }

        // After Ok the log is made, beside those that were. No other file has changed, and their names are synced.
        ensures made { OnOk result ((other : ℕ) → has_made_log other self.new ≡ (has_made_log other self.old || number.0 == other)) }
        ensures others { OnOk result (NamedButFor (file.Box number.0 1) (D.history self.old.disk) (D.history self.new.disk)) }
        ensures spared { SparesLogs number.0 self.old self.new }

        ensures stopped { IsErrOf result step_error.Stopped ↔ (self.new.stopped ≡ true) }
        ensures unmade { IsErr result → self.new.made ≡ self.old.made }
        ensures memory { IsErrOf result step_error.NoMemory → self.new ≡ self.old }
        ensures same { self.new ≡ record self.old { disk = self.new.disk; made = self.new.made; stopped = self.new.stopped } }
        ensures grows { Grows (D.history self.old.disk) (D.history self.new.disk) }
        ensures fault { ChangeFaultCounted (IsErrOf result step_error.Stopped) (D.faults self.old.disk) (D.faults self.new.disk) }
        ensures unfailed { OnOk result (NoFault (D.faults self.old.disk) (D.faults self.new.disk)) }
    {
        let room = LogRoom::of(self.alloc, ENTRY_ROOM)?;
        let index = BoxIndex::empty(self.alloc)?;
        reserve_one(&mut self.made)?;
        match make_log(self.alloc, &mut self.disk, self.id, number, 1) {
            Ok(log) => {
                keep_log(&mut self.made, number, log, room, index);
                Ok(())
            }
            Err(DiskFault) => {
                self.stopped = true;
                Err(StepError::Stopped)
            }
        }
    }

    /// Removes the log of this generation of a mailbox that the map doesn't have, and syncs all names. It takes no memory. A change of the disk
    /// that fails stops the store.
    pub fn remove_box(&mut self, number: BoxNo, generation: u32) -> Result<(), Stopped>
        requires running { self.old.stopped ≡ false }
        requires unnamed { IsUnnamed number.0 self.old.map }

        // Of a settled disk each image at every moment is safe for its lists, whichever call fails; and after Ok the disk is
        // settled for them again. Each record stores what it stored.
        ensures any_moment { (lists : Lists) → IsSettledFor lists (D.history self.old.disk) → Leaves lists lists (D.history self.old.disk) (D.history self.new.disk) }
        ensures mail_stays { (m : MapMeaning) → MailIsKept m (D.history self.old.disk) (D.history self.new.disk) }
        ensures settled { OnOk result ((lists : Lists) → IsSettledFor lists (D.history self.old.disk) → IsSettledFor lists (D.history self.new.disk)) }
        ensures stored { OnOk result (KeepsStored (D.history self.old.disk) (D.history self.new.disk)) }

        // After Ok there is no such log, and no crash leaves one. No other file has changed, and their names are synced.
        ensures gone { OnOk result (IfTold (D.history self.new.disk) (λ now. now (file.Box number.0 generation) ≡ no_file)) }
        ensures others { OnOk result (NamedButFor (file.Box number.0 generation) (D.history self.old.disk) (D.history self.new.disk)) }
        ensures ok { OnOk result (self.new ≡ record self.old { disk = self.new.disk; made = without_box number.0 self.old.made }) }
        ensures spared { SparesLogs number.0 self.old self.new }

        ensures err { OnErr result (self.new ≡ record self.old { disk = self.new.disk; stopped = true }) }
        ensures grows { Grows (D.history self.old.disk) (D.history self.new.disk) }
        ensures fault { ChangeFaultCounted (IsErr result) (D.faults self.old.disk) (D.faults self.new.disk) }
        ensures unfailed { OnOk result (NoFault (D.faults self.old.disk) (D.faults self.new.disk)) }
    {
        if let Err(_fault) = remove_log(&mut self.disk, number, generation) {
            self.stopped = true;
            return Err(Stopped);
        }
        forget_log(&mut self.made, number);
        Ok(())
    }

    /// Adds an entry to the map log that names a mailbox whose log was made: it is a mailbox then. Memory is taken before
    /// anything is written; a change of the disk that fails stops the store.
    pub fn append_made(&mut self, mailbox: BoxNo, name: &Name) -> Result<(), StepError>
        requires running { self.old.stopped ≡ false }
        requires made { has_made_log mailbox.0 self.old ≡ true }
        requires fits { MapFits self.old.map (map_entry.B mailbox 1 name.now) }

        // Of a settled disk each image at every moment is safe for its lists, or for those with an empty mailbox more, whichever
        // call fails; and after Ok the disk is settled for the latter. Each record stores what it stored.
        ensures any_moment { (lists : Lists) → IsSettledFor lists (D.history self.old.disk) → Leaves lists (lists ++ empty_mailbox mailbox.0 name.now ∷ []) (D.history self.old.disk) (D.history self.new.disk) }
        ensures mail_stays { (m : MapMeaning) → MailIsKept m (D.history self.old.disk) (D.history self.new.disk) }
        ensures settled { OnOk result ((lists : Lists) → IsSettledFor lists (D.history self.old.disk) → IsSettledFor (lists ++ empty_mailbox mailbox.0 name.now ∷ []) (D.history self.new.disk)) }
        ensures stored { OnOk result (KeepsStored (D.history self.old.disk) (D.history self.new.disk)) }

        // After Ok the map means what it did, with the entry, and the log of the mailbox that it makes means nothing yet. What is
        // due and what leaks stay, whatever is answered.
        ensures taken { OnOk result (self.new.map ≡ map_applied (map_entry.B mailbox 1 name.now) self.old.map) }
        ensures indexes { OnOk result (indexes_of self.new.boxes ≡ indexes_of self.old.boxes ++ box_meaning [] ∷ []) }
        ensures named { OnOk result (self.new.made ≡ without_box mailbox.0 self.old.made) }
        ensures spared { SparesLogs mailbox.0 self.old self.new }
        ensures records { self.new.map.records ≡ self.old.map.records }
        ensures due { (uid : ℕ) → due_at uid self.new ≡ due_at uid self.old }
        ensures leak { (uid : ℕ) → leak_at uid self.new ≡ leak_at uid self.old }

        // Storage files and instances are as they were.
        ensures others { OnOk result (KeepsMail (D.history self.old.disk) (D.history self.new.disk)) }

        // The map log grows, and its room never falls.
        ensures further { OnOk result (self.old.map_log.end < self.new.map_log.end) }
        ensures room { self.old.map_log.room ≤ self.new.map_log.room }

        ensures stopped { IsErrOf result step_error.Stopped ↔ (self.new.stopped ≡ true) }
        ensures untaken { IsErr result → (self.new.map ≡ self.old.map) × (self.new.boxes ≡ self.old.boxes) × (self.new.made ≡ self.old.made) }
        ensures memory { IsErrOf result step_error.NoMemory → self.new ≡ self.old }
        ensures same { self.new ≡ record self.old { disk = self.new.disk; map_log = self.new.map_log; map = self.new.map; boxes = self.new.boxes; made = self.new.made; stopped = self.new.stopped } }
        ensures grows { Grows (D.history self.old.disk) (D.history self.new.disk) }
        ensures fault { ChangeFaultCounted (IsErrOf result step_error.Stopped) (D.faults self.old.disk) (D.faults self.new.disk) }
        ensures unfailed { OnOk result (NoFault (D.faults self.old.disk) (D.faults self.new.disk)) }
    {
        let entry = take_naming(
            self.alloc,
            &mut self.map_log,
            &mut self.map,
            &mut self.boxes,
            mailbox,
            name,
        )?;
        match append_entry(&mut self.map_log, &mut self.disk, &entry, None) {
            Ok(()) => {
                move_made(&mut self.boxes, &mut self.made, mailbox);
                self.map.take_in(entry);
                Ok(())
            }
            Err(DiskFault) => {
                self.stopped = true;
                Err(StepError::Stopped)
            }
        }
    }
}

/// Takes the memory for naming a mailbox, and hands out the entry: there is room for it in the map log and in the map, and for
/// one mailbox more.
fn take_naming(
    alloc: Global,
    log: &mut GateLog,
    map: &mut MapIndex,
    boxes: &mut Vec<OpenBox>,
    mailbox: BoxNo,
    name: &Name,
) -> Result<MapEntry, NoMemory>
    ensures entry { IfOk result (λ entry. (entry ≡ map_entry.B mailbox 1 name.now) × HasRoomFor entry map.new.room × (length (map_text entry) + 5 ≤ log.new.room)) }
    ensures space { OnOk result (vec_len boxes.new < vec_capacity boxes.new) }
    ensures name { IsName name.now }
    ensures no_less { log.old.room ≤ log.new.room }
    ensures log { log.new ≡ record log.old { room = log.new.room } }
    ensures map { map.new.meaning ≡ map.old.meaning }
    ensures boxes { boxes.new.items ≡ boxes.old.items }
    ensures err { OnErr result (log.new ≡ log.old) }
{
    let entry = naming(alloc, mailbox, name)?;
    map.reserve_for(&entry)?;
    reserve_one(boxes)?;
    log.reserve(map_entry_size(&entry) + 5)?;
    Ok(entry)
}

/// Makes room for one mailbox more.
fn reserve_one(boxes: &mut Vec<OpenBox>) -> Result<(), NoMemory>
    ensures space { OnOk result (vec_len boxes.new < vec_capacity boxes.new) }
    ensures same { boxes.new.items ≡ boxes.old.items }
{
    boxes.reserve(1)?;
    Ok(())
}

/// Makes the log of a mailbox in this generation, without entries.
pub(super) fn make_log<D: Disk>(
    alloc: Global,
    disk: &mut D,
    store: StoreId,
    number: BoxNo,
    generation: u32,
) -> Result<GateLog, DiskFault>
    ensures any_moment { EachImage (λ _ image. OthersStay (file.Box number.0 generation) (D.history disk.old) image) (D.history disk.old) (D.history disk.new) }
    ensures made { IfOk result (λ log. Holds log [] (D.history disk.new)) }
    ensures log { IfOk result (λ log. log ≡ record { name = file.Box number.0 generation; head = head_of store.0 kind.Box number.0 generation; end = 25; count = 0; room = 0 }) }
    ensures others { OnOk result (NamedButFor (file.Box number.0 generation) (D.history disk.old) (D.history disk.new)) }
    ensures fault { ChangeFaultCounted (IsErr result) (D.faults disk.old) (D.faults disk.new) }
    ensures unfailed { OnOk result (NoFault (D.faults disk.old) (D.faults disk.new)) }
{
    let head = LogHead {
        version: 2,
        store,
        kind: LogKind::Box,
        number: number.0,
        generation,
    };
    create_log(alloc, disk, FileName::Box(number.0, generation), head).map_err(|_| DiskFault)
}

/// Removes the log of this generation of a mailbox, and syncs all names.
pub(super) fn remove_log<D: Disk>(
    disk: &mut D,
    number: BoxNo,
    generation: u32,
) -> Result<(), DiskFault>
    ensures any_moment { EachImage (λ _ image. OthersStay (file.Box number.0 generation) (D.history disk.old) image) (D.history disk.old) (D.history disk.new) }
    ensures gone { OnOk result (IfTold (D.history disk.new) (λ now. now (file.Box number.0 generation) ≡ no_file)) }
    ensures others { OnOk result (NamedButFor (file.Box number.0 generation) (D.history disk.old) (D.history disk.new)) }
    ensures fault { ChangeFaultCounted (IsErr result) (D.faults disk.old) (D.faults disk.new) }
    ensures unfailed { OnOk result (NoFault (D.faults disk.old) (D.faults disk.new)) }
{
    disk.remove(FileName::Box(number.0, generation))?;
    disk.sync_names()?;
    Ok(())
}

/// The entry that names a mailbox.
fn naming(alloc: Global, mailbox: BoxNo, name: &Name) -> Result<MapEntry, NoMemory>
    ensures entry { IfOk result (λ entry. entry ≡ map_entry.B mailbox 1 name.now) }
    ensures name { IsName name.now }
{
    let Some(name) = name_of(alloc, name.as_octets())? else {
        unreachable!()
    };
    Ok(MapEntry::B {
        mailbox,
        generation: 1,
        name,
    })
}

/// Keeps the log of a mailbox, with its room, beside those that were made.
fn keep_log(made: &mut Vec<OpenBox>, number: BoxNo, log: GateLog, room: LogRoom, index: BoxIndex)
    requires { vec_len made.old < vec_capacity made.old }
    ensures { (open_box : OpenBox) × (made.new.items ≡ made.old.items ++ open_box ∷ []) × (open_box.number ≡ number) × (open_box.log ≡ record log { room = max log.room room }) × (open_box.index ≡ index) }
{
    let mut log = log;
    log.take_room(room);
    made.push_reserved(OpenBox { number, log, index });
}

/// Removes the mailbox with this number from these, if it is there.
pub(super) fn forget_log(made: &mut Vec<OpenBox>, number: BoxNo)
    requires { AllPairs HaveOtherNumbers made.old.items }
    ensures { made.new.items ≡ without_box number.0 made.old.items }
{
    let _gone = take_made(made, number);
}

/// Moves the mailbox with this number from those whose logs were made to those of the map.
fn move_made(boxes: &mut Vec<OpenBox>, made: &mut Vec<OpenBox>, number: BoxNo)
    requires apart { AllPairs HaveOtherNumbers made.old.items }
    requires there { list_any (λ open_box. open_box.number.0 == number.0) made.old.items ≡ true }
    requires space { vec_len boxes.old < vec_capacity boxes.old }
    ensures moved { (open_box : OpenBox) × (find (λ other. other.number.0 == number.0) made.old.items ≡ Some open_box) × (boxes.new.items ≡ boxes.old.items ++ open_box ∷ []) }
    ensures left { made.new.items ≡ without_box number.0 made.old.items }
{
    match take_made(made, number) {
        Some(open_box) => boxes.push_reserved(open_box),
        None => unreachable!(),
    }
}

/// Takes the mailbox with this number out of those whose logs were made. None if there is none.
fn take_made(made: &mut Vec<OpenBox>, number: BoxNo) -> Option<OpenBox>
    requires apart { AllPairs HaveOtherNumbers made.old.items }
    ensures taken { result ≡ find (λ open_box. open_box.number.0 == number.0) made.old.items }
    ensures left { made.new.items ≡ without_box number.0 made.old.items }
{
    match place_of(made, number) {
        Some(place) => Some(made.remove(place)),
        None => None,
    }
}
