// A store that is open.
ghost use Rattle.std.specs.Prelude.{◌≡◌, ◌↔◌, ◌<◌, ◌≤◌, ◌^◌, ◌+◌, ◌==◌, ℕ, List, All, Some, None, IfSome, IfNone, OnOk, IsErr, IsErrOf, map, true, false, length, find, count_by, sum_by, if◌then◌else◌};
ghost use Rattle.std.specs.Option.{option_copied, option_map};
ghost use Rattle.std.specs.Str.{bytes_eq};
ghost use Rattle.disk_model.specs.Disk.{Grows, IsMoment};
ghost use Rattle.disk_model.specs.FaultCounts.{NoFault, ChangeFaultCounted};
ghost use Rattle.mdbox_base.specs.Keywords.{WantsMemory};
ghost use Rattle.mdbox_base.specs.declared.entries.BoxEntry.{BoxEntry};
ghost use Rattle.model_appends.specs.Amounts.{IsAccounted, due_by_box, HoldsAdded};
ghost use Rattle.model_appends.specs.Appending.{lists_by, meanings_by};
ghost use Rattle.model_kept.specs.Kept.{MailIsKept};
ghost use Rattle.model_lists.specs.Lists.{Lists};
ghost use Rattle.model_logs.specs.Entries.{BoxInRange};
ghost use Rattle.model_meaning.specs.BoxMeaning.{BoxMeaning, box_meaning, row_made};
ghost use Rattle.model_meaning.specs.MapMeaning.{MapMeaning, count_of};
ghost use Rattle.model_store.specs.Opening.{HasItsRecord};
ghost use Rattle.model_store.specs.Settled.{IsSettledFor, Leaves};
ghost use Rattle.sis_store.specs.Instances.{AreInstances};
ghost use Rattle.storage_files.specs.Files.{AreFilesInOrder};
ghost use Rattle.store_core.specs.Append.{FitsBox, Brings};
ghost use Rattle.store_core.specs.Dues.{due_at, leak_at, KeepsStored};
ghost use Rattle.store_core.specs.Keeping.{KeepsMail};
ghost use Rattle.store_core.specs.Value.{log_count_of, indexes_of, newly_open, with_entry_room, list_named, list_numbered, references_to};
ghost use Rattle.store_core.specs.Running.{HasEntryRoom, IsStore};
ghost use Rattle.store_core.specs.StoreInstances.{HasKnownInstances};
ghost use Rattle.store_core.specs.declared.error.StepError.TheVariants as step_error;

use crate::append::{append_in, place_of};
use crate::due::{change_due, due_change};
use crate::error::StepError;
use crate::room::{StoreRoom, give_rooms};
use box_index::{BoxIndex, BoxRow};
use disk_model::Disk;
use gate_log::GateLog;
use map_index::MapIndex;
use mdbox_base::{BoxEntry, BoxNo, Guid, Highest, Name, StoreId};
use sis_store::Instances;
use std::alloc::Global;
use std::marker::Model;
use storage_files::MailFiles;

mod append_map;
mod beside;
mod boxes;
mod deleting;
mod drafts;
mod files;
mod instances;
mod map_drafts;
mod renaming;
mod switching;
mod using;

/// A mailbox of an open store: its log, and what that means.
#[derive(Drop)]
pub struct OpenBox {
    pub number: BoxNo,
    pub log: GateLog,
    pub index: BoxIndex,
}

/// The logs of a store that were opened, and what they mean.
#[derive(Drop)]
pub struct OpenLogs {
    /// The id in their heads.
    pub id: StoreId,
    pub root_log: GateLog,
    pub map_log: GateLog,
    pub map: MapIndex,
    /// The mailboxes of the map, in order of number.
    pub boxes: Vec<OpenBox>,
}

/// A store that is open. It has its disk until that is asked back.
pub struct Store<D: Disk> {
    alloc: Global,
    disk: D,
    id: StoreId,
    root_log: GateLog,
    map_log: GateLog,
    map: MapIndex,
    boxes: Vec<OpenBox>,
    /// The mailboxes whose logs were made and which the map doesn't name yet.
    made: Vec<OpenBox>,
    files: MailFiles,
    instances: Instances,
    drawn: Highest,
    /// What is due of each record, in the order of the map's records.
    dues: Vec<u32>,
    lanes: u32,
    stopped: bool,
}

impl<D: Disk> Model for Store<D> {
    ghost use Rattle.std.specs.Prelude.{◌≡◌};
    ghost use Rattle.store_core.specs.Value.{StoreValue};
    ghost use Rattle.store_core.specs.Running.{HasEntryRoom, IsStore};
    ghost use Rattle.store_core.specs.MadeLogs.{KeepsMadeLogs};
    ghost use Rattle.store_core.specs.StoreInstances.{HasKnownInstances};

    ghost Value = { StoreValue D };

    ghost view = { λ s. record { alloc = s.alloc; disk = s.disk; root_log = s.root_log; map_log = s.map_log; map = s.map.meaning; boxes = s.boxes.items; made = s.made.items; files = s.files; instances = s.instances; drawn = s.drawn; dues = s.dues.items; lanes = s.lanes; stopped = s.stopped } };

    ghost invariant = { λ s. (s.id.0 ≡ s.map.meaning.store)
        × IsStore (D.history s.disk) (record { alloc = s.alloc; disk = s.disk; root_log = s.root_log; map_log = s.map_log; map = s.map.meaning; boxes = s.boxes.items; made = s.made.items; files = s.files; instances = s.instances; drawn = s.drawn; dues = s.dues.items; lanes = s.lanes; stopped = s.stopped })
        × HasEntryRoom (record { alloc = s.alloc; disk = s.disk; root_log = s.root_log; map_log = s.map_log; map = s.map.meaning; boxes = s.boxes.items; made = s.made.items; files = s.files; instances = s.instances; drawn = s.drawn; dues = s.dues.items; lanes = s.lanes; stopped = s.stopped })
        × KeepsMadeLogs (D.history s.disk) (record { alloc = s.alloc; disk = s.disk; root_log = s.root_log; map_log = s.map_log; map = s.map.meaning; boxes = s.boxes.items; made = s.made.items; files = s.files; instances = s.instances; drawn = s.drawn; dues = s.dues.items; lanes = s.lanes; stopped = s.stopped })
        × HasKnownInstances (D.history s.disk) (record { alloc = s.alloc; disk = s.disk; root_log = s.root_log; map_log = s.map_log; map = s.map.meaning; boxes = s.boxes.items; made = s.made.items; files = s.files; instances = s.instances; drawn = s.drawn; dues = s.dues.items; lanes = s.lanes; stopped = s.stopped }) };
}

impl<D: Disk> Store<D> {
    /// A store whose logs were opened, with its storage files and instances as they were found, for so many lanes, with the
    /// memory that was taken for it. It takes no more.
    pub fn of(
        alloc: Global,
        disk: D,
        logs: OpenLogs,
        files: MailFiles,
        instances: Instances,
        room: StoreRoom,
        lanes: u32,
    ) -> Store<D>
        requires id { logs.map.meaning.store ≡ logs.id.0 }
        requires store { IsStore (D.history disk) (newly_open alloc disk logs files instances lanes) }
        requires instances { HasKnownInstances (D.history disk) (newly_open alloc disk logs files instances lanes) }
        requires untaken { All (λ f. f.taken ≡ false) files.files }
        requires room { (room.boxes ≡ length logs.boxes.items) × (room.records ≡ length logs.map.meaning.records) }
        ensures store { result ≡ with_entry_room (newly_open alloc disk logs files instances lanes) }
        ensures indexes { indexes_of result.boxes ≡ indexes_of logs.boxes.items }
    {
        let OpenLogs {
            id,
            root_log,
            mut map_log,
            map,
            mut boxes,
        } = logs;
        let StoreRoom {
            map_log: map_room,
            box_logs: box_rooms,
            dues,
        } = room;
        map_log.take_room(map_room);
        give_rooms(&mut boxes, box_rooms);
        let drawn = map.highest();
        Store {
            alloc,
            disk,
            id,
            root_log,
            map_log,
            map,
            boxes,
            made: Vec::new(alloc),
            files,
            instances,
            drawn,
            dues,
            lanes,
            stopped: false,
        }
    }

    /// What is true of every open store.
    pub fn facts(&self)
        ensures store { IsStore (D.history self.now.disk) self.now }
        ensures room { HasEntryRoom self.now }
        ensures files { AreFilesInOrder self.now.files }
        ensures instances { HasKnownInstances (D.history self.now.disk) self.now }
        ensures ids { AreInstances self.now.instances }
        ensures end { self.now.map_log.end < 2 ^ 64 }
    {
        self.files.known_facts();
        self.instances.known_facts();
        self.map_log.known_facts();
    }

    /// Each count is made up of the listed messages, what is due of the record, and its leak.
    pub fn counts(&self)
        ensures { (logs : List (List BoxEntry)) → indexes_of self.now.boxes ≡ map box_meaning logs → All (IsAccounted (λ uid. due_at uid self.now) (λ uid. leak_at uid self.now) logs) self.now.map.records }
    {
        self.map.known_facts();
    }

    /// The allocator that the store keeps.
    pub fn alloc(&self) -> Global
        ensures { result ≡ self.now.alloc }
    {
        self.alloc
    }

    /// The id in the heads of the store's logs.
    pub fn id(&self) -> StoreId
        ensures { result.0 ≡ self.now.map.store }
    {
        self.id
    }

    /// What the map log means.
    pub fn map(&self) -> &MapIndex
        ensures { result.now.meaning ≡ self.now.map }
    {
        &self.map
    }

    /// What the log of the mailbox with this number means. None if and only if the map has no such mailbox.
    pub fn mailbox(&self, number: BoxNo) -> Option<&BoxIndex>
        ensures { option_map (λ index. index.meaning) (option_copied result) ≡ list_numbered self.now number.0 }
    {
        index_of(&self.boxes, number)
    }

    /// What the log of the mailbox with this name means. None if and only if no mailbox has the name.
    pub fn list_of(&self, name: &Name) -> Option<&BoxIndex>
        ensures { option_map (λ index. index.meaning) (option_copied result) ≡ list_named self.now name.now }
    {
        self.map.known_facts();
        let number = self.map.box_named(name)?;
        self.mailbox(number)
    }

    /// The number of the mailbox with this name. None if and only if no mailbox has the name.
    pub fn number_of(&self, name: &Name) -> Option<BoxNo>
        ensures some { IfSome result (λ number. (list_numbered self.now number.0 ≡ list_named self.now name.now) × (option_map (λ b. b.number) (find (λ b. bytes_eq b.name name.now) self.now.map.boxes) ≡ Some number.0)) }
        ensures none { IfNone result (list_named self.now name.now ≡ None) }
    {
        self.map.known_facts();
        self.map.box_named(name)
    }

    /// How many listed messages have this GUID.
    pub fn refs_of(&self, guid: Guid) -> u64
        ensures { result ≡ references_to self.now guid.0 }
    {
        self.map.known_facts();
        listed_in_all(&self.boxes, guid)
    }

    /// The count that is kept of this GUID's record, 0 where there is none.
    pub fn count_of(&self, guid: Guid) -> u16
        ensures { result ≡ count_of self.now.map guid.0 }
    {
        self.map.count_of(guid)
    }

    /// For how many lanes the store was opened.
    pub fn lanes(&self) -> u32
        ensures { result ≡ self.now.lanes }
    {
        self.lanes
    }

    /// Whether a change of the disk failed. A store that is stopped changes nothing more.
    pub fn stopped(&self) -> bool
        ensures { result ≡ self.now.stopped }
    {
        self.stopped
    }

    /// The present moment of its disk: how many calls of the disk have returned, as far as the type goes. The journal gives it
    /// with each step.
    pub fn moment(&self) -> u64
        ensures { IsMoment (D.history self.now.disk) result }
    {
        self.disk.moment()
    }

    /// Adds an entry that fits to the log of a mailbox, and takes it in. It takes memory only for a message that is added and for
    /// keywords, and before anything is written; a change of the disk that fails stops the store.
    pub fn append_box(&mut self, mailbox: BoxNo, entry: &BoxEntry) -> Result<(), StepError>
        requires running { self.old.stopped ≡ false }
        requires range { BoxInRange entry.now }
        requires fits { FitsBox mailbox.0 entry.now self.old }

        // A message that is added has its record, of which something is due.
        requires record { All (HasItsRecord self.old.map) (row_made entry.now) }
        requires held { HoldsAdded entry.now (λ uid. due_at uid self.old) }

        // Of a settled disk each image at every moment is safe for its lists, or for those that the entry gives, whichever call
        // fails; and after Ok the disk is settled for the latter.
        ensures any_moment { (lists : Lists) (octets : List ℕ) → Brings self.old.map entry.now octets (D.history self.old.disk) → IsSettledFor lists (D.history self.old.disk) → Leaves lists (lists_by mailbox.0 octets entry.now lists) (D.history self.old.disk) (D.history self.new.disk) }
        ensures mail_stays { (m : MapMeaning) → MailIsKept m (D.history self.old.disk) (D.history self.new.disk) }
        ensures settled { OnOk result ((lists : Lists) (octets : List ℕ) → Brings self.old.map entry.now octets (D.history self.old.disk) → IsSettledFor lists (D.history self.old.disk) → IsSettledFor (lists_by mailbox.0 octets entry.now lists) (D.history self.new.disk)) }

        // After Ok the logs mean what they did, with the entry, and so does what is due. The leak stays, whatever is answered.
        ensures taken { OnOk result (indexes_of self.new.boxes ≡ meanings_by mailbox.0 entry.now self.old.map.boxes (indexes_of self.old.boxes)) }
        ensures due { OnOk result ((m : BoxMeaning) (uid : ℕ) → list_numbered self.old mailbox.0 ≡ Some m → due_at uid self.new ≡ due_by_box m entry.now (λ uid. due_at uid self.old) uid) }
        ensures leak { (uid : ℕ) → leak_at uid self.new ≡ leak_at uid self.old }

        // The log has one entry more.
        ensures counted { OnOk result (log_count_of mailbox.0 self.new.boxes ≡ log_count_of mailbox.0 self.old.boxes + 1) }

        // Each record stores what it stored. Storage files and instances are as they were.
        ensures stored { OnOk result (KeepsStored (D.history self.old.disk) (D.history self.new.disk)) }
        ensures others { OnOk result (KeepsMail (D.history self.old.disk) (D.history self.new.disk)) }

        ensures stopped { IsErrOf result step_error.Stopped ↔ (self.new.stopped ≡ true) }
        ensures untaken { IsErr result → (indexes_of self.new.boxes ≡ indexes_of self.old.boxes) × (self.new.dues ≡ self.old.dues) }
        ensures memory { IsErrOf result step_error.NoMemory → (self.new ≡ self.old) × WantsMemory entry.now }
        ensures same { self.new ≡ record self.old { disk = self.new.disk; boxes = self.new.boxes; dues = self.new.dues; stopped = self.new.stopped } }
        ensures grows { Grows (D.history self.old.disk) (D.history self.new.disk) }
        ensures fault { ChangeFaultCounted (IsErrOf result step_error.Stopped) (D.faults self.old.disk) (D.faults self.new.disk) }
        ensures unfailed { OnOk result (NoFault (D.faults self.old.disk) (D.faults self.new.disk)) }
    {
        let Some(place) = place_of(&self.boxes, mailbox) else {
            unreachable!()
        };
        let how = due_change(&self.boxes[place].index, entry);
        match append_in(self.alloc, &mut self.boxes[place], &mut self.disk, entry) {
            Ok(()) => {
                change_due(&self.map, &mut self.dues, how);
                Ok(())
            }
            Err(StepError::Stopped) => {
                self.stopped = true;
                Err(StepError::Stopped)
            }
            Err(StepError::NoMemory) => Err(StepError::NoMemory),
        }
    }

    /// The disk, which the store gives back.
    pub fn into_disk(self) -> D
        ensures { result ≡ self.disk }
    {
        let Store {
            alloc: _,
            disk,
            id: _,
            root_log: _root_log,
            map_log: _map_log,
            map: _map,
            boxes: _boxes,
            made: _made,
            files: _files,
            instances: _instances,
            drawn: _,
            dues: _dues,
            lanes: _,
            stopped: _,
        } = self;
        disk
    }
}

/// What the log of the first mailbox with this number means.
fn index_of(boxes: &[OpenBox], number: BoxNo) -> Option<&BoxIndex>
    ensures { option_copied result ≡ option_map (λ b. b.index) (find (λ b. b.number.0 == number.0) boxes.now) }
{
    with_number(boxes, number).map(|open_box| &open_box.index)
}

/// The first mailbox with this number.
fn with_number(boxes: &[OpenBox], number: BoxNo) -> Option<&OpenBox>
    ensures { option_copied result ≡ find (λ b. b.number.0 == number.0) boxes.now }
{
    boxes.iter().find(|open_box| open_box.number.0 == number.0)
}

/// How many messages of mailboxes have this GUID.
fn listed_in_all(boxes: &[OpenBox], guid: Guid) -> u64
    requires { length boxes.now ≤ 1024 }
    ensures { result ≡ sum_by (λ b. count_by (λ row. bytes_eq row.guid guid.0) b.index.meaning.rows) boxes.now }
{
    let mut count = 0;
    for open_box in boxes {
        count += listed_in(&open_box.index, guid);
    }
    count
}

/// How many messages of a mailbox have this GUID.
fn listed_in(index: &BoxIndex, guid: Guid) -> u64
    ensures count { result ≡ count_by (λ row. bytes_eq row.guid guid.0) index.now.meaning.rows }
    ensures short { result < 2 ^ 32 }
{
    index.known_facts();
    let mut count = 0;
    for row in index.rows() {
        count += one_if(row, guid);
    }
    count
}

/// 1 where the message has this GUID, else 0.
fn one_if(row: &BoxRow, guid: Guid) -> u64
    ensures one { result ≡ if bytes_eq row.now.guid.0 guid.0 then 1 else 0 }
    ensures most { result ≤ 1 }
{
    if row.guid.0 == guid.0 { 1 } else { 0 }
}
