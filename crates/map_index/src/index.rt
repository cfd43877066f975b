// The index of the map.
ghost use Rattle.std.specs.Prelude.{◌≡◌, ◌+◌, ◌==◌, [], length, slice_get, Option, None, IsErr, IfOk, OnOk, OnErr};
ghost use Rattle.std.specs.List.{list_any};
ghost use Rattle.std.specs.Option.{is_some, option_map, option_map_or, option_copied};
ghost use Rattle.model_meaning.specs.MapMeaning.{MapMeaning, map_meaning, map_applied, record_at, record_of, count_of, box_at, is_sealed, greatest};
ghost use Rattle.model_meaning.specs.MapFits.{MapFits};
ghost use Rattle.map_rows.specs.Lookups.{meant_record};
ghost use Rattle.map_index.specs.Needs.{TakesMemory};
ghost use Rattle.map_index.specs.Shown.{box_of, shown_record, shown_box, shown_file, record_from, place_of_record, last_record, region_end, box_of_name, is_instance_named, names_file};
ghost use Rattle.map_index.specs.Value.{no_room, larger_room, room_for, room_left, HasRoomFor, IsNoLessRoom};

use crate::changes::{change_parts, copied, take_parts};
use crate::numbers::{higher, numbers_of};
use crate::room::{MapRoom, NO_ROOM, larger_room, room_for, room_left};
use crate::rows::{BoxAt, Mailbox, has_file, with_name, with_number};
use map_rows::{MapRow, Record, Table};
use mdbox_base::{
    BoxNo, FileNo, Guid, Hash, Highest, InstId, InstRow, MapEntry, MapUid, Name, NoMemory, Seq,
    StoreId,
};
use std::alloc::Global;
use std::marker::Model;

mod fits;
mod purging;

/// What the entries of a map log mean so far.
#[derive(Drop)]
pub struct MapIndex {
    alloc: Global,
    store: StoreId,
    records: Table,
    boxes: Vec<Mailbox>,
    files: Vec<FileNo>,
    most: Highest,
    /// What can be taken in without memory.
    room: MapRoom,
}

impl Model for MapIndex {
    ghost use Rattle.std.specs.Prelude.{◌≤◌, vec_len, vec_capacity};
    ghost use Rattle.map_index.specs.Value.{MapIndexValue};

    ghost Value = { MapIndexValue };

    ghost use Rattle.map_index.specs.Shown.{meaning_of};
    ghost use Rattle.map_index.specs.Kept.{IsMapInOrder, HasSpace};

    ghost view = { λ index. record { meaning = meaning_of index.store index.records.records index.boxes.items index.files.items index.most; room = index.room } };

    ghost invariant = { λ index. IsMapInOrder (meaning_of index.store index.records.records index.boxes.items index.files.items index.most)
        × (index.room.records ≤ index.records.record_room)
        × (index.room.instances ≤ index.records.instance_room)
        × HasSpace (vec_len index.boxes) (vec_capacity index.boxes) index.room.boxes
        × HasSpace (vec_len index.files) (vec_capacity index.files) index.room.files };
}

impl MapIndex {
    ghost use Rattle.map_index.specs.Kept.{IsMapInOrder};

    /// The index of a log without entries, in the store with this id. It has no room.
    pub fn empty(alloc: Global, id: StoreId) -> Result<MapIndex, NoMemory>
        ensures { IfOk result (λ index. index ≡ record { meaning = map_meaning id.0 []; room = no_room }) }
    {
        Ok(MapIndex {
            alloc,
            store: id,
            records: Table::empty(alloc),
            boxes: Vec::new(alloc),
            files: Vec::new(alloc),
            most: Highest {
                file: 0,
                map: 0,
                instance: 0,
                mailbox: 0,
            },
            room: NO_ROOM,
        })
    }

    /// Records stand in order of map uid up to the highest, mailboxes in order of number up to the highest, sealed files
    /// in order of number. GUIDs of records and names of mailboxes differ, and there are at most 1,024 mailboxes.
    pub fn known_facts(&self)
        ensures { IsMapInOrder self.now.meaning }
    {
        let _ = &self.records;
    }

    /// The record of a map uid.
    fn find(&self, uid: MapUid) -> Option<&Record>
        ensures { option_map meant_record (option_copied result) ≡ record_at self.now.meaning uid.0 }
    {
        self.records.find(uid)
    }

    /// The record of a GUID.
    fn find_guid(&self, guid: Guid) -> Option<&Record>
        ensures { option_map meant_record (option_copied result) ≡ record_of self.now.meaning guid.0 }
    {
        self.records.find_guid(guid)
    }

    /// The mailbox of a number.
    fn find_box(&self, number: BoxNo) -> Option<&Mailbox>
        ensures { option_map box_of (option_copied result) ≡ box_at self.now.meaning number.0 }
    {
        with_number(&self.boxes, number)
    }

    /// The mailbox of a name.
    fn find_name(&self, name: &Name) -> Option<&Mailbox>
        ensures { option_map box_of (option_copied result) ≡ box_of_name self.now.meaning name.now }
    {
        with_name(&self.boxes, name.as_octets())
    }

    /// The instances of a record's message. None if and only if there is no such record.
    pub fn instances(&self, uid: MapUid) -> Option<&Seq<InstRow>>
        ensures { option_copied result ≡ option_map (λ r. r.instances) (record_at self.now.meaning uid.0) }
    {
        self.find(uid).map(|record| &record.instances)
    }

    /// The record of a map uid. None if and only if there is none.
    pub fn row(&self, uid: MapUid) -> Option<MapRow>
        ensures { result ≡ option_map shown_record (record_at self.now.meaning uid.0) }
    {
        self.find(uid).map(|record| record.row)
    }

    /// The record of a GUID. None if and only if there is none.
    pub fn row_of(&self, guid: Guid) -> Option<MapRow>
        ensures { result ≡ option_map shown_record (record_of self.now.meaning guid.0) }
    {
        self.find_guid(guid).map(|record| record.row)
    }

    /// The count of the record of a GUID, 0 where there is none.
    pub fn count_of(&self, guid: Guid) -> u16
        ensures { result ≡ count_of self.now.meaning guid.0 }
    {
        self.find_guid(guid).map_or(0, |record| record.row.count)
    }

    /// The number of the mailbox with this name. None if and only if there is none.
    pub fn box_named(&self, name: &Name) -> Option<BoxNo>
        ensures { result ≡ option_map (λ b. record { 0 = b.number }) (box_of_name self.now.meaning name.now) }
    {
        self.find_name(name).map(|mailbox| mailbox.at.number)
    }

    /// The highest numbers: the greatest that entries name.
    pub fn highest(&self) -> Highest
        ensures { result ≡ self.now.meaning.highest }
    {
        self.most
    }

    /// How many records there are.
    pub fn rows(&self) -> u32
        ensures { result ≡ length self.now.meaning.records }
    {
        self.records.length() as u32
    }

    /// The place of the record of a map uid, in order of map uid, from 0. None if and only if there is none.
    pub fn place_of(&self, uid: MapUid) -> Option<u32>
        ensures place { result ≡ place_of_record self.now.meaning uid.0 }
        ensures there { option_map_or (λ place. slice_get self.now.meaning.records place) result None ≡ record_at self.now.meaning uid.0 }
    {
        let place = self.records.place_of(uid)?;
        Some(place as u32)
    }

    /// The instances of the message of the record at a place, in order of map uid, from 0. None exactly past the end.
    pub fn instances_at(&self, place: u32) -> Option<&Seq<InstRow>>
        ensures { option_copied result ≡ option_map (λ r. r.instances) (slice_get self.now.meaning.records place) }
    {
        self.records
            .at(place as usize)
            .map(|record| &record.instances)
    }

    /// The records in order of map uid, by places from 0. None exactly past the end.
    pub fn row_at(&self, place: u32) -> Option<MapRow>
        ensures { result ≡ option_map shown_record (slice_get self.now.meaning.records place) }
    {
        self.records.at(place as usize).map(|record| record.row)
    }

    /// The record of this file with the least offset that is at least `from`. None if and only if there is none.
    pub fn in_file(&self, file: FileNo, from: u32) -> Option<MapRow>
        ensures { result ≡ option_map shown_record (record_from self.now.meaning file.0 from) }
    {
        self.records
            .first_in_file(file, from)
            .map(|record| record.row)
    }

    /// The record of this file whose region ends last. None if and only if there is none.
    pub fn last_in_file(&self, file: FileNo) -> Option<MapRow>
        ensures row { result ≡ option_map shown_record (last_record self.now.meaning file.0) }
        ensures end { option_map_or (λ row. row.offset + row.size) result 0 ≡ greatest (region_end file.0) self.now.meaning.records }
        ensures some { is_some result ≡ list_any (λ row. row.file == file.0) self.now.meaning.records }
    {
        self.last_row(file)
    }

    fn last_row(&self, file: FileNo) -> Option<MapRow>
        ensures { result ≡ option_map shown_record (last_record self.now.meaning file.0) }
    {
        self.records.last_in_file(file).map(|record| record.row)
    }

    /// How many mailboxes there are.
    pub fn boxes(&self) -> u32
        ensures { result ≡ length self.now.meaning.boxes }
    {
        self.boxes.len() as u32
    }

    /// The mailboxes in order of number, by places from 0. None exactly past the end.
    pub fn box_at(&self, place: u32) -> Option<BoxAt>
        ensures { result ≡ option_map shown_box (slice_get self.now.meaning.boxes place) }
    {
        self.boxes.get(place as usize).map(|mailbox| mailbox.at)
    }

    /// The name of the mailbox with this number. None if and only if there is none.
    pub fn box_name(&self, number: BoxNo) -> Option<&Name>
        ensures { option_copied result ≡ option_map (λ b. b.name) (box_at self.now.meaning number.0) }
    {
        self.find_box(number).map(|mailbox| &mailbox.name)
    }

    /// Whether the file is sealed.
    pub fn is_sealed(&self, file: FileNo) -> bool
        ensures { result ≡ is_sealed self.now.meaning file.0 }
    {
        has_file(&self.files, file)
    }

    /// How many sealed files there are.
    pub fn sealed(&self) -> u32
        ensures { result ≡ length self.now.meaning.sealed }
    {
        self.files.len() as u32
    }

    /// The sealed files in order of number, by places from 0. None exactly past the end.
    pub fn sealed_at(&self, place: u32) -> Option<FileNo>
        ensures { result ≡ option_map shown_file (slice_get self.now.meaning.sealed place) }
    {
        self.files.get(place as usize).copied()
    }

    /// Whether a record names this instance.
    pub fn is_instance_named(&self, id: InstId) -> bool
        ensures { result ≡ is_instance_named self.now.meaning id.0 }
    {
        self.records.is_instance_named(id)
    }

    /// Whether a record names the instance of this hash and id.
    pub fn names_file(&self, hash: Hash, id: InstId) -> bool
        ensures { result ≡ names_file self.now.meaning hash.0 id.0 }
    {
        self.records.names_file(hash, id)
    }

    /// How much can be taken in without memory.
    pub fn room(&self) -> MapRoom
        ensures { result ≡ self.now.room }
    {
        self.room
    }

    /// Makes room: so much of each at least. What there was stays.
    pub fn reserve(&mut self, wanted: MapRoom) -> Result<(), NoMemory>
        ensures ok { OnOk result (self.new ≡ record { meaning = self.old.meaning; room = larger_room self.old.room wanted }) }
        ensures err { OnErr result (self.new ≡ self.old) }
    {
        let room = larger_room(self.room, wanted);
        self.records.reserve(room.records, room.instances)?;
        self.boxes.reserve(room.boxes)?;
        self.files.reserve(room.files)?;
        self.room = room;
        Ok(())
    }

    /// Makes room for an entry, which can then be taken in without memory. What there was stays.
    pub fn reserve_for(&mut self, entry: &MapEntry) -> Result<(), NoMemory>
        ensures ok { OnOk result (self.new ≡ record { meaning = self.old.meaning; room = larger_room self.old.room (room_for entry.now) }) }
        ensures room { OnOk result (HasRoomFor entry.now self.new.room) }
        ensures no_less { IsNoLessRoom self.old.room self.new.room }
        ensures err { OnErr result (self.new ≡ self.old) }
    {
        self.reserve(room_for(entry))
    }

    /// Takes in an entry that fits and for which there is room. Only one that makes a mailbox, stores a message or seals a
    /// file uses room.
    pub fn take_in(&mut self, entry: MapEntry)
        requires fits { MapFits self.old.meaning entry }
        requires room { HasRoomFor entry self.old.room }
        ensures { self.new ≡ record { meaning = map_applied entry self.old.meaning; room = room_left entry self.old.room } }
    {
        let most = higher(self.most, numbers_of(self.store, &entry));
        let room = room_left(&entry, self.room);
        take_parts(&mut self.records, &mut self.boxes, &mut self.files, entry);
        self.most = most;
        self.room = room;
    }

    /// Takes in an entry that fits and that takes no memory.
    fn change(&mut self, entry: &MapEntry)
        requires fits { MapFits self.old.meaning entry.now }
        requires changes { TakesMemory entry.now → ⊥ }
        ensures { self.new ≡ record { meaning = map_applied entry.now self.old.meaning; room = self.old.room } }
    {
        change_parts(&mut self.records, &mut self.boxes, entry);
        self.most = higher(self.most, numbers_of(self.store, entry));
    }

    /// Takes in an entry that fits. Only one that makes a mailbox, stores a message or seals a file takes memory, for which
    /// room is made and used; without it the index stays.
    pub fn apply(&mut self, entry: &MapEntry) -> Result<(), NoMemory>
        requires { MapFits self.old.meaning entry.now }
        ensures ok { OnOk result (self.new.meaning ≡ map_applied entry.now self.old.meaning) }
        ensures room { OnOk result (self.new.room ≡ room_left entry.now (larger_room self.old.room (room_for entry.now))) }
        ensures err { OnErr result (self.new ≡ self.old) }
        ensures adding_only { IsErr result → TakesMemory entry.now }
    {
        match copied(self.alloc, entry)? {
            Some(copy) => {
                self.reserve_for(entry)?;
                self.take_in(copy);
            }
            None => self.change(entry),
        }
        Ok(())
    }
}
