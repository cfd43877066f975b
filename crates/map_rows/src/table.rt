// The records of the map, and searches in them.
ghost use Rattle.std.specs.Prelude.{◌≡◌, ◌≢◌, ◌==◌, ◌&&◌, ◌↔◌, ◌≤◌, [], length, max, find, filter, position, slice_get, None, All, IsTrue, IfSome, IfNone, OnOk, OnErr};
ghost use Rattle.std.specs.List.{list_any};
ghost use Rattle.std.specs.Option.{option_map, option_map_or, option_copied};
ghost use Rattle.std.specs.Str.{bytes_eq};
ghost use Rattle.model_meaning.specs.MapFits.{IsApart, AgreesOn};
ghost use Rattle.map_rows.specs.Named.{instances_of};
ghost use Rattle.map_rows.specs.Lookups.{meant_record, is_from, least, last_ending, IsLastBefore};

use crate::keys::{OFFSETS, guid_number, place_number};
use crate::names::{InstanceNames, agree_on};
use crate::order::Order;
use crate::rows::{Record, place_with_uid, with_uid};
use mdbox_base::{FileNo, Guid, Hash, InstId, InstRow, MapUid, NoMemory};
use std::alloc::Global;
use std::marker::Model;

mod changes;

/// The records of the map in order of map uid, with an order by GUID and one by file and offset.
#[derive(Drop)]
pub struct Table {
    records: Vec<Record>,
    by_guid: Order,
    by_place: Order,
    names: InstanceNames,
    /// How many records can be added without memory.
    room: usize,
}

impl Model for Table {
    ghost use Rattle.std.specs.Prelude.{◌+◌, ◌≤◌, map, vec_len, vec_capacity};
    ghost use Rattle.map_rows.specs.TableValue.{TableValue};

    ghost Value = { TableValue };

    ghost use Rattle.map_rows.specs.Lookups.{meant_record};
    ghost use Rattle.map_rows.specs.Named.{AreNamesOf, instances_of};
    ghost use Rattle.map_rows.specs.TableKept.{AreIndexed};

    ghost view = { λ table. record { records = map meant_record table.records.items; record_room = table.room; instance_room = table.names.room } };

    ghost invariant = { λ table. AreIndexed (map meant_record table.records.items) table.by_guid.keys table.by_place.keys
        × (vec_len table.records + table.room ≤ vec_capacity table.records)
        × (table.room ≤ table.by_guid.room)
        × (table.room ≤ table.by_place.room)
        × AreNamesOf table.names.named (instances_of (map meant_record table.records.items)) };
}

impl Table {
    ghost use Rattle.map_rows.specs.TableKept.{AreTableRows};

    /// A table of no records, without room.
    pub fn empty(alloc: Global) -> Table
        ensures { result ≡ record { records = []; record_room = 0; instance_room = 0 } }
    {
        Table {
            records: Vec::new(alloc),
            by_guid: Order::empty(alloc),
            by_place: Order::empty(alloc),
            names: InstanceNames::empty(alloc),
            room: 0,
        }
    }

    /// Map uids rise, GUIDs differ, regions of one file don't overlap, and instances of one id have one hash and one size.
    pub fn known_facts(&self)
        ensures { AreTableRows self.now.records }
    {
        let _ = &self.records;
    }

    /// How many records there are.
    pub fn length(&self) -> usize
        ensures { result ≡ length self.now.records }
    {
        self.records.len()
    }

    /// How many records can be added without memory.
    pub fn record_room(&self) -> usize
        ensures { result ≡ self.now.record_room }
    {
        self.room
    }

    /// How many namings of instances can be added without memory.
    pub fn instance_room(&self) -> usize
        ensures { result ≡ self.now.instance_room }
    {
        self.names.room()
    }

    /// Makes room: for so many records and namings of instances at least. What there was stays.
    pub fn reserve(&mut self, records: usize, instances: usize) -> Result<(), NoMemory>
        ensures ok { OnOk result (self.new ≡ record { records = self.old.records; record_room = max self.old.record_room records; instance_room = max self.old.instance_room instances }) }
        ensures err { OnErr result (self.new ≡ self.old) }
    {
        let room = self.room.max(records);
        self.records.reserve(room)?;
        self.by_guid.reserve(room)?;
        self.by_place.reserve(room)?;
        self.names.reserve(instances)?;
        self.room = room;
        Ok(())
    }

    /// The record of a map uid. None if and only if there is none.
    pub fn find(&self, uid: MapUid) -> Option<&Record>
        ensures { option_map meant_record (option_copied result) ≡ find (λ row. row.uid == uid.0) self.now.records }
    {
        with_uid(&self.records, uid)
    }

    /// The place of the record of a map uid, in order of map uid, from 0. None if and only if there is none.
    pub fn place_of(&self, uid: MapUid) -> Option<usize>
        ensures place { result ≡ position (λ row. row.uid == uid.0) self.now.records }
        ensures there { option_map_or (λ place. slice_get self.now.records place) result None ≡ find (λ row. row.uid == uid.0) self.now.records }
    {
        let place = place_with_uid(&self.records, uid);
        if place < self.records.len() {
            Some(place)
        } else {
            None
        }
    }

    /// The record at a place, in order of map uid, from 0. None exactly past the end.
    pub fn at(&self, place: usize) -> Option<&Record>
        ensures { option_map meant_record (option_copied result) ≡ slice_get self.now.records place }
    {
        self.records.get(place)
    }

    /// The record of a GUID. None if and only if there is none.
    pub fn find_guid(&self, guid: Guid) -> Option<&Record>
        ensures { option_map meant_record (option_copied result) ≡ find (λ row. bytes_eq row.guid guid.0) self.now.records }
    {
        self.by_guid.known_facts();
        let uid = self.by_guid.uid_of(guid_number(guid))?;
        self.find(uid)
    }

    /// Whether no record has this GUID.
    pub fn is_new_guid(&self, guid: Guid) -> bool
        ensures { IsTrue result ↔ All (λ row. row.guid ≢ guid.0) self.now.records }
    {
        self.find_guid(guid).is_none()
    }

    /// The record of this file with the least offset that is at least `from`. None if and only if there is none.
    pub fn first_in_file(&self, file: FileNo, from: u32) -> Option<&Record>
        ensures { option_map meant_record (option_copied result) ≡ least (filter (is_from file.0 from) self.now.records) }
    {
        self.by_place.known_facts();
        let uid = self
            .by_place
            .first_from(place_number(file.0, u64::from(from)))?;
        let record = self.find(uid)?;
        if record.row.file.0 == file.0 {
            Some(record)
        } else {
            None
        }
    }

    /// The record of this file whose region ends last. None if and only if there is none.
    pub fn last_in_file(&self, file: FileNo) -> Option<&Record>
        ensures { option_map meant_record (option_copied result) ≡ last_ending file.0 self.now.records }
    {
        self.known_facts();
        self.last_before(file.0, OFFSETS)
    }

    /// The record of this file with the greatest offset below this one. None if and only if there is none.
    fn last_before(&self, file: u32, offset: u64) -> Option<&Record>
        requires { offset ≤ 4294967296 }
        ensures some { IfSome result (λ last. IsLastBefore self.now.records file offset (meant_record last.now)) }
        ensures none { IfNone result (All (λ row. row.file ≡ file → offset ≤ row.offset) self.now.records) }
    {
        self.by_place.known_facts();
        let uid = self.by_place.last_below(place_number(file, offset))?;
        let record = self.find(uid)?;
        if record.row.file.0 == file {
            Some(record)
        } else {
            None
        }
    }

    /// Whether no region of this file overlaps these octets.
    pub fn is_free(&self, file: u32, offset: u32, size: u32) -> bool
        ensures { IsTrue result ↔ All (λ row. row.file ≡ file → IsApart offset size row) self.now.records }
    {
        self.known_facts();
        let end = (u64::from(offset) + u64::from(size)).min(OFFSETS);
        match self.last_before(file, end) {
            Some(record) => record.row.end() <= u64::from(offset),
            None => true,
        }
    }

    /// Whether a record names this instance.
    pub fn is_instance_named(&self, id: InstId) -> bool
        ensures { result ≡ list_any (λ row. list_any (λ i. bytes_eq i.id.0 id.0) row.instances) self.now.records }
    {
        self.names.known_facts();
        self.names.find(id).is_some()
    }

    /// Whether a record names the instance of this hash and id.
    pub fn names_file(&self, hash: Hash, id: InstId) -> bool
        ensures { result ≡ list_any (λ row. list_any (λ i. bytes_eq i.hash.0 hash.0 && bytes_eq i.id.0 id.0) row.instances) self.now.records }
    {
        self.names.known_facts();
        match self.names.find(id) {
            Some(row) => row.hash.0 == hash.0,
            None => false,
        }
    }

    /// Whether these instances have the same hash and size wherever records name them.
    pub fn agrees(&self, instances: &[InstRow]) -> bool
        ensures { IsTrue result ↔ All (λ row. All (λ i. All (AgreesOn i) row.instances) instances.now) self.now.records }
    {
        self.agree(instances)
    }

    /// The same, instance by instance.
    fn agree(&self, instances: &[InstRow]) -> bool
        ensures { IsTrue result ↔ All (λ i. All (AgreesOn i) (instances_of self.now.records)) instances.now }
    {
        instances.iter().all(|instance| self.agrees_on(instance))
    }

    /// Whether an instance has the same hash and size wherever records name it.
    fn agrees_on(&self, instance: &InstRow) -> bool
        ensures { IsTrue result ↔ All (AgreesOn instance.now) (instances_of self.now.records) }
    {
        self.names.known_facts();
        match self.names.find(instance.id) {
            Some(row) => agree_on(instance, row),
            None => true,
        }
    }
}
