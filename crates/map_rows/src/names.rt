// The instances that records name.
ghost use Rattle.std.specs.Prelude.{◌≡◌, ◌+◌, ◌-◌, ◌^◌, ◌<◌, ◌≤◌, ◌↔◌, Bool, [], ◌∷◌, length, insert, max, map, filter, find, not, All, AllPairs, IsTrue, IfOk, IfErr, OnOk, OnErr, vec_len, vec_capacity};
ghost use Rattle.std.specs.Option.{option_copied, option_map};
ghost use Rattle.std.specs.Str.{bytes_eq};
ghost use Rattle.std.specs.List.Sorted.{IsStrictlyIncreasing};
ghost use Rattle.mdbox_base.specs.Words.{IsOctets};
ghost use Rattle.mdbox_base.specs.declared.entries.InstRow.{InstRow};
ghost use Rattle.model_meaning.specs.MapFits.{AgreesOn};
ghost use Rattle.model_meaning.specs.MapMeaning.{has_map_uid};
ghost use Rattle.map_rows.specs.Lookups.{meant_record};
ghost use Rattle.map_rows.specs.Keys.{guid_number};
ghost use Rattle.map_rows.specs.Named.{AreNumbered, AreNamings, AreNamesOf, IsOnlyNaming, IsNamedAt, IsGapFor, namings_of, all_namings, instances_of, is_instance};
ghost use Rattle.map_rows.specs.Orders.{times};

use crate::keys::guid_number;
use crate::rows::{Record, with_uid};
use mdbox_base::{Guid, InstId, InstRow, MapUid, NoMemory};
use std::alloc::Global;
use std::marker::Model;

/// An instance, with its id as a number, and how often records name it.
#[derive(Clone, Copy, Debug, PartialEq, Eq)]
pub struct NamedInstance {
    pub number: u128,
    pub row: InstRow,
    pub namings: u64,
}

/// The instances that records name, in order of id.
#[derive(Drop)]
pub struct InstanceNames {
    named: Vec<NamedInstance>,
    /// How many namings there are.
    total: u64,
    /// How many namings can be added without memory.
    room: usize,
}

impl Model for InstanceNames {
    ghost use Rattle.std.specs.Prelude.{◌≡◌, ◌+◌, ◌<◌, ◌≤◌, ◌^◌, vec_len, vec_capacity};
    ghost use Rattle.map_rows.specs.Named.{NamesValue, AreNamings, all_namings};

    ghost Value = { NamesValue };

    ghost view = { λ names. record { named = names.named.items; room = names.room } };

    ghost invariant = { λ names. AreNamings names.named.items
        × (all_namings names.named.items ≡ names.total)
        × (names.total + names.room < 2 ^ 64)
        × (vec_len names.named + names.room ≤ vec_capacity names.named) };
}

impl InstanceNames {
    /// No instances, without room.
    pub fn empty(alloc: Global) -> InstanceNames
        ensures { result ≡ record { named = []; room = 0 } }
    {
        InstanceNames {
            named: Vec::new(alloc),
            total: 0,
            room: 0,
        }
    }

    /// They stand in order of id, each with the number of its id, named once at least.
    pub fn known_facts(&self)
        ensures { AreNamings self.now.named }
    {
        let _ = &self.named;
    }

    /// How many namings can be added without memory.
    pub fn room(&self) -> usize
        ensures { result ≡ self.now.room }
    {
        self.room
    }

    /// Makes room for so many namings at least. What there was stays.
    pub fn reserve(&mut self, namings: usize) -> Result<(), NoMemory>
        ensures ok { OnOk result (self.new ≡ record { named = self.old.named; room = max self.old.room namings }) }
        ensures err { OnErr result (self.new ≡ self.old) }
    {
        let room = self.room.max(namings);
        if u64::MAX - self.total < room as u64 {
            return Err(NoMemory);
        }
        self.named.reserve(room)?;
        self.room = room;
        Ok(())
    }

    /// The instance of an id. None if and only if none is named.
    pub fn find(&self, id: InstId) -> Option<&InstRow>
        ensures { option_copied result ≡ option_map (λ n. n.row) (find (λ n. bytes_eq n.row.id.0 id.0) self.now.named) }
    {
        match place_of(&self.named, id_number(id)) {
            Ok(place) => Some(&self.named[place].row),
            Err(_) => None,
        }
    }

    /// Adds a naming.
    pub fn add(&mut self, row: &InstRow)
        requires only { All (IsOnlyNaming row.now) self.old.named }
        requires room { 1 ≤ self.old.room }
        ensures are { AreNamings self.new.named }
        ensures names { (p : InstRow → Bool) → namings_of p self.new.named ≡ namings_of p self.old.named + times p (row.now ∷ []) }
        ensures room { self.new.room ≡ self.old.room - 1 }
    {
        add_naming(&mut self.named, *row);
        self.total += 1;
        self.room -= 1;
    }

    /// Adds a naming of each of these instances.
    pub fn add_each(&mut self, rows: &[InstRow])
        requires only { All (λ row. All (IsOnlyNaming row) self.old.named) rows.now }
        requires agree { AllPairs AgreesOn rows.now }
        requires room { length rows.now ≤ self.old.room }
        ensures names { (p : InstRow → Bool) → namings_of p self.new.named ≡ namings_of p self.old.named + times p rows.now }
        ensures room { self.new.room ≡ self.old.room - length rows.now }
    {
        self.known_facts();
        for row in rows {
            self.add(row);
        }
    }

    /// Removes the namings of the records that the list names, in one pass. Room stays.
    pub fn remove_each(&mut self, records: &[Record], uids: &[MapUid])
        requires rising { AllPairs (λ a b. a.row.uid.0 < b.row.uid.0) records.now }
        requires uids { IsStrictlyIncreasing (map (λ u. u.0) uids.now) }
        requires names { AreNamesOf self.old.named (instances_of (map meant_record records.now)) }
        ensures names { AreNamesOf self.new.named (instances_of (filter (λ row. not (has_map_uid row.uid uids.now)) (map meant_record records.now))) }
        ensures room { self.new.room ≡ self.old.room }
    {
        self.total -= lower_records(&mut self.named, records, uids);
        self.named.retain(|name| 1 <= name.namings);
    }
}

/// An id as a number.
fn id_number(id: InstId) -> u128
    ensures number { result ≡ guid_number id.0 }
    ensures long { length id.0 ≡ 16 }
    ensures octets { IsOctets id.0 }
{
    guid_number(Guid(id.0))
}

/// The place of a number, or the one that it would have.
fn place_of(named: &[NamedInstance], number: u128) -> Result<usize, usize>
    requires { AllPairs (λ a b. a.number < b.number) named.now }
    ensures found { IfOk result (IsNamedAt named.now number) }
    ensures absent { IfErr result (IsGapFor named.now number) }
{
    match named.last() {
        // Most instances that are first named now have the greatest ids.
        Some(last) if last.number < number => Err(named.len()),
        _ => named.binary_search_by_key(&number, |name| name.number),
    }
}

/// Adds a naming of this instance. There is room for it.
fn add_naming(named: &mut Vec<NamedInstance>, row: InstRow)
    requires are { AreNamings named.old.items }
    requires only { All (IsOnlyNaming row) named.old.items }
    requires room { vec_len named.old < vec_capacity named.old }
    requires count { all_namings named.old.items < 2 ^ 64 - 1 }
    ensures are { AreNamings named.new.items }
    ensures names { (p : InstRow → Bool) → namings_of p named.new.items ≡ namings_of p named.old.items + times p (row ∷ []) }
    ensures len { vec_len named.new ≤ vec_len named.old + 1 }
    ensures capacity { vec_capacity named.new ≡ vec_capacity named.old }
{
    let number = id_number(row.id);
    match place_of(named, number) {
        Ok(place) => {
            let old = named[place];
            let namings = old.namings + 1;
            named[place] = NamedInstance { namings, ..old };
        }
        Err(place) => insert_naming(
            named,
            place,
            NamedInstance {
                number,
                row,
                namings: 1,
            },
        ),
    }
}

/// Puts a naming at its place. There is room for it.
fn insert_naming(named: &mut Vec<NamedInstance>, place: usize, name: NamedInstance)
    requires within { place ≤ length named.old.items }
    requires room { vec_len named.old < vec_capacity named.old }
    ensures items { named.new.items ≡ insert named.old.items place name }
    ensures len { vec_len named.new ≡ vec_len named.old + 1 }
    ensures capacity { vec_capacity named.new ≡ vec_capacity named.old }
{
    match named.insert(place, name) {
        Ok(()) => {}
        Err(_) => unreachable!(),
    }
}

/// Removes the namings of the records that the list names, and says how many they were. An instance that is named no more
/// stays where it stood.
fn lower_records(named: &mut Vec<NamedInstance>, records: &[Record], uids: &[MapUid]) -> u64
    requires are { AreNumbered named.old.items }
    requires rising { AllPairs (λ a b. a.row.uid.0 < b.row.uid.0) records.now }
    requires uids { IsStrictlyIncreasing (map (λ u. u.0) uids.now) }
    requires names { AreNamesOf named.old.items (instances_of (map meant_record records.now)) }
    requires count { all_namings named.old.items < 2 ^ 64 }
    ensures are { AreNumbered named.new.items }
    ensures names { AreNamesOf named.new.items (instances_of (filter (λ row. not (has_map_uid row.uid uids.now)) (map meant_record records.now))) }
    ensures space { (vec_len named.new ≡ vec_len named.old) × (vec_capacity named.new ≡ vec_capacity named.old) }
    ensures count { all_namings named.new.items + result ≡ all_namings named.old.items }
{
    let mut count = 0;
    for uid in uids {
        match with_uid(records, *uid) {
            Some(record) => count += lower_each(named, record.instances.as_slice()),
            None => {}
        }
    }
    count
}

/// Removes a naming of each of these instances, which are there, and says how many they are. An instance that is named no
/// more stays where it stood.
fn lower_each(named: &mut Vec<NamedInstance>, rows: &[InstRow]) -> u64
    requires are { AreNumbered named.old.items }
    requires there { (p : InstRow → Bool) → times p rows.now ≤ namings_of p named.old.items }
    ensures are { AreNumbered named.new.items }
    ensures names { (p : InstRow → Bool) → namings_of p named.new.items + times p rows.now ≡ namings_of p named.old.items }
    ensures space { (vec_len named.new ≡ vec_len named.old) × (vec_capacity named.new ≡ vec_capacity named.old) }
    ensures count { result ≡ length rows.now }
{
    for row in rows {
        lower_naming(named, row);
    }
    rows.len() as u64
}

/// Removes a naming of this instance, which is there. An instance that is named no more stays where it stood.
fn lower_naming(named: &mut Vec<NamedInstance>, row: &InstRow)
    requires are { AreNumbered named.old.items }
    requires there { 1 ≤ namings_of (is_instance row.now) named.old.items }
    ensures are { AreNumbered named.new.items }
    ensures names { (p : InstRow → Bool) → namings_of p named.new.items + times p (row.now ∷ []) ≡ namings_of p named.old.items }
    ensures space { (vec_len named.new ≡ vec_len named.old) × (vec_capacity named.new ≡ vec_capacity named.old) }
{
    match place_of(named, id_number(row.id)) {
        Ok(place) => {
            let old = named[place];
            let namings = old.namings - 1;
            named[place] = NamedInstance { namings, ..old };
        }
        Err(_) => unreachable!(),
    }
}

/// Whether two namings of one instance have one hash and one size.
pub fn agree_on(a: &InstRow, b: &InstRow) -> bool
    ensures { IsTrue result ↔ AgreesOn a.now b.now }
{
    a.id != b.id || (a.hash == b.hash && a.size == b.size)
}
