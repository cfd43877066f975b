// An order of records, in a vector.
ghost use Rattle.std.specs.Prelude.{◌≡◌, ◌==◌, ◌+◌, ◌-◌, ◌<◌, ◌≤◌, [], length, max, find, filter, insert, slice_get, nat_le, nat_lt, None, IsSome, OnOk, OnErr, IfOk, IfErr, vec_len, vec_capacity};
ghost use Rattle.std.specs.Option.{option_map};
ghost use Rattle.map_rows.specs.Orders.{NumbersRise, IsFoundAt, IsPlaceFor, IsFirstFrom, last_of, with_key};

use mdbox_base::{MapUid, NoMemory};
use std::alloc::Global;
use std::marker::Model;

mod switching;

/// The number of a record in the order, and its map uid.
#[derive(Clone, Copy, Debug, PartialEq, Eq)]
pub struct OrderKey {
    pub number: u128,
    pub uid: MapUid,
}

/// Records in order of a number that differs from record to record.
#[derive(Drop)]
pub struct Order {
    keys: Vec<OrderKey>,
    /// How many keys can be added without memory.
    room: usize,
}

impl Model for Order {
    ghost use Rattle.std.specs.Prelude.{◌+◌, ◌≤◌, vec_len, vec_capacity};
    ghost use Rattle.map_rows.specs.Value.{OrderValue};

    ghost Value = { OrderValue };

    ghost view = { λ order. record { keys = order.keys.items; room = order.room } };

    ghost use Rattle.map_rows.specs.Orders.{NumbersRise};

    ghost invariant = { λ order. NumbersRise order.keys.items × (vec_len order.keys + order.room ≤ vec_capacity order.keys) };
}

impl Order {
    ghost use Rattle.map_rows.specs.Orders.{NumbersRise, last_of, with_key};

    /// An order of no records, without room.
    pub fn empty(alloc: Global) -> Order
        ensures { result ≡ record { keys = []; room = 0 } }
    {
        Order {
            keys: Vec::new(alloc),
            room: 0,
        }
    }

    /// Numbers rise.
    pub fn known_facts(&self)
        ensures { NumbersRise self.now.keys }
    {
        let _ = &self.keys;
    }

    /// Makes room for so many keys at least. What there was stays.
    pub fn reserve(&mut self, keys: usize) -> Result<(), NoMemory>
        ensures ok { OnOk result (self.new ≡ record { keys = self.old.keys; room = max self.old.room keys }) }
        ensures err { OnErr result (self.new ≡ self.old) }
    {
        let room = self.room.max(keys);
        self.keys.reserve(room)?;
        self.room = room;
        Ok(())
    }

    /// The record of a number. None if and only if there is none.
    pub fn uid_of(&self, number: u128) -> Option<MapUid>
        ensures { result ≡ option_map (λ k. k.uid) (find (λ k. k.number == number) self.now.keys) }
    {
        match place_of(&self.keys, number) {
            Ok(place) => self.uid_at(place),
            Err(_) => None,
        }
    }

    /// The first record whose number is at least this one. None if and only if there is none.
    pub fn first_from(&self, number: u128) -> Option<MapUid>
        ensures { result ≡ option_map (λ k. k.uid) (find (λ k. nat_le number k.number) self.now.keys) }
    {
        let place = first_place(&self.keys, number);
        self.uid_at(place)
    }

    /// The last record whose number is below this one. None if and only if there is none.
    pub fn last_below(&self, number: u128) -> Option<MapUid>
        ensures { result ≡ option_map (λ k. k.uid) (last_of (filter (λ k. nat_lt k.number number) self.now.keys)) }
    {
        let place = first_place(&self.keys, number);
        if place == 0 {
            return None;
        }
        self.uid_at(place - 1)
    }

    fn uid_at(&self, place: usize) -> Option<MapUid>
        ensures { result ≡ option_map (λ k. k.uid) (slice_get self.now.keys place) }
    {
        self.keys.get(place).map(|key| key.uid)
    }

    /// Adds a record, whose number no other has.
    pub fn add(&mut self, key: OrderKey)
        requires new { find (λ k. k.number == key.number) self.old.keys ≡ None }
        requires room { 1 ≤ self.old.room }
        ensures { self.new ≡ record { keys = with_key key self.old.keys; room = self.old.room - 1 } }
    {
        match place_of(&self.keys, key.number) {
            Ok(_) => unreachable!(),
            Err(place) => {
                insert_key(&mut self.keys, place, key);
                self.room -= 1;
            }
        }
    }
}

/// The place of a number, or the one that it would have.
fn place_of(keys: &[OrderKey], number: u128) -> Result<usize, usize>
    requires { NumbersRise keys.now }
    ensures found { IfOk result (IsFoundAt keys.now number) }
    ensures absent { IfErr result (IsPlaceFor keys.now number) }
{
    match keys.last() {
        // Most numbers that are added are the greatest.
        Some(last) if last.number < number => Err(keys.len()),
        _ => keys.binary_search_by_key(&number, |key| key.number),
    }
}

/// The place of the first key whose number is at least this one, else how many keys there are.
fn first_place(keys: &[OrderKey], number: u128) -> usize
    requires { NumbersRise keys.now }
    ensures { IsFirstFrom keys.now number result }
{
    match place_of(keys, number) {
        Ok(place) => place,
        Err(place) => place,
    }
}

/// Puts a key at its place. There is room for it.
fn insert_key(keys: &mut Vec<OrderKey>, place: usize, key: OrderKey)
    requires within { place ≤ length keys.old.items }
    requires room { vec_len keys.old < vec_capacity keys.old }
    ensures items { keys.new.items ≡ insert keys.old.items place key }
    ensures len { vec_len keys.new ≡ vec_len keys.old + 1 }
    ensures capacity { vec_capacity keys.new ≡ vec_capacity keys.old }
{
    match keys.insert(place, key) {
        Ok(()) => {}
        Err(_) => unreachable!(),
    }
}
