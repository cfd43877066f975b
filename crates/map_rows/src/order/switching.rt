// What a purge of a storage file does to an order.
ghost use Rattle.std.specs.Prelude.{◌≡◌, ◌==◌, ◌≤◌, map, filter, length, not, Bool, ℕ, vec_len, vec_capacity};
ghost use Rattle.std.specs.List.Sorted.{IsStrictlyIncreasing, IsPermutation};
ghost use Rattle.model_meaning.specs.MapMeaning.{has_map_uid, place_given};
ghost use Rattle.map_rows.specs.declared.order.OrderKey.{OrderKey};
ghost use Rattle.map_rows.specs.Orders.{times};
ghost use Rattle.map_rows.specs.Keys.{moved_key};

use super::{Order, OrderKey, first_place};
use crate::keys::place_number;
use crate::listed::{is_listed, place_given};
use mdbox_base::{FileNo, MapPlace, MapUid};

impl Order {
    /// Removes the keys of the records that a list names, in one pass. Room stays.
    pub fn remove_each(&mut self, uids: &[MapUid])
        requires { IsStrictlyIncreasing (map (λ u. u.0) uids.now) }
        ensures keys { self.new.keys ≡ filter (λ k. not (has_map_uid k.uid.0 uids.now)) self.old.keys }
        ensures room { self.new.room ≡ self.old.room }
    {
        self.keys.retain(|key| !is_listed(uids, key.uid));
    }

    /// In an order by place: removes the keys of the records that one list names, and gives those that the other names the
    /// numbers of their new places. No two places are one. It takes a pass, where the records of `file` stay in order.
    pub fn switch(&mut self, file: FileNo, target: u32, moved: &[MapPlace], dropped: &[MapUid])
        requires moved { IsStrictlyIncreasing (map (λ p. p.uid.0) moved.now) }
        requires dropped { IsStrictlyIncreasing (map (λ u. u.0) dropped.now) }
        requires apart { (n : ℕ) → times (λ k. k.number == n) (map (moved_key target moved.now) (filter (λ k. not (has_map_uid k.uid.0 dropped.now)) self.old.keys)) ≤ 1 }
        ensures keys { (p : OrderKey → Bool) → times p self.new.keys ≡ times p (map (moved_key target moved.now) (filter (λ k. not (has_map_uid k.uid.0 dropped.now)) self.old.keys)) }
        ensures room { self.new.room ≡ self.old.room }
    {
        let first = first_place(&self.keys, place_number(file.0, 0));
        switch_keys(&mut self.keys, target, moved, dropped);
        bring_behind(&mut self.keys, first, moved.len(), place_number(target, 0));
        self.keys.sort_unstable_by_key(|key| key.number);
    }
}

/// The keys that are left, with the numbers of new places, each where it stood.
fn switch_keys(keys: &mut Vec<OrderKey>, target: u32, moved: &[MapPlace], dropped: &[MapUid])
    requires moved { IsStrictlyIncreasing (map (λ p. p.uid.0) moved.now) }
    requires dropped { IsStrictlyIncreasing (map (λ u. u.0) dropped.now) }
    ensures keys { keys.new.items ≡ map (moved_key target moved.now) (filter (λ k. not (has_map_uid k.uid.0 dropped.now)) keys.old.items) }
    ensures space { (vec_len keys.new ≤ vec_len keys.old) × (vec_capacity keys.new ≡ vec_capacity keys.old) }
{
    keys.retain_mut(|key| switch_key(key, target, moved, dropped));
}

/// Gives a key the number of its new place, if one list names its record. False if and only if the other does.
fn switch_key(key: &mut OrderKey, target: u32, moved: &[MapPlace], dropped: &[MapUid]) -> bool
    requires moved { IsStrictlyIncreasing (map (λ p. p.uid.0) moved.now) }
    requires dropped { IsStrictlyIncreasing (map (λ u. u.0) dropped.now) }
    ensures stays { result ≡ not (has_map_uid key.old.uid.0 dropped.now) }
    ensures key { key.new ≡ moved_key target moved.now key.old }
{
    if let Some(place) = place_given(moved, key.uid) {
        key.number = place_number(target, u64::from(place.offset));
    }
    !is_listed(dropped, key.uid)
}

/// Brings so many keys, from this place on, behind those of lesser numbers that follow them.
fn bring_behind(keys: &mut Vec<OrderKey>, first: usize, count: usize, number: u128)
    ensures keys { IsPermutation keys.old.items keys.new.items }
    ensures space { (vec_len keys.new ≡ vec_len keys.old) × (vec_capacity keys.new ≡ vec_capacity keys.old) }
{
    turn_behind(keys.as_mut_slice(), first, count, number);
}

fn turn_behind(keys: &mut [OrderKey], first: usize, count: usize, number: u128)
    ensures keys { IsPermutation keys.old keys.new }
    ensures len { length keys.new ≡ length keys.old }
{
    let first = first.min(keys.len());
    let end = first + count.min(keys.len() - first);
    let behind = end + keys[end..].partition_point(|key| key.number < number);
    keys[first..behind].rotate_left(end - first);
}
