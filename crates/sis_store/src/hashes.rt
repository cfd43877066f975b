// The keys of instances in order of hash, size and id, and the searches among them.
ghost use Rattle.std.specs.Prelude.{◌≡◌, ◌+◌, ◌<◌, ◌≤◌, ℕ, length, take, drop, false, All, AllPairs, Contains, IfOk, IfSome, IsNone, sum_by, vec_len, vec_capacity};
ghost use Rattle.std.specs.Ordering.{is_gt};
ghost use Rattle.sis_store.specs.declared.instance.HashKey.{HashKey};
ghost use Rattle.sis_store.specs.Hashes.{hash_key, key_order, is_key_wanted, IsLeastWanted};

use crate::instance::{HashKey, hash_key};
use mdbox_base::{Hash, InstId, InstRow, NoMemory};
use std::alloc::Global;

/// The keys of these instances.
pub(crate) fn keys_of(alloc: Global, rows: &[InstRow]) -> Result<Vec<HashKey>, NoMemory>
    ensures order { IfOk result (λ keys. AllPairs (λ a b. is_gt (key_order a b) ≡ false) keys.items) }
    ensures same { IfOk result (λ keys. (f : HashKey → ℕ) → sum_by f keys.items ≡ sum_by (λ row. f (hash_key row)) rows.now) }
{
    let mut keys = Vec::new(alloc);
    for row in rows {
        keys.push(hash_key(row))?;
    }
    keys.sort_unstable();
    Ok(keys)
}

/// The least id past this one of an instance of this hash and size. None if and only if there is none.
pub(crate) fn first_past(
    keys: &[HashKey],
    hash: Hash,
    size: u32,
    after: Option<InstId>,
) -> Option<InstId>
    requires { AllPairs (λ a b. is_gt (key_order a b) ≡ false) keys.now }
    ensures some { IfSome result (IsLeastWanted hash size after keys.now) }
    ensures none { IsNone result → All (λ key. is_key_wanted hash size after key ≡ false) keys.now }
{
    let place = keys.partition_point(|key| key.is_before(hash, size, after));
    match keys.get(place) {
        Some(key) if key.is_of(hash, size) => Some(key.id),
        _ => None,
    }
}

/// Puts a key at its place. There is room for it.
pub(crate) fn add_key(keys: &mut Vec<HashKey>, key: HashKey)
    requires order { AllPairs (λ a b. is_gt (key_order a b) ≡ false) keys.old.items }
    requires room { vec_len keys.old < vec_capacity keys.old }
    ensures order { AllPairs (λ a b. is_gt (key_order a b) ≡ false) keys.new.items }
    ensures same { (f : HashKey → ℕ) → sum_by f keys.new.items ≡ f key + sum_by f keys.old.items }
{
    let place = place_for(keys, &key);
    match keys.insert(place, key) {
        Ok(()) => {}
        Err(_) => unreachable!(),
    }
}

/// Where a key can stand, by search.
fn place_for(keys: &[HashKey], key: &HashKey) -> usize
    requires { AllPairs (λ a b. is_gt (key_order a b) ≡ false) keys.now }
    ensures within { result ≤ length keys.now }
    ensures before { All (λ k. is_gt (key_order k key.now) ≡ false) (take result keys.now) }
    ensures behind { All (λ k. is_gt (key_order key.now k) ≡ false) (drop result keys.now) }
{
    match keys.binary_search(key) {
        Ok(place) => place,
        Err(place) => place,
    }
}

/// Takes out a key, which is there.
pub(crate) fn remove_key(keys: &mut Vec<HashKey>, key: HashKey)
    requires order { AllPairs (λ a b. is_gt (key_order a b) ≡ false) keys.old.items }
    requires there { Contains keys.old.items key }
    ensures order { AllPairs (λ a b. is_gt (key_order a b) ≡ false) keys.new.items }
    ensures same { (f : HashKey → ℕ) → sum_by f keys.old.items ≡ f key + sum_by f keys.new.items }
{
    if let Ok(place) = keys.binary_search(&key) {
        let _ = keys.remove(place);
    }
}
