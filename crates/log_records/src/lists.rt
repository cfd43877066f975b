// Lists of items, read from the front of a text and written to a place of one.
ghost use Rattle.std.specs.Prelude.{◌≡◌, ◌+◌, ◌*◌, ◌<◌, ◌≤◌, ◌^◌, ◌++◌, ℕ, List, length, take, flat_map, IfOk, MatchOption};
ghost use Rattle.std.specs.List.{AllByRecursion};
ghost use Rattle.std.specs.Int.{w16, to_be_bytes};
ghost use Rattle.model_logs.specs.Entries.{list_text, instance_row_text, RowInRange};
ghost use Rattle.mdbox_base.specs.declared.entries.InstRow.{InstRow};

use crate::fields::{number_at, put, short_at};
use crate::items::Item;
use mdbox_base::{InstRow, NoMemory, Seq};
use std::alloc::Global;

/// So many items, and what follows them.
fn items_at<T: Item>(
    alloc: Global,
    count: usize,
    text: &[u8],
) -> Result<Option<(Seq<T>, &[u8])>, NoMemory>
    ensures { IfOk result (λ found. MatchOption found (length text.now < T.SIZE * count) (λ x. (text.now ≡ flat_map T.item_text x.0 ++ x.1.now) × (length x.0 ≡ count) × AllByRecursion T.in_range x.0)) }
{
    let mut items = Seq::empty(alloc);
    let mut rest = text;
    for _ in 0..count {
        let Some((item, behind)) = T::item_at(rest) else {
            return Ok(None);
        };
        items.push(item)?;
        rest = behind;
    }
    Ok(Some((items, rest)))
}

/// A list with its number of items in four octets, and what follows it.
pub fn list_at<T: Item>(alloc: Global, text: &[u8]) -> Result<Option<(Seq<T>, &[u8])>, NoMemory>
    ensures { IfOk result (λ found. MatchOption found
        ((xs : List T) (rest : List ℕ) → length xs < 2 ^ 32 → AllByRecursion T.in_range xs → text.now ≡ list_text T.item_text xs ++ rest → ⊥)
        (λ x. (text.now ≡ list_text T.item_text x.0 ++ x.1.now) × (length x.0 < 2 ^ 32) × AllByRecursion T.in_range x.0)) }
{
    let Some((count, rest)) = number_at(text) else {
        return Ok(None);
    };
    items_at(alloc, count as usize, rest)
}

/// The list that is the whole text.
pub fn only_list<T: Item>(alloc: Global, text: &[u8]) -> Result<Option<Seq<T>>, NoMemory>
    ensures { IfOk result (λ found. MatchOption found
        ((xs : List T) → length xs < 2 ^ 32 → AllByRecursion T.in_range xs → text.now ≡ list_text T.item_text xs → ⊥)
        (λ xs. (text.now ≡ list_text T.item_text xs) × (length xs < 2 ^ 32) × AllByRecursion T.in_range xs)) }
{
    let Some((items, rest)) = list_at(alloc, text)? else {
        return Ok(None);
    };
    if !rest.is_empty() {
        return Ok(None);
    }
    Ok(Some(items))
}

/// The instances that are the whole text, with their number in two octets.
pub fn only_instances(alloc: Global, text: &[u8]) -> Result<Option<Seq<InstRow>>, NoMemory>
    ensures { IfOk result (λ found. MatchOption found
        ((xs : List InstRow) → length xs < 2 ^ 16 → AllByRecursion RowInRange xs → text.now ≡ to_be_bytes w16 (length xs) ++ flat_map instance_row_text xs → ⊥)
        (λ xs. (text.now ≡ to_be_bytes w16 (length xs) ++ flat_map instance_row_text xs) × (length xs < 2 ^ 16) × AllByRecursion RowInRange xs)) }
{
    let Some((count, rest)) = short_at(text) else {
        return Ok(None);
    };
    let Some((items, rest)) = items_at(alloc, count as usize, rest)? else {
        return Ok(None);
    };
    if !rest.is_empty() {
        return Ok(None);
    }
    Ok(Some(items))
}

/// Writes items, and answers the place behind them.
pub fn put_items<T: Item>(into: &mut [u8], place: usize, items: &[T]) -> usize
    requires { place + T.SIZE * length items.now ≤ length into.old }
    ensures behind { result ≡ place + T.SIZE * length items.now }
    ensures front { take result into.new ≡ take place into.old ++ flat_map T.item_text items.now }
    ensures length { length into.new ≡ length into.old }
{
    let mut end = place;
    for item in items {
        end = item.put_item(into, end);
    }
    end
}

/// Writes a list with its number of items in four octets, and answers the place behind it.
pub fn put_list<T: Item>(into: &mut [u8], place: usize, items: &[T]) -> usize
    requires count { length items.now < 2 ^ 32 }
    requires room { place + 4 + T.SIZE * length items.now ≤ length into.old }
    ensures behind { result ≡ place + 4 + T.SIZE * length items.now }
    ensures front { take result into.new ≡ take place into.old ++ list_text T.item_text items.now }
    ensures length { length into.new ≡ length into.old }
{
    let place = put(into, place, &(items.len() as u32).to_be_bytes());
    put_items(into, place, items)
}

/// Writes instances with their number in two octets, and answers the place behind them.
pub fn put_instances(into: &mut [u8], place: usize, items: &[InstRow]) -> usize
    requires count { length items.now < 2 ^ 16 }
    requires room { place + 2 + 40 * length items.now ≤ length into.old }
    ensures behind { result ≡ place + 2 + 40 * length items.now }
    ensures front { take result into.new ≡ take place into.old ++ (to_be_bytes w16 (length items.now) ++ flat_map instance_row_text items.now) }
    ensures length { length into.new ≡ length into.old }
{
    let place = put(into, place, &(items.len() as u16).to_be_bytes());
    put_items(into, place, items)
}
