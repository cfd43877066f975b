// The items of the lists that entries have.
ghost use Rattle.std.specs.Prelude.{◌≡◌, ◌+◌, ◌<◌, ◌≤◌, ◌^◌, ◌++◌, ℕ, List, length, take, MatchOption};
ghost use Rattle.std.specs.Int.{w16, to_be_bytes};
ghost use Rattle.model_logs.specs.Entries.{four, instance_row_text, RowInRange};

use crate::fields::{array_at, number_at, put, short_at};
use mdbox_base::{Hash, InstId, InstRow, MapCount, MapPlace, MapUid};

/// An item of a list, in a number of octets that is the same for each.
pub trait Item: Copy + Drop {
    /// The item's octets.
    ghost item_text: { Self → List ℕ };

    /// The item's numbers fit their widths.
    ghost in_range: { Self → Type 0 };

    ghost SIZE: { ℕ };

    /// How many octets an item has.
    const SIZE: usize;

    /// The item in front, and what follows it.
    fn item_at(text: &[u8]) -> Option<(Self, &[u8])>
        ensures { MatchOption result (length text.now < SIZE) (λ found. (text.now ≡ item_text found.0 ++ found.1.now) × in_range found.0) };

    /// Writes the item, and answers the place behind it.
    fn put_item(&self, into: &mut [u8], place: usize) -> usize
        requires { place + SIZE ≤ length into.old }
        ensures behind { result ≡ place + SIZE }
        ensures front { take result into.new ≡ take place into.old ++ item_text self.now }
        ensures length { length into.new ≡ length into.old };

    /// Each item in range has its size.
    ghost sized: { (x : Self) → in_range x → length (item_text x) ≡ SIZE };

    /// An item has at most 40 octets.
    ghost small: { SIZE ≤ 40 };
}

impl Item for MapUid {
    ghost use Rattle.std.specs.Prelude.{refl};
    ghost use Rattle.std.proofs.Common.{arith};

    ghost item_text = { λ u. four u.0 };

    ghost in_range = { λ u. u.0 < 2 ^ 32 };

    ghost SIZE = { 4 };

    ghost sized = { λ u range. refl };

    ghost small = { Prim.omega arith };

    const SIZE: usize = 4;

    fn item_at(text: &[u8]) -> Option<(MapUid, &[u8])> {
        let (uid, rest) = number_at(text)?;
        Some((MapUid(uid), rest))
    }

    fn put_item(&self, into: &mut [u8], place: usize) -> usize {
        put(into, place, &self.0.to_be_bytes())
    }
}

impl Item for MapCount {
    ghost use Rattle.std.specs.Prelude.{refl};
    ghost use Rattle.std.proofs.Common.{arith};

    ghost item_text = { λ c. four c.uid.0 ++ to_be_bytes w16 c.count };

    ghost in_range = { λ c. (c.uid.0 < 2 ^ 32) × (c.count < 2 ^ 16) };

    ghost SIZE = { 6 };

    ghost sized = { λ c range. refl };

    ghost small = { Prim.omega arith };

    const SIZE: usize = 6;

    fn item_at(text: &[u8]) -> Option<(MapCount, &[u8])> {
        let (uid, rest) = number_at(text)?;
        let (count, rest) = short_at(rest)?;
        let uid = MapUid(uid);
        Some((MapCount { uid, count }, rest))
    }

    fn put_item(&self, into: &mut [u8], place: usize) -> usize {
        let place = put(into, place, &self.uid.0.to_be_bytes());
        put(into, place, &self.count.to_be_bytes())
    }
}

impl Item for MapPlace {
    ghost use Rattle.std.specs.Prelude.{refl};
    ghost use Rattle.std.proofs.Common.{arith};

    ghost item_text = { λ p. four p.uid.0 ++ four p.offset };

    ghost in_range = { λ p. (p.uid.0 < 2 ^ 32) × (p.offset < 2 ^ 32) };

    ghost SIZE = { 8 };

    ghost sized = { λ p range. refl };

    ghost small = { Prim.omega arith };

    const SIZE: usize = 8;

    fn item_at(text: &[u8]) -> Option<(MapPlace, &[u8])> {
        let (uid, rest) = number_at(text)?;
        let (offset, rest) = number_at(rest)?;
        let uid = MapUid(uid);
        Some((MapPlace { uid, offset }, rest))
    }

    fn put_item(&self, into: &mut [u8], place: usize) -> usize {
        let place = put(into, place, &self.uid.0.to_be_bytes());
        put(into, place, &self.offset.to_be_bytes())
    }
}

impl Item for InstRow {
    ghost use Rattle.std.proofs.Common.{arith, length-append};

    ghost item_text = { instance_row_text };

    ghost in_range = { RowInRange };

    ghost SIZE = { 40 };

    ghost sized = { λ row range. Prim.omega (arith, range.0, range.1, length-append row.hash.0 (row.id.0 ++ four row.size), length-append row.id.0 (four row.size)) };

    ghost small = { Prim.omega arith };

    const SIZE: usize = 40;

    fn item_at(text: &[u8]) -> Option<(InstRow, &[u8])> {
        let (hash, rest) = array_at(text)?;
        let (id, rest) = array_at(rest)?;
        let (size, rest) = number_at(rest)?;
        let row = InstRow {
            hash: Hash(hash),
            id: InstId(id),
            size,
        };
        Some((row, rest))
    }

    fn put_item(&self, into: &mut [u8], place: usize) -> usize {
        let place = put(into, place, &self.hash.0);
        let place = put(into, place, &self.id.0);
        put(into, place, &self.size.to_be_bytes())
    }
}
