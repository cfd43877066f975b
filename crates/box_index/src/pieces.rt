// The rows of a mailbox, in pieces.
ghost use Rattle.std.specs.Prelude.{◌≡◌, ◌<◌, ◌≤◌, ◌+◌, ◌-◌, ◌++◌, ◌∷◌, [], ◌==◌, IsTrue, IsNone, IsErr, IfSome, OnOk, OnErr, false, length, map, filter, find, not, slice_get};
ghost use Rattle.std.specs.Option.{option_copied};
ghost use Rattle.box_index.specs.Row.{changed_row};
ghost use Rattle.box_index.specs.Pieces.{rows_in, AreFilled, AreRising, LacksUid, IsOnlyIn};

use crate::index::{BoxRow, RowChange};
use crate::piece::Piece;
use crate::rows::BoxRows;
use mdbox_base::{NoMemory, Uid};
use std::alloc::Global;
use std::marker::Model;
use std::mem::replace;

/// Rows of rising UIDs. They are added at the end, so that a look-up is two binary searches: for the piece and in it.
/// One that leaves moves rows of its own piece, or of a small neighbour too.
#[derive(Drop)]
pub(crate) struct Pieces {
    /// The pieces before the last, each full once. None of them is empty.
    earlier: Vec<Piece>,
    /// The piece that rows are added to.
    last: Piece,
    /// How many rows there are in all.
    count: u32,
}

impl Model for Pieces {
    ghost use Rattle.std.specs.Prelude.{◌≡◌, ◌++◌, length};
    ghost use Rattle.box_index.specs.Pieces.{HeldRows, rows_in, AreFilled};

    ghost Value = { HeldRows };

    ghost view = { λ p. record { rows = rows_in p.earlier.items ++ p.last.rows; room = p.last.room } };

    ghost invariant = { λ p. AreFilled p.earlier.items × (p.count ≡ length (rows_in p.earlier.items ++ p.last.rows)) };
}

impl Pieces {
    /// No rows.
    pub(crate) fn empty(alloc: Global) -> Pieces
        ensures { result ≡ record { rows = []; room = 0 } }
    {
        Pieces {
            earlier: Vec::new(alloc),
            last: Piece::empty(alloc),
            count: 0,
        }
    }

    /// How many rows there are.
    pub(crate) fn length(&self) -> u32
        ensures { result ≡ length self.now.rows }
    {
        self.count
    }

    /// The row at this place, from 0. It walks over the pieces.
    pub(crate) fn row_at(&self, place: usize) -> Option<&BoxRow>
        ensures { option_copied result ≡ slice_get self.now.rows place }
    {
        let mut after = place;
        for piece in &self.earlier {
            if after < piece.length() {
                return piece.row_at(after);
            }
            after -= piece.length();
        }
        self.last.row_at(after)
    }

    /// The rows in order.
    pub(crate) fn rows(&self) -> BoxRows<'_>
        ensures { result ≡ self.now.rows }
    {
        BoxRows::of(&self.earlier, self.last.rows())
    }

    /// The row with this UID.
    pub(crate) fn find(&self, uid: Uid) -> Option<&BoxRow>
        requires { AreRising self.now.rows }
        ensures { option_copied result ≡ find (λ row. row.uid.0 == uid.0) self.now.rows }
    {
        if self.last.begins_by(uid) {
            return self.last.find(uid);
        }
        let place = piece_with(&self.earlier, uid)?;
        self.earlier[place].find(uid)
    }

    /// Changes the row with this UID.
    pub(crate) fn change(&mut self, uid: Uid, change: RowChange)
        requires { AreRising self.old.rows }
        ensures { self.new ≡ record self.old { rows = map (changed_row uid.0 change) self.old.rows } }
    {
        if self.last.begins_by(uid) {
            self.last.change(uid, change);
        } else if let Some(place) = piece_with(&self.earlier, uid) {
            self.earlier[place].change(uid, change);
        }
    }

    /// Removes the row with this UID.
    pub(crate) fn remove(&mut self, uid: Uid)
        requires { AreRising self.old.rows }
        ensures rows { self.new.rows ≡ filter (λ row. not (uid.0 == row.uid.0)) self.old.rows }
        ensures room { self.old.room ≤ self.new.room }
    {
        if remove_row(&mut self.earlier, &mut self.last, uid) {
            self.count -= 1;
        }
    }

    /// Makes room for one row at least.
    pub(crate) fn reserve(&mut self) -> Result<(), NoMemory>
        ensures ok { OnOk result (1 ≤ self.new.room) }
        ensures err { OnErr result (self.new ≡ self.old) }
        ensures full { IsErr result → self.old.room ≡ 0 }
        ensures no_less { self.old.room ≤ self.new.room }
        ensures same { self.new.rows ≡ self.old.rows }
    {
        if self.last.is_full() {
            begin_piece(&mut self.earlier, &mut self.last)?;
        }
        self.last.reserve()
    }

    /// Makes room for so many rows at least.
    pub(crate) fn reserve_rows(&mut self, rows: usize) -> Result<(), NoMemory>
        requires { rows ≤ 1024 }
        ensures ok { OnOk result (rows ≤ self.new.room) }
        ensures err { OnErr result (self.new ≡ self.old) }
        ensures full { IsErr result → self.old.room < rows }
        ensures no_less { self.old.room ≤ self.new.room }
        ensures same { self.new.rows ≡ self.old.rows }
    {
        if self.last.can_have(rows) {
            return self.last.reserve_rows(rows);
        }
        begin_piece_for(&mut self.earlier, &mut self.last, rows)
    }

    /// Adds a row, for which there is room.
    pub(crate) fn push(&mut self, row: BoxRow)
        requires room { 1 ≤ self.old.room }
        requires few { length self.old.rows < 1000000 }
        ensures { self.new ≡ record { rows = self.old.rows ++ row ∷ []; room = self.old.room - 1 } }
    {
        self.last.push(row);
        self.count += 1;
    }
}

/// The place of the piece that alone may have a row with this UID: the last of those that begin at it or below.
fn piece_with(pieces: &[Piece], uid: Uid) -> Option<usize>
    requires rising { AreRising (rows_in pieces.now) }
    requires filled { AreFilled pieces.now }
    ensures some { IfSome result (IsOnlyIn uid.0 pieces.now) }
    ensures none { IsNone result → LacksUid uid.0 (rows_in pieces.now) }
{
    let begun = pieces.partition_point(|piece| piece.begins_by(uid));
    begun.checked_sub(1)
}

/// Removes the row with this UID. A piece that is small then joins its neighbour, so that pieces stay few. Whether there was one.
fn remove_row(earlier: &mut Vec<Piece>, last: &mut Piece, uid: Uid) -> bool
    requires rising { AreRising (rows_in earlier.old.items ++ last.old.rows) }
    requires filled { AreFilled earlier.old.items }
    ensures rows { rows_in earlier.new.items ++ last.new.rows ≡ filter (λ row. not (uid.0 == row.uid.0)) (rows_in earlier.old.items ++ last.old.rows) }
    ensures filled { AreFilled earlier.new.items }
    ensures gone { IsTrue result → length (rows_in earlier.new.items ++ last.new.rows) + 1 ≡ length (rows_in earlier.old.items ++ last.old.rows) }
    ensures kept { result ≡ false → rows_in earlier.new.items ++ last.new.rows ≡ rows_in earlier.old.items ++ last.old.rows }
    ensures room { last.old.room ≤ last.new.room }
{
    if last.begins_by(uid) {
        return last.remove(uid);
    }
    match piece_with(earlier, uid) {
        Some(place) => {
            let removed = remove_in(earlier, place, uid);
            join_next(earlier, place);
            join_next(earlier, place.saturating_sub(1));
            removed
        }
        None => false,
    }
}

/// Removes the row with this UID from this piece, and the piece if it is empty then. Whether there was one.
fn remove_in(pieces: &mut Vec<Piece>, place: usize, uid: Uid) -> bool
    requires rising { AreRising (rows_in pieces.old.items) }
    requires filled { AreFilled pieces.old.items }
    requires only { IsOnlyIn uid.0 pieces.old.items place }
    ensures rows { rows_in pieces.new.items ≡ filter (λ row. not (uid.0 == row.uid.0)) (rows_in pieces.old.items) }
    ensures filled { AreFilled pieces.new.items }
    ensures gone { IsTrue result → length (rows_in pieces.new.items) + 1 ≡ length (rows_in pieces.old.items) }
    ensures kept { result ≡ false → rows_in pieces.new.items ≡ rows_in pieces.old.items }
{
    let removed = pieces[place].remove(uid);
    if pieces[place].is_empty() {
        pieces.remove(place);
    }
    removed
}

/// Joins the next piece to the one at this place, if both are small. It takes no memory.
fn join_next(pieces: &mut Vec<Piece>, place: usize)
    requires { AreFilled pieces.old.items }
    ensures same { rows_in pieces.new.items ≡ rows_in pieces.old.items }
    ensures filled { AreFilled pieces.new.items }
{
    if place < pieces.len().saturating_sub(1) && pieces[place].can_join(&pieces[place + 1]) {
        let next = pieces.remove(place + 1);
        pieces[place].join(next);
    }
}

/// Follows a full piece by one without rows.
fn begin_piece(earlier: &mut Vec<Piece>, last: &mut Piece) -> Result<(), NoMemory>
    requires { 1 ≤ length last.old.rows }
    ensures ok { OnOk result (last.new ≡ record { rows = []; room = 0 }) }
    ensures same { rows_in earlier.new.items ++ last.new.rows ≡ rows_in earlier.old.items ++ last.old.rows }
    ensures filled { AreFilled earlier.old.items → AreFilled earlier.new.items }
    ensures err { OnErr result (last.new ≡ last.old) }
{
    earlier.reserve(1)?;
    let next = Piece::empty(*earlier.allocator());
    earlier.push_reserved(replace(last, next));
    Ok(())
}

/// Follows a piece by one without rows, which has room for so many.
fn begin_piece_for(earlier: &mut Vec<Piece>, last: &mut Piece, rows: usize) -> Result<(), NoMemory>
    requires some { 1 ≤ length last.old.rows }
    requires few { rows ≤ 1024 }
    ensures ok { OnOk result (rows ≤ last.new.room) }
    ensures same { rows_in earlier.new.items ++ last.new.rows ≡ rows_in earlier.old.items ++ last.old.rows }
    ensures filled { AreFilled earlier.old.items → AreFilled earlier.new.items }
    ensures err { OnErr result (last.new ≡ last.old) }
{
    let next = Piece::with_room(*earlier.allocator(), rows)?;
    earlier.reserve(1)?;
    earlier.push_reserved(replace(last, next));
    Ok(())
}
