// One piece of the rows of a mailbox.
ghost use Rattle.std.specs.Prelude.{◌≡◌, ◌<◌, ◌≤◌, ◌+◌, ◌-◌, ◌↔◌, ◌++◌, ◌∷◌, [], ◌==◌, IsTrue, IsNone, IsErr, IfOk, IfSome, OnOk, OnErr, false, length, map, filter, find, not, slice_get};
ghost use Rattle.std.specs.List.{HoldsAt};
ghost use Rattle.std.specs.Option.{option_copied};
ghost use Rattle.box_index.specs.Row.{changed_row};
ghost use Rattle.box_index.specs.Pieces.{AreRising, LacksUid, begins_by};

use crate::index::{BoxRow, RowChange};
use mdbox_base::{NoMemory, Uid};
use std::alloc::Global;
use std::marker::Model;

/// How many rows a piece has at the most.
const PIECE_ROWS: usize = 1024;

/// How many rows two pieces have at the most that are joined.
const JOINED_ROWS: usize = 512;

/// Rows of rising UIDs, at most 1,024.
#[derive(Drop)]
pub(crate) struct Piece {
    rows: Vec<BoxRow>,
}

impl Model for Piece {
    ghost use Rattle.std.specs.Prelude.{◌-◌, ◌≤◌, min, vec_len, vec_capacity};
    ghost use Rattle.box_index.specs.Pieces.{HeldRows};

    ghost Value = { HeldRows };

    ghost view = { λ piece. record { rows = piece.rows.items; room = min 1024 (vec_capacity piece.rows) - vec_len piece.rows } };

    ghost invariant = { λ piece. vec_len piece.rows ≤ 1024 };
}

impl Piece {
    /// A piece without rows.
    pub(crate) fn empty(alloc: Global) -> Piece
        ensures { result ≡ record { rows = []; room = 0 } }
    {
        Piece {
            rows: Vec::new(alloc),
        }
    }

    /// The rows in order.
    pub(crate) fn rows(&self) -> &[BoxRow]
        ensures { result.now ≡ self.now.rows }
    {
        &self.rows
    }

    /// How many rows there are.
    pub(crate) fn length(&self) -> usize
        ensures { result ≡ length self.now.rows }
    {
        self.rows.len()
    }

    /// The row at this place, from 0.
    pub(crate) fn row_at(&self, place: usize) -> Option<&BoxRow>
        ensures { option_copied result ≡ slice_get self.now.rows place }
    {
        self.rows.get(place)
    }

    /// Whether there are no rows.
    pub(crate) fn is_empty(&self) -> bool
        ensures { IsTrue result ↔ (length self.now.rows ≡ 0) }
    {
        self.rows.is_empty()
    }

    /// Whether there are as many rows as a piece has at the most.
    pub(crate) fn is_full(&self) -> bool
        ensures full { IsTrue result → self.now.room ≡ 0 }
        ensures some { IsTrue result → 1 ≤ length self.now.rows }
        ensures less { result ≡ false → length self.now.rows < 1024 }
    {
        self.rows.len() == PIECE_ROWS
    }

    /// Whether the first row has this UID or one below.
    pub(crate) fn begins_by(&self, uid: Uid) -> bool
        ensures { result ≡ begins_by uid.0 self.now.rows }
    {
        match self.rows.first() {
            Some(row) => row.uid.0 <= uid.0,
            None => false,
        }
    }

    /// The row with this UID.
    pub(crate) fn find(&self, uid: Uid) -> Option<&BoxRow>
        requires { AreRising self.now.rows }
        ensures { option_copied result ≡ find (λ row. row.uid.0 == uid.0) self.now.rows }
    {
        let place = place_in(&self.rows, uid)?;
        Some(&self.rows[place])
    }

    /// Changes the row with this UID.
    pub(crate) fn change(&mut self, uid: Uid, change: RowChange)
        requires { AreRising self.old.rows }
        ensures { self.new ≡ record self.old { rows = map (changed_row uid.0 change) self.old.rows } }
    {
        if let Some(place) = place_in(&self.rows, uid) {
            self.rows[place].change(change);
        }
    }

    /// Removes the row with this UID. Whether there was one.
    pub(crate) fn remove(&mut self, uid: Uid) -> bool
        requires { AreRising self.old.rows }
        ensures rows { self.new.rows ≡ filter (λ row. not (uid.0 == row.uid.0)) self.old.rows }
        ensures gone { IsTrue result → length self.new.rows + 1 ≡ length self.old.rows }
        ensures kept { result ≡ false → self.new ≡ self.old }
        ensures room { self.old.room ≤ self.new.room }
    {
        match place_in(&self.rows, uid) {
            Some(place) => {
                self.rows.remove(place);
                true
            }
            None => false,
        }
    }

    /// Makes room for one row at least.
    pub(crate) fn reserve(&mut self) -> Result<(), NoMemory>
        requires { length self.old.rows < 1024 }
        ensures ok { OnOk result (1 ≤ self.new.room) }
        ensures err { OnErr result (self.new ≡ self.old) }
        ensures full { IsErr result → self.old.room ≡ 0 }
        ensures no_less { self.old.room ≤ self.new.room }
        ensures same { self.new.rows ≡ self.old.rows }
    {
        self.rows.reserve(1)?;
        Ok(())
    }

    /// A piece without rows, with room for so many, of which a piece can have no more.
    pub(crate) fn with_room(alloc: Global, rows: usize) -> Result<Piece, NoMemory>
        requires { rows ≤ 1024 }
        ensures rows { IfOk result (λ piece. piece.rows ≡ []) }
        ensures room { IfOk result (λ piece. rows ≤ piece.room) }
    {
        Ok(Piece {
            rows: Vec::with_capacity(alloc, rows)?,
        })
    }

    /// Whether so many rows can be added, as far as the number of a piece's rows goes.
    pub(crate) fn can_have(&self, more: usize) -> bool
        requires { more ≤ 1024 }
        ensures yes { IsTrue result → length self.now.rows + more ≤ 1024 }
        ensures some { result ≡ false → 1 ≤ length self.now.rows }
        ensures room { result ≡ false → self.now.room < more }
    {
        more <= PIECE_ROWS - self.rows.len()
    }

    /// Makes room for so many rows at least.
    pub(crate) fn reserve_rows(&mut self, rows: usize) -> Result<(), NoMemory>
        requires { length self.old.rows + rows ≤ 1024 }
        ensures ok { OnOk result (rows ≤ self.new.room) }
        ensures err { OnErr result (self.new ≡ self.old) }
        ensures full { IsErr result → self.old.room < rows }
        ensures no_less { self.old.room ≤ self.new.room }
        ensures same { self.new.rows ≡ self.old.rows }
    {
        self.rows.reserve(rows)?;
        Ok(())
    }

    /// Adds a row, for which there is room.
    pub(crate) fn push(&mut self, row: BoxRow)
        requires { 1 ≤ self.old.room }
        ensures { self.new ≡ record { rows = self.old.rows ++ row ∷ []; room = self.old.room - 1 } }
    {
        self.rows.push_reserved(row);
    }

    /// Whether the next piece may be joined to this one: both are small, and there is room.
    pub(crate) fn can_join(&self, next: &Piece) -> bool
        ensures { IsTrue result → length next.now.rows ≤ self.now.room }
    {
        let both = self.rows.len() + next.rows.len();
        both <= JOINED_ROWS && both <= self.rows.capacity()
    }

    /// Adds the rows of the next piece, for which there is room.
    pub(crate) fn join(&mut self, mut next: Piece)
        requires { length next.rows ≤ self.old.room }
        ensures { self.new.rows ≡ self.old.rows ++ next.rows }
    {
        let Ok(()) = self.rows.append(&mut next.rows) else {
            unreachable!()
        };
    }
}

/// The place of the row with this UID.
fn place_in(rows: &[BoxRow], uid: Uid) -> Option<usize>
    requires { AreRising rows.now }
    ensures within { IfSome result (λ place. place < length rows.now) }
    ensures some { IfSome result (HoldsAt (λ row. row.uid.0 ≡ uid.0) rows.now) }
    ensures none { IsNone result → LacksUid uid.0 rows.now }
{
    let place = rows.partition_point(|row| row.uid.0 < uid.0);
    match rows.get(place) {
        Some(row) if row.uid.0 == uid.0 => Some(place),
        _ => None,
    }
}
