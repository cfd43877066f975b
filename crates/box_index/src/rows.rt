// A walk over the rows of a mailbox.
ghost use Rattle.std.specs.Prelude.{◌≡◌, ◌++◌};
ghost use Rattle.box_index.specs.Pieces.{rows_in, AreFilled};

use crate::index::BoxRow;
use crate::piece::Piece;
use std::marker::Model;

/// The listed messages that are left of a walk in UID order.
#[derive(Drop)]
pub struct BoxRows<'a> {
    /// What is left of the piece in hand.
    piece: &'a [BoxRow],
    /// The pieces after it, but for the last one.
    earlier: &'a [Piece],
    last: &'a [BoxRow],
}

impl<'a> Model for BoxRows<'a> {
    ghost use Rattle.std.specs.Prelude.{◌++◌, List};
    ghost use Rattle.box_index.specs.declared.index.BoxRow.{BoxRow};
    ghost use Rattle.box_index.specs.Pieces.{rows_in, AreFilled};

    ghost Value = { List BoxRow };

    ghost view = { λ rows. rows.piece.now ++ (rows_in rows.earlier.now ++ rows.last.now) };

    ghost invariant = { λ rows. AreFilled rows.earlier.now };
}

impl<'a> BoxRows<'a> {
    /// A walk over these pieces and the last one.
    pub(crate) fn of(earlier: &'a [Piece], last: &'a [BoxRow]) -> BoxRows<'a>
        requires { AreFilled earlier.now }
        ensures { result ≡ rows_in earlier.now ++ last.now }
    {
        BoxRows {
            piece: &last[..0],
            earlier,
            last,
        }
    }
}

impl<'a> Iterator for BoxRows<'a> {
    type Item = &'a BoxRow;

    ghost use Rattle.std.specs.Iterator.{YieldsFirstRef, item_count};

    ghost next_gives = { YieldsFirstRef (λ rows. rows) };

    ghost remaining = { item_count (λ rows. rows) };

    fn next(&mut self) -> Option<&'a BoxRow> {
        if self.piece.is_empty() {
            match self.earlier.split_first() {
                Some((piece, earlier)) => {
                    self.piece = piece.rows();
                    self.earlier = earlier;
                }
                None => {
                    self.piece = self.last;
                    self.last = &self.last[..0];
                }
            }
        }
        let (row, rest) = self.piece.split_first()?;
        self.piece = rest;
        Some(row)
    }
}
