//! The rows of a key, one after another.
ghost use Rattle.std.specs.Prelude.{◌≡◌, length, map};
ghost use Rattle.std.specs.Iterator.{at_most};
ghost use Rattle.std.specs.Map.Iter.{TakesFirst};
ghost use Rattle.row.specs.Bags.{Each, joined};
ghost use Rattle.placed_rows.specs.Here.{cells_at, IsWhole};

use crate::pieces::Piece;
use placed_rows::in_place::InPlace;
use placed_rows::placed::PlacedRow;
use placed_rows::row_view::RowView;
use std::marker::Model;
use std::slice::Iter;

/// The rows of a key in order, seen as the list of those that are left. The next one takes constant
/// time.
#[derive(Drop)]
pub struct Rows<'a> {
    few: Iter<'a, InPlace>,
    rows: Iter<'a, PlacedRow>,
    pieces: Iter<'a, Piece>,
}

impl<'a> Model for Rows<'a> {
    ghost use Rattle.std.specs.Prelude.{List, ◌++◌, map};
    ghost use Rattle.std.specs.Slice.Iter.{iter_rest};
    ghost use Rattle.row.specs.{Cells.Datum, Bags.Each, Bags.joined};
    ghost use Rattle.placed_rows.specs.Here.{cells_at, IsWhole};

    ghost Value = { List (List Datum) };

    ghost view = { λ r. map cells_at (iter_rest r.few)
        ++ (iter_rest r.rows ++ joined (iter_rest r.pieces)) };

    ghost invariant = { λ r. Each IsWhole (iter_rest r.few) };
}

impl<'a> Rows<'a> {
    /// These rows, whose values lie in them.
    #[inline]
    pub(crate) fn few(few: &'a [InPlace]) -> Rows<'a>
        requires { Each IsWhole few.now }
        ensures { result ≡ map cells_at few.now }
    {
        let rows: &[PlacedRow] = &[];
        let pieces: &[Piece] = &[];
        Rows {
            few: few.iter(),
            rows: rows.iter(),
            pieces: pieces.iter(),
        }
    }

    /// These rows.
    #[inline]
    pub(crate) fn of(rows: &'a [PlacedRow]) -> Rows<'a>
        ensures { result ≡ rows.now }
    {
        let few: &[InPlace] = &[];
        let pieces: &[Piece] = &[];
        Rows {
            few: few.iter(),
            rows: rows.iter(),
            pieces: pieces.iter(),
        }
    }

    /// The rows of these pieces.
    #[inline]
    pub(crate) fn of_pieces(pieces: &'a [Piece]) -> Rows<'a>
        ensures { result ≡ joined pieces.now }
    {
        let few: &[InPlace] = &[];
        let rows: &[PlacedRow] = &[];
        Rows {
            few: few.iter(),
            rows: rows.iter(),
            pieces: pieces.iter(),
        }
    }
}

impl<'a> Iterator for Rows<'a> {
    type Item = RowView<'a>;

    ghost next_gives = { TakesFirst (λ r. r) };

    ghost remaining = { λ s. at_most (length s) };

    #[inline]
    fn next(&mut self) -> Option<RowView<'a>> {
        if let Some(row) = self.few.next() {
            return Some(RowView::here(row));
        }
        if let Some(row) = self.rows.next() {
            return Some(row.view());
        }
        self.rows = self.pieces.next()?.iter();
        match self.rows.next() {
            Some(row) => Some(row.view()),
            None => None,
        }
    }
}
