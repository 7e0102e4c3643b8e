//! A row whose values lie in it, where they can.
ghost use Rattle.std.specs.Prelude.{◌≡◌, IfOk, IfSome};
ghost use Rattle.row.specs.Cells.{row_cmp};
ghost use Rattle.placed_rows.specs.Here.{cells_at, IsWhole};

use crate::in_place::InPlace;
use crate::row_view::RowView;
use row::row::Row;
use std::alloc::{AllocError, Global};
use std::cmp::Ordering;
use std::marker::Model;

/// A row, seen as its values. Where one of its up to four values is a text of at most 24 bytes, and the
/// others are whole numbers below 2^32, all lie in the row itself, so that who reads it goes to no other
/// memory, and a copy takes none.
pub struct PlacedRow {
    place: Place,
}

/// Where the values lie.
#[derive(Drop)]
enum Place {
    /// In the row.
    Here(InPlace),
    /// As a `Row` has them.
    Apart(Row),
}

// What holds one drops it by this call, and need not know its parts.
impl Drop for PlacedRow {
    fn drop(self) {
        let PlacedRow { place: _ } = self;
    }
}

impl Model for PlacedRow {
    ghost use Rattle.std.specs.Prelude.{List};
    ghost use Rattle.row.specs.Cells.{Datum};
    ghost use Rattle.placed_rows.specs.Placed.{values_in, IsPlaced};

    ghost Value = { List Datum };

    ghost view = { λ r. values_in r.place };

    ghost invariant = { λ r. IsPlaced r.place };
}

impl PlacedRow {
    /// The same row. Errors: memory only, and a row whose values lie in it needs none. Cost: a look at
    /// each value.
    pub fn of(alloc: Global, row: &Row) -> Result<PlacedRow, AllocError>
        ensures { IfOk result (λ r. r ≡ row.now) }
    {
        match InPlace::of(row) {
            Some(row) => Ok(PlacedRow::here(row)),
            None => PlacedRow::apart(alloc, row),
        }
    }

    /// The row, whose values lie in it. Takes no memory.
    #[inline]
    pub(crate) fn here(row: InPlace) -> PlacedRow
        requires { IsWhole row }
        ensures { result ≡ cells_at row }
    {
        PlacedRow {
            place: Place::Here(row),
        }
    }

    /// The row as it is. Errors: memory only.
    pub(crate) fn apart(alloc: Global, row: &Row) -> Result<PlacedRow, AllocError>
        ensures { IfOk result (λ r. r ≡ row.now) }
    {
        Ok(PlacedRow {
            place: Place::Apart(row.try_clone(alloc)?),
        })
    }

    /// The row where it lies.
    #[inline]
    pub fn view(&self) -> RowView<'_>
        ensures { result ≡ self.now }
    {
        match &self.place {
            Place::Here(row) => RowView::here(row),
            Place::Apart(row) => RowView::apart(row),
        }
    }

    /// The row, where its values lie in it.
    #[inline]
    pub fn in_place(&self) -> Option<InPlace>
        ensures { IfSome result (λ r. (cells_at r ≡ self.now) × IsWhole r) }
    {
        match &self.place {
            Place::Here(row) => Some(*row),
            Place::Apart(_) => None,
        }
    }

    /// How the row stands to the other: value by value, and then by length. Takes no memory.
    pub fn compare(&self, other: &PlacedRow) -> Ordering
        ensures { result ≡ row_cmp self.now other.now }
    {
        self.view().compare(&other.view())
    }
}
