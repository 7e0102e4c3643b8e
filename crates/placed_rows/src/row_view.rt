//! A row where it lies.
ghost use Rattle.std.specs.Prelude.{◌≡◌, ◌<◌, IfOk, IfSome, Some, length, slice_get};
ghost use Rattle.std.specs.Option.{option_map};
ghost use Rattle.row.specs.{Cells.row_cmp, Packed.order_of};
ghost use Rattle.placed_rows.specs.{Parts.cells_of, Values.datum_at, Here.cells_at, Here.IsWhole};

use crate::field::Field;
use crate::in_place::{InPlace, Parts};
use crate::placed::PlacedRow;
use row::row::Row;
use std::alloc::{AllocError, Global};
use std::cmp::Ordering;
use std::marker::Model;

/// A row where it lies, seen as its values.
#[derive(Drop)]
pub struct RowView<'a> {
    place: Seen<'a>,
}

/// Where the values lie.
#[derive(Clone, Copy)]
enum Seen<'a> {
    /// In the row.
    Here(&'a InPlace),
    /// As a `Row` has them.
    Apart(&'a Row),
}

impl<'a> Model for RowView<'a> {
    ghost use Rattle.std.specs.Prelude.{List};
    ghost use Rattle.row.specs.Cells.{Datum};
    ghost use Rattle.placed_rows.specs.Seen.{values_seen, IsSeen};

    ghost Value = { List Datum };

    ghost view = { λ r. values_seen r.place };

    ghost invariant = { λ r. IsSeen r.place };
}

impl<'a> RowView<'a> {
    /// The row, whose values lie in it.
    #[inline]
    pub fn here(row: &'a InPlace) -> RowView<'a>
        requires { IsWhole row.now }
        ensures { result ≡ cells_at row.now }
    {
        RowView {
            place: Seen::Here(row),
        }
    }

    /// The row as it is.
    #[inline]
    pub(crate) fn apart(row: &'a Row) -> RowView<'a>
        ensures { result ≡ row.now }
    {
        RowView {
            place: Seen::Apart(row),
        }
    }

    /// The same row in a place of its own. Errors: memory only, and a row whose values lie in it needs
    /// none. Cost: a copy of 48 bytes, or that of `Row::try_clone` where it is kept so.
    pub fn to_placed(&self, alloc: Global) -> Result<PlacedRow, AllocError>
        ensures { IfOk result (λ r. r ≡ self.now) }
    {
        match self.place {
            Seen::Here(row) => Ok(PlacedRow::here(*row)),
            Seen::Apart(row) => PlacedRow::apart(alloc, row),
        }
    }

    /// How many values the row has. Constant time.
    pub fn width(&self) -> usize
        ensures { result ≡ length self.now }
    {
        match self.place {
            Seen::Here(row) => row.width(),
            Seen::Apart(row) => row.width(),
        }
    }

    /// The value in the column, if the row has that column. Constant time.
    #[inline]
    pub fn get(&self, column: usize) -> Option<Field<'a>>
        ensures { option_map datum_at result ≡ slice_get self.now column }
    {
        match self.place {
            Seen::Here(row) => row.get(column),
            Seen::Apart(row) => match row.get(column) {
                Some(cell) => Some(Field::Cell(cell)),
                None => None,
            },
        }
    }

    /// The value in a column that the row has. Constant time.
    pub fn field(&self, at: usize) -> Field<'a>
        requires { at < length self.now }
        ensures { slice_get self.now at ≡ Some (datum_at result) }
    {
        self.get(at).unwrap()
    }

    // How the value in the column stands to that of the other row, where both have the column.
    #[inline]
    fn order_at(&self, other: &RowView<'_>, at: usize) -> Option<Ordering>
        ensures { result ≡ order_of (slice_get self.now at) (slice_get other.now at) }
    {
        match (self.get(at), other.get(at)) {
            (Some(field), Some(other)) => Some(field.compare(&other)),
            _ => None,
        }
    }

    // How the row stands to the other, column by column and then by length.
    fn compare_columns(&self, other: &RowView<'_>) -> Ordering
        ensures { result ≡ row_cmp self.now other.now }
    {
        for at in 0..self.width() {
            let Some(order) = self.order_at(other, at) else {
                return Ordering::Greater;
            };
            if !order.is_eq() {
                return order;
            }
        }
        if self.width() < other.width() {
            Ordering::Less
        } else {
            Ordering::Equal
        }
    }

    // The numbers and the text, where they lie in the row.
    #[inline]
    fn parts(&self) -> Option<Parts<'a>>
        ensures { IfSome result (λ p. self.now ≡ cells_of p) }
    {
        match self.place {
            Seen::Here(row) => Some(row.parts()),
            Seen::Apart(_) => None,
        }
    }

    /// How the row stands to the other: value by value, and then by length. Takes no memory.
    pub fn compare(&self, other: &RowView<'_>) -> Ordering
        ensures { result ≡ row_cmp self.now other.now }
    {
        match (self.parts(), other.parts()) {
            (Some(parts), Some(others)) if parts.before() == others.before() => {
                parts.compare(others)
            }
            _ => self.compare_columns(other),
        }
    }

    /// The same row as one whose values its copies share. Errors: memory only. Cost: that of
    /// `Row::new`, or of `Row::try_clone` where it is kept so.
    pub fn to_row(&self, alloc: Global) -> Result<Row, AllocError>
        ensures { IfOk result (λ r. r ≡ self.now) }
    {
        if let Seen::Apart(row) = self.place {
            return row.try_clone(alloc);
        }
        let mut values = Vec::with_capacity(alloc, self.width())?;
        for at in 0..self.width() {
            values.push(self.field(at).to_value(alloc)?)?;
        }
        Row::new(alloc, values)
    }
}
