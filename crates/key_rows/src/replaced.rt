//! One of a few rows in the place of another.
ghost use Rattle.std.specs.Prelude.{◌≡◌, ◌+◌, ◌-◌, ◌<◌, IfSome, IsTrue, List, false, get_or, length, map, slice_set};
ghost use Rattle.std.specs.Ordering.{is_gt};
ghost use Rattle.row.specs.{BagChanges.with_records, Bags.Each, Bags.IsAscending, Bags.inserted, Bags.removed, Cells.Cells, Cells.row_cmp};
ghost use Rattle.placed_rows.specs.Here.{cells_at, IsWhole};

use placed_rows::in_place::InPlace;
use placed_rows::row_view::RowView;
use row::record::{Record, Sign};
use row::row::Row;

/// The row that goes and the row that comes, where the records are of one of each.
pub(crate) fn pair(records: &[Record]) -> Option<(&Row, &Row)>
    ensures { IfSome result (λ p. (rows : List Cells) → with_records rows records.now
        ≡ removed row_cmp p.0.now (inserted row_cmp p.1.now rows)) }
{
    if records.len() != 2 {
        return None;
    }
    match (records[0].sign, records[1].sign) {
        (Sign::Minus, Sign::Plus) => Some((&records[0].row, &records[1].row)),
        (Sign::Plus, Sign::Minus) => Some((&records[1].row, &records[0].row)),
        _ => None,
    }
}

/// The place of the row that goes and the row that comes, where the values of both lie in them, and it
/// stands there in order. Takes no memory. Cost: a look at each value of both, at each row up to the place,
/// and up to two comparisons.
pub(crate) fn replacing(rows: &[InPlace], gone: &Row, come: &Row) -> Option<(usize, InPlace)>
    requires each { Each IsWhole rows.now }
    requires in_order { IsAscending row_cmp (map cells_at rows.now) }
    ensures small { IfSome result (λ p. p.0 < length rows.now) }
    ensures whole { IfSome result (λ p. IsWhole p.1) }
    ensures rows { IfSome result (λ p. slice_set (map cells_at rows.now) p.0 (cells_at p.1)
        ≡ removed row_cmp gone.now (inserted row_cmp come.now (map cells_at rows.now))) }
{
    let gone = InPlace::of(gone)?;
    let come = InPlace::of(come)?;
    let at = place(rows, &gone)?;
    if follows(rows, at, &come) && precedes(rows, at, &come) {
        Some((at, come))
    } else {
        None
    }
}

/// A place where the row is, if one was found.
fn place(rows: &[InPlace], row: &InPlace) -> Option<usize>
    ensures small { IfSome result (λ at. at < length rows.now) }
    ensures is { IfSome result (λ at. cells_at (get_or rows.now at row.now) ≡ cells_at row.now) }
{
    for at in 0..rows.len() {
        if rows[at].lies_as(row) {
            return Some(at);
        }
    }
    None
}

/// Whether the row is no lower than the one before the place.
fn follows(rows: &[InPlace], at: usize, row: &InPlace) -> bool
    requires small { at < length rows.now }
    requires each { Each IsWhole rows.now }
    requires whole { IsWhole row.now }
    ensures { IsTrue result → 0 < at → is_gt (row_cmp
        (cells_at (get_or rows.now (at - 1) row.now)) (cells_at row.now)) ≡ false }
{
    at == 0
        || !RowView::here(&rows[at - 1])
            .compare(&RowView::here(row))
            .is_gt()
}

/// Whether the row is no higher than the one behind the place.
fn precedes(rows: &[InPlace], at: usize, row: &InPlace) -> bool
    requires small { at < length rows.now }
    requires each { Each IsWhole rows.now }
    requires whole { IsWhole row.now }
    ensures { IsTrue result → at + 1 < length rows.now → is_gt (row_cmp (cells_at row.now)
        (cells_at (get_or rows.now (at + 1) row.now))) ≡ false }
{
    at + 1 >= rows.len()
        || !RowView::here(row)
            .compare(&RowView::here(&rows[at + 1]))
            .is_gt()
}
