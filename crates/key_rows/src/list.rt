//! Rows in order that are being changed.
ghost use Rattle.std.specs.Prelude.{◌≡◌, ◌<◌, ◌≤◌, ◌↔◌, IfOk, IsTrue, OnOk, length, take, drop, true, false};
ghost use Rattle.std.specs.Ordering.{is_gt};
ghost use Rattle.std.specs.List.Sorted.{IsPartitionPoint};
ghost use Rattle.row.specs.{Bags.IsAscending, Bags.inserted, Bags.removed, Bags.times, Cells.row_cmp};

use crate::rows::Rows;
use placed_rows::placed::PlacedRow;
use row::row::Row;
use std::alloc::{AllocError, Global};
use std::marker::Model;

/// Rows in order, each as often as it is there.
pub(crate) struct PlacedRows {
    rows: Vec<PlacedRow>,
}

// What holds one drops it by this call, and need not know its parts.
impl Drop for PlacedRows {
    fn drop(self) {
        let PlacedRows { rows: _ } = self;
    }
}

impl Model for PlacedRows {
    ghost use Rattle.std.specs.Prelude.{List};
    ghost use Rattle.row.specs.{Cells.Datum, Cells.row_cmp, Bags.IsAscending};

    ghost Value = { List (List Datum) };

    ghost view = { λ r. r.rows.items };

    ghost invariant = { λ r. IsAscending row_cmp r.rows.items };
}

impl PlacedRows {
    /// These rows, which are in order. Errors: memory only. Cost: that of `PlacedRow::of` for each.
    pub(crate) fn of(alloc: Global, rows: &[Row]) -> Result<PlacedRows, AllocError>
        requires { IsAscending row_cmp rows.now }
        ensures { IfOk result (λ r. r ≡ rows.now) }
    {
        let mut placed = Vec::with_capacity(alloc, rows.len())?;
        for row in rows {
            placed.push(PlacedRow::of(alloc, row)?)?;
        }
        Ok(PlacedRows { rows: placed })
    }

    /// A copy of these rows, which are in order, with room for so many. Errors: memory only. Cost:
    /// that of `RowView::to_placed` for each.
    pub(crate) fn copied(
        alloc: Global,
        rows: Rows<'_>,
        room: usize,
    ) -> Result<PlacedRows, AllocError>
        requires { IsAscending row_cmp rows }
        ensures { IfOk result (λ r. r ≡ rows.entry) }
    {
        let mut copies = Vec::with_capacity(alloc, room)?;
        for row in rows {
            copies.push(row.to_placed(alloc)?)?;
        }
        Ok(PlacedRows { rows: copies })
    }

    /// How many rows there are.
    pub(crate) fn len(&self) -> usize
        ensures rows { result ≡ length self.now }
        ensures in_order { IsAscending row_cmp self.now }
    {
        self.rows.len()
    }

    /// Moves the rows from this place on out of it. Errors: memory only; then all is as it was.
    pub(crate) fn split_off(&mut self, at: usize) -> Result<PlacedRows, AllocError>
        requires { at ≤ length self.old }
        ensures front { OnOk result (self.new ≡ take at self.old) }
        ensures back { IfOk result (λ b. b ≡ drop at self.old) }
    {
        let rows = self.rows.split_off(at)?;
        Ok(PlacedRows { rows })
    }

    /// The rows, moved out of it.
    pub(crate) fn into_rows(self) -> Vec<PlacedRow>
        ensures rows { result.items ≡ self }
        ensures in_order { IsAscending row_cmp self }
    {
        let PlacedRows { rows } = self;
        rows
    }

    /// Adds one of the row. Errors: memory only; then all is as it was. Finds the place by halves, and
    /// moves the rows behind it.
    pub(crate) fn add(&mut self, row: PlacedRow) -> Result<(), AllocError>
        ensures { OnOk result (self.new ≡ inserted row_cmp row self.old) }
    {
        let at = place(&self.rows, &row);
        self.rows.insert(at, row)?;
        Ok(())
    }

    /// Takes away one of the row, where it is there. Finds the place by halves, and moves the rows
    /// behind it.
    pub(crate) fn take_away(&mut self, row: &PlacedRow)
        ensures { self.new ≡ removed row_cmp row.now self.old }
    {
        let at = place(self.as_slice(), row);
        if self.has_at(at, row) {
            self.take_at(at, row);
        }
    }

    // The rows in order.
    fn as_slice(&self) -> &[PlacedRow]
        ensures rows { result.now ≡ self.now }
        ensures in_order { IsAscending row_cmp self.now }
    {
        &self.rows
    }

    // Whether the row is there at least once, given the place where it would be.
    fn has_at(&self, at: usize, row: &PlacedRow) -> bool
        requires small { at ≤ length self.now }
        requires place { IsPartitionPoint (λ y. is_gt (row_cmp row.now y) ≡ true)
            (λ y. is_gt (row_cmp row.now y) ≡ false) self.now at }
        ensures { IsTrue result ↔ 0 < times row_cmp row.now self.now }
    {
        let rows = self.as_slice();
        at < rows.len() && row.compare(&rows[at]).is_eq()
    }

    // Takes away one of the row, which is there from this place on.
    fn take_at(&mut self, at: usize, row: &PlacedRow)
        requires small { at ≤ length self.old }
        requires place { IsPartitionPoint (λ y. is_gt (row_cmp row.now y) ≡ true)
            (λ y. is_gt (row_cmp row.now y) ≡ false) self.old at }
        requires there { 0 < times row_cmp row.now self.old }
        ensures { self.new ≡ removed row_cmp row.now self.old }
    {
        self.rows.remove(at);
    }
}

/// Where the rows that are below the given one end, in rows that are in order.
fn place(rows: &[PlacedRow], row: &PlacedRow) -> usize
    requires { IsAscending row_cmp rows.now }
    ensures small { result ≤ length rows.now }
    ensures place { IsPartitionPoint (λ y. is_gt (row_cmp row.now y) ≡ true)
        (λ y. is_gt (row_cmp row.now y) ≡ false) rows.now result }
{
    rows.partition_point(|other| row.compare(other).is_gt())
}
