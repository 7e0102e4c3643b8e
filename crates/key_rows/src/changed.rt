//! The rows of a key that are being changed.
ghost use Rattle.std.specs.Prelude.{◌≡◌, OnOk};
ghost use Rattle.row.specs.{BagChanges.minus_applied, BagChanges.plus_applied, BagChanges.with_gains, BagChanges.with_losses, BagChanges.with_records, Bags.inserted, Bags.removed, Cells.row_cmp};
ghost use Rattle.key_rows.specs.Changed.{rows_kept};

use crate::list::PlacedRows;
use crate::pieces::PiecedRows;
use placed_rows::placed::PlacedRow;
use row::record::{Record, Sign};
use std::alloc::{AllocError, Global};
use std::marker::Model;

/// Rows in order, each as often as it is there.
pub(crate) struct ChangedRows {
    kept: Kept,
}

/// Where the rows are kept.
#[derive(Drop)]
pub(crate) enum Kept {
    /// In one place.
    List(PlacedRows),
    /// In pieces.
    Pieces(PiecedRows),
}

// What holds one drops it by this call, and need not know its parts.
impl Drop for ChangedRows {
    fn drop(self) {
        let ChangedRows { kept: _ } = self;
    }
}

impl Model for ChangedRows {
    ghost use Rattle.std.specs.Prelude.{List};
    ghost use Rattle.row.specs.Cells.{Datum};
    ghost use Rattle.key_rows.specs.Changed.{rows_kept};

    ghost Value = { List (List Datum) };

    ghost view = { λ r. rows_kept r.kept };
}

impl ChangedRows {
    /// These rows, in one place.
    pub(crate) fn list(rows: PlacedRows) -> ChangedRows
        ensures { result ≡ rows }
    {
        ChangedRows {
            kept: Kept::List(rows),
        }
    }

    /// These rows, in pieces.
    pub(crate) fn pieces(rows: PiecedRows) -> ChangedRows
        ensures { result ≡ rows }
    {
        ChangedRows {
            kept: Kept::Pieces(rows),
        }
    }

    /// The rows where they are kept, moved out of it.
    pub(crate) fn into_kept(self) -> Kept
        ensures { rows_kept result ≡ self }
    {
        let ChangedRows { kept } = self;
        kept
    }

    /// Applies the records as one change, as `Bag::apply` does. Errors: memory only; how far it came
    /// is then not said.
    pub(crate) fn apply(&mut self, alloc: Global, records: &[Record]) -> Result<(), AllocError>
        ensures { OnOk result (self.new ≡ with_records self.old records.now) }
    {
        self.gain_all(alloc, records)?;
        self.lose_all(alloc, records)
    }

    // Adds the rows that the records add.
    fn gain_all(&mut self, alloc: Global, records: &[Record]) -> Result<(), AllocError>
        ensures { OnOk result (self.new ≡ with_gains self.old records.now) }
    {
        for signed in records {
            self.gain(alloc, signed)?;
        }
        Ok(())
    }

    // Adds the record's row, where the record adds it.
    fn gain(&mut self, alloc: Global, signed: &Record) -> Result<(), AllocError>
        ensures { OnOk result (self.new ≡ plus_applied signed.now.sign signed.now.row self.old) }
    {
        match signed.sign {
            Sign::Plus => self.add(alloc, PlacedRow::of(alloc, &signed.row)?),
            Sign::Minus => Ok(()),
        }
    }

    // Adds one of the row.
    fn add(&mut self, alloc: Global, row: PlacedRow) -> Result<(), AllocError>
        ensures { OnOk result (self.new ≡ inserted row_cmp row self.old) }
    {
        match &mut self.kept {
            Kept::List(rows) => rows.add(row),
            Kept::Pieces(rows) => rows.add(alloc, row),
        }
    }

    // Takes away the rows that the records take away.
    fn lose_all(&mut self, alloc: Global, records: &[Record]) -> Result<(), AllocError>
        ensures { OnOk result (self.new ≡ with_losses self.old records.now) }
    {
        for signed in records {
            self.lose(alloc, signed)?;
        }
        Ok(())
    }

    // Takes away the record's row, where the record takes it away and it is there.
    fn lose(&mut self, alloc: Global, signed: &Record) -> Result<(), AllocError>
        ensures { OnOk result (self.new ≡ minus_applied signed.now.sign signed.now.row self.old) }
    {
        match signed.sign {
            Sign::Plus => Ok(()),
            Sign::Minus => self.take_away(alloc, &PlacedRow::of(alloc, &signed.row)?),
        }
    }

    // Takes away one of the row, where it is there.
    fn take_away(&mut self, alloc: Global, row: &PlacedRow) -> Result<(), AllocError>
        ensures { OnOk result (self.new ≡ removed row_cmp row.now self.old) }
    {
        match &mut self.kept {
            Kept::List(rows) => {
                rows.take_away(row);
                Ok(())
            }
            Kept::Pieces(rows) => rows.take_away(alloc, row),
        }
    }
}
