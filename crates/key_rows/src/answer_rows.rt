//! The rows of an answer.
ghost use Rattle.std.specs.Prelude.{◌≡◌, ◌==◌, [], IfOk, OnErr, OnOk, length, map};
ghost use Rattle.row.specs.{Bags.IsAscending, Cells.row_cmp};
ghost use Rattle.placed_rows.specs.Here.{cells_at};
ghost use Rattle.key_rows.specs.Shared.{AreFew};

use crate::rows::Rows;
use crate::shared::{Place, SharedRows};
use placed_rows::in_place::InPlace;
use row::row::Row;
use std::alloc::{AllocError, Global};
use std::marker::Model;

/// The rows of an answer, seen as the list of them in order. Up to four whose values lie in them are
/// copied, so that who reads them writes to no memory that others read; others are shared. It can be
/// filled again.
pub struct AnswerRows {
    few: [InPlace; 4],
    given: Given,
}

/// Where the rows are.
#[derive(Drop)]
enum Given {
    /// So many of the few.
    Few(usize),
    /// Where copies share them.
    Shared(SharedRows),
}

// What holds one drops it by this call, and need not know its parts.
impl Drop for AnswerRows {
    #[inline]
    fn drop(self) {
        let AnswerRows { few: _, given: _ } = self;
    }
}

impl Model for AnswerRows {
    ghost use Rattle.std.specs.Prelude.{List};
    ghost use Rattle.row.specs.{Cells.Datum, Cells.row_cmp, Bags.IsAscending};
    ghost use Rattle.key_rows.specs.Given.{AreGiven, rows_given};

    ghost Value = { List (List Datum) };

    ghost view = { λ r. rows_given r.few r.given };

    ghost invariant = { λ r. AreGiven r.few r.given × IsAscending row_cmp (rows_given r.few r.given) };
}

impl AnswerRows {
    /// No rows. Takes no memory.
    #[inline]
    pub fn new() -> AnswerRows
        ensures { result ≡ [] }
    {
        AnswerRows {
            few: [InPlace::blank(); 4],
            given: Given::Few(0),
        }
    }

    /// The rows in order, each as often as it is there. Constant time.
    #[inline]
    pub fn iter(&self) -> Rows<'_>
        ensures rows { result ≡ self.now }
        ensures in_order { IsAscending row_cmp self.now }
    {
        match &self.given {
            Given::Few(count) => Rows::few(&self.few[..*count]),
            Given::Shared(rows) => rows.iter(),
        }
    }

    /// How many rows there are, a repeat counted each time. Constant time.
    pub fn len(&self) -> usize
        ensures { result ≡ length self.now }
    {
        match &self.given {
            Given::Few(count) => *count,
            Given::Shared(rows) => rows.len(),
        }
    }

    /// Whether there is no row. Constant time.
    pub fn is_empty(&self) -> bool
        ensures { result ≡ (length self.now == 0) }
    {
        self.len() == 0
    }

    /// The same rows as ones whose values their copies share. Errors: memory only. Cost: that of
    /// `RowView::to_row` for each.
    pub fn to_rows(&self, alloc: Global) -> Result<Vec<Row>, AllocError>
        ensures { IfOk result (λ v. v.items ≡ self.now) }
    {
        let mut rows = Vec::with_capacity(alloc, self.len())?;
        for row in self.iter() {
            rows.push(row.to_row(alloc)?)?;
        }
        Ok(rows)
    }

    // Copies the rows in the place of those that are there.
    #[inline(always)]
    fn copy(&mut self, rows: &[InPlace])
        requires few { AreFew rows.now }
        requires in_order { IsAscending row_cmp (map cells_at rows.now) }
        ensures { self.new ≡ map cells_at rows.now }
    {
        self.few[..rows.len()].copy_from_slice(rows);
        self.given = Given::Few(rows.len());
    }
}

impl SharedRows {
    /// Puts the rows into an answer, in the place of those that are there. Errors: memory only, and rows
    /// that are copied need none; then the answer is as it was. Cost: a copy of up to four rows whose
    /// values lie in them, else that of `try_clone`.
    #[inline(always)]
    pub fn read_into(&self, alloc: Global, rows: &mut AnswerRows) -> Result<(), AllocError>
        ensures ok { OnOk result (rows.new ≡ self.now) }
        ensures err { OnErr result (rows.new ≡ rows.old) }
    {
        match self.place() {
            Place::Few(few) => rows.copy(few),
            Place::List(_) | Place::Pieces(_) => {
                rows.given = Given::Shared(self.try_clone(alloc)?);
            }
        }
        Ok(())
    }
}
