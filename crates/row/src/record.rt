//! A change of a bag: one row more, or one row less.
ghost use Rattle.std.specs.Prelude.{◌≡◌, IfOk};

use crate::row::Row;
use std::alloc::{AllocError, Global};

/// Whether a change adds its row or takes it away.
#[derive(Clone, Copy, Debug, PartialEq, Eq)]
pub enum Sign {
    /// One more of the row.
    Plus,
    /// One less of the row.
    Minus,
}

/// A row with a sign: one change of a bag of rows.
#[derive(Debug, Drop)]
pub struct Record {
    /// The row that the change adds or takes away.
    pub row: Row,
    /// Which of the two it does.
    pub sign: Sign,
}

impl Record {
    /// The same record. Errors: memory only. Cost: that of `Row::try_clone`.
    pub fn try_clone(&self, alloc: Global) -> Result<Record, AllocError>
        ensures { IfOk result (λ r. r ≡ self.now) }
    {
        Ok(Record {
            row: self.row.try_clone(alloc)?,
            sign: self.sign,
        })
    }
}
