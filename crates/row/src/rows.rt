//! The places of the rows of a bag.
ghost use Rattle.std.specs.Prelude.{◌≡◌, ◌<◌, ◌≤◌, ◌∷◌, [], box_value, length, insert, remove, IfOk, OnOk, OnErr};
ghost use Rattle.row.specs.Held.{rows_in};

use crate::row::Row;
use std::alloc::{AllocError, Global};
use std::{mem, slice};

/// A list of rows. Up to one takes no memory.
#[derive(Debug, Drop)]
pub(crate) enum Rows {
    None,
    One(Row),
    Many(Vec<Row>),
}

impl Rows {
    /// These rows. Takes no memory. Constant time.
    pub(crate) fn of(mut rows: Vec<Row>) -> Rows
        ensures { rows_in result ≡ rows.items }
    {
        if rows.len() > 1 {
            return Rows::Many(rows);
        }
        match rows.pop() {
            Some(row) => Rows::One(row),
            None => Rows::None,
        }
    }

    /// The rows, in order. Constant time.
    pub(crate) fn as_slice(&self) -> &[Row]
        ensures value { result.now ≡ rows_in self.now }
        ensures len { length result.now ≡ length (rows_in self.now) }
    {
        match self {
            Rows::None => &[],
            Rows::One(row) => slice::from_ref(row),
            Rows::Many(rows) => rows.as_slice(),
        }
    }

    /// Puts the row in a place, and those from there on behind it. A list that is full gets room for a
    /// sixteenth more than it has, and one besides. Errors: memory only; then the rows are as they were.
    /// Cost: a move of the rows behind, and where the list is full one of all, spread over many.
    pub(crate) fn insert(&mut self, alloc: Global, at: usize, row: Row) -> Result<(), AllocError>
        requires { at ≤ length (rows_in self.old) }
        ensures items { OnOk result (rows_in self.new ≡ insert (rows_in self.old) at row) }
        ensures err { OnErr result (rows_in self.new ≡ rows_in self.old) }
    {
        match self {
            Rows::None => {
                *self = Rows::One(row);
                Ok(())
            }
            Rows::One(_) => {
                let mut rows = Vec::with_capacity(alloc, 2)?;
                if let Rows::One(other) = mem::replace(self, Rows::None) {
                    rows.push_reserved(other);
                }
                rows.insert(at, row)?;
                *self = Rows::Many(rows);
                Ok(())
            }
            Rows::Many(rows) => {
                if rows.len() == rows.capacity() {
                    grow(alloc, rows)?;
                }
                rows.insert(at, row)?;
                Ok(())
            }
        }
    }

    /// Room for so many rows more, where they are in a list. Errors: memory only. Either way the rows
    /// stay. Cost: where there is too little room a move of the rows.
    pub(crate) fn reserve(&mut self, more: usize) -> Result<(), AllocError>
        ensures { rows_in self.new ≡ rows_in self.old }
    {
        match self {
            Rows::None | Rows::One(_) => Ok(()),
            Rows::Many(rows) => rows.reserve_exact(more),
        }
    }

    /// Takes away the row in a place; of a list that has one row left the memory goes. Takes no memory.
    /// Cost: a move of the rows behind.
    pub(crate) fn remove(&mut self, at: usize)
        requires { at < length (rows_in self.old) }
        ensures items { rows_in self.new ≡ remove (rows_in self.old) at }
    {
        match self {
            Rows::None => {}
            Rows::One(_) => *self = Rows::None,
            Rows::Many(rows) => {
                rows.remove(at);
                if rows.len() == 1
                    && let Some(row) = rows.pop()
                {
                    *self = Rows::One(row);
                }
            }
        }
    }
}

/// Up to how many rows a list is moved to a new one as it grows.
const SHORT: usize = 60;

/// Room for a sixteenth more rows than there are, and one besides. The rows of a short list are moved
/// to a new one: the memory that a thread gave back it takes again with no lock, where the library's
/// allocator locks a heap that threads share to make a piece of memory longer. Errors: memory only.
/// Either way the rows stay. Cost: a move of the rows.
fn grow(alloc: Global, rows: &mut Vec<Row>) -> Result<(), AllocError>
    ensures { rows.new.items ≡ rows.old.items }
{
    let len = rows.len();
    let more = len / 16 + 1;
    if len > SHORT {
        return rows.reserve_exact(more);
    }
    let mut longer = Vec::with_capacity(alloc, len + more)?;
    longer.append(rows)?;
    *rows = longer;
    Ok(())
}
