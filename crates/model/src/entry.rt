//! Entries of a log.
ghost use Rattle.std.specs.Prelude.{◌≡◌, ◌<◌, ◌↔◌, length, IfOk, IsTrue};
ghost use Rattle.model.specs.{Logs.fits, Entries.change_of};

use plan::table::Table;
use row::row::Row;
use row::value::Value;
use std::alloc::{AllocError, Global};

/// An entry of a log: a row that comes, the key of a row that goes, or a row in place of the one
/// of the same key.
#[derive(Drop)]
pub enum Entry {
    Insert(Row),
    Delete(Value),
    Update(Row),
}

impl Entry {
    /// Whether the entry's row is one of the table, or its key a cell of the key column.
    pub fn fits(&self, table: &Table) -> bool
        requires { table.now.key < length table.now.columns }
        ensures { result ≡ fits table.now (change_of self.now) }
    {
        match self {
            Entry::Insert(row) => table.takes(row),
            Entry::Delete(key) => table.takes_key(key),
            Entry::Update(row) => table.takes(row),
        }
    }

    /// Whether the two are one entry. Cost: the length of the row.
    pub fn is_same(&self, other: &Entry) -> bool
        ensures same { IsTrue result → change_of self.now ≡ change_of other.now }
        ensures sure { change_of self.now ≡ change_of other.now → IsTrue result }
    {
        match (self, other) {
            (Entry::Insert(row), Entry::Insert(another)) => same_row(row, another),
            (Entry::Delete(key), Entry::Delete(another)) => key.is_same(another),
            (Entry::Update(row), Entry::Update(another)) => same_row(row, another),
            _ => false,
        }
    }

    /// A second entry that is equal. A row is shared, a key copied.
    pub fn try_clone(&self, alloc: Global) -> Result<Entry, AllocError>
        ensures { IfOk result (λ e. change_of e ≡ change_of self.now) }
    {
        match self {
            Entry::Insert(row) => Ok(Entry::Insert(row.try_clone(alloc)?)),
            Entry::Delete(key) => Ok(Entry::Delete(key.try_clone(alloc)?)),
            Entry::Update(row) => Ok(Entry::Update(row.try_clone(alloc)?)),
        }
    }
}

fn same_row(row: &Row, other: &Row) -> bool
    ensures { IsTrue result ↔ (row.now ≡ other.now) }
{
    row == other
}
