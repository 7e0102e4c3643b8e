//! Rows of a base shard that are found by a column.
ghost use Rattle.std.specs.Prelude.{◌≡◌, ◌≢◌, [], ◌∷◌, List, IfOk, IfSome, OnOk, OnErr, filter, true};
ghost use Rattle.row.specs.{Cells.Cells, Cells.datum_of, Cells.has, Cells.row_cmp, Bags.Each, Bags.IsAscending};
ghost use Rattle.base.specs.{Indexed.AreIndexes, Indexed.IsIndex, Indexed.IsOf, Parts.is_in};

use crate::part::Part;
use row::grouped::Grouped;
use row::row::{Row, copies};
use row::value::{Value, shard_of};
use std::alloc::{AllocError, Global};

/// The rows of a shard that have a column, found by it, and with them one that an entry is to
/// bring.
#[derive(Drop)]
pub(crate) struct Index {
    /// `None` once an entry has brought a row that did not wait.
    pub(crate) rows: Option<Grouped>,
    /// The row that was added before its entry.
    pub(crate) waiting: Option<Row>,
}

impl Index {
    /// The index of no rows, by the column. Takes no memory.
    fn new(alloc: Global, column: usize) -> Index
        ensures { IsIndex [] result }
    {
        Index {
            rows: Some(Grouped::new(alloc, column)),
            waiting: None,
        }
    }

    /// The rows found by their column, where they stand alone.
    fn ready(&self) -> Option<&Grouped>
        ensures { IfSome result (λ g. (rows : List Cells) → IsIndex rows self.now
            → IsOf g.now rows) }
    {
        match self.waiting {
            None => self.rows.as_ref(),
            Some(_) => None,
        }
    }

    /// Adds the row of an entry to come, in the place of one that waited. Errors: memory only; then
    /// all is as it was.
    fn expect(&mut self, alloc: Global, row: &Row) -> Result<(), AllocError>
        requires { (rows : List Cells) × IsIndex rows self.old }
        ensures kept { (rows : List Cells) → IsIndex rows self.old → IsIndex rows self.new }
        ensures err { OnErr result (self.new ≡ self.old) }
    {
        let Some(rows) = &mut self.rows else {
            return Ok(());
        };
        let copy = row.try_clone(alloc)?;
        add(rows, alloc, row)?;
        if let Some(other) = self.waiting.replace(copy) {
            take_away(rows, &other);
        }
        Ok(())
    }

    /// The row has come: it waits no more. Where it did not wait, the index is given up.
    fn settle(&mut self, row: &Row)
        ensures { (rows : List Cells) → IsIndex rows self.old → IsIndex (row.now ∷ rows) self.new }
    {
        if let Some(other) = self.waiting.take() {
            if other == *row {
                return;
            }
        }
        self.rows = None;
    }

    /// Takes away a row that has gone.
    fn lose(&mut self, row: &Row)
        requires { (rows : List Cells) × IsIndex (row.now ∷ rows) self.old }
        ensures { (rows : List Cells) → IsIndex (row.now ∷ rows) self.old → IsIndex rows self.new }
    {
        if let Some(rows) = &mut self.rows {
            take_away(rows, row);
        }
    }
}

/// Indexes of no rows by the columns. Errors: memory only.
pub(crate) fn indexes_by(alloc: Global, columns: &[usize]) -> Result<Vec<Index>, AllocError>
    ensures { IfOk result (λ v. AreIndexes [] v.items) }
{
    let mut indexes = Vec::new(alloc);
    for column in columns {
        indexes.push(Index::new(alloc, *column))?;
    }
    Ok(indexes)
}

/// The rows found by the column, where an index has them and none besides.
pub(crate) fn ready_by(indexes: &[Index], column: usize) -> Option<&Grouped>
    ensures found { IfSome result (λ g. (g.now.column ≡ column) × ((rows : List Cells)
        → AreIndexes rows indexes.now → IsOf g.now rows)) }
    ensures in_order { IfSome result (λ g. IsAscending row_cmp g.now.rows) }
{
    for index in indexes {
        if let Some(rows) = index.ready() {
            if rows.column() == column {
                return Some(rows);
            }
        }
    }
    None
}

/// Adds the row of an entry to come to each index. Errors: memory only; then it waits in some.
pub(crate) fn expect_all(
    indexes: &mut Vec<Index>,
    alloc: Global,
    row: &Row,
) -> Result<(), AllocError>
    requires { (rows : List Cells) × AreIndexes rows indexes.old.items }
    ensures { (rows : List Cells) → AreIndexes rows indexes.old.items
        → AreIndexes rows indexes.new.items }
{
    for place in 0..indexes.len() {
        indexes[place].expect(alloc, row)?;
    }
    Ok(())
}

/// The row has come, in each index. Takes no memory.
pub(crate) fn settle_all(indexes: &mut Vec<Index>, row: &Row)
    ensures { (rows : List Cells) → AreIndexes rows indexes.old.items
        → AreIndexes (row.now ∷ rows) indexes.new.items }
{
    for place in 0..indexes.len() {
        indexes[place].settle(row);
    }
}

/// The row has gone, in each index. Takes no memory.
pub(crate) fn lose_all(indexes: &mut Vec<Index>, row: &Row)
    requires { (rows : List Cells) × AreIndexes (row.now ∷ rows) indexes.old.items }
    ensures { (rows : List Cells) → AreIndexes (row.now ∷ rows) indexes.old.items
        → AreIndexes rows indexes.new.items }
{
    for place in 0..indexes.len() {
        indexes[place].lose(row);
    }
}

/// Copies of those of the rows that belong to the part, where each has the value in the column.
/// Errors: memory only. Cost: where the part is by that column, one look at the value, else one at
/// each row, and a copy of each that belongs to it.
pub(crate) fn copies_in(
    alloc: Global,
    rows: &[Row],
    column: usize,
    value: &Value,
    part: Part,
) -> Result<Vec<Row>, AllocError>
    requires some { part.shards ≢ 0 }
    requires keyed { Each (λ r. has column (datum_of value.now) r ≡ true) rows.now }
    ensures { IfOk result (λ v. v.items ≡ filter (is_in part) rows.now) }
{
    if part.column != column {
        return each_in(alloc, rows, part);
    }
    if shard_of(value, part.shards) == part.shard {
        copies(alloc, rows)
    } else {
        Ok(Vec::new(alloc))
    }
}

/// Copies of those of the rows that belong to the part, in room for all. Errors: memory only.
fn each_in(alloc: Global, rows: &[Row], part: Part) -> Result<Vec<Row>, AllocError>
    requires { part.shards ≢ 0 }
    ensures { IfOk result (λ v. v.items ≡ filter (is_in part) rows.now) }
{
    let mut copies = Vec::with_capacity(alloc, rows.len())?;
    for row in rows {
        if part.has(row) {
            copies.push(row.try_clone(alloc)?)?;
        }
    }
    Ok(copies)
}

/// Adds a copy of the row, where it has the column. Errors: memory only; then all is as it was.
fn add(rows: &mut Grouped, alloc: Global, row: &Row) -> Result<(), AllocError>
    ensures column { rows.new.column ≡ rows.old.column }
    ensures added { OnOk result ((others : List Cells) → IsOf rows.old others
        → IsOf rows.new (row.now ∷ others)) }
    ensures err { OnErr result (rows.new ≡ rows.old) }
{
    if row.width() <= rows.column() {
        return Ok(());
    }
    rows.add(alloc, row)?;
    Ok(())
}

/// Takes the row away, where it has the column. Takes no memory.
fn take_away(rows: &mut Grouped, row: &Row)
    requires { (others : List Cells) × IsOf rows.old (row.now ∷ others) }
    ensures column { rows.new.column ≡ rows.old.column }
    ensures taken { (others : List Cells) → IsOf rows.old (row.now ∷ others)
        → IsOf rows.new others }
{
    if row.width() <= rows.column() {
        return;
    }
    rows.subtract(row);
}
