//! The rows of a front, and what is lawful and what is refused there.
ghost use Rattle.std.specs.Prelude.{◌≡◌, ◌∷◌, [], ◌++◌, not, map, cond, filter, IfOk, length};
ghost use Rattle.row.specs.Cells.{datum_of, cell_at, has};
ghost use Rattle.model.specs.{Logs.changed, Logs.rows_of, Logs.is_held, Logs.lawful, Refusals.refusal, Refusals.full, Entries.change_of};

use crate::front::Front;
use model::entry::Entry;
use row::refused::Refused;
use row::row::Row;
use row::value::Value;
use std::alloc::{AllocError, Global};

/// The rows that the front leaves, in the order of their inserts; `key` is the table's key column.
/// An insert adds its row, a delete takes away the row of its key, an update puts its row in place
/// of that of the same key. Errors: memory only. Cost: a look at every row for each entry.
pub fn rows_of(alloc: Global, key: usize, front: &Front) -> Result<Vec<Row>, AllocError>
    ensures { IfOk result (λ rows. rows.items ≡ rows_of key front.now) }
{
    let mut rows = Vec::new(alloc);
    for entry in front.entries() {
        rows = changed(alloc, key, rows, entry)?;
    }
    Ok(rows)
}

/// The rows after one more entry.
fn changed(alloc: Global, key: usize, rows: Vec<Row>, entry: &Entry) -> Result<Vec<Row>, AllocError>
    ensures { IfOk result (λ after. after.items ≡ changed key rows.items (change_of entry.now)) }
{
    match entry {
        Entry::Insert(row) => with(alloc, rows, row),
        Entry::Delete(value) => Ok(without(rows, key, value)),
        Entry::Update(row) => replaced(alloc, key, rows, row),
    }
}

/// The rows and then this one.
fn with(alloc: Global, mut rows: Vec<Row>, row: &Row) -> Result<Vec<Row>, AllocError>
    ensures { IfOk result (λ after. after.items ≡ rows.items ++ row.now ∷ []) }
{
    rows.push(row.try_clone(alloc)?)?;
    Ok(rows)
}

/// The rows that have another key.
fn without(mut rows: Vec<Row>, key: usize, value: &Value) -> Vec<Row>
    ensures { result.items ≡ filter (λ x. not (has key (datum_of value.now) x)) rows.items }
{
    rows.retain(|row| !row.has(key, value));
    rows
}

/// The row in place of each of its key.
fn replaced(alloc: Global, key: usize, rows: Vec<Row>, row: &Row) -> Result<Vec<Row>, AllocError>
    ensures { IfOk result (λ after. after.items
        ≡ map (λ x. cond (has key (cell_at row.now key) x) row.now x) rows.items) }
{
    let value = row.cell_or_zero(key).value().try_clone(alloc)?;
    let mut after = Vec::new(alloc);
    for old in &rows {
        after.push(updated(old, key, &value, row).try_clone(alloc)?)?;
    }
    Ok(after)
}

/// The new row where the old one has the key, else the old one.
fn updated<'a>(old: &'a Row, key: usize, value: &Value, new: &'a Row) -> &'a Row
    ensures { result.now ≡ cond (has key (datum_of value.now) old.now) new.now old.now }
{
    if old.has(key, value) { new } else { old }
}

/// Whether some row has the key.
fn is_held(rows: &[Row], key: usize, value: &Value) -> bool
    ensures { result ≡ is_held key rows.now (datum_of value.now) }
{
    rows.iter().any(|row| row.has(key, value))
}

/// Whether the entry is lawful at the front: its key is absent from the front's rows for an insert,
/// and present for a delete and an update. Errors: memory only. Costs what the rows of the front
/// cost.
pub fn is_lawful(
    alloc: Global,
    key: usize,
    front: &Front,
    entry: &Entry,
) -> Result<bool, AllocError>
    ensures { IfOk result (λ answer. answer ≡ lawful key front.now (change_of entry.now)) }
{
    let rows = rows_of(alloc, key, front)?;
    Ok(match entry {
        Entry::Insert(row) => !is_held(&rows, key, row.cell_or_zero(key).value()),
        Entry::Delete(value) => is_held(&rows, key, value),
        Entry::Update(row) => is_held(&rows, key, row.cell_or_zero(key).value()),
    })
}

/// With what the entry is refused at the front of a log that takes at most `limit` entries:
/// `Duplicate` or `Absent`, then `LogFull`, or nothing. Errors: memory only. Costs what the rows of
/// the front cost.
pub fn refusal(
    alloc: Global,
    key: usize,
    limit: usize,
    front: &Front,
    entry: &Entry,
) -> Result<Option<Refused>, AllocError>
    ensures { IfOk result (λ answer. answer ≡ refusal key limit front.now (change_of entry.now)) }
{
    if is_lawful(alloc, key, front, entry)? {
        return Ok(full(limit, front));
    }
    Ok(Some(match entry {
        Entry::Insert(_) => Refused::Duplicate,
        Entry::Delete(_) | Entry::Update(_) => Refused::Absent,
    }))
}

/// `LogFull` where the front has the limit of entries.
fn full(limit: usize, front: &Front) -> Option<Refused>
    ensures { result ≡ full limit (length front.now) }
{
    if limit <= front.entries().len() {
        Some(Refused::LogFull)
    } else {
        None
    }
}
