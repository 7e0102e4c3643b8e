//! The words of a call as a row or a key: each is read by its column.
ghost use Rattle.std.specs.Prelude.{◌≡◌, ◌<◌, length, map, IfOk};
ghost use Rattle.std.specs.Option.{ForSome};
ghost use Rattle.std.specs.Cow.{cow_str_bytes};
ghost use Rattle.row.specs.Cells.{Cells};
ghost use Rattle.plan.specs.Layouts.{table_named};
ghost use Rattle.script.specs.Columns.{IsRow, kind_of_column, kind_of_key, kind_of_stage_key, kind_of_table};

use crate::cell::value_of;
use plan::kinds::Kind;
use plan::plan::Plan;
use row::row::Row;
use std::alloc::{AllocError, Global};
use std::borrow::CowStr;

/// The row that the words are in the table of this name: each word is read by its column, and is a
/// text where there is no such column. Errors: memory only. A look at each name and each word, and
/// a copy of the texts that are borrowed.
pub fn row_of(
    alloc: Global,
    plan: &Plan,
    table: &str,
    words: Vec<CowStr<'_>>,
) -> Result<Row, AllocError>
    ensures row { IfOk result (λ row. IsRow plan.now table.now
        (map cow_str_bytes words.entry.items) row) }
    ensures only { IfOk result (λ row. (other : Cells)
        → IsRow plan.now table.now (map cow_str_bytes words.entry.items) other → other ≡ row) }
{
    let table = plan.table_named(table);
    let mut cells = Vec::new(alloc);
    for word in words {
        let kind = kind_of_column(plan, table, cells.len());
        cells.push(value_of(alloc, kind, word)?)?;
    }
    Row::new(alloc, cells)
}

// The kind of a column of the table at the place.
fn kind_of_column(plan: &Plan, table: Option<usize>, column: usize) -> Kind
    requires { ForSome table (λ t. t < length plan.now.tables) }
    ensures { result ≡ kind_of_column plan.now table column }
{
    match table {
        Some(table) => plan.table(table).kind(column).unwrap_or(Kind::Text),
        None => Kind::Text,
    }
}

/// The kind by which a key of the table is read: that of its key column, and a text where there is
/// no such table. A look at each name.
pub fn kind_of_table(plan: &Plan, table: &str) -> Kind
    ensures { result ≡ kind_of_table plan.now table.now }
{
    let Some(place) = plan.table_named(table) else {
        return Kind::Text;
    };
    let table = plan.table(place);
    table.kind(table.key()).unwrap_or(Kind::Text)
}

/// The kind by which a key of the view is read: that of its key column, and a text where there is
/// no such view. A look at each name.
pub fn kind_of_key(plan: &Plan, view: &str) -> Kind
    ensures { result ≡ kind_of_key plan.now view.now }
{
    plan.keeps_profile();
    let Some(place) = plan.view_named(view) else {
        return Kind::Text;
    };
    let key = plan.view(place).key();
    let left = plan.table(plan.left().table());
    left.kind(key).unwrap_or(Kind::Text)
}

/// The kind by which a stage key is read: that of the column that keys the left table for the
/// stage. Constant time.
pub fn kind_of_stage_key(plan: &Plan) -> Kind
    ensures { result ≡ kind_of_stage_key plan.now }
{
    plan.keeps_profile();
    let left = plan.table(plan.left().table());
    left.kind(plan.left().key()).unwrap_or(Kind::Text)
}
