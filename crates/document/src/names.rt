//! Names of fields, and places of tables and columns by their names.
ghost use Rattle.std.specs.Prelude.{◌≡◌, ◌<◌, ◌≤◌, IfSome, length, map, position, slice_index_or};
ghost use Rattle.std.specs.BTreeMap.{keys};
ghost use Rattle.std.specs.List.{list_all};
ghost use Rattle.std.specs.Str.{bytes_eq};
ghost use Rattle.plan.specs.Layouts.{ColumnLayout, TableLayout, no_table};
ghost use Rattle.toml.specs.View.{table_view};
ghost use Rattle.document.specs.Words.{is_one_of, has_only, is_field, column_place, table_place, column_of_both};

use plan::table::{Column, Table};
use toml::value::Table as Members;

/// The fields of the whole recipe.
pub(crate) const TOP_FIELDS: [&str; 3] = ["table", "stage", "view"];

/// The fields of a table.
pub(crate) const TABLE_FIELDS: [&str; 4] = ["name", "shards", "key", "columns"];

/// The fields of the stage.
pub(crate) const STAGE_FIELDS: [&str; 10] = [
    "shards",
    "left",
    "left_key",
    "right",
    "right_key",
    "aggregate",
    "sum",
    "left_where",
    "right_where",
    "cap",
];

/// The fields of a condition.
pub(crate) const CONDITION_FIELDS: [&str; 3] = ["column", "op", "value"];

/// The fields of a view.
pub(crate) const VIEW_FIELDS: [&str; 4] = ["name", "key", "shards", "cap"];

/// Whether there are only these fields.
#[tactic(auto, using(crate::proofs::Members::only_keys))]
pub(crate) fn has_only(members: &Members, fields: &[&str]) -> bool
    ensures { result ≡ has_only (map (λ f. f.now) fields.now) (table_view members.now) }
{
    are_among(members, fields)
}

fn are_among(members: &Members, fields: &[&str]) -> bool
    ensures { result ≡ list_all (is_field (map (λ f. f.now) fields.now)) (keys members.now) }
{
    members.keys().all(|name| is_one_of(fields, name))
}

/// Whether the name is one of these.
fn is_one_of(fields: &[&str], name: &str) -> bool
    ensures { result ≡ is_one_of (map (λ f. f.now) fields.now) name.now }
{
    for field in fields {
        if name == *field {
            return true;
        }
    }
    false
}

fn find_column(columns: &[Column], name: &str) -> Option<usize>
    ensures place { result ≡ position (λ (c : ColumnLayout). bytes_eq c.name name.now) columns.now }
    ensures there { IfSome result (λ place. place < length columns.now) }
{
    columns.iter().position(|column| column.name() == name)
}

fn find_table(tables: &[Table], name: &str) -> Option<usize>
    ensures { result ≡ position (λ (t : TableLayout). bytes_eq t.name name.now) tables.now }
{
    tables.iter().position(|table| table.name() == name)
}

/// The place of the column with the name, or how many columns there are.
pub(crate) fn column_place(columns: &[Column], name: &str) -> usize
    ensures place { result ≡ column_place columns.now name.now }
    ensures bound { result ≤ length columns.now }
{
    match find_column(columns, name) {
        Some(place) => place,
        None => columns.len(),
    }
}

/// The place of the table with the name, or how many tables there are.
pub(crate) fn table_place(tables: &[Table], name: &str) -> usize
    ensures { result ≡ table_place tables.now name.now }
{
    match find_table(tables, name) {
        Some(place) => place,
        None => tables.len(),
    }
}

/// The columns of the table at the place, if there is one.
pub(crate) fn columns_at(tables: &[Table], place: usize) -> &[Column]
    ensures { result.now ≡ (slice_index_or tables.now place no_table).columns }
{
    match tables.get(place) {
        Some(table) => table.columns(),
        None => &[],
    }
}

/// The place of the column with the name among the left columns, else behind them among the right
/// ones.
pub(crate) fn column_of_both(lefts: &[Column], rights: &[Column], name: &str) -> usize
    ensures { result ≡ column_of_both lefts.now rights.now name.now }
{
    let place = column_place(lefts, name);
    if place < lefts.len() {
        place
    } else {
        lefts.len() + column_place(rights, name)
    }
}
