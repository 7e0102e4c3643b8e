//! Tables and their columns.
ghost use Rattle.std.specs.Prelude.{◌≡◌, ◌<◌, ◌&&◌, length, string_bytes, IfOk};
ghost use Rattle.std.specs.Bool.{OnTrue};
ghost use Rattle.std.specs.List.{list_all};
ghost use Rattle.row.specs.Cells.{datum_of};
ghost use Rattle.plan.specs.{Kinds.is_cell, Kinds.is_row, Layouts.ColumnLayout, Layouts.TableLayout, Layouts.column_at, Layouts.kind_at, Recipes.table, Profile.is_from, Profile.is_name, Profile.table_is_small, Profile.table_is_apart, Profile.key_is_known, Profile.columns_are_apart};

use crate::kinds::Kind;
use crate::names::{Named, are_apart, is_name};
use row::row::Row;
use row::value::Value;
use std::alloc::{AllocError, Global};
use std::marker::Model;

/// A column: its name and the kind of its cells.
#[derive(Drop)]
pub struct Column {
    name: String,
    kind: Kind,
}

impl Model for Column {
    ghost use Rattle.std.specs.Prelude.{string_bytes};
    ghost use Rattle.plan.specs.Layouts.{ColumnLayout};

    ghost Value = { ColumnLayout };

    ghost view = { λ c. record { name = string_bytes c.name; kind = c.kind } };
}

impl Column {
    /// A column of this name. Errors: memory only. Cost: a copy of the name.
    pub fn new(alloc: Global, name: &str, kind: Kind) -> Result<Column, AllocError>
        ensures { IfOk result (λ c. c ≡ record { name = name.now; kind = kind }) }
    {
        Ok(Column {
            name: String::from_str(alloc, name)?,
            kind,
        })
    }

    fn is_named(&self) -> bool
        ensures { result ≡ is_name self.now.name }
    {
        is_name(&self.name)
    }

    /// Whether the value is a cell of the column.
    pub fn takes(&self, value: &Value) -> bool
        ensures { result ≡ is_cell self.now.kind (datum_of value.now) }
    {
        self.kind.takes(value)
    }

    fn kind(&self) -> Kind
        ensures { result ≡ self.now.kind }
    {
        self.kind
    }

    /// The column's name.
    pub fn name(&self) -> &str
        ensures { result.now ≡ self.now.name }
    {
        &self.name
    }
}

impl Named for Column {
    ghost name_of = { λ (c : ColumnLayout). c.name };

    fn own_name(&self) -> &str {
        self.name()
    }
}

/// A table: its name, its shards, the place of its key column, and its columns.
#[derive(Drop)]
pub struct Table {
    name: String,
    shards: usize,
    key: usize,
    columns: Vec<Column>,
}

impl Model for Table {
    ghost use Rattle.std.specs.Prelude.{string_bytes};
    ghost use Rattle.plan.specs.Layouts.{TableLayout};

    ghost Value = { TableLayout };

    ghost view = { λ t. record {
      name = string_bytes t.name;
      shards = t.shards;
      key = t.key;
      columns = t.columns.items;
    } };
}

impl Table {
    /// A table of these columns, keyed by the one at the place `key`.
    pub fn new(name: String, shards: usize, key: usize, columns: Vec<Column>) -> Table
        ensures { result ≡ table (string_bytes name) shards key columns.items }
    {
        Table {
            name,
            shards,
            key,
            columns,
        }
    }

    /// The table's name.
    pub fn name(&self) -> &str
        ensures { result.now ≡ self.now.name }
    {
        self.name.as_str()
    }

    /// How many shards the table has.
    pub fn shards(&self) -> usize
        ensures { result ≡ self.now.shards }
    {
        self.shards
    }

    /// The place of the key column.
    pub fn key(&self) -> usize
        ensures { result ≡ self.now.key }
    {
        self.key
    }

    /// The columns.
    pub fn columns(&self) -> &[Column]
        ensures { result.now ≡ self.now.columns }
    {
        &self.columns
    }

    /// How many columns the table has.
    pub fn width(&self) -> usize
        ensures { result ≡ length self.now.columns }
    {
        self.columns.len()
    }

    /// The kind of a column's cells, if the table has the column.
    pub fn kind(&self, column: usize) -> Option<Kind>
        ensures { result ≡ kind_at self.now column }
    {
        let column = self.columns.get(column)?;
        Some(column.kind())
    }

    /// Whether the row has one cell of its kind for each column.
    pub fn takes(&self, row: &Row) -> bool
        ensures fits { result ≡ is_row self.now.columns row.now }
        ensures width { OnTrue result (length row.now ≡ length self.now.columns) }
    {
        if row.width() != self.width() {
            return false;
        }
        all_take(self.columns.as_slice(), row)
    }

    /// Whether the value is a cell of the key column.
    pub fn takes_key(&self, value: &Value) -> bool
        requires { self.now.key < length self.now.columns }
        ensures { result ≡ is_cell (column_at self.now self.now.key).kind (datum_of value.now) }
    {
        self.columns[self.key].takes(value)
    }

    /// Whether the value is a cell of the column at the place.
    pub fn takes_at(&self, column: usize, value: &Value) -> bool
        requires { column < length self.now.columns }
        ensures { result ≡ is_cell (column_at self.now column).kind (datum_of value.now) }
    {
        self.columns[column].takes(value)
    }

    /// Whether the table has 1 to 8 shards, 1 to 16 columns, and names of the form of names.
    pub fn is_small(&self) -> bool
        ensures { result ≡ table_is_small self.now }
    {
        is_from(1, 8, self.shards)
            && is_from(1, 16, self.width())
            && is_name(&self.name)
            && are_named(&self.columns)
    }

    /// Whether no two columns have one name.
    pub fn columns_are_apart(&self) -> bool
        ensures { result ≡ columns_are_apart self.now }
    {
        are_apart(&self.columns)
    }

    /// Whether the table is not named `stage`, and no two columns have one name.
    pub(crate) fn is_apart(&self) -> bool
        ensures { result ≡ table_is_apart self.now }
    {
        self.name.as_str() != "stage" && self.columns_are_apart()
    }

    /// Whether the key column is one of the columns.
    pub(crate) fn has_key(&self) -> bool
        ensures { result ≡ key_is_known self.now }
    {
        self.key < self.columns.len()
    }
}

impl Named for Table {
    ghost name_of = { λ (t : TableLayout). t.name };

    fn own_name(&self) -> &str {
        self.name()
    }
}

/// Whether all columns have names.
fn are_named(columns: &[Column]) -> bool
    ensures { result ≡ list_all (λ (c : ColumnLayout). is_name c.name) columns.now }
{
    columns.iter().all(Column::is_named)
}

fn all_take(columns: &[Column], row: &Row) -> bool
    requires { length row.now ≡ length columns.now }
    ensures { result ≡ is_row columns.now row.now }
{
    for (at, column) in columns.iter().enumerate() {
        if !column.takes(row.cell(at).value()) {
            return false;
        }
    }
    true
}

/// Whether the number is from the one to the other.
pub(crate) fn is_from(least: usize, most: usize, n: usize) -> bool
    ensures { result ≡ is_from least most n }
{
    least <= n && n <= most
}
