//! The one stage of a plan: the sides that it reads, and their conditions.
ghost use Rattle.std.specs.Prelude.{◌≡◌};
ghost use Rattle.std.specs.List.{list_all};
ghost use Rattle.row.specs.Cells.{datum_of};
ghost use Rattle.plan.specs.{Layouts.no_table, Outputs.holds, Outputs.pass, Profile.value_is_small, Profile.values_are_small, Profile.side_is_small, Profile.columns_are_within, Profile.side_is_within, Profile.is_condition};

use crate::kinds::{Op, is_plain};
use crate::table::Table;
use row::row::Row;
use row::value::Value;
use std::marker::Model;

/// A condition: the cell of the column compared with the value.
#[derive(Drop)]
pub struct Condition {
    column: usize,
    op: Op,
    value: Value,
}

impl Model for Condition {
    ghost use Rattle.row.specs.Cells.{datum_of};
    ghost use Rattle.plan.specs.Layouts.{ConditionLayout};

    ghost Value = { ConditionLayout };

    ghost view = { λ c. record { column = c.column; op = c.op; value = datum_of c.value } };
}

impl Condition {
    /// A condition on this column.
    pub fn new(column: usize, op: Op, value: Value) -> Condition
        ensures { result ≡ record { column = column; op = op; value = datum_of value } }
    {
        Condition { column, op, value }
    }

    /// Whether the row has a cell in the column for which the condition holds.
    pub fn holds(&self, row: &Row) -> bool
        ensures { result ≡ holds self.now row.now }
    {
        match row.get(self.column) {
            Some(cell) => self.op.compares(cell.value().compare(&self.value)),
            None => false,
        }
    }

    /// Whether the value is a number, or a text that a cell can be.
    pub fn is_small(&self) -> bool
        ensures { result ≡ value_is_small self.now.value }
    {
        match self.value.as_text() {
            Some(text) => is_plain(text.as_bytes()),
            None => true,
        }
    }

    /// Whether the table has the column, and the value is a cell of it.
    pub fn fits(&self, table: &Table) -> bool
        ensures { result ≡ is_condition table.now self.now }
    {
        self.column < table.width() && table.takes_at(self.column, &self.value)
    }
}

/// A side of the stage: the place of its table, the column of the stage key, and conditions that
/// must all hold.
#[derive(Drop)]
pub struct Side {
    table: usize,
    key: usize,
    conditions: Vec<Condition>,
}

impl Model for Side {
    ghost use Rattle.plan.specs.Layouts.{SideLayout};

    ghost Value = { SideLayout };

    ghost view = { λ s. record { table = s.table; key = s.key; conditions = s.conditions.items } };
}

impl Side {
    /// A side over the table at this place.
    pub fn new(table: usize, key: usize, conditions: Vec<Condition>) -> Side
        ensures { result ≡ record { table = table; key = key; conditions = conditions.items } }
    {
        Side {
            table,
            key,
            conditions,
        }
    }

    /// The place of the side's table.
    pub fn table(&self) -> usize
        ensures { result ≡ self.now.table }
    {
        self.table
    }

    /// The column of the stage key.
    pub fn key(&self) -> usize
        ensures { result ≡ self.now.key }
    {
        self.key
    }

    /// The conditions, which must all hold.
    pub fn conditions(&self) -> &[Condition]
        ensures { result.now ≡ self.now.conditions }
    {
        self.conditions.as_slice()
    }

    /// Whether all conditions hold for the row.
    pub fn pass(&self, row: &Row) -> bool
        ensures { result ≡ pass self.now.conditions row.now }
    {
        self.conditions.iter().all(|condition| condition.holds(row))
    }

    /// Whether there are at most 8 conditions, with values that cells can be.
    pub fn is_small(&self) -> bool
        ensures { result ≡ side_is_small self.now }
    {
        self.conditions.len() <= 8 && self.values_are_small()
    }

    fn values_are_small(&self) -> bool
        ensures { result ≡ values_are_small self.now.conditions }
    {
        self.conditions.iter().all(Condition::is_small)
    }

    /// Whether the key and the columns of all conditions are among this many columns.
    pub(crate) fn is_within(&self, width: usize) -> bool
        ensures { result ≡ side_is_within width self.now }
    {
        width > self.key && self.columns_are_within(width)
    }

    fn columns_are_within(&self, width: usize) -> bool
        ensures { result ≡ columns_are_within width self.now.conditions }
    {
        self.conditions
            .iter()
            .all(|condition| condition.column < width)
    }

    pub(crate) fn has_no_conditions(&self) -> bool
        ensures { result ≡ list_all (is_condition no_table) self.now.conditions }
    {
        self.conditions.is_empty()
    }

    pub(crate) fn conditions_fit(&self, table: &Table) -> bool
        ensures { result ≡ list_all (is_condition table.now) self.now.conditions }
    {
        self.conditions
            .iter()
            .all(|condition| condition.fits(table))
    }
}
