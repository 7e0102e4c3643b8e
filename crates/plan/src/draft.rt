//! Drafts: the parts of a plan, before it is known whether they make one.
ghost use Rattle.std.specs.Prelude.{◌≡◌};
ghost use Rattle.plan.specs.{Layouts.kind_at, Layouts.table_at, Profile.is_one_kind, Profile.told, Profile.told_table, Profile.width_at, Profile.both_apart, Profile.has_view_names, Profile.has_names, Profile.is_key_of, Profile.is_aggregate};

use crate::kinds::{Aggregate, Kind};
use crate::names::{are_apart, is_new};
use crate::plan::ViewPlan;
use crate::stage::Side;
use crate::table::Table;
use std::marker::Model;

/// The parts of a plan: the tables, the shards of the stage, its sides, the aggregate, how many
/// filled keys a stage shard keeps, the views.
#[derive(Drop)]
pub struct Draft {
    pub tables: Vec<Table>,
    pub stages: usize,
    pub left: Side,
    pub right: Option<Side>,
    pub aggregate: Option<Aggregate>,
    pub cap: usize,
    pub views: Vec<ViewPlan>,
}

impl Model for Draft {
    ghost use Rattle.plan.specs.Layouts.{Layout};

    ghost Value = { Layout };

    ghost view = { λ d. record {
      tables = d.tables.items;
      stages = d.stages;
      left = d.left;
      right = d.right;
      aggregate = d.aggregate;
      cap = d.cap;
      views = d.views.items;
    } };
}

impl Draft {
    /// The kind of the column, if there are the table and the column.
    pub(crate) fn kind(&self, table: usize, column: usize) -> Option<Kind>
        ensures { result ≡ kind_at (table_at self.now table) column }
    {
        match self.tables.get(table) {
            Some(table) => table.kind(column),
            None => None,
        }
    }

    /// Whether what is summed, if anything, is a column of numbers.
    pub fn has_aggregate(&self) -> bool
        ensures { result ≡ is_aggregate (told self.now) self.now.aggregate }
    {
        match self.aggregate {
            None | Some(Aggregate::Count) => true,
            Some(Aggregate::Sum(column)) => {
                is_one_kind(self.kind(self.told_table(), column), Some(Kind::Int))
            }
        }
    }

    /// The place of the table whose rows are counted or summed.
    pub(crate) fn told_table(&self) -> usize
        ensures { result ≡ told_table self.now.left self.now.right }
    {
        match &self.right {
            Some(right) => right.table(),
            None => self.left.table(),
        }
    }

    /// How many columns the left table has, if it is there.
    pub fn left_width(&self) -> usize
        ensures { result ≡ width_at self.now self.now.left.table }
    {
        match self.tables.get(self.left.table()) {
            Some(table) => table.width(),
            None => 0,
        }
    }

    /// Whether a view may be keyed by the column: in shape Group by the stage key alone.
    pub fn has_key(&self, column: usize) -> bool
        ensures { result ≡ is_key_of self.now.left self.now.right self.now.aggregate column }
    {
        self.right.is_some() || self.aggregate.is_none() || column == self.left.key()
    }

    /// Whether no two tables or views have one name.
    pub(crate) fn has_names(&self) -> bool
        ensures { result ≡ has_names self.now }
    {
        are_apart(&self.tables) && self.has_view_names()
    }

    fn has_view_names(&self) -> bool
        ensures { result ≡ has_view_names self.now }
    {
        are_apart(&self.views) && both_apart(&self.tables, &self.views)
    }
}

/// Whether there are both, and they are one.
pub(crate) fn is_one_kind(a: Option<Kind>, b: Option<Kind>) -> bool
    ensures { result ≡ is_one_kind a b }
{
    match (a, b) {
        (Some(Kind::Int), Some(Kind::Int)) | (Some(Kind::Text), Some(Kind::Text)) => true,
        _ => false,
    }
}

/// Whether no view has the name of a table.
fn both_apart(tables: &[Table], views: &[ViewPlan]) -> bool
    ensures { result ≡ both_apart tables.now views.now }
{
    tables.iter().all(|table| is_new(table.name(), views))
}
