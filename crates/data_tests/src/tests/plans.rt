//! Plans as constants, and made of them.
use plan::draft::Draft;
use plan::kinds::{Aggregate, Kind, Op};
use plan::plan::{Plan, ViewPlan};
use plan::stage::{Condition, Side};
use plan::table::{Column, Table};
use row::value::Value;
use std::alloc::{AllocError, Global};
use std::test::Fail;

/// A table that is keyed by its first column: its name, its shards and its columns.
type TableOf = (&'static str, usize, &'static [(&'static str, Kind)]);

/// A side of the stage, with the column, the comparison and the number of each condition.
#[derive(Clone, Copy)]
pub struct SideOf {
    table: usize,
    key: usize,
    conditions: &'static [(usize, Op, i64)],
}

/// A plan with a stage of two shards, but for what is told. Of the view it has the name, the key
/// and the shards.
#[derive(Drop)]
pub struct PlanOf {
    tables: &'static [TableOf],
    pub left: SideOf,
    right: Option<SideOf>,
    view: (&'static str, usize, usize),
}

/// Stories and the votes for them, by author.
pub const VOTING: PlanOf = PlanOf {
    tables: &[
        (
            "stories",
            2,
            &[
                ("id", Kind::Int),
                ("author", Kind::Int),
                ("title", Kind::Text),
            ],
        ),
        (
            "votes",
            2,
            &[
                ("vid", Kind::Int),
                ("story", Kind::Int),
                ("weight", Kind::Int),
            ],
        ),
    ],
    left: SideOf {
        table: 0,
        key: 0,
        conditions: &[],
    },
    right: Some(SideOf {
        table: 1,
        key: 1,
        conditions: &[],
    }),
    view: ("by_author", 1, 2),
};

/// Clicks on pages that took more than 0 ms and less than 1000, by page; and a table that the
/// stage does not read.
pub const CLICKS: PlanOf = PlanOf {
    tables: &[
        (
            "clicks",
            2,
            &[("id", Kind::Int), ("page", Kind::Text), ("ms", Kind::Int)],
        ),
        ("others", 1, &[("id", Kind::Int)]),
    ],
    left: SideOf {
        table: 0,
        key: 1,
        conditions: &[(2, Op::Greater, 0), (2, Op::Less, 1000)],
    },
    right: None,
    view: ("by_page", 1, 1),
};

fn columns(alloc: Global, of: &[(&str, Kind)]) -> Result<Vec<Column>, AllocError> {
    let mut columns = Vec::new(alloc);
    for (name, kind) in of {
        columns.push(Column::new(alloc, name, *kind)?)?;
    }
    Ok(columns)
}

fn tables(alloc: Global, of: &[TableOf]) -> Result<Vec<Table>, AllocError> {
    let mut tables = Vec::new(alloc);
    for (name, shards, columns_of) in of {
        let columns = columns(alloc, columns_of)?;
        tables.push(Table::new(String::from_str(alloc, name)?, *shards, 0, columns))?;
    }
    Ok(tables)
}

pub fn side(alloc: Global, of: SideOf) -> Result<Side, AllocError> {
    let mut conditions = Vec::new(alloc);
    for (column, op, number) in of.conditions {
        conditions.push(Condition::new(*column, *op, Value::Int(*number)))?;
    }
    Ok(Side::new(of.table, of.key, conditions))
}

fn right(alloc: Global, of: Option<SideOf>) -> Result<Option<Side>, AllocError> {
    match of {
        Some(of) => Ok(Some(side(alloc, of)?)),
        None => Ok(None),
    }
}

fn views(alloc: Global, of: (&str, usize, usize)) -> Result<Vec<ViewPlan>, AllocError> {
    let (name, key, shards) = of;
    let name = String::from_str(alloc, name)?;
    Ok(vec![in alloc; ViewPlan::new(name, key, shards, 4)]?)
}

fn draft(alloc: Global, of: &PlanOf, told: Option<Aggregate>) -> Result<Draft, AllocError> {
    Ok(Draft {
        tables: tables(alloc, of.tables)?,
        stages: 2,
        left: side(alloc, of.left)?,
        right: right(alloc, of.right)?,
        aggregate: told,
        cap: 1024,
        views: views(alloc, of.view)?,
    })
}

/// The plan, with the aggregate of partners or of a group, if there is one.
pub fn plan(alloc: Global, of: &PlanOf, told: Option<Aggregate>) -> Result<Plan, Fail> {
    Ok(Plan::check(draft(alloc, of, told)?).ok_or("no plan")?)
}
