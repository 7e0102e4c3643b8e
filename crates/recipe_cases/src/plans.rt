//! A plan, as it is printed: a line for each of its parts.
use plan::kinds::{Aggregate, Kind};
use plan::plan::{Plan, ViewPlan};
use plan::stage::Side;
use plan::table::Table;
use std::alloc::{AllocError, Global};

/// Prints the tables, the stage, the views, and the tags and edges.
pub fn write_plan(alloc: Global, plan: &Plan, out: &mut String) -> Result<(), AllocError> {
    for at in 0..plan.tables() {
        write_table(plan.table(at), out)?;
    }
    write_stage(plan, out)?;
    for at in 0..plan.views() {
        write_view(plan, plan.view(at), out)?;
    }
    write_tags(plan, out)?;
    write_edges(alloc, plan, out)
}

fn write_table(table: &Table, out: &mut String) -> Result<(), AllocError> {
    write!(out, "table {}", table.name())?;
    write!(out, ", shards {}", table.shards())?;
    write!(out, ", key {}", column_name(table, table.key()))?;
    let mut mark = ":";
    for (at, column) in table.columns().iter().enumerate() {
        write!(out, "{mark} {}", column.name())?;
        write!(out, " {}", kind_name(table.kind(at)))?;
        mark = ",";
    }
    writeln!(out)
}

fn write_stage(plan: &Plan, out: &mut String) -> Result<(), AllocError> {
    write!(out, "stage, shards {}", plan.stages())?;
    write!(out, ", cap {}: left", plan.cap())?;
    write_side(plan, plan.left(), out)?;
    if let Some(right) = plan.right() {
        write!(out, ", right")?;
        write_side(plan, right, out)?;
    }
    write_aggregate(plan, out)?;
    writeln!(out)
}

fn write_side(plan: &Plan, side: &Side, out: &mut String) -> Result<(), AllocError> {
    write!(out, " {}", table_name(plan, side.table()))?;
    write!(out, " by {}", name_at(plan, side.table(), side.key()))?;
    match side.conditions().len() {
        0 => Ok(()),
        count => write!(out, " (conditions {count})"),
    }
}

fn write_aggregate(plan: &Plan, out: &mut String) -> Result<(), AllocError> {
    let side = plan.right().unwrap_or(plan.left());
    match plan.aggregate() {
        None => Ok(()),
        Some(Aggregate::Count) => write!(out, ", count"),
        Some(Aggregate::Sum(column)) => {
            write!(out, ", sum of {}", name_at(plan, side.table(), column))
        }
    }
}

fn write_view(plan: &Plan, view: &ViewPlan, out: &mut String) -> Result<(), AllocError> {
    write!(out, "view {}", view.name())?;
    write!(out, ", shards {}", view.shards())?;
    write!(
        out,
        ", key {}",
        name_at(plan, plan.left().table(), view.key())
    )?;
    writeln!(out, ", cap {}", view.cap())
}

fn write_tags(plan: &Plan, out: &mut String) -> Result<(), AllocError> {
    write!(out, "tags")?;
    for tag in plan.tags() {
        write!(out, " {}", tag.0)?;
    }
    Ok(())
}

// How many edges there are, and their names where they are at most 12.
fn write_edges(alloc: Global, plan: &Plan, out: &mut String) -> Result<(), AllocError> {
    let edges = plan.edges(alloc)?;
    write!(out, ", edges {}", edges.len())?;
    if edges.len() <= 12 {
        write!(out, ":")?;
        for edge in edges.as_slice() {
            write!(out, " {}", plan.edge_text(alloc, *edge)?)?;
        }
    }
    writeln!(out)
}

/// The table's name, and a mark where there is none.
pub fn table_name(plan: &Plan, table: usize) -> &str {
    if table < plan.tables() {
        plan.table(table).name()
    } else {
        "?"
    }
}

fn name_at(plan: &Plan, table: usize, column: usize) -> &str {
    if table < plan.tables() {
        column_name(plan.table(table), column)
    } else {
        "?"
    }
}

fn column_name(table: &Table, at: usize) -> &str {
    match table.columns().get(at) {
        Some(column) => column.name(),
        None => "?",
    }
}

fn kind_name(kind: Option<Kind>) -> &'static str {
    match kind {
        Some(Kind::Int) => "int",
        Some(Kind::Text) => "text",
        None => "?",
    }
}
