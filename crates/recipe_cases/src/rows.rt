//! A row of a side of the stage, and whether it passes the side's conditions.
use crate::plans::table_name;
use crate::words::words_of;
use plan::plan::Plan;
use script::columns::row_of;
use std::alloc::{AllocError, Global};

/// Prints whether the row of `left ROW` or `right ROW` passes the conditions of that side.
pub fn write_row(
    alloc: Global,
    plan: &Plan,
    question: &str,
    out: &mut String,
) -> Result<(), AllocError> {
    let (name, line) = question.split_once(' ').unwrap_or((question, ""));
    let side = match name {
        "left" => Some(plan.left()),
        "right" => plan.right(),
        _ => None,
    };
    let Some(side) = side else {
        return writeln!(out, "no side {name}");
    };
    let table = table_name(plan, side.table());
    let row = row_of(alloc, plan, table, words_of(alloc, line)?)?;
    let answer = if side.pass(&row) { "passes" } else { "fails" };
    write!(out, "{name} {answer}")?;
    writeln!(out, ": {row}")
}
