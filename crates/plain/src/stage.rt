//! The left rows and the right rows of a stage shard over a line.
ghost use Rattle.std.specs.Prelude.{◌≡◌, ◌<◌, IfOk, length, take, drop, Some, None, true};
ghost use Rattle.std.specs.List.{list_all};
ghost use Rattle.plan.specs.Outputs.{pass};
ghost use Rattle.model.specs.{Places.side_count, Queries.side_share, Queries.side_rows, Queries.left, Queries.right};
ghost use Rattle.plain.specs.Fitting.{is_line, all_fit};

use crate::front::{Front, Line};
use crate::rows::rows_of;
use plan::plan::Plan;
use plan::stage::Side;
use plan::table::Table;
use row::row::Row;
use std::alloc::{AllocError, Global};

/// The rows of the front whose stage key has the stage shard and that pass the side's conditions.
fn side_share(
    alloc: Global,
    plan: &Plan,
    stage: usize,
    side: &Side,
    front: &Front,
) -> Result<Vec<Row>, AllocError>
    requires { side.now.table < length plan.now.tables }
    ensures { IfOk result (λ rows. rows.items ≡ side_share plan.now stage side.now front.now) }
{
    plan.keeps_profile();
    let stages = plan.stages();
    let column = side.key();
    let mut rows = rows_of(alloc, plan.table(side.table()).key(), front)?;
    rows.retain(|row| row.has_shard(column, stages, stage));
    rows.retain(|row| side.pass(row));
    Ok(rows)
}

/// The same of several fronts, in one list.
fn side_rows(
    alloc: Global,
    plan: &Plan,
    stage: usize,
    side: &Side,
    fronts: &[Front],
) -> Result<Vec<Row>, AllocError>
    requires { side.now.table < length plan.now.tables }
    ensures { IfOk result (λ rows. rows.items ≡ side_rows plan.now stage side.now fronts.now) }
{
    let mut rows = Vec::new(alloc);
    for front in fronts {
        let mut share = side_share(alloc, plan, stage, side, front)?;
        rows.append(&mut share)?;
    }
    Ok(rows)
}

/// The fronts of the left table's shards, and those after them.
fn sides<'a>(plan: &Plan, line: &'a Line) -> (&'a [Front], &'a [Front])
    ensures left { result.0.now ≡ take (side_count plan.now plan.now.left) line.now }
    ensures right { result.1.now ≡ drop (side_count plan.now plan.now.left) line.now }
{
    plan.keeps_profile();
    let fronts = line.fronts();
    let count = plan.table(plan.left().table()).shards();
    fronts.split_at(count.min(fronts.len()))
}

/// The left rows of the stage shard over the line, and the right rows: over all shards of the
/// side's table, the rows of the front whose stage key has the stage shard and that pass the side's
/// conditions; no right rows where the stage has no right side. Errors: memory only. Costs what the
/// rows of the fronts cost.
pub fn rows_of_sides(
    alloc: Global,
    plan: &Plan,
    stage: usize,
    line: &Line,
) -> Result<(Vec<Row>, Vec<Row>), AllocError>
    ensures left { IfOk result (λ rows. rows.0.items ≡ left plan.now stage line.now) }
    ensures right { IfOk result (λ rows. rows.1.items ≡ right plan.now stage line.now) }
{
    plan.keeps_profile();
    let (lefts, rights) = sides(plan, line);
    let left = side_rows(alloc, plan, stage, plan.left(), lefts)?;
    let right = match plan.right() {
        Some(side) => side_rows(alloc, plan, stage, side, rights)?,
        None => Vec::new(alloc),
    };
    Ok((left, right))
}

/// Whether each entry of the line fits its table, the left one for the first fronts, as many as it
/// has shards, and the right one for those after them. Costs a look at each entry.
pub fn is_line(plan: &Plan, line: &Line) -> bool
    ensures { result ≡ is_line plan.now line.now }
{
    plan.keeps_profile();
    let (lefts, rights) = sides(plan, line);
    if !all_fit(plan.table(plan.left().table()), lefts) {
        return false;
    }
    match plan.right() {
        Some(side) => all_fit(plan.table(side.table()), rights),
        None => true,
    }
}

/// Whether that is so of each of the lines.
pub fn are_lines(plan: &Plan, lines: &[Line]) -> bool
    ensures { result ≡ list_all (is_line plan.now) lines.now }
{
    lines.iter().all(|line| is_line(plan, line))
}

/// Whether each entry of each front fits the table.
fn all_fit(table: &Table, fronts: &[Front]) -> bool
    requires { table.now.key < length table.now.columns }
    ensures { result ≡ all_fit table.now fronts.now }
{
    fronts.iter().all(|front| front.fits(table))
}
