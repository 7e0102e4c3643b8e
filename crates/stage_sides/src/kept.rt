//! The records that a side takes.
ghost use Rattle.std.specs.Prelude.{◌≡◌, ◌<◌, filter, length};
ghost use Rattle.plan.specs.Outputs.{pass};
ghost use Rattle.stage_sides.specs.Kept.{AreOfRight, is_kept, kept_at, kept_by, kept_rows};

use ops::side::Side;
use plan::plan::Plan;
use plan::stage::Side as SidePlan;
use row::record::Record;
use row::row::Row;

/// Of these records those that the side takes, in their order: those of rows of the side's table
/// for which its conditions hold. Takes no memory. Cost: a look at each cell of each row.
pub(crate) fn kept(plan: &Plan, side: Side, mut records: Vec<Record>) -> Vec<Record>
    ensures { result.items ≡ kept_at plan.now side records.items }
{
    plan.keeps_profile();
    match side {
        Side::Left => kept_by(plan, plan.left(), records),
        Side::Right => match plan.right() {
            Some(side) => kept_by(plan, side, records),
            None => {
                records.clear();
                records
            }
        },
    }
}

/// Of these rows of the right side's table those for which its conditions hold, in their order; none
/// where there is no right side; the list keeps no room for others. Takes no memory. Cost: a look at
/// each row where the side has conditions, and where some are dropped a move of the others.
pub(crate) fn kept_rows(plan: &Plan, mut rows: Vec<Row>) -> Vec<Row>
    requires { AreOfRight plan.now plan.now.right rows.items }
    ensures { result.items ≡ kept_rows plan.now rows.items }
{
    plan.keeps_profile();
    match plan.right() {
        Some(side) => passing(side, rows),
        None => {
            rows.clear();
            rows
        }
    }
}

/// Those for which the conditions of the side hold.
fn passing(side: &SidePlan, mut rows: Vec<Row>) -> Vec<Row>
    ensures { result.items ≡ filter (pass side.now.conditions) rows.items }
{
    if side.conditions().is_empty() {
        return rows;
    }
    rows.retain(|row| side.pass(row));
    rows.shrink_to_fit();
    rows
}

/// Those that the side of the plan takes.
fn kept_by(plan: &Plan, side: &SidePlan, mut records: Vec<Record>) -> Vec<Record>
    requires { side.now.table < length plan.now.tables }
    ensures { result.items ≡ kept_by plan.now side.now records.items }
{
    records.retain(|record| is_kept(plan, side, &record.row));
    records
}

/// Whether it is a row of the side's table for which the side's conditions hold.
fn is_kept(plan: &Plan, side: &SidePlan, row: &Row) -> bool
    requires { side.now.table < length plan.now.tables }
    ensures { result ≡ is_kept plan.now side.now row.now }
{
    plan.table(side.table()).takes(row) && side.pass(row)
}
