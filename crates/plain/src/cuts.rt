//! Cuts over a history: whether they are within its logs, how two of them stand, and the fronts
//! that they name.
ghost use Rattle.std.specs.Prelude.{◌≡◌, ◌≤◌, ℕ, slice_index_or, IfOk};
ghost use Rattle.model.specs.{Cuts.IsAtMost, Cuts.line_of, Cuts.fronts_of, Cuts.IsWithin, Histories.len_at, Places.sources, Items.history_of};
ghost use Rattle.plain.specs.Tells.{Tells, IsLineWithin};

use crate::front::Line;
use crate::logs::{front_of, log_length};
use model::item::Item;
use model::lengths::Lengths;
use model::places::{source_at, source_count};
use plan::plan::Plan;
use std::alloc::{AllocError, Global};

/// Whether the line has a length for each source, none above that of the source's log.
fn is_line_within(plan: &Plan, items: &[Item], line: &[u64]) -> bool
    ensures { Tells result (IsLineWithin plan.now (history_of items.now) line.now) }
{
    if line.len() != source_count(plan) {
        return false;
    }
    for (source, length) in line.iter().enumerate() {
        if *length > log_length(items, source_at(plan, source)) as u64 {
            return false;
        }
    }
    true
}

/// Whether the cut is within the history: a line for each stage shard, a length for each source,
/// none above that of the source's log. Takes no memory. Cost: a look at each item for each length.
pub fn is_within(plan: &Plan, items: &[Item], cut: &Lengths) -> bool
    ensures { Tells result (IsWithin plan.now (history_of items.now) cut.now) }
{
    if cut.stages() != plan.stages() {
        return false;
    }
    for stage in 0..cut.stages() {
        if !is_line_within(plan, items, cut.line(stage)) {
            return false;
        }
    }
    true
}

/// Whether each length of the line is at most that of the cut at the stage shard.
fn is_line_at_most(line: &[u64], cut: &Lengths, stage: usize) -> bool
    ensures { Tells result ((j : ℕ) → slice_index_or line.now j 0 ≤ len_at cut.now stage j) }
{
    for (source, length) in line.iter().enumerate() {
        if *length > cut.len(stage, source) {
            return false;
        }
    }
    true
}

/// Whether each length of the cut is at most that of the other; what is not there is zero. Takes no
/// memory. Cost: a look at each length.
pub fn is_at_most(cut: &Lengths, other: &Lengths) -> bool
    ensures { Tells result (IsAtMost cut.now other.now) }
{
    for stage in 0..cut.stages() {
        if !is_line_at_most(cut.line(stage), other, stage) {
            return false;
        }
    }
    true
}

/// The fronts that the line names.
fn line_of(alloc: Global, plan: &Plan, items: &[Item], line: &[u64]) -> Result<Line, AllocError>
    ensures { IfOk result (λ fronts. fronts ≡ line_of (history_of items.now) (sources plan.now)
        line.now) }
{
    let mut fronts = Vec::new(alloc);
    for source in 0..source_count(plan).min(line.len()) {
        let base = source_at(plan, source);
        fronts.push(front_of(alloc, items, base, line[source])?)?;
    }
    Ok(Line::new(fronts))
}

/// The fronts that the cut names: a line for each stage shard, a front for each source. Errors:
/// memory only. Cost: a copy of a log for each length.
pub fn fronts_of(
    alloc: Global,
    plan: &Plan,
    items: &[Item],
    cut: &Lengths,
) -> Result<Vec<Line>, AllocError>
    ensures { IfOk result (λ lines. lines.items
        ≡ fronts_of plan.now (history_of items.now) cut.now) }
{
    let mut lines = Vec::new(alloc);
    for stage in 0..cut.stages() {
        lines.push(line_of(alloc, plan, items, cut.line(stage))?)?;
    }
    Ok(lines)
}
