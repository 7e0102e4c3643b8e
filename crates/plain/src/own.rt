//! Places of a session's own writes, and which floors are past them.
ghost use Rattle.std.specs.Prelude.{◌≡◌, ◌<◌, ℕ, [], length, IfOk};
ghost use Rattle.row.specs.Bags.{Each};
ghost use Rattle.plan.specs.Layouts.{view_at};
ghost use Rattle.model.specs.{Histories.floor_at, Histories.len_at, Legal.EachShard, Legal.IsPast, Legal.IsOwn, Places.sources, Places.source_at, Tables.place_of, Tables.places_of, Items.history_of};
ghost use Rattle.plain.specs.Tells.{Tells, IsSource};

use crate::logs::authors_of;
use model::floors::Floors;
use model::item::Item;
use model::lengths::Lengths;
use model::place::Place;
use model::places::{source_at, source_count};
use plan::plan::Plan;
use std::alloc::{AllocError, Global};

/// Whether the line of the stage shard goes past the place, wherever that is in a source.
fn is_line_past(plan: &Plan, cut: &Lengths, stage: usize, place: Place) -> bool
    ensures { Tells result ((j : ℕ) → j < length (sources plan.now) → source_at plan.now j
        ≡ place.base → place.index < len_at cut.now stage j) }
{
    for source in 0..source_count(plan) {
        if source_at(plan, source) == place.base && cut.len(stage, source) <= place.index {
            return false;
        }
    }
    true
}

/// Whether the line of each stage shard goes past the place. Takes no memory. Cost: a look at each
/// length.
pub fn is_past(plan: &Plan, cut: &Lengths, place: Place) -> bool
    ensures { Tells result (IsPast plan.now cut.now (place_of place)) }
{
    for stage in 0..plan.stages() {
        if !is_line_past(plan, cut, stage, place) {
            return false;
        }
    }
    true
}

/// Whether the cut is past each of the places.
fn is_past_all(plan: &Plan, cut: &Lengths, own: &[Place]) -> bool
    ensures { Tells result (Each (IsPast plan.now cut.now) (places_of own.now)) }
{
    for place in own {
        if !is_past(plan, cut, *place) {
            return false;
        }
    }
    true
}

/// Whether the floor at each shard of the view is past each of the places.
fn is_view_past(plan: &Plan, floors: &Floors, own: &[Place], view: usize, none: &Lengths) -> bool
    requires view { view < length plan.now.views }
    requires none { none.now ≡ [] }
    ensures { Tells result ((j : ℕ) → j < (view_at plan.now view).shards
        → Each (IsPast plan.now (floor_at floors.now view j)) (places_of own.now)) }
{
    for shard in 0..plan.view(view).shards() {
        if !is_past_all(plan, floors.floor_at(view, shard, none), own) {
            return false;
        }
    }
    true
}

/// Whether the floor at each shard of each view is past each of the places. Takes no memory. Cost:
/// a look at each length for each place.
pub fn are_past(alloc: Global, plan: &Plan, floors: &Floors, own: &[Place]) -> bool
    ensures { Tells result (EachShard plan.now
        (λ i j. Each (IsPast plan.now (floor_at floors.now i j)) (places_of own.now))) }
{
    let none = Lengths::empty(alloc);
    for view in 0..plan.views() {
        if !is_view_past(plan, floors, own, view, &none) {
            return false;
        }
    }
    true
}

/// Whether the base shard is a source of the stage.
fn is_source(plan: &Plan, base: usize) -> bool
    ensures { Tells result (IsSource plan.now base) }
{
    for source in 0..source_count(plan) {
        if source_at(plan, source) == base {
            return true;
        }
    }
    false
}

/// Whether the place is in a source, and the session wrote what stands there. Errors: memory only.
/// Cost: a look at each item.
pub fn is_own(
    alloc: Global,
    plan: &Plan,
    items: &[Item],
    session: usize,
    place: Place,
) -> Result<bool, AllocError>
    ensures { IfOk result (λ own. Tells own (IsOwn plan.now (history_of items.now) session
        (place_of place))) }
{
    if !is_source(plan, place.base) {
        return Ok(false);
    }
    let authors = authors_of(alloc, items, place.base)?;
    match authors.get(place.index as usize) {
        Some(author) => Ok(author.session == session),
        None => Ok(false),
    }
}

/// Whether that is so of each of the places. Errors: memory only. Cost: a look at each item for
/// each place.
pub fn are_own(
    alloc: Global,
    plan: &Plan,
    items: &[Item],
    session: usize,
    own: &[Place],
) -> Result<bool, AllocError>
    ensures { IfOk result (λ all. Tells all (Each (IsOwn plan.now (history_of items.now) session)
        (places_of own.now))) }
{
    for place in own {
        if !is_own(alloc, plan, items, session, *place)? {
            return Ok(false);
        }
    }
    Ok(true)
}
