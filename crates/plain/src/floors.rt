//! Floors: what a session's next cut may not be below.
ghost use Rattle.std.specs.Prelude.{◌≡◌, ◌==◌, ◌&&◌, ◌<◌, ℕ, [], length};
ghost use Rattle.row.specs.Cells.{datum_of};
ghost use Rattle.plan.specs.Layouts.{view_at};
ghost use Rattle.model.specs.{Cuts.IsAtMost, Cuts.IsWithin, Histories.floor_at, Histories.floor_in, Histories.floor_of, Histories.last_or, Histories.view_shard, Legal.EachShard, Items.item_of, Items.history_of};
ghost use Rattle.plain.specs.Tells.{Tells};

use crate::cuts::{is_at_most, is_within};
use model::floors::Floors;
use model::item::{Item, Read};
use model::lengths::Lengths;
use plan::plan::Plan;
use row::value::{Value, shard_of};
use std::alloc::Global;

/// The shard of the view that has the key. Takes no memory.
pub fn view_shard(plan: &Plan, view: usize, key: &Value) -> usize
    requires { view < length plan.now.views }
    ensures { result ≡ view_shard plan.now view (datum_of key.now) }
{
    plan.keeps_profile();
    shard_of(key, plan.view(view).shards())
}

/// Whether the read is of the session and of the shard of the view.
fn is_of(plan: &Plan, read: &Read, session: usize, view: usize, shard: usize) -> bool
    requires { view < length plan.now.views }
    ensures { result ≡ ((read.now.session == session) &&
        ((read.now.view == view) && (view_shard plan.now read.now.view (datum_of read.now.key) ==
        shard))) }
{
    read.session == session && read.view == view && view_shard(plan, view, &read.key) == shard
}

/// The floor after the item, where it was `floor` before it.
fn floor_after<'a>(
    plan: &Plan,
    session: usize,
    view: usize,
    shard: usize,
    item: &'a Item,
    floor: &'a Lengths,
    none: &'a Lengths,
) -> &'a Lengths
    requires view { view < length plan.now.views }
    requires none { none.now ≡ [] }
    ensures { result.now ≡ last_or floor.now (floor_in plan.now session view shard
        (item_of item.now)) }
{
    match item {
        Item::Write(_) => floor,
        Item::Read(read) => {
            if is_of(plan, read, session, view, shard) {
                &read.cut
            } else {
                floor
            }
        }
        Item::Fence(fence) => {
            if fence.session == session {
                fence.floors.floor_at(view, shard, none)
            } else {
                floor
            }
        }
    }
}

/// The floor of the session at the shard of the view: the cut of the last of its reads there, or
/// what the last of its fences gave, whichever is later; `none`, the cut of no lengths, before the
/// first of them. Takes no memory. Cost: a look at each item.
pub fn floor_of<'a>(
    plan: &Plan,
    items: &'a [Item],
    session: usize,
    view: usize,
    shard: usize,
    none: &'a Lengths,
) -> &'a Lengths
    requires view { view < length plan.now.views }
    requires none { none.now ≡ [] }
    ensures { result.now ≡ floor_of plan.now session view shard (history_of items.now) }
{
    let mut floor = none;
    for item in items {
        floor = floor_after(plan, session, view, shard, item, floor, none);
    }
    floor
}

/// Whether the floor at each shard of the view is a cut within the history.
fn is_view_within(plan: &Plan, items: &[Item], floors: &Floors, view: usize, none: &Lengths) -> bool
    requires view { view < length plan.now.views }
    requires none { none.now ≡ [] }
    ensures { Tells result ((j : ℕ) → j < (view_at plan.now view).shards
        → IsWithin plan.now (history_of items.now) (floor_at floors.now view j)) }
{
    for shard in 0..plan.view(view).shards() {
        if !is_within(plan, items, floors.floor_at(view, shard, none)) {
            return false;
        }
    }
    true
}

/// Whether the floor at each shard of each view is a cut within the history. Takes no memory. Cost:
/// a look at each item for each length.
pub fn are_within(alloc: Global, plan: &Plan, items: &[Item], floors: &Floors) -> bool
    ensures { Tells result (EachShard plan.now
        (λ i j. IsWithin plan.now (history_of items.now) (floor_at floors.now i j))) }
{
    let none = Lengths::empty(alloc);
    for view in 0..plan.views() {
        if !is_view_within(plan, items, floors, view, &none) {
            return false;
        }
    }
    true
}

/// Whether the floor at each shard of the view is at least the session's floor there.
fn is_view_above(
    plan: &Plan,
    items: &[Item],
    session: usize,
    floors: &Floors,
    view: usize,
    none: &Lengths,
) -> bool
    requires view { view < length plan.now.views }
    requires none { none.now ≡ [] }
    ensures { Tells result ((j : ℕ) → j < (view_at plan.now view).shards
        → IsAtMost (floor_of plan.now session view j (history_of items.now))
        (floor_at floors.now view j)) }
{
    for shard in 0..plan.view(view).shards() {
        let old = floor_of(plan, items, session, view, shard, none);
        if !is_at_most(old, floors.floor_at(view, shard, none)) {
            return false;
        }
    }
    true
}

/// Whether the floor at each shard of each view is at least the session's floor there. Takes no
/// memory. Cost: a look at each item for each shard, and at each length.
pub fn are_above(
    alloc: Global,
    plan: &Plan,
    items: &[Item],
    session: usize,
    floors: &Floors,
) -> bool
    ensures { Tells result (EachShard plan.now
        (λ i j. IsAtMost (floor_of plan.now session i j (history_of items.now))
        (floor_at floors.now i j))) }
{
    let none = Lengths::empty(alloc);
    for view in 0..plan.views() {
        if !is_view_above(plan, items, session, floors, view, &none) {
            return false;
        }
    }
    true
}
