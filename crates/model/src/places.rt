//! Numbers of base shards.
ghost use Rattle.std.specs.Prelude.{◌≡◌, ◌≤◌, ◌<◌, ◌+◌, ◌*◌, ◌++◌, length, map, IfOk, OnOk, MatchOption};
ghost use Rattle.row.specs.Bags.{Each};
ghost use Rattle.plan.specs.{Layouts.table_at, Domains.sources as domain_sources};
ghost use Rattle.model.specs.Places.{IsPlaceOf, base_at, base_count, layout_of, number_of, shard_of, shards_before, side_bases, side_count, source_at, sources};

use plan::plan::Plan;
use plan::stage::Side;
use std::alloc::{AllocError, Global};

/// How many base shards the first tables have, at most 8 each.
fn shards_before(plan: &Plan, table: usize) -> usize
    requires { table ≤ length plan.now.tables }
    ensures count { result ≡ shards_before plan.now.tables table }
    ensures few { result ≤ 8 * table }
{
    plan.keeps_profile();
    let mut count = 0;
    for place in 0..table {
        count += plan.table(place).shards();
    }
    count
}

/// How many base shards the plan has: the shards of all its tables, at most 64.
pub fn base_count(plan: &Plan) -> usize
    ensures count { result ≡ base_count plan.now }
    ensures few { result ≤ 64 }
{
    shards_before(plan, plan.tables())
}

/// The number of a shard of a table. Cost: a look at each table before it.
pub fn base_at(plan: &Plan, table: usize, shard: usize) -> usize
    requires table { table < length plan.now.tables }
    requires shard { shard < (table_at plan.now table).shards }
    ensures number { result ≡ base_at plan.now table shard }
    ensures range { result < base_count plan.now }
    ensures table { layout_of plan.now result ≡ table_at plan.now table }
    ensures shard { shard_of plan.now result ≡ shard }
{
    plan.keeps_profile();
    shards_before(plan, table) + shard
}

/// The table of a base shard, and which of its shards it is; `None` where the plan has no such base
/// shard. Takes no memory. Cost: a look at each pair of tables.
pub fn place_of(plan: &Plan, base: usize) -> Option<(usize, usize)>
    ensures { MatchOption result (base < base_count plan.now → ⊥) (IsPlaceOf plan.now base) }
{
    for table in 0..plan.tables() {
        let before = shards_before(plan, table);
        if before <= base && base - before < plan.table(table).shards() {
            return Some((table, base - before));
        }
    }
    None
}

/// How many shards the side's table has.
fn side_count(plan: &Plan, side: &Side) -> usize
    requires { side.now.table < length plan.now.tables }
    ensures count { result ≡ side_count plan.now side.now }
    ensures few { result ≤ 8 }
{
    plan.table(side.table()).shards()
}

/// How many sources the stage has, at most 16. Constant time.
pub fn source_count(plan: &Plan) -> usize
    ensures count { result ≡ length (sources plan.now) }
    ensures few { result ≤ 16 }
{
    plan.keeps_profile();
    let lefts = side_count(plan, plan.left());
    match plan.right() {
        Some(side) => lefts + side_count(plan, side),
        None => lefts,
    }
}

/// The base shard of the side's table.
fn side_base(plan: &Plan, side: &Side, shard: usize) -> usize
    requires side { side.now.table < length plan.now.tables }
    requires shard { shard < 16 }
    ensures { result ≡ base_at plan.now side.now.table shard }
{
    plan.keeps_profile();
    shards_before(plan, side.table()) + shard
}

/// The base shard that a source of the stage is. Takes no memory. Cost: a look at each table.
pub fn source_at(plan: &Plan, source: usize) -> usize
    requires { source < length (sources plan.now) }
    ensures { result ≡ source_at plan.now source }
{
    plan.keeps_profile();
    let lefts = side_count(plan, plan.left());
    if source < lefts {
        return side_base(plan, plan.left(), source);
    }
    match plan.right() {
        Some(side) => side_base(plan, side, source - lefts),
        None => 0,
    }
}

/// The base shards that are sources of the stage: the shards of the left table in order, then
/// those of the right one. They are the sources among the plan's domains, by number. Errors: memory
/// only. Cost: a look at each table for each source.
pub fn sources(alloc: Global, plan: &Plan) -> Result<Vec<usize>, AllocError>
    ensures sources { IfOk result (λ v. v.items ≡ sources plan.now) }
    ensures domains { IfOk result (λ v. v.items
        ≡ map (number_of plan.now) (domain_sources plan.now)) }
    ensures range { IfOk result (λ v. Each (λ b. b < base_count plan.now) v.items) }
{
    plan.keeps_profile();
    let mut bases = Vec::new(alloc);
    push_bases(plan, plan.left(), &mut bases)?;
    if let Some(side) = plan.right() {
        push_bases(plan, side, &mut bases)?;
    }
    Ok(bases)
}

// Adds the shards of the side's table, in order.
fn push_bases(plan: &Plan, side: &Side, bases: &mut Vec<usize>) -> Result<(), AllocError>
    requires table { side.now.table < length plan.now.tables }
    requires range { Each (λ b. b < base_count plan.now) bases.old.items }
    ensures bases { OnOk result (bases.new.items
        ≡ bases.old.items ++ side_bases plan.now side.now) }
    ensures range { OnOk result (Each (λ b. b < base_count plan.now) bases.new.items) }
{
    for shard in 0..plan.table(side.table()).shards() {
        bases.push(base_at(plan, side.table(), shard))?;
    }
    Ok(())
}
