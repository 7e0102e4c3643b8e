//! Whether a history is legal.
ghost use Rattle.std.specs.Prelude.{◌≡◌, ◌≢◌, ◌<◌, IfOk};
ghost use Rattle.row.specs.{Bags.Each, Cells.datum_of, Cells.shard};
ghost use Rattle.model.specs.{Entries.change_of, Histories.Author as AuthorView, Legal.Allows, Legal.AllowsWrite, Legal.AllowsRead, Legal.AllowsFence, Legal.IsLegal, Logs.key_of, Items.item_of, Items.history_of, Tables.places_of};
ghost use Rattle.plain.specs.{Tells.Tells, Verdicts.IsVerdict};

use crate::cuts::{fronts_of, is_at_most, is_within};
use crate::floors::{are_above, are_within, floor_of, view_shard};
use crate::logs::{authors_of, log_of};
use crate::own::{are_own, are_past};
use crate::query::answer;
use crate::rows::is_lawful;
use model::entry::Entry;
use model::item::{Author, Fence, Item, Read, Write};
use model::lengths::Lengths;
use model::places::place_of;
use plan::plan::Plan;
use plan::table::Table;
use row::row::Row;
use row::value::shard_of;
use std::alloc::{AllocError, Global};

/// The most entries that a log has.
const LIMIT: usize = 4294967295;

/// The shard of the table that has the entry's key.
fn shard_of_entry(table: &Table, entry: &Entry) -> usize
    requires { table.now.shards ≢ 0 }
    ensures { result ≡ shard (key_of table.now.key (change_of entry.now)) table.now.shards }
{
    match entry {
        Entry::Insert(row) => shard_of(row.cell_or_zero(table.key()).value(), table.shards()),
        Entry::Delete(key) => shard_of(key, table.shards()),
        Entry::Update(row) => shard_of(row.cell_or_zero(table.key()).value(), table.shards()),
    }
}

/// Whether the number is above each that the session has among the authors.
fn is_number_above(authors: &[Author], session: usize, number: u64) -> bool
    ensures { Tells result (Each (λ (a : AuthorView). a.session ≡ session → a.number < number)
        authors.now) }
{
    for author in authors {
        if author.session == session && author.number >= number {
            return false;
        }
    }
    true
}

/// Whether these items allow the write after them.
fn allows_write(
    alloc: Global,
    plan: &Plan,
    items: &[Item],
    write: &Write,
) -> Result<bool, AllocError>
    ensures { IfOk result (λ allowed. Tells allowed
        (AllowsWrite plan.now (history_of items.now) write.now.session write.now.number
        write.now.base (change_of write.now.entry))) }
{
    let Some((table, shard)) = place_of(plan, write.base) else {
        return Ok(false);
    };
    plan.keeps_profile();
    let table = plan.table(table);
    if !write.entry.fits(table) {
        return Ok(false);
    }
    if shard_of_entry(table, &write.entry) != shard {
        return Ok(false);
    }
    let log = log_of(alloc, items, write.base)?;
    if !is_lawful(alloc, table.key(), &log, &write.entry)? {
        return Ok(false);
    }
    if log.entries().len() >= LIMIT {
        return Ok(false);
    }
    let authors = authors_of(alloc, items, write.base)?;
    if !is_number_above(&authors, write.session, write.number) {
        return Ok(false);
    }
    Ok(true)
}

/// Whether the two lists have the same rows in the same order.
fn are_same(rows: &[Row], others: &[Row]) -> bool
    ensures { Tells result (rows.now ≡ others.now) }
{
    rows == others
}

/// Whether these items, which are legal, allow the read after them.
fn allows_read(
    alloc: Global,
    read: &Read,
    plan: &Plan,
    sessions: usize,
    items: &[Item],
) -> Result<bool, AllocError>
    requires { IsLegal plan.now sessions (history_of items.now) }
    ensures { IfOk result (λ allowed. Tells allowed
        (AllowsRead plan.now sessions (history_of items.now) read.now.session read.now.view
        (datum_of read.now.key) read.now.rows.items read.now.cut)) }
{
    if read.session >= sessions {
        return Ok(false);
    }
    if read.view >= plan.views() {
        return Ok(false);
    }
    if !is_within(plan, items, &read.cut) {
        return Ok(false);
    }
    let none = Lengths::empty(alloc);
    let shard = view_shard(plan, read.view, &read.key);
    let floor = floor_of(plan, items, read.session, read.view, shard, &none);
    if !is_at_most(floor, &read.cut) {
        return Ok(false);
    }
    plan.keeps_profile();
    let lines = fronts_of(alloc, plan, items, &read.cut)?;
    let rows = answer(alloc, plan, &lines, read.view, &read.key)?;
    if !are_same(&read.rows, &rows) {
        return Ok(false);
    }
    Ok(true)
}

/// Whether these items allow the fence after them.
fn allows_fence(
    alloc: Global,
    plan: &Plan,
    sessions: usize,
    items: &[Item],
    fence: &Fence,
) -> Result<bool, AllocError>
    ensures { IfOk result (λ allowed. Tells allowed
        (AllowsFence plan.now sessions (history_of items.now) fence.now.session
        (places_of fence.now.own.items) fence.now.floors)) }
{
    if fence.session >= sessions {
        return Ok(false);
    }
    if !are_within(alloc, plan, items, &fence.floors) {
        return Ok(false);
    }
    if !are_above(alloc, plan, items, fence.session, &fence.floors) {
        return Ok(false);
    }
    if !are_past(alloc, plan, &fence.floors, &fence.own) {
        return Ok(false);
    }
    if !are_own(alloc, plan, items, fence.session, &fence.own)? {
        return Ok(false);
    }
    Ok(true)
}

/// Whether these items, which are legal, allow the item after them. Errors: memory only. Cost: that
/// of the answer of a read, or a look at each item for each length of a cut.
pub fn allows(
    alloc: Global,
    plan: &Plan,
    sessions: usize,
    items: &[Item],
    item: &Item,
) -> Result<bool, AllocError>
    requires { IsLegal plan.now sessions (history_of items.now) }
    ensures { IfOk result (λ allowed. Tells allowed
        (Allows plan.now sessions (history_of items.now) (item_of item.now))) }
{
    match item {
        Item::Write(write) => allows_write(alloc, plan, items, write),
        Item::Read(read) => allows_read(alloc, read, plan, sessions, items),
        Item::Fence(fence) => allows_fence(alloc, plan, sessions, items, fence),
    }
}

/// `None` where the items are a legal history of this many sessions over the plan, each allowed by
/// those before it, and else the place of the first that is not. Errors: memory only. Cost: for
/// each item a look at all before it, and the answer of a read.
pub fn verdict(
    alloc: Global,
    plan: &Plan,
    sessions: usize,
    items: &[Item],
) -> Result<Option<usize>, AllocError>
    ensures { IfOk result (IsVerdict plan.now sessions (history_of items.now)) }
{
    for (at, item) in items.iter().enumerate() {
        if !allows(alloc, plan, sessions, &items[..at], item)? {
            return Ok(Some(at));
        }
    }
    Ok(None)
}
