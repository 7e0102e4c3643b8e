//! Calls whose arguments are refused.
ghost use Rattle.std.specs.Prelude.{◌≡◌, ◌<◌, true, length, IfOk, IfErr, Some, None};
ghost use Rattle.row.specs.Cells.{datum_of, shard};
ghost use Rattle.plan.specs.Layouts.{table_at, table_named, view_named};
ghost use Rattle.model.specs.{Entries.change_of, Logs.fits, Refusals.stage_refusal, Refusals.misfit, Refusals.read_refusal, Refusals.view_refusal, Refusals.write_refusal};

use model::entry::Entry;
use plan::plan::Plan;
use row::refused::Refused;
use row::value::{Value, shard_of};

/// The place of the table that a write names, where the entry fits it. Errors: `UnknownTable`, then
/// `BadRow`, or `BadKey` for a Delete. Takes no memory. Cost: a look at each table's name and at
/// each cell.
pub fn write_target(plan: &Plan, table: &str, entry: &Entry) -> Result<usize, Refused>
    ensures table { IfOk result (λ t. table_named plan.now table.now ≡ Some t) }
    ensures there { IfOk result (λ t. t < length plan.now.tables) }
    ensures fits { IfOk result (λ t. fits (table_at plan.now t) (change_of entry.now) ≡ true) }
    ensures free { IfOk result (λ t. write_refusal plan.now (table_named plan.now table.now)
        (change_of entry.now) ≡ None) }
    ensures why { IfErr result (λ e. write_refusal plan.now (table_named plan.now table.now)
        (change_of entry.now) ≡ Some e) }
{
    let Some(place) = plan.table_named(table) else {
        return Err(Refused::UnknownTable);
    };
    if !entry.fits(plan.table(place)) {
        return Err(misfit(entry));
    }
    Ok(place)
}

/// What an entry that does not fit is refused with.
fn misfit(entry: &Entry) -> Refused
    ensures { result ≡ misfit (change_of entry.now) }
{
    match entry {
        Entry::Insert(_) | Entry::Update(_) => Refused::BadRow,
        Entry::Delete(_) => Refused::BadKey,
    }
}

/// The place of the view that a call names, where the key is a cell of the column that keys it.
/// Errors: `UnknownView`, then `BadKey`. Takes no memory. Cost: a look at each view's name.
pub fn read_target(plan: &Plan, view: &str, key: &Value) -> Result<usize, Refused>
    ensures view { IfOk result (λ v. view_named plan.now view.now ≡ Some v) }
    ensures there { IfOk result (λ v. v < length plan.now.views) }
    ensures free { IfOk result (λ v. read_refusal plan.now (view_named plan.now view.now)
        (datum_of key.now) ≡ None) }
    ensures why { IfErr result (λ e. read_refusal plan.now (view_named plan.now view.now)
        (datum_of key.now) ≡ Some e) }
{
    plan.keeps_profile();
    let place = view_target(plan, view)?;
    let table = plan.table(plan.left().table());
    if !table.takes_at(plan.view(place).key(), key) {
        return Err(Refused::BadKey);
    }
    Ok(place)
}

/// The stage shard that has a stage key, where the key is a cell of the column that keys the left
/// table for the stage. Errors: `BadKey`. Takes no memory. Cost: a look at the key.
pub fn stage_target(plan: &Plan, key: &Value) -> Result<usize, Refused>
    ensures shard { IfOk result (λ s. s ≡ shard (datum_of key.now) plan.now.stages) }
    ensures there { IfOk result (λ s. s < plan.now.stages) }
    ensures free { IfOk result (λ s. stage_refusal plan.now (datum_of key.now) ≡ None) }
    ensures why { IfErr result (λ e. stage_refusal plan.now (datum_of key.now) ≡ Some e) }
{
    plan.keeps_profile();
    let table = plan.table(plan.left().table());
    if !table.takes_at(plan.left().key(), key) {
        return Err(Refused::BadKey);
    }
    Ok(shard_of(key, plan.stages()))
}

/// The place of the view that a call names. Errors: `UnknownView`. Takes no memory. Cost: a look at
/// each view's name.
pub fn view_target(plan: &Plan, view: &str) -> Result<usize, Refused>
    ensures view { IfOk result (λ v. view_named plan.now view.now ≡ Some v) }
    ensures there { IfOk result (λ v. v < length plan.now.views) }
    ensures free { IfOk result (λ v. view_refusal (view_named plan.now view.now) ≡ None) }
    ensures why { IfErr result (λ e. view_refusal (view_named plan.now view.now) ≡ Some e) }
{
    plan.view_named(view).ok_or(Refused::UnknownView)
}
