//! The filter of a side: the rows, and the changes, for which its conditions hold.
ghost use Rattle.std.specs.Prelude.{◌≡◌, IfOk, filter, List};
ghost use Rattle.row.specs.{Bags.sorted, Cells.Cells, Cells.row_cmp, Changes.Turns};
ghost use Rattle.plan.specs.Outputs.{pass};
ghost use Rattle.ops.specs.Changes.{kept};

use plan::stage::Side;
use row::bag::Bag;
use row::record::Record;
use row::row::Row;
use std::alloc::{AllocError, Global};

/// The rows for which all conditions of the side hold, as a bag. Errors: memory only. Cost: a look
/// at each row, and a copy of each that passes.
pub fn full(alloc: Global, side: &Side, rows: &[Row]) -> Result<Bag, AllocError>
    ensures { IfOk result (λ bag. bag
        ≡ sorted row_cmp (filter (pass side.now.conditions) rows.now)) }
{
    let mut bag = Bag::new(alloc);
    for row in rows {
        if side.pass(row) {
            bag.add(row.try_clone(alloc)?)?;
        }
    }
    Ok(bag)
}

/// What a change of the rows changes of those that pass: the records of rows for which all
/// conditions hold, in their order. A filter keeps no state. Errors: memory only. Cost: a look at
/// each record, and a copy of each that passes.
pub fn step(alloc: Global, side: &Side, records: &[Record]) -> Result<Vec<Record>, AllocError>
    ensures records { IfOk result (λ v. v.items ≡ kept side.now.conditions records.now) }
    ensures difference { (before after : List Cells) → Turns before records.now after
        → IfOk result (λ v. Turns (filter (pass side.now.conditions) before) v.items
        (filter (pass side.now.conditions) after)) }
{
    let mut all = Vec::new(alloc);
    for record in records {
        if side.pass(&record.row) {
            all.push(record.try_clone(alloc)?)?;
        }
    }
    Ok(all)
}
