//! Calls on the right side within a stage.
ghost use Rattle.std.specs.Prelude.{◌≡◌, [], IfNone, IfOk, IfSome, List, OnOk, Some, filter, length, not, slice_get, true};
ghost use Rattle.std.specs.Option.{option_map};
ghost use Rattle.row.specs.{Bags.Each, Bags.IsAscending, Bags.sorted, Cells.Cells, Cells.cell_at, Cells.datum_of, Cells.has, Cells.row_cmp, declared.record.Record.Record as RecordView, declared.value.Value.Value as Key};
ghost use Rattle.ops.specs.SideRows.{fits_64_bits};
ghost use Rattle.partial.specs.{Sums.sum_of_bags, Truth.IsTrueOf};
ghost use Rattle.packet.specs.Keys.{begin_at, give_at, open_at};
ghost use Rattle.right_rows.specs.Rights.{FitsPiece, keys_in, records_of, state_in};
ghost use Rattle.stage_sides.specs.{Held.IsStageOf, Held.no_rights, Sides.IsNamed, Sides.IsStill, Sides.KeepsTruth, Sides.TakesPieces, Sides.first_filled, Sides.is_closed, Sides.is_filled_at, Sides.is_open, Sides.rows_in};

use crate::sides::HeldSide;
use ops::side::{KeyedRows, Side};
use ops::stage::Stage;
use plan::plan::Plan;
use right_rows::rights::RightRows;
use row::record::Record;
use row::row::Row;
use row::value::Value;
use std::alloc::{AllocError, Global};

/// The stage of the plan with no left rows, and of its right side, if it has one, no key filled.
pub(crate) fn no_stage(
    alloc: Global,
    plan: &Plan,
    sources: usize,
) -> Result<Stage<HeldSide>, AllocError>
    ensures of { IfOk result (λ s. IsStageOf plan.now s) }
    ensures lefts { IfOk result (λ s. s.left.rows ≡ []) }
    ensures right { IfOk result (λ s. s.right ≡ no_rights plan.now sources) }
{
    let stage = Stage::of(alloc, plan);
    stage.is_full();
    let (shape, left, right) = stage.into_sides();
    let right = match plan.right() {
        None => HeldSide::Full(Box::new(alloc, right)?),
        Some(side) => {
            let aggregate = shape.aggregate_of_right();
            let rights = RightRows::new(alloc, side.key(), aggregate, sources)?;
            HeldSide::ByKey(Box::new(alloc, rights)?)
        }
    };
    let left = HeldSide::Full(Box::new(alloc, left)?);
    Ok(Stage::over(shape, left, right))
}

/// The right rows are seen in order. Constant time.
pub(crate) fn keeps_order(stage: &Stage<HeldSide>)
    ensures { IsAscending row_cmp stage.now.right.rows }
{
    let _ = stage.rows(Side::Right).column();
}

/// Whether the key of a row of the right side is filled.
fn is_known(right: &HeldSide, row: &Row) -> bool
    ensures known { result ≡ is_filled_at (rows_in right.now) row.now }
    ensures named { IsNamed (cell_at row.now (rows_in right.now).column) }
{
    let column = right.column();
    right.is_filled(row.cell_or_zero(column).value())
}

/// The records of filled keys, and the others, both in their order.
pub(crate) fn split(
    alloc: Global,
    stage: &Stage<HeldSide>,
    records: Vec<Record>,
) -> Result<(Vec<Record>, Vec<Record>), AllocError>
    ensures known { IfOk result (λ m. m.0.items ≡ filter (λ (r : RecordView).
        is_filled_at stage.now.right r.row) records.items) }
    ensures others { IfOk result (λ m. m.1.items ≡ filter (λ (r : RecordView).
        not (is_filled_at stage.now.right r.row)) records.items) }
    ensures named { IfOk result (λ m. Each (λ (r : RecordView).
        IsNamed (cell_at r.row stage.now.right.column)) m.0.items) }
{
    let right = stage.rows(Side::Right);
    let mut known = Vec::new(alloc);
    let mut others = Vec::new(alloc);
    for record in records {
        if is_known(right, &record.row) {
            known.push(record)?;
        } else {
            others.push(record)?;
        }
    }
    Ok((known, others))
}

/// Takes in the records of a source for keys that wait.
pub(crate) fn change_pieces(
    stage: Stage<HeldSide>,
    alloc: Global,
    source: usize,
    records: Vec<Record>,
) -> (Stage<HeldSide>, Result<(), AllocError>)
    requires fits { Each (λ (r : RecordView). fits_64_bits stage.right.aggregate r.row ≡ true)
        records.items }
    requires covered { (k : Key) → FitsPiece source (records_of stage.right.column (datum_of k)
        records.items) (state_in stage.right (datum_of k)) }
    ensures others { result.0 ≡ record stage { right = result.0.right } }
    ensures still { IsStill stage.right result.0.right }
    ensures rows { OnOk result.1 (result.0.right.rows ≡ stage.right.rows) }
    ensures keys { keys_in result.0.right ≡ keys_in stage.right }
    ensures state { OnOk result.1 (TakesPieces source records.items stage.right result.0.right) }
{
    let (shape, left, mut right) = stage.into_sides();
    let changed = right.change_pieces(alloc, source, records);
    (Stage::over(shape, left, right), changed)
}

/// Makes a hole wait, and says whether it did.
pub(crate) fn begin_in(
    stage: Stage<HeldSide>,
    alloc: Global,
    key: Value,
) -> (Stage<HeldSide>, Result<bool, AllocError>)
    ensures others { result.0 ≡ record stage { right = result.0.right } }
    ensures still { IsStill stage.right result.0.right }
    ensures began { IfOk result.1 (λ began. began ≡ is_open (datum_of key)
        (keys_in stage.right)) }
    ensures keys { OnOk result.1 (keys_in result.0.right
        ≡ option_map (begin_at stage.right.sources (datum_of key)) (keys_in stage.right)) }
    ensures truth { (k : Key) (parts : List (List Cells)) → length parts ≡ stage.right.sources
        → IsTrueOf sum_of_bags parts (state_in stage.right (datum_of k))
        → OnOk result.1 (IsTrueOf sum_of_bags parts (state_in result.0.right (datum_of k))) }
{
    let (shape, left, mut right) = stage.into_sides();
    let began = right.begin(alloc, key);
    (Stage::over(shape, left, right), began)
}

/// Takes in the rows that a source has of a key.
pub(crate) fn give_in(
    stage: Stage<HeldSide>,
    alloc: Global,
    source: usize,
    key: &Value,
    rows: Vec<Row>,
) -> (Stage<HeldSide>, Result<(), AllocError>)
    requires keyed { Each (λ r. has stage.right.column (datum_of key.now) r ≡ true) rows.items }
    requires fits { Each (λ r. fits_64_bits stage.right.aggregate r ≡ true) rows.items }
    requires in_order { IsAscending row_cmp rows.items }
    ensures others { result.0 ≡ record stage { right = result.0.right } }
    ensures still { IsStill stage.right result.0.right }
    ensures keys { OnOk result.1 (keys_in result.0.right
        ≡ option_map (give_at source (datum_of key.now)) (keys_in stage.right)) }
    ensures truth { (k : Key) (parts : List (List Cells)) → (datum_of key.now ≡ datum_of k
        → slice_get parts source ≡ Some (sorted row_cmp rows.items))
        → IsTrueOf sum_of_bags parts (state_in stage.right (datum_of k))
        → OnOk result.1 (IsTrueOf sum_of_bags parts (state_in result.0.right (datum_of k))) }
{
    let (shape, left, mut right) = stage.into_sides();
    let given = right.give(alloc, source, key, rows);
    (Stage::over(shape, left, right), given)
}

/// Makes a filled key a hole, and says whether it was filled.
pub(crate) fn open_in(stage: Stage<HeldSide>, key: &Value) -> (Stage<HeldSide>, bool)
    ensures others { result.0 ≡ record stage { right = result.0.right } }
    ensures still { IsStill stage.right result.0.right }
    ensures was { result.1 ≡ is_closed (datum_of key.now) (keys_in stage.right) }
    ensures keys { keys_in result.0.right
        ≡ option_map (open_at (datum_of key.now)) (keys_in stage.right) }
    ensures truth { (k : Key) (parts : List (List Cells))
        → IsTrueOf sum_of_bags parts (state_in stage.right (datum_of k))
        → IsTrueOf sum_of_bags parts (state_in result.0.right (datum_of k)) }
{
    let (shape, left, mut right) = stage.into_sides();
    let was = right.open(key);
    (Stage::over(shape, left, right), was)
}

/// Makes the key a hole that was filled first, and gives it.
pub(crate) fn open_oldest_in(stage: Stage<HeldSide>) -> (Stage<HeldSide>, Option<Value>)
    ensures others { result.0 ≡ record stage { right = result.0.right } }
    ensures still { IsStill stage.right result.0.right }
    ensures key { option_map (λ k. datum_of k) result.1 ≡ first_filled (keys_in stage.right) }
    ensures keys { IfSome result.1 (λ key. keys_in result.0.right
        ≡ option_map (open_at (datum_of key)) (keys_in stage.right)) }
    ensures truth { KeepsTruth stage.right result.0.right }
    ensures none { IfNone result.1 (result.0 ≡ stage) }
{
    let (shape, left, mut right) = stage.into_sides();
    let key = right.open_oldest();
    (Stage::over(shape, left, right), key)
}
