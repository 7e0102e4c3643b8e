//! Values, in order and each once.
ghost use Rattle.std.specs.Prelude.{◌≡◌, IfOk, map};
ghost use Rattle.row.specs.Cells.{cell_at, datum_of};
ghost use Rattle.stage_sides.specs.Held.{IsSetOf};

use ops::cells::push_cells;
use row::row::Row;
use row::value::Value;
use std::alloc::{AllocError, Global};

/// These values in order, each once. Errors: memory only.
pub(crate) fn once(mut values: Vec<Value>) -> Result<Vec<Value>, AllocError>
    ensures { IfOk result (λ v. IsSetOf (map datum_of values.items) (map datum_of v.items)) }
{
    values.sort()?;
    values.dedup();
    Ok(values)
}

/// A copy of each row's value in the column, zero past a row's end. Errors: memory only.
pub(crate) fn cells_of(alloc: Global, column: usize, rows: &[Row]) -> Result<Vec<Value>, AllocError>
    ensures { IfOk result (λ v. map datum_of v.items ≡ map (λ l. cell_at l column) rows.now) }
{
    let mut all = Vec::new(alloc);
    push_cells(alloc, column, rows, &mut all)?;
    Ok(all)
}
