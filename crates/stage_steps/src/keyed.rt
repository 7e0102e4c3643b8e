//! The records of a view shard, each beside its key.
ghost use Rattle.std.specs.Prelude.{◌≡◌, ◌≢◌, ◌&&◌, IfOk, map, not};
ghost use Rattle.row.specs.Cells.{cell_at, datum_of, has_shard};
ghost use Rattle.packet.specs.Keys.{is_among};
ghost use Rattle.stage_steps.specs.Told.{keyed_for, told_changes};

use packet::keyed::Keyed;
use row::record::Record;
use row::value::Value;
use std::alloc::{AllocError, Global};

/// The records whose row has shard `shard` of `shards` in the column, each beside its value there,
/// in their order, but for those whose value is evicted. Errors: memory only. Cost: a look at each
/// record, and for each of those a copy, and a look at what is evicted.
pub(crate) fn keyed_for(
    alloc: Global,
    column: usize,
    shards: usize,
    shard: usize,
    records: &[Record],
    evicts: &[Value],
) -> Result<Vec<Keyed>, AllocError>
    requires { shards ≢ 0 }
    ensures { IfOk result (λ v. v.items ≡ told_changes (map datum_of evicts.now)
        (keyed_for column shards shard records.now)) }
{
    let mut all = Vec::new(alloc);
    for record in records {
        if is_told(column, shards, shard, record, evicts) {
            all.push(keyed(alloc, column, record)?)?;
        }
    }
    Ok(all)
}

/// Whether the record's row has the shard, and its value is not evicted.
fn is_told(column: usize, shards: usize, shard: usize, signed: &Record, evicts: &[Value]) -> bool
    requires { shards ≢ 0 }
    ensures { result ≡ (has_shard column shards shard signed.now.row
        && not (is_among (map datum_of evicts.now) (cell_at signed.now.row column))) }
{
    if !signed.row.has_shard(column, shards, shard) {
        return false;
    }
    !is_among(evicts, signed.row.cell_or_zero(column).value())
}

/// Whether the value is among these.
fn is_among(values: &[Value], value: &Value) -> bool
    ensures { result ≡ is_among (map datum_of values.now) (datum_of value.now) }
{
    values.contains(value)
}

/// The record beside its value in the column, zero past the row's end.
fn keyed(alloc: Global, column: usize, signed: &Record) -> Result<Keyed, AllocError>
    ensures { IfOk result (λ c. c ≡ record {
      key = cell_at signed.now.row column;
      change = signed.now;
    }) }
{
    let key = signed.row.cell_or_zero(column).value().try_clone(alloc)?;
    Ok(Keyed::new(key, signed.try_clone(alloc)?))
}
