//! Records by the shard of a column.
ghost use Rattle.std.specs.Prelude.{◌≡◌, ◌≢◌, List, ◌∷◌, ◌++◌, [], map, length, replicate, IfOk, OnOk};
ghost use Rattle.row.specs.declared.record.Record.{Record as RecordView};
ghost use Rattle.packet.specs.Split.{parts_by};

use row::record::Record;
use row::value::shard_of;
use std::alloc::{AllocError, Global};

/// The records of each of n parts, in their order: part j has those whose row has shard j of n in
/// the column. A record whose row has no such column is of no part. Errors: memory only. Cost: one
/// pass; each record is moved once, and none is copied.
pub fn split(
    alloc: Global,
    records: Vec<Record>,
    column: usize,
    n: usize,
) -> Result<Vec<Vec<Record>>, AllocError>
    requires { n ≢ 0 }
    ensures { IfOk result (λ v. map (λ w. w.items) v.items ≡ parts_by column n records.items) }
{
    let mut parts = empty_parts(alloc, n)?;
    for record in records {
        put(&mut parts, column, record)?;
    }
    Ok(parts)
}

/// So many parts with no record.
fn empty_parts(alloc: Global, n: usize) -> Result<Vec<Vec<Record>>, AllocError>
    ensures { IfOk result (λ v. map (λ w. w.items) v.items ≡ replicate n []) }
{
    let mut parts = Vec::new(alloc);
    for _ in 0..n {
        parts.push(Vec::new(alloc))?;
    }
    Ok(parts)
}

/// Puts the record behind those of its part.
fn put(parts: &mut Vec<Vec<Record>>, column: usize, signed: Record) -> Result<(), AllocError>
    requires { length parts.old.items ≢ 0 }
    ensures { (rs : List RecordView) → map (λ w. w.items) parts.old.items
        ≡ parts_by column (length parts.old.items) rs → OnOk result (map (λ w. w.items)
        parts.new.items ≡ parts_by column (length parts.old.items) (rs ++ signed ∷ [])) }
{
    let Some(cell) = signed.row.get(column) else {
        return Ok(());
    };
    let part = shard_of(cell.value(), parts.len());
    drop(cell);
    parts[part].push(signed)?;
    Ok(())
}
