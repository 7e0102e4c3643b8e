//! Records of keys that wait.
ghost use Rattle.std.specs.Prelude.{◌≡◌, ℕ, Option, ◌&&◌, ◌++◌, ◌∷◌, [], true, IfOk, OnOk, if◌then◌else◌};
ghost use Rattle.std.specs.Map.{lookup};
ghost use Rattle.row.specs.{Cells.datum_of, Cells.has, Changes.IsCovered, Groups.equal, declared.value.Value.Value as Key};
ghost use Rattle.plan.specs.declared.kinds.Aggregate.{Aggregate as Read};
ghost use Rattle.partial.specs.States.{ChangeFits, is_waiting, state_of};
ghost use Rattle.packet.specs.{Groups.changed_by, Groups.names_of, Groups.records_at, Keys.is_among, Keys.stands_of};
ghost use Rattle.right_rows.specs.Rights.{AreKeyed, AreRecordsOf, is_key, records_of};

use packet::groups::Groups;
use partial::partial::Partial;
use row::bag::Bag;
use row::record::Record;
use row::row::Row;
use row::value::Value;
use std::alloc::{AllocError, Global};

/// The key of the row, where it waits.
fn waiting_key(
    alloc: Global,
    kept: &Partial<Value, Bag>,
    column: usize,
    row: &Row,
) -> Result<Option<Value>, AllocError>
    ensures { IfOk result (λ o. (k : Key) → is_key o (datum_of k)
        ≡ (has column (datum_of k) row.now && is_waiting (state_of equal kept.now k))) }
{
    let Some(cell) = row.get(column) else {
        return Ok(None);
    };
    let key = cell.value();
    if !kept.waits(key) {
        return Ok(None);
    }
    Ok(Some(key.try_clone(alloc)?))
}

/// Puts the record last in the group of its row's key, where that waits.
fn put_waiting(
    alloc: Global,
    kept: &Partial<Value, Bag>,
    column: usize,
    change: Record,
    groups: &mut Groups,
) -> Result<(), AllocError>
    ensures { OnOk result ((k : Key) → records_at groups.new (datum_of k)
        ≡ (if has column (datum_of k) change.row && is_waiting (state_of equal kept.now k) then
        records_at groups.old (datum_of k) ++ change ∷ [] else
        records_at groups.old (datum_of k))) }
{
    match waiting_key(alloc, kept, column, &change.row)? {
        Some(key) => groups.push(alloc, key, change),
        None => Ok(()),
    }
}

/// The records whose row has a key in the column that waits, in groups. Errors: memory only. Cost:
/// for each record a look-up by hash, and where its key waits a copy of the key and another
/// look-up; no record is copied.
pub(crate) fn waiting_groups(
    alloc: Global,
    kept: &Partial<Value, Bag>,
    column: usize,
    records: Vec<Record>,
) -> Result<Groups, AllocError>
    ensures { IfOk result (λ g. (k : Key) → records_at g (datum_of k)
        ≡ (if is_waiting (state_of equal kept.now k) then
        records_of column (datum_of k) records.items else [])) }
{
    let mut groups = Groups::new(alloc);
    for change in records {
        put_waiting(alloc, kept, column, change, &mut groups)?;
    }
    Ok(groups)
}

/// Takes in the records of a source by key: a filled key takes them, of a gather the piece of the
/// source, where it is here. Errors: memory only; then some keys have taken theirs. Cost: for each
/// key two look-ups by hash, and for each record that of `Bag::apply`.
pub(crate) fn change_groups(
    alloc: Global,
    kept: &mut Partial<Value, Bag>,
    source: usize,
    groups: Groups,
) -> Result<(), AllocError>
    requires { (k : Key) → is_among (names_of groups) (datum_of k) ≡ true → ChangeFits IsCovered
        source (records_at groups (datum_of k)) (state_of equal kept.old k) }
    ensures sources { kept.new.sources ≡ kept.old.sources }
    ensures stands { stands_of kept.new ≡ stands_of kept.old }
    ensures state { OnOk result ((k : Key) → state_of equal kept.new k
        ≡ changed_by source (lookup (equal k) groups) (state_of equal kept.old k)) }
    ensures keyed { (column : ℕ) (aggregate : Option Read) → ((k : Key) → AreRecordsOf column
        aggregate (datum_of k) (records_at groups (datum_of k)))
        → AreKeyed column aggregate kept.old → AreKeyed column aggregate kept.new }
{
    for (key, records) in groups.into_iter() {
        records.apply_at(alloc, kept, source, &key)?;
        drop(key);
    }
    Ok(())
}
