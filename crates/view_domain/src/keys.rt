//! What a view shard does with keys.
ghost use Rattle.std.specs.Prelude.{if◌then◌else◌, is_some, true, false, ◌≡◌, ◌++◌, ◌∷◌, [], List, Option, Some, map, slice_get, OnErr, OnOk};
ghost use Rattle.std.specs.Map.{lookup};
ghost use Rattle.row.specs.{Cells.Cells, Cells.datum_of, Changes.IsCovered, Groups.equal, declared.value.Value.Value as Key, BagChanges.with_records};
ghost use Rattle.partial.specs.{States.Kept, States.after_change, States.OthersStay, States.state_of, States.ChangeFits, Sums.sum_of_bags, Truth.IsTrueOf};
ghost use Rattle.packet.specs.{Keys.Ascends, Keys.is_among, Keys.stands_of, Keys.open_at, Keys.drop_at, Keys.give_at, Groups.names_of, Groups.records_at, Groups.changed_by};
ghost use Rattle.protocol.specs.ViewSteps.{drop_all, again, capped, oldest_open};
ghost use Rattle.view_domain.specs.{Shown.rows_at, Shown.LeadsTo, Shown.gone_by, Shown.told_of, Shown.asked_by, Taken.evicted_all};

use crate::shown::KeyChange;
use key_rows::kept::KeyRows;
use packet::groups::{Group, Groups};
use partial::partial::{Evicted, Partial};
use row::value::Value;
use std::alloc::{AllocError, Global};

/// Says what an eviction of the key has done: a filled key goes, and a piece is asked for again.
fn note_evicted(
    what: Evicted,
    key: Value,
    told: &mut Vec<KeyChange>,
    asks: &mut Vec<Value>,
) -> Result<(), AllocError>
    ensures told { OnOk result (told.new.items ≡ told.old.items ++ gone_by what key) }
    ensures asks { OnOk result (map datum_of asks.new.items
        ≡ map datum_of asks.old.items ++ asked_by what (datum_of key)) }
{
    match what {
        Evicted::Entry => told.push(KeyChange::Goes { key })?,
        Evicted::Piece => asks.push(key)?,
        Evicted::Nothing => {}
    }
    Ok(())
}

/// Evicts a key for a source, and says what that has done.
fn evict_key(
    kept: &mut Partial<Value, KeyRows>,
    source: usize,
    key: Value,
    told: &mut Vec<KeyChange>,
    asks: &mut Vec<Value>,
) -> Result<(), AllocError>
    ensures sources { kept.new.sources ≡ kept.old.sources }
    ensures stands { stands_of kept.new ≡ drop_at source (datum_of key) (stands_of kept.old) }
    ensures state { (k : Key) → state_of equal kept.new k
        ≡ evicted_all source (datum_of key ∷ []) (datum_of k) (state_of equal kept.old k) }
    ensures shown { (first : Key → Option (List Cells)) → LeadsTo first told.old.items kept.old
        → OnOk result (LeadsTo first told.new.items kept.new) }
    ensures asks { OnOk result (map datum_of asks.new.items ≡ map datum_of asks.old.items
        ++ again source (datum_of key ∷ []) (stands_of kept.old)) }
{
    let what = kept.evict(&key, Some(source));
    note_evicted(what, key, told, asks)
}

/// Evicts the keys, each once, for a source, in order: a filled one becomes a hole, of a gather the
/// piece of the source goes, which is to be asked for again. Says what becomes of keys behind what
/// was told, and the keys to ask for behind those of before. Errors: memory only; how far it came
/// is then not said. Cost: one look-up for each key; no key is copied.
pub fn evict_keys(
    kept: &mut Partial<Value, KeyRows>,
    source: usize,
    keys: Vec<Value>,
    told: &mut Vec<KeyChange>,
    asks: &mut Vec<Value>,
) -> Result<(), AllocError>
    requires { Ascends (map datum_of keys.items) }
    ensures sources { kept.new.sources ≡ kept.old.sources }
    ensures stands { OnOk result (stands_of kept.new
        ≡ drop_all source (map datum_of keys.items) (stands_of kept.old)) }
    ensures state { OnOk result ((k : Key) → state_of equal kept.new k
        ≡ evicted_all source (map datum_of keys.items) (datum_of k) (state_of equal kept.old k)) }
    ensures shown { (first : Key → Option (List Cells)) → LeadsTo first told.old.items kept.old
        → OnOk result (LeadsTo first told.new.items kept.new) }
    ensures asks { OnOk result (map datum_of asks.new.items ≡ map datum_of asks.old.items
        ++ again source (map datum_of keys.items) (stands_of kept.old)) }
{
    for key in keys {
        evict_key(kept, source, key, told, asks)?;
    }
    Ok(())
}

/// Tells of a change of a key that is shown.
fn tell_if(told: &mut Vec<KeyChange>, shown: bool, change: KeyChange) -> Result<(), AllocError>
    ensures { OnOk result (told.new.items
        ≡ (if shown then told.old.items ++ change ∷ [] else told.old.items)) }
{
    if shown {
        told.push(change)?;
    }
    Ok(())
}

/// Applies the records as one change of the part that a source has of the key. Errors: memory only;
/// then all is as it was. Cost: at most two look-ups by hash, and that of the change.
fn apply_at(
    alloc: Global,
    kept: &mut Partial<Value, KeyRows>,
    source: usize,
    key: &Value,
    group: &Group,
) -> Result<(), AllocError>
    requires { ChangeFits IsCovered source group.now (state_of equal kept.old key.now) }
    ensures sources { kept.new.sources ≡ kept.old.sources }
    ensures stands { stands_of kept.new ≡ stands_of kept.old }
    ensures state { OnOk result (state_of equal kept.new key.now
        ≡ after_change with_records source group.now (state_of equal kept.old key.now)) }
    ensures others { OthersStay equal key.now kept.old kept.new }
    ensures err { OnErr result (kept.new ≡ kept.old) }
{
    kept.apply(alloc, key, source, group.records())
}

/// Takes in the records of a key, and says what that changes. Errors: memory only; the records may
/// then be taken in, with nothing told. Cost: at most three look-ups by hash, and that of the change.
pub(crate) fn change_key(
    alloc: Global,
    kept: &mut Partial<Value, KeyRows>,
    source: usize,
    key: Value,
    group: Group,
    told: &mut Vec<KeyChange>,
) -> Result<(), AllocError>
    requires { ChangeFits IsCovered source group (state_of equal kept.old key) }
    ensures sources { kept.new.sources ≡ kept.old.sources }
    ensures stands { OnOk result (stands_of kept.new ≡ stands_of kept.old) }
    ensures state { OnOk result (state_of equal kept.new key
        ≡ after_change with_records source group (state_of equal kept.old key)) }
    ensures others { OthersStay equal key kept.old kept.new }
    ensures shown { (first : Key → Option (List Cells)) → LeadsTo first told.old.items kept.old
        → OnOk result (LeadsTo first told.new.items kept.new) }
{
    apply_at(alloc, kept, source, &key, &group)?;
    tell_rows(alloc, kept, key, told)
}

/// Says of a key that is filled which rows it has, which it shares with what it tells.
fn tell_rows(
    alloc: Global,
    kept: &Partial<Value, KeyRows>,
    key: Value,
    told: &mut Vec<KeyChange>,
) -> Result<(), AllocError>
    ensures { OnOk result (told.new.items
        ≡ told.old.items ++ told_of key (rows_at kept.now key)) }
{
    let Some(rows) = kept.get(&key) else {
        return Ok(());
    };
    let rows = rows.shared(alloc)?;
    told.push(KeyChange::Fills { key, rows })?;
    Ok(())
}

/// Takes in the records of a source by key: a filled key takes them, of a gather the piece of the
/// source, where it is here. Says what becomes of filled keys behind what was told. Errors: memory
/// only; how far it came is then not said. Cost: for each key two look-ups, and that of
/// `KeyRows::apply`.
pub fn change_keys(
    alloc: Global,
    kept: &mut Partial<Value, KeyRows>,
    source: usize,
    groups: Groups,
    told: &mut Vec<KeyChange>,
) -> Result<(), AllocError>
    requires { (k : Key) → is_among (names_of groups) (datum_of k) ≡ true → ChangeFits IsCovered
        source (records_at groups (datum_of k)) (state_of equal kept.old k) }
    ensures sources { kept.new.sources ≡ kept.old.sources }
    ensures stands { OnOk result (stands_of kept.new ≡ stands_of kept.old) }
    ensures state { OnOk result ((k : Key) → state_of equal kept.new k
        ≡ changed_by source (lookup (equal k) groups) (state_of equal kept.old k)) }
    ensures shown { (first : Key → Option (List Cells)) → LeadsTo first told.old.items kept.old
        → OnOk result (LeadsTo first told.new.items kept.new) }
{
    for (key, records) in groups.into_iter() {
        change_key(alloc, kept, source, key, records, told)?;
    }
    Ok(())
}

/// Says of a key that has just been filled that it has its rows, which it shares with what it tells.
#[tactic(auto, using(crate::proofs::StateSteps::leads_same))]
fn tell_filled(
    alloc: Global,
    kept: &Partial<Value, KeyRows>,
    key: Value,
    filled: bool,
    told: &mut Vec<KeyChange>,
) -> Result<(), AllocError>
    ensures { (first : Key → Option (List Cells)) (old : Kept Key (List Cells))
        → (filled ≡ true → is_some (rows_at kept.now key) ≡ true)
        → (filled ≡ false → rows_at kept.now key ≡ rows_at old key)
        → OthersStay equal key old kept.now → LeadsTo first told.old.items old
        → OnOk result (LeadsTo first told.new.items kept.now) }
{
    let rows = match kept.get(&key) {
        Some(rows) if filled => rows.shared(alloc)?,
        _ => return Ok(()),
    };
    told.push(KeyChange::Fills { key, rows })?;
    Ok(())
}

/// Takes in the piece of a source for a key: it is taken where it is missing, and with the last one
/// the key is filled, behind all that are. Says so behind what was told. Errors: memory only; what
/// is kept is then not said. Cost: that of `Partial::give_piece`.
pub fn fill_key(
    alloc: Global,
    source: usize,
    key: Value,
    rows: KeyRows,
    kept: &mut Partial<Value, KeyRows>,
    told: &mut Vec<KeyChange>,
) -> Result<(), AllocError>
    ensures sources { kept.new.sources ≡ kept.old.sources }
    ensures stands { OnOk result (stands_of kept.new
        ≡ give_at source (datum_of key) (stands_of kept.old)) }
    ensures truth { (k : Key) (parts : List (List Cells))
        → (equal key k ≡ true → slice_get parts source ≡ Some rows)
        → IsTrueOf sum_of_bags parts (state_of equal kept.old k)
        → OnOk result (IsTrueOf sum_of_bags parts (state_of equal kept.new k)) }
    ensures shown { (first : Key → Option (List Cells)) → LeadsTo first told.old.items kept.old
        → OnOk result (LeadsTo first told.new.items kept.new) }
{
    let filled = kept.give_piece(alloc, &key, source, rows)?;
    tell_filled(alloc, kept, key, filled, told)
}

/// Makes the key a hole that was filled first, and says so; where none is filled nothing changes.
#[tactic(auto, using(row::proofs::Keys::value_equivalence))]
fn open_oldest(
    kept: &mut Partial<Value, KeyRows>,
    told: &mut Vec<KeyChange>,
) -> Result<(), AllocError>
    ensures sources { kept.new.sources ≡ kept.old.sources }
    ensures stands { stands_of kept.new
        ≡ oldest_open (stands_of kept.old).order (stands_of kept.old) }
    ensures shown { (first : Key → Option (List Cells)) → LeadsTo first told.old.items kept.old
        → OnOk result (LeadsTo first told.new.items kept.new) }
    ensures truth { (k : Key) (parts : List (List Cells))
        → IsTrueOf sum_of_bags parts (state_of equal kept.old k)
        → IsTrueOf sum_of_bags parts (state_of equal kept.new k) }
{
    kept.keeps_apart();
    let Some(key) = kept.evict_oldest() else {
        return Ok(());
    };
    tell_if(told, true, KeyChange::Goes { key })
}

/// Makes keys holes, one after the other from the one that was filled first, until no more than the
/// cap are filled. Says which, behind what was told. Errors: memory only; how far it came is then
/// not said. Constant time for each key that goes.
pub fn cap_keys(
    cap: usize,
    kept: &mut Partial<Value, KeyRows>,
    told: &mut Vec<KeyChange>,
) -> Result<(), AllocError>
    ensures sources { kept.new.sources ≡ kept.old.sources }
    ensures stands { OnOk result (stands_of kept.new ≡ capped cap (stands_of kept.old)) }
    ensures truth { (k : Key) (parts : List (List Cells))
        → IsTrueOf sum_of_bags parts (state_of equal kept.old k)
        → OnOk result (IsTrueOf sum_of_bags parts (state_of equal kept.new k)) }
    ensures shown { (first : Key → Option (List Cells)) → LeadsTo first told.old.items kept.old
        → OnOk result (LeadsTo first told.new.items kept.new) }
{
    for _gone in 0..kept.len().saturating_sub(cap) {
        open_oldest(kept, told)?;
    }
    Ok(())
}

/// Says what an eviction of the key has done: a filled key goes.
fn tell_gone(what: Evicted, key: Value, told: &mut Vec<KeyChange>) -> Result<(), AllocError>
    ensures { OnOk result (told.new.items ≡ told.old.items ++ gone_by what key) }
{
    if let Evicted::Entry = what {
        told.push(KeyChange::Goes { key })?;
    }
    Ok(())
}

/// Makes a filled key a hole, and says so behind what was told; elsewhere nothing changes. Errors:
/// memory only, after the eviction. Constant time.
pub fn open_key(
    kept: &mut Partial<Value, KeyRows>,
    key: Value,
    told: &mut Vec<KeyChange>,
) -> Result<(), AllocError>
    ensures sources { kept.new.sources ≡ kept.old.sources }
    ensures stands { stands_of kept.new ≡ open_at (datum_of key) (stands_of kept.old) }
    ensures truth { (k : Key) (parts : List (List Cells))
        → IsTrueOf sum_of_bags parts (state_of equal kept.old k)
        → IsTrueOf sum_of_bags parts (state_of equal kept.new k) }
    ensures shown { (first : Key → Option (List Cells)) → LeadsTo first told.old.items kept.old
        → OnOk result (LeadsTo first told.new.items kept.new) }
{
    let what = kept.evict(&key, None);
    tell_gone(what, key, told)
}
