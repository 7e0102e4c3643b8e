//! The records of a packet by key, of which most packets have one.
ghost use Rattle.std.specs.Prelude.{◌≡◌, [], true, List, Option, IfOk, IfSome, OnOk, length, map};
ghost use Rattle.std.specs.Map.{lookup};
ghost use Rattle.row.specs.{Bags.Each, Cells.Cells, Cells.Datum, Cells.datum_of, Changes.IsCovered, Groups.equal, declared.value.Value.Value as Key};
ghost use Rattle.partial.specs.States.{ChangeFits, state_of};
ghost use Rattle.packet.specs.{Messages.KeyedRecord, Keys.is_among, Keys.stands_of, Groups.changed_by, Groups.named_in, Groups.names_of, Groups.records_at, Truth.changes_at};
ghost use Rattle.view_domain.specs.{Parts.AreOf, Parts.groups_of, Shown.LeadsTo};

use crate::keys::{change_key, change_keys};
use crate::shown::KeyChange;
use key_rows::kept::KeyRows;
use packet::groups::{Group, Groups, grouped};
use packet::keyed::Keyed;
use partial::partial::Partial;
use row::value::Value;
use std::alloc::{AllocError, Global};

/// The records of a packet by key: where all are of one key, there is no table of keys.
#[derive(Drop)]
pub(crate) enum Parted {
    One { key: Value, records: Group },
    All(Groups),
}

/// A copy of the key that all of these have, if they have one.
fn only_key(alloc: Global, changes: &[Keyed]) -> Result<Option<Value>, AllocError>
    ensures { IfOk result (λ o. IfSome o (λ k. AreOf (datum_of k) changes.now)) }
{
    let Some(first) = changes.first() else {
        return Ok(None);
    };
    for keyed in changes {
        if keyed.key() != first.key() {
            return Ok(None);
        }
    }
    Ok(Some(first.key().try_clone(alloc)?))
}

/// The records, without their keys.
fn records_of(alloc: Global, changes: Vec<Keyed>) -> Result<Group, AllocError>
    ensures { IfOk result (λ g. g ≡ map (λ (c : KeyedRecord). c.change) changes.items) }
{
    let mut group = Group::new(alloc);
    for keyed in changes {
        let (_key, change) = keyed.into_parts();
        group.push(change)?;
    }
    Ok(group)
}

/// The records of a packet by key. Errors: memory only. Cost: a look at each key; where they are of
/// one, a copy of that, else what `grouped` costs. Each record is moved, and none is copied.
pub(crate) fn part_by_key(alloc: Global, changes: Vec<Keyed>) -> Result<Parted, AllocError>
    ensures records { IfOk result (λ p. (d : Datum) → records_at (groups_of p) d
        ≡ changes_at d changes.items) }
    ensures names { IfOk result (λ p. (d : Datum) → is_among (names_of (groups_of p)) d
        ≡ is_among (named_in changes.items) d) }
{
    match only_key(alloc, &changes)? {
        Some(key) => {
            let records = records_of(alloc, changes)?;
            Ok(Parted::One { key, records })
        }
        None => {
            let groups = grouped(alloc, changes)?;
            Ok(Parted::All(groups))
        }
    }
}

/// Takes in the records of a source by key, as `change_keys` does.
pub(crate) fn change_parted(
    alloc: Global,
    kept: &mut Partial<Value, KeyRows>,
    source: usize,
    records: Parted,
    told: &mut Vec<KeyChange>,
) -> Result<(), AllocError>
    requires { (k : Key) → is_among (names_of (groups_of records)) (datum_of k) ≡ true → ChangeFits
        IsCovered source (records_at (groups_of records) (datum_of k)) (state_of equal kept.old k) }
    ensures sources { kept.new.sources ≡ kept.old.sources }
    ensures stands { OnOk result (stands_of kept.new ≡ stands_of kept.old) }
    ensures state { OnOk result ((k : Key) → state_of equal kept.new k
        ≡ changed_by source (lookup (equal k) (groups_of records)) (state_of equal kept.old k)) }
    ensures shown { (first : Key → Option (List Cells)) → LeadsTo first told.old.items kept.old
        → OnOk result (LeadsTo first told.new.items kept.new) }
{
    match records {
        Parted::One { key, records } => change_key(alloc, kept, source, key, records, told),
        Parted::All(groups) => change_keys(alloc, kept, source, groups, told),
    }
}
