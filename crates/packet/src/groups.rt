//! Records in groups, one for each key.
ghost use Rattle.std.specs.Prelude.{◌≡◌, ◌++◌, ◌∷◌, ◌||◌, [], IfOk, OnOk, OnErr, if◌then◌else◌};
ghost use Rattle.std.specs.List.{IsDistinct};
ghost use Rattle.std.specs.Map.{keys_of};
ghost use Rattle.row.specs.{Cells.Datum, Cells.datum_of, Cells.same, BagChanges.with_records, Changes.IsCovered, Groups.equal};
ghost use Rattle.partial.specs.States.{ChangeFits, OthersStay, after_change, state_of};
ghost use Rattle.packet.specs.{Keys.is_among, Keys.stands_of, Groups.records_at, Groups.names_of, Groups.named_in, Truth.changes_at};

use crate::keyed::Keyed;
use partial::partial::Partial;
use row::bag::Bag;
use row::record::Record;
use row::value::Value;
use std::alloc::{AllocError, Global};
use std::collections::HashMap;
use std::collections::hash_map::IntoIter;
use std::marker::Model;

/// The records of one key, in order.
#[derive(Drop)]
pub struct Group {
    records: Vec<Record>,
}

impl Model for Group {
    ghost use Rattle.std.specs.Prelude.{List};
    ghost use Rattle.row.specs.declared.record.Record.{Record as Change};

    ghost Value = { List Change };

    ghost view = { λ g. g.records.items };
}

impl Group {
    /// No records. Takes no memory yet.
    pub fn new(alloc: Global) -> Group
        ensures { result ≡ [] }
    {
        Group {
            records: Vec::new(alloc),
        }
    }

    /// Puts a record last. Errors: memory only.
    pub fn push(&mut self, change: Record) -> Result<(), AllocError>
        ensures { OnOk result (self.new ≡ self.old ++ change ∷ []) }
    {
        self.records.push(change)?;
        Ok(())
    }

    /// Applies the records as one change of the part that a source has of the key: a filled key
    /// takes them, of a gather the piece of the source, where it is here; else they are dropped.
    /// Errors: memory only; then all is as it was. Cost: a look-up by hash, for a filled key two,
    /// and for each record that of `Bag::apply`.
    pub fn apply_at(
        &self,
        alloc: Global,
        kept: &mut Partial<Value, Bag>,
        source: usize,
        key: &Value,
    ) -> Result<(), AllocError>
        requires { ChangeFits IsCovered source self.now (state_of equal kept.old key.now) }
        ensures sources { kept.new.sources ≡ kept.old.sources }
        ensures stands { stands_of kept.new ≡ stands_of kept.old }
        ensures state { OnOk result (state_of equal kept.new key.now
            ≡ after_change with_records source self.now (state_of equal kept.old key.now)) }
        ensures others { OthersStay equal key.now kept.old kept.new }
        ensures err { OnErr result (kept.new ≡ kept.old) }
    {
        kept.apply(alloc, key, source, &self.records)
    }

    /// The records in order. Constant time.
    pub fn records(&self) -> &Vec<Record>
        ensures { result.now.items ≡ self.now }
    {
        &self.records
    }
}

/// Records in groups, one for each key, in any order.
#[derive(Drop)]
pub struct Groups {
    groups: HashMap<Value, Group>,
}

impl Model for Groups {
    ghost use Rattle.packet.specs.Groups.{KeyedRecords};

    ghost Value = { KeyedRecords };

    ghost view = { λ g. g.groups.entries };
}

impl Groups {
    /// Puts a record last in the group of the key. Errors: memory only. Cost: one look-up by hash;
    /// the record is moved, and the key where it is the first of its group.
    pub fn push(&mut self, alloc: Global, key: Value, change: Record) -> Result<(), AllocError>
        ensures records { OnOk result ((d : Datum) → records_at self.new d
            ≡ (if same (datum_of key) d then records_at self.old d ++ change ∷ [] else records_at
            self.old d)) }
        ensures names { OnOk result ((d : Datum) → is_among (names_of self.new) d
            ≡ (is_among (names_of self.old) d || same (datum_of key) d)) }
    {
        match self.groups.get_mut(&key) {
            Some(group) => group.push(change),
            None => {
                let mut group = Group::new(alloc);
                group.push(change)?;
                self.groups.insert(key, group)?;
                Ok(())
            }
        }
    }

    /// No groups. Takes no memory yet.
    pub fn new(alloc: Global) -> Groups
        ensures { result ≡ [] }
    {
        Groups {
            groups: HashMap::new(alloc),
        }
    }

    /// The keys with their groups, moved out of it. Each key is there once.
    pub fn into_iter(self) -> IntoIter<Value, Group, Global>
        ensures rest { result ≡ self }
        ensures distinct { IsDistinct equal (keys_of self) }
    {
        self.groups.into_iter()
    }
}

/// The records of packets' changes in groups, one for each key. Errors: memory only. Cost: one
/// look-up by hash for each; each record is moved once, and none is copied.
pub fn grouped(alloc: Global, changes: Vec<Keyed>) -> Result<Groups, AllocError>
    ensures records { IfOk result (λ g. (d : Datum) → records_at g d ≡ changes_at d changes.items) }
    ensures names { IfOk result (λ g. (d : Datum) → is_among (names_of g) d
        ≡ is_among (named_in changes.items) d) }
{
    let mut groups = Groups::new(alloc);
    for keyed in changes {
        let (key, change) = keyed.into_parts();
        groups.push(alloc, key, change)?;
    }
    Ok(groups)
}
