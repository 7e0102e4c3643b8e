//! A map from values that keeps a whole number below 2^32 in four bytes.
ghost use Rattle.std.specs.Prelude.{◌≡◌, ◌<◌, ◌≤◌, [], Some, None, length, IfOk, IsOk, OnOk, OnErr, if◌then◌else◌};
ghost use Rattle.std.specs.Borrow.{sem};
ghost use Rattle.std.specs.HashMap.{get, values, spare, IsReordered, IsUnchanged, IsUnique, PutsEntry};
ghost use Rattle.std.specs.List.Sorted.{IsPermutation};
ghost use Rattle.std.specs.Map.{remove_entry};
ghost use Rattle.std.specs.Map.Iter.{TakesFirst, deref};
ghost use Rattle.std.specs.Option.{option_copied, option_copied_mut};
ghost use Rattle.std.specs.Iterator.{at_most};
ghost use Rattle.row.specs.{Cells.datum_of, Groups.equal, ValueMaps.kept_key, ValueMaps.small_in, ValueMapLends.lends_get, declared.value.Value.Value as Key};

use crate::room::reserve_one;
use crate::value::Value;
use std::alloc::{AllocError, Global};
use std::collections::{HashMap, hash_map};
use std::marker::Model;

/// A map from values. A whole number below 2^32, however it is held, takes four bytes as a key, a
/// quarter of what another key takes. It is seen as one of std's maps, which has room where there is
/// room for whichever key comes.
pub struct ValueMap<V> {
    numbers: HashMap<u32, V>,
    others: HashMap<Value, V>,
}

// What holds one drops it by this call, and need not know its parts.
impl<V: Drop> Drop for ValueMap<V> {
    fn drop(self) {
        let ValueMap {
            numbers: _,
            others: _,
        } = self;
    }
}

impl<V> Model for ValueMap<V> {
    ghost use Rattle.std.specs.Prelude.{⊤};
    ghost use Rattle.std.specs.HashMap.{HashMap as Entries};
    ghost use Rattle.row.specs.{ValueMaps.IsParted, ValueMaps.whole, declared.value.Value.Value as Key};
    ghost use Rattle.std_collections.specs.Layout.HashMap.{hash_map_code};
    ghost use Rattle.row.specs.contracts.value.Value as value;
    ghost use base.Stored.{coded_unit};

    ghost Value = { Entries Key V ⊤ };

    ghost coded = { hash_map_code value.the_row.coded V.code coded_unit };

    ghost view = { λ m. whole m.numbers m.others };

    ghost invariant = { λ m. IsParted m.numbers m.others };
}

impl<V> ValueMap<V> {
    /// A map of no keys. Takes no memory.
    pub fn new(alloc: Global) -> ValueMap<V>
        ensures empty { result.entries ≡ [] }
        ensures unique { IsUnique equal result }
    {
        ValueMap {
            numbers: HashMap::new(alloc),
            others: HashMap::new(alloc),
        }
    }

    /// What the key has. One look-up by hash; takes no memory.
    #[inline]
    pub fn get(&self, key: &Value) -> Option<&V>
        ensures { option_copied result ≡ get equal self.now key.now }
    {
        match small_of(key) {
            Some(number) => self.numbers.get(&number),
            None => self.others.get(key),
        }
    }

    /// What the key has, to be changed. One look-up by hash; takes no memory.
    #[inline]
    pub fn get_mut(&mut self, key: &Value) -> Option<&mut V>
        ensures* writes_back { sem 𝓛 (lends_get V.row self.entry key.now result) }
        ensures value { option_copied_mut result ≡ get equal self.old key.now }
        ensures unique { IsUnique equal self.old }
    {
        match small_of(key) {
            Some(number) => self.numbers.get_mut(&number),
            None => self.others.get_mut(key),
        }
    }

    /// What all keys have, in some order. Takes no memory.
    pub fn values(&self) -> Values<'_, V>
        ensures { result ≡ values self.now }
    {
        Values {
            numbers: self.numbers.values(),
            others: self.others.values(),
        }
    }

    /// Room for one key more, whichever it is. Errors: memory only; then all keys have what they had.
    /// Cost: that of `room::reserve_one` for the numbers below 2^32 and for the other keys, so that a
    /// map of one kind has room for a few keys of the other.
    pub fn reserve_one(&mut self) -> Result<(), AllocError>
        ensures entries { IsReordered equal self.old self.new }
        ensures ok { OnOk result (0 < spare self.new) }
        ensures spare { spare self.old ≤ spare self.new }
        ensures unique { IsUnique equal self.new }
    {
        reserve_one(&mut self.numbers)?;
        reserve_one(&mut self.others)
    }

    /// Puts the value at the key, in the place of what the key has, which it hands back. Errors: memory
    /// only, and none where there is room; then all is as it was. One look-up by hash; where there is no
    /// room, a move of entries to a larger table.
    pub fn insert(&mut self, key: Value, value: V) -> Result<Option<V>, AllocError>
    where
        V: Drop,
        ensures old { IfOk result (λ old. old ≡ get equal self.old key) }
        ensures updates { OnOk result ((k : Key) → get equal self.new k
            ≡ (if equal key k then Some value else get equal self.old k)) }
        ensures entries { IfOk result (PutsEntry equal self.old self.new (kept_key key) value) }
        ensures err { OnErr result (IsUnchanged self.old self.new) }
        ensures succeeds { 0 < spare self.old → IsOk result }
        ensures unique { IsUnique equal self.new }
    {
        match small_of(&key) {
            Some(number) => Ok(self.numbers.insert(number, value)?),
            None => Ok(self.others.insert(key, value)?),
        }
    }

    /// Takes the key away, and hands back what it has. One look-up by hash; takes no memory.
    pub fn remove(&mut self, key: &Value) -> Option<V>
        ensures value { result ≡ get equal self.old key.now }
        ensures updates { (k : Key) → get equal self.new k
            ≡ (if equal key.now k then None else get equal self.old k) }
        ensures entries { IsPermutation (remove_entry (equal key.now) self.old.entries)
            self.new.entries }
        ensures spare { spare self.old ≤ spare self.new }
        ensures unique { IsUnique equal self.new }
    {
        match small_of(key) {
            Some(number) => self.numbers.remove(&number),
            None => self.others.remove(key),
        }
    }
}

/// The number that the value is, where it is a whole one below 2^32.
#[inline]
fn small_of(value: &Value) -> Option<u32>
    ensures { result ≡ small_in (datum_of value.now) }
{
    match value {
        Value::Int(number) => u32::try_from(*number).ok(),
        Value::Long(number) => u32::try_from(**number).ok(),
        Value::Short(_) | Value::Text(_) => None,
    }
}

/// What all keys of a map have, seen as the list of those that are left.
#[derive(Drop)]
pub struct Values<'a, V> {
    numbers: hash_map::Values<'a, u32, V>,
    others: hash_map::Values<'a, Value, V>,
}

impl<'a, V> Model for Values<'a, V> {
    ghost use Rattle.std.specs.Prelude.{List, ◌++◌};

    ghost Value = { List V };

    ghost view = { λ a. a.numbers ++ a.others };
}

impl<'a, V> Iterator for Values<'a, V> {
    type Item = &'a V;

    ghost next_gives = { TakesFirst deref };

    ghost remaining = { λ s. at_most (length s) };

    fn next(&mut self) -> Option<&'a V> {
        match self.numbers.next() {
            Some(value) => Some(value),
            None => self.others.next(),
        }
    }
}
