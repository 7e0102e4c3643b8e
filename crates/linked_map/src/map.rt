//! `LinkedMap` and its methods. A clause sees a map as its entries, the latest first.
ghost use Rattle.std.specs.Prelude.{◌≡◌, ◌-◌, ◌^◌, ◌≤◌, ◌<◌, [], length, reverse, slice_get, take, Some, OnOk, OnErr};
ghost use Rattle.std.specs.Borrow.{sem};
ghost use Rattle.std.specs.List.{IsDistinct};
ghost use Rattle.std.specs.Map.{keys_of, lookup, remove_entry};
ghost use Rattle.std.specs.Map.Iter.{deref_pair};
ghost use Rattle.std.specs.Option.{option_copied, option_copied_mut, option_map};
ghost use Rattle.indexmap.specs.IndexMap.{IsUnchanged, index_map_len, spare};
ghost use Rattle.linked_map.specs.LinkedMap.{last_entry, put_entries};
ghost use Rattle.linked_map.specs.Orders.{IsOrder, entries_at, without};

use crate::iter::Iter;
use crate::ring::Ring;
use indexmap::IndexMap;
use std::alloc::{AllocError, Global};
use std::hash::Hash;
use std::marker::Model;

/// A hash map whose entries stand in an order: an entry that is put in stands before all others.
///
/// It holds at most 2^32 - 1 entries. Beside an entry it keeps two positions of four bytes and the
/// hash table's part, and at most a sixteenth of its room lies empty after it grew.
#[derive(Drop)]
pub struct LinkedMap<K: Eq + Hash, V> {
    map: IndexMap<K, V>,
    ring: Ring,
}

impl<K: Eq + Hash, V> Model for LinkedMap<K, V> {
    ghost use Rattle.std.specs.Prelude.{◌≡◌, List, length};
    ghost use Rattle.linked_map.specs.Orders.{entries_at};

    ghost Value = { List (K × V) };

    ghost view = { λ m. entries_at m.map.entries m.ring };

    ghost invariant = { λ m. length m.ring ≡ length m.map.entries };
}

impl<K: Eq + Hash, V> LinkedMap<K, V> {
    ghost use Rattle.linked_map.specs.Lends.{lends_value};

    /// No entry. Takes no memory.
    pub fn new(alloc: Global) -> LinkedMap<K, V>
        ensures { result ≡ [] }
    {
        LinkedMap {
            map: IndexMap::new(alloc),
            ring: Ring::new(alloc),
        }
    }

    /// How many entries there are. Constant time. A caller also learns that no key is there twice.
    pub fn len(&self) -> usize
        ensures len { result ≡ length self.now }
        ensures small { result < 2 ^ 32 }
        ensures unique { IsDistinct K.eq (keys_of self.now) }
    {
        let _len = self.map.len();
        self.ring.len()
    }

    /// The value of the key. Leaves the order as it is. Takes no memory. Constant time.
    pub fn peek(&self, key: &K) -> Option<&V>
        ensures { option_copied result ≡ lookup (K.eq key.now) self.now }
    {
        let _len = self.ring.len();
        let place = self.map.get_index_of(key)?;
        let (_, value) = self.map.get_index(place)?;
        Some(value)
    }

    /// The value of the key, to write. Leaves the order as it is. Takes no memory. Constant time.
    pub fn peek_mut(&mut self, key: &K) -> Option<&mut V>
        ensures* writes_back { sem 𝓛 (lends_value K.row V.row K.Hash self.entry
            (K.eq key.now) result) }
        ensures value { option_copied_mut result ≡ lookup (K.eq key.now) self.old }
    {
        let _len = self.ring.len();
        let place = self.map.get_index_of(key)?;
        Some(&mut self.map[place])
    }

    /// The oldest entry. Takes no memory. Constant time.
    pub fn peek_oldest(&self) -> Option<(&K, &V)>
        ensures { option_map deref_pair result ≡ last_entry self.now }
    {
        if self.ring.len() == 0 {
            return None;
        }
        self.map.get_index(self.ring.oldest())
    }
}

impl<K: Eq + Hash, V> LinkedMap<K, V> {
    /// The entries from the oldest to the latest. Takes no memory. Constant time, and so each step.
    pub fn iter(&self) -> Iter<'_, K, V>
        ensures { result ≡ reverse self.now }
    {
        Iter::new(&self.map, &self.ring)
    }
}

impl<K: Eq + Hash + Drop, V: Drop> LinkedMap<K, V> {
    /// Puts an entry in front of all others, in the place of what was there of its key. Errors:
    /// memory, or 2^32 - 1 entries are there and none of them is the key's; then all is as it was.
    /// Constant time, spread over many.
    pub fn put(&mut self, key: K, value: V) -> Result<(), AllocError>
        ensures entries { OnOk result (self.new ≡ put_entries K.eq self.old key value) }
        ensures err { OnErr result (self.new ≡ self.old) }
    {
        let _len = self.ring.len();
        if let Some(place) = self.map.get_index_of(&key) {
            self.map[place] = value;
            self.ring.to_front(place);
            return Ok(());
        }
        reserve_one(&mut self.map)?;
        self.ring.push()?;
        self.map.insert(key, value).unwrap();
        Ok(())
    }

    /// Takes the key's entry out, and gives its value. Takes no memory. Constant time.
    pub fn pop(&mut self, key: &K) -> Option<V>
        ensures value { result ≡ lookup (K.eq key.now) self.old }
        ensures entries { self.new ≡ remove_entry (K.eq key.now) self.old }
    {
        let _len = self.ring.len();
        let place = self.map.get_index_of(key)?;
        let (_, value) = take_out(&mut self.map, &mut self.ring, place);
        Some(value)
    }

    /// Takes the oldest entry out. Takes no memory. Constant time.
    pub fn pop_oldest(&mut self) -> Option<(K, V)>
        ensures value { result ≡ last_entry self.old }
        ensures entries { self.new ≡ take (length self.old - 1) self.old }
    {
        if self.ring.len() == 0 {
            return None;
        }
        let place = self.ring.oldest();
        Some(take_out(&mut self.map, &mut self.ring, place))
    }
}

/// Takes the entry of a position out, and the last one goes by its number from then on.
fn take_out<K: Eq + Hash, V>(map: &mut IndexMap<K, V>, ring: &mut Ring, place: usize) -> (K, V)
    requires place { place < length map.old.entries }
    requires len { length ring.old ≡ length map.old.entries }
    ensures taken { Some result ≡ slice_get map.old.entries place }
    ensures entries { entries_at map.new.entries ring.new
        ≡ entries_at map.old.entries (without place ring.old) }
    ensures len { length ring.new ≡ length map.new.entries }
{
    let _len = ring.len();
    ring.swap_remove(place);
    map.swap_remove_index(place).unwrap()
}

/// Room for one entry more. A map that is full gets room for at most a sixteenth more than it has and
/// five besides, and not for twice as many. Errors: memory only; then all is as it was.
fn reserve_one<K: Eq + Hash, V>(map: &mut IndexMap<K, V>) -> Result<(), AllocError>
    ensures entries { IsUnchanged map.old map.new }
    ensures ok { OnOk result (0 < spare map.new) }
{
    let len = map.len();
    if len < map.capacity() {
        return Ok(());
    }
    map.reserve(1)?;
    map.shrink_to(len.saturating_add(len / 16).saturating_add(5));
    Ok(())
}
