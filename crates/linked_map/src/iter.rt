//! The walk over the entries of a map.
ghost use Rattle.std.specs.Prelude.{◌≡◌, length, reverse};
ghost use Rattle.std.specs.Iterator.{at_most};
ghost use Rattle.std.specs.Map.Iter.{TakesFirst, deref_pair};
ghost use Rattle.linked_map.specs.Orders.{entries_at};

use crate::ring::Ring;
use indexmap::IndexMap;
use std::hash::Hash;
use std::marker::Model;

/// The entries of a `LinkedMap` from the oldest to the latest, seen as the list of those that are
/// left.
#[derive(Drop)]
pub struct Iter<'a, K: Eq + Hash, V> {
    map: &'a IndexMap<K, V>,
    ring: &'a Ring,
    place: usize,
    left: usize,
}

impl<'a, K: Eq + Hash, V> Model for Iter<'a, K, V> {
    ghost use Rattle.std.specs.Prelude.{◌≡◌, ◌-◌, ◌<◌, ◌≤◌, List, length, reverse, slice_get, take, Some};
    ghost use Rattle.linked_map.specs.Orders.{entries_at};

    ghost Value = { List (K × V) };

    ghost view = { λ i. reverse (take i.left (entries_at i.map.now.entries i.ring.now)) };

    ghost invariant = { λ i. (length i.ring.now ≡ length i.map.now.entries)
        × (i.left ≤ length i.ring.now)
        × (0 < i.left → slice_get i.ring.now (i.left - 1) ≡ Some i.place) };
}

impl<'a, K: Eq + Hash, V> Iter<'a, K, V> {
    pub(crate) fn new(map: &'a IndexMap<K, V>, ring: &'a Ring) -> Iter<'a, K, V>
        requires { length ring.now ≡ length map.now.entries }
        ensures { result ≡ reverse (entries_at map.now.entries ring.now) }
    {
        let left = ring.len();
        let place = if left == 0 { 0 } else { ring.oldest() };
        Iter {
            map,
            ring,
            place,
            left,
        }
    }
}

impl<'a, K: Eq + Hash, V> Iterator for Iter<'a, K, V> {
    type Item = (&'a K, &'a V);

    ghost next_gives = { TakesFirst deref_pair };

    ghost remaining = { λ s. at_most (length s) };

    fn next(&mut self) -> Option<(&'a K, &'a V)> {
        if self.left == 0 {
            return None;
        }
        let (map, ring, place) = (self.map, self.ring, self.place);
        let _len = ring.len();
        let entry = map.get_index(place).unwrap();
        self.place = ring.newer(place);
        self.left -= 1;
        Some(entry)
    }
}
