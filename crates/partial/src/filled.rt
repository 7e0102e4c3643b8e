//! The filled entries, in the order in which they were filled.
ghost use Rattle.std.specs.Prelude.{◌≡◌, ◌<◌, ◌++◌, ◌∷◌, [], length, reverse, slice_get, drop, is_some, Some, None, false, if◌then◌else◌, OnOk, OnErr, IfSome};
ghost use Rattle.std.specs.Option.{option_copied, option_map, ForSome};
ghost use Rattle.std.specs.Map.{lookup, keys_of};
ghost use Rattle.std.specs.Set.{remove_key};
ghost use Rattle.std.specs.List.{IsDistinct};
ghost use Rattle.row.specs.{Bags.times, Bags.inserted, Bags.removed, Cells.row_cmp};
ghost use Rattle.partial.specs.States.{changed_at};

use crate::gather::Gather;
use linked_map::iter::Iter;
use linked_map::map::LinkedMap;
use row::bag::Bag;
use row::row::Row;
use std::alloc::{AllocError, Global};
use std::hash::Hash;
use std::marker::Model;

/// Filled entries by their keys, seen as the list of them from the one that was filled first.
#[derive(Drop)]
pub struct Filled<K: Eq + Hash, E> {
    latest: LinkedMap<K, E>,
}

impl<K: Eq + Hash, E> Model for Filled<K, E> {
    ghost use Rattle.std.specs.Prelude.{List, reverse};

    ghost Value = { List (K × E) };

    ghost view = { λ f. reverse f.latest };
}

impl<K: Eq + Hash + Drop, E: Drop> Filled<K, E> {
    /// No entry. Takes no memory.
    pub fn new(alloc: Global) -> Filled<K, E>
        ensures { result ≡ [] }
    {
        Filled {
            latest: LinkedMap::new(alloc),
        }
    }

    /// The entry of the key. Takes no memory. Constant time.
    pub fn get(&self, key: &K) -> Option<&E>
        ensures { option_copied result ≡ lookup (K.eq key.now) self.now }
    {
        let _ = self.latest.len();
        self.latest.peek(key)
    }

    /// How many entries there are. Constant time.
    pub fn len(&self) -> usize
        ensures { result ≡ length self.now }
    {
        self.latest.len()
    }

    /// The key that was filled first. Takes no memory. Constant time.
    pub fn oldest(&self) -> Option<&K>
        ensures { option_copied result ≡ slice_get (keys_of self.now) 0 }
    {
        let (key, _) = self.latest.peek_oldest()?;
        Some(key)
    }

    /// Puts in an entry whose key is not there, behind all others. Errors: memory, or 2^32 - 1
    /// entries are there; then all is as it was. Constant time, spread over many.
    pub fn fill(&mut self, key: K, entry: E) -> Result<(), AllocError>
        requires { lookup (K.eq key) self.old ≡ None }
        ensures filled { OnOk result (self.new ≡ self.old ++ (key, entry) ∷ []) }
        ensures entries { OnOk result ((k : K) → lookup (K.eq k) self.new
            ≡ (if K.eq key k then Some entry else lookup (K.eq k) self.old)) }
        ensures err { OnErr result (self.new ≡ self.old) }
    {
        let _ = self.latest.len();
        self.latest.put(key, entry)?;
        Ok(())
    }

    /// Takes the key's entry out, and says whether there was one. Takes no memory. Constant
    /// time.
    pub fn remove(&mut self, key: &K) -> bool
        ensures known { result ≡ is_some (lookup (K.eq key.now) self.old) }
        ensures entries { (k : K) → lookup (K.eq k) self.new
            ≡ (if K.eq key.now k then None else lookup (K.eq k) self.old) }
        ensures order { keys_of self.new ≡ remove_key (K.eq key.now) (keys_of self.old) }
    {
        let _ = self.latest.len();
        self.latest.pop(key).is_some()
    }

    /// Takes the entry out that was filled first, and gives its key. Takes no memory. Constant
    /// time.
    pub fn remove_oldest(&mut self) -> Option<K>
        ensures key { result ≡ slice_get (keys_of self.old) 0 }
        ensures entries { self.new ≡ drop 1 self.old }
        ensures gone { IfSome result (λ key. (k : K) → lookup (K.eq k) self.new
            ≡ (if K.eq key k then None else lookup (K.eq k) self.old)) }
    {
        let _ = self.latest.len();
        let (key, _) = self.latest.pop_oldest()?;
        Some(key)
    }

    /// No key is there twice, which the type keeps. Does nothing: a caller learns it.
    pub fn keeps_once(&self)
        ensures { IsDistinct K.eq (keys_of self.now) }
    {
        let _ = self.latest.len();
    }

    /// The keys with their entries, from the one that was filled first. Takes no memory.
    pub fn iter(&self) -> Iter<'_, K, E>
        ensures { result ≡ self.now }
    {
        self.latest.iter()
    }
}

impl<K: Eq + Hash + Drop, E: Gather> Filled<K, E> {
    /// Applies the change to the key's entry, if there is one. Errors: memory only; then all is as
    /// it was. Constant time, and that of the change.
    pub fn apply(&mut self, alloc: Global, key: &K, change: &E::Change) -> Result<(), AllocError>
        requires { ForSome (lookup (K.eq key.now) self.old) (λ e. E.fits e change.now) }
        ensures applied { OnOk result (lookup (K.eq key.now) self.new
            ≡ option_map (λ e. E.plus e change.now) (lookup (K.eq key.now) self.old)) }
        ensures others { (k : K) → K.eq key.now k ≡ false → lookup (K.eq k) self.new
            ≡ lookup (K.eq k) self.old }
        ensures order { keys_of self.new ≡ keys_of self.old }
        ensures err { OnErr result (self.new ≡ self.old) }
    {
        let _ = self.latest.len();
        match self.latest.peek_mut(key) {
            Some(entry) => entry.apply(alloc, change),
            None => Ok(()),
        }
    }
}

impl<K: Eq + Hash + Drop> Filled<K, Bag> {
    /// Adds one row to the key's entry, if there is one. Errors: memory only; then all is as it
    /// was. Constant time, and that of `Bag::add`.
    pub fn add(&mut self, key: &K, row: Row) -> Result<(), AllocError>
        ensures added { OnOk result ((k : K) → lookup (K.eq k) self.new
            ≡ changed_at (inserted row_cmp row) (K.eq key.now k) (lookup (K.eq k) self.old)) }
        ensures order { keys_of self.new ≡ keys_of self.old }
        ensures err { OnErr result (self.new ≡ self.old) }
    {
        let _ = self.latest.len();
        match self.latest.peek_mut(key) {
            Some(rows) => rows.add(row),
            None => Ok(()),
        }
    }

    /// Takes one of a row that is there away from the key's entry, if there is one. Takes no
    /// memory. Constant time, and that of `Bag::subtract`.
    pub fn subtract(&mut self, key: &K, row: &Row)
        requires { ForSome (lookup (K.eq key.now) self.old)
            (λ rows. 0 < times row_cmp row.now rows) }
        ensures taken { (k : K) → lookup (K.eq k) self.new
            ≡ changed_at (removed row_cmp row.now) (K.eq key.now k) (lookup (K.eq k) self.old) }
        ensures order { keys_of self.new ≡ keys_of self.old }
    {
        let _ = self.latest.len();
        match self.latest.peek_mut(key) {
            Some(rows) => rows.subtract(row),
            None => {}
        }
    }
}
