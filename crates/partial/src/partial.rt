//! Partial state: for each key a hole, a gather with the pieces in hand, or a filled entry. (Of
//! the Noria paper: partially stateful dataflow, with upqueries that fill and evictions that
//! open.)
ghost use Rattle.std.specs.Prelude.{◌≡◌, ◌<◌, [], List, None, Some, OnOk, OnErr, IfOk, IfSome, IfNone, true, false, length, drop, slice_get, slice_set};
ghost use Rattle.std.specs.Option.{option_copied, ForSome};
ghost use Rattle.std.specs.Set.{remove_key};
ghost use Rattle.std.specs.List.{IsDistinct};
ghost use Rattle.std.specs.Map.{lookup};
ghost use Rattle.row.specs.{Bags.times, Bags.inserted, Bags.removed, Cells.row_cmp};
ghost use Rattle.partial.specs.{States.Kept, States.IsApart, States.state_of, States.order_of, States.OthersStay, States.GoesLast, States.Hole, States.is_hole, States.is_waiting, States.changed_at, States.entry_of, States.begun, States.fills, States.evicted, States.says_evicted, States.after_piece, States.after_change, States.ChangeFits, Truth.IsTrueOf, Truth.with_part};

use crate::filled::Filled;
use crate::gather::Gather;
use crate::pieces::Pieces;
use crate::waiting::{drop_piece, take_whole};
use linked_map::iter::Iter;
use row::bag::Bag;
use row::row::Row;
use std::alloc::{AllocError, Global};
use std::collections::HashMap;
use std::hash::Hash;
use std::marker::Model;

/// What an eviction did.
#[derive(Clone, Copy, Debug, PartialEq, Eq)]
pub enum Evicted {
    /// It changed nothing.
    Nothing,
    /// It dropped the piece of the source, which has to be asked again.
    Piece,
    /// The filled key is a hole now.
    Entry,
}

/// What is kept for keys, each of which has a part of its entry in each of a number of sources.
pub struct Partial<K: Eq + Hash, E> {
    sources: usize,
    filled: Filled<K, E>,
    waiting: HashMap<K, Pieces<E>>,
}

// What holds one drops it by this call, and need not know its parts.
impl<K: Eq + Hash + Drop, E: Drop> Drop for Partial<K, E> {
    fn drop(self) {
        let Partial {
            sources: _,
            filled: _,
            waiting: _,
        } = self;
    }
}

impl<K: Eq + Hash, E> Model for Partial<K, E> {
    ghost use Rattle.partial.specs.States.{Kept, IsApart};

    ghost Value = { Kept K E };

    ghost view = { λ p. record {
      sources = p.sources;
      filled = p.filled;
      waiting = p.waiting.entries;
    } };

    ghost invariant = { λ p. IsApart K.eq record {
      sources = p.sources;
      filled = p.filled;
      waiting = p.waiting.entries;
    } };
}

impl<K: Eq + Hash + Drop, E: Drop> Partial<K, E> {
    /// All keys are holes. Takes no memory.
    pub fn new(alloc: Global, sources: usize) -> Result<Partial<K, E>, AllocError>
        ensures { IfOk result (λ p. p ≡ record { sources = sources; filled = []; waiting = [] }) }
    {
        Ok(Partial {
            sources,
            filled: Filled::new(alloc),
            waiting: HashMap::new(alloc),
        })
    }

    /// How many sources there are. Constant time.
    pub fn sources(&self) -> usize
        ensures { result ≡ self.now.sources }
    {
        self.sources
    }

    /// No key is both filled and waiting, which the type keeps. Does nothing: a caller learns it.
    pub fn keeps_apart(&self)
        ensures { IsApart K.eq self.now }
    {
        let _sources = self.sources;
    }

    /// No key is filled twice, which the type keeps. Does nothing: a caller learns it.
    pub fn keeps_once(&self)
        ensures { IsDistinct K.eq (order_of self.now) }
    {
        self.filled.keeps_once();
    }

    /// Whether the key waits for pieces. Takes no memory. Constant time.
    pub fn waits(&self, key: &K) -> bool
        ensures { result ≡ is_waiting (state_of K.eq self.now key.now) }
    {
        self.waiting.contains_key(key)
    }

    /// The entry of a filled key, and of no other. Takes no memory. Constant time.
    pub fn get(&self, key: &K) -> Option<&E>
        ensures { option_copied result ≡ entry_of (state_of K.eq self.now key.now) }
    {
        self.filled.get(key)
    }

    /// How many keys are filled. Constant time.
    pub fn len(&self) -> usize
        ensures { result ≡ length (order_of self.now) }
    {
        self.filled.len()
    }

    /// The filled key that was filled first. Takes no memory. Constant time.
    pub fn oldest(&self) -> Option<&K>
        ensures { option_copied result ≡ slice_get (order_of self.now) 0 }
    {
        self.filled.oldest()
    }

    /// The filled keys with their entries, from the key that was filled first. Takes no memory.
    pub fn iter(&self) -> Iter<'_, K, E>
        ensures { result ≡ self.now.filled }
    {
        self.filled.iter()
    }

    /// Makes the key that was filled first a hole, and gives it; `None` where no key is filled.
    /// Takes no memory. Constant time.
    pub fn evict_oldest(&mut self) -> Option<K>
        ensures sources { self.new.sources ≡ self.old.sources }
        ensures oldest { result ≡ slice_get (order_of self.old) 0 }
        ensures hole { IfSome result (λ key. state_of K.eq self.new key ≡ Hole) }
        ensures others { IfSome result (λ key. OthersStay K.eq key self.old self.new) }
        ensures order { order_of self.new ≡ drop 1 (order_of self.old) }
        ensures none { IfNone result (self.new ≡ self.old) }
    {
        self.filled.remove_oldest()
    }
}

impl<K: Eq + Hash + Drop, E: Gather> Partial<K, E> {
    /// Makes a hole wait, with no piece in hand; elsewhere it changes nothing. Says whether it did:
    /// then each source is to be asked. Errors: memory only; then all is as it was. Cost: the
    /// number of sources.
    pub fn begin(&mut self, alloc: Global, key: K) -> Result<bool, AllocError>
        ensures sources { self.new.sources ≡ self.old.sources }
        ensures began { IfOk result (λ began. began ≡ is_hole (state_of K.eq self.old key)) }
        ensures waits { OnOk result (state_of K.eq self.new key
            ≡ begun self.old.sources (state_of K.eq self.old key)) }
        ensures others { OthersStay K.eq key self.old self.new }
        ensures order { order_of self.new ≡ order_of self.old }
        ensures truth { (parts : List E) → length parts ≡ self.old.sources
            → IsTrueOf E.total parts (state_of K.eq self.old key)
            → OnOk result (IsTrueOf E.total parts (state_of K.eq self.new key)) }
        ensures err { OnErr result (self.new ≡ self.old) }
    {
        if self.filled.get(&key).is_some() || self.waiting.contains_key(&key) {
            return Ok(false);
        }
        let pieces = Pieces::new(alloc, self.sources)?;
        self.waiting.insert(key, pieces)?;
        Ok(true)
    }

    /// Takes in the piece of a source for a key that waits for it; with the last one the key is
    /// filled with the sum of the pieces, behind all keys that are filled, and the call says so. A
    /// piece for a key that does not wait, or from a source whose piece is here already, or that
    /// there is not, changes nothing. Errors: memory, or 2^32 - 1 keys are filled; then the key is a
    /// hole. Cost: the number of sources, and that of the sum.
    pub fn give_piece(
        &mut self,
        alloc: Global,
        key: &K,
        source: usize,
        piece: E,
    ) -> Result<bool, AllocError>
        ensures sources { self.new.sources ≡ self.old.sources }
        ensures fills { IfOk result (λ filled. filled
            ≡ fills source piece (state_of K.eq self.old key.now)) }
        ensures given { OnOk result (state_of K.eq self.new key.now
            ≡ after_piece E.total source piece (state_of K.eq self.old key.now)) }
        ensures others { OthersStay K.eq key.now self.old self.new }
        ensures last { IfOk result (λ filled. filled ≡ true
            → GoesLast K.eq key.now (order_of self.old) (order_of self.new)) }
        ensures order { IfOk result (λ filled. filled ≡ false → order_of self.new
            ≡ order_of self.old) }
        ensures truth { (parts : List E) → slice_get parts source ≡ Some piece
            → IsTrueOf E.total parts (state_of K.eq self.old key.now)
            → OnOk result (IsTrueOf E.total parts (state_of K.eq self.new key.now)) }
        ensures err { OnErr result (order_of self.new ≡ order_of self.old) }
        ensures lost { OnErr result (state_of K.eq self.new key.now ≡ Hole) }
    {
        match take_whole(&mut self.waiting, key, source, piece) {
            Some((stored, pieces)) => {
                let entry = E::gather(alloc, pieces.into_pieces(alloc)?)?;
                self.filled.fill(stored, entry)?;
                Ok(true)
            }
            None => Ok(false),
        }
    }

    /// Takes in a change of the part that a source has: a filled entry takes it; where the key
    /// waits, the source's piece takes it if it is here, and else the change is dropped, since the
    /// piece will have it; at a hole it is dropped. Errors: memory only; then all is as it was.
    /// Constant time, and that of the change.
    pub fn apply(
        &mut self,
        alloc: Global,
        key: &K,
        source: usize,
        change: &E::Change,
    ) -> Result<(), AllocError>
        requires { ChangeFits E.fits source change.now (state_of K.eq self.old key.now) }
        ensures sources { self.new.sources ≡ self.old.sources }
        ensures applied { OnOk result (state_of K.eq self.new key.now
            ≡ after_change E.plus source change.now (state_of K.eq self.old key.now)) }
        ensures others { OthersStay K.eq key.now self.old self.new }
        ensures order { order_of self.new ≡ order_of self.old }
        ensures truth { (parts : List E) (part : E) → slice_get parts source ≡ Some part
            → E.fits part change.now → IsTrueOf E.total parts (state_of K.eq self.old key.now)
            → OnOk result (IsTrueOf E.total (slice_set parts source (E.plus part change.now))
            (state_of K.eq self.new key.now)) }
        ensures err { OnErr result (self.new ≡ self.old) }
    {
        match self.waiting.get_mut(key) {
            Some(pieces) => pieces.apply(alloc, source, change),
            None => self.filled.apply(alloc, key, change),
        }
    }

    /// Makes a filled key a hole. Where the key waits and a source is named, drops the piece of
    /// that source. Elsewhere it changes nothing. Says which it did. Takes no memory. Constant
    /// time.
    pub fn evict(&mut self, key: &K, source: Option<usize>) -> Evicted
        ensures sources { self.new.sources ≡ self.old.sources }
        ensures says { result ≡ says_evicted source (state_of K.eq self.old key.now) }
        ensures evicted { state_of K.eq self.new key.now
            ≡ evicted source (state_of K.eq self.old key.now) }
        ensures others { OthersStay K.eq key.now self.old self.new }
        ensures order { order_of self.new ≡ remove_key (K.eq key.now) (order_of self.old) }
        ensures truth { (parts : List E) (part : E)
            → IsTrueOf E.total parts (state_of K.eq self.old key.now)
            → IsTrueOf E.total (with_part source part parts) (state_of K.eq self.new key.now) }
    {
        if self.filled.remove(key) {
            Evicted::Entry
        } else {
            match source {
                Some(source) if drop_piece(&mut self.waiting, key, source) => Evicted::Piece,
                _ => Evicted::Nothing,
            }
        }
    }
}

impl<K: Eq + Hash + Drop> Partial<K, Bag> {
    /// Adds one row to the entry of a filled key; elsewhere it changes nothing. Errors: memory
    /// only; then all is as it was. Constant time, and that of `Bag::add`.
    pub fn add(&mut self, key: &K, row: Row) -> Result<(), AllocError>
        ensures waiting { self.new ≡ record self.old { filled = self.new.filled } }
        ensures added { OnOk result ((k : K) → lookup (K.eq k) self.new.filled
            ≡ changed_at (inserted row_cmp row) (K.eq key.now k)
            (lookup (K.eq k) self.old.filled)) }
        ensures order { order_of self.new ≡ order_of self.old }
        ensures err { OnErr result (self.new ≡ self.old) }
    {
        self.filled.add(key, row)
    }

    /// Takes one of a row that is there away from the entry of a filled key; elsewhere it changes
    /// nothing. Takes no memory. Constant time, and that of `Bag::subtract`.
    pub fn subtract(&mut self, key: &K, row: &Row)
        requires { ForSome (lookup (K.eq key.now) self.old.filled) (λ rows. 0
            < times row_cmp row.now rows) }
        ensures waiting { self.new ≡ record self.old { filled = self.new.filled } }
        ensures taken { (k : K) → lookup (K.eq k) self.new.filled
            ≡ changed_at (removed row_cmp row.now) (K.eq key.now k)
            (lookup (K.eq k) self.old.filled) }
        ensures order { order_of self.new ≡ order_of self.old }
    {
        self.filled.subtract(key, row);
    }
}
