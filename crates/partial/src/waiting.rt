//! The gathers of the keys that wait.
ghost use Rattle.std.specs.Prelude.{◌≡◌, None, Some, IfSome, IfNone, true, false, if◌then◌else◌, slice_get, slice_set};
ghost use Rattle.partial.specs.States.{given, completes, is_here};
ghost use Rattle.std.specs.HashMap.{get, Updates};

use crate::pieces::Pieces;
use std::collections::HashMap;
use std::hash::Hash;

/// Puts the piece where the key waits for it, and says whether now each source's piece is here
/// by it.
fn put_piece<K: Eq + Hash, E: Drop>(
    waiting: &mut HashMap<K, Pieces<E>>,
    key: &K,
    source: usize,
    piece: E,
) -> bool
    ensures unknown { get K.eq waiting.old key.now ≡ None → (result ≡ false)
        × (waiting.new.entries ≡ waiting.old.entries) }
    ensures put { IfSome (get K.eq waiting.old key.now) (λ ps. (result ≡ completes source piece ps)
        × Updates K.eq waiting.old waiting.new key.now (Some (given source piece ps))) }
{
    match waiting.get_mut(key) {
        Some(pieces) => pieces.put(source, piece),
        None => false,
    }
}

/// Puts the piece where the key waits for it, and takes the gather out where each source's
/// piece is here by it.
pub(crate) fn take_whole<K: Eq + Hash + Drop, E: Drop>(
    waiting: &mut HashMap<K, Pieces<E>>,
    key: &K,
    source: usize,
    piece: E,
) -> Option<(K, Pieces<E>)>
    ensures unknown { get K.eq waiting.old key.now ≡ None → (result ≡ None)
        × (waiting.new.entries ≡ waiting.old.entries) }
    ensures waits { IfNone result (IfSome (get K.eq waiting.old key.now)
        (λ ps. (completes source piece ps ≡ false) × Updates K.eq waiting.old waiting.new key.now
        (Some (given source piece ps)))) }
    ensures whole { IfSome result (λ p. IfSome (get K.eq waiting.old key.now)
        (λ ps. (completes source piece ps ≡ true) × (p.1 ≡ given source piece ps))) }
    ensures stored { IfSome result (λ p. K.eq key.now p.0 ≡ true) }
    ensures taken { IfSome result (λ p. (k : K) → get K.eq waiting.new k
        ≡ (if K.eq key.now k then None else get K.eq waiting.old k)) }
{
    if put_piece(waiting, key, source, piece) {
        waiting.remove_entry(key)
    } else {
        None
    }
}

/// Drops the piece of the source at the key that waits, and says whether it was here.
pub(crate) fn drop_piece<K: Eq + Hash, E: Drop>(
    waiting: &mut HashMap<K, Pieces<E>>,
    key: &K,
    source: usize,
) -> bool
    ensures unknown { get K.eq waiting.old key.now ≡ None → (result ≡ false)
        × (waiting.new.entries ≡ waiting.old.entries) }
    ensures dropped { IfSome (get K.eq waiting.old key.now)
        (λ ps. (result ≡ is_here (slice_get ps source))
        × Updates K.eq waiting.old waiting.new key.now (Some (slice_set ps source None))) }
{
    match waiting.get_mut(key) {
        Some(pieces) => pieces.drop_piece(source),
        None => false,
    }
}
