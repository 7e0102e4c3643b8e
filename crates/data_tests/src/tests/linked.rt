//! A map in the order of putting beside a list of pairs.
use super::stages::next;
use linked_map::map::LinkedMap;
use std::alloc::{AllocError, Global};
use std::test::Fail;

/// A map and the same pairs as a list, the latest first.
struct Beside {
    map: LinkedMap<u64, u64>,
    pairs: Vec<(u64, u64)>,
}

impl Drop for Beside {
    fn drop(self) {
        let Beside { map: _, pairs: _ } = self;
    }
}

/// Takes the key's pair out, and gives its value.
fn forget(pairs: &mut Vec<(u64, u64)>, key: u64) -> Option<u64> {
    let place = pairs.iter().position(|pair| pair.0 == key)?;
    if place < pairs.len() {
        Some(pairs.remove(place).1)
    } else {
        None
    }
}

/// Writes the value of the key, where it is there.
fn write(pairs: &mut Vec<(u64, u64)>, key: u64, value: u64) {
    for pair in pairs.iter_mut() {
        if pair.0 == key {
            pair.1 = value;
        }
    }
}

/// Makes a call of either, and says whether both answer the same.
fn step(beside: &mut Beside, seed: &mut u64) -> Result<bool, AllocError> {
    let key = next(seed, 40);
    let value = next(seed, 1000);
    match next(seed, 6) {
        0 => Ok(beside.map.pop(&key) == forget(&mut beside.pairs, key)),
        1 => Ok(beside.map.pop_oldest() == beside.pairs.pop()),
        2 => {
            if let Some(found) = beside.map.peek_mut(&key) {
                *found = value;
            }
            write(&mut beside.pairs, key, value);
            Ok(true)
        }
        _ => {
            beside.map.put(key, value)?;
            let _old = forget(&mut beside.pairs, key);
            beside.pairs.insert(0, (key, value))?;
            Ok(true)
        }
    }
}

/// Whether the two have the same pairs in the same order.
fn is_same(beside: &Beside) -> bool {
    if beside.map.len() != beside.pairs.len() {
        return false;
    }
    for ((key, value), pair) in beside.map.iter().zip(beside.pairs.iter().rev()) {
        let found = beside.map.peek(key).copied();
        if *key != pair.0 || *value != pair.1 || found != Some(pair.1) {
            return false;
        }
    }
    let oldest = match beside.map.peek_oldest() {
        Some((key, value)) => Some((*key, *value)),
        None => None,
    };
    oldest == beside.pairs.last().copied()
}

/// Makes two thousand calls, and gives the first after which the two differ.
fn first_wrong(alloc: Global) -> Result<Option<usize>, AllocError> {
    let mut beside = Beside {
        map: LinkedMap::new(alloc),
        pairs: Vec::new(alloc),
    };
    let mut seed: u64 = 11;
    for at in 0..2000 {
        if !step(&mut beside, &mut seed)? || !is_same(&beside) {
            return Ok(Some(at));
        }
    }
    Ok(None)
}

#[test]
fn a_linked_map_is_its_list(rt: HostRuntime) -> Result<(), Fail> {
    let wrong = first_wrong(rt.alloc())?;
    assert!(rt; wrong.is_none(), "{wrong:?}");
    Ok(())
}
