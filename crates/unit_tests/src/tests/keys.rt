//! A map from values beside a table of its keys.
use super::cells::Cell::{self, Int, Text};
use super::cells::value;
use row::value::Value;
use row::value_map::ValueMap;
use std::alloc::{AllocError, Global};
use std::test::Fail;

/// Keys of all kinds, no two the same, and what each is given. Some numbers differ by 2^32, which a
/// map must keep apart.
const KEYS: [(Cell, u64); 15] = [
    (Int(0), 10),
    (Int(7), 11),
    (Int(-7), 12),
    (Int(4294967295), 19),
    (Int(4294967296), 20),
    (Int(4294967303), 21),
    (Int(-4294967289), 22),
    (Int(-4294967296), 23),
    (Int(18446744073709551623), 24),
    (Int(9223372036854775807), 13),
    (Int(-9223372036854775808), 14),
    (Int(9223372036854775808), 15),
    (Int(-9223372036854775809), 16),
    (Text(""), 17),
    (Text("7"), 18),
];

// The value, a number held as a long one.
fn long(alloc: Global, cell: Cell) -> Result<Value, AllocError> {
    match cell {
        Int(number) => Ok(Value::Long(Box::new(alloc, number)?)),
        Text(text) => Value::text(alloc, text),
    }
}

// Whether the map has just the keys from this one of the table on, however they are held.
fn has_from(alloc: Global, map: &ValueMap<u64>, first: usize) -> Result<bool, AllocError> {
    let mut all = true;
    for (at, (cell, number)) in KEYS.into_iter().enumerate() {
        let wanted = if at < first { None } else { Some(number) };
        all = all && map.get(&value(alloc, cell)?).copied() == wanted;
        all = all && map.get(&long(alloc, cell)?).copied() == wanted;
    }
    Ok(all && map.values().count() == KEYS.len().saturating_sub(first))
}

// Puts each key, a number as a long one or not, of which none was there.
fn put_all(alloc: Global, map: &mut ValueMap<u64>, is_long: bool) -> Result<bool, AllocError> {
    let mut all = true;
    for (cell, number) in KEYS {
        let key = if is_long {
            long(alloc, cell)?
        } else {
            value(alloc, cell)?
        };
        map.reserve_one()?;
        all = all && map.insert(key, number)?.is_none();
    }
    Ok(all)
}

// Puts another number at each key, which has its own.
fn put_others(alloc: Global, map: &mut ValueMap<u64>) -> Result<bool, AllocError> {
    let mut all = true;
    for (cell, number) in KEYS {
        all = all && map.insert(value(alloc, cell)?, 0)? == Some(number);
    }
    Ok(all)
}

// Gives each key its own number again.
fn set_back(alloc: Global, map: &mut ValueMap<u64>) -> Result<(), AllocError> {
    for (cell, number) in KEYS {
        if let Some(place) = map.get_mut(&long(alloc, cell)?) {
            *place = number;
        }
    }
    Ok(())
}

// Takes the key away, which has the number, and then has none.
fn is_taken(
    alloc: Global,
    map: &mut ValueMap<u64>,
    cell: Cell,
    number: u64,
) -> Result<bool, AllocError> {
    let first = map.remove(&long(alloc, cell)?);
    let second = map.remove(&value(alloc, cell)?);
    Ok(first == Some(number) && second.is_none())
}

// Whether each key is taken in turn, and the others stay.
fn are_taken(alloc: Global, map: &mut ValueMap<u64>) -> Result<bool, AllocError> {
    let mut all = true;
    for (at, (cell, number)) in KEYS.into_iter().enumerate() {
        all = all && is_taken(alloc, map, cell, number)?;
        all = all && has_from(alloc, map, at.saturating_add(1))?;
    }
    Ok(all)
}

#[test]
fn a_key_is_found_however_it_is_held(rt: HostRuntime) -> Result<(), Fail> {
    let mut map = ValueMap::new(rt.alloc());
    for is_long in [true, false] {
        assert!(rt; put_all(rt.alloc(), &mut map, is_long)?);
        assert!(rt; has_from(rt.alloc(), &map, 0)?);
        assert!(rt; put_others(rt.alloc(), &mut map)?);
        set_back(rt.alloc(), &mut map)?;
        assert!(rt; has_from(rt.alloc(), &map, 0)?);
        assert!(rt; are_taken(rt.alloc(), &mut map)?);
    }
    Ok(())
}
