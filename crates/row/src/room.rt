//! Room in maps.
ghost use Rattle.std.specs.Prelude.{◌≤◌, OnOk, OnErr};
ghost use Rattle.std.specs.HashMap.{IsReordered, IsUnchanged, IsUnique, spare};

use std::alloc::AllocError;
use std::collections::HashMap;
use std::hash::Hash;

/// Room for one entry more. A map that is full gets room for at most a sixteenth more than it has and
/// five besides, and not for twice as many, which most maps never come to. Errors: memory only; then
/// all is as it was. Cost: a look, and where the map is full a move of its entries, which is constant
/// time spread over many.
pub fn reserve_one<K: Eq + Hash, V>(map: &mut HashMap<K, V>) -> Result<(), AllocError>
    ensures entries { IsReordered K.eq map.old map.new }
    ensures ok { OnOk result (1 ≤ spare map.new) }
    ensures spare { spare map.old ≤ spare map.new }
    ensures err { OnErr result (IsUnchanged map.old map.new) }
    ensures unique { IsUnique K.eq map.new }
{
    let len = map.len();
    if len < map.capacity() {
        return Ok(());
    }
    map.reserve(1)?;
    map.shrink_to(len.saturating_add(len / 16).saturating_add(5));
    Ok(())
}
