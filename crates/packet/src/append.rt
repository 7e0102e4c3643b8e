//! Lists one behind the other.
ghost use Rattle.std.specs.Prelude.{◌≡◌, ◌++◌, OnErr, OnOk};

use std::alloc::AllocError;

/// Puts these behind those that are there. Errors: memory only; then those that are there stay. Cost:
/// a move of each, none where nothing is there.
pub(crate) fn append<T: Drop>(all: &mut Vec<T>, mut more: Vec<T>) -> Result<(), AllocError>
    ensures ok { OnOk result (all.new.items ≡ all.old.items ++ more.items) }
    ensures err { OnErr result (all.new.items ≡ all.old.items) }
{
    if all.is_empty() {
        *all = more;
        return Ok(());
    }
    all.append(&mut more)
}
