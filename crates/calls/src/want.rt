//! Keys that a session waits for.
ghost use Rattle.std.specs.Prelude.{◌≡◌, ◌⊎◌, IfErr};

use book::law::Naming;
use links::bell::Woken;
use routes::mail::{ViewMail, Want};
use routes::routes::Routes;
use row::refused::Refused;
use row::value::Value;
use std::alloc::Global;
use std::sync::Wait;

/// Asks a view shard for a key, and waits until the shard has filled it. The number is that of the
/// session's wait, and greater than that of each before. Refused with `Stopped` where the view
/// shard, a stage shard, a source or the store has stopped, or `NoMemory`. Cost: two copies of the
/// key, a message, and what the shard asks of others.
pub fn fill<J: Naming, R: Wait>(
    rt: &R,
    alloc: Global,
    routes: &Routes<J>,
    reader: usize,
    session: usize,
    number: u64,
    key: &Value,
) -> Result<(), Refused>
    ensures only { IfErr result (λ e. (e ≡ Refused.NoMemory) ⊎ (e ≡ Refused.Stopped)) }
{
    if routes.is_cut_off(reader) {
        return Err(Refused::Stopped);
    }
    let want = Want {
        session,
        number,
        key: key.try_clone(alloc)?,
        waits: key.try_clone(alloc)?,
    };
    routes.to_view(rt, session, reader, ViewMail::Want(want))?;
    for _ in rt.forever() {
        match routes.wait_ring(rt, session, number) {
            Woken::Rung => return Ok(()),
            Woken::Alarmed if routes.is_cut_off(reader) => return Err(Refused::Stopped),
            Woken::Alarmed => (),
        }
    }
    unreachable!()
}
