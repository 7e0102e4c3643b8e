//! Fences on their way through the threads.
ghost use Rattle.std.specs.Prelude.{◌≡◌, ◌⊎◌, IfErr};

use book::law::Naming;
use packet::request::Marker;
use routes::mail::BaseMail;
use routes::routes::Routes;
use row::refused::Refused;
use std::sync::Wait;

/// Sends the marker through every source, and waits until each view shard has said that it has come
/// there through every stage shard. Refused with `Stopped` where a domain that it needs or the
/// store has stopped, or `NoMemory`; it may have come through some of them then. Cost: a message
/// for each source, and an acknowledgement of each view shard.
pub fn pass<J: Naming, R: Wait>(rt: &R, routes: &Routes<J>, marker: Marker) -> Result<(), Refused>
    ensures only { IfErr result (λ e. (e ≡ Refused.NoMemory) ⊎ (e ≡ Refused.Stopped)) }
{
    for base in routes.sources() {
        routes.to_base(rt, marker.session, BaseMail::marker(*base, marker))?;
    }
    for reader in 0..routes.readers().len() {
        acknowledged(rt, routes, marker, reader)?;
    }
    Ok(())
}

// Waits until the view shard has the marker. An acknowledgement of an earlier fence counts for
// none.
fn acknowledged<J: Naming, R: Wait>(
    rt: &R,
    routes: &Routes<J>,
    marker: Marker,
    reader: usize,
) -> Result<(), Refused>
    ensures only { IfErr result (λ e. e ≡ Refused.Stopped) }
{
    for _ in rt.forever() {
        let Some(number) = routes.wait_ack(rt, marker.session, reader) else {
            return Err(Refused::Stopped);
        };
        if number == marker.number {
            return Ok(());
        }
    }
    unreachable!()
}
