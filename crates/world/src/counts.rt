//! Counts of a session: how many requests the shards of a view have sent.
ghost use Rattle.std.specs.Prelude.{◌≡◌, map, slice_get};
ghost use Rattle.protocol.specs.{ViewSteps.counted, WorldSteps.asked_all, WorldSteps.asked_of, WorldSteps.count_by};
ghost use Rattle.schedule.specs.Codes.{reply_of};
ghost use Rattle.machine.specs.{Held.IsDone, Held.IsWhole, Held.view_node, Held.world_of, Machines.held};

use machine::machine::Machine;
use model::fronts::Fronts;
use row::refused::Refused;
use schedule::arguments::view_target;
use schedule::event::Reply;
use view_domain::view_domain::ViewDomain;

/// How many requests the shards of a view have sent, for a session. Nothing changes.
pub(crate) fn count<F: Fronts>(machine: &Machine<F>, session: usize, view: &str) -> Reply
    requires whole { IsWhole F.log F.authors (held machine.now) }
    ensures done { IsDone F.log F.authors
        (count_by (world_of F.log F.authors (held machine.now))
        (slice_get (world_of F.log F.authors (held machine.now)).callers session) view.now)
        (reply_of result) (held machine.now) }
{
    if session >= machine.callers.len() {
        return Reply::Refused(Refused::UnknownPlace);
    }
    match view_target(machine.places.plan(), view) {
        Ok(place) => Reply::Asked(asked_all(&machine.views, place)),
        Err(refused) => Reply::Refused(refused),
    }
}

/// How many requests all shards of a view have sent; the count stays at the greatest number.
fn asked_all<F: Fronts>(views: &[ViewDomain<F>], view: usize) -> u64
    ensures { result ≡ asked_all view (map view_node views.now) }
{
    let mut total = 0;
    for domain in views {
        total = plus(total, asked_of(domain, view));
    }
    total
}

/// How many requests a view shard has sent, if it is one of this view.
fn asked_of<F: Fronts>(domain: &ViewDomain<F>, view: usize) -> u64
    ensures { result ≡ asked_of view (view_node domain.now) }
{
    if domain.view() == view {
        domain.asked()
    } else {
        0
    }
}

/// So many more; the count stays at the greatest number.
fn plus(asked: u64, more: u64) -> u64
    ensures { result ≡ counted asked more }
{
    if more <= u64::MAX - asked {
        asked + more
    } else {
        u64::MAX
    }
}
