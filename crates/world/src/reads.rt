//! Reads of a session: a filled key of a view shard.
ghost use Rattle.std.specs.Prelude.{◌≡◌, ◌≢◌, ◌<◌, map, length, slice_get, is_some, Some, IfOk, IfErr, IfSome};
ghost use Rattle.row.specs.Cells.{datum_of};
ghost use Rattle.model.specs.{Histories.view_shard, Queries.answer};
ghost use Rattle.partial.specs.States.{is_filled};
ghost use Rattle.packet.specs.{Readers.readers, declared.mode.Mode.TheVariants.Broken};
ghost use Rattle.protocol.specs.{Worlds.Caller, WorldSteps.looked};
ghost use Rattle.schedule.specs.Codes.{reply_of};
ghost use Rattle.view_domain.specs.Domains.{lines_of, view_of};
ghost use Rattle.machine.specs.{Held.IsDone, Held.IsPlaced, Held.view_node, Held.world_of, Machines.held};
ghost use Rattle.world.specs.Sought.{IsDenied, IsSought};

use machine::machine::Machine;
use machine::views::cut_lengths;
use model::fronts::Fronts;
use row::refused::Refused;
use row::row::Row;
use row::value::Value;
use schedule::arguments::read_target;
use schedule::event::Reply;
use std::alloc::{AllocError, Global};
use view_domain::view_domain::ViewDomain;

/// The place of the view that a session names, and of the view shard that has the key. Errors: why
/// the call is refused, for the session, the view or the key. Cost: a look at each view and at each
/// view shard.
pub(crate) fn sought<F: Fronts>(
    machine: &Machine<F>,
    session: usize,
    view: &str,
    key: &Value,
) -> Result<(usize, usize), Refused>
    ensures sought { IfOk result (λ at. IsSought (held machine.now) session view.now
        (datum_of key.now) at.0 at.1) }
    ensures denied { IfErr result (IsDenied (held machine.now) session view.now
        (datum_of key.now)) }
{
    if session >= machine.callers.len() {
        return Err(Refused::UnknownPlace);
    }
    let place = match read_target(machine.places.plan(), view, key) {
        Ok(place) => place,
        Err(refused) => return Err(refused),
    };
    let reader = machine.places.reader_of(place, key);
    Ok((place, reader))
}

/// A session looks at a key of a view at the view shard that has it, by their places: a hit answers
/// over the cut of that shard, which is then the session's floor there. Errors: memory only; then
/// nothing is said of the machine.
pub(crate) fn look<F: Fronts>(
    alloc: Global,
    machine: &mut Machine<F>,
    session: usize,
    at: (usize, usize),
    key: &Value,
) -> Result<Reply, Refused>
    requires placed { IsPlaced F.log F.authors (held machine.old) }
    requires session { session < length (held machine.old).sessions }
    requires there { at.1 < length (held machine.old).views }
    requires reader { slice_get (readers (held machine.old).plan) at.1 ≡ Some (record {
      view = at.0;
      shard = view_shard (held machine.old).plan at.0 (datum_of key.now);
    }) }
    ensures done { IfOk result (λ r. (c : Caller)
        → slice_get (world_of F.log F.authors (held machine.old)).callers session ≡ Some c
        → IsDone F.log F.authors (looked (world_of F.log F.authors (held machine.old)) session c
        at.0 (datum_of key.now) at.1
        (slice_get (map view_node (held machine.old).views) at.1)) (reply_of r)
        (held machine.new)) }
{
    let (_, reader) = at;
    let Ok(found) = find(alloc, &machine.views[reader], key) else {
        return Err(Refused::NoMemory);
    };
    let Some(rows) = found else {
        return Ok(Reply::Miss);
    };
    let Ok(cut) = cut_lengths(alloc, &machine.views[reader]) else {
        return Err(Refused::NoMemory);
    };
    let Ok(floor) = cut.try_clone(alloc) else {
        return Err(Refused::NoMemory);
    };
    machine.callers[session].raise_to(reader, floor);
    Ok(Reply::Hit { rows, cut })
}

/// The view's rows of a key over the cut of its shard, where the key is filled. Errors: memory
/// only.
fn find<F: Fronts>(
    alloc: Global,
    domain: &ViewDomain<F>,
    key: &Value,
) -> Result<Option<Vec<Row>>, AllocError>
    requires whole { domain.now.mode ≢ Broken }
    requires shard { view_shard domain.now.plan domain.now.view (datum_of key.now)
        ≡ domain.now.shard }
    ensures filled { IfOk result (λ o. is_some o
        ≡ is_filled ((view_of domain.now).keys.at (datum_of key.now))) }
    ensures rows { IfOk result (λ o. IfSome o (λ v. v.items ≡ answer domain.now.plan
        (lines_of domain.now.cut) domain.now.view (datum_of key.now))) }
{
    let Some(rows) = domain.get(key) else {
        return Ok(None);
    };
    let rows = rows.shared(alloc)?.to_rows(alloc)?;
    Ok(Some(rows))
}
