//! Wants: a key of a view that is not filled is asked for.
ghost use Rattle.std.specs.Prelude.{◌≡◌, ◌<◌, ◌&&◌, length, map, slice_get, IfOk};
ghost use Rattle.row.specs.Cells.{datum_of};
ghost use Rattle.partial.specs.States.{is_filled};
ghost use Rattle.protocol.specs.WorldSteps.{is_up, lower_run, wanted_at};
ghost use Rattle.schedule.specs.Codes.{reply_of};
ghost use Rattle.view_domain.specs.Domains.{view_of};
ghost use Rattle.machine.specs.{Held.IsDone, Held.IsPlaced, Held.view_node, Held.world_of, Machines.held};

use crate::fences::{are_both, lower_runs};
use machine::machine::Machine;
use machine::views::{give_view, view_runs};
use model::fronts::Fronts;
use row::refused::Refused;
use row::value::Value;
use schedule::event::Reply;
use std::alloc::Global;
use view_domain::message::ToView;
use view_domain::view_domain::ViewDomain;

/// A key is wanted of a view shard: where it is not filled, the shard takes the want, if that and
/// all below it runs. Errors: then nothing is said of the machine.
pub(crate) fn want_at<F: Fronts>(
    alloc: Global,
    machine: &mut Machine<F>,
    reader: usize,
    key: &Value,
) -> Result<Reply, Refused>
    requires placed { IsPlaced F.log F.authors (held machine.old) }
    requires there { reader < length (held machine.old).views }
    ensures done { IfOk result (λ r. IsDone F.log F.authors
        (wanted_at (world_of F.log F.authors (held machine.old)) (datum_of key.now) reader
        (slice_get (map view_node (held machine.old).views) reader)) (reply_of r)
        (held machine.new)) }
{
    if is_filled(&machine.views[reader], key) {
        return Ok(Reply::Wanted);
    }
    if !can_ask(machine, reader) {
        return Ok(Reply::Refused(Refused::Stopped));
    }
    let Ok(key) = key.try_clone(alloc) else {
        return Err(Refused::NoMemory);
    };
    give_view(alloc, machine, reader, ToView::Want { key })?;
    Ok(Reply::Wanted)
}

/// Whether a view shard has the key filled.
fn is_filled<F: Fronts>(domain: &ViewDomain<F>, key: &Value) -> bool
    ensures { result ≡ is_filled ((view_of domain.now).keys.at (datum_of key.now)) }
{
    domain.get(key).is_some()
}

/// Whether a view shard runs, and all that it asks.
fn can_ask<F: Fronts>(machine: &Machine<F>, reader: usize) -> bool
    ensures { result ≡ (is_up (slice_get (map view_node (held machine.now).views) reader)
        && lower_run (world_of F.log F.authors (held machine.now))) }
{
    let runs = view_runs(&machine.views, reader);
    let lower = lower_runs(machine);
    are_both(runs, lower)
}
