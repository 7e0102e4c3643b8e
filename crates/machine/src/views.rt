//! Messages to view shards, and what they acknowledge.
ghost use Rattle.std.specs.Prelude.{◌≡◌, ◌<◌, true, length, map, slice_get, Some, IfOk, IsTrue};
ghost use Rattle.packet.specs.declared.mode.Mode.TheVariants.{Running};
ghost use Rattle.protocol.specs.WorldSteps.{ack_from, is_up, lengths_of, view_takes};
ghost use Rattle.schedule.specs.Codes.{reply_of};
ghost use Rattle.view_domain.specs.{Domains.Domain as ViewState, Domains.lines_of, Codes.message_of, Codes.Meets};
ghost use Rattle.machine.specs.{Held.IsDone, Held.IsPlaced, Held.view_node, Held.world_of, Machines.held};

use crate::machine::Machine;
use crate::turns::turn_view;
use model::fronts::Fronts;
use model::lengths::Lengths;
use packet::mode::Mode;
use packet::request::Marker;
use row::refused::Refused;
use schedule::event::Reply;
use std::alloc::{AllocError, Global};
use view_domain::message::ToView;
use view_domain::view_domain::ViewDomain;

/// The lengths of a view shard's cut. Errors: memory only.
pub fn cut_lengths<F: Fronts>(alloc: Global, view: &ViewDomain<F>) -> Result<Lengths, AllocError>
    ensures { IfOk result (λ c. c ≡ lengths_of (lines_of view.now.cut)) }
{
    let mut cut = Lengths::empty(alloc);
    for line in view.cut() {
        let lengths = line.lengths(alloc)?;
        cut.push_line(alloc, lengths.as_slice())?;
    }
    Ok(cut)
}

/// A view shard acknowledges a fence with its cut. Errors: then nothing is said of the machine.
pub(crate) fn acknowledge<F: Fronts>(
    alloc: Global,
    machine: &mut Machine<F>,
    reader: usize,
    cut: Lengths,
    marker: Marker,
) -> Result<Reply, Refused>
    requires placed { IsPlaced F.log F.authors (held machine.old) }
    ensures done { IfOk result (λ r. IsDone F.log F.authors
        (ack_from (world_of F.log F.authors (held machine.old)) marker.session
        (slice_get (world_of F.log F.authors (held machine.old)).callers marker.session)
        marker.number reader cut) (reply_of r) (held machine.new)) }
{
    if marker.session >= machine.callers.len() {
        return Ok(Reply::Delivered);
    }
    let reply = machine.callers[marker.session].acknowledge(
        alloc,
        &machine.places,
        marker.session,
        reader,
        marker.number,
        cut,
    )?;
    Ok(reply)
}

/// Whether there is the view shard, and it runs.
pub fn view_runs<F: Fronts>(views: &[ViewDomain<F>], reader: usize) -> bool
    ensures runs { result ≡ is_up (slice_get (map view_node views.now) reader) }
    ensures there { IsTrue result → reader < length views.now }
{
    let Some(domain) = views.get(reader) else {
        return false;
    };
    domain.mode() == Mode::Running
}

/// A view shard that runs takes a message. Errors: then nothing is said of the machine.
pub fn give_view<F: Fronts>(
    alloc: Global,
    machine: &mut Machine<F>,
    reader: usize,
    message: ToView<F>,
) -> Result<Reply, Refused>
    requires placed { IsPlaced F.log F.authors (held machine.old) }
    requires up { is_up (slice_get (map view_node (held machine.old).views) reader) ≡ true }
    requires there { reader < length (held machine.old).views }
    requires meets { (d : ViewState) → slice_get (held machine.old).views reader ≡ Some d
        → d.mode ≡ Running → Meets F.are_one d message }
    ensures done { IfOk result (λ r. IsDone F.log F.authors
        (view_takes (world_of F.log F.authors (held machine.old)) reader
        (slice_get (map view_node (held machine.old).views) reader) (message_of message))
        (reply_of r) (held machine.new)) }
{
    let stages = machine.places.plan().stages();
    let acknowledged = turn_view(
        alloc,
        reader,
        &mut machine.views[reader],
        message,
        stages,
        &mut machine.from_view,
    )?;
    let Some(marker) = acknowledged else {
        return Ok(Reply::Delivered);
    };
    let Ok(cut) = cut_lengths(alloc, &machine.views[reader]) else {
        return Err(Refused::NoMemory);
    };
    let reply = acknowledge(alloc, machine, reader, cut, marker)?;
    Ok(reply)
}
