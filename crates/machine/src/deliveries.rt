//! Deliveries: the first message of an edge goes to the domain at its end.
ghost use Rattle.std.specs.Prelude.{IfOk};
ghost use Rattle.protocol.specs.{Edges.queue, WorldSteps.base_ask_came, WorldSteps.delivery, WorldSteps.stage_came};
ghost use Rattle.schedule.specs.Codes.{reply_of, wire_in};
ghost use Rattle.machine.specs.{Held.AgreeingAreOne, Held.IsDone, Held.IsWhole, Held.sent_in, Held.world_of, Machines.held};

use crate::bases::{base_runs, give_base};
use crate::machine::Machine;
use crate::stages::{give_stage, stage_runs};
use crate::views::{give_view, view_runs};
use base_domain::message::ToBase;
use model::fronts::Fronts;
use row::refused::Refused;
use schedule::event::Reply;
use schedule::wire::Wire;
use stage_steps::message::ToStage;
use std::alloc::Global;
use view_domain::message::ToView;

/// The first message of an edge is delivered; a domain that has stopped loses it. Errors: then
/// nothing is said of the machine.
pub fn deliver<F: Fronts>(
    alloc: Global,
    words: &F::Words,
    machine: &mut Machine<F>,
    wire: Wire,
) -> Result<Reply, Refused>
    requires agree { AgreeingAreOne F.are_one }
    requires whole { IsWhole F.log F.authors (held machine.old) }
    ensures done { IfOk result (λ r. IsDone F.log F.authors
        (delivery (world_of F.log F.authors (held machine.old)) (wire_in wire)) (reply_of r)
        (held machine.new)) }
{
    match wire {
        Wire::FromSource { source, stage } => {
            let Some(packet) = machine.to_stage.take(stage, source) else {
                return Ok(Reply::Idle);
            };
            if !stage_runs(&machine.stages, stage) {
                return Ok(Reply::Delivered);
            }
            give_stage(alloc, machine, stage, ToStage::Packet { source, packet })?;
            Ok(Reply::Delivered)
        }
        Wire::FromStage { stage, reader } => from_stage(alloc, machine, stage, reader),
        Wire::AskStage { reader, stage } => {
            let Some(request) = machine.from_view.take(stage, reader) else {
                return Ok(Reply::Idle);
            };
            if !stage_runs(&machine.stages, stage) {
                return Ok(Reply::Delivered);
            }
            give_stage(alloc, machine, stage, ToStage::Request(request))?;
            Ok(Reply::Delivered)
        }
        Wire::AskSource { stage, source } => ask_source(alloc, words, machine, stage, source),
    }
}

/// The first request on the edge from a stage shard to a source. A base shard that has stopped
/// loses it. Errors: then nothing is said of the machine.
fn ask_source<F: Fronts>(
    alloc: Global,
    words: &F::Words,
    machine: &mut Machine<F>,
    stage: usize,
    source: usize,
) -> Result<Reply, Refused>
    requires whole { IsWhole F.log F.authors (held machine.old) }
    ensures done { IfOk result (λ r. IsDone F.log F.authors
        (base_ask_came (world_of F.log F.authors (held machine.old)) stage source
        (queue (held machine.old).to_base source stage)) (reply_of r) (held machine.new)) }
{
    let base = machine.places.source_at(source);
    let runs = base_runs(&machine.bases, base);
    let Some(request) = machine.to_base.take(source, stage) else {
        return Ok(Reply::Idle);
    };
    if !runs {
        return Ok(Reply::Delivered);
    }
    give_base(
        alloc,
        words,
        machine,
        base,
        ToBase::Request { stage, request },
    )?;
    Ok(Reply::Delivered)
}

/// The first packet on the edge from a stage shard to a view shard. A shard that has stopped
/// loses it. Errors: then nothing is said of the machine.
fn from_stage<F: Fronts>(
    alloc: Global,
    machine: &mut Machine<F>,
    stage: usize,
    reader: usize,
) -> Result<Reply, Refused>
    requires agree { AgreeingAreOne F.are_one }
    requires whole { IsWhole F.log F.authors (held machine.old) }
    ensures done { IfOk result (λ r. IsDone F.log F.authors
        (stage_came (world_of F.log F.authors (held machine.old)) stage reader
        (queue (sent_in (held machine.old).to_view) reader stage)) (reply_of r)
        (held machine.new)) }
{
    let runs = view_runs(&machine.views, reader);
    let Some(packet) = machine.to_view.take(reader, stage) else {
        return Ok(Reply::Idle);
    };
    if !runs {
        return Ok(Reply::Delivered);
    }
    let reply = give_view(alloc, machine, reader, ToView::Packet { stage, packet })?;
    Ok(reply)
}
