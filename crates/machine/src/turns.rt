//! One message to one domain: what it makes of the domain, and of the queues that it sends to.
ghost use Rattle.std.specs.Prelude.{◌≡◌, ◌≢◌, false, length, Some, IfOk, OnOk, IsFalse};
ghost use Rattle.model.specs.{Legal.most_sessions, Places.sources};
ghost use Rattle.packet.specs.{Codes.marks_in, Readers.readers, declared.mode.Mode.TheVariants.Running};
ghost use Rattle.protocol.specs.{Bases.declined, BaseSteps.step as base_step, Edges.source_place, StageSteps.step as stage_step, ViewSteps.step as view_step};
ghost use Rattle.base_domain.specs.{Codes.message_of as base_message, Received.IsFor, Received.base_at, Received.verdict_of};
ghost use Rattle.stage_steps.specs.Codes.{message_of as stage_message};
ghost use Rattle.stage_domain.specs.Domains.{Meets as StageMeets, stage_of};
ghost use Rattle.view_domain.specs.{Codes.message_of as view_message, Codes.Meets as ViewMeets, Domains.view_of};
ghost use Rattle.machine.specs.{Held.IsStageOf, Held.IsViewOf, Turned.IsBaseTurn, Turned.IsStageTurn, Turned.IsViewTurn};

use base_domain::base_domain::BaseDomain;
use base_domain::message::ToBase;
use model::fronts::Fronts;
use packet::answer::Answer;
use packet::base_packet::BasePacket;
use packet::edges::Edges;
use packet::outbox::Outbox;
use packet::request::{Marker, Request};
use packet::stage_packet::StagePacket;
use row::refused::Refused;
use schedule::queues::Queues;
use stage_domain::stage_domain::StageDomain;
use stage_steps::message::ToStage;
use stage_steps::outbox::StageOutbox;
use std::alloc::Global;
use view_domain::message::ToView;
use view_domain::outbox::ViewOutbox;
use view_domain::view_domain::ViewDomain;

/// A stage shard that runs takes a message, and what it puts out goes last on its queues: packets
/// to view shards and requests to sources, of which `edges` has the numbers. Errors: then nothing is
/// said of the shard and the queues.
pub(crate) fn turn_stage<'p, F: Fronts>(
    alloc: Global,
    stage: usize,
    domain: &mut StageDomain<'p, F>,
    message: ToStage<F>,
    edges: (usize, usize),
    queues: &mut Queues<StagePacket<F>>,
    asks: &mut Queues<Request>,
) -> Result<(), Refused>
    requires is { IsStageOf domain.old.plan stage domain.old }
    requires runs { domain.old.mode ≡ Running }
    requires readers { edges.0 ≡ length (readers domain.old.plan) }
    requires sources { edges.1 ≡ length (sources domain.old.plan) }
    requires meets { StageMeets F.are_one domain.old (stage_message message) }
    ensures turn { OnOk result (IsStageTurn domain.old.plan stage
        (stage_step (stage_of domain.old) (stage_message message))
        queues.old asks.old domain.new queues.new asks.new) }
{
    let (readers, sources) = edges;
    let Ok(mut out) = StageOutbox::new(alloc, readers, sources) else {
        return Err(Refused::NoMemory);
    };
    domain.receive(alloc, message, &mut out)?;
    let (packets, requests) = out.into_parts();
    let Ok(()) = queues.push(alloc, stage, packets) else {
        return Err(Refused::NoMemory);
    };
    let Ok(()) = asks.push(alloc, stage, requests) else {
        return Err(Refused::NoMemory);
    };
    Ok(())
}

/// A view shard that runs takes a message, and its requests go last on its queues; answers the
/// fence that it acknowledges. Errors: then nothing is said of the shard and the queues.
pub(crate) fn turn_view<'p, F: Fronts>(
    alloc: Global,
    reader: usize,
    domain: &mut ViewDomain<'p, F>,
    message: ToView<F>,
    stages: usize,
    queues: &mut Queues<Request>,
) -> Result<Option<Marker>, Refused>
    requires is { IsViewOf domain.old.plan reader domain.old }
    requires runs { domain.old.mode ≡ Running }
    requires edges { stages ≡ domain.old.plan.stages }
    requires meets { ViewMeets F.are_one domain.old message }
    ensures turn { OnOk result (IsViewTurn domain.old.plan reader
        (view_step (view_of domain.old) (view_message message))
        queues.old domain.new queues.new) }
    ensures acks { IfOk result (λ ack. marks_in ack
        ≡ (view_step (view_of domain.old) (view_message message)).acks) }
{
    let Ok(mut out) = ViewOutbox::new(alloc, stages) else {
        return Err(Refused::NoMemory);
    };
    domain.receive(alloc, message, &mut out)?;
    let (requests, ack) = not_shown(out);
    let Ok(()) = queues.push(alloc, reader, requests) else {
        return Err(Refused::NoMemory);
    };
    Ok(ack)
}

/// What a view shard puts out, but for the operation on its shown copy: nothing is shown here.
fn not_shown<F: Fronts>(out: ViewOutbox<F>) -> (Edges<Request>, Option<Marker>)
    ensures requests { result.0 ≡ out.requests }
    ensures ack { result.1 ≡ out.ack }
{
    let (requests, _, ack) = out.into_parts();
    (requests, ack)
}

/// A base shard that runs takes a message, and its packets go last on the queues of the source
/// that it is; answers its reply to a write. Errors: `NoMemory` also where the write was refused
/// for that, and then nothing is said of the shard and the queues.
pub(crate) fn turn_base<'p, F: Fronts>(
    alloc: Global,
    words: &F::Words,
    domain: &mut BaseDomain<'p, F>,
    message: ToBase,
    stages: usize,
    source: Option<usize>,
    queues: &mut Queues<BasePacket<F>>,
) -> Result<Option<Answer<F>>, Refused>
    requires sessions { length domain.old.next ≡ most_sessions }
    requires runs { domain.old.stopped ≡ false }
    requires edges { stages ≡ (F.log domain.old.front).plan.stages }
    requires source { source ≡ source_place (F.log domain.old.front).plan
        (F.log domain.old.front).base }
    requires of { IsFor (F.log domain.old.front) most_sessions (base_message message) }
    ensures turn { OnOk result (IsBaseTurn F.log F.authors (F.log domain.old.front).plan
        (F.log domain.old.front).base
        (base_step (base_at F.log F.authors domain.old) (base_message message))
        queues.old domain.new queues.new) }
    ensures reply { IfOk result (λ a. verdict_of a
        ≡ (base_step (base_at F.log F.authors domain.old) (base_message message)).reply) }
{
    let Ok(mut out) = Outbox::new(alloc, stages) else {
        return Err(Refused::NoMemory);
    };
    domain.receive(alloc, words, message, &mut out)?;
    let (packets, reply) = out.into_parts();
    if is_for_memory(&reply) {
        return Err(Refused::NoMemory);
    }
    let Some(source) = source else {
        return Ok(reply);
    };
    let Ok(()) = queues.push(alloc, source, packets) else {
        return Err(Refused::NoMemory);
    };
    Ok(reply)
}

/// Whether a write was refused for memory.
fn is_for_memory<F: Fronts>(reply: &Option<Answer<F>>) -> bool
    ensures { IsFalse result → verdict_of reply.now ≢ Some (declined Refused.NoMemory) }
{
    match reply {
        Some(answer) => matches!(answer.refused(), Some(Refused::NoMemory)),
        None => false,
    }
}
