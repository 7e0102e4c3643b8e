//! The turns of a stage shard.
ghost use Rattle.std.specs.Prelude.{◌≡◌, ◌≢◌, ◌<◌, length, IfErr, IsErrAnd, IsFalse, IsTrue, OnErr, OnOk};
ghost use Rattle.model.specs.Places.{sources as sources_of};
ghost use Rattle.packet.specs.{Readers.view_of, declared.mode.Mode.TheVariants.Running};
ghost use Rattle.stage_steps.specs.{Codes.message_of, Outboxes.AreEdges, Outboxes.IsSilent, Shards.IsFrom};
ghost use Rattle.stage_domain.specs.Domains.{Meets};
ghost use Rattle.domain_turns.specs.{StageTurns.IsFor, StageTurns.IsTaken, StageTurns.IsUntaken, ViewTurns.are_one};

use book::front::Front;
use book::law::Naming;
use packet::base_packet::BasePacket;
use packet::mode::Mode;
use packet::request::Request;
use plan::plan::Plan;
use row::refused::Refused;
use stage_domain::stage_domain::StageDomain;
use stage_steps::message::ToStage;
use stage_steps::outbox::StageOutbox;
use std::alloc::Global;

/// A stage shard takes one message from its inbox into a clear outbox with an edge to each view
/// shard and to each source.
///
/// With `Ok` the message was for it and in turn, the domain did the step of the protocol, and its
/// packets and requests are on the edges. Errors: `Gap` just where the message was not for it or a
/// packet does not start at the front that is held of its source, and the domain has then stopped,
/// with all else as it was; `NoMemory`, and then the domain does not run; `Stopped` where it did
/// not run, and nothing changes. After an error nothing is on the edges. Cost: that of
/// `StageDomain::receive`.
pub fn take_stage<J: Naming>(
    alloc: Global,
    plan: &Plan,
    sources: &[usize],
    domain: &mut StageDomain<Front<J>>,
    message: ToStage<Front<J>>,
    out: &mut StageOutbox<Front<J>>,
) -> Result<(), Refused>
    requires plan { (plan.now ≡ J.plan) × (domain.old.plan ≡ J.plan) }
    requires sources { sources.now ≡ sources_of J.plan }
    requires clear { IsSilent out.old }
    requires edges { AreEdges J.plan out.old }
    ensures done { OnOk result (IsTaken (message_of message) domain.old out.new domain.new) }
    ensures plan { OnOk result (domain.new.plan ≡ J.plan) }
    ensures not { domain.old.mode ≢ Running → IsErrAnd result (λ e. (e ≡ Refused.Stopped)
        × (domain.new ≡ domain.old)) }
    ensures refused { domain.old.mode ≡ Running → IfErr result (λ e. IsUntaken
        (message_of message) domain.old e domain.new) }
    ensures stopped { OnErr result (domain.new.mode ≢ Running) }
    ensures silent { OnErr result (IsSilent out.new) }
    ensures edges { AreEdges J.plan out.new }
{
    if domain.mode() != Mode::Running {
        return Err(Refused::Stopped);
    }
    if !is_for(plan, sources, domain, &message) {
        domain.stop();
        return Err(Refused::Gap);
    }
    domain.receive(alloc, message, out)
}

// Whether the message is for the domain.
fn is_for<J: Naming>(
    plan: &Plan,
    sources: &[usize],
    domain: &StageDomain<Front<J>>,
    message: &ToStage<Front<J>>,
) -> bool
    requires plan { (plan.now ≡ J.plan) × (domain.now.plan ≡ J.plan) }
    requires running { domain.now.mode ≡ Running }
    requires sources { sources.now ≡ sources_of J.plan }
    ensures yes { IsTrue result → IsFor domain.now (message_of message.now) }
    ensures no { IsFalse result → IsFor domain.now (message_of message.now) → ⊥ }
    ensures meets { IsTrue result → Meets are_one domain.now (message_of message.now) }
{
    let _line = domain.line();
    match message {
        ToStage::Packet { source, packet } => is_from(sources, domain, *source, packet),
        ToStage::Request(request) => is_asked(plan, request),
        ToStage::Order(_) => true,
    }
}

// Whether the packet is to the domain, from the base shard that is this source.
fn is_from<J: Naming>(
    sources: &[usize],
    domain: &StageDomain<Front<J>>,
    source: usize,
    packet: &BasePacket<Front<J>>,
) -> bool
    requires plan { domain.now.plan ≡ J.plan }
    requires sources { sources.now ≡ sources_of J.plan }
    ensures yes { IsTrue result → IsFrom domain.now.plan domain.now.shard source packet.now }
    ensures no { IsFalse result → IsFrom domain.now.plan domain.now.shard source packet.now → ⊥ }
{
    let _to = packet.to();
    source < sources.len() && sources[source] == packet.base() && packet.stage() == domain.shard()
}

// Whether the view of the request is one of the plan.
fn is_asked(plan: &Plan, request: &Request) -> bool
    ensures yes { IsTrue result → view_of request.now.tag < length plan.now.views }
    ensures no { IsFalse result → view_of request.now.tag < length plan.now.views → ⊥ }
{
    usize::from(request.tag().0.saturating_sub(1)) < plan.views()
}
