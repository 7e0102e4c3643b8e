//! The turns of a stage shard in its thread.
ghost use Rattle.std.specs.Prelude.{◌≡◌, ◌≢◌, ◌<◌, [], length, slice_set, IfNone, IfOk, IfSome};
ghost use Rattle.packet.specs.{Joined.GoesOnBase, Messages.none_of, Outboxes.packets_on, declared.mode.Mode.TheVariants.Running};
ghost use Rattle.stage_steps.specs.{Codes.message_of, Outboxes.AreEdges, Outboxes.IsSilent};
ghost use Rattle.domain_turns.specs.StageTurns.{Went};
ghost use Rattle.workers.specs.Joined.{IsJoinedStage, TakesBase};

use crate::duty::StageDuty;
use crate::gate::Gate;
use crate::worker::{Worker, send_each};
use book::front::Front;
use book::law::Naming;
use book::part::Part;
use domain_turns::fresh::fresh_stage;
use domain_turns::joins::base_goes_on;
use domain_turns::stage_turns::take_stage;
use links::inbox::{Inbox, Taking};
use links::turns::Turns;
use packet::base_packet::BasePacket;
use packet::mode::Mode;
use plan::domain::DomainId;
use routes::mail::ViewMail;
use routes::routes::Routes;
use row::refused::Refused;
use schedule::wire::Spot;
use stage_domain::stage_domain::StageDomain;
use stage_steps::message::ToStage;
use stage_steps::outbox::StageOutbox;
use std::alloc::{AllocError, Global};
use std::marker::Model;
use std::sync::Wait;

/// How many messages a stage shard takes before its thread serves others: base shards may be
/// thousands ahead of it, and what it puts out for a view shard of its thread waits meanwhile.
const BATCH: u32 = 64;

/// A stage shard that a thread serves.
#[derive(Drop)]
pub(crate) struct StageSeat<'r, J: Naming, R> {
    worker: Worker<'r, J, R>,
    inbox: &'r Inbox<ToStage<Front<J>>>,
    domain: StageDomain<'r, Front<J>>,
    out: StageOutbox<Front<J>>,
    turns: Turns<ToStage<Front<J>>>,
}

impl<'r, J: Naming, R> Model for StageSeat<'r, J, R> {
    ghost use Rattle.std.specs.Prelude.{◌≡◌, ◌<◌, ℕ, length};
    ghost use Rattle.packet.specs.declared.mode.Mode.TheVariants.{Running};
    ghost use Rattle.stage_steps.specs.Outboxes.{AreEdges, IsSilent};

    ghost Value = { ℕ };

    ghost view = { λ s. s.worker.place };

    ghost invariant = { λ s. (s.worker.place < J.plan.stages)
        × (s.domain.mode ≡ Running → s.domain.plan ≡ J.plan) × IsSilent s.out
        × AreEdges J.plan s.out × (length s.turns.waiting ≡ s.inbox.now) };
}

impl<'r, J: Naming, R: Wait> StageSeat<'r, J, R> {
    /// The stage shard, with no message. Errors: `UnknownPlace` where there is no such stage shard,
    /// else `NoMemory`.
    pub(crate) fn new(
        rt: &'r R,
        alloc: Global,
        routes: &'r Routes<J>,
        part: &Part<J>,
        duty: StageDuty<J>,
    ) -> Result<StageSeat<'r, J, R>, Refused> {
        let shard = duty.shard();
        let inbox = routes.stage_inbox(shard).ok_or(Refused::UnknownPlace)?;
        let (readers, sources) = (routes.readers().len(), routes.sources().len());
        Ok(StageSeat {
            worker: Worker::new(rt, alloc, routes, shard),
            inbox,
            domain: fresh_stage(alloc, routes, part, shard)?,
            out: StageOutbox::new(alloc, readers, sources)?,
            turns: Turns::new(alloc, inbox.edges())?,
        })
    }

    /// Whether a message waits in its inbox, or that is closed.
    pub(crate) fn is_ready(&self) -> bool {
        self.inbox.is_ready()
    }

    /// Takes what waits in its inbox, and then one message after the other, at most `BATCH`, and
    /// sends what it makes of each; with a packet those behind it that go on from it, as one. It waits
    /// for none. What comes when it has stopped is lost.
    pub(crate) fn serve<G: Gate>(&mut self, gate: &G) -> Taking {
        let taking = self.turns.take(self.worker.rt, self.inbox);
        for _ in 0..BATCH {
            if !self.turn(gate) {
                break;
            }
        }
        taking
    }

    // Takes the next message of those that were taken; false where none is left.
    fn turn<G: Gate>(&mut self, gate: &G) -> bool {
        let number = self.turns.turn();
        let Some(message) = self.turns.pop() else {
            return false;
        };
        let id = DomainId::Stage(self.worker.place);
        gate.before(id, number);
        match joined(message, &mut self.turns) {
            Ok(message) => take(&self.worker, &mut self.domain, message, &mut self.out),
            Err(_) => stop(&self.worker, &mut self.domain),
        }
        gate.after(id, number);
        true
    }
}

// The message; a packet with those behind it on its edge that go on from it. Errors: memory only; then
// some are gone.
fn joined<J: Naming>(
    message: ToStage<Front<J>>,
    turns: &mut Turns<ToStage<Front<J>>>,
) -> Result<ToStage<Front<J>>, AllocError>
    ensures joined { IfOk result (λ m. IsJoinedStage message m) }
    ensures edges { length turns.new.waiting ≡ length turns.old.waiting }
{
    Ok(match message {
        ToStage::Packet { source, packet } => ToStage::Packet {
            source,
            packet: join_behind(packet, turns)?,
        },
        ToStage::Request(request) => ToStage::Request(request),
        ToStage::Order(key) => ToStage::Order(key),
    })
}

// The packet, with those behind it that go on from it. Errors: memory only; then some are gone.
fn join_behind<J: Naming>(
    mut packet: BasePacket<Front<J>>,
    turns: &mut Turns<ToStage<Front<J>>>,
) -> Result<BasePacket<Front<J>>, AllocError>
    ensures same { IfOk result (λ k. k ≡ record packet { to = k.to; changes = k.changes }) }
    ensures edges { length turns.new.waiting ≡ length turns.old.waiting }
{
    for _ in 0..BATCH {
        let Some(next) = take_next(&packet, turns) else {
            break;
        };
        packet.join(next)?;
    }
    Ok(packet)
}

// The packet behind this one, where it goes on from it, taken off its edge.
fn take_next<J: Naming>(
    packet: &BasePacket<Front<J>>,
    turns: &mut Turns<ToStage<Front<J>>>,
) -> Option<BasePacket<Front<J>>>
    ensures goes_on { IfSome result (λ next. GoesOnBase packet.now next) }
    ensures taken { IfSome result (λ next. TakesBase turns.old next turns.new) }
    ensures none { IfNone result (turns.new ≡ turns.old) }
    ensures edges { length turns.new.waiting ≡ length turns.old.waiting }
{
    match turns.behind() {
        Some(ToStage::Packet { packet: next, .. }) if base_goes_on(packet, next) => (),
        _ => return None,
    }
    match turns.take_behind() {
        Some(ToStage::Packet { packet: next, .. }) => Some(next),
        _ => unreachable!(),
    }
}

// Stops the domain, and says so.
fn stop<J: Naming, R: Wait>(worker: &Worker<J, R>, domain: &mut StageDomain<Front<J>>)
    ensures { domain.new.mode ≢ Running }
{
    domain.stop();
    worker.routes.stop(worker.rt, Spot::Stage(worker.place));
}

// Takes one message, where the domain runs, and sends what it puts out. Where a packet or a request
// is refused the domain stops: a later packet would come out of turn.
fn take<J: Naming, R: Wait>(
    worker: &Worker<J, R>,
    domain: &mut StageDomain<Front<J>>,
    message: ToStage<Front<J>>,
    out: &mut StageOutbox<Front<J>>,
)
    requires shard { worker.now.place < J.plan.stages }
    requires plan { domain.old.mode ≡ Running → domain.old.plan ≡ J.plan }
    requires clear { IsSilent out.old }
    requires edges { AreEdges J.plan out.old }
    ensures went { domain.new.mode ≡ Running → Went (message_of message) domain.old domain.new }
    ensures plan { domain.new.mode ≡ Running → domain.new.plan ≡ J.plan }
    ensures clear { IsSilent out.new }
    ensures edges { AreEdges J.plan out.new }
{
    if domain.mode() != Mode::Running {
        return;
    }
    let routes = worker.routes;
    let (plan, sources) = (routes.plan(), routes.sources());
    let taken = take_stage(worker.alloc, plan, sources, domain, message, out);
    let sent = send(worker, out);
    if taken.is_err() || sent.is_err() {
        stop(worker, domain);
    }
}

// Sends the packets to each view shard and then the requests to each source, in order, and leaves
// the outbox clear. Errors: one was refused; none is sent after it.
fn send<J: Naming, R: Wait>(
    worker: &Worker<J, R>,
    out: &mut StageOutbox<Front<J>>,
) -> Result<(), Refused>
    requires shard { worker.now.place < J.plan.stages }
    requires edges { AreEdges J.plan out.old }
    ensures clear { IsSilent out.new }
    ensures edges { AreEdges J.plan out.new }
{
    let sent = send_packets(worker, out);
    send_requests(worker, out, sent)
}

// Sends the packets to each view shard, in order, those first that carry changes, since a session
// may wait to be shown them, and leaves none. Errors: a packet was refused; none is sent after it.
fn send_packets<J: Naming, R: Wait>(
    worker: &Worker<J, R>,
    out: &mut StageOutbox<Front<J>>,
) -> Result<(), Refused>
    ensures none { packets_on out.new.packets ≡ none_of out.new.packets }
    ensures rest { out.new ≡ record out.old { packets = out.new.packets } }
    ensures edges { length out.new.packets ≡ length out.old.packets }
{
    let sent = send_changes(worker, out);
    send_rest(worker, out, sent)
}

// Sends the packets to each view shard to which one carries changes, and leaves none there. Errors: a
// packet was refused; none is sent after it.
fn send_changes<J: Naming, R: Wait>(
    worker: &Worker<J, R>,
    out: &mut StageOutbox<Front<J>>,
) -> Result<(), Refused>
    ensures rest { out.new ≡ record out.old { packets = out.new.packets } }
    ensures edges { length out.new.packets ≡ length out.old.packets }
{
    let mut sent = Ok(());
    for reader in 0..out.readers() {
        if out.has_changes(reader) {
            sent = send_to(worker, out, reader, sent);
        }
    }
    sent
}

// Sends the packets that are left to each view shard, in order, where all went well so far, and leaves
// none. Errors: that of before, or a packet was refused; none is sent after it.
fn send_rest<J: Naming, R: Wait>(
    worker: &Worker<J, R>,
    out: &mut StageOutbox<Front<J>>,
    mut sent: Result<(), Refused>,
) -> Result<(), Refused>
    ensures none { packets_on out.new.packets ≡ none_of out.new.packets }
    ensures rest { out.new ≡ record out.old { packets = out.new.packets } }
    ensures edges { length out.new.packets ≡ length out.old.packets }
{
    for reader in 0..out.readers() {
        sent = send_to(worker, out, reader, sent);
    }
    sent
}

// Sends the packets to a view shard, in order, where all went well so far, and leaves none. Errors:
// that of before, or a packet was refused; none is sent after it.
fn send_to<J: Naming, R: Wait>(
    worker: &Worker<J, R>,
    out: &mut StageOutbox<Front<J>>,
    reader: usize,
    sent: Result<(), Refused>,
) -> Result<(), Refused>
    requires reader { reader < length out.old.packets }
    ensures none { packets_on out.new.packets ≡ slice_set (packets_on out.old.packets) reader [] }
    ensures rest { out.new ≡ record out.old { packets = out.new.packets } }
    ensures edges { length out.new.packets ≡ length out.old.packets }
{
    if out.has_no_packets(reader) {
        return sent;
    }
    let (rt, routes, stage) = (worker.rt, worker.routes, worker.place);
    let mut packets = out.take_packets(worker.alloc, reader);
    let sent = send_each(sent, &mut packets, |packet| {
        routes.to_view(rt, stage, reader, ViewMail::Packet { stage, packet })
    });
    packets.clear();
    out.keep_room(reader, packets);
    sent
}

// Sends the requests to each source, in order, where all went well so far, and leaves none. Errors:
// that of before, or a request was refused; none is sent after it.
fn send_requests<J: Naming, R: Wait>(
    worker: &Worker<J, R>,
    out: &mut StageOutbox<Front<J>>,
    mut sent: Result<(), Refused>,
) -> Result<(), Refused>
    requires shard { worker.now.place < J.plan.stages }
    ensures none { packets_on out.new.requests ≡ none_of out.new.requests }
    ensures rest { out.new ≡ record out.old { requests = out.new.requests } }
    ensures edges { length out.new.requests ≡ length out.old.requests }
{
    for source in 0..out.sources() {
        sent = send_requests_to(worker, out, source, sent);
    }
    sent
}

// Sends the requests to a source, in order, where all went well so far, and leaves none. Errors: that
// of before, or a request was refused; none is sent after it.
fn send_requests_to<J: Naming, R: Wait>(
    worker: &Worker<J, R>,
    out: &mut StageOutbox<Front<J>>,
    source: usize,
    sent: Result<(), Refused>,
) -> Result<(), Refused>
    requires shard { worker.now.place < J.plan.stages }
    requires source { source < length out.old.requests }
    ensures none { packets_on out.new.requests
        ≡ slice_set (packets_on out.old.requests) source [] }
    ensures rest { out.new ≡ record out.old { requests = out.new.requests } }
    ensures edges { length out.new.requests ≡ length out.old.requests }
{
    if out.has_no_requests(source) {
        return sent;
    }
    let (rt, routes, stage) = (worker.rt, worker.routes, worker.place);
    let mut requests = out.take_requests(worker.alloc, source);
    let sent = send_each(sent, &mut requests, |request| {
        routes.stage_to_source(rt, stage, source, request)
    });
    requests.clear();
    out.keep_request_room(source, requests);
    sent
}
