//! The turns of a base shard in its thread.
ghost use Rattle.std.specs.Prelude.{◌≡◌, ◌<◌, [], false, length, slice_set};
ghost use Rattle.base_domain.specs.Received.{Stays};
ghost use Rattle.packet.specs.Outboxes.{IsClear, packets_on};
ghost use Rattle.domain_turns.specs.BaseTurns.{Went, log_in};

use crate::duty::BaseDuty;
use crate::gate::Gate;
use crate::worker::{Worker, send_each};
use base_domain::base_domain::BaseDomain;
use book::front::Front;
use book::law::Naming;
use domain_turns::base_turns::{BaseTurn, take_base};
use domain_turns::fresh::fresh_base;
use links::inbox::{Inbox, Taking};
use links::turns::Turns;
use model::places::place_of;
use packet::outbox::Outbox;
use plan::domain::DomainId;
use plan::plan::Plan;
use routes::mail::{BaseMail, Reply};
use routes::routes::Routes;
use row::refused::Refused;
use schedule::wire::Spot;
use stage_steps::message::ToStage;
use std::alloc::Global;
use std::marker::Model;
use std::sync::Wait;

/// A base shard that a thread serves.
#[derive(Drop)]
pub(crate) struct BaseSeat<'r, J: Naming, R> {
    worker: Worker<'r, J, R>,
    inbox: &'r Inbox<BaseMail<J>>,
    domain: BaseDomain<'r, Front<J>>,
    out: Outbox<Front<J>>,
    turns: Turns<BaseMail<J>>,
    id: DomainId,
    source: Option<usize>,
}

impl<'r, J: Naming, R> Model for BaseSeat<'r, J, R> {
    ghost use Rattle.std.specs.Prelude.{◌≡◌, ℕ, length};
    ghost use Rattle.packet.specs.Outboxes.{IsClear};

    ghost Value = { ℕ };

    ghost view = { λ s. s.worker.place };

    ghost invariant = { λ s. (s.domain.front.base ≡ s.worker.place)
        × (length s.domain.next ≡ J.sessions) × IsClear s.out
        × (length s.out.edges ≡ J.plan.stages) × (length s.turns.waiting ≡ s.inbox.now) };
}

impl<'r, J: Naming, R: Wait> BaseSeat<'r, J, R> {
    /// The base shard, with no message. Errors: `UnknownPlace` where there is no such base shard,
    /// else `NoMemory`.
    pub(crate) fn new(
        rt: &'r R,
        alloc: Global,
        routes: &'r Routes<J>,
        duty: BaseDuty<J>,
    ) -> Result<BaseSeat<'r, J, R>, Refused> {
        let (log, sessions) = duty.into_parts();
        let base = log.base();
        let inbox = routes.base_inbox(base).ok_or(Refused::UnknownPlace)?;
        Ok(BaseSeat {
            worker: Worker::new(rt, alloc, routes, base),
            inbox,
            domain: fresh_base(alloc, routes.plan(), log, sessions)?,
            out: Outbox::new(alloc, routes.plan().stages())?,
            turns: Turns::new(alloc, inbox.edges())?,
            id: id_of(routes.plan(), base),
            source: routes.sources().iter().position(|own| *own == base),
        })
    }

    /// Whether a message waits in its inbox, or that is closed.
    pub(crate) fn is_ready(&self) -> bool {
        self.inbox.is_ready()
    }

    /// Takes what waits in its inbox, and then one message after the other, and sends what it makes
    /// of each. It waits for none. When it has stopped it goes on refusing writes with `Stopped`.
    pub(crate) fn serve<G: Gate>(&mut self, gate: &G) -> Taking {
        let rt = self.worker.rt;
        let taking = self.turns.take(rt, self.inbox);
        for _ in rt.forever() {
            if !self.turn(gate) {
                break;
            }
        }
        taking
    }

    // Takes the next message of those that were taken; false where none is left.
    fn turn<G: Gate>(&mut self, gate: &G) -> bool {
        let number = self.turns.turn();
        let Some(mail) = self.turns.pop() else {
            return false;
        };
        gate.before(self.id, number);
        take(
            &self.worker,
            self.source,
            &mut self.domain,
            mail,
            &mut self.out,
        );
        gate.after(self.id, number);
        true
    }
}

// The name of a base shard.
fn id_of(plan: &Plan, base: usize) -> DomainId {
    match place_of(plan, base) {
        Some((table, shard)) => DomainId::Base(table, shard),
        None => DomainId::Base(0, base),
    }
}

// Takes one message, and sends its packets and its reply. Where a packet is refused the domain
// stops: a later one would come out of turn.
fn take<J: Naming, R: Wait>(
    worker: &Worker<J, R>,
    source: Option<usize>,
    domain: &mut BaseDomain<Front<J>>,
    mail: BaseMail<J>,
    out: &mut Outbox<Front<J>>,
)
    requires base { domain.old.front.base ≡ worker.now.place }
    requires sessions { length domain.old.next ≡ J.sessions }
    requires clear { IsClear out.old }
    requires edges { length out.old.edges ≡ J.plan.stages }
    ensures went { domain.new.stopped ≡ false → Went J.plan mail domain.old domain.new }
    ensures place { Stays (log_in J.plan) domain.old domain.new }
    ensures clear { IsClear out.new }
    ensures edges { length out.new.edges ≡ J.plan.stages }
{
    let (rt, routes, base) = (worker.rt, worker.routes, worker.place);
    let was_running = !domain.is_stopped();
    let BaseTurn { reply, taken: _ } = take_base(
        worker.alloc,
        routes.book(),
        base,
        domain,
        mail,
        out,
    );
    pass_on(worker, source, domain, out, reply);
    if was_running && domain.is_stopped() {
        routes.stop(rt, Spot::Base(base));
    }
}

// Sends what it put out: the packets that carry changes, since a session may wait to be shown them,
// then the reply, so that who has it finds those packets on their way, and then the other packets. It
// leaves the outbox clear. Where a packet is refused none is sent after it, and the domain stops.
fn pass_on<J: Naming, R: Wait>(
    worker: &Worker<J, R>,
    source: Option<usize>,
    domain: &mut BaseDomain<Front<J>>,
    out: &mut Outbox<Front<J>>,
    reply: Option<Reply<J>>,
)
    requires reply { out.old.reply ≡ None }
    ensures goes_on { domain.new.stopped ≡ false → domain.new ≡ domain.old }
    ensures stays { domain.new ≡ record domain.old { stopped = domain.new.stopped } }
    ensures clear { IsClear out.new }
    ensures edges { length out.new.edges ≡ length out.old.edges }
{
    let sent = send_changes(worker, source, out);
    if let Some(reply) = reply {
        worker.routes.reply(worker.rt, reply);
    }
    if send_rest(worker, source, out, sent).is_err() {
        domain.stop();
    }
}

// Sends the packets to each stage shard to which one carries changes, and leaves none there. Errors:
// a packet was refused; none is sent after it.
fn send_changes<J: Naming, R: Wait>(
    worker: &Worker<J, R>,
    source: Option<usize>,
    out: &mut Outbox<Front<J>>,
) -> Result<(), Refused>
    ensures reply { out.new.reply ≡ out.old.reply }
    ensures edges { length out.new.edges ≡ length out.old.edges }
{
    let mut sent = Ok(());
    for stage in 0..out.stages() {
        if out.has_changes(stage) {
            sent = send_to(worker, source, out, stage, sent);
        }
    }
    sent
}

// Sends the packets that are left to each stage shard, in order, where all went well so far, and
// leaves the outbox clear. Errors: that of before, or a packet was refused; none is sent after it.
fn send_rest<J: Naming, R: Wait>(
    worker: &Worker<J, R>,
    source: Option<usize>,
    out: &mut Outbox<Front<J>>,
    mut sent: Result<(), Refused>,
) -> Result<(), Refused>
    requires reply { out.old.reply ≡ None }
    ensures clear { IsClear out.new }
    ensures edges { length out.new.edges ≡ length out.old.edges }
{
    for stage in 0..out.stages() {
        sent = send_to(worker, source, out, stage, sent);
    }
    sent
}

// Sends the packets to a stage shard, in order, where all went well so far, and leaves none. Errors:
// that of before, or a packet was refused; none is sent after it.
fn send_to<J: Naming, R: Wait>(
    worker: &Worker<J, R>,
    source: Option<usize>,
    out: &mut Outbox<Front<J>>,
    stage: usize,
    sent: Result<(), Refused>,
) -> Result<(), Refused>
    requires stage { stage < length out.old.edges }
    ensures none { packets_on out.new.edges ≡ slice_set (packets_on out.old.edges) stage [] }
    ensures edges { length out.new.edges ≡ length out.old.edges }
    ensures reply { out.new.reply ≡ out.old.reply }
{
    if out.is_clear(stage) {
        return sent;
    }
    let (rt, routes) = (worker.rt, worker.routes);
    let mut packets = out.take(worker.alloc, stage);
    let sent = match source {
        Some(source) => send_each(sent, &mut packets, |packet| {
            routes.to_stage(rt, source, stage, ToStage::Packet { source, packet })
        }),
        None => sent,
    };
    packets.clear();
    out.keep_room(stage, packets);
    sent
}
