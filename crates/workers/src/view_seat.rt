//! The turns of a view shard in its thread.
ghost use Rattle.std.specs.Prelude.{◌≡◌, ◌≢◌, ◌<◌, [], length, slice_get, IfNone, IfOk, IfSome};
ghost use Rattle.packet.specs.{Joined.GoesOnStage, Outboxes.packets_on, Messages.none_of, Readers.readers, declared.mode.Mode.TheVariants.Running};
ghost use Rattle.domain_turns.specs.ViewTurns.{Shows, Went};
ghost use Rattle.schedule.specs.Codes.{reader_in};
ghost use Rattle.shown.specs.{Boards.pending, Boards.shown, Snapshots.Snapshot, Snapshots.first_of};
ghost use Rattle.view_domain.specs.Outboxes.{IsClear};
ghost use Rattle.workers.specs.Joined.{IsJoinedView, TakesStage};

use crate::gate::Gate;
use crate::worker::{Worker, send_each};
use book::front::Front;
use book::law::Naming;
use book::part::Part;
use domain_turns::fresh::fresh_view;
use domain_turns::joins::stage_goes_on;
use domain_turns::view_turns::take_from_inbox;
use domain_turns::waits::Waits;
use links::inbox::{Inbox, Taking};
use links::turns::Turns;
use packet::mode::Mode;
use packet::reader::Reader;
use packet::stage_packet::StagePacket;
use plan::domain::DomainId;
use routes::mail::ViewMail;
use routes::routes::Routes;
use row::refused::Refused;
use schedule::wire::Spot;
use shown::writer::ShownWriter;
use stage_steps::message::ToStage;
use std::alloc::{AllocError, Global};
use std::marker::Model;
use std::sync::Wait;
use view_domain::message::ToView;
use view_domain::outbox::ViewOutbox;
use view_domain::view_domain::ViewDomain;

/// How many messages a view shard takes before its thread serves others: more than all stage shards
/// put out for it meanwhile, so that it does not fall behind.
const BATCH: u32 = 1024;

/// A view shard that a thread serves, but for the writer of its shown copy: seen as its domain.
#[derive(Drop)]
pub(crate) struct ViewSeat<'r, J: Naming, R> {
    worker: Worker<'r, J, R>,
    inbox: &'r Inbox<ViewMail<J>>,
    domain: ViewDomain<'r, Front<J>>,
    out: ViewOutbox<Front<J>>,
    waits: Waits,
    turns: Turns<ViewMail<J>>,
}

impl<'r, J: Naming, R> Model for ViewSeat<'r, J, R> {
    ghost use Rattle.std.specs.Prelude.{◌≡◌, length};
    ghost use Rattle.packet.specs.declared.mode.Mode.TheVariants.{Running};
    ghost use Rattle.view_domain.specs.{Domains.Domain, Outboxes.IsClear};

    ghost Value = { Domain };

    ghost view = { λ s. s.domain };

    ghost invariant = { λ s. (s.domain.mode ≡ Running → s.domain.plan ≡ J.plan)
        × (s.domain.mode ≡ Running → IsClear s.out)
        × (length s.out.requests ≡ J.plan.stages) × (length s.turns.waiting ≡ s.inbox.now) };
}

impl<'r, J: Naming, R: Wait> ViewSeat<'r, J, R> {
    /// The view shard at this place, with no message: a copy that was just opened shows what it
    /// holds. Errors: `UnknownPlace` where there is no such view shard, else `NoMemory`.
    pub(crate) fn new(
        rt: &'r R,
        alloc: Global,
        routes: &'r Routes<J>,
        part: &Part<J>,
        reader: usize,
    ) -> Result<ViewSeat<'r, J, R>, Refused>
        ensures shows { IfOk result (λ s. (w : Snapshot) → IfSome (slice_get (readers J.plan)
            reader) (λ r. w ≡ first_of J.plan r.view r.shard) → Shows s w) }
    {
        let own = reader_at(routes, reader).ok_or(Refused::UnknownPlace)?;
        let inbox = routes.view_inbox(reader).ok_or(Refused::UnknownPlace)?;
        let stages = routes.plan().stages();
        Ok(ViewSeat {
            worker: Worker::new(rt, alloc, routes, reader),
            inbox,
            domain: fresh_view(alloc, routes, part, own.view, own.shard)?,
            out: ViewOutbox::new(alloc, stages)?,
            waits: Waits::new(alloc, inbox.edges().saturating_sub(stages))?,
            turns: Turns::new(alloc, inbox.edges())?,
        })
    }

    /// Whether a message waits in its inbox, or that is closed.
    pub(crate) fn is_ready(&self) -> bool {
        self.inbox.is_ready()
    }
}

impl<'r, J: Naming, R: Wait + Drop> ViewSeat<'r, J, R> {
    /// Takes what waits in its inbox, and then one message after the other, at most `BATCH`, shows
    /// what it makes of each, and sends what it makes; with a packet those behind it that go on from it,
    /// as one. It waits for none. What comes when it has stopped is lost.
    pub(crate) fn serve<G: Gate>(&mut self, writer: &mut ShownWriter<J, R>, gate: &G) -> Taking
        requires shows { self.old.mode ≡ Running → Shows self.old (shown writer.old) }
        requires idle { self.old.mode ≡ Running → pending writer.old ≡ [] }
        ensures shows { self.new.mode ≡ Running → Shows self.new (shown writer.new) }
        ensures idle { self.new.mode ≡ Running → pending writer.new ≡ [] }
    {
        let taking = self.turns.take(self.worker.rt, self.inbox);
        for _ in 0..BATCH {
            if !self.turn(writer, gate) {
                break;
            }
        }
        taking
    }

    // Takes the next message of those that were taken; false where none is left.
    fn turn<G: Gate>(&mut self, writer: &mut ShownWriter<J, R>, gate: &G) -> bool
        requires shows { self.old.mode ≡ Running → Shows self.old (shown writer.old) }
        requires idle { self.old.mode ≡ Running → pending writer.old ≡ [] }
        ensures shows { self.new.mode ≡ Running → Shows self.new (shown writer.new) }
        ensures idle { self.new.mode ≡ Running → pending writer.new ≡ [] }
    {
        let number = self.turns.turn();
        let Some(mail) = self.turns.pop() else {
            return false;
        };
        let id = DomainId::View(self.domain.view(), self.domain.shard());
        gate.before(id, number);
        let Ok(mail) = joined(mail, &mut self.turns) else {
            stop(&self.worker, &mut self.domain);
            gate.after(id, number);
            return true;
        };
        let message = message_of(mail, &mut self.waits);
        take(
            &self.worker,
            &mut self.domain,
            writer,
            message,
            &mut self.out,
        );
        if self.domain.mode() == Mode::Running {
            self.waits
                .ring(self.worker.rt, self.worker.routes, &self.domain);
        }
        gate.after(id, number);
        true
    }
}

// The message; a packet with those behind it on its edge that go on from it. Errors: memory only; then
// some are gone.
fn joined<J: Naming>(
    mail: ViewMail<J>,
    turns: &mut Turns<ViewMail<J>>,
) -> Result<ViewMail<J>, AllocError>
    ensures joined { IfOk result (λ m. IsJoinedView mail m) }
    ensures edges { length turns.new.waiting ≡ length turns.old.waiting }
{
    Ok(match mail {
        ViewMail::Packet { stage, packet } => ViewMail::Packet {
            stage,
            packet: join_behind(packet, turns)?,
        },
        ViewMail::Want(want) => ViewMail::Want(want),
        ViewMail::Order { key } => ViewMail::Order { key },
    })
}

// The packet, with those behind it that go on from it. Errors: memory only; then some are gone.
fn join_behind<J: Naming>(
    mut packet: StagePacket<Front<J>>,
    turns: &mut Turns<ViewMail<J>>,
) -> Result<StagePacket<Front<J>>, AllocError>
    ensures same { IfOk result (λ k. k ≡ record packet { to = k.to; changes = k.changes }) }
    ensures edges { length turns.new.waiting ≡ length turns.old.waiting }
{
    for _ in 0..BATCH {
        let Some(next) = take_next(&packet, turns) else {
            break;
        };
        packet.join(next)?;
    }
    Ok(packet)
}

// The packet behind this one, where it goes on from it, taken off its edge.
fn take_next<J: Naming>(
    packet: &StagePacket<Front<J>>,
    turns: &mut Turns<ViewMail<J>>,
) -> Option<StagePacket<Front<J>>>
    ensures goes_on { IfSome result (λ next. GoesOnStage packet.now next) }
    ensures taken { IfSome result (λ next. TakesStage turns.old next turns.new) }
    ensures none { IfNone result (turns.new ≡ turns.old) }
    ensures edges { length turns.new.waiting ≡ length turns.old.waiting }
{
    match turns.behind() {
        Some(ViewMail::Packet { packet: next, .. }) if stage_goes_on(packet, next) => (),
        _ => return None,
    }
    match turns.take_behind() {
        Some(ViewMail::Packet { packet: next, .. }) => Some(next),
        _ => unreachable!(),
    }
}

// The view shard at a place.
fn reader_at<J: Naming>(routes: &Routes<J>, place: usize) -> Option<Reader>
    ensures there { IfSome result (λ r. r.view < length J.plan.views) }
    ensures place { IfSome result (λ r. slice_get (readers J.plan) place ≡ Some (reader_in r)) }
{
    match routes.readers().get(place) {
        Some(reader) => Some(Reader {
            view: reader.view,
            shard: reader.shard,
        }),
        None => None,
    }
}

// The message of a view shard; a session that wants a key waits for it.
fn message_of<J: Naming>(mail: ViewMail<J>, waits: &mut Waits) -> ToView<Front<J>> {
    match mail {
        ViewMail::Packet { stage, packet } => ToView::Packet { stage, packet },
        ViewMail::Want(want) => {
            waits.put(want.session, want.number, want.waits);
            ToView::Want { key: want.key }
        }
        ViewMail::Order { key } => ToView::Order { key },
    }
}

// Stops the domain, and says so.
fn stop<J: Naming, R: Wait>(worker: &Worker<J, R>, domain: &mut ViewDomain<Front<J>>)
    ensures { domain.new.mode ≢ Running }
{
    domain.stop();
    worker.routes.stop(worker.rt, Spot::View(worker.place));
}

// Takes one message, where the domain runs: its change is shown, its requests are sent, and then
// the fence is acknowledged whose marker has come. Where the message or a request is refused the
// domain stops.
fn take<J: Naming, R: Wait + Drop>(
    worker: &Worker<J, R>,
    domain: &mut ViewDomain<Front<J>>,
    writer: &mut ShownWriter<J, R>,
    message: ToView<Front<J>>,
    out: &mut ViewOutbox<Front<J>>,
)
    requires plan { domain.old.mode ≡ Running → domain.old.plan ≡ J.plan }
    requires shows { domain.old.mode ≡ Running → Shows domain.old (shown writer.old) }
    requires idle { domain.old.mode ≡ Running → pending writer.old ≡ [] }
    requires clear { domain.old.mode ≡ Running → IsClear out.old }
    requires edges { length out.old.requests ≡ J.plan.stages }
    ensures went { domain.new.mode ≡ Running → Went message domain.old domain.new }
    ensures plan { domain.new.mode ≡ Running → domain.new.plan ≡ J.plan }
    ensures shows { domain.new.mode ≡ Running → Shows domain.new (shown writer.new) }
    ensures idle { domain.new.mode ≡ Running → pending writer.new ≡ [] }
    ensures clear { domain.new.mode ≡ Running → IsClear out.new }
    ensures edges { length out.new.requests ≡ J.plan.stages }
{
    if domain.mode() != Mode::Running {
        return;
    }
    let routes = worker.routes;
    let plan = routes.plan();
    let taken = take_from_inbox(worker.alloc, plan, domain, writer, message, out);
    if taken.is_err() || send(worker, plan.stages(), out).is_err() {
        return stop(worker, domain);
    }
    if let Some(marker) = out.take_ack() {
        routes.acknowledge(worker.rt, worker.place, marker);
    }
}

// Sends the requests to each stage shard, in order, and leaves none. Errors: a request was refused;
// none is sent after it.
fn send<J: Naming, R: Wait>(
    worker: &Worker<J, R>,
    stages: usize,
    out: &mut ViewOutbox<Front<J>>,
) -> Result<(), Refused>
    requires edges { length out.old.requests ≡ stages }
    ensures none { packets_on out.new.requests ≡ none_of out.new.requests }
    ensures rest { out.new ≡ record out.old { requests = out.new.requests } }
    ensures edges { length out.new.requests ≡ stages }
{
    let (rt, routes, reader) = (worker.rt, worker.routes, worker.place);
    let mut sent = Ok(());
    for stage in 0..stages {
        let mut requests = out.take_requests(worker.alloc, stage);
        sent = send_each(sent, &mut requests, |request| {
            routes.to_stage(rt, reader, stage, ToStage::Request(request))
        });
    }
    sent
}
