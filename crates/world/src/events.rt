//! One event of a schedule.
ghost use Rattle.std.specs.Prelude.{IfOk};
ghost use Rattle.protocol.specs.{WorldSteps.on_edge, WorldSteps.step, Edges.wire_of};
ghost use Rattle.schedule.specs.Codes.{event_of, reply_of};
ghost use Rattle.machine.specs.{Held.AgreeingAreOne, Held.IsDone, Held.IsWhole, Held.world_of, Machines.held};

use crate::counts::count;
use crate::fences::fence;
use crate::reads::{look, sought};
use crate::settles::settle;
use crate::stops::stop;
use crate::wants::want_at;
use crate::writes::write;
use machine::deliveries::deliver;
use machine::machine::Machine;
use machine::orders::{evict_stage, evict_view};
use model::fronts::Fronts;
use plan::domain::Edge;
use row::refused::Refused;
use schedule::event::{Event, Reply};
use std::alloc::Global;

/// One event happens. Errors: then nothing is said of the machine.
pub(crate) fn step<F: Fronts>(
    alloc: Global,
    words: &F::Words,
    machine: &mut Machine<F>,
    event: &Event,
) -> Result<Reply, Refused>
    requires agree { AgreeingAreOne F.are_one }
    requires whole { IsWhole F.log F.authors (held machine.old) }
    ensures done { IfOk result (λ r. IsDone F.log F.authors
        (step (world_of F.log F.authors (held machine.old)) (event_of event.now)) (reply_of r)
        (held machine.new)) }
{
    match event {
        Event::Write {
            session,
            table,
            entry,
        } => write(alloc, words, machine, *session, table, entry),
        Event::Try { session, view, key } => match sought(machine, *session, view, key) {
            Ok(at) => look(alloc, machine, *session, at, key),
            Err(refused) => Ok(Reply::Refused(refused)),
        },
        Event::Want { session, view, key } => match sought(machine, *session, view, key) {
            Ok(at) => want_at(alloc, machine, at.1, key),
            Err(refused) => Ok(Reply::Refused(refused)),
        },
        Event::Fence { session } => fence(alloc, words, machine, *session),
        Event::Count { session, view } => Ok(count(machine, *session, view)),
        Event::Deliver { edge } => deliver_on(alloc, words, machine, *edge),
        Event::EvictStage { key } => evict_stage(alloc, machine, key),
        Event::EvictView { view, key } => evict_view(alloc, machine, view, key),
        Event::Stop { domain } => Ok(stop(machine, *domain)),
        Event::Settle => settle(alloc, words, machine),
    }
}

/// The first message of an edge of the plan is delivered. Errors: then nothing is said of the
/// machine.
fn deliver_on<F: Fronts>(
    alloc: Global,
    words: &F::Words,
    machine: &mut Machine<F>,
    edge: Option<Edge>,
) -> Result<Reply, Refused>
    requires agree { AgreeingAreOne F.are_one }
    requires whole { IsWhole F.log F.authors (held machine.old) }
    ensures done { IfOk result (λ r. IsDone F.log F.authors
        (on_edge (world_of F.log F.authors (held machine.old))
        (wire_of (held machine.old).plan edge)) (reply_of r) (held machine.new)) }
{
    let Some(wire) = machine.places.wire(edge) else {
        return Ok(Reply::Refused(Refused::UnknownPlace));
    };
    let reply = deliver(alloc, words, machine, wire)?;
    Ok(reply)
}
