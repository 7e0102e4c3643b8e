//! Settles: rounds of deliveries, until all edges are empty.
ghost use Rattle.std.specs.Prelude.{◌≡◌, ◌<◌, ◌++◌, [], true, false, cond, Some, length, slice_get, IfOk, OnOk};
ghost use Rattle.protocol.specs.{Edges.wires, WorldSteps.delivery, WorldSteps.ended_by, WorldSteps.is_idle, WorldSteps.most_rounds, WorldSteps.round, WorldSteps.rounds};
ghost use Rattle.schedule.specs.Codes.{reply_of, wire_in};
ghost use Rattle.machine.specs.{Held.AgreeingAreOne, Held.IsDone, Held.IsWhole, Held.world_of, Machines.held};
ghost use Rattle.world.specs.Rounds.{HasMoved, IsRound};

use machine::deliveries::deliver;
use machine::machine::Machine;
use model::fronts::Fronts;
use row::refused::Refused;
use schedule::event::Reply;
use schedule::places::Places;
use schedule::wire::Wire;
use std::alloc::Global;

/// The most rounds of one settle.
const MOST: usize = 1000;

/// Whether the edge was empty.
fn was_idle(reply: &Reply) -> bool
    ensures { result ≡ is_idle (reply_of reply.now) }
{
    match reply {
        Reply::Idle => true,
        _ => false,
    }
}

/// Notes the session whose fence has ended, if one has. Errors: memory only.
fn note_ended(reply: &Reply, ended: &mut Vec<usize>) -> Result<(), Refused>
    ensures { OnOk result (ended.new.items ≡ ended.old.items ++ ended_by (reply_of reply.now)) }
{
    if let Reply::Fenced(session) = reply {
        let Ok(()) = ended.push(*session) else {
            return Err(Refused::NoMemory);
        };
    }
    Ok(())
}

/// One delivery of a round: whether the edge had a message. Errors: then nothing is said of the
/// machine.
fn move_one<F: Fronts>(
    alloc: Global,
    words: &F::Words,
    machine: &mut Machine<F>,
    wire: Wire,
    ended: &mut Vec<usize>,
) -> Result<bool, Refused>
    requires agree { AgreeingAreOne F.are_one }
    requires whole { IsWhole F.log F.authors (held machine.old) }
    ensures done { IfOk result (λ moved. HasMoved F.log F.authors
        (delivery (world_of F.log F.authors (held machine.old)) (wire_in wire)) ended.old.items
        moved ended.new.items (held machine.new)) }
{
    let reply = deliver(alloc, words, machine, wire)?;
    note_ended(&reply, ended)?;
    Ok(!was_idle(&reply))
}

/// Whether one of the two is so.
fn either(had: bool, moved: bool) -> bool
    ensures { result ≡ cond had true moved }
{
    had || moved
}

/// One delivery of each edge, in order: whether an edge had a message. Errors: then nothing is
/// said of the machine.
fn go_round<F: Fronts>(
    alloc: Global,
    words: &F::Words,
    machine: &mut Machine<F>,
    ended: &mut Vec<usize>,
) -> Result<bool, Refused>
    requires agree { AgreeingAreOne F.are_one }
    requires whole { IsWhole F.log F.authors (held machine.old) }
    ensures done { IfOk result (λ moved. IsRound F.log F.authors (round (record {
      world = world_of F.log F.authors (held machine.old);
      ended = ended.old.items;
      moved = false;
    }) (wires (held machine.old).plan)) moved ended.new.items (held machine.new)) }
{
    let mut moved = false;
    for at in 0..machine.places.wires().len() {
        let wire = wire_at(&machine.places, at);
        let had = move_one(alloc, words, machine, wire, ended)?;
        moved = either(had, moved);
    }
    Ok(moved)
}

/// The edge at a place of the plan's.
fn wire_at(places: &Places, at: usize) -> Wire
    requires { at < length (wires places.now) }
    ensures { slice_get (wires places.now) at ≡ Some (wire_in result) }
{
    places.wires()[at]
}

/// Rounds of deliveries until one finds all edges empty, at most 1,000. Errors: then nothing is
/// said of the machine.
pub(crate) fn settle<F: Fronts>(
    alloc: Global,
    words: &F::Words,
    machine: &mut Machine<F>,
) -> Result<Reply, Refused>
    requires agree { AgreeingAreOne F.are_one }
    requires whole { IsWhole F.log F.authors (held machine.old) }
    ensures done { IfOk result (λ r. IsDone F.log F.authors
        (rounds most_rounds (world_of F.log F.authors (held machine.old)) []) (reply_of r)
        (held machine.new)) }
{
    let mut ended = Vec::new(alloc);
    for at in 0..MOST {
        let moved = go_round(alloc, words, machine, &mut ended)?;
        if !moved {
            return Ok(Reply::Settled(ended));
        }
    }
    Ok(Reply::Unsettled(ended))
}
