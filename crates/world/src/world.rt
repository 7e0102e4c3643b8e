//! All domains of a plan in one value, over plain lists.
ghost use Rattle.std.specs.Prelude.{◌≡◌, true, false, map, Err, IfOk, OnOk, OnErr, IsOkUnless};
ghost use Rattle.model.specs.Places.{base_count};
ghost use Rattle.protocol.specs.{Theorem.AreLegal, Worlds.start, WorldSteps.replies, WorldSteps.step};
ghost use Rattle.schedule.specs.Codes.{event_of, reply_of};
ghost use Rattle.machine.specs.{Held.Are, Started.IsFirst};
ghost use Rattle.world.specs.Listed.{authors_of, log_of, world_in};

use crate::events::step;
use machine::machine::Machine;
use machine::starts::new_machine;
use model::list::{ListFront, ListRight};
use model::places::base_count;
use plan::plan::Plan;
use row::refused::Refused;
use schedule::event::{Event, Reply};
use std::alloc::{AllocError, Global};
use std::marker::Model;

/// All domains of a plan, the edges between them and the sessions, in one value with no thread:
/// what it holds is the world that the protocol says.
pub struct World<'p> {
    machine: Machine<'p, ListFront<'p>>,
    broken: bool,
}

// What holds one drops it by this call, and need not know its parts.
impl Drop for World<'_> {
    fn drop(self) {
        let World {
            machine: _,
            broken: _,
        } = self;
    }
}

impl<'p> Model for World<'p> {
    ghost use Rattle.std.specs.Prelude.{◌≡◌, false};
    ghost use Rattle.machine.specs.{Held.IsWhole, Machines.held};
    ghost use Rattle.world.specs.Listed.{WorldView, authors_of, log_of};

    ghost Value = { WorldView };

    ghost view = { λ w. record { state = held w.machine; broken = w.broken } };

    ghost invariant = { λ w. w.broken ≡ false → IsWhole log_of authors_of (held w.machine) };
}

impl<'p> World<'p> {
    /// The world of a plan before the first event: all logs are empty, no key is filled, all edges
    /// are empty, and no session has called. In each stage shard every right key is a hole.
    /// Errors: memory only, and then there is no world. Cost: for each view shard a line for each
    /// stage shard, and in each line a front for each source; for each session a number for each
    /// base shard.
    pub fn new(alloc: Global, plan: &'p Plan) -> Result<World<'p>, AllocError>
        ensures world { IfOk result (λ w. world_in w ≡ start true plan.now) }
        ensures whole { IfOk result (λ w. w.broken ≡ false) }
    {
        Ok(World {
            machine: new_machine(alloc, plan, list_rights(alloc, plan)?)?,
            broken: false,
        })
    }

    /// One event happens: the world becomes what the protocol says, and the reply is the
    /// protocol's. Errors: `NoMemory` where memory is refused within a step; then the world is
    /// broken, and each further step answers `NoMemory` and changes nothing. Cost: that of the
    /// event at its domain; for a settle, a look at each edge in each round.
    pub fn step(&mut self, alloc: Global, event: &Event) -> Result<Reply, Refused>
        ensures world { OnOk result (world_in self.new
            ≡ (step (world_in self.old) (event_of event.now)).world) }
        ensures reply { IfOk result (λ r. reply_of r
            ≡ (step (world_in self.old) (event_of event.now)).reply) }
        ensures whole { OnOk result (self.new.broken ≡ false) }
        ensures only { IsOkUnless result Refused.NoMemory }
        ensures broken { OnErr result (self.new.broken ≡ true) }
        ensures stays { self.old.broken ≡ true → (result ≡ Err Refused.NoMemory)
            × (self.new ≡ self.old) }
    {
        if self.broken {
            return Err(Refused::NoMemory);
        }
        let Ok(reply) = step::<ListFront>(alloc, &(), &mut self.machine, event) else {
            self.broken = true;
            return Err(Refused::NoMemory);
        };
        Ok(reply)
    }
}

/// The replies to a schedule, from the empty world of a plan on: they tell of a legal history.
/// Errors: memory only. Cost: that of each step.
pub fn replay(alloc: Global, plan: &Plan, events: &[Event]) -> Result<Vec<Reply>, Refused>
    ensures replies { IfOk result (λ v. map reply_of v.items
        ≡ replies (start true plan.now) (map event_of events.now)) }
    ensures legal { IfOk result (λ v. AreLegal plan.now (map event_of events.now)
        (map reply_of v.items)) }
    ensures only { IsOkUnless result Refused.NoMemory }
{
    plan.keeps_profile();
    let Ok(mut world) = World::new(alloc, plan) else {
        return Err(Refused::NoMemory);
    };
    let mut replies = Vec::new(alloc);
    for at in 0..events.len() {
        let reply = world.step(alloc, &events[at])?;
        let Ok(()) = replies.push(reply) else {
            return Err(Refused::NoMemory);
        };
    }
    Ok(replies)
}

/// The right to append to the log of each base shard, which is empty. Errors: memory only.
fn list_rights<'p>(alloc: Global, plan: &'p Plan) -> Result<Vec<ListRight<'p>>, AllocError>
    ensures { IfOk result (λ v. Are (IsFirst log_of authors_of plan.now) (base_count plan.now)
        v.items) }
{
    let mut rights = Vec::new(alloc);
    for base in 0..base_count(plan) {
        rights.push(ListRight::new(alloc, plan, base)?)?;
    }
    Ok(rights)
}
