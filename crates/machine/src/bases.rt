//! Messages to base shards.
ghost use Rattle.std.specs.Prelude.{◌≡◌, ◌<◌, true, length, map, slice_get, IfOk, IsTrue};
ghost use Rattle.protocol.specs.WorldSteps.{is_up};
ghost use Rattle.base_domain.specs.{Codes.message_of, Received.verdict_of};
ghost use Rattle.machine.specs.{Held.IsPlaced, Held.base_node, Machines.held, Turned.IsBaseGiven, Turned.IsForBase};

use crate::machine::Machine;
use crate::turns::turn_base;
use base_domain::base_domain::BaseDomain;
use base_domain::message::ToBase;
use model::fronts::Fronts;
use packet::answer::Answer;
use row::refused::Refused;
use std::alloc::Global;

/// Whether there is the base shard, and it runs.
pub fn base_runs<F: Fronts>(bases: &[BaseDomain<F>], base: usize) -> bool
    ensures runs { result
        ≡ is_up (slice_get (map (base_node F.log F.authors) bases.now) base) }
    ensures there { IsTrue result → base < length bases.now }
{
    match bases.get(base) {
        Some(domain) => !domain.is_stopped(),
        None => false,
    }
}

/// A base shard that runs takes a message; answers its reply to a write. Errors: then nothing is
/// said of the machine.
pub fn give_base<F: Fronts>(
    alloc: Global,
    words: &F::Words,
    machine: &mut Machine<F>,
    base: usize,
    message: ToBase,
) -> Result<Option<Answer<F>>, Refused>
    requires placed { IsPlaced F.log F.authors (held machine.old) }
    requires up { is_up (slice_get (map (base_node F.log F.authors) (held machine.old).bases) base)
        ≡ true }
    requires there { base < length (held machine.old).bases }
    requires of { IsForBase F.log F.authors base (message_of message) (held machine.old) }
    ensures given { IfOk result (λ a. IsBaseGiven F.log F.authors base (message_of message)
        (verdict_of a) (held machine.old) (held machine.new)) }
{
    let stages = machine.places.plan().stages();
    let source = machine.places.source_place(base);
    let answer = turn_base(
        alloc,
        words,
        &mut machine.bases[base],
        message,
        stages,
        source,
        &mut machine.to_stage,
    )?;
    Ok(answer)
}
