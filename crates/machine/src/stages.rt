//! Messages to stage shards.
ghost use Rattle.std.specs.Prelude.{◌≡◌, ◌<◌, true, length, map, slice_get, Some, OnOk, IsTrue};
ghost use Rattle.packet.specs.declared.mode.Mode.TheVariants.{Running};
ghost use Rattle.protocol.specs.WorldSteps.{is_up};
ghost use Rattle.stage_steps.specs.Codes.{message_of};
ghost use Rattle.stage_domain.specs.Domains.{Domain as StageState, Meets};
ghost use Rattle.machine.specs.{Held.IsPlaced, Held.stage_node, Machines.held, Turned.IsGiven};

use crate::machine::Machine;
use crate::turns::turn_stage;
use model::fronts::Fronts;
use packet::mode::Mode;
use row::refused::Refused;
use stage_domain::stage_domain::StageDomain;
use stage_steps::message::ToStage;
use std::alloc::Global;

/// Whether there is the stage shard, and it runs.
pub(crate) fn stage_runs<F: Fronts>(stages: &[StageDomain<F>], stage: usize) -> bool
    ensures runs { result ≡ is_up (slice_get (map stage_node stages.now) stage) }
    ensures there { IsTrue result → stage < length stages.now }
{
    match stages.get(stage) {
        Some(domain) => domain.mode() == Mode::Running,
        None => false,
    }
}

/// A stage shard that runs takes a message. Errors: then nothing is said of the machine.
pub(crate) fn give_stage<F: Fronts>(
    alloc: Global,
    machine: &mut Machine<F>,
    stage: usize,
    message: ToStage<F>,
) -> Result<(), Refused>
    requires placed { IsPlaced F.log F.authors (held machine.old) }
    requires up { is_up (slice_get (map stage_node (held machine.old).stages) stage) ≡ true }
    requires there { stage < length (held machine.old).stages }
    requires meets { (d : StageState) → slice_get (held machine.old).stages stage ≡ Some d
        → d.mode ≡ Running → Meets F.are_one d (message_of message) }
    ensures given { OnOk result (IsGiven stage (message_of message) (held machine.old)
        (held machine.new)) }
{
    let readers = machine.places.readers().len();
    let sources = machine.places.sources().len();
    turn_stage(
        alloc,
        stage,
        &mut machine.stages[stage],
        message,
        (readers, sources),
        &mut machine.to_view,
        &mut machine.to_base,
    )?;
    Ok(())
}
