//! Stops: a domain of the plan runs no more.
ghost use Rattle.protocol.specs.WorldSteps.{stop_at};
ghost use Rattle.schedule.specs.Codes.{reply_of};
ghost use Rattle.machine.specs.{Held.IsAt, Held.IsDone, Held.IsPlaced, Held.IsWhole, Held.world_of, Machines.held};
ghost use Rattle.world.specs.{Stopped.stopped_at};

use machine::machine::Machine;
use model::fronts::Fronts;
use plan::domain::DomainId;
use row::refused::Refused;
use schedule::event::Reply;
use schedule::wire::Spot;

/// A domain stops, if the plan has it.
pub(crate) fn stop<F: Fronts>(machine: &mut Machine<F>, domain: Option<DomainId>) -> Reply
    requires whole { IsWhole F.log F.authors (held machine.old) }
    ensures done { IsDone F.log F.authors
        (stop_at (world_of F.log F.authors (held machine.old)) domain) (reply_of result)
        (held machine.new) }
{
    let Some(domain) = domain else {
        return Reply::Refused(Refused::UnknownPlace);
    };
    let Some(spot) = machine.places.spot(domain) else {
        return Reply::Refused(Refused::UnknownPlace);
    };
    stop_there(machine, spot);
    Reply::Stopped
}

/// The domain at a place stops, if there is one.
fn stop_there<F: Fronts>(machine: &mut Machine<F>, spot: Spot)
    requires placed { IsPlaced F.log F.authors (held machine.old) }
    ensures stopped { IsAt F.log F.authors
        (stopped_at (world_of F.log F.authors (held machine.old)) spot) (held machine.new) }
{
    match spot {
        Spot::Base(base) => {
            if base < machine.bases.len() {
                machine.bases[base].stop();
            }
        }
        Spot::Stage(stage) => {
            if stage < machine.stages.len() {
                machine.stages[stage].stop();
            }
        }
        Spot::View(reader) => {
            if reader < machine.views.len() {
                machine.views[reader].stop();
            }
        }
    }
}
