//! Orders to evict a key of the stage or of a view.
ghost use Rattle.std.specs.Prelude.{IfOk};
ghost use Rattle.row.specs.Cells.{datum_of};
ghost use Rattle.protocol.specs.Events.{evict_stage, evict_view};
ghost use Rattle.schedule.specs.Codes.{reply_of};
ghost use Rattle.machine.specs.{Held.Happens, Held.IsWhole, Machines.held};

use crate::machine::Machine;
use crate::stages::{give_stage, stage_runs};
use crate::views::{give_view, view_runs};
use model::fronts::Fronts;
use row::refused::Refused;
use row::value::Value;
use schedule::arguments::{read_target, stage_target};
use schedule::event::Reply;
use stage_steps::message::ToStage;
use std::alloc::Global;
use view_domain::message::ToView;

/// An order to evict a key of a view: at a filled key it is a hole then. Errors: then nothing is
/// said of the machine.
pub fn evict_view<F: Fronts>(
    alloc: Global,
    machine: &mut Machine<F>,
    view: &str,
    key: &Value,
) -> Result<Reply, Refused>
    requires whole { IsWhole F.log F.authors (held machine.old) }
    ensures done { IfOk result (λ r. Happens F.log F.authors
        (evict_view view.now (datum_of key.now)) (held machine.old) (reply_of r)
        (held machine.new)) }
{
    let view = match read_target(machine.places.plan(), view, key) {
        Ok(view) => view,
        Err(refused) => return Ok(Reply::Refused(refused)),
    };
    let reader = machine.places.reader_of(view, key);
    if !view_runs(&machine.views, reader) {
        return Ok(Reply::Refused(Refused::Stopped));
    }
    let Ok(key) = key.try_clone(alloc) else {
        return Err(Refused::NoMemory);
    };
    give_view(alloc, machine, reader, ToView::Order { key })?;
    Ok(Reply::Evicted)
}

/// An order to evict a stage key, to the stage shard that has it. Errors: then nothing is said of
/// the machine.
pub fn evict_stage<F: Fronts>(
    alloc: Global,
    machine: &mut Machine<F>,
    key: &Value,
) -> Result<Reply, Refused>
    requires whole { IsWhole F.log F.authors (held machine.old) }
    ensures done { IfOk result (λ r. Happens F.log F.authors (evict_stage (datum_of key.now))
        (held machine.old) (reply_of r) (held machine.new)) }
{
    let stage = match stage_target(machine.places.plan(), key) {
        Ok(stage) => stage,
        Err(refused) => return Ok(Reply::Refused(refused)),
    };
    if !stage_runs(&machine.stages, stage) {
        return Ok(Reply::Refused(Refused::Stopped));
    }
    let Ok(key) = key.try_clone(alloc) else {
        return Err(Refused::NoMemory);
    };
    give_stage(alloc, machine, stage, ToStage::Order(key))?;
    Ok(Reply::Evicted)
}
