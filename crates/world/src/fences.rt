//! Fences of sessions: the marker that goes to each source.
ghost use Rattle.std.specs.Prelude.{◌≡◌, ◌<◌, ◌&&◌, Some, length, map, slice_get, IfOk, OnOk};
ghost use Rattle.std.specs.List.{list_all};
ghost use Rattle.model.specs.Places.{sources};
ghost use Rattle.packet.specs.Codes.{mark_of};
ghost use Rattle.protocol.specs.{Bases.marker as marker_to, WorldSteps.all_run, WorldSteps.base_takes, WorldSteps.fence_by, WorldSteps.is_up as is_node_up, WorldSteps.lower_run, WorldSteps.marked};
ghost use Rattle.schedule.specs.Codes.{reply_of};
ghost use Rattle.machine.specs.{Held.IsAt, Held.IsDone, Held.IsPlaced, Held.IsWhole, Held.base_node, Held.runs, Held.stage_node, Held.view_node, Held.world_of, Machines.held};

use base_domain::base_domain::BaseDomain;
use base_domain::message::ToBase;
use machine::bases::{base_runs, give_base};
use machine::machine::Machine;
use model::fronts::Fronts;
use packet::mode::Mode;
use packet::request::Marker;
use row::refused::Refused;
use schedule::event::Reply;
use schedule::places::Places;
use stage_domain::stage_domain::StageDomain;
use std::alloc::Global;
use view_domain::view_domain::ViewDomain;

/// A base shard takes a marker, if it runs. Errors: then nothing is said of the machine.
fn give_marker<F: Fronts>(
    alloc: Global,
    words: &F::Words,
    machine: &mut Machine<F>,
    base: usize,
    marker: Marker,
) -> Result<(), Refused>
    requires placed { IsPlaced F.log F.authors (held machine.old) }
    ensures done { OnOk result (IsAt F.log F.authors
        (base_takes (world_of F.log F.authors (held machine.old)) base
        (slice_get (map (base_node F.log F.authors) (held machine.old).bases) base)
        (marker_to (mark_of marker))) (held machine.new)) }
{
    if !base_runs(&machine.bases, base) {
        return Ok(());
    }
    give_base(alloc, words, machine, base, ToBase::Marker(marker))?;
    Ok(())
}

/// The marker goes to each source, one after the other. Errors: then nothing is said of the
/// machine.
fn mark_all<F: Fronts>(
    alloc: Global,
    words: &F::Words,
    machine: &mut Machine<F>,
    marker: Marker,
) -> Result<(), Refused>
    requires placed { IsPlaced F.log F.authors (held machine.old) }
    ensures done { OnOk result (IsAt F.log F.authors
        (marked (world_of F.log F.authors (held machine.old)) (sources (held machine.old).plan)
        (mark_of marker)) (held machine.new)) }
{
    for at in 0..machine.places.sources().len() {
        let base = source_at(&machine.places, at);
        give_marker(alloc, words, machine, base, marker)?;
    }
    Ok(())
}

/// The base shard that a source is.
fn source_at(places: &Places, at: usize) -> usize
    requires { at < length (sources places.now) }
    ensures { slice_get (sources places.now) at ≡ Some result }
{
    places.sources()[at]
}

/// Whether all stage shards run.
fn stages_run<F: Fronts>(stages: &[StageDomain<F>]) -> bool
    ensures { result ≡ all_run (map stage_node stages.now) }
{
    stages.iter().all(|domain| goes_on(domain.mode()))
}

/// Whether all view shards run.
fn views_run<F: Fronts>(views: &[ViewDomain<F>]) -> bool
    ensures { result ≡ all_run (map view_node views.now) }
{
    views.iter().all(|domain| goes_on(domain.mode()))
}

/// Whether all these base shards are there, and run.
fn bases_run<F: Fronts>(bases: &[BaseDomain<F>], sources: &[usize]) -> bool
    ensures { result ≡ list_all (λ b. is_node_up (slice_get
        (map (base_node F.log F.authors) bases.now) b)) sources.now }
{
    sources.iter().all(|base| base_runs(bases, *base))
}

/// Whether a domain of this mode runs.
fn goes_on(mode: Mode) -> bool
    ensures { result ≡ runs mode }
{
    mode == Mode::Running
}

/// A fence of a session, where all that it needs runs: its marker goes to each source, and it takes
/// the place of an open one. Errors: then nothing is said of the machine.
pub(crate) fn fence<F: Fronts>(
    alloc: Global,
    words: &F::Words,
    machine: &mut Machine<F>,
    session: usize,
) -> Result<Reply, Refused>
    requires whole { IsWhole F.log F.authors (held machine.old) }
    ensures done { IfOk result (λ r. IsDone F.log F.authors
        (fence_by (world_of F.log F.authors (held machine.old)) session
        (slice_get (world_of F.log F.authors (held machine.old)).callers session)) (reply_of r)
        (held machine.new)) }
{
    if session >= machine.callers.len() {
        return Ok(Reply::Refused(Refused::UnknownPlace));
    }
    if !is_up(machine) {
        machine.callers[session].take_number()?;
        return Ok(Reply::Refused(Refused::Stopped));
    }
    let caller = &mut machine.callers[session];
    let number = caller.take_number()?;
    let Ok(()) = caller.open_fence(alloc, &machine.places, number) else {
        return Err(Refused::NoMemory);
    };
    mark_all(alloc, words, machine, Marker { session, number })?;
    Ok(Reply::FenceSent)
}

/// Whether all sources and all stage shards run.
pub(crate) fn lower_runs<F: Fronts>(machine: &Machine<F>) -> bool
    ensures { result ≡ lower_run (world_of F.log F.authors (held machine.now)) }
{
    let stages = stages_run(&machine.stages);
    let bases = bases_run(&machine.bases, machine.places.sources());
    are_both(stages, bases)
}

/// Whether all sources, all stage shards and all view shards run.
fn is_up<F: Fronts>(machine: &Machine<F>) -> bool
    ensures { result ≡ (lower_run (world_of F.log F.authors (held machine.now))
        && all_run (world_of F.log F.authors (held machine.now)).views) }
{
    let lower = lower_runs(machine);
    let views = views_run(&machine.views);
    are_both(lower, views)
}

/// Whether both are so.
pub(crate) fn are_both(lower: bool, upper: bool) -> bool
    ensures { result ≡ (lower && upper) }
{
    lower && upper
}
