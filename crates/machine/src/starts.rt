//! All domains of a plan before the first event.
ghost use Rattle.std.specs.Prelude.{◌≡◌, ◌<◌, true, IfOk};
ghost use Rattle.model.specs.Places.{base_count};
ghost use Rattle.protocol.specs.Worlds.{start};
ghost use Rattle.packet.specs.Lines.{empty_line};
ghost use Rattle.machine.specs.{Held.Are, Held.IsWhole, Held.world_of, Machines.held, Started.AreFirst, Started.AreNewStages, Started.IsFirst, Started.IsNewBase, Started.new_sessions, Started.new_views};

use crate::machine::Machine;
use base_domain::base_domain::BaseDomain;
use model::fronts::Fronts;
use model::places::place_of;
use packet::line::Line;
use plan::plan::Plan;
use schedule::caller::Caller;
use schedule::places::Places;
use schedule::queues::Queues;
use stage_domain::stage_domain::StageDomain;
use std::alloc::{AllocError, Global};
use view_domain::view_domain::ViewDomain;

/// How many sessions there are.
const SESSIONS: usize = 16;

/// A line of the front of each source, by the rights to append to their logs. Errors: memory only.
fn first_line<F: Fronts>(
    alloc: Global,
    places: &Places,
    rights: &[F::Right],
) -> Result<Line<F>, AllocError>
    requires { AreFirst F.log F.authors F.front places.now rights.now }
    ensures { IfOk result (λ l. l ≡ empty_line places.now) }
{
    places.plan().keeps_profile();
    let mut fronts = Vec::new(alloc);
    for base in places.sources() {
        fronts.push(F::of(&rights[*base], alloc)?)?;
    }
    Ok(Line::new(fronts))
}

/// The domain of a base shard, which takes the right to its log. Errors: memory only.
fn new_base<'p, F: Fronts>(
    alloc: Global,
    plan: &'p Plan,
    base: usize,
    right: F::Right,
) -> Result<BaseDomain<'p, F>, AllocError>
    requires there { base < base_count plan.now }
    requires first { IsFirst F.log F.authors plan.now base (F.front right) }
    ensures { IfOk result (IsNewBase F.log F.authors plan.now base) }
{
    let Some((table, _)) = place_of(plan, base) else {
        unreachable!()
    };
    BaseDomain::new(alloc, plan, table, right, SESSIONS)
}

/// The domains of all base shards, each with the right to its log. Errors: memory only.
fn new_bases<'p, F: Fronts>(
    alloc: Global,
    plan: &'p Plan,
    rights: Vec<F::Right>,
) -> Result<Vec<BaseDomain<'p, F>>, AllocError>
    requires { AreFirst F.log F.authors F.front plan.now rights.items }
    ensures { IfOk result (λ v. Are (IsNewBase F.log F.authors plan.now) (base_count plan.now)
        v.items) }
{
    let mut bases = Vec::new(alloc);
    let mut base = 0;
    for right in rights {
        bases.push(new_base(alloc, plan, base, right)?)?;
        base += 1;
    }
    Ok(bases)
}

/// The domains of all stage shards, each over a line of empty logs. Errors: memory only.
fn new_stages<'p, F: Fronts>(
    alloc: Global,
    plan: &'p Plan,
    line: &Line<F>,
) -> Result<Vec<StageDomain<'p, F>>, AllocError>
    requires { line.now ≡ empty_line plan.now }
    ensures { IfOk result (λ v. AreNewStages plan.now v.items) }
{
    let mut stages = Vec::new(alloc);
    for shard in 0..plan.stages() {
        stages.push(StageDomain::new(alloc, plan, shard, line.try_clone(alloc)?)?)?;
    }
    Ok(stages)
}

/// The domains of all view shards, each over a cut of empty logs. Errors: memory only.
fn new_views<'p, F: Fronts>(
    alloc: Global,
    places: &Places<'p>,
    line: &Line<F>,
) -> Result<Vec<ViewDomain<'p, F>>, AllocError>
    requires { line.now ≡ empty_line places.now }
    ensures { IfOk result (λ v. v.items ≡ new_views places.now) }
{
    let plan = places.plan();
    let mut views = Vec::new(alloc);
    for reader in places.readers() {
        let cut = line.copies(alloc, plan.stages())?;
        views.push(ViewDomain::new(alloc, plan, reader.view, reader.shard, cut)?)?;
    }
    Ok(views)
}

/// All sessions, in a store of this many base shards. Errors: memory only.
fn new_callers(alloc: Global, places: &Places, bases: usize) -> Result<Vec<Caller>, AllocError>
    requires { bases ≡ base_count places.now }
    ensures { IfOk result (λ v. v.items ≡ new_sessions places.now) }
{
    let mut callers = Vec::new(alloc);
    for _ in 0..SESSIONS {
        callers.push(Caller::new(alloc, places, bases)?)?;
    }
    Ok(callers)
}

/// All domains of a plan with their rights, all edges, which are empty, and all sessions. Errors:
/// memory only.
pub fn new_machine<'p, F: Fronts>(
    alloc: Global,
    plan: &'p Plan,
    rights: Vec<F::Right>,
) -> Result<Machine<'p, F>, AllocError>
    requires first { AreFirst F.log F.authors F.front plan.now rights.items }
    ensures world { IfOk result (λ m. world_of F.log F.authors (held m) ≡ start true plan.now) }
    ensures whole { IfOk result (λ m. IsWhole F.log F.authors (held m)) }
{
    plan.keeps_profile();
    let places = Places::new(alloc, plan)?;
    let line = first_line(alloc, &places, &rights)?;
    let stages = new_stages(alloc, plan, &line)?;
    let views = new_views(alloc, &places, &line)?;
    let callers = new_callers(alloc, &places, rights.len())?;
    let bases = new_bases(alloc, plan, rights)?;
    let sources = places.sources().len();
    let readers = places.readers().len();
    Ok(Machine {
        to_stage: Queues::new(alloc, plan.stages(), sources)?,
        to_view: Queues::new(alloc, readers, plan.stages())?,
        from_view: Queues::new(alloc, plan.stages(), readers)?,
        to_base: Queues::new(alloc, sources, plan.stages())?,
        places,
        bases,
        stages,
        views,
        callers,
    })
}
