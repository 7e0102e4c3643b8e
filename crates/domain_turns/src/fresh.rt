//! What domains are made of before their first message.
ghost use Rattle.std.specs.Prelude.{◌≡◌, ◌<◌, length, IfOk};
ghost use Rattle.model.specs.Places.{base_count, sources as sources_of};
ghost use Rattle.row.specs.Bags.{Each};
ghost use Rattle.shown.specs.Snapshots.{first_of};
ghost use Rattle.stage_domain.specs.Domains.{IsNew};
ghost use Rattle.packet.specs.Lines.{empty_line};
ghost use Rattle.view_domain.specs.Domains.{new_view};
ghost use Rattle.domain_turns.specs.{Fresh.fresh_base, ViewTurns.Shows};

use base_domain::base_domain::BaseDomain;
use book::front::Front;
use book::law::Naming;
use book::log::Log;
use book::part::Part;
use model::places::place_of;
use packet::line::Line;
use plan::plan::Plan;
use routes::routes::Routes;
use stage_domain::stage_domain::StageDomain;
use std::alloc::{AllocError, Global};
use view_domain::view_domain::ViewDomain;

/// The domain of the base shard whose right to append this is, while its log is empty, for this
/// many sessions. Errors: memory only; the right is then gone. Cost: linear in the sessions.
pub fn fresh_base<'p, J: Naming>(
    alloc: Global,
    plan: &'p Plan,
    log: Log<J>,
    sessions: usize,
) -> Result<BaseDomain<'p, Front<J>>, AllocError>
    requires plan { plan.now ≡ J.plan }
    requires empty { log.len ≡ 0 }
    ensures { IfOk result (λ d. d ≡ fresh_base log sessions) }
{
    let Some((table, _)) = place_of(plan, log.base()) else {
        unreachable!()
    };
    BaseDomain::new(alloc, plan, table, log, sessions)
}

/// The domain of a stage shard over the empty front of each source, each of which has seen no less
/// than the part. Errors: memory only. Cost: linear in the sources.
pub fn fresh_stage<'p, J: Naming>(
    alloc: Global,
    routes: &'p Routes<J>,
    part: &Part<J>,
    shard: usize,
) -> Result<StageDomain<'p, Front<J>>, AllocError>
    requires shard { shard < J.plan.stages }
    ensures { IfOk result (IsNew J.plan shard (empty_line J.plan)) }
{
    let line = empty_line(alloc, part, routes.sources())?;
    StageDomain::new(alloc, routes.plan(), shard, line)
}

/// The domain of a view shard over the empty front of each source for each stage shard, with no key
/// filled. A shown copy that was just opened shows what it holds. Errors: memory only. Cost: linear
/// in the sources and the stage shards.
pub fn fresh_view<'p, J: Naming>(
    alloc: Global,
    routes: &'p Routes<J>,
    part: &Part<J>,
    view: usize,
    shard: usize,
) -> Result<ViewDomain<'p, Front<J>>, AllocError>
    requires view { view < length J.plan.views }
    ensures fresh { IfOk result (λ d. d ≡ new_view J.plan record { view = view; shard = shard }) }
    ensures shows { IfOk result (λ d. Shows d (first_of J.plan view shard)) }
{
    let line = empty_line(alloc, part, routes.sources())?;
    let plan = routes.plan();
    let cut = line.copies(alloc, plan.stages())?;
    ViewDomain::new(alloc, plan, view, shard, cut)
}

// The empty front of each source. Errors: memory only.
fn empty_line<J: Naming>(
    alloc: Global,
    part: &Part<J>,
    sources: &[usize],
) -> Result<Line<Front<J>>, AllocError>
    requires sources { sources.now ≡ sources_of J.plan }
    requires range { Each (λ b. b < base_count J.plan) sources.now }
    ensures { IfOk result (λ l. l ≡ empty_line J.plan) }
{
    let mut fronts = Vec::new(alloc);
    for base in sources {
        fronts.push(part.front(*base))?;
    }
    Ok(Line::new(fronts))
}
