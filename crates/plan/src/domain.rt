//! The domains of a plan, the edges between them, and the tags of requests.
ghost use Rattle.std.specs.Prelude.{◌≡◌, ◌++◌, map, IfOk, OnOk};
ghost use Rattle.plan.specs.Domains.{bases, views, sources, stage_shards, view_shards, edges_from, pairs, edges, tags};

use crate::plan::Plan;
use std::alloc::{AllocError, Global};

/// What a request fills: 0 the right side of the stage, 1 and more the views in their order.
#[derive(Clone, Copy, PartialEq, Eq, Debug)]
pub struct Tag(pub u8);

/// A domain, by the place of its table or view and its shard.
#[derive(Clone, Copy, PartialEq, Eq, Debug)]
pub enum DomainId {
    Base(usize, usize),
    Stage(usize),
    View(usize, usize),
}

/// An edge from a domain to a domain.
#[derive(Clone, Copy, PartialEq, Eq, Debug)]
pub struct Edge {
    pub from: DomainId,
    pub to: DomainId,
}

const TAGS: [Tag; 5] = [Tag(0), Tag(1), Tag(2), Tag(3), Tag(4)];

impl Plan {
    /// The tags of requests: 0 if the plan has a right side, then one more than its place for each
    /// view. Takes no memory.
    pub fn tags(&self) -> &'static [Tag]
        ensures { map (λ (t : Tag). t.0) result.now ≡ tags self.now }
    {
        self.keeps_profile();
        match (self.right().is_some(), self.views()) {
            (true, 1) => &TAGS[..2],
            (true, 2) => &TAGS[..3],
            (true, 3) => &TAGS[..4],
            (true, _) => &TAGS,
            (false, 1) => &TAGS[1..2],
            (false, 2) => &TAGS[1..3],
            (false, 3) => &TAGS[1..4],
            (false, _) => &TAGS[1..],
        }
    }

    /// The sources of the stage: the shards of the left table, then those of the right one. Errors:
    /// memory only.
    pub fn sources(&self, alloc: Global) -> Result<Vec<DomainId>, AllocError>
        ensures { IfOk result (λ ds. ds.items ≡ sources self.now) }
    {
        let left = self.left().table();
        let mut out = Vec::new(alloc);
        push_bases(&mut out, left, self.table_shards(left))?;
        if let Some(right) = self.right() {
            push_bases(&mut out, right.table(), self.table_shards(right.table()))?;
        }
        Ok(out)
    }

    /// The shards of the stage. Errors: memory only.
    pub fn stage_shards(&self, alloc: Global) -> Result<Vec<DomainId>, AllocError>
        ensures { IfOk result (λ ds. ds.items ≡ stage_shards self.now) }
    {
        let mut out = Vec::new(alloc);
        for shard in 0..self.stages() {
            out.push(DomainId::Stage(shard))?;
        }
        Ok(out)
    }

    /// The shards of the views, view by view. Errors: memory only.
    pub fn view_shards(&self, alloc: Global) -> Result<Vec<DomainId>, AllocError>
        ensures { IfOk result (λ ds. ds.items ≡ view_shards self.now) }
    {
        let mut out = Vec::new(alloc);
        for view in 0..self.views() {
            push_view(&mut out, view, self.view(view).shards())?;
        }
        Ok(out)
    }

    /// The edges in their order: from each source to each stage shard; from each stage shard to
    /// each view shard; requests from each view shard to each stage shard; requests from each stage
    /// shard to each source. Errors: memory only. Cost: one look at each edge.
    pub fn edges(&self, alloc: Global) -> Result<Vec<Edge>, AllocError>
        ensures { IfOk result (λ es. es.items ≡ edges self.now) }
    {
        let sources = self.sources(alloc)?;
        let stages = self.stage_shards(alloc)?;
        let views = self.view_shards(alloc)?;
        let mut out = Vec::new(alloc);
        push_pairs(&mut out, &sources, &stages)?;
        push_pairs(&mut out, &stages, &views)?;
        push_pairs(&mut out, &views, &stages)?;
        push_pairs(&mut out, &stages, &sources)?;
        Ok(out)
    }
}

/// Puts the shards of a table behind the others.
pub(crate) fn push_bases(
    out: &mut Vec<DomainId>,
    table: usize,
    shards: usize,
) -> Result<(), AllocError>
    ensures { OnOk result (out.new.items ≡ out.old.items ++ bases table shards) }
{
    for shard in 0..shards {
        out.push(DomainId::Base(table, shard))?;
    }
    Ok(())
}

/// Puts the shards of a view behind the others.
fn push_view(out: &mut Vec<DomainId>, view: usize, shards: usize) -> Result<(), AllocError>
    ensures { OnOk result (out.new.items ≡ out.old.items ++ views view shards) }
{
    for shard in 0..shards {
        out.push(DomainId::View(view, shard))?;
    }
    Ok(())
}

/// Puts the edges from the one domain to each of these behind the others.
fn push_edges(out: &mut Vec<Edge>, from: DomainId, to: &[DomainId]) -> Result<(), AllocError>
    ensures { OnOk result (out.new.items ≡ out.old.items ++ edges_from from to.now) }
{
    for target in to {
        out.push(Edge { from, to: *target })?;
    }
    Ok(())
}

/// Puts the edges from each of these domains to each of those behind the others.
fn push_pairs(out: &mut Vec<Edge>, from: &[DomainId], to: &[DomainId]) -> Result<(), AllocError>
    ensures { OnOk result (out.new.items ≡ out.old.items ++ pairs from.now to.now) }
{
    for source in from {
        push_edges(out, *source, to)?;
    }
    Ok(())
}
