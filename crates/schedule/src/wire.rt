//! Edges and domains by the places of their ends.
ghost use Rattle.std.specs.Prelude.{◌≡◌, ◌++◌, map, IfOk, OnOk};
ghost use Rattle.protocol.specs.Edges.{pairs, to_base_back, to_stage_back, to_stage_from, to_view_from};
ghost use Rattle.schedule.specs.{Codes.wire_in, Ways.wire_on, Ways.wires_on};

use std::alloc::{AllocError, Global};

/// An edge by the places of its ends among the sources, the stage shards and the view shards.
/// Packets go from a source to a stage shard and on to a view shard, requests go back.
#[derive(Clone, Copy, PartialEq, Eq, Debug)]
pub enum Wire {
    FromSource { source: usize, stage: usize },
    FromStage { stage: usize, reader: usize },
    AskStage { reader: usize, stage: usize },
    AskSource { stage: usize, source: usize },
}

/// A domain by its place among all base shards, stage shards or view shards.
#[derive(Clone, Copy, PartialEq, Eq, Debug)]
pub enum Spot {
    Base(usize),
    Stage(usize),
    View(usize),
}

/// A kind of edges.
#[derive(Clone, Copy)]
enum Way {
    FromSource,
    FromStage,
    AskStage,
    AskSource,
}

impl Way {
    /// The edge of this kind between domains at these places.
    fn wire(self, from: usize, to: usize) -> Wire
        ensures { wire_in result ≡ wire_on self from to }
    {
        match (self, from, to) {
            (Way::FromSource, source, stage) => Wire::FromSource { source, stage },
            (Way::FromStage, stage, reader) => Wire::FromStage { stage, reader },
            (Way::AskStage, reader, stage) => Wire::AskStage { reader, stage },
            (Way::AskSource, stage, source) => Wire::AskSource { stage, source },
        }
    }
}

/// All edges between this many sources, stage shards and view shards, in the order of a plan's.
/// Errors: memory only.
pub(crate) fn wires(
    alloc: Global,
    sources: usize,
    stages: usize,
    readers: usize,
) -> Result<Vec<Wire>, AllocError>
    ensures { IfOk result (λ v. map wire_in v.items ≡ pairs to_stage_from sources stages
        ++ pairs to_view_from stages readers ++ pairs to_stage_back readers stages
        ++ pairs to_base_back stages sources) }
{
    let mut out = Vec::new(alloc);
    push_pairs(&mut out, Way::FromSource, sources, stages)?;
    push_pairs(&mut out, Way::FromStage, stages, readers)?;
    push_pairs(&mut out, Way::AskStage, readers, stages)?;
    push_pairs(&mut out, Way::AskSource, stages, sources)?;
    Ok(out)
}

/// Puts the edges from each of `from` domains to each of `to` behind the others.
fn push_pairs(out: &mut Vec<Wire>, way: Way, from: usize, to: usize) -> Result<(), AllocError>
    ensures { OnOk result (map wire_in out.new.items
        ≡ map wire_in out.old.items ++ pairs (wire_on way) from to) }
{
    for place in 0..from {
        push_wires(out, way, place, to)?;
    }
    Ok(())
}

/// Puts the edges from one domain to each of `to` behind the others.
fn push_wires(out: &mut Vec<Wire>, way: Way, from: usize, to: usize) -> Result<(), AllocError>
    ensures { OnOk result (map wire_in out.new.items
        ≡ map wire_in out.old.items ++ wires_on way from to) }
{
    for place in 0..to {
        out.push(way.wire(from, place))?;
    }
    Ok(())
}
