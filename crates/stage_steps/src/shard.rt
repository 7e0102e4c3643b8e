//! A stage shard over its line of fronts.
ghost use Rattle.std.specs.Prelude.{◌≡◌, ◌<◌, [], IfOk, None};
ghost use Rattle.std.specs.Option.{option_map};
ghost use Rattle.row.specs.Bags.{Each};
ghost use Rattle.model.specs.Fronts.{LogView};
ghost use Rattle.packet.specs.{Keys.no_keys, Lines.AreOf, Lines.entries_of};
ghost use Rattle.stage_steps.specs.Shards.{IsShard, stage_of};

use crate::entries::right_source;
use model::fronts::Fronts;
use packet::line::Line;
use packet::marks::Marks;
use packet::request::Request;
use plan::plan::Plan;
use stage_sides::rows::StageRows;
use std::alloc::{AllocError, Global};
use std::marker::Model;

/// A stage shard over a front of each source: the rows of its sides, the requests that wait for
/// rows of the right side, and the markers that have not come from all sources.
pub struct StageShard<'p, F: Fronts> {
    pub(crate) plan: &'p Plan,
    pub(crate) shard: usize,
    pub(crate) line: Line<F>,
    pub(crate) rows: StageRows<'p>,
    pub(crate) pending: Vec<Request>,
    pub(crate) marks: Marks,
}

// What holds one drops it by this call, and need not know its parts.
impl<F: Fronts> Drop for StageShard<'_, F> {
    fn drop(self) {
        let StageShard {
            plan: _,
            shard: _,
            line: _,
            rows: _,
            pending: _,
            marks: _,
        } = self;
    }
}

impl<'p, F: Fronts> Model for StageShard<'p, F> {
    ghost use Rattle.stage_steps.specs.Shards.{Shard};

    ghost Value = { Shard };

    ghost view = { λ x. record {
      plan = x.plan.now;
      shard = x.shard;
      line = x.line;
      rows = x.rows;
      pending = x.pending.items;
      marks = x.marks;
    } };
}

impl<'p, F: Fronts> StageShard<'p, F> {
    /// A stage shard over a line of fronts of empty logs: it has no rows, and where there is a
    /// right side each stage key is a hole. Errors: memory only.
    pub fn new(
        alloc: Global,
        plan: &'p Plan,
        shard: usize,
        line: Line<F>,
    ) -> Result<StageShard<'p, F>, AllocError>
        requires shard { shard < plan.now.stages }
        requires of { AreOf plan.now line }
        requires empty { Each (λ (l : LogView). l.entries ≡ []) line }
        ensures whole { IfOk result (λ x. IsShard x) }
        ensures line { IfOk result (λ x. x.line ≡ line) }
        ensures stage { IfOk result (λ x. stage_of x ≡ record {
          plan = plan.now;
          shard = shard;
          line = entries_of line;
          right = option_map (λ side. no_keys) plan.now.right;
          pending = [];
          asked = None;
          marks = [];
        }) }
    {
        let sources = line.sources();
        let rows = StageRows::new(alloc, plan, right_source(plan, sources))?;
        Ok(StageShard {
            plan,
            shard,
            line,
            rows,
            pending: Vec::new(alloc),
            marks: Marks::new(alloc, sources),
        })
    }

    /// The stage shard that it is.
    pub fn shard(&self) -> usize
        ensures { result ≡ self.now.shard }
    {
        self.shard
    }

    /// The line of fronts that it holds, one of each source of its plan.
    pub fn line(&self) -> &Line<F>
        ensures { result.now ≡ self.now.line }
    {
        &self.line
    }
}
