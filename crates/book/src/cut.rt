//! Cuts: lengths of fronts, and one history for all of them.
ghost use Rattle.std.specs.Prelude.{◌≡◌, ◌<◌, length, replicate, IfOk};
ghost use mathlib.Core.List.{IsPrefix};
ghost use Rattle.model.specs.{Histories.len_at, Cuts.IsWithin, Places.base_count, Places.sources as sources_of, Places.source_at, Tables.even_floors, Tables.with_floor, Tables.with_front, Tables.with_length};
ghost use Rattle.book.specs.{Fronts.entries, Sessions.fronts};
ghost use Rattle.plan.specs.Layouts.{view_at};

use crate::front::Front;
use crate::law::{Law, LogPage, Naming};
use crate::part::Part;
use crate::step::learn;
use logbook::Seen;
use model::floors::Floors;
use model::lengths::Lengths;
use model::places::sources;
use plan::plan::Plan;
use std::alloc::{AllocError, Global};
use std::marker::{Model, PhantomData};

/// A cut, and a history in which its lengths were reached. So it stands for the fronts that it
/// names.
#[derive(Drop)]
pub struct Cut<J: Naming> {
    pub(crate) lengths: Lengths,
    pub(crate) seen: Seen<LogPage, u64, Law>,
    pub(crate) of: PhantomData<J>,
}

impl<J: Naming> Model for Cut<J> {
    ghost use Rattle.std.specs.Prelude.{◌≡◌};
    ghost use Rattle.model.specs.Cuts.{IsWithin};
    ghost use Rattle.book.specs.{Pages.IsLogOf, Pages.history_of, Sessions.CutView};

    ghost Value = { CutView };

    ghost view = { λ c. record { lengths = c.lengths; seen = history_of c.seen.log } };

    ghost invariant = { λ c. (c.seen.book ≡ J.book) × IsLogOf J.plan J.sessions c.seen.log
        × IsWithin J.plan (history_of c.seen.log) c.lengths };
}

/// A cut for each shard of each view.
#[derive(Drop)]
pub struct Cuts<J: Naming> {
    pub(crate) floors: Floors,
    pub(crate) seen: Seen<LogPage, u64, Law>,
    pub(crate) of: PhantomData<J>,
}

impl<J: Naming> Model for Cuts<J> {
    ghost use Rattle.std.specs.Prelude.{◌≡◌};
    ghost use Rattle.book.specs.{Pages.IsLogOf, Pages.history_of, Sessions.FloorsView, Sessions.AreWithin};

    ghost Value = { FloorsView };

    ghost view = { λ c. record { floors = c.floors; seen = history_of c.seen.log } };

    ghost invariant = { λ c. (c.seen.book ≡ J.book) × IsLogOf J.plan J.sessions c.seen.log
        × AreWithin J.plan (record { floors = c.floors; seen = history_of c.seen.log }) };
}

impl<J: Naming> Cuts<J> {
    /// For each shard of each view the cut of no entries. Errors: memory only. Cost: linear in the
    /// shards of all views.
    pub fn zeros(alloc: Global, plan: &Plan, part: &Part<J>) -> Result<Cuts<J>, AllocError>
        requires plan { plan.now ≡ J.plan }
        ensures floors { IfOk result (λ c. c.floors
            ≡ even_floors J.plan (replicate (length (sources_of J.plan)) 0)) }
        ensures seen { IfOk result (λ c. IsPrefix part.now c.seen) }
    {
        let seen = part.whole();
        let line = no_entries(alloc, plan)?;
        let floors = Floors::even(alloc, plan, line.as_slice())?;
        Ok(Cuts {
            floors,
            seen,
            of: PhantomData,
        })
    }

    /// Takes a cut for a shard of a view. The other cuts stay.
    pub fn set(&mut self, view: usize, shard: usize, cut: Cut<J>)
        requires view { view < length J.plan.views }
        requires shard { shard < (view_at J.plan view).shards }
        ensures floors { self.new.floors ≡ with_floor self.old.floors view shard cut.lengths }
        ensures seen { IsPrefix self.old.seen self.new.seen }
        ensures others { IsPrefix cut.seen self.new.seen }
    {
        let Cut { lengths, seen, .. } = cut;
        learn::<J>(&mut self.seen, &seen);
        self.floors.set(view, shard, lengths);
    }
}

// No entry of each source.
fn no_entries(alloc: Global, plan: &Plan) -> Result<Vec<u64>, AllocError>
    ensures { IfOk result (λ v. v.items ≡ replicate (length (sources_of plan.now)) 0) }
{
    let count = sources(alloc, plan)?.len();
    vec![in alloc; 0; count]
}

impl<J: Naming> Cut<J> {
    /// Its lengths, which were reached in what was seen: one for each stage shard and source.
    pub fn lengths(&self) -> &Lengths
        ensures lengths { result.now ≡ self.now.lengths }
        ensures within { IsWithin J.plan self.now.seen self.now.lengths }
    {
        &self.lengths
    }

    /// Its lengths alone.
    pub fn into_lengths(self) -> Lengths
        ensures { result ≡ self.lengths }
    {
        let Cut { lengths, .. } = self;
        lengths
    }

    /// A copy. Errors: memory only. Cost: that of its lengths.
    pub fn try_clone(&self, alloc: Global) -> Result<Cut<J>, AllocError>
        ensures { IfOk result (λ c. c ≡ self.now) }
    {
        Ok(Cut {
            lengths: self.lengths.try_clone(alloc)?,
            seen: self.seen.again(),
            of: PhantomData,
        })
    }

    /// The cut at which each stage shard has the empty front of each source. Errors: memory only.
    /// Cost: linear in the stage shards and the sources.
    pub fn zeros(alloc: Global, plan: &Plan, part: &Part<J>) -> Result<Cut<J>, AllocError>
        requires plan { plan.now ≡ J.plan }
        ensures lengths { IfOk result (λ c. c.lengths
            ≡ replicate J.plan.stages (replicate (length (sources_of J.plan)) 0)) }
        ensures seen { IfOk result (λ c. IsPrefix part.now c.seen) }
    {
        let seen = part.whole();
        let line = no_entries(alloc, plan)?;
        let lengths = Lengths::even(alloc, plan.stages(), line.as_slice())?;
        Ok(Cut {
            lengths,
            seen,
            of: PhantomData,
        })
    }

    /// The front of a source at a stage shard.
    pub fn front(&self, stage: usize, source: usize, base: usize) -> Front<J>
        requires base { base < base_count J.plan }
        requires source { source_at J.plan source ≡ base }
        ensures base { result.base ≡ base }
        ensures len { result.len ≡ len_at self.now.lengths stage source }
        ensures seen { result.seen ≡ self.now.seen }
    {
        Front {
            base,
            len: self.lengths.len(stage, source),
            seen: self.seen.again(),
            of: PhantomData,
        }
    }

    /// Takes the front's length for its source at a stage shard. The other fronts stay.
    pub fn advance(&mut self, stage: usize, source: usize, front: &Front<J>)
        requires stage { stage < J.plan.stages }
        requires source { source < length (sources_of J.plan) }
        requires base { source_at J.plan source ≡ front.now.base }
        ensures lengths { self.new.lengths
            ≡ with_length self.old.lengths stage source front.now.len }
        ensures fronts { fronts J.plan self.new ≡ with_front (fronts J.plan self.old) stage source
            (entries front.now) }
        ensures seen { IsPrefix self.old.seen self.new.seen }
        ensures others { IsPrefix front.now.seen self.new.seen }
    {
        learn::<J>(&mut self.seen, &front.seen);
        self.lengths.set(stage, source, front.len);
    }
}
