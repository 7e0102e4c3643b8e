//! Floors of a session.
ghost use Rattle.std.specs.Prelude.{◌≡◌, ◌<◌, [], length, map, slice_index_or, replicate, IfOk, None, ℕ};
ghost use Rattle.model.specs.{Histories.floor_at, Tables.HasRoom, Tables.with_floor, Tables.even_floors, Tables.IsTable};

use crate::lengths::Lengths;
use plan::plan::Plan;
use std::alloc::{AllocError, Global};
use std::marker::Model;

/// A floor for each shard of each view.
#[derive(Drop)]
pub struct Floors {
    rows: Vec<Vec<Lengths>>,
}

impl Model for Floors {
    ghost use Rattle.std.specs.Prelude.{List, map};
    ghost use Rattle.model.specs.Histories.{Lengths as LengthsView};

    ghost Value = { List (List LengthsView) };

    ghost view = { λ f. map (λ v. v.items) f.rows.items };
}

impl Floors {
    /// These floors, for each view those of its shards, however many. Takes no memory.
    pub fn new(rows: Vec<Vec<Lengths>>) -> Floors
        ensures { result ≡ map (λ v. v.items) rows.items }
    {
        Floors { rows }
    }

    /// The floor at a shard of a view, or `none`, the cut of no lengths, where there is none.
    pub fn floor_at<'a>(&'a self, view: usize, shard: usize, none: &'a Lengths) -> &'a Lengths
        requires { none.now ≡ [] }
        ensures { result.now ≡ floor_at self.now view shard }
    {
        let Some(row) = self.rows.get(view) else {
            return none;
        };
        match row.get(shard) {
            Some(floor) => floor,
            None => none,
        }
    }

    /// All zeros. Errors: memory only. Cost: linear in the shards of all views.
    pub fn zeros(alloc: Global, plan: &Plan) -> Result<Floors, AllocError>
        ensures table { IfOk result (λ f. IsTable plan.now f) }
        ensures zeros { IfOk result (λ f. (v j : ℕ) → floor_at f v j ≡ []) }
    {
        let mut rows = Vec::new(alloc);
        for view in 0..plan.views() {
            rows.push(zero_row(alloc, plan.view(view).shards())?)?;
        }
        Ok(Floors { rows })
    }

    /// The same line for each stage shard, at each shard of each view. Errors: memory only.
    pub fn even(alloc: Global, plan: &Plan, line: &[u64]) -> Result<Floors, AllocError>
        ensures { IfOk result (λ f. f ≡ even_floors plan.now line.now) }
    {
        let mut rows = Vec::new(alloc);
        for view in 0..plan.views() {
            rows.push(even_row(alloc, plan.view(view).shards(), plan.stages(), line)?)?;
        }
        Ok(Floors { rows })
    }

    /// Room for a cut as the floor at a shard of a view: none where the floor has as many lengths for
    /// each stage shard, so that they can be overwritten, else a copy of the cut. Errors: memory only.
    pub fn room_for(
        &self,
        alloc: Global,
        view: usize,
        shard: usize,
        cut: &Lengths,
    ) -> Result<Option<Lengths>, AllocError>
        requires view { view < length self.now }
        requires shard { shard < length (slice_index_or self.now view []) }
        ensures room { IfOk result (HasRoom (floor_at self.now view shard) cut.now) }
        ensures in_place { map length (floor_at self.now view shard) ≡ map length cut.now →
            IfOk result (λ r. r ≡ None) }
    {
        if self.rows[view][shard].has_room_for(cut) {
            Ok(None)
        } else {
            Ok(Some(cut.try_clone(alloc)?))
        }
    }

    /// Sets the floor at a shard of a view, in the room that there is for the cut. Takes no memory.
    pub fn copy(&mut self, view: usize, shard: usize, cut: &Lengths, room: Option<Lengths>)
        requires view { view < length self.old }
        requires shard { shard < length (slice_index_or self.old view []) }
        requires room { HasRoom (floor_at self.old view shard) cut.now room }
        ensures { self.new ≡ with_floor self.old view shard cut.now }
    {
        match room {
            Some(room) => self.set(view, shard, room),
            None => self.rows[view][shard].overwrite(cut),
        }
    }

    /// Sets the floor at a shard of a view.
    pub fn set(&mut self, view: usize, shard: usize, cut: Lengths)
        requires view { view < length self.old }
        requires shard { shard < length (slice_index_or self.old view []) }
        ensures { self.new ≡ with_floor self.old view shard cut }
    {
        self.rows[view][shard] = cut;
    }
}

fn zero_row(alloc: Global, count: usize) -> Result<Vec<Lengths>, AllocError>
    ensures { IfOk result (λ v. v.items ≡ replicate count []) }
{
    let mut row = Vec::new(alloc);
    for _shard in 0..count {
        row.push(Lengths::empty(alloc))?;
    }
    Ok(row)
}

fn even_row(
    alloc: Global,
    count: usize,
    stages: usize,
    line: &[u64],
) -> Result<Vec<Lengths>, AllocError>
    ensures { IfOk result (λ v. v.items ≡ replicate count (replicate stages line.now)) }
{
    let mut row = Vec::new(alloc);
    for _shard in 0..count {
        row.push(Lengths::even(alloc, stages, line)?)?;
    }
    Ok(row)
}
