//! Readers of a shown copy.
ghost use Rattle.std.specs.Prelude.{◌≡◌, IfOk, IfErr, IfSome, IsFalse, IsTrue as IsYes, None, Some};
ghost use Rattle.left_right.specs.Sides.{view as sight_of};
ghost use Rattle.book.specs.Sessions.{fronts};
ghost use Rattle.row.specs.Cells.{datum_of};
ghost use Rattle.shown.specs.{Looks.IsHit, Snapshots.Snapshot, Snapshots.IsLater, Snapshots.IsTrue, Snapshots.shown_at, Sights.HasLooked, Sights.IsOf, Sights.seen_or, Sights.nothing};

use crate::rule::{Looks, Published, Sight};
use crate::shown::Shown;
use book::cut::Cut;
use book::law::Naming;
use key_rows::answer_rows::AnswerRows;
use left_right::reader::Reader;
use row::refused::Refused;
use row::value::Value;
use std::alloc::{AllocError, Global};
use std::marker::Model;

/// A reader of a shown copy, seen as what it has seen last.
#[derive(Drop)]
pub struct ShownReader<J: Naming> {
    // (always there between two calls)
    reader: Option<Reader<Shown<J>, Sight, Published>>,
    view: usize,
    shard: usize,
}

impl<J: Naming> Model for ShownReader<J> {
    ghost use Rattle.std.specs.Prelude.{◌≡◌, option_map};
    ghost use Rattle.left_right.specs.Sides.{view as sight_of};
    ghost use Rattle.shown.specs.{Snapshots.Snapshot, Sights.IsOf, Sights.seen_by, Sights.seen_or, Sights.nothing};

    ghost Value = { Snapshot };

    ghost view = { λ r. seen_or nothing (seen_by (option_map (λ x. sight_of x.place) r.reader)) };

    ghost invariant = { λ r. IsOf r.view r.shard
        (seen_by (option_map (λ x. sight_of x.place) r.reader)) };
}

impl<J: Naming> ShownReader<J> {
    // A reader of this shard of this view that has looked once. Refused where the writer is gone,
    // or the copy is of another shard, which no caller brings about.
    pub(crate) fn over(
        reader: Reader<Shown<J>, Sight, Published>,
        view: usize,
        shard: usize,
    ) -> Result<ShownReader<J>, AllocError>
        ensures view { IfOk result (λ r. r.view ≡ view) }
        ensures shard { IfOk result (λ r. r.shard ≡ shard) }
        ensures later { IfOk result (λ r. IfSome (sight_of reader.place) (λ s. IsLater s r)) }
    {
        let Ok(reading) = reader.enter_as::<Looks>() else {
            return Err(AllocError);
        };
        let is_of = reading.get().view == view && reading.get().shard == shard;
        let reader = reading.leave();
        if !is_of {
            return Err(AllocError);
        }
        Ok(ShownReader {
            reader: Some(reader),
            view,
            shard,
        })
    }

    /// One more reader of the same copy, which has looked once. Refused where the writer is gone, or
    /// each place for a reader was found in use.
    pub fn another(&self) -> Result<ShownReader<J>, AllocError>
        ensures view { IfOk result (λ r. r.view ≡ self.now.view) }
        ensures shard { IfOk result (λ r. r.shard ≡ self.now.shard) }
    {
        let Some(reader) = &self.reader else {
            unreachable!();
        };
        let reader = reader.factory().reader()?;
        ShownReader::over(reader, self.view, self.shard)
    }

    /// Looks a key up in what is shown, which is true and no less than what it has seen, and says
    /// whether it is shown: a hit puts the rows of the key into `rows` and, in `cut`, the cut over
    /// which they are its answer, both of one look. What stands in either but for a hit is not said.
    /// It waits for nobody. Errors: `NoMemory`, also where the writer is gone; it may then have seen
    /// more. Cost: one look-up by hash, that of `SharedRows::read_into`, and a copy of the cut.
    #[inline(always)]
    pub fn look(
        &mut self,
        alloc: Global,
        key: &Value,
        rows: &mut AnswerRows,
        cut: &mut Option<Cut<J>>,
    ) -> Result<bool, Refused>
        ensures later { IsLater self.old self.new }
        ensures truth { IfOk result (λ _. IsTrue J.plan self.new) }
        ensures hit { IfOk result (λ hit. IsYes hit
            → IsHit J.plan self.new (datum_of key.now) rows.new cut.new) }
        ensures miss { IfOk result (λ hit. IsFalse hit
            → shown_at self.new.rows (datum_of key.now) ≡ None) }
        ensures only { IfErr result (λ e. e ≡ Refused.NoMemory) }
    {
        let Some(reader) = self.reader.take() else {
            unreachable!();
        };
        let (reader, found) = look_by(reader, alloc, key, self.view, self.shard, rows, cut);
        self.reader = Some(reader);
        found
    }

    /// Looks at the cut of what is shown, which is no less than what it has seen. It waits for
    /// nobody. Errors: `NoMemory`, also where the writer is gone; it may then have seen more.
    pub fn cut(&mut self, alloc: Global) -> Result<Cut<J>, Refused>
        ensures later { IsLater self.old self.new }
        ensures cut { IfOk result (λ c. (c.lengths ≡ self.new.lengths)
            × (fronts J.plan c ≡ self.new.cut)) }
        ensures only { IfErr result (λ e. e ≡ Refused.NoMemory) }
    {
        let Some(reader) = self.reader.take() else {
            unreachable!();
        };
        let (reader, cut) = cut_by(reader, alloc, self.view, self.shard);
        self.reader = Some(reader);
        cut
    }

    /// Looks at how many requests the view's shard had sent; the count stays at the greatest
    /// number. It waits for nobody and takes no memory. Errors: `NoMemory` where the writer is
    /// gone.
    pub fn asked(&mut self) -> Result<u64, Refused>
        ensures later { IsLater self.old self.new }
        ensures asked { IfOk result (λ n. n ≡ self.new.asked) }
        ensures only { IfErr result (λ e. e ≡ Refused.NoMemory) }
    {
        let Some(reader) = self.reader.take() else {
            unreachable!();
        };
        let (reader, asked) = asked_by(reader, self.view, self.shard);
        self.reader = Some(reader);
        asked
    }
}

// Whether the key is shown: its rows in `rows`, and in `cut` the cut.
#[inline(always)]
fn look_by<J: Naming>(
    reader: Reader<Shown<J>, Sight, Published>,
    alloc: Global,
    key: &Value,
    view: usize,
    shard: usize,
    rows: &mut AnswerRows,
    cut: &mut Option<Cut<J>>,
) -> (Reader<Shown<J>, Sight, Published>, Result<bool, Refused>)
    requires of { IsOf view shard (sight_of reader.place) }
    ensures looked { HasLooked view shard (sight_of reader.place) (sight_of result.0.place) }
    ensures truth { IfOk result.1 (λ _. IsTrue J.plan (seen_or nothing (sight_of result.0.place))) }
    ensures hit { IfOk result.1 (λ hit. IsYes hit → IsHit J.plan
        (seen_or nothing (sight_of result.0.place)) (datum_of key.now) rows.new cut.new) }
    ensures miss { IfOk result.1 (λ hit. IsFalse hit → shown_at
        (seen_or nothing (sight_of result.0.place)).rows (datum_of key.now) ≡ None) }
    ensures only { IfErr result.1 (λ e. e ≡ Refused.NoMemory) }
{
    match reader.enter_as::<Looks>() {
        Err(reader) => (reader, Err(Refused::NoMemory)),
        Ok(reading) => {
            let found = found(alloc, reading.get(), key, rows, cut);
            (reading.leave(), found)
        }
    }
}

// The cut of what is shown.
fn cut_by<J: Naming>(
    reader: Reader<Shown<J>, Sight, Published>,
    alloc: Global,
    view: usize,
    shard: usize,
) -> (Reader<Shown<J>, Sight, Published>, Result<Cut<J>, Refused>)
    requires of { IsOf view shard (sight_of reader.place) }
    ensures looked { HasLooked view shard (sight_of reader.place) (sight_of result.0.place) }
    ensures cut { IfOk result.1 (λ c.
        (c.lengths ≡ (seen_or nothing (sight_of result.0.place)).lengths)
        × (fronts J.plan c ≡ (seen_or nothing (sight_of result.0.place)).cut)) }
    ensures only { IfErr result.1 (λ e. e ≡ Refused.NoMemory) }
{
    match reader.enter_as::<Looks>() {
        Err(reader) => (reader, Err(Refused::NoMemory)),
        Ok(reading) => {
            let cut = reading.get().cut().try_clone(alloc);
            (reading.leave(), cut.map_err(|_| Refused::NoMemory))
        }
    }
}

// How many requests the view's shard had sent.
fn asked_by<J: Naming>(
    reader: Reader<Shown<J>, Sight, Published>,
    view: usize,
    shard: usize,
) -> (Reader<Shown<J>, Sight, Published>, Result<u64, Refused>)
    requires of { IsOf view shard (sight_of reader.place) }
    ensures looked { HasLooked view shard (sight_of reader.place) (sight_of result.0.place) }
    ensures asked { IfOk result.1 (λ n. n ≡ (seen_or nothing (sight_of result.0.place)).asked) }
    ensures only { IfErr result.1 (λ e. e ≡ Refused.NoMemory) }
{
    match reader.enter_as::<Looks>() {
        Err(reader) => (reader, Err(Refused::NoMemory)),
        Ok(reading) => {
            let asked = reading.get().asked();
            (reading.leave(), Ok(asked))
        }
    }
}

// Whether the key is shown: a copy of its rows in `rows`, and in `cut` one of the cut.
#[inline(always)]
fn found<J: Naming>(
    alloc: Global,
    shown: &Shown<J>,
    key: &Value,
    rows: &mut AnswerRows,
    cut: &mut Option<Cut<J>>,
) -> Result<bool, Refused>
    ensures hit { IfOk result (λ hit. IsYes hit
        → IsHit J.plan shown.now (datum_of key.now) rows.new cut.new) }
    ensures miss { IfOk result (λ hit. IsFalse hit
        → shown_at shown.now.rows (datum_of key.now) ≡ None) }
    ensures only { IfErr result (λ e. e ≡ Refused.NoMemory) }
{
    let Some(held) = shown.entry(key) else {
        return Ok(false);
    };
    held.read_into(alloc, rows)?;
    *cut = Some(shown.cut().try_clone(alloc)?);
    Ok(true)
}
