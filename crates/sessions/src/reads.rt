//! Reads of a session.
ghost use Rattle.std.specs.Prelude.{◌≡◌, ◌⊎◌, ◌<◌, IfOk, OnOk, IfErr, IfNone, IfSome, IsFalse, IsTrue, Some, length};
ghost use Rattle.std.specs.Prelude.{slice_get};
ghost use Rattle.row.specs.Cells.{datum_of};
ghost use Rattle.plan.specs.Layouts.{view_at};
ghost use Rattle.model.specs.Histories.{view_shard};
ghost use Rattle.protocol.specs.Bases.{last_number};
ghost use Rattle.packet.specs.Readers.{readers};
ghost use Rattle.sessions.specs.Reads.{IsHidden};

use crate::session::Session;
use crate::turns::ReadTurns;
use book::cut::Cut;
use book::law::Naming;
use calls::want::fill;
use key_rows::answer_rows::AnswerRows;
use model::lengths::Lengths;
use plan::plan::Plan;
use routes::routes::Routes;
use row::refused::Refused;
use row::value::{Value, shard_of};
use schedule::arguments::read_target;
use schedule::readers::place_of;
use std::alloc::Global;
use std::sync::Wait;

/// The rows of a key in order, and the cut over which they are the query's.
#[derive(Drop)]
pub struct Answer {
    pub rows: AnswerRows,
    pub cut: Lengths,
}

/// What a read comes to: an answer, or why it is refused.
pub type Reading = Result<Answer, Refused>;

/// What a try of a read found: an answer, or that the key is not shown.
#[derive(Drop)]
pub enum Found {
    Hit(Answer),
    Miss,
}

impl<J: Naming> Session<J> {
    ghost use Rattle.sessions.specs.{Reads.Answers, Reads.AnswersInto, Reads.HasLooked, Reads.IsMissed, Reads.IsRead, Reads.IsUnanswered, Reads.IsUnread, Reads.Misses, Reads.OnHit, Reads.OnMiss, Reads.Reads, Reads.Tries, Reads.asked_refusal, Sights.Finds, Sights.FindsOver};

    /// Looks a key of a view up in what is shown, and makes a hit an answer, as one step. It waits
    /// for nobody, and is answered after a stop too. A hit is what the look found: the query's rows
    /// for the key over the cut that it names, which is never below the session's floor there. A
    /// miss adds nothing and moves no floor.
    ///
    /// Refused with, looked for in this order: `Stolen` where the session's call numbers are spent
    /// or its word was found moved before, `UnknownView`, `BadKey` where the key is no cell of the
    /// key column; then `NoMemory`, or `Stolen` where its word was moved by another. A refused read
    /// leaves the floors and what was accepted, and but for `Stolen` what was seen. Cost: a look at
    /// each view's name, one look-up, that of `SharedRows::read_into`, and two copies of the cut, one of
    /// them over the floor.
    pub fn try_read(&mut self, alloc: Global, view: &str, key: &Value) -> Result<Found, Refused>
        ensures { Tries J.plan J.sessions self.old self.new view.now (datum_of key.now) result }
    {
        let answer = self.try_view(alloc, view, key);
        self.seen.is_legal();
        answer
    }

    fn try_view(&mut self, alloc: Global, view: &str, key: &Value) -> Result<Found, Refused>
        ensures why { IfSome (asked_refusal J.plan self.old view.now (datum_of key.now))
            (λ e. (result ≡ Err e) × (self.new ≡ self.old)) }
        ensures hit { IfOk result (OnHit (λ rows cut.
            Reads J.plan self.old self.new view.now (datum_of key.now) rows cut)) }
        ensures miss { IfOk result (OnMiss
            (Misses J.plan self.old self.new view.now (datum_of key.now))) }
        ensures refused { IfErr result (λ e. (asked_refusal J.plan self.old view.now
            (datum_of key.now) ≡ Some e) ⊎ IsUnread J.plan self.old self.new e) }
    {
        if self.is_spent() {
            return Err(Refused::Stolen);
        }
        let view = read_target(self.plan(), view, key)?;
        let mut rows = AnswerRows::new();
        match self.look(alloc, view, key, &mut rows) {
            Ok(Some(cut)) => Ok(Found::Hit(Answer { rows, cut })),
            Ok(None) => Ok(Found::Miss),
            Err(refused) => Err(refused),
        }
    }

    // Looks the key up, and answers with a hit: its rows in `rows`, and their cut.
    #[inline(always)]
    fn look(
        &mut self,
        alloc: Global,
        view: usize,
        key: &Value,
        rows: &mut AnswerRows,
    ) -> Result<Option<Lengths>, Refused>
        requires view { view < length J.plan.views }
        requires number { self.old.number < last_number }
        ensures hit { IfOk result (λ found. IfSome found (λ cut.
            IsRead J.plan self.old self.new view (datum_of key.now) rows.new cut)) }
        ensures miss { IfOk result (λ found.
            IfNone found (IsMissed J.plan self.old self.new view (datum_of key.now))) }
        ensures refused { IfErr result (λ e. IsUnread J.plan self.old self.new e) }
    {
        let shard = key_shard(self.plan(), view, key);
        let mut cut = None;
        let hit = match self.find(alloc, view, shard, key, rows, &mut cut) {
            Ok(hit) => hit,
            Err(refused) => return Err(refused),
        };
        if !hit {
            return Ok(None);
        }
        let Some(cut) = cut else {
            unreachable!();
        };
        match self.answer(alloc, view, shard, key, rows, &cut) {
            Ok(()) => Ok(Some(cut.into_lengths())),
            Err(refused) => Err(refused),
        }
    }

    // Looks the key up in what is shown of its view shard, and says whether it is shown: a hit puts its
    // rows into `rows` and its cut into `cut`.
    #[inline(always)]
    fn find(
        &mut self,
        alloc: Global,
        view: usize,
        shard: usize,
        key: &Value,
        rows: &mut AnswerRows,
        cut: &mut Option<Cut<J>>,
    ) -> Result<bool, Refused>
        requires view { view < length J.plan.views }
        requires shard { shard ≡ view_shard J.plan view (datum_of key.now) }
        requires range { shard < (view_at J.plan view).shards }
        ensures looked { HasLooked self.old self.new }
        ensures hit { IfOk result (λ hit. IsTrue hit
            → FindsOver J.plan self.new.shown view (datum_of key.now) rows.new cut.new) }
        ensures miss { IfOk result (λ hit. IsFalse hit
            → IsHidden J.plan self.new.shown view (datum_of key.now)) }
        ensures only { IfErr result (λ e. e ≡ Refused.NoMemory) }
    {
        let place = shard_place(&self.routes, view, shard);
        self.sights.look(alloc, place, view, key, rows, cut)
    }

    // Answers with what was looked at.
    #[inline(always)]
    fn answer(
        &mut self,
        alloc: Global,
        view: usize,
        shard: usize,
        key: &Value,
        rows: &AnswerRows,
        cut: &Cut<J>,
    ) -> Result<(), Refused>
        requires view { view < length J.plan.views }
        requires shard { shard ≡ view_shard J.plan view (datum_of key.now) }
        requires range { shard < (view_at J.plan view).shards }
        requires number { self.old.number < last_number }
        requires found { Finds J.plan self.old.shown view (datum_of key.now) rows.now cut.now }
        ensures read { OnOk result
            (IsRead J.plan self.old self.new view (datum_of key.now) rows.now cut.now.lengths) }
        ensures refused { IfErr result (λ e. IsUnread J.plan self.old self.new e) }
    {
        let room = self.word.room_for(alloc, view, shard, cut.lengths())?;
        self.number += 1;
        self.word.learn(&self.seen);
        let book = self.routes.book();
        let answered = self.word.answer(book, view, shard, key, rows, cut, room);
        self.seen = self.word.part();
        match answered {
            Ok(()) => Ok(()),
            Err(_) => {
                self.stolen = true;
                Err(Refused::Stolen)
            }
        }
    }

    /// Reads a key of a view: tries as `try_read`, and at a miss asks the key's view shard to fill
    /// the key, waits until it was filled there, and tries again. An answer is that of the last
    /// try.
    ///
    /// Refused as `try_read` is; at a miss then with `Stopped` where the view shard, a stage shard
    /// or a source has stopped, or the store; `Busy` at the 64th miss. A refused read leaves the
    /// floors and what was accepted, and but for `Stolen` what was seen. Cost: for each miss that
    /// of a look-up, two copies of the key, one message and one wait.
    pub fn read<R: Wait>(&mut self, rt: &R, alloc: Global, view: &str, key: &Value) -> Reading
        ensures { Answers J.plan J.sessions self.old self.new view.now (datum_of key.now) result }
    {
        let mut rows = AnswerRows::new();
        match self.read_into(rt, alloc, view, key, &mut rows) {
            Ok(cut) => Ok(Answer { rows, cut }),
            Err(refused) => Err(refused),
        }
    }

    /// Reads as `read` does, into rows of the caller's, which can be filled again, and gives the cut over
    /// which they are the query's. Refused as `read` is; what the rows are then is not said. Cost: that of
    /// `read`, but that the rows are not copied on their way up to the caller.
    pub fn read_into<R: Wait>(
        &mut self,
        rt: &R,
        alloc: Global,
        view: &str,
        key: &Value,
        rows: &mut AnswerRows,
    ) -> Result<Lengths, Refused>
        ensures { AnswersInto J.plan J.sessions self.old self.new view.now (datum_of key.now)
            rows.new result }
    {
        let answer = self.read_view(rt, alloc, view, key, rows);
        self.seen.is_legal();
        answer
    }

    fn read_view<R: Wait>(
        &mut self,
        rt: &R,
        alloc: Global,
        view: &str,
        key: &Value,
        rows: &mut AnswerRows,
    ) -> Result<Lengths, Refused>
        ensures why { IfSome (asked_refusal J.plan self.old view.now (datum_of key.now))
            (λ e. (result ≡ Err e) × (self.new ≡ self.old)) }
        ensures answer { IfOk result (λ cut.
            Reads J.plan self.old self.new view.now (datum_of key.now) rows.new cut) }
        ensures refused { IfErr result (λ e. (asked_refusal J.plan self.old view.now
            (datum_of key.now) ≡ Some e) ⊎ IsUnanswered J.plan self.old self.new e) }
    {
        if self.is_spent() {
            return Err(Refused::Stolen);
        }
        let view = read_target(self.plan(), view, key)?;
        self.read_by_turns(rt, alloc, view, key, rows)
    }

    // Tries, and asks and waits at each miss.
    fn read_by_turns<R: Wait>(
        &mut self,
        rt: &R,
        alloc: Global,
        view: usize,
        key: &Value,
        rows: &mut AnswerRows,
    ) -> Result<Lengths, Refused>
        requires view { view < length J.plan.views }
        requires number { self.old.number < last_number }
        ensures answer { IfOk result (λ cut.
            IsRead J.plan self.old self.new view (datum_of key.now) rows.new cut) }
        ensures refused { IfErr result (λ e. IsUnanswered J.plan self.old self.new e) }
    {
        let mut turns = ReadTurns::new();
        for _turn in rt.forever() {
            let found = match self.look(alloc, view, key, rows) {
                Ok(found) => found,
                Err(refused) => return Err(refused),
            };
            if let Some(cut) = found {
                return Ok(cut);
            }
            match self.wait_for(rt, alloc, view, key, &mut turns) {
                Ok(()) => (),
                Err(refused) => return Err(refused),
            }
        }
        unreachable!()
    }

    // Counts a miss, asks the key's view shard for the key, and waits until it was filled there.
    fn wait_for<R: Wait>(
        &mut self,
        rt: &R,
        alloc: Global,
        view: usize,
        key: &Value,
        turns: &mut ReadTurns,
    ) -> Result<(), Refused>
        requires view { view < length J.plan.views }
        ensures waited { OnOk result (self.new ≡ self.old) }
        ensures refused { IfErr result (λ e. IsUnanswered J.plan self.old self.new e) }
    {
        let place = key_place(&self.routes, view, key);
        if self.routes.is_cut_off(place) {
            return Err(Refused::Stopped);
        }
        if let Err(refused) = turns.miss() {
            return Err(refused);
        }
        let number = self.waits;
        // (no session waits 2^64 times)
        self.waits = number.wrapping_add(1);
        fill(
            rt,
            alloc,
            &self.routes,
            place,
            self.word.number(),
            number,
            key,
        )
    }
}

// The shard of the view that has the key.
pub(crate) fn key_shard(plan: &Plan, view: usize, key: &Value) -> usize
    requires { view < length plan.now.views }
    ensures shard { result ≡ view_shard plan.now view (datum_of key.now) }
    ensures range { result < (view_at plan.now view).shards }
{
    plan.keeps_profile();
    shard_of(key, plan.view(view).shards())
}

// The place of the key's view shard among all of them.
pub(crate) fn key_place<J: Naming>(routes: &Routes<J>, view: usize, key: &Value) -> usize
    requires { view < length J.plan.views }
    ensures { slice_get (readers J.plan) result ≡ Some (record {
      view = view;
      shard = view_shard J.plan view (datum_of key.now);
    }) }
{
    let shard = key_shard(routes.plan(), view, key);
    shard_place(routes, view, shard)
}

// The place of a view shard among all of them.
fn shard_place<J: Naming>(routes: &Routes<J>, view: usize, shard: usize) -> usize
    requires view { view < length J.plan.views }
    requires shard { shard < (view_at J.plan view).shards }
    ensures { slice_get (readers J.plan) result ≡ Some (record {
      view = view;
      shard = shard;
    }) }
{
    match place_of(routes.readers(), view, shard) {
        Some(place) => place,
        None => unreachable!(),
    }
}
