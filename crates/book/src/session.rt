//! The word of a session.
ghost use Rattle.std.specs.Prelude.{◌≡◌, ◌+◌, ◌<◌, ◌^◌, length, map, None, OnErr, OnOk, IfOk, ℕ, []};
ghost use mathlib.Core.List.{IsPrefix};
ghost use Rattle.row.specs.{Bags.Each, Cells.datum_of};
ghost use Rattle.plan.specs.Layouts.{view_at};
ghost use Rattle.model.specs.{Cuts.IsAtMost, Histories.floor_at, Histories.view_shard, Legal.IsOwn, Legal.IsPast, Legal.IsLegal, Legal.EachShard, Queries.answer as answer_of, Tables.HasRoom, Tables.places_of};
ghost use Rattle.book.specs.{Pages.IsLogOf, Pages.history_of, Sessions.fronts, Sessions.IsEnded, Sessions.IsOwnAsk, Sessions.IsOwnDone, Sessions.IsRead, Sessions.IsStolen};

use crate::book::{Book, Moved};
use crate::cut::{Cut, Cuts};
use crate::law::{Add, Law, LogPage, Naming};
use crate::part::Part;
use crate::step::{learn, try_add};
use key_rows::answer_rows::AnswerRows;
use logbook::{Plain, Seen};
use model::floors::Floors;
use model::lengths::Lengths;
use model::place::Place;
use plan::plan::Plan;
use row::value::Value;
use std::alloc::{AllocError, Global};
use std::marker::{Model, PhantomData};

/// A session: how often it has answered, its floors, and what it has seen.
pub struct SessionWord<J: Naming> {
    number: usize,
    answered: u64,
    floors: Floors,
    seen: Seen<LogPage, u64, Law>,
    of: PhantomData<J>,
}

// What holds one drops it by this call, and need not know its parts.
impl<J: Naming> Drop for SessionWord<J> {
    fn drop(self) {
        let SessionWord {
            number: _,
            answered: _,
            floors: _,
            seen: _,
            of: _,
        } = self;
    }
}

impl<J: Naming> Model for SessionWord<J> {
    ghost use Rattle.std.specs.Prelude.{◌≡◌};
    ghost use Rattle.book.specs.{Pages.IsLogOf, Pages.history_of, Sessions.SessionView, Sessions.IsSession, Sessions.session_with};

    ghost Value = { SessionView };

    ghost view = { λ x. session_with x.number x.answered x.floors (history_of x.seen.log) };

    ghost invariant = { λ x. (x.seen.book ≡ J.book) × IsLogOf J.plan J.sessions x.seen.log
        × IsSession J.plan J.sessions
        (session_with x.number x.answered x.floors (history_of x.seen.log)) };
}

/// What an answer asks for.
#[derive(Drop)]
pub struct Reading<'a> {
    session: usize,
    view: usize,
    cut: &'a Lengths,
    key: &'a Value,
    rows: &'a AnswerRows,
}

impl<'a> Plain<Reading<'a>, LogPage, u64> for Add {
    ghost use Rattle.std.specs.Prelude.{None};
    ghost use Rattle.model.specs.Histories.{read};
    ghost use Rattle.book.specs.Pages.{adds};
    ghost use Rattle.row.specs.Cells.{datum_of};

    ghost ask = { λ r. adds (read r.session r.view (datum_of r.key.now) r.rows.now
        r.cut.now) };

    ghost state = { λ r. None };
}

/// What a fence asks for.
#[derive(Drop)]
pub struct Fencing<'a> {
    own: &'a Vec<Place>,
    floors: &'a Floors,
    session: usize,
}

impl<'a> Plain<Fencing<'a>, LogPage, u64> for Add {
    ghost use Rattle.std.specs.Prelude.{None};
    ghost use Rattle.model.specs.{Histories.fence, Tables.places_of};
    ghost use Rattle.book.specs.Pages.{adds};

    ghost ask = { λ f. adds (fence f.session (places_of f.own.now.items) f.floors.now) };

    ghost state = { λ f. None };
}

impl<J: Naming> SessionWord<J> {
    /// A session that has answered nothing, and has seen what the token has. Errors: memory only.
    pub(crate) fn first(
        alloc: Global,
        plan: &Plan,
        number: usize,
        seen: &Seen<LogPage, u64, Law>,
    ) -> Result<SessionWord<J>, AllocError>
        requires plan { plan.now ≡ J.plan }
        requires number { number < J.sessions }
        requires book { seen.now.book ≡ J.book }
        requires log { IsLogOf J.plan J.sessions seen.now.log }
        ensures { IfOk result (λ s. (s.session ≡ number) × (s.answered ≡ 0)
            × (s.seen ≡ history_of seen.now.log) × ((v j : ℕ) → floor_at s.floors v j ≡ [])) }
    {
        let floors = Floors::zeros(alloc, plan)?;
        Ok(SessionWord {
            number,
            answered: 0,
            floors,
            seen: seen.again(),
            of: PhantomData,
        })
    }

    /// All that it has seen.
    pub fn part(&self) -> Part<J>
        ensures part { result ≡ self.now.seen }
        ensures legal { IsLegal J.plan J.sessions self.now.seen }
    {
        Part::of(&self.seen)
    }

    /// Sees what the part has, too.
    pub fn learn(&mut self, part: &Part<J>)
        ensures seen { IsPrefix self.old.seen self.new.seen }
        ensures others { IsPrefix part.now self.new.seen }
        ensures stays { self.new ≡ record self.old { seen = self.new.seen } }
    {
        learn::<J>(&mut self.seen, &part.whole());
    }

    /// The number of the session.
    pub fn number(&self) -> usize
        ensures session { result ≡ self.now.session }
    {
        self.number
    }

    // Adds what is asked for to the session's word. The caller then counts the answer and sets the
    // floors.
    fn add<X, M: Plain<X, LogPage, u64>>(&mut self, book: &Book<J>, asked: &X) -> Result<(), Moved>
        requires ask { IsOwnAsk J.plan J.sessions self.old (M.ask asked.now) }
        requires fresh { M.state asked.now ≡ None }
        requires room { self.old.answered + 1 < 2 ^ 64 }
        ensures stays { self.new ≡ record self.old { seen = self.new.seen } }
        ensures grown { IsPrefix self.old.seen self.new.seen }
        ensures done { OnOk result (IsOwnDone J.plan self.old (M.ask asked.now) self.new.seen) }
        ensures stolen { OnErr result (IsStolen J.plan self.old self.new) }
    {
        let word = book.bases() + self.number;
        try_add::<J, X, M>(book, word, self.answered, &mut self.seen, asked)
    }

    /// Room for a cut as the floor at a shard of a view: none where the floor has as many lengths for
    /// each stage shard, which can be overwritten, else a copy of the cut. Errors: memory only.
    pub fn room_for(
        &self,
        alloc: Global,
        view: usize,
        shard: usize,
        cut: &Lengths,
    ) -> Result<Option<Lengths>, AllocError>
        requires view { view < length J.plan.views }
        requires within { shard < (view_at J.plan view).shards }
        ensures room { IfOk result (HasRoom (floor_at self.now.floors view shard) cut.now) }
        ensures in_place { map length (floor_at self.now.floors view shard) ≡ map length cut.now →
            IfOk result (λ r. r ≡ None) }
    {
        self.floors.room_for(alloc, view, shard, cut)
    }

    /// Answers a read over a cut, which is then the floor there, in the room that there is for it.
    /// Errors: where the session's word was seen to have moved; then its floors and its count stay.
    /// Takes no memory. Cost: one exchange of the session's word, and a copy of the cut.
    pub fn answer(
        &mut self,
        book: &Book<J>,
        view: usize,
        shard: usize,
        key: &Value,
        rows: &AnswerRows,
        cut: &Cut<J>,
        room: Option<Lengths>,
    ) -> Result<(), Moved>
        requires view { view < length J.plan.views }
        requires shard { shard ≡ view_shard J.plan view (datum_of key.now) }
        requires within { shard < (view_at J.plan view).shards }
        requires floor { IsAtMost (floor_at self.old.floors view shard) cut.now.lengths }
        requires rows { rows.now ≡ answer_of J.plan (fronts J.plan cut.now) view
            (datum_of key.now) }
        requires room { HasRoom (floor_at self.old.floors view shard) cut.now.lengths room }
        requires answers { self.old.answered + 1 < 2 ^ 64 }
        ensures others { IsPrefix cut.now.seen self.new.seen }
        ensures answered { OnOk result (IsRead J.plan self.old view shard (datum_of key.now)
            rows.now cut.now.lengths self.new) }
        ensures stolen { OnErr result (IsStolen J.plan self.old self.new) }
    {
        learn::<J>(&mut self.seen, &cut.seen);
        let asked = Reading {
            session: self.number,
            view,
            key,
            rows,
            cut: &cut.lengths,
        };
        self.add::<Reading, Add>(book, &asked)?;
        self.answered += 1;
        self.floors.copy(view, shard, &cut.lengths, room);
        Ok(())
    }

    /// Ends a fence with a cut for each shard of each view. Errors: where the session's word was
    /// seen to have moved; then its floors and its count stay. Cost: one exchange of its word.
    pub fn fence(&mut self, book: &Book<J>, own: &Vec<Place>, cuts: Cuts<J>) -> Result<(), Moved>
        requires floors { EachShard J.plan (λ v j. IsAtMost (floor_at self.old.floors v j)
            (floor_at cuts.floors v j)) }
        requires past { EachShard J.plan (λ v j. Each (IsPast J.plan (floor_at cuts.floors v j))
            (places_of own.now.items)) }
        requires own { Each (IsOwn J.plan self.old.seen self.old.session)
            (places_of own.now.items) }
        requires room { self.old.answered + 1 < 2 ^ 64 }
        ensures others { IsPrefix cuts.seen self.new.seen }
        ensures fenced { OnOk result (IsEnded J.plan self.old (places_of own.now.items) cuts.floors
            self.new) }
        ensures stolen { OnErr result (IsStolen J.plan self.old self.new) }
    {
        learn::<J>(&mut self.seen, &cuts.seen);
        let asked = Fencing {
            session: self.number,
            own,
            floors: &cuts.floors,
        };
        self.add::<Fencing, Add>(book, &asked)?;
        self.answered += 1;
        self.floors = cuts.floors;
        Ok(())
    }
}
