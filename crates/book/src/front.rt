//! Fronts: what is known of one log.
ghost use Rattle.std.specs.Prelude.{◌≡◌, ◌+◌, ◌<◌, ◌≤◌, length, OnErr, OnOk};
ghost use mathlib.Core.List.{IsPrefix};
ghost use Rattle.model.specs.{Entries.change_of, Histories.log_of, Legal.IsLegal, Places.base_count};
ghost use Rattle.book.specs.{Fronts.FrontView, Fronts.entries, Fronts.authors, Fronts.IsAppended, Fronts.IsMoved, Fronts.MayAppend, Pages.IsLogOf, Pages.history_of};

use crate::book::{Book, Moved};
use crate::law::{Add, Law, LogPage, Naming};
use crate::log::Log;
use crate::part::Part;
use crate::step::{learn, look_at, try_add};
use logbook::{Plain, Seen};
use model::entry::Entry;
use model::fronts::{Found, Fronts};
use std::alloc::{AllocError, Global};
use std::marker::{Model, PhantomData};

/// A beginning of the log of one base shard, and the history that was seen with it. It only tells;
/// what appends is a `Log`. A copy takes no memory.
#[derive(Drop)]
pub struct Front<J: Naming> {
    pub(crate) of: PhantomData<J>,
    pub(crate) base: usize,
    pub(crate) len: u64,
    pub(crate) seen: Seen<LogPage, u64, Law>,
}

impl<J: Naming> Model for Front<J> {
    ghost use Rattle.std.specs.Prelude.{◌≡◌};
    ghost use Rattle.book.specs.{Fronts.FrontView, Fronts.IsFront, Pages.IsLogOf, Pages.history_of};

    ghost Value = { FrontView };

    ghost view = { λ f. record { base = f.base; len = f.len; seen = history_of f.seen.log } };

    ghost invariant = { λ f. (f.seen.book ≡ J.book) × IsLogOf J.plan J.sessions f.seen.log
        × IsFront J.plan (record { base = f.base; len = f.len; seen = history_of f.seen.log }) };
}

/// What an append asks for.
#[derive(Drop)]
pub struct Writing<'a> {
    session: u64,
    number: u64,
    base: usize,
    entry: &'a Entry,
}

impl<'a> Plain<Writing<'a>, LogPage, u64> for Add {
    ghost use Rattle.std.specs.Prelude.{None};
    ghost use Rattle.model.specs.{Histories.write, Entries.change_of};
    ghost use Rattle.book.specs.Pages.{adds};

    ghost ask = { λ w. adds (write w.session w.number w.base (change_of w.entry.now)) };

    ghost state = { λ w. None };
}

impl<J: Naming> Front<J> {
    /// The empty front of a base shard, with what was seen.
    pub(crate) fn unread(base: usize, seen: Seen<LogPage, u64, Law>) -> Front<J>
        requires book { seen.book ≡ J.book }
        requires log { IsLogOf J.plan J.sessions seen.log }
        requires base { base < base_count J.plan }
        ensures { result ≡ record { base = base; len = 0; seen = history_of seen.log } }
    {
        Front {
            base,
            len: 0,
            seen,
            of: PhantomData,
        }
    }

    /// The number of its base shard.
    pub fn base(&self) -> usize
        ensures base { result ≡ self.now.base }
        ensures range { self.now.base < base_count J.plan }
    {
        self.base
    }

    /// All that was seen with it.
    pub fn part(&self) -> Part<J>
        ensures part { result ≡ self.now.seen }
    {
        Part::of(&self.seen)
    }

    /// How many entries it has. What was seen is a legal history, whose log is no shorter.
    pub fn len(&self) -> u64
        ensures len { result ≡ self.now.len }
        ensures legal { IsLegal J.plan J.sessions self.now.seen }
        ensures within { self.now.len ≤ length (log_of self.now.base self.now.seen) }
    {
        self.len
    }

    /// A copy, which takes no memory.
    pub fn again(&self) -> Front<J>
        ensures { result ≡ self.now }
    {
        Front {
            base: self.base,
            len: self.len,
            seen: self.seen.again(),
            of: PhantomData,
        }
    }

    /// Sees the log as it is, and says how long it is. The front stays.
    pub fn look(&mut self, book: &Book<J>) -> u64
        ensures stays { self.new ≡ record self.old { seen = self.new.seen } }
        ensures seen { IsPrefix self.old.seen self.new.seen }
        ensures entries { entries self.new ≡ entries self.old }
        ensures authors { authors self.new ≡ authors self.old }
        ensures found { result ≡ length (log_of self.new.base self.new.seen) }
    {
        look_at(book, self.base, &mut self.seen)
    }

    /// Adds an entry at the end of the log. Errors: where the log was seen to have moved; then the
    /// front stays. Cost: one exchange of the base shard's word.
    pub(crate) fn append(
        &mut self,
        book: &Book<J>,
        session: u64,
        number: u64,
        entry: &Entry,
    ) -> Result<(), Moved>
        requires { MayAppend J.plan self.old session number (change_of entry.now) }
        ensures appended { OnOk result (IsAppended J.plan self.old session number
            (change_of entry.now) self.new) }
        ensures moved { OnErr result (IsMoved self.old self.new) }
    {
        let asked = Writing {
            session,
            number,
            base: self.base,
            entry,
        };
        let len = self.len;
        try_add::<J, Writing, Add>(book, self.base, len, &mut self.seen, &asked)?;
        self.len = len + 1;
        Ok(())
    }
}

impl<J: Naming> Fronts for Front<J> {
    ghost use Rattle.std.specs.Prelude.{◌≡◌};
    ghost use Rattle.book.specs.{Fronts.entries, Fronts.authors, Replies.IsWhole};

    type Words = Book<J>;

    type Right = Log<J>;

    ghost log = { λ f. record { plan = J.plan; base = f.base; entries = entries f } };

    ghost authors = { λ f. authors f };

    ghost are_one = { λ a b. (a.plan ≡ b.plan) × (a.base ≡ b.base) };

    ghost is_all = { λ f. IsWhole f };

    ghost front = { λ l. l };

    ghost may_refuse = { ⊥ };

    fn base(&self) -> usize {
        Front::base(self)
    }

    fn len(&self) -> u64 {
        Front::len(self)
    }

    fn is_log(&self) {
        let _base = Front::base(self);
        let _len = Front::len(self);
    }

    fn try_clone(&self, alloc: Global) -> Result<Front<J>, AllocError> {
        Ok(Front::again(self))
    }

    fn of(right: &Log<J>, alloc: Global) -> Result<Front<J>, AllocError> {
        Ok(right.front())
    }

    fn append(
        right: &mut Log<J>,
        alloc: Global,
        words: &Book<J>,
        session: usize,
        number: u64,
        entry: &Entry,
    ) -> Result<Found<Front<J>>, AllocError> {
        let _len = right.len();
        match right.append(words, session as u64, number, entry) {
            Ok(()) => Ok(Found::Here),
            Err(mut front) => {
                front.catch_up(words);
                Ok(Found::Moved(front))
            }
        }
    }

    fn look(&mut self, alloc: Global, words: &Book<J>) -> Result<Found<Front<J>>, AllocError> {
        let _len = Front::len(self);
        let found = Front::look(self, words);
        if found == Front::len(self) {
            Ok(Found::Here)
        } else {
            let mut front = Front::again(self);
            front.catch_up(words);
            Ok(Found::Moved(front))
        }
    }

    fn meet(&self, other: &Front<J>) {
        let mut mine = self.part();
        let mut theirs = other.part();
        mine.meet(&mut theirs);
        let _len = Front::len(self);
        let _other = Front::len(other);
    }
}
