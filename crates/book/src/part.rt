//! What a caller has seen.
ghost use Rattle.std.specs.Prelude.{◌≡◌, ◌<◌, ◌⊎◌};
ghost use mathlib.Core.List.{IsPrefix};
ghost use Rattle.model.specs.{Legal.IsLegal, Places.base_count};
ghost use Rattle.book.specs.Pages.{IsLogOf, history_of};

use crate::front::Front;
use crate::law::{Law, LogPage, Naming};
use crate::step::learn;
use logbook::Seen;
use std::marker::{Model, PhantomData};

/// What a session has seen, as the longer of two parts.
#[derive(Drop)]
pub struct Part<J: Naming> {
    pub(crate) first: Seen<LogPage, u64, Law>,
    pub(crate) second: Seen<LogPage, u64, Law>,
    pub(crate) of: PhantomData<J>,
}

impl<J: Naming> Model for Part<J> {
    ghost use Rattle.std.specs.Prelude.{◌≡◌, ◌⊎◌, List};
    ghost use mathlib.Core.List.{IsPrefix};
    ghost use Rattle.model.specs.Histories.{Item};
    ghost use Rattle.book.specs.{Pages.IsLogOf, Pages.history_of, Replies.longer};

    ghost Value = { List Item };

    ghost view = { λ x. longer (history_of x.first.log) (history_of x.second.log) };

    ghost invariant = { λ x. (x.first.book ≡ J.book) × (x.second.book ≡ J.book)
        × IsLogOf J.plan J.sessions x.first.log × IsLogOf J.plan J.sessions x.second.log };
}

impl<J: Naming> Part<J> {
    /// What this token has seen.
    pub(crate) fn of(seen: &Seen<LogPage, u64, Law>) -> Part<J>
        requires book { seen.now.book ≡ J.book }
        requires log { IsLogOf J.plan J.sessions seen.now.log }
        ensures part { result ≡ history_of seen.now.log }
    {
        Part {
            first: seen.again(),
            second: seen.again(),
            of: PhantomData,
        }
    }

    /// What was seen is a legal history. This is no step of the run.
    pub fn is_legal(&self)
        ensures legal { IsLegal J.plan J.sessions self.now }
    {
        let _first = &self.first;
    }

    /// A copy.
    pub fn again(&self) -> Part<J>
        ensures copy { result ≡ self.now }
    {
        Part {
            first: self.first.again(),
            second: self.second.again(),
            of: PhantomData,
        }
    }

    /// The empty front of a base shard, which has seen no less than this.
    pub fn front(&self, base: usize) -> Front<J>
        requires base { base < base_count J.plan }
        ensures base { result.base ≡ base }
        ensures len { result.len ≡ 0 }
        ensures seen { IsPrefix self.now result.seen }
    {
        Front::unread(base, self.whole())
    }

    // A token that has seen no less than this.
    pub(crate) fn whole(&self) -> Seen<LogPage, u64, Law>
        ensures book { result.book ≡ J.book }
        ensures log { IsLogOf J.plan J.sessions result.log }
        ensures seen { IsPrefix self.now (history_of result.log) }
    {
        let mut seen = self.first.again();
        learn::<J>(&mut seen, &self.second);
        seen
    }

    /// Of two parts one begins the other. Afterwards both are one part, which is no less than
    /// either was.
    pub fn meet(&mut self, other: &mut Part<J>)
        ensures one { IsPrefix self.old other.old ⊎ IsPrefix other.old self.old }
        ensures both { self.new ≡ other.new }
        ensures this { IsPrefix self.old self.new }
        ensures that { IsPrefix other.old other.new }
    {
        let mut seen = self.whole();
        learn::<J>(&mut seen, &other.first);
        learn::<J>(&mut seen, &other.second);
        *self = Part::of(&seen);
        *other = Part::of(&seen);
    }
}
