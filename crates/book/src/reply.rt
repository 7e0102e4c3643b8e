//! What a session knows from the front of a reply.
ghost use Rattle.std.specs.Prelude.{◌≡◌, ◌<◌, ◌≤◌, MatchBool, IfSome, IsSome, IsTrue};
ghost use mathlib.Core.List.{IsPrefix};
ghost use Rattle.book.specs.Replies.{HasLogOf, IsPlaced, IsWhole};

use crate::book::Book;
use crate::front::Front;
use crate::law::Naming;
use crate::part::Part;
use crate::step::{learn, look_at};
use std::marker::PhantomData;

impl<J: Naming> Front<J> {
    /// Sees the log as it is, and takes all of it.
    pub fn catch_up(&mut self, book: &Book<J>)
        ensures stays { self.new ≡ record self.old { len = self.new.len; seen = self.new.seen } }
        ensures seen { IsPrefix self.old.seen self.new.seen }
        ensures whole { IsWhole self.new }
    {
        self.len = look_at(book, self.base, &mut self.seen);
    }

    /// Takes the front that a reply shows, to a write that was sent after this front had all that
    /// was seen: the entry at the reply's place then stands after all of that. It is not the reply
    /// where its place was seen before; then this front stays.
    pub fn settle(&mut self, other: &Front<J>, index: u64) -> bool
        requires whole { IsWhole self.old }
        requires base { self.old.base ≡ other.now.base }
        ensures stays { self.new ≡ record self.old { seen = self.new.seen } }
        ensures sure { self.old.len ≤ index → IsTrue result }
        ensures told { MatchBool result (IsPlaced self.old.seen other.now index self.new.seen)
            (self.new ≡ self.old) }
    {
        if index < self.len {
            return false;
        }
        learn::<J>(&mut self.seen, &other.seen);
        true
    }

    /// Takes the front that decided a refusal. What has then been seen has that very log, entry for
    /// entry and author for author.
    pub fn adopt(self, other: Front<J>) -> Option<Part<J>>
        requires whole { IsWhole self }
        requires other { IsWhole other }
        requires base { self.base ≡ other.base }
        ensures sure { self.len ≤ other.len → IsSome result }
        ensures seen { IfSome result (λ p. IsPrefix self.seen p × IsPrefix other.seen p) }
        ensures told { IfSome result (λ p. HasLogOf other p) }
    {
        if other.len < self.len {
            return None;
        }
        let mut both = self.seen.again();
        learn::<J>(&mut both, &other.seen);
        let Front {
            base: _,
            len: _,
            seen: first,
            of: _,
        } = self;
        let Front {
            base: _,
            len: _,
            seen: second,
            of: _,
        } = other;
        Some(Part {
            first,
            second,
            of: PhantomData,
        })
    }
}
