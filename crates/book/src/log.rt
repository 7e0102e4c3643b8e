//! Logs: the right to append.
ghost use Rattle.std.specs.Prelude.{◌≡◌, ◌<◌, ◌≤◌, [], ◌∷◌, length, OnOk, IfErr};
ghost use Rattle.model.specs.{Entries.change_of, Histories.log_of, Legal.IsLegal, Places.base_count};
ghost use Rattle.book.specs.{Fronts.IsAppended, Fronts.IsMoved, Fronts.MayAppend, Pages.opens, Rights.empty_front};

use crate::book::Book;
use crate::front::Front;
use crate::law::{Law, LogPage, Naming};
use logbook::Seen;
use model::entry::Entry;
use std::marker::Model;

/// The right to append to the log of one base shard, with the front at which it appends. A book
/// hands out one for each base shard, and none can be copied: no entry comes into a log but by it.
pub struct Log<J: Naming> {
    front: Front<J>,
}

// What holds one drops it by this call, and need not know its parts.
impl<J: Naming> Drop for Log<J> {
    fn drop(self) {
        let Log { front: _ } = self;
    }
}

impl<J: Naming> Model for Log<J> {
    ghost use Rattle.book.specs.Fronts.{FrontView};

    ghost Value = { FrontView };

    ghost view = { λ l. l.front };
}

impl<J: Naming> Log<J> {
    /// The log of a base shard in a book with no item.
    pub(crate) fn first(base: usize, seen: Seen<LogPage, u64, Law>) -> Log<J>
        requires book { seen.book ≡ J.book }
        requires log { seen.log ≡ opens J.plan J.sessions ∷ [] }
        requires base { base < base_count J.plan }
        ensures { result ≡ empty_front base }
    {
        Log {
            front: Front::unread(base, seen),
        }
    }

    /// The number of its base shard.
    pub fn base(&self) -> usize
        ensures base { result ≡ self.now.base }
        ensures range { self.now.base < base_count J.plan }
    {
        self.front.base()
    }

    /// How many entries it has. What was seen is a legal history, whose log is no shorter.
    pub fn len(&self) -> u64
        ensures len { result ≡ self.now.len }
        ensures legal { IsLegal J.plan J.sessions self.now.seen }
        ensures within { self.now.len ≤ length (log_of self.now.base self.now.seen) }
    {
        self.front.len()
    }

    /// Its front, which only tells.
    pub fn front(&self) -> Front<J>
        ensures { result ≡ self.now }
    {
        self.front.again()
    }

    /// Adds an entry at the end of the log. Errors: where the log has moved; then a front comes
    /// that has seen so, and this log is as it was. Cost: one exchange of the base shard's word.
    pub fn append(
        &mut self,
        book: &Book<J>,
        session: u64,
        number: u64,
        entry: &Entry,
    ) -> Result<(), Front<J>>
        requires { MayAppend J.plan self.old session number (change_of entry.now) }
        ensures appended { OnOk result (IsAppended J.plan self.old session number
            (change_of entry.now) self.new) }
        ensures moved { IfErr result (λ f. (self.new ≡ self.old) × IsMoved self.old f) }
    {
        let mut front = self.front.again();
        let Ok(()) = front.append(book, session, number, entry) else {
            return Err(front);
        };
        self.front = front;
        Ok(())
    }
}
