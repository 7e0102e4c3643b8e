//! Fronts over plain lists, for runs with no words that threads share.
ghost use Rattle.std.specs.Prelude.{◌≡◌, ◌<◌, ◌+◌, [], length, IfOk};
ghost use Rattle.model.specs.{Fronts.IsLog, Fronts.Agree, Lists.ListView, Lists.changes_of, Lists.authors_of, Places.base_count};

use crate::blocks::Blocks;
use crate::entry::Entry;
use crate::fronts::{Found, Fronts};
use plan::plan::Plan;
use std::alloc::{AllocError, Global};
use std::marker::Model;

/// An entry of a log, and its author.
#[derive(Drop)]
pub struct Logged {
    pub session: usize,
    pub number: u64,
    pub entry: Entry,
}

/// A front that has its list of entries. Copies share it, and take no memory. Of its log it knows
/// that list alone, so no word is ever seen to have moved.
pub struct ListFront<'p> {
    plan: &'p Plan,
    base: usize,
    len: u64,
    entries: Blocks<Logged>,
}

// What holds one drops it by this call, and need not know its parts.
impl Drop for ListFront<'_> {
    fn drop(self) {
        let ListFront {
            plan: _,
            base: _,
            len: _,
            entries: _,
        } = self;
    }
}

impl<'p> Model for ListFront<'p> {
    ghost use Rattle.std.specs.Prelude.{◌≡◌, length};
    ghost use Rattle.model.specs.{Fronts.IsLog, Lists.ListView, Lists.changes_of, Lists.authors_of};

    ghost Value = { ListView };

    ghost view = { λ f. record {
      log = record {
        plan = f.plan.now;
        base = f.base;
        entries = changes_of f.entries;
      };
      authors = authors_of f.entries;
    } };

    ghost invariant = { λ f. (f.len ≡ length f.entries) × IsLog (record {
      plan = f.plan.now;
      base = f.base;
      entries = changes_of f.entries;
    }) };
}

/// The right to append to a list. An append costs a place for at most 64 entries, and each 64th one
/// also a place for each 64 entries of the list.
pub struct ListRight<'p> {
    front: ListFront<'p>,
}

// What holds one drops it by this call, and need not know its parts.
impl Drop for ListRight<'_> {
    fn drop(self) {
        let ListRight { front: _ } = self;
    }
}

impl<'p> Model for ListRight<'p> {
    ghost use Rattle.model.specs.Lists.{ListView};

    ghost Value = { ListView };

    ghost view = { λ r. r.front };
}

impl<'p> ListRight<'p> {
    /// The right to append to the empty log of a base shard of the plan. Errors: memory only.
    pub fn new(alloc: Global, plan: &'p Plan, base: usize) -> Result<ListRight<'p>, AllocError>
        requires { base < base_count plan.now }
        ensures { IfOk result (λ r. r ≡ record {
          log = record { plan = plan.now; base = base; entries = [] };
          authors = [];
        }) }
    {
        let front = ListFront {
            plan,
            base,
            len: 0,
            entries: Blocks::new(alloc)?,
        };
        Ok(ListRight { front })
    }
}

impl<'p> ListFront<'p> {
    // The same front. It takes no memory, and shares the entries.
    fn shared(&self) -> Result<ListFront<'p>, AllocError>
        ensures { IfOk result (λ f. f ≡ self.now) }
    {
        Ok(ListFront {
            plan: self.plan,
            base: self.base,
            len: self.len,
            entries: self.entries.shared()?,
        })
    }
}

impl<'p> Fronts for ListFront<'p> {
    ghost use Rattle.model.specs.Fronts.{Agree};

    type Words = ();

    type Right = ListRight<'p>;

    ghost log = { λ f. f.log };

    ghost authors = { λ f. f.authors };

    ghost are_one = { λ a b. Agree a.entries b.entries };

    ghost is_all = { λ f. Unit {0} };

    ghost front = { λ r. r };

    ghost may_refuse = { Unit {0} };

    fn base(&self) -> usize {
        self.base
    }

    fn len(&self) -> u64 {
        self.len
    }

    fn is_log(&self) {
        let _len = self.len;
    }

    fn try_clone(&self, alloc: Global) -> Result<ListFront<'p>, AllocError> {
        self.shared()
    }

    fn of(right: &ListRight<'p>, alloc: Global) -> Result<ListFront<'p>, AllocError> {
        right.front.shared()
    }

    fn append(
        right: &mut ListRight<'p>,
        alloc: Global,
        words: &(),
        session: usize,
        number: u64,
        entry: &Entry,
    ) -> Result<Found<ListFront<'p>>, AllocError> {
        let entry = entry.try_clone(alloc)?;
        let logged = Logged {
            session,
            number,
            entry,
        };
        let entries = right.front.entries.with(alloc, logged)?;
        let front = ListFront {
            plan: right.front.plan,
            base: right.front.base,
            len: right.front.len + 1,
            entries,
        };
        right.front = front;
        Ok(Found::Here)
    }

    fn look(&mut self, alloc: Global, words: &()) -> Result<Found<ListFront<'p>>, AllocError> {
        Ok(Found::Here)
    }

    fn meet(&self, other: &ListFront<'p>) {}
}
