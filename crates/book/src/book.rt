//! A book whose history stands in words that all threads share.
ghost use Rattle.std.specs.Prelude.{◌≡◌, ◌+◌, ◌<◌, ◌≤◌, ◌++◌, [], ◌∷◌, IfOk, OnOk, length, map};
ghost use Rattle.crossbeam_utils.specs.Padded.{padded_value};
ghost use Rattle.book.specs.{Pages.opens, Pages.words_of, Pages.word_named, Rights.empty_fronts, Rights.AreFresh, Words.most_words};
ghost use Rattle.model.specs.{Legal.most_sessions, Places.base_count};
ghost use Rattle.packet.specs.Readers.{readers, readers_of};

use crate::law::{Law, LogPage, Naming};
use crate::log::Log;
use crate::part::Part;
use crate::session::SessionWord;
use crate::view_copy::ViewCopy;
use crossbeam_utils::CachePadded;
use logbook::{Opening, Pens, Seen, Start, Word};
use model::places::base_count;
use plan::plan::Plan;
use std::alloc::{AllocError, Global};
use std::marker::{Model, PhantomData};

// The first page: the plan, and how many of the words are the sessions'.
struct First;

impl Opening<Plan, LogPage> for First {
    ghost use Rattle.std.specs.Prelude.{◌-◌, [], ◌∷◌};
    ghost use Rattle.book.specs.Pages.{opens};
    ghost use Rattle.model.specs.Places.{base_count};

    ghost log = { λ count plan. opens plan (count - base_count plan) ∷ [] };
}

/// A word was found to have moved: it has more items than the caller had counted. (No clause says
/// yet that none of them is the caller's own.)
#[derive(Drop)]
pub struct Moved;

/// A book with no item, which has no name yet.
#[derive(Drop)]
pub struct Opened {
    words: Vec<CachePadded<Word<LogPage, u64, Law>>>,
    bases: usize,
    sessions: usize,
    seen: Seen<LogPage, u64, Law>,
}

impl Model for Opened {
    ghost use Rattle.std.specs.Prelude.{◌≡◌, ◌+◌, ◌≤◌, [], ◌∷◌, map};
    ghost use Rattle.crossbeam_utils.specs.Padded.{padded_value};
    ghost use Rattle.book.specs.Pages.{Opened as OpenedView, opens, plan_on, words_of};
    ghost use Rattle.book.specs.Words.{most_words};
    ghost use Rattle.model.specs.Places.{base_count};

    ghost Value = { OpenedView };

    ghost view = { λ o. record {
      book = o.seen.book;
      plan = plan_on o.seen.log;
      sessions = o.sessions;
    } };

    ghost invariant = { λ o. (map padded_value o.words.items
        ≡ words_of o.seen.book (o.bases + o.sessions)) × (o.bases ≡ base_count (plan_on o.seen.log))
        × (o.bases + o.sessions ≤ most_words)
        × (o.seen.log ≡ opens (plan_on o.seen.log) o.sessions ∷ []) };
}

/// The words that all threads share: one for each base shard, then one for each session. Each has
/// its lines of the cache to itself, so that sessions do not slow each other.
pub struct Book<J: Naming> {
    words: Vec<CachePadded<Word<LogPage, u64, Law>>>,
    bases: usize,
    sessions: usize,
    of: PhantomData<J>,
}

// What holds one drops it by this call, and need not know its parts.
impl<J: Naming> Drop for Book<J> {
    fn drop(self) {
        let Book {
            words: _,
            bases: _,
            sessions: _,
            of: _,
        } = self;
    }
}

impl<J: Naming> Model for Book<J> {
    ghost use Rattle.std.specs.Prelude.{◌≡◌, ◌+◌, ◌≤◌, ℕ, map};
    ghost use Rattle.crossbeam_utils.specs.Padded.{padded_value};
    ghost use Rattle.book.specs.Pages.{words_of};
    ghost use Rattle.book.specs.Words.{most_words};
    ghost use Rattle.model.specs.Places.{base_count};

    ghost Value = { ℕ };

    ghost view = { λ b. b.bases + b.sessions };

    ghost invariant = { λ b. (map padded_value b.words.items
        ≡ words_of J.book (b.bases + b.sessions)) × (b.bases ≡ base_count J.plan)
        × (b.bases + b.sessions ≤ most_words) × (b.sessions ≡ J.sessions) };
}

/// What a book hands out, once: itself, which all share; what was seen at its start; the right to
/// append to the log of each base shard; the word of each session; and the right to open the shown
/// copy of each shard of each view.
#[derive(Drop)]
pub struct Rights<J: Naming> {
    /// The book.
    pub book: Book<J>,
    /// What was seen at its start: nothing.
    pub start: Part<J>,
    /// The log of each base shard, in order.
    pub logs: Vec<Log<J>>,
    /// The word of each session, in order.
    pub words: Vec<SessionWord<J>>,
    /// The right to open each shown copy, view by view.
    pub copies: Vec<ViewCopy<J>>,
}

impl Opened {
    /// A book of this plan for this many sessions, at most 16. Errors: memory only. Cost: linear in
    /// the base shards, the sessions and the shards of all views.
    pub fn new(alloc: Global, plan: &Plan, sessions: usize) -> Result<Opened, AllocError>
        requires few { sessions ≤ most_sessions }
        ensures { IfOk result (λ o. (o.plan ≡ plan.now) × (o.sessions ≡ sessions)) }
    {
        let bases = base_count(plan);
        let count = bases + sessions;
        let (seen, mut pens) = Seen::open_row::<Plan, First>(plan, Start::alone(), count);
        let words = words(alloc, &mut pens, count)?;
        Ok(Opened {
            words,
            bases,
            sessions,
            seen,
        })
    }

    /// The book under a name, with the log of each base shard, the word of each session and the
    /// right to open each shown copy. There are no others: this is the one place that makes them.
    /// Errors: memory only.
    pub fn named<J: Naming>(self, alloc: Global, plan: &Plan) -> Result<Rights<J>, AllocError>
        requires book { self.book ≡ J.book }
        requires plan { (self.plan ≡ J.plan) × (plan.now ≡ J.plan) }
        requires sessions { self.sessions ≡ J.sessions }
        ensures start { IfOk result (λ r. r.start ≡ []) }
        ensures logs { IfOk result (λ r. r.logs.items ≡ empty_fronts (base_count J.plan)) }
        ensures words { IfOk result (λ r. AreFresh 0 r.words.items) }
        ensures count { IfOk result (λ r. length r.words.items ≡ J.sessions) }
        ensures copies { IfOk result (λ r. r.copies.items ≡ readers J.plan) }
    {
        let Opened {
            words,
            bases,
            sessions,
            seen,
        } = self;
        let logs = first_logs(alloc, bases, &seen)?;
        let own = first_words(alloc, plan, sessions, &seen)?;
        let copies = first_copies(alloc, plan)?;
        Ok(Rights {
            book: Book {
                words,
                bases,
                sessions,
                of: PhantomData,
            },
            start: Part::of(&seen),
            logs,
            words: own,
            copies,
        })
    }
}

// A log for each base shard.
fn first_logs<J: Naming>(
    alloc: Global,
    bases: usize,
    seen: &Seen<LogPage, u64, Law>,
) -> Result<Vec<Log<J>>, AllocError>
    requires book { seen.now.book ≡ J.book }
    requires log { seen.now.log ≡ opens J.plan J.sessions ∷ [] }
    requires bases { bases ≡ base_count J.plan }
    ensures { IfOk result (λ v. v.items ≡ empty_fronts bases) }
{
    let mut logs = Vec::new(alloc);
    for base in 0..bases {
        logs.push(Log::first(base, seen.again()))?;
    }
    Ok(logs)
}

// A word for each session.
fn first_words<J: Naming>(
    alloc: Global,
    plan: &Plan,
    sessions: usize,
    seen: &Seen<LogPage, u64, Law>,
) -> Result<Vec<SessionWord<J>>, AllocError>
    requires plan { plan.now ≡ J.plan }
    requires book { seen.now.book ≡ J.book }
    requires log { seen.now.log ≡ opens J.plan J.sessions ∷ [] }
    requires sessions { sessions ≡ J.sessions }
    ensures words { IfOk result (λ v. AreFresh 0 v.items) }
    ensures count { IfOk result (λ v. length v.items ≡ sessions) }
{
    let mut words = Vec::new(alloc);
    for number in 0..sessions {
        words.push(SessionWord::first(alloc, plan, number, seen)?)?;
    }
    Ok(words)
}

// The right to open the shown copy of each shard of each view.
fn first_copies<J: Naming>(alloc: Global, plan: &Plan) -> Result<Vec<ViewCopy<J>>, AllocError>
    ensures { IfOk result (λ v. v.items ≡ readers plan.now) }
{
    let mut copies = Vec::new(alloc);
    for view in 0..plan.views() {
        push_copies(&mut copies, plan, view)?;
    }
    Ok(copies)
}

// Puts the rights for the shards of a view behind the others.
fn push_copies<J: Naming>(
    copies: &mut Vec<ViewCopy<J>>,
    plan: &Plan,
    view: usize,
) -> Result<(), AllocError>
    requires { view < length plan.now.views }
    ensures { OnOk result (copies.new.items ≡ copies.old.items ++ readers_of plan.now view) }
{
    for shard in 0..plan.view(view).shards() {
        copies.push(ViewCopy::first(view, shard))?;
    }
    Ok(())
}

fn words(
    alloc: Global,
    pens: &mut Pens,
    count: usize,
) -> Result<Vec<CachePadded<Word<LogPage, u64, Law>>>, AllocError>
    requires next { pens.old.next ≡ 0 }
    requires left { pens.old.left ≡ count }
    ensures { IfOk result (λ v. map padded_value v.items ≡ words_of pens.old.book count) }
{
    let mut words = Vec::new(alloc);
    for _key in 0..count {
        let mut pen = pens.take();
        words.push(CachePadded::new(Word::tracked(0, &mut pen)))?;
    }
    Ok(words)
}

impl<J: Naming> Book<J> {
    /// How many base shards there are.
    pub fn bases(&self) -> usize
        ensures bases { result ≡ base_count J.plan }
        ensures few { base_count J.plan + J.sessions ≤ most_words }
    {
        self.bases
    }

    // The word of this number.
    pub(crate) fn word(&self, key: usize) -> &Word<LogPage, u64, Law>
        requires { key < base_count J.plan + J.sessions }
        ensures { result.now ≡ word_named J.book key }
    {
        &self.words[key]
    }
}
