//! The three kinds of step on a shared book.
ghost use Rattle.std.specs.Prelude.{◌≡◌, ◌+◌, ◌<◌, ◌^◌, None, OnErr, OnOk};
ghost use mathlib.Core.List.{IsPrefix};
ghost use Rattle.book.specs.{Pages.IsLogOf, Pages.IsAsk, Pages.IsDone, Pages.history_of, Words.count_at};
ghost use Rattle.model.specs.Places.{base_count};

use crate::book::{Book, Moved};
use crate::law::{Add, Law, LogPage, Look, Naming, Nothing};
use logbook::{Offer, Plain, Seen};

/// One exchange on one word: it adds the item that is asked for, or finds that the word has moved.
pub(crate) fn try_add<J: Naming, X, M: Plain<X, LogPage, u64>>(
    book: &Book<J>,
    key: usize,
    old: u64,
    seen: &mut Seen<LogPage, u64, Law>,
    asked: &X,
) -> Result<(), Moved>
    requires book { seen.old.book ≡ J.book }
    requires of { IsLogOf J.plan J.sessions seen.old.log }
    requires ask { IsAsk J.plan J.sessions key old (history_of seen.old.log) (M.ask asked.now) }
    requires fresh { M.state asked.now ≡ None }
    requires room { old + 1 < 2 ^ 64 }
    ensures book { seen.new.book ≡ J.book }
    ensures of { IsLogOf J.plan J.sessions seen.new.log }
    ensures grown { IsPrefix seen.old.log seen.new.log }
    ensures done { OnOk result (IsDone J.plan key old (M.ask asked.now) (history_of seen.old.log)
        (history_of seen.new.log)) }
    ensures moved { OnErr result (old < count_at J.plan key (history_of seen.new.log)) }
{
    let mut offer: Offer<LogPage, u64, Law, Nothing> = seen.plain::<Nothing, X, M>(asked);
    let mut pen = seen.no_pen();
    let found = book
        .word(key)
        .compare_exchange::<Add, Nothing>(old, old + 1, seen, &mut offer, &mut pen);
    if found == old { Ok(()) } else { Err(Moved) }
}

/// One load of one word.
pub(crate) fn look_at<J: Naming>(
    book: &Book<J>,
    key: usize,
    seen: &mut Seen<LogPage, u64, Law>,
) -> u64
    requires book { seen.old.book ≡ J.book }
    requires of { IsLogOf J.plan J.sessions seen.old.log }
    requires key { key < base_count J.plan + J.sessions }
    ensures book { seen.new.book ≡ J.book }
    ensures grown { IsPrefix seen.old.log seen.new.log }
    ensures of { IsLogOf J.plan J.sessions seen.new.log }
    ensures found { result ≡ count_at J.plan key (history_of seen.new.log) }
{
    let mut offer: Offer<LogPage, u64, Law, Nothing> = seen.plain::<Nothing, (), Look>(&());
    book.word(key).load::<Look, Nothing>(seen, &mut offer)
}

/// Sees what another part has seen, too.
pub(crate) fn learn<J: Naming>(seen: &mut Seen<LogPage, u64, Law>, other: &Seen<LogPage, u64, Law>)
    requires book { seen.old.book ≡ J.book }
    requires of { IsLogOf J.plan J.sessions seen.old.log }
    requires other { other.now.book ≡ J.book }
    ensures book { seen.new.book ≡ J.book }
    ensures of { IsLogOf J.plan J.sessions seen.new.log }
    ensures grown { IsPrefix seen.old.log seen.new.log }
    ensures others { IsPrefix other.now.log seen.new.log }
{
    seen.learn(other);
}
