//! Verdicts on histories of two sessions, one for each condition of an item.
use super::plans::{CLICKS, PlanOf, VOTING, plan};
use super::words::{entry, rows, value};
use model::floors::Floors;
use model::item::{Fence, Item, Read, Write};
use model::lengths::Lengths;
use model::place::Place;
use plain::legal::verdict;
use plan::kinds::Aggregate;
use std::alloc::{AllocError, Global};
use std::test::Fail;

/// The lengths of the sources at each of two stage shards.
type CutOf = &'static [&'static [u64]];

/// An item of a history.
#[derive(Drop)]
enum ItemOf {
    /// The session, the number of the call, the base shard, and the entry.
    Write(usize, u64, usize, &'static str),
    /// The session, the view, the key, the cut, and the rows.
    Read(usize, usize, &'static str, CutOf, &'static str),
    /// The session, the base shard and the index of each own place, and the floors of the view.
    Fence(usize, &'static [(usize, u64)], &'static [CutOf]),
}

fn cut(alloc: Global, of: CutOf) -> Result<Lengths, AllocError> {
    let mut cut = Lengths::empty(alloc);
    for lengths in of {
        cut.push_line(alloc, lengths)?;
    }
    Ok(cut)
}

fn floors(alloc: Global, of: &[CutOf]) -> Result<Floors, AllocError> {
    let mut cuts = Vec::new(alloc);
    for one in of {
        cuts.push(cut(alloc, *one)?)?;
    }
    Ok(Floors::new(vec![in alloc; cuts]?))
}

fn places(alloc: Global, of: &[(usize, u64)]) -> Result<Vec<Place>, AllocError> {
    let mut places = Vec::new(alloc);
    for (base, index) in of {
        places.push(Place {
            base: *base,
            index: *index,
        })?;
    }
    Ok(places)
}

fn write(
    alloc: Global,
    session: usize,
    number: u64,
    base: usize,
    words: &str,
) -> Result<Item, AllocError> {
    let entry = entry(alloc, words)?;
    Ok(Item::Write(Write {
        session,
        number,
        base,
        entry,
    }))
}

fn read(
    alloc: Global,
    session: usize,
    view: usize,
    key: &str,
    at: CutOf,
    shown: &str,
) -> Result<Item, AllocError> {
    Ok(Item::Read(Read {
        session,
        view,
        key: value(alloc, key)?,
        rows: rows(alloc, shown)?,
        cut: cut(alloc, at)?,
    }))
}

fn fence(
    alloc: Global,
    session: usize,
    own: &[(usize, u64)],
    cuts: &[CutOf],
) -> Result<Item, AllocError> {
    Ok(Item::Fence(Fence {
        session,
        own: places(alloc, own)?,
        floors: floors(alloc, cuts)?,
    }))
}

fn item(alloc: Global, of: &ItemOf) -> Result<Item, AllocError> {
    match of {
        ItemOf::Write(session, number, base, words) => write(
            alloc, *session, *number, *base, words,
        ),
        ItemOf::Read(session, view, key, at, shown) => read(
            alloc, *session, *view, key, *at, shown,
        ),
        ItemOf::Fence(session, own, cuts) => fence(alloc, *session, own, cuts),
    }
}

/// The items, and then the last one.
fn items(alloc: Global, before: &[ItemOf], last: &ItemOf) -> Result<Vec<Item>, AllocError> {
    let mut items = Vec::new(alloc);
    for of in before {
        items.push(item(alloc, of)?)?;
    }
    items.push(item(alloc, last)?)?;
    Ok(items)
}

/// Whether the last item is allowed, where the items before it are legal.
fn is_last_allowed(
    alloc: Global,
    of: &PlanOf,
    told: Option<Aggregate>,
    before: &[ItemOf],
    last: &ItemOf,
) -> Result<bool, Fail> {
    let plan = plan(alloc, of, told)?;
    let items = items(alloc, before, last)?;
    match verdict(alloc, &plan, 2, &items)? {
        None => Ok(true),
        Some(at) if at == before.len() => Ok(false),
        Some(_) => Err(Fail::from("an earlier item is not legal")),
    }
}

/// Items, and for each further one what is wrong with it after them, if anything.
#[derive(Drop)]
struct Table {
    before: &'static [ItemOf],
    last: &'static [(ItemOf, Option<&'static str>)],
}

/// Whether each item of the table is judged as it says; else the place of the first that is not.
fn first_wrong(
    alloc: Global,
    of: &PlanOf,
    told: Option<Aggregate>,
    table: &Table,
) -> Result<Option<usize>, Fail> {
    for (at, (last, want)) in table.last.iter().enumerate() {
        if is_last_allowed(alloc, of, told, table.before, last)? != want.is_none() {
            return Ok(Some(at));
        }
    }
    Ok(None)
}

const CLICKED: &[ItemOf] = &[
    ItemOf::Write(0, 0, 1, "+1 home 5"),
    ItemOf::Write(1, 0, 0, "+2 home 7"),
];

const BOTH: CutOf = &[&[1, 1], &[1, 1]];

const LESS: CutOf = &[&[1, 1], &[1, 0]];

const MORE: CutOf = &[&[1, 1], &[1, 2]];

const WRITES: Table = Table {
    before: CLICKED,
    last: &[
        (ItemOf::Write(0, 1, 1, "+3 home 5"), None),
        (ItemOf::Write(1, 0, 1, "-1"), None),
        (ItemOf::Write(0, 0, 2, "+3"), None),
        (
            ItemOf::Write(0, 1, 3, "+3 home 5"),
            Some("no such base shard"),
        ),
        (ItemOf::Write(0, 1, 1, "+3 home"), Some("a misfit")),
        (ItemOf::Write(0, 1, 0, "+3 home 5"), Some("another shard")),
        (ItemOf::Write(0, 1, 1, "+1 away 5"), Some("unlawful")),
        (ItemOf::Write(0, 0, 1, "+3 home 5"), Some("an old number")),
    ],
};

const READS: Table = Table {
    before: CLICKED,
    last: &[
        (ItemOf::Read(0, 0, "home", BOTH, "1 home 5;2 home 7"), None),
        (ItemOf::Read(0, 0, "home", LESS, "2 home 7"), None),
        (
            ItemOf::Read(2, 0, "away", BOTH, ""),
            Some("no such session"),
        ),
        (ItemOf::Read(0, 1, "away", BOTH, ""), Some("no such view")),
        (ItemOf::Read(0, 0, "away", MORE, ""), Some("past the logs")),
        (
            ItemOf::Read(0, 0, "home", BOTH, "2 home 7;1 home 5"),
            Some("other rows"),
        ),
    ],
};

const FENCES: Table = Table {
    before: CLICKED,
    last: &[
        (ItemOf::Fence(0, &[(1, 0)], &[&[&[0, 1], &[0, 1]]]), None),
        (ItemOf::Fence(1, &[(0, 0)], &[LESS]), None),
        (ItemOf::Fence(2, &[], &[BOTH]), Some("no such session")),
        (ItemOf::Fence(0, &[(1, 0)], &[MORE]), Some("past the logs")),
        (
            ItemOf::Fence(0, &[(1, 0)], &[LESS]),
            Some("before an own place"),
        ),
        (
            ItemOf::Fence(0, &[(0, 0)], &[BOTH]),
            Some("not an own place"),
        ),
    ],
};

const AFTER_FENCE: Table = Table {
    before: &[
        ItemOf::Write(0, 0, 1, "+1 home 5"),
        ItemOf::Write(1, 0, 0, "+2 home 7"),
        ItemOf::Fence(0, &[(1, 0)], &[BOTH]),
    ],
    last: &[
        (ItemOf::Read(1, 0, "home", LESS, "2 home 7"), None),
        (ItemOf::Fence(1, &[], &[LESS]), None),
        (
            ItemOf::Read(0, 0, "home", LESS, "2 home 7"),
            Some("below the floor"),
        ),
        (ItemOf::Fence(0, &[], &[LESS]), Some("below the floor")),
    ],
};

/// The stage does not read the table of what is written here.
const NO_SOURCE: Table = Table {
    before: &[ItemOf::Write(0, 0, 2, "+3")],
    last: &[(
        ItemOf::Fence(0, &[(2, 0)], &[&[&[0, 0], &[0, 0]]]),
        Some("not an own place"),
    )],
};

#[test]
fn each_condition_is_judged(rt: HostRuntime) -> Result<(), Fail> {
    for (at, table) in [WRITES, READS, FENCES, AFTER_FENCE, NO_SOURCE]
        .iter()
        .enumerate()
    {
        let wrong = first_wrong(rt.alloc(), &CLICKS, None, table)?;
        assert!(rt; wrong.is_none(), "table {at}: {wrong:?}");
    }
    Ok(())
}

const FIRST: CutOf = &[&[0, 1, 1, 1], &[0, 1, 1, 1]];

const SECOND: CutOf = &[&[1, 2, 2, 1], &[1, 2, 2, 1]];

/// What a session writes, reads and fences, one call after the other.
const RUN: Table = Table {
    before: &[
        ItemOf::Read(0, 0, "7", &[&[0, 0, 0, 0], &[0, 0, 0, 0]], ""),
        ItemOf::Write(0, 0, 1, "+1 7 a"),
        ItemOf::Write(0, 1, 2, "+10 1 1"),
        ItemOf::Write(0, 2, 3, "+11 1 1"),
        ItemOf::Fence(0, &[(1, 0), (2, 0), (3, 0)], &[FIRST, FIRST]),
        ItemOf::Read(0, 0, "7", FIRST, "1 7 a 2"),
        ItemOf::Write(0, 3, 0, "+2 7 b"),
        ItemOf::Write(0, 4, 1, "+3 8 c"),
        ItemOf::Write(0, 5, 2, "=10 2 1"),
        ItemOf::Read(0, 0, "7", SECOND, "1 7 a 1;2 7 b 1"),
    ],
    last: &[
        (
            ItemOf::Fence(0, &[(0, 0), (1, 1), (2, 1)], &[SECOND, SECOND]),
            None,
        ),
        (ItemOf::Read(1, 0, "7", FIRST, "1 7 a 2"), None),
        // Key 8 has another shard of the view, and 9 the same one as 7.
        (ItemOf::Read(0, 0, "8", FIRST, ""), None),
        (ItemOf::Read(0, 0, "9", FIRST, ""), Some("below the floor")),
        (
            ItemOf::Read(0, 0, "7", SECOND, "1 7 a 2;2 7 b 1"),
            Some("other rows"),
        ),
        (ItemOf::Write(0, 6, 1, "+1 9 x"), Some("unlawful")),
    ],
};

#[test]
fn a_run_is_judged(rt: HostRuntime) -> Result<(), Fail> {
    let wrong = first_wrong(rt.alloc(), &VOTING, Some(Aggregate::Count), &RUN)?;
    assert!(rt; wrong.is_none(), "{wrong:?}");
    Ok(())
}
