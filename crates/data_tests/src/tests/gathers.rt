//! What is kept of keys after calls, which follows from the rule of the gather.
ghost use Rattle.std.specs.Prelude.{List, IfOk};
ghost use Rattle.row.specs.{Cells.Cells, Changes.IsCovered};

use super::words::{push_row, row, rows, value};
use partial::gather::Gather;
use partial::partial::{Evicted, Partial};
use row::bag::Bag;
use row::record::{Record, Sign};
use row::value::Value;
use std::alloc::{AllocError, Global};
use std::test::Fail;

/// What is kept for some keys, with a bag of rows for each.
type Bags = Partial<Value, Bag>;

/// A call.
#[derive(Drop)]
enum Call {
    /// The key begins to wait.
    Begin(&'static str),
    /// The piece of a source, with these rows.
    Piece(&'static str, usize, &'static str),
    /// A change of a source's part adds a row.
    Change(&'static str, usize, &'static str),
    /// The key is evicted, or the piece of the source if one is named.
    Evict(&'static str, Option<usize>),
    /// The key that was filled first is evicted.
    EvictOldest,
}

fn begin(alloc: Global, bags: &mut Bags, key: &str) -> Result<bool, AllocError> {
    bags.begin(alloc, value(alloc, key)?)
}

fn bag(alloc: Global, text: &str) -> Result<Bag, AllocError> {
    Bag::of(alloc, rows(alloc, text)?)
}

fn give(
    alloc: Global,
    bags: &mut Bags,
    key: &str,
    source: usize,
    text: &str,
) -> Result<bool, AllocError> {
    bags.give_piece(alloc, &value(alloc, key)?, source, bag(alloc, text)?)
}

/// A change that adds a row, which fits each entry.
fn adding(alloc: Global, words: &str) -> Result<Vec<Record>, AllocError>
    ensures { IfOk result (λ v. (rows : List Cells) → IsCovered rows v.items) }
{
    let row = row(alloc, words)?;
    let sign = Sign::Plus;
    Ok(vec![in alloc; Record { row, sign }]?)
}

#[tactic(auto, using(partial::proofs::Truth::always_fits))]
fn change(
    alloc: Global,
    bags: &mut Bags,
    key: &str,
    source: usize,
    words: &str,
) -> Result<(), AllocError> {
    let key = value(alloc, key)?;
    let change = adding(alloc, words)?;
    bags.apply(alloc, &key, source, &change)
}

fn evict(
    alloc: Global,
    bags: &mut Bags,
    key: &str,
    source: Option<usize>,
) -> Result<Evicted, AllocError> {
    Ok(bags.evict(&value(alloc, key)?, source))
}

/// Makes the call, and says what it answers.
fn answer(alloc: Global, bags: &mut Bags, call: &Call) -> Result<&'static str, AllocError> {
    match call {
        Call::Begin(key) => Ok(if begin(alloc, bags, key)? {
            "begins"
        } else {
            ""
        }),
        Call::Piece(key, source, text) => {
            let fills = give(alloc, bags, key, *source, text)?;
            Ok(if fills { "fills" } else { "" })
        }
        Call::Change(key, source, words) => {
            change(alloc, bags, key, *source, words)?;
            Ok("")
        }
        Call::Evict(key, source) => Ok(match evict(alloc, bags, key, *source)? {
            Evicted::Nothing => "",
            Evicted::Piece => "piece",
            Evicted::Entry => "entry",
        }),
        Call::EvictOldest => Ok(if bags.evict_oldest().is_some() {
            "entry"
        } else {
            ""
        }),
    }
}

/// Each key that is filled with its rows, in the order of filling.
fn kept(alloc: Global, bags: &Bags) -> Result<String, AllocError> {
    let mut text = String::new(alloc);
    for (key, bag) in bags.iter() {
        push_key(alloc, &mut text, key, bag)?;
    }
    Ok(text)
}

fn push_key(alloc: Global, text: &mut String, key: &Value, bag: &Bag) -> Result<(), AllocError> {
    text.push_str(key.to_string(alloc)?.as_str())?;
    text.push(':')?;
    for row in bag.rows() {
        text.push(' ')?;
        push_row(alloc, text, row)?;
    }
    text.push(';')
}

/// A call, what it answers, and what is then kept of the filled keys.
type Step = (Call, &'static str, &'static str);

/// The number of the sources, and calls from holes alone.
const HOLES: (usize, &[Step]) = (
    1,
    &[
        (Call::Piece("7", 0, "1"), "", ""),
        (Call::Change("7", 0, "2"), "", ""),
        (Call::Evict("7", None), "", ""),
        (Call::Evict("7", Some(0)), "", ""),
        (Call::EvictOldest, "", ""),
        (Call::Begin("7"), "begins", ""),
        (Call::Piece("7", 0, "3"), "fills", "7: 3;"),
    ],
);

const SUM: (usize, &[Step]) = (
    3,
    &[
        (Call::Begin("7"), "begins", ""),
        (Call::Begin("7"), "", ""),
        (Call::Piece("7", 2, "5;1"), "", ""),
        (Call::Piece("7", 0, ""), "", ""),
        (Call::Piece("7", 3, "9"), "", ""),
        (Call::Piece("7", 1, "4;1"), "fills", "7: 1 1 4 5;"),
        (Call::Begin("7"), "", "7: 1 1 4 5;"),
        (Call::Piece("7", 1, "8"), "", "7: 1 1 4 5;"),
    ],
);

/// A change counts once: where the piece is in hand, and not where the piece has it when it comes.
const CHANGES: (usize, &[Step]) = (
    2,
    &[
        (Call::Begin("7"), "begins", ""),
        (Call::Change("7", 0, "1"), "", ""),
        (Call::Piece("7", 0, "1"), "", ""),
        (Call::Change("7", 1, "20"), "", ""),
        (Call::Change("7", 0, "2"), "", ""),
        (Call::Change("7", 2, "9"), "", ""),
        (Call::Piece("7", 0, "1;2"), "", ""),
        (Call::Piece("7", 1, "20"), "fills", "7: 1 2 20;"),
        (Call::Change("7", 1, "21"), "", "7: 1 2 20 21;"),
    ],
);

const PIECES: (usize, &[Step]) = (
    3,
    &[
        (Call::Begin("7"), "begins", ""),
        (Call::Piece("7", 0, "1"), "", ""),
        (Call::Piece("7", 1, "10"), "", ""),
        (Call::Evict("7", None), "", ""),
        (Call::Evict("7", Some(2)), "", ""),
        (Call::Evict("7", Some(3)), "", ""),
        (Call::Evict("7", Some(0)), "piece", ""),
        (Call::Evict("7", Some(0)), "", ""),
        (Call::Change("7", 0, "2"), "", ""),
        (Call::Piece("7", 2, "100"), "", ""),
        (Call::Piece("7", 0, "1;2;3"), "fills", "7: 1 2 3 10 100;"),
    ],
);

/// One of a few rows and one of nine are put together row by row, others front by front.
const FAR: (usize, &[Step]) = (
    3,
    &[
        (Call::Begin("7"), "begins", ""),
        (Call::Piece("7", 0, "5"), "", ""),
        (Call::Piece("7", 1, "1;2;3;4;5;6;7;8;9"), "", ""),
        (
            Call::Piece("7", 2, "0;5;11"),
            "fills",
            "7: 0 1 2 3 4 5 5 5 6 7 8 9 11;",
        ),
    ],
);

/// What is there and a piece are put together, whichever has more rows.
const LENGTHS: (usize, &[Step]) = (
    3,
    &[
        (Call::Begin("7"), "begins", ""),
        (Call::Piece("7", 0, "1"), "", ""),
        (Call::Piece("7", 1, "2;3;4;5"), "", ""),
        (Call::Piece("7", 2, "0;6;7"), "fills", "7: 0 1 2 3 4 5 6 7;"),
    ],
);

/// Keys do not meet, and stay in the order of filling, whatever is changed.
const KEYS: (usize, &[Step]) = (
    1,
    &[
        (Call::Begin("b"), "begins", ""),
        (Call::Begin("\"\""), "begins", ""),
        (Call::Change("b", 0, "9"), "", ""),
        (Call::Piece("\"\"", 0, "1"), "fills", "\"\": 1;"),
        (Call::Piece("b", 0, "2"), "fills", "\"\": 1;b: 2;"),
        (Call::Begin("3"), "begins", "\"\": 1;b: 2;"),
        (Call::Piece("3", 0, "3"), "fills", "\"\": 1;b: 2;3: 3;"),
        (Call::Change("\"\"", 0, "4"), "", "\"\": 1 4;b: 2;3: 3;"),
        (Call::Evict("b", Some(0)), "entry", "\"\": 1 4;3: 3;"),
        (Call::Begin("b"), "begins", "\"\": 1 4;3: 3;"),
        (Call::Piece("b", 0, ""), "fills", "\"\": 1 4;3: 3;b:;"),
        (Call::EvictOldest, "entry", "3: 3;b:;"),
        (Call::Evict("3", None), "entry", "b:;"),
        (Call::EvictOldest, "entry", ""),
        (Call::EvictOldest, "", ""),
    ],
);

/// Makes the calls in turn, and gives the place of the first that does otherwise.
fn first_wrong(alloc: Global, sources: usize, steps: &[Step]) -> Result<Option<usize>, AllocError> {
    let mut bags: Bags = Partial::new(alloc, sources)?;
    for (at, step) in steps.iter().enumerate() {
        if !is_right(alloc, &mut bags, step)? {
            return Ok(Some(at));
        }
    }
    Ok(None)
}

fn is_right(alloc: Global, bags: &mut Bags, step: &Step) -> Result<bool, AllocError> {
    let (call, says, shows) = step;
    let said = answer(alloc, bags, call)?;
    Ok(said == *says && kept(alloc, bags)?.as_str() == *shows)
}

#[test]
fn keys_are_gathered(rt: HostRuntime) -> Result<(), Fail> {
    for (at, (sources, steps)) in [HOLES, SUM, CHANGES, PIECES, FAR, LENGTHS, KEYS]
        .iter()
        .enumerate()
    {
        let wrong = first_wrong(rt.alloc(), *sources, steps)?;
        assert!(rt; wrong.is_none(), "table {at}: {wrong:?}");
    }
    Ok(())
}
