//! The evaluator over worked plans of the four shapes.
use super::plans::{CLICKS, PlanOf, VOTING, plan};
use super::words::{entry, value, written};
use plain::front::{Front, Line};
use plain::query::answer;
use plain::rows::refusal;
use plain::stage::are_lines;
use plan::kinds::Aggregate;
use plan::plan::Plan;
use row::refused::Refused;
use std::alloc::{AllocError, Global};
use std::test::Fail;

/// The entries of a log, with `;` between each two.
fn front(alloc: Global, text: &str) -> Result<Front, AllocError> {
    let mut entries = Vec::new(alloc);
    for words in text.split(';') {
        if !words.is_empty() {
            entries.push(entry(alloc, words)?)?;
        }
    }
    Ok(Front::new(entries))
}

/// A front of each source, with `|` between each two.
fn line(alloc: Global, text: &str) -> Result<Line, AllocError> {
    let mut fronts = Vec::new(alloc);
    for log in text.split('|') {
        fronts.push(front(alloc, log)?)?;
    }
    Ok(Line::new(fronts))
}

/// The answer of the key over a line of each stage shard, where the lines fit the tables.
fn ask(alloc: Global, plan: &Plan, lines: &[Line], key: &str) -> Result<String, AllocError> {
    if plan.views() != 1 || !are_lines(plan, lines) {
        return String::from_str(alloc, "misfit");
    }
    let rows = answer(alloc, plan, lines, 0, &value(alloc, key)?)?;
    written(alloc, &rows)
}

/// A read of the view: what is told, the lines of the two stage shards, the key, and the answer.
type Read = (
    Option<Aggregate>,
    &'static str,
    &'static str,
    &'static str,
    &'static str,
);

fn is_answered(alloc: Global, of: &PlanOf, read: &Read) -> Result<bool, Fail> {
    let (told, first, second, key, want) = read;
    let plan = plan(alloc, of, *told)?;
    let lines = vec![in alloc; line(alloc, first)?, line(alloc, second)?]?;
    Ok(ask(alloc, &plan, &lines, key)?.as_str() == *want)
}

/// The place of the first read that has another answer.
fn first_wrong(alloc: Global, of: &PlanOf, reads: &[Read]) -> Result<Option<usize>, Fail> {
    for (at, read) in reads.iter().enumerate() {
        if !is_answered(alloc, of, read)? {
            return Ok(Some(at));
        }
    }
    Ok(None)
}

const COUNT: Option<Aggregate> = Some(Aggregate::Count);

const SUM: Option<Aggregate> = Some(Aggregate::Sum(2));

const FIRST: &str = "|+1 7 a|+10 1 1|+11 1 1";

const VOTED: &str = "+2 7 b;+4 7 d|+1 7 a;+3 8 c|+10 1 1;=10 2 1;+12 4 1|+11 1 1";

const ONE_MORE: &str = "+2 7 b;+4 7 d|+1 7 a;+3 8 c|+10 1 1;=10 2 1;+12 4 1|+11 1 1;+13 1 1";

const LARGE: &str =
    "+2 7 b|+1 7 a|+10 1 9223372036854775807;+12 2 -9223372036854775808|+11 1 9223372036854775807;+13 2 -9223372036854775808";

/// A story without votes is not there; each stage shard has a line of its own; a sum may pass 64
/// bits.
const VOTES: [Read; 7] = [
    (COUNT, "|||", "|||", "7", ""),
    (COUNT, VOTED, VOTED, "7", "1 7 a 1;2 7 b 1;4 7 d 1"),
    (COUNT, VOTED, VOTED, "8", ""),
    (COUNT, VOTED, ONE_MORE, "7", "1 7 a 2;2 7 b 1;4 7 d 1"),
    (COUNT, ONE_MORE, FIRST, "7", "1 7 a 2;2 7 b 1;4 7 d 1"),
    (
        SUM,
        LARGE,
        LARGE,
        "7",
        "1 7 a 18446744073709551614;2 7 b -18446744073709551616",
    ),
    (
        None,
        VOTED,
        FIRST,
        "7",
        "1 7 a 10 1 1;1 7 a 11 1 1;2 7 b 10 2 1;4 7 d 12 4 1",
    ),
];

#[test]
fn votes_are_read(rt: HostRuntime) -> Result<(), Fail> {
    let wrong = first_wrong(rt.alloc(), &VOTING, &VOTES)?;
    assert!(rt; wrong.is_none(), "{wrong:?}");
    Ok(())
}

const CLICKED: &str = "+2 home -3;+4 away 9|+1 home 5;+3 home 7;+5 home 1000";

const MOVED: &str = "+2 home -3;+4 away 9|+1 home 5;+3 home 7;-1;=3 away 7";

const PAGES: [Read; 6] = [
    (SUM, CLICKED, CLICKED, "home", "home 12"),
    (SUM, MOVED, MOVED, "home", ""),
    (COUNT, CLICKED, CLICKED, "home", "home 2"),
    (COUNT, MOVED, MOVED, "away", "away 2"),
    (None, CLICKED, CLICKED, "home", "1 home 5;3 home 7"),
    (None, MOVED, MOVED, "away", "3 away 7;4 away 9"),
];

#[test]
fn clicks_are_read(rt: HostRuntime) -> Result<(), Fail> {
    let wrong = first_wrong(rt.alloc(), &CLICKS, &PAGES)?;
    assert!(rt; wrong.is_none(), "{wrong:?}");
    Ok(())
}

/// A log, how many entries it takes, an entry, and with what it is refused.
const REFUSALS: [(&str, usize, &str, Option<Refused>); 7] = [
    ("+1 a;+2 b", 3, "+3 c", None),
    ("+1 a;+2 b", 2, "+3 c", Some(Refused::LogFull)),
    ("+1 a;+2 b", 2, "+1 c", Some(Refused::Duplicate)),
    ("+1 a;+2 b", 2, "-3", Some(Refused::Absent)),
    ("+1 a;+2 b", 2, "-1", Some(Refused::LogFull)),
    ("+1 a;-1", 3, "=1 b", Some(Refused::Absent)),
    ("+1 a;-1", 3, "+1 b", None),
];

fn refused(
    alloc: Global,
    log: &str,
    limit: usize,
    words: &str,
) -> Result<Option<Refused>, AllocError> {
    refusal(alloc, 0, limit, &front(alloc, log)?, &entry(alloc, words)?)
}

#[test]
fn entries_are_refused_at_a_front(rt: HostRuntime) -> Result<(), Fail> {
    for (log, limit, words, want) in REFUSALS {
        let found = refused(rt.alloc(), log, limit, words)?;
        assert!(rt; found == want, "{words} at {log}");
    }
    Ok(())
}
