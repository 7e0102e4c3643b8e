//! Rows that copies share are those of a bag, before and after changes.
use super::words::{records, row, rows, written};
use key_rows::answer_rows::AnswerRows;
use key_rows::kept::KeyRows;
use key_rows::rows::Rows;
use key_rows::shared::SharedRows;
use partial::gather::Gather;
use placed_rows::placed::PlacedRow;
use row::bag::Bag;
use row::row::Row;
use std::alloc::{AllocError, Global};
use std::test::Fail;

fn bag(alloc: Global, text: &str) -> Result<Bag, AllocError> {
    Bag::of(alloc, rows(alloc, text)?)
}

/// The rows as rows are written in these tests.
fn shown(alloc: Global, rows: Rows<'_>) -> Result<String, AllocError> {
    let mut text = String::new(alloc);
    for row in rows {
        if !text.is_empty() {
            text.push(';')?;
        }
        text.push_str(row.to_string(alloc)?.as_str())?;
    }
    Ok(text)
}

/// Rows whose values lie in them, in a `Row`, and at the bounds of both.
const ROWS: [&str; 18] = [
    "t",
    "1 t",
    "t 1",
    "1 2 t 3",
    "t 1 2 3",
    "1 2 3 t",
    "0 t 4294967295 4294967295",
    "4294967296 t",
    "-1 t",
    "1 2 3 4 t",
    "t u",
    "1 t 2 u",
    "\"\" 1",
    "1 2 3",
    "1 2 3 4",
    "9223372036854775807 t",
    "aaaaaaaaaaaaaaaaaaaaaaaa 1",
    "aaaaaaaaaaaaaaaaaaaaaaaaa 1",
];

/// Whether a row is the same in place: its width, each value, and none past its end.
fn is_same(alloc: Global, row: &Row) -> Result<bool, AllocError> {
    let placed = PlacedRow::of(alloc, row)?.view().to_placed(alloc)?;
    let placed = placed.view();
    for column in 0..row.width() {
        let (Some(field), Some(cell)) = (placed.get(column), row.get(column)) else {
            return Ok(false);
        };
        let value = cell.value();
        if field.as_number() != value.as_number()
            || field.as_text() != value.as_text()
            || field.to_value(alloc)? != *value
        {
            return Ok(false);
        }
    }
    Ok(
        placed.width() == row.width()
            && placed.get(row.width()).is_none()
            && placed.to_row(alloc)? == *row
            && placed.to_string(alloc)?.as_str() == row.to_string(alloc)?.as_str(),
    )
}

#[test]
fn a_row_is_the_same_in_place(rt: HostRuntime) -> Result<(), Fail> {
    let alloc = rt.alloc();
    for words in ROWS {
        assert!(rt; is_same(alloc, &row(alloc, words)?)?, "{words}");
    }
    Ok(())
}

#[test]
fn rows_in_place_stand_as_rows_do(rt: HostRuntime) -> Result<(), Fail> {
    let alloc = rt.alloc();
    for words in ROWS {
        let one = row(alloc, words)?;
        let placed = PlacedRow::of(alloc, &one)?;
        for others in ROWS {
            let other = row(alloc, others)?;
            let stands = placed.compare(&PlacedRow::of(alloc, &other)?);
            assert!(rt; stands == one.cmp(&other), "{words} and {others}");
        }
    }
    Ok(())
}

/// The rows of a key, records, and the rows after them.
const CHANGES: [(&str, &str, &str); 20] = [
    ("", "", ""),
    ("", "+1 a 2", "1 a 2"),
    ("1 a 2", "-1 a 2", ""),
    ("1 a 2", "-1 a 3", "1 a 2"),
    ("1 a 2;2 b 3", "-2 b 3;+2 b 4", "1 a 2;2 b 4"),
    ("1 a 2;2 b 3", "+2 b 4;-2 b 3", "1 a 2;2 b 4"),
    ("1 a 2", "-1 a 2;+1 a 3", "1 a 3"),
    ("1 a 2;2 b 3;3 c 4", "-2 b 3;+2 b 2", "1 a 2;2 b 2;3 c 4"),
    ("1 a;2 b;3 c;4 d", "-4 d;+4 e", "1 a;2 b;3 c;4 e"),
    ("1 a;2 b;3 c;4 d", "-1 a;+1 e", "1 e;2 b;3 c;4 d"),
    ("1 a;2 b;3 c;4 d", "-1 a;+5 a", "2 b;3 c;4 d;5 a"),
    ("1 a;2 b;3 c;4 d", "-4 d;+0 d", "0 d;1 a;2 b;3 c"),
    ("1 a;1 a;2 b", "-1 a;+1 b", "1 a;1 b;2 b"),
    (
        "1 a;2 b;3 c;4 d",
        "-2 b;+2 3 4 5 b",
        "1 a;2 3 4 5 b;3 c;4 d",
    ),
    ("", "-9 z;+9 z", ""),
    ("1 a;1 a;1 a", "-1 a", "1 a;1 a"),
    ("1 a;2 b;3 c", "+0 d", "0 d;1 a;2 b;3 c"),
    ("1 a;2 b;3 c;4 d", "+5 e", "1 a;2 b;3 c;4 d;5 e"),
    ("1 a;2 b;3 c;4 d;5 e", "-3 c", "1 a;2 b;4 d;5 e"),
    ("-1 a;2 b c", "+-7;-2 b c;+2 b", "-7;-1 a;2 b"),
];

/// Whether an answer that takes the rows, in the place of those that it has, has them.
fn is_answered(
    alloc: Global,
    rows: &SharedRows,
    answer: &mut AnswerRows,
    text: &str,
) -> Result<bool, AllocError> {
    rows.read_into(alloc, answer)?;
    Ok(
        shown(alloc, answer.iter())?.as_str() == text
            && written(alloc, &answer.to_rows(alloc)?)?.as_str() == text
            && answer.len() == rows.len()
            && answer.is_empty() == text.is_empty(),
    )
}

/// Whether the rows are changed as a bag is, and those that are shared stay.
fn is_changed(alloc: Global, step: &(&str, &str, &str)) -> Result<bool, AllocError> {
    let (before, change, after) = *step;
    let rows = SharedRows::of(alloc, &bag(alloc, before)?)?;
    let changed = rows.with_records(alloc, &records(alloc, change)?)?;
    Ok(
        shown(alloc, rows.iter())?.as_str() == before
            && shown(alloc, changed.try_clone(alloc)?.iter())?.as_str() == after
            && is_answered(alloc, &changed, &mut AnswerRows::new(), after)?
            && written(alloc, &changed.to_rows(alloc)?)?.as_str() == after
            && written(alloc, changed.to_bag(alloc)?.rows())?.as_str() == after
            && changed.is_empty() == after.is_empty(),
    )
}

#[test]
fn shared_rows_are_changed(rt: HostRuntime) -> Result<(), Fail> {
    for step in &CHANGES {
        assert!(rt; is_changed(rt.alloc(), step)?, "{step:?}");
    }
    Ok(())
}

/// The rows of two sources, and all of them.
const SUMS: [(&str, &str, &str); 4] = [
    ("", "", ""),
    ("2 b", "", "2 b"),
    ("1 a;3 c", "2 b;3 c", "1 a;2 b;3 c;3 c"),
    ("5 e", "1 a;2 b;3 c;4 d", "1 a;2 b;3 c;4 d;5 e"),
];

/// Whether the pieces make these rows, also where one of them is a sum, and a piece shows its rows.
fn is_sum(alloc: Global, step: &(&str, &str, &str)) -> Result<bool, AllocError> {
    let (one, other, all) = *step;
    let first = KeyRows::piece(bag(alloc, one)?);
    let pieces = vec![in alloc; first, KeyRows::piece(bag(alloc, other)?)]?;
    let sum = KeyRows::gather(alloc, pieces)?;
    let rows = sum.shared(alloc)?;
    let again = KeyRows::gather(alloc, vec![in alloc; sum]?)?.shared(alloc)?;
    let piece = KeyRows::piece(bag(alloc, all)?).shared(alloc)?;
    Ok(
        shown(alloc, rows.iter())?.as_str() == all
            && shown(alloc, again.iter())?.as_str() == all
            && shown(alloc, piece.iter())?.as_str() == all,
    )
}

#[test]
fn pieces_are_added_up(rt: HostRuntime) -> Result<(), Fail> {
    for step in &SUMS {
        assert!(rt; is_sum(rt.alloc(), step)?, "{step:?}");
    }
    Ok(())
}

/// Records of rows of which each comes back: of a few keys, with texts of both kinds.
fn drawn(alloc: Global, number: u64) -> Result<String, AllocError> {
    let (key, count) = (number.wrapping_mul(7919) % 13, number / 5 % 3);
    let text = if key % 4 == 0 {
        "of-more-than-24-bytes-of-text"
    } else {
        "short"
    };
    let sign = if number.wrapping_mul(31) % 7 < 4 {
        '+'
    } else {
        '-'
    };
    format!(in alloc;
        "{sign}{key} {text} {count};+{key} {text} {};-{count} x",
        count + 1
    )
}

#[test]
fn shared_rows_stay_those_of_a_bag(rt: HostRuntime) -> Result<(), Fail> {
    let alloc = rt.alloc();
    let mut bag = Bag::new(alloc);
    let mut rows = SharedRows::of(alloc, &bag)?;
    let mut answer = AnswerRows::new();
    for number in 0..40 {
        let change = records(alloc, drawn(alloc, number)?.as_str())?;
        bag.apply(alloc, &change)?;
        rows = rows.with_records(alloc, &change)?;
        let text = written(alloc, bag.rows())?;
        assert!(rt; written(alloc, &rows.to_rows(alloc)?)? == text, "{number}");
        assert!(rt; rows.len() == bag.len(), "{number}");
        assert!(rt;
            is_answered(alloc, &rows, &mut answer, text.as_str())?,
            "{number}"
        );
    }
    Ok(())
}

/// So many rows a key has here: in one piece of memory with their count, in one list, and in pieces.
const COUNTS: [u64; 6] = [4, 5, 16, 17, 33, 100];

/// The number of a key's first row.
const FIRST: u64 = 1000;

/// So many rows from this number on, each after the sign.
fn run(alloc: Global, sign: &str, from: u64, count: u64) -> Result<String, AllocError> {
    let mut text = String::new(alloc);
    for at in 0..count {
        if at > 0 {
            text.push(';')?;
        }
        let number = from.saturating_add(at);
        text.push_str(format!(in alloc; "{sign}{number} a")?.as_str())?;
    }
    Ok(text)
}

/// Records of few rows of a key of so many: at its front, in its middle and at its end, of a row that it
/// has and of ones that it has not.
fn few(alloc: Global, count: u64) -> Result<Vec<String>, AllocError> {
    let middle = FIRST.saturating_add(count / 2);
    let end = FIRST.saturating_add(count);
    Ok(vec![in alloc;
        format!(in alloc; "+0 a")?,
        format!(in alloc; "+{middle} b")?,
        format!(in alloc; "+{end} a")?,
        format!(in alloc; "+{middle} a;+{middle} a")?,
        format!(in alloc; "-{FIRST} a")?,
        format!(in alloc; "-{middle} a;-{end} a;-{middle} b;-7 a")?,
        format!(in alloc; "-{middle} c;+{middle} c;-{middle} a;+{FIRST} b")?,
    ]?)
}

/// Records of many rows of a key of so many: all rows of pieces and of the key, and more than pieces
/// have.
fn many(alloc: Global, count: u64) -> Result<Vec<String>, AllocError> {
    let middle = FIRST.saturating_add(count / 2);
    Ok(vec![in alloc;
        run(alloc, "-", FIRST, 16)?,
        run(alloc, "-", FIRST, count)?,
        run(alloc, "-", middle, 40)?,
        run(alloc, "+", middle, 40)?,
        run(alloc, "+", 0, 40)?,
        format!(in alloc;
            "{};{}",
            run(alloc, "+", middle, 70)?,
            run(alloc, "-", FIRST, 60)?
        )?,
    ]?)
}

/// Whether the rows are those of the bag, one after another too.
fn is_bag(alloc: Global, rows: &SharedRows, bag: &Bag) -> Result<bool, AllocError> {
    let text = written(alloc, bag.rows())?;
    Ok(
        shown(alloc, rows.iter())?.as_str() == text.as_str()
            && is_answered(alloc, rows, &mut AnswerRows::new(), text.as_str())?
            && written(alloc, &rows.to_rows(alloc)?)?.as_str() == text.as_str()
            && rows.len() == bag.len(),
    )
}

/// Whether a key of so many rows is changed as a bag is, once and once more, and its rows stay.
fn is_changed_alike(alloc: Global, count: u64, change: &str) -> Result<bool, AllocError> {
    let mut bag = bag(alloc, run(alloc, "", FIRST, count)?.as_str())?;
    let rows = SharedRows::of(alloc, &bag)?;
    let before = shown(alloc, rows.iter())?;
    let change = records(alloc, change)?;
    bag.apply(alloc, &change)?;
    let once = rows.with_records(alloc, &change)?;
    let is_once = is_bag(alloc, &once, &bag)?;
    bag.apply(alloc, &change)?;
    let twice = once.with_records(alloc, &change)?;
    Ok(
        is_once
            && is_bag(alloc, &twice, &bag)?
            && shown(alloc, rows.iter())?.as_str() == before.as_str(),
    )
}

#[test]
fn a_few_rows_of_many_are_changed(rt: HostRuntime) -> Result<(), Fail> {
    let alloc = rt.alloc();
    for count in COUNTS {
        for change in few(alloc, count)? {
            assert!(rt;
                is_changed_alike(alloc, count, change.as_str())?,
                "{count}: {change}"
            );
        }
    }
    Ok(())
}

#[test]
fn many_rows_of_many_are_changed(rt: HostRuntime) -> Result<(), Fail> {
    let alloc = rt.alloc();
    for count in COUNTS {
        for change in many(alloc, count)? {
            assert!(rt;
                is_changed_alike(alloc, count, change.as_str())?,
                "{count}: {change}"
            );
        }
    }
    Ok(())
}
