//! Values, rows, bags, and rows by a column.
ghost use Rattle.std.specs.Prelude.{◌≡◌, ◌∷◌, [], List, IfOk};
ghost use Rattle.row.specs.{Cells.Cells, Cells.int, Changes.IsCovered, Groups.wide};

use super::cells::Cell::{self, Int, Text};
use super::cells::{row, value};
use row::bag::Bag;
use row::grouped::Grouped;
use row::record::{Record, Sign};
use row::row::Row;
use row::value::{Value, shard_of};
use std::alloc::{AllocError, Global};
use std::cmp::Ordering;
use std::test::Fail;

const SHARDS: [(Cell, usize, usize); 9] = [
    (Int(-3), 8, 5),
    (Int(-8), 8, 0),
    (Int(11), 8, 3),
    (Int(18446744073709551615), 10, 5),
    (Int(18446744073709551616), 10, 6),
    (Text("ab"), 2, 1),
    (Text(""), 2, 0),
    (Text("aaaaaaaaaaaaaaaaaaaaaaaa"), 10, 8),
    (Text("aaaaaaaaaaaaaaaaaaaaaaaaa"), 10, 5),
];

#[test]
fn a_value_has_its_shard(rt: HostRuntime) -> Result<(), Fail> {
    for (cell, shards, shard) in SHARDS {
        let found = shard_of(&value(rt.alloc(), cell)?, shards);
        assert!(rt; found == shard, "{found}, not {shard}");
    }
    Ok(())
}

/// The least number that takes more than 64 bits.
const LONG: Cell = Int(9223372036854775808);

/// A row, another one, and how the first stands to the second.
const ORDERS: [(&[Cell], &[Cell], Ordering); 12] = [
    (&[Int(9)], &[Text("1")], Ordering::Less),
    (&[Int(-2)], &[Int(1)], Ordering::Less),
    (&[Text("b")], &[Text("ab")], Ordering::Greater),
    (&[Text("a")], &[Text("ab")], Ordering::Less),
    (&[Text("a")], &[Text("a")], Ordering::Equal),
    (&[Int(1), Int(9)], &[Int(2), Int(0)], Ordering::Less),
    (&[Int(1)], &[Int(1), Int(9)], Ordering::Less),
    (&[], &[Int(-1)], Ordering::Less),
    (&[LONG], &[Int(1)], Ordering::Greater),
    (&[Int(-9223372036854775809)], &[Int(-1)], Ordering::Less),
    (&[LONG], &[Text("")], Ordering::Less),
    (&[LONG], &[LONG], Ordering::Equal),
];

fn compared(alloc: Global, cells: &[Cell], others: &[Cell]) -> Result<Ordering, AllocError> {
    Ok(row(alloc, cells)?.cmp(&row(alloc, others)?))
}

#[test]
fn rows_compare_by_value_and_then_by_length(rt: HostRuntime) -> Result<(), Fail> {
    for (cells, others, order) in ORDERS {
        let found = compared(rt.alloc(), cells, others)?;
        assert!(rt; found == order, "{found:?}, not {order:?}");
    }
    Ok(())
}

/// Two numbers, of which only the first is below 2^32.
const SHORT: Cell = Int(4294967295);

const WIDE: Cell = Int(4294967296);

const PRINTED: [(&[Cell], &str); 18] = [
    (&[], ""),
    (&[Int(0)], "0"),
    (&[Int(-1)], "-1"),
    (&[Int(i128::MAX)], "170141183460469231731687303715884105727"),
    (
        &[Int(i128::MIN)],
        "-170141183460469231731687303715884105728",
    ),
    (&[Int(1), Int(7), Text("c d")], "1 7 \"c d\""),
    (&[SHORT, WIDE, SHORT], "4294967295 4294967296 4294967295"),
    (&[WIDE, SHORT, WIDE], "4294967296 4294967295 4294967296"),
    (&[Int(1), Int(2), Int(3), Int(4)], "1 2 3 4"),
    (&[Text("a"), Int(1), Int(2), Int(3)], "a 1 2 3"),
    (&[Int(1), Text("a"), Int(2), Int(3)], "1 a 2 3"),
    (&[Int(1), Int(2), Text("a"), Int(3)], "1 2 a 3"),
    (&[Int(1), Int(2), Int(3), Text("a")], "1 2 3 a"),
    (&[Text("a"), Text("b")], "a b"),
    (&[Int(1), Text("a"), Int(2), Text("b")], "1 a 2 b"),
    (&[Int(1), Int(-2), Int(3), Int(-4)], "1 -2 3 -4"),
    (&[Int(1), Int(2), Int(3), Int(4), Int(5)], "1 2 3 4 5"),
    (
        &[Int(1), Int(2), Int(3), Int(4), LONG],
        "1 2 3 4 9223372036854775808",
    ),
];

fn is_printed(alloc: Global, cells: &[Cell], text: &str) -> Result<bool, AllocError> {
    Ok(row(alloc, cells)?.to_string(alloc)?.as_str() == text)
}

#[test]
fn rows_are_printed(rt: HostRuntime) -> Result<(), Fail> {
    for (cells, text) in PRINTED {
        assert!(rt; is_printed(rt.alloc(), cells, text)?, "{text}");
    }
    Ok(())
}

/// Whether the row that is made value by value is printed so, and is that of all values at once.
fn is_grown(alloc: Global, cells: &[Cell], text: &str) -> Result<bool, AllocError> {
    let mut grown = row(alloc, &[])?;
    for cell in cells {
        grown = grown.with(alloc, value(alloc, *cell)?)?;
    }
    let other = row(alloc, cells)?;
    let twice = grown.joined(alloc, &other)?;
    Ok(
        grown.to_string(alloc)?.as_str() == text
            && grown == other
            && twice.cmp(&grown).is_ge()
            && twice.width() == 2 * cells.len(),
    )
}

#[test]
fn rows_are_made_value_by_value(rt: HostRuntime) -> Result<(), Fail> {
    for (cells, text) in PRINTED {
        assert!(rt; is_grown(rt.alloc(), cells, text)?, "{text}");
    }
    Ok(())
}

const QUOTED: [(&str, &str); 8] = [
    ("a", "a"),
    ("", "\"\""),
    ("x\"y", "\"x\\\"y\""),
    ("a\\b", "\"a\\\\b\""),
    ("#x", "#x"),
    ("é\"€", "\"é\\\"€\""),
    ("abcdefghijklmnopqrstuv x", "\"abcdefghijklmnopqrstuv x\""),
    ("abcdefghijklmnopqrstuvw x", "\"abcdefghijklmnopqrstuvw x\""),
];

#[test]
fn texts_are_quoted_where_they_have_to_be(rt: HostRuntime) -> Result<(), Fail> {
    for (text, quoted) in QUOTED {
        assert!(rt; is_printed(rt.alloc(), &[Text(text)], quoted)?, "{quoted}");
    }
    Ok(())
}

/// Two rows that are alike, and another one.
fn bag(alloc: Global) -> Result<Bag, AllocError> {
    let mut bag = Bag::new(alloc);
    for (first, second) in [(2, 0), (1, 7), (2, 0)] {
        bag.add(row(alloc, &[Int(first), Int(second)])?)?;
    }
    Ok(bag)
}

/// Takes away one of the row, and says whether it was there.
fn take(alloc: Global, bag: &mut Bag, cells: &[Cell]) -> Result<bool, AllocError> {
    let row = row(alloc, cells)?;
    let there = bag.contains(&row);
    if there {
        bag.subtract(&row);
    }
    Ok(there)
}

/// Whether these are the rows, with `;` behind each.
fn are_rows(alloc: Global, rows: &[Row], text: &str) -> Result<bool, AllocError> {
    let mut all = String::new(alloc);
    for row in rows {
        all.push_str(row.to_string(alloc)?.as_str())?;
        all.push(';')?;
    }
    Ok(all.as_str() == text)
}

fn keeps_repeats(alloc: Global, bag: &mut Bag) -> Result<bool, AllocError> {
    Ok(
        are_rows(alloc, bag.rows(), "1 7;2 0;2 0;")?
            && take(alloc, bag, &[Int(2), Int(0)])?
            && !take(alloc, bag, &[Int(1), Int(8)])?
            && are_rows(alloc, bag.rows(), "1 7;2 0;")?,
    )
}

#[test]
fn a_bag_keeps_repeats(rt: HostRuntime) -> Result<(), Fail> {
    let mut bag = bag(rt.alloc())?;
    assert!(rt; keeps_repeats(rt.alloc(), &mut bag)?);
    Ok(())
}

/// A record of a row of these two numbers.
fn signed(alloc: Global, id: i64, author: i64, sign: Sign) -> Result<Record, AllocError>
    ensures { IfOk result (λ r. r ≡ record { row = int id ∷ int author ∷ []; sign = sign }) }
{
    let row = Row::new(alloc, vec![in alloc; Value::Int(id), Value::Int(author)]?)?;
    Ok(Record { row, sign })
}

/// A change that takes row 2 away before it adds it.
fn exchange(alloc: Global) -> Result<Vec<Record>, AllocError>
    ensures { IfOk result (λ v. (rows : List Cells) → IsCovered rows (wide 1 v.items)) }
{
    let taken = signed(alloc, 2, 7, Sign::Minus)?;
    let given = signed(alloc, 2, 7, Sign::Plus)?;
    Ok(vec![in alloc; taken, given]?)
}

/// Adds three rows, and exchanges one.
fn fill(found: &mut Grouped, alloc: Global) -> Result<(), AllocError>
    requires { found.old.column ≡ 1 }
{
    found.add(alloc, &signed(alloc, 2, 7, Sign::Plus)?.row)?;
    found.add(alloc, &signed(alloc, 1, 7, Sign::Plus)?.row)?;
    found.add(alloc, &signed(alloc, 3, 8, Sign::Plus)?.row)?;
    found.apply(alloc, exchange(alloc)?.as_slice())
}

#[test]
fn rows_are_found_by_a_column(rt: HostRuntime) -> Result<(), Fail> {
    let mut found = Grouped::new(rt.alloc(), 1);
    fill(&mut found, rt.alloc())?;
    assert!(rt; are_rows(rt.alloc(), found.rows_of(&Value::Int(7)), "1 7;2 7;")?);
    assert!(rt; are_rows(rt.alloc(), found.rows_of(&Value::Int(8)), "3 8;")?);
    assert!(rt; found.rows_of(&Value::Int(9)).is_empty());
    let long = Value::Long(Box::new(rt.alloc(), 7)?);
    assert!(rt; are_rows(rt.alloc(), found.rows_of(&long), "1 7;2 7;")?);
    Ok(())
}
