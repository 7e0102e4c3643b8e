//! Steps of stages beside the whole output over plain bags.
ghost use Rattle.std.specs.Prelude.{◌≢◌};

use super::words::{records, written_records};
use ops::shape::Shape;
use ops::side::{Side, SideRows, have_column};
use ops::stage::{Stage, full};
use ops::total::all_fit_64_bits;
use plan::kinds::Aggregate;
use row::bag::Bag;
use row::record::{Record, Sign};
use row::row::Row;
use row::value::Value;
use std::alloc::{AllocError, Global};
use std::test::Fail;

/// Takes away one of the row, and says whether it was there.
fn take(bag: &mut Bag, row: &Row) -> bool {
    let there = bag.contains(row);
    if there {
        bag.subtract(row);
    }
    there
}

/// Turns the bag by the records, and says whether what they take away was there.
fn turn(alloc: Global, bag: &mut Bag, records: &[Record]) -> Result<bool, AllocError> {
    for record in records {
        if record.sign == Sign::Plus {
            bag.add(record.row.try_clone(alloc)?)?;
        }
    }
    let mut all = true;
    for record in records {
        if record.sign == Sign::Minus {
            all = take(bag, &record.row) && all;
        }
    }
    Ok(all)
}

fn take_step(
    alloc: Global,
    stage: &mut Stage<SideRows>,
    side: Side,
    records: &[Record],
) -> Result<Vec<Record>, Fail> {
    if !stage.takes(side, records) {
        return Err(Fail::from("not taken"));
    }
    Ok(stage.step(alloc, side, records)?)
}

/// The shape of a stage, and the column of the stage key on each side.
type Keyed = (Shape, usize, usize);

/// The whole output over the rows of both sides, which have the columns and fit 64 bits.
fn whole(alloc: Global, of: Keyed, lefts: &[Row], rights: &[Row]) -> Result<Bag, Fail> {
    let (shape, left, right) = of;
    let lefts_fit = have_column(left, lefts) && all_fit_64_bits(shape.aggregate_of_left(), lefts);
    let rights_fit = have_column(right, rights)
        && all_fit_64_bits(shape.aggregate_of_right(), rights);
    if !lefts_fit || !rights_fit {
        return Err(Fail::from("no such output"));
    }
    Ok(full(alloc, shape, left, right, lefts, rights)?)
}

/// The rows of both sides as plain bags, and the output that the steps made.
#[derive(Drop)]
struct Beside {
    lefts: Bag,
    rights: Bag,
    shown: Bag,
}

impl Beside {
    fn new(alloc: Global) -> Beside {
        Beside {
            lefts: Bag::new(alloc),
            rights: Bag::new(alloc),
            shown: Bag::new(alloc),
        }
    }

    /// The rows of one side.
    fn side(&mut self, is_left: bool) -> &mut Bag {
        if is_left {
            &mut self.lefts
        } else {
            &mut self.rights
        }
    }
}

/// Takes the records of one side into the stage and the plain bags, and gives what they change of
/// the output.
fn step(
    alloc: Global,
    stage: &mut Stage<SideRows>,
    beside: &mut Beside,
    is_left: bool,
    records: &[Record],
) -> Result<Vec<Record>, Fail> {
    let side = if is_left { Side::Left } else { Side::Right };
    let changes = take_step(alloc, stage, side, records)?;
    if !turn(alloc, beside.side(is_left), records)? || !turn(alloc, &mut beside.shown, &changes)? {
        return Err(Fail::from("not there"));
    }
    Ok(changes)
}

/// Whether the output that the steps made is the whole one over the plain bags.
fn is_whole(alloc: Global, of: Keyed, beside: &Beside) -> Result<bool, Fail> {
    let whole = whole(alloc, of, beside.lefts.rows(), beside.rights.rows())?;
    Ok(whole.rows() == beside.shown.rows())
}

/// A step: whether it is one of left rows, its records, and what it changes of the output.
type Step = (bool, &'static str, &'static str);

fn is_right(
    alloc: Global,
    of: Keyed,
    stage: &mut Stage<SideRows>,
    beside: &mut Beside,
    one: &Step,
) -> Result<bool, Fail> {
    let (is_left, words, want) = one;
    let changes = step(alloc, stage, beside, *is_left, &records(alloc, words)?)?;
    Ok(written_records(alloc, &changes)?.as_str() == *want && is_whole(alloc, of, beside)?)
}

/// The place of the first step that changes something else, or after which the output is not the
/// whole one.
fn first_wrong(alloc: Global, of: Keyed, steps: &[Step]) -> Result<Option<usize>, Fail> {
    let (shape, left, right) = of;
    let mut stage = Stage::new(alloc, shape, left, right);
    let mut beside = Beside::new(alloc);
    for (at, step) in steps.iter().enumerate() {
        if !is_right(alloc, of, &mut stage, &mut beside, step)? {
            return Ok(Some(at));
        }
    }
    Ok(None)
}

const LEFT: bool = true;

const RIGHT: bool = false;

const VOTES: &[Step] = &[
    (RIGHT, "+10 1 1", ""),
    (LEFT, "+1 7 a", "+1 7 a 1"),
    (RIGHT, "+11 1 1", "-1 7 a 1;+1 7 a 2"),
    (LEFT, "+2 7 b", ""),
    (LEFT, "+3 8 c", ""),
    (RIGHT, "-10 1 1;+10 2 1", "-1 7 a 2;+1 7 a 1;+2 7 b 1"),
    (RIGHT, "+12 4 1", ""),
    (LEFT, "+4 7 d", "+4 7 d 1"),
    (RIGHT, "+13 1 1", "-1 7 a 1;+1 7 a 2"),
    (RIGHT, "-13 1 1;+13 1 1", ""),
    (RIGHT, "+14 1 1;-13 1 1", ""),
    (LEFT, "-1 7 a;+1 9 a", "-1 7 a 2;+1 9 a 2"),
    (LEFT, "-1 9 a;+1 9 a", ""),
    (RIGHT, "-12 4 1", "-4 7 d 1"),
    (RIGHT, "-11 1 1;-14 1 1", "-1 9 a 2"),
    (RIGHT, "+15 1 1", "+1 9 a 1"),
    (LEFT, "-1 9 a", "-1 9 a 1"),
    (LEFT, "", ""),
];

const WEIGHTS: &[Step] = &[
    (LEFT, "+1 7 a;+2 7 b", ""),
    (
        RIGHT,
        "+10 1 9223372036854775807",
        "+1 7 a 9223372036854775807",
    ),
    (
        RIGHT,
        "+11 1 9223372036854775807",
        "-1 7 a 9223372036854775807;+1 7 a 18446744073709551614",
    ),
    (
        RIGHT,
        "+12 2 -9223372036854775808;+13 2 -9223372036854775808",
        "+2 7 b -18446744073709551616",
    ),
    (
        RIGHT,
        "-11 1 9223372036854775807;+11 2 9223372036854775807",
        "-1 7 a 18446744073709551614;-2 7 b -18446744073709551616;+1 7 a 9223372036854775807;+2 7 b -9223372036854775809",
    ),
    (
        RIGHT,
        "-10 1 9223372036854775807;+10 1 0",
        "-1 7 a 9223372036854775807;+1 7 a 0",
    ),
    (RIGHT, "-10 1 0", "-1 7 a 0"),
    (RIGHT, "+14 2 5;+15 2 -5", ""),
];

const TEXTS: &[Step] = &[
    (LEFT, "+ab 1", ""),
    (RIGHT, "+ab 5", "+ab 1 ab 5"),
    (LEFT, "+\"\" 2", ""),
    (RIGHT, "+\"\" 6", "+\"\" 2 \"\" 6"),
    (LEFT, "+ab 1", "+ab 1 ab 5"),
    (RIGHT, "+ab 5", "+ab 1 ab 5;+ab 1 ab 5"),
    (LEFT, "-ab 1", "-ab 1 ab 5;-ab 1 ab 5"),
    (RIGHT, "-ab 5;+\"\" 5", "-ab 1 ab 5;+\"\" 2 \"\" 5"),
    (LEFT, "+5 1;+\"\" 2", "+\"\" 2 \"\" 5;+\"\" 2 \"\" 6"),
];

const PAGES: &[Step] = &[
    (LEFT, "+1 home 5", "+home 5"),
    (LEFT, "+3 home 7", "-home 5;+home 12"),
    (LEFT, "-1 home 5", "-home 12;+home 7"),
    (LEFT, "+4 away 7", "+away 7"),
    (LEFT, "-3 home 7", "-home 7"),
    (LEFT, "+5 home 1;+6 home -1", "+home 0"),
    (
        LEFT,
        "-5 home 1;-6 home -1;-4 away 7;+4 home 7",
        "-away 7;-home 0;+home 7",
    ),
    (RIGHT, "+9 home 9", ""),
];

const NUMBERS: &[Step] = &[
    (LEFT, "+1 home 5;+1 home 5", "+home 2"),
    (LEFT, "+2 away 5", "+away 1"),
    (LEFT, "-1 home 5;+3 home 5", ""),
    (LEFT, "-1 home 5;-3 home 5", "-home 2"),
    (LEFT, "-2 away 5;+2 home 5", "-away 1;+home 1"),
];

const REPEATS: &[Step] = &[
    (LEFT, "+1 a;+1 a;+2 b", "+1 a;+1 a;+2 b"),
    (LEFT, "-1 a", "-1 a"),
    (RIGHT, "+1 x", ""),
    (LEFT, "+1 a;-1 a", ""),
    (LEFT, "-1 a;+1 c", "-1 a;+1 c"),
];

const TABLES: [(Keyed, &[Step]); 6] = [
    ((Shape::Rows, 0, 0), REPEATS),
    ((Shape::Join, 0, 0), TEXTS),
    ((Shape::Total(Aggregate::Count), 0, 1), VOTES),
    ((Shape::Total(Aggregate::Sum(2)), 0, 1), WEIGHTS),
    ((Shape::Group(Aggregate::Count), 1, 1), NUMBERS),
    ((Shape::Group(Aggregate::Sum(2)), 1, 1), PAGES),
];

#[test]
fn steps_change_the_output(rt: HostRuntime) -> Result<(), Fail> {
    for (of, steps) in TABLES {
        let wrong = first_wrong(rt.alloc(), of, steps)?;
        assert!(rt; wrong.is_none(), "{wrong:?} of {of:?}");
    }
    Ok(())
}

/// The next of the numbers that follow from a seed, below a limit.
pub(super) fn next(seed: &mut u64, limit: u64) -> u64
    requires { limit ≢ 0 }
{
    *seed = seed
        .wrapping_mul(6_364_136_223_846_793_005)
        .wrapping_add(1_442_695_040_888_963_407);
    (*seed >> 33) % limit
}

/// A record that adds a row of three small numbers.
fn any_gain(alloc: Global, seed: &mut u64) -> Result<Record, AllocError> {
    let mut values = Vec::new(alloc);
    for _ in 0..3 {
        values.push(Value::number(alloc, i128::from(next(seed, 4)) - 1)?)?;
    }
    let row = Row::new(alloc, values)?;
    let sign = Sign::Plus;
    Ok(Record { row, sign })
}

/// A record that takes away one of the rows, if there are as many as the number that comes.
fn any_loss(alloc: Global, seed: &mut u64, rows: &[Row]) -> Result<Option<Record>, AllocError> {
    match rows.get(next(seed, 24) as usize) {
        Some(row) => {
            let row = row.try_clone(alloc)?;
            let sign = Sign::Minus;
            Ok(Some(Record { row, sign }))
        }
        None => Ok(None),
    }
}

/// Up to four records: rows that come, and up to two of the rows, at places apart, that go.
fn any_records(alloc: Global, seed: &mut u64, rows: &[Row]) -> Result<Vec<Record>, AllocError> {
    let mut all = Vec::new(alloc);
    let (first, second) = rows.split_at(rows.len() / 2);
    if let Some(record) = any_loss(alloc, seed, first)? {
        all.push(record)?;
    }
    for _ in 0..next(seed, 3) {
        all.push(any_gain(alloc, seed)?)?;
    }
    if let Some(record) = any_loss(alloc, seed, second)? {
        all.push(record)?;
    }
    Ok(all)
}

/// Changes either side a thousand times, and says after which ten of them the output that the steps
/// made is not the whole one.
fn tens_until_wrong(alloc: Global, of: Keyed) -> Result<Option<usize>, Fail> {
    let (shape, left, right) = of;
    let mut stage = Stage::new(alloc, shape, left, right);
    let mut beside = Beside::new(alloc);
    let mut seed: u64 = 7;
    for ten in 0..100 {
        for _ in 0..10 {
            change(alloc, &mut stage, &mut beside, &mut seed)?;
        }
        if !is_whole(alloc, of, &beside)? {
            return Ok(Some(ten));
        }
    }
    if beside.shown.is_empty() {
        return Err(Fail::from("no output"));
    }
    Ok(None)
}

fn change(
    alloc: Global,
    stage: &mut Stage<SideRows>,
    beside: &mut Beside,
    seed: &mut u64,
) -> Result<(), Fail> {
    let is_left = next(seed, 2) == 0;
    let records = any_records(alloc, seed, beside.side(is_left).rows())?;
    step(alloc, stage, beside, is_left, &records)?;
    Ok(())
}

/// The six stages, each with the third column as what is summed.
const STAGES: [Keyed; 6] = [
    (Shape::Rows, 0, 1),
    (Shape::Join, 0, 1),
    (Shape::Total(Aggregate::Count), 0, 1),
    (Shape::Total(Aggregate::Sum(2)), 0, 1),
    (Shape::Group(Aggregate::Count), 1, 1),
    (Shape::Group(Aggregate::Sum(2)), 1, 1),
];

#[test]
fn a_thousand_changes_make_the_whole_output(rt: HostRuntime) -> Result<(), Fail> {
    for of in STAGES {
        let wrong = tens_until_wrong(rt.alloc(), of)?;
        assert!(rt; wrong.is_none(), "{wrong:?} of {of:?}");
    }
    Ok(())
}
