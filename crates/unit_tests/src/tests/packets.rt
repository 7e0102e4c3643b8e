//! Records that are split by the shard of a column.
use super::cells::Cell::Int;
use super::cells::row;
use packet::split::split;
use row::record::{Record, Sign};
use std::alloc::{AllocError, Global};
use std::test::Fail;

// The helpers have no clause, so that what a call says is not carried on to the next one.
fn record(alloc: Global, number: i128, sign: Sign) -> Result<Record, AllocError> {
    Ok(Record {
        row: row(alloc, &[Int(number)])?,
        sign,
    })
}

fn records(alloc: Global, numbers: &[i128]) -> Result<Vec<Record>, AllocError> {
    let mut all = Vec::new(alloc);
    for number in numbers {
        all.push(record(alloc, *number, Sign::Plus)?)?;
    }
    Ok(all)
}

// Whether the part has just the records of these numbers, in their order.
fn is_part(alloc: Global, part: &[Record], numbers: &[i128]) -> Result<bool, AllocError> {
    let wanted = records(alloc, numbers)?;
    let mut is = part.len() == wanted.len();
    for (had, want) in part.iter().zip(&wanted) {
        is = is && had.row == want.row && had.sign == want.sign;
    }
    Ok(is)
}

fn parts(alloc: Global, numbers: &[i128], column: usize) -> Result<Vec<Vec<Record>>, AllocError> {
    split(alloc, records(alloc, numbers)?, column, 3)
}

/// The numbers, and those of each of three parts by the first column.
const SPLITS: &[(&[i128], [&[i128]; 3])] = &[
    (&[], [&[], &[], &[]]),
    (&[5, 3, 4, 0, 5], [&[3, 0], &[4], &[5, 5]]),
    (&[-1, 2], [&[], &[], &[-1, 2]]),
];

fn splits_right(alloc: Global) -> Result<bool, AllocError> {
    let mut is = true;
    for (numbers, wanted) in SPLITS {
        let parts = parts(alloc, numbers, 0)?;
        is = is && parts.len() == 3;
        for (part, want) in parts.iter().zip(wanted) {
            is = is_part(alloc, part, want)? && is;
        }
    }
    Ok(is)
}

#[test]
fn records_are_split(rt: HostRuntime) -> Result<(), Fail> {
    assert!(rt; splits_right(rt.alloc())?);
    Ok(())
}

// A record without the column is of no part.
#[test]
fn none_has_the_column(rt: HostRuntime) -> Result<(), Fail> {
    let parts = parts(rt.alloc(), &[1, 2], 1)?;
    assert!(rt; parts.iter().all(|part| part.is_empty()));
    Ok(())
}
