//! Bags of rows are gathered: a change is a list of signed rows, and the sum that of bags.
ghost use Rattle.std.specs.Prelude.{◌≡◌, ◌+◌, ◌++◌, IfOk, OnOk};
ghost use Rattle.row.specs.{Bags.IsAscending, Bags.times, Cells.Cells, Cells.row_cmp, Changes.IsCovered, BagChanges.with_records};
ghost use Rattle.partial.specs.{Sums.sum_of_bags, BagLaws.total_changes, BagLaws.total_fits};

use crate::gather::Gather;
use row::bag::Bag;
use row::record::Record;
use row::row::Row;
use std::alloc::{AllocError, Global};

impl Gather for Bag {
    type Change = Vec<Record>;

    ghost fits = { λ b c. IsCovered b c.items };

    ghost plus = { λ b c. with_records b c.items };

    ghost total = { sum_of_bags };

    ghost total_changes = { λ before after p c h. total_changes before after p c.items h };

    ghost total_fits = { λ before after p c h. total_fits before after p c.items h };

    /// Adds all rows that the records add, and then takes away those that they take away, so
    /// that their order does not matter. Cost: for each record, that of a bag's `add` or
    /// `subtract`.
    fn apply(&mut self, alloc: Global, change: &Vec<Record>) -> Result<(), AllocError> {
        Bag::apply(self, alloc, change)
    }

    /// The bag of all rows of the pieces. Cost: for each piece that of a merge with those before it,
    /// which copies each row and compares as often at most; none where only one has rows, and where one
    /// of the two has eight times as many that of `Bag::append`.
    fn gather(alloc: Global, pieces: Vec<Bag>) -> Result<Bag, AllocError>
        ensures { IfOk result (λ e. e ≡ sum_of_bags pieces.items) }
    {
        sum(alloc, pieces)
    }
}

/// The sum of the bags.
#[tactic(auto, using(crate::proofs::BagSums::sum_is))]
fn sum(alloc: Global, pieces: Vec<Bag>) -> Result<Bag, AllocError>
    ensures { IfOk result (λ e. e ≡ sum_of_bags pieces.items) }
{
    let mut all = Bag::new(alloc);
    for piece in pieces {
        all = both(alloc, all, piece)?;
    }
    let _ = all.rows();
    Ok(all)
}

/// From how many times as many rows on a bag takes those of a shorter one row by row.
const FAR_LONGER: usize = 8;

/// The bag of the rows of both. Errors: memory only. Cost: constant where one of them is empty; where
/// one has eight times as many rows as the other that of `Bag::append`, else that of `merged`.
fn both(alloc: Global, mut first: Bag, second: Bag) -> Result<Bag, AllocError>
    ensures { IfOk result (λ b. (z : Cells) → times row_cmp z b
        ≡ times row_cmp z first + times row_cmp z second) }
{
    let (shorter, longer) = (first.len().min(second.len()), first.len().max(second.len()));
    if longer / FAR_LONGER >= shorter {
        first.append(second)?;
        return Ok(first);
    }
    let rows = merged(alloc, first.rows(), second.rows())?;
    Ok(Bag::of_ordered(alloc, rows))
}

/// The rows of both, which are in order, in order. Errors: memory only. Cost: a copy of each row, and at
/// most as many comparisons.
fn merged(alloc: Global, first: &[Row], second: &[Row]) -> Result<Vec<Row>, AllocError>
    requires first { IsAscending row_cmp first.now }
    requires second { IsAscending row_cmp second.now }
    ensures in_order { IfOk result (λ v. IsAscending row_cmp v.items) }
    ensures counts { IfOk result (λ v. (z : Cells) → times row_cmp z v.items
        ≡ times row_cmp z first.now + times row_cmp z second.now) }
{
    let mut all = Vec::with_capacity(alloc, first.len().saturating_add(second.len()))?;
    let (mut i, mut j) = (0, 0);
    while i < first.len() && j < second.len() {
        let (row, other) = (&first[i], &second[j]);
        if row.cmp(other).is_gt() {
            all.push(other.try_clone(alloc)?)?;
            j += 1;
        } else {
            all.push(row.try_clone(alloc)?)?;
            i += 1;
        }
    }
    copy_each(alloc, &first[i..], &mut all)?;
    copy_each(alloc, &second[j..], &mut all)?;
    Ok(all)
}

/// Puts a copy of each row behind those that are there. Errors: memory only.
fn copy_each(alloc: Global, rows: &[Row], all: &mut Vec<Row>) -> Result<(), AllocError>
    ensures { OnOk result (all.new.items ≡ all.old.items ++ rows.now) }
{
    for row in rows {
        all.push(row.try_clone(alloc)?)?;
    }
    Ok(())
}
