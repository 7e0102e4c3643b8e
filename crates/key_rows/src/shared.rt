//! The rows of a key that copies share.
ghost use Rattle.std.specs.Prelude.{◌≡◌, ◌==◌, ◌<◌, IfOk, IfSome, Some, length, map, slice_get, slice_set};
ghost use Rattle.row.specs.{BagChanges.with_records, Bags.IsAscending, Bags.inserted, Bags.removed, Cells.row_cmp};
ghost use Rattle.placed_rows.specs.Here.{cells_at, IsWhole};
ghost use Rattle.key_rows.specs.Shared.{AreFew, IsAt, IsHeld, rows_at, rows_in};

use crate::changed::{ChangedRows, Kept};
use crate::list::PlacedRows;
use crate::pieces::PiecedRows;
use crate::replaced::{pair, replacing};
use crate::rows::Rows;
use placed_rows::in_place::InPlace;
use placed_rows::placed::PlacedRow;
use row::bag::Bag;
use row::record::{Record, Sign};
use row::row::Row;
use std::alloc::{AllocError, Global};
use std::marker::Model;
use std::sync::Arc;

/// So many rows lie in one place at most.
const MOST: usize = 16;

/// A bag of rows that its copies share, seen as the list of its rows in order. Up to four whose values
/// lie in them are in one piece of memory beside the count of the copies, and else up to 16 in one place.
/// More lie in pieces of at most 32, which a changed copy shares but for those in which a row came or went.
pub struct SharedRows {
    held: Held,
}

/// Where the rows lie.
#[derive(Drop)]
enum Held {
    None,
    One(Arc<[InPlace; 1]>),
    Two(Arc<[InPlace; 2]>),
    Three(Arc<[InPlace; 3]>),
    Four(Arc<[InPlace; 4]>),
    Many(Arc<Vec<PlacedRow>>),
    Pieces(Arc<PiecedRows>),
}

/// The rows where they lie.
#[derive(Clone, Copy)]
pub(crate) enum Place<'a> {
    Few(&'a [InPlace]),
    List(&'a [PlacedRow]),
    Pieces(&'a PiecedRows),
}

// What holds one drops it by this call, and need not know its parts.
impl Drop for SharedRows {
    fn drop(self) {
        let SharedRows { held: _ } = self;
    }
}

impl Model for SharedRows {
    ghost use Rattle.std.specs.Prelude.{List};
    ghost use Rattle.row.specs.{Cells.Datum, Cells.row_cmp, Bags.IsAscending};
    ghost use Rattle.key_rows.specs.Shared.{IsHeld, rows_in};

    ghost Value = { List (List Datum) };

    ghost view = { λ r. rows_in r.held };

    ghost invariant = { λ r. IsHeld r.held × IsAscending row_cmp (rows_in r.held) };
}

impl SharedRows {
    /// The rows of the bag, which nobody shares yet. Errors: memory only. Cost: a copy of each row.
    pub fn of(alloc: Global, bag: &Bag) -> Result<SharedRows, AllocError>
        ensures { IfOk result (λ r. r ≡ bag.now) }
    {
        shared(alloc, ChangedRows::list(PlacedRows::of(alloc, bag.rows())?))
    }

    // The rows where they lie. Constant time.
    #[inline]
    pub(crate) fn place(&self) -> Place<'_>
        ensures rows { rows_at result ≡ self.now }
        ensures at { IsAt result }
        ensures in_order { IsAscending row_cmp self.now }
    {
        match &self.held {
            Held::None => Place::Few(&[]),
            Held::One(rows) => Place::Few(rows.as_slice()),
            Held::Two(rows) => Place::Few(rows.as_slice()),
            Held::Three(rows) => Place::Few(rows.as_slice()),
            Held::Four(rows) => Place::Few(rows.as_slice()),
            Held::Many(rows) => Place::List(rows.as_slice()),
            Held::Pieces(rows) => Place::Pieces(rows),
        }
    }

    /// The rows in order, each as often as it is there. Constant time.
    #[inline]
    pub fn iter(&self) -> Rows<'_>
        ensures rows { result ≡ self.now }
        ensures in_order { IsAscending row_cmp self.now }
    {
        match self.place() {
            Place::Few(rows) => Rows::few(rows),
            Place::List(rows) => Rows::of(rows),
            Place::Pieces(rows) => rows.iter(),
        }
    }

    /// How many rows there are, a repeat counted each time. Constant time.
    pub fn len(&self) -> usize
        ensures { result ≡ length self.now }
    {
        match self.place() {
            Place::Few(rows) => rows.len(),
            Place::List(rows) => rows.len(),
            Place::Pieces(rows) => rows.len(),
        }
    }

    /// Whether there is no row. Constant time.
    pub fn is_empty(&self) -> bool
        ensures { result ≡ (length self.now == 0) }
    {
        self.len() == 0
    }

    /// The same rows: in the same memory or, where that has as many copies as can be counted, in
    /// memory of its own. Errors: memory only. Constant time: a step on a count that the copies
    /// share, for whichever threads have them.
    #[inline]
    pub fn try_clone(&self, alloc: Global) -> Result<SharedRows, AllocError>
        ensures { IfOk result (λ r. r ≡ self.now) }
    {
        match self.held.again() {
            Some(held) => Ok(SharedRows { held }),
            None => shared(alloc, self.copied(alloc, 0)?),
        }
    }

    /// The rows with the records applied as one change, as `Bag::apply` does; those that are shared
    /// stay. Errors: memory only. Cost, up to 16 rows: a copy of each row, and for each record a search
    /// by halves and a move of the rows behind its place; where one goes and one comes in its place, of a
    /// few, a look at each row, up to two comparisons and a copy of the rows. Else a step on the count of
    /// each piece of rows, and for each record a search by halves, a copy of the rows of one piece and a
    /// move of the pieces behind it.
    pub fn with_records(&self, alloc: Global, records: &[Record]) -> Result<SharedRows, AllocError>
        ensures { IfOk result (λ r. r ≡ with_records self.now records.now) }
    {
        if let Some((gone, come)) = pair(records)
            && let Some(rows) = self.with_other(alloc, gone, come)?
        {
            return Ok(rows);
        }
        let mut rows = self.copied(alloc, gains(records))?;
        rows.apply(alloc, records)?;
        shared(alloc, rows)
    }

    // The rows with another in the place of one that goes, where they are few and stay in order so.
    fn with_other(
        &self,
        alloc: Global,
        gone: &Row,
        come: &Row,
    ) -> Result<Option<SharedRows>, AllocError>
        ensures { IfOk result (λ o. IfSome o (λ r.
            r ≡ removed row_cmp gone.now (inserted row_cmp come.now self.now))) }
    {
        let Place::Few(few) = self.place() else {
            return Ok(None);
        };
        let Some((at, row)) = replacing(few, gone, come) else {
            return Ok(None);
        };
        let held = with_at(alloc, few, at, row)?;
        Ok(Some(SharedRows { held }))
    }

    // A copy of the rows, with room for so many more where they lie in one place.
    fn copied(&self, alloc: Global, more: usize) -> Result<ChangedRows, AllocError>
        ensures { IfOk result (λ r. r ≡ self.now) }
    {
        if let Place::Pieces(rows) = self.place() {
            return Ok(ChangedRows::pieces(rows.copied(alloc)?));
        }
        let room = self.len().saturating_add(more);
        Ok(ChangedRows::list(PlacedRows::copied(alloc, self.iter(), room)?))
    }

    /// The same rows as ones whose values their copies share. Errors: memory only. Cost: that of
    /// `RowView::to_row` for each.
    pub fn to_rows(&self, alloc: Global) -> Result<Vec<Row>, AllocError>
        ensures { IfOk result (λ v. v.items ≡ self.now) }
    {
        let mut rows = Vec::with_capacity(alloc, self.len())?;
        for row in self.iter() {
            rows.push(row.to_row(alloc)?)?;
        }
        Ok(rows)
    }

    /// The same rows as a bag. Errors: memory only. Cost: that of `to_rows`.
    pub fn to_bag(&self, alloc: Global) -> Result<Bag, AllocError>
        ensures { IfOk result (λ b. b ≡ self.now) }
    {
        let _ = self.place();
        Ok(Bag::of_ordered(alloc, self.to_rows(alloc)?))
    }
}

impl Held {
    // The same rows in the same memory; `None` where it has as many copies as can be counted.
    #[inline]
    fn again(&self) -> Option<Held>
        ensures rows { IfSome result (λ h. rows_in h ≡ rows_in self.now) }
        ensures held { IfSome result (λ h. IsHeld self.now → IsHeld h) }
    {
        match self {
            Held::None => Some(Held::None),
            Held::One(rows) => Some(Held::One(Arc::try_clone(rows).ok()?)),
            Held::Two(rows) => Some(Held::Two(Arc::try_clone(rows).ok()?)),
            Held::Three(rows) => Some(Held::Three(Arc::try_clone(rows).ok()?)),
            Held::Four(rows) => Some(Held::Four(Arc::try_clone(rows).ok()?)),
            Held::Many(rows) => Some(Held::Many(Arc::try_clone(rows).ok()?)),
            Held::Pieces(rows) => Some(Held::Pieces(Arc::try_clone(rows).ok()?)),
        }
    }
}

/// How many records add their row.
fn gains(records: &[Record]) -> usize {
    let mut count: usize = 0;
    for record in records {
        if let Sign::Plus = record.sign {
            count = count.saturating_add(1);
        }
    }
    count
}

/// The rows, which nobody shares yet. Errors: memory only. Cost: a move of each row that lies in one
/// place.
fn shared(alloc: Global, rows: ChangedRows) -> Result<SharedRows, AllocError>
    ensures { IfOk result (λ r. r ≡ rows) }
{
    match rows.into_kept() {
        Kept::List(rows) => of_list(alloc, rows),
        Kept::Pieces(rows) => of_pieces(alloc, rows),
    }
}

/// The rows, in pieces where they are many. Errors: memory only.
fn of_list(alloc: Global, rows: PlacedRows) -> Result<SharedRows, AllocError>
    ensures { IfOk result (λ r. r ≡ rows) }
{
    if rows.len() > MOST {
        return in_pieces(alloc, PiecedRows::of(alloc, rows)?);
    }
    let held = unshared(alloc, rows.into_rows())?;
    Ok(SharedRows { held })
}

/// The rows, in one place where they are few. Errors: memory only.
fn of_pieces(alloc: Global, rows: PiecedRows) -> Result<SharedRows, AllocError>
    ensures { IfOk result (λ r. r ≡ rows) }
{
    if rows.len() > MOST {
        return in_pieces(alloc, rows);
    }
    let held = unshared(alloc, rows.to_list(alloc)?.into_rows())?;
    Ok(SharedRows { held })
}

/// The rows in their pieces. Errors: memory only.
fn in_pieces(alloc: Global, rows: PiecedRows) -> Result<SharedRows, AllocError>
    ensures { IfOk result (λ r. r ≡ rows) }
{
    let _ = rows.len();
    let held = Held::Pieces(Arc::new(alloc, rows)?);
    Ok(SharedRows { held })
}

/// The rows, where nobody shares them yet. Errors: memory only.
fn unshared(alloc: Global, rows: Vec<PlacedRow>) -> Result<Held, AllocError>
    ensures rows { IfOk result (λ h. rows_in h ≡ rows.items) }
    ensures held { IfOk result IsHeld }
{
    if let Some(held) = few(alloc, &rows)? {
        return Ok(held);
    }
    Ok(Held::Many(Arc::new(alloc, rows)?))
}

/// Up to four rows whose values lie in them, where nobody shares them yet, and nothing of others. Errors:
/// memory only.
fn few(alloc: Global, rows: &[PlacedRow]) -> Result<Option<Held>, AllocError>
    ensures rows { IfOk result (λ few. IfSome few (λ h. rows_in h ≡ rows.now)) }
    ensures held { IfOk result (λ few. IfSome few IsHeld) }
{
    match rows.len() {
        0 => Ok(Some(Held::None)),
        1 => one(alloc, rows),
        2 => two(alloc, rows),
        3 => three(alloc, rows),
        4 => four(alloc, rows),
        _ => Ok(None),
    }
}

/// The row in the place, where its values lie in it.
fn in_place(rows: &[PlacedRow], at: usize) -> Option<InPlace>
    requires { at < length rows.now }
    ensures row { IfSome result (λ r. slice_get rows.now at ≡ Some (cells_at r)) }
    ensures whole { IfSome result IsWhole }
{
    rows[at].in_place()
}

/// The row, where its values lie in it. Errors: memory only.
fn one(alloc: Global, rows: &[PlacedRow]) -> Result<Option<Held>, AllocError>
    requires { length rows.now ≡ 1 }
    ensures rows { IfOk result (λ few. IfSome few (λ h. rows_in h ≡ rows.now)) }
    ensures held { IfOk result (λ few. IfSome few IsHeld) }
{
    let Some(first) = in_place(rows, 0) else {
        return Ok(None);
    };
    Ok(Some(of_few(alloc, &[first])?))
}

/// Both rows, where their values lie in them. Errors: memory only.
fn two(alloc: Global, rows: &[PlacedRow]) -> Result<Option<Held>, AllocError>
    requires { length rows.now ≡ 2 }
    ensures rows { IfOk result (λ few. IfSome few (λ h. rows_in h ≡ rows.now)) }
    ensures held { IfOk result (λ few. IfSome few IsHeld) }
{
    let Some(first) = in_place(rows, 0) else {
        return Ok(None);
    };
    let Some(second) = in_place(rows, 1) else {
        return Ok(None);
    };
    Ok(Some(of_few(alloc, &[first, second])?))
}

/// All three rows, where their values lie in them. Errors: memory only.
fn three(alloc: Global, rows: &[PlacedRow]) -> Result<Option<Held>, AllocError>
    requires { length rows.now ≡ 3 }
    ensures rows { IfOk result (λ few. IfSome few (λ h. rows_in h ≡ rows.now)) }
    ensures held { IfOk result (λ few. IfSome few IsHeld) }
{
    let Some(first) = in_place(rows, 0) else {
        return Ok(None);
    };
    let Some(second) = in_place(rows, 1) else {
        return Ok(None);
    };
    let Some(third) = in_place(rows, 2) else {
        return Ok(None);
    };
    Ok(Some(of_few(alloc, &[first, second, third])?))
}

/// All four rows, where their values lie in them. Errors: memory only.
fn four(alloc: Global, rows: &[PlacedRow]) -> Result<Option<Held>, AllocError>
    requires { length rows.now ≡ 4 }
    ensures rows { IfOk result (λ few. IfSome few (λ h. rows_in h ≡ rows.now)) }
    ensures held { IfOk result (λ few. IfSome few IsHeld) }
{
    let Some(first) = in_place(rows, 0) else {
        return Ok(None);
    };
    let Some(second) = in_place(rows, 1) else {
        return Ok(None);
    };
    let Some(third) = in_place(rows, 2) else {
        return Ok(None);
    };
    let Some(fourth) = in_place(rows, 3) else {
        return Ok(None);
    };
    Ok(Some(of_few(alloc, &[first, second, third, fourth])?))
}

/// Up to four rows whose values lie in them, where nobody shares them yet. Errors: memory only.
fn of_few(alloc: Global, rows: &[InPlace]) -> Result<Held, AllocError>
    requires { AreFew rows.now }
    ensures rows { IfOk result (λ h. rows_in h ≡ map cells_at rows.now) }
    ensures held { IfOk result IsHeld }
{
    Ok(match rows.len() {
        0 => Held::None,
        1 => Held::One(Arc::new(alloc, [rows[0]])?),
        2 => Held::Two(Arc::new(alloc, [rows[0], rows[1]])?),
        3 => Held::Three(Arc::new(alloc, [rows[0], rows[1], rows[2]])?),
        _ => Held::Four(Arc::new(alloc, [rows[0], rows[1], rows[2], rows[3]])?),
    })
}

/// The rows with another in this place, where nobody shares them yet. Errors: memory only.
fn with_at(alloc: Global, rows: &[InPlace], at: usize, row: InPlace) -> Result<Held, AllocError>
    requires few { AreFew rows.now }
    requires small { at < length rows.now }
    requires whole { IsWhole row }
    ensures rows { IfOk result (λ h. rows_in h ≡ slice_set (map cells_at rows.now) at (cells_at row)) }
    ensures held { IfOk result IsHeld }
{
    let mut few = [InPlace::blank(); 4];
    let few = &mut few[..rows.len()];
    few.copy_from_slice(rows);
    few[at] = row;
    of_few(alloc, few)
}
