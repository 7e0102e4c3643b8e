//! A bag of rows: a row counts as often as it was added and not taken away.
ghost use Rattle.std.specs.Prelude.{◌≡◌, ◌==◌, ◌<◌, ◌≤◌, ◌+◌, ◌∷◌, List, [], length, true, false, ◌↔◌, IsTrue, IfOk, OnOk, OnErr};
ghost use Rattle.std.specs.Ordering.{is_gt};
ghost use Rattle.std.specs.List.Sorted.{IsPartitionPoint};
ghost use Rattle.row.specs.{Cells.row_cmp, Bags.times, Bags.inserted, Bags.removed, Bags.sorted, Bags.IsAscending, Cells.Cells, BagChanges.plus_applied, BagChanges.minus_applied, BagChanges.taken_back, BagChanges.with_gains, BagChanges.with_losses, BagChanges.with_records};

use crate::record::{Record, Sign};
use crate::row::Row;
use crate::rows::Rows;
use std::alloc::{AllocError, Global};
use std::marker::Model;
use std::mem;

/// A bag of rows, seen as the list of its rows in order, each as often as it is there. A bag
/// that never had two rows takes no memory.
#[derive(Debug)]
pub struct Bag {
    alloc: Global,
    rows: Rows,
}

// What holds one drops it by this call, and need not know its parts.
impl Drop for Bag {
    fn drop(self) {
        let Bag { alloc: _, rows: _ } = self;
    }
}

impl Model for Bag {
    ghost use Rattle.std.specs.Prelude.{List};
    ghost use Rattle.row.specs.{Cells.Datum, Cells.row_cmp, Bags.IsAscending, Held.rows_in};

    ghost Value = { List (List Datum) };

    ghost view = { λ b. rows_in b.rows };

    ghost invariant = { λ b. IsAscending row_cmp (rows_in b.rows) };
}

impl Bag {
    /// The bag of no rows. Takes no memory yet.
    pub fn new(alloc: Global) -> Bag
        ensures { result ≡ [] }
    {
        Bag {
            alloc,
            rows: Rows::None,
        }
    }

    /// The bag of these rows. Errors: memory only. Cost: a look at each row where they are in order,
    /// else a sort of them; none is copied.
    pub fn of(alloc: Global, mut rows: Vec<Row>) -> Result<Bag, AllocError>
        ensures { IfOk result (λ b. b ≡ sorted row_cmp rows.items) }
    {
        rows.sort()?;
        let rows = Rows::of(rows);
        Ok(Bag { alloc, rows })
    }

    /// The bag of these rows, which are in order. Takes no memory. Constant time: it looks at none of
    /// them.
    pub fn of_ordered(alloc: Global, rows: Vec<Row>) -> Bag
        requires { IsAscending row_cmp rows.items }
        ensures { result ≡ rows.items }
    {
        let rows = Rows::of(rows);
        Bag { alloc, rows }
    }

    /// The bag of one row. Takes no memory.
    pub fn of_one(alloc: Global, row: Row) -> Bag
        ensures { result ≡ row ∷ [] }
    {
        let rows = Rows::One(row);
        Bag { alloc, rows }
    }

    /// The rows in order, each as often as it is in the bag. Constant time.
    pub fn rows(&self) -> &[Row]
        ensures rows { result.now ≡ self.now }
        ensures in_order { IsAscending row_cmp self.now }
    {
        self.rows.as_slice()
    }

    /// How many rows there are, a repeat counted each time. Constant time.
    pub fn len(&self) -> usize
        ensures { result ≡ length self.now }
    {
        self.rows().len()
    }

    /// Whether there is no row. Constant time.
    pub fn is_empty(&self) -> bool
        ensures { result ≡ (length self.now == 0) }
    {
        self.rows().is_empty()
    }

    /// Whether the row is there at least once. Takes no memory. Finds the place by halves.
    pub fn contains(&self, row: &Row) -> bool
        ensures { IsTrue result ↔ 0 < times row_cmp row.now self.now }
    {
        self.has_at(place(self.rows(), row), row)
    }

    // Whether the row is there at least once, given the place where it would be.
    fn has_at(&self, at: usize, row: &Row) -> bool
        requires small { at ≤ length self.now }
        requires place { IsPartitionPoint (λ y. is_gt (row_cmp row.now y) ≡ true)
            (λ y. is_gt (row_cmp row.now y) ≡ false) self.now at }
        ensures { IsTrue result ↔ 0 < times row_cmp row.now self.now }
    {
        let rows = self.rows();
        at < rows.len() && row.cmp(&rows[at]).is_eq()
    }

    /// Adds one of the row, beside those that are there. Errors: memory only; then the bag is as it
    /// was. Finds the place by halves, and moves the rows behind it.
    pub fn add(&mut self, row: Row) -> Result<(), AllocError>
        ensures added { OnOk result (self.new ≡ inserted row_cmp row self.old) }
        ensures err { OnErr result (self.new ≡ self.old) }
    {
        let at = place(self.rows.as_slice(), &row);
        self.rows.insert(self.alloc, at, row)?;
        Ok(())
    }

    /// Adds each row of the other, beside those that are there. Errors: memory only; then the bag may
    /// lack rows of either. Cost: for each row of the shorter bag that of `add` to the longer, whose
    /// list, where it has more than two rows, grows once at most; none is copied.
    pub fn append(&mut self, mut other: Bag) -> Result<(), AllocError>
        ensures counts { OnOk result ((z : Cells) → times row_cmp z self.new
            ≡ times row_cmp z self.old + times row_cmp z other) }
    {
        if self.len() < other.len() {
            mem::swap(self, &mut other);
        }
        self.rows.reserve(other.len())?;
        self.add_all(other)
    }

    // Adds each row of the other.
    fn add_all(&mut self, other: Bag) -> Result<(), AllocError>
        ensures counts { OnOk result ((z : Cells) → times row_cmp z self.new
            ≡ times row_cmp z self.old + times row_cmp z other) }
    {
        let Bag { alloc: _, rows } = other;
        match rows {
            Rows::None => {}
            Rows::One(row) => self.add(row)?,
            Rows::Many(rows) => self.add_each(rows)?,
        }
        Ok(())
    }

    // Adds each row.
    fn add_each(&mut self, rows: Vec<Row>) -> Result<(), AllocError>
        ensures { OnOk result ((z : Cells) → times row_cmp z self.new
            ≡ times row_cmp z self.old + times row_cmp z rows.items) }
    {
        for row in rows {
            self.add(row)?;
        }
        Ok(())
    }

    /// Takes away one of the row, which is there; further ones stay. Takes no memory. Finds
    /// the place by halves, and moves the rows behind it.
    pub fn subtract(&mut self, row: &Row)
        requires { 0 < times row_cmp row.now self.old }
        ensures { self.new ≡ removed row_cmp row.now self.old }
    {
        let at = place(self.rows(), row);
        self.take_at(at, row);
    }

    // Takes away one of the row, which is there from this place on.
    fn take_at(&mut self, at: usize, row: &Row)
        requires small { at ≤ length self.old }
        requires place { IsPartitionPoint (λ y. is_gt (row_cmp row.now y) ≡ true)
            (λ y. is_gt (row_cmp row.now y) ≡ false) self.old at }
        requires there { 0 < times row_cmp row.now self.old }
        ensures { self.new ≡ removed row_cmp row.now self.old }
    {
        self.rows.remove(at);
    }

    /// Applies the records as one change: adds all rows that they add, and then takes away those
    /// that they take away, so that their order does not matter. A row that is not there is not
    /// taken away. Errors: memory only; then the bag is as it was. Cost: for each record, that of
    /// `add` with a copy of the row, or of `subtract`.
    pub fn apply(&mut self, alloc: Global, records: &[Record]) -> Result<(), AllocError>
        ensures applied { OnOk result (self.new ≡ with_records self.old records.now) }
        ensures err { OnErr result (self.new ≡ self.old) }
    {
        self.gain_all(alloc, records)?;
        self.lose_all(records);
        Ok(())
    }

    // Adds the rows that the records add. Where memory is refused, those that were added go again.
    fn gain_all(&mut self, alloc: Global, records: &[Record]) -> Result<(), AllocError>
        ensures gained { OnOk result (self.new ≡ with_gains self.old records.now) }
        ensures err { OnErr result (self.new ≡ self.old) }
    {
        let mut done = 0;
        while done < records.len() {
            if self.gain(alloc, &records[done]).is_err() {
                while done > 0 {
                    done -= 1;
                    self.take_back(&records[done]);
                }
                return Err(AllocError);
            }
            done += 1;
        }
        Ok(())
    }

    // Adds the record's row, where the record adds it.
    fn gain(&mut self, alloc: Global, signed: &Record) -> Result<(), AllocError>
        ensures gained { OnOk result (self.new ≡ plus_applied signed.now.sign signed.now.row
            self.old) }
        ensures err { OnErr result (self.new ≡ self.old) }
    {
        match signed.sign {
            Sign::Plus => self.add(signed.row.try_clone(alloc)?),
            Sign::Minus => Ok(()),
        }
    }

    // Takes the record's row away again, where the record had added it.
    fn take_back(&mut self, signed: &Record)
        requires { signed.now.sign ≡ Sign.Plus → 0 < times row_cmp signed.now.row self.old }
        ensures { self.new ≡ taken_back signed.now.sign signed.now.row self.old }
    {
        match signed.sign {
            Sign::Plus => self.subtract(&signed.row),
            Sign::Minus => {}
        }
    }

    // Takes away the rows that the records take away.
    fn lose_all(&mut self, records: &[Record])
        ensures { self.new ≡ with_losses self.old records.now }
    {
        for signed in records {
            self.lose(signed);
        }
    }

    // Takes away the record's row, where the record takes it away and it is there.
    fn lose(&mut self, signed: &Record)
        ensures { self.new ≡ minus_applied signed.now.sign signed.now.row self.old }
    {
        match signed.sign {
            Sign::Plus => {}
            Sign::Minus => self.take_away(&signed.row),
        }
    }

    // Takes away one of the row, where it is there.
    fn take_away(&mut self, row: &Row)
        ensures { self.new ≡ removed row_cmp row.now self.old }
    {
        let at = place(self.rows(), row);
        if self.has_at(at, row) {
            self.take_at(at, row);
        }
    }
}

/// Where the rows that are below the given one end, in rows that are in order.
fn place(rows: &[Row], row: &Row) -> usize
    requires { IsAscending row_cmp rows.now }
    ensures small { result ≤ length rows.now }
    ensures place { IsPartitionPoint (λ y. is_gt (row_cmp row.now y) ≡ true)
        (λ y. is_gt (row_cmp row.now y) ≡ false) rows.now result }
{
    rows.partition_point(|other| row.cmp(other).is_gt())
}
