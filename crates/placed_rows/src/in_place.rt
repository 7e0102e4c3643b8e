//! A row whose values lie in it.
ghost use Rattle.std.specs.Prelude.{◌≡◌, [], ◌∷◌, ℕ, ◌+◌, ◌^◌, ◌<◌, ◌≤◌, IfNone, IfSome, IsTrue, List, Some, length, slice_get};
ghost use Rattle.std.specs.Option.{option_map};
ghost use Rattle.row.specs.{Cells.row_cmp, Cells.text, Packed.whole};
ghost use Rattle.placed_rows.specs.{Here.cells_at, Here.IsWhole, Parts.cells_of, Values.datum_at, Values.row_of};

use crate::field::Field;
use arrayvec::ArrayString;
use row::number::compare_numbers;
use row::row::Row;
use std::cmp::Ordering;

/// A row of up to four values: a text of at most 24 bytes, and whole numbers below 2^32. It owns no other
/// memory, and is copied as it lies.
#[derive(Clone, Copy)]
pub struct InPlace {
    // (so many of the numbers stand before the text, and so many of those that are left behind it)
    before: u8,
    after: u8,
    numbers: [u32; 3],
    text: ArrayString<24>,
}

/// The values of a row that lie in it.
#[derive(Clone, Copy)]
pub(crate) struct Parts<'a> {
    before: &'a [u32],
    text: &'a str,
    after: &'a [u32],
}

impl Parts<'_> {
    /// How many numbers stand before the text.
    pub(crate) fn before(self) -> usize
        ensures { result ≡ length self.entry.before.now }
    {
        self.before.len()
    }

    /// How the row stands to one that has as many numbers before its text.
    #[inline]
    pub(crate) fn compare(self, other: Parts<'_>) -> Ordering
        requires { length self.before.now ≡ length other.before.now }
        ensures { result ≡ row_cmp (cells_of self.entry) (cells_of other.entry) }
    {
        let before = compare_numbers(self.before, other.before);
        if !before.is_eq() {
            return before;
        }
        let text = self.text.cmp(other.text);
        if !text.is_eq() {
            return text;
        }
        compare_numbers(self.after, other.after)
    }
}

impl InPlace {
    /// The row of so many of the numbers, the text, and so many of the numbers that are left.
    pub(crate) fn new(before: u8, after: u8, numbers: [u32; 3], of: ArrayString<24>) -> InPlace
        requires { before + after ≤ 3 }
        ensures cells { cells_at result ≡ row_of before after numbers of.bytes }
        ensures whole { IsWhole result }
    {
        InPlace {
            before,
            after,
            numbers,
            text: of,
        }
    }

    /// The row, where its values may lie in it. Takes no memory. Cost: a look at each value.
    pub fn of(row: &Row) -> Option<InPlace>
        ensures cells { IfSome result (λ r. cells_at r ≡ row.now) }
        ensures whole { IfSome result IsWhole }
    {
        let width = row.width();
        if width > 4 {
            return None;
        }
        let at = text_column(row)?;
        let text = short_text(row, at)?;
        let numbers = [
            number_beside(row, at, 0)?,
            number_beside(row, at, 1)?,
            number_beside(row, at, 2)?,
        ];
        Some(InPlace::new(at as u8, (width - 1 - at) as u8, numbers, text))
    }

    /// Whether the rows lie alike: then they are the same. Of two that are the same it may say no. Takes
    /// no memory.
    pub fn lies_as(&self, other: &InPlace) -> bool
        ensures { IsTrue result → cells_at self.now ≡ cells_at other.now }
    {
        self.before == other.before
            && self.after == other.after
            && self.numbers == other.numbers
            && self.text == other.text
    }

    /// A row of one empty text, for a place that is to hold another.
    #[inline]
    pub fn blank() -> InPlace
        ensures cells { cells_at result ≡ text [] ∷ [] }
        ensures whole { IsWhole result }
    {
        InPlace::new(0, 0, [0; 3], ArrayString::new())
    }

    /// How many values the row has. Constant time.
    pub(crate) fn width(&self) -> usize
        requires { IsWhole self.now }
        ensures { result ≡ length (cells_at self.now) }
    {
        usize::from(self.before) + 1 + usize::from(self.after)
    }

    /// The value in the column, if the row has that column. Constant time.
    #[inline]
    pub(crate) fn get(&self, column: usize) -> Option<Field<'_>>
        requires { IsWhole self.now }
        ensures { option_map datum_at result ≡ slice_get (cells_at self.now) column }
    {
        let before = usize::from(self.before);
        if column == before {
            Some(Field::Text(self.text.as_str()))
        } else if column < before {
            Some(Field::Number(self.numbers[column]))
        } else if column <= before + usize::from(self.after) {
            Some(Field::Number(self.numbers[column - 1]))
        } else {
            None
        }
    }

    /// The numbers and the text.
    #[inline]
    pub(crate) fn parts(&self) -> Parts<'_>
        requires { IsWhole self.now }
        ensures { cells_at self.now ≡ cells_of result }
    {
        let before = usize::from(self.before);
        let end = before + usize::from(self.after);
        Parts {
            before: &self.numbers[..before],
            text: self.text.as_str(),
            after: &self.numbers[before..end],
        }
    }
}

/// The first column that has no whole number below 2^32, if there is one.
fn text_column(row: &Row) -> Option<usize>
    ensures { IfSome result (λ at. at < length row.now) }
{
    for at in 0..row.width() {
        if small_number(row, at).is_none() {
            return Some(at);
        }
    }
    None
}

/// The text of at most 24 bytes in the column, if there is one.
fn short_text(row: &Row, at: usize) -> Option<ArrayString<24>>
    ensures some { IfSome result (λ t. slice_get row.now at ≡ Some (text t.bytes)) }
    ensures none { IfNone result ((t : List ℕ) → slice_get row.now at ≡ Some (text t)
        → 24 < length t) }
{
    let cell = row.get(at)?;
    ArrayString::from(cell.value().as_text()?).ok()
}

/// The whole number below 2^32 in the column, if there is one.
fn small_number(row: &Row, at: usize) -> Option<u32>
    ensures some { IfSome result (λ n. slice_get row.now at ≡ Some (whole n)) }
    ensures none { IfNone result ((n : ℕ) → slice_get row.now at ≡ Some (whole n)
        → 2 ^ 32 ≤ n) }
{
    let cell = row.get(at)?;
    u32::try_from(cell.value().as_number()?).ok()
}

/// The number in the column that is number `nth` where the one at `at` is left out: 0 where the row has
/// no such column, and none where it is no whole number below 2^32.
fn number_beside(row: &Row, at: usize, nth: usize) -> Option<u32>
    requires { nth < 3 }
    ensures before { IfSome result (λ n. nth < at → nth < length row.now
        → slice_get row.now nth ≡ Some (whole n)) }
    ensures behind { IfSome result (λ n. at ≤ nth → nth + 1 < length row.now
        → slice_get row.now (nth + 1) ≡ Some (whole n)) }
{
    let column = if nth < at { nth } else { nth + 1 };
    if column >= row.width() {
        return Some(0);
    }
    small_number(row, column)
}
