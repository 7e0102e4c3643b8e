//! Numbers in rows: their sums and their order.
ghost use Rattle.std.specs.Prelude.{◌≡◌, map, true};
ghost use Rattle.std.specs.List.{list_all};
ghost use Rattle.row.specs.{Cells.datum_of, Cells.cell_at, Cells.row_cmp, Packed.whole, Numbers.number_of, Numbers.is_small_at, Numbers.sum_of};

use crate::row::Row;
use crate::value::Value;
use std::cmp::Ordering;

/// The number that the value is; 0 for a text.
fn number_of(value: &Value) -> i128
    ensures { result ≡ number_of (datum_of value.now) }
{
    value.as_number().unwrap_or(0)
}

/// The number that the row has in the column; 0 for a text, and past the row's end. Takes no
/// memory.
pub fn number_at(row: &Row, column: usize) -> i128
    ensures { result ≡ number_of (cell_at row.now column) }
{
    number_of(row.cell_or_zero(column).value())
}

/// The exact sum of a column: numbers of 64 bits in as many rows as a slice can have stay within
/// 128 bits. Takes no memory. Cost: a look at each row.
pub fn sum(column: usize, rows: &[Row]) -> i128
    requires { list_all (is_small_at column) rows.now ≡ true }
    ensures { result ≡ sum_of column rows.now }
{
    let mut sum: i128 = 0;
    for row in rows {
        sum += number_at(row, column);
    }
    sum
}

/// How rows of these whole numbers stand to each other: number by number, and then by length. Takes no
/// memory.
#[inline]
pub fn compare_numbers(numbers: &[u32], others: &[u32]) -> Ordering
    ensures { result ≡ row_cmp (map whole numbers.now) (map whole others.now) }
{
    numbers.cmp(&others)
}
