//! A value of a row where it lies.
ghost use Rattle.std.specs.Prelude.{◌≡◌, IfOk};
ghost use Rattle.std.specs.Option.{option_map};
ghost use Rattle.row.specs.Cells.{datum_cmp, datum_of, number_in, text_in};
ghost use Rattle.placed_rows.specs.Values.{datum_at};

use row::cells::Cell;
use row::value::Value;
use std::alloc::{AllocError, Global};
use std::cmp::Ordering;

/// A value of a row, where it lies.
pub enum Field<'a> {
    /// A whole number below 2^32.
    Number(u32),
    /// A text.
    Text(&'a str),
    /// Any value.
    Cell(Cell<'a>),
}

// What holds one drops it by this call, and need not know its parts.
impl Drop for Field<'_> {
    #[inline]
    fn drop(self) {
        match self {
            Field::Number(_) | Field::Text(_) => (),
            Field::Cell(cell) => drop(cell),
        }
    }
}

impl Field<'_> {
    /// The number that the value is, if it is one. Takes no memory.
    pub fn as_number(&self) -> Option<i128>
        ensures { result ≡ number_in (datum_at self.now) }
    {
        match self {
            Field::Number(number) => Some(i128::from(*number)),
            Field::Text(_) => None,
            Field::Cell(cell) => cell.value().as_number(),
        }
    }

    /// The text that the value is, if it is one. Takes no memory.
    pub fn as_text(&self) -> Option<&str>
        ensures { option_map (λ s. s.now) result ≡ text_in (datum_at self.now) }
    {
        match self {
            Field::Number(_) => None,
            Field::Text(text) => Some(*text),
            Field::Cell(cell) => cell.value().as_text(),
        }
    }

    /// The value in memory of its own. Errors: memory only, and a number of 64 bits needs none.
    pub fn to_value(&self, alloc: Global) -> Result<Value, AllocError>
        ensures { IfOk result (λ v. datum_of v ≡ datum_at self.now) }
    {
        match self {
            Field::Number(number) => Ok(Value::Int(i64::from(*number))),
            Field::Text(text) => Value::text(alloc, text),
            Field::Cell(cell) => cell.value().try_clone(alloc),
        }
    }

    /// How the value stands to the other: as `Value::compare` says. Takes no memory.
    #[inline]
    pub fn compare(&self, other: &Field<'_>) -> Ordering
        ensures { result ≡ datum_cmp (datum_at self.now) (datum_at other.now) }
    {
        match (self, other) {
            (Field::Number(number), Field::Number(other)) => number.cmp(other),
            _ => match (self.as_text(), other.as_text()) {
                (Some(text), Some(other)) => text.cmp(other),
                (Some(_), None) => Ordering::Greater,
                (None, Some(_)) => Ordering::Less,
                (None, None) => self.as_number().cmp(&other.as_number()),
            },
        }
    }
}
