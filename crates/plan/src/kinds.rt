//! Words of a plan that hold numbers alone.
ghost use Rattle.std.specs.Prelude.{◌≡◌};
ghost use Rattle.row.specs.Cells.{datum_of};
ghost use Rattle.plan.specs.{Kinds.is_cell, Kinds.is_plain, Outputs.compares};

use row::value::Value;
use std::cmp::Ordering;

/// The kind of a column's cells.
#[derive(Clone, Copy, PartialEq, Eq, Debug)]
pub enum Kind {
    Int,
    Text,
}

impl Kind {
    /// Whether the value is a cell of the kind: a number of 64 bits, or a text of at most 255
    /// bytes from 0x20 to 0x7E. A text costs a look at each of its first 255 bytes.
    pub fn takes(self, value: &Value) -> bool
        ensures { result ≡ is_cell self (datum_of value.now) }
    {
        match (self, value.as_number(), value.as_text()) {
            (Kind::Int, Some(number), _) => i64::try_from(number).is_ok(),
            (Kind::Text, _, Some(text)) => is_plain(text.as_bytes()),
            _ => false,
        }
    }
}

pub(crate) fn is_plain(bytes: &[u8]) -> bool
    ensures { result ≡ is_plain bytes.now }
{
    if bytes.len() > 255 {
        return false;
    }
    for b in bytes {
        if *b < 32 || 126 < *b {
            return false;
        }
    }
    true
}

/// How a cell is compared with a condition's value.
#[derive(Clone, Copy, PartialEq, Eq, Debug)]
pub enum Op {
    Equal,
    NotEqual,
    Less,
    AtMost,
    Greater,
    AtLeast,
}

impl Op {
    /// Whether a cell that stands so to the condition's value passes.
    pub fn compares(self, order: Ordering) -> bool
        ensures { result ≡ compares self order }
    {
        match self {
            Op::Equal => order.is_eq(),
            Op::NotEqual => !order.is_eq(),
            Op::Less => order.is_lt(),
            Op::AtMost => order.is_le(),
            Op::Greater => order.is_gt(),
            Op::AtLeast => order.is_ge(),
        }
    }
}

/// An aggregate of rows: their number, or the sum of a column of theirs.
#[derive(Clone, Copy, PartialEq, Eq, Debug)]
pub enum Aggregate {
    Count,
    Sum(usize),
}
