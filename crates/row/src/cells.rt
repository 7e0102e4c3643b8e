//! The values of a row, as it keeps them.
ghost use Rattle.std.specs.Prelude.{◌≡◌, ◌<◌, ◌≤◌, ◌++◌, ◌+◌, ◌∷◌, [], length, map, IfOk, IfSome, OnOk, Some, slice_get};
ghost use Rattle.std.specs.Option.{option_map};
ghost use Rattle.row.specs.Cells.{Datum, datum_cmp, datum_of};
ghost use Rattle.row.specs.Packed.{datum_at, datum_in, packed, whole};

use crate::value::Value;
use std::alloc::{AllocError, Global};
use std::cmp::Ordering;
use std::marker::Model;

/// A value of a row: made of a number that the row keeps in fewer bits, or where the row keeps it.
#[derive(Debug, Drop)]
pub enum Cell<'a> {
    /// Made of its number.
    Made(Value),
    /// Where the row keeps it.
    Kept(&'a Value),
}

impl Cell<'_> {
    /// The value. Constant time.
    pub fn value(&self) -> &Value
        ensures { datum_of result.now ≡ datum_in self.now }
    {
        match self {
            Cell::Made(value) => value,
            Cell::Kept(value) => value,
        }
    }
}

/// A value of a row as the row keeps it.
#[derive(Clone, Copy)]
pub(crate) enum Slot<'a> {
    /// A number in fewer bits.
    Number(u32),
    /// A value.
    Value(&'a Value),
}

impl<'a> Slot<'a> {
    /// The value by itself.
    #[inline]
    pub(crate) fn into_cell(self) -> Cell<'a>
        ensures { datum_in result ≡ datum_at self.entry }
    {
        match self {
            Slot::Number(number) => Cell::Made(value_of(number)),
            Slot::Value(value) => Cell::Kept(value),
        }
    }

    /// How the value stands to the other. Takes no memory.
    #[inline]
    pub(crate) fn compare(self, other: Slot<'_>) -> Ordering
        ensures { result ≡ datum_cmp (datum_at self.entry) (datum_at other.entry) }
    {
        match (self, other) {
            (Slot::Number(number), Slot::Number(other)) => number.cmp(&other),
            (Slot::Value(value), Slot::Value(other)) => value.cmp(other),
            (Slot::Number(number), Slot::Value(other)) => value_of(number).cmp(other),
            (Slot::Value(value), Slot::Number(other)) => value.cmp(&value_of(other)),
        }
    }
}

/// The values of a row from the first column on, in 32 bytes.
#[derive(Debug, Drop)]
pub(crate) struct Cells {
    kept: Kept,
}

/// How the values are kept. A row of up to four values, of which all but one are whole numbers
/// below 2^32, is packed.
#[derive(Debug, Drop)]
enum Kept {
    /// So many of the numbers before the one value, and so many of them behind it.
    Packed {
        before: u8,
        after: u8,
        numbers: [u32; 3],
        value: Value,
    },
    /// Any values.
    Many(Vec<Value>),
}

impl Model for Cells {
    ghost use Rattle.std.specs.Prelude.{List};
    ghost use Rattle.row.specs.Cells.{Datum};
    ghost use Rattle.row.specs.Packed.{cells_in, Fits};

    ghost Value = { List Datum };

    ghost view = { λ c. cells_in c.kept };

    ghost invariant = { λ c. Fits c.kept };
}

impl Cells {
    /// No value. Takes no memory.
    pub(crate) fn new(alloc: Global) -> Cells
        ensures { result ≡ [] }
    {
        Cells {
            kept: Kept::Many(Vec::new(alloc)),
        }
    }

    /// These values.
    pub(crate) fn of(alloc: Global, values: Vec<Value>) -> Result<Cells, AllocError>
        ensures { IfOk result (λ cells. cells ≡ map datum_of values.items) }
    {
        if values.len() > 4 {
            return Ok(Cells {
                kept: Kept::Many(values),
            });
        }
        let mut cells = Cells::new(alloc);
        for value in values {
            cells = cells.with(alloc, value)?;
        }
        Ok(cells)
    }

    /// The same values, and room for one more where each has a place of its own. Errors: memory only,
    /// which packed ones need for a value of the kept one alone. Cost: a copy of each value that is no
    /// packed number.
    pub(crate) fn copied(&self, alloc: Global) -> Result<Cells, AllocError>
        ensures { IfOk result (λ cells. cells ≡ self.now) }
    {
        match &self.kept {
            Kept::Packed {
                before,
                after,
                numbers,
                value,
            } => {
                let value = value.try_clone(alloc)?;
                Ok(packed_in(*before, *after, *numbers, value))
            }
            Kept::Many(values) => Ok(Cells {
                kept: Kept::Many(copies_of(alloc, values)?),
            }),
        }
    }

    /// How many values.
    pub(crate) fn len(&self) -> usize
        ensures { result ≡ length self.now }
    {
        match &self.kept {
            Kept::Packed { before, after, .. } => usize::from(*before) + 1 + usize::from(*after),
            Kept::Many(values) => values.len(),
        }
    }

    /// The value in the column as it is kept, if there is one.
    #[inline]
    pub(crate) fn slot(&self, at: usize) -> Option<Slot<'_>>
        ensures { option_map datum_at result ≡ slice_get self.now at }
    {
        match &self.kept {
            Kept::Packed {
                before,
                after,
                numbers,
                value,
            } => {
                let before = usize::from(*before);
                if at == before {
                    Some(Slot::Value(value))
                } else if at < before {
                    Some(Slot::Number(numbers[at]))
                } else if at <= before + usize::from(*after) {
                    Some(Slot::Number(numbers[at - 1]))
                } else {
                    None
                }
            }
            Kept::Many(values) => {
                if at < values.len() {
                    Some(Slot::Value(&values[at]))
                } else {
                    None
                }
            }
        }
    }

    /// The number below 2^32 in the column, if there is one.
    pub(crate) fn number(&self, at: usize) -> Option<u32>
        ensures { IfSome result (λ n. slice_get self.now at ≡ Some (whole n)) }
    {
        match self.slot(at)? {
            Slot::Number(number) => Some(number),
            Slot::Value(value) => small_of(value),
        }
    }

    /// These values and then the value. Errors: memory only, which is not needed while they are
    /// packed.
    pub(crate) fn with(self, alloc: Global, value: Value) -> Result<Cells, AllocError>
        ensures { IfOk result (λ cells. cells ≡ self ++ datum_of value ∷ []) }
    {
        let Cells { kept } = self;
        match kept {
            Kept::Packed {
                before,
                after,
                numbers,
                value: first,
            } => packed_with(alloc, before, after, numbers, first, value),
            Kept::Many(values) => many_with(values, value),
        }
    }
}

/// The same values, with room for one more.
fn copies_of(alloc: Global, values: &[Value]) -> Result<Vec<Value>, AllocError>
    ensures { IfOk result (λ all. map datum_of all.items ≡ map datum_of values.now) }
{
    let mut all = Vec::with_capacity(alloc, values.len().saturating_add(1))?;
    for value in values {
        all.push(value.try_clone(alloc)?)?;
    }
    Ok(all)
}

/// The value of a number.
fn value_of(number: u32) -> Value
    ensures { datum_of result ≡ whole number }
{
    Value::Int(i64::from(number))
}

/// The number that the value is, if it is one below 2^32.
fn small_of(value: &Value) -> Option<u32>
    ensures { IfSome result (λ n. datum_of value.now ≡ whole n) }
{
    match value {
        Value::Int(number) => u32::try_from(*number).ok(),
        Value::Long(_) | Value::Short(_) | Value::Text(_) => None,
    }
}

/// The value, with so many of the numbers before it and so many behind.
fn packed_in(before: u8, after: u8, numbers: [u32; 3], value: Value) -> Cells
    requires { before + after ≤ 3 }
    ensures { result ≡ packed before after numbers (datum_of value) }
{
    Cells {
        kept: Kept::Packed {
            before,
            after,
            numbers,
            value,
        },
    }
}

/// One value more behind packed ones: packed too where it, or the one that is kept first, is a
/// whole number below 2^32.
fn packed_with(
    alloc: Global,
    before: u8,
    after: u8,
    numbers: [u32; 3],
    kept: Value,
    value: Value,
) -> Result<Cells, AllocError>
    requires { before + after ≤ 3 }
    ensures { IfOk result (λ cells. cells
        ≡ packed before after numbers (datum_of kept) ++ datum_of value ∷ []) }
{
    let width = usize::from(before) + usize::from(after);
    if width < 3 {
        if let Some(small) = small_of(&value) {
            let mut numbers = numbers;
            numbers[width] = small;
            return Ok(packed_in(before, after + 1, numbers, kept));
        }
        if before == 0
            && let Some(small) = small_of(&kept)
        {
            let numbers = [small, numbers[0], numbers[1]];
            return Ok(packed_in(after + 1, 0, numbers, value));
        }
    }
    unpacked(alloc, before, after, numbers, kept, value)
}

/// Packed values and one more, each by itself.
fn unpacked(
    alloc: Global,
    before: u8,
    after: u8,
    numbers: [u32; 3],
    kept: Value,
    value: Value,
) -> Result<Cells, AllocError>
    requires { before + after ≤ 3 }
    ensures { IfOk result (λ cells. cells
        ≡ packed before after numbers (datum_of kept) ++ datum_of value ∷ []) }
{
    let before = usize::from(before);
    let width = before + usize::from(after);
    let mut values = Vec::with_capacity(alloc, width + 2)?;
    push_numbers(&mut values, &numbers[..before])?;
    values.push(kept)?;
    push_numbers(&mut values, &numbers[before..width])?;
    values.push(value)?;
    Ok(Cells {
        kept: Kept::Many(values),
    })
}

/// Adds the values of the numbers at the end.
fn push_numbers(values: &mut Vec<Value>, numbers: &[u32]) -> Result<(), AllocError>
    ensures { OnOk result (map datum_of values.new.items
        ≡ map datum_of values.old.items ++ map whole numbers.now) }
{
    for number in numbers {
        values.push(Value::Int(i64::from(*number)))?;
    }
    Ok(())
}

/// One value more; the first is packed.
fn many_with(values: Vec<Value>, value: Value) -> Result<Cells, AllocError>
    ensures { IfOk result (λ cells. cells ≡ map datum_of values.items ++ datum_of value ∷ []) }
{
    if values.is_empty() {
        return Ok(packed_in(0, 0, [0; 3], value));
    }
    let mut values = values;
    values.push(value)?;
    Ok(Cells {
        kept: Kept::Many(values),
    })
}
