//! Values and rows as constants, and made of them.
use row::row::Row;
use row::value::Value;
use std::alloc::{AllocError, Global};

/// A value that needs no memory.
#[derive(Clone, Copy, Drop)]
pub enum Cell {
    Int(i128),
    Text(&'static str),
}

pub fn value(alloc: Global, cell: Cell) -> Result<Value, AllocError> {
    match cell {
        Cell::Int(number) => Value::number(alloc, number),
        Cell::Text(text) => Value::text(alloc, text),
    }
}

pub fn row(alloc: Global, cells: &[Cell]) -> Result<Row, AllocError> {
    let mut values = Vec::new(alloc);
    for cell in cells {
        values.push(value(alloc, *cell)?)?;
    }
    Row::new(alloc, values)
}
