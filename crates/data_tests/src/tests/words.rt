//! Values, rows, records and entries, as words and made of them.
use model::entry::Entry;
use row::record::{Record, Sign};
use row::row::Row;
use row::value::Value;
use std::alloc::{AllocError, Global};

/// A number where the word is one, else a text; `""` is the empty text.
pub fn value(alloc: Global, word: &str) -> Result<Value, AllocError> {
    if word == "\"\"" {
        return Value::text(alloc, "");
    }
    match word.parse::<i64>() {
        Ok(number) => Ok(Value::Int(number)),
        Err(_) => Value::text(alloc, word),
    }
}

/// A row of the words.
pub fn row(alloc: Global, words: &str) -> Result<Row, AllocError> {
    let mut values = Vec::new(alloc);
    for word in words.split(' ') {
        values.push(value(alloc, word)?)?;
    }
    Row::new(alloc, values)
}

/// Rows with `;` between each two; no text is no row.
pub fn rows(alloc: Global, text: &str) -> Result<Vec<Row>, AllocError> {
    let mut all = Vec::new(alloc);
    for words in text.split(';') {
        if !words.is_empty() {
            all.push(row(alloc, words)?)?;
        }
    }
    Ok(all)
}

/// Adds the row as it is written here.
pub fn push_row(alloc: Global, text: &mut String, row: &Row) -> Result<(), AllocError> {
    text.push_str(row.to_string(alloc)?.as_str())
}

/// The rows as they are written here.
pub fn written(alloc: Global, rows: &[Row]) -> Result<String, AllocError> {
    let mut text = String::new(alloc);
    for row in rows {
        if !text.is_empty() {
            text.push(';')?;
        }
        push_row(alloc, &mut text, row)?;
    }
    Ok(text)
}

/// A record of `+ROW` or `-ROW`.
fn record(alloc: Global, text: &str) -> Result<Record, AllocError> {
    let (sign, words) = match text.strip_prefix('+') {
        Some(words) => (Sign::Plus, words),
        None => (Sign::Minus, text.strip_prefix('-').unwrap_or(text)),
    };
    let row = row(alloc, words)?;
    Ok(Record { row, sign })
}

/// Records with `;` between each two; no text is no record.
pub fn records(alloc: Global, text: &str) -> Result<Vec<Record>, AllocError> {
    let mut all = Vec::new(alloc);
    for words in text.split_terminator(';') {
        all.push(record(alloc, words)?)?;
    }
    Ok(all)
}

/// The records as they are written here.
pub fn written_records(alloc: Global, records: &[Record]) -> Result<String, AllocError> {
    let mut text = String::new(alloc);
    for record in records {
        if !text.is_empty() {
            text.push(';')?;
        }
        text.push(if record.sign == Sign::Plus { '+' } else { '-' })?;
        push_row(alloc, &mut text, &record.row)?;
    }
    Ok(text)
}

/// An insert of `+ROW`, an update of `=ROW` or a delete of `-KEY`.
pub fn entry(alloc: Global, text: &str) -> Result<Entry, AllocError> {
    if let Some(words) = text.strip_prefix('+') {
        return Ok(Entry::Insert(row(alloc, words)?));
    }
    match text.strip_prefix('=') {
        Some(words) => Ok(Entry::Update(row(alloc, words)?)),
        None => Ok(Entry::Delete(value(alloc, text.strip_prefix('-').unwrap_or(text))?)),
    }
}
