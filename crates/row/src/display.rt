//! How values and rows are printed.
ghost use Rattle.std.specs.Prelude.{◌≡◌, ◌==◌, ◌||◌, not, map, Some, encode_utf8};
ghost use Rattle.std.specs.Fmt.{WritesOnOk};
ghost use Rattle.row.specs.Cells as cells;
ghost use Rattle.row.specs.Printed as spec;

use crate::row::Row;
use crate::value::Value;
use std::fmt::{self, Display};

/// A number by its decimal digits; a text bare where it is not empty and has no space,
/// quotation mark or backslash, and else between quotation marks, with a backslash before
/// each quotation mark and backslash in it.
impl Display for Value {
    ghost output = { λ v. Some (spec.printed (cells.datum_of v)) };

    fn fmt<W: fmt::Write>(&self, f: &mut fmt::Formatter<W>) -> fmt::Result {
        match self {
            Value::Int(number) => write!(f, "{number}"),
            Value::Long(number) => write!(f, "{number}"),
            Value::Short(text) => write_text(f, text.as_str()),
            Value::Text(text) => write_text(f, text.as_str()),
        }
    }
}

/// Writes the text as a value that is one: bare where it may stand so, and else quoted. Errors: those
/// of the writer.
pub fn write_text<W: fmt::Write>(f: &mut fmt::Formatter<W>, text: &str) -> fmt::Result
    ensures { WritesOnOk W.write_str_gives f.old result (spec.printed (cells.text text.now)) f.new }
{
    if is_bare(text) {
        f.write_str(text)
    } else {
        write_quoted(f, text)
    }
}

/// Whether the text may stand without quotation marks.
fn is_bare(text: &str) -> bool
    ensures { result ≡ spec.is_bare text.now }
{
    !text.is_empty() && text.as_bytes().iter().all(|b| is_plain(*b))
}

/// Whether a text with the byte may still stand without quotation marks.
fn is_plain(byte: u8) -> bool
    ensures { result ≡ not (byte == 32 || spec.is_escaped byte) }
{
    !matches!(byte, b' ' | b'"' | b'\\')
}

/// Writes the text between quotation marks.
fn write_quoted<W: fmt::Write>(f: &mut fmt::Formatter<W>, text: &str) -> fmt::Result
    ensures { WritesOnOk W.write_str_gives f.old result (spec.quoted text.now) f.new }
{
    f.write_char('"')?;
    for c in text.chars() {
        write_escaped(f, c)?;
    }
    f.write_char('"')
}

/// Writes the character as it stands between quotation marks.
fn write_escaped<W: fmt::Write>(f: &mut fmt::Formatter<W>, c: char) -> fmt::Result
    ensures { WritesOnOk W.write_str_gives f.old result (spec.escaped (encode_utf8 c)) f.new }
{
    if is_escaped(c) {
        f.write_char('\\')?;
    }
    f.write_char(c)
}

/// Whether the character takes a backslash between quotation marks.
fn is_escaped(c: char) -> bool
    ensures { result ≡ spec.is_escaped c }
{
    matches!(c, '"' | '\\')
}

/// The row's values, with one space between each two.
impl Display for Row {
    ghost output = { λ r. Some (spec.printed_row r) };

    fn fmt<W: fmt::Write>(&self, f: &mut fmt::Formatter<W>) -> fmt::Result {
        write_cells(f, self)
    }
}

/// Writes the row's values with one space between each two.
fn write_cells<W: fmt::Write>(f: &mut fmt::Formatter<W>, row: &Row) -> fmt::Result
    ensures { WritesOnOk W.write_str_gives f.old result (spec.printed_row row.now) f.new }
{
    let Some(first) = row.get(0) else {
        return Ok(());
    };
    first.value().fmt(f)?;
    for at in 1..row.width() {
        f.write_str(" ")?;
        row.cell(at).value().fmt(f)?;
    }
    Ok(())
}
