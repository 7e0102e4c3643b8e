//! How rows are printed whose values lie in them.
ghost use Rattle.std.specs.Prelude.{Some};
ghost use Rattle.std.specs.Fmt.{WritesOnOk};
ghost use Rattle.row.specs.Printed as spec;
ghost use Rattle.placed_rows.specs.Values as values;

use crate::field::Field;
use crate::row_view::RowView;
use row::display::write_text;
use std::fmt::{self, Display};

/// As the value is printed.
impl Display for Field<'_> {
    ghost output = { λ v. Some (spec.printed (values.datum_at v)) };

    fn fmt<W: fmt::Write>(&self, f: &mut fmt::Formatter<W>) -> fmt::Result {
        match self {
            Field::Number(number) => write!(f, "{number}"),
            Field::Text(text) => write_text(f, text),
            Field::Cell(cell) => cell.value().fmt(f),
        }
    }
}

/// The row's values, with one space between each two.
impl Display for RowView<'_> {
    ghost output = { λ r. Some (spec.printed_row r) };

    fn fmt<W: fmt::Write>(&self, f: &mut fmt::Formatter<W>) -> fmt::Result {
        write_fields(f, self)
    }
}

/// Writes the row's values with one space between each two.
fn write_fields<W: fmt::Write>(f: &mut fmt::Formatter<W>, row: &RowView<'_>) -> fmt::Result
    ensures { WritesOnOk W.write_str_gives f.old result (spec.printed_row row.now) f.new }
{
    let Some(first) = row.get(0) else {
        return Ok(());
    };
    first.fmt(f)?;
    for at in 1..row.width() {
        f.write_str(" ")?;
        row.field(at).fmt(f)?;
    }
    Ok(())
}
