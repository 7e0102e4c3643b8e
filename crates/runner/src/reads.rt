//! Reads of a view: a key of its word, and the lines of an answer.
use book::law::Naming;
use row::refused::Refused;
use script::cell::value_of;
use script::columns::kind_of_key;
use sessions::reads::{Answer, Found};
use sessions::session::Session;
use std::alloc::Global;
use std::borrow::CowStr;
use std::io::{self, Write};
use std::sync::Wait;

/// The rows of the key that the word is in the view: `read`, or else tried where they are shown.
pub(crate) fn look<J: Naming, R: Wait>(
    rt: &R,
    alloc: Global,
    session: &mut Session<J>,
    read: bool,
    view: &str,
    word: CowStr<'_>,
) -> Result<Found, Refused> {
    let key = value_of(alloc, kind_of_key(session.plan(), view), word)?;
    if read {
        Ok(Found::Hit(session.read(rt, alloc, view, &key)?))
    } else {
        session.try_read(alloc, view, &key)
    }
}

/// Writes `rows N cut CUT` and a line for each of the N rows, or `miss`.
pub(crate) fn write_found<O: Write>(found: &Found, out: &mut O) -> io::Result<()> {
    match found {
        Found::Hit(answer) => write_rows(answer, out),
        Found::Miss => writeln!(out, "miss"),
    }
}

fn write_rows<O: Write>(answer: &Answer, out: &mut O) -> io::Result<()> {
    writeln!(out, "rows {} cut {}", answer.rows.len(), answer.cut)?;
    for row in answer.rows.iter() {
        writeln!(out, "{row}")?;
    }
    Ok(())
}
