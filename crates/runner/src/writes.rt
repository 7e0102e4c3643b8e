//! Writes to a table: a row or a key of its words.
use book::law::Naming;
use model::entry::Entry;
use row::refused::Refused;
use script::cell::value_of;
use script::columns::{kind_of_table, row_of};
use sessions::session::{Accepted, Session};
use std::alloc::Global;
use std::borrow::CowStr;
use std::sync::Wait;

/// The words of a write behind its table: the cells of a row, or a key.
#[derive(Drop)]
pub(crate) enum Words<'t> {
    Insert(Vec<CowStr<'t>>),
    Update(Vec<CowStr<'t>>),
    Delete(CowStr<'t>),
}

/// Makes the write that the words ask for.
pub(crate) fn write<J: Naming, R: Wait>(
    rt: &R,
    alloc: Global,
    session: &mut Session<J>,
    table: &str,
    words: Words<'_>,
) -> Result<Accepted, Refused> {
    let entry = match words {
        Words::Insert(cells) => Entry::Insert(row_of(alloc, session.plan(), table, cells)?),
        Words::Update(cells) => Entry::Update(row_of(alloc, session.plan(), table, cells)?),
        Words::Delete(word) => {
            Entry::Delete(value_of(alloc, kind_of_table(session.plan(), table), word)?)
        }
    };
    session.write(rt, alloc, table, entry)
}
