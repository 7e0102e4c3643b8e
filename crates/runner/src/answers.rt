//! A call of a script: what a session makes of it, and the lines of its answer.
use crate::orders::{evict_stage, evict_view};
use crate::reads::{look, write_found};
use crate::writes::{Words, write};
use book::law::Naming;
use row::refused::Refused;
use script::command::Command;
use sessions::reads::Found;
use sessions::session::{Accepted, Session};
use std::alloc::Global;
use std::borrow::CowStr;
use std::io::{self, Write};
use std::sync::Wait;

/// What a call that is not refused answers.
#[derive(Drop)]
pub(crate) enum Answered<'t> {
    Accepted {
        table: CowStr<'t>,
        accepted: Accepted,
    },
    Fenced,
    Found(Found),
    Sent,
    Asked(u64),
}

/// Makes the call in a session. A `closing` is a read at its place.
pub(crate) fn make<'t, J: Naming, R: Wait>(
    rt: &R,
    alloc: Global,
    session: &mut Session<J>,
    command: Command<'t>,
) -> Result<Answered<'t>, Refused> {
    match command {
        Command::Insert { table, cells } => {
            make_write(rt, alloc, session, table, Words::Insert(cells))
        }
        Command::Update { table, cells } => {
            make_write(rt, alloc, session, table, Words::Update(cells))
        }
        Command::Delete { table, key } => {
            make_write(rt, alloc, session, table, Words::Delete(key))
        }
        Command::Fence => {
            session.fence(rt, alloc)?;
            Ok(Answered::Fenced)
        }
        Command::Try { view, key } => make_look(rt, alloc, session, false, view.as_str(), key),
        Command::Read { view, key } | Command::Closing { view, key } => {
            make_look(rt, alloc, session, true, view.as_str(), key)
        }
        Command::EvictStage { key } => {
            evict_stage(rt, alloc, session, key)?;
            Ok(Answered::Sent)
        }
        Command::EvictView { view, key } => {
            evict_view(rt, alloc, session, view.as_str(), key)?;
            Ok(Answered::Sent)
        }
        Command::Count { view } => Ok(Answered::Asked(session.asked(view.as_str())?)),
    }
}

// Makes a write to the table of this name.
fn make_write<'t, J: Naming, R: Wait>(
    rt: &R,
    alloc: Global,
    session: &mut Session<J>,
    table: CowStr<'t>,
    words: Words<'_>,
) -> Result<Answered<'t>, Refused> {
    let accepted = write(rt, alloc, session, table.as_str(), words)?;
    Ok(Answered::Accepted { table, accepted })
}

// Makes a read, or else a try.
fn make_look<'t, J: Naming, R: Wait>(
    rt: &R,
    alloc: Global,
    session: &mut Session<J>,
    read: bool,
    view: &str,
    key: CowStr<'_>,
) -> Result<Answered<'t>, Refused> {
    Ok(Answered::Found(look(rt, alloc, session, read, view, key)?))
}

/// Makes the call in a session, and writes the lines of its answer or refusal.
pub(crate) fn answer<J: Naming, R: Wait, O: Write>(
    rt: &R,
    alloc: Global,
    session: &mut Session<J>,
    command: Command<'_>,
    out: &mut O,
) -> Result<(), Refused> {
    let answered = make(rt, alloc, session, command);
    write_answer(answered, out).map_err(|_| Refused::CannotWrite)
}

// Writes the lines of an answer, or of a refusal.
fn write_answer<O: Write>(answer: Result<Answered<'_>, Refused>, out: &mut O) -> io::Result<()> {
    match answer {
        Ok(Answered::Accepted { table, accepted }) => {
            let Accepted { shard, index, .. } = accepted;
            writeln!(out, "accepted {table}.{shard} {index}")
        }
        Ok(Answered::Fenced) => writeln!(out, "fenced"),
        Ok(Answered::Found(found)) => write_found(&found, out),
        Ok(Answered::Sent) => writeln!(out, "sent"),
        Ok(Answered::Asked(asked)) => writeln!(out, "asked {asked}"),
        Err(refused) => writeln!(out, "refused {} {refused}", refused.number()),
    }
}
