//! Races scripts: all of them at once, each in a session of its own.
use crate::answers::{Answered, answer, make};
use book::law::Naming;
use row::refused::Refused;
use script::command::Command;
use script::script::ScriptCall;
use sessions::session::Session;
use std::alloc::Global;
use std::io::Write;
use std::sync::Wait;
use std::thread::{self, Threads};
use system::system::System;

// A script that is to run, and its session.
#[derive(Drop)]
struct Script<'t, J: Naming> {
    session: Session<J>,
    calls: Vec<ScriptCall<'t>>,
}

// What a script came to: its session, how many writes were accepted and calls refused, and its
// closing reads, which were not made yet.
#[derive(Drop)]
struct Raced<'t, J: Naming> {
    session: Session<J>,
    accepted: usize,
    refused: usize,
    closings: Vec<Command<'t>>,
}

// Runs all scripts at once, and writes what each came to. Then a session that has met all others
// makes one fence, and the closing reads of all scripts in order.
pub(crate) fn race<
    J: Naming + Send + Sync + 'static,
    R: Threads + Wait + Copy + Drop + Send + Sync + 'static,
    O: Write,
>(
    rt: R,
    alloc: Global,
    system: &mut System<J>,
    scripts: Vec<Vec<ScriptCall<'_>>>,
    out: &mut O,
) -> Result<(), Refused> {
    let raced = run_all(rt, alloc, system, scripts)?;
    let mut session = system.session(alloc)?;
    tell(&rt, alloc, &mut session, raced, out)
}

// Runs all scripts at once, each by a thread of its own where one can be made, and waits for all of
// them, also where one was refused memory.
fn run_all<
    't,
    J: Naming + Send + Sync + 'static,
    R: Threads + Wait + Copy + Drop + Send + Sync + 'static,
>(
    rt: R,
    alloc: Global,
    system: &mut System<J>,
    scripts: Vec<Vec<ScriptCall<'t>>>,
) -> Result<Vec<Raced<'t, J>>, Refused> {
    let mut opened = Vec::with_capacity(alloc, scripts.len())?;
    for calls in scripts {
        let session = system.session(alloc)?;
        opened
            .push(Script { session, calls })
            .map_err(|_| Refused::NoMemory)?;
    }
    let ran = thread::map_vec(&rt, opened, &|script| run_script(&rt, alloc, script))?;
    let mut raced = Vec::with_capacity(alloc, ran.len())?;
    for one in ran {
        raced.push(one?).map_err(|_| Refused::NoMemory)?;
    }
    Ok(raced)
}

// Makes all calls but the closing reads.
fn run_script<'t, J: Naming, R: Wait>(
    rt: &R,
    alloc: Global,
    script: Script<'t, J>,
) -> Result<Raced<'t, J>, Refused> {
    let Script { session, calls } = script;
    let mut raced = Raced {
        session,
        accepted: 0,
        refused: 0,
        closings: Vec::new(alloc),
    };
    for call in calls {
        run_call(rt, alloc, &mut raced, call.command)?;
    }
    Ok(raced)
}

// Makes a call and counts what comes of it; a closing read is put by.
fn run_call<'t, J: Naming, R: Wait>(
    rt: &R,
    alloc: Global,
    raced: &mut Raced<'t, J>,
    command: Command<'t>,
) -> Result<(), Refused> {
    if let Command::Closing { .. } = command {
        return Ok(raced.closings.push(command)?);
    }
    match make(rt, alloc, &mut raced.session, command) {
        Ok(Answered::Accepted { .. }) => raced.accepted = raced.accepted.saturating_add(1),
        Ok(_) => (),
        Err(_) => raced.refused = raced.refused.saturating_add(1),
    }
    Ok(())
}

// Writes what each script came to, meets all sessions, and makes the closing fence and reads.
fn tell<J: Naming, R: Wait, O: Write>(
    rt: &R,
    alloc: Global,
    session: &mut Session<J>,
    raced: Vec<Raced<'_, J>>,
    out: &mut O,
) -> Result<(), Refused> {
    let mut closings = Vec::new(alloc);
    for (number, mut one) in raced.into_iter().enumerate() {
        tell_one(number, &mut one, session, out)?;
        closings.push(one.closings).map_err(|_| Refused::NoMemory)?;
    }
    answer(rt, alloc, session, Command::Fence, out)?;
    for commands in closings {
        answer_all(rt, alloc, session, commands, out)?;
    }
    Ok(())
}

// Writes what a script came to, and meets its session.
fn tell_one<J: Naming, O: Write>(
    number: usize,
    one: &mut Raced<'_, J>,
    session: &mut Session<J>,
    out: &mut O,
) -> Result<(), Refused> {
    let (accepted, refused) = (one.accepted, one.refused);
    writeln!(out, "script {number} accepted {accepted} refused {refused}").map_err(
        |_| Refused::CannotWrite,
    )?;
    session.meet(&mut one.session);
    Ok(())
}

// Makes the closing reads of a script.
fn answer_all<J: Naming, R: Wait, O: Write>(
    rt: &R,
    alloc: Global,
    session: &mut Session<J>,
    commands: Vec<Command<'_>>,
    out: &mut O,
) -> Result<(), Refused> {
    for command in commands {
        answer(rt, alloc, session, command, out)?;
    }
    Ok(())
}
