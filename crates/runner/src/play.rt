//! Starts the store of a plan, and plays scripts in its sessions.
ghost use Rattle.std.specs.Prelude.{◌≡◌, ◌≤◌, IfOk};
ghost use Rattle.model.specs.Legal.{most_sessions};

use crate::answers::answer;
use crate::race::race;
use book::book::Opened;
use book::law::Naming;
use plan::plan::Plan;
use row::refused::Refused;
use script::script::ScriptCall;
use std::alloc::Global;
use std::io::{BufWriter, Write};
use std::marker::Brand;
use std::sync::Wait;
use std::thread::Threads;
use system::system::System;
use system::threads::usual_threads;
use workers::gate::OpenGate;

/// The most scripts of a race: the sixteenth session makes the closing fence and reads.
const SCRIPTS: usize = 15;

/// What the sessions of a store do.
#[derive(Drop)]
pub enum Play<'t> {
    /// One session makes these calls in turn, and the lines of each answer are written.
    Run(Vec<ScriptCall<'t>>),
    /// Each script runs in a session and, where one can be made, a thread of its own, all at once;
    /// what each came to is written. Then one session more, which has met all others, makes the
    /// closing fence and the closing reads of all scripts in order, and the lines of their answers
    /// are written.
    Race(Vec<Vec<ScriptCall<'t>>>),
}

/// Starts the plan, plays, and writes the answers. A refused call is a line too, or counted, and
/// the script goes on. Errors: `NoSessionLeft` where more than fifteen scripts race, and nothing
/// is started; `NoMemory`; `CannotWrite`, and then no further call is made. All threads that it
/// starts have ended.
pub fn start<R: Threads + Wait + Copy + Drop + Send + Sync + 'static, O: Write>(
    rt: R,
    alloc: Global,
    plan: Plan,
    play: Play<'_>,
    out: &mut O,
) -> Result<(), Refused> {
    let sessions = sessions_of(&play)?;
    let opened = Opened::new(alloc, &plan, sessions)?;
    start_named::<Brand, R, O>(rt, alloc, opened, plan, sessions, play, out)
}

// How many sessions it takes.
fn sessions_of(play: &Play<'_>) -> Result<usize, Refused>
    ensures { IfOk result (λ n. n ≤ most_sessions) }
{
    match play {
        Play::Run(_) => Ok(1),
        Play::Race(scripts) if scripts.len() > SCRIPTS => Err(Refused::NoSessionLeft),
        Play::Race(scripts) => Ok(scripts.len() + 1),
    }
}

fn start_named<
    J: Naming + Send + Sync + 'static,
    R: Threads + Wait + Copy + Drop + Send + Sync + 'static,
    O: Write,
>(
    rt: R,
    alloc: Global,
    opened: Opened,
    plan: Plan,
    sessions: usize,
    play: Play<'_>,
    out: &mut O,
) -> Result<(), Refused>
    requires book { opened.book ≡ J.book }
    requires plan { (opened.plan ≡ J.plan) × (plan ≡ J.plan) }
    requires sessions { (opened.sessions ≡ J.sessions) × (sessions ≡ J.sessions) }
    requires few { sessions ≤ most_sessions }
{
    let mut system = System::<J>::start(
        rt,
        alloc,
        opened,
        plan,
        sessions,
        usual_threads(&rt),
        OpenGate,
    )?;
    let played = play_buffered(rt, alloc, &mut system, play, out);
    system.stop(&rt);
    played
}

// Plays in sessions of the system, through a buffer that is flushed at the end.
fn play_buffered<
    J: Naming + Send + Sync + 'static,
    R: Threads + Wait + Copy + Drop + Send + Sync + 'static,
    O: Write,
>(
    rt: R,
    alloc: Global,
    system: &mut System<J>,
    play: Play<'_>,
    out: &mut O,
) -> Result<(), Refused> {
    let mut out = BufWriter::new(alloc, out).map_err(|_| Refused::NoMemory)?;
    match play {
        Play::Run(calls) => run(&rt, alloc, system, calls, &mut out)?,
        Play::Race(scripts) => race(rt, alloc, system, scripts, &mut out)?,
    }
    out.flush().map_err(|_| Refused::CannotWrite)
}

// Makes the calls in a session, and writes the answer of each.
fn run<J: Naming + Send + Sync + 'static, R: Wait, O: Write>(
    rt: &R,
    alloc: Global,
    system: &mut System<J>,
    calls: Vec<ScriptCall<'_>>,
    out: &mut O,
) -> Result<(), Refused> {
    let mut session = system.session(alloc)?;
    for call in calls {
        answer(rt, alloc, &mut session, call.command, out)?;
    }
    Ok(())
}
