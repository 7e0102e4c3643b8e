//! The forms of the program: each reads and checks what its files have, and then runs it.
use crate::fault::Fault;
use crate::files::{calls_of_all, plan_named, texts_of_all};
use crate::texts::Texts;
use replays::replay::replay_text;
use runner::play::{Play, start};
use script::script::read_script;
use std::alloc::Global;
use std::io::Write;
use std::sync::Wait;
use std::thread::Threads;

/// Reads and checks the recipe and then the script of these names, starts the recipe's plan, runs
/// the script's calls in one session, and writes the answer of each. A refused call is a line too,
/// and the script goes on. Where the output cannot be written, no further call is made. All threads
/// that it starts have ended.
pub fn run_files<R: Threads + Wait + Copy + Drop + Send + Sync + 'static, T: Texts, O: Write>(
    rt: R,
    alloc: Global,
    recipe: &str,
    script: &str,
    texts: &mut T,
    out: &mut O,
) -> Result<(), Fault> {
    let plan = plan_named(alloc, recipe, texts)?;
    let text = texts.text(script)?;
    let calls = read_script(alloc, text.as_slice())?;
    Ok(start(rt, alloc, plan, Play::Run(calls), out)?)
}

/// Reads and checks the recipe and then the scripts of these names, starts the recipe's plan, and
/// runs all scripts at once. It writes what each came to, then makes one fence in a session that
/// has met all others, and the closing reads of all scripts in order. `NoSessionLeft` where there
/// are more than fifteen scripts. All threads that it starts have ended.
pub fn race_files<R: Threads + Wait + Copy + Drop + Send + Sync + 'static, T: Texts, O: Write>(
    rt: R,
    alloc: Global,
    recipe: &str,
    scripts: &[String],
    texts: &mut T,
    out: &mut O,
) -> Result<(), Fault> {
    let plan = plan_named(alloc, recipe, texts)?;
    let read = texts_of_all(alloc, scripts, texts)?;
    let all = calls_of_all(&rt, alloc, &read.texts)?;
    match read.refusal {
        Some(refused) => Err(Fault::Refused(refused)),
        None => Ok(start(rt, alloc, plan, Play::Race(all), out)?),
    }
}

/// Reads and checks the recipe and then the schedule of these names, and runs the schedule in one
/// thread, from the empty world of the recipe's plan on. It writes the reply to each event once the
/// event has happened; a refused event is a line too, and the schedule goes on. Where the output
/// cannot be written, no further event happens.
pub fn replay_files<T: Texts, O: Write>(
    alloc: Global,
    recipe: &str,
    schedule: &str,
    texts: &mut T,
    out: &mut O,
) -> Result<(), Fault> {
    let plan = plan_named(alloc, recipe, texts)?;
    let text = texts.text(schedule)?;
    Ok(replay_text(alloc, &plan, text.as_slice(), out)?)
}
