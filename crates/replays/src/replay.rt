//! Runs a schedule, and prints its replies.
ghost use Rattle.std.specs.Prelude.{◌≡◌, ℕ, map, OnOk, IsErrOf};
ghost use Rattle.std.specs.Io.KnownBytes.{Appends};
ghost use Rattle.schedule.specs.Codes.{event_of, reply_of};
ghost use Rattle.script.specs.Scripts.{lines_of, IsFirstFault};
ghost use Rattle.schedule_lines.specs.{Asks.Asks, Replies.printed_reply};
ghost use Rattle.replays.specs.Runs.{IsRun, printed_run};

use plan::plan::Plan;
use schedule::event::{Event, Reply};
use schedule_lines::events::events_of;
use schedule_lines::reader::read_schedule;
use schedule_lines::replies::text_of;
use script::script::ScriptError;
use std::alloc::Global;
use std::io::Write;
use thiserror::Error;
use world::world::World;

/// Why a schedule was not run, or not to its end.
#[derive(Clone, Copy, PartialEq, Eq, Debug, Error)]
pub enum ReplayError {
    /// What was run before is printed.
    #[error("no memory")]
    NoMemory,
    /// The first line at fault, counted from 1. Nothing was run.
    #[error("line {line} of the schedule is of no known form")]
    BadScript { line: usize },
    /// No further event is run.
    #[error("the output cannot be written")]
    CannotWrite,
}

/// Runs the schedule of a text from the empty world of the plan on, and writes each reply once its
/// event has happened. The text is read whole before. Errors: `BadScript` with the first line that
/// is neither skipped nor of a known form, and then nothing is written; memory; an output that
/// cannot be written. Cost: that of each event, and for a `deliver` and a `stop` the text of each
/// edge or domain of the plan.
pub fn replay_text<O: Write>(
    alloc: Global,
    plan: &Plan,
    text: &[u8],
    out: &mut O,
) -> Result<(), ReplayError>
    ensures run { OnOk result (IsRun plan.now text.now (O.contents out.old) (O.contents out.new)) }
    ensures first { (line : ℕ) → IsErrOf result (ReplayError.BadScript line)
        → IsFirstFault Asks (lines_of text.now) line }
    ensures kept { (line : ℕ) → IsErrOf result (ReplayError.BadScript line) → out.new ≡ out.old }
{
    plan.keeps_profile();
    let lines = match read_schedule(alloc, text) {
        Ok(lines) => lines,
        Err(ScriptError::NoMemory) => return Err(ReplayError::NoMemory),
        Err(ScriptError::BadScript { line }) => return Err(ReplayError::BadScript { line }),
    };
    let Ok(events) = events_of(alloc, plan, lines) else {
        return Err(ReplayError::NoMemory);
    };
    print_replies(alloc, plan, &events, out)
}

/// Runs the events from the empty world on, and writes each reply.
fn print_replies<O: Write>(
    alloc: Global,
    plan: &Plan,
    events: &[Event],
    out: &mut O,
) -> Result<(), ReplayError>
    ensures printed { OnOk result (Appends (O.contents out.old) (O.contents out.new)
        (printed_run plan.now (map event_of events.now))) }
    ensures no_line { (line : ℕ) → ¬ IsErrOf result (ReplayError.BadScript line) }
{
    let Ok(mut world) = World::new(alloc, plan) else {
        return Err(ReplayError::NoMemory);
    };
    for at in 0..events.len() {
        let Ok(reply) = world.step(alloc, &events[at]) else {
            return Err(ReplayError::NoMemory);
        };
        print(alloc, plan, &reply, out)?;
    }
    Ok(())
}

/// Writes a reply.
fn print<O: Write>(
    alloc: Global,
    plan: &Plan,
    reply: &Reply,
    out: &mut O,
) -> Result<(), ReplayError>
    ensures printed { OnOk result (Appends (O.contents out.old) (O.contents out.new)
        (printed_reply plan.now (reply_of reply.now))) }
    ensures no_line { (line : ℕ) → ¬ IsErrOf result (ReplayError.BadScript line) }
{
    let Ok(text) = text_of(alloc, plan, reply) else {
        return Err(ReplayError::NoMemory);
    };
    match out.write_all(text.as_bytes()) {
        Ok(()) => Ok(()),
        Err(_) => Err(ReplayError::CannotWrite),
    }
}
