//! The events that a schedule is over a plan.
ghost use Rattle.std.specs.Prelude.{◌≡◌, ℕ, List, map, IfOk};
ghost use Rattle.std.specs.Cow.{cow_str_bytes};
ghost use Rattle.row.specs.Cells.{datum_of};
ghost use Rattle.model.specs.Entries.{change_of};
ghost use Rattle.protocol.specs.Events as protocol;
ghost use Rattle.protocol.specs.Events.{write};
ghost use Rattle.schedule.specs.Codes.{event_of};
ghost use Rattle.script.specs.{Columns.kind_of_key, Values.IsRead};
ghost use Rattle.schedule_lines.specs.Asks as ask;
ghost use Rattle.schedule_lines.specs.{Asks.ask_of, Asks.called_by, Asks.write_of, Events.IsEvent, Events.AreEvents, Schedules.numbered};

use crate::event_line::{CallWords, EntryWords, EventLine};
use crate::reader::Line;
use model::entry::Entry;
use plan::plan::Plan;
use row::value::Value;
use schedule::event::Event;
use script::cell::value_of;
use script::columns::{kind_of_key, kind_of_stage_key, kind_of_table, row_of};
use std::alloc::{AllocError, Global};
use std::borrow::CowStr;

/// The events that lines ask for over the plan, in order: each cell and key is read by its column,
/// each edge and domain is the plan's of that text. Errors: memory only. Cost: a look at each word
/// and a copy of each that is kept; for a `deliver` and a `stop` the text of each edge or domain of
/// the plan.
pub fn events_of(alloc: Global, plan: &Plan, lines: Vec<Line<'_>>) -> Result<Vec<Event>, AllocError>
    ensures events { IfOk result (λ events. AreEvents plan.now (map numbered lines.entry.items)
        (map event_of events.items)) }
    ensures only { IfOk result (λ events. (others : List protocol.Event)
        → AreEvents plan.now (map numbered lines.entry.items) others
        → others ≡ map event_of events.items) }
{
    let mut events = Vec::new(alloc);
    for line in lines {
        events.push(event_of(alloc, plan, line.command)?)?;
    }
    Ok(events)
}

/// The event that a line asks for over the plan. Errors: memory only. Cost: a look at each word and
/// a copy of each that is kept; for a `deliver` and a `stop` the text of each edge or domain of the
/// plan.
pub fn event_of(alloc: Global, plan: &Plan, line: EventLine<'_>) -> Result<Event, AllocError>
    ensures { IfOk result (λ event. IsEvent plan.now (ask_of line.entry) (event_of event)) }
{
    match line {
        EventLine::Call { session, call } => call_of(alloc, plan, session, call),
        EventLine::Deliver { edge } => deliver(alloc, plan, edge.as_str()),
        EventLine::EvictStage { key } => evict_stage(alloc, plan, key),
        EventLine::EvictView { view, key } => {
            let key = key_of(alloc, plan, view.as_str(), key)?;
            let view = view.into_owned(alloc)?;
            Ok(Event::EvictView { view, key })
        }
        EventLine::Stop { domain } => stop(alloc, plan, domain.as_str()),
        EventLine::Settle => Ok(Event::Settle),
    }
}

/// The event that a call of the session is.
fn call_of(
    alloc: Global,
    plan: &Plan,
    session: usize,
    call: CallWords<'_>,
) -> Result<Event, AllocError>
    ensures { IfOk result (λ event. IsEvent plan.now (called_by session call.entry)
        (event_of event)) }
{
    match call {
        CallWords::Write { table, entry } => {
            let entry = entry_of(alloc, plan, table.as_str(), entry)?;
            let table = table.into_owned(alloc)?;
            Ok(Event::Write {
                session,
                table,
                entry,
            })
        }
        CallWords::Try { view, key } => {
            let key = key_of(alloc, plan, view.as_str(), key)?;
            let view = view.into_owned(alloc)?;
            Ok(Event::Try { session, view, key })
        }
        CallWords::Want { view, key } => {
            let key = key_of(alloc, plan, view.as_str(), key)?;
            let view = view.into_owned(alloc)?;
            Ok(Event::Want { session, view, key })
        }
        CallWords::Fence => Ok(Event::Fence { session }),
        CallWords::Count { view } => {
            let view = view.into_owned(alloc)?;
            Ok(Event::Count { session, view })
        }
    }
}

/// The entry that the words are in the table of this name, whatever session writes it.
fn entry_of(
    alloc: Global,
    plan: &Plan,
    table: &str,
    words: EntryWords<'_>,
) -> Result<Entry, AllocError>
    ensures { IfOk result (λ entry. (session : ℕ) → IsEvent plan.now
        (write_of session table.now words.entry) (write session table.now (change_of entry))) }
{
    match words {
        EntryWords::Insert(cells) => Ok(Entry::Insert(row_of(alloc, plan, table, cells)?)),
        EntryWords::Update(cells) => Ok(Entry::Update(row_of(alloc, plan, table, cells)?)),
        EntryWords::Delete(key) => {
            let kind = kind_of_table(plan, table);
            Ok(Entry::Delete(value_of(alloc, kind, key)?))
        }
    }
}

/// The key that the word is in the view of this name.
fn key_of(alloc: Global, plan: &Plan, view: &str, word: CowStr<'_>) -> Result<Value, AllocError>
    ensures { IfOk result (λ key. IsRead (kind_of_key plan.now view.now) (cow_str_bytes word.entry)
        (datum_of key)) }
{
    value_of(alloc, kind_of_key(plan, view), word)
}

fn deliver(alloc: Global, plan: &Plan, edge: &str) -> Result<Event, AllocError>
    ensures { IfOk result (λ event. IsEvent plan.now (ask.deliver edge.now) (event_of event)) }
{
    let edge = plan.edge_named(alloc, edge)?;
    Ok(Event::Deliver { edge })
}

fn evict_stage(alloc: Global, plan: &Plan, word: CowStr<'_>) -> Result<Event, AllocError>
    ensures { IfOk result (λ event. IsEvent plan.now (ask.evict_stage (cow_str_bytes word.entry))
        (event_of event)) }
{
    let key = value_of(alloc, kind_of_stage_key(plan), word)?;
    Ok(Event::EvictStage { key })
}

fn stop(alloc: Global, plan: &Plan, domain: &str) -> Result<Event, AllocError>
    ensures { IfOk result (λ event. IsEvent plan.now (ask.stop domain.now) (event_of event)) }
{
    let domain = plan.domain_named(alloc, domain)?;
    Ok(Event::Stop { domain })
}
