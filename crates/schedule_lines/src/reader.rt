//! The lines of a schedule.
ghost use Rattle.std.specs.Prelude.{◌≡◌, ℕ, List, map, IfOk, IsErrOf};
ghost use Rattle.script.specs.Scripts.{lines_of, Numbered, IsScript, IsFirstFault};
ghost use Rattle.schedule_lines.specs.{Asks.Ask, Asks.Asks, Schedules.numbered};

use crate::event_line::EventLine;
use script::reader::read_lines;
use script::script::{Call, ScriptError};
use std::alloc::Global;

/// A line that is not skipped: its number, from 1, and what it asks for.
pub type Line<'t> = Call<EventLine<'t>>;

/// What the lines of a schedule ask for, in order. Errors: `BadScript` with the first line that is
/// neither skipped nor of a known form, and memory. A look at each byte. Bare words are not copied.
pub fn read_schedule<'t>(alloc: Global, text: &'t [u8]) -> Result<Vec<Line<'t>>, ScriptError>
    ensures ok { IfOk result (λ asked. IsScript Asks 1 (lines_of text.now)
        (map numbered asked.items)) }
    ensures only { IfOk result (λ asked. (others : List (Numbered Ask))
        → IsScript Asks 1 (lines_of text.now) others → others ≡ map numbered asked.items) }
    ensures first { (number : ℕ) → IsErrOf result (ScriptError.BadScript number)
        → IsFirstFault Asks (lines_of text.now) number }
    ensures none { (number : ℕ) → IsErrOf result (ScriptError.BadScript number)
        → (asked : List (Numbered Ask)) → ¬ IsScript Asks 1 (lines_of text.now) asked }
{
    read_lines(alloc, text)
}
