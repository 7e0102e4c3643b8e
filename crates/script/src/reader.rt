//! A reader of texts whose lines ask for something: a script, a schedule.
ghost use Rattle.std.specs.Prelude.{◌≡◌, ℕ, ◌+◌, ◌<◌, ◌^◌, List, ◌++◌, length, map, Option, IfOk, IfSome, IsNone, OnOk, IsErrOf};
ghost use Rattle.std.specs.Option.{option_map};
ghost use Rattle.std.specs.Cow.{cow_str_bytes};
ghost use Rattle.script.specs.Scripts.{lines_of, Says, numbered, call_at, IsScript, IsFault, HasFault};

use crate::script::{Call, ScriptError, is_comment, split_line};
use crate::words::{LineError, words};
use std::alloc::Global;
use std::borrow::CowStr;

/// What the lines of a text may ask for.
pub trait Form<'t>: Drop + Sized {
    // What words ask for, as contracts see it.
    ghost Asked: { Type 0 };

    // What a value asks for.
    ghost asked: { Self → Asked };

    // The words ask for it.
    ghost asks: { List (List ℕ) → Asked → Type 0 };

    /// What the words ask for; none where they are of no form. Takes no memory. Cost: a look at
    /// each word.
    fn of_words(words: Vec<CowStr<'t>>) -> Option<Self>
        requires { 0 < length words.items }
        ensures some { IfSome result (λ value. asks (map cow_str_bytes words.entry.items)
            (asked value)) }
        ensures none { IsNone result → (a : Asked)
            → ¬ asks (map cow_str_bytes words.entry.items) a };
}

// What a line asks for, if it isn't skipped.
fn line_of<'t, F: Form<'t>>(alloc: Global, line: &'t [u8]) -> Result<Option<F>, LineError>
    ensures said { IfOk result (λ found. Says F.asks line.now (option_map F.asked found)) }
    ensures fault { IsErrOf result LineError.BadLine → IsFault F.asks line.now }
{
    if is_comment(line) {
        return Ok(None);
    }
    let words = words(alloc, line)?;
    if words.is_empty() {
        return Ok(None);
    }
    match F::of_words(words) {
        Some(asked) => Ok(Some(asked)),
        None => Err(LineError::BadLine),
    }
}

// The calls so far, and how many lines they were.
#[derive(Drop)]
struct Reader<F> {
    calls: Vec<Call<F>>,
    lines: usize,
}

impl<'t, F: Form<'t>> Reader<F> {
    fn take(&mut self, alloc: Global, line: &'t [u8]) -> Result<(), ScriptError>
        requires { self.old.lines + 1 < 2 ^ 64 }
        ensures lines { OnOk result (self.new.lines ≡ self.old.lines + 1) }
        ensures calls { OnOk result ((said : Option F.Asked) × Says F.asks line.now said
            × (map (numbered F.asked) self.new.calls.items
            ≡ map (numbered F.asked) self.old.calls.items
            ++ call_at (self.old.lines + 1) said)) }
        ensures fault { (number : ℕ) → IsErrOf result (ScriptError.BadScript number)
            → (number ≡ self.old.lines + 1) × IsFault F.asks line.now }
    {
        let number = self.lines + 1;
        match line_of(alloc, line) {
            Ok(Some(command)) => {
                let call = Call {
                    line: number,
                    command,
                };
                if self.calls.push(call).is_err() {
                    return Err(ScriptError::NoMemory);
                }
            }
            Ok(None) => {}
            Err(LineError::NoMemory) => return Err(ScriptError::NoMemory),
            Err(LineError::BadLine) => return Err(ScriptError::BadScript { line: number }),
        }
        self.lines = number;
        Ok(())
    }
}

/// What the lines of a text ask for, in order, with the numbers of the lines. `BadScript` names the
/// first line that is neither skipped nor of a form; else only memory is refused. Cost: a look at
/// each byte. Bare words are not copied.
pub fn read_lines<'t, F: Form<'t>>(
    alloc: Global,
    text: &'t [u8],
) -> Result<Vec<Call<F>>, ScriptError>
    ensures ok { IfOk result (λ calls. IsScript F.asks 1 (lines_of text.now)
        (map (numbered F.asked) calls.items)) }
    ensures fault { (number : ℕ) → IsErrOf result (ScriptError.BadScript number)
        → HasFault F.asks (lines_of text.now) number }
{
    let mut reader = Reader {
        calls: Vec::new(alloc),
        lines: 0,
    };
    let mut rest = text;
    while !rest.is_empty() {
        let (line, more) = split_line(rest);
        reader.take(alloc, line)?;
        rest = more;
    }
    let Reader { calls, lines: _ } = reader;
    Ok(calls)
}
