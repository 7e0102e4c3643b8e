//! The calls of a script.
ghost use Rattle.std.specs.Prelude.{◌≡◌, ℕ, ◌<◌, ◌≤◌, ◌≢◌, ◌↔◌, IsTrue, List, ◌∷◌, ◌++◌, [], ◌⊎◌, true, length, map, slice_index, IfOk, IsErrOf};
ghost use Rattle.std.specs.List.{list_all};
ghost use Rattle.script.specs.{Commands.Asks, Commands.action_of, Scripts.lines_of, Scripts.ended, Scripts.is_whole, Scripts.numbered, Scripts.AreOnlyCalls, Scripts.HasFault, Scripts.IsComment, Scripts.refusal_of};

use crate::command::Command;
use crate::reader::read_lines;
use row::refused::Refused;
use std::alloc::Global;
use thiserror::Error;

/// Why a script was refused. Nothing of a refused script has been read.
#[derive(Clone, Copy, PartialEq, Eq, Debug, Error)]
pub enum ScriptError {
    #[error("no memory")]
    NoMemory,
    /// The first line at fault, counted from 1.
    #[error("line {line} of the script is of no known form")]
    BadScript { line: usize },
}

impl ScriptError {
    /// The refusal that users see.
    pub fn refused(self) -> Refused
        ensures { result ≡ refusal_of self }
    {
        match self {
            ScriptError::NoMemory => Refused::NoMemory,
            ScriptError::BadScript { line: _ } => Refused::BadScript,
        }
    }
}

/// A call: the number of its line, from 1, and its command.
#[derive(Drop)]
pub struct Call<C> {
    pub line: usize,
    pub command: C,
}

/// A call of a script, whose bare words are those of the text.
pub type ScriptCall<'t> = Call<Command<'t>>;

// How many bytes stand in front of the first line feed.
fn line_length(text: &[u8]) -> usize
    ensures within { result ≤ length text.now }
    ensures before { (k : ℕ) → k < result → slice_index text.now k ≢ 10 }
    ensures found { result < length text.now → slice_index text.now result ≡ 10 }
{
    text.iter()
        .position(|byte| *byte == b'\n')
        .unwrap_or(text.len())
}

/// The first line, and the text behind its line feed. A look at each byte of the line.
pub fn split_line(text: &[u8]) -> (&[u8], &[u8])
    requires { 0 < length text.now }
    ensures lines { lines_of text.now ≡ result.0.now ∷ lines_of result.1.now }
    ensures shorter { length result.1.now < length text.now }
{
    let end = line_length(text);
    if end < text.len() {
        (&text[..end], &text[end + 1..])
    } else {
        (text, &text[end..])
    }
}

/// Whether the line is a comment: its first byte is `#`. Constant time.
pub fn is_comment(line: &[u8]) -> bool
    ensures { IsTrue result ↔ IsComment line.now }
{
    matches!(line, [b'#', ..])
}

/// A law of texts: a text is its lines, each with a line feed behind it, which the last may lack,
/// and no line has a line feed in it. It does nothing.
#[tactic(auto, using(crate::proofs::Lines::lines_ended, crate::proofs::Lines::lines_whole))]
pub fn lines_are_the_text()
    ensures ended { (text : List ℕ) → (ended (lines_of text) ≡ text)
        ⊎ (ended (lines_of text) ≡ text ++ 10 ∷ []) }
    ensures whole { (text : List ℕ) → list_all is_whole (lines_of text) ≡ true }
{}

/// The calls of a script, in order, with the numbers of their lines. `BadScript` names the first
/// line that is neither skipped nor a call; else only memory is refused. Cost: a look at each byte.
/// Bare words are not copied.
pub fn read_script<'t>(alloc: Global, text: &'t [u8]) -> Result<Vec<ScriptCall<'t>>, ScriptError>
    ensures ok { IfOk result (λ calls. AreOnlyCalls Asks (lines_of text.now)
        (map (numbered action_of) calls.items)) }
    ensures fault { (number : ℕ) → IsErrOf result (ScriptError.BadScript number)
        → HasFault Asks (lines_of text.now) number }
{
    read_lines(alloc, text)
}
