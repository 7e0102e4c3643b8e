//! A word as a cell of a column.
ghost use Rattle.std.specs.Prelude.{◌≡◌, ℤ, IfOk, MatchOption};
ghost use Rattle.std.specs.Cow.{cow_str_bytes};
ghost use Rattle.row.specs.Cells.{Datum, datum_of};
ghost use Rattle.script.specs.Values.{IsRead, Prints};

use itoa::Buffer;
use plan::kinds::Kind;
use row::value::Value;
use std::alloc::{AllocError, Global};
use std::borrow::CowStr;

/// The word as a value for a column of the kind. A number is a word that is printed so: no `+`,
/// no zero in front of its digits, no `-0`, and from -2^63 to 2^63 - 1. Any other word stays a
/// text, which a column of numbers refuses by its kind. It copies the text, so that the value takes no
/// more than its bytes need. Errors: memory only.
#[tactic(auto, using(crate::proofs::Numbers::read_once))]
pub fn value_of(alloc: Global, kind: Kind, word: CowStr<'_>) -> Result<Value, AllocError>
    ensures read { IfOk result (λ value. IsRead kind (cow_str_bytes word.entry) (datum_of value)) }
    ensures only { IfOk result (λ value. (other : Datum)
        → IsRead kind (cow_str_bytes word.entry) other → other ≡ datum_of value) }
{
    if let Kind::Int = kind
        && let Some(number) = number_of(word.as_str())
    {
        return Ok(Value::Int(number));
    }
    Value::text(alloc, word.as_str())
}

/// The number of 64 bits that the word prints, if there is one. Takes no memory.
pub fn number_of(word: &str) -> Option<i64>
    ensures { MatchOption result ((n : ℤ) → ¬ Prints word.now n) (λ n. Prints word.now n) }
{
    let Ok(number) = word.parse::<i64>() else {
        return None;
    };
    if Buffer::new().format(number) == word {
        Some(number)
    } else {
        None
    }
}
