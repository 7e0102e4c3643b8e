//! The words that recipes have for kinds, comparisons and aggregates.
ghost use Rattle.std.specs.Prelude.{◌≡◌};
ghost use Rattle.document.specs.Words.{kind_of, op_of, word_of};

use plan::kinds::{Kind, Op};

/// The word for an aggregate, before its column is known.
#[derive(Clone, Copy, PartialEq, Eq, Debug)]
pub enum Word {
    Count,
    Sum,
}

/// The kind that the word names.
pub(crate) fn kind_of(word: &str) -> Option<Kind>
    ensures { result ≡ kind_of word.now }
{
    match word {
        "int" => Some(Kind::Int),
        "text" => Some(Kind::Text),
        _ => None,
    }
}

/// The comparison that the word names.
pub(crate) fn op_of(word: &str) -> Option<Op>
    ensures { result ≡ op_of word.now }
{
    match word {
        "=" => Some(Op::Equal),
        "!=" => Some(Op::NotEqual),
        "<" => Some(Op::Less),
        "<=" => Some(Op::AtMost),
        ">" => Some(Op::Greater),
        ">=" => Some(Op::AtLeast),
        _ => None,
    }
}

/// The aggregate that the word names.
pub(crate) fn word_of(word: &str) -> Option<Word>
    ensures { result ≡ word_of word.now }
{
    match word {
        "count" => Some(Word::Count),
        "sum" => Some(Word::Sum),
        _ => None,
    }
}
