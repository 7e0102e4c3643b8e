//! Why a recipe is refused, and where the fault is.
ghost use Rattle.std.specs.Prelude.{◌≡◌, Some};
ghost use Rattle.std.proofs.Common.{rules};
ghost use Rattle.std.specs.Cmp.Rules.{comparing};
ghost use Rattle.std.specs.Ordering.{nat_cmp, on, eq_by_cmp};
ghost use Rattle.document.specs.{Errors.number_at, Errors.name_at, Errors.number_of, Errors.name_of, Errors.printed_flaw, Errors.printed_part, Errors.printed_spot, declared.error.PlanError.TheVariants.NoMemory};

use std::alloc::AllocError;
use std::fmt;
use thiserror::Error;

/// A part of a recipe. Tables, views and conditions are counted from 0; they print from 1.
#[derive(Clone, Copy, PartialEq, Eq, Debug)]
pub enum Part {
    Recipe,
    Table(usize),
    Stage,
    LeftCondition(usize),
    RightCondition(usize),
    View(usize),
}

impl Part {
    /// A field of the part.
    pub(crate) fn field(self, field: &'static str) -> Place {
        Place { part: self, field }
    }
}

/// A field of a part.
#[derive(Clone, Copy)]
pub(crate) struct Place {
    part: Part,
    field: &'static str,
}

impl Place {
    /// The place of a fault there.
    pub(crate) fn expects(self, expected: &'static str) -> Spot {
        Spot::new(self.part, self.field, expected)
    }
}

/// The place of a fault: a part, a field of it, and what is expected there.
#[derive(Clone, Copy, Debug)]
pub struct Spot {
    pub part: Part,
    pub field: &'static str,
    pub expected: &'static str,
}

impl Spot {
    /// This place.
    pub fn new(part: Part, field: &'static str, expected: &'static str) -> Spot
        ensures part { result.part ≡ part }
        ensures field { result.field.now ≡ field.now }
        ensures expected { result.expected.now ≡ expected.now }
    {
        Spot {
            part,
            field,
            expected,
        }
    }
}

/// What is wrong at a place of a recipe.
#[derive(Clone, Copy, PartialEq, Eq, Debug)]
pub enum Flaw {
    MissingField,
    UnknownColumn,
    TypeMismatch,
    DoublePath,
    KeyNotLeft,
    LimitExceeded,
    DuplicateName,
}

impl Flaw {
    fn number(self) -> u8
        ensures { result ≡ number_at self }
    {
        match self {
            Flaw::MissingField => 21,
            Flaw::UnknownColumn => 22,
            Flaw::TypeMismatch => 23,
            Flaw::DoublePath => 24,
            Flaw::KeyNotLeft => 25,
            Flaw::LimitExceeded => 26,
            Flaw::DuplicateName => 27,
        }
    }

    fn name(self) -> &'static str
        ensures { result.now ≡ name_at self }
    {
        match self {
            Flaw::MissingField => "MissingField",
            Flaw::UnknownColumn => "UnknownColumn",
            Flaw::TypeMismatch => "TypeMismatch",
            Flaw::DoublePath => "DoublePath",
            Flaw::KeyNotLeft => "KeyNotLeft",
            Flaw::LimitExceeded => "LimitExceeded",
            Flaw::DuplicateName => "DuplicateName",
        }
    }
}

// What is said behind its place.
impl fmt::Display for Flaw {
    ghost output = { λ f. Some (printed_flaw f) };

    fn fmt<W: fmt::Write>(&self, f: &mut fmt::Formatter<W>) -> fmt::Result {
        match self {
            Flaw::MissingField => f.write_str(", which is missing"),
            Flaw::UnknownColumn => f.write_str(", and there is none such"),
            _ => Ok(()),
        }
    }
}

/// Why a recipe is refused, with the place of a flaw. Two are equal if their numbers are.
#[derive(Clone, Copy, Debug, Error)]
pub enum PlanError {
    #[error("no memory is left")]
    NoMemory,
    #[error("the text is not TOML")]
    NotToml,
    #[error("{1}{0}")]
    At(Flaw, Spot),
}

impl PlanError {
    /// The number of the refusal: 1, or 20 to 27.
    pub fn number(&self) -> u8
        ensures { result ≡ number_of self.now }
    {
        match self {
            PlanError::NoMemory => 1,
            PlanError::NotToml => 20,
            PlanError::At(flaw, _) => flaw.number(),
        }
    }

    /// The name of the refusal, as users see it behind its number.
    pub fn name(&self) -> &'static str
        ensures { result.now ≡ name_of self.now }
    {
        match self {
            PlanError::NoMemory => "NoMemory",
            PlanError::NotToml => "NotToml",
            PlanError::At(flaw, _) => flaw.name(),
        }
    }
}

impl PartialEq for PlanError {
    ghost eq = { eq_by_cmp (on number_of nat_cmp) };

    ghost laws = { Prim.search (comparing, rules) };

    fn eq(&self, other: &PlanError) -> bool {
        self.number() == other.number()
    }
}

impl Eq for PlanError {
    ghost laws = { Prim.search (comparing, rules) };
}

/// The part's name, and its number from 1 on where there may be more than one of its kind.
impl fmt::Display for Part {
    ghost output = { λ p. Some (printed_part p) };

    fn fmt<W: fmt::Write>(&self, f: &mut fmt::Formatter<W>) -> fmt::Result {
        match self {
            Part::Recipe => write!(f, "the recipe"),
            Part::Table(at) => write!(f, "table {}", at.saturating_add(1)),
            Part::Stage => write!(f, "the stage"),
            Part::LeftCondition(at) => {
                write!(f, "the stage, left condition {}", at.saturating_add(1))
            }
            Part::RightCondition(at) => {
                write!(f, "the stage, right condition {}", at.saturating_add(1))
            }
            Part::View(at) => write!(f, "view {}", at.saturating_add(1)),
        }
    }
}

/// The part, the field, and what is expected there.
impl fmt::Display for Spot {
    ghost output = { λ s. Some (printed_spot s) };

    fn fmt<W: fmt::Write>(&self, f: &mut fmt::Formatter<W>) -> fmt::Result {
        write!(
            f,
            "{}, `{}`: expected {}",
            self.part, self.field, self.expected
        )
    }
}

impl<E: Into<AllocError> + Drop> From<E> for PlanError {
    ghost from_gives = { λ _ e. e ≡ NoMemory };

    fn from(_e: E) -> PlanError {
        PlanError::NoMemory
    }
}
