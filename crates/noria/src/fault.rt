//! What ends a run.
ghost use Rattle.std.specs.Prelude.{◌≡◌, Some};
ghost use Rattle.row.specs.declared.refused.Refused.TheVariants as refused;
ghost use Rattle.noria.specs.declared.fault.Fault.TheVariants as fault;
ghost use Rattle.noria.specs.Faults.{printed, of_script, of_replay};

use document::error::PlanError;
use replays::replay::ReplayError;
use row::refused::Refused;
use script::script::ScriptError;
use std::alloc::AllocError;
use std::fmt;

/// What ends a run: a refusal, a recipe that is refused, or a line of the script or the schedule
/// that is of no known form.
#[derive(Clone, Copy, PartialEq, Eq, Debug)]
pub enum Fault {
    Refused(Refused),
    BadRecipe(PlanError),
    BadScript { line: usize },
}

/// The number and the name of the refusal, and of a line of no known form its number.
impl fmt::Display for Fault {
    ghost output = { λ f. Some (printed f) };

    fn fmt<W: fmt::Write>(&self, f: &mut fmt::Formatter<W>) -> fmt::Result {
        match self {
            Fault::Refused(refused) => write!(f, "refused {} {}", refused.number(), refused.name()),
            Fault::BadRecipe(error) => write!(f, "refused {} {}", error.number(), error.name()),
            Fault::BadScript { line } => {
                let refused = Refused::BadScript;
                write!(
                    f,
                    "refused {} {} line {line}",
                    refused.number(),
                    refused.name()
                )
            }
        }
    }
}

impl From<Refused> for Fault {
    ghost from_gives = { λ r f. f ≡ fault.Refused r };

    fn from(refused: Refused) -> Fault {
        Fault::Refused(refused)
    }
}

impl From<AllocError> for Fault {
    ghost from_gives = { λ _ f. f ≡ fault.Refused refused.NoMemory };

    fn from(_error: AllocError) -> Fault {
        Fault::Refused(Refused::NoMemory)
    }
}

impl From<PlanError> for Fault {
    ghost from_gives = { λ e f. f ≡ fault.BadRecipe e };

    fn from(error: PlanError) -> Fault {
        Fault::BadRecipe(error)
    }
}

impl From<ScriptError> for Fault {
    ghost from_gives = { λ e f. f ≡ of_script e };

    fn from(error: ScriptError) -> Fault {
        match error {
            ScriptError::NoMemory => Fault::Refused(error.refused()),
            ScriptError::BadScript { line } => Fault::BadScript { line },
        }
    }
}

impl From<ReplayError> for Fault {
    ghost from_gives = { λ e f. f ≡ of_replay e };

    fn from(error: ReplayError) -> Fault {
        match error {
            ReplayError::NoMemory => Fault::Refused(Refused::NoMemory),
            ReplayError::BadScript { line } => Fault::BadScript { line },
            ReplayError::CannotWrite => Fault::Refused(Refused::CannotWrite),
        }
    }
}
