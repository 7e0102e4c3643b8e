//! The reasons for which a call is refused, with the number and the name that users see.
ghost use Rattle.std.specs.Prelude.{◌≡◌, Some};
ghost use Rattle.row.specs.{Refusals.number_of, Refusals.name_of, declared.refused.Refused.TheVariants.NoMemory};

use std::alloc::AllocError;
use std::fmt;
use thiserror::Error;

/// Why a call was refused. What a refusal leaves is said at the call that gives it.
#[derive(Clone, Copy, PartialEq, Eq, Debug, Error)]
pub enum Refused {
    /// No memory.
    NoMemory,
    /// There is no such table.
    UnknownTable,
    /// The row does not fit its table.
    BadRow,
    /// A row with this key is there already.
    Duplicate,
    /// There is no row with this key.
    Absent,
    /// The log has its limit of entries.
    LogFull,
    /// There is no such view.
    UnknownView,
    /// The key is no cell of the key column.
    BadKey,
    /// The answer was missing at each try.
    Busy,
    /// A part that the call needs has stopped.
    Stopped,
    /// The session was used elsewhere, or its call numbers are spent.
    Stolen,
    /// No session is left.
    NoSessionLeft,
    /// Less is shown of a source than the session has looked at.
    Behind,
    /// A packet came out of turn.
    Gap,
    /// The plan has no such place.
    UnknownPlace,
    /// The line of the script is of no known form.
    BadScript,
    /// The file cannot be read.
    CannotRead,
    /// The output cannot be written.
    CannotWrite,
}

impl Refused {
    /// The number that users see.
    pub fn number(self) -> u8
        ensures { result ≡ number_of self }
    {
        match self {
            Refused::NoMemory => 1,
            Refused::UnknownTable => 2,
            Refused::BadRow => 3,
            Refused::Duplicate => 4,
            Refused::Absent => 5,
            Refused::LogFull => 6,
            Refused::UnknownView => 7,
            Refused::BadKey => 8,
            Refused::Busy => 9,
            Refused::Stopped => 10,
            Refused::Stolen => 11,
            Refused::NoSessionLeft => 12,
            Refused::Behind => 13,
            Refused::Gap => 14,
            Refused::UnknownPlace => 15,
            Refused::BadScript => 30,
            Refused::CannotRead => 31,
            Refused::CannotWrite => 32,
        }
    }

    /// The name that users see.
    pub fn name(self) -> &'static str
        ensures { result.now ≡ name_of self }
    {
        match self {
            Refused::NoMemory => "NoMemory",
            Refused::UnknownTable => "UnknownTable",
            Refused::BadRow => "BadRow",
            Refused::Duplicate => "Duplicate",
            Refused::Absent => "Absent",
            Refused::LogFull => "LogFull",
            Refused::UnknownView => "UnknownView",
            Refused::BadKey => "BadKey",
            Refused::Busy => "Busy",
            Refused::Stopped => "Stopped",
            Refused::Stolen => "Stolen",
            Refused::NoSessionLeft => "NoSessionLeft",
            Refused::Behind => "Behind",
            Refused::Gap => "Gap",
            Refused::UnknownPlace => "UnknownPlace",
            Refused::BadScript => "BadScript",
            Refused::CannotRead => "CannotRead",
            Refused::CannotWrite => "CannotWrite",
        }
    }
}

/// The name.
impl fmt::Display for Refused {
    ghost output = { λ refused. Some (name_of refused) };

    fn fmt<W: fmt::Write>(&self, f: &mut fmt::Formatter<W>) -> fmt::Result {
        f.write_str(self.name())
    }
}

impl<E: Into<AllocError> + Drop> From<E> for Refused {
    ghost from_gives = { λ _ e. e ≡ NoMemory };

    fn from(_error: E) -> Refused {
        Refused::NoMemory
    }
}
