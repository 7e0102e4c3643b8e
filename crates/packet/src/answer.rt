//! The answer to a write.
ghost use Rattle.std.specs.Prelude.{◌≡◌, IsTrue};
ghost use Rattle.model.specs.Entries.{change_of};
ghost use Rattle.packet.specs.Answers.{IsAnswer, answer_with};

use model::entry::Entry;
use model::fronts::Fronts;
use row::refused::Refused;
use std::marker::Model;

/// The answer of a base shard to a write: the index of its entry, or why it was refused. Accepted,
/// the entry stands in the log at the index under the write's session and number, as the front
/// shows. Refused by the log, the front has all of the log that was seen, and no item of the call.
/// An answer whose front would take memory that is refused has none: its refusal is `NoMemory` or
/// `Stopped`, or it was accepted by a shard that then stopped.
pub struct Answer<F: Fronts> {
    front: Option<F>,
    session: usize,
    number: u64,
    entry: Entry,
    refused: Option<Refused>,
    index: u64,
}

// What holds one drops it by this call, and need not know its parts.
impl<F: Fronts> Drop for Answer<F> {
    fn drop(self) {
        let Answer {
            front: _,
            session: _,
            number: _,
            entry: _,
            refused: _,
            index: _,
        } = self;
    }
}

impl<F: Fronts> Model for Answer<F> {
    ghost use Rattle.model.specs.Entries.{change_of};
    ghost use Rattle.packet.specs.Answers.{AnswerView, IsAnswer, answer_with};

    ghost Value = { AnswerView F };

    ghost view = { λ a. answer_with a.session a.number (change_of a.entry) a.refused a.index
        a.front };

    ghost invariant = { λ a. IsAnswer F.log F.authors F.is_all
        (answer_with a.session a.number (change_of a.entry) a.refused a.index a.front) };
}

impl<F: Fronts> Answer<F> {
    /// An answer of these parts.
    pub fn new(
        session: usize,
        number: u64,
        entry: Entry,
        refused: Option<Refused>,
        index: u64,
        front: Option<F>,
    ) -> Answer<F>
        requires { IsAnswer F.log F.authors F.is_all
            (answer_with session number (change_of entry) refused index front) }
        ensures { result ≡ answer_with session number (change_of entry) refused index front }
    {
        Answer {
            session,
            number,
            entry,
            refused,
            index,
            front,
        }
    }

    /// Whether it is the answer to this write. Cost: the length of the entry.
    pub fn is_of(&self, session: usize, number: u64, entry: &Entry) -> bool
        ensures session { IsTrue result → self.now.session ≡ session }
        ensures number { IsTrue result → self.now.number ≡ number }
        ensures entry { IsTrue result → self.now.entry ≡ change_of entry.now }
        ensures sure { self.now.session ≡ session → self.now.number ≡ number
            → self.now.entry ≡ change_of entry.now → IsTrue result }
    {
        self.session == session && self.number == number && self.entry.is_same(entry)
    }

    /// The session that is answered.
    pub fn session(&self) -> usize
        ensures { result ≡ self.now.session }
    {
        self.session
    }

    /// Why it was refused, if it was.
    pub fn refused(&self) -> Option<Refused>
        ensures { result ≡ self.now.refused }
    {
        self.refused
    }

    /// The index of the entry, where it was accepted.
    pub fn index(&self) -> u64
        ensures { result ≡ self.now.index }
    {
        self.index
    }

    /// The entry, and the front that shows the answer, moved out of it.
    pub fn into_parts(self) -> (Entry, Option<F>)
        ensures entry { change_of result.0 ≡ self.entry }
        ensures front { result.1 ≡ self.front }
        ensures answer { IsAnswer F.log F.authors F.is_all self }
    {
        let Answer {
            front,
            session: _,
            number: _,
            entry,
            refused: _,
            index: _,
        } = self;
        (entry, front)
    }
}
