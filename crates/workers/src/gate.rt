//! What may stand between two turns of a domain.
use plan::domain::DomainId;

/// What the thread of each domain calls around each of its turns. A test holds a thread there, so
/// that several are in their turns at once, or come in a wanted order.
pub trait Gate {
    /// Called before a domain's turn of this number; the turn begins when it returns.
    fn before(&self, domain: DomainId, turn: u64);

    /// Called after it, when all that the turn makes has been sent.
    fn after(&self, domain: DomainId, turn: u64);
}

/// A gate that does nothing.
#[derive(Clone, Copy)]
pub struct OpenGate;

impl Gate for OpenGate {
    fn before(&self, _domain: DomainId, _turn: u64) {}

    fn after(&self, _domain: DomainId, _turn: u64) {}
}
