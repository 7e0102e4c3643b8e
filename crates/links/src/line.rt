//! What stands behind the lock of an inbox.
ghost use Rattle.std.specs.Prelude.{◌≡◌, ◌⊎◌, ◌<◌, ◌&&◌, ◌+◌, [], length, min, nat_le, not, true, false, replicate, IfOk, IfErr, IsErrAnd, OnOk, OnErr};
ghost use Rattle.links.specs.Queued.{crowd_limit, holds_any, put_on};

use crate::inbox::{Taking, Unsent};
use crate::queues::Queues;
use row::refused::Refused;
use std::alloc::{AllocError, Global};
use std::marker::Model;
use std::mem;

/// From how many messages on who puts one gives way to the taker.
const CROWD: u32 = 4096;

/// The queues that are filled, how many messages were put since these were last taken, and whether
/// they are closed.
#[derive(Drop)]
pub struct Line<T: Drop> {
    queues: Queues<T>,
    filled: bool,
    waiting: u32,
    closed: bool,
}

impl<T: Drop> Model for Line<T> {
    ghost use Rattle.std.specs.Prelude.{◌≡◌};
    ghost use Rattle.links.specs.Queued.{LineView, holds_any};

    ghost Value = { LineView T };

    ghost view = { λ l. record { queues = l.queues; waiting = l.waiting; closed = l.closed } };

    ghost invariant = { λ l. l.filled ≡ holds_any l.queues };
}

impl<T: Drop> Line<T> {
    /// An open line with empty queues. Errors: memory only.
    pub fn new(alloc: Global, edges: usize) -> Result<Line<T>, AllocError>
        ensures { IfOk result (λ l. l ≡ record {
          queues = replicate edges [];
          waiting = 0;
          closed = false;
        }) }
    {
        let queues = Queues::new(alloc, edges)?;
        Ok(Line {
            queues,
            filled: false,
            waiting: 0,
            closed: false,
        })
    }

    /// Whether there is nothing to tell its taker.
    pub fn is_idle(&self) -> bool
        ensures { result ≡ not (holds_any self.now.queues) && not self.now.closed }
    {
        !self.filled && !self.closed
    }

    /// Whether so many messages wait that who puts one is to give way.
    pub fn is_crowded(&self) -> bool
        ensures { result ≡ nat_le crowd_limit self.now.waiting }
    {
        self.waiting >= CROWD
    }

    /// Puts a message last on an edge, and says whether it is the first of all that wait.
    #[inline(always)]
    pub fn put(&mut self, edge: usize, message: T) -> Result<bool, Unsent<T>>
        ensures put { OnOk result (self.new ≡ record self.old {
          queues = put_on self.old.queues edge message;
          waiting = min (self.old.waiting + 1) u32.MAX;
        }) }
        ensures first { IfOk result (λ f. f ≡ not (holds_any self.old.queues)) }
        ensures refused { OnErr result (self.new ≡ self.old) }
        ensures back { IfErr result (λ u. u.message ≡ message) }
        ensures closed { self.old.closed ≡ true
            → IsErrAnd result (λ u. u.refused ≡ Refused.Stopped) }
        ensures memory { self.old.closed ≡ false → edge < length self.old.queues
            → IfErr result (λ u. u.refused ≡ Refused.NoMemory) }
        ensures only { IfErr result (λ u. (u.refused ≡ Refused.NoMemory)
            ⊎ (u.refused ≡ Refused.Stopped)) }
    {
        if self.closed || edge >= self.queues.edges() {
            return Err(Unsent::new(Refused::Stopped, message));
        }
        match self.queues.put(edge, message) {
            Ok(()) => {
                self.waiting = self.waiting.saturating_add(1);
                Ok(!mem::replace(&mut self.filled, true))
            }
            Err(failed) => Err(Unsent::new(Refused::NoMemory, failed.value)),
        }
    }

    /// Gives all that wait for the empty queues of the taker. Where none waits it is `Closed` if the
    /// line is, else `Empty`.
    pub fn give(&mut self, taken: &mut Queues<T>) -> Taking
        requires empty { holds_any taken.old ≡ false }
        ensures count { length taken.new ≡ length taken.old }
        ensures taken { result ≡ Taking.Taken → (taken.new ≡ self.old.queues)
            × (self.new ≡ record self.old { queues = taken.old; waiting = 0 })
            × (holds_any taken.new ≡ true) }
        ensures empty { result ≡ Taking.Empty → (self.old.closed ≡ false)
            × (taken.new ≡ taken.old) × (self.new ≡ self.old) }
        ensures closed { result ≡ Taking.Closed → (self.old.closed ≡ true)
            × (taken.new ≡ taken.old) × (self.new ≡ self.old) }
        ensures gives { holds_any self.old.queues ≡ true
            → length taken.old ≡ length self.old.queues → result ≡ Taking.Taken }
    {
        if !self.filled || self.queues.edges() != taken.edges() {
            return if self.closed {
                Taking::Closed
            } else {
                Taking::Empty
            };
        }
        mem::swap(&mut self.queues, taken);
        self.filled = false;
        self.waiting = 0;
        Taking::Taken
    }

    /// Lets no more messages in.
    pub fn close(&mut self)
        ensures { self.new ≡ record self.old { closed = true } }
    {
        self.closed = true;
    }
}
