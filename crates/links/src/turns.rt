//! The order in which a domain takes what comes to it.
ghost use Rattle.std.specs.Prelude.{◌≡◌, ◌+◌, [], true, false, drop, min, length, replicate, slice_get, slice_index_or, slice_set, IfNone, IfOk, IfSome};
ghost use Rattle.std.specs.Option.{option_map};
ghost use Rattle.links.specs.Queued.{holds_any};
ghost use Rattle.links.specs.Turns.{IsFirst};

use crate::inbox::{Inbox, Taking};
use crate::queues::Queues;
use std::alloc::{AllocError, Global};
use std::marker::Model;
use std::sync::Wait;

/// The messages that were taken from the inbox of a domain and are not begun, and the number of
/// its turn. It begins with the edge whose message came last, since a packet with changes takes
/// longer to make than one that only says how far a log has come; it goes on with an edge until no
/// message of it is left, then with the next edge; more are taken where none is left on any. It notes
/// when none is left, so that it goes through the edges, one for each session among them, only where
/// messages have come.
#[derive(Drop)]
pub struct Turns<T: Drop> {
    taken: Queues<T>,
    edge: usize,
    begun: usize,
    turn: u64,
    // It is known that none is left.
    drained: bool,
}

impl<T: Drop> Model for Turns<T> {
    ghost use Rattle.std.specs.Prelude.{◌≡◌, true, false};
    ghost use Rattle.links.specs.{Queued.holds_any, Turns.TurnsView};

    ghost Value = { TurnsView T };

    ghost view = { λ t. record {
      waiting = t.taken;
      edge = t.edge;
      begun = t.begun;
      turn = t.turn;
    } };

    ghost invariant = { λ t. t.drained ≡ true → holds_any t.taken ≡ false };
}

impl<T: Drop> Turns<T> {
    /// No message of this many edges, before the first turn. Errors: memory only. Cost: linear in
    /// the edges.
    pub fn new(alloc: Global, edges: usize) -> Result<Turns<T>, AllocError>
        ensures { IfOk result (λ t. t ≡ record {
          waiting = replicate edges [];
          edge = 0;
          begun = 0;
          turn = 0;
        }) }
    {
        Ok(Turns {
            taken: Queues::new(alloc, edges)?,
            edge: 0,
            begun: 0,
            turn: 0,
            drained: false,
        })
    }

    /// How many turns have begun, which is the number of the next one. It stays at the greatest
    /// number.
    pub fn turn(&self) -> u64
        ensures { result ≡ self.now.turn }
    {
        self.turn
    }

    /// Takes what waits in the inbox, where none is left of what was taken before. It waits for
    /// nobody, and takes no memory. Cost: where it is known that none is left a look, and that of
    /// `Inbox::refill` where messages have come; else that of `Inbox::take_all`.
    pub fn take<R: Wait>(&mut self, rt: &R, inbox: &Inbox<T>) -> Taking
        requires edges { length self.old.waiting ≡ inbox.now }
        ensures taken { result ≡ Taking.Taken → holds_any self.new.waiting ≡ true }
        ensures kept { holds_any self.old.waiting ≡ true → (result ≡ Taking.Taken)
            × (self.new.waiting ≡ self.old.waiting) }
        ensures empty { result ≡ Taking.Empty → self.new.waiting ≡ self.old.waiting }
        ensures closed { result ≡ Taking.Closed → self.new.waiting ≡ self.old.waiting }
        ensures first { self.new.edge ≡ 0 }
        ensures turn { self.new.turn ≡ self.old.turn }
        ensures edges { length self.new.waiting ≡ length self.old.waiting }
    {
        self.edge = 0;
        let taking = if self.drained {
            inbox.refill(rt, &mut self.taken)
        } else {
            inbox.take_all(rt, &mut self.taken)
        };
        self.drained = match taking {
            Taking::Taken => false,
            Taking::Empty | Taking::Closed => true,
        };
        taking
    }

    /// The next message that was taken: the first of the edge on which one came last, while that has
    /// any, else of the first edge that has one, from the edge on that it is at. Takes no memory.
    /// Cost: constant, spread over many, and linear in the edges where the edge has none left.
    pub fn pop(&mut self) -> Option<T>
        ensures first { IfSome result (λ m. IsFirst self.old.waiting m self.new.waiting) }
        ensures counts { IfSome result (λ _. self.new.turn ≡ min (self.old.turn + 1) u64.MAX) }
        ensures stays { IfNone result (self.new ≡ self.old) }
        ensures none { IfNone result (self.old.edge ≡ 0 → holds_any self.old.waiting ≡ false) }
        ensures edges { length self.new.waiting ≡ length self.old.waiting }
    {
        if self.drained {
            return None;
        }
        let newest = self.taken.newest();
        if self.taken.len(newest) > 0 {
            return self.begin(newest);
        }
        for edge in self.edge..self.taken.edges() {
            if self.taken.len(edge) > 0 {
                self.edge = edge;
                return self.begin(edge);
            }
        }
        self.drained = self.edge == 0;
        None
    }

    // Begins with the first message of an edge.
    fn begin(&mut self, edge: usize) -> Option<T>
        ensures first { result ≡ slice_get (slice_index_or self.old.waiting edge []) 0 }
        ensures rest { self.new ≡ record self.old {
          waiting = slice_set self.old.waiting edge (drop 1
              (slice_index_or self.old.waiting edge []));
          begun = edge;
          turn = min (self.old.turn + 1) u64.MAX;
        } }
    {
        self.turn = self.turn.saturating_add(1);
        self.drained = false;
        self.begun = edge;
        self.taken.pop(edge)
    }

    /// The message behind the one that was begun last, on its edge, which stays. Constant time.
    pub fn behind(&self) -> Option<&T>
        ensures { option_map (λ m. m.now) result
            ≡ slice_get (slice_index_or self.now.waiting self.now.begun []) 0 }
    {
        self.taken.first(self.begun)
    }

    /// The message behind the one that was begun last, on its edge, taken off: it is a part of the same
    /// turn. Takes no memory. Constant time.
    pub fn take_behind(&mut self) -> Option<T>
        ensures behind { result
            ≡ slice_get (slice_index_or self.old.waiting self.old.begun []) 0 }
        ensures rest { self.new ≡ record self.old {
          waiting = slice_set self.old.waiting self.old.begun (drop 1
              (slice_index_or self.old.waiting self.old.begun []));
        } }
    {
        self.drained = false;
        self.taken.pop(self.begun)
    }
}
