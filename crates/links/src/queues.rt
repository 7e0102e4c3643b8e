//! Messages by the edge on which they came.
ghost use Rattle.std.specs.Prelude.{◌≡◌, ◌<◌, ◌∷◌, ◌++◌, [], length, drop, not, replicate, slice_get, slice_index_or, slice_set, is_ok, if◌then◌else◌, IfOk, IfErr, OnOk, OnErr};
ghost use Rattle.std.specs.Option.{option_map};
ghost use Rattle.links.specs.Queued.{holds_any, put_on};

use std::alloc::{AllocError, AllocFailed, Global};
use std::collections::VecDeque;
use std::marker::Model;

/// For how many messages an empty queue keeps room.
const KEPT: usize = 32;

/// Queues of messages, one for each edge. A contract sees a list of lists. Room for up to 32
/// messages that a queue has once taken it keeps, so that queues which are filled and emptied in
/// turn soon take no more memory; the room of more it gives back when it is empty.
#[derive(Drop)]
pub struct Queues<T: Drop> {
    waiting: Vec<Waiting<T>>,
    newest: usize,
}

impl<T: Drop> Queues<T> {
    /// Empty queues of this many edges. Errors: memory only. Cost: linear in the edges.
    pub fn new(alloc: Global, edges: usize) -> Result<Queues<T>, AllocError>
        ensures { IfOk result (λ q. q ≡ replicate edges []) }
    {
        let mut waiting = Vec::with_capacity(alloc, edges)?;
        for _ in 0..edges {
            let none = Waiting::none(alloc);
            waiting.push(none)?;
        }
        Ok(Queues { waiting, newest: 0 })
    }

    /// How many edges there are.
    pub fn edges(&self) -> usize
        ensures { result ≡ length self.now }
    {
        self.waiting.len()
    }

    /// How many messages wait on an edge; none on one that is not there.
    pub fn len(&self, edge: usize) -> usize
        ensures { result ≡ length (slice_index_or self.now edge []) }
    {
        match self.waiting.get(edge) {
            Some(waiting) => waiting.len(),
            None => 0,
        }
    }

    /// The edge on which a message was put last; the first one before any was.
    pub fn newest(&self) -> usize {
        self.newest
    }

    /// Whether no edge has a message. Cost: linear in the edges.
    pub fn is_empty(&self) -> bool
        ensures { result ≡ not (holds_any self.now) }
    {
        for edge in 0..self.waiting.len() {
            if self.waiting[edge].len() > 0 {
                return false;
            }
        }
        true
    }

    /// The first message of an edge, which stays; `None` where none waits, or there is no such edge.
    /// Constant time.
    pub fn first(&self, edge: usize) -> Option<&T>
        ensures { option_map (λ m. m.now) result
            ≡ slice_get (slice_index_or self.now edge []) 0 }
    {
        match self.waiting.get(edge) {
            Some(waiting) => waiting.first(),
            None => None,
        }
    }

    /// The first message of an edge, taken off; `None` where none waits, or there is no such edge.
    /// Takes no memory. Constant time.
    pub fn pop(&mut self, edge: usize) -> Option<T>
        ensures first { result ≡ slice_get (slice_index_or self.old edge []) 0 }
        ensures rest { self.new ≡ slice_set self.old edge (drop 1
            (slice_index_or self.old edge [])) }
    {
        if edge < self.waiting.len() {
            self.waiting[edge].pop()
        } else {
            None
        }
    }

    /// Puts a message last on an edge. Refused for want of memory: then the queues stay, and the
    /// message is handed back. Cost: constant, spread over many.
    #[inline(always)]
    pub fn put(&mut self, edge: usize, message: T) -> Result<(), AllocFailed<T>>
        requires edge { edge < length self.old }
        ensures last { OnOk result (self.new ≡ put_on self.old edge message) }
        ensures refused { OnErr result (self.new ≡ self.old) }
        ensures back { IfErr result (λ f. f.value ≡ message) }
    {
        self.waiting[edge].put(message)?;
        self.newest = edge;
        Ok(())
    }
}

impl<T: Drop> Model for Queues<T> {
    ghost use Rattle.std.specs.Prelude.{List};

    ghost Value = { List (List T) };

    ghost view = { λ q. q.waiting.items };
}

/// What came on one edge and waits, in order.
#[derive(Drop)]
struct Waiting<T: Drop> {
    messages: VecDeque<T>,
}

impl<T: Drop> Waiting<T> {
    fn first(&self) -> Option<&T>
        ensures { option_map (λ m. m.now) result ≡ slice_get self.now 0 }
    {
        self.messages.front()
    }

    fn pop(&mut self) -> Option<T>
        ensures first { result ≡ slice_get self.old 0 }
        ensures rest { self.new ≡ drop 1 self.old }
    {
        let first = self.messages.pop_front();
        if self.messages.is_empty() && self.messages.capacity() > KEPT {
            self.messages.shrink_to(KEPT);
        }
        first
    }

    // Makes room first, so that a message that has room is moved to its place at once, and is in no
    // result.
    #[inline(always)]
    fn put(&mut self, message: T) -> Result<(), AllocFailed<T>>
        ensures last { self.new ≡ (if is_ok result then self.old ++ message ∷ [] else self.old) }
        ensures back { IfErr result (λ f. f.value ≡ message) }
    {
        match self.messages.reserve(1) {
            Ok(()) => {
                self.messages.push_back_reserved(message);
                Ok(())
            }
            Err(_) => Err(AllocFailed { value: message }),
        }
    }

    fn len(&self) -> usize
        ensures { result ≡ length self.now }
    {
        self.messages.len()
    }

    fn none(alloc: Global) -> Waiting<T>
        ensures { result ≡ [] }
    {
        let messages = VecDeque::new(alloc);
        Waiting { messages }
    }
}

impl<T: Drop> Model for Waiting<T> {
    ghost use Rattle.std.specs.Prelude.{List};

    ghost Value = { List T };

    ghost view = { λ w. w.messages.items };
}
