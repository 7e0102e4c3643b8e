//! The inbox of a domain.
ghost use Rattle.std.specs.Prelude.{◌≡◌, ◌⊎◌, ◌<◌, ◌≤◌, length, true, false, IfOk, IfErr, IsErrAnd};
ghost use Rattle.links.specs.Queued.{holds_any};

use crate::line::Line;
use crate::look::give_way;
use crate::queues::Queues;
use crossbeam_utils::sync::EventCount;
use row::refused::Refused;
use std::alloc::{AllocError, Global};
use std::marker::Model;
use std::sync::atomic::{AtomicBool, Ordering};
use std::sync::{Arc, Mutex, Wait};

/// A message that was not put, and why.
#[derive(Drop)]
pub struct Unsent<T: Drop> {
    pub refused: Refused,
    pub message: T,
}

impl<T: Drop> Unsent<T> {
    /// The message, with the reason.
    #[inline(always)]
    pub fn new(refused: Refused, message: T) -> Unsent<T>
        ensures { result ≡ record { refused = refused; message = message } }
    {
        Unsent { refused, message }
    }
}

impl<T: Drop> From<Unsent<T>> for Refused {
    ghost from_gives = { λ u e. e ≡ u.refused };

    fn from(unsent: Unsent<T>) -> Refused {
        unsent.refused
    }
}

/// What became of a take.
#[derive(Clone, Copy, PartialEq, Eq, Debug)]
pub enum Taking {
    /// The queues of the caller hold a message.
    Taken,
    /// They hold none, and some may come.
    Empty,
    /// They hold none, and none will come.
    Closed,
}

/// The inbox of a domain: a queue for each edge that leads to it, all behind one lock. Any thread
/// puts; one takes. A contract sees how many edges there are. What the queues hold no contract
/// says, since others change it; what a put and a take make of them, `Queues` and the type of the
/// messages say.
///
/// The taker swaps its emptied queues for the filled ones, as one does with two buffers: the lock
/// is held for a few words, however many messages there are. A take waits for no message: a thread
/// that takes from several inboxes waits at the event count that they share (`wait_until`).
pub struct Inbox<T: Drop> {
    line: Mutex<Line<T>>,
    ready: AtomicBool,
    crowded: AtomicBool,
    moved: Arc<EventCount>,
    edges: usize,
}

// What holds one drops it by this call, and need not know its parts.
impl<T: Drop> Drop for Inbox<T> {
    fn drop(self) {
        let Inbox {
            line: _,
            ready: _,
            crowded: _,
            moved: _,
            edges: _,
        } = self;
    }
}

impl<T: Drop> Model for Inbox<T> {
    ghost use Rattle.std.specs.Prelude.{ℕ};

    ghost Value = { ℕ };

    ghost view = { λ i. i.edges };
}

impl<T: Drop> Inbox<T> {
    /// An open inbox with no message, of this many edges, that tells the event count of what comes.
    /// Errors: memory only. Cost: linear in the edges.
    pub fn new(alloc: Global, edges: usize, moved: Arc<EventCount>) -> Result<Inbox<T>, AllocError>
        ensures { IfOk result (λ i. i ≡ edges) }
    {
        let line = Line::new(alloc, edges)?;
        Ok(Inbox {
            line: Mutex::new(line),
            ready: AtomicBool::new(false),
            crowded: AtomicBool::new(false),
            moved,
            edges,
        })
    }

    /// How many edges there are.
    pub fn edges(&self) -> usize
        ensures { result ≡ self.now }
    {
        self.edges
    }

    /// Puts a message last on an edge, and wakes the taker if it is the first that waits. Refused
    /// with `UnknownPlace` exactly where there is no such edge, else with `Stopped` once the inbox is
    /// closed and with `NoMemory` for want of room. A refused put leaves the inbox as it was, and
    /// hands the message back. Cost: one lock, and constant time, spread over many.
    #[inline(always)]
    pub fn put<R: Wait>(&self, rt: &R, edge: usize, message: T) -> Result<(), Unsent<T>>
        ensures back { IfErr result (λ u. u.message ≡ message) }
        ensures unknown { self.now ≤ edge
            → IsErrAnd result (λ u. u.refused ≡ Refused.UnknownPlace) }
        ensures known { edge < self.now
            → IfErr result (λ u. (u.refused ≡ Refused.NoMemory) ⊎ (u.refused ≡ Refused.Stopped)) }
    {
        if edge >= self.edges {
            return Err(Unsent::new(Refused::UnknownPlace, message));
        }
        let mut line = self.line.lock(rt);
        let first = line.put(edge, message)?;
        if line.is_crowded() {
            self.crowded.store(true, Ordering::SeqCst);
        }
        drop(line);
        if first {
            self.wake();
        }
        Ok(())
    }

    // Tells the taker that a message waits. Whoever calls this has given back the lock: a taker that
    // looks takes it at once.
    fn wake(&self) {
        self.ready.store(true, Ordering::SeqCst);
        self.moved.notify_one();
    }

    /// Whether 4096 messages or more waited at the last put, and none was taken since. It takes no
    /// lock.
    pub fn is_crowded(&self) -> bool {
        self.crowded.load(Ordering::SeqCst)
    }

    /// Gives way to the taker some times where the inbox is crowded: for who puts in another thread
    /// than the taker's. It takes no lock.
    pub fn give_way(&self) {
        give_way(&self.crowded);
    }

    /// Whether the taker was told of a message that waits, or the inbox is closed. It takes no lock.
    pub fn is_ready(&self) -> bool {
        self.ready.load(Ordering::SeqCst)
    }

    /// Swaps the queues of the caller for those that are filled. Queues that still hold a message
    /// stay as they are: what was taken first comes first. `Empty` where the taker was told of no
    /// message, `Closed` once the inbox is closed and all of it was taken; the queues then stay, and
    /// are empty. It waits for no message, takes no memory and copies no message. Cost: a look, one
    /// lock where the inbox is ready, and linear in the edges.
    pub fn take_all<R: Wait>(&self, rt: &R, taken: &mut Queues<T>) -> Taking
        requires count { length taken.old ≡ self.now }
        ensures count { length taken.new ≡ length taken.old }
        ensures taken { result ≡ Taking.Taken → holds_any taken.new ≡ true }
        ensures kept { holds_any taken.old ≡ true → (result ≡ Taking.Taken)
            × (taken.new ≡ taken.old) }
        ensures empty { result ≡ Taking.Empty → taken.new ≡ taken.old }
        ensures closed { result ≡ Taking.Closed → taken.new ≡ taken.old }
    {
        if !taken.is_empty() {
            return Taking::Taken;
        }
        self.refill(rt, taken)
    }

    /// The same for queues of the caller that hold no message. Cost: a look, and one lock where the
    /// inbox is ready.
    pub fn refill<R: Wait>(&self, rt: &R, taken: &mut Queues<T>) -> Taking
        requires count { length taken.old ≡ self.now }
        requires none { holds_any taken.old ≡ false }
        ensures count { length taken.new ≡ length taken.old }
        ensures taken { result ≡ Taking.Taken → holds_any taken.new ≡ true }
        ensures empty { result ≡ Taking.Empty → taken.new ≡ taken.old }
        ensures closed { result ≡ Taking.Closed → taken.new ≡ taken.old }
    {
        if !self.is_ready() {
            return Taking::Empty;
        }
        let mut line = self.line.lock(rt);
        let taking = line.give(taken);
        self.ready.store(!line.is_idle(), Ordering::SeqCst);
        self.crowded.store(false, Ordering::SeqCst);
        taking
    }

    /// Closes the inbox: what is in it can be taken, each later put is refused, and the taker
    /// wakes. It cannot be opened again. Cost: one lock.
    pub fn close<R: Wait>(&self, rt: &R) {
        self.line.lock(rt).close();
        self.ready.store(true, Ordering::SeqCst);
        self.moved.notify_all();
    }
}
