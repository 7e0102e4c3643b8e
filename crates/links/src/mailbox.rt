//! The place where a session finds the reply to its call.
use crate::look::{FOR_REPLY, Patience};
use crate::stops::Stops;
use std::sync::atomic::{AtomicBool, Ordering};
use std::sync::{Condvar, Mutex, Wait};

/// A place for one reply to one session that waits: a channel of one place whose senders never wait
/// for it to be empty. It takes no memory. A reply that nobody took gives way to the next: a
/// session tells by what a reply carries whether it is to its call. Who waits looks some times
/// before it sleeps. What comes no contract says.
#[derive(Drop)]
pub struct Mailbox<T: Drop> {
    reply: Mutex<Option<T>>,
    ready: AtomicBool,
    patience: Patience,
    moved: Condvar,
}

impl<T: Drop> Mailbox<T> {
    /// An empty place.
    pub fn new() -> Mailbox<T> {
        Mailbox {
            reply: Mutex::new(None),
            ready: AtomicBool::new(false),
            patience: Patience::new(),
            moved: Condvar::new(),
        }
    }

    /// Puts the reply in the place, and wakes who waits. It takes no memory, and cannot be refused.
    /// Cost: one lock.
    pub fn send<R: Wait>(&self, rt: &R, reply: T) {
        let before = self.reply.lock(rt).replace(reply);
        self.ready.store(true, Ordering::SeqCst);
        self.moved.notify_one();
        drop(before);
    }

    /// Wakes who waits, to look which domains have stopped. Who stops is marked first.
    pub fn alarm<R: Wait>(&self, rt: &R) {
        drop(self.reply.lock(rt));
        self.ready.store(true, Ordering::SeqCst);
        self.moved.notify_one();
    }

    /// Waits for a reply and takes it. `None` where there is none and the domain that is to send it
    /// has stopped: what it sent before is taken first. Cost: one lock, beside the wait.
    pub fn wait<R: Wait>(&self, rt: &R, stops: &Stops, sender: usize) -> Option<T> {
        self.patience.look(&self.ready, FOR_REPLY);
        let mut reply = self.moved.wait_while(rt, self.reply.lock(rt), |reply| {
            reply.is_none() && !stops.has(sender)
        });
        self.ready.store(false, Ordering::SeqCst);
        reply.take()
    }

    /// Waits for a reply and takes it, whatever has stopped. Cost: one lock, beside the wait.
    pub fn receive<R: Wait>(&self, rt: &R) -> Option<T> {
        self.patience.look(&self.ready, FOR_REPLY);
        let mut reply = self
            .moved
            .wait_while(rt, self.reply.lock(rt), |reply| reply.is_none());
        self.ready.store(false, Ordering::SeqCst);
        reply.take()
    }
}
