//! How a thread waits and gives way to others: some looks before a sleep, and some turns behind a
//! crowd.
use crossbeam_utils::sync::EventCount;
use std::sync::Wait;
use std::sync::atomic::{AtomicBool, AtomicU32, Ordering};
use std::{hint, thread};

/// How long a session looks for a reply, an acknowledgement or a start before it sleeps, in looks with a
/// pause behind each, of which some 80 take a microsecond. A sleep and its wake take several.
pub(crate) const FOR_REPLY: u32 = 3200;

/// The same for a key that is to be filled: up to five turns of domains, one after the other, stand
/// behind it.
pub(crate) const FOR_KEY: u32 = 12800;

/// The same for a thread and the messages to its domains: twice as long as a session for a key, so that it
/// seldom sleeps meanwhile.
const FOR_MESSAGES: u32 = 25600;

/// How many looks who is patient makes before it gives way to others: some four microseconds, within which
/// most messages come where each thread has a processor.
const LOOKS: u32 = 320;

/// As how many looks it counts to give way once, which takes up to a microsecond where no other thread
/// waits for the processor.
const GIVEN: u32 = 80;

/// After how many waits more that ended as it gave way than as it looked a thread is patient no more.
const TRIES: u32 = 4;

/// How many waits later it tries again.
const LATER: u32 = 16;

/// How often who has put a message gives way to a taker that is behind.
const TURNS: u32 = 64;

/// How one thread waits. It looks for some microseconds before it gives way to others; but a store may
/// have more threads than a machine has processors, and whoever has work needs one. So where what it
/// waits for has come mostly as it gave way, it gives way after each look, and tries again some waits
/// later.
#[derive(Drop)]
pub struct Patience {
    // How many waits more ended as it gave way than as it looked, and how many there were since it gives
    // way after each look.
    given: AtomicU32,
}

impl Patience {
    /// The patience of a thread that has not waited.
    pub fn new() -> Patience {
        Patience {
            given: AtomicU32::new(0),
        }
    }

    /// Looks until the flag is up, but no longer than so many looks take. It takes no lock.
    pub(crate) fn look(&self, ready: &AtomicBool, time: u32) {
        self.comes(time, &|| ready.load(Ordering::SeqCst));
    }

    /// Waits until there is work, as `is_ready` says: it looks for some time, giving way now and then, and
    /// then sleeps until the event count tells of a change. Who makes it ready does so first, and then
    /// notifies. It may return with nothing to do.
    pub fn wait_until<R: Wait, F: Fn() -> bool>(&self, rt: &R, moved: &EventCount, is_ready: F)
        requires { F.IsAlwaysCallable is_ready }
    {
        if self.comes(FOR_MESSAGES, &is_ready) {
            return;
        }
        let key = moved.prepare_wait();
        if !is_ready() {
            key.wait(rt);
        }
    }

    // Whether it is ready before so many looks are over.
    fn comes<F: Fn() -> bool>(&self, time: u32, is_ready: &F) -> bool
        requires { F.IsAlwaysCallable is_ready.now }
    {
        if is_ready() {
            return true;
        }
        let given = self.given.load(Ordering::SeqCst);
        if given >= TRIES {
            self.note(if given < TRIES + LATER {
                given + 1
            } else {
                TRIES - 1
            });
            return comes_late(time / GIVEN, is_ready);
        }
        for _ in 0..time / (LOOKS + GIVEN) {
            if comes_soon(is_ready) {
                self.note(given.saturating_sub(1));
                return true;
            }
            thread::yield_now();
            if is_ready() {
                self.note(given + 1);
                return true;
            }
        }
        false
    }

    fn note(&self, given: u32) {
        self.given.store(given, Ordering::SeqCst);
    }
}

// Whether it is ready at one of some looks.
fn comes_soon<F: Fn() -> bool>(is_ready: &F) -> bool
    requires { F.IsAlwaysCallable is_ready.now }
{
    for _ in 0..LOOKS {
        hint::spin_loop();
        if is_ready() {
            return true;
        }
    }
    false
}

// Whether it is ready before it has given way so many times.
fn comes_late<F: Fn() -> bool>(times: u32, is_ready: &F) -> bool
    requires { F.IsAlwaysCallable is_ready.now }
{
    for _ in 0..times {
        thread::yield_now();
        if is_ready() {
            return true;
        }
    }
    false
}

/// Gives way to other threads until the flag is down, but no more than a few times: whoever is to
/// take it down may itself be giving way to this thread. It takes no lock.
pub(crate) fn give_way(crowded: &AtomicBool) {
    for _ in 0..TURNS {
        if !crowded.load(Ordering::SeqCst) {
            return;
        }
        thread::yield_now();
    }
}
