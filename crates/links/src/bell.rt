//! What wakes a session that waits.
ghost use Rattle.std.specs.Prelude.{◌≡◌, not, ◌&&◌, true, false};
ghost use Rattle.links.specs.Rings.{BellView, later, rang_for};

use crate::look::{FOR_KEY, Patience};
use std::marker::Model;
use std::sync::atomic::{AtomicBool, Ordering};
use std::sync::{Condvar, Mutex, Wait};

/// Why a session woke.
#[derive(Clone, Copy, PartialEq, Eq, Debug)]
pub enum Woken {
    /// What it waits for has come.
    Rung,
    /// Something stopped, since it was last told so.
    Alarmed,
}

#[derive(Drop)]
struct Heard {
    latest: Option<u64>,
    alarmed: bool,
}

impl Model for Heard {
    ghost use Rattle.links.specs.Rings.{BellView};

    ghost Value = { BellView };

    ghost view = { λ h. record { latest = h.latest; alarmed = h.alarmed } };
}

impl Heard {
    fn ring(&mut self, call: u64)
        ensures { self.new ≡ record self.old { latest = later self.old.latest call } }
    {
        self.latest = match self.latest {
            Some(latest) => Some(latest.max(call)),
            None => Some(call),
        };
    }

    fn has(&self, call: u64) -> bool
        ensures { result ≡ rang_for self.now.latest call }
    {
        match self.latest {
            Some(latest) => call <= latest,
            None => false,
        }
    }

    fn is_quiet(&self, call: u64) -> bool
        ensures { result ≡ not (rang_for self.now.latest call) && not self.now.alarmed }
    {
        !self.has(call) && !self.alarmed
    }

    // Tells of a ring first; an alarm is told once.
    fn answer(&mut self, call: u64) -> Woken
        ensures rung { rang_for self.old.latest call ≡ true → (result ≡ Woken.Rung)
            × (self.new ≡ self.old) }
        ensures alarmed { rang_for self.old.latest call ≡ false → (result ≡ Woken.Alarmed)
            × (self.new ≡ record self.old { alarmed = false }) }
    {
        if self.has(call) {
            return Woken::Rung;
        }
        self.alarmed = false;
        Woken::Alarmed
    }
}

/// The bell of one session. Who has what the session waits for rings it with the number of the
/// session's call, so that a ring that comes late wakes no later call: an event count, whose counts
/// are the session's calls. Each call on it costs one lock, and takes no memory. That a ring comes
/// no contract says.
#[derive(Drop)]
pub struct Bell {
    heard: Mutex<Heard>,
    ready: AtomicBool,
    patience: Patience,
    moved: Condvar,
}

impl Bell {
    /// A bell that nobody has rung.
    pub fn new() -> Bell {
        Bell {
            heard: Mutex::new(Heard {
                latest: None,
                alarmed: false,
            }),
            ready: AtomicBool::new(false),
            patience: Patience::new(),
            moved: Condvar::new(),
        }
    }

    /// Wakes the session if it waits for this call or an earlier one; else its wait for it will end
    /// at once. It takes no memory, and waits for the lock alone.
    pub fn ring<R: Wait>(&self, rt: &R, call: u64) {
        self.heard.lock(rt).ring(call);
        self.ready.store(true, Ordering::SeqCst);
        self.moved.notify_one();
    }

    /// Wakes the session, since something stopped: it may be what the session waits for. Where the
    /// session waits for nothing, its next wait tells it, unless that has rung.
    pub fn alarm<R: Wait>(&self, rt: &R) {
        self.heard.lock(rt).alarmed = true;
        self.ready.store(true, Ordering::SeqCst);
        self.moved.notify_one();
    }

    /// Waits until the bell rings for this call, or there is an alarm that was not told. A ring of
    /// an earlier call counts for none. It looks some times before it sleeps. A session numbers
    /// its calls upwards.
    pub fn wait<R: Wait>(&self, rt: &R, call: u64) -> Woken {
        self.patience.look(&self.ready, FOR_KEY);
        let mut heard = self
            .moved
            .wait_while(rt, self.heard.lock(rt), |heard| heard.is_quiet(call));
        self.ready.store(false, Ordering::SeqCst);
        heard.answer(call)
    }
}
