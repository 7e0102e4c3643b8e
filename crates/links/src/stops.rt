//! Which domains have stopped.
ghost use Rattle.std.specs.Prelude.{◌≡◌, ◌≤◌, false, length, IfOk};

use std::alloc::{AllocError, Global};
use std::marker::Model;
use std::sync::atomic::{AtomicBool, Ordering};

/// A flag for each domain, which goes up as the domain stops, and never down: no call lowers it.
/// Anybody looks, with no lock. A contract sees how many domains there are, and not which have
/// stopped, since other threads mark them.
#[derive(Drop)]
pub struct Stops {
    flags: Vec<AtomicBool>,
}

impl Model for Stops {
    ghost use Rattle.std.specs.Prelude.{ℕ, length};

    ghost Value = { ℕ };

    ghost view = { λ s. length s.flags.items };
}

impl Stops {
    /// Flags of this many domains, none of which has stopped. Errors: memory only. Cost: linear in
    /// the domains.
    pub fn new(alloc: Global, domains: usize) -> Result<Stops, AllocError>
        ensures { IfOk result (λ s. s ≡ domains) }
    {
        let mut flags = Vec::with_capacity(alloc, domains)?;
        for _ in 0..domains {
            flags.push(AtomicBool::new(false))?;
        }
        Ok(Stops { flags })
    }

    /// How many domains there are.
    pub fn domains(&self) -> usize
        ensures { result ≡ self.now }
    {
        self.flags.len()
    }

    /// Says that a domain has stopped, if it is one. Constant time; it neither waits nor takes
    /// memory.
    pub fn mark(&self, domain: usize) {
        if let Some(flag) = self.flags.get(domain) {
            flag.store(true, Ordering::SeqCst);
        }
    }

    /// Whether a domain has been marked; what is no domain never is. Once it was, it is ever after.
    /// Constant time; it neither waits nor takes memory.
    pub fn has(&self, domain: usize) -> bool
        ensures unknown { self.now ≤ domain → result ≡ false }
    {
        match self.flags.get(domain) {
            Some(flag) => flag.load(Ordering::SeqCst),
            None => false,
        }
    }
}
