//! Sessions that wait for keys of a view shard.
ghost use Rattle.std.specs.Prelude.{◌≡◌, ◌<◌, length, map, replicate, slice_index_or, slice_set, IfNone, IfOk, IfSome};
ghost use Rattle.domain_turns.specs.Waits.{waiting_on};

use book::front::Front;
use book::law::Naming;
use routes::routes::Routes;
use row::value::Value;
use std::alloc::{AllocError, Global};
use std::marker::Model;
use std::sync::Wait;
use view_domain::view_domain::ViewDomain;

/// What a session waits for, and the number of its wait.
#[derive(Drop)]
pub struct Waiting {
    key: Value,
    number: u64,
}

/// For each session the key that it waits for, if it does. All places are made at the start, so
/// that a wait takes no memory.
#[derive(Drop)]
pub struct Waits {
    places: Vec<Option<Waiting>>,
}

impl Model for Waits {
    ghost use Rattle.std.specs.Prelude.{List, Option};
    ghost use Rattle.domain_turns.specs.declared.waits.Waiting.{Waiting};

    ghost Value = { List (Option Waiting) };

    ghost view = { λ w. w.places.items };
}

impl Waits {
    /// Places of this many sessions, none of which waits. Errors: memory only.
    pub fn new(alloc: Global, sessions: usize) -> Result<Waits, AllocError>
        ensures { IfOk result (λ w. w ≡ replicate sessions None) }
    {
        let mut places = Vec::with_capacity(alloc, sessions)?;
        for _ in 0..sessions {
            places.push(None)?;
        }
        Ok(Waits { places })
    }

    /// A session waits for a key under a number, and no longer for what it waited for. It takes no
    /// memory. A session that has no place does not wait.
    pub fn put(&mut self, session: usize, number: u64, key: Value)
        ensures { self.new ≡ slice_set self.old session (Some (record {
          key = key;
          number = number;
        })) }
    {
        if session < self.places.len() {
            self.places[session] = Some(Waiting { key, number });
        }
    }

    /// Rings the bell of each session whose key is filled, with the number of its wait, and it
    /// waits no longer; every other session waits on. It takes no memory. Cost: a look-up for each
    /// session that waits.
    pub fn ring<J: Naming, R: Wait>(
        &mut self,
        rt: &R,
        routes: &Routes<J>,
        domain: &ViewDomain<Front<J>>,
    )
        ensures { self.new ≡ map (waiting_on domain.now.kept) self.old }
    {
        for session in 0..self.sessions() {
            if let Some(number) = self.filled(session, domain) {
                self.clear(session);
                routes.ring(rt, session, number);
            }
        }
    }

    // How many sessions have a place.
    fn sessions(&self) -> usize
        ensures { result ≡ length self.now }
    {
        self.places.len()
    }

    // A session waits no longer.
    fn clear(&mut self, session: usize)
        requires { session < length self.old }
        ensures gone { self.new ≡ slice_set self.old session None }
        ensures count { length self.new ≡ length self.old }
    {
        self.places[session] = None;
    }

    // The number of a session's wait, where its key is filled.
    fn filled<J: Naming>(&self, session: usize, domain: &ViewDomain<Front<J>>) -> Option<u64>
        requires place { session < length self.now }
        ensures filled { IfSome result (λ _. waiting_on domain.now.kept
            (slice_index_or self.now session None) ≡ None) }
        ensures not { IfNone result (waiting_on domain.now.kept
            (slice_index_or self.now session None) ≡ slice_index_or self.now session None) }
    {
        match &self.places[session] {
            Some(waiting) if domain.get(&waiting.key).is_some() => Some(waiting.number),
            _ => None,
        }
    }
}
