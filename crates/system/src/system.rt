//! A running store, and the sessions that it gives.
ghost use Rattle.std.specs.Prelude.{◌≡◌, ◌⊎◌, ◌+◌, ◌<◌, ◌≤◌, ℕ, false, IfErr, IfOk, None, OnErr, OnOk, map, replicate, []};
ghost use Rattle.model.specs.{Histories.floor_at, Legal.most_sessions, Places.base_count};
ghost use Rattle.packet.specs.Readers.{readers as readers_of};
ghost use Rattle.sessions.specs.Callers.{reader_of};

use crate::domains::Domains;
use crate::starter::Starter;
use book::book::{Opened, Rights};
use book::law::Naming;
use book::session::SessionWord;
use plan::plan::Plan;
use routes::routes::Routes;
use row::refused::Refused;
use sessions::session::Session;
use shown::reader::ShownReader;
use std::alloc::{AllocError, Global};
use std::marker::Model;
use std::sync::{Arc, Wait};
use std::thread::Threads;
use workers::gate::Gate;

/// A running store. Its threads end with `stop`.
pub struct System<J: Naming> {
    domains: Domains<J>,
    words: Vec<SessionWord<J>>,
    readers: Vec<ShownReader<J>>,
    sessions: usize,
    given: usize,
}

// What holds one drops it by this call, and need not know its parts.
impl<J: Naming> Drop for System<J> {
    fn drop(self) {
        let System {
            domains: _,
            words: _,
            readers: _,
            sessions: _,
            given: _,
        } = self;
    }
}

impl<J: Naming> Model for System<J> {
    ghost use Rattle.std.specs.Prelude.{◌≡◌, ◌+◌, ℕ, length, map};
    ghost use Rattle.book.specs.Rights.{AreFresh};
    ghost use Rattle.packet.specs.Readers.{readers as readers_of};
    ghost use Rattle.sessions.specs.Callers.{reader_of};

    ghost Value = { ℕ };

    // How many sessions it has given.
    ghost view = { λ s. s.given };

    ghost invariant = { λ s. AreFresh s.given s.words.items
        × (s.given + length s.words.items ≡ J.sessions) × (s.sessions ≡ J.sessions)
        × (map reader_of s.readers.items ≡ readers_of J.plan) };
}

impl<J: Naming + Send + Sync + 'static> System<J> {
    /// Starts the domains of the plan that the book was opened on: each shard of each view, each
    /// stage shard and each base shard. This many threads serve them, as `Crews` shares them out:
    /// at least one for each view shard, and at most one for each domain. The gate is called around each turn of each
    /// domain; one that waits there holds all domains of its thread. Refused with `NoMemory`, also
    /// where a thread is refused; the threads started by then have ended. Cost: that of an empty
    /// state of each domain.
    pub fn start<
        R: Threads + Wait + Copy + Drop + Send + 'static,
        G: Gate + Send + Sync + Drop + 'static,
    >(
        rt: R,
        alloc: Global,
        opened: Opened,
        plan: Plan,
        sessions: usize,
        threads: usize,
        gate: G,
    ) -> Result<System<J>, Refused>
        requires book { opened.book ≡ J.book }
        requires plan { (opened.plan ≡ J.plan) × (plan ≡ J.plan) }
        requires sessions { (opened.sessions ≡ J.sessions) × (sessions ≡ J.sessions) }
        requires few { sessions ≤ most_sessions }
        ensures only { IfErr result (λ e. e ≡ Refused.NoMemory) }
        ensures none { IfOk result (λ s. s ≡ 0) }
    {
        let Rights {
            book,
            start,
            logs,
            words,
            copies,
        } = opened.named::<J>(alloc, &plan)?;
        let routes = Arc::new(alloc, Routes::new(alloc, plan, book, sessions, threads)?)?;
        let mut starter = Starter::new(rt, alloc, gate, routes)?;
        let started = starter.start(&start, sessions, copies, logs);
        let domains = starter.into_domains();
        match started {
            Ok(readers) => Ok(System {
                domains,
                words,
                readers,
                sessions,
                given: 0,
            }),
            Err(refused) => {
                domains.stop(&rt);
                Err(refused)
            }
        }
    }

    /// The next session, which has made no call. Refused with `NoSessionLeft` where all are
    /// given, or `NoMemory`. Cost: one more reader of each shard of each view.
    pub fn session(&mut self, alloc: Global) -> Result<Session<J>, Refused>
        ensures only { IfErr result (λ e. (e ≡ Refused.NoSessionLeft) ⊎ (e ≡ Refused.NoMemory)) }
        ensures spent { IfErr result (λ e. e ≡ Refused.NoSessionLeft → J.sessions ≤ self.old) }
        ensures kept { OnErr result (self.new ≡ self.old) }
        ensures next { OnOk result (self.new ≡ self.old + 1) }
        ensures left { OnOk result (self.old < J.sessions) }
        ensures session { IfOk result (λ s. s.session ≡ self.old) }
        ensures number { IfOk result (λ s. s.number ≡ 0) }
        ensures answered { IfOk result (λ s. s.answered ≡ 0) }
        ensures unspent { IfOk result (λ s. s.stolen ≡ false) }
        ensures seen { IfOk result (λ s. s.seen ≡ []) }
        ensures floors { IfOk result (λ s. (v j : ℕ) → floor_at s.floors v j ≡ []) }
    {
        if self.given >= self.sessions {
            return Err(Refused::NoSessionLeft);
        }
        let Parts {
            accepted,
            readers,
            routes,
        } = self.parts(alloc)?;
        let word = self.words.remove(0);
        self.given += 1;
        Ok(Session::new(word, accepted, readers, routes))
    }

    // What the next session holds beside its word. Errors: memory only.
    fn parts(&self, alloc: Global) -> Result<Parts<J>, AllocError>
        ensures accepted { IfOk result (λ p. p.accepted.items
            ≡ replicate (base_count J.plan) None) }
        ensures readers { IfOk result (λ p. map reader_of p.readers.items ≡ readers_of J.plan) }
    {
        let routes = Arc::try_clone(self.domains.routes())?;
        Ok(Parts {
            accepted: vec![in alloc; None; routes.book().bases()]?,
            readers: others(alloc, self.readers.as_slice())?,
            routes,
        })
    }

    /// Takes no more messages, lets the threads answer what was sent, and joins them. Later calls
    /// of sessions that need a thread are refused with `Stopped`; what is shown is still read. The
    /// shown copies are never freed.
    pub fn stop<R: Threads + Wait>(self, rt: &R) {
        let System {
            domains,
            words: _,
            readers: _,
            sessions: _,
            given: _,
        } = self;
        domains.stop(rt);
    }
}

/// What a session holds beside its word: that no base shard has accepted a write of it, a reader of
/// each copy, and the ways to the threads.
#[derive(Drop)]
struct Parts<J: Naming> {
    accepted: Vec<Option<u64>>,
    readers: Vec<ShownReader<J>>,
    routes: Arc<Routes<J>>,
}

// One more reader of each of the same copies.
fn others<J: Naming>(
    alloc: Global,
    readers: &[ShownReader<J>],
) -> Result<Vec<ShownReader<J>>, AllocError>
    ensures { IfOk result (λ v. map reader_of v.items ≡ map reader_of readers.now) }
{
    let mut all = Vec::with_capacity(alloc, readers.len())?;
    for reader in readers {
        all.push(reader.another()?)?;
    }
    Ok(all)
}
