//! The threads of a store, which serve each shard of each view, each stage shard and each base shard.
ghost use Rattle.std.specs.Prelude.{◌≡◌, IfErr};

use book::law::Naming;
use routes::routes::Routes;
use row::refused::Refused;
use schedule::wire::Spot;
use std::alloc::Global;
use std::sync::{Arc, Wait};
use std::thread::{self, JoinHandle, Threads};

/// The domains that run: the ways between them, and the threads that serve them.
#[derive(Drop)]
pub struct Domains<J: Naming> {
    routes: Arc<Routes<J>>,
    threads: Vec<JoinHandle<()>>,
}

impl<J: Naming + Send + Sync + 'static> Domains<J> {
    /// None yet.
    pub fn new(alloc: Global, routes: Arc<Routes<J>>) -> Domains<J> {
        Domains {
            routes,
            threads: Vec::new(alloc),
        }
    }

    /// The ways between them.
    pub fn routes(&self) -> &Arc<Routes<J>> {
        &self.routes
    }

    /// Starts a thread that serves these domains, and waits until each has begun or has stopped.
    /// Refused with `NoMemory`, also where a thread is refused or a domain stopped before its first
    /// turn.
    pub fn run<R: Threads + Wait, F: FnOnce() + Send + Drop + 'static>(
        &mut self,
        rt: &R,
        domains: &[Spot],
        work: F,
    ) -> Result<(), Refused>
        requires { F.pre work }
        ensures only { IfErr result (λ e. e ≡ Refused.NoMemory) }
    {
        self.threads.reserve(1)?;
        let Ok(thread) = thread::spawn(rt, work) else {
            return Err(Refused::NoMemory);
        };
        self.threads.push_reserved(thread);
        if domains
            .iter()
            .all(|domain| self.routes.has_begun(rt, *domain))
        {
            Ok(())
        } else {
            Err(Refused::NoMemory)
        }
    }

    /// Closes the ways between them, lets them answer what was sent, and joins their threads.
    pub fn stop<R: Threads + Wait>(self, rt: &R) {
        let Domains { routes, threads } = self;
        routes.close(rt);
        for thread in threads {
            thread.join(rt);
        }
    }
}
