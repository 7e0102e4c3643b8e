//! What the functions of a domain's turns share.
ghost use Rattle.std.specs.Prelude.{◌≡◌};

use book::law::Naming;
use routes::routes::Routes;
use row::refused::Refused;
use std::alloc::Global;

/// What serves a domain: what it waits with, its allocator, the ways between the domains, and the
/// domain's place among those of its kind.
#[derive(Drop)]
pub(crate) struct Worker<'r, J: Naming, R> {
    pub(crate) rt: &'r R,
    pub(crate) alloc: Global,
    pub(crate) routes: &'r Routes<J>,
    pub(crate) place: usize,
}

impl<'r, J: Naming, R> Worker<'r, J, R> {
    /// What serves the domain at this place.
    pub(crate) fn new(rt: &'r R, alloc: Global, routes: &'r Routes<J>, place: usize) -> Self
        ensures { result.place ≡ place }
    {
        Worker {
            rt,
            alloc,
            routes,
            place,
        }
    }
}

/// Sends each of these in order, where all went well so far, and leaves the room that they had.
/// Errors: that of before, or one was refused; none is sent after it, and what is left the caller
/// drops.
pub(crate) fn send_each<P: Drop, F: Fn(P) -> Result<(), Refused>>(
    sent: Result<(), Refused>,
    all: &mut Vec<P>,
    send: F,
) -> Result<(), Refused>
    requires { F.IsAlwaysCallable send }
{
    sent?;
    for one in all.drain(..) {
        send(one)?;
    }
    Ok(())
}
