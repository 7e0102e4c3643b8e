//! The loop of a thread that serves domains.
ghost use Rattle.std.specs.Prelude.{◌≡◌, [], slice_get, IfSome};
ghost use Rattle.packet.specs.{Readers.readers, declared.mode.Mode.TheVariants.Running};
ghost use Rattle.domain_turns.specs.ViewTurns.{Shows};
ghost use Rattle.shown.specs.{Boards.pending, Boards.shown, Snapshots.first_of};

use crate::base_seat::BaseSeat;
use crate::duty::Duty;
use crate::gate::Gate;
use crate::stage_seat::StageSeat;
use crate::view_seat::ViewSeat;
use book::law::Naming;
use book::part::Part;
use crossbeam_utils::sync::EventCount;
use links::inbox::Taking;
use links::look::Patience;
use routes::routes::Routes;
use row::refused::Refused;
use schedule::wire::Spot;
use shown::writer::ShownWriter;
use std::alloc::Global;
use std::mem;
use std::sync::Wait;

/// A domain that a thread serves, but for a view shard: the writer of a shown copy can stand in no
/// type that has a name of a book.
#[derive(Drop)]
enum Seat<'r, J: Naming, R> {
    Base(BaseSeat<'r, J, R>),
    Stage(StageSeat<'r, J, R>),
}

impl<'r, J: Naming, R: Wait> Seat<'r, J, R> {
    // Makes the domain. Errors: `UnknownPlace` where there is none of its place, else `NoMemory`.
    fn new(
        rt: &'r R,
        alloc: Global,
        routes: &'r Routes<J>,
        part: &Part<J>,
        duty: Duty<J>,
    ) -> Result<Seat<'r, J, R>, Refused> {
        match duty {
            Duty::Base(duty) => Ok(Seat::Base(BaseSeat::new(rt, alloc, routes, duty)?)),
            Duty::Stage(duty) => Ok(Seat::Stage(StageSeat::new(rt, alloc, routes, part, duty)?)),
        }
    }

    // Takes what waits in its inbox, and then one message after the other. It waits for none.
    fn serve<G: Gate>(&mut self, gate: &G) -> Taking {
        match self {
            Seat::Base(seat) => seat.serve(gate),
            Seat::Stage(seat) => seat.serve(gate),
        }
    }

    // Whether a message waits in its inbox, or that is closed.
    fn is_ready(&self) -> bool {
        match self {
            Seat::Base(seat) => seat.is_ready(),
            Seat::Stage(seat) => seat.is_ready(),
        }
    }
}

/// Makes domains, and serves each in turn with what has come to it, until all their inboxes are
/// closed and empty; where no message waits it sleeps. A base shard that has stopped goes on
/// refusing writes with `Stopped`; what comes to a stage shard that has stopped is lost. Where
/// memory is refused for a domain, that stops before its first turn.
pub fn work<J: Naming, R: Wait, G: Gate>(
    rt: &R,
    alloc: Global,
    routes: &Routes<J>,
    part: &Part<J>,
    thread: usize,
    duties: Vec<Duty<J>>,
    gate: &G,
) {
    let mut seats = seated(rt, alloc, routes, part, duties);
    serve(rt, routes.watch(thread), &mut seats, gate);
}

/// Serves a view shard beside other domains, as `work` does: it shows what it makes of each
/// message. What comes to a view shard that has stopped is lost. Where memory is refused for it, it
/// stops before its first turn. What was shown stays shown.
pub fn work_with_view<J: Naming, R: Wait + Drop, G: Gate>(
    rt: &R,
    alloc: Global,
    routes: &Routes<J>,
    part: &Part<J>,
    reader: usize,
    mut writer: ShownWriter<J, R>,
    duties: Vec<Duty<J>>,
    gate: &G,
)
    requires first { IfSome (slice_get (readers J.plan) reader) (λ r. shown writer
        ≡ first_of J.plan r.view r.shard) }
    requires idle { pending writer ≡ [] }
{
    let domain = Spot::View(reader);
    let watch = routes.watch(routes.crews().thread_of(domain));
    let mut seats = seated(rt, alloc, routes, part, duties);
    match ViewSeat::new(rt, alloc, routes, part, reader) {
        Ok(mut seat) => {
            routes.begin(rt, domain);
            serve_with_view(rt, watch, &mut seat, &mut writer, &mut seats, gate);
        }
        Err(_) => {
            routes.stop(rt, domain);
            serve(rt, watch, &mut seats, gate);
        }
    }
    mem::forget(writer);
}

// Serves each in turn, until all inboxes are closed and empty.
fn serve<'r, J: Naming, R: Wait, G: Gate>(
    rt: &R,
    watch: &EventCount,
    seats: &mut Vec<Seat<'r, J, R>>,
    gate: &G,
) {
    let patience = Patience::new();
    for _ in rt.forever() {
        match serve_each(seats, gate) {
            Taking::Taken => (),
            Taking::Empty => patience.wait_until(rt, watch, || is_any_ready(seats)),
            Taking::Closed => break,
        }
    }
}

// Serves the view shard and the others in turn, as `serve` does.
fn serve_with_view<'r, J: Naming, R: Wait + Drop, G: Gate>(
    rt: &R,
    watch: &EventCount,
    seat: &mut ViewSeat<'r, J, R>,
    writer: &mut ShownWriter<J, R>,
    seats: &mut Vec<Seat<'r, J, R>>,
    gate: &G,
)
    requires shows { seat.old.mode ≡ Running → Shows seat.old (shown writer.old) }
    requires idle { seat.old.mode ≡ Running → pending writer.old ≡ [] }
{
    let patience = Patience::new();
    for _ in rt.forever() {
        let others = serve_each(seats, gate);
        match of_both(others, seat.serve(writer, gate)) {
            Taking::Taken => (),
            Taking::Empty => {
                patience.wait_until(rt, watch, || seat.is_ready() || is_any_ready(seats));
            }
            Taking::Closed => break,
        }
    }
}

// Makes the domains; one for which memory is refused stops.
fn seated<'r, J: Naming, R: Wait>(
    rt: &'r R,
    alloc: Global,
    routes: &'r Routes<J>,
    part: &Part<J>,
    duties: Vec<Duty<J>>,
) -> Vec<Seat<'r, J, R>> {
    let mut seats = Vec::new(alloc);
    for duty in duties {
        let domain = duty.domain();
        match take_seat(rt, alloc, routes, part, duty, &mut seats) {
            Ok(()) => routes.begin(rt, domain),
            Err(_) => routes.stop(rt, domain),
        }
    }
    seats
}

// Makes a domain, and puts it behind the others.
fn take_seat<'r, J: Naming, R: Wait>(
    rt: &'r R,
    alloc: Global,
    routes: &'r Routes<J>,
    part: &Part<J>,
    duty: Duty<J>,
    seats: &mut Vec<Seat<'r, J, R>>,
) -> Result<(), Refused> {
    seats.reserve(1)?;
    seats.push_reserved(Seat::new(rt, alloc, routes, part, duty)?);
    Ok(())
}

// Serves each: `Taken` where any had a message, `Closed` where none will have one.
fn serve_each<'r, J: Naming, R: Wait, G: Gate>(
    seats: &mut Vec<Seat<'r, J, R>>,
    gate: &G,
) -> Taking {
    let mut all = Taking::Closed;
    for at in 0..seats.len() {
        all = of_both(all, seats[at].serve(gate));
    }
    all
}

// What two takes come to.
fn of_both(first: Taking, second: Taking) -> Taking {
    match (first, second) {
        (Taking::Taken, _) | (_, Taking::Taken) => Taking::Taken,
        (Taking::Closed, Taking::Closed) => Taking::Closed,
        (Taking::Empty, _) | (_, Taking::Empty) => Taking::Empty,
    }
}

fn is_any_ready<'r, J: Naming, R: Wait>(seats: &[Seat<'r, J, R>]) -> bool {
    seats.iter().any(|seat| seat.is_ready())
}
