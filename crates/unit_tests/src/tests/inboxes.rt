//! An inbox in one thread, and what is done with one in other tests.
ghost use Rattle.std.specs.Prelude.{◌≡◌, ◌<◌, length, IfOk};

use crossbeam_utils::sync::EventCount;
use links::inbox::{Inbox, Taking};
use links::queues::Queues;
use links::turns::Turns;
use row::refused::Refused;
use std::alloc::{AllocError, Global};
use std::sync::{Arc, Wait};
use std::test::Fail;

/// An inbox of this many edges, and queues for its taker.
pub fn pair(alloc: Global, edges: usize) -> Result<(Inbox<u64>, Queues<u64>), AllocError>
    ensures edges { IfOk result (λ p. p.0 ≡ edges) }
    ensures count { IfOk result (λ p. length p.1 ≡ edges) }
{
    watched_pair(alloc, edges, Arc::new(alloc, EventCount::new())?)
}

/// The same, where the event count tells of what comes.
pub fn watched_pair(
    alloc: Global,
    edges: usize,
    watch: Arc<EventCount>,
) -> Result<(Inbox<u64>, Queues<u64>), AllocError>
    ensures edges { IfOk result (λ p. p.0 ≡ edges) }
    ensures count { IfOk result (λ p. length p.1 ≡ edges) }
{
    let inbox = Inbox::new(alloc, edges, watch)?;
    let queues = Queues::new(alloc, edges)?;
    Ok((inbox, queues))
}

// Puts a message, which is dropped where it is refused.
pub fn put<R: Wait>(rt: &R, inbox: &Inbox<u64>, edge: usize, message: u64) -> Result<(), Refused> {
    inbox.put(rt, edge, message)?;
    Ok(())
}

// Takes all messages of an edge, and writes them as the digits of a number.
pub fn digits(queues: &mut Queues<u64>, edge: usize) -> u64
    ensures { length queues.new ≡ length queues.old }
{
    let mut all = 0u64;
    for _ in 0..queues.len(edge) {
        if let Some(message) = queues.pop(edge) {
            all = all.wrapping_mul(10).wrapping_add(message);
        }
    }
    all
}

// A closed inbox gives what is in it, and then says so.
fn closes<R: Wait>(rt: &R, inbox: &Inbox<u64>, queues: &mut Queues<u64>) -> Result<bool, Refused>
    requires { length queues.old ≡ inbox.now }
{
    let empty = inbox.take_all(rt, queues) == Taking::Empty && !inbox.is_ready();
    put(rt, inbox, 0, 5)?;
    inbox.close(rt);
    let refused = is_refused(rt, inbox, 0, Refused::Stopped);
    let taken = inbox.take_all(rt, queues) == Taking::Taken && digits(queues, 0) == 5;
    let closed = inbox.take_all(rt, queues) == Taking::Closed && queues.is_empty();
    Ok(empty && refused && taken && closed && inbox.take_all(rt, queues) == Taking::Closed)
}

// Whether a put is refused so, and the message comes back.
fn is_refused<R: Wait>(rt: &R, inbox: &Inbox<u64>, edge: usize, wanted: Refused) -> bool {
    match inbox.put(rt, edge, 8) {
        Ok(()) => false,
        Err(unsent) => unsent.refused == wanted && unsent.message == 8,
    }
}

#[test]
fn a_closed_inbox_lets_nothing_in(rt: HostRuntime) -> Result<(), Fail> {
    let (inbox, mut queues) = pair(rt.alloc(), 1)?;
    assert!(rt; is_refused(&rt, &inbox, 1, Refused::UnknownPlace));
    assert!(rt; closes(&rt, &inbox, &mut queues)?);
    Ok(())
}

// Puts messages until one is refused, and says how many were put.
fn puts<R: Wait>(rt: &R, inbox: &Inbox<u64>) -> (usize, Result<(), Refused>) {
    for count in 0..20usize {
        if let Err(refused) = put(rt, inbox, 0, 1) {
            return (count, Err(refused));
        }
    }
    (20, Ok(()))
}

// What a refused put leaves is what was put before it.
#[test]
fn a_refused_put_leaves_the_inbox(rt: HostRuntime) -> Result<(), Fail> {
    let (inbox, mut queues) = pair(rt.alloc(), 1)?;
    let (count, put) = puts(&rt, &inbox);
    inbox.close(&rt);
    let taken = inbox.take_all(&rt, &mut queues) == Taking::Taken;
    assert!(rt; queues.len(0) == count && taken == (count > 0));
    put?;
    Ok(())
}

/// More messages than those from which on who puts one gives way.
const CROWD: u64 = 5000;

fn put_crowd<R: Wait>(rt: &R, inbox: &Inbox<u64>) -> Result<(), Refused> {
    for message in 0..CROWD {
        put(rt, inbox, 0, message)?;
        inbox.give_way();
    }
    Ok(())
}

// Where nobody takes, who puts gives way for a while and then goes on.
#[test]
fn a_crowd_is_let_in(rt: HostRuntime) -> Result<(), Fail> {
    let (inbox, mut queues) = pair(rt.alloc(), 1)?;
    put_crowd(&rt, &inbox)?;
    assert!(rt; inbox.is_crowded());
    let taken = inbox.take_all(&rt, &mut queues) == Taking::Taken;
    assert!(rt; taken && queues.len(0) == 5000 && !inbox.is_crowded());
    Ok(())
}

// An inbox of three edges with messages on the first, the last and the one between, put in that order.
fn three_edges<R: Wait>(rt: &R, alloc: Global) -> Result<Inbox<u64>, Refused>
    ensures { IfOk result (λ i. i ≡ 3) }
{
    let inbox = Inbox::new(alloc, 3, Arc::new(alloc, EventCount::new())?)?;
    for (edge, message) in [(0, 1), (0, 2), (2, 3), (1, 4), (1, 5)] {
        put(rt, &inbox, edge, message)?;
    }
    Ok(inbox)
}

// The messages that an inbox gives turn by turn, as the digits of a number.
fn turns_of<R: Wait>(rt: &R, alloc: Global, inbox: &Inbox<u64>) -> Result<u64, Refused> {
    let mut turns = Turns::new(alloc, inbox.edges())?;
    turns.take(rt, inbox);
    let mut all = 0u64;
    for _ in 0..9 {
        let Some(message) = turns.pop() else {
            return Ok(all);
        };
        all = all.wrapping_mul(10).wrapping_add(message);
    }
    Ok(all)
}

// The edge comes first that had a message last, and then the others from the first on.
#[test]
fn the_edge_of_the_last_message_comes_first(rt: HostRuntime) -> Result<(), Fail> {
    let inbox = three_edges(&rt, rt.alloc())?;
    assert!(rt; turns_of(&rt, rt.alloc(), &inbox)? == 45123);
    Ok(())
}

// What is behind the first message that comes, twice taken and before.
fn behind_the_first<R: Wait>(
    rt: &R,
    alloc: Global,
    inbox: &Inbox<u64>,
) -> Result<[Option<u64>; 3], Refused> {
    let mut turns = Turns::new(alloc, inbox.edges())?;
    turns.take(rt, inbox);
    let _first = turns.pop();
    let seen = turns.behind().copied();
    Ok([seen, turns.take_behind(), turns.take_behind()])
}

// What is behind a message is of its edge, and is taken once.
#[test]
fn a_message_is_taken_behind_another(rt: HostRuntime) -> Result<(), Fail> {
    let inbox = three_edges(&rt, rt.alloc())?;
    let [seen, first, second] = behind_the_first(&rt, rt.alloc(), &inbox)?;
    assert!(rt; seen == Some(5) && first == Some(5) && second.is_none());
    Ok(())
}
