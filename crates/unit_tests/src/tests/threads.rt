//! Inboxes between threads.
ghost use Rattle.std.specs.Prelude.{◌≡◌, length};

use super::inboxes::{put, watched_pair};
use super::sessions::lets_others_go_on;
use crossbeam_utils::sync::EventCount;
use links::inbox::{Inbox, Taking};
use links::look::Patience;
use links::queues::Queues;
use row::refused::Refused;
use std::alloc::{AllocError, Global};
use std::sync::{Arc, Wait};
use std::test::Fail;
use std::thread::{self, Threads};

/// How many messages each thread puts.
const MESSAGES: u64 = 500;

fn sends<R: Wait>(rt: &R, inbox: &Inbox<u64>, edge: usize) -> Result<(), Refused> {
    for message in 0..MESSAGES {
        put(rt, inbox, edge, message)?;
    }
    Ok(())
}

// Two threads put, each on its edge, and then the inbox is closed.
fn sends_all<R: Threads + Wait + Sync>(rt: &R, inbox: &Inbox<u64>) -> Result<(), Refused> {
    let (first, second) = thread::join(rt, || sends(rt, inbox, 0), || sends(rt, inbox, 1));
    inbox.close(rt);
    first?;
    second
}

// Takes what waits on an edge: the number of the next, if each came in its turn.
fn in_turn(queues: &mut Queues<u64>, edge: usize, next: u64) -> u64
    ensures { length queues.new ≡ length queues.old }
{
    let mut wanted = next;
    for _ in 0..queues.len(edge) {
        if queues.pop(edge) == Some(wanted) {
            wanted = wanted.wrapping_add(1);
        }
    }
    wanted
}

// Waits until a message waits or the inbox is closed, and takes what is in it.
fn waits_and_takes<R: Wait>(
    rt: &R,
    watch: &EventCount,
    inbox: &Inbox<u64>,
    queues: &mut Queues<u64>,
) -> Taking
    requires { length queues.old ≡ inbox.now }
    ensures { length queues.new ≡ length queues.old }
{
    Patience::new().wait_until(rt, watch, || inbox.is_ready());
    inbox.take_all(rt, queues)
}

// Takes until the inbox is closed, and says how many came in turn on each edge.
fn takes_all<R: Wait>(
    rt: &R,
    watch: &EventCount,
    inbox: &Inbox<u64>,
    queues: &mut Queues<u64>,
) -> (u64, u64)
    requires { length queues.old ≡ inbox.now }
{
    let (mut first, mut second) = (0, 0);
    for _ in rt.forever() {
        if waits_and_takes(rt, watch, inbox, queues) == Taking::Closed {
            break;
        }
        first = in_turn(queues, 0, first);
        second = in_turn(queues, 1, second);
    }
    (first, second)
}

fn moves_all<R: Threads + Wait + Sync>(
    rt: &R,
    watch: &EventCount,
    inbox: &Inbox<u64>,
    queues: &mut Queues<u64>,
) -> Result<(u64, u64), Refused>
    requires { length queues.old ≡ inbox.now }
{
    let take = || takes_all(rt, watch, inbox, queues);
    let (taken, sent) = thread::join(rt, take, || sends_all(rt, inbox));
    sent?;
    Ok(taken)
}

#[test]
fn messages_of_two_threads_come_in_turn(rt: HostRuntime) -> Result<(), Fail> {
    let watch = Arc::new(rt.alloc(), EventCount::new())?;
    let (inbox, mut queues) = watched_pair(rt.alloc(), 2, Arc::try_clone(&watch)?)?;
    assert!(rt; moves_all(&rt, &watch, &inbox, &mut queues)? == (MESSAGES, MESSAGES));
    Ok(())
}

// A close wakes a taker that waits for a message.
fn is_woken<R: Threads + Wait + Sync>(
    rt: &R,
    watch: &EventCount,
    inbox: &Inbox<u64>,
    queues: &mut Queues<u64>,
) -> bool
    requires { length queues.old ≡ inbox.now }
{
    let close = || {
        lets_others_go_on();
        inbox.close(rt);
    };
    let take = || waits_and_takes(rt, watch, inbox, queues) == Taking::Closed;
    thread::join(rt, take, close).0
}

#[test]
fn a_close_wakes_the_taker(rt: HostRuntime) -> Result<(), Fail> {
    let watch = Arc::new(rt.alloc(), EventCount::new())?;
    let (inbox, mut queues) = watched_pair(rt.alloc(), 1, Arc::try_clone(&watch)?)?;
    assert!(rt; is_woken(&rt, &watch, &inbox, &mut queues));
    Ok(())
}

// Takes what is in an inbox: the number of the next of its first edge, if each came in its turn, and
// whether it is closed.
fn takes_some<R: Wait>(
    rt: &R,
    alloc: Global,
    inbox: &Inbox<u64>,
    next: u64,
) -> Result<(u64, bool), AllocError> {
    let mut queues = Queues::new(alloc, inbox.edges())?;
    let is_closed = inbox.take_all(rt, &mut queues) == Taking::Closed;
    Ok((in_turn(&mut queues, 0, next), is_closed))
}

// Takes from two inboxes until both are closed, and says how many came in turn on the first edge of
// each. Once the first is closed, the second alone wakes it.
fn takes_both<R: Wait>(
    rt: &R,
    alloc: Global,
    watch: &EventCount,
    first: &Inbox<u64>,
    second: &Inbox<u64>,
) -> Result<(u64, u64), AllocError> {
    let (mut one, mut other) = (0, 0);
    let mut is_first_closed = false;
    let patience = Patience::new();
    for _ in rt.forever() {
        patience.wait_until(
            rt,
            watch,
            || second.is_ready() || !is_first_closed && first.is_ready(),
        );
        let (next_one, is_closed) = takes_some(rt, alloc, first, one)?;
        let (next_other, is_second_closed) = takes_some(rt, alloc, second, other)?;
        one = next_one;
        other = next_other;
        is_first_closed = is_closed;
        if is_first_closed && is_second_closed {
            break;
        }
    }
    Ok((one, other))
}

// Closes the first inbox while messages still come to the second. Both are closed in any case: their
// taker waits for it.
fn sends_to_both<R: Wait>(rt: &R, first: &Inbox<u64>, second: &Inbox<u64>) -> Result<(), Refused> {
    let to_first = sends(rt, first, 0);
    first.close(rt);
    lets_others_go_on();
    let to_second = sends(rt, second, 0);
    second.close(rt);
    to_first?;
    to_second
}

// One thread waits for what comes to two inboxes, of which one is closed first.
#[test]
fn two_inboxes_of_one_thread(rt: HostRuntime) -> Result<(), Fail> {
    let alloc = rt.alloc();
    let watch = Arc::new(alloc, EventCount::new())?;
    let first = Inbox::new(alloc, 1, Arc::try_clone(&watch)?)?;
    let second = Inbox::new(alloc, 1, Arc::try_clone(&watch)?)?;
    let take = || takes_both(&rt, alloc, &watch, &first, &second);
    let (taken, sent) = thread::join(&rt, take, || sends_to_both(&rt, &first, &second));
    sent?;
    assert!(rt; taken? == (MESSAGES, MESSAGES));
    Ok(())
}
