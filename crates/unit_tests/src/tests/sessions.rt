//! Mailboxes and bells of sessions, and the flags of stopped domains.
use links::bell::{Bell, Woken};
use links::mailbox::Mailbox;
use links::stops::Stops;
use std::sync::Wait;
use std::sync::atomic::{AtomicBool, Ordering};
use std::test::Fail;
use std::thread::{self, Threads};

// A reply is taken once; a later one takes its place; one that came before a stop is taken.
fn gives_replies<R: Wait>(rt: &R, stops: &Stops) -> bool {
    let mailbox = Mailbox::new();
    mailbox.send(rt, 0u64);
    let received = mailbox.receive(rt) == Some(0);
    mailbox.send(rt, 1);
    let first = mailbox.wait(rt, stops, 1) == Some(1);
    mailbox.send(rt, 2);
    mailbox.send(rt, 3);
    stops.mark(1);
    let last = mailbox.wait(rt, stops, 1) == Some(3);
    received && first && last && mailbox.wait(rt, stops, 1).is_none()
}

#[test]
fn a_mailbox_gives_replies(rt: HostRuntime) -> Result<(), Fail> {
    let stops = Stops::new(rt.alloc(), 2)?;
    assert!(rt; gives_replies(&rt, &stops));
    Ok(())
}

/// How often a thread lets others go on, so that they come to their waits. Who waits is the first
/// of two that are joined: where no thread can be made, the second runs before it.
pub const YIELDS: u32 = 2_000;

pub fn lets_others_go_on() {
    for _ in 0..YIELDS {
        thread::yield_now();
    }
}

// The reply comes from another thread while this one waits.
fn waits_for_a_reply<R: Threads + Wait + Sync>(rt: &R, stops: &Stops) -> bool {
    let mailbox = Mailbox::new();
    let sends = || {
        lets_others_go_on();
        mailbox.alarm(rt);
        mailbox.send(rt, 7u64);
    };
    thread::join(rt, || mailbox.wait(rt, stops, 0), sends).0 == Some(7)
}

// The sender stops while this thread waits; the stop of another domain does not end the wait.
fn waits_for_a_stop<R: Threads + Wait + Sync>(rt: &R, stops: &Stops) -> bool {
    let mailbox: Mailbox<u64> = Mailbox::new();
    let stop = || {
        stops.mark(0);
        mailbox.alarm(rt);
        lets_others_go_on();
        stops.mark(1);
        mailbox.alarm(rt);
    };
    let wait = || mailbox.wait(rt, stops, 1).is_none() && stops.has(1);
    thread::join(rt, wait, stop).0
}

#[test]
fn a_wait_for_a_reply_ends(rt: HostRuntime) -> Result<(), Fail> {
    let stops = Stops::new(rt.alloc(), 2)?;
    assert!(rt; waits_for_a_reply(&rt, &stops));
    assert!(rt; waits_for_a_stop(&rt, &stops));
    Ok(())
}

#[test]
fn a_stop_stays(rt: HostRuntime) -> Result<(), Fail> {
    let stops = Stops::new(rt.alloc(), 3)?;
    assert!(rt; !stops.has(1) && stops.domains() == 3);
    stops.mark(1);
    stops.mark(3);
    assert!(rt; stops.has(1) && stops.has(1) && !stops.has(0) && !stops.has(3));
    Ok(())
}

// A ring is heard by its call and by earlier ones; an alarm is told once, behind a ring.
fn tells_in_turn<R: Wait>(rt: &R, bell: &Bell) -> bool {
    bell.ring(rt, 4);
    bell.ring(rt, 3);
    bell.alarm(rt);
    let rung = bell.wait(rt, 3) == Woken::Rung && bell.wait(rt, 4) == Woken::Rung;
    let alarmed = bell.wait(rt, 5) == Woken::Alarmed;
    bell.ring(rt, 5);
    rung && alarmed && bell.wait(rt, 5) == Woken::Rung
}

#[test]
fn a_bell_tells_in_turn(rt: HostRuntime) {
    assert!(rt; tells_in_turn(&rt, &Bell::new()));
}

// A ring of an earlier call does not wake, and its own does.
fn sleeps_on<R: Threads + Wait + Sync>(rt: &R, bell: &Bell, woke: &AtomicBool) -> bool {
    let rings = || {
        bell.ring(rt, 1);
        lets_others_go_on();
        let early = woke.load(Ordering::SeqCst);
        bell.ring(rt, 2);
        !early
    };
    let waits = || {
        let woken = bell.wait(rt, 2);
        woke.store(true, Ordering::SeqCst);
        woken == Woken::Rung
    };
    let (rung, late) = thread::join(rt, waits, rings);
    late && rung
}

#[test]
fn a_ring_of_an_earlier_call_wakes_nobody(rt: HostRuntime) {
    assert!(rt; sleeps_on(&rt, &Bell::new(), &AtomicBool::new(false)));
}

// An alarm wakes who waits.
fn is_alarmed<R: Threads + Wait + Sync>(rt: &R, bell: &Bell) -> bool {
    let alarm = || {
        lets_others_go_on();
        bell.alarm(rt);
    };
    thread::join(rt, || bell.wait(rt, 1) == Woken::Alarmed, alarm).0
}

#[test]
fn an_alarm_wakes(rt: HostRuntime) {
    assert!(rt; is_alarmed(&rt, &Bell::new()));
}
