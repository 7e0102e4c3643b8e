//! Domains that are in their turns at once, each in a thread of its own.
use crate::asks::{Running, fail};
use crate::runs::{Scene, Setup, run};
use book::law::Naming;
use plan::domain::DomainId;
use recipe::recipe::from_toml;
use std::alloc::Global;
use std::sync::atomic::{AtomicBool, AtomicUsize, Ordering};
use std::sync::{Arc, Wait};
use std::test::Fail;
use std::thread::{self, Threads};
use workers::gate::{Gate, OpenGate};

/// Notes in two base shards and two stage shards.
const NOTES: &str = r#"
table = [
    { name = "notes", shards = 2, key = "id", columns = ["id int", "author int", "body text"] },
]
stage = { shards = 2, left = "notes", left_key = "author" }
view = [{ name = "by_author", key = "author", shards = 1, cap = 4 }]
"#;

/// Stories with the number of their votes, in two shards of everything.
const VOTES: &str = r#"
table = [
    { name = "stories", shards = 2, key = "id", columns = ["id int", "author int", "title text"] },
    { name = "votes", shards = 2, key = "vid", columns = ["vid int", "story int", "note text"] },
]
view = [{ name = "by_author", key = "author", shards = 2, cap = 4 }]

[stage]
shards = 2
left = "stories"
left_key = "id"
right = "votes"
right_key = "story"
aggregate = "count"
"#;

/// How many domains the recipe of votes has.
const DOMAINS: usize = 8;

/// A table, and the row that is inserted there, by its id and its second cell.
pub type Line = (&'static str, i128, i128);

const NOTE: &[Line] = &[("notes", 1, 7)];

const STORY: &[Line] = &[("stories", 1, 7)];

/// Rows of which each base shard, stage shard and view shard has a turn.
const LINES: &[Line] = &[
    ("stories", 2, 7),
    ("stories", 1, 8),
    ("votes", 10, 1),
    ("votes", 11, 1),
];

/// How many threads have come so far, and whether one waited in vain.
#[derive(Drop)]
pub struct Arrivals {
    count: AtomicUsize,
    missed: AtomicBool,
}

impl Arrivals {
    pub fn new() -> Arrivals {
        Arrivals {
            count: AtomicUsize::new(0),
            missed: AtomicBool::new(false),
        }
    }

    pub fn arrive(&self) {
        self.count.fetch_add(1, Ordering::SeqCst);
    }

    // Waits until this many have come, and yields the thread at most this often.
    pub fn wait_for(&self, count: usize, turns: u32) {
        for _turn in 0..turns {
            if self.count.load(Ordering::SeqCst) >= count {
                return;
            }
            thread::yield_now();
        }
        self.missed.store(true, Ordering::SeqCst);
    }

    // Whether this many have come, and none waited in vain.
    pub fn are(&self, count: usize) -> bool {
        self.count.load(Ordering::SeqCst) == count && !self.missed.load(Ordering::SeqCst)
    }
}

/// Which domains meet.
#[derive(Clone, Copy)]
enum Meeting {
    /// Stage shard 0 waits before its first turn until stage shard 1, which waits for that, is past
    /// its own.
    TwoStages,
    /// Each domain waits after its first turn until all have made theirs.
    All,
}

impl Meeting {
    // How many threads come.
    fn count(self) -> usize {
        match self {
            Meeting::TwoStages => 2,
            Meeting::All => DOMAINS,
        }
    }
}

/// Holds domains until they have met.
#[derive(Drop)]
struct Meets {
    meeting: Meeting,
    arrivals: Arc<Arrivals>,
}

impl Gate for Meets {
    fn before(&self, domain: DomainId, turn: u64) {
        match (self.meeting, domain, turn) {
            (Meeting::TwoStages, DomainId::Stage(0), 0) => {
                self.arrivals.arrive();
                self.arrivals.wait_for(2, 100_000);
            }
            (Meeting::TwoStages, DomainId::Stage(1), 0) => self.arrivals.wait_for(1, 100_000),
            _ => {}
        }
    }

    fn after(&self, domain: DomainId, turn: u64) {
        match (self.meeting, domain, turn) {
            (Meeting::TwoStages, DomainId::Stage(1), 0) => self.arrivals.arrive(),
            (Meeting::All, _, 0) => {
                self.arrivals.arrive();
                self.arrivals.wait_for(DOMAINS, 1_000_000);
            }
            _ => {}
        }
    }
}

#[test]
fn two_domains_at_once(rt: HostRuntime) -> Result<(), Fail> {
    let alloc = rt.alloc();
    assert!(rt; do_meet(rt, alloc, NOTES, NOTE, Meeting::TwoStages)?);
    assert!(rt; do_meet(rt, alloc, VOTES, STORY, Meeting::TwoStages)?);
    Ok(())
}

#[test]
fn all_domains_at_once(rt: HostRuntime) -> Result<(), Fail> {
    assert!(rt; do_meet(rt, rt.alloc(), VOTES, LINES, Meeting::All)?);
    Ok(())
}

/// How few threads serve eight domains.
const FEW: &[usize] = &[2, 3, 5];

#[test]
fn domains_that_share_threads(rt: HostRuntime) -> Result<(), Fail> {
    for threads in FEW {
        let setup = Setup {
            plan: from_toml(rt.alloc(), VOTES)?,
            sessions: 1,
            threads: *threads,
            gate: OpenGate,
            scene: Scene::Lines(LINES),
        };
        run(rt, rt.alloc(), setup)?;
    }
    Ok(())
}

// Whether the domains of a recipe meet while a session inserts the rows.
fn do_meet<R: Threads + Wait + Copy + Drop + Send + 'static>(
    rt: R,
    alloc: Global,
    recipe: &str,
    lines: &'static [Line],
    meeting: Meeting,
) -> Result<bool, Fail> {
    let arrivals = Arc::new(alloc, Arrivals::new())?;
    let gate = Meets {
        meeting,
        arrivals: Arc::try_clone(&arrivals)?,
    };
    let setup = Setup {
        plan: from_toml(alloc, recipe)?,
        sessions: 1,
        threads: usize::MAX,
        gate,
        scene: Scene::Lines(lines),
    };
    run(rt, alloc, setup)?;
    Ok(arrivals.are(meeting.count()))
}

// Inserts the rows in a session, and fences.
pub fn insert_lines<
    J: Naming + Send + Sync + 'static,
    R: Threads + Wait + Copy + Drop + Send + 'static,
>(running: &mut Running<J, R>, lines: &[Line]) -> Result<(), Fail> {
    let mut caller = running.next()?;
    for (table, id, other) in lines {
        caller.add(table, *id, *other).map_err(fail)?;
    }
    caller.fence().map_err(fail)
}
