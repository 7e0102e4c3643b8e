//! Packets that wait one behind the other are taken as one.
use crate::gates::Arrivals;
use crate::runs::{Scene, Setup, run};
use crate::steps::{Call, Step, Told};
use plan::domain::DomainId;
use plan::plan::Plan;
use std::alloc::Global;
use std::sync::atomic::{AtomicU64, Ordering};
use std::sync::{Arc, Wait};
use std::test::Fail;
use std::thread::Threads;
use workers::gate::Gate;

/// Three notes of an author whose key is filled.
const NOTES: &[Step] = &[
    (Call::Read(7), Ok(Told::Rows(0, 0))),
    (Call::Insert(0), Ok(Told::Index(0))),
    (Call::Insert(2), Ok(Told::Index(1))),
    (Call::Insert(4), Ok(Told::Index(2))),
    (Call::Fence, Ok(Told::Fenced)),
    (Call::Read(7), Ok(Told::Rows(3, 3))),
];

/// The turns of the stage shard: the request, the first packet, the two behind it, and the fence.
const TURNS: u64 = 4;

/// Holds the stage shard at the first note's packet until those of the others wait behind it.
#[derive(Drop)]
struct Holds {
    arrivals: Arc<Arrivals>,
    turns: Arc<AtomicU64>,
}

impl Gate for Holds {
    fn before(&self, domain: DomainId, turn: u64) {
        match (domain, turn) {
            (DomainId::Stage(0), 1) => {
                self.arrivals.arrive();
                self.arrivals.wait_for(2, 100_000);
            }
            (DomainId::Base(0, 0), 1) => self.arrivals.wait_for(1, 100_000),
            _ => {}
        }
    }

    fn after(&self, domain: DomainId, turn: u64) {
        match (domain, turn) {
            (DomainId::Base(0, 0), 2) => self.arrivals.arrive(),
            (DomainId::Stage(0), _) => {
                self.turns.fetch_add(1, Ordering::SeqCst);
            }
            _ => {}
        }
    }
}

#[test]
fn packets_that_wait_are_one_turn(rt: HostRuntime) -> Result<(), Fail> {
    assert!(rt; are_joined(rt, rt.alloc())?);
    Ok(())
}

// Whether the stage shard takes the packets of the second and the third note in one turn.
fn are_joined<R: Threads + Wait + Copy + Drop + Send + 'static>(
    rt: R,
    alloc: Global,
) -> Result<bool, Fail> {
    let arrivals = Arc::new(alloc, Arrivals::new())?;
    let turns = Arc::new(alloc, AtomicU64::new(0))?;
    let gate = Holds {
        arrivals: Arc::try_clone(&arrivals)?,
        turns: Arc::try_clone(&turns)?,
    };
    let setup = Setup {
        plan: Plan::built_in(alloc)?,
        sessions: 1,
        threads: usize::MAX,
        gate,
        scene: Scene::Steps(NOTES),
    };
    run(rt, alloc, setup)?;
    Ok(arrivals.are(2) && turns.load(Ordering::SeqCst) == TURNS)
}
