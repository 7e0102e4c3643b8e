//! Which thread serves which domain.

use crossbeam_utils::sync::EventCount;
use schedule::wire::Spot;
use std::alloc::{AllocError, Global};
use std::sync::Arc;

/// How the domains of a store are shared out among its threads. Each view shard has a thread of its
/// own, which with few threads serves stage shards too; base shards have threads of their own where
/// there are more threads than view shards. So a packet of a stage shard to the view shard of its
/// thread wakes nobody, and a session does not wait behind either for the reply of a base shard.
#[derive(Clone, Copy, Debug)]
pub struct Crews {
    bases: usize,
    first: usize,
    others: usize,
    views: usize,
}

impl Crews {
    /// Shares so many domains of each kind out among this many threads: among no more than there
    /// are domains, and among no fewer than there are view shards. A third of the threads, at least
    /// one, serve base shards, where the others are enough for the view shards.
    pub fn new(threads: usize, bases: usize, stages: usize, views: usize) -> Crews {
        if threads <= views {
            return Crews {
                bases: views,
                first: 0,
                others: views,
                views,
            };
        }
        let most = stages.saturating_add(views);
        let others = threads
            .saturating_sub((threads / 3).max(1).min(bases))
            .max(views)
            .min(most);
        let first = threads.saturating_sub(others).min(bases);
        Crews {
            bases: first,
            first,
            others,
            views,
        }
    }

    /// How many threads there are.
    pub fn threads(&self) -> usize {
        self.first.saturating_add(self.others)
    }

    /// The thread that serves a domain.
    pub fn thread_of(&self, domain: Spot) -> usize {
        match domain {
            Spot::Base(base) => in_turn(base, self.bases),
            Spot::Stage(stage) => self.other(self.views.saturating_add(stage)),
            Spot::View(reader) => self.other(reader),
        }
    }

    /// Whether a thread serves a view shard.
    pub fn has_view(&self, thread: usize) -> bool {
        thread >= self.first && thread - self.first < self.views
    }

    // The thread of the view shard or stage shard of this number among both.
    fn other(&self, number: usize) -> usize {
        self.first.saturating_add(in_turn(number, self.others))
    }
}

// The place of a number among so many that come in turn.
fn in_turn(number: usize, count: usize) -> usize {
    number.checked_rem(count).unwrap_or(0)
}

/// How the domains are shared out among threads, and for each thread what tells it of messages.
#[derive(Drop)]
pub struct Watches {
    crews: Crews,
    first: Arc<EventCount>,
    others: Vec<Arc<EventCount>>,
}

impl Watches {
    /// An event count for each thread. Errors: memory only.
    pub fn new(alloc: Global, crews: Crews) -> Result<Watches, AllocError> {
        let mut others = Vec::new(alloc);
        for _thread in 1..crews.threads() {
            others.push(Arc::new(alloc, EventCount::new())?)?;
        }
        Ok(Watches {
            crews,
            first: Arc::new(alloc, EventCount::new())?,
            others,
        })
    }

    /// How the domains are shared out.
    pub fn crews(&self) -> Crews {
        self.crews
    }

    /// What tells a thread of messages; that of the first where there is no such thread.
    pub fn of(&self, thread: usize) -> &Arc<EventCount> {
        match self.others.get(thread.wrapping_sub(1)) {
            Some(watch) => watch,
            None => &self.first,
        }
    }

    /// What tells the thread of a domain of messages. Errors: memory only.
    pub fn of_domain(&self, domain: Spot) -> Result<Arc<EventCount>, AllocError> {
        Arc::try_clone(self.of(self.crews.thread_of(domain)))
    }
}
