//! How many threads serve the domains of a store.
use std::thread::{Threads, available_parallelism};

/// How many threads a store does best with, on the processors that this process may use: one less,
/// since a session is a thread too, and 0 where there is but one. With more, threads that look for
/// messages take turns on a processor with those that have some. Where the processors are not
/// known, so many that each domain has a thread of its own.
pub fn usual_threads<R: Threads>(rt: &R) -> usize {
    match available_parallelism(rt) {
        Ok(processors) => processors.get().saturating_sub(1),
        Err(_) => usize::MAX,
    }
}
