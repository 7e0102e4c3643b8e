//! Which thread serves which domain, for some numbers of each.
use routes::crews::Crews;
use schedule::wire::Spot;
use std::alloc::{AllocError, Global};
use std::test::Fail;

/// How many threads are asked for, at most.
const THREADS: usize = 14;

/// How many base shards, stage shards and view shards there are.
const DOMAINS: &[(usize, usize, usize)] = &[
    (1, 1, 1),
    (1, 4, 1),
    (1, 8, 4),
    (2, 1, 3),
    (4, 2, 2),
    (6, 3, 4),
];

// Counts the domains of each thread; false where one has no thread.
fn count<F: Fn(usize) -> Spot>(
    crews: Crews,
    served: &mut Vec<usize>,
    domains: usize,
    domain: F,
) -> bool
    requires { F.IsAlwaysCallable domain }
{
    for place in 0..domains {
        match served.get_mut(crews.thread_of(domain(place))) {
            Some(served) => *served = served.wrapping_add(1),
            None => return false,
        }
    }
    true
}

// Whether each view shard has a thread that no other has, and just those threads have one.
fn has_views(alloc: Global, crews: Crews, views: usize) -> Result<bool, AllocError> {
    let mut served = vec![in alloc; 0usize; crews.threads()]?;
    let all = count(crews, &mut served, views, |reader| Spot::View(reader));
    let are_right = served.iter().enumerate().all(|(thread, views)| *views
        == usize::from(crews.has_view(thread)));
    Ok(all && are_right)
}

// Whether each domain has a thread and each thread a domain, and there are no more threads than were
// asked for, but for view shards, and no fewer, but for want of domains.
fn is_shared_out(
    alloc: Global,
    threads: usize,
    (bases, stages, views): (usize, usize, usize),
) -> Result<bool, AllocError> {
    let crews = Crews::new(threads, bases, stages, views);
    let mut served = vec![in alloc; 0usize; crews.threads()]?;
    let all = count(crews, &mut served, bases, |base| Spot::Base(base))
        && count(crews, &mut served, stages, |stage| Spot::Stage(stage))
        && count(crews, &mut served, views, |reader| Spot::View(reader));
    let domains = bases.wrapping_add(stages).wrapping_add(views);
    let wanted = threads.max(views).min(domains);
    let are_busy = served.iter().all(|served| *served > 0);
    Ok(all && are_busy && crews.threads() == wanted && has_views(alloc, crews, views)?)
}

#[test]
fn each_domain_has_a_thread(rt: HostRuntime) -> Result<(), Fail> {
    for domains in DOMAINS {
        for threads in 0..THREADS {
            assert!(rt; is_shared_out(rt.alloc(), threads, *domains)?);
        }
        assert!(rt; is_shared_out(rt.alloc(), usize::MAX, *domains)?);
    }
    Ok(())
}
