//! How many threads simulate.
ghost use Rattle.std.specs.Prelude.{◌≡◌, ◌≤◌};
ghost use Rattle.partitioning.specs.Hands.{simulating_of};

use scenario::Workers;
use std::thread::{Threads, available_parallelism};

/// How many of so many workers have a thread: no more than there are processors, since a thread that waits for others on a
/// processor that they need makes a run slower.
pub(crate) fn threads_of(rt: &impl Threads, workers: Workers) -> Workers
    ensures some { 1 ≤ result }
    ensures few { result ≤ workers }
{
    match available_parallelism(rt) {
        Ok(processors) => workers_of(workers.count().min(processors.get())),
        Err(_) => workers,
    }
}

/// How many of so many threads simulate where one of them writes: all others; of two both, while the calling thread
/// writes.
pub(crate) fn simulating(threads: Workers) -> Workers
    ensures value { result ≡ simulating_of threads }
    ensures few { (1 ≤ result) × (result ≤ threads) }
{
    let threads = threads.count();
    workers_of(if threads > 2 { threads - 1 } else { threads })
}

/// So many workers.
pub(crate) fn workers_of(count: usize) -> Workers
    requires { (1 ≤ count) × (count ≤ 64) }
    ensures { result ≡ count }
{
    match Workers::new(count) {
        Some(workers) => workers,
        None => unreachable!(),
    }
}
