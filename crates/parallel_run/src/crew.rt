//! How the workers of a run call each other.

use crate::event_count::EventCount;
use crate::opening::event_counts_of;
use base::Memory;
use std::alloc::Global;
use std::sync::Wait;
use std::sync::atomic::{AtomicBool, AtomicU64, Ordering};

/// What all workers of a run share beside its board.
#[derive(Drop)]
pub(crate) struct Crew {
    // one of each worker
    event_counts: Vec<EventCount>,
    // how often the processes were dealt out again
    dealings: AtomicU64,
    over: AtomicBool,
    failed: AtomicBool,
}

impl Crew {
    /// So many workers, which have not begun yet.
    pub(crate) fn new(alloc: Global, workers: usize) -> Result<Crew, Memory> {
        Ok(Crew {
            event_counts: event_counts_of(alloc, workers)?,
            dealings: AtomicU64::new(0),
            over: AtomicBool::new(false),
            failed: AtomicBool::new(false),
        })
    }

    /// The processes lie on the board again for all workers.
    pub(crate) fn deal(&self) {
        self.dealings.fetch_add(1, Ordering::SeqCst);
        self.notify_all();
    }

    /// Something lies on the board for that worker.
    pub(crate) fn call(&self, worker: usize) {
        if let Some(event_count) = self.event_counts.get(worker) {
            event_count.notify();
        }
    }

    /// The run has come to its end.
    pub(crate) fn end(&self) {
        self.over.store(true, Ordering::SeqCst);
        self.notify_all();
    }

    /// A worker has ended by a fault.
    pub(crate) fn fail(&self) {
        self.failed.store(true, Ordering::SeqCst);
        self.end();
    }

    /// Whether a worker has ended by a fault.
    pub(crate) fn has_failed(&self) -> bool {
        self.failed.load(Ordering::SeqCst)
    }

    /// Whether the run has ended, also by a fault.
    pub(crate) fn is_over(&self) -> bool {
        self.over.load(Ordering::SeqCst)
    }

    /// That worker is about to sleep, and looks once more for what lies there for it: how often it was called while it slept. It
    /// ends by `wait` or `cancel_wait`.
    pub(crate) fn prepare_wait(&self, worker: usize) -> u64 {
        match self.event_counts.get(worker) {
            Some(event_count) => event_count.prepare_wait(),
            None => 0,
        }
    }

    /// That worker found something, and doesn't sleep.
    pub(crate) fn cancel_wait(&self, worker: usize) {
        if let Some(event_count) = self.event_counts.get(worker) {
            event_count.cancel_wait();
        }
    }

    /// Sleeps until that worker is called again after so many times. It may also wake for no reason.
    pub(crate) fn wait(&self, rt: &impl Wait, worker: usize, calls: u64) {
        if let Some(event_count) = self.event_counts.get(worker) {
            event_count.wait(rt, calls);
        }
    }

    /// Sleeps until the processes were dealt out more often than so: how often they were. None where
    /// the run is over.
    pub(crate) fn await_dealing(
        &self,
        rt: &impl Wait,
        worker: usize,
        dealings: u64,
    ) -> Option<u64> {
        for _ in rt.forever() {
            let calls = self.prepare_wait(worker);
            let now = self.dealings.load(Ordering::SeqCst);
            if now > dealings {
                self.cancel_wait(worker);
                return Some(now);
            }
            if self.is_over() {
                self.cancel_wait(worker);
                return None;
            }
            self.wait(rt, worker, calls);
        }
        unreachable!()
    }

    fn notify_all(&self) {
        for event_count in self.event_counts.iter() {
            event_count.notify();
        }
    }
}
