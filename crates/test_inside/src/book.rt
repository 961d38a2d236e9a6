//! A gate that records its calls, and runs that call it.
ghost use Rattle.std.specs.Prelude.{⊤, ◌≤◌};

use crate::into_sinks::run_rings;
use crate::ways::divided;
use base::{Fault, Memory, Moment};
use lookahead_windows::Gate;
use run_output::Summary;
use scenario::Workers;
use scenario_reader::read;
use std::alloc::Global;
use std::marker::Sync;
use std::process::Abort;
use std::sync::Wait;
use std::sync::atomic::{AtomicU64, Ordering};
use std::thread;
use std::thread::Threads;
use trace::Sink;
use trace::testing::MemorySink;

/// Of how many windows a gate keeps account.
const WINDOWS: usize = 1_000;

/// How often who is held at a gate looks whether another worker is there.
const LOOKS: u64 = 10_000_000;

/// In so many windows all workers run, whatever waiting costs them: only then may one go on alone.
const TOGETHER: u64 = 2;

/// How often who comes late to a gate lets others go on before.
const LATENESS: u64 = 1_000;

/// Not all workers came to the window.
pub(crate) const ALONE: u64 = 1;
/// A part was entered twice in a window.
pub(crate) const TWICE: u64 = 2;
/// A window, a part or a worker has a number that none has.
pub(crate) const STRANGE: u64 = 4;
/// A part was not entered in the window before.
pub(crate) const SKIPPED: u64 = 8;

/// Whom a gate holds, and for how long.
#[derive(Clone, Copy)]
pub(crate) enum Holding {
    Nobody,
    /// In the first windows, whoever enters until all workers have.
    All,
    /// Whoever enters with the first part, for a while before that is kept.
    FirstPart,
}

/// A gate that keeps who entered which part in which window.
#[derive(Drop)]
pub(crate) struct Book {
    /// By window and part the number of the worker that entered, and 1; 0 where none did.
    entered: Vec<AtomicU64>,
    /// The greatest number of a window that was entered.
    last: AtomicU64,
    /// How often one entered.
    entries: AtomicU64,
    /// What went wrong, a bit for each kind.
    wrong: AtomicU64,
    pub(crate) parts: u8,
    pub(crate) workers: u8,
    holding: Holding,
}

impl Book {
    /// A gate for so many parts and workers, of which nobody has entered.
    pub(crate) fn new(
        alloc: Global,
        parts: u8,
        workers: u8,
        holding: Holding,
    ) -> Result<Self, Memory> {
        let mut entered = Vec::new(alloc);
        for _ in 0..WINDOWS * usize::from(parts) {
            match entered.push(AtomicU64::new(0)) {
                Ok(()) => {}
                Err(_) => return Err(Memory),
            }
        }
        Ok(Book {
            entered,
            last: AtomicU64::new(0),
            entries: AtomicU64::new(0),
            wrong: AtomicU64::new(0),
            parts,
            workers,
            holding,
        })
    }

    /// How often one entered.
    pub(crate) fn entries(&self) -> u64 {
        self.entries.load(Ordering::SeqCst)
    }

    /// How many windows were entered.
    pub(crate) fn windows(&self) -> u64 {
        self.last.load(Ordering::SeqCst)
    }

    /// What went wrong, once the run has ended: 0 where each part was entered once in each window.
    pub(crate) fn wrong(&self) -> u64 {
        for before in 0..self.windows() {
            if !self.is_full(before + 1) {
                self.note(SKIPPED);
            }
        }
        self.wrong.load(Ordering::SeqCst)
    }

    fn note(&self, kind: u64) {
        self.wrong.fetch_or(kind, Ordering::SeqCst);
    }

    /// Where it is kept who entered this part in this window.
    fn cell(&self, window: u64, part: usize) -> Option<&AtomicU64> {
        let place = (window as usize)
            .saturating_sub(1)
            .saturating_mul(usize::from(self.parts))
            .saturating_add(part);
        self.entered.get(place)
    }

    /// Who entered this part in this window: 0 where nobody did.
    fn who(&self, window: u64, part: usize) -> u64 {
        match self.cell(window, part) {
            Some(cell) => cell.load(Ordering::SeqCst),
            None => 0,
        }
    }

    /// Whether each part was entered in the window.
    fn is_full(&self, window: u64) -> bool {
        for part in 0..usize::from(self.parts) {
            if self.who(window, part) == 0 {
                return false;
            }
        }
        true
    }

    /// Whether this worker has entered the window.
    fn has(&self, window: u64, worker: u64) -> bool {
        for part in 0..usize::from(self.parts) {
            if self.who(window, part) == worker {
                return true;
            }
        }
        false
    }

    /// Whether each worker has entered the window.
    fn is_met(&self, window: u64) -> bool {
        for worker in 0..u64::from(self.workers) {
            if !self.has(window, worker + 1) {
                return false;
            }
        }
        true
    }

    /// Waits until all workers have entered the window, or something has gone wrong.
    fn meet(&self, window: u64) {
        for _ in 0..LOOKS {
            if self.is_met(window) || self.wrong.load(Ordering::SeqCst) != 0 {
                return;
            }
            thread::yield_now();
        }
        self.note(ALONE);
    }

    /// Whether there are such a worker, a window and a part. No more workers run than there are parts.
    fn are_known(&self, worker: usize, window: u64, part: usize) -> bool {
        worker < usize::from(self.workers.min(self.parts))
            && 1 <= window
            && window <= WINDOWS as u64
            && part < usize::from(self.parts)
    }

    /// Writes down who entered which part of a window, and what was wrong with that.
    fn write(&self, worker: u64, window: u64, part: usize) {
        self.entries.fetch_add(1, Ordering::SeqCst);
        self.last.fetch_max(window, Ordering::SeqCst);
        let before = match self.cell(window, part) {
            Some(cell) => cell.swap(worker, Ordering::SeqCst),
            None => 0,
        };
        if before != 0 {
            self.note(TWICE);
        }
        if window > 1 && !self.is_full(window - 1) {
            self.note(SKIPPED);
        }
    }
}

impl Gate for Book {
    ghost knows = { λ _. ⊤ };

    ghost awaits = { λ window _ _. 1 ≤ window };

    fn enter(&self, worker: usize, window: u64, part: usize, _bound: Moment) {
        if !self.are_known(worker, window, part) {
            self.note(STRANGE);
            return;
        }
        let number = (worker as u64).saturating_add(1);
        match self.holding {
            Holding::Nobody => self.write(number, window, part),
            Holding::All => {
                self.write(number, window, part);
                if window <= TOGETHER {
                    self.meet(window);
                }
            }
            Holding::FirstPart => {
                if part == 0 {
                    let_others_go_on();
                }
                self.write(number, window, part);
            }
        }
    }
}

/// Lets other threads run for a while.
fn let_others_go_on() {
    for _ in 0..LATENESS {
        thread::yield_now();
    }
}

/// Runs the text's scenario by as many parts and workers as the gate is for, with these members in each part. The report
/// is dropped.
pub(crate) fn run_result(
    rt: &(impl Abort + AllocGlobal + Threads + Wait + Sync),
    gate: &Book,
    text: &str,
    part_of: &[u8],
    trace: &mut MemorySink,
) -> Result<Summary, Fault> {
    let Ok(scenario) = read(rt.alloc(), text.as_bytes()) else {
        return Err(Fault::Memory);
    };
    let mut numbers = Vec::new(rt.alloc());
    match numbers.extend_from_slice(part_of) {
        Ok(()) => {}
        Err(_) => return Err(Fault::Memory),
    }
    let Ok(division) = divided(rt, &scenario, gate.parts, numbers) else {
        return Err(Fault::Memory);
    };
    assert!(rt; division.members() == scenario.members());
    let mut report = MemorySink::new(rt.alloc());
    assert!(rt; trace.failures() < 1 << 62);
    assert!(rt; report.failures() < 1 << 62);
    let workers = Workers::new(usize::from(gate.workers)).expect(rt, "workers");
    run_rings(rt, &scenario, &division, workers, gate, trace, &mut report)
}
