//! A run in which waiting costs more than it gains: one worker goes on alone for a while, and then all do again.
ghost use Rattle.std.specs.Prelude.{⊤};

use crate::into_sinks::run_rings;
use crate::ways::{Way, dealt, run_by};
use base::{Fault, Moment};
use lookahead_windows::Gate;
use run_output::Summary;
use scenario::{Scenario, Workers};
use scenario_reader::read;
use std::marker::Sync;
use std::process::Abort;
use std::sync::Wait;
use std::sync::atomic::{AtomicBool, AtomicU64, Ordering};
use std::thread;
use std::thread::Threads;
use trace::Sink;
use trace::testing::MemorySink;

/// Two members a tick apart, each of whose events is a window of its own: some thousands of windows, with little in each.
const TICK_BY_TICK: &str = "version = 1
seed = 7
end = 6000
[swim]
period = 10
timeout = 3
spread = 1
[link]
delay = 1
[[group]]
name = \"n\"
count = 2
";

/// How often worker 0 lets others run while it is waited for: some milliseconds, longer than who waits looks.
const SLOWNESS: u64 = 20_000;

/// In how many windows it does so at most.
const SLOW_WINDOWS: u64 = 100;

/// A gate at which worker 0 is slow, until it has all parts.
#[derive(Drop)]
struct Slow {
    /// The last window that worker 0 entered, and how often anybody entered one.
    last: AtomicU64,
    entries: AtomicU64,
    /// Whether worker 0 has entered a window with two parts, and whether another one has entered since.
    alone: AtomicBool,
    joined: AtomicBool,
}

impl Slow {
    /// Nobody has entered yet.
    const fn new() -> Self {
        Slow {
            last: AtomicU64::new(0),
            entries: AtomicU64::new(0),
            alone: AtomicBool::new(false),
            joined: AtomicBool::new(false),
        }
    }

    fn is_alone(&self) -> bool {
        self.alone.load(Ordering::SeqCst)
    }

    fn has_joined(&self) -> bool {
        self.joined.load(Ordering::SeqCst)
    }

    fn windows(&self) -> u64 {
        self.last.load(Ordering::SeqCst)
    }

    /// Worker 0 enters a window.
    fn enter_first(&self, window: u64) {
        if self.last.swap(window, Ordering::SeqCst) == window {
            self.alone.store(true, Ordering::SeqCst);
        }
        if window <= SLOW_WINDOWS && !self.is_alone() {
            for _ in 0..SLOWNESS {
                thread::yield_now();
            }
        }
    }
}

impl Gate for Slow {
    ghost knows = { λ _. ⊤ };

    ghost awaits = { λ _ _ _. ⊤ };

    fn enter(&self, worker: usize, window: u64, _part: usize, _bound: Moment) {
        self.entries.fetch_add(1, Ordering::SeqCst);
        if worker == 0 {
            self.enter_first(window);
        } else if self.is_alone() {
            self.joined.store(true, Ordering::SeqCst);
        }
    }
}

/// Runs the scenario by two workers with a part each, of which the first is slow.
fn run_slowly(
    rt: &(impl Abort + AllocGlobal + Threads + Wait + Sync),
    scenario: &Scenario,
    gate: &Slow,
    trace: &mut MemorySink,
    report: &mut MemorySink,
) -> Result<Summary, Fault> {
    let Ok(division) = dealt(rt, scenario, 2) else {
        return Err(Fault::Memory);
    };
    assert!(rt; division.members() == scenario.members());
    assert!(rt; trace.failures() < 1 << 62);
    assert!(rt; report.failures() < 1 << 62);
    let workers = Workers::new(2).expect(rt, "workers");
    run_rings(rt, scenario, &division, workers, gate, trace, report)
}

/// The other worker waits for the slow one, so both parts go to that one; it runs them for some two thousand windows,
/// and then each has one again. The trace and the report are those of one thread.
#[test]
fn one_worker_goes_on_alone_and_then_all_again(rt: HostRuntime) {
    let alloc = rt.alloc();
    let scenario = match read(alloc, TICK_BY_TICK.as_bytes()) {
        Ok(scenario) => scenario,
        Err(_) => panic!(rt; "the text is no scenario"),
    };
    let gate = Slow::new();
    let mut trace = MemorySink::new(alloc);
    let mut report = MemorySink::new(alloc);
    let outcome = run_slowly(&rt, &scenario, &gate, &mut trace, &mut report);
    let mut one_trace = MemorySink::new(alloc);
    let mut one_report = MemorySink::new(alloc);
    let as_one = run_by(&rt, Way::AsOne, &scenario, &mut one_trace, &mut one_report);
    assert!(rt; outcome.is_ok() && as_one == outcome);
    assert!(rt; trace.bytes() == one_trace.bytes());
    assert!(rt; report.bytes() == one_report.bytes());
    let windows = gate.windows();
    assert!(rt;
        gate.entries.load(Ordering::SeqCst) == windows.saturating_mul(2),
        "{windows} windows"
    );
    assert!(rt; gate.is_alone() && gate.has_joined(), "{windows} windows");
}
