//! How far the window of each part goes in a round, as the engine calls a gate: worked out by hand.
ghost use Rattle.std.specs.Prelude.{⊤, ◌≡◌, Some};
ghost use Rattle.test_inside.specs.Told.{one_run, IsToldOfOne};

use crate::into_sinks::run_rings;
use crate::ways::{Way, divided, run_by};
use base::{Fault, Memory, Moment};
use lookahead_windows::Gate;
use run_output::Summary;
use scenario::{Division, Scenario, Workers};
use scenario_reader::read;
use std::alloc::Global;
use std::marker::{Brand, PhantomData, Sync};
use std::process::Abort;
use std::sync::Wait;
use std::sync::atomic::{AtomicU64, Ordering};
use std::test::Fail;
use std::thread::Threads;
use trace::Sink;
use trace::testing::MemorySink;

/// Three sites of one member each, of which the first reaches the second fast, and the second the third: from the first
/// the least walks take 110 ticks back to it, 10 and 20, from the second 100, 110 and 10, from the third 100, 100 and
/// 110. So the ways into them take 100, 10 and 10.
const CHAIN: &str = "version = 1
seed = 7
end = 1000
[swim]
period = 1000
timeout = 300
spread = 1
[link]
delay = 100
[[group]]
name = \"a\"
count = 1
start = 150
contact = \"b-0\"
[[group]]
name = \"b\"
count = 1
[[group]]
name = \"c\"
count = 1
start = 600
contact = \"b-0\"
[[path]]
from = \"a\"
to = \"b\"
delay = 10
[[path]]
from = \"b\"
to = \"c\"
delay = 10
";

/// A round of the chain: for each of its parts the first moment that pends, the moment before which nothing can come to it
/// from what pends, and how far its window goes.
type Round = [(u64, u64, u64); 3];

/// Its first rounds. In the first the second member starts, and its first period begins and is over. In the second the
/// first member starts, and asks the second one to let it join, which is the first moment that pends in the third.
const ROUNDS: [Round; 3] = [
    [(150, 100, 100), (0, 110, 10), (600, 10, 10)],
    [(150, 260, 250), (1001, 160, 160), (600, 170, 160)],
    [(1150, 260, 260), (160, 270, 170), (600, 170, 170)],
];

/// How long the least walks take from each part to each.
const WALKS: [[u64; 3]; 3] = [[110, 10, 20], [100, 110, 10], [100, 100, 110]];

/// A gate that keeps how far the windows of three parts go in the first rounds.
#[derive(Drop)]
struct Bounds {
    /// By round and part; 0 where none has come.
    told: Vec<AtomicU64>,
}

impl Bounds {
    /// None has come yet.
    fn new(alloc: Global) -> Result<Self, Memory> {
        let mut told = Vec::new(alloc);
        for _ in 0..9 {
            match told.push(AtomicU64::new(0)) {
                Ok(()) => {}
                Err(_) => return Err(Memory),
            }
        }
        Ok(Bounds { told })
    }

    /// Where it is kept how far the part's window goes in the window of that number.
    fn cell(&self, window: u64, part: usize) -> Option<&AtomicU64> {
        let place = (window as usize)
            .saturating_sub(1)
            .saturating_mul(3)
            .saturating_add(part);
        self.told.get(place)
    }

    /// How far the part's window went in the round: 0 where none has come.
    fn bound(&self, round: u64, part: usize) -> u64 {
        match self.cell(round.saturating_add(1), part) {
            Some(cell) => cell.load(Ordering::SeqCst),
            None => 0,
        }
    }
}

impl Gate for Bounds {
    ghost knows = { λ _. ⊤ };

    ghost awaits = { λ _ _ _. ⊤ };

    fn enter(&self, _worker: usize, window: u64, part: usize, bound: Moment) {
        if let Some(cell) = self.cell(window, part) {
            cell.store(bound.ticks(), Ordering::SeqCst);
        }
    }
}

/// The scenario of the chain.
fn chain(rt: &(impl Abort + AllocGlobal)) -> Scenario {
    read(rt.alloc(), CHAIN.as_bytes())
        .ok()
        .expect(rt, "accepted")
}

/// Each of its members is a part.
fn by_members(rt: &(impl Abort + AllocGlobal), scenario: &Scenario) -> Result<Division, Memory> {
    let mut part_of = Vec::new(rt.alloc());
    match part_of.extend_from_slice(&[0, 1, 2]) {
        Ok(()) => {}
        Err(_) => return Err(Memory),
    }
    divided(rt, scenario, 3, part_of)
}

/// Runs the chain by so many workers, with the gate. The report is dropped.
fn run_result(
    rt: &(impl Abort + AllocGlobal + Threads + Wait + Sync),
    gate: &Bounds,
    workers: usize,
    scenario: &Scenario,
    trace: &mut MemorySink,
) -> Result<Summary, Fault> {
    let Ok(division) = by_members(rt, scenario) else {
        return Err(Fault::Memory);
    };
    assert!(rt; division.members() == scenario.members());
    let mut report = MemorySink::new(rt.alloc());
    assert!(rt; trace.failures() < 1 << 62);
    assert!(rt; report.failures() < 1 << 62);
    let workers = Workers::new(workers).expect(rt, "workers");
    run_rings(rt, scenario, &division, workers, gate, trace, &mut report)
}

/// Asserts that the run's trace is that of one thread.
fn assert_as_one(
    rt: &(impl Abort + AllocGlobal + Threads + Wait + Sync),
    scenario: &Scenario,
    outcome: Result<Summary, Fault>,
    trace: &MemorySink,
) {
    let mut one_trace = MemorySink::new(rt.alloc());
    let mut one_report = MemorySink::new(rt.alloc());
    let as_one = run_by(rt, Way::AsOne, scenario, &mut one_trace, &mut one_report);
    assert!(rt; outcome.is_ok() && as_one == outcome);
    assert!(rt; trace.bytes() == one_trace.bytes());
}

/// The first moment at which something can come to a part from what pends in any.
fn first_to_come(pending: &Round, part: usize) -> u64 {
    let mut first = u64::MAX;
    for (from, (at, _, _)) in pending.iter().enumerate() {
        let walk = match WALKS.get(from) {
            Some(walks) => walks.get(part).copied().unwrap_or(0),
            None => 0,
        };
        first = first.min(at.saturating_add(walk));
    }
    first
}

/// How far the windows of all parts could go: the first moment that pends, and the shortest way into a part.
fn common_bound(pending: &Round) -> u64 {
    let mut first = u64::MAX;
    for (at, _, _) in pending {
        first = first.min(*at);
    }
    first.saturating_add(10)
}

/// Asserts how far each part's window went in a round: as far as was worked out, which is no later than anything that
/// can come to the part, and no earlier than what all could do.
fn assert_round(rt: &impl Abort, gate: &Bounds, number: usize, round: &Round) {
    for (part, (_, horizon, bound)) in round.iter().enumerate() {
        assert_eq!(rt;
            first_to_come(round, part),
            *horizon,
            "to {part} in {number}"
        );
        assert_eq!(rt;
            gate.bound(number as u64, part),
            *bound,
            "of {part} in {number}"
        );
        assert!(rt; *bound <= *horizon);
        assert!(rt; common_bound(round) <= *bound);
    }
}

/// The first part runs far past the moment to which all could go together, in each round.
#[test]
fn windows_of_a_chain_go_to_bounds_of_their_own(rt: HostRuntime) -> Result<(), Fail> {
    let scenario = chain(&rt);
    for workers in [1, 2, 3] {
        let gate = Bounds::new(rt.alloc())?;
        let mut trace = MemorySink::new(rt.alloc());
        let outcome = run_result(&rt, &gate, workers, &scenario, &mut trace);
        assert_as_one(&rt, &scenario, outcome, &trace);
        for (number, round) in ROUNDS.iter().enumerate() {
            assert_round(&rt, &gate, number, round);
            assert!(rt; common_bound(round).saturating_add(90) == gate.bound(number as u64, 0));
        }
    }
    Ok(())
}

/// Of which run a gate may get the windows. A type parameter of this kind stands for the scenario and the division that a call
/// picks.
trait OfOne {
    ghost use Rattle.std.specs.Prelude.{Option};
    ghost use Rattle.test_inside.specs.Told.{OneRun};

    ghost run: { Option OneRun };
}

impl OfOne for Brand {
    ghost use Rattle.std.specs.Prelude.{None};

    ghost run = { None };
}

/// A gate that may get the windows of one run alone, each below its part's own bound.
#[derive(Drop)]
struct Strict<K> {
    of: PhantomData<K>,
}

impl<K: OfOne + Sync> Gate for Strict<K> {
    ghost knows = { λ _. ⊤ };

    ghost awaits = { IsToldOfOne K.run };

    fn enter(&self, _worker: usize, _window: u64, _part: usize, _bound: Moment) {}
}

/// Runs the scenario by three workers, with such a gate.
fn run_strictly<K: OfOne + Sync, R: Abort + AllocGlobal + Threads + Wait + Sync>(
    rt: &R,
    scenario: &Scenario,
    division: &Division,
    trace: &mut MemorySink,
    report: &mut MemorySink,
) -> Result<Summary, Fault>
    requires run { K.run ≡ Some (one_run scenario.now division.now) }
{
    let gate: Strict<K> = Strict { of: PhantomData };
    assert!(rt; division.members() == scenario.members());
    assert!(rt; trace.failures() < 1 << 62);
    assert!(rt; report.failures() < 1 << 62);
    let workers = Workers::new(3).expect(rt, "workers");
    run_rings(rt, scenario, division, workers, &gate, trace, report)
}

/// The engine calls a gate with nothing else, or this would not be proved.
#[test]
fn a_gate_may_refuse_all_but_own_bounds(rt: HostRuntime) -> Result<(), Fail> {
    let scenario = chain(&rt);
    let division = by_members(&rt, &scenario)?;
    let mut trace = MemorySink::new(rt.alloc());
    let mut report = MemorySink::new(rt.alloc());
    let outcome = run_strictly::<Brand, HostRuntime>(
        &rt,
        &scenario,
        &division,
        &mut trace,
        &mut report,
    );
    assert_as_one(&rt, &scenario, outcome, &trace);
    Ok(())
}
