//! The ways in which tests run a scenario: as one, by parts in turn, and by workers.

use crate::into_sinks::{run_rings, stream};
use base::{Fault, Memory};
use lookahead_windows::OpenGate;
use run_output::Summary;
use scenario::{Division, Scenario, Workers};
use sequential_run::{run_in_turn, run_one};
use std::marker::Sync;
use std::process::Abort;
use std::sync::Wait;
use std::thread::Threads;
use trace::Sink;
use trace::testing::MemorySink;

/// The division into so many parts with these members in each. `Memory` where it is refused.
pub(crate) fn divided(
    rt: &impl Abort,
    scenario: &Scenario,
    parts: u8,
    part_of: Vec<u8>,
) -> Result<Division, Memory> {
    match Division::new(scenario, usize::from(parts), part_of) {
        Ok(division) => Ok(division),
        Err(_) => panic!(rt; "there is no such division"),
    }
}

/// The division that puts the members into so many parts by turns: member m into part m mod parts.
/// `Memory` where it is refused.
pub(crate) fn dealt(
    rt: &(impl Abort + AllocGlobal),
    scenario: &Scenario,
    parts: u8,
) -> Result<Division, Memory> {
    let last = parts.saturating_sub(1);
    let mut part_of = Vec::new(rt.alloc());
    let mut part = 0;
    for _ in 0..scenario.members() {
        match part_of.push(part) {
            Ok(()) => {}
            Err(_) => return Err(Memory),
        }
        part = if part < last { part + 1 } else { 0 };
    }
    divided(rt, scenario, parts, part_of)
}

/// How a test runs a scenario.
#[derive(Clone, Copy)]
pub(crate) enum Way {
    /// By `run_one`.
    AsOne,
    /// By `run_streamed`.
    Streamed,
    /// By so many parts, one after another.
    InTurn(u8),
    /// By so many parts, and so many workers that share them.
    ByWorkers(u8, u8),
}

const WAYS: [Way; 8] = [
    Way::AsOne,
    Way::Streamed,
    Way::InTurn(1),
    Way::InTurn(2),
    Way::InTurn(64),
    Way::ByWorkers(3, 2),
    Way::ByWorkers(3, 3),
    Way::ByWorkers(4, 1),
];

/// The ways in which tests of whole runs and of failing sinks run their scenarios.
pub(crate) fn ways<'a>() -> &'a [Way] {
    &WAYS
}

/// How that way divides the scenario.
fn division_of(
    rt: &(impl Abort + AllocGlobal),
    way: Way,
    scenario: &Scenario,
) -> Result<Division, Memory> {
    match way {
        Way::AsOne | Way::Streamed => dealt(rt, scenario, 1),
        Way::InTurn(parts) | Way::ByWorkers(parts, _) => dealt(rt, scenario, parts),
    }
}

/// Runs the scenario that way into these sinks.
pub(crate) fn run_by(
    rt: &(impl Abort + AllocGlobal + Threads + Wait + Sync),
    way: Way,
    scenario: &Scenario,
    trace: &mut MemorySink,
    report: &mut MemorySink,
) -> Result<Summary, Fault> {
    let Ok(division) = division_of(rt, way, scenario) else {
        return Err(Fault::Memory);
    };
    assert!(rt; division.members() == scenario.members());
    assert!(rt; trace.failures() < 1 << 62);
    assert!(rt; report.failures() < 1 << 62);
    let alloc = rt.alloc();
    match way {
        Way::AsOne => run_one(alloc, scenario, trace, report),
        Way::Streamed => stream(rt, scenario, trace, report),
        Way::InTurn(_) => run_in_turn(rt, alloc, scenario, &division, trace, report),
        Way::ByWorkers(_, workers) => {
            let workers = Workers::new(usize::from(workers)).expect(rt, "workers");
            run_rings(rt, scenario, &division, workers, &OpenGate, trace, report)
        }
    }
}
