//! Runs into the sinks of a test, of whose rows nothing else is gathered.
ghost use Rattle.std.specs.Prelude.{◌≡◌, ◌<◌, ◌^◌, length};
ghost use Rattle.scenario.specs.Setup.{member_count};
ghost use Rattle.lookahead_windows.specs.Gates.{KnowsAll};
ghost use Rattle.lookahead_windows.specs.Bounds.{AwaitsRun};
ghost use Rattle.trace.specs.Memory.{memory_failures};

use base::Fault;
use lookahead_windows::Gate;
use parallel_run::{RunAccount, run_by_rings};
use reports::Tallies;
use run_output::{NothingGathered, Summary, TraceAndGathered};
use scenario::{Division, Scenario, Workers};
use sequential_run::run_streamed;
use std::marker::Sync;
use std::mem;
use std::sync::Wait;
use std::thread::Threads;
use trace::testing::MemorySink;

/// The place of a run that writes its trace into this sink, which is left empty.
fn place_of_run(
    rt: &impl AllocGlobal,
    trace: &mut MemorySink,
) -> TraceAndGathered<MemorySink, NothingGathered>
    ensures { result.trace ≡ trace.old }
{
    let trace = mem::replace(trace, MemorySink::new(rt.alloc()));
    TraceAndGathered {
        trace,
        gathered: NothingGathered,
    }
}

/// What a run did, in short.
fn summary_of(outcome: Result<Tallies, Fault>) -> Result<Summary, Fault> {
    match outcome {
        Ok(tallies) => {
            let rows = tallies.rows();
            Ok(Summary { rows })
        }
        Err(fault) => Err(fault),
    }
}

/// Runs the scenario by `run_streamed`.
pub(crate) fn stream(
    rt: &impl AllocGlobal,
    scenario: &Scenario,
    trace: &mut MemorySink,
    report: &mut MemorySink,
) -> Result<Summary, Fault>
    requires countable { memory_failures trace.old < 2 ^ 63 }
    requires countable_report { memory_failures report.old < 2 ^ 63 }
{
    let mut place = place_of_run(rt, trace);
    let outcome = run_streamed(rt.alloc(), scenario, &mut place, report);
    *trace = place.trace;
    summary_of(outcome)
}

/// Runs the scenario by `run_by_rings`. The account of the run is dropped.
pub(crate) fn run_rings<G: Gate, R: AllocGlobal + Threads + Wait + Sync>(
    rt: &R,
    scenario: &Scenario,
    division: &Division,
    workers: Workers,
    gate: &G,
    trace: &mut MemorySink,
    report: &mut MemorySink,
) -> Result<Summary, Fault>
    requires divides { length division.now.part_of ≡ member_count scenario.now }
    requires countable { memory_failures trace.old < 2 ^ 63 }
    requires countable_report { memory_failures report.old < 2 ^ 63 }
    requires known { KnowsAll G.knows workers }
    requires windows { AwaitsRun G.awaits scenario.now division.now }
{
    let alloc = rt.alloc();
    let mut place = place_of_run(rt, trace);
    let mut account = RunAccount::none(alloc);
    let outcome = run_by_rings(
        rt,
        alloc,
        scenario,
        division,
        workers,
        gate,
        &mut place,
        report,
        &mut account,
    );
    *trace = place.trace;
    summary_of(outcome)
}
