//! Every way in which a sink of a run fails that no file shows: at one put and not at the next, by taking nothing, and
//! at its flush; by each call that runs a scenario. Files that have too little room stand in tests/writes.py.

use crate::texts::CRASH_DETECTED;
use crate::ways::{Way, run_by, ways};
use base::Fault;
use scenario_reader::read;
use std::marker::Sync;
use std::process::Abort;
use std::sync::Wait;
use std::thread::Threads;
use trace::Sink;
use trace::testing::MemorySink;

/// Runs the crash into these sinks, of which one fails, and gives them.
fn fail_by(
    rt: &(impl Abort + AllocGlobal + Threads + Wait + Sync),
    way: Way,
    trace: MemorySink,
    report: MemorySink,
) -> (MemorySink, MemorySink) {
    let scenario = match read(rt.alloc(), CRASH_DETECTED.scenario.as_bytes()) {
        Ok(scenario) => scenario,
        Err(_) => panic!(rt; "the text is no scenario"),
    };
    let (mut trace, mut report) = (trace, report);
    let outcome = run_by(rt, way, &scenario, &mut trace, &mut report);
    assert!(rt; outcome == Err(Fault::Write));
    (trace, report)
}

/// Asserts that a trace that fails has got a beginning, and the report nothing; gives the trace's sink.
fn assert_trace_begins(
    rt: &(impl Abort + AllocGlobal + Threads + Wait + Sync),
    way: Way,
    sink: MemorySink,
) -> MemorySink {
    let (trace, report) = fail_by(rt, way, sink, MemorySink::new(rt.alloc()));
    assert!(rt; CRASH_DETECTED.trace.as_bytes().starts_with(trace.bytes()));
    assert!(rt; report.bytes().is_empty() && report.puts() == 0);
    trace
}

/// Asserts that a report that fails has got a beginning, and the trace all; gives the report's sink.
fn assert_report_begins(
    rt: &(impl Abort + AllocGlobal + Threads + Wait + Sync),
    way: Way,
    sink: MemorySink,
) -> MemorySink {
    let (trace, report) = fail_by(rt, way, MemorySink::new(rt.alloc()), sink);
    assert!(rt; trace.bytes() == CRASH_DETECTED.trace.as_bytes());
    assert!(rt; CRASH_DETECTED.report.as_bytes().starts_with(report.bytes()));
    report
}

/// How many bytes are between the places at which sinks fail.
const APART: usize = 101;

/// A sink that takes a byte a put, and fails at the put behind so many.
fn failing_behind(rt: &impl AllocGlobal, puts: usize) -> MemorySink {
    MemorySink::new(rt.alloc())
        .with_short_puts()
        .failing_at_put((puts as u64).saturating_add(1))
}

/// A sink that takes so many bytes, and then answers that it took none.
fn full_behind(rt: &impl AllocGlobal, bytes: usize) -> MemorySink {
    MemorySink::new(rt.alloc())
        .failing_after(bytes)
        .answering_zero()
}

#[test]
fn a_trace_that_fails_is_a_beginning(rt: HostRuntime) {
    for nth in 0..CRASH_DETECTED.trace.len() / APART {
        let place = nth * APART;
        for way in ways() {
            let trace = assert_trace_begins(&rt, *way, failing_behind(&rt, place));
            assert!(rt; trace.puts() == place as u64 + 1);
            let trace = assert_trace_begins(&rt, *way, full_behind(&rt, place));
            assert!(rt; trace.bytes().len() == place);
        }
    }
}

#[test]
fn a_report_that_fails_is_a_beginning(rt: HostRuntime) {
    for nth in 0..CRASH_DETECTED.report.len() / APART {
        let place = nth * APART;
        for way in ways() {
            let report = assert_report_begins(&rt, *way, failing_behind(&rt, place));
            assert!(rt; report.puts() == place as u64 + 1);
            let report = assert_report_begins(&rt, *way, full_behind(&rt, place));
            assert!(rt; report.bytes().len() == place);
        }
    }
}

/// Where a flush fails, what was put is whole.
#[test]
fn the_trace_and_the_report_are_flushed(rt: HostRuntime) {
    for way in ways() {
        let unflushed = MemorySink::new(rt.alloc()).failing_at_flush();
        let trace = assert_trace_begins(&rt, *way, unflushed);
        assert!(rt; trace.bytes() == CRASH_DETECTED.trace.as_bytes());
        let unflushed = MemorySink::new(rt.alloc()).failing_at_flush();
        let report = assert_report_begins(&rt, *way, unflushed);
        assert!(rt; report.bytes() == CRASH_DETECTED.report.as_bytes());
    }
}
