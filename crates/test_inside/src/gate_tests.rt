//! Runs by threads that call a gate: each part is entered once in each window, before it is run, by a worker that there
//! is; and the workers run at once.

use crate::book::{Book, Holding, run_result};
use crate::texts::{CRASH_DETECTED, JOIN, Worked};
use std::marker::Sync;
use std::process::Abort;
use std::sync::Wait;
use std::test::Fail;
use std::thread::Threads;
use trace::Sink;
use trace::testing::MemorySink;

/// Runs the worked run by as many parts and workers as the gate is for, asserts that it writes the trace, and that each
/// part was entered once in each window, and gives the number of windows.
fn assert_entered(
    rt: &(impl Abort + AllocGlobal + Threads + Wait + Sync),
    gate: &Book,
    worked: &Worked,
    part_of: &[u8],
) -> u64 {
    let mut trace = MemorySink::new(rt.alloc());
    let outcome = run_result(rt, gate, worked.scenario, part_of, &mut trace);
    assert!(rt; outcome.is_ok());
    assert!(rt; trace.bytes() == worked.trace.as_bytes());
    assert!(rt; gate.wrong() == 0);
    let windows = gate.windows();
    assert!(rt; gate.entries() == windows.saturating_mul(u64::from(gate.parts)));
    windows
}

/// Each of two workers waits in the first windows until the other one has entered its part.
#[test]
fn gate_two_parts(rt: HostRuntime) -> Result<(), Fail> {
    let gate = Book::new(rt.alloc(), 2, 2, Holding::All)?;
    assert!(rt; assert_entered(&rt, &gate, &CRASH_DETECTED, &[0, 1]) > 2);
    Ok(())
}

/// The same where one of the two has two parts in each window.
#[test]
fn gate_three_parts_by_two_workers(rt: HostRuntime) -> Result<(), Fail> {
    let gate = Book::new(rt.alloc(), 3, 2, Holding::All)?;
    assert!(rt; assert_entered(&rt, &gate, &JOIN, &[0, 1, 2]) > 2);
    Ok(())
}

/// The same where each of three has one.
#[test]
fn gate_three_parts_by_three_workers(rt: HostRuntime) -> Result<(), Fail> {
    let gate = Book::new(rt.alloc(), 3, 3, Holding::All)?;
    assert!(rt; assert_entered(&rt, &gate, &JOIN, &[0, 1, 2]) > 2);
    Ok(())
}

/// The first part is entered late in each window, and no other in the next one before: so it is entered before it is
/// run, since what it runs is what the others wait for.
#[test]
fn the_gate_is_entered_before_the_part_is_run(rt: HostRuntime) -> Result<(), Fail> {
    for workers in [2, 3] {
        let gate = Book::new(rt.alloc(), 3, workers, Holding::FirstPart)?;
        assert!(rt; assert_entered(&rt, &gate, &JOIN, &[0, 1, 2]) > 2);
    }
    Ok(())
}

/// One worker alone goes by windows of parts too, and calls the gate for each, also for one that has nobody.
#[test]
fn one_worker_tells_of_each_part(rt: HostRuntime) -> Result<(), Fail> {
    for parts in 2..=3 {
        let gate = Book::new(rt.alloc(), parts, 1, Holding::Nobody)?;
        assert!(rt; assert_entered(&rt, &gate, &CRASH_DETECTED, &[0, 1]) > 2);
    }
    Ok(())
}

/// Nothing bounds the windows of one part alone but the end, so it has one, which is the first. No more workers run
/// than there are parts.
#[test]
fn one_part_has_one_window(rt: HostRuntime) -> Result<(), Fail> {
    for workers in [1, 2, 64] {
        let gate = Book::new(rt.alloc(), 1, workers, Holding::Nobody)?;
        assert!(rt; assert_entered(&rt, &gate, &CRASH_DETECTED, &[0, 0]) == 1);
        assert!(rt; gate.entries() == 1);
    }
    Ok(())
}
