//! A sweep whose table fails where only the inside can make it: at its flush.

use base::Fault;
use figures::SettingSummary;
use scenario::Workers;
use scenario_reader::document;
use std::marker::Sync;
use std::process::Abort;
use std::test::Fail;
use std::thread::Threads;
use sweep::{NoProgress, judge, sweep};
use sweep_plan::Plan;
use trace::Sink;
use trace::testing::MemorySink;

/// Three members, of which one crashes; the text sets other values than the sweep.
const THREE: &str = "version = 2
seed = 7
end = 2000
[swim]
period = 900
timeout = 30
spread = 1
[link]
delay = 10
[[group]]
name = \"n\"
count = 3
[[crash]]
member = \"n-1\"
at = 300
";

/// Two keys with two values each.
const SETTINGS: [&str; 2] = ["swim.period=200,250", "swim.timeout=60,70"];

/// Writes the table of the sweep by so many workers.
fn sweep_by(
    rt: &(impl Abort + AllocGlobal + Threads + Sync),
    workers: usize,
    table: &mut MemorySink,
) -> Result<Result<Vec<SettingSummary>, Fault>, Fail> {
    let plan = Plan::read(rt.alloc(), &SETTINGS, Some("1..2"), None)?;
    let text = document(rt.alloc(), THREE.as_bytes())?;
    let workers = Workers::new(workers).expect(rt, "workers");
    assert!(rt; table.failures() < 1 << 62);
    if judge(rt.alloc(), &plan, &text).is_err() {
        panic!(rt; "a case is refused");
    }
    Ok(sweep(
        rt,
        rt.alloc(),
        &plan,
        "mark",
        &text,
        workers,
        &NoProgress,
        table,
    ))
}

/// Asserts that a sweep ended since the table failed.
fn assert_stopped(rt: &impl Abort, swept: Result<Vec<SettingSummary>, Fault>) {
    let Err(fault) = swept else {
        panic!(rt; "not stopped");
    };
    assert!(rt; fault == Fault::Write);
}

/// Where the flush at the end fails, the table was put whole.
#[test]
fn a_table_is_flushed(rt: HostRuntime) -> Result<(), Fail> {
    let mut expected = MemorySink::new(rt.alloc());
    sweep_by(&rt, 1, &mut expected)??;
    let mut table = MemorySink::new(rt.alloc()).failing_at_flush();
    let swept = sweep_by(&rt, 3, &mut table)?;
    assert_stopped(&rt, swept);
    assert!(rt; table.failures() == 1);
    assert!(rt; table.bytes() == expected.bytes());
    Ok(())
}
