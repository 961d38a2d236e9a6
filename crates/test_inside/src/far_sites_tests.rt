//! Parts of far sites run long windows, each with a bound of its own: how many there are, as a gate counts them.

use crate::book::{Book, Holding, run_result};
use crate::ways::{Way, run_by};
use scenario_reader::read;
use std::marker::Sync;
use std::process::Abort;
use std::sync::Wait;
use std::test::Fail;
use std::thread::Threads;
use trace::Sink;
use trace::testing::MemorySink;

/// Four sites of two members a hundred ticks apart, in each of which a message takes one tick.
const FOUR_SITES: &str = "version = 1
seed = 5
end = 3000
[swim]
period = 100
timeout = 30
spread = 100
[link]
delay = 100
[[group]]
name = \"a\"
count = 2
[[group]]
name = \"b\"
count = 2
[[group]]
name = \"c\"
count = 2
[[group]]
name = \"d\"
count = 2
[[path]]
from = \"a\"
to = \"a\"
delay = 1
[[path]]
from = \"b\"
to = \"b\"
delay = 1
[[path]]
from = \"c\"
to = \"c\"
delay = 1
[[path]]
from = \"d\"
to = \"d\"
delay = 1
";

/// Asserts that the run's trace, by as many parts and workers as the gate is for, is that of one thread, and that it has
/// few windows.
fn assert_few_windows(rt: &(impl Abort + AllocGlobal + Threads + Wait + Sync), gate: &Book) {
    let mut trace = MemorySink::new(rt.alloc());
    let parts = [0, 0, 1, 1, 2, 2, 3, 3];
    let outcome = run_result(rt, gate, FOUR_SITES, &parts, &mut trace);
    assert!(rt; outcome.is_ok());
    let scenario = read(rt.alloc(), FOUR_SITES.as_bytes()).expect(rt, "scenario");
    let mut one_trace = MemorySink::new(rt.alloc());
    let mut one_report = MemorySink::new(rt.alloc());
    let as_one = run_by(rt, Way::AsOne, &scenario, &mut one_trace, &mut one_report);
    assert!(rt; as_one == outcome);
    assert!(rt; trace.bytes() == one_trace.bytes());
    assert!(rt; gate.wrong() == 0);
    let windows = gate.windows();
    assert!(rt; 1 < windows && windows < 50, "{windows} windows");
}

/// By site each of the four parts runs some hundred ticks by itself, so there are some thirty windows of each. Below
/// a common bound one tick past what pends first there would be hundreds.
#[test]
fn parts_of_far_sites_have_few_windows(rt: HostRuntime) -> Result<(), Fail> {
    for workers in [1, 2, 3, 4] {
        let gate = Book::new(rt.alloc(), 4, workers, Holding::Nobody)?;
        assert_few_windows(&rt, &gate);
    }
    Ok(())
}
