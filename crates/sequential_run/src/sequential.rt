//! The plainest run: one part owns all members, one window goes to the end, and the rows are kept until all are made.
ghost use Rattle.std.specs.Prelude.{◌≡◌, ◌≢◌, ◌+◌, ◌<◌, ◌^◌, IfOk, OnOk, IfErr, IsErrOf, All};
ghost use Rattle.scenario.specs.Setup.{IsSound};
ghost use Rattle.trace.specs.Text.{NamesMembers};
ghost use Rattle.member_laws.specs.Runs.{IsRunOf, CounterOverflows};
ghost use Rattle.run_output.specs.Promise.{KeepsPromise};

use base::{Fault, Moment};
use links::Links;
use run_output::{Summary, write_run};
use scenario::Scenario;
use std::alloc::Global;
use trace::{Row, Sink};
use windows::{Cluster, Done, Part};
use worker_queue::TreeQueue;

/// Runs the scenario on one thread, with one set of pending events, and writes its trace. Once the whole
/// trace is written and its sink flushed, it writes the report, and flushes that sink too. After a fault the
/// sinks have got a beginning of that.
///
/// Faults: `Memory`; `CounterOverflow` where a counter of the run would pass 2^63; `Write` where a sink failed.
pub fn run_one<A: Sink, B: Sink>(
    alloc: Global,
    scenario: &Scenario,
    trace: &mut A,
    report: &mut B,
) -> Result<Summary, Fault>
    requires countable { A.failed trace.old < 2 ^ 63 }
    requires countable_report { B.failed report.old < 2 ^ 63 }

    // The sinks get exactly the trace of the scenario's run, and the report on it; after a fault a beginning of that.
    ensures promise { KeepsPromise A.held A.failed B.held B.failed scenario.now trace.old trace.new report.old report.new result }

    // No fault comes without its cause.
    ensures overflow { IsErrOf result Fault.CounterOverflow → CounterOverflows scenario.now }
    ensures others { IfErr result (λ fault. fault ≢ Fault.Write → A.failed trace.new ≡ A.failed trace.old) }
    ensures relay { IfErr result (λ fault. fault ≢ Fault.ThreadLost) }
{
    let outcome = rows_of_whole(alloc, scenario);
    write_run(alloc, outcome, scenario, trace, report)
}

/// All rows of the scenario's run, in the order made: those of the window of one part, which owns every
/// member, up to the end.
pub(crate) fn rows_of_whole(alloc: Global, scenario: &Scenario) -> Result<Vec<Row>, Fault>
    ensures run { IfOk result (λ rows. IsRunOf scenario.now rows.items) }
    ensures named { IfOk result (λ rows. All (NamesMembers scenario.now) rows.items) }
    ensures overflow { IsErrOf result Fault.CounterOverflow → CounterOverflows scenario.now }
    ensures causes { IfErr result (λ fault. (fault ≢ Fault.Write) × (fault ≢ Fault.ThreadLost)) }
    ensures lasts { OnOk result (¬ (CounterOverflows scenario.now)) }
    ensures sound { IsSound scenario.now }
{
    let past_the_end = Moment(scenario.end().ticks() + 1);
    let links = &Links::of(alloc, scenario)?;
    let part = Part::whole(alloc, scenario, TreeQueue::new(alloc))?;
    let cluster = Cluster { scenario, links };
    let done = part.run(alloc, past_the_end, cluster)?;
    let Done {
        part: _,
        out: _,
        rows,
    } = done;
    Ok(rows)
}
