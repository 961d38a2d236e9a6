//! A run into its sinks: the trace, the report and the page.
ghost use Rattle.std.specs.Prelude.{◌≡◌, ◌⊎◌, ◌<◌, ◌^◌, IfOk, IfErr, IsErrOf, length};
ghost use Rattle.scenario.specs.Setup.{member_count};
ghost use Rattle.member_laws.specs.Runs.{CounterOverflows};
ghost use Rattle.run_output.specs.Promise.{KeepsPromise, ReportOverflows, summed};
ghost use Rattle.page_runs.specs.Promise.{KeepsPagePromise};
ghost use Rattle.page_runs.specs.Tallied.{TalliesRun, rows_tallied};
ghost use Rattle.run_command.specs.Outcomes.{MayEndRun};

use crate::simulator::Simulator;
use base::{Fault, Memory};
use page_runs::{PageData, PageSeries, RunShown, write_page};
use reports::Tallies;
use run_output::{NothingGathered, Summary, TraceAndGathered};
use run_progress::Watched;
use scenario_files::PreparedRun;
use sequential_run::the_run_is_one;
use std::alloc::Global;
use std::io::Write;
use trace::Sink;

/// Runs a scenario, writes its trace and then its report, and gives both sinks back. After a fault they have got a
/// beginning of that. The `watch`, where there is one, gets lines on how far the run has come.
pub(crate) fn run_plain<M: Simulator, A: Sink, B: Sink, P: Write>(
    simulator: &M,
    alloc: Global,
    prepared: &PreparedRun,
    watch: Option<&mut P>,
    trace: A,
    report: B,
) -> (A, B, Result<Summary, Fault>)
    requires ready { M.ready }
    requires divided { length prepared.now.division.part_of ≡ member_count prepared.now.scenario }
    requires countable { A.failed trace < 2 ^ 63 }
    requires countable_report { B.failed report < 2 ^ 63 }

    // The sinks get exactly the trace of the scenario's run, and the report on it; after a fault a beginning of that.
    ensures promise { KeepsPromise A.held A.failed B.held B.failed prepared.now.scenario trace result.0 report result.1 result.2 }

    // No fault comes without its cause.
    ensures cause { IfErr result.2 (MayEndRun prepared.now.scenario (M.loses prepared.now.workers)) }
    ensures overflow { IsErrOf result.2 Fault.CounterOverflow → CounterOverflows prepared.now.scenario ⊎ ReportOverflows prepared.now.scenario }
{
    let gathered = Watched::new(watch, NothingGathered);
    let mut place = TraceAndGathered { trace, gathered };
    let mut report = report;
    let outcome = simulator.simulate(
        alloc,
        &prepared.scenario,
        &prepared.division,
        prepared.workers,
        &mut place,
        &mut report,
    );
    let TraceAndGathered { trace, .. } = place;
    (trace, report, summary_of(outcome))
}

/// What a run did, in short.
fn summary_of(outcome: Result<Tallies, Fault>) -> Result<Summary, Fault>
    ensures { result ≡ summed outcome }
{
    match outcome {
        Ok(tallies) => {
            let rows = tallies.rows();
            Ok(Summary { rows })
        }
        Err(fault) => Err(fault),
    }
}

/// Runs a scenario as `run_plain` does, and gathers what its page goes by.
fn run_gathered<M: Simulator, A: Sink, B: Sink, P: Write>(
    simulator: &M,
    alloc: Global,
    prepared: &PreparedRun,
    watch: Option<&mut P>,
    trace: A,
    report: B,
) -> (A, B, Result<PageData, Fault>)
    requires ready { M.ready }
    requires divided { length prepared.now.division.part_of ≡ member_count prepared.now.scenario }
    requires countable { A.failed trace < 2 ^ 63 }
    requires countable_report { B.failed report < 2 ^ 63 }
    ensures promise { KeepsPromise A.held A.failed B.held B.failed prepared.now.scenario trace result.0 report result.1 (summed (rows_tallied result.2)) }
    ensures told { IfOk result.2 (TalliesRun prepared.now.scenario) }
    ensures cause { IfErr result.2 (MayEndRun prepared.now.scenario (M.loses prepared.now.workers)) }
    ensures overflow { IsErrOf result.2 Fault.CounterOverflow → CounterOverflows prepared.now.scenario ⊎ ReportOverflows prepared.now.scenario }
{
    let _end = prepared.scenario.end();
    let series = match PageSeries::new(alloc, &prepared.scenario) {
        Ok(series) => series,
        Err(Memory) => return (trace, report, Err(Fault::Memory)),
    };
    let gathered = Watched::new(watch, series);
    let mut place = TraceAndGathered { trace, gathered };
    let mut report = report;
    let outcome = simulator.simulate(
        alloc,
        &prepared.scenario,
        &prepared.division,
        prepared.workers,
        &mut place,
        &mut report,
    );
    let TraceAndGathered { trace, gathered } = place;
    let gathered = gathered.gathered;
    match outcome {
        Ok(tallies) => (trace, report, Ok(PageData { tallies, gathered })),
        Err(fault) => (trace, report, Err(fault)),
    }
}

/// Runs a scenario as `run_plain` does, writes its page, which says what `shown` says, once the other two are whole, and
/// gives all three sinks back. After a fault they have got a beginning of that.
pub(crate) fn run_paged<M: Simulator, A: Sink, B: Sink, C: Sink, P: Write>(
    simulator: &M,
    alloc: Global,
    prepared: &PreparedRun,
    shown: &RunShown<'_>,
    watch: Option<&mut P>,
    trace: A,
    report: B,
    page: C,
) -> (A, B, C, Result<Summary, Fault>)
    requires ready { M.ready }
    requires divided { length prepared.now.division.part_of ≡ member_count prepared.now.scenario }
    requires countable { A.failed trace < 2 ^ 63 }
    requires countable_report { B.failed report < 2 ^ 63 }
    requires countable_page { C.failed page < 2 ^ 63 }

    // The sinks get exactly the trace of the scenario's run, the report on it and its page; after a fault a beginning of that.
    ensures promise { KeepsPagePromise A.held A.failed B.held B.failed C.held C.failed shown.now.tick shown.now.name.now shown.now.release.now prepared.now.scenario
        trace result.0 report result.1 page result.2 result.3 }

    // No fault comes without its cause.
    ensures cause { IfErr result.3 (MayEndRun prepared.now.scenario (M.loses prepared.now.workers)) }
    ensures overflow { IsErrOf result.3 Fault.CounterOverflow → CounterOverflows prepared.now.scenario ⊎ ReportOverflows prepared.now.scenario }
{
    let _end = prepared.scenario.end();
    the_run_is_one();
    let mut page = page;
    let (trace, report, outcome) = run_gathered(simulator, alloc, prepared, watch, trace, report);
    match outcome {
        Ok(told) => {
            let paged = write_page(alloc, &prepared.scenario, shown, &told, &mut page);
            (trace, report, page, paged)
        }
        Err(fault) => (trace, report, page, Err(fault)),
    }
}
