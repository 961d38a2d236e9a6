//! Runs over one set of pending events that write each row as it comes and the report at the end, and may gather more
//! of the rows.
ghost use Rattle.std.specs.Prelude.{◌≡◌, ◌≢◌, ◌⊎◌, ◌<◌, ◌^◌, [], IfOk, OnOk, IfErr, IsErrOf, All};
ghost use Rattle.trace.specs.Text.{NamesMembers};
ghost use Rattle.member_laws.specs.Runs.{IsRunOf, CounterOverflows};
ghost use Rattle.run_output.specs.Promise.{KeepsPromise, ReportOverflows, summed};

use crate::streaming::stream_run;
use crate::watching::Unwatched;
use base::Fault;
use reports::Tallies;
use run_output::{RowObserver, TraceAndGathered, Written, end_run};
use scenario::Scenario;
use std::alloc::Global;
use trace::Sink;

/// Runs the scenario on this thread, with one set of pending events, and writes its trace as its rows come; an observer
/// gathers of them what it does. Once the whole trace is written and its sink flushed, it writes the report, and flushes
/// that sink too. After a fault the sinks have got a beginning of that. Returns the tallies of the rows.
///
/// Faults: `Memory`; `CounterOverflow` where a counter of the run or of the report would pass 2^63; `Write` where a sink
/// failed.
pub fn run_streamed<A: Sink, B: Sink, C: RowObserver>(
    alloc: Global,
    scenario: &Scenario,
    place: &mut TraceAndGathered<A, C>,
    report: &mut B,
) -> Result<Tallies, Fault>
    requires countable { A.failed place.old.trace < 2 ^ 63 }
    requires countable_report { B.failed report.old < 2 ^ 63 }
    requires none_gathered { C.has place.old.gathered scenario.now [] }

    // The sinks get exactly the trace of the scenario's run, and the report on it; after a fault a beginning of that.
    ensures promise { KeepsPromise A.held A.failed B.held B.failed scenario.now place.old.trace place.new.trace report.old report.new (summed result) }

    // The rows of the run are tallied, and what was gathered is what they report.
    ensures run { IfOk result (IsRunOf scenario.now) }
    ensures named { IfOk result (All (NamesMembers scenario.now)) }
    ensures gathered { IfOk result (C.has place.new.gathered scenario.now) }

    // No fault comes without its cause.
    ensures lasts_report { OnOk result (¬ (ReportOverflows scenario.now)) }
    ensures overflow { IsErrOf result Fault.CounterOverflow → CounterOverflows scenario.now ⊎ ReportOverflows scenario.now }
    ensures others { IfErr result (λ fault. fault ≢ Fault.Write → A.failed place.new.trace ≡ A.failed place.old.trace) }
    ensures relay { IfErr result (λ fault. fault ≢ Fault.ThreadLost) }
{
    let _end = scenario.end();
    let outcome = stream_run::<Written, TraceAndGathered<A, C>, Unwatched>(
        alloc,
        scenario,
        place,
        &mut Unwatched,
    );
    end_run(alloc, outcome, scenario, &mut place.trace, report)
}
