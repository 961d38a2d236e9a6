//! The end of a run whose trace was written as its rows came.
ghost use Rattle.std.specs.Prelude.{◌≡◌, ◌≢◌, ◌<◌, ◌^◌, IfOk, OnOk, IfErr, IsErrOf, All};
ghost use Rattle.trace.specs.Text.{NamesMembers};
ghost use Rattle.run_output.specs.Promise.{KeepsPromise, summed};
ghost use Rattle.run_output.specs.Traced.{KeepsTrace};

use crate::writing::{flush, write_tallied};
use base::Fault;
use reports::Tallies;
use scenario::Scenario;
use std::alloc::Global;
use trace::Sink;

/// Ends a run whose rows were written and tallied as they came: flushes the trace's sink, writes the report on the
/// tallied rows, and flushes its sink. After a fault of the run nothing more is written. Returns the tallies.
pub fn end_run<A: Sink, B: Sink>(
    alloc: Global,
    outcome: Result<Tallies, Fault>,
    scenario: &Scenario,
    trace: &mut A,
    report: &mut B,
) -> Result<Tallies, Fault>
    requires named { IfOk outcome (λ tallies. All (NamesMembers scenario.now) tallies) }
    requires countable { OnOk outcome (A.failed trace.old < 2 ^ 63) }
    requires countable_report { B.failed report.old < 2 ^ 63 }

    // Whatever the trace's sink held first: where the run kept what it owes that sink, the whole promise is kept.
    ensures promise { (first : A) → KeepsTrace scenario.now (A.held first) (A.held trace.old) (A.failed first) (A.failed trace.old) outcome
        → KeepsPromise A.held A.failed B.held B.failed scenario.now first trace.new report.old report.new (summed result) }

    // A fault of the run is answered as it came; only the sinks' failures and want of memory are added to its own.
    ensures came { OnOk result (result ≡ outcome) }
    ensures fault { IfErr outcome (λ fault. IsErrOf result fault) }
    ensures overflow { IsErrOf result Fault.CounterOverflow → IsErrOf outcome Fault.CounterOverflow }
    ensures relay { IsErrOf result Fault.ThreadLost → IsErrOf outcome Fault.ThreadLost }
    ensures others { IfErr result (λ fault. fault ≢ Fault.Write → A.failed trace.new ≡ A.failed trace.old) }
{
    let tallies = outcome?;
    flush(trace)?;
    write_tallied(alloc, &tallies, scenario, report)?;
    Ok(tallies)
}
