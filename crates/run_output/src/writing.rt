//! The trace and the report of a run, on their way into the sinks.
ghost use Rattle.std.specs.Prelude.{◌≡◌, ◌≢◌, ◌+◌, ◌<◌, ◌^◌, [], IfOk, OnOk, IfErr, OnErr, IsErrOf, All};
ghost use Rattle.std.specs.Io.KnownBytes.{Appends, Keeps};
ghost use Rattle.scenario.specs.Setup.{IsSound};
ghost use Rattle.trace.specs.Sinks.{AppendsBeginning, failures_of_write};
ghost use Rattle.trace.specs.Text.{NamesMembers, trace_text};
ghost use Rattle.reports.specs.Text.{report_text};
ghost use Rattle.member_laws.specs.Runs.{IsRunOf, CounterOverflows};
ghost use Rattle.run_output.specs.Promise.{KeepsPromise};
ghost use Rattle.run_output.specs.Written.{sink_failures, HasWritten};

use crate::summary::Summary;
use base::Fault;
use reports::{Tallies, report, report_on};
use scenario::Scenario;
use std::alloc::Global;
use trace::{Row, Sink, WriteError, put_all, write_head, write_rows};

/// Writes what came of a run: its trace, and then its report, as `run_one` says.
pub fn write_run<A: Sink, B: Sink>(
    alloc: Global,
    outcome: Result<Vec<Row>, Fault>,
    scenario: &Scenario,
    trace: &mut A,
    report: &mut B,
) -> Result<Summary, Fault>
    requires run { IfOk outcome (λ rows. IsRunOf scenario.now rows.items) }
    requires named { IfOk outcome (λ rows. All (NamesMembers scenario.now) rows.items) }
    requires overflow { IsErrOf outcome Fault.CounterOverflow → CounterOverflows scenario.now }
    requires no_writes { IfErr outcome (λ fault. (fault ≢ Fault.Write) × (fault ≢ Fault.ThreadLost)) }
    requires lasts { OnOk outcome (¬ (CounterOverflows scenario.now)) }
    requires sound { IsSound scenario.now }
    requires countable { A.failed trace.old < 2 ^ 63 }
    requires countable_report { B.failed report.old < 2 ^ 63 }

    // The sinks get exactly the trace of the scenario's run, and the report on it; after a fault a beginning of that.
    ensures promise { KeepsPromise A.held A.failed B.held B.failed scenario.now trace.old trace.new report.old report.new result }

    // No fault comes without its cause, and one of the run is answered as it came.
    ensures fault { IfErr outcome (λ fault. IsErrOf result fault) }
    ensures overflow { IsErrOf result Fault.CounterOverflow → CounterOverflows scenario.now }
    ensures others { IfErr result (λ fault. fault ≢ Fault.Write → A.failed trace.new ≡ A.failed trace.old) }
    ensures relay { IfErr result (λ fault. fault ≢ Fault.ThreadLost) }
{
    let rows = outcome?;
    write_trace(alloc, &rows, scenario, trace)?;
    write_report(alloc, &rows, scenario, report)?;
    Ok(Summary {
        rows: rows.len() as u64,
    })
}

/// Writes the header of the trace. Faults: `Memory`; `Write` where the sink failed.
pub(crate) fn begin_trace<A: Sink>(trace: &mut A) -> Result<(), Fault>
    requires countable { A.failed trace.old < 2 ^ 63 }
    ensures written { (s : _) → HasWritten s [] (A.held trace.old) (A.held trace.new) [] result }
    ensures failures { A.failed trace.new ≡ A.failed trace.old + sink_failures result }
    ensures relay { IfErr result (λ fault. fault ≢ Fault.ThreadLost) }
{
    Ok(write_head(trace)?)
}

/// Writes the whole trace, and flushes the sink.
fn write_trace<A: Sink>(
    alloc: Global,
    rows: &[Row],
    scenario: &Scenario,
    trace: &mut A,
) -> Result<(), WriteError>
    requires named { All (NamesMembers scenario.now) rows.now }
    requires countable { A.failed trace.old < 2 ^ 63 }
    ensures whole { OnOk result (Appends (A.held trace.old) (A.held trace.new) (trace_text scenario.now rows.now)) }
    ensures part { OnErr result (AppendsBeginning (A.held trace.old) (A.held trace.new) (trace_text scenario.now rows.now)) }
    ensures failures { A.failed trace.new ≡ A.failed trace.old + failures_of_write result }
{
    write_head(trace)?;
    write_rows(alloc, rows, scenario, trace)?;
    flush(trace)
}

/// Writes the whole report, and flushes the sink.
fn write_report<B: Sink>(
    alloc: Global,
    rows: &[Row],
    scenario: &Scenario,
    report: &mut B,
) -> Result<(), WriteError>
    requires named { All (NamesMembers scenario.now) rows.now }
    requires countable { B.failed report.old < 2 ^ 63 }
    ensures whole { OnOk result (Appends (B.held report.old) (B.held report.new) (report_text scenario.now rows.now)) }
    ensures part { OnErr result (AppendsBeginning (B.held report.old) (B.held report.new) (report_text scenario.now rows.now)) }
    ensures failures { B.failed report.new ≡ B.failed report.old + failures_of_write result }
{
    let text = report_on(alloc, rows, scenario)?;
    put_whole(text.as_slice(), report)
}

/// Writes the whole report on the rows that were tallied, and flushes the sink.
pub fn write_tallied<B: Sink>(
    alloc: Global,
    tallies: &Tallies,
    scenario: &Scenario,
    sink: &mut B,
) -> Result<(), WriteError>
    requires named { All (NamesMembers scenario.now) tallies.now }
    requires countable { B.failed sink.old < 2 ^ 63 }
    ensures whole { OnOk result (Appends (B.held sink.old) (B.held sink.new) (report_text scenario.now tallies.now)) }
    ensures part { OnErr result (AppendsBeginning (B.held sink.old) (B.held sink.new) (report_text scenario.now tallies.now)) }
    ensures failures { B.failed sink.new ≡ B.failed sink.old + failures_of_write result }
{
    let text = report(alloc, tallies, scenario)?;
    put_whole(text.as_slice(), sink)
}

/// Writes a whole text, and flushes the sink.
fn put_whole<S: Sink>(text: &[u8], sink: &mut S) -> Result<(), WriteError>
    requires countable { S.failed sink.old < 2 ^ 63 }
    ensures whole { OnOk result (Appends (S.held sink.old) (S.held sink.new) text.now) }
    ensures part { OnErr result (AppendsBeginning (S.held sink.old) (S.held sink.new) text.now) }
    ensures failures { S.failed sink.new ≡ S.failed sink.old + failures_of_write result }
{
    put_all(text, sink)?;
    flush(sink)
}

/// Has a sink hand on what it took.
pub fn flush<S: Sink>(sink: &mut S) -> Result<(), WriteError>
    requires countable { S.failed sink.old < 2 ^ 63 }
    ensures same { Keeps (S.held sink.old) (S.held sink.new) }
    ensures failures { S.failed sink.new ≡ S.failed sink.old + failures_of_write result }
{
    Ok(sink.flush()?)
}
