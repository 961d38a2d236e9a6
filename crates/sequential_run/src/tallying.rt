//! A run that only tallies its rows and writes none: the report follows from the tallies.
ghost use Rattle.std.specs.Prelude.{◌≢◌, ◌⊎◌, IfOk, OnOk, IfErr, IsErrOf, All};
ghost use Rattle.trace.specs.Text.{NamesMembers};
ghost use Rattle.member_laws.specs.Runs.{IsRunOf, CounterOverflows};
ghost use Rattle.run_output.specs.Promise.{ReportOverflows};

use crate::streaming::stream_run;
use crate::watching::RunWatch;
use base::Fault;
use reports::Tallies;
use run_output::TalliedAlone;
use scenario::Scenario;
use std::alloc::Global;

/// Runs the scenario on this thread, and tallies the rows of its run as they come, in the order made. None is
/// kept for longer than a stretch of the run, and none is written. The watch gets how far the run has come. `reports::report` makes of the tallies the
/// report that `run_one` writes.
///
/// Faults: `Memory`; `CounterOverflow` where a counter of the run, or a count of the tallies, would pass 2^63.
pub fn tally_run<W: RunWatch>(
    alloc: Global,
    scenario: &Scenario,
    watch: &mut W,
) -> Result<Tallies, Fault>
    ensures run { IfOk result (λ tallies. IsRunOf scenario.now tallies) }
    ensures named { IfOk result (λ tallies. All (NamesMembers scenario.now) tallies) }
    ensures lasts { OnOk result (¬ (CounterOverflows scenario.now)) }
    ensures lasts_report { OnOk result (¬ (ReportOverflows scenario.now)) }

    // No fault comes without its cause.
    ensures overflow { IsErrOf result Fault.CounterOverflow → CounterOverflows scenario.now ⊎ ReportOverflows scenario.now }
    ensures causes { IfErr result (λ fault. (fault ≢ Fault.Write) × (fault ≢ Fault.ThreadLost)) }
{
    let _end = scenario.end();
    let tallies = stream_run::<TalliedAlone, (), W>(alloc, scenario, &mut (), watch)?;
    Ok(tallies)
}
