//! The run over one timer wheel whose rows go to their taker stretch by stretch, so that few are kept at a time.
ghost use Rattle.std.specs.Prelude.{◌≡◌, ◌≢◌, ◌⊎◌, ◌<◌, ◌^◌, [], IfOk, OnOk, IfErr, OnErr, IsErrOf};
ghost use Rattle.std.specs.Io.KnownBytes.{Appends};
ghost use Rattle.trace.specs.Text.{trace_text};
ghost use Rattle.member_laws.specs.Runs.{IsRunOf, CounterOverflows};
ghost use Rattle.run_output.specs.Promise.{BeginsTrace, ReportOverflows};

use crate::stretches::run_stretches;
use crate::watching::RunWatch;
use base::Fault;
use links::Links;
use member::Event;
use reports::Tallies;
use run_output::RowSink;
use scenario::Scenario;
use std::alloc::Global;
use windows::{Cluster, Part};
use worker_queue::WheelQueue;

/// Runs the scenario on this thread, and takes the rows of its run as they come, in the order made. None is kept for
/// longer than a stretch of the run, and nothing is flushed. The watch gets how far it has come. After a fault the place has got a beginning of the trace.
///
/// Faults: `Memory`; `CounterOverflow` where a counter of the run or of the report would pass 2^63; `Write` where the place
/// failed.
pub(crate) fn stream_run<T: RowSink<P>, P, W: RunWatch>(
    alloc: Global,
    scenario: &Scenario,
    place: &mut P,
    watch: &mut W,
) -> Result<Tallies, Fault>
    requires countable { T.failed place.old < 2 ^ 63 }
    requires none_gathered { T.gathered place.old scenario.now [] }
    ensures run { IfOk result (IsRunOf scenario.now) }
    ensures whole { IfOk result (λ tallies. Appends (T.held place.old) (T.held place.new) (trace_text scenario.now tallies)) }
    ensures part { OnErr result (BeginsTrace scenario.now (T.held place.old) (T.held place.new)) }
    ensures gathered { IfOk result (T.gathered place.new scenario.now) }
    ensures lasts { OnOk result (¬ (CounterOverflows scenario.now)) }
    ensures lasts_report { OnOk result (¬ (ReportOverflows scenario.now)) }

    // No fault comes without its cause.
    ensures overflow { IsErrOf result Fault.CounterOverflow → CounterOverflows scenario.now ⊎ ReportOverflows scenario.now }
    ensures write { IsErrOf result Fault.Write → T.failed place.old < T.failed place.new }
    ensures unfailed { OnOk result (T.failed place.new ≡ T.failed place.old) }
    ensures others { IfErr result (λ fault. fault ≢ Fault.Write → T.failed place.new ≡ T.failed place.old) }
    ensures relay { IfErr result (λ fault. fault ≢ Fault.ThreadLost) }
{
    let _end = scenario.end();
    let links = &Links::of(alloc, scenario)?;
    let wheel = WheelQueue::new(alloc)?;
    let part = Part::whole(alloc, scenario, wheel)?;
    T::begin(place)?;
    let cluster = Cluster { scenario, links };
    run_stretches::<T, P, WheelQueue<Event>, W>(alloc, part, cluster, place, watch)
}
