//! A run whose rows are taken as they come.
ghost use Rattle.std.specs.Prelude.{◌≡◌, ◌≢◌, ◌⊎◌, ◌<◌, ◌^◌, [], ℕ, List, Option, Ok, IfOk, OnOk, IfErr, OnErr, IsErrOf};
ghost use Rattle.std.specs.Io.KnownBytes.{Appends};
ghost use Rattle.scenario.specs.Setup.{IsSound};
ghost use Rattle.trace.specs.Text.{trace_text};
ghost use Rattle.member.specs.Opening.{opening};
ghost use Rattle.member_laws.specs.Runs.{IsRunOf, CounterOverflows};
ghost use Rattle.windows.specs.WorldOf.{world_of};
ghost use Rattle.run_output.specs.Promise.{BeginsTrace, ReportOverflows};
ghost use Rattle.run_output.specs.Written.{HasWritten};

use crate::watching::RunWatch;
use base::{Fault, Moment};
use member::Event;
use reports::Tallies;
use run_output::RowSink;
use scenario::Scenario;
use std::alloc::Global;
use turns::TurnLimit;
use windows::{Cluster, Done, Part};
use worker_queue::EventQueue;

/// Into how many stretches a run is cut at least, where that is some work for each.
const STRETCHES: u64 = 50;

/// For how many ticks a cluster of one member runs where that is some work, about some milliseconds.
const TICKS_OF_WORK: u64 = 4_194_304;

/// Takes the rows of the run that begins in this part, which owns every member: those of one window after another,
/// each as long as its limit lets it be, and the watch gets how far the run has come. What the place holds it has got since it
/// held what it held first.
pub(crate) fn run_stretches<T: RowSink<P>, P, Q: EventQueue<Event> + Drop, W: RunWatch>(
    alloc: Global,
    mut part: Part<Q>,
    cluster: Cluster,
    place: &mut P,
    watch: &mut W,
) -> Result<Tallies, Fault>
    requires sound { IsSound cluster.scenario.now }
    requires opened { world_of Q.set part ≡ opening cluster.scenario.now }
    requires countable { T.failed place.old < 2 ^ 63 }
    requires none_gathered { T.gathered place.old cluster.scenario.now [] }
    ensures run { IfOk result (IsRunOf cluster.entry.scenario.now) }
    ensures whole { (first : Option (List ℕ)) → HasWritten {T = Unit {0}} cluster.entry.scenario.now [] first (T.held place.old) [] (Ok (tt {0}))
        → IfOk result (λ tallies. Appends first (T.held place.new) (trace_text cluster.entry.scenario.now tallies)) }
    ensures part { (first : Option (List ℕ)) → HasWritten {T = Unit {0}} cluster.entry.scenario.now [] first (T.held place.old) [] (Ok (tt {0}))
        → OnErr result (BeginsTrace cluster.entry.scenario.now first (T.held place.new)) }
    ensures gathered { IfOk result (T.gathered place.new cluster.entry.scenario.now) }
    ensures lasts { OnOk result (¬ (CounterOverflows cluster.entry.scenario.now)) }
    ensures lasts_report { OnOk result (¬ (ReportOverflows cluster.entry.scenario.now)) }
    ensures overflow { IsErrOf result Fault.CounterOverflow → CounterOverflows cluster.entry.scenario.now ⊎ ReportOverflows cluster.entry.scenario.now }
    ensures write { IsErrOf result Fault.Write → T.failed place.old < T.failed place.new }
    ensures unfailed { OnOk result (T.failed place.new ≡ T.failed place.old) }
    ensures others { IfErr result (λ fault. fault ≢ Fault.Write → T.failed place.new ≡ T.failed place.old) }
    ensures relay { IfErr result (λ fault. fault ≢ Fault.ThreadLost) }
{
    let mut tallies = Tallies::new(alloc, cluster.scenario);
    let mut limit = TurnLimit::new();
    let last = cluster.scenario.end().ticks();
    let most = longest_stretch(cluster.scenario);
    let mut from = 0;
    let mut room = Vec::new(alloc);
    while from <= last {
        let bound = stretch_end(&limit, from, most);
        let done = part.run_in(alloc, bound, cluster, room)?;
        let Done {
            part: after,
            out: _,
            mut rows,
        } = done;
        limit.adapt(rows.len());
        T::take(alloc, &rows, cluster.scenario, &mut tallies, place)?;
        watch.has_come(bound, cluster.scenario.end());
        rows.clear();
        room = rows;
        part = after;
        from = bound.ticks();
    }
    Ok(tallies)
}

/// How many ticks a stretch of a run may have, however few rows there are: a fiftieth of the run, or more where that is little work.
fn longest_stretch(scenario: &Scenario) -> u64
    ensures { 0 < result }
{
    let members = scenario.members() as u64;
    let some_work = TICKS_OF_WORK / members.max(1);
    (scenario.end().ticks() / STRETCHES).max(some_work).max(1)
}

/// The moment before which the stretch ends that begins at another one: as the limit lets it, and after no more than so many ticks.
fn stretch_end(limit: &TurnLimit, from: u64, most: u64) -> Moment
    requires some { 0 < most }
    requires lasts { from < 2 ^ 63 }
    ensures { from < result }
{
    let bound = limit.end(Moment(from));
    Moment(bound.ticks().min(from.saturating_add(most)))
}
