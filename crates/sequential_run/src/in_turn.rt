//! A divided run on one thread: the parts run their windows one after another, and exchange events after each round.
ghost use Rattle.std.specs.Prelude.{◌≡◌, ◌≢◌, ◌+◌, ◌<◌, ◌≤◌, ◌^◌, length, IfOk, OnOk, IfErr, IsErrOf, All};
ghost use Rattle.std.specs.List.{AllByRecursion};
ghost use Rattle.scenario.specs.Setup.{IsSound, member_count};
ghost use Rattle.trace.specs.Text.{NamesMembers};
ghost use Rattle.member.specs.Opening.{opening};
ghost use Rattle.member_laws.specs.Runs.{IsRunOf, CounterOverflows};
ghost use Rattle.windows.specs.declared.bounded.Bounded.{Bounded as ABounded};
ghost use Rattle.windows.specs.Cluster.{IsLeastDelay};
ghost use Rattle.windows.specs.WorldOf.{world_of};
ghost use Rattle.windows.specs.Window.{IsConsistentPart};
ghost use Rattle.windows.specs.Several.{RanWindows, OneWears};
ghost use Rattle.turns.specs.Course.{IsCourse};
ghost use Rattle.turns.specs.Parts.{StandFor};
ghost use Rattle.run_output.specs.Promise.{KeepsPromise};

use base::{Fault, Moment};
use links::Links;
use member::{Event, StepError};
use run_output::{Summary, write_run};
use scenario::{Division, Scenario};
use std::alloc::Global;
use std::marker::Sync;
use std::thread::Threads;
use trace::{Row, Sink};
use turns::{
    Course, Turned, bounded_in_common, course_of, exchanged, first_moment, join, open_parts,
};
use windows::{Bounded, Cluster, Done, Part};
use worker_queue::EventQueue;

/// Runs the scenario by the parts of a division of its members: window after window, in each the parts one
/// after another, in the order of their numbers. It starts no thread of its own; a sort of a window's rows
/// may be shared by threads. It writes what `run_one` writes, whatever the division is: the trace, and once
/// that is whole and its sink flushed the report, whose sink is flushed too. After a fault the sinks have got
/// a beginning of that.
///
/// Faults: `Memory`; `CounterOverflow` where a counter of the run would pass 2^63; `Write` where a sink failed.
pub fn run_in_turn<A: Sink, B: Sink>(
    rt: &(impl Threads + Sync),
    alloc: Global,
    scenario: &Scenario,
    division: &Division,
    trace: &mut A,
    report: &mut B,
) -> Result<Summary, Fault>
    requires divides { length division.now.part_of ≡ member_count scenario.now }
    requires countable { A.failed trace.old < 2 ^ 63 }
    requires countable_report { B.failed report.old < 2 ^ 63 }

    // The sinks get exactly the trace of the scenario's run, and the report on it; after a fault a beginning of that.
    ensures promise { KeepsPromise A.held A.failed B.held B.failed scenario.now trace.old trace.new report.old report.new result }

    // No fault comes without its cause.
    ensures overflow { IsErrOf result Fault.CounterOverflow → CounterOverflows scenario.now }
    ensures others { IfErr result (λ fault. fault ≢ Fault.Write → A.failed trace.new ≡ A.failed trace.old) }
    ensures relay { IfErr result (λ fault. fault ≢ Fault.ThreadLost) }
{
    let outcome = rows_in_turn(rt, alloc, scenario, division);
    write_run(alloc, outcome, scenario, trace, report)
}

/// All rows of the scenario's run, in the order made.
fn rows_in_turn(
    rt: &(impl Threads + Sync),
    alloc: Global,
    scenario: &Scenario,
    division: &Division,
) -> Result<Vec<Row>, Fault>
    requires divides { length division.now.part_of ≡ member_count scenario.now }
    ensures run { IfOk result (λ rows. IsRunOf scenario.now rows.items) }
    ensures named { IfOk result (λ rows. All (NamesMembers scenario.now) rows.items) }
    ensures overflow { IsErrOf result Fault.CounterOverflow → CounterOverflows scenario.now }
    ensures causes { IfErr result (λ fault. (fault ≢ Fault.Write) × (fault ≢ Fault.ThreadLost)) }
    ensures lasts { OnOk result (¬ (CounterOverflows scenario.now)) }
    ensures sound { IsSound scenario.now }
{
    let _end = scenario.end();
    let links = &Links::of(alloc, scenario)?;
    let parts = open_parts(alloc, scenario, division)?;
    let least_delay = links.least_delay();
    let cluster = Cluster { scenario, links };
    let course = course_of(cluster, division);
    turns_in_turn(rt, alloc, parts, least_delay, &course)
}

/// The rows of the run that begins in these parts, turn after turn.
fn turns_in_turn<Q: EventQueue<Event> + Drop>(
    rt: &(impl Threads + Sync),
    alloc: Global,
    mut parts: Vec<Part<Q>>,
    least_delay: Option<u64>,
    course: &Course,
) -> Result<Vec<Row>, Fault>
    requires course { IsCourse course.now }
    requires least { IsLeastDelay course.now.cluster.scenario.now least_delay }
    requires opened { StandFor Q.set course.now.division.now parts.items (opening course.now.cluster.scenario.now) }
    ensures run { IfOk result (λ rows. IsRunOf course.now.cluster.scenario.now rows.items) }
    ensures overflow { IsErrOf result Fault.CounterOverflow → CounterOverflows course.now.cluster.scenario.now }
    ensures causes { IfErr result (λ fault. (fault ≢ Fault.Write) × (fault ≢ Fault.ThreadLost)) }
    ensures lasts { OnOk result (¬ (CounterOverflows course.now.cluster.scenario.now)) }
{
    let mut rows = Vec::new(alloc);
    let mut kept = Vec::new(alloc);
    let last = course.end.ticks();
    let mut from = 0;
    while from <= last {
        let Some(first) = first_moment(&parts, course.end) else {
            return Ok(rows);
        };
        let bounded = bounded_in_common(alloc, parts, first, least_delay, course)?;
        let done = windows_in_turn(alloc, bounded, course)?;
        let turned = exchanged(rt, alloc, done, kept, course.division)?;
        let Turned {
            parts: after,
            rows: made,
            kept: still_kept,
        } = turned;
        join(&mut rows, made)?;
        parts = after;
        kept = still_kept;
        from = first.ticks() + 1;
    }
    Ok(rows)
}

/// What came of the windows of these parts, run one after another.
fn windows_in_turn<Q: EventQueue<Event> + Drop>(
    alloc: Global,
    parts: Vec<Bounded<Q>>,
    course: &Course,
) -> Result<Vec<Done<Q>>, StepError>
    requires course { IsCourse course.now }
    requires in_time { AllByRecursion (λ (b : ABounded Q). b.bound ≤ course.now.cluster.scenario.now.end + 1) parts.items }
    requires consistent { AllByRecursion (λ (b : ABounded Q). IsConsistentPart course.now.cluster.scenario.now (world_of Q.set b.part)) parts.items }
    ensures ok { IfOk result (λ done. RanWindows Q.set course.now.cluster.scenario.now parts.items done.items) }
    ensures overflow { IsErrOf result StepError.CounterOverflow → OneWears Q.set course.now.cluster.scenario.now parts.items }
{
    let mut all = Vec::new(alloc);
    for bounded in parts {
        let Bounded { part, bound } = bounded;
        let done = part.run(alloc, bound, course.cluster)?;
        all.push(done)?;
    }
    Ok(all)
}
