//! What becomes of the rows of a run as they come.
ghost use Rattle.std.specs.Prelude.{◌≡◌, ◌≢◌, ◌+◌, ◌++◌, ◌<◌, ◌≤◌, ◌^◌, [], length, List, None, Option, OnOk, OnErr, IfErr, IsErrOf, All, ℕ};
ghost use Rattle.std.specs.Io.KnownBytes.{Appends};
ghost use Rattle.scenario.specs.Setup.{Setup};
ghost use Rattle.trace.specs.declared.row.Row.{Row as ARow};
ghost use Rattle.trace.specs.Text.{NamesMembers, rows_text};
ghost use Rattle.trace.specs.Sinks.{AppendsBeginning};
ghost use Rattle.run_output.specs.Written.{sink_failures, HasWritten};

use crate::gathering::RowObserver;
use crate::writing::begin_trace;
use base::Fault;
use reports::Tallies;
use scenario::Scenario;
use std::alloc::Global;
use trace::{Row, Sink, write_rows};

/// How the rows of a run are taken: they are tallied, and what is made of them goes to a place.
pub trait RowSink<P> {
    // the bytes that the place holds, where they are known
    ghost held: { P → Option (List ℕ) };

    // how often it has failed
    ghost failed: { P → ℕ };

    // what it has gathered is what these rows of a run of the scenario report
    ghost gathered: { P → Setup → List ARow → Type 0 };

    /// Begins the trace of a run, where one is written: with its header.
    ///
    /// Faults: `Memory`; `Write` where the place failed.
    fn begin(place: &mut P) -> Result<(), Fault>
        requires countable { failed place.old < 2 ^ 63 }
        ensures written { (s : _) → HasWritten s [] (held place.old) (held place.new) [] result }
        ensures gathered { (s : _) (rows : List ARow) → gathered place.old s rows → gathered place.new s rows }
        ensures failures { failed place.new ≡ failed place.old + sink_failures result }
        ensures relay { IfErr result (λ fault. fault ≢ Fault.ThreadLost) };

    /// Tallies the next rows of a run, gathers what is gathered of them, and writes them where they are written.
    ///
    /// Faults: `Memory`; `CounterOverflow` where a count of the report would pass 2^63; `Write` where the place failed.
    fn take(
        alloc: Global,
        rows: &[Row],
        scenario: &Scenario,
        tallies: &mut Tallies,
        place: &mut P,
    ) -> Result<(), Fault>
        requires named { All (NamesMembers scenario.now) rows.now }
        requires countable { failed place.old < 2 ^ 63 }
        requires gathered { gathered place.old scenario.now tallies.old }
        ensures whole { OnOk result (Appends (held place.old) (held place.new) (rows_text scenario.now rows.now)) }
        ensures tallied { OnOk result (tallies.new ≡ tallies.old ++ rows.now) }
        ensures gathered { OnOk result (gathered place.new scenario.now tallies.new) }
        ensures part { OnErr result (AppendsBeginning (held place.old) (held place.new) (rows_text scenario.now rows.now)) }
        ensures lasts { OnOk result (length tallies.new ≤ 2 ^ 63) }
        ensures overflow { IsErrOf result Fault.CounterOverflow → 2 ^ 63 < length (tallies.old ++ rows.now) }
        ensures failures { failed place.new ≡ failed place.old + sink_failures result }
        ensures relay { IfErr result (λ fault. fault ≢ Fault.ThreadLost) };
}

/// Takes the next rows of a run, unless a fault came before: then nothing more is taken.
///
/// Faults: the one that came before; else those of `take`.
pub fn take_on<T: RowSink<P>, P>(
    so_far: Result<(), Fault>,
    alloc: Global,
    rows: &[Row],
    scenario: &Scenario,
    tallies: &mut Tallies,
    place: &mut P,
) -> Result<(), Fault>
    requires named { All (NamesMembers scenario.now) rows.now }
    requires countable { OnOk so_far (T.failed place.old < 2 ^ 63) }
    requires gathered { OnOk so_far (T.gathered place.old scenario.now tallies.old) }
    ensures written { (before : List ARow) (held : Option (List ℕ)) → HasWritten scenario.now before held (T.held place.old) tallies.old so_far
        → HasWritten scenario.now (before ++ rows.now) held (T.held place.new) tallies.new result }
    ensures gathered { OnOk result (T.gathered place.new scenario.now tallies.new) }
    ensures failures { T.failed place.new + sink_failures so_far ≡ T.failed place.old + sink_failures result }
{
    so_far?;
    T::take(alloc, rows, scenario, tallies, place)
}

/// A sink of a trace, and what is gathered of its rows.
#[derive(Drop)]
pub struct TraceAndGathered<A, G> {
    pub trace: A,
    pub gathered: G,
}

/// Rows that are written, and of which something else may be gathered too.
pub struct Written;

impl<A: Sink, G: RowObserver> RowSink<TraceAndGathered<A, G>> for Written {
    ghost held = { λ place. A.held place.trace };

    ghost failed = { λ place. A.failed place.trace };

    ghost gathered = { λ place. G.has place.gathered };

    fn begin(place: &mut TraceAndGathered<A, G>) -> Result<(), Fault> {
        begin_trace(&mut place.trace)
    }

    fn take(
        alloc: Global,
        rows: &[Row],
        scenario: &Scenario,
        tallies: &mut Tallies,
        place: &mut TraceAndGathered<A, G>,
    ) -> Result<(), Fault> {
        place.gathered.add_all(rows, scenario)?;
        write_taken(alloc, rows, scenario, tallies, &mut place.trace)
    }
}

/// Tallies the next rows of a run, and writes them.
///
/// Faults: as of `RowSink::take`.
fn write_taken<A: Sink>(
    alloc: Global,
    rows: &[Row],
    scenario: &Scenario,
    tallies: &mut Tallies,
    trace: &mut A,
) -> Result<(), Fault>
    requires named { All (NamesMembers scenario.now) rows.now }
    requires countable { A.failed trace.old < 2 ^ 63 }
    ensures whole { OnOk result (Appends (A.held trace.old) (A.held trace.new) (rows_text scenario.now rows.now)) }
    ensures tallied { OnOk result (tallies.new ≡ tallies.old ++ rows.now) }
    ensures part { OnErr result (AppendsBeginning (A.held trace.old) (A.held trace.new) (rows_text scenario.now rows.now)) }
    ensures lasts { OnOk result (length tallies.new ≤ 2 ^ 63) }
    ensures overflow { IsErrOf result Fault.CounterOverflow → 2 ^ 63 < length (tallies.old ++ rows.now) }
    ensures failures { A.failed trace.new ≡ A.failed trace.old + sink_failures result }
    ensures relay { IfErr result (λ fault. fault ≢ Fault.ThreadLost) }
{
    tallies.add_all(rows)?;
    Ok(write_rows(alloc, rows, scenario, trace)?)
}

/// Rows that are tallied alone.
pub struct TalliedAlone;

impl RowSink<()> for TalliedAlone {
    ghost held = { λ _. None };

    ghost failed = { λ _. 0 };

    ghost gathered = { λ _ _ _. Unit {0} };

    fn begin(_place: &mut ()) -> Result<(), Fault> {
        Ok(())
    }

    fn take(
        _alloc: Global,
        rows: &[Row],
        _scenario: &Scenario,
        tallies: &mut Tallies,
        _place: &mut (),
    ) -> Result<(), Fault> {
        tallies.add_all(rows)
    }
}
