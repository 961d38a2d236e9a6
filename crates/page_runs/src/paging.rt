//! The page of a run, written once its rows were gathered.
ghost use Rattle.std.specs.Prelude.{◌≡◌, ◌≢◌, ◌+◌, ◌<◌, ◌^◌, length, All, IfOk, IfErr, OnOk, OnErr, IsErrOf, string_bytes};
ghost use Rattle.std.specs.Io.KnownBytes.{Appends};
ghost use Rattle.series.specs.Series.{AreSeriesOf};
ghost use Rattle.trace.specs.Sinks.{AppendsBeginning, failure_if_stopped};
ghost use Rattle.trace.specs.Text.{NamesMembers};
ghost use Rattle.page_runs.specs.Pages.{IsPageOf, WritesPage, BeginsPage};

use crate::page_data::PageData;
use base::{Fault, Memory};
use run_output::Summary;
use run_page::{Run, page};
use scenario::Scenario;
use std::alloc::Global;
use ticks::Tick;
use trace::{Sink, Stopped, put_all};

/// What the page of a run shows apart from what happened.
#[derive(Clone, Copy, Debug, PartialEq, Eq)]
pub struct RunShown<'a> {
    /// What the scenario is called, as its file's name.
    pub name: &'a str,
    /// The release of the program that runs it.
    pub release: &'a str,
    /// How long a tick lasts, where that is known.
    pub tick: Option<Tick>,
}

/// Writes the page of a run by what was gathered of its rows, flushes its sink, and sums the run up.
///
/// Faults: `Memory`; `Write` where the sink failed.
pub fn write_page<C: Sink>(
    alloc: Global,
    scenario: &Scenario,
    shown: &RunShown<'_>,
    page_data: &PageData,
    out: &mut C,
) -> Result<Summary, Fault>
    requires named { All (NamesMembers scenario.now) page_data.now.tallies }
    requires gathered { AreSeriesOf scenario.now page_data.now.gathered.series page_data.now.tallies }
    requires countable { C.failed out.old < 2 ^ 63 }
    ensures rows { IfOk result (λ summary. summary.rows ≡ length page_data.now.tallies) }
    ensures whole { OnOk result (WritesPage shown.now.tick shown.now.name.now shown.now.release.now scenario.now page_data.now.tallies (C.held out.old) (C.held out.new)) }
    ensures part { OnErr result (BeginsPage shown.now.tick shown.now.name.now shown.now.release.now scenario.now page_data.now.tallies (C.held out.old) (C.held out.new)) }
    ensures unfailed { OnOk result (C.failed out.new ≡ C.failed out.old) }
    ensures write { IsErrOf result Fault.Write → C.failed out.old < C.failed out.new }
    ensures others { IfErr result (λ cause. cause ≢ Fault.Write → C.failed out.new ≡ C.failed out.old) }
    ensures causes { IfErr result (λ cause. (cause ≢ Fault.CounterOverflow) × (cause ≢ Fault.ThreadLost)) }
{
    let text = page_of(alloc, scenario, shown, page_data)?;
    match put_page(text.as_bytes(), out) {
        Ok(()) => Ok(Summary {
            rows: page_data.tallies.rows(),
        }),
        Err(Stopped) => Err(Fault::Write),
    }
}

/// Puts a whole text, and flushes the sink.
fn put_page<C: Sink>(text: &[u8], out: &mut C) -> Result<(), Stopped>
    requires countable { C.failed out.old < 2 ^ 63 }
    ensures whole { OnOk result (Appends (C.held out.old) (C.held out.new) text.now) }
    ensures part { OnErr result (AppendsBeginning (C.held out.old) (C.held out.new) text.now) }
    ensures failures { C.failed out.new ≡ C.failed out.old + failure_if_stopped result }
{
    put_all(text, out)?;
    out.flush()
}

/// The page of a run.
fn page_of(
    alloc: Global,
    scenario: &Scenario,
    shown: &RunShown<'_>,
    page_data: &PageData,
) -> Result<String, Memory>
    requires named { All (NamesMembers scenario.now) page_data.now.tallies }
    requires gathered { AreSeriesOf scenario.now page_data.now.gathered.series page_data.now.tallies }
    ensures { IfOk result (λ text. IsPageOf shown.now.tick shown.now.name.now scenario.now page_data.now.tallies shown.now.release.now (string_bytes text)) }
{
    let run = Run {
        name: shown.name,
        release: shown.release,
        scenario,
        series: &page_data.gathered.series,
        tallies: &page_data.tallies,
        tick: shown.tick,
    };
    page(alloc, &run)
}
