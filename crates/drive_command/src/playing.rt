//! A drive into its sinks: the trace as its rows come, then the report and the page.
ghost use Rattle.std.specs.Prelude.{◌≡◌, ◌≢◌, ◌+◌, ◌<◌, ◌^◌, [], IfOk, IfErr, OnOk, OnErr, All};
ghost use Rattle.std.specs.Io.KnownBytes.{Appends};
ghost use Rattle.series.specs.Series.{AreSeriesOf};
ghost use Rattle.trace.specs.Text.{NamesMembers, trace_text};
ghost use Rattle.trace.specs.Sinks.{AppendsBeginning};
ghost use Rattle.reports.specs.Text.{report_text};
ghost use Rattle.run_output.specs.Written.{sink_failures};
ghost use Rattle.drive_world.specs.Drives.{DrivesTo};
ghost use Rattle.drive_world.specs.DriveOf.{IsSetting};
ghost use Rattle.drive_world.specs.Ends.{drive_failures};
ghost use Rattle.drive_command.specs.Playing.{AppendsAsked, AppendsBeginningAsked, AreUnfailed, BeginsPageIn, HasShape, HaveShape, LeavesBy, LeavesTraceBy, WritesAll, WritesPageAsked, WritesRest, WritesRestPart, failures_in, failures_of};

use crate::making::Made;
use base::Fault;
use drive_world::{DriveError, Harness, Setting, drive};
use page_runs::{PageData, PageSeries, RunShown, write_page};
use reports::Tallies;
use run_output::{TraceAndGathered, Written, flush, write_tallied};
use scenario::Scenario;
use std::alloc::Global;
use std::io::Write;
use trace::{Put, Sink};

/// Drives the world of a scenario to its end, writes its trace, and then its report and its page where they are asked
/// for, and gives the files back. The series of the page are gathered in any case.
///
/// Errors: those of `drive_world::drive`; then a fault: `Memory`, `Write` where a file failed.
pub(crate) fn play<M: Write + Drop, H: Harness>(
    alloc: Global,
    setting: &Setting<'_>,
    shown: &RunShown<'_>,
    harness: &mut H,
    series: PageSeries,
    made: Made<M>,
) -> (Made<M>, Result<(), DriveError>)
    requires setting { IsSetting setting.now }
    requires untold { H.told harness.old ≡ [] }
    requires ungiven { H.gave harness.old ≡ [] }
    requires none_gathered { AreSeriesOf setting.now.scenario.now series.series [] }
    requires unfailed { AreUnfailed made }
    requires untimed { shown.now.tick ≡ None }
    ensures done { OnOk result.1 (WritesAll M.contents setting.now.scenario.now shown.now.name.now shown.now.release.now
        (H.gave harness.new) (H.told harness.new) made result.0) }
    ensures early { IfErr result.1 (λ error. LeavesBy M.contents setting.now.scenario.now shown.now.name.now shown.now.release.now
        (H.gave harness.new) (H.told harness.new) made result.0 error
        × (error ≡ DriveError.Fault Fault.Write → 0 < failures_in result.0)) }
    ensures shape { HaveShape made result.0 }
    ensures whole { OnOk result.1 (failures_in result.0 ≡ 0) }
{
    let Made {
        trace,
        report,
        page,
    } = made;
    let mut place = TraceAndGathered {
        trace,
        gathered: series,
    };
    match write_trace(alloc, setting, harness, &mut place) {
        Ok(tallies) => {
            let TraceAndGathered { trace, gathered } = place;
            let told = PageData { tallies, gathered };
            let made = Made {
                trace,
                report,
                page,
            };
            write_rest(alloc, setting.scenario, shown, &told, made)
        }
        Err(error) => {
            let TraceAndGathered { trace, .. } = place;
            let made = Made {
                trace,
                report,
                page,
            };
            (made, Err(error))
        }
    }
}

/// Drives the world of a scenario to its end, writes its trace, and flushes its sink.
fn write_trace<A: Sink, H: Harness>(
    alloc: Global,
    setting: &Setting<'_>,
    harness: &mut H,
    place: &mut TraceAndGathered<A, PageSeries>,
) -> Result<Tallies, DriveError>
    requires setting { IsSetting setting.now }
    requires untold { H.told harness.old ≡ [] }
    requires ungiven { H.gave harness.old ≡ [] }
    requires none_gathered { AreSeriesOf setting.now.scenario.now place.old.gathered.series [] }
    requires unfailed { A.failed place.old.trace ≡ 0 }
    ensures done { IfOk result (DrivesTo setting.now.scenario.now (H.gave harness.new) (H.told harness.new)) }
    ensures written { IfOk result (λ tallies. Appends (A.held place.old.trace) (A.held place.new.trace)
        (trace_text setting.now.scenario.now tallies)) }
    ensures named { IfOk result (λ tallies. All (NamesMembers setting.now.scenario.now) tallies) }
    ensures gathered { IfOk result (λ tallies. AreSeriesOf setting.now.scenario.now place.new.gathered.series tallies) }
    ensures early { IfErr result (LeavesTraceBy setting.now.scenario.now (H.gave harness.new) (H.told harness.new)
        (A.held place.old.trace) (A.held place.new.trace)) }
    ensures failures { A.failed place.new.trace ≡ drive_failures result }
{
    let tallies = drive::<H, Written, TraceAndGathered<A, PageSeries>>(
        alloc, setting, harness, place,
    )?;
    match flush(&mut place.trace) {
        Ok(()) => Ok(tallies),
        Err(error) => Err(DriveError::Fault(Fault::from(error))),
    }
}

/// Writes the report and then the page on the rows of a drive, where they are asked for, and gives the files back.
///
/// Errors: a fault: `Memory`; `Write` where a file failed.
fn write_rest<M: Write + Drop>(
    alloc: Global,
    scenario: &Scenario,
    shown: &RunShown<'_>,
    told: &PageData,
    made: Made<M>,
) -> (Made<M>, Result<(), DriveError>)
    requires named { All (NamesMembers scenario.now) told.now.tallies }
    requires gathered { AreSeriesOf scenario.now told.now.gathered.series told.now.tallies }
    requires untimed { shown.now.tick ≡ None }
    requires unfailed { AreUnfailed made }
    ensures done { OnOk result.1 (WritesRest M.contents scenario.now shown.now.name.now shown.now.release.now told.now.tallies made result.0) }
    ensures part { IfErr result.1 (λ error. WritesRestPart M.contents scenario.now shown.now.name.now shown.now.release.now told.now.tallies
        made result.0 error) }
    ensures same { result.0.trace ≡ made.trace }
    ensures shape { HaveShape made result.0 }
    ensures whole { OnOk result.1 (failures_in result.0 ≡ 0) }
    ensures refused { IfErr result.1 (λ error. error ≡ DriveError.Fault Fault.Write → 0 < failures_in result.0) }
{
    let mut made = made;
    match write_report(alloc, scenario, &told.tallies, &mut made.report) {
        Ok(()) => {}
        Err(fault) => return (made, Err(DriveError::Fault(fault))),
    }
    match write_asked(alloc, scenario, shown, told, &mut made.page) {
        Ok(()) => (made, Ok(())),
        Err(fault) => (made, Err(DriveError::Fault(fault))),
    }
}

/// Writes the report, where one is asked for.
fn write_report<M: Write>(
    alloc: Global,
    scenario: &Scenario,
    tallies: &Tallies,
    report: &mut Option<Put<M>>,
) -> Result<(), Fault>
    requires named { All (NamesMembers scenario.now) tallies.now }
    requires unfailed { failures_of report.old ≡ 0 }
    ensures whole { OnOk result (AppendsAsked M.contents (report_text scenario.now tallies.now) report.old report.new) }
    ensures part { OnErr result (AppendsBeginningAsked M.contents (report_text scenario.now tallies.now) report.old report.new) }
    ensures shape { HasShape report.old report.new }
    ensures failures { failures_of report.new ≡ sink_failures result }
{
    match report {
        Some(report) => Ok(write_tallied(alloc, tallies, scenario, report)?),
        None => Ok(()),
    }
}

/// Writes the page, where one is asked for.
fn write_asked<M: Write>(
    alloc: Global,
    scenario: &Scenario,
    shown: &RunShown<'_>,
    told: &PageData,
    page: &mut Option<Put<M>>,
) -> Result<(), Fault>
    requires named { All (NamesMembers scenario.now) told.now.tallies }
    requires gathered { AreSeriesOf scenario.now told.now.gathered.series told.now.tallies }
    requires untimed { shown.now.tick ≡ None }
    requires unfailed { failures_of page.old ≡ 0 }
    ensures whole { OnOk result (WritesPageAsked M.contents shown.now.name.now shown.now.release.now scenario.now told.now.tallies page.old page.new) }
    ensures part { OnErr result (BeginsPageIn M.contents shown.now.name.now shown.now.release.now scenario.now told.now.tallies page.old page.new) }
    ensures shape { HasShape page.old page.new }
    ensures unfailed { OnOk result (failures_of page.new ≡ 0) }
    ensures refused { IfErr result (λ fault. fault ≡ Fault.Write → 0 < failures_of page.new) }
{
    match page {
        Some(page) => match write_page(alloc, scenario, shown, told, page) {
            Ok(_) => Ok(()),
            Err(fault) => Err(fault),
        },
        None => Ok(()),
    }
}
