//! A run, and the files that take its trace, its report and its page.
ghost use Rattle.std.specs.Prelude.{◌≡◌, ◌<◌, Some, None, IfOk, IfErr, OnOk, length};
ghost use Rattle.scenario.specs.Setup.{member_count};
ghost use Rattle.run_command.specs.Outcomes.{StoresPaged, PagedFails, DifferentPaged, EndsWithCause, MayEndRun};

use crate::nowhere::Nowhere;
use crate::simulating::run_paged;
use crate::simulator::Simulator;
use command_line::{Failure, RunWords};
use files::{Files, PairFault, TripleFault};
use page_runs::RunShown;
use run_output::Summary;
use scenario_files::{PreparedRun, run_result};
use std::alloc::Global;
use std::io::Write;
use trace::Put;

/// Runs a scenario, and writes its trace to the file that the words name and its page to another. Its report goes
/// nowhere. Either both are made or neither is.
pub(crate) fn store_two<'a, M: Simulator, F: Files, P: Write>(
    simulator: &M,
    alloc: Global,
    prepared: &PreparedRun,
    words: RunWords<'a>,
    shown: &RunShown<'_>,
    page: &'a str,
    watch: Option<&mut P>,
    files: &mut F,
) -> Result<Summary, Failure<'a>>
    requires ready { M.ready }
    requires divided { length prepared.now.division.part_of ≡ member_count prepared.now.scenario }
    requires named { shown.now.name.now ≡ words.file.now }
    ensures done { IfOk result (λ summary. StoresPaged prepared.now.scenario shown.now.tick words.entry.file.now shown.now.release.now (F.known files.old) (F.known files.new)
        words.entry.trace.now None page.entry.now summary.rows) }
    ensures apart { OnOk result (DifferentPaged (F.making files.old) words.entry.file.now words.entry.trace.now None page.entry.now) }
    ensures whole { OnOk result (F.refused files.new ≡ F.refused files.old) }
    ensures failed { IfErr result (PagedFails
        (EndsWithCause (F.refused files.old < F.refused files.new) (MayEndRun prepared.now.scenario (M.loses prepared.now.workers)))
        prepared.now.scenario shown.now.tick shown.now.release.now
        (F.known files.old) (F.known files.new) (F.making files.old) words.entry.file.now words.entry.trace.now None page.entry.now) }
{
    let (made_trace, made_page) = match files.make_both(words.file, words.trace, page) {
        Ok(made) => made,
        Err(PairFault::First) => return Err(Failure::File(words.trace)),
        Err(PairFault::Second) => return Err(Failure::File(page)),
        Err(PairFault::Memory) => return Err(Failure::Memory),
    };
    let made_trace = Put::new(made_trace);
    let made_page = Put::new(made_page);
    let (made_trace, _nowhere, made_page, outcome) = run_paged(
        simulator, alloc, prepared, shown, watch, made_trace, Nowhere, made_page,
    );
    files.close(words.trace, made_trace);
    files.close(page, made_page);
    run_result(outcome)
}

/// Runs a scenario, and writes its trace to the file that the words name, its report to another and its page to a third.
/// Either all are made or none is.
pub(crate) fn store_three<'a, M: Simulator, F: Files, P: Write>(
    simulator: &M,
    alloc: Global,
    prepared: &PreparedRun,
    words: RunWords<'a>,
    shown: &RunShown<'_>,
    report: &'a str,
    page: &'a str,
    watch: Option<&mut P>,
    files: &mut F,
) -> Result<Summary, Failure<'a>>
    requires ready { M.ready }
    requires divided { length prepared.now.division.part_of ≡ member_count prepared.now.scenario }
    requires named { shown.now.name.now ≡ words.file.now }
    ensures done { IfOk result (λ summary. StoresPaged prepared.now.scenario shown.now.tick words.entry.file.now shown.now.release.now (F.known files.old) (F.known files.new)
        words.entry.trace.now (Some report.entry.now) page.entry.now summary.rows) }
    ensures apart { OnOk result (DifferentPaged (F.making files.old) words.entry.file.now words.entry.trace.now (Some report.entry.now) page.entry.now) }
    ensures whole { OnOk result (F.refused files.new ≡ F.refused files.old) }
    ensures failed { IfErr result (PagedFails
        (EndsWithCause (F.refused files.old < F.refused files.new) (MayEndRun prepared.now.scenario (M.loses prepared.now.workers)))
        prepared.now.scenario shown.now.tick shown.now.release.now
        (F.known files.old) (F.known files.new) (F.making files.old) words.entry.file.now words.entry.trace.now (Some report.entry.now) page.entry.now) }
{
    let (made_trace, made_report, made_page) = match files.make_three(
        words.file,
        words.trace,
        report,
        page,
    ) {
        Ok(made) => made,
        Err(TripleFault::First) => return Err(Failure::File(words.trace)),
        Err(TripleFault::Second) => return Err(Failure::File(report)),
        Err(TripleFault::Third) => return Err(Failure::File(page)),
        Err(TripleFault::Memory) => return Err(Failure::Memory),
    };
    let made_trace = Put::new(made_trace);
    let made_report = Put::new(made_report);
    let made_page = Put::new(made_page);
    let (made_trace, made_report, made_page, outcome) = run_paged(
        simulator,
        alloc,
        prepared,
        shown,
        watch,
        made_trace,
        made_report,
        made_page,
    );
    files.close(words.trace, made_trace);
    files.close(report, made_report);
    files.close(page, made_page);
    run_result(outcome)
}
