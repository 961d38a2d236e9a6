//! A run, and the files that take its trace and its report.
ghost use Rattle.std.specs.Prelude.{◌≡◌, ◌<◌, Some, None, IfOk, IfErr, OnOk, length};
ghost use Rattle.scenario.specs.Setup.{member_count};
ghost use Rattle.run_command.specs.Outcomes.{StoresRun, StoreFails, DifferentFiles, EndsWithCause, MayEndRun};

use crate::nowhere::Nowhere;
use crate::simulating::run_plain;
use crate::simulator::Simulator;
use command_line::{Failure, RunWords};
use files::{Files, PairFault};
use run_output::Summary;
use scenario_files::{PreparedRun, file_failure, run_result};
use std::alloc::Global;
use std::io::Write;
use trace::Put;

/// Runs a scenario, and writes its trace to the file that the words name. Its report goes nowhere.
pub(crate) fn store_trace<'a, M: Simulator, F: Files, P: Write>(
    simulator: &M,
    alloc: Global,
    prepared: &PreparedRun,
    words: RunWords<'a>,
    watch: Option<&mut P>,
    files: &mut F,
) -> Result<Summary, Failure<'a>>
    requires ready { M.ready }
    requires divided { length prepared.now.division.part_of ≡ member_count prepared.now.scenario }
    ensures done { IfOk result (λ summary. StoresRun prepared.now.scenario (F.known files.old) (F.known files.new)
        words.entry.trace.now None summary.rows) }
    ensures apart { OnOk result (DifferentFiles (F.making files.old) words.entry.file.now words.entry.trace.now None) }
    ensures whole { OnOk result (F.refused files.new ≡ F.refused files.old) }
    ensures failed { IfErr result (StoreFails
        (EndsWithCause (F.refused files.old < F.refused files.new) (MayEndRun prepared.now.scenario (M.loses prepared.now.workers)))
        prepared.now.scenario (F.known files.old) (F.known files.new)
        (F.making files.old) words.entry.file.now words.entry.trace.now None) }
{
    let made = match files.make(words.file, words.trace) {
        Ok(made) => made,
        Err(fault) => return Err(file_failure(fault, words.trace)),
    };
    let made = Put::new(made);
    let (made, _nowhere, outcome) = run_plain(simulator, alloc, prepared, watch, made, Nowhere);
    files.close(words.trace, made);
    run_result(outcome)
}

/// Runs a scenario, and writes its trace to the file that the words name and its report to another. Either both
/// are made or neither is.
pub(crate) fn store_both<'a, M: Simulator, F: Files, P: Write>(
    simulator: &M,
    alloc: Global,
    prepared: &PreparedRun,
    words: RunWords<'a>,
    report: &'a str,
    watch: Option<&mut P>,
    files: &mut F,
) -> Result<Summary, Failure<'a>>
    requires ready { M.ready }
    requires divided { length prepared.now.division.part_of ≡ member_count prepared.now.scenario }
    ensures done { IfOk result (λ summary. StoresRun prepared.now.scenario (F.known files.old) (F.known files.new)
        words.entry.trace.now (Some report.entry.now) summary.rows) }
    ensures apart { OnOk result (DifferentFiles (F.making files.old) words.entry.file.now words.entry.trace.now
        (Some report.entry.now)) }
    ensures whole { OnOk result (F.refused files.new ≡ F.refused files.old) }
    ensures failed { IfErr result (StoreFails
        (EndsWithCause (F.refused files.old < F.refused files.new) (MayEndRun prepared.now.scenario (M.loses prepared.now.workers)))
        prepared.now.scenario (F.known files.old) (F.known files.new)
        (F.making files.old) words.entry.file.now words.entry.trace.now (Some report.entry.now)) }
{
    let (made_trace, made_report) = match files.make_both(words.file, words.trace, report) {
        Ok(made) => made,
        Err(PairFault::First) => return Err(Failure::File(words.trace)),
        Err(PairFault::Second) => return Err(Failure::File(report)),
        Err(PairFault::Memory) => return Err(Failure::Memory),
    };
    let made_trace = Put::new(made_trace);
    let made_report = Put::new(made_report);
    let (made_trace, made_report, outcome) = run_plain(
        simulator,
        alloc,
        prepared,
        watch,
        made_trace,
        made_report,
    );
    files.close(words.trace, made_trace);
    files.close(report, made_report);
    run_result(outcome)
}
