//! The run of the scenario of a file.
ghost use Rattle.std.specs.Prelude.{◌≡◌, ◌<◌, false, length, IfOk, IfErr, OnOk};
ghost use Rattle.scenario.specs.Setup.{member_count};
ghost use Rattle.run_command.specs.Outcomes.{AreApart, EndsWithCause, FailsAsked, MayEndRun, RunsAll, RunFails, StoresAsked};

use crate::paging::{store_three, store_two};
use crate::simulator::Simulator;
use crate::storing::{store_both, store_trace};
use command_line::{Failure, Release, RunWords};
use files::Files;
use page_runs::RunShown;
use run_output::Summary;
use scenario_files::{PreparedRun, prepare};
use std::alloc::Global;
use std::io::Write;

/// Runs the scenario of one file, and writes its trace, its report and its page to others, which are made once all
/// checks have passed. The page shows the release. How far the run has come is printed on `progress` where the words ask
/// for that, as far as it takes the lines.
pub fn run<'a, M: Simulator, F: Files, P: Write>(
    simulator: &M,
    alloc: Global,
    release: &Release<'_>,
    words: RunWords<'a>,
    files: &mut F,
    progress: &mut P,
) -> Result<Summary, Failure<'a>>
    requires { M.ready }
    ensures done { IfOk result
        (λ summary. RunsAll release.now.version.now (F.known files.old) (F.known files.new) (F.making files.old) words.entry summary.rows) }
    ensures failed { IfErr result
        (RunFails (λ s workers. EndsWithCause (F.refused files.old < F.refused files.new) (MayEndRun s (M.loses workers)))
        release.now.version.now (F.known files.old) (F.known files.new) (F.making files.old) words.entry) }

    // No file refused a write of a run that was done.
    ensures whole { OnOk result (F.refused files.new ≡ F.refused files.old) }

    // Who doesn't ask for lines gets none.
    ensures unasked { words.entry.progress ≡ false → progress.new ≡ progress.old }
{
    let prepared = prepare(alloc, words, files)?;
    if words.progress {
        let watch = Some(progress);
        return store_asked(simulator, alloc, release, &prepared, words, watch, files);
    }
    let watch = nobody(progress);
    store_asked(simulator, alloc, release, &prepared, words, watch, files)
}

/// No writer, with the lifetime of the one that isn't used.
fn nobody<'p, P: Write>(_progress: &'p P) -> Option<&'p mut P> {
    None
}

/// Runs a scenario, and writes its trace, its report and its page to the files that the words name. The `watch`, where
/// there is one, gets how far the run has come.
fn store_asked<'a, M: Simulator, F: Files, P: Write>(
    simulator: &M,
    alloc: Global,
    release: &Release<'_>,
    prepared: &PreparedRun,
    words: RunWords<'a>,
    watch: Option<&mut P>,
    files: &mut F,
) -> Result<Summary, Failure<'a>>
    requires ready { M.ready }
    requires divided { length prepared.now.division.part_of ≡ member_count prepared.now.scenario }
    ensures done { IfOk result (λ summary. StoresAsked words.entry.page prepared.now.scenario release.now.version.now
        (F.known files.old) (F.known files.new) words.entry summary.rows) }
    ensures apart { OnOk result (AreApart words.entry.page (F.making files.old) words.entry) }
    ensures whole { OnOk result (F.refused files.new ≡ F.refused files.old) }
    ensures failed { IfErr result (FailsAsked words.entry.page
        (EndsWithCause (F.refused files.old < F.refused files.new) (MayEndRun prepared.now.scenario (M.loses prepared.now.workers)))
        prepared.now.scenario
        release.now.version.now (F.known files.old) (F.known files.new) (F.making files.old) words.entry) }
{
    let shown = RunShown {
        name: words.file,
        release: release.version,
        tick: words.tick,
    };
    match words.page {
        Some(page) => match words.report {
            Some(report) => store_three(
                simulator, alloc, prepared, words, &shown, report, page, watch, files,
            ),
            None => store_two(
                simulator, alloc, prepared, words, &shown, page, watch, files,
            ),
        },
        None => match words.report {
            Some(report) => store_both(simulator, alloc, prepared, words, report, watch, files),
            None => store_trace(simulator, alloc, prepared, words, watch, files),
        },
    }
}
