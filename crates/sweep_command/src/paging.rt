//! A whole sweep, and the files that take its table and its page.
ghost use Rattle.std.specs.Prelude.{◌≡◌, ◌<◌, ◌≤◌, ◌^◌, ◌+◌, All, false, length, IfOk, IfErr, OnOk, OnErr, string_bytes};
ghost use Rattle.toml.specs.Data.{Data};
ghost use Rattle.toml.specs.View.{view};
ghost use Rattle.goals.specs.Wants.{HasFewRuns, IsBounded};
ghost use Rattle.sweep_plan.specs.Sweep.{Sweep, setting_count};
ghost use Rattle.files.specs.Files.{AreThreeFiles};
ghost use Rattle.trace.specs.Writers.{put_failures, writer_under};
ghost use Rattle.run_output.specs.Written.{sink_failures};
ghost use Rattle.sweep.specs.Runs.{IsAskedFor};
ghost use Rattle.sweep.specs.Judged.{AreAccepted};
ghost use Rattle.sweep.specs.Table.{HasCause};
ghost use Rattle.sweep_command.specs.Outcomes.{BeginsPage, BeginsPaged, MakesPaged, PagedFails, StoresPaged, WritesPage};

use crate::checks::PreparedSweep;
use crate::making::make_runs;
use crate::progressing::RunLines;
use base::Fault;
use command_line::{Failure, Release, SweepWords};
use figures::SettingSummary;
use files::{Files, PairFault};
use scenario_files::run_result;
use std::alloc::Global;
use std::io::Write;
use std::thread::Threads;
use sweep::{NoProgress, Progress, columns_of};
use sweep_output::{SweepShown, put_text, settings_page, settings_printed};
use trace::{Put, Sink, Stopped};

/// Makes the runs, and writes their table to the file that the words name and a page of their settings
/// to another. Either both files are made or neither is.
pub(crate) fn store_paged<'a, F: Files, P: Write + Send>(
    rt: &(impl Threads + Sync),
    alloc: Global,
    release: &Release<'_>,
    words: &SweepWords<'a>,
    prepared: &PreparedSweep,
    page: &'a str,
    files: &mut F,
    progress: &mut P,
) -> Result<String, Failure<'a>>
    requires asked { IsAskedFor words.now.plan }
    requires wants { All IsBounded words.now.wants.items }
    requires judged { AreAccepted (view prepared.now.marked.document) words.now.plan }
    ensures done { IfOk result (λ lines. StoresPaged (view prepared.now.marked.document) (string_bytes prepared.now.marked.mark) words.now release.now.version.now page.entry.now
        (F.known files.old) (F.known files.new) (string_bytes lines)) }
    ensures apart { OnOk result (AreThreeFiles (F.making files.old) words.now.file.now words.now.table.now page.entry.now) }
    ensures failed { IfErr result (PagedFails (F.refused files.old < F.refused files.new) (view prepared.now.marked.document) (string_bytes prepared.now.marked.mark) page.entry.now
        (F.known files.old) (F.known files.new) (F.making files.old) words.now) }
    ensures unasked { words.now.progress ≡ false → progress.new ≡ progress.old }
{
    let (made_table, made_page) = match files.make_both(words.file, words.table, page) {
        Ok(made) => made,
        Err(PairFault::First) => return Err(Failure::File(words.table)),
        Err(PairFault::Second) => return Err(Failure::File(page)),
        Err(PairFault::Memory) => return Err(Failure::Memory),
    };
    let (made_table, made_page, outcome) = fill_both(
        rt, alloc, release, words, prepared, made_table, made_page, progress,
    );
    files.close(words.table, made_table);
    files.close(page, made_page);
    run_result(outcome)
}

/// Makes the runs, writes their table to one writer and a page of their settings to the other, and gives
/// both back, with the text of the settings.
fn fill_both<T: Write, U: Write, P: Write + Send>(
    rt: &(impl Threads + Sync),
    alloc: Global,
    release: &Release<'_>,
    words: &SweepWords<'_>,
    prepared: &PreparedSweep,
    table: T,
    page: U,
    progress: &mut P,
) -> (Put<T>, Put<U>, Result<String, Fault>)
    requires asked { IsAskedFor words.now.plan }
    requires wants { All IsBounded words.now.wants.items }
    requires judged { AreAccepted (view prepared.now.marked.document) words.now.plan }
    ensures whole { IfOk result.2 (λ lines. MakesPaged (view prepared.now.marked.document) (string_bytes prepared.now.marked.mark) words.now release.now.version.now
        (T.contents table) (T.contents (writer_under result.0)) (U.contents page) (U.contents (writer_under result.1)) (string_bytes lines)) }
    ensures part { OnErr result.2 (BeginsPaged (view prepared.now.marked.document) (string_bytes prepared.now.marked.mark) words.now
        (T.contents table) (T.contents (writer_under result.0)) (U.contents page) (U.contents (writer_under result.1))) }
    ensures causes { IfErr result.2 (HasCause (view prepared.now.marked.document) words.now.plan) }
    ensures failures { put_failures result.0 + put_failures result.1 ≡ sink_failures result.2 }
    ensures unasked { words.now.progress ≡ false → progress.new ≡ progress.old }
{
    let mut table = Put::new(table);
    let mut page = Put::new(page);
    if words.progress {
        let lines = RunLines::new(progress);
        let outcome = write_both(
            rt, alloc, release, words, prepared, &lines, &mut table, &mut page,
        );
        return (table, page, outcome);
    }
    let outcome = write_both(
        rt,
        alloc,
        release,
        words,
        prepared,
        &NoProgress,
        &mut table,
        &mut page,
    );
    (table, page, outcome)
}

/// Makes the runs, writes their table and then a page of their settings, and returns the text of the
/// settings.
fn write_both<S: Sink, U: Sink, P: Progress>(
    rt: &(impl Threads + Sync),
    alloc: Global,
    release: &Release<'_>,
    words: &SweepWords<'_>,
    prepared: &PreparedSweep,
    progress: &P,
    table: &mut S,
    page: &mut U,
) -> Result<String, Fault>
    requires asked { IsAskedFor words.now.plan }
    requires wants { All IsBounded words.now.wants.items }
    requires judged { AreAccepted (view prepared.now.marked.document) words.now.plan }
    requires countable { S.failed table.old < 2 ^ 63 }
    requires countable_too { U.failed page.old < 2 ^ 63 }
    ensures whole { IfOk result (λ lines. MakesPaged (view prepared.now.marked.document) (string_bytes prepared.now.marked.mark) words.now release.now.version.now
        (S.held table.old) (S.held table.new) (U.held page.old) (U.held page.new) (string_bytes lines)) }
    ensures part { OnErr result (BeginsPaged (view prepared.now.marked.document) (string_bytes prepared.now.marked.mark) words.now
        (S.held table.old) (S.held table.new) (U.held page.old) (U.held page.new)) }
    ensures causes { IfErr result (HasCause (view prepared.now.marked.document) words.now.plan) }
    ensures failures { S.failed table.new + U.failed page.new ≡ (S.failed table.old + U.failed page.old) + sink_failures result }
{
    let mark = prepared.marked.mark.as_str();
    let document = &prepared.marked.document;
    let settings = make_runs(
        rt,
        alloc,
        &words.plan,
        mark,
        document,
        prepared.workers,
        progress,
        table,
    )?;
    let columns = columns_of(document);
    let lines = settings_printed(
        alloc,
        &words.plan,
        &words.wants,
        words.jsonl,
        columns,
        &settings,
    )?;
    write_page(alloc, release, words, &settings, page)?;
    Ok(lines)
}

/// Writes a page of the settings, which answers what is wanted.
fn write_page<U: Sink>(
    alloc: Global,
    release: &Release<'_>,
    words: &SweepWords<'_>,
    settings: &[SettingSummary],
    out: &mut U,
) -> Result<(), Fault>
    requires wants { All IsBounded words.now.wants.items }
    requires few { All HasFewRuns settings.now }
    requires all { length settings.now ≡ setting_count words.now.plan.swept_keys }
    requires countable { U.failed out.old < 2 ^ 63 }
    ensures whole { OnOk result (WritesPage words.now release.now.version.now settings.now (U.held out.old) (U.held out.new)) }
    ensures part { OnErr result (BeginsPage words.now release.now.version.now settings.now (U.held out.old) (U.held out.new)) }
    ensures causes { (tree : Data) (plan : Sweep) → IfErr result (HasCause tree plan) }
    ensures failures { U.failed out.new ≡ U.failed out.old + sink_failures result }
{
    let shown = SweepShown {
        name: words.file,
        release: release.version,
        tick: words.tick,
    };
    let text = settings_page(alloc, &shown, &words.plan, &words.wants, settings)?;
    match put_text(text.as_bytes(), out) {
        Ok(()) => Ok(()),
        Err(Stopped) => Err(Fault::Write),
    }
}
