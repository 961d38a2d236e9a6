//! Many runs of the scenario of a file, and the file that takes their table.
ghost use Rattle.std.specs.Prelude.{◌≡◌, ◌<◌, ◌^◌, ◌+◌, All, false, [], IfOk, IfErr, OnOk, OnErr, string_bytes};
ghost use Rattle.std.specs.Option.{ForSome};
ghost use Rattle.toml.specs.View.{view};
ghost use Rattle.shards.specs.Shards.{IsShard};
ghost use Rattle.goals.specs.Wants.{IsBounded};
ghost use Rattle.trace.specs.Writers.{put_failures, writer_under};
ghost use Rattle.run_output.specs.Written.{sink_failures};
ghost use Rattle.sweep.specs.Runs.{IsAskedFor};
ghost use Rattle.sweep.specs.Judged.{AreAccepted};
ghost use Rattle.sweep.specs.Shards.{shard_header};
ghost use Rattle.sweep.specs.Table.{HasCause, columns_of};
ghost use Rattle.sweep_command.specs.Outcomes.{AreApart, BeginsAsked, FitAsked, GoesOn, MakesAsked, MakesLines, StoreFails, StoresAsked, StoresPlain, SweepFails, SweepsAll, TableFails};
ghost use Rattle.sweep_command.specs.Runs.{BeginsAllRuns, BeginsRuns, FitShard, WritesRuns, standing};

use crate::checks::{PreparedSweep, prepare_sweep};
use crate::making::{make_runs, make_shard};
use crate::paging::store_paged;
use crate::progressing::RunLines;
use crate::resuming::find_standing;
use base::Fault;
use command_line::{Failure, Release, SweepWords};
use files::Files;
use scenario_files::{file_failure, run_result};
use shards::Shard;
use std::alloc::Global;
use std::io::Write;
use std::thread::Threads;
use sweep::{Begun, NoProgress, Progress, columns_of};
use sweep_output::settings_printed;
use trace::{Put, Sink};

/// Makes the runs that the words of a sweep ask for, and writes their table to a file, and a page of
/// the settings to another where one is asked for. They are each setting with each seed, or with only as
/// many as make its interval narrow enough; or those of a shard, or what is left of these. They are
/// made once all checks have passed. Returns the text of the settings; an empty one for a shard.
/// `release` is what the page says of the program. How far it has come goes to `progress`, where
/// the words ask for that.
pub fn sweep_file<'a, F: Files, P: Write + Send>(
    rt: &(impl Threads + Sync),
    alloc: Global,
    release: &Release<'_>,
    words: &SweepWords<'a>,
    files: &mut F,
    progress: &mut P,
) -> Result<String, Failure<'a>>
    requires asked { IsAskedFor words.now.plan }
    requires shard { ForSome words.now.shard IsShard }
    requires wants { All IsBounded words.now.wants.items }
    ensures done { IfOk result
        (λ lines. SweepsAll release.now.version.now (F.known files.old) (F.known files.new) (F.making files.old) words.now (string_bytes lines)) }
    ensures failed { IfErr result (SweepFails (F.refused files.old < F.refused files.new) (F.known files.old) (F.known files.new) (F.making files.old) words.now) }
    ensures unasked { words.now.progress ≡ false → progress.new ≡ progress.old }
{
    let prepared = prepare_sweep(rt, alloc, words, files)?;
    let begun = find_standing(alloc, words, &prepared.marked, files)?;
    store_asked(
        rt, alloc, release, words, &prepared, &begun, files, progress,
    )
}

/// Makes the runs, and writes their table to the file that the words name, and their page to another where one is asked for.
fn store_asked<'a, F: Files, P: Write + Send>(
    rt: &(impl Threads + Sync),
    alloc: Global,
    release: &Release<'_>,
    words: &SweepWords<'a>,
    prepared: &PreparedSweep,
    begun: &Begun,
    files: &mut F,
    progress: &mut P,
) -> Result<String, Failure<'a>>
    requires asked { IsAskedFor words.now.plan }
    requires shard { ForSome words.now.shard IsShard }
    requires wants { All IsBounded words.now.wants.items }
    requires judged { AreAccepted (view prepared.now.marked.document) words.now.plan }
    requires stood { GoesOn (view prepared.now.marked.document) (string_bytes prepared.now.marked.mark) words.now (F.known files.old words.now.table.now) begun.now.kept (standing begun.now.count begun.now.started.items) }
    ensures done { IfOk result (λ lines. StoresAsked words.now.page (view prepared.now.marked.document) (string_bytes prepared.now.marked.mark) words.now release.now.version.now
        (F.known files.old) (F.known files.new) (string_bytes lines)) }
    ensures apart { OnOk result (AreApart words.now.page (F.making files.old) words.now.file.now words.now.table.now) }
    ensures failed { IfErr result (StoreFails words.now.page (F.refused files.old < F.refused files.new) (view prepared.now.marked.document) (string_bytes prepared.now.marked.mark)
        (F.known files.old) (F.known files.new) (F.making files.old) words.now) }
    ensures unasked { words.now.progress ≡ false → progress.new ≡ progress.old }
{
    match words.page {
        Some(page) => store_paged(rt, alloc, release, words, prepared, page, files, progress),
        None => store_table(rt, alloc, words, prepared, begun, files, progress),
    }
}

/// The same where no page is asked for. Where a shard goes on, what stays of its table stands there at every moment.
fn store_table<'a, F: Files, P: Write + Send>(
    rt: &(impl Threads + Sync),
    alloc: Global,
    words: &SweepWords<'a>,
    prepared: &PreparedSweep,
    begun: &Begun,
    files: &mut F,
    progress: &mut P,
) -> Result<String, Failure<'a>>
    requires asked { IsAskedFor words.now.plan }
    requires shard { ForSome words.now.shard IsShard }
    requires wants { All IsBounded words.now.wants.items }
    requires judged { AreAccepted (view prepared.now.marked.document) words.now.plan }
    requires stood { GoesOn (view prepared.now.marked.document) (string_bytes prepared.now.marked.mark) words.now (F.known files.old words.now.table.now) begun.now.kept (standing begun.now.count begun.now.started.items) }
    ensures done { IfOk result (λ lines. StoresPlain words.now.shard (view prepared.now.marked.document) (string_bytes prepared.now.marked.mark) words.now
        (F.known files.old) (F.known files.new) (string_bytes lines)) }
    ensures apart { OnOk result ((F.making files.old).are_one words.now.file.now words.now.table.now ≡ false) }
    ensures failed { IfErr result (TableFails (F.refused files.old < F.refused files.new) (view prepared.now.marked.document) (string_bytes prepared.now.marked.mark)
        (F.known files.old) (F.known files.new) (F.making files.old) words.now) }
    ensures unasked { words.now.progress ≡ false → progress.new ≡ progress.old }
{
    let made = match files.make_after(words.file, words.table, begun.kept as u64) {
        Ok(made) => made,
        Err(fault) => return Err(file_failure(fault, words.table)),
    };
    let (made, outcome) = fill_table(rt, alloc, words, prepared, begun, made, progress);
    files.close(words.table, made);
    run_result(outcome)
}

/// Makes the runs, writes their table to a writer, and gives it back, with the text of the settings.
fn fill_table<T: Write, P: Write + Send>(
    rt: &(impl Threads + Sync),
    alloc: Global,
    words: &SweepWords<'_>,
    prepared: &PreparedSweep,
    begun: &Begun,
    table: T,
    progress: &mut P,
) -> (Put<T>, Result<String, Fault>)
    requires asked { IsAskedFor words.now.plan }
    requires shard { ForSome words.now.shard IsShard }
    requires wants { All IsBounded words.now.wants.items }
    requires judged { AreAccepted (view prepared.now.marked.document) words.now.plan }
    requires few { FitAsked (view prepared.now.marked.document) (string_bytes prepared.now.marked.mark) words.now words.now.shard begun.now.kept
        (standing begun.now.count begun.now.started.items) }
    ensures whole { IfOk result.1 (λ lines. MakesAsked words.now.shard (view prepared.now.marked.document) (string_bytes prepared.now.marked.mark) words.now begun.now.kept (standing begun.now.count begun.now.started.items)
        (T.contents table) (T.contents (writer_under result.0)) (string_bytes lines)) }
    ensures part { OnErr result.1 (BeginsAsked words.now.shard (view prepared.now.marked.document) (string_bytes prepared.now.marked.mark) words.now begun.now.kept (standing begun.now.count begun.now.started.items)
        (T.contents table) (T.contents (writer_under result.0))) }
    ensures causes { IfErr result.1 (HasCause (view prepared.now.marked.document) words.now.plan) }
    ensures failures { put_failures result.0 ≡ sink_failures result.1 }
    ensures unasked { words.now.progress ≡ false → progress.new ≡ progress.old }
{
    let mut table = Put::new(table);
    if words.progress {
        let lines = RunLines::new(progress);
        let outcome = write_asked(rt, alloc, words, prepared, begun, &lines, &mut table);
        return (table, outcome);
    }
    let outcome = write_asked(rt, alloc, words, prepared, begun, &NoProgress, &mut table);
    (table, outcome)
}

/// Makes the runs that are asked for, writes their table, and returns the text of the settings; an empty one for a shard.
fn write_asked<S: Sink, P: Progress>(
    rt: &(impl Threads + Sync),
    alloc: Global,
    words: &SweepWords<'_>,
    prepared: &PreparedSweep,
    begun: &Begun,
    progress: &P,
    table: &mut S,
) -> Result<String, Fault>
    requires asked { IsAskedFor words.now.plan }
    requires shard { ForSome words.now.shard IsShard }
    requires wants { All IsBounded words.now.wants.items }
    requires judged { AreAccepted (view prepared.now.marked.document) words.now.plan }
    requires few { FitAsked (view prepared.now.marked.document) (string_bytes prepared.now.marked.mark) words.now words.now.shard begun.now.kept
        (standing begun.now.count begun.now.started.items) }
    requires countable { S.failed table.old < 2 ^ 63 }
    ensures whole { IfOk result (λ lines. MakesAsked words.now.shard (view prepared.now.marked.document) (string_bytes prepared.now.marked.mark) words.now begun.now.kept (standing begun.now.count begun.now.started.items)
        (S.held table.old) (S.held table.new) (string_bytes lines)) }
    ensures part { OnErr result (BeginsAsked words.now.shard (view prepared.now.marked.document) (string_bytes prepared.now.marked.mark) words.now begun.now.kept (standing begun.now.count begun.now.started.items)
        (S.held table.old) (S.held table.new)) }
    ensures causes { IfErr result (HasCause (view prepared.now.marked.document) words.now.plan) }
    ensures failures { S.failed table.new ≡ S.failed table.old + sink_failures result }
{
    match words.shard {
        Some(shard) => write_shard(rt, alloc, words, prepared, begun, shard, progress, table),
        None => write_whole(rt, alloc, words, prepared, progress, table),
    }
}

/// Makes the runs of a shard that are left, and writes its table behind what stands of it; there is no text of its settings.
fn write_shard<S: Sink, P: Progress>(
    rt: &(impl Threads + Sync),
    alloc: Global,
    words: &SweepWords<'_>,
    prepared: &PreparedSweep,
    begun: &Begun,
    shard: Shard,
    progress: &P,
    table: &mut S,
) -> Result<String, Fault>
    requires asked { IsAskedFor words.now.plan }
    requires shard { IsShard shard }
    requires judged { AreAccepted (view prepared.now.marked.document) words.now.plan }
    requires few { FitShard words.now.plan.until words.now.plan shard (shard_header (columns_of (view prepared.now.marked.document)) (string_bytes prepared.now.marked.mark) words.now.plan shard) begun.now.kept
        (standing begun.now.count begun.now.started.items) }
    requires countable { S.failed table.old < 2 ^ 63 }
    ensures whole { OnOk result (WritesRuns words.now.plan.until (view prepared.now.marked.document) (string_bytes prepared.now.marked.mark) words.now.plan shard begun.now.kept (standing begun.now.count begun.now.started.items)
        (S.held table.old) (S.held table.new)) }
    ensures silent { IfOk result (λ lines. string_bytes lines ≡ []) }
    ensures part { OnErr result (BeginsRuns words.now.plan.until (view prepared.now.marked.document) (string_bytes prepared.now.marked.mark) words.now.plan shard begun.now.kept (standing begun.now.count begun.now.started.items)
        (S.held table.old) (S.held table.new)) }
    ensures causes { IfErr result (HasCause (view prepared.now.marked.document) words.now.plan) }
    ensures failures { S.failed table.new ≡ S.failed table.old + sink_failures result }
{
    let mark = prepared.marked.mark.as_str();
    let document = &prepared.marked.document;
    let plan = &words.plan;
    let workers = prepared.workers;
    make_shard(
        rt, alloc, plan, shard, mark, begun, document, workers, progress, table,
    )?;
    Ok(String::new(alloc))
}

/// Makes the runs of a whole sweep, writes their table, and returns the text of the settings.
fn write_whole<S: Sink, P: Progress>(
    rt: &(impl Threads + Sync),
    alloc: Global,
    words: &SweepWords<'_>,
    prepared: &PreparedSweep,
    progress: &P,
    table: &mut S,
) -> Result<String, Fault>
    requires wants { All IsBounded words.now.wants.items }
    requires asked { IsAskedFor words.now.plan }
    requires judged { AreAccepted (view prepared.now.marked.document) words.now.plan }
    requires countable { S.failed table.old < 2 ^ 63 }
    ensures whole { IfOk result (λ lines. MakesLines (view prepared.now.marked.document) (string_bytes prepared.now.marked.mark) words.now (S.held table.old) (S.held table.new) (string_bytes lines)) }
    ensures part { OnErr result (BeginsAllRuns words.now.plan.until (view prepared.now.marked.document) (string_bytes prepared.now.marked.mark) words.now.plan (S.held table.old) (S.held table.new)) }
    ensures causes { IfErr result (HasCause (view prepared.now.marked.document) words.now.plan) }
    ensures failures { S.failed table.new ≡ S.failed table.old + sink_failures result }
{
    let mark = prepared.marked.mark.as_str();
    let document = &prepared.marked.document;
    let settings = make_runs(
        rt,
        alloc,
        &words.plan,
        mark,
        document,
        prepared.workers,
        progress,
        table,
    )?;
    let columns = columns_of(document);
    let lines = settings_printed(
        alloc,
        &words.plan,
        &words.wants,
        words.jsonl,
        columns,
        &settings,
    )?;
    Ok(lines)
}
