//! The table of a sweep or of a shard of it, which is one of whole settings, from its beginning or behind what stands of it.
ghost use Rattle.std.specs.Prelude.{◌≡◌, ◌≢◌, ◌<◌, ◌≤◌, ◌^◌, ◌+◌, ◌-◌, [], Some, is_some, true, OnOk, OnErr, IfErr, IfOk};
ghost use Rattle.toml.specs.View.{view};
ghost use Rattle.run_output.specs.Written.{sink_failures};
ghost use Rattle.shards.specs.Shards.{IsShard, whole};
ghost use Rattle.sweep.specs.Judged.{AreAccepted};
ghost use Rattle.sweep.specs.Runs.{IsAskedFor};
ghost use Rattle.sweep.specs.Table.{HasCause, columns_of};
ghost use Rattle.sweep.specs.Shards.{shard_header};
ghost use Rattle.sweep.specs.Sums.{sweep_key};
ghost use Rattle.sweep_plan.specs.Sweep.{seed_count};
ghost use Rattle.sweep_until.specs.Shards.{BeginsRestUntil, BeginsUntil, CanGoOn, MakesUntil, WritesRestUntil, first_setting, settings_in, rest_settings};
ghost use Rattle.sweep_until.specs.Until.{AreTooFew, BeginsSettings, BeginsWide, FinishesSetting, HasSettings, setting_course};

use crate::parts::ShardProgress;
use crate::until::{make_setting, make_settings};
use base::Fault;
use figures::SettingSummary;
use run_output::flush;
use scenario::Workers;
use sequential_run::{a_run_exists, the_run_is_one};
use shards::Shard;
use std::alloc::Global;
use std::marker::Sync;
use std::thread::Threads;
use sweep::{Begun, Progress, columns_of, sweep_key, write_front_behind};
use sweep_plan::Plan;
use toml::Value;
use trace::Sink;

/// The widest that an interval may be, in hundredths.
const WIDEST: u64 = 100;

/// Makes all runs of a sweep whose settings have as many runs as make their intervals at most so many hundredths wide, and
/// writes their table: that of its only shard, as `write_table_until` does with nothing made before. Returns the summary of
/// each setting, in their order.
pub fn sweep_until<S: Sink, P: Progress>(
    rt: &(impl Threads + Sync),
    alloc: Global,
    plan: &Plan,
    mark: &str,
    width: u64,
    document: &Value,
    workers: Workers,
    progress: &P,
    table: &mut S,
) -> Result<Vec<SettingSummary>, Fault>
    requires asked { IsAskedFor plan.now }
    requires judged { AreAccepted (view document.now) plan.now }
    requires most { width ≤ 100 }
    requires countable { S.failed table.old < 2 ^ 63 }

    // How many workers there are doesn't count: the table and the summaries are the same.
    ensures whole { IfOk result (λ settings. MakesUntil (view document.now) mark.now plan.now width (S.held table.old) (S.held table.new) settings.items) }
    ensures part { OnErr result (BeginsUntil (view document.now) mark.now plan.now width (S.held table.old) (S.held table.new)) }

    // No fault comes without its cause.
    ensures causes { IfErr result (HasCause (view document.now) plan.now) }
    ensures failures { S.failed table.new ≡ S.failed table.old + sink_failures result }
{
    let mut settings = Vec::new(alloc);
    write_settings(
        rt,
        alloc,
        plan,
        Shard::whole(),
        mark,
        width,
        0,
        0,
        document,
        workers,
        progress,
        &mut settings,
        table,
    )?;
    Ok(settings)
}

/// Makes the runs of a shard of a sweep that aren't made yet, of each setting with more and more of the seeds, in rising
/// order, until the 95 % interval of the share of its runs with a false death, by Wilson, is as narrow as the plan asks, or
/// with all seeds; and writes the shard's table behind the bytes that stay of it: what these lack of the first line, which is
/// the shard's name and the header, and a line for each run that is left, with its checksum and what its setting keeps of it
/// before it; at the end it is flushed. So many settings are made, and the first runs of the next one: that one goes on behind
/// these, up to where it ends in a shard that is made at once. How many runs a setting has depends on its own runs alone. The
/// plan must have a width. `mark` is that of the scenario's text. Runs of a setting are made some at a time, as many side by
/// side as there are workers; what was made beyond the last run that is wanted is thrown away. Each time `progress` gets how
/// many of the shard's runs were made, those that are left out among them. Each document must have been judged to be
/// accepted. After a fault the table has got a beginning of that.
///
/// Faults: `Memory`; `CounterOverflow` where a counter of some run, or a count of its tallies, would pass 2^63; `Write` where
/// the sink failed.
pub fn write_table_until<S: Sink, P: Progress>(
    rt: &(impl Threads + Sync),
    alloc: Global,
    plan: &Plan,
    shard: Shard,
    mark: &str,
    begun: &Begun,
    document: &Value,
    workers: Workers,
    progress: &P,
    table: &mut S,
) -> Result<(), Fault>
    requires asked { IsAskedFor plan.now }
    requires judged { AreAccepted (view document.now) plan.now }
    requires shard { IsShard shard }
    requires wanted { is_some plan.now.until ≡ true }
    requires begun { CanGoOn plan.now shard (shard_header (columns_of (view document.now)) mark.now plan.now shard) begun.now.kept begun.now.count begun.now.started.items }
    requires countable { S.failed table.old < 2 ^ 63 }

    // How many workers there are doesn't count.
    ensures whole { OnOk result (WritesRestUntil (view document.now) mark.now plan.now shard begun.now.kept begun.now.count begun.now.started.items
        (S.held table.old) (S.held table.new)) }
    ensures part { OnErr result (BeginsRestUntil (view document.now) mark.now plan.now shard begun.now.kept begun.now.count begun.now.started.items
        (S.held table.old) (S.held table.new)) }

    // No fault comes without its cause.
    ensures causes { IfErr result (HasCause (view document.now) plan.now) }
    ensures failures { S.failed table.new ≡ S.failed table.old + sink_failures result }
{
    let width = width_of(plan);
    if begun.started.is_empty() {
        let mut settings = Vec::new(alloc);
        return write_settings(
            rt,
            alloc,
            plan,
            shard,
            mark,
            width,
            begun.kept,
            begun.count,
            document,
            workers,
            progress,
            &mut settings,
            table,
        );
    }
    write_open(
        rt, alloc, plan, shard, mark, width, begun, document, workers, progress, table,
    )
}

/// Writes that rest where some runs of a setting are made: first the lines of its other runs.
fn write_open<S: Sink, P: Progress>(
    rt: &(impl Threads + Sync),
    alloc: Global,
    plan: &Plan,
    shard: Shard,
    mark: &str,
    width: u64,
    begun: &Begun,
    document: &Value,
    workers: Workers,
    progress: &P,
    table: &mut S,
) -> Result<(), Fault>
    requires asked { IsAskedFor plan.now }
    requires judged { AreAccepted (view document.now) plan.now }
    requires shard { IsShard shard }
    requires wanted { plan.now.until ≡ Some width }
    requires begun { CanGoOn plan.now shard (shard_header (columns_of (view document.now)) mark.now plan.now shard) begun.now.kept begun.now.count begun.now.started.items }
    requires some { begun.now.started.items ≢ [] }
    requires countable { S.failed table.old < 2 ^ 63 }
    ensures whole { OnOk result (WritesRestUntil (view document.now) mark.now plan.now shard begun.now.kept begun.now.count begun.now.started.items
        (S.held table.old) (S.held table.new)) }
    ensures part { OnErr result (BeginsRestUntil (view document.now) mark.now plan.now shard begun.now.kept begun.now.count begun.now.started.items
        (S.held table.old) (S.held table.new)) }
    ensures causes { IfErr result (HasCause (view document.now) plan.now) }
    ensures failures { S.failed table.new ≡ S.failed table.old + sink_failures result }
{
    a_run_exists();
    the_run_is_one();
    let mut settings = Vec::new(alloc);
    finish_setting(
        rt, alloc, plan, shard, mark, width, begun, document, workers, progress, table,
    )?;
    write_settings(
        rt,
        alloc,
        plan,
        shard,
        mark,
        width,
        begun.kept,
        begun.count + 1,
        document,
        workers,
        progress,
        &mut settings,
        table,
    )
}

/// Makes the runs that a setting needs behind those that are made of it, and writes their lines.
fn finish_setting<S: Sink, P: Progress>(
    rt: &(impl Threads + Sync),
    alloc: Global,
    plan: &Plan,
    shard: Shard,
    mark: &str,
    width: u64,
    begun: &Begun,
    document: &Value,
    workers: Workers,
    progress: &P,
    table: &mut S,
) -> Result<(), Fault>
    requires asked { IsAskedFor plan.now }
    requires judged { AreAccepted (view document.now) plan.now }
    requires shard { IsShard shard }
    requires most { width ≤ 100 }
    requires some { begun.now.count < settings_in plan.now shard }
    requires open_yet { AreTooFew width (seed_count plan.now.seeds) begun.now.started.items }
    requires countable { S.failed table.old < 2 ^ 63 }
    ensures whole { OnOk result (FinishesSetting (view document.now) plan.now (sweep_key mark.now plan.now) width (first_setting plan.now shard + begun.now.count) begun.now.started.items
        (S.held table.old) (S.held table.new)) }
    ensures part { OnErr result (BeginsWide (view document.now) plan.now width begun.now.started.items
        (setting_course plan.now (sweep_key mark.now plan.now) (first_setting plan.now shard + begun.now.count) begun.now.started.items (S.held table.old)) (S.held table.new)) }
    ensures causes { IfErr result (HasCause (view document.now) plan.now) }
    ensures failures { S.failed table.new ≡ S.failed table.old + sink_failures result }
{
    let count = plan.settings();
    let first = shard.first(count);
    let number = first + begun.count;
    let started = begun.started.as_slice();
    let key = sweep_key(alloc, plan, mark)?;
    let part = ShardProgress {
        whole: progress,
        before: first.saturating_mul(plan.runs_of_setting()),
        all: (shard.past(count) - first).saturating_mul(plan.runs_of_setting()),
    };
    make_setting(
        rt, alloc, plan, &key, width, document, workers, number, started, &part, table,
    )?;
    Ok(())
}

/// Writes the table of a shard behind so many bytes and settings, where the intervals are to be so many hundredths wide at most, and
/// adds the summary of each setting that is made.
fn write_settings<S: Sink, P: Progress>(
    rt: &(impl Threads + Sync),
    alloc: Global,
    plan: &Plan,
    shard: Shard,
    mark: &str,
    width: u64,
    kept: usize,
    made: usize,
    document: &Value,
    workers: Workers,
    progress: &P,
    settings: &mut Vec<SettingSummary>,
    table: &mut S,
) -> Result<(), Fault>
    requires asked { IsAskedFor plan.now }
    requires judged { AreAccepted (view document.now) plan.now }
    requires shard { IsShard shard }
    requires most { width ≤ 100 }
    requires few { made ≤ settings_in plan.now shard }
    requires fresh { settings.old.items ≡ [] }
    requires countable { S.failed table.old < 2 ^ 63 }
    ensures whole { OnOk result (HasSettings (view document.now) plan.now width
        (rest_settings (view document.now) mark.now plan.now shard kept made) (S.held table.old) (S.held table.new)
        (settings_in plan.now shard - made) settings.new.items) }
    ensures part { OnErr result (BeginsSettings (view document.now) plan.now width
        (rest_settings (view document.now) mark.now plan.now shard kept made) (S.held table.old) (S.held table.new)) }
    ensures causes { IfErr result (HasCause (view document.now) plan.now) }
    ensures failures { S.failed table.new ≡ S.failed table.old + sink_failures result }
{
    let count = plan.settings();
    let first = shard.first(count);
    let from = first + made;
    let till = shard.past(count);
    let part = ShardProgress {
        whole: progress,
        before: first.saturating_mul(plan.runs_of_setting()),
        all: (till - first).saturating_mul(plan.runs_of_setting()),
    };
    a_run_exists();
    the_run_is_one();
    let key = sweep_key(alloc, plan, mark)?;
    write_front_behind(alloc, plan, shard, mark, kept, columns_of(document), table)?;
    make_settings(
        rt, alloc, plan, &key, width, document, workers, from, till, &part, settings, table,
    )?;
    flush(table)?;
    Ok(())
}

/// The width that a plan has.
fn width_of(plan: &Plan) -> u64
    requires { is_some plan.now.until ≡ true }
    ensures { plan.now.until ≡ Some result }
{
    match plan.until() {
        Some(width) => width,
        None => WIDEST,
    }
}
