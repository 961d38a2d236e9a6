//! The runs of a whole sweep, or of a shard of it.
ghost use Rattle.std.specs.Prelude.{◌≡◌, ◌<◌, ◌≤◌, ◌^◌, ◌+◌, IfOk, IfErr, OnErr, OnOk};
ghost use Rattle.toml.specs.View.{view};
ghost use Rattle.run_output.specs.Written.{sink_failures};
ghost use Rattle.shards.specs.Shards.{IsShard};
ghost use Rattle.sweep.specs.Runs.{IsAskedFor};
ghost use Rattle.sweep.specs.Judged.{AreAccepted};
ghost use Rattle.sweep.specs.Shards.{shard_header};
ghost use Rattle.sweep.specs.Table.{HasCause, columns_of};
ghost use Rattle.sweep_command.specs.Runs.{BeginsAllRuns, BeginsRuns, FitShard, MakesRuns, WritesRuns, standing};

use base::Fault;
use figures::SettingSummary;
use scenario::Workers;
use shards::Shard;
use std::alloc::Global;
use std::thread::Threads;
use sweep::{Begun, NothingKept, Progress, sweep, write_table};
use sweep_plan::Plan;
use sweep_until::{sweep_until, write_table_until};
use toml::Value;
use trace::Sink;

/// Makes the runs of a sweep, and writes their table, with `mark` as that of the scenario's text: each
/// setting with each seed; where the plan says how wide the interval of a setting may be, with only as many
/// as make it no wider, or all where none do. Returns the summary of each setting, in their order. The
/// document of each run must have been judged to be accepted. After a fault the table has got a
/// beginning.
///
/// Faults: `Memory`; `CounterOverflow` where a counter of some run, or a count of its tallies, would pass 2^63;
/// `Write` where the sink failed.
pub(crate) fn make_runs<S: Sink, P: Progress>(
    rt: &(impl Threads + Sync),
    alloc: Global,
    plan: &Plan,
    mark: &str,
    document: &Value,
    workers: Workers,
    progress: &P,
    table: &mut S,
) -> Result<Vec<SettingSummary>, Fault>
    requires asked { IsAskedFor plan.now }
    requires judged { AreAccepted (view document.now) plan.now }
    requires countable { S.failed table.old < 2 ^ 63 }
    ensures whole { IfOk result (λ settings. MakesRuns plan.now.until (view document.now) mark.now plan.now (S.held table.old) (S.held table.new) settings.items) }
    ensures part { OnErr result (BeginsAllRuns plan.now.until (view document.now) mark.now plan.now (S.held table.old) (S.held table.new)) }
    ensures causes { IfErr result (HasCause (view document.now) plan.now) }
    ensures failures { S.failed table.new ≡ S.failed table.old + sink_failures result }
{
    match plan.until() {
        Some(width) => sweep_until(
            rt, alloc, plan, mark, width, document, workers, progress, table,
        ),
        None => sweep(rt, alloc, plan, mark, document, workers, progress, table),
    }
}

/// Makes the runs of a shard of a sweep that are left, and writes its table behind what stands of it. Where the plan says how
/// wide the interval of a setting may be, it is a shard of whole settings. All else is as in `make_runs`.
pub(crate) fn make_shard<S: Sink, P: Progress>(
    rt: &(impl Threads + Sync),
    alloc: Global,
    plan: &Plan,
    shard: Shard,
    mark: &str,
    begun: &Begun,
    document: &Value,
    workers: Workers,
    progress: &P,
    table: &mut S,
) -> Result<(), Fault>
    requires asked { IsAskedFor plan.now }
    requires shard { IsShard shard }
    requires judged { AreAccepted (view document.now) plan.now }
    requires few { FitShard plan.now.until plan.now shard (shard_header (columns_of (view document.now)) mark.now plan.now shard) begun.now.kept
        (standing begun.now.count begun.now.started.items) }
    requires countable { S.failed table.old < 2 ^ 63 }
    ensures whole { OnOk result (WritesRuns plan.now.until (view document.now) mark.now plan.now shard begun.now.kept (standing begun.now.count begun.now.started.items)
        (S.held table.old) (S.held table.new)) }
    ensures part { OnErr result (BeginsRuns plan.now.until (view document.now) mark.now plan.now shard begun.now.kept (standing begun.now.count begun.now.started.items)
        (S.held table.old) (S.held table.new)) }
    ensures causes { IfErr result (HasCause (view document.now) plan.now) }
    ensures failures { S.failed table.new ≡ S.failed table.old + sink_failures result }
{
    match plan.until() {
        Some(_) => write_table_until(
            rt, alloc, plan, shard, mark, begun, document, workers, progress, table,
        ),
        None => write_table(
            rt,
            alloc,
            plan,
            shard,
            mark,
            begun,
            document,
            workers,
            progress,
            &mut NothingKept,
            table,
        ),
    }
}
