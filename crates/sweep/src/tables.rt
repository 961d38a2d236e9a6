//! The table of a sweep or of a shard of it, from its beginning or behind what stands of it.
ghost use Rattle.std.specs.Prelude.{◌≡◌, ◌≤◌, ◌<◌, ◌^◌, ◌+◌, [], OnOk, OnErr, IfErr, IfOk};
ghost use Rattle.toml.specs.View.{view};
ghost use Rattle.sweep_plan.specs.Sweep.{run_count, seed_count};
ghost use Rattle.run_output.specs.Written.{sink_failures};
ghost use Rattle.shards.specs.Shards.{IsShard, first_run, past_run, whole};
ghost use Rattle.sweep.specs.Judged.{AreAccepted};
ghost use Rattle.sweep.specs.Runs.{IsAskedFor};
ghost use Rattle.sweep.specs.Table.{HasCause};
ghost use Rattle.sweep.specs.Shards.{BeginsRest};
ghost use Rattle.sweep.specs.Summaries.{MakesAll, MakesRest};

use crate::begun::Begun;
use crate::chunks::make_runs;
use crate::columns::columns_of;
use crate::gathering::{Gather, Gathering};
use crate::header::write_front_behind;
use crate::progress::Progress;
use crate::summing::sweep_key;
use base::Fault;
use figures::SettingSummary;
use run_output::flush;
use scenario::Workers;
use sequential_run::a_run_exists;
use shards::Shard;
use std::alloc::Global;
use std::marker::Sync;
use std::thread::Threads;
use sweep_plan::Plan;
use toml::Value;
use trace::Sink;

/// Makes all runs of a sweep, and writes their table: that of its only shard, as `write_table` does with nothing made
/// before. Returns the summary of each setting, in their order.
pub fn sweep<S: Sink, P: Progress>(
    rt: &(impl Threads + Sync),
    alloc: Global,
    plan: &Plan,
    mark: &str,
    document: &Value,
    workers: Workers,
    progress: &P,
    table: &mut S,
) -> Result<Vec<SettingSummary>, Fault>
    requires asked { IsAskedFor plan.now }
    requires judged { AreAccepted (view document.now) plan.now }
    requires countable { S.failed table.old < 2 ^ 63 }

    // How many workers there are doesn't count: the table and the summaries are the same.
    ensures whole { IfOk result (λ settings. MakesAll (view document.now) mark.now plan.now (S.held table.old) (S.held table.new) settings.items) }
    ensures part { OnErr result (BeginsRest (view document.now) mark.now plan.now whole 0 0 (S.held table.old) (S.held table.new)) }

    // No fault comes without its cause.
    ensures causes { IfErr result (HasCause (view document.now) plan.now) }
    ensures failures { S.failed table.new ≡ S.failed table.old + sink_failures result }
{
    let mut gathering = Gathering::new(alloc, plan.runs_of_setting() as u64);
    let nothing = Begun::nothing(alloc);
    write_table(
        rt,
        alloc,
        plan,
        Shard::whole(),
        mark,
        &nothing,
        document,
        workers,
        progress,
        &mut gathering,
        table,
    )?;
    Ok(gathering.into_summaries())
}

/// Makes the runs of a shard of a sweep that aren't made yet, and writes its table behind the bytes that stay of it: what these
/// lack of the first line, which is the shard's name and the header, and a line for each run that is left, in the order of the
/// settings and of the seeds, with its checksum and what its setting keeps of it before it; at the end the table is flushed.
/// `mark` is that of the scenario's text. Runs are made some at a time, as many side by side as there are workers, each of which
/// keeps a cluster in memory; `progress` gets how far they have come, and each time how many were made. What settings keep of these runs is gathered.
/// Each document must have been judged to be accepted. After a fault the table has got a beginning of that.
///
/// Faults: `Memory`; `CounterOverflow` where a counter of some run, or a count of its tallies, would pass 2^63; `Write`
/// where the sink failed.
pub fn write_table<S: Sink, P: Progress, G: Gather>(
    rt: &(impl Threads + Sync),
    alloc: Global,
    plan: &Plan,
    shard: Shard,
    mark: &str,
    begun: &Begun,
    document: &Value,
    workers: Workers,
    progress: &P,
    gathering: &mut G,
    table: &mut S,
) -> Result<(), Fault>
    requires asked { IsAskedFor plan.now }
    requires judged { AreAccepted (view document.now) plan.now }
    requires shard { IsShard shard }
    requires few { first_run shard (run_count plan.now) + begun.now.count ≤ past_run shard (run_count plan.now) }
    requires fresh { G.has gathering.old (seed_count plan.now.seeds) [] }
    requires countable { S.failed table.old < 2 ^ 63 }

    // How many workers there are doesn't count.
    ensures whole { OnOk result (MakesRest (view document.now) mark.now plan.now shard begun.now.kept begun.now.count (S.held table.old) (S.held table.new)
        (G.has gathering.new (seed_count plan.now.seeds))) }
    ensures part { OnErr result (BeginsRest (view document.now) mark.now plan.now shard begun.now.kept begun.now.count (S.held table.old) (S.held table.new)) }

    // No fault comes without its cause.
    ensures causes { IfErr result (HasCause (view document.now) plan.now) }
    ensures failures { S.failed table.new ≡ S.failed table.old + sink_failures result }
{
    let runs = plan.runs();
    let first = shard.first(runs);
    let from = first + begun.count;
    a_run_exists();
    let key = sweep_key(alloc, plan, mark)?;
    let columns = columns_of(document);
    write_front_behind(alloc, plan, shard, mark, begun.kept, columns, table)?;
    make_runs(
        rt,
        alloc,
        plan,
        &key,
        document,
        workers,
        first,
        from,
        shard.past(runs),
        progress,
        gathering,
        table,
    )?;
    flush(table)?;
    Ok(())
}
