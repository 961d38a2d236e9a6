//! The runs of a sweep, some at a time.
ghost use Rattle.std.specs.Prelude.{◌≡◌, ◌<◌, ◌≤◌, ◌^◌, ◌+◌, OnOk, OnErr, IfOk, IfErr};
ghost use Rattle.toml.specs.View.{view};
ghost use Rattle.sweep_plan.specs.Sweep.{run_count, seed_count};
ghost use Rattle.run_output.specs.Written.{sink_failures};
ghost use Rattle.sweep.specs.Judged.{AreAccepted};
ghost use Rattle.sweep.specs.Runs.{IsAskedFor};
ghost use Rattle.sweep.specs.Shares.{AreShares};
ghost use Rattle.sweep.specs.Table.{BeginsLines, Course, HasCause};
ghost use Rattle.sweep.specs.Summaries.{HasCome};

use crate::gathering::Gather;
use crate::making::make_side_by_side;
use crate::progress::Progress;
use crate::shares::{LotSize, Share, next_lot};
use crate::work::SECOND_OF_WORK;
use crate::writing::write_line;
use base::Fault;
use scenario::Workers;
use std::alloc::Global;
use std::marker::Sync;
use std::thread::Threads;
use sweep_plan::Plan;
use toml::Value;
use trace::Sink;

/// How much each worker does before lines are written: about a second of work, in no more than 256 runs.
const LOT: LotSize = LotSize {
    work: SECOND_OF_WORK,
    runs: 256,
};

/// Makes the runs from one number to before another, writes their lines, and gathers what their settings keep of them.
/// Those before it, from `first` on, count as made in what `progress` gets. `key` is that of the lines' checksums.
pub(crate) fn make_runs<S: Sink, P: Progress, G: Gather>(
    rt: &(impl Threads + Sync),
    alloc: Global,
    plan: &Plan,
    key: &[u8],
    document: &Value,
    workers: Workers,
    first: usize,
    from: usize,
    till: usize,
    progress: &P,
    gathering: &mut G,
    table: &mut S,
) -> Result<(), Fault>
    requires counted { first ≤ from }
    requires asked { IsAskedFor plan.now }
    requires judged { AreAccepted (view document.now) plan.now }
    requires ordered { from ≤ till }
    requires within { till ≤ run_count plan.now }
    requires countable { S.failed table.old < 2 ^ 63 }
    ensures whole { OnOk result ((course : Course) → course.key ≡ key.now → HasCome (view document.now) plan.now course (S.held table.old) (G.has gathering.old (seed_count plan.now.seeds)) from
        → HasCome (view document.now) plan.now course (S.held table.new) (G.has gathering.new (seed_count plan.now.seeds)) till) }
    ensures part { OnErr result ((course : Course) → course.key ≡ key.now → till ≤ course.till
        → HasCome (view document.now) plan.now course (S.held table.old) (G.has gathering.old (seed_count plan.now.seeds)) from
        → BeginsLines (view document.now) plan.now course (S.held table.new)) }
    ensures causes { IfErr result (HasCause (view document.now) plan.now) }
    ensures failures { S.failed table.new ≡ S.failed table.old + sink_failures result }
{
    let mut next = from;
    while next < till {
        let lot = next_lot(alloc, plan, document, workers, LOT, next, till)?;
        progress.some_begin(next - first, till - first);
        make_some(
            rt,
            alloc,
            plan,
            key,
            document,
            &lot.shares,
            next,
            lot.till,
            progress,
            gathering,
            table,
        )?;
        next = lot.till;
        progress.runs_made(next - first, till - first);
    }
    Ok(())
}

/// Makes the runs from one number to before another, which are those of these shares, side by side, writes their lines, and
/// gathers what their settings keep of them.
fn make_some<S: Sink, P: Progress, G: Gather>(
    rt: &(impl Threads + Sync),
    alloc: Global,
    plan: &Plan,
    key: &[u8],
    document: &Value,
    shares: &[Share],
    from: usize,
    till: usize,
    progress: &P,
    gathering: &mut G,
    table: &mut S,
) -> Result<(), Fault>
    requires asked { IsAskedFor plan.now }
    requires judged { AreAccepted (view document.now) plan.now }
    requires ordered { from ≤ till }
    requires shared { AreShares from till shares.now }
    requires within { till ≤ run_count plan.now }
    requires countable { S.failed table.old < 2 ^ 63 }
    ensures whole { OnOk result ((course : Course) → course.key ≡ key.now → HasCome (view document.now) plan.now course (S.held table.old) (G.has gathering.old (seed_count plan.now.seeds)) from
        → HasCome (view document.now) plan.now course (S.held table.new) (G.has gathering.new (seed_count plan.now.seeds)) till) }
    ensures part { OnErr result ((course : Course) → course.key ≡ key.now → till ≤ course.till
        → HasCome (view document.now) plan.now course (S.held table.old) (G.has gathering.old (seed_count plan.now.seeds)) from
        → BeginsLines (view document.now) plan.now course (S.held table.new)) }
    ensures causes { IfErr result (HasCause (view document.now) plan.now) }
    ensures failures { S.failed table.new ≡ S.failed table.old + sink_failures result }
{
    let runs = make_side_by_side(rt, alloc, plan, key, document, shares, progress)?;
    for made in runs {
        let run = made?;
        write_line(alloc, &run, gathering, table)?;
    }
    Ok(())
}
