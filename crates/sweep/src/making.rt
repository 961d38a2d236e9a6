//! The runs of a sweep, made side by side.
ghost use Rattle.std.specs.Prelude.{◌≤◌, ◌<◌, ℕ, All, List, IfOk};
ghost use Rattle.std.specs.List.{AllZip, flat_map};
ghost use Rattle.toml.specs.Data.{Data};
ghost use Rattle.toml.specs.View.{view};
ghost use Rattle.sweep_plan.specs.Sweep.{Sweep, run_count};
ghost use Rattle.sweep.specs.Judged.{AreAccepted};
ghost use Rattle.sweep.specs.Runs.{IsAskedFor};
ghost use Rattle.sweep.specs.Shares.{numbers_of};
ghost use Rattle.sweep.specs.Table.{IsMadeLot, IsMadeOf};

use crate::columns::columns_of;
use crate::planned::planned;
use crate::progress::{OneRun, Progress};
use crate::reading::read_run;
use crate::shares::Share;
use crate::tick::tick_of;
use crate::values::line_of;
use base::{Fault, Memory};
use figures::{RunFigures, RunMetadata};
use line_sums::summed;
use rayon::prelude::*;
use sequential_run::tally_run;
use std::alloc::Global;
use std::marker::Sync;
use std::thread::Threads;
use sweep_plan::Plan;
use toml::Value;

/// A run that was made.
#[derive(Drop)]
pub struct MadeRun {
    /// Its line of the table, with its checksum and its note before it.
    pub line: Vec<u8>,
    /// What its setting keeps of it.
    pub note: RunMetadata,
}

/// The runs of these shares, in their order; or why there is no run of a number: `Memory`; `CounterOverflow` where a
/// counter of that run, or a count of its tallies, would pass 2^63. As many threads as there are shares, and no more
/// than two for each processor, make the runs of the shares, side by side. `key` is that of the checksums of their
/// lines. `progress` gets how far the runs have come. Each document must have been judged to be accepted. It fails where memory is
/// refused for the list of runs.
pub fn make_side_by_side<P: Progress>(
    rt: &(impl Threads + Sync),
    alloc: Global,
    plan: &Plan,
    key: &[u8],
    document: &Value,
    shares: &[Share],
    progress: &P,
) -> Result<Vec<Result<MadeRun, Fault>>, Memory>
    requires asked { IsAskedFor plan.now }
    requires judged { AreAccepted (view document.now) plan.now }
    requires within { All (λ share. share.till ≤ run_count plan.now) shares.now }
    ensures { IfOk result (λ runs. AllZip (IsMadeOf (view document.now) plan.now key.now) (flat_map numbers_of shares.now) runs.items) }
{
    let lots: Vec<Result<Vec<Result<MadeRun, Fault>>, Memory>> = shares
        .par_iter()
        .with_min_len(1)
        .map(
            |share: &Share| -> Result<Vec<Result<MadeRun, Fault>>, Memory>
                requires { IsAskedFor plan.now × AreAccepted (view document.now) plan.now × share.now.till ≤ run_count plan.now }
                ensures { IsMadeLot (view document.entry.now) plan.entry.now key.entry.now (numbers_of share.entry.now) result }
            { make_in_turn(alloc, plan, key, document, *share, progress) },
        )
        .collect(rt, alloc)?;
    joined_runs(alloc, lots)
}

/// The runs of a share, made one after the other.
fn make_in_turn<P: Progress>(
    alloc: Global,
    plan: &Plan,
    key: &[u8],
    document: &Value,
    share: Share,
    progress: &P,
) -> Result<Vec<Result<MadeRun, Fault>>, Memory>
    requires asked { IsAskedFor plan.now }
    requires judged { AreAccepted (view document.now) plan.now }
    requires within { share.till ≤ run_count plan.now }
    ensures { IsMadeLot (view document.now) plan.now key.now (numbers_of share) result }
{
    let mut runs = Vec::new(alloc);
    for number in share.from..share.till {
        runs.push(make_run(alloc, plan, key, document, number, progress))?;
    }
    Ok(runs)
}

/// The runs of all lots, one lot after the other.
fn joined_runs(
    alloc: Global,
    lots: Vec<Result<Vec<Result<MadeRun, Fault>>, Memory>>,
) -> Result<Vec<Result<MadeRun, Fault>>, Memory>
    ensures { IfOk result (λ runs. (tree : Data) (sweep : Sweep) (key : List ℕ) (numbers : List (List ℕ))
        → AllZip (IsMadeLot tree sweep key) numbers lots.items
        → AllZip (IsMadeOf tree sweep key) (flat_map (λ lot. lot) numbers) runs.items) }
{
    let mut runs = Vec::new(alloc);
    for lot in lots {
        let mut made = lot?;
        runs.append(&mut made)?;
    }
    Ok(runs)
}

/// Makes the run of this number, and lays out its line, with its checksum. All else that is known of the run is dropped.
fn make_run<P: Progress>(
    alloc: Global,
    plan: &Plan,
    key: &[u8],
    document: &Value,
    number: usize,
    progress: &P,
) -> Result<MadeRun, Fault>
    requires asked { IsAskedFor plan.now }
    requires judged { AreAccepted (view document.now) plan.now }
    requires within { number < run_count plan.now }
    ensures { IsMadeOf (view document.now) plan.now key.now number result }
{
    let run = planned(alloc, plan, number)?;
    let scenario = read_run(alloc, plan, document, number)?;
    let mut watch = OneRun::new(progress);
    let tallies = tally_run(alloc, &scenario, &mut watch)?;
    let figures = RunFigures::of(alloc, &tallies, &scenario)?;
    let note = RunMetadata::of(alloc, &tallies, &figures, &scenario, tick_of(document))?;
    let body = line_of(
        alloc,
        &run.setting,
        scenario.seed(),
        &note,
        &figures,
        columns_of(document),
    )?;
    let line = summed(alloc, key, &body)?;
    watch.end(&scenario);
    Ok(MadeRun { line, note })
}
