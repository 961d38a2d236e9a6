//! The seed of a sweep's first run.
ghost use Rattle.std.specs.Prelude.{◌≡◌, ◌<◌, ◌≤◌, IfOk, IfErr, length};
ghost use Rattle.shards.specs.Shards.{first_run, past_run};
ghost use Rattle.sweep.specs.Runs.{IsAskedFor};
ghost use Rattle.shard_merge.specs.Among.{shard_at};
ghost use Rattle.shard_merge.specs.Behind.{shared};
ghost use Rattle.shard_merge.specs.Joined.{IsFirstSeed};
ghost use Rattle.shard_merge.specs.Reasons.{ArePlaces, IsFirst, IsReason};

use crate::behind::lines_behind;
use crate::fault::JoinFault;
use crate::head::Head;
use std::alloc::Global;
use sweep::first_seed;
use sweep_plan::Plan;

/// The seed of the sweep's first run, as its line says. Where the sweep asks for no seeds, all its runs have it.
///
/// Faults: `Missing`, `Older` or `Torn` where the shard that has this run isn't there, or has no genuine line of it.
pub(crate) fn seed_of_first_run(
    alloc: Global,
    texts: &[Vec<u8>],
    head: &Head<'_>,
    places: &[Option<usize>],
) -> Result<u64, JoinFault>
    requires first { IsFirst texts.now head.now.mark.now head.now.columns head.now.plan head.now.shard }
    requires places { ArePlaces texts.now head.now.mark.now head.now.columns head.now.plan head.now.shard.of places.now (length texts.now) }
    ensures seed { IfOk result (IsFirstSeed texts.now head.now.mark.now head.now.columns head.now.plan head.now.shard.of) }
    ensures refused { IfErr result (IsReason texts.now) }
{
    let number = shard_of_first_run(&head.plan, head.shard.of as usize);
    let behind = lines_behind(alloc, texts, head, places, number)?;
    let lines = behind.lines.as_bytes();
    match first_seed(alloc, &head.plan, head.mark, head.columns, lines)? {
        Some(seed) => Ok(seed),
        None => Err(JoinFault::Torn(behind.place)),
    }
}

/// The number, counted from 0, of the shard, one of so many, that has the first run.
fn shard_of_first_run(plan: &Plan, of: usize) -> usize
    requires asked { IsAskedFor plan.now }
    requires some { 1 ≤ of }
    ensures within { result < of }
    ensures first { first_run (shard_at result of) (shared plan.now.until plan.now) ≡ 0 }
    ensures some { 0 < past_run (shard_at result of) (shared plan.now.until plan.now) }
{
    (of - 1) / shared(plan)
}

/// How many things the shards of a sweep share: its runs, or its settings where it has a width.
fn shared(plan: &Plan) -> usize
    ensures { result ≡ shared plan.now.until plan.now }
{
    match plan.until() {
        Some(_width) => plan.settings(),
        None => plan.runs(),
    }
}
