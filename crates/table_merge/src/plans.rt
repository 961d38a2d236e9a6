//! The sweep of a table with other seeds.
ghost use Rattle.std.specs.Prelude.{◌≡◌, ◌<◌, ◌≤◌, ◌^◌, ◌*◌, Some, None, true, false, string_bytes, IfOk, IfErr, IfSome, IsNone};
ghost use Rattle.sweep_plan.specs.Asked.{seeds_text};
ghost use Rattle.sweep_plan.specs.Sweep.{run_count, seed_count, setting_count};
ghost use Rattle.shards.specs.Names.{plan_text};
ghost use Rattle.sweep.specs.Runs.{IsAskedFor};
ghost use Rattle.shard_merge.specs.declared.fault.JoinFault.TheVariants as join;
ghost use Rattle.table_merge.specs.Seeds.{with_seeds};

use base::Memory;
use shard_merge::{JoinFault, read_plan};
use shards::plan_text;
use std::alloc::Global;
use sweep_plan::{Plan, PlanFault, Seeds};

/// The most runs that a sweep has.
const MOST_RUNS: usize = 1_000_000;

/// The sweep of a plan, which has seeds, with these; none where it then has more than 1,000,000 runs.
pub(crate) fn plan_with(
    alloc: Global,
    plan: &Plan,
    own: Seeds,
    seeds: Seeds,
) -> Result<Option<Plan>, JoinFault>
    requires asked { IsAskedFor plan.now }
    requires own { plan.now ≡ with_seeds plan.now own }
    requires ordered { seeds.first ≤ seeds.last }
    requires low { seeds.last < 2 ^ 63 }
    ensures some { IfOk result (λ found. IfSome found (λ it. it ≡ with_seeds plan.now seeds)) }
    ensures asked { IfOk result (λ found. IfSome found (λ _. IsAskedFor (with_seeds plan.now seeds))) }
    ensures many { IfOk result (λ found. IsNone found → 1000000 < run_count (with_seeds plan.now seeds)) }
    ensures memory { IfErr result (λ fault. fault ≡ join.Memory) }
{
    if !are_few(plan, seeds) {
        return Ok(None);
    }
    let words = words_with(alloc, plan, own, seeds)?;
    match read_plan(alloc, words.as_str()) {
        Ok(found) => Ok(Some(found)),
        Err(PlanFault::Words) => unreachable!(),
        Err(PlanFault::Memory) => Err(JoinFault::Memory),
    }
}

/// Whether a sweep with these seeds has at most as many runs as one may have.
fn are_few(plan: &Plan, seeds: Seeds) -> bool
    requires ordered { seeds.first ≤ seeds.last }
    requires low { seeds.last < 2 ^ 63 }
    ensures few { result ≡ true → run_count (with_seeds plan.now seeds) ≤ 1000000 }
    ensures many { result ≡ false → 1000000 < run_count (with_seeds plan.now seeds) }
{
    plan.settings().saturating_mul(count_of(seeds)) <= MOST_RUNS
}

/// How many seeds there are.
pub(crate) fn count_of(seeds: Seeds) -> usize
    requires ordered { seeds.first ≤ seeds.last }
    requires low { seeds.last < 2 ^ 63 }
    ensures { result ≡ seed_count (Some seeds) }
{
    (seeds.last - seeds.first) as usize + 1
}

/// The words that ask for the sweep of a plan, which has seeds of its own, with other ones.
fn words_with(alloc: Global, plan: &Plan, own: Seeds, seeds: Seeds) -> Result<String, Memory>
    requires own { plan.now ≡ with_seeds plan.now own }
    ensures { IfOk result (λ words. string_bytes words ≡ plan_text (with_seeds plan.now seeds)) }
{
    let text = plan_text(alloc, plan)?;
    let word = seeds_text(alloc, own)?;
    let mut words = seeds_text(alloc, seeds)?;
    let Some(rest) = text.strip_prefix(word.as_str()) else {
        unreachable!()
    };
    words.push_str(rest)?;
    Ok(words)
}

/// The word of a range of seeds.
fn seeds_text(alloc: Global, seeds: Seeds) -> Result<String, Memory>
    ensures { IfOk result (λ word. string_bytes word ≡ seeds_text seeds) }
{
    let first = seeds.first;
    let last = seeds.last;
    Ok(format!(in alloc; "{first}..{last}")?)
}
