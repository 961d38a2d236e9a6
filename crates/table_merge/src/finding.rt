//! Which text is a table with which seeds.
ghost use Rattle.std.specs.Prelude.{◌≡◌, ◌<◌, ◌≤◌, ◌^◌, true, false, IfOk, IfErr, IfSome, IsNone, length};
ghost use Rattle.sweep_plan.specs.declared.seeds.Seeds.{Seeds as Range};
ghost use Rattle.sweep_plan.specs.Sweep.{run_count};
ghost use Rattle.shards.specs.Shards.{whole};
ghost use Rattle.sweep.specs.Runs.{IsAskedFor};
ghost use Rattle.shard_merge.specs.Joined.{IsMark};
ghost use Rattle.shard_merge.specs.declared.fault.JoinFault.TheVariants as join;
ghost use Rattle.table_merge.specs.Seeds.{with_seeds};
ghost use Rattle.table_merge.specs.Found.{AreFound, AreSeveral, BeginsAsTable, HaveSeeds};
ghost use Rattle.table_merge.specs.Reasons.{IsReason, RefusesTable};

use crate::fault::MergeFault;
use crate::ordering::take_in;
use crate::plans::plan_with;
use shard_merge::{Head, JoinFault, begins_as, first_head, head_of, number_of};
use shards::Shard;
use std::alloc::Global;
use std::str::from_utf8;
use sweep_plan::Seeds;

/// A table among the texts: its place, counted from 0, and its seeds.
#[derive(Clone, Copy, Debug, PartialEq, Eq)]
pub(crate) struct Found {
    pub(crate) place: usize,
    pub(crate) seeds: Seeds,
}

/// The first of several tables of a sweep: what its first line says, and its seeds.
#[derive(Drop)]
pub(crate) struct First<'a> {
    pub(crate) head: Head<'a>,
    pub(crate) seeds: Seeds,
}

/// What the first line of the first text says, where it is a table with seeds, each of whose settings runs with all of them, and there are others.
pub(crate) fn first_of_several<'a>(
    alloc: Global,
    texts: &'a [Vec<u8>],
) -> Result<Option<First<'a>>, JoinFault>
    ensures some { IfOk result (λ found. IfSome found (λ first. AreSeveral texts.entry.now first.head.mark.now first.head.columns first.head.plan first.seeds)) }
    ensures own { IfOk result (λ found. IfSome found (λ first. first.head.plan ≡ with_seeds first.head.plan first.seeds)) }
    ensures none { IfOk result (λ found. IsNone found → ¬ (HaveSeeds texts.entry.now)) }
    ensures refused { IfErr result (λ fault. IsReason texts.entry.now (MergeFault.Shards fault)) }
{
    if texts.len() < 2 {
        return Ok(None);
    }
    let head = first_head(alloc, texts)?;
    match seeds_of(&head) {
        Some(seeds) => Ok(Some(First { head, seeds })),
        None => Ok(None),
    }
}

/// The seeds of a table, each of whose settings runs with all of them; none where it is a shard of several, or has no seeds or a width.
fn seeds_of(head: &Head<'_>) -> Option<Seeds>
    ensures some { IfSome result (λ seeds. (head.now.plan ≡ with_seeds head.now.plan seeds) × (head.now.shard.of ≡ 1)) }
    ensures none { IsNone result → (seeds : Range) → head.now.shard.of ≡ 1 → ¬ (head.now.plan ≡ with_seeds head.now.plan seeds) }
{
    if head.shard.of != 1 || head.plan.until().is_some() {
        return None;
    }
    head.plan.seeds()
}

/// The tables that the texts are, all of the sweep of the first, in the order of their seeds.
pub(crate) fn tables_of(
    alloc: Global,
    texts: &[Vec<u8>],
    first: &First<'_>,
) -> Result<Vec<Found>, MergeFault>
    requires several { AreSeveral texts.now first.now.head.mark.now first.now.head.columns first.now.head.plan first.now.seeds }
    requires own { first.now.head.plan ≡ with_seeds first.now.head.plan first.now.seeds }
    ensures found { IfOk result (λ tables. AreFound texts.now first.now.head.mark.now first.now.head.columns first.now.head.plan tables.items (length texts.now)) }
    ensures refused { IfErr result (IsReason texts.now) }
{
    let mut tables = Vec::new(alloc);
    for (place, text) in texts.iter().enumerate() {
        let seeds = seeds_at(alloc, text.as_slice(), first, place)?;
        take_in(&mut tables, Found { place, seeds })?;
    }
    Ok(tables)
}

/// The seeds of a text that is a table of the sweep of the first; the text is that of this place.
fn seeds_at(alloc: Global, text: &[u8], first: &First<'_>, place: usize) -> Result<Seeds, JoinFault>
    requires asked { IsAskedFor first.now.head.plan }
    requires marked { IsMark first.now.head.mark.now }
    requires own { first.now.head.plan ≡ with_seeds first.now.head.plan first.now.seeds }
    ensures begins { IfOk result (λ seeds. BeginsAsTable text.now first.now.head.mark.now first.now.head.columns first.now.head.plan seeds) }
    ensures refused { IfErr result (RefusesTable text.now first.now.head.mark.now first.now.head.columns first.now.head.plan place) }
{
    let Ok(words) = from_utf8(text) else {
        return Err(JoinFault::NoShard(place));
    };
    if number_of(words).is_none() {
        return Err(JoinFault::NoShard(place));
    }
    let Some(found) = head_of(alloc, words, first.head.columns)? else {
        return Err(JoinFault::Other(place));
    };
    let Some(seeds) = seeds_of(&found) else {
        return Err(JoinFault::Other(place));
    };
    if !begins_with(alloc, text, first, seeds)? {
        return Err(JoinFault::Other(place));
    }
    Ok(seeds)
}

/// Whether a text begins as the table of the sweep of the first with these seeds.
fn begins_with(
    alloc: Global,
    text: &[u8],
    first: &First<'_>,
    seeds: Seeds,
) -> Result<bool, JoinFault>
    requires asked { IsAskedFor first.now.head.plan }
    requires marked { IsMark first.now.head.mark.now }
    requires own { first.now.head.plan ≡ with_seeds first.now.head.plan first.now.seeds }
    requires ordered { seeds.first ≤ seeds.last }
    requires low { seeds.last < 2 ^ 63 }
    ensures begins { IfOk result (λ it. it ≡ true → BeginsAsTable text.now first.now.head.mark.now first.now.head.columns first.now.head.plan seeds) }
    ensures other { IfOk result (λ it. it ≡ false → ¬ (BeginsAsTable text.now first.now.head.mark.now first.now.head.columns first.now.head.plan seeds)) }
    ensures memory { IfErr result (λ fault. fault ≡ join.Memory) }
{
    let Some(head) = head_with(alloc, first, seeds)? else {
        return Ok(false);
    };
    begins_as(alloc, text, &head, head.shard)
}

/// What the first line of the table of the sweep of the first says that has these seeds; nothing where it has too many runs.
pub(crate) fn head_with<'a>(
    alloc: Global,
    first: &First<'a>,
    seeds: Seeds,
) -> Result<Option<Head<'a>>, JoinFault>
    requires asked { IsAskedFor first.now.head.plan }
    requires own { first.now.head.plan ≡ with_seeds first.now.head.plan first.now.seeds }
    requires ordered { seeds.first ≤ seeds.last }
    requires low { seeds.last < 2 ^ 63 }
    ensures some { IfOk result (λ found. IfSome found (λ head. (head.mark.now ≡ first.now.head.mark.now) × (head.plan ≡ with_seeds first.now.head.plan seeds)
        × (head.columns ≡ first.now.head.columns) × (head.shard ≡ whole))) }
    ensures asked { IfOk result (λ found. IfSome found (λ head. IsAskedFor head.plan)) }
    ensures many { IfOk result (λ found. IsNone found → 1000000 < run_count (with_seeds first.now.head.plan seeds)) }
    ensures memory { IfErr result (λ fault. fault ≡ join.Memory) }
{
    match plan_with(alloc, &first.head.plan, first.seeds, seeds)? {
        Some(plan) => Ok(Some(Head {
            shard: Shard::whole(),
            mark: first.head.mark,
            plan,
            columns: first.head.columns,
        })),
        None => Ok(None),
    }
}
