//! Tables in the order of their seeds.
ghost use Rattle.std.specs.Prelude.{◌≡◌, ◌<◌, ◌≤◌, ◌+◌, ℕ, Some, All, true, false, IfOk, IfErr, IfSome, IsNone, OnOk, get_or, length, map};
ghost use Rattle.std.specs.List.{Contains, insert};
ghost use Rattle.table_merge.specs.declared.finding.Found.{Found as Table};
ghost use Rattle.table_merge.specs.Seeds.{AreInTurn};
ghost use Rattle.table_merge.specs.Found.{AreApart, ShareSeed};
ghost use Rattle.table_merge.specs.Reasons.{RefusesIn, RefusesOrder};

use crate::fault::MergeFault;
use crate::finding::Found;
use shard_merge::JoinFault;
use sweep_plan::Seeds;

/// Takes a table in, at its place in the order of the seeds.
///
/// Faults: `Overlap` where another has one of its seeds; `Memory`.
pub(crate) fn take_in(tables: &mut Vec<Found>, table: Found) -> Result<(), MergeFault>
    requires ordered { table.seeds.first ≤ table.seeds.last }
    requires apart { AreApart 0 tables.old.items }
    ensures taken { OnOk result ((at : ℕ) × (at ≤ length tables.old.items) × (tables.new.items ≡ insert tables.old.items at table)) }
    ensures apart { OnOk result (AreApart 0 tables.new.items) }
    ensures refused { IfErr result (RefusesIn tables.old.items table) }
{
    if let Some(other) = sharing(tables, table.seeds) {
        return Err(MergeFault::Overlap(table.place, other.place));
    }
    let at = insertion_place(tables, table.seeds.first);
    match tables.insert(at, table) {
        Ok(()) => Ok(()),
        Err(_) => Err(MergeFault::Shards(JoinFault::Memory)),
    }
}

/// A table that has one of these seeds.
fn sharing(tables: &[Found], seeds: Seeds) -> Option<Found>
    ensures some { IfSome result (λ found. Contains tables.now found × ShareSeed found.seeds seeds) }
    ensures none { IsNone result → All (λ found. ¬ (ShareSeed found.seeds seeds)) tables.now }
{
    for found in tables {
        if share(found.seeds, seeds) {
            return Some(*found);
        }
    }
    None
}

/// Whether two ranges, the second of which has a seed, have one in common.
fn share(a: Seeds, b: Seeds) -> bool
    ensures yes { result ≡ true → ShareSeed a b }
    ensures none { result ≡ false → ¬ (ShareSeed a b) }
{
    a.first.max(b.first) <= a.last.min(b.last)
}

/// How many tables begin before a seed, of those that are in order, up to the first that doesn't.
fn insertion_place(tables: &[Found], seed: u64) -> usize
    ensures within { result ≤ length tables.now }
    ensures before { (k : ℕ) (d : Table) → k < result → (get_or tables.now k d).seeds.first < seed }
    ensures behind { (d : Table) → result < length tables.now → seed ≤ (get_or tables.now result d).seeds.first }
{
    for (place, found) in tables.iter().enumerate() {
        if found.seeds.first >= seed {
            return place;
        }
    }
    tables.len()
}

/// The seeds that tables in order have: from the first one's first to the last one's last.
///
/// Faults: `Gap` where they leave some out.
pub(crate) fn seeds_of_all(tables: &[Found]) -> Result<Seeds, MergeFault>
    requires some { 0 < length tables.now }
    requires apart { AreApart 0 tables.now }
    ensures follow { IfOk result (λ all. AreInTurn all.first (map (λ found. found.seeds) tables.now) (all.last + 1)) }
    ensures refused { IfErr result (RefusesOrder tables.now) }
{
    let first = tables[0].seeds.first;
    let mut last = tables[0];
    for place in 1..tables.len() {
        let next = tables[place];
        if next.seeds.first - last.seeds.last > 1 {
            return Err(MergeFault::Gap(last.place, next.place));
        }
        last = next;
    }
    Ok(Seeds {
        first,
        last: last.seeds.last,
    })
}
