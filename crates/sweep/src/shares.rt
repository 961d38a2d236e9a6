//! The runs that come next, dealt out to workers.
ghost use Rattle.std.specs.Prelude.{◌≡◌, ◌<◌, ◌≤◌, ◌+◌, ◌^◌, ℕ, true, length, IfOk, OnOk};
ghost use Rattle.toml.specs.View.{view};
ghost use Rattle.sweep_plan.specs.Sweep.{run_count};
ghost use Rattle.sweep.specs.Judged.{AreAccepted};
ghost use Rattle.sweep.specs.Runs.{IsAskedFor};
ghost use Rattle.sweep.specs.Shares.{AreShares};

use crate::reading::read_run;
use crate::work::{changes_work, work_of};
use base::Memory;
use scenario::Workers;
use std::alloc::Global;
use sweep_plan::Plan;
use toml::Value;

/// Runs that a worker makes one after the other.
#[derive(Clone, Copy)]
pub struct Share {
    /// The number of the first.
    pub from: usize,
    /// That of the one past the last.
    pub till: usize,
}

/// The runs that are made before lines are written again.
#[derive(Drop)]
pub struct Lot {
    /// Those of each worker, in the order of their numbers.
    pub shares: Vec<Share>,
    /// The number of the run past the last.
    pub till: usize,
}

/// How much each worker does before lines are written again.
#[derive(Clone, Copy)]
pub struct LotSize {
    /// About so much work, as `work_of` estimates it.
    pub work: u64,
    /// And no more than so many runs.
    pub runs: usize,
}

/// The runs from one number on that are made before lines are written again: one at least, and none from `till` on. How many
/// they are goes by the work that each of them is, as its own scenario says. A run that is long, and more than twice as long as
/// the first, begins another lot, so that the lines of short runs don't wait for it. Each worker gets about as much work.
pub fn next_lot(
    alloc: Global,
    plan: &Plan,
    document: &Value,
    workers: Workers,
    size: LotSize,
    next: usize,
    till: usize,
) -> Result<Lot, Memory>
    requires asked { IsAskedFor plan.now }
    requires judged { AreAccepted (view document.now) plan.now }
    requires some { next < till }
    requires within { till ≤ run_count plan.now }
    ensures shared { IfOk result (λ lot. AreShares next lot.till lot.shares.items) }
    ensures further { IfOk result (λ lot. next < lot.till) }
    ensures bounded { IfOk result (λ lot. lot.till ≤ till) }
{
    let works = works_ahead(alloc, plan, document, workers, size, next, till)?;
    let till = next + works.len();
    let shares = dealt(alloc, next, till, &works, workers)?;
    Ok(Lot { shares, till })
}

/// How much work each of the runs is that are made next.
fn works_ahead(
    alloc: Global,
    plan: &Plan,
    document: &Value,
    workers: Workers,
    size: LotSize,
    next: usize,
    till: usize,
) -> Result<Vec<u64>, Memory>
    requires asked { IsAskedFor plan.now }
    requires judged { AreAccepted (view document.now) plan.now }
    requires some { next < till }
    requires within { till ≤ run_count plan.now }
    ensures some { IfOk result (λ works. 0 < length works.items) }
    ensures bounded { IfOk result (λ works. next + length works.items ≤ till) }
{
    let alike = runs_alike(plan);
    let mut works = Vec::new(alloc);
    let mut held = 0u64;
    let mut work = 0u64;
    for number in next..till {
        if number == next || number % alike == 0 {
            work = work_of(&read_run(alloc, plan, document, number)?);
        }
        if is_full(&works, held, work, size, workers) {
            return Ok(works);
        }
        held = held.saturating_add(work.min(size.work));
        works.push(work)?;
    }
    Ok(works)
}

/// How many runs, one after the other from a multiple of that, are as much work: those of a setting, or all where no key that is
/// set changes it.
fn runs_alike(plan: &Plan) -> usize
    ensures { 0 < result }
{
    for swept in plan.swept_keys() {
        if changes_work(swept.key().key) {
            return plan.runs_of_setting().max(1);
        }
    }
    plan.runs().max(1)
}

/// Whether a lot in which there is a run already has no room for one of so much work.
fn is_full(works: &[u64], held: u64, work: u64, size: LotSize, workers: Workers) -> bool
    ensures { result ≡ true → 0 < length works.now }
{
    let Some(first) = works.first() else {
        return false;
    };
    let count = workers.count();
    works.len() / count >= size.runs
        || held / count as u64 >= size.work
        || work > size.work.max(first.saturating_mul(2))
}

/// The runs from one number to before another, of which each is so much work, dealt out to no more than so many workers, in the
/// order of their numbers.
fn dealt(
    alloc: Global,
    from: usize,
    till: usize,
    works: &[u64],
    workers: Workers,
) -> Result<Vec<Share>, Memory>
    requires { till ≡ from + length works.now }
    ensures { IfOk result (λ shares. AreShares from till shares.items) }
{
    let enough = total(works).div_ceil(workers.count() as u64).max(1);
    let mut shares = Vec::new(alloc);
    let mut start = from;
    let mut held = 0u64;
    let mut next = from;
    for work in works {
        next += 1;
        held = held.saturating_add(*work);
        if held >= enough {
            share_out(&mut shares, start, next)?;
            start = next;
            held = 0;
        }
    }
    share_out(&mut shares, start, till)?;
    Ok(shares)
}

/// Adds a share, unless it has no run.
fn share_out(shares: &mut Vec<Share>, from: usize, till: usize) -> Result<(), Memory>
    requires { from ≤ till }
    ensures { OnOk result ((first : ℕ) → first ≤ from → AreShares first from shares.old.items → AreShares first till shares.new.items) }
{
    if from < till {
        shares.push(Share { from, till })?;
    }
    Ok(())
}

/// All the work.
fn total(works: &[u64]) -> u64 {
    let mut all = 0u64;
    for work in works {
        all = all.saturating_add(*work);
    }
    all
}
