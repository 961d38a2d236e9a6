//! The runs that a sweep asks for, by their numbers.
ghost use Rattle.std.specs.Prelude.{◌≡◌, ◌<◌, ◌≤◌, ◌+◌, ◌*◌, ◌^◌, All, Some, slice_get, IfOk};
ghost use Rattle.std.specs.Option.{ForSome};
ghost use Rattle.sweep_plan.specs.Values.{FitsToml};
ghost use Rattle.sweep_plan.specs.Sweep.{setting_count, run_count, seed_count};
ghost use Rattle.sweep.specs.Runs.{IsAskedFor, IsRunAt, planned_as, seeds_of};

use base::Memory;
use std::alloc::Global;
use sweep_plan::{Choice, Plan, Seeds};

/// A run that a sweep asks for.
#[derive(Drop)]
pub(crate) struct PlannedRun {
    /// The values of its setting.
    pub(crate) setting: Vec<Choice>,
    /// Its seed; none where the text's own is meant.
    pub(crate) seed: Option<u64>,
}

/// The run of this number, counted from 0: the settings come one after the other, and of each its seeds.
pub(crate) fn planned(alloc: Global, plan: &Plan, number: usize) -> Result<PlannedRun, Memory>
    requires asked { IsAskedFor plan.now }
    requires within { number < run_count plan.now }
    ensures run { IfOk result (λ run. IsRunAt plan.now number (planned_as run.setting.items run.seed)) }
    ensures fits { IfOk result (λ run. All (λ c. FitsToml c.value) run.setting.items) }
    ensures low { IfOk result (λ run. ForSome run.seed (λ n. n < 2 ^ 63)) }
{
    let each = plan.runs_of_setting();
    let setting = plan.setting_at(alloc, number / each)?;
    let seed = seed_at(plan.seeds(), number % each);
    Ok(PlannedRun { setting, seed })
}

/// The number of the first run of a setting.
pub fn first_run(plan: &Plan, setting: usize) -> usize
    requires asked { IsAskedFor plan.now }
    requires within { setting < setting_count plan.now.swept_keys }
    ensures first { result ≡ setting * seed_count plan.now.seeds }
    ensures within { result + seed_count plan.now.seeds ≤ run_count plan.now }
    ensures some { result < run_count plan.now }
    ensures few { result + seed_count plan.now.seeds ≤ 1000000 }
{
    setting * plan.runs_of_setting()
}

/// The seed at this place among those with which each setting runs.
fn seed_at(seeds: Option<Seeds>, place: usize) -> Option<u64>
    requires low { ForSome seeds (λ r. r.last < 2 ^ 63) }
    requires within { place < seed_count seeds }
    ensures seed { slice_get (seeds_of seeds) place ≡ Some result }
    ensures low { ForSome result (λ n. n < 2 ^ 63) }
{
    match seeds {
        Some(seeds) => Some(seeds.first + place as u64),
        None => None,
    }
}
