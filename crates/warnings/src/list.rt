//! Collects all warnings of a scenario in their fixed order: first settings and the whole run, then the items of lists.
ghost use Rattle.std.specs.Prelude.{◌≡◌, ◌++◌, ◌≤◌, ◌^◌, IfOk, OnOk};
ghost use Rattle.warnings.specs.Told.{warnings_of, told_if};

use crate::events::{push_crashes, push_cuts, push_leaves};
use crate::paths::push_paths;
use crate::pauses::push_pauses;
use crate::run::push_run;
use crate::settings::push_settings;
use crate::slows::push_slows;
use crate::warning::Warning;
use base::Memory;
use scenario::Scenario;
use std::alloc::Global;

/// What the scenario is warned of, in the order of `Warning`'s cases for its single settings and the whole run,
/// and then of the items of its lists: paths, slow times, crashes, leaves, cuts, pauses. `trip` is the greatest
/// round trip of a pair of its members.
pub(crate) fn warnings_of(
    alloc: Global,
    scenario: &Scenario,
    trip: u64,
) -> Result<Vec<Warning>, Memory>
    requires { trip ≤ 2 ^ 22 }
    ensures { IfOk result (λ told. told.items ≡ warnings_of scenario.now trip) }
{
    let mut told = Vec::new(alloc);
    push_settings(&mut told, scenario, trip)?;
    push_run(&mut told, scenario, trip)?;
    push_paths(alloc, &mut told, scenario)?;
    push_slows(&mut told, scenario, trip)?;
    push_crashes(&mut told, scenario)?;
    push_leaves(&mut told, scenario)?;
    push_cuts(&mut told, scenario)?;
    push_pauses(&mut told, scenario)?;
    Ok(told)
}

/// Appends a warning where its condition holds.
pub(crate) fn push_if(
    told: &mut Vec<Warning>,
    condition: bool,
    warning: Warning,
) -> Result<(), Memory>
    ensures { OnOk result (told.new.items ≡ told.old.items ++ told_if condition warning) }
{
    if condition {
        told.push(warning)?;
    }
    Ok(())
}
