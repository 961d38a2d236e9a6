//! The scenarios of runs that a sweep asks for.
ghost use Rattle.std.specs.Prelude.{◌≡◌, ◌<◌, IfOk};
ghost use Rattle.toml.specs.View.{view};
ghost use Rattle.sweep_plan.specs.Sweep.{run_count};
ghost use Rattle.sweep.specs.Judged.{AreAccepted};
ghost use Rattle.sweep.specs.Runs.{IsAskedFor};
ghost use Rattle.sweep.specs.Table.{IsReadAt};

use crate::planned::planned;
use base::Memory;
use scenario::Scenario;
use scenario_reader::Refusal;
use std::alloc::Global;
use sweep_plan::{Plan, with_values};
use text_reader::read_tree;
use toml::Value;

/// The scenario of the run of this number. Its document was judged, so an error is want of memory.
pub fn read_run(
    alloc: Global,
    plan: &Plan,
    document: &Value,
    number: usize,
) -> Result<Scenario, Memory>
    requires asked { IsAskedFor plan.now }
    requires judged { AreAccepted (view document.now) plan.now }
    requires within { number < run_count plan.now }
    ensures { IfOk result (IsReadAt (view document.now) plan.now number) }
{
    let run = planned(alloc, plan, number)?;
    let tree = with_values(alloc, document, &run.setting, run.seed)?;
    match read_tree(alloc, &tree) {
        Ok(scenario) => Ok(scenario),
        Err(refusal) => Err(memory_of(refusal)),
    }
}

/// The want of memory that a refusal stands for.
fn memory_of(_refusal: Refusal) -> Memory
    requires { _refusal.rule ≡ 11 }
{
    Memory
}
