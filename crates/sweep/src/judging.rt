//! Whether all scenarios of a sweep keep the format's rules.
ghost use Rattle.std.specs.Prelude.{◌≡◌, ◌≢◌, ◌<◌, ◌≤◌, ◌+◌, ◌*◌, OnOk, IfOk, IfErr};
ghost use Rattle.toml.specs.View.{view};
ghost use Rattle.scenario.specs.Setup.{is_fourth};
ghost use Rattle.scenario_reader.specs.Reading.{version_of};
ghost use Rattle.sweep_plan.specs.Sweep.{run_count, seed_count, setting_count};
ghost use Rattle.sweep.specs.Runs.{IsAskedFor, IsRunAt, Planned as Run, document_of, planned_as};
ghost use Rattle.sweep.specs.Judged.{AreAccepted, AreFirstAccepted, IsAcceptedAt, IsFirstRefused, RefusesBehind};

use crate::planned::{first_run, planned};
use crate::tick::tick_of;
use scenario::Version;
use scenario_reader::{Refusal, version_of};
use std::alloc::Global;
use sweep_plan::{Choice, Plan, with_values};
use text_reader::read_tree;
use toml::Value;

/// Why a sweep is refused before anything runs.
#[derive(Drop)]
pub struct Refused {
    /// The values of the first setting of which a scenario breaks a rule; none where memory was refused.
    pub setting: Vec<Choice>,
    /// The seed of its run, where seeds are asked for.
    pub seed: Option<u64>,
    /// The least rule that the scenario breaks; rule 11 where memory was refused.
    pub refusal: Refusal,
}

/// Reads the scenario of each run that a sweep asks for. The first run whose scenario breaks a rule is returned, with the least
/// rule that it breaks. Of a document before version 4 another seed changes no verdict, so that only a setting's first seed is read.
pub fn judge(alloc: Global, plan: &Plan, document: &Value) -> Result<(), Refused>
    requires { IsAskedFor plan.now }
    ensures accepted { OnOk result (AreAccepted (view document.now) plan.now) }
    ensures refused { IfErr result (λ r. r.refusal.rule ≢ 11 → IsFirstRefused (view document.now) plan.now (planned_as r.setting.items r.seed) r.refusal.rule) }
    ensures numbered { IfErr result (λ r. (1 ≤ r.refusal.rule) × (r.refusal.rule ≤ 11)) }
{
    for setting in 0..plan.settings() {
        judge_setting(alloc, plan, document, setting)?;
    }
    Ok(())
}

/// Reads the scenarios of a setting's runs: of version 4 all, since its texts may draw members and moments, else the first.
fn judge_setting(
    alloc: Global,
    plan: &Plan,
    document: &Value,
    setting: usize,
) -> Result<(), Refused>
    requires asked { IsAskedFor plan.now }
    requires within { setting < setting_count plan.now.swept_keys }
    ensures accepted { OnOk result (AreFirstAccepted (view document.now) plan.now (setting * seed_count plan.now.seeds)
        → AreFirstAccepted (view document.now) plan.now ((setting + 1) * seed_count plan.now.seeds)) }
    ensures refused { IfErr result (RefusesBehind (view document.now) plan.now (setting * seed_count plan.now.seeds)) }
    ensures numbered { IfErr result (λ r. (1 ≤ r.refusal.rule) × (r.refusal.rule ≤ 11)) }
{
    let first = first_run(plan, setting);
    let may_differ = judge_run(alloc, plan, document, first)?;
    if may_differ {
        return judge_runs(
            alloc,
            plan,
            document,
            first + 1,
            first + plan.runs_of_setting(),
        );
    }
    Ok(())
}

/// Reads the scenarios of the runs from one number to before another.
fn judge_runs(
    alloc: Global,
    plan: &Plan,
    document: &Value,
    from: usize,
    till: usize,
) -> Result<(), Refused>
    requires asked { IsAskedFor plan.now }
    requires ordered { from ≤ till }
    requires within { till ≤ run_count plan.now }
    ensures accepted { OnOk result (AreFirstAccepted (view document.now) plan.now from → AreFirstAccepted (view document.now) plan.now till) }
    ensures refused { IfErr result (RefusesBehind (view document.now) plan.now from) }
    ensures numbered { IfErr result (λ r. (1 ≤ r.refusal.rule) × (r.refusal.rule ≤ 11)) }
{
    for number in from..till {
        judge_run(alloc, plan, document, number)?;
    }
    Ok(())
}

/// Reads the scenario of the run of this number. Returns whether one with another seed may be refused: whether its document is of
/// version 4.
fn judge_run(alloc: Global, plan: &Plan, document: &Value, number: usize) -> Result<bool, Refused>
    requires asked { IsAskedFor plan.now }
    requires within { number < run_count plan.now }
    ensures accepted { IfOk result (λ _. IsAcceptedAt (view document.now) plan.now number) }
    ensures fourth { IfOk result (λ fourth. (p : Run) → IsRunAt plan.now number p → fourth ≡ is_fourth (version_of (document_of (view document.now) p))) }
    ensures refused { IfErr result (RefusesBehind (view document.now) plan.now number) }
    ensures numbered { IfErr result (λ r. (1 ≤ r.refusal.rule) × (r.refusal.rule ≤ 11)) }
{
    let Ok(run) = planned(alloc, plan, number) else {
        return Err(no_memory(alloc));
    };
    let Ok(tree) = with_values(alloc, document, &run.setting, run.seed) else {
        return Err(no_memory(alloc));
    };
    match read_tree(alloc, &tree) {
        Ok(_scenario) => {
            let _tick = tick_of(document);
            Ok(is_fourth(version_of(&tree)))
        }
        Err(refusal) => Err(Refused {
            setting: run.setting,
            seed: run.seed,
            refusal,
        }),
    }
}

/// Whether it is version 4.
fn is_fourth(version: Version) -> bool
    ensures { result ≡ is_fourth version }
{
    matches!(version, Version::Four)
}

/// Memory was refused before a run was looked at.
fn no_memory(alloc: Global) -> Refused
    ensures { result.refusal.rule ≡ 11 }
{
    Refused {
        setting: Vec::new(alloc),
        seed: None,
        refusal: Refusal { rule: 11, place: 0 },
    }
}
