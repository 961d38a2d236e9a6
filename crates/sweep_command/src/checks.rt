//! The checks of a sweep, before its table is looked at.
ghost use Rattle.std.specs.Prelude.{◌≡◌, ◌≢◌, None, Some, IfOk, IfErr, OnOk, string_bytes};
ghost use Rattle.toml.specs.Data.{Data};
ghost use Rattle.toml.specs.View.{view};
ghost use Rattle.sweep_plan.specs.Missing.{missing_of};
ghost use Rattle.sweep_plan.specs.Sweep.{Sweep};
ghost use Rattle.sweep.specs.Runs.{IsAskedFor, planned_as};
ghost use Rattle.sweep.specs.Judged.{AreAccepted, IsFirstRefused};
ghost use Rattle.sweep_command.specs.Outcomes.{FailsSweepCheck, LacksItem, PassesSweepChecks, RefusesSetting};

use crate::workers::sweep_workers;
use base::Memory;
use command_line::{Failure, SweepWords};
use files::Files;
use scenario::Workers;
use scenario_files::{MarkedDocument, load_document};
use std::alloc::Global;
use std::thread::Threads;
use sweep::{Refused, judge};
use sweep_plan::{Plan, SweptKey, choices_text, missing_item};
use toml::Value;

/// The number of the rule that stands for want of memory.
const MEMORY_RULE: u8 = 11;

/// What a sweep goes by, once its checks have passed.
#[derive(Drop)]
pub(crate) struct PreparedSweep {
    /// How many workers make the runs.
    pub(crate) workers: Workers,
    /// The scenario's document, and the mark of its text.
    pub(crate) marked: MarkedDocument,
}

/// The checks of a sweep, in their order: how many workers, which document, whether it has the items whose keys are set,
/// whether that of each run is accepted.
pub(crate) fn prepare_sweep<'a, F: Files>(
    rt: &impl Threads,
    alloc: Global,
    words: &SweepWords<'a>,
    files: &mut F,
) -> Result<PreparedSweep, Failure<'a>>
    requires { IsAskedFor words.now.plan }
    ensures passed { IfOk result (λ p. PassesSweepChecks (F.known files.old) words.now p.workers (view p.marked.document) (string_bytes p.marked.mark)) }
    ensures failed { IfErr result (FailsSweepCheck (F.known files.old) words.now) }
    ensures same { F.known files.new ≡ F.known files.old }
    ensures making { F.making files.new ≡ F.making files.old }
    ensures counted { F.refused files.new ≡ F.refused files.old }
{
    let workers = sweep_workers(rt, words.workers)?;
    let marked = load_document(alloc, words.file, files)?;
    find_items(alloc, &words.plan, &marked.document)?;
    judge_settings(alloc, &words.plan, &marked.document)?;
    Ok(PreparedSweep { workers, marked })
}

/// Whether the document has the items of lists whose keys are set, each once.
fn find_items(alloc: Global, plan: &Plan, document: &Value) -> Result<(), Failure<'static>>
    ensures there { OnOk result (missing_of (view document.now) plan.now.swept_keys ≡ None) }
    ensures missing { IfErr result (LacksItem (view document.now) plan.now) }
{
    match missing_item(alloc, plan.swept_keys(), document) {
        Ok(None) => Ok(()),
        Ok(Some(key)) => Err(item_failure(alloc, key)),
        Err(Memory) => Err(Failure::Memory),
    }
}

/// The failure that names the key of an item which isn't there.
fn item_failure(alloc: Global, key: SweptKey) -> Failure<'static>
    ensures { (tree : Data) (plan : Sweep) → missing_of tree plan.swept_keys ≡ Some key → LacksItem tree plan result }
{
    match key.name(alloc) {
        Ok(key) => Failure::NoItem { key },
        Err(Memory) => Failure::Memory,
    }
}

/// Whether the document of each run is accepted.
fn judge_settings(alloc: Global, plan: &Plan, document: &Value) -> Result<(), Failure<'static>>
    requires { IsAskedFor plan.now }
    ensures accepted { OnOk result (AreAccepted (view document.now) plan.now) }
    ensures refused { IfErr result (RefusesSetting (view document.now) plan.now) }
{
    match judge(alloc, plan, document) {
        Ok(()) => Ok(()),
        Err(refused) => Err(setting_failure(alloc, &refused)),
    }
}

/// The failure that names a refused setting.
fn setting_failure(alloc: Global, refused: &Refused) -> Failure<'static>
    ensures { (tree : Data) (plan : Sweep) → (refused.now.refusal.rule ≢ 11 → IsFirstRefused tree plan (planned_as refused.now.setting.items refused.now.seed) refused.now.refusal.rule)
        → RefusesSetting tree plan result }
{
    let rule = refused.refusal.rule;
    if rule == MEMORY_RULE {
        return Failure::Memory;
    }
    match choices_text(alloc, &refused.setting) {
        Ok(swept_keys) => Failure::Setting { rule, swept_keys },
        Err(Memory) => Failure::Memory,
    }
}
