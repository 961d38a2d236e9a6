//! The runs of settings, one setting after the other.
ghost use Rattle.std.specs.Prelude.{◌≡◌, ◌<◌, ◌≤◌, ◌^◌, ◌+◌, ◌-◌, ◌*◌, ◌++◌, ◌∷◌, [], OnOk, OnErr, Option, List, ℕ, IfOk, IfErr};
ghost use Rattle.toml.specs.View.{view};
ghost use Rattle.sweep_plan.specs.Sweep.{setting_count, run_count, seed_count};
ghost use Rattle.run_output.specs.Written.{sink_failures};
ghost use Rattle.sweep.specs.Judged.{AreAccepted};
ghost use Rattle.sweep.specs.Runs.{IsAskedFor};
ghost use Rattle.sweep.specs.Table.{Course, HasCause};
ghost use Rattle.figures.specs.Notes.{Note};
ghost use Rattle.sweep_until.specs.Kept.{AreKept};
ghost use Rattle.sweep_until.specs.Until.{AreTooFew, BeginsSettings, BeginsWide, GoesOn, HasSettings, HasEnded, MakesSetting, Stretch, setting_course};

use crate::lots::make_lot;
use crate::runs::SettingRuns;
use base::{Fault, Memory};
use figures::{RunMetadata, SettingSummary};
use scenario::Workers;
use sequential_run::{a_run_exists, the_run_is_one};
use std::alloc::Global;
use std::marker::Sync;
use std::thread::Threads;
use sweep::{Gather, LotSize, Progress, SECOND_OF_WORK, first_run, next_lot};
use sweep_plan::Plan;
use toml::Value;
use trace::Sink;

/// How much each worker does before lines are written: some hundred milliseconds of work. What is made beyond the last run that
/// is wanted is thrown away, so few are made at a time.
const LOT: LotSize = LotSize {
    work: SECOND_OF_WORK / 10,
    runs: 32,
};

/// Makes the runs of the settings from one number to before another, writes their lines, and adds the summary of each. `key` is
/// that of the lines' checksums.
pub(crate) fn make_settings<S: Sink, P: Progress>(
    rt: &(impl Threads + Sync),
    alloc: Global,
    plan: &Plan,
    key: &[u8],
    width: u64,
    document: &Value,
    workers: Workers,
    first: usize,
    past: usize,
    progress: &P,
    settings: &mut Vec<SettingSummary>,
    table: &mut S,
) -> Result<(), Fault>
    requires asked { IsAskedFor plan.now }
    requires judged { AreAccepted (view document.now) plan.now }
    requires most { width ≤ 100 }
    requires ordered { first ≤ past }
    requires within { past ≤ setting_count plan.now.swept_keys }
    requires countable { S.failed table.old < 2 ^ 63 }
    ensures whole { OnOk result ((stretch : Stretch) (start : Option (List ℕ)) → stretch.key ≡ key.now → stretch.first ≡ first
        → HasSettings (view document.now) plan.now width stretch start (S.held table.old) 0 settings.old.items
        → HasSettings (view document.now) plan.now width stretch start (S.held table.new) (past - first) settings.new.items) }
    ensures part { OnErr result ((stretch : Stretch) (start : Option (List ℕ)) → stretch.key ≡ key.now → stretch.first ≡ first → stretch.settings ≡ past - first
        → HasSettings (view document.now) plan.now width stretch start (S.held table.old) 0 settings.old.items
        → BeginsSettings (view document.now) plan.now width stretch start (S.held table.new)) }
    ensures causes { IfErr result (HasCause (view document.now) plan.now) }
    ensures failures { S.failed table.new ≡ S.failed table.old + sink_failures result }
{
    a_run_exists();
    the_run_is_one();
    for number in first..past {
        let setting = make_setting(
            rt,
            alloc,
            plan,
            key,
            width,
            document,
            workers,
            number,
            &[],
            progress,
            table,
        )?;
        push_setting(settings, setting)?;
    }
    Ok(())
}

/// Adds the summary of a setting.
pub(crate) fn push_setting(
    settings: &mut Vec<SettingSummary>,
    setting: SettingSummary,
) -> Result<(), Memory>
    ensures { OnOk result (settings.new.items ≡ settings.old.items ++ setting ∷ []) }
{
    settings.push(setting)?;
    Ok(())
}

/// Makes the runs of the setting of this number, behind those that were made of it before, which are too few; writes their lines, and
/// returns the summary of the setting.
pub(crate) fn make_setting<S: Sink, P: Progress>(
    rt: &(impl Threads + Sync),
    alloc: Global,
    plan: &Plan,
    key: &[u8],
    width: u64,
    document: &Value,
    workers: Workers,
    number: usize,
    before: &[RunMetadata],
    progress: &P,
    table: &mut S,
) -> Result<SettingSummary, Fault>
    requires asked { IsAskedFor plan.now }
    requires judged { AreAccepted (view document.now) plan.now }
    requires most { width ≤ 100 }
    requires within { number < setting_count plan.now.swept_keys }
    requires open_yet { AreTooFew width (seed_count plan.now.seeds) before.now }
    requires countable { S.failed table.old < 2 ^ 63 }
    ensures whole { IfOk result (MakesSetting (view document.now) plan.now key.now width number before.now (S.held table.old) (S.held table.new)) }
    ensures part { OnErr result (BeginsWide (view document.now) plan.now width before.now (setting_course plan.now key.now number before.now (S.held table.old)) (S.held table.new)) }
    ensures causes { IfErr result (HasCause (view document.now) plan.now) }
    ensures failures { S.failed table.new ≡ S.failed table.old + sink_failures result }
{
    the_run_is_one();
    let first = first_run(plan, number);
    let past = first + plan.runs_of_setting();
    let from = first + before.len();
    let mut runs = kept_of(alloc, before)?;
    make_runs_of(
        rt, alloc, plan, key, width, document, workers, from, past, progress, &mut runs, table,
    )?;
    progress.runs_made(past, plan.runs());
    let setting = runs.into_summary()?;
    Ok(setting)
}

/// What a setting keeps of runs that were made before.
fn kept_of(alloc: Global, before: &[RunMetadata]) -> Result<SettingRuns, Memory>
    ensures { IfOk result (AreKept before.now) }
{
    let mut runs = SettingRuns::new(alloc);
    for note in before {
        runs.add(alloc, note)?;
    }
    Ok(runs)
}

/// Makes runs of a setting from one number to before another, until the interval is narrow enough, and writes their lines.
fn make_runs_of<S: Sink, P: Progress>(
    rt: &(impl Threads + Sync),
    alloc: Global,
    plan: &Plan,
    key: &[u8],
    width: u64,
    document: &Value,
    workers: Workers,
    first: usize,
    past: usize,
    progress: &P,
    runs: &mut SettingRuns,
    table: &mut S,
) -> Result<(), Fault>
    requires asked { IsAskedFor plan.now }
    requires judged { AreAccepted (view document.now) plan.now }
    requires most { width ≤ 100 }
    requires some { first < past }
    requires within { past ≤ run_count plan.now }
    requires countable { S.failed table.old < 2 ^ 63 }
    ensures whole { OnOk result ((before : List Note) (course : Course) → course.key ≡ key.now → GoesOn (view document.now) plan.now width before course (S.held table.old) runs.old first
        → HasEnded (view document.now) plan.now width before course (S.held table.new) runs.new first past) }
    ensures part { OnErr result ((before : List Note) (course : Course) → course.key ≡ key.now → past ≤ course.till → GoesOn (view document.now) plan.now width before course (S.held table.old) runs.old first
        → BeginsWide (view document.now) plan.now width before course (S.held table.new)) }
    ensures causes { IfErr result (HasCause (view document.now) plan.now) }
    ensures failures { S.failed table.new ≡ S.failed table.old + sink_failures result }
{
    let all = plan.runs();
    let mut next = first;
    while next < past {
        let lot = next_lot(alloc, plan, document, workers, LOT, next, past)?;
        progress.some_begin(next, all);
        let reached = make_lot(
            rt,
            alloc,
            plan,
            key,
            width,
            document,
            &lot.shares,
            next,
            lot.till,
            progress,
            runs,
            table,
        )?;
        if runs.is_narrow(width) {
            return Ok(());
        }
        next = reached;
        // the caller reports the last of a setting
        if next < past {
            progress.runs_made(next, all);
        }
    }
    Ok(())
}
