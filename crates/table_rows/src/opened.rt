//! The lines of a setting that needs more runs.
ghost use Rattle.std.specs.Prelude.{◌≡◌, ◌<◌, [], ℕ, IfOk, IfSome, IsNone};
ghost use Rattle.sweep_plan.specs.Sweep.{run_count, setting_count};
ghost use Rattle.sweep.specs.Runs.{IsAskedFor};
ghost use Rattle.table_rows.specs.Open.{BeginsWithOpen, HasRowOf, ReadsRow};
ghost use Rattle.table_rows.specs.Settings.{HasSettingOf};

use crate::fault::LineFault;
use crate::lines::read_note;
use crate::settings_of::before;
use base::Memory;
use figures::RunMetadata;
use std::alloc::Global;
use sweep::{LineKey, are_lines_of, first_run};
use sweep_plan::Plan;

/// The lines with which a text begins of the first runs of the setting of this number, where the text doesn't begin with that whole
/// setting: each is genuine at its place. Gives what is left of the text; `started` was empty, and gets their metadata.
pub fn open_rows<'a>(
    alloc: Global,
    plan: &Plan,
    key: &LineKey,
    number: usize,
    text: &'a str,
    started: &mut Vec<RunMetadata>,
) -> Result<&'a str, Memory>
    requires asked { IsAskedFor plan.now }
    requires within { number < setting_count plan.now.swept_keys }
    requires none { started.old.items ≡ [] }
    ensures { IfOk result (λ left. (width : ℕ) → ¬ (HasSettingOf key.now plan.now width number text.entry.now)
        → BeginsWithOpen key.now plan.now width number text.entry.now left.now started.new.items) }
{
    let first = first_run(plan, number);
    let mut left = text;
    for run in first..first + plan.runs_of_setting() {
        let Some(rest) = behind_row(alloc, plan, key, run, left, started)? else {
            return Ok(left);
        };
        left = rest;
    }
    Ok(left)
}

/// What is left of a text behind the line of the run of this number, where it begins with that; its metadata comes behind the others.
fn behind_row<'a>(
    alloc: Global,
    plan: &Plan,
    key: &LineKey,
    number: usize,
    text: &'a str,
    started: &mut Vec<RunMetadata>,
) -> Result<Option<&'a str>, Memory>
    requires asked { IsAskedFor plan.now }
    requires within { number < run_count plan.now }
    ensures some { IfOk result (λ found. IfSome found (λ left. ReadsRow key.now plan.now number text.entry.now left.now started.old.items started.new.items)) }
    ensures none { IfOk result (λ found. IsNone found → ¬ (HasRowOf key.now plan.now number text.entry.now)) }
    ensures same { IfOk result (λ found. IsNone found → started.new.items ≡ started.old.items) }
{
    let (note, left) = match read_note(alloc, text) {
        Ok(read) => read,
        Err(LineFault::Torn) => return Ok(None),
        Err(LineFault::Memory) => return Err(Memory),
    };
    let line = before(text, left);
    let is_row = are_lines_of(alloc, plan, key, number, 1, line)?;
    if is_row {
        started.push(note)?;
        return Ok(Some(left));
    }
    Ok(None)
}
