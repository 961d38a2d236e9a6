//! Settings that have as many runs as are enough, one after the other.
ghost use Rattle.std.specs.Prelude.{List, ◌≡◌, ◌<◌, ◌≤◌, ◌++◌, ◌∷◌, [], IfOk, IfErr, OnOk};
ghost use Rattle.figures.specs.Settings.{IsSummaryOf};
ghost use Rattle.figures.specs.Notes.{Note};
ghost use Rattle.sweep_until.specs.Kept.{AreKept, runs_in};
ghost use Rattle.table_rows.specs.Settings.{AreSettings, HasSetting, ReadsSetting, ReadsSettings, SumsUpSetting};
ghost use Rattle.table_rows.specs.Refused.{Refuses};

use crate::fault::LineFault;
use crate::lines::read_line;
use base::Memory;
use figures::SettingSummary;
use std::alloc::Global;
use sweep_until::SettingRuns;

/// Reads the lines of the first setting of a text, keeps its runs, of which nothing is kept yet, and gives what is left of the
/// text. A setting has as many runs as make its interval so narrow, or so many.
///
/// Faults: `Torn` where the text begins with no whole setting; `Memory`.
pub fn read_setting<'a>(
    alloc: Global,
    text: &'a str,
    width: u64,
    each: usize,
    runs: &mut SettingRuns,
) -> Result<&'a str, LineFault>
    requires most { width ≤ 100 }
    requires none { AreKept [] runs.old }
    ensures read { IfOk result (λ left. ReadsSetting width each text.entry.now left.now runs.new) }
    ensures refused { IfErr result (Refuses (HasSetting width each text.entry.now)) }
{
    let mut left = text;
    for _run in 0..each {
        left = read_line(alloc, left, runs)?;
        if runs.is_narrow(width) {
            return Ok(left);
        }
    }
    Ok(left)
}

/// Reads the settings of a text, so many, and adds their summaries.
///
/// Faults: `Torn` where the text isn't so many settings; `Memory`.
pub fn read_settings(
    alloc: Global,
    text: &str,
    width: u64,
    each: usize,
    count: usize,
    settings: &mut Vec<SettingSummary>,
) -> Result<(), LineFault>
    requires most { width ≤ 100 }
    requires some { 0 < each }
    ensures read { OnOk result (ReadsSettings width each text.now count settings.old.items settings.new.items) }
    ensures refused { IfErr result (Refuses (AreSettings width each text.now count)) }
{
    let mut left = text;
    for _setting in 0..count {
        left = sum_up_setting(alloc, left, width, each, settings)?;
    }
    if left.is_empty() {
        return Ok(());
    }
    Err(LineFault::Torn)
}

/// Reads the lines of the first setting of a text, adds its summary, and gives what is left of the text.
fn sum_up_setting<'a>(
    alloc: Global,
    text: &'a str,
    width: u64,
    each: usize,
    settings: &mut Vec<SettingSummary>,
) -> Result<&'a str, LineFault>
    requires most { width ≤ 100 }
    requires some { 0 < each }
    ensures read { IfOk result (λ left. SumsUpSetting width each text.entry.now left.now settings.old.items settings.new.items) }
    ensures refused { IfErr result (Refuses (HasSetting width each text.entry.now)) }
{
    let mut runs = SettingRuns::new(alloc);
    let left = read_setting(alloc, text, width, each, &mut runs)?;
    match push_summary(settings, runs) {
        Ok(()) => Ok(left),
        Err(Memory) => Err(LineFault::Memory),
    }
}

/// Adds the summary of the runs of a setting.
fn push_summary(settings: &mut Vec<SettingSummary>, runs: SettingRuns) -> Result<(), Memory>
    requires { 0 < runs_in runs }
    ensures { OnOk result ((notes : List Note) → AreKept notes runs → (setting : SettingSummary) × IsSummaryOf setting notes × (settings.new.items ≡ settings.old.items ++ setting ∷ [])) }
{
    let summary = runs.into_summary()?;
    settings.push(summary)?;
    Ok(())
}
