//! Settings whose lines are those of the runs at their places.
ghost use Rattle.std.specs.Prelude.{◌≡◌, ◌⊎◌, ◌+◌, ◌-◌, ◌<◌, ◌≤◌, true, false, length, take, IfOk, IfSome, IsNone};
ghost use Rattle.sweep_plan.specs.Sweep.{setting_count};
ghost use Rattle.sweep.specs.Runs.{IsAskedFor};
ghost use Rattle.table_rows.specs.Settings.{AreSettingsOf, BeginsWithSettings, HasSettingOf, IsSettingOf, shard_setting};
ghost use Rattle.table_rows.specs.Items.{BeginsWith};

use crate::by_settings::read_setting;
use crate::fault::LineFault;
use base::Memory;
use std::alloc::Global;
use sweep::{LineKey, first_run, lines_of_runs};
use sweep_plan::Plan;
use sweep_until::SettingRuns;

/// The settings with which a text begins.
#[derive(Clone, Copy)]
pub struct StandingSettings<'a> {
    /// How many they are.
    pub count: usize,
    /// What comes behind them.
    pub left: &'a str,
}

/// The whole settings with which a text begins, from that of this number on, so many at most: each line is genuine at its
/// place.
pub fn settings_of_runs<'a>(
    alloc: Global,
    plan: &Plan,
    key: &LineKey,
    width: u64,
    first: usize,
    most: usize,
    text: &'a str,
) -> Result<StandingSettings<'a>, Memory>
    requires asked { IsAskedFor plan.now }
    requires narrow { width ≤ 100 }
    requires within { first + most ≤ setting_count plan.now.swept_keys }
    ensures begins { IfOk result (λ stood. BeginsWithSettings key.now plan.now width first text.entry.now stood.left.now stood.count) }
    ensures few { IfOk result (λ stood. stood.count ≤ most) }
    ensures no_more { IfOk result (λ stood. (stood.count ≡ most) ⊎ ¬ (HasSettingOf key.now plan.now width (first + stood.count) stood.left.now)) }
{
    let mut left = text;
    for count in 0..most {
        let Some(rest) = behind_setting(alloc, plan, key, width, first + count, left)? else {
            return Ok(StandingSettings { count, left });
        };
        left = rest;
    }
    Ok(StandingSettings { count: most, left })
}

/// Whether a text is so many whole settings, from that of this number on.
pub fn are_settings_of(
    alloc: Global,
    plan: &Plan,
    key: &LineKey,
    width: u64,
    first: usize,
    count: usize,
    text: &str,
) -> Result<bool, Memory>
    requires asked { IsAskedFor plan.now }
    requires narrow { width ≤ 100 }
    requires within { first + count ≤ setting_count plan.now.swept_keys }
    ensures are { IfOk result (λ it. it ≡ true → AreSettingsOf key.now plan.now width first text.now count) }
    ensures none { IfOk result (λ it. it ≡ false → ¬ (AreSettingsOf key.now plan.now width first text.now count)) }
{
    let stood = settings_of_runs(alloc, plan, key, width, first, count, text)?;
    if stood.count < count {
        return Ok(false);
    }
    Ok(stood.left.is_empty())
}

/// What is left of a text behind the setting of this number, where it begins with that.
fn behind_setting<'a>(
    alloc: Global,
    plan: &Plan,
    key: &LineKey,
    width: u64,
    number: usize,
    text: &'a str,
) -> Result<Option<&'a str>, Memory>
    requires asked { IsAskedFor plan.now }
    requires narrow { width ≤ 100 }
    requires within { number < setting_count plan.now.swept_keys }
    ensures some { IfOk result (λ found. IfSome found (λ left. BeginsWith (IsSettingOf key.now plan.now width number) shard_setting text.entry.now left.now)) }
    ensures none { IfOk result (λ found. IsNone found → ¬ (HasSettingOf key.now plan.now width number text.entry.now)) }
{
    let each = plan.runs_of_setting();
    let mut runs = SettingRuns::new(alloc);
    let left = match read_setting(alloc, text, width, each, &mut runs) {
        Ok(left) => left,
        Err(LineFault::Torn) => return Ok(None),
        Err(LineFault::Memory) => return Err(Memory),
    };
    let lines = before(text, left);
    let first = first_run(plan, number);
    let stood = lines_of_runs(alloc, plan, key, first, each, lines)?;
    if stood.left.is_empty() {
        return Ok(Some(left));
    }
    Ok(None)
}

/// What a text has before what is left of it.
pub(crate) fn before<'a>(text: &'a str, left: &str) -> &'a [u8]
    requires { length left.now ≤ length text.now }
    ensures { result.now ≡ take (length text.entry.now - length left.now) text.entry.now }
{
    &text.as_bytes()[..text.len() - left.len()]
}
