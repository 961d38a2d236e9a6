//! Which settings meet what is wanted, and which of them is best.
ghost use Rattle.std.specs.Prelude.{◌≡◌, ◌-◌, ◌&&◌, All};
ghost use Rattle.std.specs.List.{list_any};
ghost use Rattle.std.specs.Option.{option_map};
ghost use Rattle.goals.specs.Bounds.{runs_that_tell};
ghost use Rattle.goals.specs.Front.{has_crash};
ghost use Rattle.goals.specs.Wants.{HasFewRuns, IsBestOf, IsBounded, is_best, is_better, is_safer, is_sooner, may_meet, meets, more_of, more_runs, refutes};

use crate::bounds::runs_that_tell;
use crate::front::{has_crash, is_no_more_often, no_later};
use crate::statistic::{Statistic, ticks};
use crate::want::{Want, refutes, shows};
use figures::SettingSummary;

/// Whether a setting shows that it meets all that is wanted.
pub fn meets(wants: &[Want], setting: &SettingSummary) -> bool
    requires bounded { All IsBounded wants.now }
    requires few { HasFewRuns setting.now }
    ensures { result ≡ meets wants.now setting.now }
{
    for want in wants {
        if !shows(want.statistic, want.most, setting) {
            return false;
        }
    }
    true
}

/// Whether it may meet all, but doesn't show it yet.
pub fn may_meet(wants: &[Want], setting: &SettingSummary) -> bool
    requires bounded { All IsBounded wants.now }
    requires few { HasFewRuns setting.now }
    ensures { result ≡ may_meet wants.now setting.now }
{
    !meets(wants, setting) && !is_refuted(wants, setting)
}

/// Whether it shows that it doesn't meet one of them.
fn is_refuted(wants: &[Want], setting: &SettingSummary) -> bool
    requires bounded { All IsBounded wants.now }
    requires few { HasFewRuns setting.now }
    ensures { result ≡ list_any (λ want. refutes want.statistic want.most setting.now) wants.now }
{
    for want in wants {
        if refutes(want.statistic, want.most, setting) {
            return true;
        }
    }
    false
}

/// How many more runs would show whether a setting meets all, if the share of runs with a false death stays: by the
/// first that isn't shown. None where no number of them would.
pub fn more_runs(wants: &[Want], setting: &SettingSummary) -> Option<u128>
    requires bounded { All IsBounded wants.now }
    requires few { HasFewRuns setting.now }
    ensures { result ≡ more_runs wants.now setting.now }
{
    for want in wants {
        if !shows(want.statistic, want.most, setting) {
            return more_of(want.statistic, want.most, setting);
        }
    }
    None
}

/// How many more runs would show a statistic of a setting, if the share of runs with a false death stays.
fn more_of(statistic: Statistic, most: u128, setting: &SettingSummary) -> Option<u128>
    requires { HasFewRuns setting.now }
    ensures { result ≡ more_of statistic most setting.now }
{
    match statistic {
        Statistic::DeathsDay => None,
        _ => more_of_share(most, setting),
    }
}

/// How many more runs put a share beyond the interval of a setting.
fn more_of_share(share: u128, setting: &SettingSummary) -> Option<u128>
    requires { HasFewRuns setting.now }
    ensures { result ≡ option_map (λ runs. runs - setting.now.runs) (runs_that_tell share setting.now.runs_with setting.now.runs) }
{
    match runs_that_tell(share, setting.runs_with, setting.runs) {
        Some(runs) => Some(runs.saturating_sub(u128::from(setting.runs))),
        None => None,
    }
}

/// The place of the first setting that meets all that is wanted, and that no other which does is better than; none where no
/// setting is so.
pub fn best_of(wants: &[Want], settings: &[SettingSummary]) -> Option<usize>
    requires bounded { All IsBounded wants.now }
    requires few { All HasFewRuns settings.now }
    ensures { IsBestOf wants.now settings.now result }
{
    let crashed = has_crash(settings);
    for (place, setting) in settings.iter().enumerate() {
        if is_best(wants, settings, setting, crashed) {
            return Some(place);
        }
    }
    None
}

/// Whether a setting meets all that is wanted, and none of the others that do is better. `crashed` is whether a run of them has
/// a crash.
fn is_best(
    wants: &[Want],
    settings: &[SettingSummary],
    setting: &SettingSummary,
    crashed: bool,
) -> bool
    requires bounded { All IsBounded wants.now }
    requires few { All HasFewRuns settings.now }
    requires setting { HasFewRuns setting.now }
    requires crashed { crashed ≡ has_crash settings.now }
    ensures { result ≡ is_best wants.now settings.now setting.now }
{
    meets(wants, setting) && !is_outdone(wants, settings, setting, crashed)
}

/// Whether some setting that meets all is better than this one.
fn is_outdone(
    wants: &[Want],
    settings: &[SettingSummary],
    setting: &SettingSummary,
    crashed: bool,
) -> bool
    requires bounded { All IsBounded wants.now }
    requires few { All HasFewRuns settings.now }
    ensures { result ≡ list_any (λ other. meets wants.now other && is_better crashed other setting.now) settings.now }
{
    for other in settings {
        if is_rival(wants, other, setting, crashed) {
            return true;
        }
    }
    false
}

/// Whether a setting meets all, and is better than another.
fn is_rival(wants: &[Want], other: &SettingSummary, setting: &SettingSummary, crashed: bool) -> bool
    requires bounded { All IsBounded wants.now }
    requires few { HasFewRuns other.now }
    ensures { result ≡ (meets wants.now other.now && is_better crashed other.now setting.now) }
{
    is_better(other, setting, crashed) && meets(wants, other)
}

/// Whether the first setting is better: it is sooner, or safer where no run has a crash.
fn is_better(first: &SettingSummary, second: &SettingSummary, crashed: bool) -> bool
    ensures { result ≡ is_better crashed first.now second.now }
{
    if crashed {
        is_sooner(first, second)
    } else {
        is_safer(first, second)
    }
}

/// Whether the first setting confirms sooner, or as soon with fewer messages.
fn is_sooner(first: &SettingSummary, second: &SettingSummary) -> bool
    ensures { result ≡ is_sooner first.now second.now }
{
    let as_soon = no_later(ticks(first.confirm_p50), ticks(second.confirm_p50));
    let as_late = no_later(ticks(second.confirm_p50), ticks(first.confirm_p50));
    !as_late || as_soon && !no_later(second.messages, first.messages)
}

/// Whether a lesser share of the runs of the first has a false death, or as great a one with fewer messages.
fn is_safer(first: &SettingSummary, second: &SettingSummary) -> bool
    ensures { result ≡ is_safer first.now second.now }
{
    let as_seldom = is_no_more_often(first, second);
    let as_often = is_no_more_often(second, first);
    !as_often || as_seldom && !no_later(second.messages, first.messages)
}
