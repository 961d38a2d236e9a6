//! What is wanted of a setting.
ghost use Rattle.std.specs.Prelude.{◌≡◌, ◌<◌, ◌^◌, IfSome, IsNone};
ghost use Rattle.goals.specs.declared.want.Want.{Want as Wanted};
ghost use Rattle.goals.specs.Words.{IsWantWord};
ghost use Rattle.goals.specs.Wants.{HasFewRuns, IsBounded, day_in, is_day_past, is_day_up_to, is_figure_up_to, refutes, shows};

use crate::bounds::{is_past, is_up_to};
use crate::numbers::millionths;
use crate::statistic::Statistic;
use figures::SettingSummary;
use incident_figures::{DayRates, IncidentSummary};

/// What is wanted of a setting: that a statistic is at most a bound.
#[derive(Clone, Copy, Debug, PartialEq, Eq)]
pub struct Want<'a> {
    /// The word that says it, as `out<=0.01`.
    pub word: &'a str,
    /// Which statistic is meant.
    pub statistic: Statistic,
    /// The bound, in millionths.
    pub most: u128,
}

impl<'a> Want<'a> {
    /// What a word wants, as `out<=0.01`: the name of a statistic, the sign and a number in decimal, with at most six digits
    /// behind a point. None where it is no such word.
    pub fn read(word: &'a str) -> Option<Want<'a>>
        ensures some { IfSome result (IsWantWord word.entry.now) }
        ensures none { IsNone result → (want : Wanted) → ¬ (IsWantWord word.entry.now want) }
    {
        let Some((front, number)) = word.split_once('=') else {
            return None;
        };
        let Some(statistic) = Statistic::before(front) else {
            return None;
        };
        let Some(most) = millionths(number) else {
            return None;
        };
        Some(Want {
            word,
            statistic,
            most,
        })
    }
}

/// Whether a setting shows that a statistic is at most a bound in millionths: of `out` and of `deaths_day` the whole 95 %
/// interval, else its figure.
pub(crate) fn shows(statistic: Statistic, most: u128, setting: &SettingSummary) -> bool
    requires few { HasFewRuns setting.now }
    requires bound { most < 2 ^ 100 }
    ensures { result ≡ shows statistic most setting.now }
{
    match statistic {
        Statistic::Out => is_up_to(most, setting.runs_with, setting.runs),
        Statistic::DeathsDay => is_day_up_to(most, setting),
        _ => is_figure_up_to(statistic, most, setting),
    }
}

/// Whether it shows that the statistic is more.
pub(crate) fn refutes(statistic: Statistic, most: u128, setting: &SettingSummary) -> bool
    requires few { HasFewRuns setting.now }
    requires bound { most < 2 ^ 100 }
    ensures { result ≡ refutes statistic most setting.now }
{
    match statistic {
        Statistic::Out => most < 1_000_000 && is_past(most, setting.runs_with, setting.runs),
        Statistic::DeathsDay => is_day_past(most, setting),
        _ => !is_figure_up_to(statistic, most, setting),
    }
}

/// Whether the whole interval of the false deaths of a day is up to a bound.
fn is_day_up_to(most: u128, setting: &SettingSummary) -> bool
    requires { most < 2 ^ 100 }
    ensures { result ≡ is_day_up_to most setting.now }
{
    match day_in(setting.incidents) {
        Some(day) => day.high <= most * 100 / 1_000_000,
        None => false,
    }
}

/// Whether it is past the bound.
fn is_day_past(most: u128, setting: &SettingSummary) -> bool
    requires { most < 2 ^ 100 }
    ensures { result ≡ is_day_past most setting.now }
{
    match day_in(setting.incidents) {
        Some(day) => most * 100 / 1_000_000 < day.low,
        None => true,
    }
}

/// The false deaths of a day, where they are known.
fn day_in(incidents: Option<IncidentSummary>) -> Option<DayRates>
    ensures { result ≡ day_in incidents }
{
    match incidents {
        Some(told) => told.day,
        None => None,
    }
}

/// Whether a figure is up to a bound.
fn is_figure_up_to(statistic: Statistic, most: u128, setting: &SettingSummary) -> bool
    requires { most < 2 ^ 100 }
    ensures { result ≡ is_figure_up_to statistic most setting.now }
{
    match statistic.figure(setting) {
        Some(figure) => figure <= most * statistic.parts() / 1_000_000,
        None => false,
    }
}
