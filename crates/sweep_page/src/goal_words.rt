//! A goal in words: which figure, of which runs, and how it is compared.
ghost use Rattle.std.specs.Prelude.{◌≡◌, ◌≤◌, ◌<◌, ◌^◌, ◌++◌, OnOk, decimal};
ghost use Rattle.std.specs.String.{string_bytes};
ghost use Rattle.goals.specs.Wants.{IsBounded};
ghost use Rattle.sweep_page.specs.Goals.{digit, figure_words, goal_item, number, point, shown_bound, unit, whole};

use drawing::{push_escaped, push_grouped, push_markup};
use goals::{Statistic, Want};
use std::alloc::AllocError;

/// How many parts one has.
const ONE: u128 = 1_000_000;

/// Appends a goal in words, and the word that says it.
#[tactic(auto, unfolding(crate::specs::Goals::goal_item))]
pub(crate) fn push_goal(text: &mut String, want: &Want<'_>) -> Result<(), AllocError>
    requires { IsBounded want.now }
    ensures { OnOk result (string_bytes text.new ≡ string_bytes text.old ++ goal_item want.now) }
{
    let words = figure_words(want.statistic);
    let bound = shown_bound(want.statistic, want.most);
    let unit = unit(want.statistic);
    push_markup(text, "<li>")?;
    push_markup(text, words)?;
    push_millionths(text, bound)?;
    push_markup(text, unit)?;
    push_escaped(text, want.word)?;
    push_markup(text, "</code></li>")
}

/// What is said of a figure, up to its bound.
#[tactic(auto, unfolding(crate::specs::Goals::figure_words))]
fn figure_words(statistic: Statistic) -> &'static str
    ensures { result.now ≡ figure_words statistic }
{
    match statistic {
        Statistic::Out => {
            "Share of its runs with a false death: its whole 95&nbsp;% interval is at most <b>"
        }
        Statistic::SuspectP50 => {
            "Ticks until a crash is first suspected: the median over all crashes of all its runs is at \
             most <b>"
        }
        Statistic::ConfirmP50 => {
            "Ticks until a crash is first confirmed: the median over all crashes of all its runs is at \
             most <b>"
        }
        Statistic::ConfirmP99 => {
            "Ticks until a crash is first confirmed: the 99th percentile over all crashes of all its \
             runs is at most <b>"
        }
        Statistic::ConfirmGreatest => {
            "Ticks until a crash is first confirmed: the greatest number over all crashes of all its \
             runs is at most <b>"
        }
        Statistic::LastP50 => {
            "Ticks until a crash is last confirmed: the median over all crashes of all its runs is at \
             most <b>"
        }
        Statistic::LastGreatest => {
            "Ticks until a crash is last confirmed: the greatest number over all crashes of all its \
             runs is at most <b>"
        }
        Statistic::FalseSuspect => {
            "False suspicions per run: the average over all its runs is at most <b>"
        }
        Statistic::ThrownOut => {
            "Members with a false death: the sum over all its runs is at most <b>"
        }
        Statistic::Messages => {
            "Messages per member per 1,000 ticks: the average over all its runs is at most <b>"
        }
        Statistic::Alarms => "Incidents per run: the average over all its runs is at most <b>",
        Statistic::Deaths => "Fatal incidents: the sum over all its runs is at most <b>",
        Statistic::DeathsWell => {
            "Fatal incidents of members that were well: the sum over all its runs is at most <b>"
        }
        Statistic::DeathsDay => {
            "Fatal incidents of the whole cluster in a day: the whole 95&nbsp;% interval is at most <b>"
        }
    }
}

/// A bound in millionths as it is shown: a share is shown in percent.
#[tactic(auto, unfolding(crate::specs::Goals::shown_bound))]
fn shown_bound(statistic: Statistic, most: u128) -> u128
    requires { most < 2 ^ 100 }
    ensures { result ≡ shown_bound statistic most }
{
    match statistic {
        Statistic::Out => most * 100,
        _ => most,
    }
}

/// What stands behind a bound.
#[tactic(auto, unfolding(crate::specs::Goals::unit))]
fn unit(statistic: Statistic) -> &'static str
    ensures { result.now ≡ unit statistic }
{
    match statistic {
        Statistic::Out => "&nbsp;%</b> <code>",
        _ => "</b> <code>",
    }
}

/// Appends a number of millionths in decimal.
#[tactic(auto, unfolding(crate::specs::Goals::number))]
fn push_millionths(text: &mut String, parts: u128) -> Result<(), AllocError>
    ensures { OnOk result (string_bytes text.new ≡ string_bytes text.old ++ number parts) }
{
    let whole = whole_of(parts);
    push_grouped(text, whole)?;
    push_point(text, parts)?;
    push_digit(text, parts, 100_000)?;
    push_digit(text, parts, 10_000)?;
    push_digit(text, parts, 1_000)?;
    push_digit(text, parts, 100)?;
    push_digit(text, parts, 10)?;
    push_digit(text, parts, 1)
}

/// The whole part of a number of millionths.
fn whole_of(parts: u128) -> u64
    ensures { result ≡ whole parts }
{
    (parts / ONE).min(u128::from(u64::MAX)) as u64
}

/// Appends a point where a number of millionths isn't whole.
#[tactic(auto, unfolding(crate::specs::Goals::point))]
fn push_point(text: &mut String, parts: u128) -> Result<(), AllocError>
    ensures { OnOk result (string_bytes text.new ≡ string_bytes text.old ++ point parts) }
{
    if parts % ONE == 0 {
        Ok(())
    } else {
        text.push_str(".")
    }
}

/// Appends the digit of so many millionths, where something of the number is there or behind.
#[tactic(auto, unfolding(crate::specs::Goals::digit))]
fn push_digit(text: &mut String, parts: u128, millionths: u128) -> Result<(), AllocError>
    requires some { 0 < millionths }
    requires few { millionths ≤ 100000 }
    ensures { OnOk result (string_bytes text.new ≡ string_bytes text.old ++ digit parts millionths) }
{
    if parts % (millionths * 10) == 0 {
        return Ok(());
    }
    push_decimal(text, parts / millionths % 10)
}

/// Appends a digit.
fn push_decimal(text: &mut String, digit: u128) -> Result<(), AllocError>
    ensures { OnOk result (string_bytes text.new ≡ string_bytes text.old ++ decimal digit) }
{
    write!(text, "{digit}")
}
