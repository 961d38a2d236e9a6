//! Figures as words, and cells of tables.
ghost use Rattle.std.specs.Prelude.{◌≡◌, ◌<◌, ◌++◌, OnOk, slice_get, IfSome, length};
ghost use Rattle.std.specs.String.{string_bytes};
ghost use Rattle.sweep_plan.specs.Sweep.{setting_count};
ghost use Rattle.sweep_cells.specs.Cells.{cell, time_cell};
ghost use Rattle.sweep_cells.specs.Words.{lasting_words, time_words, whole_percent, tenth_percent, percent_words, hundredths_words, rate_words, runs_words, count_words, noun_words, interval_words, hundredths_interval_words, number_words, swept_keys_words, swept_keys_at, thousandths, share_of};

use base::Memory;
use drawing::{push_escaped, push_grouped, push_lasting, push_markup, push_time_alone};
use figures::SettingSummary;
use std::alloc::{AllocError, Global};
use sweep_plan::{Choice, Plan, choices_text};
use ticks::Tick;

/// Appends a time: how long so many ticks last where it is known how long one does, else their number; a dash where there is
/// none.
#[tactic(auto, unfolding(crate::specs::Words::time_words))]
pub fn push_time(
    text: &mut String,
    time: Option<Tick>,
    ticks: Option<u64>,
) -> Result<(), AllocError>
    ensures { OnOk result (string_bytes text.new ≡ string_bytes text.old ++ time_words time ticks) }
{
    match ticks {
        Some(ticks) => push_time_alone(text, time, ticks),
        None => text.push_str("-"),
    }
}

/// Appends how long so many ticks last, in parentheses, where it is known how long a tick does; nothing where there is no
/// number of them.
pub fn push_lasting_of(
    text: &mut String,
    time: Option<Tick>,
    ticks: Option<u64>,
) -> Result<(), AllocError>
    ensures { OnOk result (string_bytes text.new ≡ string_bytes text.old ++ lasting_words time ticks) }
{
    match ticks {
        Some(ticks) => push_lasting(text, time, ticks),
        None => Ok(()),
    }
}

/// Appends a number of thousandths as percent, with a tenth where it isn't whole.
#[tactic(auto, unfolding(crate::specs::Words::percent_words))]
pub fn push_percent(text: &mut String, thousandths: u64) -> Result<(), AllocError>
    ensures { OnOk result (string_bytes text.new ≡ string_bytes text.old ++ percent_words thousandths) }
{
    let whole = thousandths / 10;
    let rest = thousandths % 10;
    if rest == 0 {
        push_whole(text, whole)
    } else {
        push_tenth(text, whole, rest)
    }
}

/// Appends a whole number of percent.
#[tactic(auto, unfolding(crate::specs::Words::whole_percent))]
fn push_whole(text: &mut String, whole: u64) -> Result<(), AllocError>
    ensures { OnOk result (string_bytes text.new ≡ string_bytes text.old ++ whole_percent whole) }
{
    write!(text, "{whole}&nbsp;%")
}

/// Appends a number of percent with its tenths.
#[tactic(auto, unfolding(crate::specs::Words::tenth_percent))]
fn push_tenth(text: &mut String, whole: u64, tenth: u64) -> Result<(), AllocError>
    ensures { OnOk result (string_bytes text.new ≡ string_bytes text.old ++ tenth_percent whole tenth) }
{
    write!(text, "{whole}.{tenth}&nbsp;%")
}

/// Appends a number of hundredths, with its two digits.
#[tactic(auto, unfolding(crate::specs::Words::hundredths_words))]
pub fn push_hundredths(text: &mut String, hundredths: u128) -> Result<(), AllocError>
    ensures { OnOk result (string_bytes text.new ≡ string_bytes text.old ++ hundredths_words hundredths) }
{
    let whole = hundredths / 100;
    let tenth = hundredths / 10 % 10;
    let last = hundredths % 10;
    write!(text, "{whole}.{tenth}{last}")
}

/// Appends messages a member and 1,000 ticks, which are in hundredths, or a dash where there are
/// none.
#[tactic(auto, unfolding(crate::specs::Words::rate_words))]
pub fn push_rate(text: &mut String, rate: Option<u128>) -> Result<(), AllocError>
    ensures { OnOk result (string_bytes text.new ≡ string_bytes text.old ++ rate_words rate) }
{
    match rate {
        Some(hundredths) => push_hundredths(text, hundredths),
        None => text.push_str("-"),
    }
}

/// Appends how many runs have a false death, of how many.
#[tactic(auto, unfolding(crate::specs::Words::runs_words))]
pub fn push_runs_with(text: &mut String, setting: &SettingSummary) -> Result<(), AllocError>
    ensures { OnOk result (string_bytes text.new ≡ string_bytes text.old ++ runs_words setting.now) }
{
    push_grouped(text, setting.runs_with)?;
    push_markup(text, " of ")?;
    push_grouped(text, setting.runs)
}

/// Appends a number of things: the number, and the words for one or for several.
#[tactic(auto, unfolding(crate::specs::Words::count_words))]
pub fn push_count(text: &mut String, count: u64, one: &str, many: &str) -> Result<(), AllocError>
    ensures { OnOk result (string_bytes text.new ≡ string_bytes text.old ++ count_words count one.now many.now) }
{
    push_grouped(text, count)?;
    push_noun(text, count, one, many)
}

/// Appends the words for one thing, or for several.
#[tactic(auto, unfolding(crate::specs::Words::noun_words))]
fn push_noun(text: &mut String, count: u64, one: &str, many: &str) -> Result<(), AllocError>
    ensures { OnOk result (string_bytes text.new ≡ string_bytes text.old ++ noun_words count one.now many.now) }
{
    if count == 1 {
        push_markup(text, one)
    } else {
        push_markup(text, many)
    }
}

/// Appends the 95 % interval of a share, in thousandths.
#[tactic(auto, unfolding(crate::specs::Words::interval_words))]
pub fn push_interval(text: &mut String, low: u64, high: u64) -> Result<(), AllocError>
    ensures { OnOk result (string_bytes text.new ≡ string_bytes text.old ++ interval_words low high) }
{
    push_percent(text, low)?;
    push_markup(text, " to ")?;
    push_percent(text, high)
}

/// Appends the 95 % interval of a number in hundredths.
#[tactic(auto, unfolding(crate::specs::Words::hundredths_interval_words))]
pub fn push_hundredths_interval(text: &mut String, low: u128, high: u128) -> Result<(), AllocError>
    ensures { OnOk result (string_bytes text.new ≡ string_bytes text.old ++ hundredths_interval_words low high) }
{
    push_hundredths(text, low)?;
    push_markup(text, " to ")?;
    push_hundredths(text, high)
}

/// A share in thousandths, of which 1,000 are all.
pub fn thousandths(share: u128) -> u64
    ensures { result ≡ thousandths share }
{
    share.min(1000) as u64
}

/// The share of a setting's runs with a false death, in thousandths, rounded down.
#[tactic(auto, unfolding(crate::specs::Words::share_of))]
pub fn share_of(setting: &SettingSummary) -> u64
    ensures { result ≡ share_of setting.now }
{
    let runs = u128::from(setting.runs).max(1);
    thousandths(u128::from(setting.runs_with) * 1000 / runs)
}

/// Appends the number of the setting at a place: the first is 1.
#[tactic(auto, unfolding(crate::specs::Words::number_words))]
pub fn push_number(text: &mut String, place: usize) -> Result<(), AllocError>
    ensures { OnOk result (string_bytes text.new ≡ string_bytes text.old ++ number_words place) }
{
    push_grouped(text, (place as u64).saturating_add(1))
}

/// Appends the choices of a setting, or that there are none.
#[tactic(auto, unfolding(crate::specs::Words::swept_keys_words))]
pub fn push_swept_keys(alloc: Global, text: &mut String, chosen: &[Choice]) -> Result<(), Memory>
    ensures { OnOk result (string_bytes text.new ≡ string_bytes text.old ++ swept_keys_words chosen.now) }
{
    if chosen.is_empty() {
        text.push_str("the scenario as it is")?;
        return Ok(());
    }
    let swept_keys = choices_text(alloc, chosen)?;
    push_escaped(text, swept_keys.as_str())?;
    Ok(())
}

/// Appends the choices of the setting at a place among all of the plan; nothing where there is none.
#[tactic(auto, unfolding(crate::specs::Words::swept_keys_at))]
pub fn push_swept_keys_at(
    alloc: Global,
    text: &mut String,
    plan: &Plan,
    place: usize,
) -> Result<(), Memory>
    ensures { OnOk result (string_bytes text.new ≡ string_bytes text.old ++ swept_keys_at plan.now.swept_keys place) }
{
    if place >= plan.settings() {
        return Ok(());
    }
    let chosen = plan.setting_at(alloc, place)?;
    push_swept_keys(alloc, text, &chosen)?;
    Ok(())
}

/// The setting at a place, where there is one.
pub fn setting_at(settings: &[SettingSummary], place: usize) -> Option<SettingSummary>
    ensures value { result ≡ slice_get settings.now place }
    ensures within { IfSome result (λ _. place < length settings.now) }
{
    match settings.get(place) {
        Some(setting) => Some(*setting),
        None => None,
    }
}

/// Appends a cell with a text, escaped.
#[tactic(auto, unfolding(crate::specs::Cells::cell))]
pub fn push_cell(text: &mut String, words: &str) -> Result<(), AllocError>
    ensures { OnOk result (string_bytes text.new ≡ string_bytes text.old ++ cell words.now) }
{
    push_markup(text, "<td>")?;
    push_escaped(text, words)?;
    push_markup(text, "</td>")
}

/// Appends a cell with a time: how long so many ticks last where it is known how long one does, else their number; a dash
/// where there is none.
#[tactic(auto, unfolding(crate::specs::Cells::time_cell))]
pub fn push_time_cell(
    text: &mut String,
    time: Option<Tick>,
    ticks: Option<u64>,
) -> Result<(), AllocError>
    ensures { OnOk result (string_bytes text.new ≡ string_bytes text.old ++ time_cell time ticks) }
{
    push_markup(text, "<td>")?;
    push_time(text, time, ticks)?;
    push_markup(text, "</td>")
}
