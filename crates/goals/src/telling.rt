//! What the settings of a sweep answer to what is wanted, in words.
ghost use Rattle.std.specs.Prelude.{◌≡◌, ◌≤◌, ◌<◌, ◌++◌, All, List, OnOk, Some, codes, flat_map, get_or, length, slice_get, string_bytes};
ghost use Rattle.std.specs.List.{zip};
ghost use Rattle.std.specs.Option.{ForSome};
ghost use Rattle.sweep_plan.specs.Sweep.{setting_count};
ghost use Rattle.sweep_plan.specs.Settings.{settings_of};
ghost use Rattle.sweep_plan.specs.declared.choice.Choice.{Choice as AnyChoice};
ghost use Rattle.goals.specs.Wants.{HasFewRuns, IsBounded};
ghost use Rattle.goals.specs.Answers.{AddsAnswer, best_line, setting_told, more_text, refuting, swept_keys_told, showing, want_line};

use crate::choice::{best_of, may_meet, meets, more_runs};
use crate::want::{Want, refutes, shows};
use base::Memory;
use figures::SettingSummary;
use std::alloc::Global;
use sweep_plan::{Choice, Plan, choices_text};

/// Adds what the settings answer to what is wanted: a line for each that is wanted, one for each setting that shows that it meets
/// all, or may meet all, and one for the best. Nothing where nothing is wanted. There must be a summary for each setting, in
/// their order.
pub fn push_answer(
    alloc: Global,
    text: &mut String,
    plan: &Plan,
    wants: &[Want],
    settings: &[SettingSummary],
) -> Result<(), Memory>
    requires bounded { All IsBounded wants.now }
    requires few { All HasFewRuns settings.now }
    requires all { length settings.now ≡ setting_count plan.now.swept_keys }
    ensures { OnOk result (AddsAnswer plan.now.swept_keys wants.now settings.now (string_bytes text.old) (string_bytes text.new)) }
{
    let best = best_of(wants, settings);
    if wants.is_empty() {
        return Ok(());
    }
    push_wants(alloc, text, wants, settings)?;
    push_settings(alloc, text, plan, wants, settings)?;
    push_best(alloc, text, plan, best)
}

/// Adds the lines of what is wanted.
fn push_wants(
    alloc: Global,
    text: &mut String,
    wants: &[Want],
    settings: &[SettingSummary],
) -> Result<(), Memory>
    requires bounded { All IsBounded wants.now }
    requires few { All HasFewRuns settings.now }
    ensures { OnOk result (string_bytes text.new ≡ string_bytes text.old ++ flat_map (want_line settings.now) wants.now) }
{
    for want in wants {
        push_want(alloc, text, want, settings)?;
    }
    Ok(())
}

/// Adds the line of one that is wanted.
fn push_want(
    alloc: Global,
    text: &mut String,
    want: &Want,
    settings: &[SettingSummary],
) -> Result<(), Memory>
    requires bounded { IsBounded want.now }
    requires few { All HasFewRuns settings.now }
    ensures { OnOk result (string_bytes text.new ≡ string_bytes text.old ++ want_line settings.now want.now) }
{
    let shown = showing(want, settings);
    let refuted = refuting(want, settings);
    let left = settings.len().saturating_sub(shown).saturating_sub(refuted);
    let word = want.word;
    let line = format!(in alloc; "wanted: {word} shown={shown} open={left} refuted={refuted}\n")?;
    text.push_str(line.as_str())?;
    Ok(())
}

/// How many settings show what is wanted.
fn showing(want: &Want, settings: &[SettingSummary]) -> usize
    requires bounded { IsBounded want.now }
    requires few { All HasFewRuns settings.now }
    ensures { result ≡ showing settings.now want.now }
{
    let mut count = 0;
    for setting in settings {
        if shows(want.statistic, want.most, setting) {
            count += 1;
        }
    }
    count
}

/// How many show that it isn't so.
fn refuting(want: &Want, settings: &[SettingSummary]) -> usize
    requires bounded { IsBounded want.now }
    requires few { All HasFewRuns settings.now }
    ensures { result ≡ refuting settings.now want.now }
{
    let mut count = 0;
    for setting in settings {
        if refutes(want.statistic, want.most, setting) {
            count += 1;
        }
    }
    count
}

/// Adds the lines of the settings that meet all, or may.
fn push_settings(
    alloc: Global,
    text: &mut String,
    plan: &Plan,
    wants: &[Want],
    settings: &[SettingSummary],
) -> Result<(), Memory>
    requires bounded { All IsBounded wants.now }
    requires few { All HasFewRuns settings.now }
    requires all { length settings.now ≡ setting_count plan.now.swept_keys }
    ensures { OnOk result (string_bytes text.new
        ≡ string_bytes text.old ++ flat_map (λ told. setting_told wants.now told.0 told.1) (zip (settings_of plan.now.swept_keys) settings.now)) }
{
    for (number, setting) in settings.iter().enumerate() {
        push_setting(alloc, text, plan, wants, number, setting)?;
    }
    Ok(())
}

/// Adds the line of the setting of this number, where it meets all or may.
fn push_setting(
    alloc: Global,
    text: &mut String,
    plan: &Plan,
    wants: &[Want],
    number: usize,
    setting: &SettingSummary,
) -> Result<(), Memory>
    requires bounded { All IsBounded wants.now }
    requires few { HasFewRuns setting.now }
    requires within { number < setting_count plan.now.swept_keys }
    ensures { OnOk result ((chosen : List AnyChoice) → slice_get (settings_of plan.now.swept_keys) number ≡ Some chosen
        → string_bytes text.new ≡ string_bytes text.old ++ setting_told wants.now chosen setting.now) }
{
    let chosen = plan.setting_at(alloc, number)?;
    push_told(alloc, text, wants, &chosen, setting)
}

/// Adds the line of a setting with these choices, likewise.
fn push_told(
    alloc: Global,
    text: &mut String,
    wants: &[Want],
    chosen: &[Choice],
    setting: &SettingSummary,
) -> Result<(), Memory>
    requires bounded { All IsBounded wants.now }
    requires few { HasFewRuns setting.now }
    ensures { OnOk result (string_bytes text.new ≡ string_bytes text.old ++ setting_told wants.now chosen.now setting.now) }
{
    if meets(wants, setting) {
        text.push_str("meets: ")?;
        push_swept_keys(alloc, text, chosen)?;
        text.push_str("\n")?;
        return Ok(());
    }
    if may_meet(wants, setting) {
        text.push_str("may: ")?;
        push_swept_keys(alloc, text, chosen)?;
        push_more(alloc, text, more_runs(wants, setting))?;
        text.push_str("\n")?;
    }
    Ok(())
}

/// Adds how many more runs would show whether the setting meets all.
fn push_more(alloc: Global, text: &mut String, more: Option<u128>) -> Result<(), Memory>
    ensures { OnOk result (string_bytes text.new ≡ string_bytes text.old ++ more_text more) }
{
    match more {
        Some(runs) => {
            let told = format!(in alloc; " more_runs={runs}")?;
            text.push_str(told.as_str())?;
        }
        None => text.push_str(" more_runs=-")?,
    }
    Ok(())
}

/// Adds the choices of a setting.
fn push_swept_keys(alloc: Global, text: &mut String, chosen: &[Choice]) -> Result<(), Memory>
    ensures { OnOk result (string_bytes text.new ≡ string_bytes text.old ++ swept_keys_told chosen.now) }
{
    if chosen.is_empty() {
        text.push_str("the scenario as it is")?;
        return Ok(());
    }
    let swept_keys = choices_text(alloc, chosen)?;
    text.push_str(swept_keys.as_str())?;
    Ok(())
}

/// Adds the line of the best setting.
fn push_best(
    alloc: Global,
    text: &mut String,
    plan: &Plan,
    best: Option<usize>,
) -> Result<(), Memory>
    requires { ForSome best (λ place. place < setting_count plan.now.swept_keys) }
    ensures { OnOk result (string_bytes text.new ≡ string_bytes text.old ++ best_line (settings_of plan.now.swept_keys) best) }
{
    match best {
        Some(place) => push_best_setting(alloc, text, plan, place),
        None => {
            text.push_str("best: none\n")?;
            Ok(())
        }
    }
}

/// Adds the line that names the setting at a place as the best.
fn push_best_setting(
    alloc: Global,
    text: &mut String,
    plan: &Plan,
    place: usize,
) -> Result<(), Memory>
    requires { place < setting_count plan.now.swept_keys }
    ensures { OnOk result ((chosen : List AnyChoice) → slice_get (settings_of plan.now.swept_keys) place ≡ Some chosen
        → string_bytes text.new ≡ string_bytes text.old ++ (codes "best: " ++ swept_keys_told chosen ++ codes "\n")) }
{
    let chosen = plan.setting_at(alloc, place)?;
    text.push_str("best: ")?;
    push_swept_keys(alloc, text, &chosen)?;
    text.push_str("\n")?;
    Ok(())
}
