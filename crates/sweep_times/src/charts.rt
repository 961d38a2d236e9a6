//! The charts: one for each setting, all over one axis.
ghost use Rattle.std.specs.Prelude.{◌≡◌, ◌<◌, ◌^◌, ◌++◌, IfOk, OnOk};
ghost use Rattle.std.specs.List.{flat_map};
ghost use Rattle.std.specs.String.{string_bytes};
ghost use Rattle.sweep_times.specs.Charts.{median_rule, plot_title, times_opening, times_plane, times_words, chart_heading, chart_words, times_plot, times_chart, chart_at, charts};

use crate::bars::push_bars;
use crate::bins::{height_of, held, never_confirmed};
use base::Memory;
use drawing::{
    close_plot, open_plot, push_grouped, push_markup, push_rule, push_time_across, push_up,
};
use figures::SettingSummary;
use std::alloc::{AllocError, Global};
use sweep_cells::{push_lasting_of, push_number, push_swept_keys_at, push_time, setting_at};
use sweep_plan::Plan;
use ticks::Tick;

/// Appends the charts of the settings at these places, over an axis of so many ticks.
#[tactic(auto, unfolding(crate::specs::Charts::charts))]
pub(crate) fn push_charts(
    alloc: Global,
    text: &mut String,
    time: Option<Tick>,
    plan: &Plan,
    settings: &[SettingSummary],
    across: u64,
    places: &[usize],
) -> Result<(), Memory>
    requires { across < 2 ^ 63 }
    ensures { OnOk result (string_bytes text.new ≡ string_bytes text.old
        ++ charts time plan.now.swept_keys settings.now across places.now) }
{
    push_markup(text, "<div class=\"many\">")?;
    push_each_chart(alloc, text, time, plan, settings, across, places)?;
    push_markup(text, "</div>")?;
    Ok(())
}

/// Appends each of them.
fn push_each_chart(
    alloc: Global,
    text: &mut String,
    time: Option<Tick>,
    plan: &Plan,
    settings: &[SettingSummary],
    across: u64,
    places: &[usize],
) -> Result<(), Memory>
    requires { across < 2 ^ 63 }
    ensures { OnOk result (string_bytes text.new ≡ string_bytes text.old
        ++ flat_map (chart_at time plan.now.swept_keys settings.now across) places.now) }
{
    for place in places {
        push_chart_at(alloc, text, time, plan, settings, across, *place)?;
    }
    Ok(())
}

/// Appends the chart of the setting at a place.
#[tactic(auto, unfolding(crate::specs::Charts::chart_at))]
fn push_chart_at(
    alloc: Global,
    text: &mut String,
    time: Option<Tick>,
    plan: &Plan,
    settings: &[SettingSummary],
    across: u64,
    place: usize,
) -> Result<(), Memory>
    requires { across < 2 ^ 63 }
    ensures { OnOk result (string_bytes text.new ≡ string_bytes text.old
        ++ chart_at time plan.now.swept_keys settings.now across place) }
{
    match setting_at(settings, place) {
        Some(setting) => push_chart(alloc, text, time, plan, across, place, &setting),
        None => Ok(()),
    }
}

/// Appends the chart of a setting, which stands at this place.
#[tactic(auto, unfolding(crate::specs::Charts::times_chart))]
fn push_chart(
    alloc: Global,
    text: &mut String,
    time: Option<Tick>,
    plan: &Plan,
    across: u64,
    place: usize,
    setting: &SettingSummary,
) -> Result<(), Memory>
    requires { across < 2 ^ 63 }
    ensures { OnOk result (string_bytes text.new ≡ string_bytes text.old
        ++ times_chart time plan.now.swept_keys across place setting.now) }
{
    push_heading(alloc, text, plan, place)?;
    push_words(text, time, setting)?;
    push_plot(alloc, text, time, across, place, setting)?;
    Ok(())
}

/// Begins it by the setting's number and choices.
#[tactic(auto, unfolding(crate::specs::Charts::chart_heading))]
fn push_heading(alloc: Global, text: &mut String, plan: &Plan, place: usize) -> Result<(), Memory>
    ensures { OnOk result (string_bytes text.new ≡ string_bytes text.old ++ chart_heading plan.now.swept_keys place) }
{
    push_markup(text, "<div><h3><span class=\"number\">")?;
    push_number(text, place)?;
    push_markup(text, "</span> <code>")?;
    push_swept_keys_at(alloc, text, plan, place)?;
    push_markup(text, "</code></h3>")?;
    Ok(())
}

/// Appends a setting's median, and how many of its crashes were never confirmed.
#[tactic(auto, unfolding(crate::specs::Charts::chart_words))]
fn push_words(
    text: &mut String,
    time: Option<Tick>,
    setting: &SettingSummary,
) -> Result<(), AllocError>
    ensures { OnOk result (string_bytes text.new ≡ string_bytes text.old ++ chart_words time setting.now) }
{
    push_markup(text, "<p class=\"soft\">Median: ")?;
    push_time(text, None, setting.confirm_p50)?;
    push_markup(text, " ticks")?;
    push_lasting_of(text, time, setting.confirm_p50)?;
    push_markup(text, ". Never confirmed: ")?;
    push_grouped(text, never_confirmed(setting))?;
    push_markup(text, " of ")?;
    push_grouped(text, held(setting.crashes))?;
    push_markup(text, " crashes.</p>")
}

/// Appends its plot with both axes.
#[tactic(auto, unfolding(crate::specs::Charts::times_plot))]
fn push_plot(
    alloc: Global,
    text: &mut String,
    time: Option<Tick>,
    across: u64,
    place: usize,
    setting: &SettingSummary,
) -> Result<(), Memory>
    requires { across < 2 ^ 63 }
    ensures { OnOk result (string_bytes text.new ≡ string_bytes text.old ++ times_plot time across place setting.now) }
{
    let up = height_of(&setting.confirm_times);
    push_markup(text, "<div class=\"chart\">")?;
    push_up(text, up)?;
    push_plane(alloc, text, time, place, setting, across, up)?;
    push_time_across(
        text,
        across,
        "ticks since the crash",
        "time since the crash",
        time,
    )?;
    push_markup(text, "</div></div>")?;
    Ok(())
}

/// Appends its bars, and a rule at its median.
#[tactic(auto, unfolding(crate::specs::Charts::times_plane))]
fn push_plane(
    alloc: Global,
    text: &mut String,
    time: Option<Tick>,
    place: usize,
    setting: &SettingSummary,
    across: u64,
    up: u64,
) -> Result<(), Memory>
    ensures { OnOk result (string_bytes text.new ≡ string_bytes text.old ++ times_plane time place setting.now across up) }
{
    push_markup(text, "<div class=\"plane\">")?;
    open_times(alloc, text, time, place, across, up)?;
    push_bars(text, &setting.confirm_times, across, up)?;
    push_median(text, setting, across, up)?;
    close_plot(text)?;
    push_markup(text, "</div>")?;
    Ok(())
}

/// Begins the plot of the setting at a place.
#[tactic(auto, unfolding(crate::specs::Charts::times_opening))]
fn open_times(
    alloc: Global,
    text: &mut String,
    time: Option<Tick>,
    place: usize,
    across: u64,
    up: u64,
) -> Result<(), Memory>
    ensures { OnOk result (string_bytes text.new ≡ string_bytes text.old ++ times_opening time place across up) }
{
    let title = plot_title(alloc, place)?;
    open_plot(text, "times", across, up, title.as_str(), times_words(time))?;
    Ok(())
}

/// What a screen reader reads of it.
fn times_words(time: Option<Tick>) -> &'static str
    ensures { result.now ≡ times_words time }
{
    match time {
        Some(_) => {
            "Across: time since the crash, as far as in each chart here. Up: how many crashes were first confirmed \
             then. The upright rule is the median. The table beneath has the numbers."
        }
        None => {
            "Across: ticks since the crash, as far as in each chart here. Up: how many crashes were first confirmed \
             then. The upright rule is the median. The table beneath has the numbers."
        }
    }
}

/// What the plot of the setting at a place is called.
#[tactic(auto, unfolding(crate::specs::Charts::plot_title))]
fn plot_title(alloc: Global, place: usize) -> Result<String, Memory>
    ensures { IfOk result (λ title. string_bytes title ≡ plot_title place) }
{
    let number = (place as u64).saturating_add(1);
    Ok(format!(in alloc; "Setting {number}: time until a crash is first confirmed")?)
}

/// Appends an upright rule at the median of a setting, where it has one.
#[tactic(auto, unfolding(crate::specs::Charts::median_rule))]
fn push_median(
    text: &mut String,
    setting: &SettingSummary,
    across: u64,
    up: u64,
) -> Result<(), AllocError>
    ensures { OnOk result (string_bytes text.new ≡ string_bytes text.old ++ median_rule setting.now across up) }
{
    match setting.confirm_p50 {
        Some(time) => push_rule(text, "median", time.min(across), up),
        None => Ok(()),
    }
}
