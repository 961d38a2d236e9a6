//! The plots of a key: a statistic over its values, a line for each choice of the other keys.
ghost use Rattle.std.specs.Prelude.{◌≡◌, ◌<◌, ◌^◌, ◌++◌, OnOk};
ghost use Rattle.std.specs.List.{flat_map, range_with_len};
ghost use Rattle.std.specs.String.{string_bytes};
ghost use Rattle.sweep_plan.specs.Axes.{place_count};
ghost use Rattle.sweep_keys.specs.Keys.{greatest_in, greatest_over, greatest_of, greatest_of_all, plot_height, line_over, value_word, value_at, values_under, chart_opening, lines_words, lines_opening, lines_plane, key_chart};

use crate::line::{Plot, push_line, setting_over};
use crate::lines::{KeyLines, middle};
use crate::statistic::Statistic;
use base::Memory;
use drawing::{close_plot, open_plot, push_escaped, push_markup, push_place, push_time_up};
use figures::SettingSummary;
use std::alloc::{AllocError, Global};
use sweep_plan::{Swept, place_count, values_text};
use ticks::Tick;

/// The greatest time that a plot shows.
const MOST: u64 = 1_000_000_000_000_000_000;

/// Appends a plot of a statistic over the key's values.
#[tactic(auto, unfolding(crate::specs::Keys::key_chart))]
pub(crate) fn push_chart(
    alloc: Global,
    text: &mut String,
    time: Option<Tick>,
    settings: &[SettingSummary],
    axis: &[Swept],
    lines: &KeyLines,
    statistic: Statistic,
) -> Result<(), Memory>
    ensures { OnOk result (string_bytes text.new ≡ string_bytes text.old
        ++ key_chart time settings.now lines.now axis.now statistic) }
{
    let most = plot_height(settings, lines, statistic);
    push_chart_opening(text, statistic)?;
    push_time_up(text, most, time)?;
    let plot = Plot {
        settings,
        lines: *lines,
        statistic,
        most,
    };
    push_plane(text, time, &plot)?;
    push_values(alloc, text, axis, lines)?;
    push_markup(text, "</div></div>")?;
    Ok(())
}

/// Begins it by the words of the statistic.
#[tactic(auto, unfolding(crate::specs::Keys::chart_opening))]
fn push_chart_opening(text: &mut String, statistic: Statistic) -> Result<(), AllocError>
    ensures { OnOk result (string_bytes text.new ≡ string_bytes text.old ++ chart_opening statistic) }
{
    let words = statistic.words();
    push_markup(text, "<div><h3>")?;
    push_markup(text, words)?;
    push_markup(text, "</h3><div class=\"chart\">")
}

/// Appends the lines.
#[tactic(auto, unfolding(crate::specs::Keys::lines_plane))]
fn push_plane(text: &mut String, time: Option<Tick>, plot: &Plot<'_>) -> Result<(), AllocError>
    ensures { OnOk result (string_bytes text.new ≡ string_bytes text.old
        ++ lines_plane time plot.now.settings.now plot.now.lines plot.now.statistic plot.now.most) }
{
    push_markup(text, "<div class=\"plane\">")?;
    open_lines(text, time, plot)?;
    push_lines(text, plot)?;
    close_plot(text)?;
    push_markup(text, "</div>")
}

/// Begins their plot.
#[tactic(auto, unfolding(crate::specs::Keys::lines_opening))]
fn open_lines(text: &mut String, time: Option<Tick>, plot: &Plot<'_>) -> Result<(), AllocError>
    ensures { OnOk result (string_bytes text.new ≡ string_bytes text.old
        ++ lines_opening time plot.now.lines plot.now.most plot.now.statistic) }
{
    let words = plot.statistic.words();
    let description = lines_words(time);
    let width = plot.lines.width();
    open_plot(text, "lines", width, plot.most, words, description)
}

/// What a screen reader reads of it.
fn lines_words(time: Option<Tick>) -> &'static str
    ensures { result.now ≡ lines_words time }
{
    match time {
        Some(_) => {
            "Time since the crash against the values of the key: a line of medians for each value of the \
             others, and over each value a bar from the 5th to the 95th percentile, or to the top where \
             more than 5 % of the crashes weren't detected."
        }
        None => {
            "Ticks since the crash against the values of the key: a line of medians for each value of the \
             others, and over each value a bar from the 5th to the 95th percentile, or to the top where \
             more than 5 % of the crashes weren't detected."
        }
    }
}

/// Appends each line.
fn push_lines(text: &mut String, plot: &Plot<'_>) -> Result<(), AllocError>
    ensures { OnOk result (string_bytes text.new ≡ string_bytes text.old
        ++ flat_map (line_over plot.now.settings.now plot.now.lines plot.now.statistic plot.now.most)
        (range_with_len 0 plot.now.lines.lines)) }
{
    for line in 0..plot.lines.lines {
        push_line(text, plot, line)?;
    }
    Ok(())
}

/// How high a plot is: the greatest time that it shows, and some room above it, so that a bar to
/// the top can be distinguished from one to that time.
#[tactic(auto, unfolding(crate::specs::Keys::plot_height))]
fn plot_height(settings: &[SettingSummary], lines: &KeyLines, statistic: Statistic) -> u64
    ensures is { result ≡ plot_height settings.now lines.now statistic }
    ensures low { result < 2 ^ 63 }
{
    let time = greatest_of_all(settings, lines, statistic).min(MOST);
    time + time / 16 + 1
}

/// The greatest time of all lines; 1 at least.
#[tactic(auto, unfolding(crate::specs::Keys::greatest_of_all))]
fn greatest_of_all(settings: &[SettingSummary], lines: &KeyLines, statistic: Statistic) -> u64
    ensures { result ≡ greatest_of_all settings.now lines.now statistic }
{
    let mut most = 1;
    for line in 0..lines.lines {
        most = most.max(greatest_of(settings, lines, statistic, line));
    }
    most
}

/// The greatest time of a line; 0 where there is none.
#[tactic(auto, unfolding(crate::specs::Keys::greatest_of))]
fn greatest_of(
    settings: &[SettingSummary],
    lines: &KeyLines,
    statistic: Statistic,
    line: usize,
) -> u64
    ensures { result ≡ greatest_of settings.now lines.now statistic line }
{
    let mut most = 0;
    for value in 0..lines.values {
        most = most.max(greatest_over(settings, lines, statistic, line, value));
    }
    most
}

/// The greatest time that is drawn of its setting over the value at a place; 0 where there is none.
#[tactic(auto, unfolding(crate::specs::Keys::greatest_over))]
fn greatest_over(
    settings: &[SettingSummary],
    lines: &KeyLines,
    statistic: Statistic,
    line: usize,
    value: usize,
) -> u64
    ensures { result ≡ greatest_over settings.now lines.now statistic line value }
{
    match setting_over(settings, lines, line, value) {
        Some(setting) => greatest_in(statistic, &setting),
        None => 0,
    }
}

/// The greatest time that is drawn of a setting; 0 where there is none.
#[tactic(auto, unfolding(crate::specs::Keys::greatest_in))]
fn greatest_in(statistic: Statistic, setting: &SettingSummary) -> u64
    ensures { result ≡ greatest_in statistic setting.now }
{
    let early = statistic.early(setting).unwrap_or(0);
    let median = statistic.median(setting).unwrap_or(0);
    let late = statistic.late(setting).unwrap_or(0);
    early.max(median.max(late))
}

/// Appends the key's values under a plot; where there are many, some of them.
#[tactic(auto, unfolding(crate::specs::Keys::values_under))]
fn push_values(
    alloc: Global,
    text: &mut String,
    axis: &[Swept],
    lines: &KeyLines,
) -> Result<(), Memory>
    ensures { OnOk result (string_bytes text.new ≡ string_bytes text.old ++ values_under lines.now axis.now) }
{
    push_markup(text, "<div class=\"values\" aria-hidden=\"true\">")?;
    push_all_values(alloc, text, axis, lines)?;
    push_markup(text, "</div>")?;
    Ok(())
}

/// Appends these values.
fn push_all_values(
    alloc: Global,
    text: &mut String,
    axis: &[Swept],
    lines: &KeyLines,
) -> Result<(), Memory>
    ensures { OnOk result (string_bytes text.new ≡ string_bytes text.old
        ++ flat_map (value_at lines.now axis.now) (range_with_len 0 (place_count axis.now))) }
{
    for place in 0..place_count(axis) {
        push_value_at(alloc, text, axis, lines, place)?;
    }
    Ok(())
}

/// Appends the values at a place, where they are among those that are shown.
#[tactic(auto, unfolding(crate::specs::Keys::value_at))]
fn push_value_at(
    alloc: Global,
    text: &mut String,
    axis: &[Swept],
    lines: &KeyLines,
    place: usize,
) -> Result<(), Memory>
    ensures { OnOk result (string_bytes text.new ≡ string_bytes text.old ++ value_at lines.now axis.now place) }
{
    let each = lines.values / 8 + 1;
    if place % each != 0 {
        return Ok(());
    }
    push_value(alloc, text, axis, lines, place)
}

/// Appends the values at a place in the middle of their room.
#[tactic(auto, unfolding(crate::specs::Keys::value_word))]
fn push_value(
    alloc: Global,
    text: &mut String,
    axis: &[Swept],
    lines: &KeyLines,
    place: usize,
) -> Result<(), Memory>
    ensures { OnOk result (string_bytes text.new ≡ string_bytes text.old ++ value_word lines.now axis.now place) }
{
    let words = values_text(alloc, axis, place)?;
    push_markup(text, "<span style=\"left:")?;
    push_place(text, middle(place), lines.width())?;
    push_markup(text, "\">")?;
    push_escaped(text, words.as_str())?;
    push_markup(text, "</span>")?;
    Ok(())
}
