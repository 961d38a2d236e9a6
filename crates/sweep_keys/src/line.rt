//! A line over a key's values, with a bar and a dot over each.
ghost use Rattle.std.specs.Prelude.{◌≡◌, ◌++◌, OnOk};
ghost use Rattle.std.specs.List.{flat_map, range_with_len};
ghost use Rattle.std.specs.String.{string_bytes};
ghost use Rattle.sweep_keys.specs.Keys.{setting_over, time_over, goes_on, corner, corner_over, reach_bar, median_dot, bar_of, dot_of, marks_of, marks_over, path_line, line_over};

use crate::lines::KeyLines;
use crate::statistic::Statistic;
use drawing::push_markup;
use figures::SettingSummary;
use std::alloc::AllocError;
use sweep_cells::{push_start, push_step, setting_at};

/// What the lines of a plot are drawn of.
#[derive(Clone, Copy)]
pub(crate) struct Plot<'a> {
    /// All settings, in their order.
    pub(crate) settings: &'a [SettingSummary],
    /// Where those of a line lie among them.
    pub(crate) lines: KeyLines,
    /// What is drawn of each.
    pub(crate) statistic: Statistic,
    /// How high the plot is, in ticks.
    pub(crate) most: u64,
}

/// Appends a line, and a bar with its dot over each value.
#[tactic(auto, unfolding(crate::specs::Keys::line_over))]
pub(crate) fn push_line(text: &mut String, plot: &Plot<'_>, line: usize) -> Result<(), AllocError>
    ensures { OnOk result (string_bytes text.new ≡ string_bytes text.old
        ++ line_over plot.now.settings.now plot.now.lines plot.now.statistic plot.now.most line) }
{
    push_path(text, line)?;
    push_corners(text, plot, line)?;
    push_markup(text, "\"/>")?;
    push_all_marks(text, plot, line)
}

/// Begins the path of a line.
#[tactic(auto, unfolding(crate::specs::Keys::path_line))]
fn push_path(text: &mut String, line: usize) -> Result<(), AllocError>
    ensures { OnOk result (string_bytes text.new ≡ string_bytes text.old ++ path_line line) }
{
    write!(text, "<path class=\"path s{line}\" d=\"")
}

/// Appends its corners.
fn push_corners(text: &mut String, plot: &Plot<'_>, line: usize) -> Result<(), AllocError>
    ensures { OnOk result (string_bytes text.new ≡ string_bytes text.old
        ++ flat_map (corner_over plot.now.settings.now plot.now.lines plot.now.statistic plot.now.most line)
        (range_with_len 0 plot.now.lines.values)) }
{
    for value in 0..plot.lines.values {
        push_corner(text, plot, line, value)?;
    }
    Ok(())
}

/// Appends its corner over the value at a place, joined to the one before, where there is one.
#[tactic(auto, unfolding(crate::specs::Keys::corner_over))]
fn push_corner(
    text: &mut String,
    plot: &Plot<'_>,
    line: usize,
    value: usize,
) -> Result<(), AllocError>
    ensures { OnOk result (string_bytes text.new ≡ string_bytes text.old
        ++ corner_over plot.now.settings.now plot.now.lines plot.now.statistic plot.now.most line value) }
{
    let Some(time) = time_over(plot, line, value) else {
        return Ok(());
    };
    let at = plot.lines.across(line, value);
    let height = plot.most.saturating_sub(time);
    push_corner_at(text, goes_on(plot, line, value), at, height)
}

/// Goes on to a corner, or begins anew there.
#[tactic(auto, unfolding(crate::specs::Keys::corner))]
fn push_corner_at(text: &mut String, on: bool, at: u64, height: u64) -> Result<(), AllocError>
    ensures { OnOk result (string_bytes text.new ≡ string_bytes text.old ++ corner on at height) }
{
    if on {
        push_step(text, at, height)
    } else {
        push_start(text, at, height)
    }
}

/// Whether there is a value before the one at a place, over which the line has a time.
fn goes_on(plot: &Plot<'_>, line: usize, value: usize) -> bool
    ensures { result ≡ goes_on plot.now.settings.now plot.now.lines plot.now.statistic line value }
{
    value >= 1 && time_over(plot, line, value - 1).is_some()
}

/// The median time of its setting over the value at a place, where there is one.
fn time_over(plot: &Plot<'_>, line: usize, value: usize) -> Option<u64>
    ensures { result ≡ time_over plot.now.settings.now plot.now.lines plot.now.statistic line value }
{
    match setting_over(plot.settings, &plot.lines, line, value) {
        Some(setting) => plot.statistic.median(&setting),
        None => None,
    }
}

/// The setting that a line has over the value at a place.
pub(crate) fn setting_over(
    settings: &[SettingSummary],
    lines: &KeyLines,
    line: usize,
    value: usize,
) -> Option<SettingSummary>
    ensures { result ≡ setting_over settings.now lines.now line value }
{
    setting_at(settings, lines.place(line, value))
}

/// Appends its bars and dots.
fn push_all_marks(text: &mut String, plot: &Plot<'_>, line: usize) -> Result<(), AllocError>
    ensures { OnOk result (string_bytes text.new ≡ string_bytes text.old
        ++ flat_map (marks_over plot.now.settings.now plot.now.lines plot.now.statistic plot.now.most line)
        (range_with_len 0 plot.now.lines.values)) }
{
    for value in 0..plot.lines.values {
        push_marks_over(text, plot, line, value)?;
    }
    Ok(())
}

/// Appends the bar and the dot over the value at a place.
#[tactic(auto, unfolding(crate::specs::Keys::marks_over))]
fn push_marks_over(
    text: &mut String,
    plot: &Plot<'_>,
    line: usize,
    value: usize,
) -> Result<(), AllocError>
    ensures { OnOk result (string_bytes text.new ≡ string_bytes text.old
        ++ marks_over plot.now.settings.now plot.now.lines plot.now.statistic plot.now.most line value) }
{
    let at = plot.lines.across(line, value);
    match setting_over(plot.settings, &plot.lines, line, value) {
        Some(setting) => push_marks(text, plot, line, at, &setting),
        None => Ok(()),
    }
}

/// Appends the bar and the dot of a setting.
#[tactic(auto, unfolding(crate::specs::Keys::marks_of))]
fn push_marks(
    text: &mut String,
    plot: &Plot<'_>,
    line: usize,
    at: u64,
    setting: &SettingSummary,
) -> Result<(), AllocError>
    ensures { OnOk result (string_bytes text.new ≡ string_bytes text.old
        ++ marks_of plot.now.statistic plot.now.most line at setting.now) }
{
    push_bar(text, plot, line, at, setting)?;
    push_dot(text, plot, line, at, setting)
}

/// Appends a bar from the 5th to the 95th percentile of a setting, or to the top of the plot where it
/// has no 95th; nothing where it has no 5th.
#[tactic(auto, unfolding(crate::specs::Keys::bar_of))]
fn push_bar(
    text: &mut String,
    plot: &Plot<'_>,
    line: usize,
    at: u64,
    setting: &SettingSummary,
) -> Result<(), AllocError>
    ensures { OnOk result (string_bytes text.new ≡ string_bytes text.old
        ++ bar_of plot.now.statistic plot.now.most line at setting.now) }
{
    let Some(time) = plot.statistic.early(setting) else {
        return Ok(());
    };
    let foot = plot.most.saturating_sub(time);
    let late = plot.statistic.late(setting).unwrap_or(plot.most);
    let top = plot.most.saturating_sub(late);
    push_reach_bar(text, line, at, foot, top)
}

/// Appends a dot at the median of a setting, where it has one.
#[tactic(auto, unfolding(crate::specs::Keys::dot_of))]
fn push_dot(
    text: &mut String,
    plot: &Plot<'_>,
    line: usize,
    at: u64,
    setting: &SettingSummary,
) -> Result<(), AllocError>
    ensures { OnOk result (string_bytes text.new ≡ string_bytes text.old
        ++ dot_of plot.now.statistic plot.now.most line at setting.now) }
{
    let Some(time) = plot.statistic.median(setting) else {
        return Ok(());
    };
    let height = plot.most.saturating_sub(time);
    push_median_dot(text, line, at, height)
}

/// Appends a bar between two heights.
#[tactic(auto, unfolding(crate::specs::Keys::reach_bar))]
fn push_reach_bar(
    text: &mut String,
    line: usize,
    at: u64,
    foot: u64,
    top: u64,
) -> Result<(), AllocError>
    ensures { OnOk result (string_bytes text.new ≡ string_bytes text.old ++ reach_bar line at foot top) }
{
    write!(
        text,
        "<path class=\"reach s{line}\" d=\"M{at} {foot}V{top}\"/>"
    )
}

/// Appends a dot at a height.
#[tactic(auto, unfolding(crate::specs::Keys::median_dot))]
fn push_median_dot(text: &mut String, line: usize, at: u64, height: u64) -> Result<(), AllocError>
    ensures { OnOk result (string_bytes text.new ≡ string_bytes text.old ++ median_dot line at height) }
{
    write!(
        text,
        "<path class=\"mark s{line}\" d=\"M{at} {height}h0\"/>"
    )
}
