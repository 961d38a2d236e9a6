//! What the plots of a key show, in numbers.
ghost use Rattle.std.specs.Prelude.{◌≡◌, ◌++◌, OnOk, length};
ghost use Rattle.std.specs.List.{flat_map, range_with_len};
ghost use Rattle.std.specs.String.{string_bytes};
ghost use Rattle.sweep_keys.specs.Keys.{drawn_times, times_of, times_over, key_row, caption_words, column_heads, key_heads, line_rows, key_table};

use crate::legend::push_others_at;
use crate::line::setting_over;
use crate::lines::KeyLines;
use crate::statistic::Statistic;
use base::Memory;
use drawing::push_markup;
use figures::SettingSummary;
use std::alloc::{AllocError, Global};
use sweep_cells::{push_cell, push_time_cell};
use sweep_plan::{Plan, Swept, place_count, values_text};
use ticks::Tick;

/// What the rows of a key are of.
#[derive(Clone, Copy)]
struct Table<'a> {
    /// How long a tick lasts, where that is known.
    time: Option<Tick>,
    /// The sweep.
    plan: &'a Plan,
    /// All its settings, in their order.
    settings: &'a [SettingSummary],
    /// The first key's place among those that are set.
    key: usize,
    /// The keys that go together.
    axis: &'a [Swept],
    /// The lines over these.
    lines: KeyLines,
}

/// Appends the figures that are drawn of a key, folded.
#[tactic(auto, unfolding(crate::specs::Keys::key_table))]
pub(crate) fn push_rows(
    alloc: Global,
    text: &mut String,
    time: Option<Tick>,
    plan: &Plan,
    settings: &[SettingSummary],
    key: usize,
    axis: &[Swept],
    lines: &KeyLines,
) -> Result<(), Memory>
    ensures { OnOk result (string_bytes text.new ≡ string_bytes text.old
        ++ key_table time plan.now.swept_keys settings.now lines.now key axis.now) }
{
    let table = Table {
        time,
        plan,
        settings,
        key,
        axis,
        lines: *lines,
    };
    push_heads(text, time)?;
    push_lines(alloc, text, &table)?;
    push_markup(text, "</tbody></table></div></details>")?;
    Ok(())
}

/// Begins the table.
#[tactic(auto, unfolding(crate::specs::Keys::key_heads))]
fn push_heads(text: &mut String, time: Option<Tick>) -> Result<(), AllocError>
    ensures { OnOk result (string_bytes text.new ≡ string_bytes text.old ++ key_heads time) }
{
    let caption = caption_words(time);
    push_markup(
        text,
        "<details><summary>These figures in numbers</summary><div class=\"wide\"><table><caption>",
    )?;
    push_markup(text, caption)?;
    push_columns(text)
}

/// What it shows.
fn caption_words(time: Option<Tick>) -> &'static str
    ensures { result.now ≡ caption_words time }
{
    match time {
        Some(_) => "What is drawn",
        None => "What is drawn, in ticks",
    }
}

/// Appends what its columns are.
#[tactic(auto, unfolding(crate::specs::Keys::column_heads))]
fn push_columns(text: &mut String) -> Result<(), AllocError>
    ensures { OnOk result (string_bytes text.new ≡ string_bytes text.old ++ column_heads) }
{
    text.push_str(
        "</caption><thead><tr>\
         <th scope=\"col\">value</th>\
         <th scope=\"col\">other keys</th>\
         <th scope=\"col\">suspected, 5th percentile</th>\
         <th scope=\"col\">suspected, median</th>\
         <th scope=\"col\">suspected, 95th percentile</th>\
         <th scope=\"col\">confirmed, 5th percentile</th>\
         <th scope=\"col\">confirmed, median</th>\
         <th scope=\"col\">confirmed, 95th percentile</th>\
         <th scope=\"col\">confirmed, 99th percentile</th>\
         <th scope=\"col\">last confirmed, 5th percentile</th>\
         <th scope=\"col\">last confirmed, median</th>\
         <th scope=\"col\">last confirmed, 95th percentile</th>\
         <th scope=\"col\">last confirmed, greatest</th>\
         </tr></thead><tbody>",
    )
}

/// Appends the rows of each line.
fn push_lines(alloc: Global, text: &mut String, table: &Table<'_>) -> Result<(), Memory>
    ensures { OnOk result (string_bytes text.new ≡ string_bytes text.old
        ++ flat_map (line_rows table.now.time table.now.plan.now.swept_keys table.now.settings.now table.now.lines table.now.key table.now.axis.now)
        (range_with_len 0 table.now.lines.lines)) }
{
    for line in 0..table.lines.lines {
        push_line_rows(alloc, text, table, line)?;
    }
    Ok(())
}

/// Appends the rows of a line.
#[tactic(auto, unfolding(crate::specs::Keys::line_rows))]
fn push_line_rows(
    alloc: Global,
    text: &mut String,
    table: &Table<'_>,
    line: usize,
) -> Result<(), Memory>
    ensures { OnOk result (string_bytes text.new ≡ string_bytes text.old
        ++ line_rows table.now.time table.now.plan.now.swept_keys table.now.settings.now table.now.lines table.now.key table.now.axis.now line) }
{
    for place in 0..place_count(table.axis) {
        push_row(alloc, text, table, line, place)?;
    }
    Ok(())
}

/// Appends the row of a line's setting with the values at a place.
#[tactic(auto, unfolding(crate::specs::Keys::key_row))]
fn push_row(
    alloc: Global,
    text: &mut String,
    table: &Table<'_>,
    line: usize,
    place: usize,
) -> Result<(), Memory>
    ensures { OnOk result (string_bytes text.new ≡ string_bytes text.old
        ++ key_row table.now.time table.now.plan.now.swept_keys table.now.settings.now table.now.lines table.now.key table.now.axis.now line place) }
{
    let words = values_text(alloc, table.axis, place)?;
    push_markup(text, "<tr>")?;
    push_cell(text, words.as_str())?;
    push_markup(text, "<td>")?;
    push_others_at(
        alloc,
        text,
        table.plan,
        table.key,
        table.lines.keys,
        table.lines.place(line, place),
    )?;
    push_markup(text, "</td>")?;
    push_times_over(text, table, line, place)?;
    push_markup(text, "</tr>")?;
    Ok(())
}

/// Appends the times of a line's setting with the value at a place.
#[tactic(auto, unfolding(crate::specs::Keys::times_over))]
fn push_times_over(
    text: &mut String,
    table: &Table<'_>,
    line: usize,
    place: usize,
) -> Result<(), AllocError>
    ensures { OnOk result (string_bytes text.new ≡ string_bytes text.old
        ++ times_over table.now.time table.now.settings.now table.now.lines line place) }
{
    match setting_over(table.settings, &table.lines, line, place) {
        Some(setting) => push_times(text, table.time, &setting),
        None => Ok(()),
    }
}

/// Appends the times of a setting.
#[tactic(auto, unfolding(crate::specs::Keys::times_of))]
fn push_times(
    text: &mut String,
    time: Option<Tick>,
    setting: &SettingSummary,
) -> Result<(), AllocError>
    ensures { OnOk result (string_bytes text.new ≡ string_bytes text.old ++ times_of time setting.now) }
{
    push_drawn_times(text, time, Statistic::Suspected, setting)?;
    push_drawn_times(text, time, Statistic::Confirmed, setting)?;
    push_time_cell(text, time, setting.confirm_p99)?;
    push_drawn_times(text, time, Statistic::Last, setting)?;
    push_time_cell(text, time, setting.last_greatest)
}

/// Appends what is drawn of a setting.
#[tactic(auto, unfolding(crate::specs::Keys::drawn_times))]
fn push_drawn_times(
    text: &mut String,
    time: Option<Tick>,
    statistic: Statistic,
    setting: &SettingSummary,
) -> Result<(), AllocError>
    ensures { OnOk result (string_bytes text.new ≡ string_bytes text.old ++ drawn_times time statistic setting.now) }
{
    push_time_cell(text, time, statistic.early(setting))?;
    push_time_cell(text, time, statistic.median(setting))?;
    push_time_cell(text, time, statistic.late(setting))
}
