//! What the charts show, in numbers.
ghost use Rattle.std.specs.Prelude.{◌≡◌, ◌++◌, OnOk};
ghost use Rattle.std.specs.List.{flat_map};
ghost use Rattle.std.specs.String.{string_bytes};
ghost use Rattle.sweep_times.specs.Times.{row_opening, row_end, filled_row, bin_row, row_at, bin_rows, never_row, setting_rows, rows_at, counted_word, times_heads, times_table};

use crate::bins::{bin_end, bin_start, count_at, never_confirmed};
use drawing::{push_grouped, push_markup, push_time_alone};
use figures::{Histogram, SettingSummary};
use std::alloc::AllocError;
use sweep_cells::{push_number, setting_at};
use ticks::Tick;

/// Appends the bins of the settings at these places, folded.
#[tactic(auto, unfolding(crate::specs::Times::times_table))]
pub(crate) fn push_rows(
    text: &mut String,
    time: Option<Tick>,
    settings: &[SettingSummary],
    places: &[usize],
) -> Result<(), AllocError>
    ensures { OnOk result (string_bytes text.new ≡ string_bytes text.old ++ times_table time settings.now places.now) }
{
    push_heads(text, time)?;
    push_rows_of(text, time, settings, places)?;
    push_markup(text, "</tbody></table></div></details>")
}

/// Appends what the columns are.
#[tactic(auto, unfolding(crate::specs::Times::times_heads))]
fn push_heads(text: &mut String, time: Option<Tick>) -> Result<(), AllocError>
    ensures { OnOk result (string_bytes text.new ≡ string_bytes text.old ++ times_heads time) }
{
    let counted = counted_word(time);
    push_markup(
        text,
        "<details><summary>These times in numbers</summary><div class=\"wide\"><table>\
         <caption>How many crashes were first confirmed when</caption><thead><tr>\
         <th scope=\"col\">setting</th><th scope=\"col\">",
    )?;
    push_markup(text, counted)?;
    push_markup(
        text,
        " until first confirmed</th><th scope=\"col\">crashes</th></tr></thead><tbody>",
    )
}

/// What the cells of times are in.
fn counted_word(time: Option<Tick>) -> &'static str
    ensures { result.now ≡ counted_word time }
{
    match time {
        Some(_) => "time",
        None => "ticks",
    }
}

/// Appends the rows of these settings.
fn push_rows_of(
    text: &mut String,
    time: Option<Tick>,
    settings: &[SettingSummary],
    places: &[usize],
) -> Result<(), AllocError>
    ensures { OnOk result (string_bytes text.new ≡ string_bytes text.old ++ flat_map (rows_at time settings.now) places.now) }
{
    for place in places {
        push_rows_at(text, time, settings, *place)?;
    }
    Ok(())
}

/// Appends the rows of the setting at a place.
#[tactic(auto, unfolding(crate::specs::Times::rows_at))]
fn push_rows_at(
    text: &mut String,
    time: Option<Tick>,
    settings: &[SettingSummary],
    place: usize,
) -> Result<(), AllocError>
    ensures { OnOk result (string_bytes text.new ≡ string_bytes text.old ++ rows_at time settings.now place) }
{
    match setting_at(settings, place) {
        Some(setting) => push_setting_rows(text, time, place, &setting),
        None => Ok(()),
    }
}

/// Appends the rows of a setting: of its bins, and of the crashes that were never confirmed.
#[tactic(auto, unfolding(crate::specs::Times::setting_rows))]
fn push_setting_rows(
    text: &mut String,
    time: Option<Tick>,
    place: usize,
    setting: &SettingSummary,
) -> Result<(), AllocError>
    ensures { OnOk result (string_bytes text.new ≡ string_bytes text.old ++ setting_rows time place setting.now) }
{
    push_bin_rows(text, time, &setting.confirm_times, place)?;
    push_never_row(text, place, setting)
}

/// Appends the rows of its bins.
#[tactic(auto, unfolding(crate::specs::Times::bin_rows))]
fn push_bin_rows(
    text: &mut String,
    time: Option<Tick>,
    times: &Histogram,
    place: usize,
) -> Result<(), AllocError>
    ensures { OnOk result (string_bytes text.new ≡ string_bytes text.old ++ bin_rows time times.now place) }
{
    for bin in 0..times.bins.len() {
        push_row_at(text, time, times, place, bin)?;
    }
    Ok(())
}

/// Appends the row of the bin at a place.
#[tactic(auto, unfolding(crate::specs::Times::row_at))]
fn push_row_at(
    text: &mut String,
    time: Option<Tick>,
    times: &Histogram,
    place: usize,
    bin: usize,
) -> Result<(), AllocError>
    ensures { OnOk result (string_bytes text.new ≡ string_bytes text.old ++ row_at time times.now place bin) }
{
    match count_at(times, bin) {
        Some(count) => push_bin_row(text, time, times, place, bin, count),
        None => Ok(()),
    }
}

/// Appends the row of a bin with so many times, if it has any.
#[tactic(auto, unfolding(crate::specs::Times::bin_row))]
fn push_bin_row(
    text: &mut String,
    time: Option<Tick>,
    times: &Histogram,
    place: usize,
    bin: usize,
    count: u64,
) -> Result<(), AllocError>
    ensures { OnOk result (string_bytes text.new ≡ string_bytes text.old ++ bin_row time times.now place bin count) }
{
    if count == 0 {
        return Ok(());
    }
    push_filled_row(text, time, times, place, bin, count)
}

/// Appends the row of a bin: its first tick and its last, and how many times are in it.
#[tactic(auto, unfolding(crate::specs::Times::filled_row))]
fn push_filled_row(
    text: &mut String,
    time: Option<Tick>,
    times: &Histogram,
    place: usize,
    bin: usize,
    count: u64,
) -> Result<(), AllocError>
    ensures { OnOk result (string_bytes text.new ≡ string_bytes text.old ++ filled_row time times.now place bin count) }
{
    push_row_opening(text, place)?;
    push_time_alone(text, time, bin_start(times, bin))?;
    push_markup(text, " to ")?;
    push_time_alone(text, time, bin_end(times, bin).saturating_sub(1))?;
    push_row_end(text, count)
}

/// Appends the row of the crashes of a setting that were never confirmed.
#[tactic(auto, unfolding(crate::specs::Times::never_row))]
fn push_never_row(
    text: &mut String,
    place: usize,
    setting: &SettingSummary,
) -> Result<(), AllocError>
    ensures { OnOk result (string_bytes text.new ≡ string_bytes text.old ++ never_row place setting.now) }
{
    push_row_opening(text, place)?;
    push_markup(text, "never")?;
    push_row_end(text, never_confirmed(setting))
}

/// Begins a row with the number of its setting.
#[tactic(auto, unfolding(crate::specs::Times::row_opening))]
fn push_row_opening(text: &mut String, place: usize) -> Result<(), AllocError>
    ensures { OnOk result (string_bytes text.new ≡ string_bytes text.old ++ row_opening place) }
{
    push_markup(text, "<tr><td>")?;
    push_number(text, place)?;
    push_markup(text, "</td><td>")
}

/// Ends a row with how many crashes it counts.
#[tactic(auto, unfolding(crate::specs::Times::row_end))]
fn push_row_end(text: &mut String, count: u64) -> Result<(), AllocError>
    ensures { OnOk result (string_bytes text.new ≡ string_bytes text.old ++ row_end count) }
{
    push_markup(text, "</td><td>")?;
    push_grouped(text, count)?;
    push_markup(text, "</td></tr>")
}
