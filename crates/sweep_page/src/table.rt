//! The table of all settings.
ghost use Rattle.std.specs.Prelude.{◌≡◌, ◌<◌, ◌++◌, [], OnOk, if◌then◌else◌, length};
ghost use Rattle.std.specs.List.{flat_map, list_any, range_with_len};
ghost use Rattle.std.specs.Option.{option_map_or};
ghost use Rattle.std.specs.Str.{chars};
ghost use Rattle.std.specs.String.{string_bytes};
ghost use Rattle.sweep_plan.specs.Sweep.{setting_count};
ghost use Rattle.sweep_page.specs.Table.{share_cells, death_cells, cost_cells, timed_cells, timeless_cells, figure_cells, value_cell, value_cells, row_opening, row, row_at, name_char, key_head, since_words, timed_words, timeless_words, table_words, table_opening, timed_heads, timeless_heads, figure_heads, rate_cells, no_rate_cells, rate_cells_of, rate_heads, counts_incidents, day_heads, table};

use crate::front_points::is_marked;
use base::Memory;
use drawing::{close_figure, open_figure, push_markup};
use figures::SettingSummary;
use incident_figures::{DayRates, IncidentSummary};
use std::alloc::{AllocError, Global};
use sweep_cells::{
    push_cell, push_hundredths, push_hundredths_interval, push_interval, push_number, push_percent,
    push_rate, push_runs_with, push_time_cell, setting_at, share_of, thousandths,
};
use sweep_plan::{Choice, Plan, Swept};
use ticks::Tick;

/// Appends the table of all settings, those on the front marked. `crashed` is whether a run of the sweep
/// has a crash.
#[tactic(auto, unfolding(crate::specs::Table::table))]
pub(crate) fn push_table(
    alloc: Global,
    text: &mut String,
    time: Option<Tick>,
    plan: &Plan,
    settings: &[SettingSummary],
    front: &[bool],
    crashed: bool,
) -> Result<(), Memory>
    requires { length settings.now ≡ setting_count plan.now.swept_keys }
    ensures { OnOk result (string_bytes text.new ≡ string_bytes text.old ++ table time crashed plan.now.swept_keys settings.now front.now) }
{
    open_figure(text, "cases", "All settings")?;
    push_table_words(text, time, crashed)?;
    push_table_opening(text)?;
    let swept_keys = plan.swept_keys();
    push_names(alloc, text, swept_keys)?;
    push_figure_words(text, crashed)?;
    let counted = count_incidents(settings);
    push_day_heads(text, counted)?;
    push_markup(text, "</tr></thead><tbody>\n")?;
    push_rows(alloc, text, time, plan, settings, front, crashed, counted)?;
    push_markup(text, "</tbody></table></div>")?;
    close_figure(text)?;
    Ok(())
}

/// Appends what its figures are.
#[tactic(auto, unfolding(crate::specs::Table::table_words))]
fn push_table_words(text: &mut String, time: Option<Tick>, crashed: bool) -> Result<(), AllocError>
    ensures { OnOk result (string_bytes text.new ≡ string_bytes text.old ++ table_words time crashed) }
{
    if crashed {
        push_timed_words(text, time)
    } else {
        push_timeless_words(text)
    }
}

/// Appends what they are, where runs have crashes.
#[tactic(auto, unfolding(crate::specs::Table::timed_words))]
fn push_timed_words(text: &mut String, time: Option<Tick>) -> Result<(), AllocError>
    ensures { OnOk result (string_bytes text.new ≡ string_bytes text.old ++ timed_words time) }
{
    let since = since_words(time);
    push_markup(text, "<p class=\"soft\">Times are ")?;
    push_markup(text, since)?;
    push_markup(
        text,
        ", over all crashes of all runs; a dash stands where too few crashes were detected. Starred \
         settings are on the front.</p>",
    )
}

/// Appends that times are left out, where no run has a crash.
#[tactic(auto, unfolding(crate::specs::Table::timeless_words))]
fn push_timeless_words(text: &mut String) -> Result<(), AllocError>
    ensures { OnOk result (string_bytes text.new ≡ string_bytes text.old ++ timeless_words) }
{
    text.push_str(
        "<p class=\"soft\">No run has a crash, so the columns and the plots of times since a crash \
         are left out. Starred settings are on the front.</p>",
    )
}

/// Begins the table.
#[tactic(auto, unfolding(crate::specs::Table::table_opening))]
fn push_table_opening(text: &mut String) -> Result<(), AllocError>
    ensures { OnOk result (string_bytes text.new ≡ string_bytes text.old ++ table_opening) }
{
    text.push_str(
        "<div class=\"wide\"><table><caption>All settings</caption><thead><tr>\
         <th scope=\"col\">number</th>",
    )
}

/// What its times are.
fn since_words(time: Option<Tick>) -> &'static str
    ensures { result.now ≡ since_words time }
{
    match time {
        Some(_) => "counted from the crash on",
        None => "in ticks since the crash",
    }
}

/// Appends the names of the keys as heads of columns.
fn push_names(alloc: Global, text: &mut String, swept_keys: &[Swept]) -> Result<(), Memory>
    ensures { OnOk result (string_bytes text.new ≡ string_bytes text.old ++ flat_map key_head swept_keys.now) }
{
    for swept in swept_keys {
        push_name(alloc, text, swept)?;
    }
    Ok(())
}

/// Appends the name of a key as the head of its column.
#[tactic(auto, unfolding(crate::specs::Table::key_head))]
fn push_name(alloc: Global, text: &mut String, swept: &Swept) -> Result<(), Memory>
    ensures { OnOk result (string_bytes text.new ≡ string_bytes text.old ++ key_head swept.now) }
{
    let name = swept.key().name(alloc)?;
    push_markup(text, "<th scope=\"col\">")?;
    push_broken(text, name.as_str())?;
    push_markup(text, "</th>")?;
    Ok(())
}

/// Appends the name of a key; behind each of its dots the line may break.
fn push_broken(text: &mut String, name: &str) -> Result<(), AllocError>
    ensures { OnOk result (string_bytes text.new ≡ string_bytes text.old ++ flat_map name_char (chars name.now)) }
{
    for c in name.chars() {
        push_name_char(text, c)?;
    }
    Ok(())
}

/// Appends a character of it.
fn push_name_char(text: &mut String, c: char) -> Result<(), AllocError>
    ensures { OnOk result (string_bytes text.new ≡ string_bytes text.old ++ name_char c) }
{
    if c == '.' {
        text.push_str(".<wbr>")
    } else {
        text.push(c)
    }
}

/// Appends the words over the figures.
#[tactic(auto, unfolding(crate::specs::Table::figure_heads))]
fn push_figure_words(text: &mut String, crashed: bool) -> Result<(), AllocError>
    ensures { OnOk result (string_bytes text.new ≡ string_bytes text.old ++ figure_heads crashed) }
{
    if crashed {
        push_timed_heads(text)
    } else {
        push_timeless_heads(text)
    }
}

/// Appends them where runs have crashes.
#[tactic(auto, unfolding(crate::specs::Table::timed_heads))]
fn push_timed_heads(text: &mut String) -> Result<(), AllocError>
    ensures { OnOk result (string_bytes text.new ≡ string_bytes text.old ++ timed_heads) }
{
    text.push_str(
        "<th scope=\"col\">confirmed, median</th>\
         <th scope=\"col\">runs with a false death</th>\
         <th scope=\"col\">their share</th>\
         <th scope=\"col\">95&nbsp;% interval</th>\
         <th scope=\"col\">members with a false death per run</th>\
         <th scope=\"col\">their 95&nbsp;% interval</th>\
         <th scope=\"col\">suspected, median</th>\
         <th scope=\"col\">confirmed, 99th percentile</th>\
         <th scope=\"col\">confirmed, greatest</th>\
         <th scope=\"col\">last confirmed, median</th>\
         <th scope=\"col\">last confirmed, greatest</th>\
         <th scope=\"col\">false suspicions per run</th>\
         <th scope=\"col\">messages per member per 1,000 ticks</th>",
    )
}

/// Appends them where no run has a crash: none of times.
#[tactic(auto, unfolding(crate::specs::Table::timeless_heads))]
fn push_timeless_heads(text: &mut String) -> Result<(), AllocError>
    ensures { OnOk result (string_bytes text.new ≡ string_bytes text.old ++ timeless_heads) }
{
    text.push_str(
        "<th scope=\"col\">runs with a false death</th>\
         <th scope=\"col\">their share</th>\
         <th scope=\"col\">95&nbsp;% interval</th>\
         <th scope=\"col\">members with a false death per run</th>\
         <th scope=\"col\">their 95&nbsp;% interval</th>\
         <th scope=\"col\">false suspicions per run</th>\
         <th scope=\"col\">messages per member per 1,000 ticks</th>",
    )
}

/// Appends those over fatal incidents in a day, where a setting counts them.
fn push_day_heads(text: &mut String, counted: bool) -> Result<(), AllocError>
    ensures { OnOk result (string_bytes text.new ≡ string_bytes text.old ++ day_heads counted) }
{
    if counted {
        push_rate_heads(text)
    } else {
        Ok(())
    }
}

/// Whether a setting counts incidents.
fn count_incidents(settings: &[SettingSummary]) -> bool
    ensures { result ≡ list_any counts_incidents settings.now }
{
    for setting in settings {
        if setting.incidents.is_some() {
            return true;
        }
    }
    false
}

/// Appends the words over fatal incidents in a day.
#[tactic(auto, unfolding(crate::specs::Table::rate_heads))]
fn push_rate_heads(text: &mut String) -> Result<(), AllocError>
    ensures { OnOk result (string_bytes text.new ≡ string_bytes text.old ++ rate_heads) }
{
    text.push_str(
        "<th scope=\"col\">fatal incidents in a day</th>\
         <th scope=\"col\">their 95&nbsp;% interval</th>",
    )
}

/// Appends the rows of all settings.
fn push_rows(
    alloc: Global,
    text: &mut String,
    time: Option<Tick>,
    plan: &Plan,
    settings: &[SettingSummary],
    front: &[bool],
    crashed: bool,
    counted: bool,
) -> Result<(), Memory>
    requires { length settings.now ≡ setting_count plan.now.swept_keys }
    ensures { OnOk result (string_bytes text.new
        ≡ string_bytes text.old ++ flat_map (row_at time crashed counted plan.now.swept_keys settings.now front.now) (range_with_len 0 (length settings.now))) }
{
    for place in 0..settings.len() {
        push_row_at(
            alloc, text, time, plan, settings, front, crashed, counted, place,
        )?;
    }
    Ok(())
}

/// Appends the row of the setting at a place.
#[tactic(auto, unfolding(crate::specs::Table::row_at))]
fn push_row_at(
    alloc: Global,
    text: &mut String,
    time: Option<Tick>,
    plan: &Plan,
    settings: &[SettingSummary],
    front: &[bool],
    crashed: bool,
    counted: bool,
    place: usize,
) -> Result<(), Memory>
    requires { length settings.now ≡ setting_count plan.now.swept_keys }
    ensures { OnOk result (string_bytes text.new ≡ string_bytes text.old ++ row_at time crashed counted plan.now.swept_keys settings.now front.now place) }
{
    match setting_at(settings, place) {
        Some(setting) => push_row(
            alloc,
            text,
            time,
            plan,
            crashed,
            counted,
            place,
            &setting,
            is_marked(front, place),
        ),
        None => Ok(()),
    }
}

/// Appends the row of the setting at a place, with its summary.
#[tactic(auto, unfolding(crate::specs::Table::row))]
fn push_row(
    alloc: Global,
    text: &mut String,
    time: Option<Tick>,
    plan: &Plan,
    crashed: bool,
    counted: bool,
    place: usize,
    setting: &SettingSummary,
    marked: bool,
) -> Result<(), Memory>
    requires { place < setting_count plan.now.swept_keys }
    ensures { OnOk result (string_bytes text.new ≡ string_bytes text.old ++ row time crashed counted plan.now.swept_keys place setting.now marked) }
{
    push_row_opening(text, marked)?;
    push_number(text, place)?;
    push_markup(text, "</th>")?;
    push_values(alloc, text, plan, place)?;
    push_figures(text, time, crashed, setting)?;
    push_day(text, counted, setting.incidents)?;
    push_markup(text, "</tr>\n")?;
    Ok(())
}

/// Begins a row, with a star where its setting is on the front.
#[tactic(auto, unfolding(crate::specs::Table::row_opening))]
fn push_row_opening(text: &mut String, marked: bool) -> Result<(), AllocError>
    ensures { OnOk result (string_bytes text.new ≡ string_bytes text.old ++ row_opening marked) }
{
    if marked {
        text.push_str("<tr class=\"best\"><th scope=\"row\">&#9733;&nbsp;")
    } else {
        text.push_str("<tr><th scope=\"row\">")
    }
}

/// Appends the values that the setting at a place gives its keys.
#[tactic(auto, unfolding(crate::specs::Table::value_cells))]
fn push_values(alloc: Global, text: &mut String, plan: &Plan, place: usize) -> Result<(), Memory>
    requires { place < setting_count plan.now.swept_keys }
    ensures { OnOk result (string_bytes text.new ≡ string_bytes text.old ++ value_cells plan.now.swept_keys place) }
{
    let chosen = plan.setting_at(alloc, place)?;
    push_chosen(alloc, text, &chosen)?;
    Ok(())
}

/// Appends these values.
fn push_chosen(alloc: Global, text: &mut String, chosen: &[Choice]) -> Result<(), Memory>
    ensures { OnOk result (string_bytes text.new ≡ string_bytes text.old ++ flat_map value_cell chosen.now) }
{
    for choice in chosen {
        push_value(alloc, text, choice)?;
    }
    Ok(())
}

/// Appends a value.
#[tactic(auto, unfolding(crate::specs::Table::value_cell))]
fn push_value(alloc: Global, text: &mut String, choice: &Choice) -> Result<(), Memory>
    ensures { OnOk result (string_bytes text.new ≡ string_bytes text.old ++ value_cell choice.now) }
{
    let value = choice.value.text(alloc)?;
    push_cell(text, value.as_str())?;
    Ok(())
}

/// Appends the figures of a setting: no times where no run has a crash.
#[tactic(auto, unfolding(crate::specs::Table::figure_cells))]
fn push_figures(
    text: &mut String,
    time: Option<Tick>,
    crashed: bool,
    setting: &SettingSummary,
) -> Result<(), AllocError>
    ensures { OnOk result (string_bytes text.new ≡ string_bytes text.old ++ figure_cells time crashed setting.now) }
{
    if crashed {
        push_timed(text, time, setting)
    } else {
        push_timeless(text, setting)
    }
}

/// Appends those that are no times.
#[tactic(auto, unfolding(crate::specs::Table::timeless_cells))]
fn push_timeless(text: &mut String, setting: &SettingSummary) -> Result<(), AllocError>
    ensures { OnOk result (string_bytes text.new ≡ string_bytes text.old ++ timeless_cells setting.now) }
{
    push_shares(text, setting)?;
    push_costs(text, setting)
}

/// Appends all of them.
#[tactic(auto, unfolding(crate::specs::Table::timed_cells))]
fn push_timed(
    text: &mut String,
    time: Option<Tick>,
    setting: &SettingSummary,
) -> Result<(), AllocError>
    ensures { OnOk result (string_bytes text.new ≡ string_bytes text.old ++ timed_cells time setting.now) }
{
    push_time_cell(text, time, setting.confirm_p50)?;
    push_shares(text, setting)?;
    push_time_cell(text, time, setting.suspect_p50)?;
    push_time_cell(text, time, setting.confirm_p99)?;
    push_time_cell(text, time, setting.confirm_greatest)?;
    push_time_cell(text, time, setting.last_p50)?;
    push_time_cell(text, time, setting.last_greatest)?;
    push_costs(text, setting)
}

/// Appends what a setting cost: false suspicions, and messages.
#[tactic(auto, unfolding(crate::specs::Table::cost_cells))]
fn push_costs(text: &mut String, setting: &SettingSummary) -> Result<(), AllocError>
    ensures { OnOk result (string_bytes text.new ≡ string_bytes text.old ++ cost_cells setting.now) }
{
    push_markup(text, "<td>")?;
    push_hundredths(text, setting.false_suspect)?;
    push_markup(text, "</td><td>")?;
    push_rate(text, setting.messages)?;
    push_markup(text, "</td>")
}

/// Appends the fatal incidents of a setting in a day, where a setting counts incidents.
fn push_day(
    text: &mut String,
    counted: bool,
    incidents: Option<IncidentSummary>,
) -> Result<(), AllocError>
    ensures { OnOk result (string_bytes text.new
        ≡ string_bytes text.old ++ (if counted then option_map_or rate_cells_of incidents no_rate_cells else [])) }
{
    if counted {
        push_incidents(text, incidents)
    } else {
        Ok(())
    }
}

/// Appends them, or dashes where the setting counts none.
fn push_incidents(text: &mut String, incidents: Option<IncidentSummary>) -> Result<(), AllocError>
    ensures { OnOk result (string_bytes text.new ≡ string_bytes text.old ++ option_map_or rate_cells_of incidents no_rate_cells) }
{
    match incidents {
        Some(incidents) => push_day_of(text, incidents.day),
        None => push_no_rates(text),
    }
}

/// Appends them, or dashes where its runs have no time.
fn push_day_of(text: &mut String, day: Option<DayRates>) -> Result<(), AllocError>
    ensures { OnOk result (string_bytes text.new ≡ string_bytes text.old ++ option_map_or rate_cells day no_rate_cells) }
{
    match day {
        Some(day) => push_day_rates(text, day),
        None => push_no_rates(text),
    }
}

/// Appends how many they are in a day, and their interval.
#[tactic(auto, unfolding(crate::specs::Table::rate_cells))]
fn push_day_rates(text: &mut String, day: DayRates) -> Result<(), AllocError>
    ensures { OnOk result (string_bytes text.new ≡ string_bytes text.old ++ rate_cells day) }
{
    push_markup(text, "<td>")?;
    push_hundredths(text, day.rate)?;
    push_markup(text, "</td><td>")?;
    push_hundredths_interval(text, day.low, day.high)?;
    push_markup(text, "</td>")
}

/// Appends dashes in their place.
#[tactic(auto, unfolding(crate::specs::Table::no_rate_cells))]
fn push_no_rates(text: &mut String) -> Result<(), AllocError>
    ensures { OnOk result (string_bytes text.new ≡ string_bytes text.old ++ no_rate_cells) }
{
    text.push_str("<td>-</td><td>-</td>")
}

/// Appends how often a setting has false deaths.
#[tactic(auto, unfolding(crate::specs::Table::share_cells))]
pub(crate) fn push_shares(text: &mut String, setting: &SettingSummary) -> Result<(), AllocError>
    ensures { OnOk result (string_bytes text.new ≡ string_bytes text.old ++ share_cells setting.now) }
{
    push_markup(text, "<td>")?;
    push_runs_with(text, setting)?;
    push_markup(text, "</td><td>")?;
    push_percent(text, share_of(setting))?;
    push_markup(text, "</td><td>")?;
    push_interval(
        text,
        thousandths(setting.share_low),
        thousandths(setting.share_high),
    )?;
    push_markup(text, "</td>")?;
    push_deaths(text, setting)
}

/// Appends how many members with a false death it has per run.
#[tactic(auto, unfolding(crate::specs::Table::death_cells))]
fn push_deaths(text: &mut String, setting: &SettingSummary) -> Result<(), AllocError>
    ensures { OnOk result (string_bytes text.new ≡ string_bytes text.old ++ death_cells setting.now) }
{
    push_markup(text, "<td>")?;
    push_hundredths(text, setting.deaths)?;
    push_markup(text, "</td><td>")?;
    push_hundredths_interval(text, setting.deaths_low, setting.deaths_high)?;
    push_markup(text, "</td>")
}
