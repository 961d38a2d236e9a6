//! The lines of settings, in aligned columns.
ghost use Rattle.std.specs.Prelude.{◌≡◌, ◌+◌, ◌<◌, ◌++◌, ◌∷◌, ◌==◌, [], codes, decimal, map, length, OnOk, IfOk, if◌then◌else◌};
ghost use Rattle.std.specs.String.{string_bytes};
ghost use Rattle.figures.specs.SettingLines.{padded, cells_aligned, aligned, first_texts, some_words, some_texts, last_texts, incident_texts, day_texts, widths_of, figure_widths, setting_header, setting_line};

use crate::column_set::ColumnSet;
use crate::summary::SettingSummary;
use crate::texts::{push_hundredths, push_number, push_rate, push_tenths, push_text, push_time};
use incident_figures::{DayRates, IncidentSummary};
use std::alloc::{AllocError, Global};

/// The words over the first figures, in the order of their columns.
const FIRST_WORDS: [&str; 9] = [
    "runs",
    "suspect_p50",
    "confirm_p50",
    "confirm_p99",
    "confirm_greatest",
    "last_p50",
    "last_greatest",
    "false_suspect",
    "thrown_out",
];

/// The widths of their columns, in bytes.
const FIRST_WIDTHS: [usize; 9] = [8, 11, 11, 11, 16, 8, 13, 13, 10];

/// The words that stand between these and the last in version 4.
const LATER_WORDS: [&str; 7] = [
    "revived",
    "alarms",
    "deaths",
    "deaths_well",
    "deaths_day",
    "day_low",
    "day_high",
];

/// The widths of their columns. Version 3 has the first of them alone.
const LATER_WIDTHS: [usize; 7] = [8, 8, 8, 11, 10, 8, 8];

/// The words over the last figures.
const LAST_WORDS: [&str; 4] = ["runs_with", "share_low", "share_high", "messages"];

/// The widths of their columns.
const LAST_WIDTHS: [usize; 4] = [9, 9, 10, 8];

/// Adds the header of the lines of settings to a text: the keys that are set, each in a column of its
/// width in bytes, and the words over the figures of these columns.
pub fn push_setting_header(
    alloc: Global,
    text: &mut String,
    widths: &[usize],
    keys: &[&str],
    columns: ColumnSet,
) -> Result<(), AllocError>
    requires { length widths.now ≡ length keys.now }
    ensures { OnOk result (string_bytes text.new ≡ string_bytes text.old ++ setting_header columns widths.now (map (λ key. key.now) keys.now)) }
{
    let mut words = Vec::new(alloc);
    push_texts(alloc, &mut words, keys)?;
    push_texts(alloc, &mut words, &FIRST_WORDS)?;
    push_some_words(alloc, &mut words, columns)?;
    push_texts(alloc, &mut words, &LAST_WORDS)?;
    push_columns(alloc, text, widths, columns, &words)
}

/// Adds the line of a setting to a text: the values that the keys have, in the columns of the keys, and
/// the figures, as in the header; a dash stands for a figure that isn't there.
pub fn push_setting_line(
    alloc: Global,
    text: &mut String,
    widths: &[usize],
    values: &[&str],
    summary: &SettingSummary,
    columns: ColumnSet,
) -> Result<(), AllocError>
    requires { length widths.now ≡ length values.now }
    ensures { OnOk result (string_bytes text.new ≡ string_bytes text.old ++ setting_line columns widths.now (map (λ value. value.now) values.now) summary.now) }
{
    let mut texts = Vec::new(alloc);
    push_texts(alloc, &mut texts, values)?;
    push_first(alloc, &mut texts, summary)?;
    push_some(alloc, &mut texts, columns, summary)?;
    push_last(alloc, &mut texts, summary)?;
    push_columns(alloc, text, widths, columns, &texts)
}

/// Adds texts to those of a line.
fn push_texts(alloc: Global, texts: &mut Vec<String>, more: &[&str]) -> Result<(), AllocError>
    ensures { OnOk result (map string_bytes texts.new.items ≡ map string_bytes texts.old.items ++ map (λ text. text.now) more.now) }
{
    for text in more {
        push_text(alloc, texts, text)?;
    }
    Ok(())
}

/// Adds the words over the columns that only some tables have.
fn push_some_words(
    alloc: Global,
    texts: &mut Vec<String>,
    columns: ColumnSet,
) -> Result<(), AllocError>
    ensures { OnOk result (map string_bytes texts.new.items ≡ map string_bytes texts.old.items ++ some_words columns) }
{
    match columns {
        ColumnSet::First => Ok(()),
        ColumnSet::WithRevived => push_text(alloc, texts, "revived"),
        ColumnSet::WithIncidents => push_texts(alloc, texts, &LATER_WORDS),
    }
}

/// Adds the texts of these columns to those of a line.
fn push_some(
    alloc: Global,
    texts: &mut Vec<String>,
    columns: ColumnSet,
    summary: &SettingSummary,
) -> Result<(), AllocError>
    ensures { OnOk result (map string_bytes texts.new.items ≡ map string_bytes texts.old.items ++ some_texts columns summary.now) }
{
    match columns {
        ColumnSet::First => Ok(()),
        ColumnSet::WithRevived => push_number(alloc, texts, summary.revived),
        ColumnSet::WithIncidents => {
            push_number(alloc, texts, summary.revived)?;
            push_incidents(alloc, texts, summary.incidents)
        }
    }
}

/// Adds the texts of incidents, or dashes where there are none.
fn push_incidents(
    alloc: Global,
    texts: &mut Vec<String>,
    incidents: Option<IncidentSummary>,
) -> Result<(), AllocError>
    ensures { OnOk result (map string_bytes texts.new.items ≡ map string_bytes texts.old.items ++ incident_texts incidents) }
{
    match incidents {
        Some(told) => {
            push_hundredths(alloc, texts, told.alarms)?;
            push_number(alloc, texts, told.deaths)?;
            push_number(alloc, texts, told.deaths_well)?;
            push_day(alloc, texts, told.day)
        }
        None => push_texts(alloc, texts, &["-", "-", "-", "-", "-", "-"]),
    }
}

/// Adds the texts of the false deaths of a day, or dashes where no run lasts.
fn push_day(alloc: Global, texts: &mut Vec<String>, day: Option<DayRates>) -> Result<(), AllocError>
    ensures { OnOk result (map string_bytes texts.new.items ≡ map string_bytes texts.old.items ++ day_texts day) }
{
    match day {
        Some(rates) => {
            push_hundredths(alloc, texts, rates.rate)?;
            push_hundredths(alloc, texts, rates.low)?;
            push_hundredths(alloc, texts, rates.high)
        }
        None => push_texts(alloc, texts, &["-", "-", "-"]),
    }
}

/// Adds the texts of a setting's first figures to those of a line.
fn push_first(
    alloc: Global,
    texts: &mut Vec<String>,
    summary: &SettingSummary,
) -> Result<(), AllocError>
    ensures { OnOk result (map string_bytes texts.new.items ≡ map string_bytes texts.old.items ++ first_texts summary.now) }
{
    push_number(alloc, texts, u128::from(summary.runs))?;
    push_time(alloc, texts, summary.suspect_p50)?;
    push_time(alloc, texts, summary.confirm_p50)?;
    push_time(alloc, texts, summary.confirm_p99)?;
    push_time(alloc, texts, summary.confirm_greatest)?;
    push_time(alloc, texts, summary.last_p50)?;
    push_time(alloc, texts, summary.last_greatest)?;
    push_hundredths(alloc, texts, summary.false_suspect)?;
    push_number(alloc, texts, summary.thrown_out)
}

/// Adds the texts of its last figures.
fn push_last(
    alloc: Global,
    texts: &mut Vec<String>,
    summary: &SettingSummary,
) -> Result<(), AllocError>
    ensures { OnOk result (map string_bytes texts.new.items ≡ map string_bytes texts.old.items ++ last_texts summary.now) }
{
    push_number(alloc, texts, u128::from(summary.runs_with))?;
    push_tenths(alloc, texts, summary.share_low)?;
    push_tenths(alloc, texts, summary.share_high)?;
    push_rate(alloc, texts, summary.messages)
}

/// Adds a line: texts in columns, of which the first have these widths, and the last, the figures,
/// those of their words.
fn push_columns(
    alloc: Global,
    text: &mut String,
    widths: &[usize],
    columns: ColumnSet,
    texts: &[String],
) -> Result<(), AllocError>
    requires { length texts.now ≡ length widths.now + length (figure_widths columns) }
    ensures { OnOk result (string_bytes text.new ≡ string_bytes text.old ++ aligned (widths.now ++ figure_widths columns) (map string_bytes texts.now)) }
{
    let mut all = Vec::new(alloc);
    all.extend_from_slice(widths)?;
    push_widths(&mut all, columns)?;
    push_cells(text, &all, texts)?;
    text.push_str("\n")?;
    Ok(())
}

/// Adds the widths of the columns of the figures.
fn push_widths(widths: &mut Vec<usize>, columns: ColumnSet) -> Result<(), AllocError>
    ensures { OnOk result (widths.new.items ≡ widths.old.items ++ figure_widths columns) }
{
    widths.extend_from_slice(&FIRST_WIDTHS)?;
    push_some_widths(widths, columns)?;
    widths.extend_from_slice(&LAST_WIDTHS)?;
    Ok(())
}

/// Adds the widths of the columns that only some tables have.
fn push_some_widths(widths: &mut Vec<usize>, columns: ColumnSet) -> Result<(), AllocError>
    ensures { OnOk result (widths.new.items ≡ widths.old.items ++ widths_of (some_words columns)) }
{
    match columns {
        ColumnSet::First => Ok(()),
        ColumnSet::WithRevived => {
            widths.push(LATER_WIDTHS[0])?;
            Ok(())
        }
        ColumnSet::WithIncidents => {
            widths.extend_from_slice(&LATER_WIDTHS)?;
            Ok(())
        }
    }
}

/// Adds texts in these widths, separated by two spaces.
fn push_cells(text: &mut String, widths: &[usize], texts: &[String]) -> Result<(), AllocError>
    requires { length widths.now ≡ length texts.now }
    ensures { OnOk result (string_bytes text.new ≡ string_bytes text.old ++ cells_aligned widths.now (map string_bytes texts.now)) }
{
    for (place, cell) in texts.iter().enumerate() {
        push_gap(text, place)?;
        push_padded(text, widths[place], cell.as_str())?;
    }
    Ok(())
}

/// Adds what stands before the cell at a place of a line: two spaces, but for the first.
fn push_gap(text: &mut String, place: usize) -> Result<(), AllocError>
    ensures { OnOk result (string_bytes text.new ≡ string_bytes text.old ++ (if place == 0 then [] else codes "  ")) }
{
    if place == 0 {
        return Ok(());
    }
    text.push_str("  ")
}

/// Adds a text, with spaces before it up to a width.
fn push_padded(text: &mut String, width: usize, cell: &str) -> Result<(), AllocError>
    ensures { OnOk result (string_bytes text.new ≡ string_bytes text.old ++ padded width cell.now) }
{
    let spaces = width.saturating_sub(cell.len());
    for _space in 0..spaces {
        text.push_str(" ")?;
    }
    text.push_str(cell)
}
