//! The lines of the table, in memory.
ghost use Rattle.std.specs.Prelude.{◌≡◌, ◌≤◌, ◌++◌, ◌∷◌, ℕ, [], Some, codes, List, IfOk, OnOk, length, map};
ghost use Rattle.figures.specs.Lines.{HasLaidOut, cell, claims_in_order, protocol_in_order, some_names, some_in_order, table_line, header_line, run_line};

use crate::column_set::ColumnSet;
use crate::run::RunFigures;
use base::Memory;
use csv::Writer;
use itoa::Buffer;
use std::alloc::Global;

/// The names of the figures of crashes and of false claims, in the order of their columns.
const CLAIM_NAMES: [&str; 12] = [
    "rows",
    "crashes",
    "detected",
    "suspect_least",
    "confirm_least",
    "confirm_greatest",
    "last_greatest",
    "false_suspect",
    "false_suspect_healthy",
    "false_confirm",
    "false_confirm_healthy",
    "thrown_out",
];

/// The names of the figures of the protocol, likewise.
const PROTOCOL_NAMES: [&str; 6] = ["accuse", "refute", "fail", "health", "sent", "lost"];

/// The names of the columns that tables of version 4 have between these.
const LATER_NAMES: [&str; 6] = [
    "revived",
    "alarms",
    "deaths",
    "deaths_well",
    "restarts",
    "whole",
];

/// The first line of a table with these columns, of runs for which these keys are set.
pub(crate) fn header_text(
    alloc: Global,
    keys: &[&str],
    columns: ColumnSet,
) -> Result<Vec<u8>, Memory>
    ensures { IfOk result (λ text. text.items ≡ header_line columns (map (λ key. key.now) keys.now)) }
{
    let mut writer = new_writer(alloc);
    write_texts(&mut writer, keys)?;
    write_field(&mut writer, b"seed")?;
    write_texts(&mut writer, &CLAIM_NAMES)?;
    write_some_names(&mut writer, columns)?;
    write_texts(&mut writer, &PROTOCOL_NAMES)?;
    finish(writer)
}

/// The line of a run, for which the keys had these values; the rest as for the first line.
pub(crate) fn run_text(
    alloc: Global,
    values: &[&str],
    seed: u64,
    figures: &RunFigures,
    columns: ColumnSet,
) -> Result<Vec<u8>, Memory>
    ensures { IfOk result (λ text. text.items ≡ run_line columns (map (λ value. value.now) values.now) seed figures.now) }
{
    let mut writer = new_writer(alloc);
    write_texts(&mut writer, values)?;
    write_cell(&mut writer, Some(seed))?;
    write_cells(&mut writer, &claims_in_order(figures))?;
    write_some(&mut writer, columns, figures)?;
    write_cells(&mut writer, &protocol_in_order(figures))?;
    finish(writer)
}

/// The figures of crashes and of false claims, in the order of their columns.
pub(crate) fn claims_in_order(figures: &RunFigures) -> [Option<u64>; 12]
    ensures { result ≡ claims_in_order figures.now }
{
    [
        Some(figures.rows),
        Some(figures.crashes),
        Some(figures.detected),
        figures.suspect_least,
        figures.confirm_least,
        figures.confirm_greatest,
        figures.last_greatest,
        Some(figures.false_suspect),
        Some(figures.false_suspect_healthy),
        Some(figures.false_confirm),
        Some(figures.false_confirm_healthy),
        Some(figures.thrown_out),
    ]
}

/// The figures of the protocol, likewise.
pub(crate) fn protocol_in_order(figures: &RunFigures) -> [Option<u64>; 6]
    ensures { result ≡ protocol_in_order figures.now }
{
    [
        Some(figures.accuse),
        Some(figures.refute),
        Some(figures.fail),
        Some(figures.health),
        Some(figures.sent),
        Some(figures.lost),
    ]
}

/// The figures of the columns that tables of version 4 have between these.
pub(crate) fn later_in_order(figures: &RunFigures) -> [Option<u64>; 6]
    ensures { result ≡ some_in_order ColumnSet.WithIncidents figures.now }
{
    let revived = Some(figures.revived);
    match figures.incidents {
        Some(run) => [
            revived,
            Some(run.alarms),
            Some(run.deaths),
            Some(run.deaths_well),
            Some(run.restarts),
            run.whole,
        ],
        None => [revived, None, None, None, None, None],
    }
}

/// A writer that has written nothing yet.
fn new_writer(alloc: Global) -> Writer<Vec<u8>>
    ensures { HasLaidOut result [] }
{
    Writer::from_writer(Vec::new(alloc))
}

/// Writes the names of the columns that only some tables have.
fn write_some_names(writer: &mut Writer<Vec<u8>>, columns: ColumnSet) -> Result<(), Memory>
    ensures { OnOk result ((fields : List (List ℕ)) → HasLaidOut writer.old fields → HasLaidOut writer.new (fields ++ some_names columns)) }
{
    match columns {
        ColumnSet::First => Ok(()),
        ColumnSet::WithRevived => write_field(writer, b"revived"),
        ColumnSet::WithIncidents => write_texts(writer, &LATER_NAMES),
    }
}

/// Writes the figures of these columns.
fn write_some(
    writer: &mut Writer<Vec<u8>>,
    columns: ColumnSet,
    figures: &RunFigures,
) -> Result<(), Memory>
    ensures { OnOk result ((fields : List (List ℕ)) → HasLaidOut writer.old fields → HasLaidOut writer.new (fields ++ map cell (some_in_order columns figures.now))) }
{
    match columns {
        ColumnSet::First => Ok(()),
        ColumnSet::WithRevived => write_cell(writer, Some(figures.revived)),
        ColumnSet::WithIncidents => write_cells(writer, &later_in_order(figures)),
    }
}

/// Writes texts as fields.
fn write_texts(writer: &mut Writer<Vec<u8>>, texts: &[&str]) -> Result<(), Memory>
    ensures { OnOk result ((fields : List (List ℕ)) → HasLaidOut writer.old fields → HasLaidOut writer.new (fields ++ map (λ text. text.now) texts.now)) }
{
    for text in texts {
        write_field(writer, text.as_bytes())?;
    }
    Ok(())
}

/// Writes figures as fields.
fn write_cells(writer: &mut Writer<Vec<u8>>, figures: &[Option<u64>]) -> Result<(), Memory>
    ensures { OnOk result ((fields : List (List ℕ)) → HasLaidOut writer.old fields → HasLaidOut writer.new (fields ++ map cell figures.now)) }
{
    for figure in figures {
        write_cell(writer, *figure)?;
    }
    Ok(())
}

/// Writes a figure as a field, which is empty where there is none.
fn write_cell(writer: &mut Writer<Vec<u8>>, figure: Option<u64>) -> Result<(), Memory>
    ensures { OnOk result ((fields : List (List ℕ)) → HasLaidOut writer.old fields → HasLaidOut writer.new (fields ++ cell figure ∷ [])) }
{
    let mut buffer = Buffer::new();
    match figure {
        Some(number) => write_field(writer, buffer.format(number).as_bytes()),
        None => write_field(writer, b""),
    }
}

/// Writes a field. The writer goes into memory alone, so an error of it, of which `?` makes none of ours, is want of memory.
fn write_field(writer: &mut Writer<Vec<u8>>, field: &[u8]) -> Result<(), Memory>
    ensures { OnOk result ((fields : List (List ℕ)) → HasLaidOut writer.old fields → HasLaidOut writer.new (fields ++ field.now ∷ [])) }
{
    match writer.write_field(field) {
        Ok(()) => Ok(()),
        Err(_) => Err(Memory),
    }
}

/// Ends the line, and gives its text; errors are as for a field.
fn finish(writer: Writer<Vec<u8>>) -> Result<Vec<u8>, Memory>
    ensures { (fields : List (List ℕ)) → HasLaidOut writer fields → 2 ≤ length fields → IfOk result (λ text. text.items ≡ table_line fields) }
{
    let mut writer = writer;
    match writer.end_record() {
        Ok(()) => {}
        Err(_) => return Err(Memory),
    }
    match writer.into_inner() {
        Ok(text) => Ok(text),
        Err(_) => Err(Memory),
    }
}
