//! The cells of a run's line behind the values of its setting, held against the run's metadata.
ghost use Rattle.std.specs.Prelude.{◌≡◌, ◌≢◌, ◌==◌, ◌∷◌, ◌++◌, [], ℕ, Bool, Option, Some, None, List, true, false, IfOk, IfErr, IfSome, IsNone, OnOk, count_by, get_or, min, max, unwrap_or};
ghost use Rattle.std.specs.List.{filter_map, reduce, slice_split};
ghost use Rattle.std.specs.Bool.{Decides};
ghost use Rattle.std.specs.Str.{IsAscii};
ghost use Rattle.std.specs.Option.{ForSome};
ghost use Rattle.figures.specs.Lines.{cell, some_in_order};
ghost use Rattle.figures.specs.Notes.{AreWordsOf, IsWordOf};
ghost use Rattle.figures.specs.Settings.{suspected_in, confirmed_in, last_in};
ghost use Rattle.figures.specs.Cells.{AgreesWith, AreCellsOf, RefusesCells, SayCells, TakesCells, cells_in_order, incidents_taken, is_confirmed, number_in, protocol_at};

use crate::column_set::ColumnSet;
use crate::crashes::{CrashTimes, confirmed_in, last_in, suspected_in};
use crate::lines::{claims_in_order, later_in_order, protocol_in_order};
use crate::note_words::MetadataFault;
use crate::notes::RunMetadata;
use crate::run::RunFigures;
use base::Memory;
use decimals::number;
use incident_figures::{RunCounts, RunIncidents};
use std::alloc::Global;
use std::str::from_utf8;

/// Whether a text is what the line of a run with this metadata has behind the values of its setting: its seed, its figures
/// and a line feed. The figures must be those that the metadata says, where it says them; the seed must be the one that is
/// known, if one is. A number is at most 2^63 - 1. The table has these columns.
pub fn are_cells_of(
    alloc: Global,
    metadata: &RunMetadata,
    seed: Option<u64>,
    columns: ColumnSet,
    text: &[u8],
) -> Result<bool, Memory>
    ensures are { IfOk result (λ it. it ≡ true → AreCellsOf columns seed metadata.now text.now) }
    ensures none { IfOk result (λ it. it ≡ false → ¬ (AreCellsOf columns seed metadata.now text.now)) }
{
    let Some(words) = words_of(text) else {
        return Ok(false);
    };
    match read_cells(alloc, words) {
        Ok(cells) => say_cells(alloc, metadata, seed, columns, &cells),
        Err(MetadataFault::Word) => Ok(false),
        Err(MetadataFault::Memory) => Err(Memory),
    }
}

/// What stands before the line feed at the end of a text.
fn words_of<'a>(text: &'a [u8]) -> Option<&'a str>
    ensures some { IfSome result (λ words. text.entry.now ≡ words.now ++ 10 ∷ []) }
    ensures none { IsNone result → (words : List ℕ) → IsAscii words → text.entry.now ≢ words ++ 10 ∷ [] }
{
    let Some(front) = front_of(text) else {
        return None;
    };
    match from_utf8(front) {
        Ok(words) => Some(words),
        Err(_) => None,
    }
}

/// What stands before the line feed at the end of a text, in bytes.
fn front_of<'a>(text: &'a [u8]) -> Option<&'a [u8]>
    ensures some { IfSome result (λ front. text.entry.now ≡ front.now ++ 10 ∷ []) }
    ensures none { IsNone result → (front : List ℕ) → text.entry.now ≢ front ++ 10 ∷ [] }
{
    text.strip_suffix(b"\n")
}

/// The numbers of the cells of a text, with commas between them; an empty cell has none.
fn read_cells(alloc: Global, text: &str) -> Result<Vec<Option<u64>>, MetadataFault>
    ensures read { IfOk result (λ cells. AreWordsOf cell (slice_split (λ byte. byte == 44) text.now) cells.items) }
    ensures refused { IfErr result (RefusesCells (slice_split (λ byte. byte == 44) text.now)) }
{
    let mut cells = Vec::new(alloc);
    for item in text.split(',') {
        let Some(found) = read_cell(item) else {
            return Err(MetadataFault::Word);
        };
        cells.push(found)?;
    }
    Ok(cells)
}

/// The number of a cell, which is none where that is empty.
fn read_cell(word: &str) -> Option<Option<u64>>
    ensures some { IfSome result (IsWordOf cell word.now) }
    ensures none { IsNone result → (f : Option ℕ) → ¬ (IsWordOf cell word.now f) }
{
    if word.is_empty() {
        return Some(None);
    }
    match number(word) {
        Some(figure) => Some(Some(figure)),
        None => None,
    }
}

/// Whether these are the cells of a run with this metadata.
fn say_cells(
    alloc: Global,
    metadata: &RunMetadata,
    seed: Option<u64>,
    columns: ColumnSet,
    cells: &[Option<u64>],
) -> Result<bool, Memory>
    ensures are { IfOk result (λ it. it ≡ true → SayCells columns seed metadata.now cells.now) }
    ensures none { IfOk result (λ it. it ≡ false → ¬ (SayCells columns seed metadata.now cells.now)) }
{
    let figures = figures_with(metadata, columns, cells);
    let seed = seed_with(seed, cells);
    let expected = cells_in_order(alloc, columns, seed, &figures)?;
    Ok(are_same(cells, &expected))
}

/// Whether some cells are the same as others.
fn are_same(some: &[Option<u64>], others: &[Option<u64>]) -> bool
    ensures { Decides result (some.now ≡ others.now) }
{
    some == others
}

/// The seed that is known, or the one that the cells say.
fn seed_with(known: Option<u64>, cells: &[Option<u64>]) -> u64
    ensures { result ≡ unwrap_or known (number_in cells.now 0) }
{
    match known {
        Some(seed) => seed,
        None => number_at(cells, 0),
    }
}

/// The figures of a run with this metadata that has these cells: what the metadata doesn't say is taken from the cells.
fn figures_with(metadata: &RunMetadata, columns: ColumnSet, cells: &[Option<u64>]) -> RunFigures
    ensures agrees { AgreesWith metadata.now result }
    ensures takes { TakesCells columns metadata.now cells.now result }
{
    let crashes = metadata.crashes();
    let protocol = protocol_at(columns);
    RunFigures {
        rows: number_at(cells, 1),
        crashes: crashes.len() as u64,
        detected: confirmed(crashes) as u64,
        suspect_least: least_suspicion(crashes),
        confirm_least: least_confirmation(crashes),
        confirm_greatest: greatest_confirmation(crashes),
        last_greatest: greatest_last(crashes),
        false_suspect: metadata.false_suspect(),
        false_suspect_healthy: number_at(cells, 9),
        false_confirm: number_at(cells, 10),
        false_confirm_healthy: number_at(cells, 11),
        thrown_out: metadata.thrown_out(),
        revived: metadata.revived(),
        incidents: incidents_taken(metadata.incidents(), cells),
        accuse: number_at(cells, protocol),
        refute: number_at(cells, protocol + 1),
        fail: number_at(cells, protocol + 2),
        health: number_at(cells, protocol + 3),
        sent: metadata.sent(),
        lost: number_at(cells, protocol + 5),
    }
}

/// The place of the first figure of the protocol among the cells.
fn protocol_at(columns: ColumnSet) -> usize
    ensures { result ≡ protocol_at columns }
{
    match columns {
        ColumnSet::First => 13,
        ColumnSet::WithRevived => 14,
        ColumnSet::WithIncidents => 19,
    }
}

/// The number of the cell at a place; 0 where there is none.
fn number_at(cells: &[Option<u64>], place: usize) -> u64
    ensures { result ≡ number_in cells.now place }
{
    match cells.get(place) {
        Some(Some(number)) => *number,
        _ => 0,
    }
}

/// The cells of a run with this seed and these figures.
fn cells_in_order(
    alloc: Global,
    columns: ColumnSet,
    seed: u64,
    figures: &RunFigures,
) -> Result<Vec<Option<u64>>, Memory>
    ensures { IfOk result (λ cells. cells.items ≡ cells_in_order columns seed figures.now) }
{
    let mut cells = Vec::new(alloc);
    cells.push(Some(seed))?;
    cells.extend_from_slice(&claims_in_order(figures))?;
    push_some(&mut cells, columns, figures)?;
    cells.extend_from_slice(&protocol_in_order(figures))?;
    Ok(cells)
}

/// Adds the cells that only some tables have.
fn push_some(
    cells: &mut Vec<Option<u64>>,
    columns: ColumnSet,
    figures: &RunFigures,
) -> Result<(), Memory>
    ensures { OnOk result (cells.new.items ≡ cells.old.items ++ some_in_order columns figures.now) }
{
    match columns {
        ColumnSet::First => Ok(()),
        ColumnSet::WithRevived => {
            cells.push(Some(figures.revived))?;
            Ok(())
        }
        ColumnSet::WithIncidents => {
            cells.extend_from_slice(&later_in_order(figures))?;
            Ok(())
        }
    }
}

/// The incidents of a run with these counts and these cells.
fn incidents_taken(counts: Option<RunCounts>, cells: &[Option<u64>]) -> Option<RunIncidents>
    ensures { result ≡ incidents_taken counts cells.now }
{
    match counts {
        Some(counts) => Some(RunIncidents {
            alarms: counts.alarms,
            deaths: counts.deaths,
            deaths_well: counts.deaths_well,
            restarts: number_at(cells, 17),
            whole: cell_at(cells, 18),
        }),
        None => None,
    }
}

/// The cell at a place; none where there is none.
fn cell_at(cells: &[Option<u64>], place: usize) -> Option<u64>
    ensures { result ≡ get_or cells.now place None }
{
    match cells.get(place) {
        Some(cell) => *cell,
        None => None,
    }
}

/// How many crashes some member confirmed.
fn confirmed(crashes: &[CrashTimes]) -> usize
    ensures { result ≡ count_by is_confirmed crashes.now }
{
    crashes
        .iter()
        .filter(|crash| crash.confirmed.is_some())
        .count()
}

fn least_suspicion(crashes: &[CrashTimes]) -> Option<u64>
    ensures { result ≡ reduce min (filter_map suspected_in crashes.now) }
{
    crashes.iter().filter_map(|crash| suspected_in(crash)).min()
}

fn least_confirmation(crashes: &[CrashTimes]) -> Option<u64>
    ensures { result ≡ reduce min (filter_map confirmed_in crashes.now) }
{
    crashes.iter().filter_map(|crash| confirmed_in(crash)).min()
}

fn greatest_confirmation(crashes: &[CrashTimes]) -> Option<u64>
    ensures { result ≡ reduce max (filter_map confirmed_in crashes.now) }
{
    crashes.iter().filter_map(|crash| confirmed_in(crash)).max()
}

fn greatest_last(crashes: &[CrashTimes]) -> Option<u64>
    ensures { result ≡ reduce max (filter_map last_in crashes.now) }
{
    crashes.iter().filter_map(|crash| last_in(crash)).max()
}
