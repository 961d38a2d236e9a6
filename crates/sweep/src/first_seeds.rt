//! The seed in the line of a sweep's first run.
ghost use Rattle.std.specs.Prelude.{◌≡◌, ℕ, Some, None, IfOk, IfSome, IsNone, List};
ghost use Rattle.sweep.specs.FirstSeed.{HasCell, HasSeed, IsItsSeed};
ghost use Rattle.sweep.specs.Runs.{IsAskedFor};
ghost use Rattle.sweep.specs.Sums.{HasLineOf, line_key};
ghost use Rattle.sweep.specs.declared.summing.LineKey.{LineKey as Key};

use crate::begun::rest_behind;
use crate::planned::planned;
use crate::standing::behind_line;
use crate::summing::{line_key, value_cells};
use base::Memory;
use decimals::number;
use figures::ColumnSet;
use line_sums::cut_at;
use std::alloc::Global;
use std::str::from_utf8;
use sweep_plan::Plan;

/// The seed of the line with which a text begins, which must be that of the sweep's first run, genuine with this seed; none where it
/// begins with no such line, whatever the seed.
pub fn first_seed(
    alloc: Global,
    plan: &Plan,
    mark: &str,
    columns: ColumnSet,
    text: &[u8],
) -> Result<Option<u64>, Memory>
    requires asked { IsAskedFor plan.now }
    ensures some { IfOk result (λ found. IfSome found (λ seed. HasLineOf (line_key columns (Some seed) mark.now plan.now) plan.now 0 text.now)) }
    ensures none { IfOk result (λ found. IsNone found → ¬ (HasLineOf (line_key columns None mark.now plan.now) plan.now 0 text.now)) }
{
    let Some(seed) = seed_of_line(alloc, plan, text)? else {
        return Ok(None);
    };
    let key = line_key(alloc, plan, mark, columns, Some(seed))?;
    match behind_line(alloc, plan, &key, 0, text)? {
        Some(_left) => Ok(Some(seed)),
        None => Ok(None),
    }
}

/// The seed that a text has where the line of the sweep's first run has it.
fn seed_of_line(alloc: Global, plan: &Plan, text: &[u8]) -> Result<Option<u64>, Memory>
    requires asked { IsAskedFor plan.now }
    ensures some { IfOk result (λ found. IfSome found (λ seed. IsItsSeed plan.now text.now seed)) }
    ensures none { IfOk result (λ found. IsNone found → (key : Key) → ¬ (HasLineOf key plan.now 0 text.now)) }
{
    let run = planned(alloc, plan, 0)?;
    let values = value_cells(alloc, &run.setting)?;
    Ok(seed_behind(text, values.as_bytes()))
}

/// The number in the cell that a text has behind a checksum, metadata and the values of a setting.
fn seed_behind(text: &[u8], values: &[u8]) -> Option<u64>
    ensures some { IfSome result (λ seed. (other : ℕ) → HasSeed values.now text.now other → other ≡ seed) }
    ensures none { IsNone result → (seed : ℕ) → ¬ (HasSeed values.now text.now seed) }
{
    let Some(cell) = cell_behind(text, values) else {
        return None;
    };
    let Ok(word) = from_utf8(cell) else {
        return None;
    };
    number(word)
}

/// The cell that a text has behind a checksum, metadata and the values of a setting.
fn cell_behind<'a>(text: &'a [u8], values: &[u8]) -> Option<&'a [u8]>
    ensures some { IfSome result (λ cell. HasCell values.now text.entry.now cell.now) }
    ensures none { IsNone result → (cell : List ℕ) → ¬ (HasCell values.now text.entry.now cell) }
{
    let Some((_sum, line)) = cut_at(b' ', text) else {
        return None;
    };
    let Some((_metadata, behind)) = cut_at(b',', line) else {
        return None;
    };
    let Some(cells) = rest_behind(behind, values) else {
        return None;
    };
    match cut_at(b',', cells) {
        Some((cell, _behind)) => Some(cell),
        None => None,
    }
}
