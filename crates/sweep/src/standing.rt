//! The lines of runs that stand in a text.
ghost use Rattle.std.specs.Prelude.{◌≡◌, ◌⊎◌, ◌+◌, ◌<◌, ◌≤◌, None, true, false, IfOk, IfSome, IsNone};
ghost use Rattle.sweep_plan.specs.Sweep.{run_count};
ghost use Rattle.sweep.specs.Runs.{IsAskedFor};
ghost use Rattle.sweep.specs.Sums.{AreLinesOf, BeginsWithLine, BeginsWithLines, HasLineOf, IsOlder, IsPlaced, IsBehindMetadata};
ghost use Rattle.figures.specs.Notes.{IsNoteWord, Note};

use crate::begun::rest_behind;
use crate::planned::planned;
use crate::summing::{LineKey, known_seed, value_cells};
use base::Memory;
use figures::{MetadataFault, RunMetadata, are_cells_of};
use line_sums::{cut_at, first_line, unsummed};
use std::alloc::Global;
use std::str::from_utf8;
use sweep_plan::Plan;

/// The lines of runs with which a text begins.
#[derive(Clone, Copy)]
pub struct LeadingLines<'a> {
    /// How many they are.
    pub count: usize,
    /// What comes behind them.
    pub left: &'a [u8],
}

/// The lines of runs with which a text begins, from the run of this number on, so many at most: each is genuine at its
/// place. It has its checksum with this key; it is what is written of the run that the plan asks for there, with some
/// figures and some metadata, which agree.
pub fn lines_of_runs<'a>(
    alloc: Global,
    plan: &Plan,
    key: &LineKey,
    first: usize,
    most: usize,
    text: &'a [u8],
) -> Result<LeadingLines<'a>, Memory>
    requires asked { IsAskedFor plan.now }
    requires within { first + most ≤ run_count plan.now }
    ensures begins { IfOk result (λ stood. BeginsWithLines key.now plan.now first text.entry.now stood.left.now stood.count) }
    ensures few { IfOk result (λ stood. stood.count ≤ most) }
    ensures no_more { IfOk result (λ stood. (stood.count ≡ most) ⊎ ¬ (HasLineOf key.now plan.now (first + stood.count) stood.left.now)) }
{
    let mut left = text;
    for count in 0..most {
        let Some(rest) = behind_line(alloc, plan, key, first + count, left)? else {
            return Ok(LeadingLines { count, left });
        };
        left = rest;
    }
    Ok(LeadingLines { count: most, left })
}

/// Whether a text is the lines of so many runs, from that of this number on.
pub fn are_lines_of(
    alloc: Global,
    plan: &Plan,
    key: &LineKey,
    first: usize,
    count: usize,
    text: &[u8],
) -> Result<bool, Memory>
    requires asked { IsAskedFor plan.now }
    requires within { first + count ≤ run_count plan.now }
    ensures are { IfOk result (λ it. it ≡ true → AreLinesOf key.now plan.now first text.now count) }
    ensures none { IfOk result (λ it. it ≡ false → ¬ (AreLinesOf key.now plan.now first text.now count)) }
{
    let stood = lines_of_runs(alloc, plan, key, first, count, text)?;
    Ok(stood.count == count && stood.left.is_empty())
}

/// What is left of a text behind the line of the run of this number, where it begins with that.
pub(crate) fn behind_line<'a>(
    alloc: Global,
    plan: &Plan,
    key: &LineKey,
    number: usize,
    text: &'a [u8],
) -> Result<Option<&'a [u8]>, Memory>
    requires asked { IsAskedFor plan.now }
    requires within { number < run_count plan.now }
    ensures some { IfOk result (λ found. IfSome found (λ left. BeginsWithLine key.now plan.now number text.entry.now left.now)) }
    ensures none { IfOk result (λ found. IsNone found → ¬ (HasLineOf key.now plan.now number text.entry.now)) }
{
    let Some((line, left)) = first_line(text) else {
        return Ok(None);
    };
    let Some(rest) = unsummed(alloc, &key.digest, line)? else {
        return Ok(None);
    };
    if !is_placed(alloc, plan, key, number, rest)? {
        return Ok(None);
    }
    Ok(Some(left))
}

/// Whether a line without its checksum is that of the run of this number.
fn is_placed(
    alloc: Global,
    plan: &Plan,
    key: &LineKey,
    number: usize,
    line: &[u8],
) -> Result<bool, Memory>
    requires asked { IsAskedFor plan.now }
    requires within { number < run_count plan.now }
    ensures placed { IfOk result (λ it. it ≡ true → IsPlaced key.now plan.now number line.now) }
    ensures none { IfOk result (λ it. it ≡ false → ¬ (IsPlaced key.now plan.now number line.now)) }
{
    let Some((word, behind)) = cut_at(b',', line) else {
        return Ok(false);
    };
    match metadata_of(alloc, word)? {
        Some(metadata) => is_behind_metadata(alloc, plan, key, number, &metadata, behind),
        None => Ok(false),
    }
}

/// The metadata that a word says.
fn metadata_of(alloc: Global, word: &[u8]) -> Result<Option<RunMetadata>, Memory>
    ensures some { IfOk result (λ found. IfSome found (IsNoteWord word.now)) }
    ensures none { IfOk result (λ found. IsNone found → (note : Note) → ¬ (IsNoteWord word.now note)) }
{
    let Ok(word) = from_utf8(word) else {
        return Ok(None);
    };
    match RunMetadata::read(alloc, word) {
        Ok(metadata) => Ok(Some(metadata)),
        Err(MetadataFault::Word) => Ok(None),
        Err(MetadataFault::Memory) => Err(Memory),
    }
}

/// Whether a text is what the line of the run of this number has behind this metadata.
fn is_behind_metadata(
    alloc: Global,
    plan: &Plan,
    key: &LineKey,
    number: usize,
    metadata: &RunMetadata,
    behind: &[u8],
) -> Result<bool, Memory>
    requires asked { IsAskedFor plan.now }
    requires within { number < run_count plan.now }
    ensures is { IfOk result (λ it. it ≡ true → IsBehindMetadata key.now plan.now number metadata.now behind.now) }
    ensures none { IfOk result (λ it. it ≡ false → ¬ (IsBehindMetadata key.now plan.now number metadata.now behind.now)) }
{
    let run = planned(alloc, plan, number)?;
    let values = value_cells(alloc, &run.setting)?;
    let Some(cells) = rest_behind(behind, values.as_bytes()) else {
        return Ok(false);
    };
    let seed = known_seed(run.seed, key.own);
    are_cells_of(alloc, metadata, seed, key.columns, cells)
}

/// Whether a text begins with a note where a line has its checksum, as the lines of versions before 1.11.0 did.
pub fn is_older(alloc: Global, text: &[u8]) -> Result<bool, Memory>
    ensures older { IfOk result (λ it. it ≡ true → IsOlder text.now) }
    ensures not { IfOk result (λ it. it ≡ false → ¬ (IsOlder text.now)) }
{
    let Some((word, _behind)) = cut_at(b',', text) else {
        return Ok(false);
    };
    match metadata_of(alloc, word)? {
        Some(metadata) => Ok(is_first(&metadata)),
        None => Ok(false),
    }
}

/// Whether metadata has no incidents, as that of versions 1 to 3. A checksum of digits alone before it is another number: then it reads
/// as metadata with incidents.
fn is_first(metadata: &RunMetadata) -> bool
    ensures first { result ≡ true → metadata.now.incidents ≡ None }
    ensures not { result ≡ false → ¬ (metadata.now.incidents ≡ None) }
{
    match metadata.incidents() {
        Some(_counts) => false,
        None => true,
    }
}
