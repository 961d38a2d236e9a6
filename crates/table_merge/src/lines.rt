//! The lines of a table with seeds.
ghost use Rattle.std.specs.Prelude.{◌≡◌, ◌<◌, ◌++◌, ◌∷◌, [], IfOk, IfErr, OnOk, map};
ghost use Rattle.sweep_plan.specs.Sweep.{run_count};
ghost use Rattle.sweep.specs.Runs.{IsAskedFor};
ghost use Rattle.table_rows.specs.Lines.{AreLines};
ghost use Rattle.table_rows.specs.Refused.{Refuses};
ghost use Rattle.sweep.specs.Sums.{AreLinesOf};
ghost use Rattle.table_merge.specs.Seeds.{of_setting};
ghost use Rattle.table_merge.specs.Lines.{AreGenuine, AreStarts, IsFull};
ghost use Rattle.table_merge.specs.Tables.{starts_in};

use crate::plans::count_of;
use base::Memory;
use std::alloc::Global;
use sweep::{LineKey, NothingKept, are_lines_of};
use sweep_plan::{Plan, Seeds};
use table_rows::{LineFault, read_line};

/// A table: its seeds, and what it has from each of its lines on.
#[derive(Drop)]
pub(crate) struct Table<'a> {
    pub(crate) seeds: Seeds,
    pub(crate) starts: Vec<&'a str>,
}

/// What a text has from each of its lines on, which are to be those of all runs of a sweep, each genuine at its place.
///
/// Faults: `Torn` where the text isn't these lines; `Memory`.
pub(crate) fn genuine_starts<'a>(
    alloc: Global,
    plan: &Plan,
    key: &LineKey,
    text: &'a str,
) -> Result<Vec<&'a str>, LineFault>
    requires asked { IsAskedFor plan.now }
    ensures read { IfOk result (λ starts. AreGenuine key.now plan.now text.entry.now (run_count plan.now) (map (λ start. start.now) starts.items)) }
    ensures refused { IfErr result (Refuses (AreLines text.entry.now (run_count plan.now) × AreLinesOf key.now plan.now 0 text.entry.now (run_count plan.now))) }
{
    let count = plan.runs();
    let placed = are_lines_of(alloc, plan, key, 0, count, text.as_bytes())?;
    if placed {
        return starts_of(alloc, text, count);
    }
    Err(LineFault::Torn)
}

/// What a text, which is to be so many lines, has from each of them on.
///
/// Faults: `Torn` where it isn't; `Memory`.
fn starts_of<'a>(alloc: Global, text: &'a str, count: usize) -> Result<Vec<&'a str>, LineFault>
    ensures read { IfOk result (λ starts. AreStarts text.entry.now count (map (λ start. start.now) starts.items)) }
    ensures refused { IfErr result (Refuses (AreLines text.entry.now count)) }
{
    let mut starts = Vec::new(alloc);
    let mut left = text;
    for _line in 0..count {
        push(&mut starts, left)?;
        left = read_line(alloc, left, &mut NothingKept)?;
    }
    if left.is_empty() {
        return Ok(starts);
    }
    Err(LineFault::Torn)
}

/// Adds what a text has from a line on.
fn push<'a>(starts: &mut Vec<&'a str>, start: &'a str) -> Result<(), Memory>
    ensures { OnOk result (map (λ start. start.now) starts.new.items ≡ map (λ start. start.now) starts.old.items ++ start.now ∷ []) }
{
    starts.push(start)?;
    Ok(())
}

/// Where the lines of the setting of this number begin, in a table that has so many.
pub(crate) fn starts_of_setting<'a, 'b>(
    table: &'b Table<'a>,
    settings: usize,
    number: usize,
) -> &'b [&'a str]
    requires full { IsFull settings (starts_in table.now) }
    requires within { number < settings }
    ensures { map (λ start. start.now) result.now ≡ of_setting number (starts_in table.now) }
{
    let each = count_of(table.seeds);
    let from = number * each;
    &table.starts[from..from + each]
}
