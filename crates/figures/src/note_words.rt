//! The note that a word says.
ghost use Rattle.std.specs.Prelude.{◌≡◌, ◌==◌, ℕ, Option, Some, None, IfOk, IfErr, IfSome, IsNone};
ghost use Rattle.std.specs.List.{flat_map, slice_split};
ghost use Rattle.figures.specs.Notes.{times_in_order, counts_in_order, counts_part, times_part, note_figures, IsNoteWord, IsFigureWord, AreFigureWords, RefusesNote, RefusesFigures, RefusesNoteOf, RefusesCounts, RefusesTimes};
ghost use Rattle.figures.specs.declared.note_words.MetadataFault.TheVariants as unread;

use crate::crashes::CrashTimes;
use crate::notes::RunMetadata;
use decimals::number;
use incident_figures::RunCounts;
use std::alloc::{AllocFailed, Global};
use thiserror::Error;

/// Why a word says no note.
#[derive(Clone, Copy, Debug, PartialEq, Eq, Error)]
pub enum MetadataFault {
    /// It isn't one.
    #[error("no note")]
    Word,
    /// Memory was refused.
    #[error("memory")]
    Memory,
}

impl<T: Drop> From<AllocFailed<T>> for MetadataFault {
    ghost from_gives = { λ _ e. e ≡ unread.Memory };

    fn from(_refused: AllocFailed<T>) -> Self {
        MetadataFault::Memory
    }
}

impl RunMetadata {
    /// The note that a word says, as `text` writes it.
    ///
    /// Failures: `Word` where it isn't five numbers, or nine where it has incidents, and then three times for each crash,
    /// with spaces between them; a number is at most 2^63 - 1. `Memory`.
    pub fn read(alloc: Global, word: &str) -> Result<RunMetadata, MetadataFault>
        ensures read { IfOk result (IsNoteWord word.now) }
        ensures refused { IfErr result (RefusesNote word.now) }
    {
        let figures = read_figures(alloc, word)?;
        note_of_figures(alloc, &figures)
    }
}

/// The figures that a word says, with spaces between them.
fn read_figures(alloc: Global, word: &str) -> Result<Vec<Option<u64>>, MetadataFault>
    ensures read { IfOk result (λ figures. AreFigureWords (slice_split (λ byte. byte == 32) word.now) figures.items) }
    ensures refused { IfErr result (RefusesFigures (slice_split (λ byte. byte == 32) word.now)) }
{
    let mut figures = Vec::new(alloc);
    for item in word.split(' ') {
        let Some(figure) = read_figure(item) else {
            return Err(MetadataFault::Word);
        };
        figures.push(figure)?;
    }
    Ok(figures)
}

/// The figure that a word says, which is none where that is a dash.
fn read_figure(word: &str) -> Option<Option<u64>>
    ensures some { IfSome result (IsFigureWord word.now) }
    ensures none { IsNone result → (f : Option ℕ) → ¬ (IsFigureWord word.now f) }
{
    if word == "-" {
        return Some(None);
    }
    match number(word) {
        Some(figure) => Some(Some(figure)),
        None => None,
    }
}

/// The note that says these figures.
fn note_of_figures(alloc: Global, figures: &[Option<u64>]) -> Result<RunMetadata, MetadataFault>
    ensures made { IfOk result (λ note. note_figures note ≡ figures.now) }
    ensures refused { IfErr result (RefusesNoteOf figures.now) }
{
    if figures.len() < 5 {
        return Err(MetadataFault::Word);
    }
    let false_suspect = there(figures[0])?;
    let thrown_out = there(figures[1])?;
    let revived = there(figures[2])?;
    let sent = there(figures[3])?;
    let member_ticks = there(figures[4])?;
    let incidents = counts_of_figures(&figures[5..])?;
    let crashes = times_of_figures(alloc, times_in(&figures[5..]))?;
    Ok(RunMetadata {
        crashes,
        false_suspect,
        thrown_out,
        revived,
        sent,
        member_ticks,
        incidents,
    })
}

/// What the figures behind the first five say of incidents, where their number tells that they do.
fn counts_of_figures(figures: &[Option<u64>]) -> Result<Option<RunCounts>, MetadataFault>
    ensures made { IfOk result (λ counts. counts_in_order counts ≡ counts_part figures.now) }
    ensures refused { IfErr result (RefusesCounts figures.now) }
{
    if figures.len() % 3 != 1 {
        return Ok(None);
    }
    if figures.len() < 4 {
        return Err(MetadataFault::Word);
    }
    let alarms = there(figures[0])?;
    let deaths = there(figures[1])?;
    let deaths_well = there(figures[2])?;
    let time = there(figures[3])?;
    Ok(Some(RunCounts {
        alarms,
        deaths,
        deaths_well,
        time,
    }))
}

/// Those of these figures that say times of crashes.
fn times_in(figures: &[Option<u64>]) -> &[Option<u64>]
    ensures { result.now ≡ times_part figures.now }
{
    if figures.len() % 3 != 1 {
        return figures;
    }
    &figures[figures.len().min(4)..]
}

/// The number, which must be there.
fn there(figure: Option<u64>) -> Result<u64, MetadataFault>
    ensures there { IfOk result (λ number. figure ≡ Some number) }
    ensures refused { IfErr result (λ fault. figure ≡ None) }
{
    match figure {
        Some(number) => Ok(number),
        None => Err(MetadataFault::Word),
    }
}

/// The times of crashes that say these figures, three for each.
fn times_of_figures(
    alloc: Global,
    figures: &[Option<u64>],
) -> Result<Vec<CrashTimes>, MetadataFault>
    ensures made { IfOk result (λ times. flat_map times_in_order times.items ≡ figures.now) }
    ensures refused { IfErr result (RefusesTimes figures.now) }
{
    let crashes = figures.len() / 3;
    if figures.len() % 3 != 0 {
        return Err(MetadataFault::Word);
    }
    let mut times = Vec::new(alloc);
    for crash in 0..crashes {
        let found = CrashTimes {
            suspected: figures[crash * 3],
            confirmed: figures[crash * 3 + 1],
            last: figures[crash * 3 + 2],
        };
        times.push(found)?;
    }
    Ok(times)
}
