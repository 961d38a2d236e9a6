//! How a note is written.
ghost use Rattle.std.specs.Prelude.{◌≡◌, ◌++◌, ◌==◌, [], Some, codes, decimal, map, string_bytes, IfOk, OnOk, if◌then◌else◌};
ghost use Rattle.std.specs.List.{join_with_byte, flat_map};
ghost use Rattle.reports.specs.Text.{figure};
ghost use Rattle.figures.specs.Notes.{note_text, note_figures, counts_in_order, times_in_order};

use crate::crashes::CrashTimes;
use crate::notes::RunMetadata;
use base::Memory;
use incident_figures::RunCounts;
use std::alloc::Global;

impl RunMetadata {
    /// The note as it is written, `3 0 0 4499 4500000 2840 12840 15399`: how many suspicions were false positives, how
    /// many members had a false death, how often members were taken for alive again, how many messages were sent, how
    /// long the members last together, and for each crash the times until it was first suspected, first confirmed and
    /// last confirmed, or a dash. Before these times stand in version 4 how many false alarms and false deaths there were,
    /// how many of these were of members that were well, and how many microseconds the run lasts.
    pub fn text(&self, alloc: Global) -> Result<String, Memory>
        ensures { IfOk result (λ text. string_bytes text ≡ note_text self.now) }
    {
        let figures = self.figures(alloc)?;
        joined_figures(alloc, &figures)
    }

    /// What it says, in the order in which it is written.
    fn figures(&self, alloc: Global) -> Result<Vec<Option<u64>>, Memory>
        ensures { IfOk result (λ figures. figures.items ≡ note_figures self.now) }
    {
        let mut figures = Vec::new(alloc);
        figures.push(Some(self.false_suspect))?;
        figures.push(Some(self.thrown_out))?;
        figures.push(Some(self.revived))?;
        figures.push(Some(self.sent))?;
        figures.push(Some(self.member_ticks))?;
        push_counts(&mut figures, self.incidents)?;
        push_times(&mut figures, self.crashes.as_slice())?;
        Ok(figures)
    }
}

/// Adds what is counted of incidents, where that is there.
fn push_counts(figures: &mut Vec<Option<u64>>, incidents: Option<RunCounts>) -> Result<(), Memory>
    ensures { OnOk result (figures.new.items ≡ figures.old.items ++ counts_in_order incidents) }
{
    match incidents {
        Some(counts) => {
            figures.extend_from_slice(&counts_in_order(&counts))?;
            Ok(())
        }
        None => Ok(()),
    }
}

/// What is counted of incidents, in the order in which it is written.
fn counts_in_order(counts: &RunCounts) -> [Option<u64>; 4]
    ensures { result ≡ counts_in_order (Some counts.now) }
{
    [
        Some(counts.alarms),
        Some(counts.deaths),
        Some(counts.deaths_well),
        Some(counts.time),
    ]
}

/// Adds the times of crashes.
fn push_times(figures: &mut Vec<Option<u64>>, crashes: &[CrashTimes]) -> Result<(), Memory>
    ensures { OnOk result (figures.new.items ≡ figures.old.items ++ flat_map times_in_order crashes.now) }
{
    for crash in crashes {
        figures.push(crash.suspected)?;
        figures.push(crash.confirmed)?;
        figures.push(crash.last)?;
    }
    Ok(())
}

/// Figures with spaces between them.
fn joined_figures(alloc: Global, figures: &[Option<u64>]) -> Result<String, Memory>
    ensures { IfOk result (λ text. string_bytes text ≡ join_with_byte 32 (map figure figures.now)) }
{
    let mut text = String::new(alloc);
    for (place, figure) in figures.iter().enumerate() {
        push_space(&mut text, place)?;
        push_figure(alloc, &mut text, *figure)?;
    }
    Ok(text)
}

/// Adds the space before the figure at a place, where it isn't the first.
fn push_space(text: &mut String, place: usize) -> Result<(), Memory>
    ensures { OnOk result (string_bytes text.new ≡ string_bytes text.old ++ (if place == 0 then [] else codes " ")) }
{
    if place == 0 {
        return Ok(());
    }
    text.push_str(" ")?;
    Ok(())
}

/// Adds a figure, or a dash where there is none.
fn push_figure(alloc: Global, text: &mut String, given: Option<u64>) -> Result<(), Memory>
    ensures { OnOk result (string_bytes text.new ≡ string_bytes text.old ++ figure given) }
{
    match given {
        Some(number) => push_number(alloc, text, number),
        None => Ok(text.push_str("-")?),
    }
}

/// Adds a number.
fn push_number(alloc: Global, text: &mut String, number: u64) -> Result<(), Memory>
    ensures { OnOk result (string_bytes text.new ≡ string_bytes text.old ++ decimal number) }
{
    let word = format!(in alloc; "{number}")?;
    text.push_str(word.as_str())?;
    Ok(())
}
