//! Lines with their checksums and notes, one after the other.
ghost use Rattle.std.specs.Prelude.{ℕ, List, ◌≡◌, ◌∷◌, ◌++◌, [], OnOk, IfOk, IfErr, IfSome, IsNone};
ghost use Rattle.figures.specs.Notes.{Note};
ghost use Rattle.table_rows.specs.Lines.{AreLines, HasLine, IsBehindSum, ReadsLine, ReadsLines};
ghost use Rattle.table_rows.specs.Refused.{Refuses};

use crate::fault::LineFault;
use base::Memory;
use figures::{MetadataFault, RunMetadata};
use std::alloc::Global;
use sweep::Gather;

/// Reads the first line of a text, gathers its note, and gives what is left of the text. Whether its checksum is right isn't
/// looked at.
///
/// Faults: `Torn` where the text begins with no line; `Memory`.
pub fn read_line<'a, G: Gather>(
    alloc: Global,
    text: &'a str,
    gathering: &mut G,
) -> Result<&'a str, LineFault>
    ensures read { IfOk result (λ left. ReadsLine text.entry.now left.now
        (λ note. (each : ℕ) (notes : List Note) → G.has gathering.old each notes → G.has gathering.new each (notes ++ note ∷ []))) }
    ensures refused { IfErr result (Refuses (HasLine text.entry.now)) }
{
    let (note, left) = match read_note(alloc, text) {
        Ok(read) => read,
        Err(fault) => return Err(fault),
    };
    match gathering.add(alloc, &note) {
        Ok(()) => Ok(left),
        Err(Memory) => Err(LineFault::Memory),
    }
}

/// The note of the first line of a text, and what is left of the text. Whether its checksum is right isn't looked at.
///
/// Faults: `Torn` where the text begins with no line; `Memory`.
pub(crate) fn read_note<'a>(
    alloc: Global,
    text: &'a str,
) -> Result<(RunMetadata, &'a str), LineFault>
    ensures read { IfOk result (λ x. ReadsLine text.entry.now x.1.now (λ note. note ≡ x.0)) }
    ensures refused { IfErr result (Refuses (HasLine text.entry.now)) }
{
    let Some(noted) = behind_sum(text) else {
        return Err(LineFault::Torn);
    };
    let Some((word, rest)) = noted.split_once(',') else {
        return Err(LineFault::Torn);
    };
    let Some((_body, left)) = rest.split_once('\n') else {
        return Err(LineFault::Torn);
    };
    match RunMetadata::read(alloc, word) {
        Ok(note) => Ok((note, left)),
        Err(MetadataFault::Word) => Err(LineFault::Torn),
        Err(MetadataFault::Memory) => Err(LineFault::Memory),
    }
}

/// What stands behind the first space of a text.
fn behind_sum<'a>(text: &'a str) -> Option<&'a str>
    ensures some { IfSome result (λ rest. IsBehindSum text.entry.now rest.now) }
    ensures none { IsNone result → (rest : List ℕ) → ¬ (IsBehindSum text.entry.now rest) }
{
    let Some((_sum, rest)) = text.split_once(' ') else {
        return None;
    };
    Some(rest)
}

/// Reads the lines of a text, so many, and gathers their notes.
///
/// Faults: `Torn` where the text isn't so many lines; `Memory`.
pub fn read_lines<G: Gather>(
    alloc: Global,
    text: &str,
    count: usize,
    gathering: &mut G,
) -> Result<(), LineFault>
    ensures read { OnOk result (ReadsLines text.now count
        (λ more. (each : ℕ) (notes : List Note) → G.has gathering.old each notes → G.has gathering.new each (notes ++ more))) }
    ensures refused { IfErr result (Refuses (AreLines text.now count)) }
{
    let mut left = text;
    for _line in 0..count {
        left = read_line(alloc, left, gathering)?;
    }
    if left.is_empty() {
        return Ok(());
    }
    Err(LineFault::Torn)
}
