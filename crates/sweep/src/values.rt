//! What a table says of keys and of the values that they had.
ghost use Rattle.std.specs.Prelude.{◌≡◌, ◌<◌, ◌^◌, ◌+◌, ◌++◌, List, ℕ, map, string_bytes, IfOk, OnOk, OnErr};
ghost use Rattle.std.specs.Io.KnownBytes.{Appends, Keeps};
ghost use Rattle.trace.specs.Sinks.{AppendsBeginning, failures_of_write};
ghost use Rattle.figures.specs.Lines.{header_line, run_line};
ghost use Rattle.figures.specs.Notes.{note_cell};
ghost use Rattle.sweep.specs.Table.{names_of, texts_of};

use base::Memory;
use figures::{ColumnSet, RunFigures, RunMetadata, write_header, write_metadata, write_run};
use std::alloc::Global;
use sweep_plan::{Choice, Swept};
use trace::{Put, Sink, WriteError};

/// Puts the first line of a table with these columns, with the names of the keys that are set.
pub(crate) fn write_names<S: Sink>(
    alloc: Global,
    swept_keys: &[Swept],
    columns: ColumnSet,
    table: &mut S,
) -> Result<(), WriteError>
    requires { S.failed table.old < 2 ^ 63 }
    ensures whole { OnOk result (Appends (S.held table.old) (S.held table.new) (header_line columns (names_of swept_keys.now))) }
    ensures part { OnErr result (AppendsBeginning (S.held table.old) (S.held table.new) (header_line columns (names_of swept_keys.now))) }
    ensures failures { S.failed table.new ≡ S.failed table.old + failures_of_write result }
{
    let names = names(alloc, swept_keys)?;
    let keys = lent(alloc, &names)?;
    write_header(alloc, &keys, columns, table)
}

/// The line of a run in these columns, with the values of its setting, and with its note before it.
pub(crate) fn line_of(
    alloc: Global,
    setting: &[Choice],
    seed: u64,
    note: &RunMetadata,
    figures: &RunFigures,
    columns: ColumnSet,
) -> Result<Vec<u8>, Memory>
    ensures { IfOk result (λ line. line.items ≡ note_cell note.now ++ run_line columns (texts_of setting.now) seed figures.now) }
{
    let mut line = Put::new(Vec::new(alloc));
    match write_noted(alloc, setting, seed, note, figures, columns, &mut line) {
        Ok(()) => Ok(line.into_inner()),
        // A text in memory fails by want of that.
        Err(_) => Err(Memory),
    }
}

/// Puts that line.
fn write_noted<S: Sink>(
    alloc: Global,
    setting: &[Choice],
    seed: u64,
    note: &RunMetadata,
    figures: &RunFigures,
    columns: ColumnSet,
    table: &mut S,
) -> Result<(), WriteError>
    requires { S.failed table.old < 2 ^ 63 }
    ensures whole { OnOk result (Appends (S.held table.old) (S.held table.new) (note_cell note.now ++ run_line columns (texts_of setting.now) seed figures.now)) }
    ensures part { OnErr result (AppendsBeginning (S.held table.old) (S.held table.new) (note_cell note.now ++ run_line columns (texts_of setting.now) seed figures.now)) }
    ensures failures { S.failed table.new ≡ S.failed table.old + failures_of_write result }
{
    let texts = texts(alloc, setting)?;
    let values = lent(alloc, &texts)?;
    write_metadata(alloc, note, table)?;
    write_run(alloc, &values, seed, figures, columns, table)
}

/// The names of the keys that are set.
pub(crate) fn names(alloc: Global, swept_keys: &[Swept]) -> Result<Vec<String>, Memory>
    ensures { IfOk result (λ names. map string_bytes names.items ≡ names_of swept_keys.now) }
{
    let mut names = Vec::new(alloc);
    for swept in swept_keys {
        names.push(swept.key().name(alloc)?)?;
    }
    Ok(names)
}

/// The values of a setting, as words say them.
pub(crate) fn texts(alloc: Global, setting: &[Choice]) -> Result<Vec<String>, Memory>
    ensures { IfOk result (λ texts. map string_bytes texts.items ≡ texts_of setting.now) }
{
    let mut texts = Vec::new(alloc);
    for choice in setting {
        texts.push(choice.value.text(alloc)?)?;
    }
    Ok(texts)
}

/// The texts, lent.
pub(crate) fn lent<'a>(alloc: Global, texts: &'a [String]) -> Result<Vec<&'a str>, Memory>
    ensures { IfOk result (λ lent. map (λ text. text.now) lent.items ≡ map string_bytes texts.now) }
{
    let mut lent = Vec::new(alloc);
    for text in texts {
        lent.push(text.as_str())?;
    }
    Ok(lent)
}
