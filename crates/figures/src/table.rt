//! The table of runs, as it is put into a sink.
ghost use Rattle.std.specs.Prelude.{◌≡◌, ◌+◌, ◌<◌, ◌^◌, ◌++◌, ◌∷◌, [], OnOk, OnErr, IfErr, IfOk, map, string_bytes};
ghost use Rattle.std.specs.Io.KnownBytes.{Appends, Keeps};
ghost use Rattle.trace.specs.Sinks.{AppendsBeginning, failures_of_write};
ghost use Rattle.figures.specs.Lines.{header_line, run_line};
ghost use Rattle.figures.specs.Notes.{note_cell};

use crate::column_set::ColumnSet;
use crate::lines::{header_text, run_text};
use crate::notes::RunMetadata;
use crate::run::RunFigures;
use base::Memory;
use std::alloc::Global;
use trace::{Sink, WriteError, put_all};

/// Puts the first line of a table of runs: the keys that are set for them, the seed, and the names
/// of the figures in these columns. Where memory is refused nothing is put, and where the sink stops it has got a
/// beginning of the line.
pub fn write_header<S: Sink>(
    alloc: Global,
    keys: &[&str],
    columns: ColumnSet,
    sink: &mut S,
) -> Result<(), WriteError>
    requires { S.failed sink.old < 2 ^ 63 }
    ensures whole { OnOk result (Appends (S.held sink.old) (S.held sink.new) (header_line columns (map (λ key. key.now) keys.now))) }
    ensures part { OnErr result (AppendsBeginning (S.held sink.old) (S.held sink.new) (header_line columns (map (λ key. key.now) keys.now))) }
    ensures memory { IfErr result (λ error. error ≡ WriteError.Memory → Keeps (S.held sink.old) (S.held sink.new)) }
    ensures failures { S.failed sink.new ≡ S.failed sink.old + failures_of_write result }
{
    let text = header_text(alloc, keys, columns)?;
    put_text(text.as_slice(), sink)
}

/// Puts the line of a run: the values that the keys had, its seed, and its figures in these columns.
/// Where memory is refused nothing is put, and where the sink stops it has got a beginning of the line.
pub fn write_run<S: Sink>(
    alloc: Global,
    values: &[&str],
    seed: u64,
    figures: &RunFigures,
    columns: ColumnSet,
    sink: &mut S,
) -> Result<(), WriteError>
    requires { S.failed sink.old < 2 ^ 63 }
    ensures whole { OnOk result (Appends (S.held sink.old) (S.held sink.new) (run_line columns (map (λ value. value.now) values.now) seed figures.now)) }
    ensures part { OnErr result (AppendsBeginning (S.held sink.old) (S.held sink.new) (run_line columns (map (λ value. value.now) values.now) seed figures.now)) }
    ensures memory { IfErr result (λ error. error ≡ WriteError.Memory → Keeps (S.held sink.old) (S.held sink.new)) }
    ensures failures { S.failed sink.new ≡ S.failed sink.old + failures_of_write result }
{
    let text = run_text(alloc, values, seed, figures, columns)?;
    put_text(text.as_slice(), sink)
}

/// Puts what is kept of a run, and a comma, before the run's line. Where memory is refused nothing is put, and where
/// the sink stops it has got a beginning of that.
pub fn write_metadata<S: Sink>(
    alloc: Global,
    note: &RunMetadata,
    sink: &mut S,
) -> Result<(), WriteError>
    requires { S.failed sink.old < 2 ^ 63 }
    ensures whole { OnOk result (Appends (S.held sink.old) (S.held sink.new) (note_cell note.now)) }
    ensures part { OnErr result (AppendsBeginning (S.held sink.old) (S.held sink.new) (note_cell note.now)) }
    ensures memory { IfErr result (λ error. error ≡ WriteError.Memory → Keeps (S.held sink.old) (S.held sink.new)) }
    ensures failures { S.failed sink.new ≡ S.failed sink.old + failures_of_write result }
{
    let text = cell_text(alloc, note)?;
    put_text(text.as_bytes(), sink)
}

/// The text of a note, and a comma.
fn cell_text(alloc: Global, note: &RunMetadata) -> Result<String, Memory>
    ensures { IfOk result (λ text. string_bytes text ≡ note_cell note.now) }
{
    let mut text = note.text(alloc)?;
    text.push_str(",")?;
    Ok(text)
}

/// Puts a text that was laid into memory.
fn put_text<S: Sink>(text: &[u8], sink: &mut S) -> Result<(), WriteError>
    requires { S.failed sink.old < 2 ^ 63 }
    ensures whole { OnOk result (Appends (S.held sink.old) (S.held sink.new) text.now) }
    ensures part { OnErr result (AppendsBeginning (S.held sink.old) (S.held sink.new) text.now) }
    ensures stopped { IfErr result (λ error. error ≡ WriteError.Stopped) }
    ensures failures { S.failed sink.new ≡ S.failed sink.old + failures_of_write result }
{
    put_all(text, sink)?;
    Ok(())
}
