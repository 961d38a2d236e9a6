//! The explanation of the scenario of a file.
ghost use Rattle.std.specs.Prelude.{◌≡◌, ◌≢◌, IfOk, IfErr, OnOk, string_bytes};
ghost use Rattle.command_line.specs.Failures.{IsMistaken};
ghost use Rattle.scenario_files.specs.Shelves.{IsUnread};
ghost use Rattle.explain_command.specs.Outcomes.{ExplainFails, PrintsMeaning, TellsOf};

use crate::answer::{Explained, explained_text};
use command_line::{ExplainWords, Failure, print_text};
use files::Files;
use scenario_files::load_bytes;
use std::alloc::Global;
use std::io::Write;

/// Prints what the scenario of a file means, or all diagnostics of one that is refused.
///
/// Failures: `Mistaken`, the least rule that the text breaks, once `out` has its diagnostics; `File`; `Memory`; `Output`
/// where `out` takes less.
pub fn explain_file<'a, F: Files, O: Write>(
    alloc: Global,
    words: ExplainWords<'a>,
    files: &mut F,
    out: &mut O,
) -> Result<(), Failure<'a>>
    ensures done { OnOk result (PrintsMeaning (F.known files.old words.entry.file.now) words.entry (O.contents out.old) (O.contents out.new)) }
    ensures failed { IfErr result (ExplainFails (F.known files.old words.entry.file.now) words.entry (O.contents out.old) (O.contents out.new)) }
    ensures silent { IfErr result (λ failure. failure ≢ Failure.Output → ¬ (IsMistaken failure) → out.new ≡ out.old) }
    ensures same { F.known files.new ≡ F.known files.old }
{
    let explained = explained(alloc, words, files)?;
    print_text(explained.text.as_str(), out)?;
    match explained.broken {
        None => Ok(()),
        Some(rule) => Err(Failure::Mistaken(rule)),
    }
}

/// The explanation of the scenario of a file.
fn explained<'a, F: Files>(
    alloc: Global,
    words: ExplainWords<'a>,
    files: &mut F,
) -> Result<Explained, Failure<'a>>
    ensures told { IfOk result
        (λ told. TellsOf (F.known files.old words.entry.file.now) words.entry told.broken (string_bytes told.text)) }
    ensures failed { IfErr result (IsUnread (F.known files.old words.entry.file.now) words.entry.file.now) }
    ensures same { F.known files.new ≡ F.known files.old }
{
    let bytes = load_bytes(alloc, words.file, files)?;
    match explained_text(alloc, words, bytes.as_slice()) {
        Ok(explained) => Ok(explained),
        Err(_) => Err(Failure::Memory),
    }
}
