//! The plain text of the scenario of a file.
ghost use Rattle.std.specs.Prelude.{◌≡◌, IfErr, IfOk, string_bytes};
ghost use Rattle.expand_command.specs.Outcomes.{ExpandFails, ExpandsTo};

use crate::texts::plain_text_of;
use command_line::Failure;
use files::Files;
use scenario_files::load_bytes;
use std::alloc::Global;

/// The plain text for which the scenario of a file stands. A text of version 4 is judged by that version's rules, others by their own.
///
/// Failures: `Rule`, the lowest rule that the text breaks; `File`; `Memory`.
pub fn expand_file<'a, F: Files>(
    alloc: Global,
    file: &'a str,
    files: &mut F,
) -> Result<String, Failure<'a>>
    ensures done { IfOk result (λ text. ExpandsTo (F.known files.old file.entry.now) (string_bytes text)) }
    ensures failed { IfErr result (ExpandFails (F.known files.old file.entry.now) file.entry.now) }
    ensures same { F.known files.new ≡ F.known files.old }
{
    let bytes = load_bytes(alloc, file, files)?;
    plain_text_of(alloc, bytes.as_slice())
}
