//! What an accepted scenario means.
ghost use Rattle.std.specs.Prelude.{IfOk, string_bytes};
ghost use Rattle.explain_command.specs.Outcomes.{TellsSetup};

use crate::telling::{document_of, lines_of};
use base::Memory;
use command_line::ExplainWords;
use scenario::Scenario;
use shown_names::shown;
use std::alloc::Global;

/// What the scenario means that the text of these bytes says, as a JSON document or in lines.
pub(crate) fn meaning(
    alloc: Global,
    words: ExplainWords<'_>,
    bytes: &[u8],
    scenario: &Scenario,
) -> Result<String, Memory>
    ensures { IfOk result (λ text. TellsSetup words.entry.json bytes.now scenario.now words.entry.file.now (string_bytes text)) }
{
    if words.json {
        document_of(alloc, words.file, bytes, scenario)
    } else {
        let file = shown(alloc, words.file)?;
        lines_of(alloc, file.as_str(), bytes, scenario)
    }
}
