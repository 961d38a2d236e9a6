//! What is printed of a text.
ghost use Rattle.std.specs.Prelude.{◌≡◌, IfOk, None, Ok, Some, string_bytes};
ghost use Rattle.explain_command.specs.Outcomes.{TellsBytes, TellsDiagnostics, TellsSetup};

use crate::accepting::meaning;
use base::Memory;
use command_line::ExplainWords;
use diagnostics::of_refused;
use scenario::Scenario;
use std::alloc::Global;
use text_reader::read_text;

/// What is printed of a text.
#[derive(Debug, Drop)]
pub(crate) struct Explained {
    /// What is printed.
    pub(crate) text: String,
    /// The least rule that the scenario breaks; none where it is accepted.
    pub(crate) broken: Option<u8>,
}

/// The number of the rule that stands for want of memory.
const MEMORY_RULE: u8 = 11;

/// The explanation of the text that these bytes are.
pub(crate) fn explained_text(
    alloc: Global,
    words: ExplainWords<'_>,
    bytes: &[u8],
) -> Result<Explained, Memory>
    ensures { IfOk result (λ told. TellsBytes bytes.now words.entry told.broken (string_bytes told.text)) }
{
    match read_text(alloc, bytes) {
        Ok(scenario) => accepted(alloc, words, bytes, &scenario),
        Err(refusal) if refusal.rule == MEMORY_RULE => Err(Memory),
        Err(refusal) => refused(alloc, words, bytes, refusal.rule),
    }
}

/// The explanation of an accepted text, which says this scenario.
fn accepted(
    alloc: Global,
    words: ExplainWords<'_>,
    bytes: &[u8],
    scenario: &Scenario,
) -> Result<Explained, Memory>
    ensures { IfOk result (λ told. (told.broken ≡ None)
        × TellsSetup words.entry.json bytes.now scenario.now words.entry.file.now (string_bytes told.text)) }
{
    let text = meaning(alloc, words, bytes, scenario)?;
    Ok(Explained { text, broken: None })
}

/// The explanation of a text that is refused by this rule.
fn refused(
    alloc: Global,
    words: ExplainWords<'_>,
    bytes: &[u8],
    rule: u8,
) -> Result<Explained, Memory>
    ensures { IfOk result (λ told. (told.broken ≡ Some rule) × TellsDiagnostics words.entry.json rule (string_bytes told.text)) }
{
    let diagnostics = of_refused(alloc, bytes, rule)?;
    let text = if words.json {
        diagnostic_text::json(alloc, words.file, bytes, &diagnostics)?
    } else {
        diagnostic_text::lines(alloc, words.file, bytes, &diagnostics)?
    };
    Ok(Explained {
        text,
        broken: Some(rule),
    })
}
