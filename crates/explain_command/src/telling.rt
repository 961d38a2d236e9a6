//! What `explain` writes about an accepted scenario, its figures and its warnings, as lines or as a JSON document.
ghost use Rattle.std.specs.Prelude.{IfOk};
ghost use Rattle.std.specs.String.{string_bytes};
ghost use Rattle.explain_command.specs.Told.{TellsMeaning, TellsMeaningDocument};

use base::Memory;
use meaning_json::json_of;
use meaning_text::text_of;
use scenario::Scenario;
use script_summary::summary_of;
use std::alloc::Global;
use std::str;
use warnings::{findings_of, places_of};

/// What the scenario in the file of this name means, in lines: its figures, what happens, and each warning with its place in
/// the text, which these bytes are. Or `Memory` where it was refused.
pub fn lines_of(
    alloc: Global,
    file: &str,
    bytes: &[u8],
    scenario: &Scenario,
) -> Result<String, Memory>
    ensures { IfOk result (λ lines. TellsMeaning bytes.now scenario.now file.now (string_bytes lines)) }
{
    let findings = findings_of(alloc, scenario)?;
    let warnings = findings.warnings.as_slice();
    let placed = places_of(alloc, text_in(bytes), scenario, warnings)?;
    let places = placed.as_slice();
    let script = summary_of(alloc, bytes)?;
    let lines = text_of(alloc, file, scenario, &script, &findings, places)?;
    Ok(lines)
}

/// The same as a JSON document and a line feed.
pub fn document_of(
    alloc: Global,
    file: &str,
    bytes: &[u8],
    scenario: &Scenario,
) -> Result<String, Memory>
    ensures { IfOk result (λ document. TellsMeaningDocument bytes.now scenario.now file.now (string_bytes document)) }
{
    let findings = findings_of(alloc, scenario)?;
    let warnings = findings.warnings.as_slice();
    let placed = places_of(alloc, text_in(bytes), scenario, warnings)?;
    let places = placed.as_slice();
    let script = summary_of(alloc, bytes)?;
    let value = json_of(alloc, file, scenario, &script, &findings, places)?;
    let mut document = value.to_string(alloc)?;
    document.push_str("\n")?;
    Ok(document)
}

/// The text that the bytes of an accepted scenario are.
fn text_in(bytes: &[u8]) -> &str {
    str::from_utf8(bytes).unwrap_or("")
}
