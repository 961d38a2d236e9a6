//! What is wrong with a scenario: its first diagnostic, as `explain` prints it.
ghost use Rattle.std.specs.Prelude.{IfOk, string_bytes};
ghost use Rattle.advice.specs.Told.{IsBeginning, TellsFirst};

use crate::settings::text_with;
use base::Memory;
use diagnostics::of_refused;
use std::alloc::Global;
use text_reader::read_text;

/// The first diagnostic of a text that breaks this rule, as `explain` prints it of a file of this name. Where only the text with
/// these values of a setting breaks it, as `KEY=V KEY=V`, the first line of that one's: places in it are none of the file.
/// Nothing where neither breaks it.
pub(crate) fn first_lines(
    alloc: Global,
    name: &str,
    bytes: &[u8],
    rule: u8,
    swept_keys: &str,
) -> Result<String, Memory>
    ensures { IfOk result (λ text. TellsFirst rule (string_bytes text)) }
{
    if breaks(alloc, bytes, rule) {
        return first_of_text(alloc, name, bytes, rule);
    }
    let text = text_with(alloc, bytes, swept_keys)?;
    first_line_of_text(alloc, name, text.as_bytes(), rule)
}

/// The first line of the first diagnostic of a text; nothing where it is empty or doesn't break the rule.
fn first_line_of_text(alloc: Global, name: &str, bytes: &[u8], rule: u8) -> Result<String, Memory>
    ensures { IfOk result (λ text. TellsFirst rule (string_bytes text)) }
{
    if bytes.is_empty() || !breaks(alloc, bytes, rule) {
        return Ok(String::new(alloc));
    }
    let diagnostics = of_refused(alloc, bytes, rule)?;
    let lines = diagnostic_text::lines(alloc, name, bytes, &diagnostics)?;
    Ok(String::from_str(alloc, first_line(lines.as_str()))?)
}

/// What stands before the first line feed, and that; all of it where there is none.
fn first_line(lines: &str) -> &str
    ensures { IsBeginning result.now lines.now }
{
    match lines.split_once("\n") {
        Some((first, _)) => &lines[..first.len() + 1],
        None => lines,
    }
}

/// Whether a text is an accepted scenario.
pub(crate) fn is_accepted(alloc: Global, bytes: &[u8]) -> bool {
    read_text(alloc, bytes).is_ok()
}

/// Whether a text breaks this rule, and no lower one.
fn breaks(alloc: Global, bytes: &[u8], rule: u8) -> bool {
    match read_text(alloc, bytes) {
        Ok(_) => false,
        Err(refusal) => refusal.rule == rule,
    }
}

/// The first diagnostic of a text.
fn first_of_text(alloc: Global, name: &str, bytes: &[u8], rule: u8) -> Result<String, Memory>
    ensures { IfOk result (λ text. TellsFirst rule (string_bytes text)) }
{
    let diagnostics = of_refused(alloc, bytes, rule)?;
    let lines = diagnostic_text::lines(alloc, name, bytes, &diagnostics)?;
    Ok(String::from_str(alloc, first_block(lines.as_str()))?)
}

/// What stands before the first empty line, with its line feed; all of it where there is none.
fn first_block(lines: &str) -> &str
    ensures { IsBeginning result.now lines.now }
{
    match lines.split_once("\n\n") {
        Some((first, _)) => &lines[..first.len() + 1],
        None => lines,
    }
}
