//! The plain text of a text, by the rules of its version.
ghost use Rattle.std.specs.Prelude.{◌≡◌, IfErr, IfOk, OnOk, string_bytes};
ghost use Rattle.toml.specs.View.{view};
ghost use Rattle.scenario_files.specs.Told.{text_failure};
ghost use Rattle.expand_command.specs.Texts.{failure_of, is_fourth, BreaksRule, IfNamed, IsExpanded, KeepsVersion, RefusesBytes, StandsFor};

use command_line::Failure;
use expanded_text::{ExpandError, expanded};
use scenario_reader::{document, read_document};
use schema::{FormatKey, Section, number};
use std::alloc::Global;
use toml::Value;

/// The version whose texts stand for others.
const FOURTH: u64 = 4;

/// The number of the rule that stands for want of memory.
const MEMORY_RULE: u8 = 11;

/// The plain text for which the text of these bytes stands.
///
/// Failures: `Rule`, the lowest rule that the text breaks; `Memory`.
pub(crate) fn plain_text_of(alloc: Global, bytes: &[u8]) -> Result<String, Failure<'static>>
    ensures text { IfOk result (λ text. StandsFor bytes.now (string_bytes text)) }
    ensures refused { IfErr result (IfNamed (RefusesBytes bytes.now)) }
{
    match document(alloc, bytes) {
        Ok(document) => text_of_document(alloc, bytes, &document),
        Err(refusal) => Err(text_failure(refusal.rule)),
    }
}

/// The plain text for which a document stands, which these bytes are.
fn text_of_document(
    alloc: Global,
    bytes: &[u8],
    document: &Value,
) -> Result<String, Failure<'static>>
    ensures text { IfOk result (λ text. IsExpanded (view document.now) (string_bytes text)) }
    ensures refused { IfErr result (IfNamed (BreaksRule (view document.now))) }
{
    match check_version(alloc, document) {
        Ok(()) => expanded_text_of(alloc, bytes, document),
        Err(failure) => Err(failure),
    }
}

/// The same of a document that breaks no rule of version 1 to 3, where it has such a version.
fn expanded_text_of(
    alloc: Global,
    bytes: &[u8],
    document: &Value,
) -> Result<String, Failure<'static>>
    requires { KeepsVersion (view document.now) }
    ensures text { IfOk result (λ text. IsExpanded (view document.now) (string_bytes text)) }
    ensures refused { IfErr result (IfNamed (BreaksRule (view document.now))) }
{
    match expanded(alloc, bytes, document) {
        Ok(text) => Ok(text),
        Err(error) => Err(failure_of(error)),
    }
}

/// Judges a document of version 1 to 3 by the rules of its version.
fn check_version(alloc: Global, document: &Value) -> Result<(), Failure<'static>>
    ensures kept { OnOk result (KeepsVersion (view document.now)) }
    ensures refused { IfErr result (IfNamed (BreaksRule (view document.now))) }
{
    if is_fourth(document) {
        return Ok(());
    }
    match read_document(alloc, document) {
        Ok(_) => Ok(()),
        Err(refusal) => Err(text_failure(refusal.rule)),
    }
}

/// Whether a document has version 4.
fn is_fourth(document: &Value) -> bool
    ensures { result ≡ is_fourth (view document.now) }
{
    number(Section::Top, FormatKey::Version, Some(document)) == FOURTH
}

/// The failure of a text that is refused by this rule.
fn text_failure(rule: u8) -> Failure<'static>
    ensures { result ≡ text_failure rule }
{
    if rule == MEMORY_RULE {
        return Failure::Memory;
    }
    Failure::Rule(rule)
}

/// The failure of a document that isn't expanded.
fn failure_of(error: ExpandError) -> Failure<'static>
    ensures { result ≡ failure_of error }
{
    match error {
        ExpandError::Rule(rule) => Failure::Rule(rule),
        ExpandError::Memory => Failure::Memory,
    }
}
