//! The plain entries of a document's six lists.
ghost use Rattle.std.specs.Prelude.{◌≡◌, ◌≢◌, IfErr, IfOk, OnOk};
ghost use Rattle.toml.specs.View.{view};
ghost use Rattle.plain_entries.specs.Entries.{start_in};
ghost use Rattle.plain_entries.specs.Script.{lists_of, plain_of};
ghost use Rattle.script_draws.specs.Turns.{text_words};
ghost use Rattle.written_schema.specs.Lowest.{no_rule};
ghost use Rattle.expanded_text.specs.Rule.{error_of, seed_in, starts_of, IfRefused, IsDocumentRule};
ghost use Rattle.expanded_text.specs.Written.{IsWrittenText};

use crate::error::ExpandError;
use crate::written::WrittenText;
use expansion::{ScriptRefusal, expand_script};
use plain_entries::PlainScript;
use schema::{FormatKey, Section, number};
use std::alloc::Global;
use toml::Value;
use written_groups::member_starts;

/// The plain entries for which the six lists of a document stand.
///
/// # Errors
///
/// The lowest rule that the lists break by members, moments and chance; and `Memory`.
pub(crate) fn plain_entries_of(
    alloc: Global,
    document: &Value,
    written: &WrittenText,
) -> Result<PlainScript, ExpandError>
    requires { IsWrittenText (view document.now) written.now }
    ensures made { IfOk result (λ made. lists_of made ≡ plain_of (start_in (starts_of written.now.groups.items)) written.now.script (text_words (seed_in (view document.now)))) }
    ensures kept { OnOk result (IsDocumentRule (view document.now) no_rule) }
    ensures refused { IfErr result (IfRefused (IsDocumentRule (view document.now))) }
    ensures broken { IfErr result (IfRefused (λ rule. rule ≢ no_rule)) }
{
    let starts = member_starts(alloc, written.groups.as_slice())?;
    let seed = number(Section::Top, FormatKey::Seed, Some(document));
    match expand_script(alloc, &written.script, starts.as_slice(), seed) {
        Ok(plain) => Ok(plain),
        Err(refusal) => Err(error_of(refusal)),
    }
}

/// The error of lists that are refused.
fn error_of(refusal: ScriptRefusal) -> ExpandError
    ensures { result ≡ error_of refusal }
{
    match refusal {
        ScriptRefusal::Entry(_) | ScriptRefusal::TooMany | ScriptRefusal::Late => {
            ExpandError::Rule(refusal.rule())
        }
        ScriptRefusal::Memory => ExpandError::Memory,
    }
}
