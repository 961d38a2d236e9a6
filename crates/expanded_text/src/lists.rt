//! The six lists of a document as it writes them, and the rules on names that are judged with them.
ghost use Rattle.std.specs.Prelude.{◌≡◌, ◌≢◌, map, IfErr, IfOk, OnOk};
ghost use Rattle.lengths.specs.Lengths.{IsTick};
ghost use Rattle.toml.specs.View.{view};
ghost use Rattle.script_reader.specs.Script.{IsScriptIn};
ghost use Rattle.written_names.specs.Roster.{group_of};
ghost use Rattle.written_schema.specs.Lowest.{no_rule};
ghost use Rattle.expanded_text.specs.Rule.{IfRefused, IsNamedRule};

use crate::error::ExpandError;
use plain_entries::Script;
use script_reader::{ScriptFault, read_script};
use std::alloc::Global;
use toml::Value;
use written_names::{Roster, WrittenGroup};
use written_schema::{NO_RULE, reference_rule};

/// The six lists of a document that breaks `low` and no lower rule of its shape and its names, or none where that is 255.
/// `roster` is of these groups; a tick has so many microseconds.
///
/// # Errors
///
/// The lowest of `low`, of the rules on names outside the lists, and of those that the lists break; and `Memory`.
pub(crate) fn read_lists(
    alloc: Global,
    document: &Value,
    tick: u64,
    roster: &Roster,
    groups: &[WrittenGroup],
    low: u8,
) -> Result<Script, ExpandError>
    requires tick { IsTick tick }
    requires groups { roster.now ≡ map group_of groups.now }
    ensures read { IfOk result (IsScriptIn tick (view document.now) (map group_of groups.now) groups.now) }
    ensures kept { OnOk result (IsNamedRule tick groups.now (view document.now) low no_rule) }
    ensures refused { IfErr result (IfRefused (λ rule. (rule ≢ no_rule) × IsNamedRule tick groups.now (view document.now) low rule)) }
{
    let low = low.min(reference_rule(document, roster, tick));
    match read_script(alloc, document, tick, roster, groups) {
        Ok(script) => {
            if low == NO_RULE {
                Ok(script)
            } else {
                Err(ExpandError::Rule(low))
            }
        }
        Err(ScriptFault::Rule(rule)) => Err(ExpandError::Rule(low.min(rule))),
        Err(ScriptFault::Memory) => Err(ExpandError::Memory),
    }
}
