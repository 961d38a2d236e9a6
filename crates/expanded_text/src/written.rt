//! A document as it is written: how long a tick is, its groups and its six lists.
ghost use Rattle.std.specs.Prelude.{◌≡◌, ◌≢◌, ◌≤◌, map, [], IfErr, IfOk, OnOk};
ghost use Rattle.lengths.specs.Lengths.{IsTick};
ghost use Rattle.toml.specs.View.{view};
ghost use Rattle.script_reader.specs.Script.{IsScriptIn};
ghost use Rattle.written_names.specs.Roster.{group_of};
ghost use Rattle.written_schema.specs.Lowest.{no_rule};
ghost use Rattle.expanded_text.specs.Rule.{IfRefused, IsDocumentRule, IsNamedRule, IsWrittenRule};
ghost use Rattle.expanded_text.specs.Written.{IsWrittenText};

use crate::error::ExpandError;
use crate::lists::read_lists;
use plain_entries::Script;
use std::alloc::Global;
use toml::Value;
use written_groups::written_groups;
use written_names::{NameFault, Roster, WrittenGroup};
use written_schema::{shape_rule, tick_of};

/// A document that breaks no rule as it is written.
#[derive(Drop)]
pub(crate) struct WrittenText {
    /// How many microseconds a tick has.
    pub(crate) tick: u64,
    pub(crate) groups: Vec<WrittenGroup>,
    pub(crate) script: Script,
}

impl WrittenText {
    /// A document as it is written.
    ///
    /// # Errors
    ///
    /// The lowest rule that it breaks as it is written; and `Memory`.
    pub(crate) fn of(alloc: Global, document: &Value) -> Result<WrittenText, ExpandError>
        ensures read { IfOk result (IsWrittenText (view document.now)) }
        ensures refused { IfErr result (IfRefused (IsDocumentRule (view document.now))) }
        ensures broken { IfErr result (IfRefused (λ rule. rule ≢ no_rule)) }
    {
        let tick = tick_of(document);
        let groups = written_groups(alloc, document, tick)?;
        match script_in(alloc, document, tick, groups.as_slice()) {
            Ok(script) => Ok(WrittenText {
                tick,
                groups,
                script,
            }),
            Err(error) => Err(error),
        }
    }
}

/// The six lists of a document with these groups. A tick has so many microseconds.
fn script_in(
    alloc: Global,
    document: &Value,
    tick: u64,
    groups: &[WrittenGroup],
) -> Result<Script, ExpandError>
    requires { IsTick tick }
    ensures read { IfOk result (IsScriptIn tick (view document.now) (map group_of groups.now) groups.now) }
    ensures kept { OnOk result (IsWrittenRule tick groups.now (view document.now) no_rule) }
    ensures refused { IfErr result (IfRefused (λ rule. (rule ≢ no_rule) × IsWrittenRule tick groups.now (view document.now) rule)) }
{
    let shape = shape_rule(document, tick);
    match Roster::of(alloc, groups) {
        Ok(roster) => read_lists(alloc, document, tick, &roster, groups, shape),
        Err(NameFault::Group(_)) => read_nameless(alloc, document, tick, shape.min(6)),
        Err(NameFault::Memory) => Err(ExpandError::Memory),
    }
}

/// Refuses a document in which a group's name breaks rule 6, or whose other rules are broken down to `low`.
fn read_nameless(alloc: Global, document: &Value, tick: u64, low: u8) -> Result<Script, ExpandError>
    requires tick { IsTick tick }
    requires broken { low ≤ 6 }
    ensures never { OnOk result ⊥ }
    ensures refused { IfErr result (IfRefused (λ rule. (rule ≢ no_rule) × IsNamedRule tick [] (view document.now) low rule)) }
{
    let Ok(roster) = Roster::of(alloc, &[]) else {
        return Err(ExpandError::Memory);
    };
    read_lists(alloc, document, tick, &roster, &[], low)
}
