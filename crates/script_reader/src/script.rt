//! The six lists of a document as entries, or the lowest rule that they break as they are written.
ghost use Rattle.std.specs.Prelude.{◌≡◌, ◌≢◌, ◌≤◌, ◌+◌, map, sum_by, IfErr, IfOk};
ghost use Rattle.lengths.specs.Lengths.{IsTick};
ghost use Rattle.toml.specs.View.{view};
ghost use Rattle.written_entries.specs.Ranges.{AreInRange};
ghost use Rattle.written_names.specs.Roster.{group_of};
ghost use Rattle.script_reader.specs.Lists.{HaveNumbers};
ghost use Rattle.script_reader.specs.Script.{text_rule, IsRefused, IsScriptIn, IsScriptOf};
ghost use Rattle.script_reader.specs.Who.{member_total};

use crate::entries::{departures, restarts, spells};
use crate::lists::WrittenScript;
use crate::rules::NO_RULE;
use base::Memory;
use plain_entries::Script;
use std::alloc::Global;
use toml::Value;
use written_names::{Roster, WrittenGroup};

/// The most members that a text may have.
const MOST_MEMBERS: u128 = 16_384;

/// Why the six lists of a document are refused.
#[derive(Clone, Copy, Debug, PartialEq, Eq)]
pub enum ScriptFault {
    /// The number of the rule.
    Rule(u8),
    /// Memory was refused.
    Memory,
}

/// The six lists of a document. A tick has so many microseconds; `roster` is of these groups.
///
/// # Errors
///
/// The lowest of rules 2 to 7 that one of the items breaks, or 9 of keys that exclude each other; else 10 where there are
/// more than 16,384 members; and `Memory`.
pub fn read_script(
    alloc: Global,
    document: &Value,
    tick: u64,
    roster: &Roster,
    groups: &[WrittenGroup],
) -> Result<Script, ScriptFault>
    requires tick { IsTick tick }
    requires groups { roster.now ≡ map group_of groups.now }
    ensures read { IfOk result (IsScriptIn tick (view document.now) roster.now groups.now) }
    ensures refused { IfErr result (IsRefused tick (view document.now) roster.now groups.now) }
    ensures numbered { IfErr result (λ fault. fault ≢ ScriptFault.Rule 255) }
{
    let Ok(written) = WrittenScript::of(alloc, document, tick) else {
        return Err(ScriptFault::Memory);
    };
    let rule = text_rule(&written, roster, groups);
    if rule != NO_RULE {
        return Err(ScriptFault::Rule(rule));
    }
    match entries_of(alloc, &written, roster, groups) {
        Ok(script) => Ok(script),
        Err(_) => Err(ScriptFault::Memory),
    }
}

/// The lowest rule that the lists break; else 255.
#[tactic(auto, unfolding(crate::specs::Script::text_rule))]
fn text_rule(written: &WrittenScript, roster: &Roster, groups: &[WrittenGroup]) -> u8
    ensures { result ≡ text_rule roster.now groups.now written.now }
{
    let rule = written.rule(roster);
    if rule != NO_RULE {
        rule
    } else if member_total(groups) > MOST_MEMBERS {
        10
    } else {
        NO_RULE
    }
}

/// How many members the groups have.
fn member_total(groups: &[WrittenGroup]) -> u128
    ensures { result ≡ member_total groups.now }
{
    let mut total = 0;
    for group in groups {
        total += u128::from(group.count);
    }
    total
}

/// The lists as entries.
fn entries_of(
    alloc: Global,
    written: &WrittenScript,
    roster: &Roster,
    groups: &[WrittenGroup],
) -> Result<Script, Memory>
    requires few { member_total groups.now ≤ 16384 }
    requires same { sum_by (λ g. g.count) roster.now ≡ member_total groups.now }
    requires numbers { HaveNumbers written.now }
    ensures said { IfOk result (IsScriptOf roster.now groups.now written.now) }
    ensures sound { IfOk result (AreInRange (member_total groups.now)) }
{
    let crashes = departures(alloc, roster, groups, written.crashes.items.as_slice())?;
    let leaves = departures(alloc, roster, groups, written.leaves.items.as_slice())?;
    let restarts = restarts(alloc, roster, groups, written.restarts.items.as_slice())?;
    let slows = spells(alloc, roster, groups, written.slows.items.as_slice())?;
    let pauses = spells(alloc, roster, groups, written.pauses.items.as_slice())?;
    let blocks = spells(alloc, roster, groups, written.blocks.items.as_slice())?;
    Ok(Script {
        crashes,
        leaves,
        restarts,
        slows,
        pauses,
        blocks,
    })
}
