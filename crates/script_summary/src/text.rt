//! From a text to what its entries stand for.
ghost use Rattle.std.specs.Prelude.{◌≡◌, ◌≤◌, map, Some, IfOk};
ghost use Rattle.lengths.specs.Lengths.{IsTick};
ghost use Rattle.toml.specs.View.{view};
ghost use Rattle.plain_entries.specs.Entries.{start_in};
ghost use Rattle.plain_entries.specs.Script.{lists_of, plain_of};
ghost use Rattle.script_draws.specs.Turns.{text_words};
ghost use Rattle.scenario.specs.Setup.{is_fourth};
ghost use Rattle.scenario_reader.specs.Rules.{tree_of};
ghost use Rattle.script_reader.specs.Who.{member_total};
ghost use Rattle.written_entries.specs.Ranges.{AreInRange};
ghost use Rattle.written_names.specs.Roster.{group_of};
ghost use Rattle.expanded_text.specs.Rule.{seed_in, starts_of};
ghost use Rattle.script_summary.specs.Summary.{IsSummaryIn, IsSummaryOf, StandsFor};

use crate::summary::{ScriptSummary, summary};
use base::Memory;
use expansion::expand_script;
use plain_entries::{PlainScript, Script};
use scenario::Version;
use scenario_reader::{document, version_of};
use schema::{FormatKey, Section, number};
use script_reader::read_script;
use std::alloc::Global;
use toml::Value;
use written_groups::{member_starts, slow_extras, written_groups};
use written_names::{Roster, WrittenGroup};
use written_schema::tick_of;

/// The number of the rule that stands for want of memory.
const MEMORY_RULE: u8 = 11;

/// What the entries of a text of version 4 stand for, which these bytes are; None of another text.
///
/// # Errors
///
/// Memory was refused, or the text of version 4 is one that breaks a rule.
pub fn summary_of(alloc: Global, bytes: &[u8]) -> Result<Option<ScriptSummary>, Memory>
    ensures { IfOk result (IsSummaryIn (tree_of bytes.now)) }
{
    match document(alloc, bytes) {
        Ok(tree) => summary_in(alloc, &tree),
        Err(refusal) => {
            if refusal.rule == MEMORY_RULE {
                Err(Memory)
            } else {
                Ok(None)
            }
        }
    }
}

/// The same of a document.
fn summary_in(alloc: Global, tree: &Value) -> Result<Option<ScriptSummary>, Memory>
    ensures { IfOk result (IsSummaryIn (Some (view tree.now))) }
{
    if is_fourth(version_of(tree)) {
        Ok(Some(summary_of_fourth(alloc, tree)?))
    } else {
        Ok(None)
    }
}

/// Whether it is version 4.
fn is_fourth(version: Version) -> bool
    ensures { result ≡ is_fourth version }
{
    match version {
        Version::One | Version::Two | Version::Three => false,
        Version::Four => true,
    }
}

/// The same of a document of version 4.
fn summary_of_fourth(alloc: Global, tree: &Value) -> Result<ScriptSummary, Memory>
    ensures { IfOk result (IsSummaryOf (view tree.now)) }
{
    let tick = tick_of(tree);
    let groups = written_groups(alloc, tree, tick)?;
    let plain = plain_entries(alloc, tree, tick, groups.as_slice())?;
    let extras = slow_extras(alloc, tree, tick)?;
    summary(alloc, tree, &plain, extras.as_slice())
}

/// The plain entries for which a document stands that has these groups. A tick has so many microseconds.
fn plain_entries(
    alloc: Global,
    tree: &Value,
    tick: u64,
    groups: &[WrittenGroup],
) -> Result<PlainScript, Memory>
    requires { IsTick tick }
    ensures { IfOk result (λ plain. StandsFor (view tree.now) tick groups.now (lists_of plain)) }
{
    let Ok(roster) = Roster::of(alloc, groups) else {
        return Err(Memory);
    };
    match read_script(alloc, tree, tick, &roster, groups) {
        Ok(script) => drawn(alloc, tree, groups, &script),
        Err(_) => Err(Memory),
    }
}

/// The plain entries for which these lists of a document stand.
fn drawn(
    alloc: Global,
    tree: &Value,
    groups: &[WrittenGroup],
    script: &Script,
) -> Result<PlainScript, Memory>
    requires few { member_total groups.now ≤ 16384 }
    requires ranges { AreInRange (member_total groups.now) script.now }
    ensures { IfOk result (λ plain. lists_of plain ≡ plain_of (start_in (starts_of groups.now)) script.now (text_words (seed_in (view tree.now)))) }
{
    let starts = member_starts(alloc, groups)?;
    let seed = number(Section::Top, FormatKey::Seed, Some(tree));
    let moments = starts.as_slice();
    match expand_script(alloc, script, moments, seed) {
        Ok(plain) => Ok(plain),
        Err(_) => Err(Memory),
    }
}
