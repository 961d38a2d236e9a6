//! From a text to its scenario.
ghost use Rattle.std.specs.Prelude.{◌≡◌, ◌≢◌, ◌≤◌, ℕ, Some, None, Ok, Err, true, false, nat_lt, sum_by, IfOk, IfErr, OnOk};
ghost use Rattle.toml.specs.View.{view};
ghost use Rattle.toml.specs.Errors.{IsMemory};
ghost use Rattle.schema.specs.Schema.{most_members};
ghost use Rattle.schema.specs.Shape.{KeepsShape};
ghost use Rattle.scenario_reader.specs.Reading.{version_of, plain_group, plain_groups, setup_of_tree};
ghost use Rattle.scenario.specs.Setup.{is_fourth, IsSound};
ghost use Rattle.scenario_reader.specs.Rules.{document_verdict, tree_of, least_broken_by, fourth_least_broken_by, least_broken_in, verdict, first_verdict, second_verdict, third_verdict, version_in, KeepsValues, KeepsFourth};

use crate::additions::{
    check_added_references, check_added_times, check_departures, check_pauses, version_of,
};
use crate::lists::{
    count_of, list_names, read_fourth_script, read_groups, read_paths, read_script,
};
use crate::pairs::check_pairs;
use crate::references::{check_fourth_references, check_references};
use crate::refusal::{Refusal, place_of_byte};
use crate::roster::Roster;
use crate::tables::{
    read_dial, read_gossip, read_lifeguard, read_link, read_queue, read_serf, read_stream,
    read_suspicion, read_swim,
};
use crate::times::{check_fourth_times, check_times};
use base::{Memory, Moment};
use scenario::{Contents, Scenario};
use schema::{FormatKey, Section, Version, check_shape, items_at, number};
use std::alloc::Global;
use toml::Value;

/// Reads a scenario from the bytes of its text, a TOML document in the format of versions 1 to 3, or a plain text of
/// version 4. A text that breaks a rule is refused by the least such rule. One of version 1 is answered as it was
/// before there was version 2, one of version 2 as it was before there was version 3, and one of version 3 as it was
/// before there was version 4.
pub fn read(alloc: Global, bytes: &[u8]) -> Result<Scenario, Refusal>
    ensures accepted { IfOk result (λ s. verdict bytes.now ≡ Ok s) }
    ensures refused { IfErr result (λ r. r.rule ≢ 11 → verdict bytes.now ≡ Err r.rule) }
    ensures numbered { IfErr result (λ r. (1 ≤ r.rule) × (r.rule ≤ 11)) }
    ensures accepted_first { version_in bytes.now ≡ Version.One → IfOk result (λ s. first_verdict bytes.now ≡ Ok s) }
    ensures refused_first { version_in bytes.now ≡ Version.One → IfErr result (λ r. r.rule ≢ 11 → first_verdict bytes.now ≡ Err r.rule) }
    ensures accepted_second { version_in bytes.now ≡ Version.Two → IfOk result (λ s. second_verdict bytes.now ≡ Ok s) }
    ensures refused_second { version_in bytes.now ≡ Version.Two → IfErr result (λ r. r.rule ≢ 11 → second_verdict bytes.now ≡ Err r.rule) }
    ensures accepted_third { version_in bytes.now ≡ Version.Three → IfOk result (λ s. third_verdict bytes.now ≡ Ok s) }
    ensures refused_third { version_in bytes.now ≡ Version.Three → IfErr result (λ r. r.rule ≢ 11 → third_verdict bytes.now ≡ Err r.rule) }
{
    let tree = document(alloc, bytes)?;
    read_document(alloc, &tree)
}

/// The TOML document that the bytes of a text are. Refused by rule 1 where they are none, and by rule 11.
pub fn document(alloc: Global, bytes: &[u8]) -> Result<Value, Refusal>
    ensures read { IfOk result (λ tree. tree_of bytes.now ≡ Some (view tree)) }
    ensures refused { IfErr result (λ r. r.rule ≢ 11 → (tree_of bytes.now ≡ None) × (r.rule ≡ 1)) }
    ensures numbered { IfErr result (λ r. (1 ≤ r.rule) × (r.rule ≤ 11)) }
{
    match toml::table_from_slice(alloc, bytes) {
        Ok(table) => Ok(Value::Table(table)),
        Err(error) => Err(unread(&error)),
    }
}

/// Reads a scenario from a document. One that breaks a rule is refused by the least such rule.
pub fn read_document(alloc: Global, tree: &Value) -> Result<Scenario, Refusal>
    ensures accepted { IfOk result (λ s. document_verdict (view tree.now) ≡ Ok s) }
    ensures refused { IfErr result (λ r. r.rule ≢ 11 → document_verdict (view tree.now) ≡ Err r.rule) }
    ensures numbered { IfErr result (λ r. (1 ≤ r.rule) × (r.rule ≤ 11)) }
{
    match check_shape(version_of(tree), tree) {
        Ok(()) => build(alloc, tree),
        Err(fault) => Err(Refusal::of_shape(fault)),
    }
}

/// The refusal of bytes that are no TOML document, or for which memory was refused.
fn unread(error: &toml::de::Error) -> Refusal
    ensures memory { IsMemory error.now → result.rule ≡ 11 }
    ensures other { ¬ IsMemory error.now → result.rule ≡ 1 }
    ensures either { (1 ≤ result.rule) × (result.rule ≤ 11) }
{
    match error.span() {
        None => Refusal::memory(),
        Some(span) => Refusal {
            rule: 1,
            place: place_of_byte(span.start),
        },
    }
}

/// The scenario of a document whose tables have the right shape, or the rule that its values break.
fn build(alloc: Global, tree: &Value) -> Result<Scenario, Refusal>
    requires { KeepsShape (version_of (view tree.now)) (view tree.now) }
    ensures ok { IfOk result (λ s. (least_broken_in (version_of (view tree.now)) (view tree.now) (setup_of_tree (view tree.now)) ≡ None) × (s ≡ setup_of_tree (view tree.now))) }
    ensures err { IfErr result (λ r. r.rule ≢ 11 → least_broken_in (version_of (view tree.now)) (view tree.now) (setup_of_tree (view tree.now)) ≡ Some r.rule) }
    ensures numbered { IfErr result (λ r. (1 ≤ r.rule) × (r.rule ≤ 11)) }
{
    if is_fourth(version_of(tree)) {
        return build_fourth(alloc, tree);
    }
    build_earlier(alloc, tree)
}

/// Whether it is version 4.
fn is_fourth(version: Version) -> bool
    ensures { result ≡ is_fourth version }
{
    match version {
        Version::One | Version::Two | Version::Three => false,
        Version::Four => true,
    }
}

/// The same of a document of version 1, 2 or 3.
fn build_earlier(alloc: Global, tree: &Value) -> Result<Scenario, Refusal>
    requires earlier { is_fourth (version_of (view tree.now)) ≡ false }
    requires shape { KeepsShape (version_of (view tree.now)) (view tree.now) }
    ensures ok { IfOk result (λ s. (least_broken_by (view tree.now) (setup_of_tree (view tree.now)) ≡ None) × (s ≡ setup_of_tree (view tree.now))) }
    ensures err { IfErr result (λ r. r.rule ≢ 11 → least_broken_by (view tree.now) (setup_of_tree (view tree.now)) ≡ Some r.rule) }
    ensures numbered { IfErr result (λ r. (1 ≤ r.rule) × (r.rule ≤ 11)) }
{
    let roster = match judge(alloc, tree) {
        Ok(roster) => roster,
        Err(refusal) => return Err(refusal),
    };
    match decide(alloc, &roster, tree) {
        Ok(scenario) => Ok(scenario),
        Err(Memory) => Err(Refusal::memory()),
    }
}

/// The same of a document of version 4.
fn build_fourth(alloc: Global, tree: &Value) -> Result<Scenario, Refusal>
    requires version { version_of (view tree.now) ≡ Version.Four }
    requires shape { KeepsShape (version_of (view tree.now)) (view tree.now) }
    ensures ok { IfOk result (λ s. (fourth_least_broken_by (view tree.now) (setup_of_tree (view tree.now)) ≡ None) × (s ≡ setup_of_tree (view tree.now))) }
    ensures err { IfErr result (λ r. r.rule ≢ 11 → fourth_least_broken_by (view tree.now) (setup_of_tree (view tree.now)) ≡ Some r.rule) }
    ensures numbered { IfErr result (λ r. (1 ≤ r.rule) × (r.rule ≤ 11)) }
{
    let roster = match judge_fourth(alloc, tree) {
        Ok(roster) => roster,
        Err(refusal) => return Err(refusal),
    };
    match decide(alloc, &roster, tree) {
        Ok(scenario) => Ok(scenario),
        Err(Memory) => Err(Refusal::memory()),
    }
}

/// Judges the values of a document of version 4 by the rules from 6 on. What comes out are its groups.
fn judge_fourth(alloc: Global, tree: &Value) -> Result<Roster, Refusal>
    requires version { version_of (view tree.now) ≡ Version.Four }
    ensures groups { IfOk result (λ roster. roster ≡ plain_groups (view tree.now)) }
    ensures kept { OnOk result (KeepsFourth (view tree.now)) }
    ensures err { IfErr result (λ r. r.rule ≢ 11 → fourth_least_broken_by (view tree.now) (setup_of_tree (view tree.now)) ≡ Some r.rule) }
    ensures numbered { IfErr result (λ r. (1 ≤ r.rule) × (r.rule ≤ 11)) }
{
    let list = items_at(FormatKey::Group, tree);
    let roster = match Roster::read(alloc, Version::Four, list) {
        Ok(roster) => roster,
        Err(refusal) => return Err(refusal),
    };
    if let Err(refusal) = check_references(&roster, tree) {
        return Err(refusal);
    }
    if let Err(refusal) = check_added_references(Version::Four, &roster, tree) {
        return Err(refusal);
    }
    if let Err(refusal) = check_fourth_references(&roster, tree) {
        return Err(refusal);
    }
    if let Err(refusal) = check_times(&roster, tree) {
        return Err(refusal);
    }
    if let Err(refusal) = check_added_times(Version::Four, &roster, tree) {
        return Err(refusal);
    }
    if let Err(refusal) = check_fourth_times(&roster, tree) {
        return Err(refusal);
    }
    if are_too_many(Version::Four, list) {
        return Err(Refusal { rule: 10, place: 0 });
    }
    Ok(roster)
}

/// Judges the values of a document of version 1, 2 or 3 by the rules from 6 on. What comes out are its groups.
fn judge(alloc: Global, tree: &Value) -> Result<Roster, Refusal>
    ensures groups { IfOk result (λ roster. roster ≡ plain_groups (view tree.now)) }
    ensures kept { OnOk result (KeepsValues (view tree.now)) }
    ensures err { IfErr result (λ r. r.rule ≢ 11 → least_broken_by (view tree.now) (setup_of_tree (view tree.now)) ≡ Some r.rule) }
    ensures numbered { IfErr result (λ r. (1 ≤ r.rule) × (r.rule ≤ 11)) }
{
    let version = version_of(tree);
    let list = items_at(FormatKey::Group, tree);
    let roster = match Roster::read(alloc, Version::Three, list) {
        Ok(roster) => roster,
        Err(refusal) => return Err(refusal),
    };
    if let Err(refusal) = check_references(&roster, tree) {
        return Err(refusal);
    }
    if let Err(refusal) = check_added_references(version, &roster, tree) {
        return Err(refusal);
    }
    if let Err(refusal) = check_pairs(alloc, &roster, tree) {
        return Err(refusal);
    }
    if let Err(refusal) = check_departures(alloc, version, &roster, tree) {
        return Err(refusal);
    }
    if let Err(refusal) = check_pauses(alloc, version, &roster, tree) {
        return Err(refusal);
    }
    if let Err(refusal) = check_times(&roster, tree) {
        return Err(refusal);
    }
    if let Err(refusal) = check_added_times(version, &roster, tree) {
        return Err(refusal);
    }
    if are_too_many(version, list) {
        return Err(Refusal { rule: 10, place: 0 });
    }
    Ok(roster)
}

/// The scenario of a document that breaks no rule.
fn decide(alloc: Global, roster: &Roster, tree: &Value) -> Result<Scenario, Memory>
    requires groups { roster.now ≡ plain_groups (view tree.now) }
    requires sound { IsSound (setup_of_tree (view tree.now)) }
    ensures { IfOk result (λ s. s ≡ setup_of_tree (view tree.now)) }
{
    let version = version_of(tree);
    let list = items_at(FormatKey::Group, tree);
    let link = read_link(tree);
    let Ok(groups) = read_groups(alloc, roster, list) else {
        return Err(Memory);
    };
    let Ok(paths) = read_paths(alloc, roster, link, items_at(FormatKey::Path, tree)) else {
        return Err(Memory);
    };
    let Ok(script) = read_script(alloc, version, roster, tree) else {
        return Err(Memory);
    };
    let Ok(added) = read_fourth_script(alloc, version, roster, tree) else {
        return Err(Memory);
    };
    let Ok(names) = list_names(alloc, list) else {
        return Err(Memory);
    };
    let contents = Contents {
        version,
        seed: number(Section::Top, FormatKey::Seed, Some(tree)),
        end: Moment(number(Section::Top, FormatKey::End, Some(tree))),
        swim: read_swim(tree),
        suspicion: read_suspicion(tree),
        lifeguard: read_lifeguard(tree),
        link,
        groups,
        paths,
        slows: script.slows,
        crashes: script.crashes,
        leaves: script.leaves,
        cuts: script.cuts,
        gossip: read_gossip(tree),
        stream: read_stream(tree),
        pauses: script.pauses,
        restarts: added.restarts,
        blocks: added.blocks,
        queue: read_queue(tree),
        dial: read_dial(tree),
        serf: read_serf(tree),
        names,
    };
    Scenario::of(alloc, contents)
}

/// Whether the groups have more members than there may be.
fn are_too_many(version: Version, list: &[Value]) -> bool
    ensures { result ≡ nat_lt (most_members version) (sum_by (λ g. (plain_group (view g)).count) list.now) }
{
    let most = version.most_members();
    let mut members = 0;
    for group in list {
        let count = count_of(group);
        if count > most - members {
            return true;
        }
        members += count;
    }
    false
}
