//! What was run.
ghost use Rattle.std.specs.Prelude.{◌≡◌, ◌++◌, OnOk, flat_map, map};
ghost use Rattle.std.specs.String.{string_bytes};
ghost use Rattle.schema.specs.Schema.{spelling_of};
ghost use Rattle.scenario.specs.SetupOf.{group_of};
ghost use Rattle.run_settings.specs.Events.{group_name};
ghost use Rattle.presets.specs.Presets.{word_of};
ghost use Rattle.run_settings.specs.Settings.{bold_words, chip_opening, chip, switch, entry_of, key_entry, section_entries, gossip_entries, third_entries, serf_entries, group_entry, start_words, joining_words, path_entry, is_other_link, link_words, version_number, top_entries, last_entries, entries, settings_beside, settings_text};

use crate::events::{push_contact, push_events};
use crate::nearest::{is_other_number, is_other_switch, nearest, usual, usual_switch};
use crate::values::{switch_of, value_of};
use base::MemberId;
use drawing::{close_figure, open_figure, push_escaped, push_grouped};
use presets::Preset;
use scenario::{Group, Link, Path, Scenario, Version};
use schema::{FormatKey, KeyRule, Section};
use std::alloc::AllocError;

/// Appends what was run: a scenario, by a release of the program. What isn't as in the nearest preset
/// stands out.
pub fn push_settings(
    text: &mut String,
    scenario: &Scenario,
    release: &str,
) -> Result<(), AllocError>
    ensures { OnOk result (string_bytes text.new ≡ string_bytes text.old ++ settings_text scenario.now release.now) }
{
    push_beside(text, scenario, nearest(scenario), release)
}

/// Appends the same beside a preset.
#[tactic(auto, unfolding(crate::specs::Settings::settings_beside))]
fn push_beside(
    text: &mut String,
    scenario: &Scenario,
    preset: Preset,
    release: &str,
) -> Result<(), AllocError>
    ensures { OnOk result (string_bytes text.new ≡ string_bytes text.old ++ settings_beside scenario.now preset release.now) }
{
    open_figure(text, "settings", "What was run")?;
    push_bold_words(text, preset)?;
    push_entries(text, scenario, preset)?;
    text.push_str("</ul><p class=\"soft\">swimsim ")?;
    push_escaped(text, release)?;
    text.push_str("</p>")?;
    close_figure(text)?;
    Ok(())
}

/// Appends what is in bold beside a preset, and begins the list of all.
#[tactic(auto, unfolding(crate::specs::Settings::bold_words))]
fn push_bold_words(text: &mut String, preset: Preset) -> Result<(), AllocError>
    ensures { OnOk result (string_bytes text.new ≡ string_bytes text.old ++ bold_words preset) }
{
    text.push_str("<p class=\"soft\">In bold: keys of tables that aren't as <code>init ")?;
    text.push_str(word_of(preset))?;
    text.push_str(
        "</code> prints them, late starts, and paths with a link of their own.</p><ul class=\"keys\">",
    )?;
    Ok(())
}

/// The name of a preset.
fn word_of(preset: Preset) -> &'static str
    ensures { result.now ≡ word_of preset }
{
    match preset {
        Preset::Local => "local",
        Preset::Lan => "lan",
        Preset::Wan => "wan",
        Preset::Serf => "serf",
        Preset::SerfWan => "serf-wan",
        Preset::Consul => "consul",
        Preset::ConsulWan => "consul-wan",
        Preset::Swim => "swim",
    }
}

/// Appends the keys of all tables beside a preset, groups and paths, and what the scenario has happen.
#[tactic(auto, unfolding(crate::specs::Settings::entries))]
fn push_entries(text: &mut String, scenario: &Scenario, preset: Preset) -> Result<(), AllocError>
    ensures { OnOk result (string_bytes text.new ≡ string_bytes text.old ++ entries scenario.now preset) }
{
    push_top(text, scenario)?;
    push_section(text, scenario, preset, "swim.", Section::Swim)?;
    push_section(text, scenario, preset, "suspicion.", Section::Suspicion)?;
    push_section(text, scenario, preset, "lifeguard.", Section::Lifeguard)?;
    push_section(text, scenario, preset, "link.", Section::Link)?;
    push_third(text, scenario, preset)?;
    push_groups(text, scenario, scenario.groups())?;
    push_last(text, scenario)
}

/// Appends the paths, and what the scenario has happen.
#[tactic(auto, unfolding(crate::specs::Settings::last_entries))]
fn push_last(text: &mut String, scenario: &Scenario) -> Result<(), AllocError>
    ensures { OnOk result (string_bytes text.new ≡ string_bytes text.old ++ last_entries scenario.now) }
{
    push_paths(text, scenario, scenario.paths())?;
    push_events(text, scenario)
}

/// Appends the keys that stand above all tables.
#[tactic(auto, unfolding(crate::specs::Settings::top_entries))]
fn push_top(text: &mut String, scenario: &Scenario) -> Result<(), AllocError>
    ensures { OnOk result (string_bytes text.new ≡ string_bytes text.old ++ top_entries scenario.now) }
{
    let version = version_number(scenario.version());
    push_chip(text, "", "version", version, false)?;
    push_chip(text, "", "seed", scenario.seed(), false)?;
    push_chip(text, "", "end", scenario.end().ticks(), false)
}

/// The number of a version, as a scenario's text has it.
fn version_number(version: Version) -> u64
    ensures { result ≡ version_number version }
{
    match version {
        Version::One => 1,
        Version::Two => 2,
        Version::Three => 3,
        Version::Four => 4,
    }
}

/// Appends the keys of the tables that versions 3 and 4 add.
fn push_third(text: &mut String, scenario: &Scenario, preset: Preset) -> Result<(), AllocError>
    ensures { OnOk result (string_bytes text.new ≡ string_bytes text.old ++ third_entries scenario.now preset scenario.now.version) }
{
    match scenario.version() {
        Version::One | Version::Two => Ok(()),
        Version::Three => {
            push_gossip(text, scenario, preset)?;
            push_section(text, scenario, preset, "stream.", Section::Stream)
        }
        Version::Four => {
            push_gossip(text, scenario, preset)?;
            push_section(text, scenario, preset, "stream.", Section::Stream)?;
            push_serf(text, scenario, preset)
        }
    }
}

/// Appends the keys of how members leave and reconnect, where they do as Serf's.
fn push_serf(text: &mut String, scenario: &Scenario, preset: Preset) -> Result<(), AllocError>
    ensures { OnOk result (string_bytes text.new ≡ string_bytes text.old ++ serf_entries scenario.now preset scenario.now.serf) }
{
    match scenario.serf() {
        Some(_) => push_section(text, scenario, preset, "serf.", Section::Serf),
        None => Ok(()),
    }
}

/// Appends the keys of how members gossip, where they do.
fn push_gossip(text: &mut String, scenario: &Scenario, preset: Preset) -> Result<(), AllocError>
    ensures { OnOk result (string_bytes text.new ≡ string_bytes text.old ++ gossip_entries scenario.now preset scenario.now.gossip) }
{
    match scenario.gossip() {
        Some(_) => push_section(text, scenario, preset, "gossip.", Section::Gossip),
        None => Ok(()),
    }
}

/// Appends the keys of a table.
fn push_section(
    text: &mut String,
    scenario: &Scenario,
    preset: Preset,
    prefix: &str,
    section: Section,
) -> Result<(), AllocError>
    ensures { OnOk result (string_bytes text.new ≡ string_bytes text.old ++ section_entries scenario.now preset prefix.now section) }
{
    let rules = section.rows(scenario.version());
    push_rules(text, scenario, preset, prefix, section, rules)
}

/// Appends the keys of these rules of a table.
fn push_rules(
    text: &mut String,
    scenario: &Scenario,
    preset: Preset,
    prefix: &str,
    section: Section,
    rules: &[KeyRule],
) -> Result<(), AllocError>
    ensures { OnOk result (string_bytes text.new ≡ string_bytes text.old ++ flat_map (key_entry scenario.now preset prefix.now section) rules.now) }
{
    for rule in rules {
        push_key(text, scenario, preset, prefix, section, rule)?;
    }
    Ok(())
}

/// Appends a key and its value.
fn push_key(
    text: &mut String,
    scenario: &Scenario,
    preset: Preset,
    prefix: &str,
    section: Section,
    rule: &KeyRule,
) -> Result<(), AllocError>
    ensures { OnOk result (string_bytes text.new ≡ string_bytes text.old ++ key_entry scenario.now preset prefix.now section rule.now) }
{
    push_entry(
        text,
        value_of(scenario, section, rule.key),
        switch_of(scenario, rule.key),
        preset,
        prefix,
        rule.key,
    )
}

/// Appends a key, where it has a number or is a switch.
fn push_entry(
    text: &mut String,
    number: Option<u64>,
    is_on: Option<bool>,
    preset: Preset,
    prefix: &str,
    key: FormatKey,
) -> Result<(), AllocError>
    ensures { OnOk result (string_bytes text.new ≡ string_bytes text.old ++ entry_of number is_on preset prefix.now key) }
{
    if let Some(number) = number {
        let is_changed = is_other_number(number, usual(preset, key));
        return push_chip(text, prefix, key.text(), number, is_changed);
    }
    if let Some(is_on) = is_on {
        let is_changed = is_other_switch(is_on, usual_switch(preset, key));
        return push_switch(text, prefix, key.text(), is_on, is_changed);
    }
    Ok(())
}

/// Begins an entry; one that isn't as in the nearest preset stands out.
fn push_opening(text: &mut String, is_changed: bool) -> Result<(), AllocError>
    ensures { OnOk result (string_bytes text.new ≡ string_bytes text.old ++ chip_opening is_changed) }
{
    if is_changed {
        text.push_str("<li class=\"changed\">")
    } else {
        text.push_str("<li>")
    }
}

/// Appends a key and its number; one that has changed stands out.
#[tactic(auto, unfolding(crate::specs::Settings::chip))]
fn push_chip(
    text: &mut String,
    prefix: &str,
    key: &str,
    number: u64,
    is_changed: bool,
) -> Result<(), AllocError>
    ensures { OnOk result (string_bytes text.new ≡ string_bytes text.old ++ chip prefix.now key.now number is_changed) }
{
    push_opening(text, is_changed)?;
    text.push_str(prefix)?;
    text.push_str(key)?;
    text.push_str(" ")?;
    push_grouped(text, number)?;
    text.push_str("</li>")
}

/// Appends a switch; one that has changed stands out.
#[tactic(auto, unfolding(crate::specs::Settings::switch))]
fn push_switch(
    text: &mut String,
    prefix: &str,
    key: &str,
    is_on: bool,
    is_changed: bool,
) -> Result<(), AllocError>
    ensures { OnOk result (string_bytes text.new ≡ string_bytes text.old ++ switch prefix.now key.now is_on is_changed) }
{
    push_opening(text, is_changed)?;
    text.push_str(prefix)?;
    text.push_str(key)?;
    if is_on {
        text.push_str(" on</li>")
    } else {
        text.push_str(" off</li>")
    }
}

/// Appends these groups.
fn push_groups(text: &mut String, scenario: &Scenario, groups: &[Group]) -> Result<(), AllocError>
    ensures { OnOk result (string_bytes text.new ≡ string_bytes text.old ++ flat_map (group_entry scenario.now) (map group_of groups.now)) }
{
    for group in groups {
        push_group(text, scenario, group)?;
    }
    Ok(())
}

/// Appends a group; one whose members start later than at 0 stands out.
#[tactic(auto, unfolding(crate::specs::Settings::group_entry))]
fn push_group(text: &mut String, scenario: &Scenario, group: &Group) -> Result<(), AllocError>
    ensures { OnOk result (string_bytes text.new ≡ string_bytes text.old ++ group_entry scenario.now (group_of group.now)) }
{
    let start = group.start.ticks();
    push_opening(text, start > 0)?;
    text.push_str("group ")?;
    push_escaped(text, group.name.as_str())?;
    text.push_str(": count ")?;
    push_grouped(text, group.count)?;
    push_joining(text, scenario, start, group.contact)?;
    text.push_str("</li>")
}

/// Appends when the members of a group start, and whom they ask to let them join.
#[tactic(auto, unfolding(crate::specs::Settings::joining_words))]
fn push_joining(
    text: &mut String,
    scenario: &Scenario,
    start: u64,
    contact: Option<MemberId>,
) -> Result<(), AllocError>
    ensures { OnOk result (string_bytes text.new ≡ string_bytes text.old ++ joining_words scenario.now start contact) }
{
    push_start(text, start)?;
    push_contact(text, scenario, contact)?;
    Ok(())
}

/// Appends when the members of a group start, where that is later than at 0.
fn push_start(text: &mut String, at: u64) -> Result<(), AllocError>
    ensures { OnOk result (string_bytes text.new ≡ string_bytes text.old ++ start_words at) }
{
    if at > 0 {
        text.push_str(", start ")?;
        return push_grouped(text, at);
    }
    Ok(())
}

/// Appends these paths.
fn push_paths(text: &mut String, scenario: &Scenario, paths: &[Path]) -> Result<(), AllocError>
    ensures { OnOk result (string_bytes text.new ≡ string_bytes text.old ++ flat_map (path_entry scenario.now) paths.now) }
{
    for path in paths {
        push_path(text, scenario, path)?;
    }
    Ok(())
}

/// Appends a path; one whose link isn't that of all pairs stands out.
#[tactic(auto, unfolding(crate::specs::Settings::path_entry))]
fn push_path(text: &mut String, scenario: &Scenario, path: &Path) -> Result<(), AllocError>
    ensures { OnOk result (string_bytes text.new ≡ string_bytes text.old ++ path_entry scenario.now path.now) }
{
    push_opening(text, is_other_link(path.link, scenario.link()))?;
    text.push_str("path ")?;
    push_escaped(text, group_name(scenario.groups(), path.from))?;
    text.push_str(" to ")?;
    push_escaped(text, group_name(scenario.groups(), path.to))?;
    push_link(text, path.link)
}

/// The name of the group of a number.
pub(crate) fn group_name(groups: &[Group], number: usize) -> &str
    ensures { result.now ≡ group_name (map group_of groups.now) number }
{
    match groups.get(number) {
        Some(group) => group.name.as_str(),
        None => "",
    }
}

/// Whether a link isn't that of all pairs.
fn is_other_link(link: Link, usual: Link) -> bool
    ensures { result ≡ is_other_link link usual }
{
    !(link.delay == usual.delay && link.jitter == usual.jitter && link.loss == usual.loss)
}

/// Appends the numbers of a link.
#[tactic(auto, unfolding(crate::specs::Settings::link_words))]
fn push_link(text: &mut String, link: Link) -> Result<(), AllocError>
    ensures { OnOk result (string_bytes text.new ≡ string_bytes text.old ++ link_words link) }
{
    text.push_str(": delay ")?;
    push_grouped(text, link.delay)?;
    text.push_str(", jitter ")?;
    push_grouped(text, link.jitter)?;
    text.push_str(", loss ")?;
    push_grouped(text, link.loss)?;
    text.push_str("</li>")
}
