//! Which preset a scenario is nearest to, and what that one sets.
ghost use Rattle.std.specs.Prelude.{◌≡◌, count_by};
ghost use Rattle.run_settings.specs.Nearest.{by_owner, in_each, in_each_or, in_three, usual, usual_switch, is_memberlists, is_other_number, is_other_switch, is_other, differs, differing_in, differing, of_least, of_least_of_four, nearest_fourth, nearest_in, nearest};
ghost use Rattle.presets.specs.declared.preset.Preset.TheVariants as AnyPreset;

use crate::values::{switch_of, value_of};
use presets::Preset;
use scenario::{Scenario, Version};
use schema::{FormatKey, KeyRule, Section};

/// The preset from which the fewest keys of a scenario differ, of those of its version; of several
/// the first of lan, wan and local, or of serf, serf-wan, consul and consul-wan.
pub(crate) fn nearest(scenario: &Scenario) -> Preset
    ensures { result ≡ nearest scenario.now }
{
    match scenario.version() {
        Version::One | Version::Two => Preset::Swim,
        Version::Three => nearest_memberlists(scenario),
        Version::Four => nearest_fourth(scenario),
    }
}

/// The preset of version 4 from which the fewest keys differ.
fn nearest_fourth(scenario: &Scenario) -> Preset
    ensures { result ≡ nearest_fourth scenario.now scenario.now.serf }
{
    match scenario.serf() {
        Some(_) => of_least_of_four(
            differing(scenario, Preset::Serf),
            differing(scenario, Preset::SerfWan),
            differing(scenario, Preset::Consul),
            differing(scenario, Preset::ConsulWan),
        ),
        None => nearest_memberlists(scenario),
    }
}

/// The preset of memberlist's from which the fewest keys differ.
fn nearest_memberlists(scenario: &Scenario) -> Preset
    ensures { result ≡ of_least (differing scenario.now AnyPreset.Lan) (differing scenario.now AnyPreset.Wan) (differing scenario.now AnyPreset.Local) }
{
    of_least(
        differing(scenario, Preset::Lan),
        differing(scenario, Preset::Wan),
        differing(scenario, Preset::Local),
    )
}

/// The preset from which the fewest keys differ.
fn of_least(lan: u128, wan: u128, local: u128) -> Preset
    ensures { result ≡ of_least lan wan local }
{
    if lan <= wan && lan <= local {
        Preset::Lan
    } else if wan <= local {
        Preset::Wan
    } else {
        Preset::Local
    }
}

/// The preset of Serf's and Consul's from which the fewest keys differ.
fn of_least_of_four(serf: u128, serf_wan: u128, consul: u128, consul_wan: u128) -> Preset
    ensures { result ≡ of_least_of_four serf serf_wan consul consul_wan }
{
    if serf <= serf_wan && (serf <= consul && serf <= consul_wan) {
        Preset::Serf
    } else if serf_wan <= consul && serf_wan <= consul_wan {
        Preset::SerfWan
    } else if consul <= consul_wan {
        Preset::Consul
    } else {
        Preset::ConsulWan
    }
}

/// How many keys of a scenario aren't as in a preset.
#[tactic(auto, unfolding(crate::specs::Nearest::differing))]
fn differing(scenario: &Scenario, preset: Preset) -> u128
    ensures { result ≡ differing scenario.now preset }
{
    let swim = differing_in(scenario, preset, Section::Swim);
    let suspicion = differing_in(scenario, preset, Section::Suspicion);
    let lifeguard = differing_in(scenario, preset, Section::Lifeguard);
    let link = differing_in(scenario, preset, Section::Link);
    let gossip = differing_in(scenario, preset, Section::Gossip);
    let stream = differing_in(scenario, preset, Section::Stream);
    let serf = differing_in(scenario, preset, Section::Serf);
    u128::from(swim)
        + u128::from(suspicion)
        + u128::from(lifeguard)
        + u128::from(link)
        + u128::from(gossip)
        + u128::from(stream)
        + u128::from(serf)
}

/// How many keys of a table aren't.
fn differing_in(scenario: &Scenario, preset: Preset, section: Section) -> u64
    ensures { result ≡ differing_in scenario.now preset section }
{
    let rules = section.rows(scenario.version());
    count_differing(scenario, preset, section, rules)
}

/// How many keys of these rules aren't.
fn count_differing(scenario: &Scenario, preset: Preset, section: Section, rules: &[KeyRule]) -> u64
    ensures { result ≡ count_by (differs scenario.now preset section) rules.now }
{
    let mut count = 0;
    for rule in rules {
        if differs(scenario, preset, section, rule) {
            count += 1;
        }
    }
    count
}

/// Whether a key isn't as in a preset.
fn differs(scenario: &Scenario, preset: Preset, section: Section, rule: &KeyRule) -> bool
    ensures { result ≡ differs scenario.now preset section rule.now }
{
    let number = value_of(scenario, section, rule.key);
    is_other(number, switch_of(scenario, rule.key), preset, rule.key)
}

/// Whether a key with this number or switch, if it has one, isn't.
fn is_other(number: Option<u64>, is_on: Option<bool>, preset: Preset, key: FormatKey) -> bool
    ensures { result ≡ is_other number is_on preset key }
{
    if let Some(number) = number {
        return is_other_number(number, usual(preset, key));
    }
    match is_on {
        Some(is_on) => is_other_switch(is_on, usual_switch(preset, key)),
        None => false,
    }
}

/// Whether a number isn't that of a preset, if it has one.
pub(crate) fn is_other_number(number: u64, usual: Option<u64>) -> bool
    ensures { result ≡ is_other_number number usual }
{
    match usual {
        Some(usual) => usual != number,
        None => false,
    }
}

/// Whether a switch isn't.
pub(crate) fn is_other_switch(is_on: bool, usual: bool) -> bool
    ensures { result ≡ is_other_switch is_on usual }
{
    if usual { !is_on } else { is_on }
}

/// The number that `init` prints for a key, if it has one.
pub(crate) fn usual(preset: Preset, key: FormatKey) -> Option<u64>
    ensures { result ≡ usual preset key }
{
    match key {
        FormatKey::Period => in_each(preset, 1000, 1000, 5000, 1000),
        FormatKey::Timeout => in_each(preset, 200, 500, 3000, 300),
        FormatKey::Helpers => in_each(preset, 1, 3, 3, 3),
        FormatKey::Carry => in_each(preset, 20, 20, 20, 6),
        FormatKey::Lambda => in_each(preset, 2, 4, 4, 3),
        FormatKey::Spread => in_each(preset, 1000, 1000, 5000, 1),
        FormatKey::Alpha => in_each(preset, 3, 4, 6, 5),
        FormatKey::Beta => in_each(preset, 6, 6, 6, 6),
        FormatKey::Ceiling => in_each(preset, 7, 7, 7, 8),
        FormatKey::Confirmations => in_each(preset, 1, 2, 4, 3),
        FormatKey::NackPercent => in_each(preset, 100, 100, 100, 80),
        FormatKey::Delay => in_each(preset, 1, 1, 40, 1),
        FormatKey::Jitter => in_each(preset, 0, 1, 5, 0),
        FormatKey::Loss => in_each(preset, 0, 0, 0, 0),
        FormatKey::Interval => in_three(preset, 100, 200, 500),
        FormatKey::Nodes => in_three(preset, 3, 3, 4),
        FormatKey::Dead => in_three(preset, 15000, 30000, 60000),
        FormatKey::Push => in_three(preset, 15000, 30000, 60000),
        FormatKey::Connect => in_three(preset, 1000, 1000, 1000),
        FormatKey::Again => in_three(preset, 200, 200, 200),
        FormatKey::Packet => in_three(preset, 1400, 1400, 1400),
        FormatKey::Meta => by_owner(preset, Some(0), 2, 125, 241),
        FormatKey::Limit => in_three(preset, 1000, 10000, 30000),
        FormatKey::Retry => in_three(preset, 30000, 30000, 30000),
        FormatKey::Reconnect => by_owner(preset, None, 30000, 30000, 30000),
        FormatKey::Reap => by_owner(preset, None, 86_400_000, 259_200_000, 259_200_000),
        FormatKey::Linger => by_owner(preset, None, 1000, 3000, 3000),
        _ => None,
    }
}

/// A number in each of the presets.
fn in_each(preset: Preset, local: u64, lan: u64, wan: u64, swim: u64) -> Option<u64>
    ensures { result ≡ in_each local lan wan swim preset }
{
    in_each_or(preset, local, lan, wan, Some(swim))
}

/// A number in each but the format's own, which doesn't have the key.
fn in_three(preset: Preset, local: u64, lan: u64, wan: u64) -> Option<u64>
    ensures { result ≡ in_three local lan wan preset }
{
    in_each_or(preset, local, lan, wan, None)
}

/// A number on one machine, in one data centre and between data centres, and in the format's own preset.
fn in_each_or(preset: Preset, local: u64, lan: u64, wan: u64, swim: Option<u64>) -> Option<u64>
    ensures { result ≡ in_each_or local lan wan swim preset }
{
    match preset {
        Preset::Local => Some(local),
        Preset::Lan | Preset::Serf | Preset::Consul => Some(lan),
        Preset::Wan | Preset::SerfWan | Preset::ConsulWan => Some(wan),
        Preset::Swim => swim,
    }
}

/// A number by whose program the members run, for a key that the format's own preset doesn't have.
fn by_owner(
    preset: Preset,
    memberlist: Option<u64>,
    serf: u64,
    consul: u64,
    consul_wan: u64,
) -> Option<u64>
    ensures { result ≡ by_owner memberlist serf consul consul_wan preset }
{
    match preset {
        Preset::Local | Preset::Lan | Preset::Wan => memberlist,
        Preset::Serf | Preset::SerfWan => Some(serf),
        Preset::Consul => Some(consul),
        Preset::ConsulWan => Some(consul_wan),
        Preset::Swim => None,
    }
}

/// The switch that `init` prints: all are on, and the fallback and the queue by memberlist's rules alone.
pub(crate) fn usual_switch(preset: Preset, key: FormatKey) -> bool
    ensures { result ≡ usual_switch preset key }
{
    match key {
        FormatKey::Fallback | FormatKey::Queue => is_memberlists(preset),
        _ => true,
    }
}

/// Whether a preset has memberlist's rules.
fn is_memberlists(preset: Preset) -> bool
    ensures { result ≡ is_memberlists preset }
{
    match preset {
        Preset::Swim => false,
        Preset::Local
        | Preset::Lan
        | Preset::Wan
        | Preset::Serf
        | Preset::SerfWan
        | Preset::Consul
        | Preset::ConsulWan => true,
    }
}
