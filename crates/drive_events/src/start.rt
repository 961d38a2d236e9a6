//! What the line of a start holds: the member's place and the seed, in the first line all members, and whom the
//! member asks to let it join.
ghost use Rattle.std.specs.Prelude.{◌≡◌, ◌<◌, ◌++◌, OnOk, IfSome, string_bytes};
ghost use Rattle.scenario.specs.Setup.{member_count};
ghost use Rattle.scenario.specs.Script.{asked_by};
ghost use Rattle.drive_events.specs.Start.{start_text, restart_text, restart_contact, process_text, place_text, first_text, members_text, founders_text, contact_name, contact_text};

use crate::names::{founders, members, push_names};
use base::{Key, MemberId};
use scenario::{Scenario, ScriptEvent, ScriptKind};
use std::alloc::{AllocError, Global};

/// Appends a start, and what its line holds.
pub(crate) fn push_start(
    alloc: Global,
    text: &mut String,
    scenario: &Scenario,
    member: MemberId,
    is_first: bool,
) -> Result<(), AllocError>
    requires { member < member_count scenario.now }
    ensures { OnOk result (string_bytes text.new ≡ string_bytes text.old ++ start_text scenario.now is_first member) }
{
    let contact = scenario.contact(member);
    push_process(alloc, text, scenario, member, is_first, contact)
}

/// Appends a start that isn't the member's first, and what its line holds.
#[tactic(auto, unfolding(crate::specs::Start::restart_text))]
pub(crate) fn push_restart(
    alloc: Global,
    text: &mut String,
    scenario: &Scenario,
    key: &Key,
    is_first: bool,
) -> Result<(), AllocError>
    requires { key.now.to < member_count scenario.now }
    ensures { OnOk result (string_bytes text.new ≡ string_bytes text.old ++ restart_text scenario.now is_first key.now) }
{
    let contact = restart_contact(scenario, key);
    push_process(alloc, text, scenario, key.to, is_first, contact)?;
    text.push_str(",\"again\":true")
}

/// Whom a member asks that starts again by this event of its script.
fn restart_contact(scenario: &Scenario, key: &Key) -> Option<MemberId>
    requires { key.now.to < member_count scenario.now }
    ensures value { result ≡ restart_contact scenario.now key.now }
    ensures member { IfSome result (λ c. c < member_count scenario.now) }
{
    let place = key.number.saturating_sub(1) as usize;
    match scenario.script(key.to).get(place) {
        Some(event) => asked_by(event),
        None => None,
    }
}

/// Whom a member asks that starts again by this entry of the script.
fn asked_by(event: &ScriptEvent) -> Option<MemberId>
    ensures { result ≡ asked_by event.now.kind }
{
    match event.kind {
        ScriptKind::Restart(contact) => contact,
        ScriptKind::Crash | ScriptKind::Leave => None,
    }
}

/// Appends the start of a process of the member, which asks this contact.
#[tactic(auto, unfolding(crate::specs::Start::process_text))]
fn push_process(
    alloc: Global,
    text: &mut String,
    scenario: &Scenario,
    member: MemberId,
    is_first: bool,
    contact: Option<MemberId>,
) -> Result<(), AllocError>
    requires member { member < member_count scenario.now }
    requires contact { IfSome contact (λ c. c < member_count scenario.now) }
    ensures { OnOk result (string_bytes text.new ≡ string_bytes text.old ++ process_text scenario.now is_first member contact) }
{
    push_place(text, scenario, member)?;
    push_first(alloc, text, scenario, is_first)?;
    push_contact(text, scenario, contact)
}

/// Appends the member's number, and the scenario's seed.
fn push_place(text: &mut String, scenario: &Scenario, member: MemberId) -> Result<(), AllocError>
    ensures { OnOk result (string_bytes text.new ≡ string_bytes text.old ++ place_text member scenario.now.seed) }
{
    push_place_of(text, member.index(), scenario.seed())
}

/// Appends a number of a member, and a seed.
#[tactic(auto, unfolding(crate::specs::Start::place_text))]
fn push_place_of(text: &mut String, index: usize, seed: u64) -> Result<(), AllocError>
    ensures { OnOk result (string_bytes text.new ≡ string_bytes text.old ++ place_text index seed) }
{
    write!(text, "start\",\"index\":{index},\"seed\":{seed}")
}

/// Appends all members, and those that start at moment 0, where this is the first line.
fn push_first(
    alloc: Global,
    text: &mut String,
    scenario: &Scenario,
    is_first: bool,
) -> Result<(), AllocError>
    ensures { OnOk result (string_bytes text.new ≡ string_bytes text.old ++ first_text scenario.now is_first) }
{
    if is_first {
        push_members(alloc, text, scenario)?;
        push_founders(alloc, text, scenario)
    } else {
        Ok(())
    }
}

/// Appends all members.
#[tactic(auto, unfolding(crate::specs::Start::members_text))]
fn push_members(alloc: Global, text: &mut String, scenario: &Scenario) -> Result<(), AllocError>
    ensures { OnOk result (string_bytes text.new ≡ string_bytes text.old ++ members_text scenario.now) }
{
    let members = members(alloc, scenario)?;
    text.push_str(",\"members\":")?;
    push_names(text, scenario, members.as_slice())?;
    Ok(())
}

/// Appends the members that start at moment 0.
#[tactic(auto, unfolding(crate::specs::Start::founders_text))]
fn push_founders(alloc: Global, text: &mut String, scenario: &Scenario) -> Result<(), AllocError>
    ensures { OnOk result (string_bytes text.new ≡ string_bytes text.old ++ founders_text scenario.now) }
{
    let founders = founders(alloc, scenario)?;
    text.push_str(",\"founders\":")?;
    push_names(text, scenario, founders.as_slice())?;
    Ok(())
}

/// Appends whom the member asks to let it join, if it asks anybody.
fn push_contact(
    text: &mut String,
    scenario: &Scenario,
    contact: Option<MemberId>,
) -> Result<(), AllocError>
    requires { IfSome contact (λ c. c < member_count scenario.now) }
    ensures { OnOk result (string_bytes text.new ≡ string_bytes text.old ++ contact_text scenario.now contact) }
{
    match contact {
        Some(contact) => push_contact_name(text, scenario.name(contact)),
        None => Ok(()),
    }
}

/// Appends the name of whom the member asks.
#[tactic(auto, unfolding(crate::specs::Start::contact_name))]
fn push_contact_name(text: &mut String, name: &str) -> Result<(), AllocError>
    ensures { OnOk result (string_bytes text.new ≡ string_bytes text.old ++ contact_name name.now) }
{
    write!(text, ",\"contact\":\"{name}\"")
}
