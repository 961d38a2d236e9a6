//! Lists of members, by their names.
ghost use Rattle.std.specs.Prelude.{◌≡◌, ◌<◌, ◌++◌, All, IfOk, OnOk, string_bytes, filter, flat_map};
ghost use Rattle.scenario.specs.Setup.{member_count};
ghost use Rattle.drive_events.specs.Start.{names_text, first_name, later_name, numbers, is_founder};

use base::MemberId;
use scenario::Scenario;
use std::alloc::{AllocError, Global};

/// All members, in the order of their numbers.
pub(crate) fn members(alloc: Global, scenario: &Scenario) -> Result<Vec<MemberId>, AllocError>
    ensures all { IfOk result (λ list. list.items ≡ numbers scenario.now) }
    ensures within { IfOk result (λ list. All (λ m. m < member_count scenario.now) list.items) }
{
    let mut list = Vec::new(alloc);
    for number in 0..scenario.members() {
        list.push(MemberId(number as u16))?;
    }
    Ok(list)
}

/// The members that start at moment 0, in the order of their numbers.
pub(crate) fn founders(alloc: Global, scenario: &Scenario) -> Result<Vec<MemberId>, AllocError>
    ensures all { IfOk result (λ list. list.items ≡ filter (is_founder scenario.now) (numbers scenario.now)) }
    ensures within { IfOk result (λ list. All (λ m. m < member_count scenario.now) list.items) }
{
    let mut list = Vec::new(alloc);
    for number in 0..scenario.members() {
        let member = MemberId(number as u16);
        if scenario.start(member).ticks() == 0 {
            list.push(member)?;
        }
    }
    Ok(list)
}

/// Appends names of members as a list.
#[tactic(auto, unfolding(crate::specs::Start::names_text))]
pub(crate) fn push_names(
    text: &mut String,
    scenario: &Scenario,
    members: &[MemberId],
) -> Result<(), AllocError>
    requires { All (λ m. m < member_count scenario.now) members.now }
    ensures { OnOk result (string_bytes text.new ≡ string_bytes text.old ++ names_text scenario.now members.now) }
{
    match members {
        [] => text.push_str("[]"),
        [first, others @ ..] => {
            push_first_name(text, scenario, *first)?;
            push_later_names(text, scenario, others)?;
            text.push_str("]")
        }
    }
}

/// Appends the bracket that opens a list, and its first name.
#[tactic(auto, unfolding(crate::specs::Start::first_name))]
fn push_first_name(
    text: &mut String,
    scenario: &Scenario,
    member: MemberId,
) -> Result<(), AllocError>
    requires { member < member_count scenario.now }
    ensures { OnOk result (string_bytes text.new ≡ string_bytes text.old ++ first_name scenario.now member) }
{
    let name = scenario.name(member);
    write!(text, "[\"{name}\"")
}

/// Appends the names of a list that stand behind its first.
fn push_later_names(
    text: &mut String,
    scenario: &Scenario,
    members: &[MemberId],
) -> Result<(), AllocError>
    requires { All (λ m. m < member_count scenario.now) members.now }
    ensures { OnOk result (string_bytes text.new ≡ string_bytes text.old ++ flat_map (later_name scenario.now) members.now) }
{
    for member in members {
        push_later_name(text, scenario, *member)?;
    }
    Ok(())
}

/// Appends a comma, and a name.
#[tactic(auto, unfolding(crate::specs::Start::later_name))]
fn push_later_name(
    text: &mut String,
    scenario: &Scenario,
    member: MemberId,
) -> Result<(), AllocError>
    requires { member < member_count scenario.now }
    ensures { OnOk result (string_bytes text.new ≡ string_bytes text.old ++ later_name scenario.now member) }
{
    let name = scenario.name(member);
    write!(text, ",\"{name}\"")
}
