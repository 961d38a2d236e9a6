//! The groups of a scenario's members: their numbers, sizes, first members and names.
ghost use Rattle.std.specs.Prelude.{◌≡◌, IfOk};
ghost use Rattle.scenario.specs.Setup.{name_of};
ghost use Rattle.meaning.specs.Groups.{groups_of, size_of, first_of_group, without_index, group_name};

use base::{MemberId, Memory};
use scenario::Scenario;
use std::alloc::Global;

/// The number of each member's group.
pub fn groups_of(alloc: Global, scenario: &Scenario) -> Result<Vec<usize>, Memory>
    ensures { IfOk result (λ groups. groups.items ≡ groups_of scenario.now) }
{
    let mut groups = Vec::new(alloc);
    for member in 0..scenario.members() {
        groups.push(scenario.group_number(MemberId(member as u16)))?;
    }
    Ok(groups)
}

/// How many of the members of these groups are of this one.
pub fn size_of(groups: &[usize], number: usize) -> usize
    ensures { result ≡ size_of groups.now number }
{
    groups.iter().filter(|group| **group == number).count()
}

/// The number of the first member of a group.
pub fn first_of_group(groups: &[usize], number: usize) -> usize
    ensures { result ≡ first_of_group groups.now number }
{
    groups.iter().filter(|group| **group < number).count()
}

/// A member's name; empty where there is no such member.
#[tactic(auto, using(crate::proofs::Names::nobody))]
pub fn member_name(scenario: &Scenario, member: usize) -> &str
    ensures { result.now ≡ name_of scenario.now member }
{
    if member < scenario.members() {
        scenario.name(MemberId(member as u16))
    } else {
        ""
    }
}

/// The name of a group, among the groups of all members.
pub fn group_name<'a>(scenario: &'a Scenario, groups: &[usize], number: usize) -> &'a str
    requires { groups.now ≡ groups_of scenario.now }
    ensures { result.now ≡ group_name scenario.now number }
{
    without_index(member_name(scenario, first_of_group(groups, number)))
}

/// The name of the group whose first member has this name.
#[tactic(auto, using(crate::proofs::Names::stripped, crate::proofs::Names::unstripped))]
fn without_index(name: &str) -> &str
    ensures { result.now ≡ without_index name.now }
{
    match name.strip_suffix("-0") {
        Some(group) => group,
        None => name,
    }
}
