//! The lines on members: how many there are, and for each group its name, its size, its start and its contact.
ghost use Rattle.std.specs.Prelude.{◌≡◌, ◌++◌, ◌<◌, OnOk};
ghost use Rattle.std.specs.String.{string_bytes};
ghost use Rattle.reports.specs.Text.{count_line};
ghost use Rattle.scenario.specs.Setup.{member_count, group_at};
ghost use Rattle.meaning.specs.Groups.{groups_of, group_name, size_of};
ghost use Rattle.meaning_text.specs.Lines.{member_lines, group_line, group_words, group_text, contact_text};

use base::MemberId;
use meaning::{first_of_group, group_name, member_name, size_of};
use scenario::Scenario;
use std::alloc::AllocError;

/// Appends a line of a word and a number.
#[tactic(auto, unfolding(reports::specs::Text::count_line))]
pub(crate) fn push_count(text: &mut String, word: &str, number: u64) -> Result<(), AllocError>
    ensures { OnOk result (string_bytes text.new ≡ string_bytes text.old ++ count_line word.now number) }
{
    writeln!(text, "{word} {number}")
}

/// Appends how many members there are, and their groups.
#[tactic(auto, unfolding(crate::specs::Lines::member_lines))]
pub(crate) fn push_members(
    text: &mut String,
    scenario: &Scenario,
    groups: &[usize],
) -> Result<(), AllocError>
    requires { groups.now ≡ groups_of scenario.now }
    ensures { OnOk result (string_bytes text.new ≡ string_bytes text.old ++ member_lines scenario.now) }
{
    push_count(text, "members", scenario.members() as u64)?;
    for member in 0..scenario.members() {
        push_group(text, scenario, groups, member)?;
    }
    Ok(())
}

/// Appends the line of a member's group, if the member is its first.
fn push_group(
    text: &mut String,
    scenario: &Scenario,
    groups: &[usize],
    member: usize,
) -> Result<(), AllocError>
    requires member { member < member_count scenario.now }
    requires groups { groups.now ≡ groups_of scenario.now }
    ensures { OnOk result (string_bytes text.new ≡ string_bytes text.old ++ group_line scenario.now member) }
{
    let _few = scenario.members();
    let number = scenario.group_number(MemberId(member as u16));
    if first_of_group(groups, number) == member {
        push_group_text(text, scenario, groups, member)
    } else {
        Ok(())
    }
}

/// Appends the line of a member's group.
#[tactic(auto, unfolding(crate::specs::Lines::group_text))]
fn push_group_text(
    text: &mut String,
    scenario: &Scenario,
    groups: &[usize],
    member: usize,
) -> Result<(), AllocError>
    requires member { member < member_count scenario.now }
    requires groups { groups.now ≡ groups_of scenario.now }
    ensures { OnOk result (string_bytes text.new ≡ string_bytes text.old ++ group_text scenario.now member) }
{
    let _few = scenario.members();
    push_group_words(text, scenario, groups, member)?;
    push_contact(text, scenario, scenario.contact(MemberId(member as u16)))?;
    text.push_str("\n")
}

/// Appends the group of a member: its name, how many members it has, and when these start.
#[tactic(auto, unfolding(crate::specs::Lines::group_words))]
fn push_group_words(
    text: &mut String,
    scenario: &Scenario,
    groups: &[usize],
    member: usize,
) -> Result<(), AllocError>
    requires member { member < member_count scenario.now }
    requires groups { groups.now ≡ groups_of scenario.now }
    ensures { OnOk result (string_bytes text.new ≡ string_bytes text.old ++ group_words scenario.now member) }
{
    let _few = scenario.members();
    let name = name_of_group(scenario, groups, member);
    let size = size_of_group(scenario, groups, member);
    let start = scenario.start(MemberId(member as u16)).ticks();
    write!(text, "group {name} members {size} start {start}")
}

/// The name of a member's group, where `groups` has the number of each member's group.
pub fn name_of_group<'a>(scenario: &'a Scenario, groups: &[usize], member: usize) -> &'a str
    requires member { member < member_count scenario.now }
    requires groups { groups.now ≡ groups_of scenario.now }
    ensures { result.now ≡ group_name scenario.now (group_at scenario.now.groups member) }
{
    let _few = scenario.members();
    let number = scenario.group_number(MemberId(member as u16));
    group_name(scenario, groups, number)
}

/// How many members a member's group has, where `groups` has the number of each member's group.
pub fn size_of_group(scenario: &Scenario, groups: &[usize], member: usize) -> usize
    requires member { member < member_count scenario.now }
    requires groups { groups.now ≡ groups_of scenario.now }
    ensures { result ≡ size_of (groups_of scenario.now) (group_at scenario.now.groups member) }
{
    let _few = scenario.members();
    let number = scenario.group_number(MemberId(member as u16));
    size_of(groups, number)
}

/// Appends whom the members of a group, or one that starts again, ask to let them join, if they ask somebody.
#[tactic(auto, unfolding(crate::specs::Lines::contact_text))]
pub(crate) fn push_contact(
    text: &mut String,
    scenario: &Scenario,
    contact: Option<MemberId>,
) -> Result<(), AllocError>
    ensures { OnOk result (string_bytes text.new ≡ string_bytes text.old ++ contact_text scenario.now contact) }
{
    match contact {
        Some(member) => {
            let name = member_name(scenario, member.index());
            write!(text, " contact {name}")
        }
        None => Ok(()),
    }
}
