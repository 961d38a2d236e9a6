//! Warnings about a scenario's crashes, leaves and cuts, such as a crash too late for its death to be declared.
ghost use Rattle.std.specs.Prelude.{◌≡◌, ◌++◌, ◌<◌, OnOk};
ghost use Rattle.scenario.specs.Setup.{member_count, crash_of};
ghost use Rattle.meaning.specs.Each.{made_at, made_of_each};
ghost use Rattle.warnings.specs.Told.{told_of_crash, told_of_crashes, told_of_leave, told_of_cut};

use crate::list::push_if;
use crate::members::{is_past, is_unconfirmed};
use crate::warning::Warning;
use base::{MemberId, Memory};
use meaning::item_at;
use scenario::Scenario;

/// Appends the warnings about each member's crash.
pub(crate) fn push_crashes(told: &mut Vec<Warning>, scenario: &Scenario) -> Result<(), Memory>
    ensures { OnOk result (told.new.items ≡ told.old.items ++ told_of_crashes scenario.now) }
{
    for member in 0..scenario.members() {
        push_crash(told, scenario, member)?;
    }
    Ok(())
}

/// Appends the warnings about the crash of a member, if it crashes.
#[tactic(auto, unfolding(crate::specs::Told::told_of_crash))]
fn push_crash(told: &mut Vec<Warning>, scenario: &Scenario, member: usize) -> Result<(), Memory>
    requires { member < member_count scenario.now }
    ensures { OnOk result (told.new.items ≡ told.old.items ++ told_of_crash scenario.now member (crash_of scenario.now member)) }
{
    let _few = scenario.members();
    let Some(at) = scenario.crash(MemberId(member as u16)) else {
        return Ok(());
    };
    push_if(told, is_past(scenario, at), Warning::CrashPastEnd(member))?;
    push_if(
        told,
        is_unconfirmed(scenario, at),
        Warning::CrashUnconfirmed(member),
    )
}

/// Appends the warnings about each leave.
pub(crate) fn push_leaves(told: &mut Vec<Warning>, scenario: &Scenario) -> Result<(), Memory>
    ensures { OnOk result (told.new.items ≡ told.old.items ++ made_of_each (told_of_leave scenario.now) scenario.now.leaves) }
{
    for place in 0..scenario.leaves().len() {
        push_leave(told, scenario, place)?;
    }
    Ok(())
}

/// Appends the warnings about the leave at this place.
#[tactic(auto, unfolding(crate::specs::Told::told_of_leave))]
fn push_leave(told: &mut Vec<Warning>, scenario: &Scenario, place: usize) -> Result<(), Memory>
    ensures { OnOk result (told.new.items
        ≡ told.old.items ++ made_at (told_of_leave scenario.now) scenario.now.leaves place) }
{
    let Some(leave) = item_at(scenario.leaves(), place) else {
        return Ok(());
    };
    push_if(
        told,
        is_past(scenario, leave.at),
        Warning::LeavePastEnd(place),
    )
}

/// Appends the warnings about each cut.
pub(crate) fn push_cuts(told: &mut Vec<Warning>, scenario: &Scenario) -> Result<(), Memory>
    ensures { OnOk result (told.new.items ≡ told.old.items ++ made_of_each (told_of_cut scenario.now) scenario.now.cuts) }
{
    for place in 0..scenario.cuts().len() {
        push_cut(told, scenario, place)?;
    }
    Ok(())
}

/// Appends the warnings about the cut at this place.
#[tactic(auto, unfolding(crate::specs::Told::told_of_cut))]
fn push_cut(told: &mut Vec<Warning>, scenario: &Scenario, place: usize) -> Result<(), Memory>
    ensures { OnOk result (told.new.items
        ≡ told.old.items ++ made_at (told_of_cut scenario.now) scenario.now.cuts place) }
{
    let Some(cut) = item_at(scenario.cuts(), place) else {
        return Ok(());
    };
    push_if(told, is_past(scenario, cut.at), Warning::CutPastEnd(place))
}
