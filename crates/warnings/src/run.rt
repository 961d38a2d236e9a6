//! Warnings of what the version's rules ask for, and of the run as a whole.
ghost use Rattle.std.specs.Prelude.{◌≡◌, ◌++◌, ◌||◌, ◌<◌, OnOk, nat_eq};
ghost use Rattle.std.specs.List.{list_all};
ghost use Rattle.scenario.specs.Profile.{profile_of};
ghost use Rattle.scenario.specs.Setup.{member_count};
ghost use Rattle.warnings.specs.Conditions.{are_confirmations_odd, goes_by_memberlist, is_answer_late, is_loss_free, is_moved, is_run_quiet, is_script_empty, is_somebody_moved, is_without_gossip};
ghost use Rattle.warnings.specs.Told.{told_of_run};

use crate::list::push_if;
use crate::members::are_several;
use crate::settings::is_answer_late;
use crate::warning::Warning;
use base::{MemberId, Memory, Profile};
use scenario::{Path, Scenario};

/// Appends the warnings about the version's rules, and about the run as a whole.
#[tactic(auto, unfolding(crate::specs::Told::told_of_run))]
pub(crate) fn push_run(
    told: &mut Vec<Warning>,
    scenario: &Scenario,
    trip: u64,
) -> Result<(), Memory>
    ensures { OnOk result (told.new.items ≡ told.old.items ++ told_of_run scenario.now trip) }
{
    push_if(told, is_without_gossip(scenario), Warning::NoGossip)?;
    push_if(
        told,
        are_confirmations_odd(scenario),
        Warning::OddConfirmations,
    )?;
    push_if(told, is_run_quiet(scenario, trip), Warning::QuietRun)
}

/// Whether the rules are memberlist's.
fn goes_by_memberlist(scenario: &Scenario) -> bool
    ensures { result ≡ goes_by_memberlist (profile_of scenario.now) }
{
    match scenario.profile() {
        Profile::Papers => false,
        Profile::Memberlist | Profile::Hashicorp => true,
    }
}

/// Whether members go by memberlist's rules, and yet nobody gossips.
fn is_without_gossip(scenario: &Scenario) -> bool
    ensures { result ≡ is_without_gossip scenario.now }
{
    are_several(scenario) && goes_by_memberlist(scenario) && scenario.gossip().is_none()
}

/// Whether no memberlist has this number of accusers with this `alpha`: it takes both from one setting.
fn are_confirmations_odd(scenario: &Scenario) -> bool
    ensures { result ≡ are_confirmations_odd scenario.now }
{
    let lifeguard = scenario.lifeguard();
    let wanted = scenario.suspicion().alpha.saturating_sub(2);
    are_several(scenario)
        && goes_by_memberlist(scenario)
        && lifeguard.suspicion
        && lifeguard.confirmations != wanted
}

/// Whether nothing happens in the run.
fn is_run_quiet(scenario: &Scenario, trip: u64) -> bool
    ensures { result ≡ is_run_quiet scenario.now trip }
{
    is_script_empty(scenario)
        && is_loss_free(scenario)
        && !is_answer_late(scenario, trip)
        && !is_somebody_moved(scenario)
}

/// Whether nobody is slow, paused or blocked, or starts again, and nothing is cut.
fn is_script_empty(scenario: &Scenario) -> bool
    ensures { result ≡ is_script_empty scenario.now }
{
    scenario.slows().len() == 0
        && scenario.cuts().len() == 0
        && scenario.pauses().len() == 0
        && scenario.blocks().len() == 0
        && scenario.restarts().len() == 0
}

/// Whether no link loses a message.
fn is_loss_free(scenario: &Scenario) -> bool
    ensures { result ≡ is_loss_free scenario.now }
{
    scenario.link().loss == 0 && lose_nothing(scenario.paths())
}

/// Whether no path loses a message.
fn lose_nothing(paths: &[Path]) -> bool
    ensures { result ≡ list_all (λ p. nat_eq p.link.loss 0) paths.now }
{
    paths.iter().all(|path| path.link.loss == 0)
}

/// Whether some member joins later, crashes or leaves.
fn is_somebody_moved(scenario: &Scenario) -> bool
    ensures { result ≡ is_somebody_moved scenario.now }
{
    let mut moved = false;
    for member in 0..scenario.members() {
        moved = is_either(moved, is_moved(scenario, MemberId(member as u16)));
    }
    moved
}

/// Whether one of two things is so.
fn is_either(first: bool, second: bool) -> bool
    ensures { result ≡ (first || second) }
{
    first || second
}

/// Whether a member joins later, crashes or leaves.
fn is_moved(scenario: &Scenario, member: MemberId) -> bool
    requires { member < member_count scenario.now }
    ensures { result ≡ is_moved scenario.now member }
{
    scenario.start(member).ticks() > 0
        || scenario.crash(member).is_some()
        || scenario.leave(member).is_some()
}
