//! Warnings about single settings: the probe's timeout, the period, the end, accusers, helpers, loss on the link,
//! Lifeguard's switches, the spread.
ghost use Rattle.std.specs.Prelude.{◌≡◌, ◌++◌, ◌≤◌, ◌^◌, OnOk};
ghost use Rattle.warnings.specs.Conditions.{is_answer_late, is_relay_late, is_end_early, are_accusers_few, are_helpers_many, loses_all, is_lost, is_in_part, is_spread_long};
ghost use Rattle.warnings.specs.Told.{told_of_settings};

use crate::list::push_if;
use crate::members::are_several;
use crate::warning::Warning;
use base::Memory;
use meaning::{least_suspicion, most_accusers, push_period};
use scenario::{Lifeguard, Link, Scenario};

/// Appends the warnings about single settings.
#[tactic(auto, unfolding(crate::specs::Told::told_of_settings))]
pub(crate) fn push_settings(
    told: &mut Vec<Warning>,
    scenario: &Scenario,
    trip: u64,
) -> Result<(), Memory>
    requires { trip ≤ 2 ^ 22 }
    ensures { OnOk result (told.new.items ≡ told.old.items ++ told_of_settings scenario.now trip) }
{
    push_if(told, is_answer_late(scenario, trip), Warning::LateAnswer)?;
    push_if(told, is_relay_late(scenario, trip), Warning::LateRelay)?;
    push_if(told, is_end_early(scenario), Warning::EarlyEnd)?;
    push_if(told, are_accusers_few(scenario), Warning::FewAccusers)?;
    push_if(told, are_helpers_many(scenario), Warning::ManyHelpers)?;
    push_if(
        told,
        is_lost(scenario, scenario.link()),
        Warning::LostOnLink,
    )?;
    push_if(
        told,
        is_in_part(scenario.lifeguard()),
        Warning::PartOfLifeguard,
    )?;
    push_if(told, is_spread_long(scenario), Warning::LongSpread)
}

/// Whether the greatest round trip is longer than the timeout.
pub(crate) fn is_answer_late(scenario: &Scenario, trip: u64) -> bool
    ensures { result ≡ is_answer_late scenario.now trip }
{
    trip > scenario.swim().timeout
}

/// Whether an answer by way of a helper can come after the period.
fn is_relay_late(scenario: &Scenario, trip: u64) -> bool
    requires { trip ≤ 2 ^ 22 }
    ensures { result ≡ is_relay_late scenario.now trip }
{
    let swim = scenario.swim();
    swim.helpers > 0 && swim.timeout + 2 * trip > swim.period
}

/// Whether the end is before a first probe can fail and its suspicion run out.
fn is_end_early(scenario: &Scenario) -> bool
    ensures { result ≡ is_end_early scenario.now }
{
    are_several(scenario)
        && scenario.end().ticks() < 1 + scenario.period() + least_suspicion(scenario)
}

/// Whether fewer members can accuse than are wanted.
fn are_accusers_few(scenario: &Scenario) -> bool
    ensures { result ≡ are_accusers_few scenario.now }
{
    let lifeguard = scenario.lifeguard();
    are_several(scenario)
        && lifeguard.suspicion
        && most_accusers(scenario) < lifeguard.confirmations
}

/// Whether fewer members can help than are asked.
fn are_helpers_many(scenario: &Scenario) -> bool
    ensures { result ≡ are_helpers_many scenario.now }
{
    are_several(scenario) && (scenario.members() as u64) < scenario.swim().helpers + 2
}

/// Whether a link loses every message: pushes, where there are any, aren't lost by it.
pub(crate) fn is_lost(scenario: &Scenario, link: Link) -> bool
    ensures { result ≡ is_lost scenario.now link }
{
    loses_all(link) && push_period(scenario) == 0
}

/// Whether a link loses every message that may be lost on it.
fn loses_all(link: Link) -> bool
    ensures { result ≡ loses_all link }
{
    link.loss == 1_000_000
}

/// Whether one of Lifeguard's switches is on, and one is off.
fn is_in_part(lifeguard: Lifeguard) -> bool
    ensures { result ≡ is_in_part lifeguard }
{
    (lifeguard.probe || lifeguard.suspicion || lifeguard.buddy)
        && !(lifeguard.probe && lifeguard.suspicion && lifeguard.buddy)
}

/// Whether a member may begin its first period after the end.
fn is_spread_long(scenario: &Scenario) -> bool
    ensures { result ≡ is_spread_long scenario.now }
{
    scenario.end().ticks() < scenario.swim().spread
}
