//! The greatest round trip over all pairs of members, from the delay and the jitter of their links.
ghost use Rattle.std.specs.Prelude.{◌≡◌, ◌<◌, ◌≤◌, ◌^◌, IfOk};
ghost use Rattle.scenario.specs.Setup.{member_count, IsSoundLink};
ghost use Rattle.meaning.specs.Groups.{groups_of};
ghost use Rattle.meaning.specs.Trips.{round_trip, longest_of, AreWaysOf, IsGreatest, IsGreatestFrom};

use crate::groups::groups_of;
use crate::ways::Ways;
use base::{MemberId, Memory};
use scenario::{Link, Scenario};
use std::alloc::Global;

/// The greatest round trip, in ticks, over all pairs of different members: the longest time of a message
/// from the one to the other and of the answer, where nobody is slow or paused; 0 where there is but one member.
pub fn greatest_round_trip(alloc: Global, scenario: &Scenario) -> Result<u64, Memory>
    ensures value { IfOk result (λ g. IsGreatest (round_trip scenario.now) (member_count scenario.now) g) }
    ensures short { IfOk result (λ g. g ≤ 2 ^ 22) }
{
    let groups = groups_of(alloc, scenario)?;
    let mut greatest = 0;
    for from in 0..scenario.members() {
        let ways = Ways::of(alloc, scenario, MemberId(from as u16))?;
        greatest = greatest_from(scenario, &ways, groups.as_slice(), from).max(greatest);
    }
    Ok(greatest)
}

/// The greatest of these times from a member.
fn greatest_from(scenario: &Scenario, ways: &Ways, groups: &[usize], from: usize) -> u64
    requires member { from < member_count scenario.now }
    requires groups { groups.now ≡ groups_of scenario.now }
    requires ways { AreWaysOf scenario.now from ways.now }
    ensures value { IsGreatestFrom (round_trip scenario.now from) from (member_count scenario.now) result }
    ensures short { result ≤ 2 ^ 22 }
{
    let mut greatest = 0;
    for to in 0..scenario.members() {
        if to != from {
            let trip = round_trip(scenario, ways, groups, from, to);
            greatest = trip.max(greatest);
        }
    }
    greatest
}

/// The round trip from one member to another.
fn round_trip(scenario: &Scenario, ways: &Ways, groups: &[usize], from: usize, to: usize) -> u64
    requires sender { from < member_count scenario.now }
    requires receiver { to < member_count scenario.now }
    requires groups { groups.now ≡ groups_of scenario.now }
    requires ways { AreWaysOf scenario.now from ways.now }
    ensures value { result ≡ round_trip scenario.now from to }
    ensures short { result ≤ 2 ^ 22 }
{
    let _few = scenario.members();
    let group = groups[to];
    let from = MemberId(from as u16);
    let to = MemberId(to as u16);
    longest_of(ways.there(scenario, group, from, to))
        + longest_of(ways.back(scenario, group, from, to))
}

/// The longest time of a message on this link.
fn longest_of(link: Link) -> u64
    requires { IsSoundLink link }
    ensures value { result ≡ longest_of link }
    ensures short { result ≤ 2 ^ 21 }
{
    link.delay + link.jitter
}
