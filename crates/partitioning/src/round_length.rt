//! How long the rounds of parts are, and how long they must be.
ghost use Rattle.std.specs.Prelude.{◌≡◌, ◌↔◌, ℕ, length, IfOk, IsTrue};
ghost use Rattle.scenario.specs.Setup.{member_count};
ghost use Rattle.partitioning.specs.Rounds.{HasMessages, IsLongRound, IsLeastWalkOf};

use base::Memory;
use lookahead::horizons;
use lookahead_windows::least_walk;
use scenario::{Division, Scenario};
use std::alloc::Global;
use windows::Cluster;

/// How many events a round must have to be worth it: with fewer, the messages on what went out
/// cost more time than several workers save (docs/PERFORMANCE.md).
const WORTH_TELLING: u64 = 6;

/// How many ticks a round must have for so many events, where each member pings another one each
/// period and is answered.
pub(crate) fn long_round(scenario: &Scenario) -> u64
    ensures { IsLongRound scenario.now result }
{
    let messages = scenario.members() as u64 * 2;
    (WORTH_TELLING * scenario.period()).div_ceil(messages)
}

/// How many messages a round must have for all threads to simulate. The one that writes then takes a processor from
/// one of them, and the others wait for that one: with fewer messages this costs more than a processor that only writes.
const WORTH_ALL_THREADS: u64 = 400;

/// Whether the rounds of these parts are so long that all threads simulate.
pub(crate) fn are_long(alloc: Global, cluster: Cluster, division: &Division) -> Result<bool, Memory>
    requires { length division.now.part_of ≡ member_count cluster.scenario.now }
    ensures { IfOk result (λ are. (ticks : ℕ) × IsLeastWalkOf cluster.entry.scenario.now division.now ticks × (IsTrue are ↔ HasMessages 400 cluster.entry.scenario.now ticks)) }
{
    let scenario = cluster.scenario;
    let ticks = least_walk_of(alloc, cluster, division)?;
    let messages = u128::from(ticks) * (scenario.members() as u128 * 2);
    Ok(u128::from(WORTH_ALL_THREADS * scenario.period()) <= messages)
}

/// The length in ticks of the least walk of links from one part of the division to another: 0 where
/// no two have members.
pub(crate) fn least_walk_of(
    alloc: Global,
    cluster: Cluster,
    division: &Division,
) -> Result<u64, Memory>
    requires { length division.now.part_of ≡ member_count cluster.scenario.now }
    ensures { IfOk result (IsLeastWalkOf cluster.entry.scenario.now division.now) }
{
    let walks = horizons(alloc, cluster, division)?;
    Ok(least_walk(&walks).unwrap_or(0))
}
