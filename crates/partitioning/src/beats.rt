//! The members in turn, in the order of their first beats.
ghost use Rattle.std.specs.Prelude.{◌≡◌, ◌+◌, ◌*◌, ◌<◌, ◌≤◌, ◌%◌, ◌^◌, IfOk, All, length, map, slice_get, slice_index, vec_len, Some};
ghost use Rattle.std.specs.List.{range_with_len};
ghost use Rattle.std.specs.List.Sorted.{IsNonDecreasing, IsPermutation};
ghost use Rattle.scenario.specs.Setup.{member_count};
ghost use Rattle.partitioning.specs.Beats.{first_beat, rank_of, AreByBeats};
ghost use Rattle.partitioning.specs.Parts.{Divides};

use crate::divisions::divided;
use base::{MemberId, Memory};
use scenario::{Division, Scenario};
use std::alloc::{AllocError, Global};
use streams::Stream;

/// Puts the members in turn into so many parts, in the order of their first beats. Of the members that begin their
/// periods in the same ticks each part then has its share, so that no part keeps the others waiting.
pub(crate) fn by_first_beats(
    alloc: Global,
    scenario: &Scenario,
    parts: usize,
) -> Result<Division, Memory>
    requires few { (1 ≤ parts) × (parts ≤ 64) }
    ensures divides { IfOk result (Divides scenario.now parts) }
    ensures in_order { IfOk result (AreByBeats scenario.now parts) }
{
    let ranks = sorted_ranks(alloc, scenario)?;
    let mut part_of = Vec::new(alloc);
    for member in 0..scenario.members() {
        let place = place_of(&ranks, scenario, MemberId(member as u16));
        part_of.push((place % parts) as u8)?;
    }
    Ok(divided(scenario, parts, part_of))
}

/// Where the member stands in the order of the ranks.
fn place_of(ranks: &[u64], scenario: &Scenario, member: MemberId) -> usize
    requires member { member < member_count scenario.now }
    requires all { IsPermutation (map (rank_of scenario.now) (range_with_len 0 (member_count scenario.now))) ranks.now }
    requires rises { IsNonDecreasing ranks.now }
    ensures { slice_get ranks.now result ≡ Some (rank_of scenario.now member) }
{
    match ranks.binary_search(&rank(scenario, member)) {
        Ok(place) => place,
        Err(_) => unreachable!(),
    }
}

/// The ranks of all members, from the lowest.
fn sorted_ranks(alloc: Global, scenario: &Scenario) -> Result<Vec<u64>, Memory>
    ensures all { IfOk result (λ ranks. IsPermutation (map (rank_of scenario.now) (range_with_len 0 (member_count scenario.now))) ranks.items) }
    ensures rises { IfOk result (λ ranks. IsNonDecreasing ranks.items) }
{
    let mut ranks = ranks_of(alloc, scenario)?;
    ranks.sort_unstable();
    Ok(ranks)
}

/// The ranks of all members, in the members' order.
fn ranks_of(alloc: Global, scenario: &Scenario) -> Result<Vec<u64>, AllocError>
    ensures { IfOk result (λ ranks. ranks.items ≡ map (rank_of scenario.now) (range_with_len 0 (member_count scenario.now))) }
{
    (0..scenario.members() as u16)
        .map(|member| rank(scenario, MemberId(member)))
        .collect(alloc)
}

/// A member's rank: a lower one has the first beat earlier, or at the same time and the lower number.
fn rank(scenario: &Scenario, member: MemberId) -> u64
    ensures { result ≡ rank_of scenario.now member }
{
    u64::from(first_beat(scenario, member)) * 65_536 + u64::from(member.0)
}

/// How late a member's first beat is, in ticks: it draws that first of all (SWIM's protocol period, spread).
#[tactic(auto, unfolding(crate::specs::Beats::first_beat))]
fn first_beat(scenario: &Scenario, member: MemberId) -> u32
    ensures value { result ≡ first_beat scenario.now member }
    ensures few { result < 2 ^ 24 }
{
    let mut stream = Stream::of(scenario.seed(), member);
    stream.below(scenario.swim().spread as u32)
}
