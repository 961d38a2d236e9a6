//! How far the windows of a round go.
ghost use Rattle.std.specs.Prelude.{◌≡◌, ℕ, ◌+◌, ◌<◌, ◌^◌, min, length, Option, IfOk};
ghost use Rattle.std.specs.Option.{option_map_or};
ghost use Rattle.scenario.specs.Setup.{IsSound, member_count};
ghost use Rattle.scenario.specs.Division.{Deal};
ghost use Rattle.links.specs.Least.{lesser_of};
ghost use Rattle.lookahead.specs.Between.{part_number};
ghost use Rattle.turns.specs.Bounds.{AreHorizonsOf};
ghost use Rattle.lookahead_windows.specs.Plan.{AreWaysInto};
ghost use Rattle.lookahead_windows.specs.Basis.{way_at};
ghost use Rattle.lookahead_windows.specs.Walks.{IsLeastWalkAmong, IsFrom, IsInto, AreBelow, AreRoundWays, likely_ticks};

use base::{Memory, Moment};
use lookahead::Horizons;
use scenario::Scenario;
use std::alloc::Global;

/// A window in which the members are likely to handle more events than so many is cut, since its rows
/// are kept until it ends.
const MOST_EVENTS: u64 = 8_192;

/// For each part how many ticks an event takes at least on its way into it: the length of the least
/// walk of links that ends there, but no more ticks than are likely to have some thousands of events,
/// where each member pings another one each period and is answered; so many too where no walk ends
/// there.
pub fn ways_into(alloc: Global, scenario: &Scenario, walks: &Horizons) -> Result<Vec<u64>, Memory>
    ensures count { IfOk result (λ ways. length ways.items ≡ walks.now.parts) }
    ensures into { IfOk result (λ ways. (deal : Deal) → length deal.part_of ≡ member_count scenario.now → ((m : ℕ) → m < member_count scenario.now → part_number deal m < deal.parts)
        → AreHorizonsOf walks.now scenario.now deal → AreWaysInto scenario.now (part_number deal) (way_at ways.items)) }
    ensures ticks { IfOk result (λ ways. AreRoundWays scenario.now walks.now ways.items) }
{
    let most = most_ticks(scenario);
    let mut ways = Vec::new(alloc);
    for to in 0..walks.parts() {
        ways.push(way_into(walks, to, most))?;
    }
    Ok(ways)
}

/// In how many ticks the members are likely to handle so many events, one at least.
fn most_ticks(scenario: &Scenario) -> u64
    ensures ticks { result ≡ likely_ticks scenario.now }
    ensures sound { IsSound scenario.now }
{
    let messages = scenario.members() as u64 * 2;
    (MOST_EVENTS * scenario.period() / messages).max(1)
}

/// The length of the least walk into the part, no more than so many ticks.
fn way_into(walks: &Horizons, to: usize, most: u64) -> u64
    requires { to < walks.now.parts }
    ensures { (least : Option ℕ) × IsLeastWalkAmong walks.now (IsInto walks.now.parts to) least × (result ≡ option_map_or (λ length. min length most) least most) }
{
    match least_walk_into(walks, to) {
        Some(length) => length.min(most),
        None => most,
    }
}

/// The length in ticks of the least walk that ends in this part. None where there is none.
fn least_walk_into(walks: &Horizons, to: usize) -> Option<u64>
    requires { to < walks.now.parts }
    ensures { IsLeastWalkAmong walks.now (IsInto walks.now.parts to) result }
{
    let mut least = None;
    for from in 0..walks.parts() {
        least = lesser_walk(least, walks.walk(from, to));
    }
    least
}

/// The length in ticks of the least walk of links from one part to another, or back to it. None where
/// no two parts have members.
pub fn least_walk(horizons: &Horizons) -> Option<u64>
    ensures { IsLeastWalkAmong horizons.now (AreBelow horizons.now.parts horizons.now.parts) result }
{
    let mut least = None;
    for from in 0..horizons.parts() {
        least = lesser_walk(least, least_walk_from(horizons, from));
    }
    least
}

/// That of the walks from this part.
fn least_walk_from(horizons: &Horizons, from: usize) -> Option<u64>
    requires { from < horizons.now.parts }
    ensures { IsLeastWalkAmong horizons.now (IsFrom from horizons.now.parts) result }
{
    let mut least = None;
    for to in 0..horizons.parts() {
        least = lesser_walk(least, horizons.walk(from, to));
    }
    least
}

/// The lesser of two lengths, where there are both.
fn lesser_walk(one: Option<u64>, other: Option<u64>) -> Option<u64>
    ensures { result ≡ lesser_of one other }
{
    match one {
        Some(length) => match other {
            Some(further) => Some(length.min(further)),
            None => one,
        },
        None => other,
    }
}

/// Before which moment a part's window stays in a round in which this is the first moment that
/// pends: as far past it as an event takes at least on its way into the part, and no later than the
/// moment after the end.
pub fn round_bound(first: Moment, end: Moment, way: u64) -> Moment
    requires { end < 2 ^ 63 }
    ensures { result ≡ min (first + way) (end + 1) }
{
    let last = end.ticks() + 1;
    Moment(first.ticks().saturating_add(way).min(last))
}
