//! Runs so small that one worker makes them in less time than several.
ghost use Rattle.std.specs.Prelude.{◌≡◌, ◌≤◌, ◌↔◌, IsTrue, length};
ghost use Rattle.scenario.specs.Setup.{member_count};
ghost use Rattle.partitioning.specs.Small.{IsSmall, IsUnasked, worth_ticks};

use crate::hands::workers_of;
use base::MemberId;
use scenario::{Division, Scenario, Workers};

/// How many periods of members are worth several threads: with fewer, these cost more time than they save
/// (docs/PERFORMANCE.md). A period counts the more, the more members there are to hear of.
const PERIODS_WORTH_THREADS: u64 = 65_536;

/// With so many members more a period counts once more.
const MEMBERS_OF_ONCE_MORE: u64 = 32;

/// How many of these workers pay: one where so little is likely to happen that several threads cost more time
/// than they save, unless another division was asked for than that of the members in turn, in a part for each
/// worker; else all.
pub fn paying_workers(scenario: &Scenario, division: &Division, workers: Workers) -> Workers
    requires divides { length division.now.part_of ≡ member_count scenario.now }
    ensures few { result ≤ workers }

    // Another division that was asked for is run by all workers, and so is a run that isn't small.
    ensures asked { ¬ (IsUnasked scenario.now workers division.now) → result ≡ workers }
    ensures worth { ¬ (IsSmall scenario.now) → result ≡ workers }

    // Any other run is made by one alone.
    ensures alone { IsUnasked scenario.now workers division.now → IsSmall scenario.now → result ≡ 1 }
{
    if is_small(scenario) && is_unasked(scenario, division, workers.count()) {
        workers_of(1)
    } else {
        workers
    }
}

/// Whether the run ends before several threads are worth it.
fn is_small(scenario: &Scenario) -> bool
    ensures { IsTrue result ↔ IsSmall scenario.now }
{
    scenario.end().ticks() < worth_ticks(scenario)
}

/// In how many ticks so much is likely to happen that several threads are worth it.
fn worth_ticks(scenario: &Scenario) -> u64
    ensures { result ≡ worth_ticks scenario.now }
{
    let members = scenario.members() as u64;
    PERIODS_WORTH_THREADS * scenario.period() / members / (1 + members / MEMBERS_OF_ONCE_MORE)
}

/// Whether the members are in turn in so many parts.
fn is_unasked(scenario: &Scenario, division: &Division, workers: usize) -> bool
    requires divides { length division.now.part_of ≡ member_count scenario.now }
    requires some { 1 ≤ workers }
    ensures { IsTrue result ↔ IsUnasked scenario.now workers division.now }
{
    if division.parts() != workers {
        return false;
    }
    for member in 0..scenario.members() {
        if division.part(MemberId(member as u16)) != member % workers {
            return false;
        }
    }
    true
}
