//! How much work a run is.
ghost use Rattle.std.specs.Prelude.{◌≤◌};

use scenario::Scenario;
use schema::FormatKey;
use sweep_plan::SetKey;

/// Some work, about a second of it.
pub const SECOND_OF_WORK: u64 = 1_000_000;

/// How many members a cluster has, about, where a member's period is twice as much work as in the least one: each hears of all
/// others.
const MEMBERS_OF_TWICE: u64 = 32;

/// How many messages a member gossips in a period, about, where that is twice as much work as without gossip.
const MESSAGES_OF_TWICE: u64 = 4;

/// How much work a run of this scenario is, about, so that lines of runs can be written often: the periods of all its members,
/// each counted the more, the more members there are to hear of and the more messages are gossiped in it. A run in which
/// messages are lost is so much work, one in which none are is less.
pub fn work_of(scenario: &Scenario) -> u64
    ensures { 1 ≤ result }
{
    let members = scenario.members() as u64;
    let periods = scenario.end().ticks() / scenario.period().max(1);
    let of_members = MEMBERS_OF_TWICE.saturating_add(members);
    let of_messages = MESSAGES_OF_TWICE.saturating_add(gossiped(scenario));
    let all = periods
        .saturating_mul(members)
        .saturating_mul(of_members)
        .saturating_mul(of_messages);
    (all / (MEMBERS_OF_TWICE * MESSAGES_OF_TWICE)).max(1)
}

/// How many messages a member gossips in a period.
fn gossiped(scenario: &Scenario) -> u64 {
    match scenario.gossip() {
        Some(gossip) => (scenario.period() / gossip.interval.max(1)).saturating_mul(gossip.nodes),
        None => 0,
    }
}

/// Whether a key changes how much work a run is.
pub(crate) fn changes_work(key: SetKey) -> bool {
    match key {
        SetKey::Plain(key) => is_of_size(key),
        _ => false,
    }
}

/// Whether it is a key of how many members there are, how long a run is, or how often they send.
fn is_of_size(key: FormatKey) -> bool {
    matches!(
        key,
        FormatKey::Count
            | FormatKey::Period
            | FormatKey::End
            | FormatKey::Interval
            | FormatKey::Nodes
    )
}
