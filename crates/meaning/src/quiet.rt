//! What a quiet run costs, in which nothing is lost and nobody crashes, leaves or pauses: its messages,
//! the rows of its trace and their bytes.
ghost use Rattle.std.specs.Prelude.{◌≡◌, ◌+◌, ◌*◌, ◌/◌, ◌<◌, ◌≤◌, ◌^◌};
ghost use Rattle.scenario.specs.Setup.{member_count};
ghost use Rattle.meaning.specs.Pushes.{half_push, pushes_in};
ghost use Rattle.meaning.specs.Quiet.{quiet_of, quiet_messages, first_period, periods_by, pushes_of, messages_of, messages_below, starts_of, starts_below, name_bytes, names_below, messages_an_exchange, row_bytes};

use crate::pushes::{half_push, pushes_in};
use base::MemberId;
use scenario::Scenario;

/// What a run costs in which nothing is lost and nobody crashes, leaves or pauses.
#[derive(Clone, Copy, Debug, PartialEq, Eq)]
pub struct Quiet {
    /// How many messages all members send in a period.
    pub messages_a_period: u64,
    /// How many they send in a thousand ticks, a second where a tick is a millisecond.
    pub messages_a_second: u64,
    /// How many messages they send up to the end: about as many where chance decides when periods begin.
    pub messages: u64,
    /// How many rows the trace has, with that.
    pub rows: u64,
    /// About how many bytes it has.
    pub bytes: u64,
}

/// What a quiet run of the scenario costs.
pub fn cost_of_quiet(scenario: &Scenario) -> Quiet
    ensures { result ≡ quiet_of scenario.now }
{
    let members = scenario.members() as u64;
    let each = messages_an_exchange(scenario);
    let period = scenario.period();
    let starts = starts(scenario);
    let messages = messages(scenario, starts);
    let rows = starts + messages;
    Quiet {
        messages_a_period: each * members + each * pushes_in(scenario, members * period),
        messages_a_second: each * members * 1_000 / period
            + each * pushes_in(scenario, members * 1_000),
        messages,
        rows,
        bytes: rows * row_bytes(scenario),
    }
}

/// How many messages a probe takes that is answered at once, and a push.
fn messages_an_exchange(scenario: &Scenario) -> u64
    ensures value { result ≡ messages_an_exchange scenario.now }
    ensures at_most_2 { result ≤ 2 }
{
    if scenario.members() > 1 { 2 } else { 0 }
}

/// How many messages all members send up to the end, of whom so many start by then.
fn messages(scenario: &Scenario, starts: u64) -> u64
    requires { starts ≡ starts_below scenario.now (member_count scenario.now) }
    ensures value { result ≡ quiet_messages scenario.now }
    ensures few { result ≤ 2 ^ 56 + 2 ^ 15 }
{
    if starts <= 1 {
        0
    } else {
        messages_of_all(scenario)
    }
}

/// How many messages the probes and pushes of all members take.
fn messages_of_all(scenario: &Scenario) -> u64
    ensures value { result ≡ messages_below scenario.now (member_count scenario.now) }
    ensures few { result ≤ 2 ^ 56 + 2 ^ 15 }
{
    let mut sum = 0;
    for member in 0..scenario.members() {
        sum += messages_of(scenario, MemberId(member as u16));
    }
    sum
}

/// How many messages a member's probes and pushes take: pings and their acks, pushes and pulls.
fn messages_of(scenario: &Scenario, member: MemberId) -> u64
    requires { member < member_count scenario.now }
    ensures value { result ≡ messages_of scenario.now member }
    ensures few { result ≤ 2 ^ 42 + 2 }
{
    let end = scenario.end().ticks();
    let answered = end.saturating_sub(scenario.link().delay);
    let pings = periods_by(scenario, member, end);
    let acks = periods_by(scenario, member, answered);
    pings + acks + 2 * pushes_of(scenario, member)
}

/// How many periods of a member have begun by a moment.
fn periods_by(scenario: &Scenario, member: MemberId, by: u64) -> u64
    requires { member < member_count scenario.now }
    ensures value { result ≡ periods_by scenario.now member by }
    ensures few { result ≤ by + 1 }
{
    let first = first_period(scenario, member);
    if first <= by {
        (by - first) / scenario.period() + 1
    } else {
        0
    }
}

/// When a member's first period begins, midway between the first and the last moment that chance may pick.
fn first_period(scenario: &Scenario, member: MemberId) -> u64
    requires { member < member_count scenario.now }
    ensures value { result ≡ first_period scenario.now member }
    ensures small { result ≤ 2 ^ 41 }
{
    let start = scenario.start(member).ticks();
    start + (scenario.swim().spread + 1) / 2
}

/// How many pushes of a member begin up to the end.
fn pushes_of(scenario: &Scenario, member: MemberId) -> u64
    requires { member < member_count scenario.now }
    ensures value { result ≡ pushes_of scenario.now member }
    ensures few { result ≤ 2 ^ 40 }
{
    let from = first_period(scenario, member) + half_push(scenario);
    let end = scenario.end().ticks();
    pushes_in(scenario, end.saturating_sub(from))
}

/// How many members start by the end.
fn starts(scenario: &Scenario) -> u64
    ensures value { result ≡ starts_below scenario.now (member_count scenario.now) }
    ensures few { result ≤ member_count scenario.now }
{
    let mut sum = 0;
    for member in 0..scenario.members() {
        sum += starts_of(scenario, MemberId(member as u16));
    }
    sum
}

/// 1 for a member that starts by the end, else 0.
fn starts_of(scenario: &Scenario, member: MemberId) -> u64
    requires { member < member_count scenario.now }
    ensures value { result ≡ starts_of scenario.now member }
    ensures few { result ≤ 1 }
{
    if scenario.start(member).ticks() <= scenario.end().ticks() {
        1
    } else {
        0
    }
}

/// About how many bytes a row of the trace has.
fn row_bytes(scenario: &Scenario) -> u64
    ensures value { result ≡ row_bytes scenario.now }
    ensures few { result ≤ 138 }
{
    24 + 3 * average_name(scenario)
}

/// How many bytes a member's name has on the average, rounded down.
fn average_name(scenario: &Scenario) -> u64
    ensures value { result ≡ names_below scenario.now (member_count scenario.now) / member_count scenario.now }
    ensures few { result ≤ 38 }
{
    let names = name_bytes(scenario);
    names / scenario.members() as u64
}

/// How many bytes the names of all members have together.
fn name_bytes(scenario: &Scenario) -> u64
    ensures value { result ≡ names_below scenario.now (member_count scenario.now) }
    ensures few { result ≤ 38 * member_count scenario.now }
{
    let mut sum = 0;
    for member in 0..scenario.members() {
        sum += scenario.name(MemberId(member as u16)).len().min(38) as u64;
    }
    sum
}
