//! The two numbers that a warning compares, taken from the scenario and its greatest round trip.
ghost use Rattle.std.specs.Prelude.{◌≡◌, ◌≤◌, ◌^◌};
ghost use Rattle.meaning_text.specs.Numbers.{compared, numbers_of, crash_at, slow_from, slow_extra, leave_at, cut_at, pause_from, pause_length};

use base::MemberId;
use meaning::{item_at, least_suspicion};
use scenario::Scenario;
use warnings::Warning;

/// Two numbers of which a warning says that they don't go together.
#[derive(Clone, Copy, Debug, PartialEq, Eq)]
pub(crate) struct Pair {
    pub(crate) left: u128,
    pub(crate) right: u128,
}

/// Two numbers that are compared.
fn compared(left: u128, right: u64) -> Option<Pair>
    ensures { result ≡ compared left right }
{
    Some(Pair {
        left,
        right: u128::from(right),
    })
}

/// The two numbers that a warning compares, if it does.
#[tactic(auto, unfolding(crate::specs::Numbers::numbers_of))]
pub(crate) fn numbers_of(warning: Warning, scenario: &Scenario, trip: u64) -> Option<Pair>
    ensures { result ≡ numbers_of scenario.now trip warning }
{
    let swim = scenario.swim();
    let end = scenario.end().ticks();
    let trip = u128::from(trip);
    match warning {
        Warning::LateAnswer => compared(trip, swim.timeout),
        Warning::LateRelay => compared(u128::from(swim.timeout) + 2 * trip, swim.period),
        Warning::EarlyEnd => compared(u128::from(1 + swim.period + least_suspicion(scenario)), end),
        Warning::FewAccusers => compared(
            (scenario.members() as u128).saturating_sub(2),
            scenario.lifeguard().confirmations,
        ),
        Warning::ManyHelpers => compared(
            u128::from(swim.helpers),
            (scenario.members() as u64).saturating_sub(2),
        ),
        Warning::LongSpread => compared(u128::from(swim.spread), end),
        Warning::SlowPastEnd(place) => compared(u128::from(slow_from(scenario, place)), end),
        Warning::SlowAnswer(place) => compared(
            trip + 2 * u128::from(slow_extra(scenario, place)),
            swim.timeout,
        ),
        Warning::CrashPastEnd(member) => compared(u128::from(crash_at(scenario, member)), end),
        Warning::CrashUnconfirmed(member) => compared(
            u128::from(crash_at(scenario, member) + least_suspicion(scenario)),
            end,
        ),
        Warning::LeavePastEnd(place) => compared(u128::from(leave_at(scenario, place)), end),
        Warning::CutPastEnd(place) => compared(u128::from(cut_at(scenario, place)), end),
        Warning::PausePastEnd(place) => compared(u128::from(pause_from(scenario, place)), end),
        Warning::LongPause(place) => compared(
            u128::from(pause_length(scenario, place)),
            least_suspicion(scenario),
        ),
        Warning::OddConfirmations => compared(
            u128::from(scenario.lifeguard().confirmations),
            scenario.suspicion().alpha.saturating_sub(2),
        ),
        Warning::NoGossip => None,
        Warning::QuietRun => None,
        Warning::LostOnLink => None,
        Warning::PartOfLifeguard => None,
        Warning::HiddenPath(_) => None,
        Warning::LonelyPath(_) => None,
        Warning::LostOnPath(_) => None,
        Warning::SlowWhileDown(_) => None,
        Warning::PauseWhileDown(_) => None,
    }
}

/// When the slow time at this place begins.
fn slow_from(scenario: &Scenario, place: usize) -> u64
    ensures { result ≡ slow_from scenario.now place }
{
    match item_at(scenario.slows(), place) {
        Some(slow) => slow.from.ticks(),
        None => 0,
    }
}

/// By how much the slow time at this place makes slow.
fn slow_extra(scenario: &Scenario, place: usize) -> u64
    ensures { result ≡ slow_extra scenario.now place }
{
    match item_at(scenario.slows(), place) {
        Some(slow) => slow.extra,
        None => 0,
    }
}

/// When the member of this number crashes.
fn crash_at(scenario: &Scenario, member: usize) -> u64
    ensures value { result ≡ crash_at scenario.now member }
    ensures small { result ≤ 2 ^ 40 }
{
    if member < scenario.members() {
        match scenario.crash(MemberId(member as u16)) {
            Some(at) => at.ticks(),
            None => 0,
        }
    } else {
        0
    }
}

/// When the leave at this place is.
fn leave_at(scenario: &Scenario, place: usize) -> u64
    ensures { result ≡ leave_at scenario.now place }
{
    match item_at(scenario.leaves(), place) {
        Some(leave) => leave.at.ticks(),
        None => 0,
    }
}

/// When the cut at this place begins.
fn cut_at(scenario: &Scenario, place: usize) -> u64
    ensures { result ≡ cut_at scenario.now place }
{
    match item_at(scenario.cuts(), place) {
        Some(cut) => cut.at.ticks(),
        None => 0,
    }
}

/// When the pause at this place begins.
fn pause_from(scenario: &Scenario, place: usize) -> u64
    ensures { result ≡ pause_from scenario.now place }
{
    match item_at(scenario.pauses(), place) {
        Some(pause) => pause.from.ticks(),
        None => 0,
    }
}

/// How long the pause at this place lasts.
fn pause_length(scenario: &Scenario, place: usize) -> u64
    ensures { result ≡ pause_length scenario.now place }
{
    match item_at(scenario.pauses(), place) {
        Some(pause) => pause.until.ticks().saturating_sub(pause.from.ticks()),
        None => 0,
    }
}
