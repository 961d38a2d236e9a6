//! The settings that no other beats.
ghost use Rattle.std.specs.Prelude.{◌≡◌, not};
ghost use Rattle.std.specs.List.{list_any};
ghost use Rattle.goals.specs.Front.{beats, cost, costs_no_more, has_crash, is_no_more_often, is_on_front, no_later};

use crate::statistic::ticks;
use figures::SettingSummary;

/// Whether no setting of all beats this one: none is at most as great in both the median time until a crash was confirmed and
/// the share of runs with a false death, and less in one of them. Where no run has a crash, the number of
/// messages takes the place of that time. Takes two steps for each setting.
pub fn is_on_front(setting: &SettingSummary, all: &[SettingSummary]) -> bool
    ensures { result ≡ is_on_front setting.now all.now }
{
    !is_beaten(has_crash(all), setting, all)
}

/// Whether some run of these settings has a crash.
pub fn has_crash(all: &[SettingSummary]) -> bool
    ensures { result ≡ has_crash all.now }
{
    all.iter().any(|setting| setting.crashes > 0)
}

/// Whether some setting of all beats this one.
fn is_beaten(crashed: bool, setting: &SettingSummary, all: &[SettingSummary]) -> bool
    ensures { result ≡ list_any (λ other. beats crashed other setting.now) all.now }
{
    all.iter().any(|other| beats(crashed, other, setting))
}

/// Whether the first beats the second.
fn beats(crashed: bool, first: &SettingSummary, second: &SettingSummary) -> bool
    ensures { result ≡ beats crashed first.now second.now }
{
    costs_no_more(crashed, first, second)
        && is_no_more_often(first, second)
        && (!costs_no_more(crashed, second, first) || !is_no_more_often(second, first))
}

/// Whether the first costs no more than the second: time until a crash was confirmed, or messages where no run has one.
fn costs_no_more(crashed: bool, first: &SettingSummary, second: &SettingSummary) -> bool
    ensures { result ≡ costs_no_more crashed first.now second.now }
{
    no_later(cost(crashed, first), cost(crashed, second))
}

/// What a setting costs: the median time until a crash was confirmed, or its messages where no run has a crash.
fn cost(crashed: bool, setting: &SettingSummary) -> Option<u128>
    ensures { result ≡ cost crashed setting.now }
{
    if crashed {
        ticks(setting.confirm_p50)
    } else {
        setting.messages
    }
}

/// Whether a time or a number of messages is no greater than another; none is greater than any.
pub(crate) fn no_later(first: Option<u128>, second: Option<u128>) -> bool
    ensures { result ≡ no_later first second }
{
    match first {
        Some(time) => match second {
            Some(other) => time <= other,
            None => true,
        },
        None => second.is_none(),
    }
}

/// Whether no greater a share of the runs of the first has a false death.
pub(crate) fn is_no_more_often(first: &SettingSummary, second: &SettingSummary) -> bool
    ensures { result ≡ is_no_more_often first.now second.now }
{
    u128::from(first.runs_with) * u128::from(second.runs)
        <= u128::from(second.runs_with) * u128::from(first.runs)
}
