//! Warnings about slow times: past the end, of a member that is down, or so slow that its ack comes after the timeout.
ghost use Rattle.std.specs.Prelude.{◌≡◌, ◌++◌, ◌≤◌, ◌^◌, OnOk};
ghost use Rattle.warnings.specs.Conditions.{is_slow_answer_late};
ghost use Rattle.meaning.specs.Each.{made_at, made_of_each};
ghost use Rattle.warnings.specs.Told.{told_of_slow};

use crate::list::push_if;
use crate::members::{are_several, is_down, is_past};
use crate::warning::Warning;
use base::Memory;
use meaning::item_at;
use scenario::{Scenario, Slow};

/// Appends the warnings about each slow time.
pub(crate) fn push_slows(
    told: &mut Vec<Warning>,
    scenario: &Scenario,
    trip: u64,
) -> Result<(), Memory>
    requires { trip ≤ 2 ^ 22 }
    ensures { OnOk result (told.new.items ≡ told.old.items ++ made_of_each (told_of_slow scenario.now trip) scenario.now.slows) }
{
    for place in 0..scenario.slows().len() {
        push_slow(told, scenario, trip, place)?;
    }
    Ok(())
}

/// Appends the warnings about the slow time at this place.
#[tactic(auto, unfolding(crate::specs::Told::told_of_slow))]
fn push_slow(
    told: &mut Vec<Warning>,
    scenario: &Scenario,
    trip: u64,
    place: usize,
) -> Result<(), Memory>
    requires { trip ≤ 2 ^ 22 }
    ensures { OnOk result (told.new.items
        ≡ told.old.items ++ made_at (told_of_slow scenario.now trip) scenario.now.slows place) }
{
    let Some(slow) = item_at(scenario.slows(), place) else {
        return Ok(());
    };
    let late = is_slow_answer_late(scenario, trip, &slow);
    push_if(
        told,
        is_past(scenario, slow.from),
        Warning::SlowPastEnd(place),
    )?;
    push_if(
        told,
        is_down(scenario, slow.member, slow.from),
        Warning::SlowWhileDown(place),
    )?;
    push_if(told, late, Warning::SlowAnswer(place))
}

/// Whether an answer can come after the timeout while the member is slow.
fn is_slow_answer_late(scenario: &Scenario, trip: u64, slow: &Slow) -> bool
    ensures { result ≡ is_slow_answer_late scenario.now trip slow.now }
{
    let added = u128::from(slow.extra) * 2;
    are_several(scenario) && u128::from(trip) + added > u128::from(scenario.swim().timeout)
}
