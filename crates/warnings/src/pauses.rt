//! Warnings about pauses: past the end, of a member that is down, or longer than the least time that a suspicion lasts.
ghost use Rattle.std.specs.Prelude.{◌≡◌, ◌++◌, OnOk};
ghost use Rattle.meaning.specs.Each.{made_at, made_of_each};
ghost use Rattle.warnings.specs.Conditions.{is_pause_long};
ghost use Rattle.warnings.specs.Told.{told_of_pause};

use crate::list::push_if;
use crate::members::{are_several, is_down, is_past};
use crate::warning::Warning;
use base::Memory;
use meaning::{item_at, least_suspicion};
use scenario::{Pause, Scenario};

/// Appends the warnings about each pause.
pub(crate) fn push_pauses(told: &mut Vec<Warning>, scenario: &Scenario) -> Result<(), Memory>
    ensures { OnOk result (told.new.items ≡ told.old.items ++ made_of_each (told_of_pause scenario.now) scenario.now.pauses) }
{
    for place in 0..scenario.pauses().len() {
        push_pause(told, scenario, place)?;
    }
    Ok(())
}

/// Appends the warnings about the pause at this place.
#[tactic(auto, unfolding(crate::specs::Told::told_of_pause))]
fn push_pause(told: &mut Vec<Warning>, scenario: &Scenario, place: usize) -> Result<(), Memory>
    ensures { OnOk result (told.new.items
        ≡ told.old.items ++ made_at (told_of_pause scenario.now) scenario.now.pauses place) }
{
    let Some(pause) = item_at(scenario.pauses(), place) else {
        return Ok(());
    };
    let long = is_pause_long(scenario, &pause);
    push_if(
        told,
        is_past(scenario, pause.from),
        Warning::PausePastEnd(place),
    )?;
    push_if(
        told,
        is_down(scenario, pause.member, pause.from),
        Warning::PauseWhileDown(place),
    )?;
    push_if(told, long, Warning::LongPause(place))
}

/// Whether others may declare the member dead while it is paused.
fn is_pause_long(scenario: &Scenario, pause: &Pause) -> bool
    ensures { result ≡ is_pause_long scenario.now pause.now }
{
    let least = u128::from(least_suspicion(scenario));
    let from = u128::from(pause.from.ticks());
    are_several(scenario) && from + least < u128::from(pause.until.ticks())
}
