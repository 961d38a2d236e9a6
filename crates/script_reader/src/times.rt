//! When the items of a list are.
ghost use Rattle.std.specs.Prelude.{◌≡◌, ◌≤◌, ◌^◌, sum_by};
ghost use Rattle.plain_entries.specs.Departures.{IsDepartureTime};
ghost use Rattle.plain_entries.specs.Restarts.{IsRestartTime};
ghost use Rattle.script_draws.specs.Again.{IsRecurrence};
ghost use Rattle.written_entries.specs.Ranges.{IsSpellRange};
ghost use Rattle.script_reader.specs.Numbers.{AreWithin};
ghost use Rattle.script_reader.specs.Rules.{item_of};
ghost use Rattle.script_reader.specs.Times.{back_of, departure_of, lasting_of, recurrence_of, restart_of, spell_of};

use crate::item::WrittenItem;
use crate::numbers::{EntryNumbers, number_or};
use crate::who::contact_of;
use base::{MemberId, Moment};
use plain_entries::{Back, DepartureTime, RestartTime, SpellTime};
use scenario::Spell;
use script_draws::{Lasting, Recurrence};
use written_names::Roster;
use written_values::ValueFault;

/// When members crash or leave.
pub(crate) fn departure_of(roster: &Roster, it: &WrittenItem) -> DepartureTime
    requires few { sum_by (λ g. g.count) roster.now ≤ 16384 }
    requires within { AreWithin it.now.numbers }
    ensures time { result ≡ departure_of roster.now (item_of it.now) it.now.numbers }
    ensures sound { IsDepartureTime result }
{
    let numbers = it.numbers;
    let contact = contact_of(roster, it.item);
    if numbers.every.is_some() {
        DepartureTime::Again {
            recurrence: recurrence_of(numbers),
            back: Back {
                after: number_or(1, numbers.back),
                contact,
            },
        }
    } else {
        DepartureTime::Once {
            at: Moment(number_or(0, numbers.at)),
            each: number_or(0, numbers.each),
            back: back_of(numbers.back, contact),
        }
    }
}

/// That one starts again, where the item says when.
fn back_of(after: Option<Result<u64, ValueFault>>, contact: Option<MemberId>) -> Option<Back>
    ensures { result ≡ back_of after contact }
{
    match after {
        Some(Ok(after)) => Some(Back { after, contact }),
        Some(Err(_)) => None,
        None => None,
    }
}

/// When members' processes start again.
pub(crate) fn restart_of(roster: &Roster, it: &WrittenItem) -> RestartTime
    requires few { sum_by (λ g. g.count) roster.now ≤ 16384 }
    requires within { AreWithin it.now.numbers }
    ensures time { result ≡ restart_of roster.now (item_of it.now) it.now.numbers }
    ensures sound { IsRestartTime result }
{
    RestartTime {
        at: Moment(number_or(0, it.numbers.at)),
        each: number_or(0, it.numbers.each),
        contact: contact_of(roster, it.item),
    }
}

/// When members are slow, paused or blocked.
pub(crate) fn spell_of(numbers: EntryNumbers) -> SpellTime
    requires { AreWithin numbers }
    ensures time { result ≡ spell_of numbers }
    ensures sound { IsSpellRange result }
{
    if numbers.every.is_some() {
        SpellTime::Again {
            recurrence: recurrence_of(numbers),
            lasting: lasting_of(numbers),
        }
    } else {
        SpellTime::Once {
            spell: Spell {
                from: number_or(0, numbers.from),
                until: number_or(0, numbers.until),
            },
        }
    }
}

/// In which time something comes again and again, and how often.
fn recurrence_of(numbers: EntryNumbers) -> Recurrence
    requires { AreWithin numbers }
    ensures recurrence { result ≡ recurrence_of numbers }
    ensures sound { IsRecurrence result }
{
    Recurrence {
        from: number_or(0, numbers.from),
        until: number_or(0, numbers.until),
        every: number_or(1, numbers.every) as u32,
    }
}

/// How long each lasts.
fn lasting_of(numbers: EntryNumbers) -> Lasting
    requires { AreWithin numbers }
    ensures lasting { result ≡ lasting_of numbers }
    ensures some { 1 ≤ result.least }
    ensures low { result.most ≤ 2 ^ 31 }
{
    let least = number_or(1, numbers.lasts);
    Lasting {
        least: least as u32,
        most: number_or(least, numbers.lasts_most) as u32,
    }
}
