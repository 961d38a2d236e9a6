//! Crashes and leaves that may not be.
ghost use Rattle.std.specs.Prelude.{◌≡◌, ◌≤◌, ◌<◌, All, IfOk, is_some, length};
ghost use Rattle.std.specs.List.{list_any};
ghost use Rattle.plain_entries.specs.Entries.{start_in, IsEntry};
ghost use Rattle.plain_entries.specs.Departures.{IsDepartureTime};
ghost use Rattle.written_entries.specs.Bad.{asks_nobody, is_bad_departure, is_bad_departure_time};

use crate::who::{asks_itself, is_bad_who, is_early};
use base::{MemberId, Memory, Moment};
use plain_entries::{Back, DepartureTime, Entry};
use std::alloc::Global;

/// The place of the first crash or leave of a list that rule 9 refuses. `starts` has each member's start, by its number.
///
/// # Errors
///
/// Memory was refused.
pub fn first_bad_departure(
    alloc: Global,
    starts: &[Moment],
    entries: &[Entry<DepartureTime>],
) -> Result<Option<usize>, Memory>
    requires { All (IsEntry IsDepartureTime (length starts.now)) entries.now }
    ensures { IfOk result (λ found. is_some found ≡ list_any (is_bad_departure (start_in starts.now) (length starts.now)) entries.now) }
{
    for (place, entry) in entries.iter().enumerate() {
        if is_bad_departure(alloc, starts, entry)? {
            return Ok(Some(place));
        }
    }
    Ok(None)
}

/// Whether rule 9 refuses a crash or leave.
fn is_bad_departure(
    alloc: Global,
    starts: &[Moment],
    entry: &Entry<DepartureTime>,
) -> Result<bool, Memory>
    requires { IsEntry IsDepartureTime (length starts.now) entry.now }
    ensures { IfOk result (λ bad. bad ≡ is_bad_departure (start_in starts.now) (length starts.now) entry.now) }
{
    if is_bad_who(alloc, &entry.who)? {
        Ok(true)
    } else {
        Ok(is_bad_departure_time(starts, entry.who.members.as_slice(), &entry.when))
    }
}

/// Whether these members may not go then.
fn is_bad_departure_time(starts: &[Moment], members: &[MemberId], when: &DepartureTime) -> bool
    requires few { length members.now ≤ 16384 }
    requires known { All (λ member. member < length starts.now) members.now }
    requires sound { IsDepartureTime when.now }
    ensures { result ≡ is_bad_departure_time (start_in starts.now) (length starts.now) members.now when.now }
{
    match *when {
        DepartureTime::Once { at, each, back } => {
            is_early(starts, at, each, members) || asks_nobody(starts.len(), back, members)
        }
        DepartureTime::Again { recurrence, back } => {
            recurrence.until <= recurrence.from || asks_nobody(starts.len(), Some(back), members)
        }
    }
}

/// Whether one of these is back and has nobody to ask but itself, of so many members.
fn asks_nobody(count: usize, back: Option<Back>, members: &[MemberId]) -> bool
    ensures { result ≡ asks_nobody count back members.now }
{
    match back {
        Some(back) => count <= 1 || asks_itself(back.contact, members),
        None => false,
    }
}
