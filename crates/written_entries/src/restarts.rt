//! Restarts that may not be.
ghost use Rattle.std.specs.Prelude.{◌≡◌, All, IfOk, is_some, length};
ghost use Rattle.std.specs.List.{list_any};
ghost use Rattle.plain_entries.specs.Entries.{start_in, IsEntry};
ghost use Rattle.plain_entries.specs.Restarts.{IsRestartTime};
ghost use Rattle.written_entries.specs.Bad.{is_bad_restart};

use crate::who::{asks_itself, is_bad_who, is_early};
use base::{Memory, Moment};
use plain_entries::{Entry, RestartTime};
use std::alloc::Global;

/// The place of the first restart of a list that rule 9 refuses. `starts` has each member's start, by its number.
///
/// # Errors
///
/// Memory was refused.
pub fn first_bad_restart(
    alloc: Global,
    starts: &[Moment],
    entries: &[Entry<RestartTime>],
) -> Result<Option<usize>, Memory>
    requires { All (IsEntry IsRestartTime (length starts.now)) entries.now }
    ensures { IfOk result (λ found. is_some found ≡ list_any (is_bad_restart (start_in starts.now)) entries.now) }
{
    for (place, entry) in entries.iter().enumerate() {
        if is_bad_restart(alloc, starts, entry)? {
            return Ok(Some(place));
        }
    }
    Ok(None)
}

/// Whether rule 9 refuses a restart.
fn is_bad_restart(
    alloc: Global,
    starts: &[Moment],
    entry: &Entry<RestartTime>,
) -> Result<bool, Memory>
    requires { IsEntry IsRestartTime (length starts.now) entry.now }
    ensures { IfOk result (λ bad. bad ≡ is_bad_restart (start_in starts.now) entry.now) }
{
    if is_bad_who(alloc, &entry.who)? {
        return Ok(true);
    }
    let members = entry.who.members.as_slice();
    let early = is_early(starts, entry.when.at, entry.when.each, members);
    Ok(early || asks_itself(entry.when.contact, members))
}
