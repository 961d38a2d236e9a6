//! How often crashes and leaves come before the starts of their members, where they aren't made.
ghost use Rattle.std.specs.Prelude.{◌≡◌, ◌≤◌, ◌<◌, ◌+◌, ◌*◌, ◌^◌, All, length};
ghost use Rattle.std.specs.List.{sum_by};
ghost use Rattle.plain_entries.specs.Departures.{IsDepartureTime};
ghost use Rattle.plain_entries.specs.Entries.{start_in, IsEntry};
ghost use Rattle.plain_entries.specs.Script.{IsScript};
ghost use Rattle.expansion.specs.Turns.{comes_too_often, turns_before, turns_of_entry};

use base::{MemberId, Moment};
use plain_entries::{DepartureTime, Entry, Script};

/// The most turns before the starts of members, 2^28.
const MOST_TURNS: u128 = 0x1000_0000;

/// Whether crashes and leaves come too often before the starts of their members. `starts` has each member's start.
#[tactic(auto, unfolding(crate::specs::Turns::comes_too_often))]
pub(crate) fn comes_too_often(starts: &[Moment], script: &Script) -> bool
    requires { IsScript (length starts.now) script.now }
    ensures { result ≡ comes_too_often (start_in starts.now) script.now }
{
    let crashes = turns_of_list(starts, script.crashes.as_slice());
    let leaves = turns_of_list(starts, script.leaves.as_slice());
    crashes + leaves > MOST_TURNS
}

/// The turns of a list.
fn turns_of_list(starts: &[Moment], entries: &[Entry<DepartureTime>]) -> u128
    requires { All (IsEntry IsDepartureTime (length starts.now)) entries.now }
    ensures sum { result ≡ sum_by (turns_of_entry (start_in starts.now)) entries.now }
    ensures low { result < 2 ^ 120 }
{
    let mut turns = 0;
    for entry in entries {
        turns += u128::from(turns_of_entry(starts, &entry.when, entry.who.members.as_slice()));
    }
    turns
}

/// The turns of these members.
fn turns_of_entry(starts: &[Moment], when: &DepartureTime, members: &[MemberId]) -> u64
    requires few { length members.now ≤ 16384 }
    requires known { All (λ member. member < length starts.now) members.now }
    requires sound { IsDepartureTime when.now }
    ensures sum { result ≡ sum_by (λ member. turns_before when.now (start_in starts.now member)) members.now }
    ensures low { result ≤ 2 ^ 54 }
{
    let mut turns = 0;
    for member in members {
        turns += turns_before(when, starts[member.index()]);
    }
    turns
}

/// The turns of one member, on the mean.
fn turns_before(when: &DepartureTime, start: Moment) -> u64
    requires { IsDepartureTime when.now }
    ensures turns { result ≡ turns_before when.now start }
    ensures low { result ≤ 2 ^ 40 }
{
    match *when {
        DepartureTime::Once { .. } => 0,
        DepartureTime::Again { recurrence, back } => {
            let last = start.ticks().min(recurrence.until);
            last.saturating_sub(recurrence.from) / (back.after + u64::from(recurrence.every))
        }
    }
}
