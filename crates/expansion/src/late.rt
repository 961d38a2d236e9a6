//! Plain entries at moments that no text may name.
ghost use Rattle.std.specs.Prelude.{◌≡◌};
ghost use Rattle.std.specs.List.{list_any};
ghost use Rattle.plain_entries.specs.Script.{lists_of};
ghost use Rattle.expansion.specs.Late.{has_late, is_late_departure, is_late_restart};

use plain_entries::{Departure, Plain, PlainScript, Restart};

/// The last moment that a text may name.
const LAST_MOMENT: u64 = 0x100_0000_0000;

/// Whether a crash, leave or restart is past the last moment.
#[tactic(auto, unfolding(crate::specs::Late::has_late))]
pub(crate) fn has_late(plain: &PlainScript) -> bool
    ensures { result ≡ has_late (lists_of plain.now) }
{
    has_late_departure(plain.crashes.as_slice())
        || (has_late_departure(plain.leaves.as_slice())
            || has_late_restart(plain.restarts.as_slice()))
}

/// Whether one of these crashes or leaves is past it.
fn has_late_departure(entries: &[Plain<Departure>]) -> bool
    ensures { result ≡ list_any is_late_departure entries.now }
{
    entries.iter().any(|it| is_late_departure(it))
}

/// Whether a crash or leave is past it.
fn is_late_departure(it: &Plain<Departure>) -> bool
    ensures { result ≡ is_late_departure it.now }
{
    it.time.at.ticks() > LAST_MOMENT
}

/// Whether one of these restarts is past it.
fn has_late_restart(entries: &[Plain<Restart>]) -> bool
    ensures { result ≡ list_any is_late_restart entries.now }
{
    entries.iter().any(|it| is_late_restart(it))
}

/// Whether a restart is past it.
fn is_late_restart(it: &Plain<Restart>) -> bool
    ensures { result ≡ is_late_restart it.now }
{
    it.time.at.ticks() > LAST_MOMENT
}
