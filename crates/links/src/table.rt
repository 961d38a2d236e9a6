//! The table of a scenario's links, from which the way of a message between two members is looked up without memory.
ghost use Rattle.std.specs.Prelude.{◌≡◌, ℕ, ◌≤◌, ◌^◌, false};
ghost use Rattle.scenario.specs.Setup.{IsSoundLink};
ghost use Rattle.scenario.specs.Calendar.{may_be_in};
ghost use Rattle.scenario.specs.Spells.{is_in_any};
ghost use Rattle.links.specs.Entries.{link_of_pair, route, spans_in, extra_in, outages_in, pair_number};

use crate::routes::Routes;
use crate::spans::SlowTimes;
use scenario::{Calendar, Link, Spells};
use std::collections::BTreeMap;

/// How messages travel among the members of a scenario: by the link of their groups, unless it is
/// cut, and slower where the sender or the receiver is slow.
#[derive(Drop)]
pub struct Links {
    /// The number of each member's group.
    pub(crate) groups: Vec<usize>,
    /// The link of members whose groups no path names.
    pub(crate) link: Link,
    /// The link from one group to another, by the last path that names them.
    pub(crate) routes: Routes,
    /// The times in which each member is slow. Members past the last slow one have no place.
    pub(crate) spans: Vec<SlowTimes>,
    /// The times in which the link from one group to another is cut.
    pub(crate) outages: BTreeMap<(usize, usize), Spells>,
    /// At which moments each member may be slow.
    pub(crate) slow_calendar: Calendar,
    /// At which moments the link from one group to another may be cut, by the number of their pair.
    pub(crate) cut_calendar: Calendar,
    /// After how many ticks a call is begun again that was lost.
    pub(crate) connect: u64,
    /// After how many ticks is sent again what was lost of a stream.
    pub(crate) again: u64,
    ghost waits_sound: { (connect ≤ 2 ^ 24) × (again ≤ 2 ^ 24) },
    ghost links_sound: { (i j : ℕ) → IsSoundLink (link_of_pair groups.items link (route routes) i j) },
    ghost extras_sound: { (m t : ℕ) → extra_in (spans_in spans.items m) t ≤ 2 ^ 24 },
    ghost slows_noted: { (m t : ℕ) → may_be_in slow_calendar m t ≡ false → extra_in (spans_in spans.items m) t ≡ 0 },
    ghost cuts_noted: { (from to t : ℕ) → may_be_in cut_calendar (pair_number from to) t ≡ false → is_in_any (outages_in outages.entries from to) t ≡ false },
}
