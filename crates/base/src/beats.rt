//! When a member's period or gossip timer is due next: a whole number of intervals after its beat (memberlist's
//! rules).
ghost use Rattle.std.specs.Prelude.{◌≡◌, ◌+◌, ◌^◌, ◌<◌, ◌≤◌};
ghost use Rattle.base.specs.Beats.{next_in_step, IsNextInStep};

use crate::key::Moment;

/// The first moment later than `now` that is a whole number of intervals from `beat`: when a timer
/// that keeps its beat is due next. `interval` is in ticks.
pub fn next_in_step(beat: u64, interval: u64, now: Moment) -> Moment
    requires some { 1 ≤ interval }
    requires short { interval ≤ 2 ^ 24 }
    requires early { now < 2 ^ 42 }
    ensures value { result ≡ next_in_step beat interval now }
    ensures least { IsNextInStep beat interval now result }
    ensures soon { result ≤ now + interval }
{
    let after = now.ticks() + interval;
    Moment(after - (after - beat % interval) % interval)
}
