//! Moments, members' numbers, and the key by which the events of a run are put in order.
ghost use Rattle.std.specs.Prelude.{◌≡◌, ℕ};

use std::marker::Model;

/// A moment or a length of time, in ticks, the simulation's own unit.
#[derive(Clone, Copy, Debug, PartialEq, Eq, PartialOrd, Ord, Hash)]
pub struct Moment(pub u64);

impl Model for Moment {
    ghost Value = { ℕ };

    ghost view = { λ moment. moment.0 };

    ghost inverse = { λ ticks. record { 0 = ticks } };
}

impl Moment {
    /// The ticks since the beginning.
    pub fn ticks(self) -> u64
        ensures { result ≡ self }
    {
        self.0
    }
}

/// A member of the cluster, by its number: 0 for the first of the first group.
#[derive(Clone, Copy, Debug, PartialEq, Eq, PartialOrd, Ord, Hash)]
pub struct MemberId(pub u16);

impl Model for MemberId {
    ghost Value = { ℕ };

    ghost view = { λ member. member.0 };

    ghost inverse = { λ number. record { 0 = number } };
}

impl MemberId {
    /// The number as an index.
    pub fn index(self) -> usize
        ensures { result ≡ self }
    {
        usize::from(self.0)
    }
}

/// The key of an event: the moment at which it is handled, the member that handles it, the member
/// that made it, and that member's number for it. Events are handled in the order of their keys.
#[derive(Clone, Copy, Debug, PartialEq, Eq, PartialOrd, Ord, Hash)]
pub struct Key {
    pub at: Moment,
    pub to: MemberId,
    pub from: MemberId,
    pub number: u64,
}
