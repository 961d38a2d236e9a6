//! Which members get a lane, and in which order.
ghost use Rattle.std.specs.Prelude.{◌≡◌, take};

mod choosing;

pub use choosing::all_chosen;

/// The first so many of these, or all where they are fewer.
pub(crate) fn first_lanes(lanes: &[Chosen], most: usize) -> &[Chosen]
    ensures { result.now ≡ take most lanes.now }
{
    &lanes[..most.min(lanes.len())]
}

/// A member that gets a lane. Those come first that have the most false deaths, then those that
/// depart, in the order in which they do, then those that were suspected most often.
#[derive(Clone, Copy, Debug, PartialEq, Eq, PartialOrd, Ord)]
pub struct Chosen {
    /// How many below the most times it was wrongly confirmed to have failed.
    below_most: u64,
    /// When it departs; past all moments where it doesn't.
    departs: u64,
    /// How many below the most times it was suspected.
    below_most_suspected: u64,
    /// Its number.
    pub member: u16,
}

impl Chosen {
    ghost use Rattle.member_timelines.specs.Choice.{times_of};

    /// How often it was wrongly confirmed to have failed.
    pub fn wrongly(&self) -> u64
        ensures { result ≡ times_of self.now }
    {
        u64::MAX - self.below_most
    }
}
