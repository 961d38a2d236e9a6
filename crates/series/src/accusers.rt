//! Members that accuse another one on their own evidence.
ghost use Rattle.std.specs.Prelude.{◌≡◌, ℕ, ◌<◌, ◌^◌, ◌++◌, ◌∷◌, [], List, Some, None, slice_get};

use crate::answers::Answers;
use crate::lines::TraceLine;
use base::MemberId;

/// The most accusers that are kept.
const KEPT: u64 = 4;

/// A probe, as the ping that begins it reports it.
#[derive(Clone, Copy, Debug, PartialEq, Eq)]
pub struct ProbeStory {
    /// The row of the ping.
    pub ping: TraceLine,
    /// Whether it was lost.
    pub lost: bool,
    /// The member that it probes.
    pub target: Option<MemberId>,
    /// Its sequence number, which its requests and answers bear too.
    pub sequence: u64,
}

/// A row by which a member suspects or accuses another, since its own probe of it failed.
#[derive(Clone, Copy, Debug, PartialEq, Eq)]
pub struct Accusation {
    /// The row of the claim.
    pub claim: TraceLine,
    /// The probe that failed.
    pub probe: Option<ProbeStory>,
    /// What came of it by then.
    pub answers: Answers,
}

/// The first accusations of a list, and how many there are.
#[derive(Clone, Copy)]
pub struct Accusers {
    /// How many accusations there are.
    count: u64,
    /// The first of them, in their order.
    first: [Option<Accusation>; 4],
}

impl Accusers {
    ghost use Rattle.series.specs.Accusers.{AreAccusers};
    ghost use Rattle.series.specs.declared.accusers.Accusation.{Accusation as AnAccusation};

    /// Those of an empty list.
    pub(crate) fn new() -> Accusers
        ensures { AreAccusers result [] }
    {
        Accusers {
            count: 0,
            first: [None; 4],
        }
    }

    /// Adds an accusation.
    pub(crate) fn add(&mut self, accusation: Accusation)
        requires few { self.old.count < 2 ^ 63 }
        ensures { (list : List AnAccusation) → AreAccusers self.old list → AreAccusers self.new (list ++ accusation ∷ []) }
    {
        if self.count < KEPT {
            self.first[self.count as usize] = Some(accusation);
        }
        self.count += 1;
    }

    /// How many accusations there are.
    pub fn count(&self) -> u64
        ensures { result ≡ self.now.count }
    {
        self.count
    }

    /// The accusation at a place, if it is one of those that are kept.
    pub fn at(&self, place: usize) -> Option<Accusation>
        requires place { place < 4 }
        ensures { (list : List AnAccusation) → AreAccusers self.now list → result ≡ slice_get list place }
    {
        self.first[place]
    }
}
