//! The result of the lookahead's computation: how long a message needs at least from one part to another, or back to
//! it.
ghost use Rattle.std.specs.Prelude.{◌≡◌, ℕ, ◌<◌, ◌≤◌, IfSome, IfNone};
ghost use Rattle.scenario.specs.Setup.{Setup};
ghost use Rattle.windows.specs.Cluster.{IsPeopled};
ghost use Rattle.windows.specs.Horizon.{Walk};
ghost use Rattle.lookahead.specs.Walks.{AreWalksOf, IsLengthOfAWalk, IsNoLonger};

use crate::lengths::Lengths;
use std::marker::Model;

/// How long the least walk of links is from each part of a division to each.
#[derive(Drop)]
pub struct Horizons {
    pub(crate) parts: usize,
    pub(crate) lengths: Lengths,
}

impl Model for Horizons {
    ghost use Rattle.std.specs.Prelude.{◌≤◌};
    ghost use Rattle.lookahead.specs.Walks.{Table};
    ghost use Rattle.lookahead.specs.TableOf.{table_of};

    ghost Value = { Table };

    ghost view = { table_of };

    ghost invariant = { λ h. h.parts ≤ 64 };
}

impl Horizons {
    /// How many parts there are.
    pub fn parts(&self) -> usize
        ensures value { result ≡ self.now.parts }
        ensures at_most_64 { result ≤ 64 }
    {
        self.parts
    }

    /// The length of the least walk from one part to another, or back to it, in ticks: what a
    /// message needs at least that goes from a member of the one to a member of the other, handed
    /// on by members of any other parts. None where there is no walk: where one of the two has no
    /// members, or only one part has. Takes no memory.
    pub fn walk(&self, from: usize, to: usize) -> Option<u64>
        requires from { from < self.now.parts }
        requires to { to < self.now.parts }
        ensures walked { (s : Setup) (division : ℕ → ℕ) (between : ℕ → ℕ → ℕ) → AreWalksOf self.now s division between
            → IfSome result (IsLengthOfAWalk (IsPeopled s division) between from to) }
        ensures least { (s : Setup) (division : ℕ → ℕ) (between : ℕ → ℕ → ℕ) → AreWalksOf self.now s division between
            → IfSome result (IsNoLonger (IsPeopled s division) between from to) }
        ensures none { (s : Setup) (division : ℕ → ℕ) (between : ℕ → ℕ → ℕ) → AreWalksOf self.now s division between
            → IfNone result (¬ (Walk (IsPeopled s division) from to)) }
    {
        self.lengths.at(from, to)
    }
}
