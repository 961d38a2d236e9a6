//! Shortest walks between all parts: each length is shortened by way of one other part until none gets shorter.
ghost use Rattle.std.specs.Prelude.{◌≡◌, ℕ, ◌<◌, ◌≤◌};
ghost use Rattle.std.specs.Bool.{OnTrue, OnFalse};
ghost use Rattle.scenario.specs.Setup.{Setup};
ghost use Rattle.lookahead.specs.Least.{IsLeastOf, sum_of, is_less};
ghost use Rattle.lookahead.specs.Lengths.{length_at, weight, IsSettledAt};
ghost use Rattle.lookahead.specs.Walks.{AreLengthsOfWalks};

use crate::least::{lesser_length, sum};
use crate::lengths::Lengths;
use base::limits::MOST_PARTS;

/// Makes each length from one of so many parts to another that of the least walk, given those of
/// one link. Where none can be made less by way of one part, none can be by way of several.
pub(crate) fn settle(lengths: &mut Lengths, parts: usize)
    requires { parts ≤ 64 }
    ensures walks { (s : Setup) (division : ℕ → ℕ) (between : ℕ → ℕ → ℕ)
        → AreLengthsOfWalks parts s division between lengths.old → AreLengthsOfWalks parts s division between lengths.new }
    ensures settled { (from to : ℕ) → from < parts → to < 64 → IsSettledAt parts lengths.new from to }
{
    while shorten_each(lengths, parts) {}
}

/// Makes each length that of the least way by one other part, where that is less. Whether one was.
fn shorten_each(lengths: &mut Lengths, parts: usize) -> bool
    requires { parts ≤ 64 }
    ensures walks { (s : Setup) (division : ℕ → ℕ) (between : ℕ → ℕ → ℕ)
        → AreLengthsOfWalks parts s division between lengths.old → AreLengthsOfWalks parts s division between lengths.new }
    ensures settled { OnFalse result ((from to : ℕ) → from < parts → to < 64 → IsSettledAt parts lengths.new from to) }
    ensures less { OnTrue result (weight lengths.new < weight lengths.old) }
{
    let mut shortened = false;
    for place in 0..parts * MOST_PARTS {
        if shorten(lengths, parts, place / MOST_PARTS, place % MOST_PARTS) {
            shortened = true;
        }
    }
    shortened
}

/// Makes the length from one part to another that of the least way by one other part, where that is
/// less. Whether it was.
fn shorten(lengths: &mut Lengths, parts: usize, from: usize, to: usize) -> bool
    requires parts { parts ≤ 64 }
    requires from { from < 64 }
    requires to { to < 64 }
    ensures walks { (s : Setup) (division : ℕ → ℕ) (between : ℕ → ℕ → ℕ)
        → AreLengthsOfWalks parts s division between lengths.old → AreLengthsOfWalks parts s division between lengths.new }
    ensures same { OnFalse result (lengths.new ≡ lengths.old) }
    ensures settled { OnFalse result (IsSettledAt parts lengths.old from to) }
    ensures less { OnTrue result (weight lengths.new < weight lengths.old) }
{
    let way = least_by_way(lengths, parts, from, to);
    if !is_less(way, lengths.at(from, to)) {
        return false;
    }
    lengths.put(from, to, way);
    true
}

/// The least length from one part to another by way of one part.
fn least_by_way(lengths: &Lengths, parts: usize, from: usize, to: usize) -> Option<u64>
    requires parts { parts ≤ 64 }
    requires from { from < 64 }
    requires to { to < 64 }
    ensures { IsLeastOf (λ way. sum_of (length_at lengths.now from way) (length_at lengths.now way to)) parts result }
{
    let mut least = None;
    for way in 0..parts {
        least = lesser_length(least, sum(lengths.at(from, way), lengths.at(way, to)));
    }
    least
}

/// Whether there is a number that is less than the other, or there is no other.
fn is_less(one: Option<u64>, other: Option<u64>) -> bool
    ensures { result ≡ is_less one other }
{
    match (one, other) {
        (Some(a), Some(b)) => a < b,
        (Some(_), None) => true,
        (None, _) => false,
    }
}
