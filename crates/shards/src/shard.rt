//! One of the shards of a sweep.
ghost use Rattle.std.specs.Prelude.{◌≡◌, ◌≤◌, true, false, IfSome, IsNone};
ghost use Rattle.shards.specs.Shards.{IsShard, IsShardWord, first_run, past_run, whole};
ghost use Rattle.shards.specs.declared.shard.Shard.{Shard as Wanted};

use decimals::number;

/// The most shards that a sweep has.
const MOST: u64 = 10_000;

/// One of the shards of a sweep: its number, from 1, and how many there are.
#[derive(Clone, Copy, Debug, PartialEq, Eq)]
pub struct Shard {
    pub number: u64,
    pub of: u64,
}

impl Shard {
    /// The only shard of a sweep that is made in one.
    pub fn whole() -> Shard
        ensures only { result ≡ whole }
        ensures shard { IsShard result }
    {
        Shard { number: 1, of: 1 }
    }

    /// The shard that a word says, as `3/8`: its number, a slash and how many there are, each a whole number in decimal,
    /// without sign or leading zero. None where the number isn't one of 1 to the other, or that is more than 10,000.
    pub fn read(word: &str) -> Option<Shard>
        ensures some { IfSome result (IsShardWord word.now) }
        ensures none { IsNone result → (p : Wanted) → ¬ (IsShardWord word.now p) }
    {
        let Some((first, last)) = word.split_once('/') else {
            return None;
        };
        let Some(place) = number(first) else {
            return None;
        };
        let Some(of) = number(last) else {
            return None;
        };
        let shard = Shard { number: place, of };
        if !is_sound(shard) {
            return None;
        }
        Some(shard)
    }

    /// The number of its first run, counted from 0, of a sweep with so many.
    pub fn first(self, runs: usize) -> usize
        requires shard { IsShard self }
        requires few { runs ≤ 1000000 }
        ensures first { result ≡ first_run self runs }
        ensures within { result ≤ runs }
    {
        (self.number - 1) as usize * runs / self.of as usize
    }

    /// The number past that of its last run.
    pub fn past(self, runs: usize) -> usize
        requires shard { IsShard self }
        requires few { runs ≤ 1000000 }
        ensures past { result ≡ past_run self runs }
        ensures within { result ≤ runs }
        ensures ordered { first_run self runs ≤ result }
    {
        self.number as usize * runs / self.of as usize
    }
}

/// Whether shards are numbered so.
fn is_sound(shard: Shard) -> bool
    ensures sound { result ≡ true → IsShard shard }
    ensures unsound { result ≡ false → ¬ (IsShard shard) }
{
    shard.number >= 1 && shard.number <= shard.of && shard.of <= MOST
}
