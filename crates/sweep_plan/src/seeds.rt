//! The seeds with which each setting runs.
ghost use Rattle.std.specs.Prelude.{◌≡◌, ◌≤◌, ◌<◌, ◌^◌, ◌+◌, ◌-◌, option_map, IfSome, IsNone, IfOk, IfErr};
ghost use Rattle.sweep_plan.specs.Asked.{AsksForSeeds, IsRange};
ghost use Rattle.sweep_plan.specs.declared.seeds.Seeds.{Seeds as Range};

use decimals::number;

/// The seeds from the first to the last, both ends included.
#[derive(Clone, Copy, Debug, PartialEq, Eq)]
pub struct Seeds {
    pub first: u64,
    pub last: u64,
}

/// The seeds that a word asks for, as `1..200`: the first, two dots and the last, each a whole number in
/// decimal, without sign or leading zero, of at most 2^63 - 1. None where they are out of order.
pub(crate) fn read_range(word: &str) -> Option<Seeds>
    ensures some { IfSome result (IsRange word.now) }
    ensures none { IsNone result → (r : Range) → ¬ (IsRange word.now r) }
{
    let Some((first, rest)) = word.split_once('.') else {
        return None;
    };
    let Some(last) = rest.strip_prefix('.') else {
        return None;
    };
    let Some(first) = number(first) else {
        return None;
    };
    let Some(last) = number(last) else {
        return None;
    };
    if last < first {
        return None;
    }
    Some(Seeds { first, last })
}

/// How many seeds there are.
pub(crate) fn count(seeds: Seeds) -> usize
    requires { seeds.last < 2 ^ 63 }
    ensures { result ≡ seeds.last + 1 - seeds.first }
{
    if seeds.last < seeds.first {
        return 0;
    }
    (seeds.last - seeds.first) as usize + 1
}
