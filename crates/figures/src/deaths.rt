//! False deaths per run, and their 95 % interval, by Poisson's score.
ghost use Rattle.std.specs.Prelude.{◌≡◌, ◌≤◌, ◌<◌, ◌*◌, ◌^◌};
ghost use Rattle.figures.specs.Settings.{death_spread, death_variance, deaths_low, deaths_high, false_deaths, nearest_hundredth};

use crate::notes::RunMetadata;

/// How many false deaths of a run count. No cluster has so many members.
const MOST_DEATHS: u64 = 1_000_000;

/// The false deaths of a run, as many as count.
pub(crate) fn false_deaths(note: &RunMetadata) -> u128
    ensures value { result ≡ false_deaths note.now }
    ensures few { result ≤ 1000000 }
{
    u128::from(note.thrown_out().min(MOST_DEATHS))
}

/// The square of such a number.
pub(crate) fn square(deaths: u128) -> u128
    requires few { deaths ≤ 1000000 }
    ensures value { result ≡ deaths * deaths }
    ensures few { result ≤ 1000000 ^ 2 }
{
    deaths * deaths
}

/// False deaths per run, in hundredths, where `n` runs have `k`.
pub(crate) fn deaths_of(k: u128, n: u64) -> u128
    requires some { 0 < n }
    requires few { n ≤ 1000000 }
    requires deaths { k ≤ 1000000 * 2 ^ 64 }
    ensures { result ≡ nearest_hundredth (200000 * k) n }
{
    nearest_hundredth(200_000 * k, n)
}

/// The lower end of their interval, in hundredths, where `q` is the sum of the squares of the runs' numbers.
pub(crate) fn deaths_low(k: u128, q: u128, n: u64) -> u128
    requires some { 0 < n }
    requires few { n ≤ 1000000 }
    requires deaths { k ≤ 1000000 ^ 2 }
    requires squares { q ≤ 1000000 ^ 3 }
    ensures { result ≡ deaths_low k q n }
{
    let middle = 200_000 * k + 384_160;
    nearest_hundredth(middle.saturating_sub(49 * spread(k, q, n)), n)
}

/// The upper end, likewise.
pub(crate) fn deaths_high(k: u128, q: u128, n: u64) -> u128
    requires some { 0 < n }
    requires few { n ≤ 1000000 }
    requires deaths { k ≤ 1000000 ^ 2 }
    requires squares { q ≤ 1000000 ^ 3 }
    ensures { result ≡ deaths_high k q n }
{
    let middle = 200_000 * k + 384_160;
    nearest_hundredth(middle + 49 * spread(k, q, n), n)
}

/// 8,000 times the root that stands in both ends, rounded down.
fn spread(k: u128, q: u128, n: u64) -> u128
    requires some { 0 < n }
    requires few { n ≤ 1000000 }
    requires deaths { k ≤ 1000000 ^ 2 }
    requires squares { q ≤ 1000000 ^ 3 }
    ensures root { result ≡ death_spread k q n }
    ensures fits { result < 2 ^ 64 }
{
    (variance(k, q, u128::from(n)) + 61_465_600).isqrt()
}

/// 64,000,000 times the variance of `k`, rounded down.
fn variance(k: u128, q: u128, n: u128) -> u128
    requires some { 0 < n }
    requires few { n ≤ 1000000 }
    requires deaths { k ≤ 1000000 ^ 2 }
    requires squares { q ≤ 1000000 ^ 3 }
    ensures value { result ≡ death_variance k q n }
    ensures fits { result ≤ 64000000 * 1000000 ^ 4 }
{
    let by_chance = 64_000_000 * k;
    if n == 1 {
        return by_chance;
    }
    let apart = (n * q).saturating_sub(k * k);
    by_chance.max(64_000_000 * apart / (n - 1))
}

/// A number per run in hundredths, from 200,000 times the number of all runs.
fn nearest_hundredth(numerator: u128, n: u64) -> u128
    requires some { 0 < n }
    requires few { n ≤ 1000000 }
    requires fits { numerator < 2 ^ 110 }
    ensures { result ≡ nearest_hundredth numerator n }
{
    let n = u128::from(n);
    (numerator + 1000 * n) / (2000 * n)
}
