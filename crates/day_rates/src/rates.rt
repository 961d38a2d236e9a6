//! The false deaths of a day, and the ends of their interval.
ghost use Rattle.std.specs.Prelude.{◌≡◌, ◌≤◌, ◌<◌, ◌^◌};
ghost use Rattle.day_rates.specs.Rates.{day_rate, day_low, day_high, freedom, death_variance, spread, middle, width};

use crate::ends::{higher, lower};

/// What runs of one length have of false deaths.
#[derive(Clone, Copy, Debug)]
pub struct RunDeaths {
    /// How many runs there are.
    pub runs: u64,
    /// How many false deaths they have together.
    pub deaths: u128,
    /// The sum of the squares of their numbers.
    pub squares: u128,
    /// How long they last together, in microseconds.
    pub time: u128,
}

/// How many false deaths a day has, in hundredths.
pub fn day_rate(runs: &RunDeaths) -> u128
    requires some { 0 < runs.now.time }
    requires time { runs.now.time ≤ 2 ^ 88 }
    requires deaths { runs.now.deaths ≤ 10 ^ 14 }
    ensures { result ≡ day_rate runs.now }
{
    (17_280_000_000_000 * runs.deaths + runs.time) / (2 * runs.time)
}

/// The lower end of its 95 % interval, in hundredths.
pub fn day_low(runs: &RunDeaths) -> u128
    requires some { 0 < runs.now.runs }
    requires few { runs.now.runs ≤ 1000000 }
    requires deaths { runs.now.deaths ≤ 10 ^ 14 }
    requires squares { runs.now.squares ≤ 10 ^ 22 }
    requires lasts { 0 < runs.now.time }
    requires time { runs.now.time ≤ 2 ^ 88 }
    ensures { result ≡ day_low runs.now }
{
    lower(middle(runs), spread(runs), width(runs))
}

/// The upper end, likewise.
pub fn day_high(runs: &RunDeaths) -> u128
    requires some { 0 < runs.now.runs }
    requires few { runs.now.runs ≤ 1000000 }
    requires deaths { runs.now.deaths ≤ 10 ^ 14 }
    requires squares { runs.now.squares ≤ 10 ^ 22 }
    requires lasts { 0 < runs.now.time }
    requires time { runs.now.time ≤ 2 ^ 88 }
    ensures { result ≡ day_high runs.now }
{
    higher(middle(runs), spread(runs), width(runs))
}

/// The number of runs less one, but 1 for one.
fn freedom(runs: u64) -> u128
    requires some { 0 < runs }
    requires few { runs ≤ 1000000 }
    ensures value { result ≡ freedom runs }
    ensures some { 0 < result }
    ensures few { result ≤ 1000000 }
{
    u128::from((runs - 1).max(1))
}

/// So many times the variance of the deaths.
fn death_variance(runs: &RunDeaths) -> u128
    requires some { 0 < runs.now.runs }
    requires few { runs.now.runs ≤ 1000000 }
    requires deaths { runs.now.deaths ≤ 10 ^ 14 }
    requires squares { runs.now.squares ≤ 10 ^ 22 }
    ensures value { result ≡ death_variance runs.now }
    ensures fits { result ≤ 10 ^ 28 }
{
    if runs.runs == 1 {
        return runs.deaths;
    }
    let count = u128::from(runs.runs);
    let apart = (count * runs.squares).saturating_sub(runs.deaths * runs.deaths);
    apart.max(runs.deaths * (count - 1))
}

/// What stands under the root.
fn spread(runs: &RunDeaths) -> u128
    requires some { 0 < runs.now.runs }
    requires few { runs.now.runs ≤ 1000000 }
    requires deaths { runs.now.deaths ≤ 10 ^ 14 }
    requires squares { runs.now.squares ≤ 10 ^ 22 }
    ensures value { result ≡ spread runs.now }
    ensures fits { result < 2 ^ 125 }
{
    let freedom = freedom(runs.runs);
    (2500 * death_variance(runs) + 2401 * freedom) * freedom
}

/// What stands in the middle of the interval.
fn middle(runs: &RunDeaths) -> u128
    requires some { 0 < runs.now.runs }
    requires few { runs.now.runs ≤ 1000000 }
    requires deaths { runs.now.deaths ≤ 10 ^ 14 }
    requires time { runs.now.time ≤ 2 ^ 88 }
    ensures value { result ≡ middle runs.now }
    ensures fits { result < 2 ^ 122 }
{
    let freedom = freedom(runs.runs);
    17_280_000_000_000 * (1250 * runs.deaths + 2401) * freedom + 1250 * freedom * runs.time
}

/// What both ends are divided by.
fn width(runs: &RunDeaths) -> u128
    requires some { 0 < runs.now.runs }
    requires few { runs.now.runs ≤ 1000000 }
    requires lasts { 0 < runs.now.time }
    requires time { runs.now.time ≤ 2 ^ 88 }
    ensures value { result ≡ width runs.now }
    ensures some { 0 < result }
{
    2500 * freedom(runs.runs) * runs.time
}
