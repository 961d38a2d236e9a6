//! The false deaths of a run that its setting counts.
ghost use Rattle.std.specs.Prelude.{◌≡◌, ◌*◌, ◌≤◌, ◌^◌};
ghost use Rattle.incident_figures.specs.Settings.{counted};

use crate::run::RunCounts;

/// How many false deaths of a run count for the interval.
const MOST_DEATHS: u64 = 100_000_000;

/// The false deaths of a run, as many as count.
pub(crate) fn counted(run: &RunCounts) -> u128
    ensures value { result ≡ counted run.now }
    ensures few { result ≤ 10 ^ 8 }
{
    u128::from(run.deaths.min(MOST_DEATHS))
}

/// The square of such a number.
pub(crate) fn square(deaths: u128) -> u128
    requires few { deaths ≤ 10 ^ 8 }
    ensures value { result ≡ deaths * deaths }
    ensures few { result ≤ 10 ^ 16 }
{
    deaths * deaths
}
