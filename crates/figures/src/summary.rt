//! The summary of a setting: what is printed of it.

use crate::histogram::Histogram;
use incident_figures::IncidentSummary;

/// The figures of a setting: of runs of one scenario that differ in their seed alone. Times are in
/// ticks since the crash, by the nearest rank over all crashes of all runs, of which one that was
/// not detected counts as later than any: `None` stands where such a crash has the rank, and where
/// nobody crashed.
#[derive(Clone, Copy, Debug, PartialEq, Eq)]
pub struct SettingSummary {
    /// How many runs there are.
    pub runs: u64,
    /// How many members crashed, each counted in each run.
    pub crashes: u128,
    /// The 5th percentile of the times until a crash was first suspected.
    pub suspect_p5: Option<u64>,
    /// The median of these.
    pub suspect_p50: Option<u64>,
    /// The 95th percentile of these.
    pub suspect_p95: Option<u64>,
    /// The 5th percentile of the times until a crash was first confirmed.
    pub confirm_p5: Option<u64>,
    /// The median of these.
    pub confirm_p50: Option<u64>,
    /// The 95th percentile of these.
    pub confirm_p95: Option<u64>,
    /// The 99th percentile of these.
    pub confirm_p99: Option<u64>,
    /// The greatest of these.
    pub confirm_greatest: Option<u64>,
    /// How the times until a crash was first confirmed spread, over the crashes that were: the
    /// others are `crashes` less all that its bins count.
    pub confirm_times: Histogram,
    /// The 5th percentile of the times until a crash was last confirmed.
    pub last_p5: Option<u64>,
    /// The median of these.
    pub last_p50: Option<u64>,
    /// The 95th percentile of these.
    pub last_p95: Option<u64>,
    /// The greatest of these.
    pub last_greatest: Option<u64>,
    /// Suspicions a run that were false positives, in hundredths, rounded down.
    pub false_suspect: u128,
    /// How many members had a false death, each counted in each run.
    pub thrown_out: u128,
    /// How often a member took for alive again one that it held to have failed, in all runs.
    pub revived: u128,
    /// The incidents of the runs, where their version counts them.
    pub incidents: Option<IncidentSummary>,
    /// In how many runs members had a false death.
    pub runs_with: u64,
    /// The lower end of the 95 % interval of the share of such runs, by Wilson, in thousandths.
    pub share_low: u128,
    /// Its upper end, likewise.
    pub share_high: u128,
    /// Members with a false death per run, in hundredths, rounded to the
    /// nearest.
    pub deaths: u128,
    /// The lower end of their 95 % interval, by Poisson's score, in hundredths.
    pub deaths_low: u128,
    /// Its upper end, likewise.
    pub deaths_high: u128,
    /// Messages a member and 1,000 ticks, in hundredths, rounded down: `None` where the runs end at
    /// moment 0.
    pub messages: Option<u128>,
}
