//! Where the bins of a setting's times lie, and how many crashes are in none of them.
ghost use Rattle.std.specs.Prelude.{◌≡◌, ◌<◌, ◌^◌, slice_get};
ghost use Rattle.sweep_times.specs.Bins.{held, bin_start, bin_end, filled_end, end_at, reach_of, reach_at, greatest_reach, axis_reach, fullest, height_of, in_no_bin, never_confirmed};

use figures::{Histogram, SettingSummary};
use sweep_cells::setting_at;

/// The greatest number that an axis reaches.
const MOST: u64 = 1_000_000_000_000_000_000;

/// Where the bin at a place begins, in ticks.
#[tactic(auto, unfolding(crate::specs::Bins::bin_start))]
pub(crate) fn bin_start(times: &Histogram, bin: usize) -> u64
    ensures { result ≡ bin_start times.now bin }
{
    (bin as u64).saturating_mul(times.width)
}

/// Where it ends, and the next one begins.
#[tactic(auto, unfolding(crate::specs::Bins::bin_end))]
pub(crate) fn bin_end(times: &Histogram, bin: usize) -> u64
    ensures { result ≡ bin_end times.now bin }
{
    (bin as u64)
        .saturating_mul(times.width)
        .saturating_add(times.width)
}

/// Where a bin ends in which so many times are; 0 where there is none.
#[tactic(auto, unfolding(crate::specs::Bins::filled_end))]
fn filled_end(times: &Histogram, bin: usize, count: u64) -> u64
    ensures { result ≡ filled_end times.now bin count }
{
    if count == 0 { 0 } else { bin_end(times, bin) }
}

/// How many times are in the bin at a place.
pub(crate) fn count_at(times: &Histogram, bin: usize) -> Option<u64>
    ensures { result ≡ slice_get times.now.bins bin }
{
    match times.bins.get(bin) {
        Some(count) => Some(*count),
        None => None,
    }
}

/// Where the bin at a place ends, if times are in it; 0 if there is none.
#[tactic(auto, unfolding(crate::specs::Bins::end_at))]
fn end_at(times: &Histogram, bin: usize) -> u64
    ensures { result ≡ end_at times.now bin }
{
    match count_at(times, bin) {
        Some(count) => filled_end(times, bin, count),
        None => 0,
    }
}

/// How far the bins reach in which times are.
#[tactic(auto, unfolding(crate::specs::Bins::reach_of))]
fn reach_of(times: &Histogram) -> u64
    ensures { result ≡ reach_of times.now }
{
    let mut most = 0;
    for bin in 0..times.bins.len() {
        most = most.max(end_at(times, bin));
    }
    most
}

/// How far those of the setting at a place reach; 0 where there is no such setting.
#[tactic(auto, unfolding(crate::specs::Bins::reach_at))]
fn reach_at(settings: &[SettingSummary], place: usize) -> u64
    ensures { result ≡ reach_at settings.now place }
{
    match setting_at(settings, place) {
        Some(setting) => reach_of(&setting.confirm_times),
        None => 0,
    }
}

/// How far the bins of these settings reach in which times are; 1 at least.
#[tactic(auto, unfolding(crate::specs::Bins::greatest_reach))]
fn greatest_reach(settings: &[SettingSummary], places: &[usize]) -> u64
    ensures { result ≡ greatest_reach settings.now places.now }
{
    let mut most = 1;
    for place in places {
        most = most.max(reach_at(settings, *place));
    }
    most
}

/// How far the axis reaches over which these settings are drawn, in ticks.
#[tactic(auto, unfolding(crate::specs::Bins::axis_reach))]
pub(crate) fn axis_reach(settings: &[SettingSummary], places: &[usize]) -> u64
    ensures is { result ≡ axis_reach settings.now places.now }
    ensures low { result < 2 ^ 63 }
{
    greatest_reach(settings, places).min(MOST)
}

/// How many times the fullest bin has; 1 at least.
#[tactic(auto, unfolding(crate::specs::Bins::fullest))]
fn fullest(times: &Histogram) -> u64
    ensures { result ≡ fullest times.now }
{
    let mut most = 1;
    for count in times.bins.iter() {
        most = most.max(*count);
    }
    most
}

/// How high the chart of these times is.
#[tactic(auto, unfolding(crate::specs::Bins::height_of))]
pub(crate) fn height_of(times: &Histogram) -> u64
    ensures is { result ≡ height_of times.now }
    ensures low { result < 2 ^ 63 }
{
    fullest(times).min(MOST)
}

/// How many crashes of a setting were never confirmed, as far as 64 bits hold it.
#[tactic(auto, unfolding(crate::specs::Bins::never_confirmed))]
pub(crate) fn never_confirmed(setting: &SettingSummary) -> u64
    ensures { result ≡ never_confirmed setting.now }
{
    held(in_no_bin(setting.crashes, &setting.confirm_times))
}

/// How many of so many crashes are in no bin.
#[tactic(auto, unfolding(crate::specs::Bins::in_no_bin))]
fn in_no_bin(crashes: u128, times: &Histogram) -> u128
    ensures { result ≡ in_no_bin crashes times.now }
{
    let mut left = crashes;
    for count in times.bins.iter() {
        left = left.saturating_sub(u128::from(*count));
    }
    left
}

/// A count as far as 64 bits hold it.
pub(crate) fn held(count: u128) -> u64
    ensures { result ≡ held count }
{
    count.min(u128::from(u64::MAX)) as u64
}
