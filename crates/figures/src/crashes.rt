//! How crashes were detected.
ghost use Rattle.std.specs.Prelude.{◌≡◌, count_by, min, max};
ghost use Rattle.std.specs.List.{filter_map, reduce};
ghost use Rattle.reports.specs.Departures.{latencies_of};
ghost use Rattle.figures.specs.Figures.{suspected_after, last_after, is_detected};
ghost use Rattle.figures.specs.Notes.{times_of};
ghost use Rattle.figures.specs.Settings.{suspected_in, confirmed_in, last_in};

use reports::DepartureReport;

/// How a crash was detected, in ticks since the crash.
#[derive(Clone, Copy, Debug, PartialEq, Eq)]
pub struct CrashTimes {
    /// Until the member was first suspected, where it was.
    pub suspected: Option<u64>,
    /// Until it was first confirmed to have failed, likewise.
    pub confirmed: Option<u64>,
    /// Until it was last confirmed, likewise.
    pub last: Option<u64>,
}

/// Until the member was first suspected.
pub(crate) fn suspected_in(crash: &CrashTimes) -> Option<u64>
    ensures { result ≡ suspected_in crash.now }
{
    crash.suspected
}

/// Until it was first confirmed to have failed.
pub(crate) fn confirmed_in(crash: &CrashTimes) -> Option<u64>
    ensures { result ≡ confirmed_in crash.now }
{
    crash.confirmed
}

/// Until it was last confirmed.
pub(crate) fn last_in(crash: &CrashTimes) -> Option<u64>
    ensures { result ≡ last_in crash.now }
{
    crash.last
}

/// How a crash was detected.
pub(crate) fn times_of(crash: &DepartureReport) -> CrashTimes
    ensures { result ≡ times_of crash.now }
{
    CrashTimes {
        suspected: suspected_after(crash),
        confirmed: crash.latency(),
        last: last_after(crash),
    }
}

/// How many ticks after a crash the member was first suspected, where it was.
pub(crate) fn suspected_after(crash: &DepartureReport) -> Option<u64>
    ensures { result ≡ suspected_after crash.now }
{
    let suspect = crash.detection.suspect?;
    Some(suspect.ticks().saturating_sub(crash.at.ticks()))
}

/// How many ticks after a crash it was last confirmed to have failed, where it was.
pub(crate) fn last_after(crash: &DepartureReport) -> Option<u64>
    ensures { result ≡ last_after crash.now }
{
    let last = crash.detection.last?;
    Some(last.ticks().saturating_sub(crash.at.ticks()))
}

/// How many crashes some member confirmed.
pub(crate) fn detected(crashes: &[DepartureReport]) -> usize
    ensures { result ≡ count_by is_detected crashes.now }
{
    crashes
        .iter()
        .filter(|crash| crash.detection.confirm.is_some())
        .count()
}

pub(crate) fn least_suspicion(crashes: &[DepartureReport]) -> Option<u64>
    ensures { result ≡ reduce min (filter_map suspected_after crashes.now) }
{
    crashes
        .iter()
        .filter_map(|crash| suspected_after(crash))
        .min()
}

pub(crate) fn least_confirmation(crashes: &[DepartureReport]) -> Option<u64>
    ensures { result ≡ reduce min (latencies_of crashes.now) }
{
    crashes.iter().filter_map(|crash| crash.latency()).min()
}

pub(crate) fn greatest_confirmation(crashes: &[DepartureReport]) -> Option<u64>
    ensures { result ≡ reduce max (latencies_of crashes.now) }
{
    crashes.iter().filter_map(|crash| crash.latency()).max()
}

pub(crate) fn greatest_last(crashes: &[DepartureReport]) -> Option<u64>
    ensures { result ≡ reduce max (filter_map last_after crashes.now) }
{
    crashes.iter().filter_map(|crash| last_after(crash)).max()
}
