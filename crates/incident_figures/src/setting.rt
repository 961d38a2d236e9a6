//! The incidents of all runs of a setting.
ghost use Rattle.std.specs.Prelude.{◌≡◌, ◌+◌, ◌*◌, ◌<◌, ◌≤◌, ◌^◌, ◌++◌, ◌∷◌, [], List, length};
ghost use Rattle.incident_figures.specs.declared.run.RunCounts.{RunCounts as ARun};

use crate::deaths::{counted, square};
use crate::run::RunCounts;
use day_rates::{RunDeaths, day_high, day_low, day_rate};

/// The false deaths of a whole cluster in a day, and the ends of their 95 % interval, in hundredths.
#[derive(Clone, Copy, Debug, PartialEq, Eq)]
pub struct DayRates {
    pub rate: u128,
    /// The lower end.
    pub low: u128,
    /// The upper end.
    pub high: u128,
}

/// The incidents of a setting, as its line has them.
#[derive(Clone, Copy, Debug, PartialEq, Eq)]
pub struct IncidentSummary {
    /// False alarms a run, in hundredths, rounded down.
    pub alarms: u128,
    /// False deaths of all runs.
    pub deaths: u128,
    /// How many of these are of members that were well.
    pub deaths_well: u128,
    /// Those of a day, where the runs last at all.
    pub day: Option<DayRates>,
}

/// The incidents of the runs of a setting so far. There is room for 1,000,000 runs.
#[derive(Clone, Copy, Debug)]
pub struct SettingIncidents {
    /// How many runs there are.
    runs: u64,
    alarms: u128,
    deaths: u128,
    deaths_well: u128,
    /// The sum of the false deaths that count.
    counted: u128,
    /// The sum of their squares.
    squares: u128,
    /// How long the runs last together, in microseconds.
    time: u128,
    ghost few: { runs ≤ 1000000 },
    ghost alarms_fit: { alarms ≤ runs * 2 ^ 64 },
    ghost deaths_fit: { deaths ≤ runs * 2 ^ 64 },
    ghost deaths_well_fit: { deaths_well ≤ runs * 2 ^ 64 },
    ghost counted_fit: { counted ≤ runs * 10 ^ 8 },
    ghost squares_fit: { squares ≤ runs * 10 ^ 16 },
    ghost time_fits: { time ≤ runs * 2 ^ 64 },
}

impl SettingIncidents {
    ghost use Rattle.incident_figures.specs.Settings.{day_of, runs_kept, IsSummaryOf, AreIncidentsOf};

    /// Those of no runs.
    pub fn new() -> SettingIncidents
        ensures { AreIncidentsOf result [] }
    {
        SettingIncidents {
            runs: 0,
            alarms: 0,
            deaths: 0,
            deaths_well: 0,
            counted: 0,
            squares: 0,
            time: 0,
        }
    }

    /// How many runs there are.
    pub fn runs(&self) -> u64
        ensures { result ≡ runs_kept self.now }
    {
        self.runs
    }

    /// Those with one run more.
    pub fn with(self, run: &RunCounts) -> SettingIncidents
        requires { runs_kept self < 1000000 }
        ensures all { (runs : List ARun) → AreIncidentsOf self runs → AreIncidentsOf result (runs ++ run.now ∷ []) }
        ensures count { runs_kept result ≡ runs_kept self + 1 }
    {
        let deaths = counted(run);
        SettingIncidents {
            runs: self.runs + 1,
            alarms: self.alarms + u128::from(run.alarms),
            deaths: self.deaths + u128::from(run.deaths),
            deaths_well: self.deaths_well + u128::from(run.deaths_well),
            counted: self.counted + deaths,
            squares: self.squares + square(deaths),
            time: self.time + u128::from(run.time),
        }
    }

    /// The setting's line.
    pub fn summary(&self) -> IncidentSummary
        requires { 0 < runs_kept self.now }
        ensures { (runs : List ARun) → AreIncidentsOf self.now runs → IsSummaryOf result runs }
    {
        IncidentSummary {
            alarms: self.alarms * 100 / u128::from(self.runs),
            deaths: self.deaths,
            deaths_well: self.deaths_well,
            day: self.day(),
        }
    }

    /// The false deaths of a day, where the runs last at all.
    fn day(&self) -> Option<DayRates>
        requires { 0 < runs_kept self.now }
        ensures { (runs : List ARun) → AreIncidentsOf self.now runs → result ≡ day_of runs }
    {
        if self.time == 0 {
            return None;
        }
        let deaths = RunDeaths {
            runs: self.runs,
            deaths: self.counted,
            squares: self.squares,
            time: self.time,
        };
        Some(DayRates {
            rate: day_rate(&deaths),
            low: day_low(&deaths),
            high: day_high(&deaths),
        })
    }
}
