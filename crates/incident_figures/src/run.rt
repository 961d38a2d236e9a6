//! The incidents of a run.
ghost use Rattle.std.specs.Prelude.{◌≡◌};
ghost use Rattle.scenario.specs.Setup.{Setup};
ghost use Rattle.reports.specs.Accounts.{IsAccountOf};
ghost use Rattle.incident_figures.specs.Runs.{incidents_of};

use base::Moment;
use reports::{Account, Tallies};
use trace::What;

/// The incidents of a run, as a sweep's table has them.
#[derive(Clone, Copy, Debug, PartialEq, Eq)]
pub struct RunIncidents {
    /// How many false alarms it has.
    pub alarms: u64,
    /// How many false deaths.
    pub deaths: u64,
    /// How many of these are of members that were well.
    pub deaths_well: u64,
    /// How often members started again.
    pub restarts: u64,
    /// Since when the cluster is whole, in ticks, where it is.
    pub whole: Option<u64>,
}

/// What a setting counts of the incidents of a run.
#[derive(Clone, Copy, Debug, PartialEq, Eq)]
pub struct RunCounts {
    /// How many false alarms it has.
    pub alarms: u64,
    /// How many false deaths.
    pub deaths: u64,
    /// How many of these are of members that were well.
    pub deaths_well: u64,
    /// How long it lasts, in microseconds.
    pub time: u64,
}

impl RunIncidents {
    /// Those of a run that was tallied, and of which this is the account.
    pub fn of(tallies: &Tallies, account: &Account) -> RunIncidents
        ensures { (s : Setup) → IsAccountOf account.now s tallies.now → result ≡ incidents_of s tallies.now }
    {
        RunIncidents {
            alarms: account.alarms,
            deaths: account.deaths,
            deaths_well: account.well,
            restarts: tallies.rows_of(What::Restart),
            whole: ticks_of(account.whole),
        }
    }
}

/// The ticks of a moment, where there is one.
fn ticks_of(moment: Option<Moment>) -> Option<u64>
    ensures { result ≡ moment }
{
    match moment {
        Some(at) => Some(at.ticks()),
        None => None,
    }
}
