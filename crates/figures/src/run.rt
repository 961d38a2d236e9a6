//! The figures of one run.
ghost use Rattle.std.specs.Prelude.{◌≡◌, IfOk, All};
ghost use Rattle.trace.specs.Text.{NamesMembers};
ghost use Rattle.scenario.specs.Setup.{Setup};
ghost use Rattle.figures.specs.Figures.{incidents_told};
ghost use Rattle.figures.specs.Told.{IsAccountTold};

use crate::by_version::{account_told, told_by};
use crate::crashes::{
    detected, greatest_confirmation, greatest_last, least_confirmation, least_suspicion,
};
use crate::messages::{lost, sent};
use crate::thrown_out::thrown_out;
use base::Memory;
use incident_figures::RunIncidents;
use reports::{Account, Tallies};
use scenario::Scenario;
use std::alloc::Global;
use trace::What;

/// The figures of one run. Times are in ticks since the crash, over all crashes that have one, and
/// `None` where no crash has.
#[derive(Clone, Copy, Debug, PartialEq, Eq)]
pub struct RunFigures {
    /// How many rows the trace has.
    pub rows: u64,
    /// How many members crashed.
    pub crashes: u64,
    /// How many crashes some member confirmed.
    pub detected: u64,
    /// The least time until a crash was first suspected.
    pub suspect_least: Option<u64>,
    /// The least time until a crash was first confirmed.
    pub confirm_least: Option<u64>,
    /// The greatest time until a crash was first confirmed.
    pub confirm_greatest: Option<u64>,
    /// The greatest time until a crash was last confirmed.
    pub last_greatest: Option<u64>,
    /// How many suspicions were false positives: of members that had not departed.
    pub false_suspect: u64,
    /// How many of these were made by healthy members.
    pub false_suspect_healthy: u64,
    /// How many confirmations were false positives.
    pub false_confirm: u64,
    /// How many of these were made by healthy members.
    pub false_confirm_healthy: u64,
    /// How many members had a false death: they were confirmed to have failed though they had not departed.
    pub thrown_out: u64,
    /// How often a member took for alive again one that it held to have failed.
    pub revived: u64,
    /// The incidents, where the version of the scenario counts them.
    pub incidents: Option<RunIncidents>,
    /// How many accusations there were.
    pub accuse: u64,
    /// How many refutations there were.
    pub refute: u64,
    /// How many probes failed.
    pub fail: u64,
    /// The highest local health counter that any member reached, 0 where none changed.
    pub health: u64,
    /// How many messages were sent, of all kinds.
    pub sent: u64,
    /// How many of these were lost.
    pub lost: u64,
}

impl RunFigures {
    ghost use Rattle.figures.specs.Figures.{figures_of};

    /// The figures of a run of the scenario whose rows were tallied. The rows must name members of
    /// the scenario's cluster alone. It takes a byte for each member, in version 4 also what its report takes, and fails
    /// where that is refused.
    #[tactic(auto, unfolding(crate::specs::Figures::figures_of))]
    pub fn of(alloc: Global, tallies: &Tallies, scenario: &Scenario) -> Result<RunFigures, Memory>
        requires { All (NamesMembers scenario.now) tallies.now }
        ensures { IfOk result (λ figures. figures ≡ figures_of scenario.now tallies.now) }
    {
        let account = account_told(alloc, tallies, scenario)?;
        let told = told_by(tallies, scenario, &account);
        let crashes = told.crashes;
        Ok(RunFigures {
            rows: tallies.rows(),
            crashes: crashes.len() as u64,
            detected: detected(crashes) as u64,
            suspect_least: least_suspicion(crashes),
            confirm_least: least_confirmation(crashes),
            confirm_greatest: greatest_confirmation(crashes),
            last_greatest: greatest_last(crashes),
            false_suspect: told.suspicions as u64,
            false_suspect_healthy: told.healthy_suspicions as u64,
            false_confirm: told.confirmations as u64,
            false_confirm_healthy: told.healthy_confirmations as u64,
            thrown_out: thrown_out(alloc, told.confirmed, scenario)? as u64,
            revived: told.revivals,
            incidents: incidents_told(tallies, &account),
            accuse: tallies.rows_of(What::Accuse),
            refute: tallies.rows_of(What::Refute),
            fail: tallies.rows_of(What::Fail),
            health: tallies.worst_health(),
            sent: sent(tallies, scenario.version()),
            lost: lost(tallies, scenario.version()),
        })
    }
}

/// The incidents of a run, where it has an account.
fn incidents_told(tallies: &Tallies, account: &Option<Account>) -> Option<RunIncidents>
    ensures { (s : Setup) → IsAccountTold s.version s tallies.now account.now → result ≡ incidents_told s.version s tallies.now }
{
    match account {
        Some(account) => Some(RunIncidents::of(tallies, account)),
        None => None,
    }
}
