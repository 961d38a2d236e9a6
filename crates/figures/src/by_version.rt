//! What the report of a run tells of its crashes and of false claims.
ghost use Rattle.std.specs.Prelude.{IfOk, All};
ghost use Rattle.trace.specs.Text.{NamesMembers};
ghost use Rattle.figures.specs.Told.{IsAccountTold, IsByAccount, IsByRows, IsToldIn};

use base::Memory;
use reports::{
    Account, DepartureReport, FalsePositive, Tallies, false_positive_count,
    healthy_false_positive_count,
};
use scenario::{Scenario, Version};
use std::alloc::Global;
use trace::What;

/// What the report of a run tells of its crashes and of false claims, by its version.
#[derive(Clone, Copy)]
pub(crate) struct Told<'a> {
    /// The crashes, in the order of the rows.
    pub(crate) crashes: &'a [DepartureReport],
    /// How many suspicions were false.
    pub(crate) suspicions: usize,
    /// How many of these were made by healthy members.
    pub(crate) healthy_suspicions: usize,
    /// How many confirmations were false.
    pub(crate) confirmations: usize,
    /// How many of these were made by healthy members.
    pub(crate) healthy_confirmations: usize,
    /// These confirmations, in the order of the rows.
    pub(crate) confirmed: &'a [FalsePositive],
    /// How often a member took for alive again one that it held to have failed.
    pub(crate) revivals: u64,
}

/// The account of a run, where the version of its scenario has one.
pub(crate) fn account_told(
    alloc: Global,
    tallies: &Tallies,
    scenario: &Scenario,
) -> Result<Option<Account>, Memory>
    requires { All (NamesMembers scenario.now) tallies.now }
    ensures { IfOk result (IsAccountTold scenario.now.version scenario.now tallies.now) }
{
    match scenario.version() {
        Version::One | Version::Two | Version::Three => Ok(None),
        Version::Four => {
            let account = tallies.account(alloc, scenario)?;
            Ok(Some(account))
        }
    }
}

/// What is told by the account of a run, or without one.
pub(crate) fn told_by<'a>(
    tallies: &'a Tallies,
    scenario: &Scenario,
    account: &'a Option<Account>,
) -> Told<'a>
    requires named { All (NamesMembers scenario.now) tallies.now }
    requires account { IsAccountTold scenario.now.version scenario.now tallies.now account.now }
    ensures { IsToldIn scenario.now.version scenario.now tallies.now result }
{
    match account {
        Some(account) => fourth(account),
        None => early(tallies, scenario),
    }
}

/// What is told by an account.
fn fourth(account: &Account) -> Told<'_>
    ensures { IsByAccount account.now result }
{
    Told {
        crashes: account.crashes.as_slice(),
        suspicions: account.suspicions,
        healthy_suspicions: account.healthy_suspicions,
        confirmations: account.confirmations,
        healthy_confirmations: account.healthy_confirmations,
        confirmed: account.confirmed.as_slice(),
        revivals: account.revivals,
    }
}

/// What is told without one.
fn early<'a>(tallies: &'a Tallies, scenario: &Scenario) -> Told<'a>
    requires { All (NamesMembers scenario.now) tallies.now }
    ensures { IsByRows scenario.now tallies.now result }
{
    Told {
        crashes: tallies.crashes(),
        suspicions: false_positive_count(tallies, What::Suspect),
        healthy_suspicions: healthy_false_positive_count(tallies, What::Suspect, scenario),
        confirmations: false_positive_count(tallies, What::Confirm),
        healthy_confirmations: healthy_false_positive_count(tallies, What::Confirm, scenario),
        confirmed: tallies.false_positives(What::Confirm),
        revivals: tallies.revivals(),
    }
}
