//! What a report of version 4 says of members that start again, of false claims and of incidents.
ghost use Rattle.std.specs.Prelude.{◌≡◌, List, All, IfOk};
ghost use Rattle.trace.specs.Text.{NamesMembers};
ghost use Rattle.incidents.specs.Cluster.{IsClusterOf};
ghost use Rattle.reports.specs.Watched.{IsWatchOf};
ghost use Rattle.reports.specs.Accounts.{IsAccountOf};
ghost use Rattle.trace.specs.declared.row.Row.{Row as AnyRow};

use crate::absence::told_of;
use crate::departure::DepartureReport;
use crate::false_positives::{FalsePositive, count_healthy};
use crate::watch::Watch;
use base::{Memory, Moment};
use incidents::Return;
use scenario::Scenario;
use std::alloc::Global;

/// What a report of version 4 says of members that start again, of false claims and of incidents.
#[derive(Drop)]
pub struct Account {
    /// The crashes, in the order of the rows, and what was told of each until its member started again.
    pub crashes: Vec<DepartureReport>,
    /// The leaves, likewise.
    pub leaves: Vec<DepartureReport>,
    /// The restarts.
    pub returns: Vec<Return>,
    /// How many suspicions were of members that weren't away.
    pub suspicions: usize,
    /// How many of these were made by healthy members.
    pub healthy_suspicions: usize,
    /// How many confirmations were of members that weren't away.
    pub confirmations: usize,
    /// How many of these were made by healthy members.
    pub healthy_confirmations: usize,
    /// These confirmations, in the order of the rows.
    pub confirmed: Vec<FalsePositive>,
    /// How often a member took for alive again one that it held to have failed or left.
    pub revivals: u64,
    /// Since when the cluster is whole, where it is.
    pub whole: Option<Moment>,
    /// How many false alarms there were.
    pub alarms: u64,
    /// How many false deaths.
    pub deaths: u64,
    /// How many members had one.
    pub members: usize,
    /// How many false deaths were of members that were well.
    pub well: u64,
}

impl Account {
    /// The account of what was watched.
    pub(crate) fn of(alloc: Global, watch: &Watch, scenario: &Scenario) -> Result<Account, Memory>
        requires cluster { IsClusterOf watch.now.incidents.cluster scenario.now }
        requires named { (rows : List AnyRow) × IsWatchOf watch.now rows × All (NamesMembers scenario.now) rows }
        ensures { IfOk result (λ account. (rows : List AnyRow) → IsWatchOf watch.now rows → IsAccountOf account scenario.now rows) }
    {
        let crashed = watch.absences.crashes.as_slice();
        let left = watch.absences.leaves.as_slice();
        let crashes = told_of(alloc, crashed)?;
        let leaves = told_of(alloc, left)?;
        let returns = watch.incidents.returns(alloc)?;
        let suspicions = watch.absences.suspicions.as_slice();
        let confirmations = watch.absences.confirmations.as_slice();
        let healthy_suspicions = count_healthy(suspicions, scenario);
        let healthy_confirmations = count_healthy(confirmations, scenario);
        let mut confirmed = Vec::new(alloc);
        confirmed.extend_from_slice(confirmations)?;
        Ok(Account {
            crashes,
            leaves,
            returns,
            suspicions: suspicions.len(),
            healthy_suspicions,
            confirmations: confirmations.len(),
            healthy_confirmations,
            confirmed,
            revivals: watch.revivals.count,
            whole: watch.incidents.whole_since(),
            alarms: watch.incidents.alarms(),
            deaths: watch.incidents.deaths(),
            members: watch.incidents.members(),
            well: watch.incidents.deaths_well(),
        })
    }
}
