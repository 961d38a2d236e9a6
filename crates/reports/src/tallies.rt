//! What is kept of a run for its report.
ghost use Rattle.std.specs.Prelude.{All, IfOk, ◌≡◌, ◌≢◌, ◌≤◌, ◌<◌, ◌^◌, [], ◌∷◌, ◌++◌, ◌⊎◌, length, OnOk, OnErr, IfErr, IsErrOf};
ghost use Rattle.trace_rows.specs.Rows.{count_of, losses_of, worst_health};
ghost use Rattle.reports.specs.Departures.{crashes_of, leaves_of};
ghost use Rattle.reports.specs.Failures.{false_positives_of};
ghost use Rattle.reports.specs.Revivals.{revivals};
ghost use Rattle.reports.specs.Accounts.{IsAccountOf};
ghost use Rattle.trace.specs.Text.{NamesMembers};

use crate::account::Account;
use crate::counts::Counts;
use crate::departure::DepartureReport;
use crate::failures::Failures;
use crate::false_positives::FalsePositive;
use crate::past::Past;
use crate::revivals::Revivals;
use crate::watch::{Watch, kept_of, see, watch_of};
use base::limits::COUNTER_LIMIT;
use base::{Fault, Memory};
use incidents::Cluster;
use scenario::Scenario;
use std::alloc::Global;
use std::marker::Model;
use trace::{Row, What};

/// The rows of a run so far, in the order in which they came: 2^63 of them at most. It keeps of them
/// what a report prints: counts, for each crash and leave how it was detected, the false claims, and
/// who holds whom to have failed.
#[derive(Drop)]
pub struct Tallies {
    past: Past,
    counts: Counts,
    failures: Failures,
    revivals: Revivals,
    /// What version 4 of the format asks besides, as long as there is memory for it.
    watch: Option<Watch>,
}

impl Model for Tallies {
    ghost use Rattle.std.specs.Prelude.{List, IfSome, ◌≤◌, ◌^◌};
    ghost use Rattle.trace.specs.declared.row.Row.{Row};
    ghost use Rattle.reports.specs.Counts.{AreCountsOf};
    ghost use Rattle.reports.specs.Failures.{AreFailuresOf};
    ghost use Rattle.reports.specs.Held.{AreRevivalsOf};
    ghost use Rattle.reports.specs.Watched.{IsWatchOf};

    ghost Value = { List Row };

    ghost view = { λ tallies. tallies.past };

    ghost invariant = { λ tallies. AreCountsOf tallies.counts tallies.past
        × AreFailuresOf tallies.failures tallies.past
        × AreRevivalsOf tallies.revivals tallies.past
        × (tallies.counts.rows ≤ 2 ^ 63)
        × IfSome tallies.watch (λ watch. IsWatchOf watch tallies.past) };
}

impl Tallies {
    /// No rows of a run of a scenario. It takes no memory, but where the scenario is one of version
    /// 4: some for each member.
    pub fn new(alloc: Global, scenario: &Scenario) -> Self
        ensures { result ≡ [] }
    {
        Tallies {
            past: Past::new(),
            counts: Counts::new(),
            failures: Failures::new(alloc),
            revivals: Revivals::new(alloc),
            watch: watch_of(alloc, scenario),
        }
    }

    /// Adds the next row of a run. A refusal leaves the tallies as they were.
    ///
    /// Faults: `Memory`; `CounterOverflow` where 2^63 rows are there already.
    pub fn add(&mut self, row: &Row) -> Result<(), Fault>
        ensures ok { OnOk result (self.new ≡ self.old ++ row.now ∷ []) }
        ensures err { OnErr result (self.new ≡ self.old) }
        ensures overflow { IsErrOf result Fault.CounterOverflow → 2 ^ 63 ≤ length self.old }
        ensures full { 2 ^ 63 ≤ length self.old → IsErrOf result Fault.CounterOverflow }
        ensures causes { IfErr result (λ fault. (fault ≢ Fault.Write) × (fault ≢ Fault.ThreadLost)) }
    {
        if self.counts.rows >= COUNTER_LIMIT {
            return Err(Fault::CounterOverflow);
        }
        self.revivals.make_room_for_row(row)?;
        self.failures.follow(row)?;
        self.revivals.follow(row);
        self.counts.count(row);
        see(&mut self.watch, row);
        self.past.append(row);
        Ok(())
    }

    /// Adds the next rows of a run, up to one that is refused.
    ///
    /// Faults: `Memory`; `CounterOverflow` where there would be more than 2^63 rows.
    pub fn add_all(&mut self, rows: &[Row]) -> Result<(), Fault>
        ensures ok { OnOk result (self.new ≡ self.old ++ rows.now) }
        ensures lasts { OnOk result (length self.new ≤ 2 ^ 63) }
        ensures overflow { IsErrOf result Fault.CounterOverflow → 2 ^ 63 < length (self.old ++ rows.now) }
        ensures causes { IfErr result (λ fault. (fault ≢ Fault.Write) × (fault ≢ Fault.ThreadLost)) }
    {
        for row in rows {
            self.add(row)?;
        }
        // what the invariant says of their number
        let _ = &self.counts;
        Ok(())
    }

    /// How many rows there are.
    pub fn rows(&self) -> u64
        ensures { result ≡ length self.now }
    {
        self.counts.rows
    }

    /// How many rows are of this kind. A message has one row for each time it is sent.
    pub fn rows_of(&self, kind: What) -> u64
        ensures { result ≡ count_of kind self.now }
    {
        self.counts.rows_of(kind)
    }

    /// How many sendings of this kind were lost.
    pub fn lost(&self, kind: What) -> u64
        ensures { result ≡ losses_of kind self.now }
    {
        self.counts.lost(kind)
    }

    /// The highest local health counter that any member reached, 0 where none changed (Lifeguard's
    /// LHA-Probe).
    pub fn worst_health(&self) -> u64
        ensures { result ≡ worst_health self.now }
    {
        self.counts.worst_health
    }

    /// How many rows report that a member takes one for alive again whom it held to have failed.
    pub fn revivals(&self) -> u64
        ensures { result ≡ revivals self.now }
    {
        self.revivals.count
    }

    /// The crashes, in the order of the rows, and how each was detected.
    pub fn crashes(&self) -> &[DepartureReport]
        ensures { result.now ≡ crashes_of self.now }
    {
        self.failures.crashes.as_slice()
    }

    /// The leaves, in the order of the rows.
    pub(crate) fn leaves(&self) -> &[DepartureReport]
        ensures { result.now ≡ leaves_of self.now }
    {
        self.failures.leaves.as_slice()
    }

    /// The false positives of a claim, a suspicion or a confirmation, in the order of the rows.
    pub fn false_positives(&self, claim: What) -> &[FalsePositive]
        requires { (claim ≡ What.Suspect) ⊎ (claim ≡ What.Confirm) }
        ensures { result.now ≡ false_positives_of claim self.now }
    {
        match claim {
            What::Suspect => self.failures.suspicions.as_slice(),
            _ => self.failures.confirmations.as_slice(),
        }
    }

    /// What a report of version 4 says besides, where that is the scenario's version and the tallies
    /// were made for it. The rows must name members of its cluster alone.
    ///
    /// It is refused where there is no memory for it, or was none on the way.
    pub fn account(&self, alloc: Global, scenario: &Scenario) -> Result<Account, Memory>
        requires { All (NamesMembers scenario.now) self.now }
        ensures { IfOk result (λ account. IsAccountOf account scenario.now self.now) }
    {
        let cluster = Cluster::of(alloc, scenario)?;
        let watch = kept_of(&self.watch, &cluster)?;
        Account::of(alloc, watch, scenario)
    }
}
