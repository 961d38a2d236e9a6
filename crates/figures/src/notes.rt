//! What is kept of a run for its setting.
ghost use Rattle.std.specs.Prelude.{◌≡◌, ◌<◌, ◌≤◌, ◌^◌, ◌*◌, All, IfOk, map};
ghost use Rattle.std.specs.Option.{option_map};
ghost use Rattle.scenario.specs.Setup.{member_count};
ghost use Rattle.trace.specs.Text.{NamesMembers};
ghost use Rattle.figures.specs.Figures.{figures_of};
ghost use Rattle.figures.specs.Notes.{counts_of, note_of, times_of};

use crate::by_version::{account_told, told_by};
use crate::crashes::{CrashTimes, times_of};
use crate::run::RunFigures;
use base::Memory;
use incident_figures::{RunCounts, RunIncidents};
use reports::{DepartureReport, Tallies};
use scenario::Scenario;
use std::alloc::Global;
use std::marker::Model;

/// What is kept of a run for its setting: how its crashes were detected, and what its setting counts.
#[derive(Debug, Drop)]
pub struct RunMetadata {
    pub(crate) crashes: Vec<CrashTimes>,
    pub(crate) false_suspect: u64,
    pub(crate) thrown_out: u64,
    pub(crate) revived: u64,
    pub(crate) sent: u64,
    pub(crate) member_ticks: u64,
    pub(crate) incidents: Option<RunCounts>,
}

impl Model for RunMetadata {
    ghost use Rattle.figures.specs.Notes.{Note};

    ghost Value = { Note };

    ghost view = { λ n. record { crashes = n.crashes.items; false_suspect = n.false_suspect; thrown_out = n.thrown_out; revived = n.revived; sent = n.sent; member_ticks = n.member_ticks; incidents = n.incidents } };
}

impl RunMetadata {
    /// The note of a run of the scenario whose rows were tallied, and which has these figures. A tick is so many
    /// microseconds.
    #[tactic(auto, unfolding(crate::specs::Figures::figures_of, crate::specs::Notes::note_of))]
    pub fn of(
        alloc: Global,
        tallies: &Tallies,
        figures: &RunFigures,
        scenario: &Scenario,
        tick: u64,
    ) -> Result<RunMetadata, Memory>
        requires named { All (NamesMembers scenario.now) tallies.now }
        requires figures { figures.now ≡ figures_of scenario.now tallies.now }
        requires tick { tick ≤ 1000000 }
        ensures { IfOk result (λ note. note ≡ note_of scenario.now tick tallies.now) }
    {
        let account = account_told(alloc, tallies, scenario)?;
        let told = told_by(tallies, scenario, &account);
        let crashes = times_of_each(alloc, told.crashes)?;
        Ok(RunMetadata {
            crashes,
            false_suspect: figures.false_suspect,
            thrown_out: figures.thrown_out,
            revived: figures.revived,
            sent: figures.sent,
            member_ticks: member_ticks(scenario),
            incidents: counts_told(figures.incidents, time_of(scenario, tick)),
        })
    }
}

impl RunMetadata {
    /// How the crashes were detected, in their order.
    pub(crate) fn crashes(&self) -> &[CrashTimes]
        ensures { result.now ≡ self.now.crashes }
    {
        self.crashes.as_slice()
    }

    /// How many suspicions were false positives.
    pub(crate) fn false_suspect(&self) -> u64
        ensures { result ≡ self.now.false_suspect }
    {
        self.false_suspect
    }

    /// How many members had a false death.
    pub(crate) fn thrown_out(&self) -> u64
        ensures { result ≡ self.now.thrown_out }
    {
        self.thrown_out
    }

    /// How often members were taken for alive again.
    pub(crate) fn revived(&self) -> u64
        ensures { result ≡ self.now.revived }
    {
        self.revived
    }

    /// How many messages were sent.
    pub(crate) fn sent(&self) -> u64
        ensures { result ≡ self.now.sent }
    {
        self.sent
    }

    /// How long the members last together, in ticks.
    pub(crate) fn member_ticks(&self) -> u64
        ensures { result ≡ self.now.member_ticks }
    {
        self.member_ticks
    }
}

impl RunMetadata {
    /// What its setting counts of its incidents, where it has them.
    pub fn incidents(&self) -> Option<RunCounts>
        ensures { result ≡ self.now.incidents }
    {
        self.incidents
    }
}

/// What a setting counts of the incidents of a run that lasts so many microseconds, where it has them.
fn counts_told(incidents: Option<RunIncidents>, time: u64) -> Option<RunCounts>
    ensures { result ≡ option_map (counts_of time) incidents }
{
    match incidents {
        Some(run) => Some(counts_of(&run, time)),
        None => None,
    }
}

/// What a setting counts of incidents, likewise.
fn counts_of(run: &RunIncidents, time: u64) -> RunCounts
    ensures { result ≡ counts_of time run.now }
{
    RunCounts {
        alarms: run.alarms,
        deaths: run.deaths,
        deaths_well: run.deaths_well,
        time,
    }
}

/// How long a run of a scenario lasts, in microseconds.
fn time_of(scenario: &Scenario, tick: u64) -> u64
    requires { tick ≤ 1000000 }
    ensures { result ≡ scenario.now.end * tick }
{
    scenario.end().ticks() * tick
}

/// How each of these crashes was detected.
fn times_of_each(alloc: Global, crashes: &[DepartureReport]) -> Result<Vec<CrashTimes>, Memory>
    ensures { IfOk result (λ times. times.items ≡ map times_of crashes.now) }
{
    let mut times = Vec::new(alloc);
    for crash in crashes {
        times.push(times_of(crash))?;
    }
    Ok(times)
}

/// How long the members of a scenario last together, in ticks.
fn member_ticks(scenario: &Scenario) -> u64
    ensures { result ≡ member_count scenario.now * scenario.now.end }
{
    scenario.members() as u64 * scenario.end().ticks()
}
