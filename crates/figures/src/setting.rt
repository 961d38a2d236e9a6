//! The figures of a setting: of runs that belong together.
ghost use Rattle.std.specs.Prelude.{◌≡◌, ◌+◌, ◌<◌, ◌≤◌, ◌*◌, ◌/◌, ◌^◌, ◌==◌, ◌++◌, ◌∷◌, [], List, IfOk, if◌then◌else◌, length};
ghost use Rattle.figures.specs.Notes.{Note};
ghost use Rattle.std.specs.Option.{option_to_list};
ghost use Rattle.incident_figures.specs.declared.run.RunCounts.{RunCounts as ACount};
ghost use Rattle.incident_figures.specs.Settings.{AreIncidentsOf, runs_kept as incidents_kept};
ghost use Rattle.figures.specs.Settings.{AreIncidents, false_deaths};

use crate::deaths::{deaths_high, deaths_low, deaths_of, false_deaths, square};
use crate::histogram::histogram_of;
use crate::notes::RunMetadata;
use crate::ranks::percentile;
use crate::shares::{share_high, share_low};
use crate::summary::SettingSummary;
use crate::times::{push_confirmed, push_last, push_suspected};
use base::Memory;
use incident_figures::{IncidentSummary, RunCounts, SettingIncidents};
use std::alloc::Global;

/// The figures of a setting: of runs that belong together, such as those of one scenario with many
/// seeds. There is room for 1,000,000 runs.
#[derive(Drop)]
pub struct SettingFigures {
    /// How many runs there are.
    runs: u64,
    /// How many members crashed in them.
    crashes: u128,
    /// The time until a crash was first suspected, for each that was, in ticks since the crash.
    suspected: Vec<u64>,
    /// The time until it was first confirmed, likewise.
    confirmed: Vec<u64>,
    /// The time until it was last confirmed, likewise.
    last: Vec<u64>,
    /// How many suspicions were false positives.
    false_suspect: u128,
    /// How many members had a false death.
    thrown_out: u128,
    /// How often members were taken for alive again.
    revived: u128,
    /// In how many runs members had a false death.
    runs_with: u64,
    /// The sum of the false deaths of each run, of which at most 1,000,000 count.
    deaths: u128,
    /// The sum of their squares.
    squares: u128,
    /// How many messages were sent.
    sent: u128,
    /// How long the members of each run last together, in ticks.
    member_ticks: u128,
    /// The incidents of those of the runs that have them.
    incidents: SettingIncidents,
    ghost crashes_fit: { crashes ≤ runs * 2 ^ 64 },
    ghost false_suspect_fit: { false_suspect ≤ runs * 2 ^ 64 },
    ghost thrown_out_fit: { thrown_out ≤ runs * 2 ^ 64 },
    ghost revived_fit: { revived ≤ runs * 2 ^ 64 },
    ghost sent_fit: { sent ≤ runs * 2 ^ 64 },
    ghost member_ticks_fit: { member_ticks ≤ runs * 2 ^ 64 },
    ghost deaths_fit: { deaths ≤ runs * 1000000 },
    ghost squares_fit: { squares ≤ runs * 1000000 ^ 2 },
    ghost runs_with_fit: { runs_with ≤ runs },
    ghost few: { runs ≤ 1000000 },
    ghost incidents_fit: { incidents_kept incidents ≤ runs },
}

impl SettingFigures {
    ghost use Rattle.figures.specs.Settings.{IsSummaryOf};
    ghost use Rattle.figures.specs.Kept.{runs_kept, AreFiguresOf};

    /// The figures of no runs. It takes no memory.
    pub fn new(alloc: Global) -> SettingFigures
        ensures { AreFiguresOf result [] }
    {
        SettingFigures {
            runs: 0,
            crashes: 0,
            suspected: Vec::new(alloc),
            confirmed: Vec::new(alloc),
            last: Vec::new(alloc),
            false_suspect: 0,
            thrown_out: 0,
            revived: 0,
            runs_with: 0,
            deaths: 0,
            squares: 0,
            sent: 0,
            member_ticks: 0,
            incidents: SettingIncidents::new(),
        }
    }

    /// How many runs there are.
    pub fn runs(&self) -> u64
        ensures { result ≡ runs_kept self.now }
    {
        self.runs
    }

    /// The figures with one run more, of which this is kept. Where memory is refused nothing is left of them.
    pub fn with(self, note: &RunMetadata) -> Result<SettingFigures, Memory>
        requires { runs_kept self < 1000000 }
        ensures { IfOk result (λ setting. (runs : List Note) → AreFiguresOf self runs → AreFiguresOf setting (runs ++ note.now ∷ [])) }
    {
        let mut setting = self;
        let crashes = note.crashes();
        push_suspected(&mut setting.suspected, crashes)?;
        push_confirmed(&mut setting.confirmed, crashes)?;
        push_last(&mut setting.last, crashes)?;
        setting.count(note);
        Ok(setting)
    }

    /// The summary of the runs. It brings the times into order, which takes memory for a while, and
    /// fails where that is refused.
    pub fn summary(self) -> Result<SettingSummary, Memory>
        requires { 0 < runs_kept self }
        ensures { IfOk result (λ summary. (runs : List Note) → AreFiguresOf self runs → IsSummaryOf summary runs) }
    {
        let mut setting = self;
        let confirm_times = histogram_of(setting.confirmed.as_slice());
        setting.suspected.sort()?;
        setting.confirmed.sort()?;
        setting.last.sort()?;
        let suspected = setting.suspected.as_slice();
        let confirmed = setting.confirmed.as_slice();
        let last = setting.last.as_slice();
        Ok(SettingSummary {
            runs: setting.runs,
            crashes: setting.crashes,
            suspect_p5: percentile(suspected, setting.crashes, 5),
            suspect_p50: percentile(suspected, setting.crashes, 50),
            suspect_p95: percentile(suspected, setting.crashes, 95),
            confirm_p5: percentile(confirmed, setting.crashes, 5),
            confirm_p50: percentile(confirmed, setting.crashes, 50),
            confirm_p95: percentile(confirmed, setting.crashes, 95),
            confirm_p99: percentile(confirmed, setting.crashes, 99),
            confirm_greatest: percentile(confirmed, setting.crashes, 100),
            confirm_times,
            last_p5: percentile(last, setting.crashes, 5),
            last_p50: percentile(last, setting.crashes, 50),
            last_p95: percentile(last, setting.crashes, 95),
            last_greatest: percentile(last, setting.crashes, 100),
            false_suspect: setting.false_suspect * 100 / u128::from(setting.runs),
            thrown_out: setting.thrown_out,
            revived: setting.revived,
            runs_with: setting.runs_with,
            share_low: share_low(setting.runs_with, setting.runs),
            share_high: share_high(setting.runs_with, setting.runs),
            deaths: deaths_of(setting.thrown_out, setting.runs),
            deaths_low: deaths_low(setting.deaths, setting.squares, setting.runs),
            deaths_high: deaths_high(setting.deaths, setting.squares, setting.runs),
            messages: message_rate(setting.sent, setting.member_ticks),
            incidents: incidents_of(&setting.incidents),
        })
    }

    /// Counts a run.
    fn count(&mut self, note: &RunMetadata)
        requires { self.old.runs < 1000000 }
        ensures suspected { self.new.suspected.items ≡ self.old.suspected.items }
        ensures confirmed { self.new.confirmed.items ≡ self.old.confirmed.items }
        ensures last { self.new.last.items ≡ self.old.last.items }
        ensures runs { self.new.runs ≡ self.old.runs + 1 }
        ensures crashes { self.new.crashes ≡ self.old.crashes + length note.now.crashes }
        ensures false_suspect { self.new.false_suspect ≡ self.old.false_suspect + note.now.false_suspect }
        ensures thrown_out { self.new.thrown_out ≡ self.old.thrown_out + note.now.thrown_out }
        ensures revived { self.new.revived ≡ self.old.revived + note.now.revived }
        ensures runs_with { self.new.runs_with ≡ self.old.runs_with + (if note.now.thrown_out == 0 then 0 else 1) }
        ensures deaths { self.new.deaths ≡ self.old.deaths + false_deaths note.now }
        ensures squares { self.new.squares ≡ self.old.squares + false_deaths note.now * false_deaths note.now }
        ensures sent { self.new.sent ≡ self.old.sent + note.now.sent }
        ensures member_ticks { self.new.member_ticks ≡ self.old.member_ticks + note.now.member_ticks }
        ensures incidents { (runs : List ACount) → AreIncidentsOf self.old.incidents runs → AreIncidentsOf self.new.incidents (runs ++ option_to_list note.now.incidents) }
    {
        self.runs += 1;
        self.crashes += note.crashes().len() as u128;
        self.false_suspect += u128::from(note.false_suspect());
        self.thrown_out += u128::from(note.thrown_out());
        self.revived += u128::from(note.revived());
        if note.thrown_out() != 0 {
            self.runs_with += 1;
        }
        let deaths = false_deaths(note);
        self.deaths += deaths;
        self.squares += square(deaths);
        self.sent += u128::from(note.sent());
        self.member_ticks += u128::from(note.member_ticks());
        self.incidents = incidents_with(self.incidents, note.incidents());
    }
}

/// The incidents with those of one run more, where it has them.
fn incidents_with(incidents: SettingIncidents, run: Option<RunCounts>) -> SettingIncidents
    requires { incidents_kept incidents < 1000000 }
    ensures all { (runs : List ACount) → AreIncidentsOf incidents runs → AreIncidentsOf result (runs ++ option_to_list run) }
    ensures few { incidents_kept result ≤ incidents_kept incidents + 1 }
{
    match run {
        Some(counts) => incidents.with(&counts),
        None => incidents,
    }
}

/// The incidents as the line of a setting has them, where there are any.
fn incidents_of(incidents: &SettingIncidents) -> Option<IncidentSummary>
    ensures { (runs : List ACount) → AreIncidentsOf incidents.now runs → AreIncidents result runs }
{
    if incidents.runs() == 0 {
        return None;
    }
    Some(incidents.summary())
}

/// Messages a member and 1,000 ticks, in hundredths, where the runs last at all.
fn message_rate(sent: u128, member_ticks: u128) -> Option<u128>
    requires { sent ≤ 1000000 * 2 ^ 64 }
    ensures { result ≡ (if member_ticks == 0 then None else Some (sent * 100000 / member_ticks)) }
{
    if member_ticks == 0 {
        return None;
    }
    Some(sent * 100_000 / member_ticks)
}
