//! The figures of a setting, as members.
ghost use Rattle.std.specs.Prelude.{◌≡◌, ◌++◌, OnOk, map, string_bytes};
ghost use Rattle.sweep_output.specs.Objects.{day_members, figure_members, first_members, incident_members, last_members, some_members};

use crate::members::{
    push_hundredths, push_member, push_number, push_rate, push_tenths, push_time,
};
use base::Memory;
use figures::{ColumnSet, SettingSummary};
use incident_figures::{DayRates, IncidentSummary};
use std::alloc::Global;

/// Adds the figures of a setting, each with the name of its column, of these columns.
pub(crate) fn push_figures(
    alloc: Global,
    members: &mut Vec<String>,
    columns: ColumnSet,
    setting: &SettingSummary,
) -> Result<(), Memory>
    ensures { OnOk result (map string_bytes members.new.items ≡ map string_bytes members.old.items ++ figure_members columns setting.now) }
{
    push_first(alloc, members, setting)?;
    push_some(alloc, members, columns, setting)?;
    push_last(alloc, members, setting)
}

/// Adds the first of them.
#[tactic(auto, unfolding(crate::specs::Objects::first_members))]
fn push_first(
    alloc: Global,
    members: &mut Vec<String>,
    setting: &SettingSummary,
) -> Result<(), Memory>
    ensures { OnOk result (map string_bytes members.new.items ≡ map string_bytes members.old.items ++ first_members setting.now) }
{
    push_number(alloc, members, "runs", u128::from(setting.runs))?;
    push_time(alloc, members, "suspect_p50", setting.suspect_p50)?;
    push_time(alloc, members, "confirm_p50", setting.confirm_p50)?;
    push_time(alloc, members, "confirm_p99", setting.confirm_p99)?;
    push_time(alloc, members, "confirm_greatest", setting.confirm_greatest)?;
    push_time(alloc, members, "last_p50", setting.last_p50)?;
    push_time(alloc, members, "last_greatest", setting.last_greatest)?;
    push_hundredths(alloc, members, "false_suspect", setting.false_suspect)?;
    push_number(alloc, members, "thrown_out", setting.thrown_out)
}

/// Adds those that only some tables have.
#[tactic(auto, unfolding(crate::specs::Objects::some_members))]
fn push_some(
    alloc: Global,
    members: &mut Vec<String>,
    columns: ColumnSet,
    setting: &SettingSummary,
) -> Result<(), Memory>
    ensures { OnOk result (map string_bytes members.new.items ≡ map string_bytes members.old.items ++ some_members columns setting.now) }
{
    match columns {
        ColumnSet::First => Ok(()),
        ColumnSet::WithRevived => push_number(alloc, members, "revived", setting.revived),
        ColumnSet::WithIncidents => {
            push_number(alloc, members, "revived", setting.revived)?;
            push_incidents(alloc, members, setting.incidents)
        }
    }
}

/// Adds those of incidents, or null where there are none.
#[tactic(auto, unfolding(crate::specs::Objects::incident_members))]
fn push_incidents(
    alloc: Global,
    members: &mut Vec<String>,
    incidents: Option<IncidentSummary>,
) -> Result<(), Memory>
    ensures { OnOk result (map string_bytes members.new.items ≡ map string_bytes members.old.items ++ incident_members incidents) }
{
    match incidents {
        Some(told) => {
            push_hundredths(alloc, members, "alarms", told.alarms)?;
            push_number(alloc, members, "deaths", told.deaths)?;
            push_number(alloc, members, "deaths_well", told.deaths_well)?;
            push_day(alloc, members, told.day)
        }
        None => {
            push_member(alloc, members, "alarms", "null")?;
            push_member(alloc, members, "deaths", "null")?;
            push_member(alloc, members, "deaths_well", "null")?;
            push_day(alloc, members, None)
        }
    }
}

/// Adds the false deaths of a day and the ends of their interval, or null where no run lasts.
#[tactic(auto, unfolding(crate::specs::Objects::day_members))]
fn push_day(alloc: Global, members: &mut Vec<String>, day: Option<DayRates>) -> Result<(), Memory>
    ensures { OnOk result (map string_bytes members.new.items ≡ map string_bytes members.old.items ++ day_members day) }
{
    match day {
        Some(rates) => {
            push_hundredths(alloc, members, "deaths_day", rates.rate)?;
            push_hundredths(alloc, members, "day_low", rates.low)?;
            push_hundredths(alloc, members, "day_high", rates.high)
        }
        None => {
            push_member(alloc, members, "deaths_day", "null")?;
            push_member(alloc, members, "day_low", "null")?;
            push_member(alloc, members, "day_high", "null")
        }
    }
}

/// Adds the last of them.
#[tactic(auto, unfolding(crate::specs::Objects::last_members))]
fn push_last(
    alloc: Global,
    members: &mut Vec<String>,
    setting: &SettingSummary,
) -> Result<(), Memory>
    ensures { OnOk result (map string_bytes members.new.items ≡ map string_bytes members.old.items ++ last_members setting.now) }
{
    push_number(alloc, members, "runs_with", u128::from(setting.runs_with))?;
    push_tenths(alloc, members, "share_low", setting.share_low)?;
    push_tenths(alloc, members, "share_high", setting.share_high)?;
    push_rate(alloc, members, "messages", setting.messages)
}
