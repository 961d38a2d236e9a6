//! The incidents of a run, and of all runs of a setting, as sweeps print them.
#![tactic(auto)]

mod deaths;
mod run;
mod setting;

pub use run::{RunCounts, RunIncidents};
pub use setting::{DayRates, IncidentSummary, SettingIncidents};
