//! The report of a run: counts and latencies over its rows, as text.
#![tactic(auto)]

mod absence;
mod absences;
mod account;
mod counts;
mod departure;
mod failures;
mod false_positives;
mod laws;
mod pairs;
mod past;
mod reporting;
mod return_text;
mod revivals;
mod tallies;
mod text;
mod watch;

pub use account::Account;
pub use departure::{DepartureReport, Detection};
pub use false_positives::{FalsePositive, false_positive_count, healthy_false_positive_count};
pub use laws::{first_reports_stay, second_reports_add_a_line};
pub use reporting::{message_kinds, report, report_on};
pub use tallies::Tallies;
