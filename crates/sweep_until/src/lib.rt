//! A sweep in which each setting gets seeds only until the interval of its share of runs with a false death is narrow enough.
#![tactic(auto)]

mod lots;
mod parts;
mod runs;
mod tables;
mod until;
mod widths;

pub use runs::SettingRuns;
pub use tables::{sweep_until, write_table_until};
