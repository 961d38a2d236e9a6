//! What users read below the line of a failure: why, and what to do.
#![tactic(auto)]

mod file_reasons;
mod help;
mod lines;
mod names;
mod rereading;
mod runs;
mod scenarios;
mod settings;
mod shard_reasons;
mod surroundings;
mod tables;
mod telling;

pub use surroundings::Surroundings;
pub use telling::print_why;
