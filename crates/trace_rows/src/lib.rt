//! The rows of a trace: of which kind they are, about whom, and where they stand.
#![tactic(auto)]

mod rows;

pub use rows::{has_kind, is_about};
