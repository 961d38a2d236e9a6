//! A run's page: what happened, in a few words and numbers.
#![tactic(auto)]

mod summary;

pub use summary::push_summary;
