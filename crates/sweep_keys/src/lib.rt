//! A sweep's page: what each key that is set changes, as plots and in numbers.
#![tactic(auto)]

mod charts;
mod keys;
mod legend;
mod line;
mod lines;
mod rows;
mod statistic;

pub use keys::push_keys;
