//! A sweep's page: how long crashes took to be found, for each setting on the front.
#![tactic(auto)]

mod bars;
mod bins;
mod charts;
mod rows;
mod times;

pub use times::push_times;
