//! How many false deaths a cluster has in a day, and the 95 % interval of that, from runs of one length.
#![tactic(auto)]

mod ends;
mod rates;
mod roots;

pub use rates::{RunDeaths, day_high, day_low, day_rate};
