//! A run's page: how the news of crashes spread.
#![tactic(auto)]

mod news;
mod spread;

pub use spread::push_spread;
