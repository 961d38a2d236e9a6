//! How long a tick of the simulation lasts, and the words that say so, as `1ms`.
#![tactic(auto)]

mod tick;
mod unit;

pub use tick::{Tick, tick_of};
