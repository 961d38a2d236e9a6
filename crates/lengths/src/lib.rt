//! Lengths of time and shares as words say them: `1.5s` and `2h30m` in ticks, `2%` per million.
#![tactic(auto)]

mod fault;
pub mod laws;
mod numeral;
mod part;
mod share;
mod ticks;
mod unit;

pub use fault::LengthFault;
pub use share::share_of;
pub use ticks::{tick_of, ticks_of};
