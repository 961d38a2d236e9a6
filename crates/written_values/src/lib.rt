//! The values of a text of version 4, rules 4 and 5: ticks as numbers or lengths, shares, how long a tick is.
#![tactic(auto)]

mod fault;
mod shares;
mod tick;
mod ticks;

pub use fault::ValueFault;
pub use shares::share_in;
pub use tick::tick_in;
pub use ticks::ticks_in;
