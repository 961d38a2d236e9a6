//! Which parts a run is divided into, and whether several threads pay.
#![tactic(auto)]

mod beats;
mod choosing;
mod divisions;
mod folding;
mod hands;
mod round_length;
mod shared;
mod sites;
mod small_runs;

pub use parallel_run::RunAccount;
pub use shared::run_shared;
pub use small_runs::paying_workers;
