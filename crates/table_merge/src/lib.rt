//! The tables of a sweep put together: all its shards, or tables with adjacent seeds.
#![tactic(auto)]

mod fault;
mod finding;
mod joining;
pub mod laws;
mod lines;
mod merging;
mod ordering;
mod plans;

pub use fault::MergeFault;
pub use joining::join;
