//! The progress of a run, printed as its rows come.
#![tactic(auto)]

mod watched;

pub use watched::Watched;
