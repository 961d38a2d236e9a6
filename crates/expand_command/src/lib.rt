//! The command `expand`: the plain text for which the scenario of a file stands.
#![tactic(auto)]

mod expanding;
mod texts;

pub use expanding::expand_file;
