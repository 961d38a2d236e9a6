//! The scenarios that `init` prints: memberlist's defaults, and those of the papers.
#![tactic(auto)]

mod preset;
mod rows;
mod text;

pub use preset::Preset;
