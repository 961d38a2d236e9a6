//! Reads a scenario text, or refuses it by the lowest rule that it breaks.
#![tactic(auto)]

mod additions;
mod lists;
mod pairs;
mod reader;
mod references;
mod refusal;
mod roster;
mod tables;
mod times;

pub use additions::version_of;
pub use reader::{document, read, read_document};
pub use refusal::Refusal;
