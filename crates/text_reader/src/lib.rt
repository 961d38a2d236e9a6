//! The scenario of a text of any version. One of version 4 is read as the plain text for which it stands.
#![tactic(auto)]

pub mod laws;
mod reading;

pub use reading::{read_text, read_tree};
