//! A plain text: a line for each key, below the header of its table, in the order in which they are given.
#![tactic(auto)]

pub mod laws;
mod line;
mod text;

pub use line::{PlainLine, PlainValue};
pub use text::plain_text;
