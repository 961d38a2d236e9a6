//! A line of a table with its checksum before it.
#![tactic(auto)]

mod cutting;
mod summing;

pub use cutting::{cut_at, first_line};
pub use summing::{checksum, key_of, summed, unsummed};
