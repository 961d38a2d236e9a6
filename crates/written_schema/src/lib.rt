//! The tables and keys of a text of version 4: kinds, ranges, defaults, and which rules a document breaks outside its six lists
//! about members.
#![tactic(auto)]

mod references;
mod rows;
mod shape;
mod tables;
mod top;
mod values;

pub use references::reference_rule;
pub use rows::{AddedKey, WrittenKey, WrittenKind, WrittenRow, WrittenSection};
pub use shape::shape_rule;
pub use values::{NO_RULE, tick_of};
