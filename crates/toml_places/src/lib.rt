//! Where the keys, values, headers and items of a TOML document stand in its text.
//!
//! A document is read into places that are found by a path of keys and of numbers of items; each has its range of bytes, which
//! lies in the text, and a byte has its line and column.
#![tactic(auto)]

mod keys;
mod nodes;
mod places;
mod position;
mod reading;
mod span;
#[cfg(test)]
mod tests;

pub use nodes::NodeContent;
pub use places::{Places, Step};
pub use position::{Position, position_of};
pub use reading::read;
pub use span::Span;
