//! What a text of version 4 stands for: its plain text, or the lowest rule that it breaks.
#![tactic(auto)]

mod entries;
mod error;
mod lists;
mod order;
mod text;
mod written;

pub use error::ExpandError;
pub use text::{expanded, tree_text};
