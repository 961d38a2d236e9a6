//! What a scenario means, as a JSON value: its figures, and what it is warned of.
#![tactic(auto)]

mod document;
mod figures;
mod lists;
mod members;
mod script;
mod summaries;

pub use document::json_of;
