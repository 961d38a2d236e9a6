//! Diagnostics as lines for people, and as JSON.
#![tactic(auto)]

mod aliases;
mod as_json;
mod as_lines;
mod choice;
mod context;
mod decimal;
mod excerpt;
mod foreign;
mod fourth_words;
mod names;
mod nanoseconds;
mod nearest;
mod numbers;
mod rows;
mod shape_words;
mod shown;
mod value_words;
mod words;

pub use as_json::json;
pub use as_lines::lines;
