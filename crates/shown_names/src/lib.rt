//! How a line shows a name: characters that end the line or are invisible are escaped.
#![tactic(auto)]

mod names;

pub use names::{ShownName, shown, write_name};
